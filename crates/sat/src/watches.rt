ghost use Rattle.std.specs.Prelude.{◌≡◌, ◌<◌, ◌≤◌, IfOk, IfSome, length};
ghost use Rattle.sat.specs.Values.{open_count};

use crate::clauses::Clauses;
use crate::lit::Lit;
use crate::tables::{at, put, short};
use crate::trail::{NONE, Trail, assign, is_false, level_of, seems_true, value};
use crate::values::Truth;
use std::alloc::{AllocError, Global};
use std::mem;

/// Where the copy of a clause begins that watches a literal, and another literal of it: where that is true, the clause forces
/// nothing.
#[derive(Clone, Copy)]
struct Watch {
    place: u32,
    blocker: Lit,
}

const NO_WATCH: Watch = Watch {
    place: NONE,
    blocker: Lit { code: NONE },
};

/// A clause of two literals, and the one that becomes true where the other is false.
#[derive(Clone, Copy)]
struct Implied {
    clause: u32,
    lit: Lit,
}

/// What is looked at when a literal becomes false.
struct Near {
    /// The clauses of two literals that it is in.
    twos: Vec<Implied>,
    /// Its watches in clauses of three literals or more.
    watches: Vec<Watch>,
}

impl Drop for Near {
    fn drop(self) {
        let Near {
            twos: _,
            watches: _,
        } = self;
    }
}

/// Two literals of each clause, by which it is seen when it forces one (Moskewicz et al. 2001). All of it is hints.
pub(crate) struct Watches {
    /// By literals.
    lists: Vec<Near>,
    /// The clauses that are watched once more, so that what is read of one lies together: its number, where its copy ends,
    /// and the codes of its literals, of which the first two are watched.
    copies: Vec<u32>,
    /// The watches of the literal that is gone through.
    current: Vec<Watch>,
}

impl Drop for Watches {
    fn drop(self) {
        let Watches {
            lists: _,
            copies: _,
            current: _,
        } = self;
    }
}

impl Watches {
    /// Without variables.
    pub(crate) fn new(alloc: Global) -> Watches {
        Watches {
            lists: Vec::new(alloc),
            copies: Vec::new(alloc),
            current: Vec::new(alloc),
        }
    }
}

/// Adds variables up to so many.
pub(crate) fn widen(
    alloc: Global,
    watches: &mut Watches,
    variables: usize,
) -> Result<(), AllocError> {
    for _ in watches.lists.as_slice().len()..variables.saturating_mul(2) {
        let near = Near {
            twos: Vec::new(alloc),
            watches: Vec::new(alloc),
        };
        watches.lists.push(near)?;
    }
    Ok(())
}

/// Watches nothing.
pub(crate) fn clear(watches: &mut Watches) {
    watches.copies.clear();
    watches.current.clear();
    for near in watches.lists.iter_mut() {
        near.twos.clear();
        near.watches.clear();
    }
}

/// A literal is in a clause of two.
fn add_two(lists: &mut [Near], lit: Lit, implied: Implied) -> Result<(), AllocError> {
    let place = lit.code as usize;
    if place < lists.len() {
        lists[place].twos.push(implied)?;
    }
    Ok(())
}

/// A clause watches a literal.
#[inline(always)]
fn add_watch(lists: &mut [Near], lit: Lit, watch: Watch) -> Result<(), AllocError> {
    let place = lit.code as usize;
    if place < lists.len() {
        lists[place].watches.push(watch)?;
    }
    Ok(())
}

/// How well a literal serves as a watch: the later it becomes false the better.
fn rank(trail: &Trail, lit: Lit) -> u32 {
    match value(trail, lit) {
        Truth::False => level_of(trail, lit),
        Truth::True => NONE,
        Truth::Open => NONE,
    }
}

/// The two literals that serve best as watches, and the level at which the second became false.
#[derive(Clone, Copy)]
pub(crate) struct Pair {
    pub(crate) first: Lit,
    pub(crate) second: Lit,
    pub(crate) level: u32,
}

pub(crate) fn best_pair(trail: &Trail, clause: &[Lit]) -> Pair {
    let mut pair = Pair {
        first: Lit { code: NONE },
        second: Lit { code: NONE },
        level: 0,
    };
    let mut best = 0;
    for lit in clause {
        let one = rank(trail, *lit);
        if pair.first.code == NONE || one > best {
            pair.level = if pair.first.code == NONE { 0 } else { best };
            pair.second = pair.first;
            pair.first = *lit;
            best = one;
        } else if pair.second.code == NONE || one > pair.level {
            pair.second = *lit;
            pair.level = one;
        }
    }
    pair
}

/// Copies a clause, the watched literals first. It answers where the copy begins.
fn copy(
    copies: &mut Vec<u32>,
    number: u32,
    clause: &[Lit],
    pair: &Pair,
) -> Result<u32, AllocError> {
    let place = short(copies.as_slice().len());
    copies.extend_from_slice(&[number, NONE, pair.first.code, pair.second.code])?;
    for lit in clause {
        if lit.code != pair.first.code && lit.code != pair.second.code {
            copies.push(lit.code)?;
        }
    }
    let end = short(copies.as_slice().len());
    if end == NONE {
        return Err(AllocError);
    }
    put(copies, place as usize + 1, end);
    Ok(place)
}

/// Watches two literals of a clause, if it has two.
pub(crate) fn attach(
    watches: &mut Watches,
    number: u32,
    clause: &[Lit],
    pair: &Pair,
) -> Result<(), AllocError> {
    if pair.second.code == NONE {
        return Ok(());
    }
    let ways = [(pair.first, pair.second), (pair.second, pair.first)];
    if clause.len() == 2 {
        for (lit, other) in ways {
            let implied = Implied {
                clause: number,
                lit: other,
            };
            add_two(&mut watches.lists, lit, implied)?;
        }
        return Ok(());
    }
    let place = copy(&mut watches.copies, number, clause, pair)?;
    for (lit, blocker) in ways {
        add_watch(&mut watches.lists, lit, Watch { place, blocker })?;
    }
    Ok(())
}

/// The place past the watched literals of a copy at which a literal may be watched in place of a false one.
#[inline(always)]
fn replacement(trail: &Trail, copies: &[u32], place: usize) -> Option<usize> {
    let first = place.wrapping_add(4);
    let end = at(copies, place.wrapping_add(1), 0) as usize;
    let others = copies.get(first..end)?;
    let other = others
        .iter()
        .position(|code| !is_false(trail, Lit { code: *code }))?;
    Some(first.wrapping_add(other))
}

/// Writes a literal to a copy in place of a watched one that is false. It answers the literal.
#[inline(always)]
fn replace(copies: &mut [u32], place: usize, gone: Lit, other: usize) -> Lit {
    let lit = Lit {
        code: at(copies, other, NONE),
    };
    let first = place.wrapping_add(2);
    let is_first = at(copies, first, NONE) == gone.code;
    let watched = if is_first {
        first
    } else {
        place.wrapping_add(3)
    };
    put(copies, watched, lit.code);
    put(copies, other, gone.code);
    lit
}

/// What becomes of a watch whose literal is false.
#[derive(Clone, Copy)]
enum Outlook {
    /// It stays, with this blocker.
    Stays(Lit),
    /// The clause watches another literal in its place.
    Moves,
    /// All literals of the clause with this number are false.
    Fails(u32),
}

/// Looks at a clause one of whose watched literals has become false, and makes its last literal true.
#[inline(always)]
fn look(
    trail: &mut Trail,
    lists: &mut [Near],
    copies: &mut [u32],
    watch: Watch,
    gone: Lit,
) -> Result<Outlook, AllocError>
    ensures { open_count trail.new.values.items ≤ open_count trail.old.values.items }
{
    let place = watch.place as usize;
    let both = at(copies, place + 2, NONE) ^ at(copies, place + 3, NONE);
    let other = Lit {
        code: both ^ gone.code,
    };
    if seems_true(trail, other) {
        return Ok(Outlook::Stays(other));
    }
    if let Some(next) = replacement(trail, copies, place) {
        let lit = replace(copies, place, gone, next);
        let moved = Watch {
            place: watch.place,
            blocker: other,
        };
        add_watch(lists, lit, moved)?;
        return Ok(Outlook::Moves);
    }
    let number = at(copies, place, NONE);
    if is_false(trail, other) {
        return Ok(Outlook::Fails(number));
    }
    assign(trail, other, number)?;
    Ok(Outlook::Stays(other))
}

/// Goes through the watches of a literal that has become false, and leaves those that stay, in their order. It answers a
/// clause that has no other literals.
fn sift(
    database: &Clauses,
    trail: &mut Trail,
    lists: &mut [Near],
    copies: &mut [u32],
    list: &mut Vec<Watch>,
    gone: Lit,
) -> Result<Option<u32>, AllocError>
    ensures open { open_count trail.new.values.items ≤ open_count trail.old.values.items }
    ensures conflict { IfOk result (λ found. IfSome found (λ number. number < length database.now)) }
{
    let mut kept: usize = 0;
    let mut found = None;
    for place in 0..list.as_slice().len() {
        let mut watch = at(list, place, NO_WATCH);
        if !seems_true(trail, watch.blocker) && found.is_none() {
            match look(trail, lists, copies, watch, gone)? {
                Outlook::Stays(blocker) => watch.blocker = blocker,
                Outlook::Moves => continue,
                Outlook::Fails(number) if number < database.len() => found = Some(number),
                Outlook::Fails(_) => (),
            }
        }
        put(list, kept, watch);
        kept = kept.wrapping_add(1);
    }
    list.truncate(kept);
    Ok(found)
}

/// Follows the clauses of two literals one of which has become false. It answers one whose other literal is false.
fn follow_all(
    database: &Clauses,
    trail: &mut Trail,
    all: &[Implied],
) -> Result<Option<u32>, AllocError>
    ensures open { open_count trail.new.values.items ≤ open_count trail.old.values.items }
    ensures conflict { IfOk result (λ found. IfSome found (λ number. number < length database.now)) }
{
    for implied in all {
        if seems_true(trail, implied.lit) {
            continue;
        }
        if !is_false(trail, implied.lit) {
            assign(trail, implied.lit, implied.clause)?;
        } else if implied.clause < database.len() {
            return Ok(Some(implied.clause));
        }
    }
    Ok(None)
}

/// Follows the clauses of two literals that a literal is in.
fn follow_twos(
    database: &Clauses,
    trail: &mut Trail,
    watches: &Watches,
    gone: Lit,
) -> Result<Option<u32>, AllocError>
    ensures open { open_count trail.new.values.items ≤ open_count trail.old.values.items }
    ensures conflict { IfOk result (λ found. IfSome found (λ number. number < length database.now)) }
{
    match watches.lists.as_slice().get(gone.code as usize) {
        None => Ok(None),
        Some(near) => follow_all(database, trail, &near.twos),
    }
}

/// Changes the current watches for those of a literal.
fn change(watches: &mut Watches, lit: Lit) {
    let place = lit.code as usize;
    if place < watches.lists.as_slice().len() {
        mem::swap(&mut watches.lists[place].watches, &mut watches.current);
    }
}

/// Goes through the clauses of three literals or more that watch a literal which has become false. It answers one that has
/// no other literals.
fn visit(
    database: &Clauses,
    trail: &mut Trail,
    watches: &mut Watches,
    gone: Lit,
) -> Result<Option<u32>, AllocError>
    ensures open { open_count trail.new.values.items ≤ open_count trail.old.values.items }
    ensures conflict { IfOk result (λ found. IfSome found (λ number. number < length database.now)) }
{
    change(watches, gone);
    let found = sift(
        database,
        trail,
        &mut watches.lists,
        &mut watches.copies,
        &mut watches.current,
        gone,
    )?;
    change(watches, gone);
    Ok(found)
}

/// Follows what the clauses force. It answers a clause all of whose literals have become false.
pub(crate) fn propagate(
    database: &Clauses,
    trail: &mut Trail,
    watches: &mut Watches,
) -> Result<Option<u32>, AllocError>
    ensures open { open_count trail.new.values.items ≤ open_count trail.old.values.items }
    ensures conflict { IfOk result (λ found. IfSome found (λ number. number < length database.now)) }
{
    for _ in trail.head..trail.values.as_slice().len() {
        if trail.head >= trail.lits.as_slice().len() {
            break;
        }
        let lit = trail.lits[trail.head];
        trail.head += 1;
        if let Some(conflict) = follow_twos(database, trail, watches, lit.negated())? {
            return Ok(Some(conflict));
        }
        if let Some(conflict) = visit(database, trail, watches, lit.negated())? {
            return Ok(Some(conflict));
        }
    }
    Ok(None)
}
