use crate::clauses::Clauses;
use crate::lit::Lit;
use crate::tables::{at, put};
use crate::trail::{Trail, is_implied, level, level_of, reason_of};
use crate::working::Working;
use std::alloc::{AllocError, Global};

/// What is known of a literal while a clause is made shorter.
#[derive(Clone, Copy)]
enum Standing {
    /// It is in the clause.
    Listed,
    /// Others of the clause make it false.
    Found,
    /// They don't, as far as the search goes.
    Failed,
}

/// What is known of a variable, and the number of the clause for which that was found.
#[derive(Clone, Copy)]
struct Mark {
    stamp: u32,
    standing: Standing,
}

const NO_MARK: Mark = Mark {
    stamp: 0,
    standing: Standing::Failed,
};

/// A literal whose reason is looked at, from so many literals on.
#[derive(Clone, Copy)]
struct Visit {
    lit: Lit,
    next: usize,
}

/// Which literals a clause can do without, since the others and the reasons of the trail make them false (Sörensson and
/// Biere 2009). All of it is hints.
pub(crate) struct Redundancy {
    /// The literals on which to resolve, the last one first: those of the clause that it can do without, and those between
    /// them and the rest of the clause. Each is after those that its reason brings in.
    pub(crate) found: Vec<Lit>,
    marks: Vec<Mark>,
    stamp: u32,
    /// The literals whose reasons are being looked at, each in the reason of the one before.
    visits: Vec<Visit>,
}

impl Drop for Redundancy {
    fn drop(self) {
        let Redundancy {
            found: _,
            marks: _,
            stamp: _,
            visits: _,
        } = self;
    }
}

impl Redundancy {
    /// Without variables.
    pub(crate) fn new(alloc: Global) -> Redundancy {
        Redundancy {
            found: Vec::new(alloc),
            marks: Vec::new(alloc),
            stamp: 0,
            visits: Vec::new(alloc),
        }
    }
}

/// Adds variables up to so many.
pub(crate) fn widen(redundancy: &mut Redundancy, variables: usize) -> Result<(), AllocError> {
    redundancy.marks.resize(variables, NO_MARK)
}

fn set_standing(redundancy: &mut Redundancy, lit: Lit, standing: Standing) {
    let mark = Mark {
        stamp: redundancy.stamp,
        standing,
    };
    put(&mut redundancy.marks, lit.variable() as usize, mark);
}

/// A set of levels, of which some count as the same one.
#[derive(Clone, Copy)]
struct Levels {
    bits: u64,
}

fn bit_of(level: u32) -> u64 {
    1_u64 << (level % 64)
}

/// The levels of these literals, and level 0.
fn levels_of(trail: &Trail, lits: &[Lit]) -> Levels {
    let bits = lits.iter().fold(bit_of(0), |bits, lit| bits | bit_of(level_of(trail, *lit)));
    Levels { bits }
}

/// Whether a literal may be found: a clause made it false at one of the levels.
fn may_be_found(database: &Clauses, trail: &Trail, levels: Levels, lit: Lit) -> bool {
    reason_of(trail, lit) < database.len() && levels.bits & bit_of(level_of(trail, lit)) != 0
}

/// What is known of a literal, and none where its reason is to be looked at.
#[inline(always)]
fn standing_of(
    database: &Clauses,
    trail: &Trail,
    redundancy: &Redundancy,
    levels: Levels,
    lit: Lit,
) -> Option<Standing> {
    let mark = at(&redundancy.marks, lit.variable() as usize, NO_MARK);
    if mark.stamp == redundancy.stamp {
        Some(mark.standing)
    } else if may_be_found(database, trail, levels, lit) {
        None
    } else {
        Some(Standing::Failed)
    }
}

/// Where the look at a reason has come to.
#[derive(Clone, Copy)]
enum Step {
    /// A literal of it is to be looked at first, and then those from a place on.
    Below(Lit, usize),
    /// All its other literals are found or in the clause.
    Found,
    Failed,
}

/// Goes through the other literals of a literal's reason.
fn look(
    database: &Clauses,
    trail: &Trail,
    redundancy: &Redundancy,
    levels: Levels,
    visit: Visit,
) -> Step {
    let number = reason_of(trail, visit.lit);
    if number >= database.len() {
        return Step::Failed;
    }
    let clause = database.clause(number);
    for place in visit.next..clause.len() {
        let other = clause[place];
        if other.variable() == visit.lit.variable() {
            continue;
        }
        match standing_of(database, trail, redundancy, levels, other) {
            None => return Step::Below(other, place + 1),
            Some(Standing::Failed) => return Step::Failed,
            Some(Standing::Listed) => (),
            Some(Standing::Found) => (),
        }
    }
    Step::Found
}

/// Ends the look at a literal, which the clause can do without. What is in the clause stays marked so.
fn settle(redundancy: &mut Redundancy, lit: Lit) -> Result<(), AllocError> {
    redundancy.visits.pop();
    if !redundancy.visits.as_slice().is_empty() {
        set_standing(redundancy, lit, Standing::Found);
    }
    redundancy.found.push(lit)?;
    Ok(())
}

/// None of the literals that are looked at can be done without. The first one is in the clause.
fn fail(redundancy: &mut Redundancy) {
    for place in 1..redundancy.visits.as_slice().len() {
        if let Some(visit) = redundancy.visits.as_slice().get(place).copied() {
            set_standing(redundancy, visit.lit, Standing::Failed);
        }
    }
    redundancy.visits.clear();
}

/// Looks at the literal of a reason before the rest of that.
fn descend(redundancy: &mut Redundancy, lit: Lit, next: usize) -> Result<(), AllocError> {
    if let Some(visit) = redundancy.visits.last_mut() {
        visit.next = next;
    }
    redundancy.visits.push(Visit { lit, next: 0 })?;
    Ok(())
}

/// Finds a literal of the clause with all that lies between it and the rest of the clause, if it can be done without.
fn find(
    database: &Clauses,
    trail: &Trail,
    redundancy: &mut Redundancy,
    levels: Levels,
    lit: Lit,
) -> Result<(), AllocError> {
    redundancy.visits.clear();
    redundancy.visits.push(Visit { lit, next: 0 })?;
    for _ in 0..redundancy.marks.as_slice().len().saturating_mul(2) {
        let Some(visit) = redundancy.visits.last().copied() else {
            return Ok(());
        };
        match look(database, trail, redundancy, levels, visit) {
            Step::Below(other, next) => descend(redundancy, other, next)?,
            Step::Found => settle(redundancy, visit.lit)?,
            Step::Failed => fail(redundancy),
        }
    }
    Ok(())
}

/// Begins with another clause.
fn begin(redundancy: &mut Redundancy, lits: &[Lit]) {
    redundancy.found.clear();
    redundancy.stamp = redundancy.stamp.wrapping_add(1);
    for lit in lits {
        set_standing(redundancy, *lit, Standing::Listed);
    }
}

/// Finds the literals of the clause that became false by the assumptions.
pub(crate) fn find_implied(
    trail: &Trail,
    redundancy: &mut Redundancy,
    working: &Working,
) -> Result<(), AllocError> {
    redundancy.found.clear();
    for lit in &working.lits {
        if is_implied(trail, *lit) {
            redundancy.found.push(*lit)?;
        }
    }
    Ok(())
}

/// Finds the literals on which to resolve.
pub(crate) fn find_all(
    database: &Clauses,
    trail: &Trail,
    redundancy: &mut Redundancy,
    working: &Working,
) -> Result<(), AllocError> {
    begin(redundancy, &working.lits);
    let levels = levels_of(trail, &working.lits);
    for lit in &working.lits {
        if level_of(trail, *lit) != level(trail) && reason_of(trail, *lit) < database.len() {
            find(database, trail, redundancy, levels, *lit)?;
        }
    }
    Ok(())
}
