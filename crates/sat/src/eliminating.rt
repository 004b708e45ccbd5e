ghost use Rattle.std.specs.Prelude.{◌≡◌};
ghost use Rattle.sat.specs.Cnf.{Extends};

use crate::analysis::resolvent;
use crate::clauses::Clauses;
use crate::elimination::{is_gone, save};
use crate::learning::keep;
use crate::lit::Lit;
use crate::merits::{GIVEN, add};
use crate::search::Search;
use crate::tables::{at, put};
use crate::trail::{NONE, Trail, is_false, is_open};
use crate::working::{Working, has};
use std::alloc::{AllocError, Global};

/// The clauses in which each literal is, while variables are eliminated. All of it is hints.
struct Uses {
    lists: Vec<Vec<u32>>,
    /// Whether each clause is out of use: what is replaced, was learned, or is true for good.
    is_out: Vec<bool>,
    /// The clauses that have the variable in question, as it is and negated.
    positive: Vec<u32>,
    negative: Vec<u32>,
    /// Variables that stay.
    is_frozen: Vec<bool>,
    /// By literals the number of the last clause that was marked and had it.
    stamps: Vec<u32>,
    stamp: u32,
}

impl Drop for Uses {
    fn drop(self) {
        let Uses {
            lists: _,
            is_out: _,
            positive: _,
            negative: _,
            is_frozen: _,
            stamps: _,
            stamp: _,
        } = self;
    }
}

impl Uses {
    /// Without clauses.
    fn new(alloc: Global) -> Uses {
        Uses {
            lists: Vec::new(alloc),
            is_out: Vec::new(alloc),
            positive: Vec::new(alloc),
            negative: Vec::new(alloc),
            is_frozen: Vec::new(alloc),
            stamps: Vec::new(alloc),
            stamp: 0,
        }
    }
}

/// Adds variables up to so many.
fn widen(alloc: Global, uses: &mut Uses, variables: usize) -> Result<(), AllocError> {
    for _ in 0..variables.saturating_mul(2) {
        uses.lists.push(Vec::new(alloc))?;
    }
    uses.stamps.resize(variables.saturating_mul(2), 0)?;
    uses.is_frozen.resize(variables, false)
}

fn note_use(lists: &mut [Vec<u32>], lit: Lit, number: u32) -> Result<(), AllocError> {
    let place = lit.code as usize;
    if place < lists.len() {
        lists[place].push(number)?;
    }
    Ok(())
}

/// Adds the next clause, the one with this number.
fn note_clause(uses: &mut Uses, clause: &[Lit], number: u32) -> Result<(), AllocError> {
    uses.is_out.push(false)?;
    for lit in clause {
        note_use(&mut uses.lists, *lit, number)?;
    }
    Ok(())
}

fn is_satisfied(trail: &Trail, clause: &[Lit]) -> bool {
    for lit in clause {
        if is_false(trail, lit.negated()) {
            return true;
        }
    }
    false
}

/// Adds the clauses of the database.
fn note_all(database: &Clauses, search: &Search, uses: &mut Uses) -> Result<(), AllocError> {
    for number in 0..database.len() {
        let clause = database.clause(number);
        let merit = at(&search.merits.merits, number as usize, GIVEN);
        if merit.glue > 0 || is_satisfied(&search.trail, clause) {
            uses.is_out.push(true)?;
        } else {
            note_clause(uses, clause, number)?;
        }
    }
    Ok(())
}

/// The variables of these literals stay.
fn freeze(uses: &mut Uses, lits: &[Lit]) {
    for lit in lits {
        put(&mut uses.is_frozen, lit.variable() as usize, true);
    }
}

/// Writes a literal's clauses that are in use to a list.
fn collect(
    lists: &[Vec<u32>],
    is_out: &[bool],
    lit: Lit,
    list: &mut Vec<u32>,
) -> Result<(), AllocError> {
    list.clear();
    if let Some(numbers) = lists.get(lit.code as usize) {
        for number in numbers {
            if !at(is_out, *number as usize, true) {
                list.push(*number)?;
            }
        }
    }
    Ok(())
}

fn is_marked(uses: &Uses, lit: Lit) -> bool {
    at(&uses.stamps, lit.code as usize, 0) == uses.stamp
}

/// Marks the literals of a clause.
fn mark(uses: &mut Uses, clause: &[Lit]) {
    uses.stamp = uses.stamp.wrapping_add(1);
    for lit in clause {
        put(&mut uses.stamps, lit.code as usize, uses.stamp);
    }
}

/// How many literals a clause adds to the marked one by resolution on a literal of that, and none where what follows always
/// holds.
fn added_by(uses: &Uses, clause: &[Lit], lit: Lit) -> Option<usize> {
    let mut added: usize = 0;
    for other in clause {
        if other.variable() == lit.variable() {
            continue;
        }
        if is_marked(uses, other.negated()) {
            return None;
        }
        if !is_marked(uses, *other) {
            added = added.wrapping_add(1);
        }
    }
    Some(added)
}

/// Clauses of more literals aren't made.
const LONGEST: usize = 16;

/// How many clauses follow by resolution of one with the negative ones, and none where one is too long.
fn resolvents_of(database: &Clauses, uses: &Uses, one: &[Lit], lit: Lit) -> Option<usize> {
    let mut total: usize = 0;
    for number in &uses.negative {
        if *number < database.len() {
            if let Some(added) = added_by(uses, database.clause(*number), lit) {
                let length = one.len().saturating_sub(1).saturating_add(added);
                if length > LONGEST {
                    return None;
                }
                total = total.saturating_add(1);
            }
        }
    }
    Some(total)
}

/// Whether no more clauses follow by resolution on a literal than those from which they follow, and none is too long.
fn is_worth(database: &Clauses, uses: &mut Uses, lit: Lit) -> bool {
    let most = uses
        .positive
        .as_slice()
        .len()
        .saturating_add(uses.negative.as_slice().len());
    let mut total: usize = 0;
    for place in 0..uses.positive.as_slice().len() {
        let number = at(&uses.positive, place, NONE);
        if number < database.len() {
            let one = database.clause(number);
            mark(uses, one);
            match resolvents_of(database, uses, one, lit) {
                Some(more) => total = total.saturating_add(more),
                None => return false,
            }
        }
        if total > most {
            return false;
        }
    }
    true
}

/// Whether a literal and its complement are in the working clause.
fn always_holds(working: &Working) -> bool {
    for lit in &working.lits {
        if has(working, lit.negated()) {
            return true;
        }
    }
    false
}

/// Adds what follows from two clauses by resolution on a literal of the first.
#[tactic(auto, using(crate::proofs::CnfLemmas::extends_same))]
fn add_resolvent(
    database: &mut Clauses,
    search: &mut Search,
    working: &mut Working,
    uses: &mut Uses,
    one: u32,
    lit: Lit,
    other: u32,
) -> Result<(), AllocError>
    ensures { Extends database.old database.new }
{
    if one >= database.len() || other >= database.len() {
        return Ok(());
    }
    resolvent(database, &search.trail, working, one, lit, other)?;
    if always_holds(working) {
        return Ok(());
    }
    let number = keep(database, &working.lits)?;
    add(&mut search.merits, GIVEN)?;
    note_clause(uses, &working.lits, number)
}

/// Adds what follows from a clause and each of the negative ones.
#[tactic(auto, using(crate::proofs::CnfLemmas::extends_trans, crate::proofs::CnfLemmas::extends_same))]
fn add_resolvents_of(
    database: &mut Clauses,
    search: &mut Search,
    working: &mut Working,
    uses: &mut Uses,
    one: u32,
    lit: Lit,
) -> Result<(), AllocError>
    ensures { Extends database.old database.new }
{
    for place in 0..uses.negative.as_slice().len() {
        let other = at(&uses.negative, place, NONE);
        add_resolvent(database, search, working, uses, one, lit, other)?;
    }
    Ok(())
}

/// Adds what follows by resolution on a literal.
#[tactic(auto, using(crate::proofs::CnfLemmas::extends_trans, crate::proofs::CnfLemmas::extends_same))]
fn add_resolvents(
    database: &mut Clauses,
    search: &mut Search,
    working: &mut Working,
    uses: &mut Uses,
    lit: Lit,
) -> Result<(), AllocError>
    ensures { Extends database.old database.new }
{
    for place in 0..uses.positive.as_slice().len() {
        let one = at(&uses.positive, place, NONE);
        add_resolvents_of(database, search, working, uses, one, lit)?;
    }
    Ok(())
}

/// Saves the fewer of a variable's clauses, and takes all of them out of use.
fn replace(
    database: &Clauses,
    search: &mut Search,
    uses: &mut Uses,
    lit: Lit,
) -> Result<(), AllocError> {
    if uses.positive.as_slice().len() <= uses.negative.as_slice().len() {
        save(database, &mut search.elimination, lit, &uses.positive)?;
    } else {
        save(
            database,
            &mut search.elimination,
            lit.negated(),
            &uses.negative,
        )?;
    }
    for number in &uses.positive {
        put(&mut uses.is_out, *number as usize, true);
    }
    for number in &uses.negative {
        put(&mut uses.is_out, *number as usize, true);
    }
    Ok(())
}

/// Whether a variable is in clauses of which no more than so many pairs can be made, and may be eliminated.
fn is_apt(
    database: &Clauses,
    search: &Search,
    uses: &mut Uses,
    lit: Lit,
    most: usize,
) -> Result<bool, AllocError> {
    let variable = lit.variable();
    if !is_open(&search.trail, lit)
        || is_gone(&search.elimination, variable)
        || at(&uses.is_frozen, variable as usize, true)
    {
        return Ok(false);
    }
    collect(&uses.lists, &uses.is_out, lit, &mut uses.positive)?;
    collect(&uses.lists, &uses.is_out, lit.negated(), &mut uses.negative)?;
    let pairs = uses
        .positive
        .as_slice()
        .len()
        .saturating_mul(uses.negative.as_slice().len());
    Ok(pairs <= most && is_worth(database, uses, lit))
}

/// Eliminates a variable, if that leaves no more clauses than there were.
#[tactic(auto, using(crate::proofs::CnfLemmas::extends_same))]
fn try_variable(
    database: &mut Clauses,
    search: &mut Search,
    working: &mut Working,
    uses: &mut Uses,
    lit: Lit,
    most: usize,
) -> Result<(), AllocError>
    ensures { Extends database.old database.new }
{
    if !is_apt(database, search, uses, lit, most)? {
        return Ok(());
    }
    replace(database, search, uses, lit)?;
    add_resolvents(database, search, working, uses, lit)
}

/// Eliminates variables of whose clauses no more than so many pairs can be made.
#[tactic(auto, using(crate::proofs::CnfLemmas::extends_trans, crate::proofs::CnfLemmas::extends_same))]
fn try_all(
    database: &mut Clauses,
    search: &mut Search,
    working: &mut Working,
    uses: &mut Uses,
    most: usize,
) -> Result<(), AllocError>
    ensures { Extends database.old database.new }
{
    for code in 0..2147483647_u32 {
        if code as usize >= uses.is_frozen.as_slice().len() {
            break;
        }
        try_variable(database, search, working, uses, Lit::of(code, false), most)?;
    }
    Ok(())
}

/// How many pairs of clauses a variable has at most, the easiest ones first.
const PASSES: [usize; 4] = [4, 16, 64, 400];

/// Eliminates variables, but those of the assumptions and the preferred literals. What they were in is in the database yet.
#[tactic(auto, using(crate::proofs::CnfLemmas::extends_trans, crate::proofs::CnfLemmas::extends_same))]
fn eliminate_with(
    database: &mut Clauses,
    search: &mut Search,
    working: &mut Working,
    uses: &mut Uses,
) -> Result<(), AllocError>
    ensures { Extends database.old database.new }
{
    for most in PASSES {
        try_all(database, search, working, uses, most)?;
    }
    Ok(())
}

/// Notes the clauses of the database, and the variables that stay.
fn prepare(
    alloc: Global,
    database: &Clauses,
    search: &Search,
    uses: &mut Uses,
    assumptions: &[Lit],
) -> Result<(), AllocError> {
    let variables = search.trail.values.as_slice().len();
    widen(alloc, uses, variables)?;
    freeze(uses, assumptions);
    freeze(uses, &search.queue.preferred);
    note_all(database, search, uses)
}

/// Eliminates variables, but those of the assumptions and of the literals that are decided first. The clauses that they were
/// in, and learned ones, are in the database yet. The search is at level 0.
#[tactic(auto, using(crate::proofs::CnfLemmas::extends_same))]
pub(crate) fn eliminate(
    alloc: Global,
    database: &mut Clauses,
    search: &mut Search,
    working: &mut Working,
    assumptions: &[Lit],
) -> Result<(), AllocError>
    ensures { Extends database.old database.new }
{
    let mut uses = Uses::new(alloc);
    prepare(alloc, database, search, &mut uses, assumptions)?;
    eliminate_with(database, search, working, &mut uses)
}
