ghost use Rattle.std.specs.Prelude.{◌≡◌, ◌<◌, OnOk, IfOk, length};
ghost use Rattle.std.specs.List.{All};
ghost use Rattle.sat.specs.Cnf.{Entails, Extends, IsLast};

use crate::analysis::{analyse, fix};
use crate::clauses::Clauses;
use crate::lit::Lit;
use crate::merits;
use crate::merits::{GIVEN, Merit, of_learned};
use crate::queue::age;
use crate::search::{Search, back_to, bump_all, glue_of, watch_clause};
use crate::trail::{NONE, Trail, assign, level, reason_of, set_reason, start_of};
use crate::watches::{Pair, best_pair};
use crate::working::Working;
use std::alloc::AllocError;

/// Adds a clause that follows from the others, and answers its number.
pub(crate) fn keep(database: &mut Clauses, clause: &[Lit]) -> Result<u32, AllocError>
    requires { Entails database.old clause.now }
    ensures extends { Extends database.old database.new }
    ensures last { OnOk result (IsLast database.new clause.now) }
{
    let number = database.len();
    if number == NONE {
        return Err(AllocError);
    }
    database.push(clause)?;
    Ok(number)
}

/// Keeps the working clause, takes the search back to where it forces a literal, and makes that true.
pub(crate) fn keep_learned(
    database: &mut Clauses,
    search: &mut Search,
    working: &Working,
) -> Result<(), AllocError>
    requires { Entails database.old working.now.lits.items }
    ensures extends { Extends database.old database.new }
    ensures last { OnOk result (IsLast database.new working.now.lits.items) }
{
    let number = keep(database, &working.lits)?;
    let pair = best_pair(&search.trail, &working.lits);
    let glue = glue_of(search, &working.lits);
    let merit = of_learned(&search.merits, glue);
    back_to(search, pair.level);
    watch_clause(search, number, &working.lits, &pair, merit)?;
    assign(&mut search.trail, pair.first, number)?;
    Ok(())
}

/// Learns from a conflict.
pub(crate) fn learn(
    database: &mut Clauses,
    search: &mut Search,
    working: &mut Working,
    conflict: u32,
) -> Result<(), AllocError>
    requires { conflict < length database.old }
    ensures extends { Extends database.old database.new }
    ensures last { OnOk result (IsLast database.new working.new.lits.items) }
{
    analyse(
        database,
        &search.trail,
        &mut search.redundancy,
        working,
        conflict,
    )?;
    bump_all(search, &working.seen);
    age(&mut search.queue);
    merits::bump_all(&mut search.merits, &working.used);
    keep_learned(database, search, working)
}

/// Adds a clause of the formula again, and answers its number.
pub(crate) fn restore(
    formula: &Clauses,
    database: &mut Clauses,
    search: &mut Search,
    number: u32,
) -> Result<u32, AllocError>
    requires within { number < length formula.now }
    requires follows { All (Entails formula.now) database.old }
    ensures follows { All (Entails formula.now) database.new }
    ensures number { IfOk result (λ n. n < length database.new) }
    ensures trail { search.new.trail ≡ search.old.trail }
{
    let last = database.len();
    if last == NONE {
        return Err(AllocError);
    }
    let clause = formula.clause(number);
    database.push(clause)?;
    let pair = best_pair(&search.trail, clause);
    watch_clause(search, last, clause, &pair, GIVEN)?;
    Ok(last)
}

/// A literal of level 0 gets a clause of its own as its reason.
fn keep_unit(
    database: &mut Clauses,
    search: &mut Search,
    working: &Working,
    lit: Lit,
) -> Result<(), AllocError>
    requires { Entails database.old working.now.lits.items }
    ensures extends { Extends database.old database.new }
    ensures values { search.new.trail.values ≡ search.old.trail.values }
{
    let number = keep(database, &working.lits)?;
    let alone = Pair {
        first: lit,
        second: Lit { code: NONE },
        level: 0,
    };
    let merit = Merit {
        glue: 1,
        score: 0.0,
    };
    watch_clause(search, number, &working.lits, &alone, merit)?;
    set_reason(&mut search.trail, lit, number);
    Ok(())
}

fn fix_literal(
    database: &mut Clauses,
    search: &mut Search,
    working: &mut Working,
    lit: Lit,
) -> Result<(), AllocError>
    ensures extends { Extends database.old database.new }
    ensures values { search.new.trail.values ≡ search.old.trail.values }
{
    let number = reason_of(&search.trail, lit);
    if number >= database.len() || database.clause(number).len() < 2 {
        return Ok(());
    }
    fix(database, &search.trail, working, number, lit)?;
    if working.lits.as_slice().len() != 1 {
        return Ok(());
    }
    keep_unit(database, search, working, lit)
}

/// Where the search is at level 0, each literal there gets a clause of its own as its reason.
#[tactic(auto, using(crate::proofs::CnfLemmas::extends_same))]
pub(crate) fn fix_literals(
    database: &mut Clauses,
    search: &mut Search,
    working: &mut Working,
) -> Result<(), AllocError>
    ensures extends { Extends database.old database.new }
    ensures values { search.new.trail.values ≡ search.old.trail.values }
{
    if level(&search.trail) > 0 {
        return Ok(());
    }
    fix_all(database, search, working)
}

/// Each literal of level 0 gets a clause of its own as its reason.
#[tactic(auto, using(crate::proofs::CnfLemmas::extends_trans, crate::proofs::CnfLemmas::extends_same))]
fn fix_all(
    database: &mut Clauses,
    search: &mut Search,
    working: &mut Working,
) -> Result<(), AllocError>
    ensures extends { Extends database.old database.new }
    ensures values { search.new.trail.values ≡ search.old.trail.values }
{
    for _ in search.fixed..search.trail.values.as_slice().len() {
        if search.fixed >= search.trail.lits.as_slice().len() {
            break;
        }
        let lit = search.trail.lits[search.fixed];
        search.fixed += 1;
        fix_literal(database, search, working, lit)?;
    }
    Ok(())
}

/// A clause of its own has at most so many literals, where that isn't one of level 0.
const MOST: usize = 8;

/// Whether a literal's reason has but decisions beside it.
fn is_own(database: &Clauses, trail: &Trail, lit: Lit, number: u32) -> bool
    requires { number < length database.now }
{
    for other in database.clause(number) {
        if other.code != lit.code && reason_of(trail, *other) != NONE {
            return false;
        }
    }
    true
}

/// The working clause becomes the reason of a literal.
fn keep_reason(
    database: &mut Clauses,
    search: &mut Search,
    working: &Working,
    lit: Lit,
) -> Result<(), AllocError>
    requires { Entails database.old working.now.lits.items }
    ensures { Extends database.old database.new }
{
    let number = keep(database, &working.lits)?;
    let pair = best_pair(&search.trail, &working.lits);
    let merit = of_learned(&search.merits, NONE);
    watch_clause(search, number, &working.lits, &pair, merit)?;
    set_reason(&mut search.trail, lit, number);
    Ok(())
}

fn fix_implied(
    database: &mut Clauses,
    search: &mut Search,
    working: &mut Working,
    lit: Lit,
) -> Result<(), AllocError>
    ensures { Extends database.old database.new }
{
    let number = reason_of(&search.trail, lit);
    if number >= database.len() || is_own(database, &search.trail, lit, number) {
        return Ok(());
    }
    fix(database, &search.trail, working, number, lit)?;
    if working.lits.as_slice().len() > MOST {
        return Ok(());
    }
    keep_reason(database, search, working, lit)
}

/// Where the search is at the level of the assumptions, each literal that follows from them gets a clause of its own as its
/// reason, with complements of assumptions beside it. So a conflict comes back to them by one step for each.
#[tactic(auto, using(crate::proofs::CnfLemmas::extends_trans, crate::proofs::CnfLemmas::extends_same))]
pub(crate) fn fix_assumed(
    database: &mut Clauses,
    search: &mut Search,
    working: &mut Working,
) -> Result<(), AllocError>
    ensures { Extends database.old database.new }
{
    for place in start_of(&search.trail, 0)..search.trail.lits.as_slice().len() {
        if let Some(lit) = search.trail.lits.as_slice().get(place).copied() {
            fix_implied(database, search, working, lit)?;
        }
    }
    Ok(())
}
