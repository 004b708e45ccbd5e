//! The clauses of sums and of unknown values. Those of sweeps and of values that are apart are tested by the parts of a
//! decision.

ghost use Rattle.std.specs.Prelude.{◌↔◌, IsTrue};
ghost use Rattle.clause_queries.specs.Clauses.{IsWithin};

use clause_formulas::{Formula, negation};
use clause_queries::Query;
use std::alloc::Global;
use std::test::Fail;
use ternary_clauses::{add_any, add_apart, add_columns, unknown_rails};

/// More conflicts than a search here has.
const MANY: u64 = 1_000;

/// Whether literals are of the first so many variables.
fn are_within(literals: &[u32], variables: u32) -> bool
    ensures { IsTrue result ↔ IsWithin variables literals.now }
{
    literals.iter().all(|literal| *literal / 2 < variables)
}

/// Whether some model has each of these literals true.
fn can_be(alloc: Global, formula: &Formula, literals: &[u32]) -> Result<bool, Fail> {
    if !are_within(literals, formula.variables) {
        return Err(Fail::from("a literal is of no variable"));
    }
    let mut query = Query::of(alloc, formula)?;
    match query.is_possible(alloc, literals, MANY)? {
        Some(possible) => Ok(possible),
        None => Err(Fail::from("the solver gave up")),
    }
}

/// Whether some list of these literals can be true in a model.
fn can_any_be(alloc: Global, formula: &Formula, lists: &[[u32; 3]]) -> Result<bool, Fail> {
    for literals in lists {
        if can_be(alloc, formula, literals.as_slice())? {
            return Ok(true);
        }
    }
    Ok(false)
}

/// Whether each of them can.
fn can_each_be(alloc: Global, formula: &Formula, lists: &[[u32; 3]]) -> Result<bool, Fail> {
    for literals in lists {
        if !can_be(alloc, formula, literals.as_slice())? {
            return Ok(false);
        }
    }
    Ok(true)
}

/// Whether each of the first lists of literals can be true in a model, and none of the others.
fn tells(
    alloc: Global,
    formula: &Formula,
    possible: &[[u32; 3]],
    impossible: &[[u32; 3]],
) -> Result<bool, Fail> {
    if can_any_be(alloc, formula, impossible)? {
        return Ok(false);
    }
    can_each_be(alloc, formula, possible)
}

/// Whether the first sum is true where x is, and the second where x or y is.
fn are_sums(alloc: Global, formula: &Formula, x: u32, y: u32, sums: &[u32]) -> Result<bool, Fail> {
    if sums.len() != 2 {
        return Ok(false);
    }
    let (first, second) = (sums[0], sums[1]);
    let (not_x, not_y) = (negation(x), negation(y));
    let (not_first, not_second) = (negation(first), negation(second));
    let possible = [[first, x, not_y], [second, not_x, y]];
    let impossible = [
        [first, not_x, not_x],
        [not_first, x, x],
        [second, not_x, not_y],
        [not_second, x, x],
        [not_second, y, y],
    ];
    tells(alloc, formula, possible.as_slice(), impossible.as_slice())
}

fn sums_are_right(alloc: Global) -> Result<bool, Fail> {
    let mut formula = Formula::first(alloc)?;
    let columns = add_columns(alloc, &mut formula, 2)?;
    let (x, y) = (columns[0].one, columns[1].one);
    if !are_within(&[x, y], formula.variables) {
        return Ok(false);
    }
    let sums = add_any(alloc, &mut formula, &[x, y])?;
    are_sums(alloc, &formula, x, y, &sums)
}

/// Whether unknown values are told apart.
#[tactic(auto, using(crate::proofs::ClauseLemmas::unknown_own))]
fn unknowns_are_apart(alloc: Global) -> Result<bool, Fail> {
    let mut formula = Formula::first(alloc)?;
    let apart = add_apart(&mut formula, unknown_rails(), unknown_rails())?;
    let not_apart = negation(apart);
    tells(
        alloc,
        &formula,
        &[[apart, apart, apart]],
        &[[not_apart, not_apart, not_apart]],
    )
}

pub const CASES: u32 = 2;

pub fn is_right(alloc: Global, case: u32) -> Result<bool, Fail> {
    if case == 0 {
        sums_are_right(alloc)
    } else {
        unknowns_are_apart(alloc)
    }
}
