//! The clauses of a netlist, and what is asked of them.

ghost use Rattle.std.specs.Prelude.{◌≡◌, ◌<◌, ◌*◌, length, All, IfOk, OnOk};
ghost use Rattle.netlist.specs.Netlists.{IsNetlist, count};
ghost use Rattle.clause_formulas.specs.Formulas.{IsFormula};
ghost use Rattle.ternary_clauses.specs.Rails.{AreWithin};

use crate::texts::net_of;
use clause_formulas::{Formula, MAX_VARIABLES, negation, value_of};
use clause_queries::{First, Found, Query, Reply};
use netlist::Netlist;
use std::alloc::{AllocError, Global};
use std::test::Fail;
use ternary_clauses::{ClausesFault, Rails, add_columns, add_netlist};

/// A gate that is 1 where its input is, and unknown where it isn't.
const SELF_LOOP: &[u8] = b".model m\n.inputs x\n.outputs a\n.names x a a\n1- 1\n-1 1\n.end\n";

/// More conflicts than a search here has.
const MANY: u64 = 1_000;

/// The rails of a netlist's wires, of which nothing is said but that each gate has the value of its cover.
#[tactic(auto, using(crate::proofs::ClauseLemmas::all_closed, crate::proofs::ClauseLemmas::none_never))]
fn add_wires(
    alloc: Global,
    formula: &mut Formula,
    net: &Netlist,
) -> Result<Vec<Rails>, ClausesFault>
    requires formula { IsFormula formula.old }
    requires valid { IsNetlist net.now }
    ensures formula { OnOk result (IsFormula formula.new) }
    ensures size { IfOk result (λ rails. length rails.items ≡ count net.now) }
    ensures within { IfOk result (λ rails. All (AreWithin formula.new.variables) rails.items) }
{
    let columns = add_columns(alloc, formula, net.columns())?;
    let wanted = vec![in alloc; true; net.gates() as usize]?;
    let never = vec![in alloc; false; net.gates() as usize]?;
    add_netlist(alloc, formula, net, &columns, &wanted, &never)
}

/// Whether the gate can be unknown, and only where its input is 0.
fn tells_possible(
    alloc: Global,
    query: &mut Query,
    x: u32,
    unknown: u32,
) -> Result<bool, AllocError>
    requires x { x < 2 * query.old.variables }
    requires unknown { unknown < 2 * query.old.variables }
    ensures { query.new ≡ query.old }
{
    let somewhere = query.is_possible(alloc, &[unknown], MANY)?;
    let at_one = query.is_possible(alloc, &[x, unknown], MANY)?;
    Ok(somewhere == Some(true) && at_one == Some(false))
}

/// Whether the input is 0 in a model in which the gate is unknown.
fn finds_model(alloc: Global, query: &mut Query, x: u32, unknown: u32) -> Result<bool, AllocError>
    requires { unknown < 2 * query.old.variables }
    ensures { query.new ≡ query.old }
{
    match query.ask(alloc, &[unknown], MANY)? {
        Reply::Model(model) => Ok(!value_of(&model, x)),
        Reply::NoModel | Reply::Unknown => Ok(false),
    }
}

/// Whether the input is 0 in the least vector in which the gate is 1, as the gate may keep its value.
fn finds_least(alloc: Global, query: &mut Query, x: u32, a: u32) -> Result<bool, AllocError>
    requires x { x < 2 * query.old.variables }
    requires a { a < 2 * query.old.variables }
    ensures { query.new ≡ query.old }
{
    match query.least_vector(alloc, &[a, x], &[a], MANY)? {
        Found::Least(vector) => Ok(vector.as_slice() == [true, false].as_slice()),
        Found::NoVector | Found::Unknown => Ok(false),
    }
}

/// Whether, where the input is 1, the gate can be 1 and can't be unknown.
fn finds_each(
    alloc: Global,
    query: &mut Query,
    x: u32,
    a: u32,
    unknown: u32,
) -> Result<bool, AllocError>
    requires x { x < 2 * query.old.variables }
    requires a { a < 2 * query.old.variables }
    requires unknown { unknown < 2 * query.old.variables }
    ensures { query.new ≡ query.old }
{
    match query.possible_each(alloc, &[a, unknown], &[x], MANY)? {
        Some(found) => Ok(found.as_slice() == [true, false].as_slice()),
        None => Ok(false),
    }
}

/// Whether, where the input is 1, it is found that the gate can't be unknown, and nothing else of its literals.
fn finds_never(
    alloc: Global,
    query: &mut Query,
    x: u32,
    a: u32,
    unknown: u32,
) -> Result<bool, AllocError>
    requires x { x < 2 * query.old.variables }
    requires a { a < 2 * query.old.variables }
    requires unknown { unknown < 2 * query.old.variables }
    ensures { query.new ≡ query.old }
{
    let any = query.is_any_possible(alloc, &[unknown], &[x], MANY)?;
    let never = query.never_each(alloc, &[a, unknown], &[x], MANY, 1)?;
    Ok(any == Some(false) && never.as_slice() == [false, true].as_slice())
}

/// Whether the first literal that can be true is found, and that there is none.
fn finds_first(alloc: Global, query: &mut Query, x: u32, unknown: u32) -> Result<bool, AllocError>
    requires x { x < 2 * query.old.variables }
    requires unknown { unknown < 2 * query.old.variables }
    ensures { query.new ≡ query.old }
{
    let somewhere = query.first_possible(alloc, &[unknown], &[], MANY)?;
    let at_one = query.first_possible(alloc, &[unknown], &[x], MANY)?;
    Ok(matches!(somewhere, First::At(0)) && matches!(at_one, First::Nowhere))
}

/// Whether a question is answered right.
fn is_answered(
    alloc: Global,
    query: &mut Query,
    question: u32,
    x: u32,
    a: u32,
    unknown: u32,
) -> Result<bool, AllocError>
    requires x { x < 2 * query.old.variables }
    requires a { a < 2 * query.old.variables }
    requires unknown { unknown < 2 * query.old.variables }
{
    match question {
        0 => tells_possible(alloc, query, x, unknown),
        1 => finds_model(alloc, query, x, unknown),
        2 => finds_least(alloc, query, x, a),
        3 => finds_each(alloc, query, x, a, unknown),
        4 => finds_never(alloc, query, x, a, unknown),
        _ => finds_first(alloc, query, x, unknown),
    }
}

/// Whether the clauses of the self-loop answer a question right.
fn answer_right(
    alloc: Global,
    formula: &Formula,
    rails: &[Rails],
    question: u32,
) -> Result<bool, Fail> {
    if rails.len() != 2 || formula.variables > MAX_VARIABLES {
        return Ok(false);
    }
    let most = 2 * formula.variables;
    let x = rails[0].one;
    let a = rails[1].one;
    let unknown = negation(rails[1].known);
    if x >= most || a >= most || unknown >= most {
        return Ok(false);
    }
    let mut query = Query::of(alloc, formula)?;
    Ok(is_answered(alloc, &mut query, question, x, a, unknown)?)
}

fn with_clauses(alloc: Global, net: &Netlist, question: u32) -> Result<bool, Fail>
    requires { IsNetlist net.now }
{
    let mut formula = Formula::first(alloc)?;
    let rails = add_wires(alloc, &mut formula, net)?;
    answer_right(alloc, &formula, &rails, question)
}

pub const CASES: u32 = 6;

pub fn is_right(alloc: Global, case: u32) -> Result<bool, Fail> {
    let net = net_of(alloc, SELF_LOOP)?;
    with_clauses(alloc, &net, case)
}
