//! Rails: the literals of values, the clauses that say how values stand, and new variables as values.
ghost use Rattle.std.specs.Prelude.{◌≡◌, ◌++◌, ◌+◌, ◌≤◌, true, false, OnOk, OnErr, IfOk, IfErr};
ghost use Rattle.clause_formulas.specs.Formulas.{IsFormula};
ghost use Rattle.ternary_clauses.specs.Nodes.{known_clauses, rail_clauses, wire_clauses, equal_clauses, apart_clauses, same_clauses, pick_clauses};
ghost use Rattle.ternary_clauses.specs.Faults.{IsFull};
ghost use Rattle.ternary_clauses.specs.Wires.{HasNewRails};
ghost use Rattle.ternary_clauses.specs.declared.fault.ClausesFault.TheVariants.{TooMany};

use crate::fault::ClausesFault;
use clause_formulas::{Formula, MAX_VARIABLES, negation};
use std::alloc::AllocError;

/// The literals of a value: it is 1, it is 0, it is known.
#[derive(Clone, Copy, PartialEq, Eq)]
pub struct Rails {
    pub one: u32,
    pub zero: u32,
    pub known: u32,
}

// One rail of a node, from the rails one and zero of its pin and that rail of its branches.
pub(crate) fn add_rail(
    formula: &mut Formula,
    one: u32,
    zero: u32,
    high: u32,
    low: u32,
    n: u32,
) -> Result<(), AllocError>
    ensures literals { OnOk result (formula.new.literals.items ≡ formula.old.literals.items ++ rail_clauses one zero high low n) }
    ensures variables { formula.new.variables ≡ formula.old.variables }
{
    let not_one = negation(one);
    let not_zero = negation(zero);
    let not_high = negation(high);
    let not_low = negation(low);
    let not_n = negation(n);
    formula.literals.extend_from_slice(&[
        3, not_one, not_high, n, 3, not_zero, not_low, n, 3, not_high, not_low, n, 3, high, low,
        not_n, 3, one, low, not_n, 3, zero, high, not_n,
    ])
}

// Not 1 and 0 at once, and known where either.
fn add_wire(formula: &mut Formula, r: Rails) -> Result<(), AllocError>
    ensures literals { OnOk result (formula.new.literals.items ≡ formula.old.literals.items ++ wire_clauses r) }
    ensures variables { formula.new.variables ≡ formula.old.variables }
{
    let not_one = negation(r.one);
    let not_zero = negation(r.zero);
    let not_known = negation(r.known);
    formula.literals.extend_from_slice(&[
        2, not_one, not_zero, 3, not_known, r.one, r.zero, 2, not_one, r.known, 2, not_zero,
        r.known,
    ])
}

// Literals that are true together.
pub(crate) fn add_same(formula: &mut Formula, a: u32, b: u32) -> Result<(), AllocError>
    ensures literals { OnOk result (formula.new.literals.items ≡ formula.old.literals.items ++ same_clauses a b) }
    ensures variables { formula.new.variables ≡ formula.old.variables }
{
    let not_a = negation(a);
    let not_b = negation(b);
    formula
        .literals
        .extend_from_slice(&[2, not_a, b, 2, a, not_b])
}

// Known where the pin and both branches are, and at a known pin where the branch is.
fn add_known(
    formula: &mut Formula,
    pin: Rails,
    high: u32,
    low: u32,
    n: u32,
) -> Result<(), AllocError>
    ensures literals { OnOk result (formula.new.literals.items ≡ formula.old.literals.items ++ known_clauses pin high low n) }
    ensures variables { formula.new.variables ≡ formula.old.variables }
{
    let not_known = negation(pin.known);
    let not_one = negation(pin.one);
    let not_zero = negation(pin.zero);
    let not_high = negation(high);
    let not_low = negation(low);
    formula.literals.extend_from_slice(&[
        4, not_known, not_high, not_low, n, 3, not_one, not_high, n, 3, not_zero, not_low, n,
    ])
}

// Rails that stand for one value.
pub(crate) fn add_equal(formula: &mut Formula, a: Rails, b: Rails) -> Result<(), AllocError>
    ensures literals { OnOk result (formula.new.literals.items ≡ formula.old.literals.items ++ equal_clauses a b) }
    ensures variables { formula.new.variables ≡ formula.old.variables }
{
    add_same(formula, a.one, b.one)?;
    add_same(formula, a.zero, b.zero)?;
    add_same(formula, a.known, b.known)
}

// A literal that is true unless two values are known and equal.
pub(crate) fn add_unless_equal(
    formula: &mut Formula,
    a: Rails,
    b: Rails,
    apart: u32,
) -> Result<(), AllocError>
    ensures literals { OnOk result (formula.new.literals.items ≡ formula.old.literals.items ++ apart_clauses a b apart) }
    ensures variables { formula.new.variables ≡ formula.old.variables }
{
    let not_apart = negation(apart);
    let not_a_one = negation(a.one);
    let not_a_zero = negation(a.zero);
    let not_b_one = negation(b.one);
    let not_b_zero = negation(b.zero);
    formula.literals.extend_from_slice(&[
        3, not_apart, not_a_one, not_b_one, 3, not_apart, not_a_zero, not_b_zero, 3, apart, a.one,
        b.zero, 3, apart, a.zero, b.one, 2, apart, a.known, 2, apart, b.known,
    ])
}

// What the pin picks of the branches.
pub(crate) fn add_pick(
    formula: &mut Formula,
    pin: Rails,
    high: Rails,
    low: Rails,
    n: Rails,
) -> Result<(), AllocError>
    ensures literals { OnOk result (formula.new.literals.items ≡ formula.old.literals.items ++ pick_clauses pin high low n) }
    ensures variables { formula.new.variables ≡ formula.old.variables }
{
    add_rail(formula, pin.one, pin.zero, high.one, low.one, n.one)?;
    add_rail(formula, pin.one, pin.zero, high.zero, low.zero, n.zero)?;
    add_known(formula, pin, high.known, low.known, n.known)
}

// One new variable, as a value that is known.
pub(crate) fn new_column(formula: &mut Formula) -> Result<Rails, ClausesFault>
    requires { IsFormula formula.old }
    ensures rails { IfOk result (HasNewRails formula.old formula.new true) }
    ensures variables { OnOk result (formula.new.variables ≡ formula.old.variables + 1) }
    ensures many { OnErr result (2147483647 ≤ formula.old.variables) }
    ensures unchanged { OnErr result (formula.new ≡ formula.old) }
{
    let v = formula.variables;
    if v >= MAX_VARIABLES {
        return Err(ClausesFault::TooMany);
    }
    formula.variables = v + 1;
    Ok(Rails {
        one: 2 * v,
        zero: 2 * v + 1,
        known: 0,
    })
}

// Three new variables, which stand for a value.
pub(crate) fn new_wire(formula: &mut Formula) -> Result<Rails, ClausesFault>
    requires { IsFormula formula.old }
    ensures rails { IfOk result (HasNewRails formula.old formula.new false) }
    ensures many { IfErr result (λ fault. fault ≡ TooMany → IsFull formula.new) }
{
    let v = formula.variables;
    if v > MAX_VARIABLES - 3 {
        return Err(ClausesFault::TooMany);
    }
    formula.variables = v + 3;
    let wire = Rails {
        one: 2 * v,
        zero: 2 * v + 2,
        known: 2 * v + 4,
    };
    add_wire(formula, wire)?;
    Ok(wire)
}

// New variables for a value: one if it is known in any case.
pub(crate) fn new_rails(formula: &mut Formula, known: bool) -> Result<Rails, ClausesFault>
    requires { IsFormula formula.old }
    ensures rails { IfOk result (HasNewRails formula.old formula.new known) }
    ensures many { IfErr result (λ fault. fault ≡ TooMany → IsFull formula.new) }
{
    if known {
        new_column(formula)
    } else {
        new_wire(formula)
    }
}
