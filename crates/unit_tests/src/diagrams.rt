//! Decision diagrams and their operations.

ghost use Rattle.std.specs.Prelude.{◌≡◌, ◌<◌, IfOk};
ghost use Rattle.bdd_store.specs.Arena.{IsNodeOf};
ghost use Rattle.bdd_store.specs.Growth.{KeepsNodes};

use bdd_ops::Diagrams;
use bdd_store::{Node, StoreFault};
use std::alloc::{AllocError, Global};
use std::test::Fail;

/// Whether a function that is never true has no least vector, and the one that always is has that of zeros.
fn has_least(alloc: Global) -> Result<bool, Fail> {
    let d = Diagrams::new(alloc, 2, 100)?;
    let mut out = [true, false];
    if d.least(Node::of(false), out.as_mut_slice()) || !out[0] || out[1] {
        return Ok(false);
    }
    Ok(d.least(Node::of(true), out.as_mut_slice()) && !out[0] && !out[1])
}

const MANY: u32 = 200_000;

/// The conjunction of every second variable.
fn every_second(d: &mut Diagrams, from: u32) -> Result<Node, StoreFault>
    requires vars { d.old.vars ≡ MANY }
    requires from { from < 2 }
    ensures node { IfOk result (IsNodeOf d.new) }
    ensures keeps { KeepsNodes d.old d.new }
{
    let mut all = Node::of(true);
    for k in (0..MANY / 2).rev() {
        let bit = d.var(2 * k + from)?;
        all = d.and(bit, all)?;
    }
    Ok(all)
}

/// The conjunction of all variables. A recursion would be as deep as there are variables.
fn every(d: &mut Diagrams) -> Result<Node, StoreFault>
    requires { d.old.vars ≡ MANY }
    ensures node { IfOk result (IsNodeOf d.new) }
    ensures vars { d.new.vars ≡ MANY }
{
    let even = every_second(d, 0)?;
    let odd = every_second(d, 1)?;
    d.and(even, odd)
}

/// Whether a function is true where all variables are.
fn is_true_at_ones(alloc: Global, d: &Diagrams, n: Node) -> Result<bool, AllocError>
    requires vars { d.now.vars ≡ MANY }
    requires node { IsNodeOf d.now n }
{
    let bits = vec![in alloc; true; MANY as usize]?;
    Ok(d.store().value(n, bits.as_slice()))
}

/// Whether a call on many variables comes back.
fn has_room_for_many(alloc: Global) -> Result<bool, Fail> {
    let mut d = Diagrams::new(alloc, MANY, 1_000_000)?;
    let all = every(&mut d)?;
    Ok(is_true_at_ones(alloc, &d, all)?)
}

pub const CASES: u32 = 2;

pub fn is_right(alloc: Global, case: u32) -> Result<bool, Fail> {
    if case == 0 {
        has_least(alloc)
    } else {
        has_room_for_many(alloc)
    }
}
