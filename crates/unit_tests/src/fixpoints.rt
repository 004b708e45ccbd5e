//! The rails of a netlist against what settles at each vector.

ghost use Rattle.std.specs.Prelude.{◌≡◌, All, IfOk, length, map};
ghost use Rattle.dual_rail.specs.Rails.{AreRailsOf};
ghost use Rattle.fixpoint.specs.Kept.{AreKept, rails_under};
ghost use Rattle.fixpoint.specs.Solved.{AreGiven};

use crate::asked::{ANY, Asked, is_right_of};
use bdd_ops::Diagrams;
use bdd_store::{Node, StoreFault};
use cyc_base::{Items, Trit};
use dual_rail::{Rails, var_rails};
use fixpoint::{KeptRails, keep_rails, rails_of, solve};
use loops::LoopedNetlist;
use netlist::Netlist;
use std::alloc::{AllocError, Global};
use std::test::Fail;
use ternary_run::settle;

pub const CASES: u32 = 13;

/// A netlist as BLIF, whose signal `s0` is an input and whose signal `s1` is a latch, which loads `s2`.
pub fn net_text(number: u32) -> &'static [u8] {
    match number {
        // no loop
        0 =>
            b".model m\n.inputs s0\n.latch s2 s1 3\n.names s0 s1 s2\n10 1\n01 1\n.names s2 s0 s3\n11 1\n",
        // a gate that needs itself where the input is 1
        1 => b".model m\n.inputs s0\n.latch s2 s1 3\n.names s0 s2 s2\n11 1\n",
        // a tautology of itself
        2 => b".model m\n.inputs s0\n.latch s2 s1 3\n.names s2 s2\n0 1\n1 1\n",
        // a gate or its complement: two gates, so it is unknown
        3 =>
            b".model m\n.inputs s0\n.latch s2 s1 3\n.names s3 s2\n0 1\n.names s2 s3 s3\n1- 1\n-1 1\n",
        // a ring of three inverters
        4 =>
            b".model m\n.inputs s0\n.latch s2 s1 3\n.names s4 s2\n0 1\n.names s2 s3\n0 1\n.names s3 s4\n0 1\n",
        // two cross-coupled gates that the input and the latch set and reset
        5 =>
            b".model m\n.inputs s0\n.latch s2 s1 3\n.names s0 s3 s2\n00 1\n.names s1 s2 s3\n00 1\n",
        // two units that share a loop
        6 => {
            b".model m\n.inputs s0\n.latch s2 s1 3\n.names s0 s1 s5 s2\n11- 1\n0-1 1\n.names s2 s3\n0 1\n.names s0 s3 s1 s4\n11- 1\n0-1 1\n\
            .names s4 s1 s5\n11 1\n.names s0 s5 s3 s6\n11- 1\n0-1 1\n"
        }
        // three loops, each of which reads the one before it
        7 =>
            b".model m\n.inputs s0\n.latch s2 s1 3\n.names s0 s2 s2\n11 1\n.names s2 s3 s3\n1- 1\n-1 1\n.names s0 s3 s4 s4\n11- 1\n0-1 1\n",
        // a loop of two cut wires
        8 =>
            b".model m\n.inputs s0\n.latch s2 s1 3\n.names s0 s3 s4 s2\n11- 1\n0-1 1\n.names s2 s1 s3\n11 1\n.names s2 s3 s4\n1- 1\n-1 1\n",
        // a gate that differs from itself
        9 =>
            b".model m\n.inputs s0\n.latch s2 s1 3\n.names s0 s2 s2\n10 1\n01 1\n.names s2 s3\n0 1\n",
        // two loops that share a gate
        10 => {
            b".model m\n.inputs s0\n.latch s2 s1 3\n.names s0 s1 s3 s2\n11- 1\n1-1 1\n-11 1\n.names s0 s2 s4 s3\n11- 1\n1-1 1\n-11 1\n\
            .names s2 s3 s4\n11 1\n"
        }
        // a ring of four gates
        11 => {
            b".model m\n.inputs s0\n.latch s2 s1 3\n.names s1 s5 s2\n1- 1\n-1 1\n.names s2 s0 s3\n11 1\n.names s3 s1 s4\n11 1\n\
            .names s4 s0 s5\n11 1\n"
        }
        // a gate that is unknown selects between equals
        _ =>
            b".model m\n.inputs s0\n.latch s2 s1 3\n.names s2 s2 s2\n1- 1\n-1 1\n.names s2 s0 s0 s3\n11- 1\n0-1 1\n",
    }
}

/// The value of a node of the diagrams.
fn bit_at(d: &Diagrams, node: Node, bits: &[bool]) -> Option<bool> {
    let store = d.store();
    if store.contains(node) && bits.len() == store.vars() as usize {
        Some(store.value(node, bits))
    } else {
        None
    }
}

/// The value of proper rails.
fn value_at(d: &Diagrams, rails: Rails, bits: &[bool]) -> Option<Trit> {
    match (bit_at(d, rails.one, bits), bit_at(d, rails.zero, bits)) {
        (Some(true), Some(false)) => Some(Trit::One),
        (Some(false), Some(true)) => Some(Trit::Zero),
        (Some(false), Some(false)) => Some(Trit::X),
        _ => None,
    }
}

/// Whether rails stand for these values.
fn stand_for(d: &Diagrams, rails: &[Rails], bits: &[bool], values: &[Trit]) -> bool {
    if rails.len() != values.len() {
        return false;
    }
    for place in 0..rails.len() {
        if value_at(d, rails[place], bits) != Some(values[place]) {
            return false;
        }
    }
    true
}

/// The vector of this number.
fn vector(number: u32) -> [bool; 2] {
    [number % 2 == 1, number / 2 == 1]
}

/// Whether rails stand, at a vector, for what settles there.
fn stand_for_settled(
    alloc: Global,
    d: &Diagrams,
    net: &Netlist,
    rails: &[Rails],
    number: u32,
) -> Result<bool, AllocError> {
    let bits = vector(number);
    let given = [Trit::of(bits[0]), Trit::of(bits[1])];
    if net.inputs() != 1 || net.latches() != 1 {
        return Ok(false);
    }
    let values = settle(alloc, net, given.as_slice())?;
    Ok(stand_for(d, rails, bits.as_slice(), &values))
}

/// The input and the latch as variables.
fn given_rails(alloc: Global, d: &mut Diagrams) -> Result<Vec<KeptRails>, StoreFault>
    requires vars { d.old.vars ≡ 2 }
    ensures kept { IfOk result (λ given. All (AreKept d.new) given.items) }
    ensures proper { IfOk result (λ given. All (AreRailsOf d.new) (map (rails_under d.new) given.items)) }
    ensures count { IfOk result (λ given. length given.items ≡ 2) }
{
    let x = var_rails(d, 0)?;
    let q = var_rails(d, 1)?;
    Ok(keep_rails(alloc, d, [x, q].as_slice())?)
}

/// The rails of all signals, where those of the input and the latch are given.
fn rails_from(
    alloc: Global,
    d: &mut Diagrams,
    looped: &LoopedNetlist<'_>,
    given: Vec<KeptRails>,
) -> Result<Items<Rails>, StoreFault>
    requires { AreGiven looped.now.net d.old given.items }
{
    let net = looped.net();
    let solved = solve(alloc, d, net, looped.blocks(), looped.cut(), given)?;
    Ok(Items::of(rails_of(alloc, d, solved.rails.items())?))
}

/// The rails of all signals, where the input and the latch are variables.
fn rails_by(
    alloc: Global,
    d: &mut Diagrams,
    looped: &LoopedNetlist<'_>,
) -> Result<Items<Rails>, StoreFault>
    requires { d.old.vars ≡ 2 }
{
    let net = looped.net();
    if net.inputs() != 1 || net.latches() != 1 {
        return Ok(Items::of(Vec::new(alloc)));
    }
    let given = given_rails(alloc, d)?;
    rails_from(alloc, d, looped, given)
}

/// Whether they do at each vector.
fn always_stand_for_settled(
    alloc: Global,
    d: &Diagrams,
    net: &Netlist,
    rails: &[Rails],
) -> Result<bool, AllocError> {
    for number in 0..4 {
        if !stand_for_settled(alloc, d, net, rails, number)? {
            return Ok(false);
        }
    }
    Ok(true)
}

/// Whether the rails of a netlist stand, at each vector, for what settles there.
fn are_settled(alloc: Global, d: &mut Diagrams, looped: &LoopedNetlist<'_>) -> Result<bool, Fail>
    requires { d.old.vars ≡ 2 }
{
    let rails = rails_by(alloc, d, looped)?;
    Ok(always_stand_for_settled(alloc, d, looped.net(), rails.items())?)
}

/// Whether they do over diagrams of their own.
pub fn rails_are_right(alloc: Global, looped: &LoopedNetlist<'_>) -> Result<bool, Fail> {
    let mut d = Diagrams::new(alloc, 2, 1000)?;
    are_settled(alloc, &mut d, looped)
}

pub fn is_right(alloc: Global, number: u32) -> Result<bool, Fail> {
    is_right_of(alloc, net_text(number), ANY, Asked::Rails)
}
