//! Why gates are unknown, on small netlists whose answer is seen at a glance.

use crate::texts::net_of;
use cyc_base::Trit;
use explanations::{Explanation, Pin, explain};
use netlist::Netlist;
use std::alloc::Global;
use std::test::Fail;

pub const CASES: u32 = 8;

/// A netlist, a vector of its columns, and a gate that is unknown there.
fn asked(number: u32) -> (&'static [u8], &'static [bool], u32) {
    match number {
        // An OR that feeds itself.
        0 => (
            b".model m\n.inputs x\n.outputs a\n.names x a a\n1- 1\n-1 1\n",
            &[false],
            0,
        ),
        // A latch of two NORs, and a gate behind it that another input may close.
        1 => (
            b".model m\n.inputs s r e\n.outputs y\n.names n e y\n11 1\n.names r n q\n00 1\n.names s q n\n00 1\n",
            &[false, false, true],
            0,
        ),
        // A wire that keeps its value, and a multiplexer behind it.
        2 => (
            b".model m\n.inputs a d b e\n.outputs z\n.names b e y z\n1-1 1\n01- 1\n.names a d y y\n0-1 1\n11- 1\n",
            &[false, true, true, true],
            0,
        ),
        // Two units that are shared, each before the other: both selects are needed.
        3 => (
            b".model m\n.inputs c k x\n.outputs f\n.names c x g f\n11- 1\n0-1 1\n.names k x f g\n11- 1\n0-1 1\n",
            &[false, false, true],
            1,
        ),
        // A long cycle before a short one in the file: the short one is shown.
        4 => (
            b".model m\n.outputs z\n.names p z\n1 1\n.names q p\n1 1\n.names r q\n1 1\n.names p s r\n1- 1\n-1 1\n.names s s\n1 1\n",
            &[],
            0,
        ),
        // A column that opens nothing is no need, and neither is one of two that close the same pin.
        5 => (
            b".model m\n.inputs u a b\n.outputs y\n.names a b y y\n0-1 1\n-01 1\n",
            &[true, false, false],
            0,
        ),
        // A short cycle over a pin that its gate's other pin leaves out, before a long one.
        6 => (
            b".model m\n.inputs s\n.outputs g\n.names s h c g\n11- 1\n--1 1\n.names g h\n1 1\n.names e c\n1 1\n.names c d\n1 1\n.names d e\n1 1\n",
            &[false],
            0,
        ),
        // A gate that is determined.
        _ => (
            b".model m\n.inputs x\n.outputs a\n.names x a a\n1- 1\n-1 1\n",
            &[true],
            0,
        ),
    }
}

/// The cycle, and the way from it.
fn gates(number: u32) -> (&'static [u32], &'static [u32]) {
    match number {
        0 => (&[0], &[]),
        1 => (&[2, 1], &[0]),
        2 => (&[1], &[0]),
        3 => (&[1, 0], &[]),
        4 => (&[4], &[3, 2, 1, 0]),
        5 => (&[0], &[]),
        6 => (&[3, 4, 2], &[0]),
        _ => (&[], &[]),
    }
}

/// The values of columns that hold the cycle open, and the further ones that hold the way open.
fn columns(number: u32) -> (&'static [Trit], &'static [Trit]) {
    match number {
        0 => (&[Trit::Zero], &[Trit::X]),
        1 => (
            &[Trit::Zero, Trit::Zero, Trit::X],
            &[Trit::X, Trit::X, Trit::One],
        ),
        2 => (
            &[Trit::Zero, Trit::X, Trit::X, Trit::X],
            &[Trit::X, Trit::X, Trit::One, Trit::X],
        ),
        3 => (
            &[Trit::Zero, Trit::Zero, Trit::X],
            &[Trit::X, Trit::X, Trit::X],
        ),
        5 => (
            &[Trit::X, Trit::X, Trit::Zero],
            &[Trit::X, Trit::X, Trit::X],
        ),
        6 => (&[Trit::X], &[Trit::X]),
        _ => (&[], &[]),
    }
}

fn side_of(need: Option<&Trit>) -> Pin {
    match need {
        Some(Trit::Zero) => Pin::Known(false),
        Some(Trit::One) => Pin::Known(true),
        _ => Pin::Free,
    }
}

/// Whether the sides are the columns that hold the cycle open, as they are in each case here.
fn are_sides(sides: &[Pin], needs: &[Trit]) -> bool {
    for signal in 0..sides.len() {
        if sides[signal] != side_of(needs.get(signal)) {
            return false;
        }
    }
    true
}

fn is_answer(why: &Explanation, number: u32) -> bool {
    let (cycle, way) = gates(number);
    let (needs, also) = columns(number);
    why.cycle.items() == cycle
        && why.way.items() == way
        && are_sides(why.sides.items(), needs)
        && why.needs.items() == needs
        && why.also.items() == also
}

fn is_explained_by(
    alloc: Global,
    net: &Netlist,
    vector: &[bool],
    gate: u32,
    number: u32,
) -> Result<bool, Fail> {
    if net.inputs() > 8 || net.latches() > 8 || gate >= net.gates() {
        return Err(Fail::from("another netlist"));
    }
    if vector.len() != net.columns() as usize {
        return Err(Fail::from("another width"));
    }
    match explain(alloc, net, vector, &[], gate)? {
        Some(why) => Ok(is_answer(&why, number)),
        None => Ok(number == CASES - 1),
    }
}

pub fn is_right(alloc: Global, number: u32) -> Result<bool, Fail> {
    let (text, vector, gate) = asked(number);
    let net = net_of(alloc, text)?;
    is_explained_by(alloc, &net, vector, gate, number)
}
