//! Comparisons of two netlists.

ghost use Rattle.std.specs.Prelude.{◌≤◌};

use crate::texts::net_of;
use bdd_ops::Diagrams;
use care_sets::Care;
use equal::{EqualFault, compare};
use miters::Answer;
use netlist::Netlist;
use std::alloc::Global;
use std::test::Fail;

/// Two netlists.
fn texts(case: u32) -> (&'static [u8], &'static [u8]) {
    match case {
        // they agree, with their inputs in another order and with other gates
        0 => (
            b".model a\n.inputs x y\n.outputs z\n.names x y z\n11 1\n",
            b".model b\n.inputs y x\n.outputs z\n.names x y w\n0- 1\n-0 1\n.names w z\n0 1\n",
        ),
        // the first has an unknown wire, and then the second
        1 => (
            b".model a\n.inputs x\n.outputs a\n.names x a a\n1- 1\n-1 1\n",
            b".model b\n.inputs x\n.outputs a\n.names x a\n1 1\n",
        ),
        2 => (
            b".model a\n.inputs x\n.outputs a\n.names x a\n1 1\n",
            b".model b\n.inputs x\n.outputs a\n.names x a a\n1- 1\n-1 1\n",
        ),
        // an output differs, with a as the first column of the one and the second of the other
        3 => (
            b".model a\n.inputs a b\n.outputs y\n.names a b y\n11 1\n",
            b".model b\n.inputs b a\n.outputs y\n.names a b y\n1- 1\n-1 1\n",
        ),
        // what a latch loads differs
        4 => (
            b".model a\n.inputs x\n.outputs x\n.latch d q 0\n.names x q d\n11 1\n",
            b".model b\n.inputs x\n.outputs x\n.latch d q 0\n.names x q d\n10 1\n",
        ),
        // a latch starts with another value
        5 => (
            b".model a\n.inputs x\n.outputs x\n.latch x q 0\n",
            b".model b\n.inputs x\n.outputs x\n.latch x q 1\n",
        ),
        // an input is there in one alone
        _ => (
            b".model a\n.inputs a b\n.outputs y\n.names a b y\n11 1\n",
            b".model b\n.inputs b\n.outputs y\n.names b y\n1 1\n",
        ),
    }
}

/// Whether this is what is to be found. In the last case there is room for one node.
fn is_expected(case: u32, answer: &Result<Answer, EqualFault>) -> bool {
    match answer {
        Ok(Answer::Equal) => case == 0,
        Ok(Answer::First(_)) => case == 1,
        Ok(Answer::Second(_)) => case == 2,
        Ok(Answer::Output { vector, at }) => {
            case == 3 && *at == 0 && vector.items() == [false, true].as_slice()
        }
        Ok(Answer::Latch { vector, at }) => {
            case == 4 && *at == 0 && vector.items() == [true, false].as_slice()
        }
        Ok(Answer::Unmatched { name }) => {
            (case == 5 && name.bytes() == b"q".as_slice())
                || (case == 6 && name.bytes() == b"a".as_slice())
        }
        Err(fault) => case == 7 && *fault == EqualFault::NodeLimit { nodes: 1 },
    }
}

/// How many nodes there may be.
fn limit_of(case: u32) -> u32
    ensures { result ≤ 1000 }
{
    if case == 7 { 1 } else { 1_000 }
}

/// Whether what is found of two netlists on all vectors is that.
fn is_found(alloc: Global, a: &Netlist, b: &Netlist, case: u32) -> Result<bool, Fail> {
    let mut d = Diagrams::new(alloc, 0, 1)?;
    let none = Care::none();
    let answer = compare(alloc, &mut d, a, b, &none, &none, limit_of(case));
    Ok(is_expected(case, &answer))
}

fn with_first(alloc: Global, a: &Netlist, second: &[u8], case: u32) -> Result<bool, Fail> {
    let b = net_of(alloc, second)?;
    is_found(alloc, a, &b, case)
}

pub const CASES: u32 = 8;

pub fn is_right(alloc: Global, case: u32) -> Result<bool, Fail> {
    let (first, second) = texts(case % 7);
    let a = net_of(alloc, first)?;
    with_first(alloc, &a, second, case)
}
