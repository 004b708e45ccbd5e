//! And-inverter graphs of netlists and their texts.

ghost use Rattle.aig_core.specs.Answers.{FitsNetlist};

use crate::texts::net_of;
use aig_core::{Built, build, write_ascii, write_binary};
use cyc_io::TextSink;
use netlist::Netlist;
use std::alloc::Global;
use std::test::Fail;

pub const CASES: u32 = 5;

/// A netlist, by its number.
fn text(number: u32) -> &'static [u8] {
    match number {
        // A latch that starts with 1.
        0 => b".model l\n.inputs x\n.outputs d\n.latch d q 1\n.names x q d\n11 1\n.end\n",
        // A loop that was rewritten: all that is left is an input.
        1 => {
            b".model m\n.inputs x\n.outputs a\n.names z~\n.names x z~ c1~a\n1- 1\n-1 1\n.names x c1~a a\n1- 1\n-1 1\n.end\n"
        }
        // An off-plane and an on-plane cover of one function.
        2 =>
            b".model n\n.inputs a b\n.outputs y z\n.names a b y\n00 0\n.names a b z\n1- 1\n-1 1\n.end\n",
        // A constant, and latches that start with 0 and with either value.
        3 => b".model c\n.outputs k q r\n.latch q q 0\n.latch k r 3\n.names k\n1\n.end\n",
        // A gate that two outputs read, and a loop that none needs.
        _ => b".model s\n.inputs a b\n.outputs y\n.names a b y\n11 1\n.names w w\n1 1\n.end\n",
    }
}

/// Its graph's text in the binary form, or nothing where it has a loop.
fn binary(number: u32) -> &'static [u8] {
    match number {
        0 => b"aig 3 1 1 1 1\n6 1\n6\n\x02\x02i0 x\nl0 q\no0 d\n",
        1 => b"aig 1 1 0 1 0\n2\ni0 x\no0 a\n",
        2 => b"aig 3 2 0 2 1\n7\n7\n\x01\x02i0 a\ni1 b\no0 y\no1 z\n",
        3 => b"aig 2 0 2 3 0\n2\n1 4\n1\n2\n4\nl0 q\nl1 r\no0 k\no1 q\no2 r\n",
        _ => b"",
    }
}

/// And in the ASCII form.
fn ascii(number: u32) -> &'static [u8] {
    match number {
        0 => b"aag 3 1 1 1 1\n2\n4 6 1\n6\n6 4 2\ni0 x\nl0 q\no0 d\n",
        1 => b"aag 1 1 0 1 0\n2\n2\ni0 x\no0 a\n",
        2 => b"aag 3 2 0 2 1\n2\n4\n7\n7\n6 5 3\ni0 a\ni1 b\no0 y\no1 z\n",
        3 => b"aag 2 0 2 3 0\n2 2\n4 1 4\n1\n2\n4\nl0 q\nl1 r\no0 k\no1 q\no2 r\n",
        _ => b"",
    }
}

fn texts_are(alloc: Global, net: &Netlist, built: &Built, number: u32) -> Result<bool, Fail>
    requires { FitsNetlist net.now built.now }
{
    let mut lines = TextSink::new(alloc);
    let mut bytes = TextSink::new(alloc);
    if write_ascii(net, built, &mut lines).is_err()
        || write_binary(net, built, &mut bytes).is_err()
    {
        return Err(Fail::from("a text is not written"));
    }
    let lines = lines.into_vec();
    let bytes = bytes.into_vec();
    Ok(lines.as_slice() == ascii(number) && bytes.as_slice() == binary(number))
}

/// Whether the graph of a netlist is written in both forms, or it has a loop.
pub fn is_right(alloc: Global, number: u32) -> Result<bool, Fail> {
    let net = net_of(alloc, text(number))?;
    if net.inputs() > 2 || net.latches() > 2 {
        return Err(Fail::from("many columns"));
    }
    match build(alloc, &net) {
        Ok(Some(built)) => texts_are(alloc, &net, &built, number),
        Ok(None) => Ok(ascii(number).is_empty()),
        Err(_) => Err(Fail::from("a graph is not built")),
    }
}
