//! What only the binary form has.

ghost use Rattle.std.specs.Prelude.{◌-◌, ◌<◌, ◌≤◌, ◌++◌, ◌∷◌};
ghost use Rattle.cyc_io.specs.Taken.{IsAppended, sink_call};
ghost use Rattle.aig_core.specs.Answers.{FitsNetlist};
ghost use Rattle.aig_core.specs.Text.{numbers_line, init_words, loads_text, groups, groups_text};

use crate::aig::Aig;
use crate::building::Built;
use crate::edge::Edge;
use crate::lines::put_line;
use cyc_io::{Failed, Sink, write_whole};
use netlist::{Init, Netlist};

/// How many values a group of seven bits has.
const GROUP: u32 = 128;

/// Appends the line of a latch that has this edge and loads `next`, without the edge.
fn put_load<K: Sink>(sink: &mut K, own: u32, next: Edge, init: Init) -> Result<(), Failed>
    ensures { IsAppended (numbers_line (next.0 ∷ init_words own init)) (sink_call K.put K.faults sink.old sink.new) result }
{
    match init {
        Init::Zero => put_line(sink, next.0, &[]),
        Init::One => put_line(sink, next.0, &[1]),
        Init::Either => put_line(sink, next.0, &[own]),
    }
}

pub(crate) fn put_loads<K: Sink>(sink: &mut K, net: &Netlist, built: &Built) -> Result<(), Failed>
    requires { FitsNetlist net.now built.now }
    ensures { IsAppended (loads_text net.now built.now) (sink_call K.put K.faults sink.old sink.new) result }
{
    let inputs = built.aig.inputs();
    for place in 0..net.latches() {
        let next = built.nexts.items()[place as usize];
        put_load(sink, 2 * (1 + inputs + place), next, net.latch(place).init)?;
    }
    Ok(())
}

/// Appends a number in groups of seven bits, the least first, with 128 added to each but the last.
fn put_groups<K: Sink>(sink: &mut K, number: u32) -> Result<(), Failed>
    ensures { IsAppended (groups number) (sink_call K.put K.faults sink.old sink.new) result }
{
    let mut rest = number;
    while rest >= GROUP {
        write_whole(sink, &[(GROUP + rest % GROUP) as u8])?;
        rest = rest / GROUP;
    }
    write_whole(sink, &[rest as u8])
}

/// Appends by how much an AND's edge is over the greater one that it reads, and that one over the smaller.
fn put_differences<K: Sink>(
    sink: &mut K,
    own: u32,
    greater: Edge,
    smaller: Edge,
) -> Result<(), Failed>
    requires greater { greater.0 ≤ own }
    requires smaller { smaller.0 ≤ greater.0 }
    ensures { IsAppended (groups (own - greater.0) ++ groups (greater.0 - smaller.0)) (sink_call K.put K.faults sink.old sink.new) result }
{
    put_groups(sink, own - greater.0)?;
    put_groups(sink, greater.0 - smaller.0)
}

pub(crate) fn put_and_groups<K: Sink>(sink: &mut K, aig: &Aig) -> Result<(), Failed>
    ensures { IsAppended (groups_text aig.now) (sink_call K.put K.faults sink.old sink.new) result }
{
    aig.laws();
    let first = 1 + aig.inputs() + aig.latches();
    for place in 0..aig.count() {
        let (greater, smaller) = aig.pair(place);
        put_differences(sink, 2 * (first + place), greater, smaller)?;
    }
    Ok(())
}
