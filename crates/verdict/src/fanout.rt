//! The fanout of gates: what walks along pins lead to from them.

ghost use Rattle.std.specs.Prelude.{◌≡◌, ◌↔◌, ◌<◌, true, not, length, map, All, IfOk};
ghost use Rattle.netlist.specs.Netlists.{IsSignal, is_marked};
ghost use Rattle.loops.specs.Cones.{AddMarks};
ghost use Rattle.verdict.specs.Fanout.{AreFanoutMarks, AreReached, HasMarkedDriver, IsReached, ReadsMark};
ghost use Rattle.verdict.specs.Loose.{AreCandidates};

use cyc_base::Sig;
use loops::{Blocks, LoopedNetlist, gates_at, mark_all};
use netlist::Netlist;
use std::alloc::{AllocError, Global};

/// Whether a marked gate drives a signal: an input or a latch is no gate.
fn has_marked_driver(net: &Netlist, signal: Sig, marks: &[bool]) -> bool
    requires signal { IsSignal net.now signal }
    requires width { length marks.now ≡ length net.now.gates }
    ensures { (result ≡ true) ↔ HasMarkedDriver net.now marks.now signal }
{
    match net.driver(signal) {
        Some(gate) => marks[gate as usize],
        None => false,
    }
}

/// Whether a gate reads a marked one.
fn reads_mark(net: &Netlist, gate: u32, marks: &[bool]) -> bool
    requires gate { gate < length net.now.gates }
    requires width { length marks.now ≡ length net.now.gates }
    ensures { (result ≡ true) ↔ ReadsMark net.now marks.now gate }
{
    for pin in net.gate(gate).pins.items() {
        if has_marked_driver(net, *pin, marks) {
            return true;
        }
    }
    false
}

/// Whether one of these gates is marked or reads a marked one.
pub(crate) fn are_reached(net: &Netlist, gates: &[u32], marks: &[bool]) -> bool
    requires gates { All (λ n. n < length net.now.gates) gates.now }
    requires width { length marks.now ≡ length net.now.gates }
    ensures { (result ≡ true) ↔ AreReached net.now gates.now marks.now }
{
    for gate in gates {
        if marks[*gate as usize] {
            return true;
        }
        if reads_mark(net, *gate, marks) {
            return true;
        }
    }
    false
}

/// Marks a block's gates, where one of them is marked or reads a marked one.
fn mark_reached(net: &Netlist, gates: &[u32], marks: &mut [bool])
    requires gates { All (λ n. n < length net.now.gates) gates.now }
    requires width { length marks.old ≡ length net.now.gates }
    ensures { AddMarks (IsReached net.now gates.now marks.old) marks.old marks.new }
{
    if are_reached(net, gates, marks) {
        mark_all(gates, marks);
    }
}

/// Marks the fanout of the marked gates, with whole loops: a gate is marked afterwards just where a walk along pins
/// leads to it from a gate that was marked, or it was marked itself. One pass does, since a block stands after those
/// that it reads.
pub(crate) fn mark_fanout(looped: &LoopedNetlist<'_>, marks: &mut [bool])
    requires { length marks.old ≡ length looped.now.net.gates }
    ensures { AreFanoutMarks looped.now.net marks.old marks.new }
{
    for place in 0..looped.blocks().list.items().len() {
        mark_reached(looped.net(), gates_at(looped, place), marks);
    }
}

/// The gates of the blocks at places that aren't settled, as marks.
pub(crate) fn open_gates(
    alloc: Global,
    blocks: &Blocks,
    settled: &[bool],
) -> Result<Vec<bool>, AllocError>
    requires { All (λ home. home < length settled.now) blocks.now.home }
    ensures { IfOk result (λ marks. marks.items ≡ map (λ home. not (is_marked settled.now home)) blocks.now.home) }
{
    blocks
        .home
        .items()
        .iter()
        .map(|home| !settled[*home as usize])
        .collect(alloc)
}

/// Marks of the gates in loops that aren't settled, and of those in their fanout.
pub(crate) fn candidate_gates(
    alloc: Global,
    looped: &LoopedNetlist<'_>,
    settled: &[bool],
) -> Result<Vec<bool>, AllocError>
    requires { length settled.now ≡ length looped.now.blocks.list }
    ensures { IfOk result (λ marks. AreCandidates looped.now.net looped.now.blocks settled.now marks.items) }
{
    let mut marks = open_gates(alloc, looped.blocks(), settled)?;
    mark_fanout(looped, &mut marks);
    Ok(marks)
}
