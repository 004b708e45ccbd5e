//! Marks of gates, and of all that lies upstream of them.

ghost use Rattle.std.specs.Prelude.{◌≡◌, ◌<◌, ℕ, false, length, All, Contains, IfOk};
ghost use Rattle.netlist.specs.Netlists.{gate_sig, IsSignal, is_marked};
ghost use Rattle.netlist.specs.Walks.{Feeds};
ghost use Rattle.loops.specs.Cones.{AddMarks, AreUpstreamMarks, IsConeOf, IsNear, IsNearOne, IsWithMark};

use crate::looped_netlist::{LoopedNetlist, gates_at};
use cyc_base::Sig;
use netlist::Netlist;
use std::alloc::{AllocError, Global};

/// Marks the gate that drives a signal, if one does: an input or a latch has none.
///
/// The condition is that the signal is the netlist's, and that there is a mark for each gate.
fn mark_driver(net: &Netlist, signal: Sig, marks: &mut [bool])
    requires signal { IsSignal net.now signal }
    requires width { length marks.old ≡ length net.now.gates }
    ensures { AddMarks (λ m. signal ≡ gate_sig net.now m) marks.old marks.new }
{
    if let Some(gate) = net.driver(signal) {
        marks[gate as usize] = true;
    }
}

/// Marks the gates that drive the pins of a gate.
fn mark_sources(net: &Netlist, gate: u32, marks: &mut [bool])
    requires gate { gate < length net.now.gates }
    requires width { length marks.old ≡ length net.now.gates }
    ensures { AddMarks (λ m. Feeds net.now m gate) marks.old marks.new }
{
    for pin in net.gate(gate).pins.items() {
        mark_driver(net, *pin, marks);
    }
}

/// Marks a gate and those that drive its pins.
fn mark_gate(net: &Netlist, gate: u32, marks: &mut [bool])
    requires gate { gate < length net.now.gates }
    requires width { length marks.old ≡ length net.now.gates }
    ensures { AddMarks (IsNear net.now gate) marks.old marks.new }
{
    marks[gate as usize] = true;
    mark_sources(net, gate, marks);
}

/// Marks these gates and those that drive their pins.
fn mark_gates(net: &Netlist, gates: &[u32], marks: &mut [bool])
    requires gates { All (λ n. n < length net.now.gates) gates.now }
    requires width { length marks.old ≡ length net.now.gates }
    ensures { AddMarks (IsNearOne net.now gates.now (length gates.now)) marks.old marks.new }
{
    for gate in gates {
        mark_gate(net, *gate, marks);
    }
}

/// Marks a block's gates and those that drive their pins, where one of the block's gates is marked.
fn mark_block(net: &Netlist, gates: &[u32], marks: &mut [bool])
    requires gates { All (λ n. n < length net.now.gates) gates.now }
    requires width { length marks.old ≡ length net.now.gates }
    ensures { AddMarks (IsWithMark net.now gates.now marks.old) marks.old marks.new }
{
    if gates.iter().any(|gate| marks[*gate as usize]) {
        mark_gates(net, gates, marks);
    }
}

/// Marks what lies upstream of the marked gates, with their whole loops: a gate is marked afterwards just where a walk
/// along pins leads from it to a gate that was marked, or it was marked itself.
///
/// The condition is that there is a mark for each gate.
fn mark_upstream(looped: &LoopedNetlist<'_>, marks: &mut [bool])
    requires { length marks.old ≡ length looped.now.net.gates }
    ensures { AreUpstreamMarks looped.now.net marks.old marks.new }
{
    let count = looped.blocks().list.items().len();
    for place in (0..count).rev() {
        mark_block(looped.net(), gates_at(looped, place), marks);
    }
}

/// Marks these gates.
pub fn mark_all(gates: &[u32], marks: &mut [bool])
    requires { All (λ n. n < length marks.old) gates.now }
    ensures { AddMarks (Contains gates.now) marks.old marks.new }
{
    for gate in gates {
        marks[*gate as usize] = true;
    }
}

/// Marks these gates and what lies upstream of them, where nothing is marked yet.
#[tactic(auto, using(crate::proofs::MarkLemmas::cone_marked))]
fn mark_cone(looped: &LoopedNetlist<'_>, gates: &[u32], marks: &mut [bool])
    requires gates { All (λ n. n < length looped.now.net.gates) gates.now }
    requires width { length marks.old ≡ length looped.now.net.gates }
    requires none { (n : ℕ) → is_marked marks.old n ≡ false }
    ensures { IsConeOf looped.now.net gates.now marks.new }
{
    mark_all(gates, marks);
    mark_upstream(looped, marks);
}

/// A mark for each gate, which says whether it is one of these or lies upstream of one.
///
/// The condition is that these are gates of the netlist.
#[tactic(auto, using(crate::proofs::MarkLemmas::unmarked))]
pub fn upstream_of(
    alloc: Global,
    looped: &LoopedNetlist<'_>,
    gates: &[u32],
) -> Result<Vec<bool>, AllocError>
    requires { All (λ n. n < length looped.now.net.gates) gates.now }
    ensures { IfOk result (λ marks. IsConeOf looped.now.net gates.now marks.items) }
{
    let mut marks = vec![in alloc; false; looped.net().gates() as usize]?;
    mark_cone(looped, gates, &mut marks);
    Ok(marks)
}
