//! Which signals no loop takes part in.

ghost use Rattle.std.specs.Prelude.{◌≡◌, ◌<◌, ◌+◌, ◌&&◌, not, length, All, IfOk, slice_set};
ghost use Rattle.std.specs.List.{list_all};
ghost use Rattle.netlist.specs.Netlists.{count, gate_at, is_marked, columns};
ghost use Rattle.care_rows.specs.Rows.{AreSteadyMarks};
ghost use Rattle.care_rows.specs.Steady.{AreSteadyBefore};

use cyc_base::Sig;
use loops::{LoopedNetlist, gates_at};
use netlist::Netlist;
use std::alloc::{AllocError, Global};

/// Whether all of these signals are marked.
fn are_marked(marks: &[bool], signals: &[Sig]) -> bool
    requires { All (λ s. s.0 < length marks.now) signals.now }
    ensures { result ≡ list_all (λ s. is_marked marks.now s.0) signals.now }
{
    signals.iter().all(|signal| marks[signal.0 as usize])
}

/// Marks a gate where it is on no loop and all its pins are marked, and else takes its mark away.
fn mark_gate(net: &Netlist, on_loop: bool, gate: u32, marks: &mut [bool])
    requires gate { gate < length net.now.gates }
    requires width { length marks.old ≡ count net.now }
    ensures { marks.new ≡ slice_set marks.old (columns net.now + gate) (not on_loop && list_all (λ s. is_marked marks.old s.0) (gate_at net.now gate).pins) }
{
    let steady = !on_loop && are_marked(marks, net.gate(gate).pins.items());
    marks[net.gate_sig(gate).0 as usize] = steady;
}

/// Marks the gates of the block at this place, where those before it are done.
fn mark_block(looped: &LoopedNetlist<'_>, place: usize, marks: &mut [bool])
    requires place { place < length looped.now.blocks.list }
    requires before { AreSteadyBefore looped.now.net looped.now.blocks place 0 marks.old }
    ensures { AreSteadyBefore looped.now.net looped.now.blocks (place + 1) 0 marks.new }
{
    let on_loop = looped.blocks().list.items()[place].looped;
    for gate in gates_at(looped, place) {
        mark_gate(looped.net(), on_loop, *gate, marks);
    }
}

/// Takes away the marks of the signals that a loop takes part in, where all are marked.
fn mark_steady(looped: &LoopedNetlist<'_>, marks: &mut [bool])
    requires { AreSteadyBefore looped.now.net looped.now.blocks 0 0 marks.old }
    ensures { AreSteadyMarks looped.now.net marks.new }
{
    let count = looped.blocks().list.items().len();
    for place in 0..count {
        mark_block(looped, place, marks);
    }
}

/// One mark for each signal, which says whether no loop takes part in it: it is an input or a latch, or neither the gate
/// that drives it nor one upstream of that gate is on a loop.
///
/// One pass over the blocks in their order: the time is linear in the gates and pins.
#[tactic(auto, using(crate::proofs::SteadyLemmas::none_done))]
pub fn steady_signals(alloc: Global, looped: &LoopedNetlist<'_>) -> Result<Vec<bool>, AllocError>
    ensures { IfOk result (λ marks. AreSteadyMarks looped.now.net marks.items) }
{
    let mut marks = vec![in alloc; true; looped.net().count() as usize]?;
    mark_steady(looped, &mut marks);
    Ok(marks)
}
