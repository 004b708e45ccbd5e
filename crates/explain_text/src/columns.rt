//! The columns that are read upstream of a gate.

ghost use Rattle.std.specs.Prelude.{◌≡◌, ◌<◌, ℕ, false, length, IfOk};
ghost use Rattle.netlist.specs.Netlists.{gate_at, is_marked};
ghost use Rattle.loops.specs.Sweeps.{first_gate};
ghost use Rattle.loops.specs.Cones.{AddMarks};
ghost use Rattle.explain_text.specs.Columns.{AreColumnsRead, AreUpstreamOf, IsAmong, IsColumn, IsReadBelow, IsReadBy};

use cyc_base::Sig;
use loops::{LoopedNetlist, upstream_of};
use netlist::Netlist;
use std::alloc::{AllocError, Global};

// Marks a signal, where it is a column.
#[tactic(auto, using(crate::proofs::ReadLemmas::column_marked, crate::proofs::ReadLemmas::column_left))]
fn mark_column(signal: Sig, read: &mut [bool])
    ensures { AddMarks (IsColumn (length read.old) signal) read.old read.new }
{
    let place = signal.0 as usize;
    if place < read.len() {
        read[place] = true;
    }
}

// Marks those of these signals that are columns.
#[tactic(auto, using(crate::proofs::ReadLemmas::among_none, crate::proofs::ReadLemmas::among_all))]
fn mark_columns(signals: &[Sig], read: &mut [bool])
    ensures { AddMarks (IsAmong (length read.old) signals.now) read.old read.new }
{
    for signal in signals {
        mark_column(*signal, read);
    }
}

// Marks the columns on the pins of a gate, where this is marked.
#[tactic(auto, using(crate::proofs::ReadLemmas::pins_read, crate::proofs::ReadLemmas::pins_unread))]
fn mark_pins(net: &Netlist, upstream: &[bool], gate: u32, read: &mut [bool])
    requires upstream { length upstream.now ≡ length net.now.gates }
    requires gate { gate < length net.now.gates }
    requires width { length read.old ≡ first_gate net.now }
    ensures { AddMarks (IsReadBy net.now upstream.now gate) read.old read.new }
{
    if upstream[gate as usize] {
        mark_columns(net.gate(gate).pins.items(), read);
    }
}

// Marks the columns on the pins of marked gates.
#[tactic(auto, using(crate::proofs::ReadLemmas::below_none, crate::proofs::ReadLemmas::below_more))]
fn mark_read(net: &Netlist, upstream: &[bool], read: &mut [bool])
    requires upstream { length upstream.now ≡ length net.now.gates }
    requires width { length read.old ≡ first_gate net.now }
    ensures { AddMarks (IsReadBelow net.now upstream.now (length net.now.gates)) read.old read.new }
{
    for gate in 0..net.gates() {
        mark_pins(net, upstream, gate, read);
    }
}

// Marks the columns that the gate speaks of.
fn mark_spoken(net: &Netlist, gate: u32, upstream: &[bool], read: &mut [bool])
    requires upstream { AreUpstreamOf net.now gate upstream.now }
    requires width { length read.old ≡ first_gate net.now }
    requires none { (column : ℕ) → is_marked read.old column ≡ false }
    ensures { AreColumnsRead net.now gate read.new }
{
    mark_read(net, upstream, read);
}

// A mark for each column, which says whether the gate speaks of it.
#[tactic(auto, using(loops::proofs::MarkLemmas::unmarked))]
fn marks_read(
    alloc: Global,
    net: &Netlist,
    gate: u32,
    upstream: &[bool],
) -> Result<Vec<bool>, AllocError>
    requires { AreUpstreamOf net.now gate upstream.now }
    ensures { IfOk result (λ read. AreColumnsRead net.now gate read.items) }
{
    let mut read = vec![in alloc; false; net.columns() as usize]?;
    mark_spoken(net, gate, upstream, &mut read);
    Ok(read)
}

// The same, in time in proportion to the gates and pins of the netlist.
#[tactic(auto, using(crate::proofs::ReadLemmas::upstream_marked))]
pub(crate) fn columns_read(
    alloc: Global,
    looped: &LoopedNetlist<'_>,
    gate: u32,
) -> Result<Vec<bool>, AllocError>
    requires { gate < length looped.now.net.gates }
    ensures { IfOk result (λ read. AreColumnsRead looped.now.net gate read.items) }
{
    let upstream = upstream_of(alloc, looped, &[gate])?;
    marks_read(alloc, looped.net(), gate, &upstream)
}
