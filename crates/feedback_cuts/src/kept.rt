//! Who reads whom among the gates that are no cut wires, within loops: for each gate those that read it, and those
//! that it reads.

ghost use Rattle.std.specs.Prelude.{◌≡◌, ◌<◌, ◌+◌, ◌↔◌, ◌^◌, ℕ, true, length, IfOk, OnOk, Contains};
ghost use Rattle.std.specs.List.{All};
ghost use Rattle.netlist.specs.Netlists.{gate_at};
ghost use Rattle.feedback_cuts.specs.Keeping.{AreSourcesBelow, HaveGained, HaveGainedPins};
ghost use Rattle.loops.specs.Links.{IsLoopPin};
ghost use Rattle.feedback_cuts.specs.Searching.{IsFree};

use loops::{GateList, GroupedNetlist};
use std::alloc::{AllocError, Global};

/// Whether a gate of a loop is a pin of itself.
pub(crate) fn reads_itself(grouped: &GroupedNetlist<'_>, gate: u32) -> bool
    requires gate { gate < length grouped.now.net.gates }
    ensures { (result ≡ true) ↔ IsLoopPin grouped.now.net grouped.now.blocks gate gate }
{
    for pin in grouped.net().gate(gate).pins.items() {
        if grouped.loop_source(gate, *pin) == Some(gate) {
            return true;
        }
    }
    false
}

/// Whether a gate comes before this one and is no cut wire.
fn is_free(cut: &[bool], gate: u32, source: u32) -> bool
    requires cut { gate < length cut.now }
    ensures { (result ≡ true) ↔ IsFree cut.now gate source }
{
    source < gate && !cut[source as usize]
}

/// The gates that this one reads in its loop, which come before it and are no cut wires.
pub(crate) fn sources_before(
    alloc: Global,
    grouped: &GroupedNetlist<'_>,
    cut: &[bool],
    gate: u32,
) -> Result<GateList, AllocError>
    requires gate { gate < length grouped.now.net.gates }
    requires cut { gate < length cut.now }
    ensures { IfOk result (AreSourcesBelow grouped.now.net grouped.now.blocks cut.now gate (length (gate_at grouped.now.net gate).pins)) }
{
    let mut row = GateList::new(alloc);
    for pin in grouped.net().gate(gate).pins.items() {
        if let Some(source) = grouped.loop_source(gate, *pin) {
            if is_free(cut, gate, source) {
                row.push(source)?;
            }
        }
    }
    Ok(row)
}

/// Enters a gate as a reader of those that it reads in its loop.
pub(crate) fn add_reader(
    readers: &mut [GateList],
    grouped: &GroupedNetlist<'_>,
    gate: u32,
) -> Result<(), AllocError>
    requires gate { gate < length grouped.now.net.gates }
    requires size { length readers.old ≡ length grouped.now.net.gates }
    ensures { OnOk result (HaveGainedPins grouped.now.net grouped.now.blocks gate (length (gate_at grouped.now.net gate).pins) readers.old readers.new) }
{
    for pin in grouped.net().gate(gate).pins.items() {
        if let Some(source) = grouped.loop_source(gate, *pin) {
            readers[source as usize].push(gate)?;
        }
    }
    Ok(())
}

/// Enters a gate as a source of those that read it.
pub(crate) fn add_source(
    sources: &mut [GateList],
    readers: &[u32],
    gate: u32,
) -> Result<(), AllocError>
    requires { All (λ reader. reader < length sources.old) readers.now }
    ensures { OnOk result (HaveGained readers.now gate (length readers.now) sources.old sources.new) }
{
    for reader in readers {
        sources[*reader as usize].push(gate)?;
    }
    Ok(())
}
