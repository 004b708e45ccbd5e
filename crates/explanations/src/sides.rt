//! The wires beside a cycle whose values hold it open.

ghost use Rattle.std.specs.Prelude.{◌≡◌, ◌≢◌, ◌<◌, ◌↔◌, true, length, map, All, IfOk, OnOk};
ghost use Rattle.netlist.specs.Netlists.{count as signal_count, IsNetlist, is_marked as is_marked_in};
ghost use Rattle.explanations.specs.Sides.{AreMarksOf, AreAllSides, AreSides, HasLeftOut, HoldsCycle, IsLeavingOut, ReadersStay, ReaderStays, StandsOpen, StaysBeside, beside, reads as reads_signal, side_of};

use crate::held::is_marked;
use crate::pins::{Pin, is_free, stays_open};
use cyc_base::{Sig, Trit};
use netlist::Netlist;
use std::alloc::{AllocError, Global};

/// A mark for each signal, which says whether it is one of these gates.
fn marks_of(alloc: Global, net: &Netlist, gates: &[u32]) -> Result<Vec<bool>, AllocError>
    requires { All (λ gate. gate < length net.now.gates) gates.now }
    ensures { IfOk result (λ marks. AreMarksOf net.now gates.now (length gates.now) marks.items) }
{
    let mut marks = vec![in alloc; false; net.count() as usize]?;
    for gate in gates {
        marks[net.gate_sig(*gate).0 as usize] = true;
    }
    Ok(marks)
}

/// What a wire beside the cycle is.
fn side(on_cycle: bool, value: Trit) -> Pin
    ensures { result ≡ side_of on_cycle value }
{
    match (on_cycle, value) {
        (true, _) => Pin::Free,
        (false, Trit::Zero) => Pin::Known(false),
        (false, Trit::One) => Pin::Known(true),
        (false, Trit::X) => Pin::Open,
    }
}

/// All wires beside the cycle.
fn all_sides(
    alloc: Global,
    net: &Netlist,
    known: &[Trit],
    marks: &[bool],
) -> Result<Vec<Pin>, AllocError>
    requires { length known.now ≡ signal_count net.now }
    ensures all { IfOk result (λ sides. AreAllSides known.now marks.now (signal_count net.now) sides.items) }
    ensures valid { IsNetlist net.now }
{
    let mut sides = Vec::new(alloc);
    for signal in 0..net.count() {
        sides.push(side(is_marked(marks, signal), known[signal as usize]))?;
    }
    Ok(sides)
}

fn is_reader(net: &Netlist, gate: u32, signal: u32) -> bool
    requires { gate < length net.now.gates }
    ensures { result ≡ reads_signal net.now gate signal }
{
    net.gate(gate)
        .pins
        .items()
        .iter()
        .any(|pin| pin.0 == signal)
}

/// What a gate may see of a signal.
fn pin_beside(marks: &[bool], sides: &[Pin], signal: Sig) -> Pin
    ensures { result ≡ beside (is_marked_in marks.now) sides.now signal }
{
    if is_marked(marks, signal.0) {
        Pin::Open
    } else {
        sides.get(signal.0 as usize).copied().unwrap_or(Pin::Free)
    }
}

fn pins_beside(
    alloc: Global,
    marks: &[bool],
    sides: &[Pin],
    signals: &[Sig],
) -> Result<Vec<Pin>, AllocError>
    ensures { IfOk result (λ pins. pins.items ≡ map (beside (is_marked_in marks.now) sides.now) signals.now) }
{
    signals
        .iter()
        .map(|signal| pin_beside(marks, sides, *signal))
        .collect(alloc)
}

/// Whether a gate of the cycle stays unknown, whatever the wires are that the sides leave free.
fn stays_beside(
    alloc: Global,
    net: &Netlist,
    marks: &[bool],
    sides: &[Pin],
    gate: u32,
) -> Result<bool, AllocError>
    requires { gate < length net.now.gates }
    ensures { IfOk result (λ stays. (stays ≡ true) ↔ StaysBeside net.now (is_marked_in marks.now) sides.now gate) }
{
    let gate = net.gate(gate);
    let pins = pins_beside(alloc, marks, sides, gate.pins.items())?;
    stays_open(alloc, &gate.cover, &pins)
}

/// Whether a gate of the cycle stays unknown, or doesn't read the signal.
fn reader_stays(
    alloc: Global,
    net: &Netlist,
    marks: &[bool],
    sides: &[Pin],
    gate: u32,
    signal: u32,
) -> Result<bool, AllocError>
    requires { gate < length net.now.gates }
    ensures { IfOk result (λ stays. (stays ≡ true) ↔ ReaderStays net.now (is_marked_in marks.now) sides.now signal gate) }
{
    if !is_reader(net, gate, signal) {
        return Ok(true);
    }
    stays_beside(alloc, net, marks, sides, gate)
}

/// Whether the gates of the cycle that read the signal stay unknown.
fn readers_stay(
    alloc: Global,
    net: &Netlist,
    marks: &[bool],
    sides: &[Pin],
    cycle: &[u32],
    signal: u32,
) -> Result<bool, AllocError>
    requires { All (λ gate. gate < length net.now.gates) cycle.now }
    ensures { IfOk result (λ stay. (stay ≡ true) ↔ ReadersStay net.now (is_marked_in marks.now) sides.now cycle.now signal) }
{
    for gate in cycle {
        if !reader_stays(alloc, net, marks, sides, *gate, signal)? {
            return Ok(false);
        }
    }
    Ok(true)
}

/// Leaves a side out, where the cycle stays open without it.
fn leave_out(
    alloc: Global,
    net: &Netlist,
    marks: &[bool],
    cycle: &[u32],
    sides: &mut [Pin],
    signal: u32,
) -> Result<(), AllocError>
    requires cycle { All (λ gate. gate < length net.now.gates) cycle.now }
    requires signal { signal < length sides.old }
    requires holds { HoldsCycle net.now (is_marked_in marks.now) sides.old cycle.now }
    ensures { OnOk result (HasLeftOut net.now (is_marked_in marks.now) cycle.now signal sides.old sides.new) }
{
    let side = sides[signal as usize];
    if is_free(side) {
        return Ok(());
    }
    sides[signal as usize] = Pin::Free;
    if readers_stay(alloc, net, marks, sides, cycle, signal)? {
        return Ok(());
    }
    sides[signal as usize] = side;
    Ok(())
}

/// Leaves out each side that can be left out, in the order of the signals.
fn leave_all_out(
    alloc: Global,
    net: &Netlist,
    marks: &[bool],
    cycle: &[u32],
    sides: &mut [Pin],
) -> Result<(), AllocError>
    requires cycle { All (λ gate. gate < length net.now.gates) cycle.now }
    requires size { length sides.old ≡ signal_count net.now }
    requires holds { HoldsCycle net.now (is_marked_in marks.now) sides.old cycle.now }
    ensures { OnOk result (IsLeavingOut net.now (is_marked_in marks.now) cycle.now (signal_count net.now) sides.old sides.new) }
{
    for signal in 0..net.count() {
        leave_out(alloc, net, marks, cycle, sides, signal)?;
    }
    Ok(())
}

/// Leaves out each side that can be left out and isn't one of these, in the order of the signals.
fn leave_others_out(
    alloc: Global,
    net: &Netlist,
    marks: &[bool],
    cycle: &[u32],
    preferred: &[bool],
    sides: &mut [Pin],
) -> Result<(), AllocError>
    requires cycle { All (λ gate. gate < length net.now.gates) cycle.now }
    requires size { length sides.old ≡ signal_count net.now }
    requires holds { HoldsCycle net.now (is_marked_in marks.now) sides.old cycle.now }
    ensures { OnOk result (IsLeavingOut net.now (is_marked_in marks.now) cycle.now 0 sides.old sides.new) }
{
    for signal in 0..net.count() {
        if !is_marked(preferred, signal) {
            leave_out(alloc, net, marks, cycle, sides, signal)?;
        }
    }
    Ok(())
}

/// Leaves out each side that can be left out: first of those that aren't preferred.
fn leave_out_by_preference(
    alloc: Global,
    net: &Netlist,
    marks: &[bool],
    cycle: &[u32],
    preferred: &[bool],
    sides: &mut [Pin],
) -> Result<(), AllocError>
    requires cycle { All (λ gate. gate < length net.now.gates) cycle.now }
    requires size { length sides.old ≡ signal_count net.now }
    requires holds { HoldsCycle net.now (is_marked_in marks.now) sides.old cycle.now }
    ensures { OnOk result (IsLeavingOut net.now (is_marked_in marks.now) cycle.now (signal_count net.now) sides.old sides.new) }
{
    leave_others_out(alloc, net, marks, cycle, preferred, sides)?;
    leave_all_out(alloc, net, marks, cycle, sides)
}

/// The same of sides of its own.
fn fewest(
    alloc: Global,
    net: &Netlist,
    marks: &[bool],
    cycle: &[u32],
    preferred: &[bool],
    mut sides: Vec<Pin>,
) -> Result<Vec<Pin>, AllocError>
    requires cycle { All (λ gate. gate < length net.now.gates) cycle.now }
    requires size { length sides.items ≡ signal_count net.now }
    requires holds { HoldsCycle net.now (is_marked_in marks.now) sides.items cycle.now }
    ensures { IfOk result (λ fewest. IsLeavingOut net.now (is_marked_in marks.now) cycle.now (signal_count net.now) sides.items fewest.items) }
{
    leave_out_by_preference(alloc, net, marks, cycle, preferred, &mut sides)?;
    Ok(sides)
}

/// What the signals beside a cycle of unknown gates are, where it is needed to hold the cycle open: none of these can be
/// left out alone. Those that aren't preferred, by their marks, are left out before those that are.
///
/// It takes a look at each gate of the cycle for each signal beside it, and what `Cover::extend` does at the gates that
/// read the signal.
pub(crate) fn sides(
    alloc: Global,
    net: &Netlist,
    known: &[Trit],
    cycle: &[u32],
    preferred: &[bool],
) -> Result<Vec<Pin>, AllocError>
    requires known { length known.now ≡ signal_count net.now }
    requires cycle { All (StandsOpen net.now known.now) cycle.now }
    ensures { IfOk result (λ sides. AreSides net.now known.now cycle.now sides.items) }
{
    let marks = marks_of(alloc, net, cycle)?;
    let all = all_sides(alloc, net, known, &marks)?;
    fewest(alloc, net, &marks, cycle, preferred, all)
}
