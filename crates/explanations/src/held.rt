//! The greatest set of gates that what is known of the signals holds open.

ghost use Rattle.std.specs.Prelude.{◌≡◌, ◌<◌, ◌↔◌, true, length, map, All, IfOk, OnOk};
ghost use Rattle.netlist.specs.Netlists.{count as signal_count, gate_sig as sig_of_gate, is_marked as is_marked_in};
ghost use Rattle.explanations.specs.Held.{pin_at as pin_at_signal, seen, IsHeld, HasTried, HasLookedAt, AreChangedReaders, AreUnknownGates, IsHeldOpen, IsGreatestWithin, AreMarked};
ghost use Rattle.ternary_run.specs.Reading.{IsFanoutOf};

use crate::pins::{Pin, stays_open};
use cyc_base::{Sig, Trit};
use netlist::Netlist;
use std::alloc::{AllocError, Global};
use std::collections::VecDeque;
use ternary_run::Fanout;

fn pin_of(marked: bool, value: Trit) -> Pin
    ensures { result ≡ seen marked value }
{
    match (marked, value) {
        (true, _) => Pin::Open,
        (false, Trit::Zero) => Pin::Known(false),
        (false, Trit::One) => Pin::Known(true),
        (false, Trit::X) => Pin::Free,
    }
}

pub(crate) fn is_marked(marks: &[bool], signal: u32) -> bool
    ensures { result ≡ is_marked_in marks.now signal }
{
    match marks.get(signal as usize) {
        Some(mark) => *mark,
        None => false,
    }
}

/// What a gate may see of a signal.
fn pin_at(known: &[Trit], marks: &[bool], signal: Sig) -> Pin
    requires { signal.0 < length known.now }
    ensures { result ≡ pin_at_signal known.now marks.now signal }
{
    pin_of(is_marked(marks, signal.0), known[signal.0 as usize])
}

fn pins_at(
    alloc: Global,
    known: &[Trit],
    marks: &[bool],
    signals: &[Sig],
) -> Result<Vec<Pin>, AllocError>
    requires { All (λ signal. signal.0 < length known.now) signals.now }
    ensures { IfOk result (λ pins. pins.items ≡ map (pin_at_signal known.now marks.now) signals.now) }
{
    signals
        .iter()
        .map(|signal| pin_at(known, marks, *signal))
        .collect(alloc)
}

/// Whether a gate stays unknown where those of the set do.
fn is_held(
    alloc: Global,
    net: &Netlist,
    known: &[Trit],
    marks: &[bool],
    gate: u32,
) -> Result<bool, AllocError>
    requires gate { gate < length net.now.gates }
    requires known { length known.now ≡ signal_count net.now }
    ensures { IfOk result (λ held. (held ≡ true) ↔ IsHeld net.now known.now marks.now gate) }
{
    let gate = net.gate(gate);
    let pins = pins_at(alloc, known, marks, gate.pins.items())?;
    stays_open(alloc, &gate.cover, &pins)
}

/// Takes a gate out of the set where it isn't held, and answers whether it did.
fn take_out(
    alloc: Global,
    net: &Netlist,
    known: &[Trit],
    marks: &mut [bool],
    gate: u32,
) -> Result<bool, AllocError>
    requires gate { gate < length net.now.gates }
    requires known { length known.now ≡ signal_count net.now }
    requires marks { length marks.old ≡ signal_count net.now }
    ensures { IfOk result (HasTried net.now known.now gate marks.old marks.new) }
{
    let signal = net.gate_sig(gate);
    if !is_marked(marks, signal.0) {
        return Ok(false);
    }
    if is_held(alloc, net, known, marks, gate)? {
        return Ok(false);
    }
    marks[signal.0 as usize] = false;
    Ok(true)
}

/// The gates that read a signal whose value is another one now.
fn changed_readers(
    alloc: Global,
    net: &Netlist,
    fanout: &Fanout,
    before: &[Trit],
    known: &[Trit],
) -> Result<VecDeque<u32>, AllocError>
    requires readers { IsFanoutOf net.now fanout.now }
    requires before { length before.now ≡ signal_count net.now }
    requires known { length known.now ≡ signal_count net.now }
    ensures { IfOk result (λ queue. AreChangedReaders net.now before.now known.now (signal_count net.now) queue.items) }
{
    let mut queue = VecDeque::new(alloc);
    for signal in 0..net.count() {
        if before[signal as usize] != known[signal as usize] {
            fanout.queue_readers(Sig(signal), &mut queue)?;
        }
    }
    Ok(queue)
}

/// Takes a gate out of the set where it isn't held. The gates that read it then wait for a look.
fn look_at(
    alloc: Global,
    net: &Netlist,
    fanout: &Fanout,
    known: &[Trit],
    marks: &mut [bool],
    queue: &mut VecDeque<u32>,
    gate: u32,
) -> Result<(), AllocError>
    requires gate { gate < length net.now.gates }
    requires readers { IsFanoutOf net.now fanout.now }
    requires known { length known.now ≡ signal_count net.now }
    requires marks { length marks.old ≡ signal_count net.now }
    ensures { OnOk result (HasLookedAt net.now known.now fanout.now gate marks.old marks.new queue.old.items queue.new.items) }
{
    if take_out(alloc, net, known, marks, gate)? {
        fanout.queue_readers(net.gate_sig(gate), queue)?;
    }
    Ok(())
}

/// Leaves the greatest part that is held open of a set that was, before some signals became unknown.
///
/// The gates that read one of these signals wait in a queue. One that isn't held is taken out, and the gates that read it
/// wait too. So the work is in proportion to what changes.
pub(crate) fn shrink(
    alloc: Global,
    net: &Netlist,
    fanout: &Fanout,
    before: &[Trit],
    known: &[Trit],
    marks: &mut [bool],
) -> Result<(), AllocError>
    requires readers { IsFanoutOf net.now fanout.now }
    requires before { length before.now ≡ signal_count net.now }
    requires known { length known.now ≡ signal_count net.now }
    requires marks { length marks.old ≡ signal_count net.now }
    requires held { IsHeldOpen net.now before.now marks.old }
    requires unknown { AreUnknownGates net.now known.now marks.old }
    ensures { OnOk result (IsGreatestWithin net.now known.now marks.old marks.new) }
{
    let mut queue = changed_readers(alloc, net, fanout, before, known)?;
    while let Some(gate) = queue.pop_front() {
        look_at(alloc, net, fanout, known, marks, &mut queue, gate)?;
    }
    Ok(())
}

/// Whether all these gates are in the set.
pub(crate) fn are_marked(net: &Netlist, marks: &[bool], gates: &[u32]) -> bool
    requires { All (λ gate. gate < length net.now.gates) gates.now }
    ensures { (result ≡ true) ↔ AreMarked net.now marks.now gates.now }
{
    for gate in gates {
        if !is_marked(marks, net.gate_sig(*gate).0) {
            return false;
        }
    }
    true
}
