//! The conditions of a netlist's parts, each looked for by itself.

ghost use Rattle.std.specs.Prelude.{◌≡◌, ◌<◌, ◌≤◌, [], not, length, position, is_some, nat_le, option_map, IfSome, IfOk};
ghost use Rattle.std.specs.List.{list_all, list_any};
ghost use Rattle.std.specs.Str.{bytes_eq};
ghost use Rattle.netlist.specs.Netlists.{count, sig_eq, is_driven as is_driven_in};
ghost use Rattle.netlist.specs.Faults.{is_signal, reads_signals as reads_signals_of, has_cover_pins as has_cover_pins_of, is_blif_name, has_blif_names as has_blif_names_of, is_clock_name as is_clock_name_of, has_fitting_clock as has_fitting_clock_of, first_repeat};

use crate::named::{have_blif_names, is_blif, some_is_named};
use crate::parts::{Gate, Latch, Parts};
use cyc_base::{Name, Sig};
use indexmap::IndexSet;
use std::alloc::{AllocError, Global};

/// How many signals there are, if a signal's number can count them.
pub(crate) fn signal_count(parts: &Parts) -> Option<u32>
    ensures few { is_some result ≡ nat_le (count parts.now) 4294967295 }
    ensures counted { IfSome result (λ n. n ≡ count parts.now) }
{
    let driven = parts
        .latches
        .items()
        .len()
        .checked_add(parts.gates.items().len())?;
    let signals = parts.inputs.items().len().checked_add(driven)?;
    u32::try_from(signals).ok()
}

fn are_signals(read: &[Sig], signals: u32) -> bool
    ensures { result ≡ list_all (is_signal signals) read.now }
{
    read.iter().all(|sig| sig.0 < signals)
}

fn gates_read_signals(gates: &[Gate], signals: u32) -> bool
    ensures { result ≡ list_all (λ gate. list_all (is_signal signals) gate.pins) gates.now }
{
    gates
        .iter()
        .all(|gate| are_signals(gate.pins.items(), signals))
}

fn latches_read_signals(latches: &[Latch], signals: u32) -> bool
    ensures { result ≡ list_all (λ latch. is_signal signals latch.from) latches.now }
{
    latches.iter().all(|latch| latch.from.0 < signals)
}

/// Whether every pin, latch and output reads one of the signals.
pub(crate) fn reads_signals(parts: &Parts, signals: u32) -> bool
    requires { signals ≡ count parts.now }
    ensures { result ≡ reads_signals_of parts.now }
{
    gates_read_signals(parts.gates.items(), signals)
        && latches_read_signals(parts.latches.items(), signals)
        && are_signals(parts.outputs.items(), signals)
}

/// The first gate whose pins aren't as many as its cover's.
pub(crate) fn first_of_other_pin_count(gates: &[Gate]) -> Option<usize>
    ensures first { result ≡ position (λ gate. not (has_cover_pins_of gate)) gates.now }
    ensures within { IfSome result (λ gate. gate < length gates.now) }
{
    gates
        .iter()
        .position(|gate| gate.pins.items().len() != gate.cover.pins())
}

/// Whether the model's name and those of all signals can stand in a BLIF text.
pub(crate) fn has_blif_names(parts: &Parts) -> bool
    ensures { result ≡ has_blif_names_of parts.now }
{
    is_blif(&parts.name)
        && have_blif_names(parts.inputs.items())
        && have_blif_names(parts.latches.items())
        && have_blif_names(parts.gates.items())
}

/// The first output that is an earlier output too. Those before it are put in a set that has none yet.
fn first_repeated(outputs: &[Sig], seen: &mut IndexSet<Sig>) -> Result<Option<Sig>, AllocError>
    requires { seen.old.keys ≡ [] }
    ensures { IfOk result (λ twice. twice ≡ option_map (λ p. p.1) (first_repeat sig_eq outputs.now)) }
{
    for output in outputs {
        let (_, is_new) = seen.insert_full(*output)?;
        if !is_new {
            return Ok(Some(*output));
        }
    }
    Ok(None)
}

/// The first output that is an earlier output too.
pub(crate) fn first_output_twice(alloc: Global, outputs: &[Sig]) -> Result<Option<Sig>, AllocError>
    ensures { IfOk result (λ twice. twice ≡ option_map (λ p. p.1) (first_repeat sig_eq outputs.now)) }
{
    let mut seen = IndexSet::new(alloc);
    first_repeated(outputs, &mut seen)
}

/// Whether a latch or a gate has this name.
fn is_driven(parts: &Parts, name: &Name) -> bool
    ensures { result ≡ is_driven_in parts.now name.now }
{
    some_is_named(parts.latches.items(), name) || some_is_named(parts.gates.items(), name)
}

fn some_is_clocked(latches: &[Latch]) -> bool
    ensures { result ≡ list_any (λ latch. latch.clocked) latches.now }
{
    latches.iter().any(|latch| latch.clocked)
}

fn is_clock_name(parts: &Parts, name: &Name) -> bool
    ensures { result ≡ is_clock_name_of parts.now name.now }
{
    is_blif(name) && name.bytes() != b"NIL".as_slice() && !is_driven(parts, name)
}

/// Whether a clock is there exactly where some latch is clocked, with a name that a clock may have.
pub(crate) fn has_fitting_clock(parts: &Parts) -> bool
    ensures { result ≡ has_fitting_clock_of parts.now }
{
    let clocked = some_is_clocked(parts.latches.items());
    match &parts.clock {
        None => !clocked,
        Some(clock) => clocked && is_clock_name(parts, &clock.name),
    }
}
