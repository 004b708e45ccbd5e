//! The names of all signals, each once, in the order of their numbers.

ghost use Rattle.std.specs.Prelude.{◌≡◌, ◌⊎◌, ◌+◌, ◌++◌, ◌<◌, ◌≤◌, [], ◌∷◌, true, false, length, map, IfOk, IfErr, OnOk, Some, None};
ghost use Rattle.std.specs.List.{list_any};
ghost use Rattle.std.specs.Str.{bytes_eq};
ghost use Rattle.netlist.specs.Netlists.{signal, count, signal_names as signal_names_of};
ghost use Rattle.netlist.specs.Faults.{repeat_after};
ghost use Rattle.netlist.specs.Naming.{AddsAll, StopsAt};

use crate::named::Named;
use crate::parts::{Parts, PartsFault};
use cyc_base::{Name, Sig};
use indexmap::IndexSet;
use std::alloc::Global;

/// Gives the next signal its name, which no earlier signal may have.
fn add_name(names: &mut IndexSet<Name>, name: &Name) -> Result<(), PartsFault>
    requires { length names.old.keys ≤ 4294967295 }
    ensures added { OnOk result (AddsAll names.old.keys (name.now ∷ []) names.new.keys) }
    ensures fault { IfErr result (StopsAt names.old.keys (name.now ∷ [])) }
{
    let number = names.len() as u32;
    let name = name.copy().map_err(|_| PartsFault::Memory)?;
    let (_, is_new) = names.insert_full(name).map_err(|_| PartsFault::Memory)?;
    if is_new {
        Ok(())
    } else {
        Err(PartsFault::NameTwice { sig: Sig(number) })
    }
}

/// Gives the next signals their names.
fn add_names<T: Named>(names: &mut IndexSet<Name>, items: &[T]) -> Result<(), PartsFault>
    requires { length names.old.keys + length items.now ≤ 4294967295 }
    ensures added { OnOk result (AddsAll names.old.keys (map T.bytes_of items.now) names.new.keys) }
    ensures fault { IfErr result (StopsAt names.old.keys (map T.bytes_of items.now)) }
{
    for item in items {
        add_name(names, item.name())?;
    }
    Ok(())
}

fn add_signals(names: &mut IndexSet<Name>, parts: &Parts) -> Result<(), PartsFault>
    requires { length names.old.keys + count parts.now ≤ 4294967295 }
    ensures added { OnOk result (AddsAll names.old.keys (signal_names_of parts.now) names.new.keys) }
    ensures fault { IfErr result (StopsAt names.old.keys (signal_names_of parts.now)) }
{
    add_names(names, parts.inputs.items())?;
    add_names(names, parts.latches.items())?;
    add_names(names, parts.gates.items())?;
    Ok(())
}

/// The names of all signals, or the first signal whose name an earlier one has.
pub(crate) fn signal_names(
    alloc: Global,
    parts: &Parts,
    signals: u32,
) -> Result<IndexSet<Name>, PartsFault>
    requires { signals ≡ count parts.now }
    ensures added { IfOk result (λ names. AddsAll [] (signal_names_of parts.now) names.keys) }
    ensures fault { IfErr result (StopsAt [] (signal_names_of parts.now)) }
{
    let mut names = IndexSet::with_capacity(alloc, signals as usize).map_err(
        |_| PartsFault::Memory,
    )?;
    add_signals(&mut names, parts)?;
    Ok(names)
}
