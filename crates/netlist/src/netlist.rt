ghost use Rattle.std.specs.Prelude.{◌≡◌, ◌⊎◌, ◌+◌, ◌<◌, Some, None, false, length, slice_get, option_copied, IfOk, IfErr, IfSome, IfNone, OnOk};
ghost use Rattle.std.specs.List.{list_any};
ghost use Rattle.std.specs.Str.{bytes_eq};
ghost use Rattle.netlist.specs.Netlists.{count, signal_names as signal_names_of, gate_sig as gate_sig_of, gate_at, IsNetlist, IsSignal};
ghost use Rattle.netlist.specs.Faults.{first_fault};

use crate::checks::{
    first_of_other_pin_count, first_output_twice, has_blif_names, has_fitting_clock, reads_signals,
    signal_count,
};
use crate::names::signal_names;
use crate::parts::{Clock, Gate, Latch, Parts, PartsFault};
use cyc_base::{Name, Sig};
use indexmap::IndexSet;
use std::alloc::Global;
use std::marker::Model;

/// A flat netlist: parts that meet all conditions of `Netlist::new`.
pub struct Netlist {
    parts: Parts,
    /// The names of all signals, in the order of their numbers.
    names: IndexSet<Name>,
}

impl Drop for Netlist {
    fn drop(self) {
        let Netlist { parts: _, names: _ } = self;
    }
}

impl Model for Netlist {
    ghost use Rattle.std.specs.Prelude.{◌≡◌};
    ghost use Rattle.netlist.specs.declared.parts.Parts.{Parts as Made};
    ghost use Rattle.netlist.specs.Netlists.{signal_names, IsNetlist};

    ghost Value = { Made };

    ghost view = { λ net. net.parts };

    ghost invariant = { λ net. IsNetlist net.parts × (net.names.keys ≡ signal_names net.parts) };
}

/// The names of the signals of parts without a fault.
fn checked_names(alloc: Global, parts: &Parts) -> Result<IndexSet<Name>, PartsFault>
    ensures names { IfOk result (λ names. names.keys ≡ signal_names_of parts.now) }
    ensures no_fault { OnOk result (first_fault parts.now ≡ None) }
    ensures fault { IfErr result (λ fault. (fault ≡ PartsFault.Memory) ⊎ (first_fault parts.now ≡ Some fault)) }
{
    let Some(signals) = signal_count(parts) else {
        return Err(PartsFault::TooMany);
    };
    if !reads_signals(parts, signals) {
        return Err(PartsFault::BadSig);
    }
    if let Some(gate) = first_of_other_pin_count(parts.gates.items()) {
        return Err(PartsFault::PinCount { gate: gate as u32 });
    }
    if !has_blif_names(parts) {
        return Err(PartsFault::BadName);
    }
    let names = signal_names(alloc, parts, signals)?;
    let twice = first_output_twice(alloc, parts.outputs.items()).map_err(|_| PartsFault::Memory)?;
    if let Some(sig) = twice {
        return Err(PartsFault::OutputTwice { sig });
    }
    if !has_fitting_clock(parts) {
        return Err(PartsFault::BadClock);
    }
    Ok(names)
}

impl Netlist {
    /// The netlist of these parts. Where they have a fault, the first in the order of `PartsFault` is
    /// answered, and they are dropped.
    pub fn new(alloc: Global, parts: Parts) -> Result<Netlist, PartsFault>
        ensures parts { IfOk result (λ net. net ≡ parts) }
        ensures valid { OnOk result (IsNetlist parts) }
        ensures no_fault { OnOk result (first_fault parts ≡ None) }
        ensures fault { IfErr result (λ fault. (fault ≡ PartsFault.Memory) ⊎ (first_fault parts ≡ Some fault)) }
    {
        let names = checked_names(alloc, &parts)?;
        Ok(Netlist { parts, names })
    }

    /// What holds of every netlist, for a caller that reads nothing of it.
    pub fn laws(&self)
        ensures valid { IsNetlist self.now }
    {
        let _ = &self.parts;
    }

    /// The model's name.
    pub fn name(&self) -> &Name
        ensures name { result.now ≡ self.now.name }
        ensures valid { IsNetlist self.now }
    {
        &self.parts.name
    }

    /// How many inputs it has.
    pub fn inputs(&self) -> u32
        ensures inputs { result ≡ length self.now.inputs }
        ensures valid { IsNetlist self.now }
    {
        self.parts.inputs.items().len() as u32
    }

    /// How many latches it has.
    pub fn latches(&self) -> u32
        ensures latches { result ≡ length self.now.latches }
        ensures valid { IsNetlist self.now }
    {
        self.parts.latches.items().len() as u32
    }

    /// How many gates it has.
    pub fn gates(&self) -> u32
        ensures gates { result ≡ length self.now.gates }
        ensures valid { IsNetlist self.now }
    {
        self.parts.gates.items().len() as u32
    }

    /// How many inputs and latches it has. Their signals come first, and its vectors have a value for each of them.
    pub fn columns(&self) -> u32
        ensures columns { result ≡ length self.now.inputs + length self.now.latches }
        ensures valid { IsNetlist self.now }
    {
        self.inputs() + self.latches()
    }

    /// How many signals it has.
    pub fn count(&self) -> u32
        ensures count { result ≡ count self.now }
        ensures valid { IsNetlist self.now }
    {
        self.columns() + self.gates()
    }

    /// The signals that are its outputs, all different.
    pub fn outputs(&self) -> &[Sig]
        ensures outputs { result.now ≡ self.now.outputs }
        ensures valid { IsNetlist self.now }
    {
        self.parts.outputs.items()
    }

    /// Its clock. It is there exactly where some latch is clocked.
    pub fn clock(&self) -> Option<&Clock>
        ensures clock { option_copied result ≡ self.now.clock }
        ensures valid { IsNetlist self.now }
    {
        self.parts.clock.as_ref()
    }

    /// The name of a signal.
    pub fn name_of(&self, s: Sig) -> &Name
        requires { s.0 < count self.now }
        ensures name { slice_get (signal_names_of self.now) s.0 ≡ Some result.now }
        ensures valid { IsNetlist self.now }
    {
        &self.names.as_slice()[s.0 as usize]
    }

    /// A latch, by its place among the latches.
    pub fn latch(&self, i: u32) -> &Latch
        requires { i < length self.now.latches }
        ensures latch { slice_get self.now.latches i ≡ Some result.now }
        ensures valid { IsNetlist self.now }
    {
        &self.parts.latches.items()[i as usize]
    }

    /// A gate, by its place among the gates.
    pub fn gate(&self, i: u32) -> &Gate
        requires { i < length self.now.gates }
        ensures gate { slice_get self.now.gates i ≡ Some result.now }
        ensures at { result.now ≡ gate_at self.now i }
        ensures valid { IsNetlist self.now }
    {
        &self.parts.gates.items()[i as usize]
    }

    /// All gates, in flat order.
    pub(crate) fn gate_list(&self) -> &[Gate]
        ensures gates { result.now ≡ self.now.gates }
        ensures valid { IsNetlist self.now }
    {
        self.parts.gates.items()
    }

    /// The signal of a gate.
    pub fn gate_sig(&self, i: u32) -> Sig
        requires { i < length self.now.gates }
        ensures sig { result ≡ gate_sig_of self.now i }
        ensures valid { IsNetlist self.now }
    {
        Sig(self.columns() + i)
    }

    /// The gate that drives a signal: `None` exactly where it is an input's or a latch's.
    pub fn driver(&self, s: Sig) -> Option<u32>
        requires { IsSignal self.now s }
        ensures driven { IfSome result (λ gate. (gate < length self.now.gates) × (s ≡ gate_sig_of self.now gate)) }
        ensures given { IfNone result (s.0 < length self.now.inputs + length self.now.latches) }
        ensures valid { IsNetlist self.now }
    {
        s.0.checked_sub(self.columns())
    }

    /// The signal that has this name: `None` exactly where no signal has it. The clock is no signal.
    pub fn find(&self, name: &Name) -> Option<Sig>
        ensures found { IfSome result (λ s. slice_get (signal_names_of self.now) s.0 ≡ Some name.now) }
        ensures absent { IfNone result (list_any (bytes_eq name.now) (signal_names_of self.now) ≡ false) }
        ensures valid { IsNetlist self.now }
    {
        let number = self.names.get_index_of(name)?;
        Some(Sig(number as u32))
    }
}
