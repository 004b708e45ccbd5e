//! The least fixpoint by a work list.

ghost use Rattle.std.specs.Prelude.{◌≡◌, ◌++◌, ◌+◌, ◌<◌, ℕ, length, map, filter, replicate, All, EachIndex, slice_index, IfOk, OnOk};
ghost use Rattle.std.specs.List.{range_with_len};
ghost use Rattle.cyc_base.specs.declared.trit.Trit.TheVariants.{X};
ghost use Rattle.netlist.specs.Netlists.{count};
ghost use Rattle.netlist.specs.Fixpoint.{wires, wire, gate_value as value_of_gate, fix};
ghost use Rattle.ternary_run.specs.Reading.{reads_signal, IsFanoutOf};
ghost use Rattle.ternary_run.specs.Settling.{all_unknown, IsNewValue};

use crate::fanout::Fanout;
use cyc_base::{Sig, Trit};
use netlist::{Gate, Netlist};
use std::alloc::{AllocError, Global};
use std::collections::VecDeque;

/// The given values, and all gates unknown.
fn unsettled(alloc: Global, net: &Netlist, given: &[Trit]) -> Result<Vec<Trit>, AllocError>
    requires { length given.now ≡ length net.now.inputs + length net.now.latches }
    ensures { IfOk result (λ values. values.items ≡ wires given.now (all_unknown net.now)) }
{
    let mut values = given.to_vec(alloc)?;
    values.resize(net.count() as usize, Trit::X)?;
    Ok(values)
}

/// The numbers of all gates, in their order.
fn all_gates(alloc: Global, gates: u32) -> Result<VecDeque<u32>, AllocError>
    ensures { IfOk result (λ queue. queue.items ≡ range_with_len 0 gates) }
{
    let numbers: Vec<u32> = (0..gates).collect(alloc)?;
    Ok(VecDeque::from_vec(numbers))
}

/// The value of a signal.
pub(crate) fn value_of(values: &[Trit], signal: Sig) -> Trit
    requires { signal.0 < length values.now }
    ensures { result ≡ wire values.now signal }
{
    values[signal.0 as usize]
}

/// The values of these signals.
pub(crate) fn values_of(
    alloc: Global,
    values: &[Trit],
    signals: &[Sig],
) -> Result<Vec<Trit>, AllocError>
    requires { All (λ signal. signal.0 < length values.now) signals.now }
    ensures { IfOk result (λ list. list.items ≡ map (wire values.now) signals.now) }
{
    signals
        .iter()
        .map(|signal| value_of(values, *signal))
        .collect(alloc)
}

/// The value of a gate where the signals have these values.
fn gate_value(alloc: Global, gate: &Gate, values: &[Trit]) -> Result<Trit, AllocError>
    requires pins { All (λ pin. pin.0 < length values.now) gate.now.pins }
    requires pin_count { length gate.now.pins ≡ gate.now.cover.pins }
    ensures { IfOk result (λ value. value ≡ value_of_gate values.now gate.now) }
{
    let pins = values_of(alloc, values, gate.pins.items())?;
    gate.cover.extend(alloc, &pins)
}

/// The value of a gate, where it was unknown until now and no longer is.
fn new_value(
    alloc: Global,
    net: &Netlist,
    gate: u32,
    values: &[Trit],
) -> Result<Option<Trit>, AllocError>
    requires gate { gate < length net.now.gates }
    requires width { length values.now ≡ count net.now }
    ensures { IfOk result (IsNewValue net.now values.now gate) }
{
    if value_of(values, net.gate_sig(gate)) != Trit::X {
        return Ok(None);
    }
    match gate_value(alloc, net.gate(gate), values)? {
        Trit::X => Ok(None),
        value => Ok(Some(value)),
    }
}

impl Fanout {
    /// The values of all signals at the least fixpoint, where the inputs and then the latches have the
    /// given values.
    ///
    /// All gates begin unknown and wait in a queue. Whenever one becomes known, the gates that read it
    /// wait once more. A gate becomes known at most once, so each is computed at most once more than it
    /// has pins, and the work is linear in the netlist.
    pub fn settle(
        &self,
        alloc: Global,
        net: &Netlist,
        given: &[Trit],
    ) -> Result<Vec<Trit>, AllocError>
        requires width { length given.now ≡ length net.now.inputs + length net.now.latches }
        requires readers { IsFanoutOf net.now self.now }
        ensures { IfOk result (λ values. values.items ≡ fix net.now given.now) }
    {
        let mut values = unsettled(alloc, net, given)?;
        let mut queue = all_gates(alloc, net.gates())?;
        while let Some(gate) = queue.pop_front() {
            if let Some(value) = new_value(alloc, net, gate, &values)? {
                let signal = net.gate_sig(gate);
                values[signal.0 as usize] = value;
                self.queue_readers(signal, &mut queue)?;
            }
        }
        Ok(values)
    }
}

/// The values of all signals at the least fixpoint, as by `Fanout::settle`, where one vector alone is
/// settled.
pub fn settle(alloc: Global, net: &Netlist, given: &[Trit]) -> Result<Vec<Trit>, AllocError>
    requires { length given.now ≡ length net.now.inputs + length net.now.latches }
    ensures { IfOk result (λ values. values.items ≡ fix net.now given.now) }
{
    let fanout = Fanout::of(alloc, net)?;
    fanout.settle(alloc, net, given)
}
