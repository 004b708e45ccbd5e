//! The values of all signals, kept from vector to vector, and which blocks are to be settled anew.

ghost use Rattle.std.specs.Prelude.{◌≡◌, ◌+◌, ◌++◌, ◌<◌, ◌≤◌, ℕ, true, length, map, slice_set, slice_index_or, All, IfOk, OnOk};
ghost use Rattle.cyc_base.specs.declared.trit.Trit.TheVariants.{X};
ghost use Rattle.netlist.specs.Netlists.{count, gate_at, gate_sig};
ghost use Rattle.netlist.specs.Fixpoint.{wire, gate_value as value_of_gate};
ghost use Rattle.loops.specs.Blocks.{home_of};
ghost use Rattle.loops.specs.Sweeps.{first_gate};
ghost use Rattle.simulation.specs.Plans.{IsPlanOf};
ghost use Rattle.simulation.specs.Stability.{AreKept, is_due, vector_of};
ghost use Rattle.simulation.specs.Marking.{AreMarked, StayDue};

use crate::plan::Plan;
use cyc_base::{Sig, Trit};
use netlist::{Gate, Netlist};
use std::alloc::{AllocError, Global};

/// The values of all signals, and which blocks are to be settled anew.
pub(crate) struct Wires {
    /// One for each signal.
    pub values: Vec<Trit>,
    /// One for each block: true where something that it reads has changed since it was settled.
    pub due: Vec<bool>,
    /// The values of the pins of the gate that is computed.
    pub pins: Vec<Trit>,
}

impl Drop for Wires {
    fn drop(self) {
        let Wires {
            values: _,
            due: _,
            pins: _,
        } = self;
    }
}

/// Makes the blocks of these gates due.
fn mark(gates: &[u32], home: &[u32], due: &mut [bool])
    requires gates { All (λ gate. gate < length home.now) gates.now }
    requires places { All (λ place. place < length due.old) home.now }
    ensures { AreMarked gates.now home.now (length gates.now) due.old due.new }
{
    for gate in gates {
        due[home[*gate as usize] as usize] = true;
    }
}

/// The values of these signals, in place of what the list had.
pub(crate) fn read_signals(
    values: &[Trit],
    signals: &[Sig],
    list: &mut Vec<Trit>,
) -> Result<(), AllocError>
    requires { All (λ signal. signal.0 < length values.now) signals.now }
    ensures { OnOk result (list.new.items ≡ map (wire values.now) signals.now) }
{
    list.clear();
    for signal in signals {
        list.push(values[signal.0 as usize])?;
    }
    Ok(())
}

/// The value of a gate where the signals have these values.
fn gate_value(
    alloc: Global,
    gate: &Gate,
    values: &[Trit],
    pins: &mut Vec<Trit>,
) -> Result<Trit, AllocError>
    requires pins { All (λ pin. pin.0 < length values.now) gate.now.pins }
    requires pin_count { length gate.now.pins ≡ gate.now.cover.pins }
    ensures { IfOk result (λ value. value ≡ value_of_gate values.now gate.now) }
{
    read_signals(values, gate.pins.items(), pins)?;
    gate.cover.extend(alloc, pins)
}

impl Wires {
    /// All values unknown, and all blocks due.
    pub fn new(alloc: Global, net: &Netlist, plan: &Plan) -> Result<Wires, AllocError>
        requires { IsPlanOf net.now plan.now }
        ensures { IfOk result (λ wires. AreKept net.now plan.now.blocks wires.values.items wires.due.items) }
    {
        let values = vec![in alloc; Trit::X; net.count() as usize]?;
        let due = vec![in alloc; true; plan.blocks.list.items().len()]?;
        Ok(Wires {
            values,
            due,
            pins: Vec::new(alloc),
        })
    }

    /// Gives a signal its value, and makes the blocks that read it due where that is another one.
    pub fn change(&mut self, net: &Netlist, plan: &Plan, signal: Sig, value: Trit)
        requires plan { IsPlanOf net.now plan.now }
        requires kept { AreKept net.now plan.now.blocks self.old.values.items self.old.due.items }
        requires signal { signal.0 < count net.now }
        requires due { (n : ℕ) → n < length net.now.gates → signal ≡ gate_sig net.now n → is_due self.old.due.items (home_of plan.now.blocks n) ≡ true }
        ensures kept { AreKept net.now plan.now.blocks self.new.values.items self.new.due.items }
        ensures values { self.new.values.items ≡ slice_set self.old.values.items signal.0 value }
        ensures due { StayDue self.old.due.items self.new.due.items }
    {
        let place = signal.0 as usize;
        if self.values[place] == value {
            return;
        }
        self.values[place] = value;
        let readers = plan.readers.successors(signal.0);
        mark(readers, plan.blocks.home.items(), &mut self.due);
    }

    /// The value of a gate.
    pub fn value_of(&mut self, alloc: Global, net: &Netlist, gate: u32) -> Result<Trit, AllocError>
        requires gate { gate < length net.now.gates }
        requires width { length self.old.values.items ≡ count net.now }
        ensures value { IfOk result (λ value. value ≡ value_of_gate self.old.values.items (gate_at net.now gate)) }
        ensures values { self.new.values ≡ self.old.values }
        ensures due { self.new.due ≡ self.old.due }
    {
        gate_value(alloc, net.gate(gate), &self.values, &mut self.pins)
    }

    /// Gives the signals from this number on these values.
    fn load(&mut self, net: &Netlist, plan: &Plan, first: u32, given: &[Trit])
        requires plan { IsPlanOf net.now plan.now }
        requires kept { AreKept net.now plan.now.blocks self.old.values.items self.old.due.items }
        requires given { first + length given.now ≤ first_gate net.now }
        ensures kept { AreKept net.now plan.now.blocks self.new.values.items self.new.due.items }
        ensures given { (k : ℕ) → k < length given.now → slice_index_or self.new.values.items (first + k) X ≡ slice_index_or given.now k X }
        ensures before { (k : ℕ) → k < first → slice_index_or self.new.values.items k X ≡ slice_index_or self.old.values.items k X }
    {
        for (number, value) in given.iter().enumerate() {
            self.change(net, plan, Sig(first + number as u32), *value);
        }
    }

    /// Gives the inputs and the latches their values.
    pub fn load_vector(&mut self, net: &Netlist, plan: &Plan, inputs: &[Trit], latches: &[Trit])
        requires plan { IsPlanOf net.now plan.now }
        requires kept { AreKept net.now plan.now.blocks self.old.values.items self.old.due.items }
        requires inputs { length inputs.now ≡ length net.now.inputs }
        requires latches { length latches.now ≡ length net.now.latches }
        ensures kept { AreKept net.now plan.now.blocks self.new.values.items self.new.due.items }
        ensures vector { vector_of net.now self.new.values.items ≡ inputs.now ++ latches.now }
    {
        self.load(net, plan, 0, inputs);
        self.load(net, plan, net.inputs(), latches);
    }
}
