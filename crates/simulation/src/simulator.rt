//! A simulator of one netlist.

ghost use Rattle.std.specs.Prelude.{◌≡◌, ◌++◌, length, IfOk, OnOk};
ghost use Rattle.netlist.specs.Netlists.{count};
ghost use Rattle.netlist.specs.Fixpoint.{fix, loaded as loaded_values, next, outs, shown as shown_values};
ghost use Rattle.ternary_run.specs.Ticks.{IsTickOf};
ghost use Rattle.simulation.specs.Simulators.{IsSimulatorOf};

use crate::plan::Plan;
use crate::wires::{Wires, read_signals};
use cyc_base::{Trit, Trits};
use netlist::Netlist;
use std::alloc::{AllocError, Global};
use ternary_run::TickValues;

/// The values of all signals of a netlist, kept from vector to vector.
///
/// A vector costs one look at each input, latch and block, and the work on those blocks that read a signal
/// whose value changed: a gate outside loops is computed once, and a loop is settled anew in time linear in
/// its pins.
pub struct Simulator {
    plan: Plan,
    wires: Wires,
}

impl Drop for Simulator {
    fn drop(self) {
        let Simulator { plan: _, wires: _ } = self;
    }
}

/// Puts what the latches load, where the signals have these values, in place of what the list had.
fn read_loaded(net: &Netlist, values: &[Trit], next: &mut Vec<Trit>) -> Result<(), AllocError>
    requires { length values.now ≡ count net.now }
    ensures { OnOk result (next.new.items ≡ loaded_values net.now values.now) }
{
    next.clear();
    for number in 0..net.latches() {
        next.push(values[net.latch(number).from.0 as usize])?;
    }
    Ok(())
}

/// What the outputs show where the signals have these values.
fn shown(alloc: Global, net: &Netlist, values: &[Trit]) -> Result<Vec<Trit>, AllocError>
    requires { length values.now ≡ count net.now }
    ensures { IfOk result (λ list. list.items ≡ shown_values net.now values.now) }
{
    let mut outputs = Vec::new(alloc);
    read_signals(values, net.outputs(), &mut outputs)?;
    Ok(outputs)
}

/// What the latches load where the signals have these values.
fn loaded(alloc: Global, net: &Netlist, values: &[Trit]) -> Result<Vec<Trit>, AllocError>
    requires { length values.now ≡ count net.now }
    ensures { IfOk result (λ list. list.items ≡ loaded_values net.now values.now) }
{
    let mut next = Vec::new(alloc);
    read_loaded(net, values, &mut next)?;
    Ok(next)
}

impl Simulator {
    /// A simulator of this netlist, all of whose gates wait for the first vector. It takes time and memory
    /// in proportion to the gates and pins.
    pub fn of(alloc: Global, net: &Netlist) -> Result<Simulator, AllocError>
        ensures { IfOk result (IsSimulatorOf net.now) }
    {
        let plan = Plan::of(alloc, net)?;
        let wires = Wires::new(alloc, net, &plan)?;
        Ok(Simulator { plan, wires })
    }

    /// Gives the signals their values at the fixpoint of this vector.
    fn settle(
        &mut self,
        alloc: Global,
        net: &Netlist,
        inputs: &[Trit],
        latches: &[Trit],
    ) -> Result<(), AllocError>
        requires simulator { IsSimulatorOf net.now self.old }
        requires inputs { length inputs.now ≡ length net.now.inputs }
        requires latches { length latches.now ≡ length net.now.latches }
        ensures simulator { IsSimulatorOf net.now self.new }
        ensures settled { OnOk result (self.new.wires.values.items ≡ fix net.now (inputs.now ++ latches.now)) }
    {
        self.wires.load_vector(net, &self.plan, inputs, latches);
        self.wires.settle(alloc, net, &self.plan)
    }

    /// The tick in which the inputs and the latches have these values, as by `ternary_run::tick`.
    ///
    /// The condition is that this is a simulator of the netlist. It still is one where memory runs out.
    pub fn tick(
        &mut self,
        alloc: Global,
        net: &Netlist,
        inputs: &[Trit],
        latches: &[Trit],
    ) -> Result<TickValues, AllocError>
        requires simulator { IsSimulatorOf net.now self.old }
        requires inputs { length inputs.now ≡ length net.now.inputs }
        requires latches { length latches.now ≡ length net.now.latches }
        ensures simulator { IsSimulatorOf net.now self.new }
        ensures tick { IfOk result (IsTickOf net.now (inputs.now ++ latches.now)) }
    {
        self.settle(alloc, net, inputs, latches)?;
        let outputs = shown(alloc, net, &self.wires.values)?;
        let next = loaded(alloc, net, &self.wires.values)?;
        let wires = self.wires.values.as_slice().to_vec(alloc)?;
        Ok(TickValues {
            wires: Trits::of(wires),
            outputs: Trits::of(outputs),
            next: Trits::of(next),
        })
    }

    /// The same tick for a stream: what the outputs show takes the place of what `outputs` had, and what
    /// the latches load that of their values. So where both lists keep their memory, a tick takes none.
    ///
    /// The condition is that this is a simulator of the netlist. It still is one where memory runs out, but
    /// the two lists mean nothing then.
    pub fn tick_into(
        &mut self,
        alloc: Global,
        net: &Netlist,
        inputs: &[Trit],
        latches: &mut Vec<Trit>,
        outputs: &mut Vec<Trit>,
    ) -> Result<(), AllocError>
        requires simulator { IsSimulatorOf net.now self.old }
        requires inputs { length inputs.now ≡ length net.now.inputs }
        requires latches { length latches.old.items ≡ length net.now.latches }
        ensures simulator { IsSimulatorOf net.now self.new }
        ensures outputs { OnOk result (outputs.new.items ≡ outs net.now (inputs.now ++ latches.old.items)) }
        ensures latches { OnOk result (latches.new.items ≡ next net.now (inputs.now ++ latches.old.items)) }
    {
        self.settle(alloc, net, inputs, latches.as_slice())?;
        read_signals(&self.wires.values, net.outputs(), outputs)?;
        read_loaded(net, &self.wires.values, latches)
    }
}
