//! What a netlist does in one tick.

ghost use Rattle.std.specs.Prelude.{◌≡◌, ◌++◌, length, IfOk};
ghost use Rattle.netlist.specs.Netlists.{count};
ghost use Rattle.netlist.specs.Fixpoint.{loaded as loaded_values};
ghost use Rattle.ternary_run.specs.Reading.{IsFanoutOf};
ghost use Rattle.ternary_run.specs.Ticks.{IsTickOf};

use crate::fanout::Fanout;
use crate::settling::{value_of, values_of};
use cyc_base::{Trit, Trits};
use netlist::Netlist;
use std::alloc::{AllocError, Global};

/// The values of one tick at the least fixpoint.
pub struct TickValues {
    /// One for each signal.
    pub wires: Trits,
    /// One for each output.
    pub outputs: Trits,
    /// What each latch loads at the tick's end.
    pub next: Trits,
}

impl Drop for TickValues {
    fn drop(self) {
        let TickValues {
            wires: _,
            outputs: _,
            next: _,
        } = self;
    }
}

/// The values of the inputs and then of the latches.
fn vector(alloc: Global, inputs: &[Trit], latches: &[Trit]) -> Result<Vec<Trit>, AllocError>
    ensures { IfOk result (λ list. list.items ≡ inputs.now ++ latches.now) }
{
    let mut values = inputs.to_vec(alloc)?;
    values.extend_from_slice(latches)?;
    Ok(values)
}

/// What the latches load where the signals have these values.
fn loaded(alloc: Global, net: &Netlist, values: &[Trit]) -> Result<Vec<Trit>, AllocError>
    requires { length values.now ≡ count net.now }
    ensures { IfOk result (λ list. list.items ≡ loaded_values net.now values.now) }
{
    let mut next = Vec::with_capacity(alloc, net.latches() as usize)?;
    for number in 0..net.latches() {
        next.push(value_of(values, net.latch(number).from))?;
    }
    Ok(next)
}

impl Fanout {
    /// The tick in which the inputs and the latches have these values.
    pub fn tick(
        &self,
        alloc: Global,
        net: &Netlist,
        inputs: &[Trit],
        latches: &[Trit],
    ) -> Result<TickValues, AllocError>
        requires inputs { length inputs.now ≡ length net.now.inputs }
        requires latches { length latches.now ≡ length net.now.latches }
        requires readers { IsFanoutOf net.now self.now }
        ensures { IfOk result (IsTickOf net.now (inputs.now ++ latches.now)) }
    {
        let given = vector(alloc, inputs, latches)?;
        let values = self.settle(alloc, net, &given)?;
        let outputs = values_of(alloc, &values, net.outputs())?;
        let next = loaded(alloc, net, &values)?;
        Ok(TickValues {
            wires: Trits::of(values),
            outputs: Trits::of(outputs),
            next: Trits::of(next),
        })
    }
}

/// The tick in which the inputs and the latches have these values, as by `Fanout::tick`, where one
/// vector alone is looked at.
pub fn tick(
    alloc: Global,
    net: &Netlist,
    inputs: &[Trit],
    latches: &[Trit],
) -> Result<TickValues, AllocError>
    requires inputs { length inputs.now ≡ length net.now.inputs }
    requires latches { length latches.now ≡ length net.now.latches }
    ensures { IfOk result (IsTickOf net.now (inputs.now ++ latches.now)) }
{
    let fanout = Fanout::of(alloc, net)?;
    fanout.tick(alloc, net, inputs, latches)
}
