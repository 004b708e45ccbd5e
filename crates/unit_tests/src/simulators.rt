//! A simulator, which keeps the wires' values, against ticks that settle each vector anew.

ghost use Rattle.std.specs.Prelude.{◌≡◌, length};
ghost use Rattle.simulation.specs.Simulators.{IsSimulatorOf};

use crate::fixpoints::net_text;
use crate::texts::net_of;
use cyc_base::Trit;
use netlist::Netlist;
use simulation::Simulator;
use std::alloc::{AllocError, Global};
use std::test::Fail;
use ternary_run::{TickValues, tick};

/// Each of the nine vectors comes three times, each time after another one.
const VECTORS: u32 = 27;

/// The value of this number.
fn trit(number: u32) -> Trit {
    match number % 3 {
        0 => Trit::Zero,
        1 => Trit::One,
        _ => Trit::X,
    }
}

fn are_same(one: &TickValues, other: &TickValues) -> bool {
    one.wires.items() == other.wires.items()
        && one.outputs.items() == other.outputs.items()
        && one.next.items() == other.next.items()
}

/// Whether both do the same at the vector of this number.
fn tick_alike(
    alloc: Global,
    net: &Netlist,
    simulator: &mut Simulator,
    number: u32,
) -> Result<bool, AllocError>
    requires simulator { IsSimulatorOf net.now simulator.old }
    requires inputs { length net.now.inputs ≡ 1 }
    requires latches { length net.now.latches ≡ 1 }
    ensures { IsSimulatorOf net.now simulator.new }
{
    let inputs = [trit(number)];
    let latches = [trit(number / 3)];
    let kept = simulator.tick(alloc, net, inputs.as_slice(), latches.as_slice())?;
    let anew = tick(alloc, net, inputs.as_slice(), latches.as_slice())?;
    Ok(are_same(&kept, &anew))
}

/// Whether they do at all vectors, one after another.
fn always_tick_alike(alloc: Global, net: &Netlist) -> Result<bool, AllocError> {
    if net.inputs() != 1 || net.latches() != 1 {
        return Ok(false);
    }
    let mut simulator = Simulator::of(alloc, net)?;
    let mut alike = true;
    for place in 0..VECTORS {
        alike &= tick_alike(alloc, net, &mut simulator, 5 * place)?;
    }
    Ok(alike)
}

pub fn is_right(alloc: Global, number: u32) -> Result<bool, Fail> {
    let net = net_of(alloc, net_text(number))?;
    Ok(always_tick_alike(alloc, &net)?)
}
