//! The fixpoint of a netlist without loops, gate by gate.

ghost use Rattle.std.specs.Prelude.{◌≡◌, ◌<◌, ◌*◌, ◌++◌, Bool, List, length, map, replicate, All, IfOk, OnOk};
ghost use Rattle.bdd_store.specs.Growth.{KeepsNodes, GrowsWithin};
ghost use Rattle.dual_rail.specs.Local.{size};
ghost use Rattle.dual_rail.specs.Rails.{AreRailsOf, values_of};
ghost use Rattle.dual_rail.specs.WorkingLists.{BoundsEach};
ghost use Rattle.netlist.specs.Fixpoint.{fix};
ghost use Rattle.netlist.specs.Netlists.{count, gate_at, IsNetlist};
ghost use Rattle.netlist.specs.Orders.{IsGateOrder};
ghost use Rattle.netlist.specs.Walks.{IsLoopFree};
ghost use Rattle.loops.specs.Sweeps.{first_gate};
ghost use Rattle.fixpoint.specs.Lifting.{rails_of_pin, AreSignalRails, IsLifted, AreLifted, BoundsGate};
ghost use Rattle.fixpoint.specs.Solved.{Vectors};
ghost use Rattle.fixpoint.specs.Sweeping.{unknown as unknown_rails};
ghost use Rattle.fixpoint.specs.Working.{no_loops, IsGatePart, HasLargeCover, effort};

use crate::wires::{gate_rails, signal_rails, unknowns};
use bdd_ops::Diagrams;
use bdd_store::StoreFault;
use cyc_base::Sig;
use dual_rail::Rails;
use netlist::Netlist;
use std::alloc::{AllocError, Global};

/// The rails of these pins.
fn pin_rails(alloc: Global, rails: &[Rails], pins: &[Sig]) -> Result<Vec<Rails>, AllocError>
    requires { All (λ pin. pin.0 < length rails.now) pins.now }
    ensures { IfOk result (λ list. list.items ≡ map (rails_of_pin rails.now) pins.now) }
{
    pins.iter().map(|pin| rails[pin.0 as usize]).collect(alloc)
}

/// Sets a gate to the rails of its cover on those of its pins.
fn lift_gate(
    alloc: Global,
    d: &mut Diagrams,
    net: &Netlist,
    rails: &mut [Rails],
    gate: u32,
) -> Result<(), StoreFault>
    requires gate { gate < length net.now.gates }
    requires wires { AreSignalRails net.now d.old rails.old }
    ensures valid { IsNetlist net.now }
    ensures set { OnOk result (IsLifted net.now d.old d.new rails.old rails.new gate) }
    ensures grows { GrowsWithin result d.old d.new (HasLargeCover net.now) (BoundsGate net.now d.old rails.old gate) (2 * size (gate_at net.now gate).cover) }
{
    let Ok(pins) = pin_rails(alloc, rails, net.gate(gate).pins.items()) else {
        return Err(StoreFault::Memory);
    };
    let made = gate_rails(alloc, d, net, gate, &pins)?;
    rails[(net.columns() + gate) as usize] = made;
    Ok(())
}

/// Sets all gates, in an order in which each follows those that it reads.
fn lift_in_order(
    alloc: Global,
    d: &mut Diagrams,
    net: &Netlist,
    order: &[u32],
    rails: &mut [Rails],
) -> Result<(), StoreFault>
    requires order { IsGateOrder net.now order.now }
    requires wires { AreSignalRails net.now d.old rails.old }
    ensures values { (v : Vectors) → AreLifted net.now order.now d.old v 0 rails.old → OnOk result ((bits : List Bool) → values_of d.new rails.new bits ≡ fix net.now (v bits)) }
    ensures wires { OnOk result (AreSignalRails net.now d.new rails.new) }
    ensures keeps { KeepsNodes d.old d.new }
    ensures grows { (v : Vectors) → AreLifted net.now order.now d.old v 0 rails.old →
        GrowsWithin result d.old d.new (HasLargeCover net.now) (BoundsEach d.old.vars (IsGatePart net.now no_loops v)) (2 * effort net.now) }
{
    for gate in order {
        lift_gate(alloc, d, net, rails, *gate)?;
    }
    Ok(())
}

/// The given rails of inputs and latches, and those of X for the gates.
fn unlifted_rails(alloc: Global, net: &Netlist, given: &[Rails]) -> Result<Vec<Rails>, AllocError>
    ensures { IfOk result (λ rails. rails.items ≡ given.now ++ replicate (length net.now.gates) unknown_rails) }
{
    let gates = unknowns(alloc, net.gates() as usize)?;
    signal_rails(alloc, given, &gates)
}

/// The rails of the fixpoint of a netlist without loops, for each signal, where the inputs and then the latches
/// have the given rails: gate by gate, each after those that it reads. It leaves every earlier node its function,
/// after a refusal too.
///
/// For each w that bounds the functions of the gates, it adds at most `2 * w * effort` nodes. `Full` comes only
/// where a gate's cover has a size over the limit, or where so many more nodes would be over the limit.
///
/// The condition is that the netlist has no loop, and that the given rails are proper.
pub fn lift_gates(
    alloc: Global,
    d: &mut Diagrams,
    net: &Netlist,
    given: &[Rails],
) -> Result<Vec<Rails>, StoreFault>
    requires loop_free { IsLoopFree net.now }
    requires width { length given.now ≡ first_gate net.now }
    requires rails { All (AreRailsOf d.old) given.now }
    ensures width { IfOk result (λ rails. length rails.items ≡ count net.now) }
    ensures rails { IfOk result (λ rails. All (AreRailsOf d.new) rails.items) }
    ensures values { IfOk result (λ rails. (bits : List Bool) → values_of d.new rails.items bits ≡ fix net.now (values_of d.old given.now bits)) }
    ensures grows { GrowsWithin result d.old d.new (HasLargeCover net.now) (BoundsEach d.old.vars (IsGatePart net.now no_loops (values_of d.old given.now))) (2 * effort net.now) }
{
    let Ok(Some(order)) = net.in_order(alloc) else {
        return Err(StoreFault::Memory);
    };
    let mut rails = unlifted_rails(alloc, net, given)?;
    lift_in_order(alloc, d, net, &order, &mut rails)?;
    Ok(rails)
}
