//! The wires of a netlist while it is solved, and the lifting of one gate.

ghost use Rattle.std.specs.Prelude.{◌≡◌, ◌<◌, ◌≤◌, ◌+◌, ◌*◌, ◌++◌, List, Bool, length, map, replicate, All, IfOk, OnOk, IfSome};
ghost use Rattle.bdd_store.specs.Growth.{GrowsWithin, NoOtherCause};
ghost use Rattle.cover_logic.specs.Covers.{value as cover_value};
ghost use Rattle.cover_logic.specs.Extensions.{ext};
ghost use Rattle.dual_rail.specs.Rails.{AreRailsOf, value_of, values_of};
ghost use Rattle.dual_rail.specs.Local.{IsDiagramOf, size};
ghost use Rattle.dual_rail.specs.WorkingLists.{BoundsEach, IsExtended};
ghost use Rattle.netlist.specs.Netlists.{IsNetlist, IsSignal, gate_at};
ghost use Rattle.loops.specs.Sweeps.{first_gate};
ghost use Rattle.fixpoint.specs.Kept.{rails_under, AreKept};
ghost use Rattle.fixpoint.specs.Sweeping.{unknown as unknown_rails, rails_in, rails_read, AreWires, IsGateSet};
ghost use Rattle.fixpoint.specs.Working.{HasLargeCover};

use crate::kept::{KeptRails, rails_of};
use bdd_ops::Diagrams;
use bdd_store::{Node, StoreFault};
use cyc_base::{MAX_NODES, Sig};
use dual_rail::{LocalDiagram, Rails, lift, local, sizes};
use loops::LoopedNetlist;
use netlist::Netlist;
use std::alloc::{AllocError, Global};

/// The rails of X.
pub(crate) fn unknown() -> Rails
    ensures { result ≡ unknown_rails }
{
    Rails {
        one: Node::of(false),
        zero: Node::of(false),
    }
}

/// As many rails of X.
pub(crate) fn unknowns(alloc: Global, gates: usize) -> Result<Vec<Rails>, AllocError>
    ensures { IfOk result (λ rails. rails.items ≡ replicate gates unknown_rails) }
{
    Ok(vec![in alloc; unknown(); gates]?)
}

/// The given rails of inputs and latches, and then those of gates.
pub(crate) fn signal_rails(
    alloc: Global,
    given: &[Rails],
    gates: &[Rails],
) -> Result<Vec<Rails>, AllocError>
    ensures { IfOk result (λ rails. rails.items ≡ given.now ++ gates.now) }
{
    let mut rails: Vec<Rails> = given.iter().copied().collect(alloc)?;
    rails.extend_from_slice(gates)?;
    Ok(rails)
}

/// The rails of a netlist's signals while it is solved.
#[derive(Drop)]
pub struct Wires {
    /// Those of its gates as they are read of cut wires: as they were before the sweep.
    pub(crate) before: Vec<Rails>,
    /// Those of all its signals.
    pub(crate) rails: Vec<Rails>,
}

/// The diagram of a gate's cover. `Full` comes only where the cover has a size over the limit.
fn local_of(alloc: Global, net: &Netlist, gate: u32, limit: u32) -> Result<LocalDiagram, StoreFault>
    requires gate { gate < length net.now.gates }
    requires limit { limit ≤ MAX_NODES }
    ensures diagram { IfOk result (λ l. IsDiagramOf l (gate_at net.now gate).cover) }
    ensures full { result ≡ Err StoreFault.Full → HasLargeCover net.now limit }
{
    local(alloc, &net.gate(gate).cover, limit)
}

/// The rails of a gate's cover on those of its pins, by the cover's diagram.
fn lift_cover(
    alloc: Global,
    d: &mut Diagrams,
    net: &Netlist,
    gate: u32,
    diagram: &LocalDiagram,
    pins: &[Rails],
) -> Result<Rails, StoreFault>
    requires gate { gate < length net.now.gates }
    requires diagram { IsDiagramOf diagram.now (gate_at net.now gate).cover }
    requires pins { length pins.now ≡ length (gate_at net.now gate).pins }
    requires rails { All (AreRailsOf d.old) pins.now }
    ensures rails { IfOk result (AreRailsOf d.new) }
    ensures value { IfOk result (λ r. (bits : List Bool) → value_of d.new r bits ≡ ext (gate_at net.now gate).cover (values_of d.old pins.now bits)) }
    ensures grows { GrowsWithin result d.old d.new NoOtherCause (BoundsEach d.old.vars (IsExtended d.old pins.now (cover_value (gate_at net.now gate).cover))) (2 * size (gate_at net.now gate).cover) }
{
    sizes();
    net.laws();
    lift(alloc, d, diagram, pins)
}

/// The rails of a gate's cover on those of its pins.
pub(crate) fn gate_rails(
    alloc: Global,
    d: &mut Diagrams,
    net: &Netlist,
    gate: u32,
    pins: &[Rails],
) -> Result<Rails, StoreFault>
    requires gate { gate < length net.now.gates }
    requires pins { length pins.now ≡ length (gate_at net.now gate).pins }
    requires rails { All (AreRailsOf d.old) pins.now }
    ensures rails { IfOk result (AreRailsOf d.new) }
    ensures value { IfOk result (λ r. (bits : List Bool) → value_of d.new r bits ≡ ext (gate_at net.now gate).cover (values_of d.old pins.now bits)) }
    ensures grows { GrowsWithin result d.old d.new (HasLargeCover net.now) (BoundsEach d.old.vars (IsExtended d.old pins.now (cover_value (gate_at net.now gate).cover))) (2 * size (gate_at net.now gate).cover) }
{
    let diagram = local_of(alloc, net, gate, d.store().limit())?;
    lift_cover(alloc, d, net, gate, &diagram, pins)
}

/// The rails at a place, or those of X.
fn rails_at_place(d: &Diagrams, place: &Option<KeptRails>) -> Rails
    requires { IfSome place.now (AreKept d.now) }
    ensures { result ≡ rails_in d.now place.now }
{
    match place {
        Some(kept) => kept.rails(d),
        None => unknown(),
    }
}

/// The rails at these places.
fn rails_at_places(
    alloc: Global,
    d: &Diagrams,
    places: &[Option<KeptRails>],
) -> Result<Vec<Rails>, AllocError>
    requires { All (λ place. IfSome place (AreKept d.now)) places.now }
    ensures { IfOk result (λ rails. rails.items ≡ map (rails_in d.now) places.now) }
{
    places
        .iter()
        .map(|place| rails_at_place(d, place))
        .collect(alloc)
}

impl Wires {
    /// Inputs and latches have the given rails, and gates those at their places.
    pub(crate) fn of(
        alloc: Global,
        d: &Diagrams,
        given: &[KeptRails],
        places: &[Option<KeptRails>],
    ) -> Result<Wires, AllocError>
        requires given { All (AreKept d.now) given.now }
        requires places { All (λ place. IfSome place (AreKept d.now)) places.now }
        ensures before { IfOk result (λ wires. wires.before.items ≡ map (rails_in d.now) places.now) }
        ensures rails { IfOk result (λ wires. wires.rails.items ≡ map (rails_under d.now) given.now ++ wires.before.items) }
    {
        let columns = rails_of(alloc, d, given)?;
        let before = rails_at_places(alloc, d, places)?;
        let rails = signal_rails(alloc, &columns, &before)?;
        Ok(Wires { before, rails })
    }

    /// The rails of a signal as gates read it: a cut wire as it was before the sweep.
    fn read(&self, looped: &LoopedNetlist<'_>, pin: Sig) -> Rails
        requires pin { IsSignal looped.now.net pin }
        requires width { length self.now.rails.items ≡ first_gate looped.now.net + length looped.now.net.gates }
        requires before { length self.now.before.items ≡ length looped.now.net.gates }
        ensures { result ≡ rails_read looped.now.net looped.now.cut self.now.before.items self.now.rails.items pin }
    {
        if let Some(gate) = looped.net().driver(pin) {
            if looped.cut().wires.items()[gate as usize] {
                return self.before[gate as usize];
            }
        }
        self.rails[pin.0 as usize]
    }

    /// The rails that the pins of a gate read.
    fn pins_read(
        &self,
        alloc: Global,
        looped: &LoopedNetlist<'_>,
        pins: &[Sig],
    ) -> Result<Vec<Rails>, AllocError>
        requires pins { All (IsSignal looped.now.net) pins.now }
        requires width { length self.now.rails.items ≡ first_gate looped.now.net + length looped.now.net.gates }
        requires before { length self.now.before.items ≡ length looped.now.net.gates }
        ensures { IfOk result (λ list. list.items ≡ map (rails_read looped.now.net looped.now.cut self.now.before.items self.now.rails.items) pins.now) }
    {
        pins.iter()
            .map(|pin| self.read(looped, *pin))
            .collect(alloc)
    }

    /// Sets a gate to the rails of its cover on what it reads.
    pub(crate) fn set_gate(
        &mut self,
        alloc: Global,
        d: &mut Diagrams,
        looped: &LoopedNetlist<'_>,
        gate: u32,
    ) -> Result<(), StoreFault>
        requires gate { gate < length looped.now.net.gates }
        requires wires { AreWires looped.now.net d.old self.old.before.items self.old.rails.items }
        ensures valid { IsNetlist looped.now.net }
        ensures before { self.new.before.items ≡ self.old.before.items }
        ensures set { OnOk result (IsGateSet looped.now.net looped.now.cut d.old d.new self.old.before.items self.old.rails.items self.new.rails.items gate) }
        ensures grows { GrowsWithin result d.old d.new (HasLargeCover looped.now.net)
            (BoundsEach d.old.vars (IsExtended d.old (map (rails_read looped.now.net looped.now.cut self.old.before.items self.old.rails.items) (gate_at looped.now.net gate).pins) (cover_value (gate_at looped.now.net gate).cover)))
            (2 * size (gate_at looped.now.net gate).cover) }
    {
        let net = looped.net();
        let Ok(pins) = self.pins_read(alloc, looped, net.gate(gate).pins.items()) else {
            return Err(StoreFault::Memory);
        };
        let made = gate_rails(alloc, d, net, gate, &pins)?;
        self.rails[(net.columns() + gate) as usize] = made;
        Ok(())
    }
}
