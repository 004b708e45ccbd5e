//! An order of a block's gates for a sweep.

ghost use Rattle.std.specs.Prelude.{◌≡◌, ◌≤◌, ◌<◌, ℕ, false, length, slice_index, IfSome, IfNone, IfOk, OnOk, Contains};
ghost use Rattle.netlist.specs.Netlists.{gate_at, IsNetlist, IsSignal};
ghost use Rattle.loops.specs.Blocks.{block_at};
ghost use Rattle.loops.specs.Cuts.{is_cut};
ghost use Rattle.loops.specs.Orders.{IsOrderOf};
ghost use Rattle.loops.specs.Placing.{ArePlaced, ArePlacesRead, AreUncutReads, IsPlaceRead, IsUncutSource, Rise};

use crate::looped_netlist::LoopedNetlist;
use components::{Components, Graph};
use cyc_base::Sig;
use std::alloc::{AllocError, Global};

/// The gate that drives a pin of this gate, if it is in the gate's loop and no cut wire.
fn uncut_source(looped: &LoopedNetlist<'_>, gate: u32, pin: Sig) -> Option<u32>
    requires gate { gate < length looped.now.net.gates }
    requires pin { IsSignal looped.now.net pin }
    ensures some { IfSome result (IsUncutSource looped.now.net looped.now.blocks looped.now.cut gate pin) }
    ensures none { IfNone result ((a : ℕ) → ¬ IsUncutSource looped.now.net looped.now.blocks looped.now.cut gate pin a) }
{
    let source = looped.grouped().loop_source(gate, pin)?;
    if looped.cut().wires.items()[source as usize] {
        return None;
    }
    Some(source)
}

/// The place of a gate among these, which are in flat order.
fn place_of(gates: &[u32], gate: u32) -> Option<u32>
    requires rise { Rise gates.now }
    ensures some { IfSome result (λ place. (place < length gates.now) × (slice_index gates.now place ≡ gate)) }
    ensures none { IfNone result (¬ Contains gates.now gate) }
{
    match gates.binary_search(&gate) {
        Ok(place) => Some(place as u32),
        Err(_) => None,
    }
}

/// The place among these gates of the one that drives a pin of this gate, if it is in the gate's loop
/// and no cut wire.
fn place_read(looped: &LoopedNetlist<'_>, gates: &[u32], gate: u32, pin: Sig) -> Option<u32>
    requires rise { Rise gates.now }
    requires gate { gate < length looped.now.net.gates }
    requires pin { IsSignal looped.now.net pin }
    ensures some { IfSome result (IsPlaceRead looped.now.net looped.now.blocks looped.now.cut gates.now gate pin) }
    ensures none { IfNone result ((place : ℕ) → ¬ IsPlaceRead looped.now.net looped.now.blocks looped.now.cut gates.now gate pin place) }
{
    let source = uncut_source(looped, gate, pin)?;
    place_of(gates, source)
}

/// The places of the gates that this gate reads in its loop and that are no cut wires.
fn places_read(
    alloc: Global,
    looped: &LoopedNetlist<'_>,
    gates: &[u32],
    gate: u32,
) -> Result<Vec<u32>, AllocError>
    requires rise { Rise gates.now }
    requires gate { gate < length looped.now.net.gates }
    ensures places { IfOk result (λ places. ArePlacesRead looped.now.net looped.now.blocks looped.now.cut gates.now gate (length (gate_at looped.now.net gate).pins) places.items) }
    ensures valid { IsNetlist looped.now.net }
{
    let mut places = Vec::new(alloc);
    for pin in looped.net().gate(gate).pins.items() {
        if let Some(place) = place_read(looped, gates, gate, *pin) {
            places.push(place)?;
        }
    }
    Ok(places)
}

/// Which of these gates reads which, as a graph of their places.
fn uncut_reads(
    alloc: Global,
    looped: &LoopedNetlist<'_>,
    gates: &[u32],
) -> Result<Graph, AllocError>
    requires rise { Rise gates.now }
    requires gates { (k : ℕ) → k < length gates.now → slice_index gates.now k < length looped.now.net.gates }
    ensures { IfOk result (AreUncutReads looped.now.net looped.now.blocks looped.now.cut gates.now (length gates.now)) }
{
    let mut graph = Graph::new(alloc);
    for gate in gates {
        let places = places_read(alloc, looped, gates, *gate)?;
        graph.add_node(&places)?;
    }
    Ok(graph)
}

/// The gates at these places.
fn placed(alloc: Global, gates: &[u32], home: &[u32], count: u32) -> Result<Vec<u32>, AllocError>
    requires size { length home.now ≡ length gates.now }
    requires within { (a : ℕ) → a < length gates.now → slice_index home.now a < count }
    requires differ { (a b : ℕ) → a < b → b < length gates.now → ¬ (slice_index home.now a ≡ slice_index home.now b) }
    ensures { IfOk result (λ order. ArePlaced gates.now home.now count order.items) }
{
    let mut order = vec![in alloc; 0; count as usize]?;
    for (place, gate) in gates.iter().enumerate() {
        order[home[place] as usize] = *gate;
    }
    Ok(order)
}

impl<'a> LoopedNetlist<'a> {
    /// An order of the gates of the block at this place, in which each stands after the gates of the block
    /// that it reads and that are no cut wires. A sweep may set them in this order.
    ///
    /// The strongly connected components of the uncut reads are single gates, since without the cut wires no loop is
    /// left.
    pub fn order_of_block(&self, alloc: Global, place: u32) -> Result<Vec<u32>, AllocError>
        requires { place < length self.now.blocks.list }
        ensures { IfOk result (λ order. IsOrderOf self.now.net (is_cut self.now.cut.wires) (block_at self.now.blocks place).gates order.items) }
    {
        let blocks = self.blocks();
        let gates = blocks.list.items()[place as usize].gates.items();
        let graph = uncut_reads(alloc, self, gates)?;
        let components = Components::of(alloc, &graph)?;
        let order = placed(alloc, gates, components.home.items(), components.count)?;
        Ok(order)
    }
}
