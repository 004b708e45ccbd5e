//! The order in which gates are copied: each after those that it reads, but for loops that are left.

ghost use Rattle.std.specs.Prelude.{◌≡◌, ◌<◌, ◌≤◌, length, All, IfOk, OnOk};
ghost use Rattle.std.specs.List.Sorted.{IsPermutation};
ghost use Rattle.netlist.specs.Netlists.{count};

use crate::cofactors::left_wires;
use crate::operands::Operand;
use crate::tables::{operand_of, operands_of};
use components::{Components, Graph};
use cyc_base::Sig;
use netlist::Netlist;
use std::alloc::{AllocError, Global};

/// For each gate its place among these, counted from 1, or 0.
fn places_of(alloc: Global, net: &Netlist, gates: &[u32]) -> Result<Vec<u32>, AllocError>
    requires gates { All (λ n. n < length net.now.gates) gates.now }
    requires few { length gates.now < 4294967295 }
{
    let mut places = vec![in alloc; 0; net.gates() as usize]?;
    for (place, gate) in gates.iter().enumerate() {
        places[*gate as usize] = place as u32 + 1;
    }
    Ok(places)
}

/// The place of a gate among those that have one.
fn place_of(places: &[u32], gate: u32) -> Option<u32> {
    places.get(gate as usize)?.checked_sub(1)
}

/// The place of the gate that drives a wire, if it has one.
fn driver_place(net: &Netlist, places: &[u32], wire: Sig) -> Option<u32> {
    place_of(places, wire.0.checked_sub(net.columns())?)
}

/// The wires that a gate reads where these operands stand for signals.
fn wires_read(
    alloc: Global,
    net: &Netlist,
    table: &[Operand],
    gate: u32,
) -> Result<Vec<Sig>, AllocError>
    requires gate { gate < length net.now.gates }
    requires table { length table.now ≡ count net.now }
{
    if matches!(operand_of(table, net.gate_sig(gate)), Operand::Constant(_)) {
        return Ok(Vec::new(alloc));
    }
    let own = net.gate(gate);
    let operands = operands_of(alloc, table, own.pins.items())?;
    left_wires(alloc, &own.cover, &operands)
}

/// The places of the gates that drive these wires.
fn places_at(
    alloc: Global,
    net: &Netlist,
    places: &[u32],
    wires: &[Sig],
) -> Result<Vec<u32>, AllocError> {
    let mut reads = Vec::new(alloc);
    for wire in wires {
        if let Some(place) = driver_place(net, places, *wire) {
            reads.push(place)?;
        }
    }
    Ok(reads)
}

/// The places of the gates that a gate reads, where these operands stand for signals.
fn reads_of(
    alloc: Global,
    net: &Netlist,
    table: &[Operand],
    places: &[u32],
    gate: u32,
) -> Result<Vec<u32>, AllocError>
    requires gate { gate < length net.now.gates }
    requires table { length table.now ≡ count net.now }
{
    let wires = wires_read(alloc, net, table, gate)?;
    places_at(alloc, net, places, &wires)
}

/// The graph of these gates, each with an edge to those that it reads where these operands stand for signals.
fn graph_by(
    alloc: Global,
    net: &Netlist,
    table: &[Operand],
    places: &[u32],
    gates: &[u32],
) -> Result<Graph, AllocError>
    requires gates { All (λ n. n < length net.now.gates) gates.now }
    requires few { length gates.now < 4294967295 }
    requires table { length table.now ≡ count net.now }
    ensures { IfOk result (λ graph. length graph ≡ length gates.now) }
{
    let mut graph = Graph::new(alloc);
    for gate in gates {
        graph.add_node(&reads_of(alloc, net, table, places, *gate)?)?;
    }
    Ok(graph)
}

/// The graph of these gates. Its nodes are their places.
pub(crate) fn graph_of(
    alloc: Global,
    net: &Netlist,
    table: &[Operand],
    gates: &[u32],
) -> Result<Graph, AllocError>
    requires gates { All (λ n. n < length net.now.gates) gates.now }
    requires few { length gates.now < 4294967295 }
    requires table { length table.now ≡ count net.now }
    ensures { IfOk result (λ graph. length graph ≡ length gates.now) }
{
    let places = places_of(alloc, net, gates)?;
    graph_by(alloc, net, table, &places, gates)
}

/// The components of the graph of these gates.
fn components_by(
    alloc: Global,
    net: &Netlist,
    table: &[Operand],
    places: &[u32],
    gates: &[u32],
) -> Result<Components, AllocError>
    requires gates { All (λ n. n < length net.now.gates) gates.now }
    requires few { length gates.now < 4294967295 }
    requires table { length table.now ≡ count net.now }
{
    let graph = graph_by(alloc, net, table, places, gates)?;
    Components::of(alloc, &graph)
}

/// The number of a gate's component.
fn home_of(places: &[u32], homes: &[u32], gate: u32) -> Option<u32> {
    homes.get(place_of(places, gate)? as usize).copied()
}

/// These gates by their components, those of one component in their order.
fn sorted_by_home(
    alloc: Global,
    places: &[u32],
    homes: &[u32],
    gates: &[u32],
) -> Result<Vec<u32>, AllocError>
    ensures { IfOk result (λ order. IsPermutation gates.now order.items) }
{
    let mut order = gates.to_vec(alloc)?;
    order.sort_by_key(|gate| home_of(places, homes, *gate))?;
    Ok(order)
}

/// These gates, each after those that it reads where these operands stand for signals. Those of a loop that is left
/// keep their order among each other.
pub(crate) fn in_order(
    alloc: Global,
    net: &Netlist,
    table: &[Operand],
    gates: &[u32],
) -> Result<Vec<u32>, AllocError>
    requires gates { All (λ n. n < length net.now.gates) gates.now }
    requires few { length gates.now < 4294967295 }
    requires table { length table.now ≡ count net.now }
    ensures { IfOk result (λ order. IsPermutation gates.now order.items) }
{
    let places = places_of(alloc, net, gates)?;
    let components = components_by(alloc, net, table, &places, gates)?;
    sorted_by_home(alloc, &places, components.home.items(), gates)
}
