//! Regions of gates that share no pin, so that each is split by cases of its own.

ghost use Rattle.std.specs.Prelude.{◌<◌, length, All};

use components::{Components, Graph};
use loops::{GateList, empty_lists};
use netlist::Netlist;
use std::alloc::{AllocError, Global};

/// The most regions: what is left is one region together.
const MOST_REGIONS: u32 = 512;

/// For each gate of the netlist its place among these, counted from 1, or 0.
fn places_of(alloc: Global, net: &Netlist, gates: &[u32]) -> Result<Vec<u32>, AllocError>
    requires few { length gates.now < 4294967295 }
{
    let mut places = vec![in alloc; 0; net.gates() as usize]?;
    for (place, gate) in gates.iter().enumerate() {
        if let Some(entry) = places.get_mut(*gate as usize) {
            *entry = place as u32 + 1;
        }
    }
    Ok(places)
}

/// The place of a gate among those that have one.
fn place_of(places: &[u32], gate: u32) -> Option<u32> {
    places.get(gate as usize)?.checked_sub(1)
}

fn add_neighbour(lists: &mut [GateList], place: u32, other: u32) -> Result<(), AllocError> {
    if let Some(list) = lists.get_mut(place as usize) {
        list.push(other)?;
    }
    Ok(())
}

/// Enters a gate beside those that it reads.
fn add_reads(
    net: &Netlist,
    places: &[u32],
    lists: &mut [GateList],
    gate: u32,
) -> Result<(), AllocError>
    requires { gate < length net.now.gates }
{
    let Some(place) = place_of(places, gate) else {
        return Ok(());
    };
    for pin in net.gate(gate).pins.items() {
        if let Some(source) = net.driver(*pin) {
            if let Some(other) = place_of(places, source) {
                add_neighbour(lists, place, other)?;
                add_neighbour(lists, other, place)?;
            }
        }
    }
    Ok(())
}

/// For each of these gates the places of those that it reads and of those that read it.
fn neighbours(alloc: Global, net: &Netlist, gates: &[u32]) -> Result<Vec<GateList>, AllocError>
    requires gates { All (λ n. n < length net.now.gates) gates.now }
    requires few { length gates.now < 4294967295 }
{
    let places = places_of(alloc, net, gates)?;
    let mut lists = empty_lists(alloc, gates.len() as u32)?;
    for gate in gates {
        add_reads(net, &places, &mut lists, *gate)?;
    }
    Ok(lists)
}

fn list_at(lists: &[GateList], place: u32) -> &[u32] {
    match lists.get(place as usize) {
        Some(list) => list.gates(),
        None => &[],
    }
}

/// The graph of so many nodes and these successors.
fn graph_of(alloc: Global, lists: &[GateList], count: u32) -> Result<Graph, AllocError> {
    let mut graph = Graph::new(alloc);
    for place in 0..count {
        graph.add_node(list_at(lists, place))?;
    }
    Ok(graph)
}

/// Those of the gates that have the same home, together.
fn group_by_home(
    alloc: Global,
    gates: &[u32],
    homes: &[u32],
    count: u32,
) -> Result<Vec<GateList>, AllocError> {
    let mut regions = empty_lists(alloc, count.min(MOST_REGIONS))?;
    for (gate, home) in gates.iter().zip(homes) {
        add_neighbour(&mut regions, (*home).min(MOST_REGIONS - 1), *gate)?;
    }
    Ok(regions)
}

/// These gates by regions: a walk along pins, in any direction, leads from each gate of a region to the others.
pub(crate) fn regions_of(
    alloc: Global,
    net: &Netlist,
    gates: &[u32],
) -> Result<Vec<GateList>, AllocError>
    requires gates { All (λ n. n < length net.now.gates) gates.now }
    requires few { length gates.now < 4294967295 }
{
    let lists = neighbours(alloc, net, gates)?;
    let graph = graph_of(alloc, &lists, gates.len() as u32)?;
    let components = Components::of(alloc, &graph)?;
    group_by_home(alloc, gates, components.home.items(), components.count)
}
