//! What columns' values leave of the loops.

ghost use Rattle.std.specs.Prelude.{◌≡◌, ◌<◌, length, All, IfOk};
ghost use Rattle.loops.specs.Sweeps.{first_gate};
ghost use Rattle.case_split.specs.Cases.{AreOfColumns};
ghost use Rattle.ternary_run.specs.Reading.{IsFanoutOf};

use crate::cases::{ColumnValue, vector_of};
use crate::ordering::graph_of;
use crate::tables::settled_table;
use components::{Components, Graph};
use cyc_base::Trit;
use netlist::Netlist;
use std::alloc::{AllocError, Global};
use ternary_run::Fanout;

/// How many gates are left in loops, how many pins within them, and how many gates the longest path has. Fewer gates count
/// before fewer pins, and these before a shorter path.
#[derive(Clone, Copy, PartialEq, Eq, PartialOrd)]
pub struct LeftOver {
    pub gates: u64,
    pub pins: u64,
    pub depth: u64,
}

fn number_at(numbers: &[u64], place: u32) -> u64 {
    numbers.get(place as usize).copied().unwrap_or(0)
}

fn home_at(homes: &[u32], node: u32) -> u32 {
    homes.get(node as usize).copied().unwrap_or(0)
}

/// How many successors of a node are in its component.
fn inner_successors(graph: &Graph, homes: &[u32], node: u32) -> u64
    requires { node < length graph.now }
{
    let home = home_at(homes, node);
    let mut inner: u64 = 0;
    for successor in graph.successors(node) {
        if home_at(homes, *successor) == home {
            inner = inner.saturating_add(1);
        }
    }
    inner
}

/// How many nodes each component has.
fn sizes_of(alloc: Global, components: &Components) -> Result<Vec<u64>, AllocError> {
    let mut sizes = vec![in alloc; 0_u64; components.count as usize]?;
    for home in components.home.items() {
        if (*home as usize) < sizes.len() {
            sizes[*home as usize] = sizes[*home as usize].saturating_add(1);
        }
    }
    Ok(sizes)
}

fn nodes_of(alloc: Global, graph: &Graph) -> Result<Vec<u32>, AllocError>
    ensures { IfOk result (λ nodes. All (λ node. node < length graph.now) nodes.items) }
{
    let mut nodes = Vec::new(alloc);
    for node in 0..graph.len() {
        nodes.push(node)?;
    }
    Ok(nodes)
}

/// The nodes, those of a component one behind another, each component after those that it reads.
fn nodes_in_order(alloc: Global, graph: &Graph, homes: &[u32]) -> Result<Vec<u32>, AllocError>
    ensures { IfOk result (λ nodes. All (λ node. node < length graph.now) nodes.items) }
{
    let mut nodes = nodes_of(alloc, graph)?;
    nodes.sort_by_key(|node| home_at(homes, *node))?;
    Ok(nodes)
}

/// The longest path that ends before a node's component.
fn longest_before(graph: &Graph, homes: &[u32], sizes: &[u64], before: &[u64], node: u32) -> u64
    requires { node < length graph.now }
{
    let home = home_at(homes, node);
    let mut longest = number_at(before, home);
    for successor in graph.successors(node) {
        let other = home_at(homes, *successor);
        let path = number_at(before, other).saturating_add(number_at(sizes, other));
        if other != home && path > longest {
            longest = path;
        }
    }
    longest
}

/// The nodes of the longest path, by the nodes in order.
fn longest_path(
    alloc: Global,
    graph: &Graph,
    homes: &[u32],
    sizes: &[u64],
    nodes: &[u32],
) -> Result<u64, AllocError>
    requires { All (λ node. node < length graph.now) nodes.now }
{
    let mut before = vec![in alloc; 0_u64; sizes.len()]?;
    let mut depth = 0;
    for node in nodes {
        let longest = longest_before(graph, homes, sizes, &before, *node);
        let home = home_at(homes, *node);
        if (home as usize) < before.len() {
            before[home as usize] = longest;
        }
        depth = depth.max(longest.saturating_add(number_at(sizes, home)));
    }
    Ok(depth)
}

/// The nodes of the longest path.
fn depth_of(alloc: Global, graph: &Graph, components: &Components) -> Result<u64, AllocError> {
    let homes = components.home.items();
    let sizes = sizes_of(alloc, components)?;
    let nodes = nodes_in_order(alloc, graph, homes)?;
    longest_path(alloc, graph, homes, &sizes, &nodes)
}

/// The nodes of a graph that lie on its cycles, the edges between them, and the longest path.
fn left_in(alloc: Global, graph: &Graph) -> Result<LeftOver, AllocError> {
    let components = Components::of(alloc, graph)?;
    let mut gates: u64 = 0;
    let mut pins: u64 = 0;
    for node in 0..graph.len() {
        let inner = inner_successors(graph, components.home.items(), node);
        if inner > 0 {
            gates = gates.saturating_add(1);
            pins = pins.saturating_add(inner);
        }
    }
    let depth = depth_of(alloc, graph, &components)?;
    Ok(LeftOver { gates, pins, depth })
}

/// What is left of the loops of these gates at a vector.
fn left_at(
    alloc: Global,
    net: &Netlist,
    fanout: &Fanout,
    gates: &[u32],
    given: &[Trit],
) -> Result<LeftOver, AllocError>
    requires gates { All (λ n. n < length net.now.gates) gates.now }
    requires few { length gates.now < 4294967295 }
    requires fanout { IsFanoutOf net.now fanout.now }
    requires width { length given.now ≡ first_gate net.now }
{
    let table = settled_table(alloc, net, fanout, given)?;
    let graph = graph_of(alloc, net, &table, gates)?;
    left_in(alloc, &graph)
}

/// What is left of the loops of these gates where columns have these values: the netlist is settled once, and the
/// components of the gates with what is known put in are found.
///
/// The condition is that the gates are the netlist's, and fewer than 4,294,967,295, that the values are of its columns, and
/// that the fanout is its.
pub fn left_in_loops(
    alloc: Global,
    net: &Netlist,
    fanout: &Fanout,
    gates: &[u32],
    values: &[ColumnValue],
) -> Result<LeftOver, AllocError>
    requires gates { All (λ n. n < length net.now.gates) gates.now }
    requires few { length gates.now < 4294967295 }
    requires fanout { IsFanoutOf net.now fanout.now }
    requires columns { AreOfColumns (first_gate net.now) values.now }
{
    let given = vector_of(alloc, net, values)?;
    left_at(alloc, net, fanout, gates, &given)
}
