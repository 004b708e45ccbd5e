ghost use Rattle.std.specs.Prelude.{◌≡◌, ◌+◌, ◌<◌, ◌≤◌, ◌++◌, length, map, replicate, All, IfOk, IfErr, OnOk, IfSome, IfNone, OnSome};
ghost use Rattle.netlist.specs.Netlists.{IsSignal, columns};
ghost use Rattle.netlist.specs.Orders.{numbers_from, HasLoop, IsGateOrder};
ghost use Rattle.netlist.specs.Walks.{IsLoopFree};
ghost use Rattle.aig_core.specs.Graphs.{edge, empty, IsEdge};
ghost use Rattle.aig_core.specs.Building.{needed_signals, build_order as build_order_of, signal_edge as signal_edge_of, with_gate, building, built_from, built};
ghost use Rattle.aig_core.specs.Answers.{IsFault, IsRefusal, HasEdges, Builds, HasValues, FitsNetlist};

use crate::aig::{Aig, MAX_ANDS, MAX_COLUMNS};
use crate::covers::cover_edge;
use crate::depth::postorder;
use crate::edge::Edge;
use crate::fault::AigFault;
use cyc_base::{Items, Sig};
use netlist::Netlist;
use std::alloc::{AllocError, Global};

/// The and-inverter graph of a netlist, with the edges of its outputs and of what its latches load.
pub struct Built {
    pub aig: Aig,
    pub outputs: Items<Edge>,
    pub nexts: Items<Edge>,
}

impl Drop for Built {
    fn drop(self) {
        let Built {
            aig: _,
            outputs: _,
            nexts: _,
        } = self;
    }
}

/// Appends the numbers of the gates among signals, where gate 0 has the signal `first`.
fn add_gate_numbers(first: u32, signals: &[Sig], numbers: &mut Vec<u32>) -> Result<(), AllocError>
    ensures { OnOk result (numbers.new.items ≡ numbers.old.items ++ numbers_from first signals.now) }
{
    for signal in signals {
        if signal.0 >= first {
            numbers.push(signal.0 - first)?;
        }
    }
    Ok(())
}

/// The signals that latches load.
fn sources(alloc: Global, net: &Netlist) -> Result<Vec<Sig>, AllocError>
    ensures { IfOk result (λ signals. signals.items ≡ map (λ latch. latch.from) net.now.latches) }
{
    let mut signals = Vec::with_capacity(alloc, net.latches() as usize)?;
    for number in 0..net.latches() {
        signals.push(net.latch(number).from)?;
    }
    Ok(signals)
}

/// The gates on outputs, and then those on the sources of latches.
fn needed_gates(alloc: Global, net: &Netlist, sources: &[Sig]) -> Result<Vec<u32>, AllocError>
    requires { sources.now ≡ map (λ latch. latch.from) net.now.latches }
    ensures { IfOk result (λ needed. needed.items ≡ numbers_from (columns net.now) (needed_signals net.now)) }
{
    let first = net.columns();
    let mut needed = Vec::new(alloc);
    add_gate_numbers(first, net.outputs(), &mut needed)?;
    add_gate_numbers(first, sources, &mut needed)?;
    Ok(needed)
}

/// The gates in the order in which they are built. `order` shows that the netlist has no loop.
fn build_order(
    alloc: Global,
    net: &Netlist,
    sources: &[Sig],
    order: &[u32],
) -> Result<Vec<u32>, AllocError>
    requires sources { sources.now ≡ map (λ latch. latch.from) net.now.latches }
    requires order { IsGateOrder net.now order.now }
    ensures order { IfOk result (λ gates. gates.items ≡ build_order_of net.now) }
    ensures within { IfOk result (λ gates. All (λ n. n < length net.now.gates) gates.items) }
{
    let needed = needed_gates(alloc, net, sources)?;
    let graph = net.gate_graph(alloc)?;
    postorder(alloc, &graph, &needed)
}

fn signal_edge(net: &Netlist, edges: &[Edge], signal: Sig) -> Edge
    requires signal { IsSignal net.now signal }
    requires width { length edges.now ≡ length net.now.gates }
    requires columns { columns net.now ≤ MAX_COLUMNS }
    ensures { result ≡ signal_edge_of net.now edges.now signal }
{
    match net.driver(signal) {
        Some(gate) => edges[gate as usize],
        None => Edge(2 * (1 + signal.0)),
    }
}

fn signal_edges(
    alloc: Global,
    net: &Netlist,
    edges: &[Edge],
    signals: &[Sig],
) -> Result<Vec<Edge>, AllocError>
    requires signals { All (IsSignal net.now) signals.now }
    requires width { length edges.now ≡ length net.now.gates }
    requires columns { columns net.now ≤ MAX_COLUMNS }
    ensures { IfOk result (λ found. found.items ≡ map (signal_edge_of net.now edges.now) signals.now) }
{
    let mut found = Vec::with_capacity(alloc, signals.len())?;
    for signal in signals {
        found.push(signal_edge(net, edges, *signal))?;
    }
    Ok(found)
}

/// Builds a gate whose pins are built.
fn add_gate(
    alloc: Global,
    net: &Netlist,
    aig: &mut Aig,
    edges: &mut [Edge],
    number: u32,
) -> Result<(), AigFault>
    requires gate { number < length net.now.gates }
    requires columns { columns net.now ≤ MAX_COLUMNS }
    requires has { HasEdges net.now aig.old edges.old }
    ensures builds { Builds result aig.new edges.new (with_gate net.now (record { graph = aig.old; edges = edges.old }) number) }
    ensures has { OnOk result (HasEdges net.now aig.new edges.new) }
{
    let gate = net.gate(number);
    let pins = signal_edges(alloc, net, edges, gate.pins.items())?;
    edges[number as usize] = cover_edge(aig, &pins, &gate.cover)?;
    Ok(())
}

/// Builds these gates one after another.
fn add_gates(
    alloc: Global,
    net: &Netlist,
    gates: &[u32],
    aig: &mut Aig,
    edges: &mut [Edge],
) -> Result<(), AigFault>
    requires gates { All (λ n. n < length net.now.gates) gates.now }
    requires columns { columns net.now ≤ MAX_COLUMNS }
    requires graph { aig.old ≡ empty (length net.now.inputs) (length net.now.latches) }
    requires edges { edges.old ≡ replicate (length net.now.gates) (edge 0) }
    ensures builds { Builds result aig.new edges.new (building net.now gates.now) }
    ensures has { OnOk result (HasEdges net.now aig.new edges.new) }
{
    for number in gates {
        add_gate(alloc, net, aig, edges, *number)?;
    }
    Ok(())
}

/// The edges of the gates, where these are built in this order.
fn gate_edges(
    alloc: Global,
    net: &Netlist,
    gates: &[u32],
    aig: &mut Aig,
) -> Result<Vec<Edge>, AigFault>
    requires gates { All (λ n. n < length net.now.gates) gates.now }
    requires columns { columns net.now ≤ MAX_COLUMNS }
    requires graph { aig.old ≡ empty (length net.now.inputs) (length net.now.latches) }
    ensures builds { IfOk result (λ edges. (aig.new ≡ (building net.now gates.now).graph) × (edges.items ≡ (building net.now gates.now).edges)) }
    ensures fault { IfErr result (IsFault (building net.now gates.now).graph) }
    ensures has { IfOk result (λ edges. HasEdges net.now aig.new edges.items) }
{
    let mut edges = vec![in alloc; Edge(0); net.gates() as usize]?;
    add_gates(alloc, net, gates, aig, &mut edges)?;
    Ok(edges)
}

/// The graph with the edges of outputs and of latches' sources.
fn with_ends(
    alloc: Global,
    net: &Netlist,
    sources: &[Sig],
    edges: &[Edge],
    aig: Aig,
) -> Result<Built, AllocError>
    requires sources { sources.now ≡ map (λ latch. latch.from) net.now.latches }
    requires width { length edges.now ≡ length net.now.gates }
    requires columns { columns net.now ≤ MAX_COLUMNS }
    ensures { IfOk result (λ b. b ≡ built_from net.now (record { graph = aig; edges = edges.now })) }
{
    let outputs = Items::of(signal_edges(alloc, net, edges, net.outputs())?);
    let nexts = Items::of(signal_edges(alloc, net, edges, sources)?);
    Ok(Built {
        aig,
        outputs,
        nexts,
    })
}

/// The graph that comes of building these gates in this order.
fn build_gates(
    alloc: Global,
    net: &Netlist,
    sources: &[Sig],
    gates: &[u32],
) -> Result<Built, AigFault>
    requires sources { sources.now ≡ map (λ latch. latch.from) net.now.latches }
    requires gates { All (λ n. n < length net.now.gates) gates.now }
    requires columns { columns net.now ≤ MAX_COLUMNS }
    ensures built { IfOk result (λ b. b ≡ built_from net.now (building net.now gates.now)) }
    ensures fault { IfErr result (IsFault (building net.now gates.now).graph) }
{
    let mut aig = Aig::new(alloc, net.inputs(), net.latches())?;
    let edges = gate_edges(alloc, net, gates, &mut aig)?;
    Ok(with_ends(alloc, net, sources, &edges, aig)?)
}

/// The graph of a netlist of which `order` shows that it has no loop.
fn build_in_order(alloc: Global, net: &Netlist, order: &[u32]) -> Result<Built, AigFault>
    requires order { IsGateOrder net.now order.now }
    requires columns { columns net.now ≤ MAX_COLUMNS }
    ensures built { IfOk result (λ b. b ≡ built net.now) }
    ensures fault { IfErr result (IsFault (built net.now).aig) }
{
    let sources = sources(alloc, net)?;
    let gates = build_order(alloc, net, &sources, order)?;
    build_gates(alloc, net, &sources, &gates)
}

/// The and-inverter graph of a netlist without loops: `None` exactly where it has a loop. Gates are built where the
/// outputs and then the latches need them, each after the gates on its pins. It takes time and memory in proportion to
/// the pins and rows of the netlist, which has at most 1,000,000,000 inputs and latches.
///
/// `TooLarge` comes exactly where the graph has over 4,000,000 ANDs.
pub fn build(alloc: Global, net: &Netlist) -> Result<Option<Built>, AigFault>
    requires { columns net.now ≤ MAX_COLUMNS }
    ensures built { IfOk result (λ found. IfSome found (λ b. b ≡ built net.now)) }
    ensures loop_free { IfOk result (λ found. OnSome found (IsLoopFree net.now)) }
    ensures has_loop { IfOk result (λ found. IfNone found (HasLoop net.now)) }
    ensures too_large { IfErr result (IsRefusal net.now) }

    // It has at most 4,000,000 ANDs, its edges are the graph's, and at each Boolean vector they have the values of the
    // netlist's fixpoint.
    ensures few { IfOk result (λ found. IfSome found (λ b. length b.aig.ands ≤ MAX_ANDS)) }
    ensures fits { IfOk result (λ found. IfSome found (FitsNetlist net.now)) }
    ensures values { IfOk result (λ found. IfSome found (HasValues net.now)) }
{
    match net.in_order(alloc)? {
        Some(order) => Ok(Some(build_in_order(alloc, net, &order)?)),
        None => Ok(None),
    }
}
