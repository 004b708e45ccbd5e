//! The graph of the unknown gates.

ghost use Rattle.std.specs.Prelude.{◌≡◌, ◌≤◌, ◌<◌, ◌+◌, ◌↔◌, [], true, length, map, All, Contains, IfOk, OnOk};
ghost use Rattle.netlist.specs.Fixpoint.{wire};
ghost use Rattle.netlist.specs.Netlists.{count as signal_count, IsNetlist};
ghost use Rattle.explanations.specs.Graph.{IsOpenSignal, IsOpenRead, HasOpenReads, ReadsOpen, IsOpenGraph};

use crate::matters::matters;
use crate::needs::is_x;
use components::Graph;
use cyc_base::{Sig, Trit};
use netlist::{Gate, Netlist};
use std::alloc::{AllocError, Global};

/// Whether a signal is an unknown gate, where the gates' signals are numbered from `first` on.
fn is_open(first: u32, known: &[Trit], signal: Sig) -> bool
    requires { signal.0 < length known.now }
    ensures { (result ≡ true) ↔ IsOpenSignal first known.now signal.0 }
{
    first <= signal.0 && is_x(known[signal.0 as usize])
}

/// The value of a signal: X where there is none.
fn value_of(known: &[Trit], signal: Sig) -> Trit
    ensures { result ≡ wire known.now signal }
{
    known.get(signal.0 as usize).copied().unwrap_or(Trit::X)
}

fn values_of(alloc: Global, known: &[Trit], pins: &[Sig]) -> Result<Vec<Trit>, AllocError>
    ensures { IfOk result (λ values. values.items ≡ map (wire known.now) pins.now) }
{
    pins.iter().map(|pin| value_of(known, *pin)).collect(alloc)
}

/// Whether a pin of a gate reads an unknown gate, and matters, where the pins have these values and the gates' signals
/// are numbered from `first` on.
fn is_open_read(
    alloc: Global,
    first: u32,
    known: &[Trit],
    gate: &Gate,
    values: &[Trit],
    pin: usize,
) -> Result<bool, AllocError>
    requires pin { pin < length gate.now.pins }
    requires within { All (λ pin. pin.0 < length known.now) gate.now.pins }
    requires size { length gate.now.pins ≡ gate.now.cover.pins }
    requires values { values.now ≡ map (wire known.now) gate.now.pins }
    ensures { IfOk result (λ is. (is ≡ true) ↔ IsOpenRead first known.now gate.now pin) }
{
    if !is_open(first, known, gate.pins.items()[pin]) {
        return Ok(false);
    }
    matters(alloc, &gate.cover, values, pin)
}

/// The unknown gates on those pins of a gate that matter.
fn open_reads(
    alloc: Global,
    first: u32,
    known: &[Trit],
    gate: &Gate,
    values: &[Trit],
) -> Result<Vec<u32>, AllocError>
    requires within { All (λ pin. pin.0 < length known.now) gate.now.pins }
    requires size { length gate.now.pins ≡ gate.now.cover.pins }
    requires values { values.now ≡ map (wire known.now) gate.now.pins }
    ensures { IfOk result (λ reads. HasOpenReads first known.now gate.now (length gate.now.pins) reads.items) }
{
    let mut reads = Vec::new(alloc);
    for pin in 0..gate.pins.items().len() {
        if is_open_read(alloc, first, known, gate, values, pin)? {
            reads.push(gate.pins.items()[pin].0 - first)?;
        }
    }
    Ok(reads)
}

/// The unknown gates a flip of which may flip this gate, where it is unknown itself.
fn reads_of(alloc: Global, net: &Netlist, known: &[Trit], gate: u32) -> Result<Vec<u32>, AllocError>
    requires known { length known.now ≡ signal_count net.now }
    requires gate { gate < length net.now.gates }
    ensures { IfOk result (λ reads. ReadsOpen net.now known.now gate reads.items) }
{
    let first = net.columns();
    if !is_open(first, known, net.gate_sig(gate)) {
        return Ok(Vec::new(alloc));
    }
    let gate = net.gate(gate);
    let values = values_of(alloc, known, gate.pins.items())?;
    open_reads(alloc, first, known, gate, &values)
}

/// The graph in which an edge leads from each unknown gate to the unknown gates a flip of which may flip it.
pub(crate) fn open_graph(alloc: Global, net: &Netlist, known: &[Trit]) -> Result<Graph, AllocError>
    requires known { length known.now ≡ signal_count net.now }
    ensures graph { IfOk result (λ graph. IsOpenGraph net.now known.now (length net.now.gates) graph) }
    ensures valid { IsNetlist net.now }
{
    let mut graph = Graph::new(alloc);
    for gate in 0..net.gates() {
        let reads = reads_of(alloc, net, known, gate)?;
        graph.add_node(&reads)?;
    }
    Ok(graph)
}
