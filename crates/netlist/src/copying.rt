//! Copies of netlists and of their parts.

ghost use Rattle.std.specs.Prelude.{◌≡◌, IfOk};
ghost use Rattle.netlist.specs.Netlists.{with_gates, IsNetlist};

use crate::netlist::Netlist;
use crate::parts::{Clock, Gate, Latch, Parts, PartsFault};
use cyc_base::{Items, Name, Sig};
use std::alloc::{AllocError, Global};

/// An equal gate.
pub fn copy_gate(alloc: Global, gate: &Gate) -> Result<Gate, AllocError>
    ensures { IfOk result (λ copy. copy ≡ gate.now) }
{
    let name = gate.name.copy()?;
    let pins = Items::of(gate.pins.items().to_vec(alloc)?);
    let cover = gate.cover.copy()?;
    Ok(Gate { name, pins, cover })
}

/// An equal latch.
fn copy_latch(latch: &Latch) -> Result<Latch, AllocError>
    ensures { IfOk result (λ copy. copy ≡ latch.now) }
{
    Ok(Latch {
        name: latch.name.copy()?,
        from: latch.from,
        init: latch.init,
        clocked: latch.clocked,
    })
}

/// Copies of the inputs' names.
pub fn copy_inputs(alloc: Global, net: &Netlist) -> Result<Vec<Name>, AllocError>
    ensures { IfOk result (λ names. names.items ≡ net.now.inputs) }
{
    let mut names = Vec::with_capacity(alloc, net.inputs() as usize)?;
    for number in 0..net.inputs() {
        names.push(net.name_of(Sig(number)).copy()?)?;
    }
    Ok(names)
}

/// A copy of the clock.
pub fn copy_clock(net: &Netlist) -> Result<Option<Clock>, AllocError>
    ensures { IfOk result (λ clock. clock ≡ net.now.clock) }
{
    match net.clock() {
        Some(clock) => Ok(Some(Clock {
            edge: clock.edge,
            name: clock.name.copy()?,
        })),
        None => Ok(None),
    }
}

fn copy_latches(alloc: Global, net: &Netlist) -> Result<Vec<Latch>, AllocError>
    ensures { IfOk result (λ latches. latches.items ≡ net.now.latches) }
{
    let mut latches = Vec::with_capacity(alloc, net.latches() as usize)?;
    for number in 0..net.latches() {
        latches.push(copy_latch(net.latch(number))?)?;
    }
    Ok(latches)
}

/// Copies of the gates.
pub fn copy_gates(alloc: Global, net: &Netlist) -> Result<Vec<Gate>, AllocError>
    ensures { IfOk result (λ gates. gates.items ≡ net.now.gates) }
{
    let mut gates = Vec::with_capacity(alloc, net.gates() as usize)?;
    for number in 0..net.gates() {
        gates.push(copy_gate(alloc, net.gate(number))?)?;
    }
    Ok(gates)
}

/// The parts of a netlist with other gates and outputs.
pub fn parts_with(
    alloc: Global,
    net: &Netlist,
    gates: Vec<Gate>,
    outputs: Vec<Sig>,
) -> Result<Parts, AllocError>
    ensures { IfOk result (λ parts. parts ≡ with_gates net.now gates.items outputs.items) }
{
    let name = net.name().copy()?;
    let clock = copy_clock(net)?;
    let inputs = Items::of(copy_inputs(alloc, net)?);
    let latches = Items::of(copy_latches(alloc, net)?);
    Ok(Parts {
        name,
        inputs,
        clock,
        latches,
        gates: Items::of(gates),
        outputs: Items::of(outputs),
    })
}

/// Parts without a fault are refused for want of memory alone.
fn want_of_memory(_fault: PartsFault) -> AllocError
    requires { _fault ≡ PartsFault.Memory }
{
    AllocError
}

/// The netlist of parts that make one.
pub fn netlist_of(alloc: Global, parts: Parts) -> Result<Netlist, AllocError>
    requires { IsNetlist parts }
    ensures { IfOk result (λ net. net ≡ parts) }
{
    match Netlist::new(alloc, parts) {
        Ok(net) => Ok(net),
        Err(fault) => Err(want_of_memory(fault)),
    }
}

/// An equal netlist.
pub fn copy_netlist(alloc: Global, net: &Netlist) -> Result<Netlist, AllocError>
    ensures { IfOk result (λ copy. copy ≡ net.now) }
{
    net.laws();
    let gates = copy_gates(alloc, net)?;
    let outputs = net.outputs().to_vec(alloc)?;
    let parts = parts_with(alloc, net, gates, outputs)?;
    netlist_of(alloc, parts)
}
