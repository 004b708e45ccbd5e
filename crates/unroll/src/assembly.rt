//! The parts of the unrolled netlist.

ghost use Rattle.std.specs.Prelude.{◌≡◌, ◌≤◌, ◌+◌, ◌++◌, [], length, map, IfOk, OnOk};
ghost use Rattle.std.specs.List.{range_with_len};
ghost use Rattle.netlist.specs.Netlists.{count};
ghost use Rattle.unroll.specs.Counted.{counted_loops, counted_sweeps, unrolled_by};
ghost use Rattle.unroll.specs.Plans.{loops_in, net_of, sweeps_in};
ghost use Rattle.unroll.specs.Unrolled.{shift, constants as constants_of, kept_gate as kept_gate_of, kept_latch as kept_latch_by, moved as moved_by, unrolled};
ghost use Rattle.unroll.specs.Tables.{AreLast};

use crate::copies::add_copies;
use crate::counted_loops::CountedLoops;
use crate::gates::{kept_gate, zero_gate};
use crate::names::mark;
use crate::pins::{Tables, moved};
use crate::plan::Plan;
use cyc_base::{Items, Sig};
use netlist::{Gate, Latch, Netlist, Parts, copy_clock, copy_inputs};
use std::alloc::{AllocError, Global};

/// A latch whose source is moved up where it is a gate.
fn kept_latch(net: &Netlist, by: u32, latch: &Latch) -> Result<Latch, AllocError>
    requires { latch.now.from.0 + by ≤ 4294967295 }
    ensures { IfOk result (λ kept. kept ≡ kept_latch_by net.now by latch.now) }
{
    Ok(Latch {
        name: latch.name.copy()?,
        from: moved(net, by, latch.from),
        init: latch.init,
        clocked: latch.clocked,
    })
}

fn kept_latches(alloc: Global, net: &Netlist, by: u32) -> Result<Vec<Latch>, AllocError>
    requires { count net.now + by ≤ 4294967295 }
    ensures { IfOk result (λ latches. latches.items ≡ map (kept_latch_by net.now by) net.now.latches) }
{
    let mut latches = Vec::with_capacity(alloc, net.latches() as usize)?;
    for number in 0..net.latches() {
        latches.push(kept_latch(net, by, net.latch(number))?)?;
    }
    Ok(latches)
}

fn kept_outputs(alloc: Global, net: &Netlist, by: u32) -> Result<Vec<Sig>, AllocError>
    requires { count net.now + by ≤ 4294967295 }
    ensures { IfOk result (λ outputs. outputs.items ≡ map (moved_by net.now by) net.now.outputs) }
{
    net.outputs()
        .iter()
        .map(|output| moved(net, by, *output))
        .collect(alloc)
}

/// The constant 0, where there is a loop.
fn constants(alloc: Global, plan: &Plan<'_>) -> Result<Vec<Gate>, AllocError>
    ensures { IfOk result (λ gates. gates.items ≡ constants_of (net_of plan.now) (loops_in plan.now)) }
{
    let mut gates = Vec::new(alloc);
    if plan.has_loop() {
        gates.push(zero_gate(alloc, &plan.mark)?)?;
    }
    Ok(gates)
}

/// Adds the gates themselves, whose cut wires are read from the last copies.
fn add_kept(
    alloc: Global,
    plan: &Plan<'_>,
    tables: &Tables,
    gates: &mut Vec<Gate>,
) -> Result<(), AllocError>
    requires { AreLast (net_of plan.now) (loops_in plan.now) (sweeps_in plan.now) tables.now.earlier.items tables.now.current.items }
    ensures { OnOk result (gates.new.items ≡ gates.old.items ++ map (kept_gate_of (net_of plan.now) (loops_in plan.now) (sweeps_in plan.now)) (range_with_len 0 (length (net_of plan.now).gates))) }
{
    for gate in 0..plan.counted.net().gates() {
        gates.push(kept_gate(alloc, plan, tables, gate)?)?;
    }
    Ok(())
}

/// The gates: the constant, the copies, and the netlist's own.
fn unrolled_gates(alloc: Global, plan: &Plan<'_>) -> Result<Vec<Gate>, AllocError>
    ensures { IfOk result (λ gates. gates.items ≡ (unrolled (net_of plan.now) (loops_in plan.now) (sweeps_in plan.now)).gates) }
{
    let mut gates = constants(alloc, plan)?;
    let tables = add_copies(alloc, plan, &mut gates)?;
    add_kept(alloc, plan, &tables, &mut gates)?;
    Ok(gates)
}

/// Parts with the netlist's name and clock, and nothing else yet.
fn bare_parts(alloc: Global, net: &Netlist) -> Result<Parts, AllocError>
    ensures { IfOk result (λ parts. parts ≡ record { name = net.now.name; inputs = []; clock = net.now.clock; latches = []; gates = []; outputs = [] }) }
{
    let name = net.name().copy()?;
    let clock = copy_clock(net)?;
    Ok(Parts {
        name,
        inputs: Items::of(Vec::new(alloc)),
        clock,
        latches: Items::of(Vec::new(alloc)),
        gates: Items::of(Vec::new(alloc)),
        outputs: Items::of(Vec::new(alloc)),
    })
}

/// The parts of the unrolled netlist but for the gates.
fn parts_without_gates(alloc: Global, net: &Netlist, by: u32) -> Result<Parts, AllocError>
    requires { count net.now + by ≤ 4294967295 }
    ensures { IfOk result (λ parts. parts ≡ record { name = net.now.name; inputs = net.now.inputs; clock = net.now.clock; latches = map (kept_latch_by net.now by) net.now.latches; gates = []; outputs = map (moved_by net.now by) net.now.outputs }) }
{
    let mut parts = bare_parts(alloc, net)?;
    parts.inputs = Items::of(copy_inputs(alloc, net)?);
    parts.latches = Items::of(kept_latches(alloc, net, by)?);
    parts.outputs = Items::of(kept_outputs(alloc, net, by)?);
    Ok(parts)
}

/// The parts of the unrolled netlist, by a plan.
fn planned_parts(alloc: Global, plan: &Plan<'_>) -> Result<Parts, AllocError>
    ensures { IfOk result (λ parts. parts ≡ unrolled (net_of plan.now) (loops_in plan.now) (sweeps_in plan.now)) }
{
    let mut parts = parts_without_gates(alloc, plan.counted.net(), plan.by)?;
    parts.gates = Items::of(unrolled_gates(alloc, plan)?);
    Ok(parts)
}

/// The parts of the unrolled netlist, where so many gates stand before the netlist's own.
pub(crate) fn unrolled_parts(
    alloc: Global,
    counted: &CountedLoops<'_>,
    by: u32,
) -> Result<Parts, AllocError>
    requires by { by ≡ shift counted.now.net (counted_loops counted.now) (counted_sweeps counted.now) }
    requires fits { count counted.now.net + by ≤ 4294967295 }
    ensures { IfOk result (λ parts. parts ≡ unrolled_by counted.now) }
{
    let mark = mark(alloc, counted.net())?;
    let plan = Plan { counted, mark, by };
    planned_parts(alloc, &plan)
}
