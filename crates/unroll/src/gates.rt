//! The gates of the unrolled netlist, each by itself.

ghost use Rattle.std.specs.Prelude.{◌≡◌, ◌<◌, true, [], length, IfOk};
ghost use Rattle.netlist.specs.Netlists.{gate_at};
ghost use Rattle.unroll.specs.Plans.{loops_in, net_of};
ghost use Rattle.unroll.specs.Unrolled.{zero_gate as zero_gate_by};
ghost use Rattle.unroll.specs.Tables.{copy_gate_by, gate_by_tables};

use crate::names::{copy_name, zero_name};
use crate::pins::{Tables, pins_by};
use crate::plan::Plan;
use cover_logic::Cover;
use cyc_base::{Items, Name};
use netlist::Gate;
use std::alloc::{AllocError, Global};

/// The cover without pins and rows.
fn zero_cover(alloc: Global) -> Cover
    ensures { result ≡ record { pins = 0; plane = true; rows = [] } }
{
    match Cover::new(0, true, Vec::new(alloc)) {
        Ok(cover) => cover,
        Err(_) => unreachable!(),
    }
}

/// The constant 0.
pub(crate) fn zero_gate(alloc: Global, mark: &Name) -> Result<Gate, AllocError>
    ensures { IfOk result (λ gate. gate ≡ zero_gate_by mark.now) }
{
    let name = zero_name(alloc, mark)?;
    Ok(Gate {
        name,
        pins: Items::of(Vec::new(alloc)),
        cover: zero_cover(alloc),
    })
}

/// A gate of this name that has a gate's cover, and whose pins read by these tables.
fn gate_by(
    alloc: Global,
    plan: &Plan<'_>,
    tables: &Tables,
    name: Name,
    gate: u32,
) -> Result<Gate, AllocError>
    requires earlier { length tables.now.earlier.items ≡ length (net_of plan.now).gates }
    requires current { length tables.now.current.items ≡ length (net_of plan.now).gates }
    requires gate { gate < length (net_of plan.now).gates }
    ensures { IfOk result (λ other. other ≡ gate_by_tables (net_of plan.now) (loops_in plan.now) plan.now.by tables.now.earlier.items tables.now.current.items name gate) }
{
    let pins = Items::of(pins_by(alloc, plan, tables, gate)?);
    let cover = plan.counted.net().gate(gate).cover.copy()?;
    Ok(Gate { name, pins, cover })
}

/// A copy of a gate.
pub(crate) fn copy_gate(
    alloc: Global,
    plan: &Plan<'_>,
    tables: &Tables,
    number: u32,
    gate: u32,
) -> Result<Gate, AllocError>
    requires earlier { length tables.now.earlier.items ≡ length (net_of plan.now).gates }
    requires current { length tables.now.current.items ≡ length (net_of plan.now).gates }
    requires gate { gate < length (net_of plan.now).gates }
    ensures { IfOk result (λ copy. copy ≡ copy_gate_by (net_of plan.now) (loops_in plan.now) plan.now.mark plan.now.by tables.now.earlier.items tables.now.current.items number gate) }
{
    let own = plan.counted.net().gate(gate);
    let name = copy_name(alloc, &plan.mark, number, &own.name)?;
    gate_by(alloc, plan, tables, name, gate)
}

/// A gate itself.
pub(crate) fn kept_gate(
    alloc: Global,
    plan: &Plan<'_>,
    tables: &Tables,
    gate: u32,
) -> Result<Gate, AllocError>
    requires earlier { length tables.now.earlier.items ≡ length (net_of plan.now).gates }
    requires current { length tables.now.current.items ≡ length (net_of plan.now).gates }
    requires gate { gate < length (net_of plan.now).gates }
    ensures { IfOk result (λ kept. kept ≡ gate_by_tables (net_of plan.now) (loops_in plan.now) plan.now.by tables.now.earlier.items tables.now.current.items (gate_at (net_of plan.now) gate).name gate) }
{
    let name = plan.counted.net().gate(gate).name.copy()?;
    gate_by(alloc, plan, tables, name, gate)
}
