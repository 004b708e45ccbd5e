//! What lies upstream of a loop: no other block or column changes what its gates see. It is found once for each loop, and the
//! values there are then found in time in proportion to it.

ghost use Rattle.std.specs.Prelude.{◌≡◌, ◌<◌, length, All, IfOk};
ghost use Rattle.netlist.specs.Netlists.{count, columns, IsSignal};
ghost use Rattle.loop_simulation.specs.Upstream.{IsUpstreamIn};

use crate::looped_block::LoopedBlock;
use cyc_base::{Sig, Trit};
use loops::{LoopedNetlist, gates_at, upstream_of};
use netlist::Netlist;
use std::alloc::{AllocError, Global};
use ternary_run::trits_of;

/// What lies upstream of a loop.
pub(crate) struct Upstream {
    /// The columns, in their order.
    pub columns: Vec<u32>,
    /// The places of the blocks, without the loop itself: each stands after those that it reads.
    pub blocks: Vec<usize>,
    /// How many gates there are, with those of the loop.
    pub gates: usize,
}

impl Drop for Upstream {
    fn drop(self) {
        let Upstream {
            columns: _,
            blocks: _,
            gates: _,
        } = self;
    }
}

/// Marks the columns on the pins of a gate.
fn mark_columns(net: &Netlist, gate: u32, read: &mut [bool])
    requires { gate < length net.now.gates }
    ensures { length read.new ≡ length read.old }
{
    for pin in net.gate(gate).pins.items() {
        let place = pin.0 as usize;
        if place < read.len() {
            read[place] = true;
        }
    }
}

/// The columns on the pins of the marked gates, in their order.
fn columns_read(alloc: Global, net: &Netlist, gates: &[bool]) -> Result<Vec<u32>, AllocError>
    requires { length gates.now ≡ length net.now.gates }
    ensures { IfOk result (λ list. All (λ column. column < columns net.now) list.items) }
{
    let mut read = vec![in alloc; false; net.columns() as usize]?;
    for gate in 0..net.gates() {
        if gates[gate as usize] {
            mark_columns(net, gate, &mut read);
        }
    }
    let mut list = Vec::new(alloc);
    for column in 0..net.columns() {
        if read[column as usize] {
            list.push(column)?;
        }
    }
    Ok(list)
}

/// The places of the blocks of the marked gates, without this one, in their order.
fn blocks_of(
    alloc: Global,
    block: &LoopedBlock<'_>,
    gates: &[bool],
) -> Result<Vec<usize>, AllocError>
    requires { length gates.now ≡ length block.now.net.gates }
    ensures { IfOk result (λ list. All (λ place. place < length block.now.blocks.list) list.items) }
{
    let looped = block.looped();
    let mut list = Vec::new(alloc);
    for place in 0..looped.blocks().list.items().len() {
        let is_marked = gates_at(looped, place)
            .iter()
            .any(|gate| gates[*gate as usize]);
        if is_marked && place != block.number() as usize {
            list.push(place)?;
        }
    }
    Ok(list)
}

/// What lies upstream of a loop, in time in proportion to the gates and pins of the netlist.
pub(crate) fn upstream_in(alloc: Global, block: &LoopedBlock<'_>) -> Result<Upstream, AllocError>
    ensures { IfOk result (IsUpstreamIn block.now) }
{
    let looped = block.looped();
    let marks = upstream_of(alloc, looped, gates_at(looped, block.number() as usize))?;
    let columns = columns_read(alloc, block.net(), &marks)?;
    let blocks = blocks_of(alloc, block, &marks)?;
    let gates = marks.iter().filter(|mark| **mark).count();
    Ok(Upstream {
        columns,
        blocks,
        gates,
    })
}

/// The values of these pins.
fn values_of(
    alloc: Global,
    net: &Netlist,
    values: &[Trit],
    pins: &[Sig],
) -> Result<Vec<Trit>, AllocError>
    requires pins { All (IsSignal net.now) pins.now }
    requires width { length values.now ≡ count net.now }
    ensures { IfOk result (λ list. length list.items ≡ length pins.now) }
{
    pins.iter().map(|pin| values[pin.0 as usize]).collect(alloc)
}

/// The value of a gate's cover where the signals have these values.
fn gate_value(alloc: Global, net: &Netlist, values: &[Trit], gate: u32) -> Result<Trit, AllocError>
    requires gate { gate < length net.now.gates }
    requires width { length values.now ≡ count net.now }
{
    let read = net.gate(gate);
    let pins = values_of(alloc, net, values, read.pins.items())?;
    read.cover.extend(alloc, &pins)
}

/// Sets those of these gates that are unknown until now and no longer are, and answers whether there is one.
fn set_gates(
    alloc: Global,
    net: &Netlist,
    gates: &[u32],
    values: &mut [Trit],
) -> Result<bool, AllocError>
    requires gates { All (λ gate. gate < length net.now.gates) gates.now }
    requires width { length values.old ≡ count net.now }
    ensures { length values.new ≡ length values.old }
{
    let mut any = false;
    for gate in gates {
        let place = net.gate_sig(*gate).0 as usize;
        if values[place] == Trit::X {
            values[place] = gate_value(alloc, net, values, *gate)?;
            any |= values[place] != Trit::X;
        }
    }
    Ok(any)
}

/// Sets the gates of a block: those of a loop again, until no more become known.
fn set_block(
    alloc: Global,
    looped: &LoopedNetlist<'_>,
    place: usize,
    values: &mut [Trit],
) -> Result<(), AllocError>
    requires place { place < length looped.now.blocks.list }
    requires width { length values.old ≡ count looped.now.net }
    ensures { length values.new ≡ length values.old }
{
    let gates = gates_at(looped, place);
    for _ in gates {
        if !set_gates(alloc, looped.net(), gates, values)? {
            return Ok(());
        }
    }
    Ok(())
}

/// The values at a vector of the signals upstream of a loop. The loop itself is unknown, and so are gates elsewhere.
pub(crate) fn values_upstream(
    alloc: Global,
    block: &LoopedBlock<'_>,
    upstream: &Upstream,
    vector: &[bool],
) -> Result<Vec<Trit>, AllocError>
    requires upstream { IsUpstreamIn block.now upstream.now }
    requires vector { length vector.now ≡ columns block.now.net }
    ensures { IfOk result (λ values. length values.items ≡ count block.now.net) }
{
    let mut values = trits_of(alloc, vector)?;
    values.resize(block.net().count() as usize, Trit::X)?;
    for place in &upstream.blocks {
        set_block(alloc, block.looped(), *place, &mut values)?;
    }
    Ok(values)
}
