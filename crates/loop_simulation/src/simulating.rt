//! How many sweeps a loop needs at one vector, by ternary simulation.

ghost use Rattle.std.specs.Prelude.{◌≡◌, ◌<◌, Bool, List, true, length, map, All, IfOk};
ghost use Rattle.cyc_base.specs.declared.trit.Trit.{Trit};
ghost use Rattle.cyc_base.specs.Values.{bits};
ghost use Rattle.netlist.specs.Fixpoint.{fix};
ghost use Rattle.netlist.specs.Netlists.{count, IsSignal, columns};
ghost use Rattle.loops.specs.Blocks.{block_at};
ghost use Rattle.loops.specs.Cuts.{loops_by};
ghost use Rattle.loop_simulation.specs.Events.{cover_value, IsNewValue, IsReady, IsSwept};
ghost use Rattle.loop_simulation.specs.LoopsAt.{gates_in, loops_in, LoopAt, IsLoopAt};
ghost use Rattle.loop_simulation.specs.Readers.{AreReaders};
ghost use Rattle.loop_simulation.specs.Simulations.{seen_of, IsCountAt};
ghost use Rattle.loop_simulation.specs.Upstream.{IsUpstreamIn};

use crate::looped_block::LoopedBlock;
use crate::readers::readers_in;
use crate::upstream::{Upstream, values_upstream};
use cyc_base::{Sig, Trit};
use loops::{GateList, LoopedNetlist};
use std::alloc::{AllocError, Global};
use ternary_run::settle_at;

/// A loop at one vector.
#[derive(Drop)]
struct Simulation<'a> {
    block: &'a LoopedBlock<'a>,
    /// For each gate the gates of the loop that read it.
    readers: &'a [GateList],
    /// The values of the signals in the fixpoint.
    outside: &'a [Trit],
    ghost width: { length outside.now ≡ count block.now.net },
}

/// The value that a gate of a loop sees of a signal in a sweep.
fn seen(simulation: &Simulation<'_>, before: &[Trit], after: &[Trit], pin: Sig) -> Trit
    requires pin { IsSignal simulation.now.block.now.net pin }
    requires before { length before.now ≡ length simulation.now.block.now.net.gates }
    requires after { length after.now ≡ length simulation.now.block.now.net.gates }
    ensures { result ≡ seen_of simulation.now.block.now simulation.now.outside.now before.now after.now pin }
{
    match simulation.block.source(pin) {
        None => simulation.outside[pin.0 as usize],
        Some(gate) => {
            if simulation.block.is_cut(gate) {
                before[gate as usize]
            } else {
                after[gate as usize]
            }
        }
    }
}

/// The values that it sees of these signals.
fn seen_pins(
    alloc: Global,
    simulation: &Simulation<'_>,
    before: &[Trit],
    after: &[Trit],
    pins: &[Sig],
) -> Result<Vec<Trit>, AllocError>
    requires pins { All (IsSignal simulation.now.block.now.net) pins.now }
    requires before { length before.now ≡ length simulation.now.block.now.net.gates }
    requires after { length after.now ≡ length simulation.now.block.now.net.gates }
    ensures { IfOk result (λ list. list.items ≡ map (seen_of simulation.now.block.now simulation.now.outside.now before.now after.now) pins.now) }
{
    pins.iter()
        .map(|pin| seen(simulation, before, after, *pin))
        .collect(alloc)
}

/// The value of a gate's cover on what it sees.
fn gate_value(
    alloc: Global,
    simulation: &Simulation<'_>,
    before: &[Trit],
    after: &[Trit],
    gate: u32,
) -> Result<Trit, AllocError>
    requires gate { gate < length simulation.now.block.now.net.gates }
    requires before { length before.now ≡ length simulation.now.block.now.net.gates }
    requires after { length after.now ≡ length simulation.now.block.now.net.gates }
    ensures { IfOk result (λ value. value ≡ cover_value simulation.now.block.now simulation.now.outside.now before.now after.now gate) }
{
    let read = simulation.block.net().gate(gate);
    let pins = seen_pins(alloc, simulation, before, after, read.pins.items())?;
    read.cover.extend(alloc, &pins)
}

/// The value of a gate, where it was unknown until now and no longer is.
fn new_value(
    alloc: Global,
    simulation: &Simulation<'_>,
    before: &[Trit],
    after: &[Trit],
    gate: u32,
) -> Result<Option<Trit>, AllocError>
    requires gate { gate < length simulation.now.block.now.net.gates }
    requires before { length before.now ≡ length simulation.now.block.now.net.gates }
    requires after { length after.now ≡ length simulation.now.block.now.net.gates }
    ensures { IfOk result (IsNewValue simulation.now.block.now simulation.now.outside.now before.now after.now gate) }
{
    if after[gate as usize] != Trit::X {
        return Ok(None);
    }
    match gate_value(alloc, simulation, before, after, gate)? {
        Trit::X => Ok(None),
        value => Ok(Some(value)),
    }
}

/// Sets the gates that wait, and those that then read something new, and answers which cut wires have changed. `settled`
/// counts the gates that are set.
///
/// A gate becomes known at most once in all sweeps of a loop, and only then do its readers wait. So all sweeps together
/// compute each gate at most once more than it has pins in the loop.
fn sweep(
    alloc: Global,
    simulation: &Simulation<'_>,
    before: &[Trit],
    after: &mut [Trit],
    mut waiting: Vec<u32>,
    settled: &mut u64,
) -> Result<Vec<u32>, AllocError>
    requires block { IsLoopAt simulation.now.block.now }
    requires readers { AreReaders simulation.now.block.now (gates_in simulation.now.block.now) simulation.now.readers.now }
    requires ready { IsReady simulation.now.block.now simulation.now.outside.now before.now after.old waiting.items }
    ensures { IfOk result (λ changed. IsSwept simulation.now.block.now simulation.now.outside.now before.now after.new changed.items) }
{
    let mut changed = Vec::new(alloc);
    while let Some(gate) = waiting.pop() {
        if let Some(value) = new_value(alloc, simulation, before, after, gate)? {
            after[gate as usize] = value;
            *settled = settled.saturating_add(1);
            if simulation.block.is_cut(gate) {
                changed.push(gate)?;
            } else {
                waiting.extend_from_slice(simulation.readers[gate as usize].gates())?;
            }
        }
    }
    Ok(changed)
}

/// Lets gates see the cut wires that have changed, and answers which of them then wait.
fn show(
    alloc: Global,
    readers: &[GateList],
    changed: &[u32],
    before: &mut [Trit],
    after: &[Trit],
) -> Result<Vec<u32>, AllocError>
    requires readers { All (λ n. n < length readers.now) changed.now }
    requires before { All (λ n. n < length before.old) changed.now }
    requires after { All (λ n. n < length after.now) changed.now }
    ensures { (l : LoopAt) (outside : List Trit) → AreReaders l (gates_in l) readers.now → IsSwept l outside before.old after.now changed.now → IfOk result (λ waiting. IsReady l outside before.new after.now waiting.items) }
{
    let mut waiting = Vec::new(alloc);
    for wire in changed {
        before[*wire as usize] = after[*wire as usize];
        waiting.extend_from_slice(readers[*wire as usize].gates())?;
    }
    Ok(waiting)
}

/// How many sweeps a loop needs at a vector, and how late its gates are known there.
#[derive(Clone, Copy)]
pub(crate) struct Count {
    pub sweeps: u32,
    /// The sum over its gates of the sweep that sets each. No clause speaks of it.
    pub delay: u64,
}

impl Count {
    /// Whether gates are known later than by another count, sweeps first.
    pub(crate) fn is_later(&self, other: &Count) -> bool {
        self.sweeps > other.sweeps || self.sweeps == other.sweeps && self.delay > other.delay
    }
}

/// How many sweeps a loop needs where these are the values outside of it: at a vector, if they are those of its fixpoint. So
/// many as it has cut wires are enough.
fn count_in(alloc: Global, simulation: &Simulation<'_>) -> Result<Count, AllocError>
    requires { AreReaders simulation.now.block.now (gates_in simulation.now.block.now) simulation.now.readers.now }
    ensures { (v : List Bool) → length v ≡ columns simulation.now.block.now.net → simulation.now.outside.now ≡ fix simulation.now.block.now.net (bits v) →
        IfOk result (λ count. IsCountAt simulation.now.block.now.net (loops_in simulation.now.block.now) v (gates_in simulation.now.block.now) count.sweeps) }
{
    let block = simulation.block;
    let most = block.cut_count();
    let mut before = vec![in alloc; Trit::X; block.net().gates() as usize]?;
    let mut after = vec![in alloc; Trit::X; block.net().gates() as usize]?;
    let mut waiting = block.gates().to_vec(alloc)?;
    let mut delay: u64 = 0;
    for sweeps in 0..most {
        let mut settled: u64 = 0;
        let changed = sweep(
            alloc,
            simulation,
            &before,
            &mut after,
            waiting,
            &mut settled,
        )?;
        delay = delay.saturating_add(settled.saturating_mul(u64::from(sweeps)));
        if changed.is_empty() {
            return Ok(Count { sweeps, delay });
        }
        waiting = show(alloc, simulation.readers, &changed, &mut before, &after)?;
    }
    Ok(Count {
        sweeps: most,
        delay,
    })
}

/// How many sweeps a loop with these readers needs at a vector.
pub(crate) fn count_at(
    alloc: Global,
    block: &LoopedBlock<'_>,
    readers: &[GateList],
    vector: &[bool],
) -> Result<Count, AllocError>
    requires readers { AreReaders block.now (gates_in block.now) readers.now }
    requires vector { length vector.now ≡ columns block.now.net }
    ensures { IfOk result (λ count. IsCountAt block.now.net (loops_in block.now) vector.now (gates_in block.now) count.sweeps) }
{
    let outside = settle_at(alloc, block.net(), vector)?;
    let simulation = Simulation {
        block,
        readers,
        outside: &outside,
    };
    count_in(alloc, &simulation)
}

/// The same, of what lies upstream of the loop alone, in time in proportion to that. No clause speaks of it.
pub(crate) fn count_upstream(
    alloc: Global,
    block: &LoopedBlock<'_>,
    readers: &[GateList],
    upstream: &Upstream,
    vector: &[bool],
) -> Result<Count, AllocError>
    requires readers { AreReaders block.now (gates_in block.now) readers.now }
    requires upstream { IsUpstreamIn block.now upstream.now }
    requires vector { length vector.now ≡ columns block.now.net }
{
    let outside = values_upstream(alloc, block, upstream, vector)?;
    let simulation = Simulation {
        block,
        readers,
        outside: &outside,
    };
    count_in(alloc, &simulation)
}

/// How many sweeps a loop needs at a vector.
///
/// The condition is that the vector has a value for each input and latch.
pub fn sweeps_in(alloc: Global, block: &LoopedBlock<'_>, vector: &[bool]) -> Result<u32, AllocError>
    requires { length vector.now ≡ columns block.now.net }
    ensures { IfOk result (IsCountAt block.now.net (loops_in block.now) vector.now (gates_in block.now)) }
{
    let readers = readers_in(alloc, block)?;
    let count = count_at(alloc, block, &readers, vector)?;
    Ok(count.sweeps)
}

/// How many sweeps the loop at this place of the blocks needs at a vector, by ternary simulation.
///
/// The condition is that the block is a loop, and that the vector has a value for each input and latch.
pub fn sweeps_at(
    alloc: Global,
    looped: &LoopedNetlist<'_>,
    block: u32,
    vector: &[bool],
) -> Result<u32, AllocError>
    requires block { block < length looped.now.blocks.list }
    requires looped { (block_at looped.now.blocks block).looped ≡ true }
    requires vector { length vector.now ≡ columns looped.now.net }
    ensures { IfOk result (IsCountAt looped.now.net (loops_by looped.now.blocks looped.now.cut) vector.now (block_at looped.now.blocks block).gates) }
{
    let block = LoopedBlock::of(alloc, looped, block)?;
    sweeps_in(alloc, &block, vector)
}
