//! Care vectors at which a loop needs many sweeps. From one at which it needs some, columns are flipped one after another,
//! and a flip is kept where gates are then known later. What lies upstream of the loop tells of each flip, and the whole
//! netlist is simulated for the last vector alone: what is relied on is told of that one.

ghost use Rattle.std.specs.Prelude.{◌≡◌, ◌<◌, ◌≤◌, length, IfOk, IfSome};
ghost use Rattle.netlist.specs.Netlists.{columns};
ghost use Rattle.care_sets.specs.Binding.{IsCareOf};
ghost use Rattle.loop_simulation.specs.Climbing.{IsWitness, NeedAtLeast};
ghost use Rattle.loop_simulation.specs.LoopsAt.{gates_in, loops_in};
ghost use Rattle.loop_simulation.specs.Readers.{AreReaders};
ghost use Rattle.loop_simulation.specs.Upstream.{IsUpstreamIn};

use crate::looped_block::LoopedBlock;
use crate::readers::readers_in;
use crate::simulating::{Count, count_at, count_upstream};
use crate::upstream::{Upstream, upstream_in};
use care_sets::Care;
use loops::GateList;
use refusals::is_care_vector;
use std::alloc::{AllocError, Global};

/// From so many sweeps on a search near a vector is worth its time: up to there the solver answers soon.
const MANY_SWEEPS: u32 = 8;

/// For each gate of a copy of the loop that the solver would be given, so many gates are simulated at most.
const GATES_FOR_ONE: usize = 64;

/// A care vector, and how many sweeps the loop needs there.
struct Witness {
    vector: Vec<bool>,
    count: Count,
}

impl Drop for Witness {
    fn drop(self) {
        let Witness {
            vector: _,
            count: _,
        } = self;
    }
}

/// A vector, and how many sweeps the loop needs there by what lies upstream of it.
struct Candidate {
    vector: Vec<bool>,
    count: Count,
}

impl Drop for Candidate {
    fn drop(self) {
        let Candidate {
            vector: _,
            count: _,
        } = self;
    }
}

/// A loop with its care set.
#[derive(Drop)]
struct LoopOnCare<'a> {
    block: &'a LoopedBlock<'a>,
    care: &'a Care,
    /// For each gate the gates of the loop that read it.
    readers: &'a [GateList],
    /// What lies upstream of the loop: nothing else changes what its gates see.
    upstream: &'a Upstream,
}

/// The witness that a vector is, if it is one of care.
fn witness_at(
    alloc: Global,
    on_care: &LoopOnCare<'_>,
    vector: Vec<bool>,
) -> Result<Option<Witness>, AllocError>
    requires care { IsCareOf on_care.now.block.now.net on_care.now.care.now }
    requires readers { AreReaders on_care.now.block.now (gates_in on_care.now.block.now) on_care.now.readers.now }
    requires vector { length vector.items ≡ columns on_care.now.block.now.net }
    ensures { IfOk result (λ found. IfSome found (IsWitness on_care.now.block.now.net (loops_in on_care.now.block.now) on_care.now.care.now (gates_in on_care.now.block.now))) }
{
    if !is_care_vector(alloc, on_care.block.net(), on_care.care, &vector)? {
        return Ok(None);
    }
    let count = count_at(alloc, on_care.block, on_care.readers, &vector)?;
    Ok(Some(Witness { vector, count }))
}

/// The candidate that a vector is, if it is one of care.
fn candidate_at(
    alloc: Global,
    on_care: &LoopOnCare<'_>,
    vector: Vec<bool>,
) -> Result<Option<Candidate>, AllocError>
    requires care { IsCareOf on_care.now.block.now.net on_care.now.care.now }
    requires readers { AreReaders on_care.now.block.now (gates_in on_care.now.block.now) on_care.now.readers.now }
    requires upstream { IsUpstreamIn on_care.now.block.now on_care.now.upstream.now }
    requires vector { length vector.items ≡ columns on_care.now.block.now.net }
    ensures { IfOk result (λ found. IfSome found (λ candidate. length candidate.vector.items ≡ columns on_care.now.block.now.net)) }
{
    let block = on_care.block;
    if !is_care_vector(alloc, block.net(), on_care.care, &vector)? {
        return Ok(None);
    }
    let count = count_upstream(alloc, block, on_care.readers, on_care.upstream, &vector)?;
    Ok(Some(Candidate { vector, count }))
}

/// A candidate with the value of one column flipped, at which gates are known later.
fn later_candidate(
    alloc: Global,
    on_care: &LoopOnCare<'_>,
    candidate: &Candidate,
    column: u32,
) -> Result<Option<Candidate>, AllocError>
    requires care { IsCareOf on_care.now.block.now.net on_care.now.care.now }
    requires readers { AreReaders on_care.now.block.now (gates_in on_care.now.block.now) on_care.now.readers.now }
    requires upstream { IsUpstreamIn on_care.now.block.now on_care.now.upstream.now }
    requires width { length candidate.now.vector.items ≡ columns on_care.now.block.now.net }
    requires column { column < columns on_care.now.block.now.net }
    ensures { IfOk result (λ found. IfSome found (λ later. length later.vector.items ≡ columns on_care.now.block.now.net)) }
{
    let mut vector = candidate.vector.to_vec(alloc)?;
    vector[column as usize] = !vector[column as usize];
    match candidate_at(alloc, on_care, vector)? {
        Some(other) if other.count.is_later(&candidate.count) => Ok(Some(other)),
        _ => Ok(None),
    }
}

/// How many vectors are tried where the solver would be given so many copies of the loop.
fn tries_for(on_care: &LoopOnCare<'_>, sweeps: u32) -> usize {
    let copied = on_care.block.gates().len().saturating_mul(sweeps as usize);
    copied.saturating_mul(GATES_FOR_ONE) / on_care.upstream.gates.saturating_add(1)
}

/// The last of the candidates that come one after another, each from the one before it.
fn climb_from(
    alloc: Global,
    on_care: &LoopOnCare<'_>,
    mut candidate: Candidate,
) -> Result<Candidate, AllocError>
    requires care { IsCareOf on_care.now.block.now.net on_care.now.care.now }
    requires readers { AreReaders on_care.now.block.now (gates_in on_care.now.block.now) on_care.now.readers.now }
    requires upstream { IsUpstreamIn on_care.now.block.now on_care.now.upstream.now }
    requires candidate { length candidate.vector.items ≡ columns on_care.now.block.now.net }
    ensures { IfOk result (λ last. length last.vector.items ≡ columns on_care.now.block.now.net) }
{
    let most = on_care.block.cut_count();
    let columns = &on_care.upstream.columns;
    // How many tries in a row have failed.
    let mut failed: usize = 0;
    for turn in 0..tries_for(on_care, most) {
        let sweeps = candidate.count.sweeps;
        if failed == columns.len() || sweeps >= most || turn >= tries_for(on_care, sweeps) {
            return Ok(candidate);
        }
        match later_candidate(alloc, on_care, &candidate, columns[turn % columns.len()])? {
            Some(later) => {
                candidate = later;
                failed = 0;
            }
            None => failed += 1,
        }
    }
    Ok(candidate)
}

/// The witness that a climb from a vector ends at.
fn last_witness(
    alloc: Global,
    on_care: &LoopOnCare<'_>,
    vector: Vec<bool>,
) -> Result<Option<Witness>, AllocError>
    requires care { IsCareOf on_care.now.block.now.net on_care.now.care.now }
    requires readers { AreReaders on_care.now.block.now (gates_in on_care.now.block.now) on_care.now.readers.now }
    requires upstream { IsUpstreamIn on_care.now.block.now on_care.now.upstream.now }
    requires vector { length vector.items ≡ columns on_care.now.block.now.net }
    ensures { IfOk result (λ found. IfSome found (IsWitness on_care.now.block.now.net (loops_in on_care.now.block.now) on_care.now.care.now (gates_in on_care.now.block.now))) }
{
    let Some(candidate) = candidate_at(alloc, on_care, vector)? else {
        return Ok(None);
    };
    let last = climb_from(alloc, on_care, candidate)?;
    let end = last.vector.to_vec(alloc)?;
    witness_at(alloc, on_care, end)
}

/// So many sweeps of a loop, or more, which a care vector near this one needs. Where so many are few, none is looked for.
///
/// The condition is that the care set is the netlist's, and that the vector has a value for each input and latch.
pub fn climb(
    alloc: Global,
    block: &LoopedBlock<'_>,
    care: &Care,
    vector: Vec<bool>,
    sweeps: u32,
) -> Result<u32, AllocError>
    requires care { IsCareOf block.now.net care.now }
    requires vector { length vector.items ≡ columns block.now.net }
    ensures { NeedAtLeast block.now.net (loops_in block.now) care.now (gates_in block.now) sweeps →
        IfOk result (λ number. (sweeps ≤ number) × NeedAtLeast block.now.net (loops_in block.now) care.now (gates_in block.now) number) }
{
    if sweeps < MANY_SWEEPS {
        return Ok(sweeps);
    }
    let readers = readers_in(alloc, block)?;
    let upstream = upstream_in(alloc, block)?;
    let on_care = LoopOnCare {
        block,
        care,
        readers: &readers,
        upstream: &upstream,
    };
    let Some(last) = last_witness(alloc, &on_care, vector)? else {
        return Ok(sweeps);
    };
    let more = last.count.sweeps;
    if sweeps < more { Ok(more) } else { Ok(sweeps) }
}
