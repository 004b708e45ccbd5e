//! The sweeps of loops on care: one for a loop that is settled by itself and around which all is known, and else what a
//! question about it tells.

ghost use Rattle.std.specs.Prelude.{◌≡◌, ◌<◌, ℕ, true, length, Contains, IfOk, IfSome};
ghost use Rattle.loops.specs.Blocks.{block_at};
ghost use Rattle.loops.specs.Cuts.{loops_by};
ghost use Rattle.clause_decision.specs.Scopes.{AreKnownOnCare};
ghost use Rattle.refusals.specs.Acceptance.{SomeCareVector};
ghost use Rattle.loop_simulation.specs.Known.{AreKnownSomewhere};
ghost use Rattle.loop_simulation.specs.Sweeping.{IsLeastCount};
ghost use Rattle.verdict.specs.Loose.{AreUnknown, IsLoopCount};
ghost use Rattle.loop_simulation.specs.Sweeping.{AreSweepsOnCare};

use crate::loose::{Unknown, is_fed_known, is_known_around};
use crate::question::Question;
use crate::scopes::scope_of;
use clause_decision::{has_one_known_cut, needs_one_sweep, sweeps_fed_known, sweeps_needed};
use cyc_base::Items;
use isolation::block_number;
use loops::{SweepCounts, gates_at};
use std::alloc::{AllocError, Global};

/// The sweeps that the loop at this place needs on care, where no gate is unknown there, asked of the clauses of its gates
/// and all upstream of them. There are none where the solver gave up.
fn ask_where_known(
    alloc: Global,
    question: &Question<'_>,
    place: usize,
) -> Result<Option<u32>, AllocError>
    requires some { SomeCareVector question.now.net question.now.care }
    requires known { AreKnownOnCare question.now.net question.now.care }
    requires place { place < length question.now.blocks.list }
    requires looped { (block_at question.now.blocks place).looped ≡ true }
    ensures { IfOk result (λ found. IfSome found (λ sweeps. (gate : ℕ) → Contains (block_at question.now.blocks place).gates gate →
        IsLeastCount question.now.net (loops_by question.now.blocks question.now.cut) question.now.care gate sweeps)) }
{
    let looped = question.looped();
    let care = question.care();
    let block = block_number(looped, place);
    if needs_one_sweep(alloc, looped, block)? {
        return Ok(Some(1));
    }
    let scope = scope_of(alloc, question, gates_at(looped, place))?;
    sweeps_needed(alloc, looped, care, &scope, block, question.conflicts())
}

/// The same, where these gates are unknown on care. There are none where one of them feeds the loop, either, unless the loop
/// has one cut wire, and that is among those that are known at some care vector.
fn ask_where_marked(
    alloc: Global,
    question: &Question<'_>,
    unknown: Unknown<'_>,
    known: &[bool],
    place: usize,
) -> Result<Option<u32>, AllocError>
    requires unknown { AreUnknown question.now.net question.now.care unknown }
    requires known { AreKnownSomewhere question.now.net question.now.care known.now }
    requires place { place < length question.now.blocks.list }
    requires looped { (block_at question.now.blocks place).looped ≡ true }
    ensures { IfOk result (λ found. IfSome found (λ sweeps. (gate : ℕ) → Contains (block_at question.now.blocks place).gates gate →
        IsLeastCount question.now.net (loops_by question.now.blocks question.now.cut) question.now.care gate sweeps)) }
{
    let looped = question.looped();
    let care = question.care();
    let block = block_number(looped, place);
    if has_one_known_cut(alloc, looped, block, known)? {
        return Ok(Some(1));
    }
    if !is_fed_known(alloc, question, unknown, place)? {
        return Ok(None);
    }
    let scope = scope_of(alloc, question, gates_at(looped, place))?;
    sweeps_fed_known(alloc, looped, care, &scope, block, question.conflicts())
}

/// The sweeps that the loop at this place needs on care, if they are found.
fn ask_sweeps(
    alloc: Global,
    question: &Question<'_>,
    unknown: Unknown<'_>,
    place: usize,
) -> Result<Option<u32>, AllocError>
    requires some { SomeCareVector question.now.net question.now.care }
    requires unknown { AreUnknown question.now.net question.now.care unknown }
    requires place { place < length question.now.blocks.list }
    requires looped { (block_at question.now.blocks place).looped ≡ true }
    ensures { IfOk result (λ found. IfSome found (λ sweeps. (gate : ℕ) → Contains (block_at question.now.blocks place).gates gate →
        IsLeastCount question.now.net (loops_by question.now.blocks question.now.cut) question.now.care gate sweeps)) }
{
    match unknown {
        Unknown::Nowhere => ask_where_known(alloc, question, place),
        Unknown::Anywhere { known } | Unknown::Marked { unknown: _, known } => {
            ask_where_marked(alloc, question, unknown, known, place)
        }
    }
}

/// The sweeps of the block at this place, if they are found.
fn count_at(
    alloc: Global,
    question: &Question<'_>,
    unknown: Unknown<'_>,
    place: usize,
) -> Result<Option<u32>, AllocError>
    requires some { SomeCareVector question.now.net question.now.care }
    requires unknown { AreUnknown question.now.net question.now.care unknown }
    requires place { place < length question.now.blocks.list }
    ensures { IfOk result (λ found. IfSome found (IsLoopCount question.now.net question.now.blocks question.now.cut question.now.care place)) }
{
    if !question.blocks().list.items()[place].looped {
        return Ok(Some(0));
    }
    if question.settled()[place] && is_known_around(question, unknown, place) {
        return Ok(Some(1));
    }
    ask_sweeps(alloc, question, unknown, place)
}

/// The sweeps of all loops on care, if they are found.
pub(crate) fn sweeps_on_care(
    alloc: Global,
    question: &Question<'_>,
    unknown: Unknown<'_>,
) -> Result<Option<SweepCounts>, AllocError>
    requires some { SomeCareVector question.now.net question.now.care }
    requires unknown { AreUnknown question.now.net question.now.care unknown }
    ensures { IfOk result (λ found. IfSome found (AreSweepsOnCare question.now.net question.now.blocks question.now.cut question.now.care)) }
{
    question.laws();
    let mut counts = Vec::new(alloc);
    for place in 0..question.settled().len() {
        let Some(count) = count_at(alloc, question, unknown, place)? else {
            return Ok(None);
        };
        counts.push(count)?;
    }
    Ok(Some(SweepCounts {
        per_block: Items::of(counts),
    }))
}
