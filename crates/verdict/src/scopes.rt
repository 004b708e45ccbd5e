//! Which gates the clauses of a question speak of.

ghost use Rattle.std.specs.Prelude.{◌≡◌, ◌<◌, ◌≤◌, not, length, map, All, IfOk};
ghost use Rattle.care_sets.specs.Binding.{IsCareOf};
ghost use Rattle.loops.specs.Cones.{ListsMarked};
ghost use Rattle.clause_decision.specs.Scopes.{AreInScope, AreNeverUnknown, IsScopeOf};
ghost use Rattle.isolation.specs.Alone.{SettleInOneSweep};
ghost use Rattle.verdict.specs.Scopes.{AreDrivers};

use crate::fanout::candidate_gates;
use crate::question::Question;
use care_sets::Care;
use clause_decision::Scope;
use cyc_base::Items;
use loops::{LoopedNetlist, upstream_of};
use netlist::Netlist;
use std::alloc::{AllocError, Global};

/// The marked places, in their order.
pub(crate) fn marked_places(alloc: Global, marks: &[bool]) -> Result<Vec<u32>, AllocError>
    requires { length marks.now ≤ 4294967295 }
    ensures { IfOk result (λ places. ListsMarked marks.now (length marks.now) places.items) }
{
    let mut places = Vec::new(alloc);
    for place in 0..marks.len() {
        if marks[place] {
            places.push(place as u32)?;
        }
    }
    Ok(places)
}

/// The marks, exchanged.
fn others(alloc: Global, marks: &[bool]) -> Result<Vec<bool>, AllocError>
    ensures { IfOk result (λ marked. marked.items ≡ map (λ mark. not mark) marks.now) }
{
    marks.iter().map(|mark| !*mark).collect(alloc)
}

/// The gates that are neither in a loop that isn't settled nor in the fanout of one: no Boolean vector leaves them unknown.
///
/// The condition is that there is a mark for each block, and that the marked loops are settled by themselves in one sweep.
pub fn known_gates(
    alloc: Global,
    looped: &LoopedNetlist<'_>,
    settled: &[bool],
) -> Result<Vec<bool>, AllocError>
    requires width { length settled.now ≡ length looped.now.blocks.list }
    requires settled { SettleInOneSweep looped.now.net looped.now.blocks settled.now }
    ensures width { IfOk result (λ known. length known.items ≡ length looped.now.net.gates) }
    ensures known { IfOk result (λ known. AreNeverUnknown looped.now.net known.items) }
{
    looped.net().laws();
    let candidates = candidate_gates(alloc, looped, settled)?;
    others(alloc, &candidates)
}

/// The scope of a question about these gates.
#[tactic(auto, using(crate::proofs::ScopeLemmas::cone_within))]
pub(crate) fn scope_of(
    alloc: Global,
    question: &Question<'_>,
    gates: &[u32],
) -> Result<Scope, AllocError>
    requires { All (λ n. n < length question.now.net.gates) gates.now }
    ensures scope { IfOk result (IsScopeOf question.now.net) }
    ensures within { IfOk result (λ scope. AreInScope question.now.net scope gates.now) }
{
    let looped = question.looped();
    let upstream = Items::of(upstream_of(alloc, looped, gates)?);
    let known = Items::of(question.known().to_vec(alloc)?);
    Ok(Scope {
        gates: upstream,
        known,
    })
}

/// The gates that drive the latches which the invariant reads.
pub(crate) fn drivers_read(
    alloc: Global,
    net: &Netlist,
    care: &Care,
) -> Result<Vec<u32>, AllocError>
    requires { IsCareOf net.now care.now }
    ensures within { IfOk result (λ gates. All (λ n. n < length net.now.gates) gates.items) }
    ensures drivers { IfOk result (λ gates. AreDrivers net.now care.now gates.items) }
{
    let mut gates = Vec::new(alloc);
    for column in care.invariant_columns() {
        let latch = net.latch(*column - net.inputs());
        if let Some(gate) = net.driver(latch.from) {
            gates.push(gate)?;
        }
    }
    Ok(gates)
}
