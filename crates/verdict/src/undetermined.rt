//! The refusal of the first observed gate that is unknown on care.

ghost use Rattle.std.specs.Prelude.{◌≡◌, ◌<◌, ℕ, Some, true, length, All, IfOk, IfSome};
ghost use Rattle.netlist.specs.Netlists.{is_marked};
ghost use Rattle.refusals.specs.Acceptance.{observed as observed_signals};
ghost use Rattle.refusals.specs.Refusals.{undetermined_refusal};
ghost use Rattle.clause_decision.specs.Tests.{TellsFirstUnknown};
ghost use Rattle.clause_decision.specs.Witnesses.{TellsWitness};
ghost use Rattle.diagram_decision.specs.Observed.{AreMarksOf};
ghost use Rattle.verdict.specs.Unknown.{AreAskedCandidates, IsAskedFor};
ghost use Rattle.refusals.specs.Tests.{IsFirstToRefuse};

use crate::fanout::candidate_gates;
use crate::pieces::{piece_at, piece_size};
use crate::question::Question;
use crate::scopes::{marked_places, scope_of};
use clause_decision::{First, Found, Witness, first_unknown, least_unknown, some_unknown};
use cyc_base::Bits;
use diagram_decision::observed_gates;
use refusals::Refusal;
use std::alloc::{AllocError, Global};

/// Clears the marks of gates that aren't asked for: those that aren't observed, and those after the last.
fn keep_asked(observed: &[bool], last: u32, marks: &mut [bool])
    requires { length observed.now ≡ length marks.old }
    ensures width { length marks.new ≡ length marks.old }
    ensures kept { (k : ℕ) → IsAskedFor observed.now last k → is_marked marks.new k ≡ is_marked marks.old k }
    ensures only { (k : ℕ) → is_marked marks.new k ≡ true → IsAskedFor observed.now last k }
{
    for place in 0..marks.len() {
        if !observed[place] || place > last as usize {
            marks[place] = false;
        }
    }
}

/// Marks of the gates asked for that may be unknown: those in loops at places that aren't settled, and in their fanout.
pub(crate) fn asked_candidates(
    alloc: Global,
    question: &Question<'_>,
    observed: &[bool],
    last: u32,
) -> Result<Vec<bool>, AllocError>
    requires { length observed.now ≡ length question.now.net.gates }
    ensures { IfOk result (λ marks. AreAskedCandidates question.now.net question.now.blocks question.now.settled observed.now last marks.items) }
{
    let mut marks = candidate_gates(alloc, question.looped(), question.settled())?;
    keep_asked(observed, last, &mut marks);
    Ok(marks)
}

/// The place of the first of these gates that is unknown at some care vector, asked of the clauses of their cone.
fn first_in_cone(alloc: Global, question: &Question<'_>, gates: &[u32]) -> Result<First, AllocError>
    requires { All (λ n. n < length question.now.net.gates) gates.now }
    ensures { IfOk result (TellsFirstUnknown question.now.net question.now.care gates.now) }
{
    let net = question.net();
    let care = question.care();
    let scope = scope_of(alloc, question, gates)?;
    first_unknown(alloc, net, care, &scope, gates, question.conflicts())
}

/// The place of the first of these gates that is unknown at some care vector.
fn first_of(alloc: Global, question: &Question<'_>, gates: &[u32]) -> Result<First, AllocError>
    requires { All (λ n. n < length question.now.net.gates) gates.now }
    ensures { IfOk result (TellsFirstUnknown question.now.net question.now.care gates.now) }
{
    let size = piece_size(alloc, question, gates)?;
    let mut start = 0;
    while start < gates.len() {
        let piece = piece_at(gates, start, size);
        match first_in_cone(alloc, question, piece)? {
            First::Nowhere => start += piece.len(),
            First::At(place) => return Ok(First::At(start + place)),
            First::Unknown => return Ok(First::Unknown),
        }
    }
    Ok(First::Nowhere)
}

/// A care vector at which one of these gates is unknown, asked of the clauses of their cone.
fn some_in_cone(
    alloc: Global,
    question: &Question<'_>,
    gates: &[u32],
) -> Result<Witness, AllocError>
    requires { All (λ n. n < length question.now.net.gates) gates.now }
    ensures { IfOk result (TellsWitness question.now.net question.now.care gates.now) }
{
    let net = question.net();
    let care = question.care();
    let scope = scope_of(alloc, question, gates)?;
    some_unknown(alloc, net, care, &scope, gates, question.conflicts())
}

/// A care vector at which one of these gates is unknown, with one that is. Any does.
pub(crate) fn some_of(
    alloc: Global,
    question: &Question<'_>,
    gates: &[u32],
) -> Result<Witness, AllocError>
    requires { All (λ n. n < length question.now.net.gates) gates.now }
    ensures { IfOk result (TellsWitness question.now.net question.now.care gates.now) }
{
    let size = piece_size(alloc, question, gates)?;
    let mut start = 0;
    while start < gates.len() {
        let piece = piece_at(gates, start, size);
        match some_in_cone(alloc, question, piece)? {
            Witness::Nowhere => start += piece.len(),
            Witness::Found { vector, place } => {
                return Ok(Witness::Found {
                    vector,
                    place: start + place,
                });
            }
            Witness::Unknown => return Ok(Witness::Unknown),
        }
    }
    Ok(Witness::Nowhere)
}

/// The refusal of a gate, where it is the first that refuses the netlist.
fn refusal_of(
    alloc: Global,
    question: &Question<'_>,
    gate: u32,
) -> Result<Option<Refusal>, AllocError>
    requires within { gate < length question.now.net.gates }
    requires first { IsFirstToRefuse question.now.net question.now.care question.now.what gate }
    ensures { IfOk result (λ found. IfSome found (λ refusal. undetermined_refusal question.now.net question.now.care question.now.what ≡ Some refusal)) }
{
    let net = question.net();
    let care = question.care();
    let scope = scope_of(alloc, question, &[gate])?;
    match least_unknown(alloc, net, care, &scope, gate, question.conflicts())? {
        Found::Least(vector) => Ok(Some(Refusal::Undetermined {
            vector: Bits::of(vector),
            wire: net.gate_sig(gate),
        })),
        Found::NoVector => Ok(None),
        Found::Unknown => Ok(None),
    }
}

/// The refusal of the first observed gate up to the last that is asked for, where it is unknown.
fn first_refusal(
    alloc: Global,
    question: &Question<'_>,
    observed: &[bool],
    last: u32,
) -> Result<Option<Refusal>, AllocError>
    requires { AreMarksOf question.now.net (observed_signals question.now.net question.now.what) observed.now }
    ensures { IfOk result (λ found. IfSome found (λ refusal. undetermined_refusal question.now.net question.now.care question.now.what ≡ Some refusal)) }
{
    question.laws();
    let marks = asked_candidates(alloc, question, observed, last)?;
    let gates = marked_places(alloc, &marks)?;
    match first_of(alloc, question, &gates)? {
        First::At(place) => refusal_of(alloc, question, gates[place]),
        First::Nowhere => Ok(None),
        First::Unknown => Ok(None),
    }
}

/// The refusal of the first observed gate that is unknown at a vector of care, with the least such vector, if it is
/// found. No gate after `last` is asked for, so the clauses are few; the search finds what it should if that gate is observed and
/// unknown on care.
pub(crate) fn unknown_refusal(
    alloc: Global,
    question: &Question<'_>,
    last: u32,
) -> Result<Option<Refusal>, AllocError>
    ensures { IfOk result (λ found. IfSome found (λ refusal. undetermined_refusal question.now.net question.now.care question.now.what ≡ Some refusal)) }
{
    let observed = observed_gates(alloc, question.net(), question.observe())?;
    first_refusal(alloc, question, &observed, last)
}
