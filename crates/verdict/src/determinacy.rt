//! Whether the observed gates of a netlist are determined on care, and how many others aren't.

ghost use Rattle.std.specs.Prelude.{◌≡◌, ◌<◌, true, length, IfOk};
ghost use Rattle.netlist.specs.Netlists.{columns};
ghost use Rattle.refusals.specs.Tests.{is_unknown_at};
ghost use Rattle.refusals.specs.Acceptance.{observed as observed_signals};
ghost use Rattle.verdict.specs.Determinacy.{IsDeterminacy};
ghost use Rattle.verdict.specs.Loose.{AreUnknownMarks};
ghost use Rattle.diagram_decision.specs.Observed.{AreMarksOf};
ghost use Rattle.verdict.specs.Scopes.{AreOpenGates};

use crate::fanout::open_gates;
use crate::question::Question;
use crate::scopes::marked_places;
use crate::undetermined::{asked_candidates, some_of};
use crate::unknown::{loose_number, unknown_gates};
use clause_decision::Witness;
use diagram_decision::observed_gates;
use std::alloc::{AllocError, Global};

/// Whether the observed gates of a netlist are determined on care.
#[derive(Drop)]
pub enum Determinacy {
    /// No observed one is unknown at any care vector, and so many others are.
    Determined { loose: u32 },
    /// An observed one that is unknown at a care vector. Any does.
    Unknown { vector: Vec<bool>, gate: u32 },
    /// The solver gave up.
    Undecided,
}

/// Whether the gates are determined where these are unknown at some care vector.
fn determinacy_with_loose(
    alloc: Global,
    question: &Question<'_>,
    unknown: &[bool],
) -> Result<Determinacy, AllocError>
    requires { AreUnknownMarks question.now.net question.now.care unknown.now }
    ensures { IfOk result (IsDeterminacy question.now) }
{
    let net = question.net();
    let care = question.care();
    match loose_number(alloc, net, care, question.observe(), unknown)? {
        Some(loose) => Ok(Determinacy::Determined { loose }),
        None => Ok(Determinacy::Undecided),
    }
}

/// Whether the gates are determined where one is unknown on care, and no observed one was found to be.
fn determinacy_of_loose(alloc: Global, question: &Question<'_>) -> Result<Determinacy, AllocError>
    ensures { IfOk result (IsDeterminacy question.now) }
{
    match unknown_gates(alloc, question)? {
        Some(unknown) => determinacy_with_loose(alloc, question, &unknown),
        None => Ok(Determinacy::Undecided),
    }
}

/// An observed gate that is unknown at a care vector, if one is found.
fn some_observed(
    alloc: Global,
    question: &Question<'_>,
    observed: &[bool],
) -> Result<Determinacy, AllocError>
    requires { AreMarksOf question.now.net (observed_signals question.now.net question.now.what) observed.now }
    ensures { IfOk result (IsDeterminacy question.now) }
{
    question.laws();
    let marks = asked_candidates(alloc, question, observed, u32::MAX)?;
    let gates = marked_places(alloc, &marks)?;
    let found = some_of(alloc, question, &gates)?;
    match found {
        Witness::Found { vector, place } => Ok(Determinacy::Unknown {
            vector,
            gate: gates[place],
        }),
        Witness::Nowhere => Ok(Determinacy::Undecided),
        Witness::Unknown => Ok(Determinacy::Undecided),
    }
}

/// Whether the observed gates are determined where another gate is unknown.
fn determinacy_of_others(
    alloc: Global,
    question: &Question<'_>,
    observed: &[bool],
) -> Result<Determinacy, AllocError>
    requires { AreMarksOf question.now.net (observed_signals question.now.net question.now.what) observed.now }
    ensures { IfOk result (IsDeterminacy question.now) }
{
    match some_observed(alloc, question, observed)? {
        Determinacy::Undecided => determinacy_of_loose(alloc, question),
        found => Ok(found),
    }
}

/// Whether the observed gates are determined where this gate is unknown at this care vector.
#[tactic(auto, using(crate::proofs::WitnessLemmas::observed_unknown))]
fn determinacy_with_unknown(
    alloc: Global,
    question: &Question<'_>,
    vector: Vec<bool>,
    gate: u32,
) -> Result<Determinacy, AllocError>
    requires gate { gate < length question.now.net.gates }
    requires width { length vector.items ≡ columns question.now.net }
    requires unknown { is_unknown_at question.now.net question.now.care gate vector.items ≡ true }
    ensures { IfOk result (IsDeterminacy question.now) }
{
    let observed = observed_gates(alloc, question.net(), question.observe())?;
    if observed[gate as usize] {
        return Ok(Determinacy::Unknown { vector, gate });
    }
    determinacy_of_others(alloc, question, &observed)
}

/// The gates of loops that aren't settled.
fn gates_open(alloc: Global, question: &Question<'_>) -> Result<Vec<u32>, AllocError>
    ensures { IfOk result (λ gates. AreOpenGates question.now.net question.now.blocks question.now.settled gates.items) }
{
    let marks = open_gates(alloc, question.blocks(), question.settled())?;
    marked_places(alloc, &marks)
}

/// Whether the observed gates are determined: those of loops that aren't settled by themselves are asked for. All gates are
/// where none of these is unknown.
pub(crate) fn determinacy_on_care(
    alloc: Global,
    question: &Question<'_>,
) -> Result<Determinacy, AllocError>
    ensures { IfOk result (IsDeterminacy question.now) }
{
    question.laws();
    let gates = gates_open(alloc, question)?;
    let found = some_of(alloc, question, &gates)?;
    match found {
        Witness::Found { vector, place } => {
            determinacy_with_unknown(alloc, question, vector, gates[place])
        }
        Witness::Nowhere => Ok(Determinacy::Determined { loose: 0 }),
        Witness::Unknown => Ok(Determinacy::Undecided),
    }
}
