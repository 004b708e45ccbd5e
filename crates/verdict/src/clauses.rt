//! The decision by clauses: what a solver for satisfiability tells of initial states, of the care set, of loops, and of
//! next states.

ghost use Rattle.std.specs.Prelude.{◌≡◌, None, IfOk, IfSome};
ghost use Rattle.refusals.specs.Refusals.{initial_refusal};
ghost use Rattle.verdict.specs.Loose.{IsLooseNumber};
ghost use Rattle.verdict.specs.Scopes.{IsBeginning, MayGoOn};
ghost use Rattle.verdict.specs.Questions.{IsJudgementOf};

use crate::determinacy::{Determinacy, determinacy_on_care};
use crate::invariance::{Invariance, invariance_of};
use crate::question::Question;
use crate::undetermined::unknown_refusal;
use clause_decision::{Found, is_possible, least_outside};
use cyc_base::Bits;
use diagram_decision::Judgement;
use refusals::Refusal;
use std::alloc::{AllocError, Global};

/// How far the decision comes without the gates.
#[derive(Drop)]
pub enum Beginning {
    /// A state that the inits permit is outside the invariant, or no vector is one of care.
    Refused(Refusal),
    /// There are care vectors.
    Care,
    /// The solver gave up.
    Undecided,
}

/// Whether any vector is one of care, where the initial states are in the invariant.
fn begin_with_care(alloc: Global, question: &Question<'_>) -> Result<Beginning, AllocError>
    requires { initial_refusal question.now.net question.now.care ≡ None }
    ensures { IfOk result (IsBeginning question.now.net question.now.care) }
{
    let net = question.net();
    let care = question.care();
    match is_possible(alloc, net, care, question.conflicts())? {
        Some(true) => Ok(Beginning::Care),
        Some(false) => Ok(Beginning::Refused(Refusal::EmptyCare)),
        None => Ok(Beginning::Undecided),
    }
}

/// The initial states and the care set.
pub(crate) fn begin(alloc: Global, question: &Question<'_>) -> Result<Beginning, AllocError>
    ensures { IfOk result (IsBeginning question.now.net question.now.care) }
{
    let net = question.net();
    let care = question.care();
    match least_outside(alloc, net, care, question.conflicts())? {
        Found::Least(state) => Ok(Beginning::Refused(Refusal::Initial {
            state: Bits::of(state),
        })),
        Found::NoVector => begin_with_care(alloc, question),
        Found::Unknown => Ok(Beginning::Undecided),
    }
}

/// The judgement where no observed gate is unknown on care, so that next states decide.
pub(crate) fn judge_by_invariance(
    alloc: Global,
    question: &Question<'_>,
    loose: u32,
) -> Result<Option<Judgement>, AllocError>
    requires begins { MayGoOn question.now.net question.now.care }
    requires determined { IsLooseNumber question.now.net question.now.care question.now.what loose }
    ensures { IfOk result (λ found. IfSome found (IsJudgementOf question.now)) }
{
    question.laws();
    match invariance_of(alloc, question)? {
        Invariance::Stays => Ok(Some(Judgement::Accepted { loose })),
        Invariance::Leaves(refusal) => Ok(Some(Judgement::Refused(refusal))),
        Invariance::Undecided => Ok(None),
    }
}

/// The judgement where this observed gate is unknown on care, so that the first such one refuses the netlist.
fn judge_by_unknown(
    alloc: Global,
    question: &Question<'_>,
    gate: u32,
) -> Result<Option<Judgement>, AllocError>
    requires { MayGoOn question.now.net question.now.care }
    ensures { IfOk result (λ found. IfSome found (IsJudgementOf question.now)) }
{
    match unknown_refusal(alloc, question, gate)? {
        Some(refusal) => Ok(Some(Judgement::Refused(refusal))),
        None => Ok(None),
    }
}

/// The judgement where neither the initial states nor the care set refuse the netlist.
fn judge_gates(alloc: Global, question: &Question<'_>) -> Result<Option<Judgement>, AllocError>
    requires { MayGoOn question.now.net question.now.care }
    ensures { IfOk result (λ found. IfSome found (IsJudgementOf question.now)) }
{
    match determinacy_on_care(alloc, question)? {
        Determinacy::Determined { loose } => judge_by_invariance(alloc, question, loose),
        Determinacy::Unknown { gate, .. } => judge_by_unknown(alloc, question, gate),
        Determinacy::Undecided => Ok(None),
    }
}

/// The judgement by clauses, or none where the solver gave up in a search.
pub(crate) fn judge_by_clauses(
    alloc: Global,
    question: &Question<'_>,
) -> Result<Option<Judgement>, AllocError>
    ensures { IfOk result (λ found. IfSome found (IsJudgementOf question.now)) }
{
    match begin(alloc, question)? {
        Beginning::Refused(refusal) => Ok(Some(Judgement::Refused(refusal))),
        Beginning::Care => judge_gates(alloc, question),
        Beginning::Undecided => Ok(None),
    }
}
