//! The judgement with any witness: where an observed wire is undetermined on care, one that is, and a vector at which it is.
//! Neither is the least, so one question finds both.

ghost use Rattle.std.specs.Prelude.{◌≡◌, ◌<◌, ◌≤◌, ◌⊎◌, length, Err, IfOk, IfErr, IfSome};
ghost use Rattle.care_sets.specs.Binding.{IsCareOf};
ghost use Rattle.diagram_decision.specs.Causes.{IsOutOfNodes};
ghost use Rattle.isolation.specs.Alone.{SettleInOneSweep};
ghost use Rattle.diagram_decision.specs.Enough.{IsBelowEnough};
ghost use Rattle.verdict.specs.Scopes.{MayGoOn};
ghost use Rattle.verdict.specs.Determinacy.{IsUnknownGateAt};
ghost use Rattle.verdict.specs.Witnessed.{IsSomeJudgement, IsSomeJudgementOf};

use crate::clauses::{Beginning, begin, judge_by_invariance};
use crate::determinacy::{Determinacy, determinacy_on_care};
use crate::fault::DecideFault;
use crate::ground::ground_among;
use crate::judging::judge_anew;
use crate::question::Question;
use bdd_ops::Diagrams;
use care_sets::Care;
use cyc_base::{Bits, MAX_NODES};
use diagram_decision::{Judgement, Question as Asked};
use loops::LoopedNetlist;
use netlist::Netlist;
use refusals::{Observe, Refusal};
use std::alloc::{AllocError, Global};

/// The refusal of an observed gate that is unknown at a care vector.
fn refusal_at(net: &Netlist, vector: Vec<bool>, gate: u32) -> Refusal
    requires { gate < length net.now.gates }
    ensures { IsUnknownGateAt net.now vector.items gate result }
{
    Refusal::Undetermined {
        vector: Bits::of(vector),
        wire: net.gate_sig(gate),
    }
}

/// The judgement where neither the initial states nor the care set refuse the netlist, by searches.
#[tactic(auto, using(crate::proofs::WitnessLemmas::unknown_refuses))]
fn some_judgement(alloc: Global, question: &Question<'_>) -> Result<Option<Judgement>, AllocError>
    requires may { MayGoOn question.now.net question.now.care }
    ensures { IfOk result (λ found. IfSome found (IsSomeJudgementOf question.now)) }
{
    question.laws();
    match determinacy_on_care(alloc, question)? {
        Determinacy::Determined { loose } => judge_by_invariance(alloc, question, loose),
        Determinacy::Unknown { vector, gate } => {
            let refusal = refusal_at(question.net(), vector, gate);
            Ok(Some(Judgement::Refused(refusal)))
        }
        Determinacy::Undecided => Ok(None),
    }
}

/// The judgement by clauses, or none where the solver gave up in a search.
#[tactic(auto, using(crate::proofs::WitnessLemmas::exact_refusal))]
fn judge_soon(alloc: Global, question: &Question<'_>) -> Result<Option<Judgement>, AllocError>
    ensures { IfOk result (λ found. IfSome found (IsSomeJudgementOf question.now)) }
{
    question.laws();
    match begin(alloc, question)? {
        Beginning::Refused(refusal) => Ok(Some(Judgement::Refused(refusal))),
        Beginning::Care => some_judgement(alloc, question),
        Beginning::Undecided => Ok(None),
    }
}

/// Judges a netlist on a care set as `judge` does, but where an observed wire is undetermined on care the refusal has any
/// such wire, and any care vector at which it is. That takes one question, where the first wire and the least vector take
/// many. The marks are those of loops that are settled by themselves (`settled_loops`), which hold for each care set.
///
/// The faults are those of `judge`, with the same causes.
///
/// The condition is that the care set and the marks are the netlist's, and that the limit is at most 50,000,000.
#[tactic(auto, using(crate::proofs::WitnessLemmas::exact_judgement))]
pub fn judge_with_witness(
    alloc: Global,
    d: &mut Diagrams,
    looped: &LoopedNetlist<'_>,
    care: &Care,
    settled: &[bool],
    limit: u32,
    observe: Observe,
) -> Result<Judgement, DecideFault>
    requires care { IsCareOf looped.now.net care.now }
    requires width { length settled.now ≡ length looped.now.blocks.list }
    requires settled { SettleInOneSweep looped.now.net looped.now.blocks settled.now }
    requires limit { limit ≤ MAX_NODES }
    ensures judgement { IfOk result (IsSomeJudgement looped.now.net care.now observe) }
    ensures fault { IfErr result (λ fault. (fault ≡ DecideFault.Memory) ⊎ (fault ≡ DecideFault.NodeLimit limit)) }
    ensures cause { result ≡ Err (DecideFault.NodeLimit limit) → IsOutOfNodes d.new looped.now.net care.now limit }
    ensures enough { result ≡ Err (DecideFault.NodeLimit limit) → IsBelowEnough looped.now.net care.now limit }
{
    let Ok(ground) = ground_among(alloc, looped, settled) else {
        return Err(DecideFault::Memory);
    };
    let asked = Asked::new(looped, care, observe, &ground.order);
    let question = Question::new(&asked, &ground);
    question.laws();
    match judge_soon(alloc, &question) {
        Ok(Some(judgement)) => Ok(judgement),
        Ok(None) => judge_anew(alloc, d, &question, limit),
        Err(AllocError) => Err(DecideFault::Memory),
    }
}
