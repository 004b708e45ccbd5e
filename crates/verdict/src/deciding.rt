//! The decision: the judgement, and then the sweeps of loops.

ghost use Rattle.std.specs.Prelude.{◌≡◌, ◌≤◌, ◌⊎◌, IfOk, IfErr, IfSome};
ghost use Rattle.care_sets.specs.Binding.{IsCareOf};
ghost use Rattle.loops.specs.Blocks.{AreBlocksOf};
ghost use Rattle.loops.specs.Cuts.{IsCutOf};
ghost use Rattle.diagram_decision.specs.Causes.{IsOutOfNodes};
ghost use Rattle.diagram_decision.specs.Enough.{IsBelowEnough};
ghost use Rattle.verdict.specs.Questions.{AreCountsOf, IsJudgementOf, IsVerdictOf};
ghost use Rattle.verdict.specs.Verdicts.{IsVerdict};

use crate::counting::counts_by_clauses;
use crate::fault::DecideFault;
use crate::ground::ground_of;
use crate::judging::{FEW_NODES, judge_anew};
use crate::question::Question;
use crate::verdict::Verdict;
use bdd_ops::Diagrams;
use bdd_store::StoreFault;
use care_sets::Care;
use cyc_base::MAX_NODES;
use diagram_decision::{Judgement, Question as Asked, count_from_columns, counts_by_diagrams};
use loops::{Blocks, Cut, LoopedNetlist, SweepCounts};
use netlist::Netlist;
use refusals::Observe;
use std::alloc::{AllocError, Global};

/// What is tried before the handed-in diagrams are filled: clauses for a while, diagrams for a while, and clauses for long.
fn early_counts(
    alloc: Global,
    question: &Question<'_>,
    loose: u32,
    limit: u32,
) -> Result<Option<SweepCounts>, AllocError>
    requires accepted { IsJudgementOf question.now (Judgement.Accepted loose) }
    requires limit { limit ≤ MAX_NODES }
    ensures { IfOk result (λ found. IfSome found (AreCountsOf question.now)) }
{
    if let Some(counts) = counts_by_clauses(alloc, question, loose)? {
        return Ok(Some(counts));
    }
    let few = limit.min(FEW_NODES);
    if let Some(counts) = counts_by_diagrams(alloc, question.by_diagrams(), few)? {
        return Ok(Some(counts));
    }
    counts_by_clauses(alloc, &question.for_long(), loose)
}

/// The sweeps by diagrams that are started anew.
fn count_anew(
    alloc: Global,
    d: &mut Diagrams,
    question: &Question<'_>,
    limit: u32,
) -> Result<SweepCounts, DecideFault>
    requires { limit ≤ MAX_NODES }
    ensures counts { IfOk result (AreCountsOf question.now) }
    ensures fault { IfErr result (λ fault. (fault ≡ DecideFault.Memory) ⊎ (fault ≡ DecideFault.NodeLimit limit)) }
    ensures cause { result ≡ Err (DecideFault.NodeLimit limit) → IsOutOfNodes d.new question.now.net question.now.care limit }
    ensures enough { result ≡ Err (DecideFault.NodeLimit limit) → IsBelowEnough question.now.net question.now.care limit }
{
    if d.start(question.net().columns(), limit).is_err() {
        return Err(DecideFault::Memory);
    }
    match count_from_columns(alloc, d, question.by_diagrams()) {
        Ok(counts) => Ok(counts),
        Err(StoreFault::Full) => Err(DecideFault::NodeLimit { nodes: limit }),
        Err(StoreFault::Memory) => Err(DecideFault::Memory),
    }
}

/// The sweeps of an accepted netlist.
fn count(
    alloc: Global,
    d: &mut Diagrams,
    question: &Question<'_>,
    loose: u32,
    limit: u32,
) -> Result<SweepCounts, DecideFault>
    requires accepted { IsJudgementOf question.now (Judgement.Accepted loose) }
    requires limit { limit ≤ MAX_NODES }
    ensures counts { IfOk result (AreCountsOf question.now) }
    ensures fault { IfErr result (λ fault. (fault ≡ DecideFault.Memory) ⊎ (fault ≡ DecideFault.NodeLimit limit)) }
    ensures cause { result ≡ Err (DecideFault.NodeLimit limit) → IsOutOfNodes d.new question.now.net question.now.care limit }
    ensures enough { result ≡ Err (DecideFault.NodeLimit limit) → IsBelowEnough question.now.net question.now.care limit }
{
    match early_counts(alloc, question, loose, limit) {
        Ok(Some(counts)) => Ok(counts),
        Ok(None) => count_anew(alloc, d, question, limit),
        Err(AllocError) => Err(DecideFault::Memory),
    }
}

/// The verdict of a netlist that was judged.
fn verdict_of(
    alloc: Global,
    d: &mut Diagrams,
    question: &Question<'_>,
    judgement: Judgement,
    limit: u32,
) -> Result<Verdict, DecideFault>
    requires judgement { IsJudgementOf question.now judgement }
    requires limit { limit ≤ MAX_NODES }
    ensures verdict { IfOk result (IsVerdictOf question.now) }
    ensures fault { IfErr result (λ fault. (fault ≡ DecideFault.Memory) ⊎ (fault ≡ DecideFault.NodeLimit limit)) }
    ensures cause { result ≡ Err (DecideFault.NodeLimit limit) → IsOutOfNodes d.new question.now.net question.now.care limit }
    ensures enough { result ≡ Err (DecideFault.NodeLimit limit) → IsBelowEnough question.now.net question.now.care limit }
{
    match judgement {
        Judgement::Accepted { loose } => {
            match count(alloc, d, question, loose, limit) {
                Ok(sweeps) => Ok(Verdict::Accepted { sweeps, loose }),
                Err(fault) => Err(fault),
            }
        }
        Judgement::Refused(refusal) => Ok(Verdict::Refused(refusal)),
    }
}

/// Decides a netlist on a care set: judges it, and finds the sweeps that each loop needs on care where it is accepted. It
/// starts the diagrams anew, once or twice, as `judge` does.
///
/// The answer is `Accepted` exactly where `judge` says so, then with the number of sweeps that each loop needs on care, and
/// the number of gates that are unknown at some care vector. Else it is the refusal that `judge` answers.
///
/// `NodeLimit` carries the limit, and comes only where the diagrams have the netlist's columns as variables and this
/// limit, and hold as many nodes as the call ends, or a cover of the netlist or of a care model has more. It never
/// comes at a limit of at least `16 * w * (G + 2) * (E + V + 4)` (`enough`), for each w that is wide for the functions
/// of the decision, laid on the variables in the order of `fixpoint::order`: G are the gates of the netlist and of both
/// care models, E is their effort, and V is the number of columns. Nothing more is said of the diagrams after the call.
///
/// The condition is that blocks, cut and care are the netlist's, and that the limit is at most 50,000,000.
pub fn decide(
    alloc: Global,
    d: &mut Diagrams,
    net: &Netlist,
    blocks: &Blocks,
    cut: &Cut,
    care: &Care,
    limit: u32,
    observe: Observe,
) -> Result<Verdict, DecideFault>
    requires blocks { AreBlocksOf net.now blocks.now }
    requires cut { IsCutOf net.now cut.now }
    requires care { IsCareOf net.now care.now }
    requires limit { limit ≤ MAX_NODES }
    ensures verdict { IfOk result (IsVerdict net.now blocks.now cut.now care.now observe) }
    ensures fault { IfErr result (λ fault. (fault ≡ DecideFault.Memory) ⊎ (fault ≡ DecideFault.NodeLimit limit)) }
    ensures cause { result ≡ Err (DecideFault.NodeLimit limit) → IsOutOfNodes d.new net.now care.now limit }
    ensures enough { result ≡ Err (DecideFault.NodeLimit limit) → IsBelowEnough net.now care.now limit }
{
    let looped = LoopedNetlist::new(net, blocks, cut);
    let Ok(ground) = ground_of(alloc, &looped) else {
        return Err(DecideFault::Memory);
    };
    let asked = Asked::new(&looped, care, observe, &ground.order);
    let question = Question::new(&asked, &ground);
    match judge_anew(alloc, d, &question, limit) {
        Ok(judgement) => verdict_of(alloc, d, &question, judgement, limit),
        Err(fault) => Err(fault),
    }
}
