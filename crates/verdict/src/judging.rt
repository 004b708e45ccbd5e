//! The judgement: by clauses, else by diagrams.

ghost use Rattle.std.specs.Prelude.{◌≡◌, ◌≤◌, ◌⊎◌, IfOk, IfErr, IfSome};
ghost use Rattle.netlist.specs.Netlists.{columns};
ghost use Rattle.care_sets.specs.Binding.{IsCareOf};
ghost use Rattle.loops.specs.Blocks.{AreBlocksOf};
ghost use Rattle.loops.specs.Cuts.{IsCutOf};
ghost use Rattle.diagram_decision.specs.Causes.{IsOutOfNodes};
ghost use Rattle.diagram_decision.specs.Enough.{IsFullFor, IsBelowEnough};
ghost use Rattle.verdict.specs.Questions.{IsJudgementOf};
ghost use Rattle.diagram_decision.specs.Judgements.{IsJudgement};

use crate::clauses::judge_by_clauses;
use crate::fault::DecideFault;
use crate::ground::ground_of;
use crate::question::Question;
use bdd_ops::Diagrams;
use bdd_store::StoreFault;
use care_sets::Care;
use cyc_base::MAX_NODES;
use diagram_decision::{
    Judgement, Question as Asked, fit_all, judge_by_diagrams, judge_on, limit_of,
};
use fixpoint::column_rails;
use loops::{Blocks, Cut, LoopedNetlist};
use netlist::Netlist;
use refusals::Observe;
use std::alloc::{AllocError, Global};

/// How many nodes the diagrams may have that are tried between the searches by clauses.
pub(crate) const FEW_NODES: u32 = 200_000;

/// What is tried before the handed-in diagrams are filled: clauses for a while, diagrams for a while, and clauses for
/// long. A direction that is chosen by a parity, once as a chain and once as a tree, is quick for diagrams and endless for
/// clauses; a multiplier in a loop is the other way round.
fn early_judgement(
    alloc: Global,
    question: &Question<'_>,
    limit: u32,
) -> Result<Option<Judgement>, AllocError>
    requires { limit ≤ MAX_NODES }
    ensures { IfOk result (λ found. IfSome found (IsJudgementOf question.now)) }
{
    if let Some(judgement) = judge_by_clauses(alloc, question)? {
        return Ok(Some(judgement));
    }
    let few = limit.min(FEW_NODES);
    if let Some(judgement) = judge_by_diagrams(alloc, question.by_diagrams(), few)? {
        return Ok(Some(judgement));
    }
    judge_by_clauses(alloc, &question.for_long())
}

/// The judgement, on diagrams that have a variable for each column and no nodes. Where the columns don't fit, or a cover
/// of the netlist or of a care model, nothing else is tried.
fn judge_from_columns(
    alloc: Global,
    d: &mut Diagrams,
    question: &Question<'_>,
) -> Result<Judgement, StoreFault>
    requires { d.old.vars ≡ columns question.now.net }
    ensures judgement { IfOk result (IsJudgementOf question.now) }
    ensures full { result ≡ Err StoreFault.Full → IsFullFor d.old d.new question.now.net question.now.care }
{
    let rails = column_rails(alloc, d, question.order())?;
    let limit = limit_of(d);
    fit_all(alloc, question.net(), question.care(), limit)?;
    match early_judgement(alloc, question, limit)? {
        Some(judgement) => Ok(judgement),
        None => judge_on(alloc, d, question.by_diagrams(), &rails),
    }
}

/// The judgement on diagrams that are started anew.
pub(crate) fn judge_anew(
    alloc: Global,
    d: &mut Diagrams,
    question: &Question<'_>,
    limit: u32,
) -> Result<Judgement, DecideFault>
    requires { limit ≤ MAX_NODES }
    ensures judgement { IfOk result (IsJudgementOf question.now) }
    ensures fault { IfErr result (λ fault. (fault ≡ DecideFault.Memory) ⊎ (fault ≡ DecideFault.NodeLimit limit)) }
    ensures cause { result ≡ Err (DecideFault.NodeLimit limit) → IsOutOfNodes d.new question.now.net question.now.care limit }
    ensures enough { result ≡ Err (DecideFault.NodeLimit limit) → IsBelowEnough question.now.net question.now.care limit }
{
    if d.start(question.net().columns(), limit).is_err() {
        return Err(DecideFault::Memory);
    }
    match judge_from_columns(alloc, d, question) {
        Ok(judgement) => Ok(judgement),
        Err(StoreFault::Full) => Err(DecideFault::NodeLimit { nodes: limit }),
        Err(StoreFault::Memory) => Err(DecideFault::Memory),
    }
}

/// Judges a netlist on a care set, by ternary simulation of all care vectors at once (Malik 1994; Shiple, Berry
/// and Touati 1996): whether it is accepted, as `decide` says, without the sweeps that its loops need, which take longer to
/// find in many netlists. It starts the diagrams anew, with a variable for each column and the limit. The columns are laid
/// on the variables in the order in which gates first read them (`fixpoint::order`). Least states and vectors are
/// least by column all the same.
///
/// The answer is `Accepted` exactly where each permitted initial state is in the invariant, a care vector exists,
/// and on every care vector each observed signal is determined and the next state is in the invariant; then with the
/// number of gates that are unknown at some care vector. Else it is the refusal of the first of these parts that fails,
/// with its least state or vector.
///
/// `NodeLimit` carries the limit, and comes only where the diagrams have the netlist's columns as variables and this
/// limit, and hold as many nodes as the call ends, or a cover of the netlist or of a care model has more. It never
/// comes at a limit of at least `16 * w * (G + 2) * (E + V + 4)` (`enough`), for each w that is wide for the functions
/// of the decision, laid on the variables in that order: G are the gates of the netlist and of both care models, E is
/// their effort, and V is the number of columns. Nothing more is said of the diagrams after the call.
///
/// The condition is that blocks, cut and care are the netlist's, and that the limit is at most 50,000,000.
pub fn judge(
    alloc: Global,
    d: &mut Diagrams,
    net: &Netlist,
    blocks: &Blocks,
    cut: &Cut,
    care: &Care,
    limit: u32,
    observe: Observe,
) -> Result<Judgement, DecideFault>
    requires blocks { AreBlocksOf net.now blocks.now }
    requires cut { IsCutOf net.now cut.now }
    requires care { IsCareOf net.now care.now }
    requires limit { limit ≤ MAX_NODES }
    ensures judgement { IfOk result (IsJudgement net.now care.now observe) }
    ensures fault { IfErr result (λ fault. (fault ≡ DecideFault.Memory) ⊎ (fault ≡ DecideFault.NodeLimit limit)) }
    ensures cause { result ≡ Err (DecideFault.NodeLimit limit) → IsOutOfNodes d.new net.now care.now limit }
    ensures enough { result ≡ Err (DecideFault.NodeLimit limit) → IsBelowEnough net.now care.now limit }
{
    let looped = LoopedNetlist::new(net, blocks, cut);
    let Ok(ground) = ground_of(alloc, &looped) else {
        return Err(DecideFault::Memory);
    };
    let asked = Asked::new(&looped, care, observe, &ground.order);
    let question = Question::new(&asked, &ground);
    judge_anew(alloc, d, &question, limit)
}
