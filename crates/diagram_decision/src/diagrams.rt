//! The decision by diagrams: all care vectors at once, on the fixpoint of the whole netlist.

ghost use Rattle.std.specs.Prelude.{◌≡◌, ◌≤◌, ◌+◌, IfOk, IfSome};
ghost use Rattle.netlist.specs.Netlists.{columns};
ghost use Rattle.care_sets.specs.Care.{is_care_vector};
ghost use Rattle.fixpoint.specs.Orders.{order as order_of};
ghost use Rattle.diagram_decision.specs.Costs.{care_cost, judging_cost, solving_cost, start_cost};
ghost use Rattle.diagram_decision.specs.Enough.{AddsInDecision, GrowsInDecision};
ghost use Rattle.diagram_decision.specs.Sets.{AreFixed, Tells};
ghost use Rattle.fixpoint.specs.Columns.{AreColumns};
ghost use Rattle.diagram_decision.specs.Judgements.{refusal_on_care, IsCareStart, IsGateVerdict, IsSolvedWhole};
ghost use Rattle.diagram_decision.specs.Questions.{IsJudgementOf};

use crate::beginning::{Start, begin};
use crate::gate_verdict::GateVerdict;
use crate::judgement::Judgement;
use crate::question::Question;
use crate::refusing::{leaves, verdict_of_gates};
use crate::solving::{Fixpoint, solve_beside};
use bdd_ops::Diagrams;
use bdd_store::{Node, StoreFault};
use cyc_base::MAX_NODES;
use dual_rail::Rails;
use fixpoint::column_rails;
use std::alloc::{AllocError, Global};

/// The refusal of an undetermined gate that is observed, or else of a state that leaves the invariant, or else how
/// many gates are unknown on care. The netlist's fixpoint is found beside the vectors of care.
fn verdict_on_care(
    alloc: Global,
    d: &mut Diagrams,
    question: &Question<'_>,
    found: &Fixpoint,
) -> Result<GateVerdict, StoreFault>
    requires vars { d.old.vars ≡ columns question.now.net }
    requires fixed { AreFixed question.now.net d.old found.now.rails }
    requires set { Tells question.now.net d.old found.now.set (is_care_vector question.now.net question.now.care) }
    ensures gates { IfOk result (IsGateVerdict (refusal_on_care question.now.net question.now.care question.now.what) question.now.net question.now.care) }
    ensures grows { GrowsInDecision result d.old d.new question.now.net question.now.care (care_cost question.now.net question.now.care) }
{
    let gates = verdict_of_gates(alloc, d, question, found)?;
    let loose = match gates {
        GateVerdict::Determined { loose } => loose,
        GateVerdict::Refused(refusal) => return Ok(GateVerdict::Refused(refusal)),
    };
    let left = leaves(alloc, d, question, found)?;
    match left {
        Some(refusal) => Ok(GateVerdict::Refused(refusal)),
        None => Ok(GateVerdict::Determined { loose }),
    }
}

/// The judgement of a solved netlist, beside which its care vectors are kept.
fn judge_solved(
    alloc: Global,
    d: &mut Diagrams,
    question: &Question<'_>,
    found: &Fixpoint,
) -> Result<Judgement, StoreFault>
    requires vars { d.old.vars ≡ columns question.now.net }
    requires fixed { AreFixed question.now.net d.old found.now.rails }
    requires start { IsCareStart question.now.net question.now.care d.old found.now.set }
    ensures judgement { IfOk result (IsJudgementOf question.now) }
    ensures grows { GrowsInDecision result d.old d.new question.now.net question.now.care (care_cost question.now.net question.now.care) }
{
    question.laws();
    match verdict_on_care(alloc, d, question, found)? {
        GateVerdict::Determined { loose } => Ok(Judgement::Accepted { loose }),
        GateVerdict::Refused(refusal) => Ok(Judgement::Refused(refusal)),
    }
}

/// The netlist solved on these rails of its columns, beside the vectors of care.
pub(crate) fn solve_whole(
    alloc: Global,
    d: &mut Diagrams,
    question: &Question<'_>,
    rails: &[Rails],
    set: Node,
) -> Result<Fixpoint, StoreFault>
    requires vars { d.old.vars ≡ columns question.now.net }
    requires columns { AreColumns d.old (order_of question.now.net) rails.now }
    requires set { Tells question.now.net d.old set (is_care_vector question.now.net question.now.care) }
    ensures solved { IfOk result (IsSolvedWhole question.now.net question.now.blocks question.now.cut d.new) }
    ensures set { IfOk result (λ found. Tells question.now.net d.new found.set (is_care_vector question.now.net question.now.care)) }
    ensures vars { d.new.vars ≡ d.old.vars }
    ensures limit { d.new.limit ≡ d.old.limit }
    ensures adds { AddsInDecision result d.old d.new question.now.net question.now.care (solving_cost question.now.net) }
{
    d.store().laws();
    solve_beside(alloc, d, question.looped(), rails, set)
}

/// The judgement by all gates of the netlist, which is solved here on these rails of its columns. `set` are the vectors of
/// care.
fn judge_whole(
    alloc: Global,
    d: &mut Diagrams,
    question: &Question<'_>,
    rails: &[Rails],
    set: Node,
) -> Result<Judgement, StoreFault>
    requires vars { d.old.vars ≡ columns question.now.net }
    requires columns { AreColumns d.old (order_of question.now.net) rails.now }
    requires start { IsCareStart question.now.net question.now.care d.old set }
    ensures judgement { IfOk result (IsJudgementOf question.now) }
    ensures vars { d.new.vars ≡ d.old.vars }
    ensures limit { d.new.limit ≡ d.old.limit }
    ensures adds { AddsInDecision result d.old d.new question.now.net question.now.care (judging_cost question.now.net question.now.care) }
{
    let found = solve_whole(alloc, d, question, rails, set)?;
    judge_solved(alloc, d, question, &found)
}

/// The judgement by diagrams, which have a variable for each column. These are the rails of the columns. `Full` comes only
/// where the diagrams hold as many nodes as they may, or a cover of the netlist or of a care model has more.
///
/// The condition is that the variables and the rails are those of the netlist's columns, in the order of `fixpoint::order`.
pub fn judge_on(
    alloc: Global,
    d: &mut Diagrams,
    question: &Question<'_>,
    rails: &[Rails],
) -> Result<Judgement, StoreFault>
    requires vars { d.old.vars ≡ columns question.now.net }
    requires columns { AreColumns d.old (order_of question.now.net) rails.now }
    ensures judgement { IfOk result (IsJudgementOf question.now) }
    ensures vars { d.new.vars ≡ d.old.vars }
    ensures limit { d.new.limit ≡ d.old.limit }
    ensures adds { AddsInDecision result d.old d.new question.now.net question.now.care (start_cost question.now.net question.now.care + judging_cost question.now.net question.now.care) }
{
    match begin(alloc, d, question, rails)? {
        Start::Care(set) => judge_whole(alloc, d, question, rails, set),
        Start::Refused(refusal) => Ok(Judgement::Refused(refusal)),
    }
}

/// The judgement by diagrams that have a variable for each column and no nodes.
fn judge_from_columns(
    alloc: Global,
    d: &mut Diagrams,
    question: &Question<'_>,
) -> Result<Judgement, StoreFault>
    requires { d.old.vars ≡ columns question.now.net }
    ensures { IfOk result (IsJudgementOf question.now) }
{
    let rails = column_rails(alloc, d, question.order())?;
    judge_on(alloc, d, question, &rails)
}

/// The judgement by diagrams of their own, of at most so many nodes, or none where these don't do.
///
/// The condition is that the limit is at most 50,000,000.
pub fn judge_by_diagrams(
    alloc: Global,
    question: &Question<'_>,
    limit: u32,
) -> Result<Option<Judgement>, AllocError>
    requires { limit ≤ MAX_NODES }
    ensures { IfOk result (λ found. IfSome found (IsJudgementOf question.now)) }
{
    let net = question.net();
    let mut d = Diagrams::new(alloc, net.columns(), limit)?;
    match judge_from_columns(alloc, &mut d, question) {
        Ok(judgement) => Ok(Some(judgement)),
        Err(StoreFault::Full) => Ok(None),
        Err(StoreFault::Memory) => Err(AllocError),
    }
}
