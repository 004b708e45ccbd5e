//! What is decided before the gates: the initial states, and whether any vector counts.

ghost use Rattle.std.specs.Prelude.{◌≡◌, ◌+◌, ◌*◌, IfOk};
ghost use Rattle.netlist.specs.Netlists.{columns};
ghost use Rattle.care_sets.specs.Care.{is_care_vector};
ghost use Rattle.diagram_decision.specs.Costs.{assume_effort, invariant_effort, set_cost, start_cost};
ghost use Rattle.diagram_decision.specs.Enough.{GrowsInDecision};
ghost use Rattle.fixpoint.specs.Columns.{AreColumns};
ghost use Rattle.fixpoint.specs.Orders.{order as order_of};
ghost use Rattle.diagram_decision.specs.Sets.{Tells, has_state_inside};
ghost use Rattle.diagram_decision.specs.Judgements.{IsStart};

use crate::care::{assume_on, invariant_on};
use crate::initial::starts_on;
use crate::question::Question;
use crate::refusing::initial_refusal;
use crate::sets::is_never;
use bdd_ops::Diagrams;
use bdd_store::{Node, StoreFault};
use dual_rail::Rails;
use refusals::Refusal;
use std::alloc::Global;

/// How far the decision comes without the gates.
#[derive(Drop)]
pub enum Start {
    /// The vectors of care, of which there are some.
    Care(Node),
    Refused(Refusal),
}

/// The vectors whose states are in the invariant.
fn inside_on(
    alloc: Global,
    d: &mut Diagrams,
    question: &Question<'_>,
    rails: &[Rails],
) -> Result<Node, StoreFault>
    requires vars { d.old.vars ≡ columns question.now.net }
    requires columns { AreColumns d.old (order_of question.now.net) rails.now }
    ensures told { IfOk result (λ set. Tells question.now.net d.new set (has_state_inside question.now.net question.now.care)) }
    ensures grows { GrowsInDecision result d.old d.new question.now.net question.now.care (2 * invariant_effort question.now.care) }
{
    let first = question.net().inputs();
    let latches = &rails[first as usize..];
    invariant_on(alloc, d, question.care(), first, latches)
}

/// The vectors of care: those with a state in the invariant on which the assumption holds.
fn care_on(
    alloc: Global,
    d: &mut Diagrams,
    question: &Question<'_>,
    inside: Node,
    rails: &[Rails],
) -> Result<Node, StoreFault>
    requires vars { d.old.vars ≡ columns question.now.net }
    requires columns { AreColumns d.old (order_of question.now.net) rails.now }
    requires inside { Tells question.now.net d.old inside (has_state_inside question.now.net question.now.care) }
    ensures told { IfOk result (λ set. Tells question.now.net d.new set (is_care_vector question.now.net question.now.care)) }
    ensures grows { GrowsInDecision result d.old d.new question.now.net question.now.care (2 * assume_effort question.now.care + 1) }
{
    let allowed = assume_on(alloc, d, question.care(), rails)?;
    d.and(inside, allowed)
}

/// The vectors of care, whatever the initial states are.
pub(crate) fn all_care_on(
    alloc: Global,
    d: &mut Diagrams,
    question: &Question<'_>,
    rails: &[Rails],
) -> Result<Node, StoreFault>
    requires vars { d.old.vars ≡ columns question.now.net }
    requires columns { AreColumns d.old (order_of question.now.net) rails.now }
    ensures told { IfOk result (λ set. Tells question.now.net d.new set (is_care_vector question.now.net question.now.care)) }
    ensures grows { GrowsInDecision result d.old d.new question.now.net question.now.care (set_cost question.now.care) }
{
    let inside = inside_on(alloc, d, question, rails)?;
    care_on(alloc, d, question, inside, rails)
}

/// The vectors of care, or the refusal of an initial state or of an empty care set.
pub(crate) fn begin(
    alloc: Global,
    d: &mut Diagrams,
    question: &Question<'_>,
    rails: &[Rails],
) -> Result<Start, StoreFault>
    requires vars { d.old.vars ≡ columns question.now.net }
    requires columns { AreColumns d.old (order_of question.now.net) rails.now }
    ensures start { IfOk result (IsStart question.now.net question.now.care d.new) }
    ensures grows { GrowsInDecision result d.old d.new question.now.net question.now.care (start_cost question.now.net question.now.care) }
{
    let inside = inside_on(alloc, d, question, rails)?;
    let permitted = starts_on(d, question.net(), question.order(), rails)?;
    if let Some(refusal) = initial_refusal(alloc, d, question, permitted, inside)? {
        return Ok(Start::Refused(refusal));
    }
    let set = care_on(alloc, d, question, inside, rails)?;
    if is_never(d, set) {
        return Ok(Start::Refused(Refusal::EmptyCare));
    }
    Ok(Start::Care(set))
}
