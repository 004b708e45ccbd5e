//! The sweeps of the loops of an accepted netlist, by diagrams.

ghost use Rattle.std.specs.Prelude.{◌≡◌, ◌≤◌, ◌+◌, Err, IfOk, IfSome};
ghost use Rattle.netlist.specs.Netlists.{columns};
ghost use Rattle.care_sets.specs.Care.{is_care_vector};
ghost use Rattle.fixpoint.specs.Orders.{order as order_of};
ghost use Rattle.fixpoint.specs.Columns.{AreColumns};
ghost use Rattle.diagram_decision.specs.Costs.{counting_cost, solving_cost, sweeps_cost};
ghost use Rattle.diagram_decision.specs.Enough.{AddsInDecision, GrowsInDecision, IsFullFor};
ghost use Rattle.diagram_decision.specs.Judgements.{IsSolvedWhole};
ghost use Rattle.diagram_decision.specs.Questions.{AreCountsOf};
ghost use Rattle.diagram_decision.specs.Sets.{Tells};

use crate::beginning::all_care_on;
use crate::diagrams::solve_whole;
use crate::question::Question;
use crate::solving::Fixpoint;
use bdd_ops::Diagrams;
use bdd_store::{Node, StoreFault};
use cyc_base::MAX_NODES;
use dual_rail::Rails;
use fixpoint::laws::solutions;
use fixpoint::{column_rails, sweeps};
use loops::SweepCounts;
use std::alloc::{AllocError, Global};

/// The sweeps that the loops of a solved netlist need on its care vectors, which are kept beside it.
fn count_solved(
    alloc: Global,
    d: &mut Diagrams,
    question: &Question<'_>,
    found: &Fixpoint,
) -> Result<SweepCounts, StoreFault>
    requires solved { IsSolvedWhole question.now.net question.now.blocks question.now.cut d.old found.now }
    requires set { Tells question.now.net d.old found.now.set (is_care_vector question.now.net question.now.care) }
    ensures counts { IfOk result (AreCountsOf question.now) }
    ensures grows { GrowsInDecision result d.old d.new question.now.net question.now.care (sweeps_cost question.now.net) }
{
    solutions();
    d.store().laws();
    sweeps(alloc, d, &found.solved, question.blocks(), found.set)
}

/// The sweeps by all gates of the netlist, which is solved here on these rails of its columns. `set` are the vectors of care.
fn count_whole(
    alloc: Global,
    d: &mut Diagrams,
    question: &Question<'_>,
    rails: &[Rails],
    set: Node,
) -> Result<SweepCounts, StoreFault>
    requires vars { d.old.vars ≡ columns question.now.net }
    requires columns { AreColumns d.old (order_of question.now.net) rails.now }
    requires set { Tells question.now.net d.old set (is_care_vector question.now.net question.now.care) }
    ensures counts { IfOk result (AreCountsOf question.now) }
    ensures vars { d.new.vars ≡ d.old.vars }
    ensures limit { d.new.limit ≡ d.old.limit }
    ensures adds { AddsInDecision result d.old d.new question.now.net question.now.care (solving_cost question.now.net + sweeps_cost question.now.net) }
{
    let found = solve_whole(alloc, d, question, rails, set)?;
    count_solved(alloc, d, question, &found)
}

/// The sweeps by diagrams, which have a variable for each column. These are the rails of the columns.
fn count_on(
    alloc: Global,
    d: &mut Diagrams,
    question: &Question<'_>,
    rails: &[Rails],
) -> Result<SweepCounts, StoreFault>
    requires vars { d.old.vars ≡ columns question.now.net }
    requires columns { AreColumns d.old (order_of question.now.net) rails.now }
    ensures counts { IfOk result (AreCountsOf question.now) }
    ensures vars { d.new.vars ≡ d.old.vars }
    ensures limit { d.new.limit ≡ d.old.limit }
    ensures adds { AddsInDecision result d.old d.new question.now.net question.now.care (counting_cost question.now.net question.now.care) }
{
    let set = all_care_on(alloc, d, question, rails)?;
    count_whole(alloc, d, question, rails, set)
}

/// The sweeps of loops on care, by diagrams that have a variable for each column and no nodes. `Full` comes only where the
/// diagrams hold as many nodes as they may, or a cover has more, and below what is enough (`enough`).
///
/// The condition is that the variables are the netlist's columns.
pub fn count_from_columns(
    alloc: Global,
    d: &mut Diagrams,
    question: &Question<'_>,
) -> Result<SweepCounts, StoreFault>
    requires { d.old.vars ≡ columns question.now.net }
    ensures counts { IfOk result (AreCountsOf question.now) }
    ensures full { result ≡ Err StoreFault.Full → IsFullFor d.old d.new question.now.net question.now.care }
{
    let rails = column_rails(alloc, d, question.order())?;
    count_on(alloc, d, question, &rails)
}

/// The sweeps by diagrams of their own, of at most so many nodes, or none where these don't do.
///
/// The condition is that the limit is at most 50,000,000.
pub fn counts_by_diagrams(
    alloc: Global,
    question: &Question<'_>,
    limit: u32,
) -> Result<Option<SweepCounts>, AllocError>
    requires { limit ≤ MAX_NODES }
    ensures { IfOk result (λ found. IfSome found (AreCountsOf question.now)) }
{
    let net = question.net();
    let mut d = Diagrams::new(alloc, net.columns(), limit)?;
    match count_from_columns(alloc, &mut d, question) {
        Ok(counts) => Ok(Some(counts)),
        Err(StoreFault::Full) => Ok(None),
        Err(StoreFault::Memory) => Err(AllocError),
    }
}
