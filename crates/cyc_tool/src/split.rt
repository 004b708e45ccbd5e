// Accepted netlists that are split by cases.
ghost use Rattle.std.specs.Prelude.{IfOk, Some};
ghost use Rattle.commands.specs.Seen.{split_seen};
ghost use Rattle.commands.specs.Words.{Rewrites, WritesGraph};
ghost use Rattle.cyc_tool.specs.Calls.{IsAccepted};
ghost use Rattle.cyc_tool.specs.Problems.{decision_in};
ghost use Rattle.plain_commands.specs.Seen.{outcome_of};

use crate::decision::{tell_graph_of, tell_graphed, tell_outgrown, tell_rewriting, tell_rewritten};
use crate::problem::Accepted;
use bdd_ops::Diagrams;
use commands::{Cases, Encoding};
use plain_commands::Outcome;
use std::alloc::{AllocError, Global};

// Rewrites an accepted netlist by cases, and tells what comes of it.
fn tell_split(
    alloc: Global,
    accepted: &Accepted<'_>,
    cases: Cases,
    d: &mut Diagrams,
) -> Result<Outcome, AllocError>
    ensures { IfOk result (λ told. IsAccepted (decision_in accepted.now.problem) (Rewrites (Some cases.number)) (outcome_of told)) }
{
    let rewriting = accepted.make_loop_free_by(alloc, d, cases);
    tell_rewriting(alloc, &rewriting)
}

// Rewrites an accepted netlist by cases, and tells what comes of its graph.
fn tell_split_graph(
    alloc: Global,
    accepted: &Accepted<'_>,
    cases: Cases,
    encoding: Encoding,
    d: &mut Diagrams,
) -> Result<Outcome, AllocError>
    ensures { IfOk result (λ told. IsAccepted (decision_in accepted.now.problem) (WritesGraph encoding (Some cases.number)) (outcome_of told)) }
{
    let rewriting = accepted.make_loop_free_by(alloc, d, cases);
    match &rewriting {
        Ok(other) => tell_graph_of(alloc, other, encoding),
        Err(fault) => tell_outgrown(alloc, fault),
    }
}

// Rewrites an accepted netlist, by cases where there are some, and tells what comes of it.
pub(crate) fn tell_rewritten_in(
    alloc: Global,
    accepted: &Accepted<'_>,
    split: Option<Cases>,
    d: &mut Diagrams,
) -> Result<Outcome, AllocError>
    ensures { IfOk result (λ told. IsAccepted (decision_in accepted.now.problem) (Rewrites (split_seen split)) (outcome_of told)) }
{
    match split {
        None => tell_rewritten(alloc, accepted),
        Some(cases) => tell_split(alloc, accepted, cases, d),
    }
}

// The same of its graph.
pub(crate) fn tell_graphed_in(
    alloc: Global,
    accepted: &Accepted<'_>,
    split: Option<Cases>,
    encoding: Encoding,
    d: &mut Diagrams,
) -> Result<Outcome, AllocError>
    ensures { IfOk result (λ told. IsAccepted (decision_in accepted.now.problem) (WritesGraph encoding (split_seen split)) (outcome_of told)) }
{
    match split {
        None => tell_graphed(alloc, accepted, encoding),
        Some(cases) => tell_split_graph(alloc, accepted, cases, encoding, d),
    }
}
