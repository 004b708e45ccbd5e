// Decisions of netlists on their care sets.
ghost use Rattle.std.specs.Prelude.{◌≡◌, ◌≤◌, ℕ, IfOk, Some, None, length};
ghost use Rattle.aig_core.specs.Answers.{FitsNetlist};
ghost use Rattle.bdd_store.specs.Arena.{Arena};
ghost use Rattle.care_sets.specs.Binding.{IsCareOf};
ghost use Rattle.care_sets.specs.Care.{CareSet};
ghost use Rattle.commands.specs.Seen.{cells_seen, making_seen, purpose_seen, telling_seen};
ghost use Rattle.commands.specs.Words.{Demonstrates, Explains, Rewrites, WritesGraph};
ghost use Rattle.cyc_base.specs.declared.limits.TheConstants.{MAX_NODES as most_nodes, MAX_REWRITTEN_ITEMS};
ghost use Rattle.netlist.specs.Netlists.{IsNetlist, columns};
ghost use Rattle.netlist.specs.Walks.{IsLoopFree};
ghost use Rattle.netlist.specs.declared.parts.Parts.{Parts};
ghost use Rattle.refusals.specs.Acceptance.{Accepts};
ghost use Rattle.refusals.specs.declared.observe.Observe.{Observe as Observed};
ghost use Rattle.report.specs.Verdicts.{accepted_text, ring_line};
ghost use Rattle.rewriting.specs.Graphs.{most_columns};
ghost use Rattle.rewriting.specs.Rewriting.{rewritten as rewritten_netlist, rewritten_size as rewritten_size_of, IsLoopFreeForm, IsRewriting};
ghost use Rattle.diagram_decision.specs.Judgements.{AreLoose, IsJudgement};
ghost use Rattle.plain_commands.specs.Texts.{told as done, count_of_loops};
ghost use Rattle.cyc_tool.specs.Problems.{IsVerdictOn, decision_in};
ghost use Rattle.cyc_tool.specs.Answer.{IsRefusalOutcome};
ghost use Rattle.cyc_tool.specs.Calls.{IsAccepted, IsDecided};
ghost use Rattle.cyc_tool.specs.Endings.{where_outputs};
ghost use Rattle.plain_commands.specs.Plans.{Declines, Prints};
ghost use Rattle.cyc_tool.specs.Seen.{IsLimitOf, IsOutgrown, IsOverfull, IsToldOf, IsToldOfGraph};
ghost use Rattle.plain_commands.specs.Seen.{outcome_of};

use crate::explained::{tell_explained, tell_loops_explained};
use crate::problem::{Accepted, Problem, Refused};
use crate::split::{tell_graphed_in, tell_rewritten_in};
use bdd_ops::Diagrams;
use care_sets::Care;
use commands::{Cells, Encoding, Form, Making, Purpose, Telling};
use cyc_io::TextSink;
use feedback_cuts::NetlistLoops;
use loops::LoopedNetlist;
use netlist::Netlist;
use plain_commands::{
    Outcome, accepted_line, number_of_loops, on_err, on_out, status, tell_aiger, tell_declined,
    tell_limit, tell_netlist, tell_refused, tell_storm, tell_too_large,
};
use refusals::Observe;
use report::put_ring;
use rewriting::{AigFault, Built, graph, rewritten_gates};
use std::alloc::{AllocError, Global};
use unroll::UnrollFault;
use verdict::{DecideFault, Judgement, Verdict};

// The first number of ANDs that a graph can't have.
const TOO_MANY_ANDS: u64 = 4_000_001;

// What is asked of a decision.
#[derive(Clone, Copy, Drop)]
pub(crate) struct Task {
    // How many nodes it may take.
    pub limit: u32,
    // Which wires are observed.
    pub observe: Observe,
    pub purpose: Purpose,
}

// A number that is told only where the outputs alone are observed.
fn loose_told(observe: Observe, loose: u32) -> Option<u32>
    ensures { result ≡ where_outputs observe loose }
{
    match observe {
        Observe::All => None,
        Observe::Outputs => Some(loose),
    }
}

fn tell_accepted(
    alloc: Global,
    looped: &LoopedNetlist<'_>,
    loose: Option<u32>,
) -> Result<Outcome, AllocError>
    ensures { IfOk result (λ told. outcome_of told ≡ done (Prints (accepted_text looped.now.net (count_of_loops looped.now.net) loose))) }
{
    Ok(on_out(alloc, status::DONE, accepted_line(alloc, looped, loose)?))
}

// An accepted netlist has no storm.
fn tell_no_storm(
    alloc: Global,
    looped: &LoopedNetlist<'_>,
    loose: Option<u32>,
) -> Result<Outcome, AllocError>
    ensures { IfOk result (λ told. outcome_of told ≡ done (Declines (accepted_text looped.now.net (count_of_loops looped.now.net) loose))) }
{
    Ok(on_err(alloc, status::REFUSED, accepted_line(alloc, looped, loose)?))
}

// That the rewritten netlist is too large.
pub(crate) fn tell_outgrown(alloc: Global, fault: &UnrollFault) -> Result<Outcome, AllocError>
    ensures { IfOk result (λ told. IsOutgrown fault.now told) }
{
    match fault {
        UnrollFault::TooLarge { size } => tell_too_large(alloc, *size),
        UnrollFault::Memory => Err(AllocError),
    }
}

// What rewriting comes to: the text of the rewritten netlist, or that it is too large.
pub(crate) fn tell_rewriting(
    alloc: Global,
    rewriting: &Result<Netlist, UnrollFault>,
) -> Result<Outcome, AllocError>
    ensures { IfOk result (λ told. IsToldOf rewriting.now told) }
{
    match rewriting {
        Ok(other) => tell_netlist(alloc, other),
        Err(fault) => tell_outgrown(alloc, fault),
    }
}

// Rewrites an accepted netlist, and tells what comes of it.
pub(crate) fn tell_rewritten(alloc: Global, accepted: &Accepted<'_>) -> Result<Outcome, AllocError>
    ensures { IfOk result (λ told. IsAccepted (decision_in accepted.now.problem) (Rewrites None) (outcome_of told)) }
{
    let rewriting = accepted.make_loop_free(alloc);
    tell_rewriting(alloc, &rewriting)
}

// That the graph has too many ANDs.
fn tell_overfull(alloc: Global, fault: &AigFault) -> Result<Outcome, AllocError>
    ensures { IfOk result (λ told. IsOverfull fault.now told) }
{
    match fault {
        AigFault::TooLarge => tell_too_large(alloc, TOO_MANY_ANDS),
        AigFault::Memory => Err(AllocError),
    }
}

// What comes of the graph of a netlist: its text, or that it has too many ANDs.
fn tell_graph(
    alloc: Global,
    other: &Netlist,
    graph: &Result<Built, AigFault>,
    encoding: Encoding,
) -> Result<Outcome, AllocError>
    requires { IfOk graph.now (FitsNetlist other.now) }
    ensures { IfOk result (λ told. IsToldOfGraph encoding other.now graph.now told) }
{
    match graph {
        Ok(graph) => tell_aiger(alloc, other, graph, encoding),
        Err(fault) => tell_overfull(alloc, fault),
    }
}

// Makes the graph of a netlist without loops, and tells what comes of it.
pub(crate) fn tell_graph_of(
    alloc: Global,
    other: &Netlist,
    encoding: Encoding,
) -> Result<Outcome, AllocError>
    requires loop_free { IsLoopFree other.now }
    requires columns { columns other.now ≤ most_columns }
    ensures rewritten { IfOk result (λ told. (net : Parts) (care : CareSet) (observe : Observed) (limit : ℕ) → IsNetlist net → Accepts net care observe →
        rewritten_size_of net care ≤ MAX_REWRITTEN_ITEMS → IsRewriting net care other.now →
        IsAccepted record { net = net; care = care; limit = limit; observe = observe } (WritesGraph encoding None) (outcome_of told)) }
    ensures split { IfOk result (λ told. (net : Parts) (care : CareSet) (observe : Observed) (limit cases : ℕ) → IsNetlist net → Accepts net care observe →
        IsLoopFreeForm net care other.now →
        IsAccepted record { net = net; care = care; limit = limit; observe = observe } (WritesGraph encoding (Some cases)) (outcome_of told)) }
{
    let made = graph(alloc, other);
    tell_graph(alloc, other, &made, encoding)
}

// Rewrites an accepted netlist, and tells what comes of its graph.
pub(crate) fn tell_graphed(
    alloc: Global,
    accepted: &Accepted<'_>,
    encoding: Encoding,
) -> Result<Outcome, AllocError>
    ensures { IfOk result (λ told. IsAccepted (decision_in accepted.now.problem) (WritesGraph encoding None) (outcome_of told)) }
{
    let rewriting = accepted.make_loop_free(alloc);
    match &rewriting {
        Ok(other) => tell_graph_of(alloc, other, encoding),
        Err(fault) => tell_outgrown(alloc, fault),
    }
}

// How many gates the rewritten netlist of an accepted one has. It is made, unless it is too large.
fn count_rewritten(alloc: Global, accepted: &Accepted<'_>) -> Result<u64, AllocError>
    ensures { IfOk result (λ gates. gates ≡ length (rewritten_netlist accepted.now.problem.looped.net accepted.now.problem.care).gates) }
{
    match accepted.make_loop_free(alloc) {
        Ok(other) => Ok(u64::from(other.gates())),
        Err(UnrollFault::TooLarge { size: _ }) => Ok(rewritten_gates(&accepted.counted())),
        Err(UnrollFault::Memory) => Err(AllocError),
    }
}

fn tell_ring(
    alloc: Global,
    cells: Cells,
    looped: &LoopedNetlist<'_>,
    rewritten: u64,
) -> Result<Outcome, AllocError>
    ensures { IfOk result (λ told. outcome_of told ≡ done (Prints (ring_line (cells_seen cells) looped.now.net (count_of_loops looped.now.net) rewritten))) }
{
    let mut sink = TextSink::new(alloc);
    match put_ring(
        cells.number,
        looped.net(),
        number_of_loops(looped),
        rewritten,
        &mut sink,
    ) {
        Ok(()) => Ok(on_out(alloc, status::DONE, sink.into_vec())),
        Err(_) => Err(AllocError),
    }
}

// What is told of a ring whose netlist is accepted.
fn demonstrate(alloc: Global, accepted: &Accepted<'_>, cells: Cells) -> Result<Outcome, AllocError>
    ensures { IfOk result (λ told. IsAccepted (decision_in accepted.now.problem) (Demonstrates (cells_seen cells)) (outcome_of told)) }
{
    let rewritten = count_rewritten(alloc, accepted)?;
    let problem = accepted.problem();
    tell_ring(alloc, cells, problem.looped(), rewritten)
}

// What is told of the loops of an accepted netlist.
fn explain_accepted(
    alloc: Global,
    accepted: &Accepted<'_>,
    form: Form,
) -> Result<Outcome, AllocError>
    ensures { IfOk result (λ told. IsAccepted (decision_in accepted.now.problem) (Explains form) (outcome_of told)) }
{
    let counted = accepted.counted();
    let problem = accepted.problem();
    let number = loose_told(problem.observe(), accepted.loose());
    tell_loops_explained(alloc, &counted, number, form)
}

// What is told of an accepted netlist whose verdict says all.
fn tell_accepted_for(
    alloc: Global,
    problem: &Problem<'_>,
    telling: Telling,
    loose: u32,
) -> Result<Outcome, AllocError>
    requires { AreLoose problem.now.looped.net problem.now.care loose }
    ensures { IfOk result (λ told. IsAccepted (decision_in problem.now) (telling_seen telling) (outcome_of told)) }
{
    let looped = problem.looped();
    let number = loose_told(problem.observe(), loose);
    match telling {
        Telling::Judge => tell_accepted(alloc, looped, number),
        Telling::Storm(_) => tell_no_storm(alloc, looped, number),
    }
}

// What is told of a refused one.
fn tell_refused_for(
    alloc: Global,
    refused: &Refused<'_>,
    telling: Telling,
) -> Result<Outcome, AllocError>
    ensures { IfOk result (λ told. IsRefusalOutcome refused.now.problem.looped.net (telling_seen telling) refused.now.refusal (outcome_of told)) }
{
    let net = refused.net();
    let refusal = refused.refusal();
    match telling {
        Telling::Judge => tell_refused(alloc, net, refusal),
        Telling::Storm(rounds) => tell_storm(alloc, net, refusal, rounds),
    }
}

// What is told of a judgement.
fn tell_judgement(
    alloc: Global,
    problem: &Problem<'_>,
    telling: Telling,
    judgement: &Judgement,
) -> Result<Outcome, AllocError>
    requires { IsJudgement problem.now.looped.net problem.now.care problem.now.observe judgement.now }
    ensures { IfOk result (λ told. (nodes : Arena) → IsDecided (decision_in problem.now) (telling_seen telling) nodes (outcome_of told)) }
{
    problem.laws();
    match judgement {
        Judgement::Accepted { loose } => tell_accepted_for(alloc, problem, telling, *loose),
        Judgement::Refused(refusal) => {
            let refused = Refused::new(problem, refusal);
            tell_refused_for(alloc, &refused, telling)
        }
    }
}

// What is told of an accepted netlist of which something is made.
fn tell_acceptance(
    alloc: Global,
    accepted: &Accepted<'_>,
    making: Making,
    d: &mut Diagrams,
) -> Result<Outcome, AllocError>
    ensures { IfOk result (λ told. IsAccepted (decision_in accepted.now.problem) (making_seen making) (outcome_of told)) }
{
    match making {
        Making::Rewrite(split) => tell_rewritten_in(alloc, accepted, split, d),
        Making::Aiger(encoding, split) => tell_graphed_in(alloc, accepted, split, encoding, d),
        Making::Explain(form) => explain_accepted(alloc, accepted, form),
        Making::Demonstrate(cells) => demonstrate(alloc, accepted, cells),
    }
}

// What is told of a refused one.
fn tell_refusal(alloc: Global, refused: &Refused<'_>, making: Making) -> Result<Outcome, AllocError>
    ensures { IfOk result (λ told. IsRefusalOutcome refused.now.problem.looped.net (making_seen making) refused.now.refusal (outcome_of told)) }
{
    let net = refused.net();
    let refusal = refused.refusal();
    match making {
        Making::Rewrite(_) | Making::Aiger(_, _) => tell_declined(alloc, net, refusal),
        Making::Explain(form) => tell_explained(alloc, refused, form),
        Making::Demonstrate(_) => tell_refused(alloc, net, refusal),
    }
}

// What is told of a verdict.
fn tell_verdict(
    alloc: Global,
    problem: &Problem<'_>,
    making: Making,
    verdict: Verdict,
    d: &mut Diagrams,
) -> Result<Outcome, AllocError>
    requires { IsVerdictOn problem.now verdict }
    ensures { IfOk result (λ told. (nodes : Arena) → IsDecided (decision_in problem.now) (making_seen making) nodes (outcome_of told)) }
{
    match verdict {
        Verdict::Accepted { sweeps, loose } => {
            let accepted = Accepted::new(problem, &sweeps, loose);
            tell_acceptance(alloc, &accepted, making, d)
        }
        Verdict::Refused(refusal) => {
            let refused = Refused::new(problem, &refusal);
            tell_refusal(alloc, &refused, making)
        }
    }
}

// That the limit of nodes was met.
pub(crate) fn tell_limited(alloc: Global, fault: &DecideFault) -> Result<Outcome, AllocError>
    ensures { IfOk result (λ told. IsLimitOf fault.now told) }
{
    match fault {
        DecideFault::NodeLimit { nodes } => tell_limit(alloc, *nodes),
        DecideFault::Memory => Err(AllocError),
    }
}

// Judges a netlist on its care set, and tells of it what is wanted.
fn tell_judged(
    alloc: Global,
    problem: &Problem<'_>,
    telling: Telling,
    d: &mut Diagrams,
) -> Result<Outcome, AllocError>
    ensures { IfOk result (λ told. IsDecided (decision_in problem.now) (telling_seen telling) d.new (outcome_of told)) }
{
    let judged = problem.judge(alloc, d);
    match &judged {
        Ok(judgement) => tell_judgement(alloc, problem, telling, judgement),
        Err(fault) => tell_limited(alloc, fault),
    }
}

// Decides a netlist on its care set, and tells of it what is wanted.
fn tell_decided(
    alloc: Global,
    problem: &Problem<'_>,
    making: Making,
    d: &mut Diagrams,
) -> Result<Outcome, AllocError>
    ensures { IfOk result (λ told. IsDecided (decision_in problem.now) (making_seen making) d.new (outcome_of told)) }
{
    match problem.decide(alloc, d) {
        Ok(verdict) => tell_verdict(alloc, problem, making, verdict, d),
        Err(fault) => tell_limited(alloc, &fault),
    }
}

// Finds the verdict of a netlist on its care set, and tells of it what is wanted. The sweeps of loops are counted where
// something is made of them.
pub(crate) fn tell_decision(
    alloc: Global,
    net: &Netlist,
    care: &Care,
    task: Task,
    d: &mut Diagrams,
) -> Result<Outcome, AllocError>
    requires columns { columns net.now ≤ most_columns }
    requires care { IsCareOf net.now care.now }
    requires limit { task.limit ≤ most_nodes }
    ensures { IfOk result (λ told. IsDecided record { net = net.now; care = care.now; limit = task.limit; observe = task.observe }
        (purpose_seen task.purpose) d.new (outcome_of told)) }
{
    let loops = NetlistLoops::find(alloc, net)?;
    let looped = loops.looped();
    let problem = Problem::new(&looped, care, task.limit, task.observe);
    match task.purpose {
        Purpose::Tell(telling) => tell_judged(alloc, &problem, telling, d),
        Purpose::Make(making) => tell_decided(alloc, &problem, making, d),
    }
}
