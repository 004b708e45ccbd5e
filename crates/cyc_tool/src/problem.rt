// What is decided, and what comes of it.
ghost use Rattle.std.specs.Prelude.{◌≡◌, ◌⊎◌, ◌≤◌, Err, IfErr, IfOk, OnOk};
ghost use Rattle.assumptions.specs.Assumptions.{IsAssumption};
ghost use Rattle.assumptions.specs.Limits.{RunsOutOfNodes};
ghost use Rattle.care_sets.specs.Binding.{IsCareOf};
ghost use Rattle.cyc_base.specs.declared.limits.TheConstants.{MAX_NODES as most_nodes, MAX_REWRITTEN_ITEMS};
ghost use Rattle.diagram_decision.specs.Causes.{IsOutOfNodes};
ghost use Rattle.diagram_decision.specs.Enough.{IsBelowEnough};
ghost use Rattle.diagram_decision.specs.Judgements.{IsJudgement};
ghost use Rattle.netlist.specs.Netlists.{columns};
ghost use Rattle.netlist.specs.Walks.{IsLoopFree};
ghost use Rattle.rewriting.specs.Graphs.{most_columns};
ghost use Rattle.rewriting.specs.Rewriting.{IsCaseFault, IsLoopFreeForm, IsRewriting, rewritten_size};
ghost use Rattle.unroll.specs.Unrolled.{IsUnrollFault};
ghost use Rattle.plain_commands.specs.Seen.{IsShown};
ghost use Rattle.refusals.specs.Refusals.{IsRefusalOf};
ghost use Rattle.cyc_tool.specs.Problems.{CanBeDecided, IsVerdictOn, WasAccepted, WasRefused, counted_in};

use assumptions::{Assumption, weakest_assumption};
use bdd_ops::Diagrams;
use care_sets::Care;
use commands::Cases;
use loops::{LoopedNetlist, SweepCounts};
use netlist::Netlist;
use refusals::{Observe, Refusal};
use rewriting::{rewrite, rewrite_by_cases};
use std::alloc::Global;
use std::marker::Model;
use unroll::{CountedLoops, UnrollFault};
use verdict::{DecideFault, Judgement, Verdict, decide, judge};

// A netlist with its loops, to be decided on its care set with at most so many nodes, where these wires are observed.
#[derive(Drop)]
pub(crate) struct Problem<'a> {
    looped: &'a LoopedNetlist<'a>,
    care: &'a Care,
    limit: u32,
    observe: Observe,
}

impl<'a> Model for Problem<'a> {
    ghost use Rattle.cyc_tool.specs.Problems.{CanBeDecided, Problem as Posed};

    ghost Value = { Posed };

    ghost view = { λ p. record { looped = p.looped.now; care = p.care.now; limit = p.limit; observe = p.observe } };

    ghost invariant = { λ p. CanBeDecided (record { looped = p.looped.now; care = p.care.now; limit = p.limit; observe = p.observe }) };
}

impl<'a> Problem<'a> {
    // The condition is that the care set is the netlist's, which has at most 1,000,000,000 inputs and latches, and that the
    // limit is at most 50,000,000.
    pub(crate) fn new(
        looped: &'a LoopedNetlist<'a>,
        care: &'a Care,
        limit: u32,
        observe: Observe,
    ) -> Problem<'a>
        requires columns { columns looped.now.net ≤ most_columns }
        requires care { IsCareOf looped.now.net care.now }
        requires limit { limit ≤ most_nodes }
        ensures { result ≡ record { looped = looped.now; care = care.now; limit = limit; observe = observe } }
    {
        looped.net().laws();
        Problem {
            looped,
            care,
            limit,
            observe,
        }
    }

    // What holds of each problem.
    pub(crate) fn laws(&self)
        ensures can { CanBeDecided self.now }
    {
        let _ = &self.looped;
    }

    pub(crate) fn looped(&self) -> &'a LoopedNetlist<'a>
        ensures looped { result.now ≡ self.now.looped }
        ensures can { CanBeDecided self.now }
    {
        self.looped
    }

    pub(crate) fn care(&self) -> &'a Care
        ensures care { result.now ≡ self.now.care }
        ensures can { CanBeDecided self.now }
    {
        self.care
    }

    pub(crate) fn limit(&self) -> u32
        ensures limit { result ≡ self.now.limit }
        ensures can { CanBeDecided self.now }
    {
        self.limit
    }

    pub(crate) fn observe(&self) -> Observe
        ensures observe { result ≡ self.now.observe }
        ensures can { CanBeDecided self.now }
    {
        self.observe
    }
}

impl<'a> Problem<'a> {
    // The judgement of the netlist, on diagrams that are started anew.
    pub(crate) fn judge(&self, alloc: Global, d: &mut Diagrams) -> Result<Judgement, DecideFault>
        ensures judgement { IfOk result (IsJudgement self.now.looped.net self.now.care self.now.observe) }
        ensures fault { IfErr result (λ fault. (fault ≡ DecideFault.Memory) ⊎ (fault ≡ DecideFault.NodeLimit self.now.limit)) }
        ensures cause { result ≡ Err (DecideFault.NodeLimit self.now.limit) → IsOutOfNodes d.new self.now.looped.net self.now.care self.now.limit }
        ensures enough { result ≡ Err (DecideFault.NodeLimit self.now.limit) → IsBelowEnough self.now.looped.net self.now.care self.now.limit }
    {
        let looped = self.looped();
        let net = looped.net();
        let blocks = looped.blocks();
        let cut = looped.cut();
        let care = self.care();
        let limit = self.limit();
        let observe = self.observe();
        judge(alloc, d, net, blocks, cut, care, limit, observe)
    }

    // Its verdict, with the sweeps of its loops.
    pub(crate) fn decide(&self, alloc: Global, d: &mut Diagrams) -> Result<Verdict, DecideFault>
        ensures verdict { IfOk result (IsVerdictOn self.now) }
        ensures fault { IfErr result (λ fault. (fault ≡ DecideFault.Memory) ⊎ (fault ≡ DecideFault.NodeLimit self.now.limit)) }
        ensures cause { result ≡ Err (DecideFault.NodeLimit self.now.limit) → IsOutOfNodes d.new self.now.looped.net self.now.care self.now.limit }
        ensures enough { result ≡ Err (DecideFault.NodeLimit self.now.limit) → IsBelowEnough self.now.looped.net self.now.care self.now.limit }
    {
        let looped = self.looped();
        let net = looped.net();
        let blocks = looped.blocks();
        let cut = looped.cut();
        let care = self.care();
        let limit = self.limit();
        let observe = self.observe();
        decide(alloc, d, net, blocks, cut, care, limit, observe)
    }

    // The weakest assumption within its care set under which it is accepted.
    pub(crate) fn weakest_assumption(
        &self,
        alloc: Global,
        d: &mut Diagrams,
    ) -> Result<Assumption, DecideFault>
        ensures found { IfOk result (IsAssumption self.now.looped.net self.now.care self.now.observe) }
        ensures fault { IfErr result (λ fault. (fault ≡ DecideFault.Memory) ⊎ (fault ≡ DecideFault.NodeLimit self.now.limit)) }
        ensures cause { result ≡ Err (DecideFault.NodeLimit self.now.limit)
            → RunsOutOfNodes d.new self.now.looped.net self.now.care self.now.observe self.now.limit }
    {
        weakest_assumption(alloc, d, self.looped, self.care, self.limit, self.observe)
    }
}

// A problem whose netlist is accepted: the sweeps that its loops need on its care set, and how many gates are unknown at
// some care vector.
#[derive(Drop)]
pub(crate) struct Accepted<'a> {
    problem: &'a Problem<'a>,
    sweeps: &'a SweepCounts,
    loose: u32,
}

impl<'a> Model for Accepted<'a> {
    ghost use Rattle.cyc_tool.specs.Problems.{Acceptance, WasAccepted};

    ghost Value = { Acceptance };

    ghost view = { λ a. record { problem = a.problem.now; sweeps = a.sweeps.now; loose = a.loose } };

    ghost invariant = { λ a. WasAccepted (record { problem = a.problem.now; sweeps = a.sweeps.now; loose = a.loose }) };
}

impl<'a> Accepted<'a> {
    // The condition is that these are the sweeps and the number of a decision that accepts the problem.
    pub(crate) fn new(problem: &'a Problem<'a>, sweeps: &'a SweepCounts, loose: u32) -> Accepted<'a>
        requires { IsVerdictOn problem.now (Verdict.Accepted sweeps.now loose) }
        ensures is { result ≡ record { problem = problem.now; sweeps = sweeps.now; loose = loose } }
        ensures can { CanBeDecided problem.now }
    {
        problem.laws();
        Accepted {
            problem,
            sweeps,
            loose,
        }
    }

    pub(crate) fn problem(&self) -> &'a Problem<'a>
        ensures problem { result.now ≡ self.now.problem }
        ensures was { WasAccepted self.now }
    {
        self.problem
    }

    // Its netlist with these sweeps.
    pub(crate) fn counted(&self) -> CountedLoops<'a>
        ensures counted { result ≡ counted_in self.now }
        ensures was { WasAccepted self.now }
    {
        CountedLoops::new(self.problem.looped(), self.sweeps)
    }

    // The netlist that is rewritten by these sweeps.
    pub(crate) fn make_loop_free(&self, alloc: Global) -> Result<Netlist, UnrollFault>
        ensures rewriting { IfOk result (IsRewriting self.now.problem.looped.net self.now.problem.care) }
        ensures small { OnOk result (rewritten_size self.now.problem.looped.net self.now.problem.care ≤ MAX_REWRITTEN_ITEMS) }
        ensures fault { IfErr result (IsUnrollFault (rewritten_size self.now.problem.looped.net self.now.problem.care)) }
        ensures loop_free { IfOk result IsLoopFree }
        ensures columns { IfOk result (λ other. columns other ≤ most_columns) }
        ensures was { WasAccepted self.now }
    {
        let counted = self.counted();
        rewrite(alloc, &counted)
    }

    // The same by at most so many cases in each region, within the limit of nodes.
    pub(crate) fn make_loop_free_by(
        &self,
        alloc: Global,
        d: &mut Diagrams,
        cases: Cases,
    ) -> Result<Netlist, UnrollFault>
        ensures form { IfOk result (IsLoopFreeForm self.now.problem.looped.net self.now.problem.care) }
        ensures fault { IfErr result (IsCaseFault (rewritten_size self.now.problem.looped.net self.now.problem.care)) }
        ensures loop_free { IfOk result IsLoopFree }
        ensures columns { IfOk result (λ other. columns other ≤ most_columns) }
        ensures was { WasAccepted self.now }
    {
        let counted = self.counted();
        let problem = self.problem();
        let care = problem.care();
        let limit = problem.limit();
        rewrite_by_cases(alloc, d, &counted, care, limit, cases.number)
    }

    pub(crate) fn loose(&self) -> u32
        ensures loose { result ≡ self.now.loose }
        ensures was { WasAccepted self.now }
    {
        self.loose
    }
}

// A problem whose netlist is refused.
#[derive(Drop)]
pub(crate) struct Refused<'a> {
    problem: &'a Problem<'a>,
    refusal: &'a Refusal,
}

impl<'a> Model for Refused<'a> {
    ghost use Rattle.cyc_tool.specs.Problems.{Rejection, WasRefused};

    ghost Value = { Rejection };

    ghost view = { λ r. record { problem = r.problem.now; refusal = r.refusal.now } };

    ghost invariant = { λ r. WasRefused (record { problem = r.problem.now; refusal = r.refusal.now }) };
}

impl<'a> Refused<'a> {
    // The condition is that the refusal is the problem's.
    pub(crate) fn new(problem: &'a Problem<'a>, refusal: &'a Refusal) -> Refused<'a>
        requires { IsVerdictOn problem.now (Verdict.Refused refusal.now) }
        ensures { result ≡ record { problem = problem.now; refusal = refusal.now } }
    {
        problem.laws();
        Refused { problem, refusal }
    }

    pub(crate) fn problem(&self) -> &'a Problem<'a>
        ensures problem { result.now ≡ self.now.problem }
        ensures was { WasRefused self.now }
    {
        self.problem
    }

    pub(crate) fn net(&self) -> &'a Netlist
        ensures net { result.now ≡ self.now.problem.looped.net }
        ensures was { WasRefused self.now }
    {
        self.problem.looped().net()
    }

    // It has the netlist's widths, and a wire that it names is unknown at its vector.
    pub(crate) fn refusal(&self) -> &'a Refusal
        ensures refusal { result.now ≡ self.now.refusal }
        ensures fits { IsRefusalOf self.now.problem.looped.net self.now.refusal }
        ensures shown { IsShown self.now.problem.looped.net self.now.refusal }
    {
        self.refusal
    }
}
