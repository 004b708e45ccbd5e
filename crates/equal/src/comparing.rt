//! The comparison of two netlists.

ghost use Rattle.std.specs.Prelude.{◌≡◌, ◌≤◌, ◌⊎◌, [], None, IfOk, IfErr};
ghost use Rattle.care_sets.specs.Binding.{IsCareOf};
ghost use Rattle.fixpoint.specs.Orders.{order as order_of};
ghost use Rattle.refusals.specs.Refusals.{refusal as refusal_by};
ghost use Rattle.diagram_decision.specs.Causes.{IsOutOfNodes};
ghost use Rattle.diagram_decision.specs.Enough.{IsBelowEnough};
ghost use Rattle.equal.specs.Comparisons.{IsBelowEnoughFor};
ghost use Rattle.equal.specs.Bounds.{IsBelowEnoughForBoth, IsOutOfNodesForBoth};
ghost use Rattle.equal.specs.Compared.{matched_netlists, Compares};
ghost use Rattle.miters.specs.Differences.{comparison, comparison_of_accepted, AreAccepted, HaveOneSource};
ghost use Rattle.miters.specs.Joined.{joined, joined_pairs};
ghost use Rattle.miters.specs.Matching.{unmatched};
ghost use Rattle.miters.specs.Rebound.{found as found_of, rebound};
ghost use Rattle.equal.specs.Bounds.{IsLimited};

use crate::fault::{EqualFault, fault_of};
use crate::least::least_difference;
use bdd_ops::Diagrams;
use care_sets::Care;
use cyc_base::MAX_NODES;
use feedback_cuts::NetlistLoops;
use miters::{Answer, at_difference, first_unmatched, rebind};
use netlist::Netlist;
use refusals::Refusal;
use std::alloc::Global;
use std::marker::Model;
use verdict::{Judgement, Observe, judge};

/// What refuses a netlist on its care set.
#[tactic(auto, using(crate::proofs::CompareLemmas::accepted_none))]
fn refusal_of(
    alloc: Global,
    d: &mut Diagrams,
    net: &Netlist,
    care: &Care,
    limit: u32,
) -> Result<Option<Refusal>, EqualFault>
    requires care { IsCareOf net.now care.now }
    requires limit { limit ≤ MAX_NODES }
    ensures refusal { IfOk result (λ found. found ≡ refusal_by net.now care.now Observe.All) }
    ensures fault { IfErr result (λ fault. (fault ≡ EqualFault.Memory) ⊎ (fault ≡ EqualFault.NodeLimit limit)) }
    ensures cause { result ≡ Err (EqualFault.NodeLimit limit) → IsOutOfNodes d.new net.now care.now limit }
    ensures below { result ≡ Err (EqualFault.NodeLimit limit) → IsBelowEnough net.now care.now limit }
{
    net.laws();
    let loops = NetlistLoops::find(alloc, net)?;
    let looped = loops.looped();
    let (blocks, cut) = (looped.blocks(), looped.cut());
    match judge(alloc, d, net, blocks, cut, care, limit, Observe::All) {
        Ok(Judgement::Accepted { .. }) => Ok(None),
        Ok(Judgement::Refused(refusal)) => Ok(Some(refusal)),
        Err(fault) => Err(fault_of(fault)),
    }
}

/// The comparison of two netlists that are accepted.
fn compare_accepted(
    alloc: Global,
    d: &mut Diagrams,
    a: &Netlist,
    b: &Netlist,
    care: &Care,
    limit: u32,
) -> Result<Answer, EqualFault>
    requires matched { unmatched a.now b.now ≡ None }
    requires care { IsCareOf a.now care.now }
    requires accepted { AreAccepted a.now b.now care.now }
    requires limit { limit ≤ MAX_NODES }
    ensures answer { IfOk result (λ answer. answer ≡ comparison_of_accepted a.now b.now care.now) }
    ensures fault { IfErr result (λ fault. (fault ≡ EqualFault.Memory) ⊎ (fault ≡ EqualFault.NodeLimit limit)) }
    ensures cause { result ≡ Err (EqualFault.NodeLimit limit) → IsOutOfNodes d.new (joined a.now b.now []) care.now limit }
    ensures below { result ≡ Err (EqualFault.NodeLimit limit) → IsBelowEnoughFor (order_of a.now) (joined a.now b.now []) care.now (joined_pairs a.now b.now) limit }
{
    match least_difference(alloc, d, a, b, care, limit)? {
        Some(vector) => Ok(at_difference(alloc, a, b, vector)?),
        None => Ok(Answer::Equal),
    }
}

/// Two netlists whose names match, each with its care set, and how many nodes the diagrams may have.
#[derive(Drop)]
struct MatchedNetlists<'a> {
    a: &'a Netlist,
    b: &'a Netlist,
    care_a: &'a Care,
    care_b: &'a Care,
    limit: u32,
}

impl<'a> Model for MatchedNetlists<'a> {
    ghost use Rattle.equal.specs.Compared.{Matched, AreMatched, matched_netlists};

    ghost Value = { Matched };

    ghost view = { λ m. matched_netlists m.a.now m.b.now m.care_a.now m.care_b.now m.limit };

    ghost invariant = { λ m. AreMatched (matched_netlists m.a.now m.b.now m.care_a.now m.care_b.now m.limit) };
}

impl<'a> MatchedNetlists<'a> {
    /// These two netlists.
    ///
    /// The condition is that each care set is its netlist's, and that both are bound from the same models.
    fn new(
        a: &'a Netlist,
        b: &'a Netlist,
        care_a: &'a Care,
        care_b: &'a Care,
        limit: u32,
    ) -> MatchedNetlists<'a>
        requires matched { unmatched a.now b.now ≡ None }
        requires first { IsCareOf a.now care_a.now }
        requires second { IsCareOf b.now care_b.now }
        requires source { HaveOneSource care_a.now care_b.now }
        requires limit { limit ≤ MAX_NODES }
        ensures { result ≡ matched_netlists a.now b.now care_a.now care_b.now limit }
    {
        a.laws();
        b.laws();
        MatchedNetlists {
            a,
            b,
            care_a,
            care_b,
            limit,
        }
    }

    /// Their comparison, where the first is accepted.
    fn compare_second(&self, alloc: Global, d: &mut Diagrams) -> Result<Answer, EqualFault>
        requires { None ≡ refusal_by self.now.a self.now.care_a Observe.All }
        ensures { Compares self.now d.new result }
    {
        match refusal_of(alloc, d, self.b, self.care_b, self.limit) {
            Ok(Some(refusal)) => Ok(Answer::Second(refusal)),
            Ok(None) => compare_accepted(alloc, d, self.a, self.b, self.care_a, self.limit),
            Err(fault) => Err(fault),
        }
    }

    /// Their comparison.
    fn compare(&self, alloc: Global, d: &mut Diagrams) -> Result<Answer, EqualFault>
        ensures { Compares self.now d.new result }
    {
        match refusal_of(alloc, d, self.a, self.care_a, self.limit) {
            Ok(Some(refusal)) => Ok(Answer::First(refusal)),
            Ok(None) => self.compare_second(alloc, d),
            Err(fault) => Err(fault),
        }
    }
}

/// Whether two netlists agree, signal for signal of the same name: first that their inputs, latches and outputs have the
/// same names, and their latches the same inits; then that each is accepted on its care set, all gates observed; then
/// that on each care vector, taken by name, the outputs are equal and the latches load equal values. It starts the
/// diagrams anew as often as it needs, always with this limit.
///
/// The answer is the first of these that fails: `Unmatched` with the first name that isn't matched, `First` or `Second`
/// with the refusal, `Output` with the least care vector of the first netlist on which they differ and the first output
/// that differs on it, or `Latch` with that vector and the first latch that does, where no output differs. It is `Equal`
/// where nothing fails. Clocks aren't compared.
///
/// `NodeLimit` carries the limit. It comes only where all names match, the limit is below what is enough for both decisions
/// and the comparison (`enough_for_both`), and the diagrams hold as many nodes as the call ends or a cover of one of the
/// netlists or of a care model has more. Nothing more is said of the diagrams after the call.
///
/// The condition is that each care set is its netlist's, that both are bound from the same models where all names match,
/// and that the limit is at most 50,000,000.
pub fn compare(
    alloc: Global,
    d: &mut Diagrams,
    a: &Netlist,
    b: &Netlist,
    care_a: &Care,
    care_b: &Care,
    limit: u32,
) -> Result<Answer, EqualFault>
    requires first { IsCareOf a.now care_a.now }
    requires second { IsCareOf b.now care_b.now }
    requires source { unmatched a.now b.now ≡ None → HaveOneSource care_a.now care_b.now }
    requires limit { limit ≤ MAX_NODES }
    ensures answer { IfOk result (λ answer. answer ≡ comparison a.now care_a.now b.now care_b.now) }
    ensures fault { IfErr result (λ fault. (fault ≡ EqualFault.Memory) ⊎ (fault ≡ EqualFault.NodeLimit limit)) }
    ensures matched { result ≡ Err (EqualFault.NodeLimit limit) → unmatched a.now b.now ≡ None }
    ensures cause { result ≡ Err (EqualFault.NodeLimit limit) → IsOutOfNodesForBoth d.new a.now care_a.now b.now limit }
    ensures below { result ≡ Err (EqualFault.NodeLimit limit) → IsBelowEnoughForBoth a.now care_a.now b.now care_b.now limit }
{
    match first_unmatched(alloc, a, b)? {
        Some(name) => Ok(Answer::Unmatched { name }),
        None => {
            let matched = MatchedNetlists::new(a, b, care_a, care_b, limit);
            matched.compare(alloc, d)
        }
    }
}

/// The same as `compare`, where the care set of the second netlist is that of the first: its models, bound to the second
/// one's columns by name. Where a name isn't matched, they aren't looked at.
pub fn compare_by_name(
    alloc: Global,
    d: &mut Diagrams,
    a: &Netlist,
    b: &Netlist,
    care: &Care,
    limit: u32,
) -> Result<Answer, EqualFault>
    requires care { IsCareOf a.now care.now }
    requires limit { limit ≤ MAX_NODES }
    ensures answer { IfOk result (λ answer. answer ≡ found_of a.now b.now care.now) }
    ensures fault { IfErr result (λ fault. (fault ≡ EqualFault.Memory) ⊎ (fault ≡ EqualFault.NodeLimit limit)) }
    ensures limited { result ≡ Err (EqualFault.NodeLimit limit) → IsLimited d.new a.now b.now care.now limit }
{
    match first_unmatched(alloc, a, b)? {
        Some(name) => Ok(Answer::Unmatched { name }),
        None => {
            let other = rebind(alloc, a, b, care)?;
            let matched = MatchedNetlists::new(a, b, care, &other, limit);
            matched.compare(alloc, d)
        }
    }
}
