//! The least care vector on which two netlists differ that are accepted.

ghost use Rattle.std.specs.Prelude.{◌≡◌, ◌<◌, ◌≤◌, ◌⊎◌, [], ℕ, Some, None, true, Option, Bool, List, length, find, option_map, IfOk, IfErr};
ghost use Rattle.cyc_base.specs.Vectors.{vectors};
ghost use Rattle.cyc_base.specs.declared.sig.Sig.{Sig as Signal};
ghost use Rattle.refusals.specs.declared.refusal.Refusal.TheVariants.{Undetermined};
ghost use Rattle.netlist.specs.Netlists.{IsNetlist, columns};
ghost use Rattle.fixpoint.specs.Orders.{order as order_of};
ghost use Rattle.netlist.specs.declared.parts.Parts.{Parts as TheParts};
ghost use Rattle.care_sets.specs.Care.{CareSet};
ghost use Rattle.refusals.specs.Tests.{is_unknown_at};
ghost use Rattle.diagram_decision.specs.Judgements.{IsJudgement};
ghost use Rattle.diagram_decision.specs.Causes.{IsOutOfNodes};
ghost use Rattle.miters.specs.Pairs.{least_apart as least_apart_of};
ghost use Rattle.equal.specs.Comparisons.{IsBelowEnoughFor};
ghost use Rattle.care_sets.specs.Binding.{IsCareOf};
ghost use Rattle.equal.specs.Compared.{FindsLeast};
ghost use Rattle.miters.specs.Differences.{difference, AreAccepted};
ghost use Rattle.equal.specs.Early.{IsFound, IsKnownEarly};
ghost use Rattle.miters.specs.Joined.{joined, joined_pairs as joined_pairs_of};
ghost use Rattle.miters.specs.Matching.{unmatched};

use crate::accepted::{AcceptedNetlists, fits};
use crate::apart::least_apart;
use crate::comparison::Comparison;
use crate::fault::{EqualFault, fault_of};
use bdd_ops::Diagrams;
use care_sets::Care;
use clause_decision::{Found, least_unknown};
use cyc_base::{Bits, MAX_NODES};
use feedback_cuts::NetlistLoops;
use fixpoint::order;
use inner_pairs::whole_scope;
use loops::find_blocks;
use miters::{find_columns, joined_netlist, joined_pairs, miter_of, stands_in_first};
use netlist::Netlist;
use refusals::Refusal;
use std::alloc::{AllocError, Global};
use verdict::{DecideFault, Judgement, Observe, judge};

/// How many conflicts each search for the least vector of the miter's last gate may meet.
const CONFLICTS: u64 = 100_000;

/// How many, before that vector is looked for column by column.
pub(crate) const FEW_CONFLICTS: u64 = 4_000;

/// How many nodes the diagrams may have that the netlist of differences gets.
const FEW_NODES: u32 = 200_000;

/// What is found within a budget.
#[derive(Drop)]
pub(crate) enum Early {
    /// The least vector on which they differ, if there is one.
    Found(Option<Bits>),
    /// The budget didn't do.
    Nothing,
}

/// Whether there is a loop besides that of the last gate.
fn has_loops(alloc: Global, net: &Netlist) -> Result<bool, AllocError> {
    let blocks = find_blocks(alloc, net)?;
    let list = blocks.list.items();
    Ok(list.iter().filter(|block| block.looped).count() > 1)
}

/// The least care vector at which a gate of the miter is unknown, asked for that gate alone. Nothing where there are no
/// loops: then a judgement asks for it at once, and one variable does for each gate.
fn unknown_within(
    alloc: Global,
    net: &Netlist,
    care: &Care,
    gate: u32,
    conflicts: u64,
) -> Result<Early, AllocError>
    requires care { IsCareOf net.now care.now }
    requires gate { gate < length net.now.gates }
    ensures { IfOk result (IsFound (find (is_unknown_at net.now care.now gate) (vectors (columns net.now)))) }
{
    if !has_loops(alloc, net)? {
        return Ok(Early::Nothing);
    }
    let scope = whole_scope(alloc, net)?;
    match least_unknown(alloc, net, care, &scope, gate, conflicts)? {
        Found::Least(vector) => Ok(Early::Found(Some(Bits::of(vector)))),
        Found::NoVector => Ok(Early::Found(None)),
        Found::Unknown => Ok(Early::Nothing),
    }
}

/// The vector of a refusal for an unknown gate.
fn vector_of(alloc: Global, refusal: &Refusal) -> Result<Early, AllocError>
    ensures { IfOk result (λ early. (s : Signal) (least : Option (List Bool)) → Some refusal.now ≡ option_map (λ v. Undetermined v s) least → IsFound least early) }
{
    match refusal {
        Refusal::Undetermined { vector, .. } => {
            let copied = vector.items().to_vec(alloc)?;
            Ok(Early::Found(Some(Bits::of(copied))))
        }
        _ => Ok(Early::Nothing),
    }
}

/// The vector of a judgement.
fn early_of(alloc: Global, judgement: &Judgement) -> Result<Early, AllocError>
    ensures { IfOk result (λ early. (net : TheParts) (care : CareSet) → IsNetlist net → IsJudgement net care Observe.All judgement.now → IsKnownEarly net care early) }
{
    match judgement {
        Judgement::Accepted { .. } => Ok(Early::Found(None)),
        Judgement::Refused(refusal) => vector_of(alloc, refusal),
    }
}

/// What refuses the miter, on diagrams of its own: a vector on which its last gate is unknown, if anything
/// does.
fn refusal_within(
    alloc: Global,
    net: &Netlist,
    care: &Care,
    limit: u32,
) -> Result<Early, AllocError>
    requires care { IsCareOf net.now care.now }
    requires limit { limit ≤ MAX_NODES }
    ensures { IfOk result (IsKnownEarly net.now care.now) }
{
    net.laws();
    let mut d = Diagrams::new(alloc, 0, 1)?;
    let loops = NetlistLoops::find(alloc, net)?;
    let looped = loops.looped();
    let (blocks, cut) = (looped.blocks(), looped.cut());
    let judged = judge(alloc, &mut d, net, blocks, cut, care, limit, Observe::All);
    match &judged {
        Ok(judgement) => early_of(alloc, judgement),
        Err(DecideFault::NodeLimit { .. }) => Ok(Early::Nothing),
        Err(DecideFault::Memory) => Err(AllocError),
    }
}

/// The least care vector on which the wires of some pair differ, by the diagrams.
fn least_on(
    alloc: Global,
    d: &mut Diagrams,
    comparison: &Comparison<'_>,
    limit: u32,
) -> Result<Option<Bits>, EqualFault>
    requires care { IsCareOf comparison.now.looped.now.net comparison.now.care.now }
    requires limit { limit ≤ MAX_NODES }
    ensures found { IfOk result (λ found. found ≡ least_apart_of comparison.now.looped.now.net comparison.now.care.now comparison.now.pairs.now) }
    ensures fault { IfErr result (λ fault. (fault ≡ EqualFault.Memory) ⊎ (fault ≡ EqualFault.NodeLimit limit)) }
    ensures cause { result ≡ Err (EqualFault.NodeLimit limit) → IsOutOfNodes d.new comparison.now.looped.now.net comparison.now.care.now limit }
    ensures below { result ≡ Err (EqualFault.NodeLimit limit) → IsBelowEnoughFor comparison.now.order.now comparison.now.looped.now.net comparison.now.care.now comparison.now.pairs.now limit }
{
    match least_apart(alloc, d, comparison, limit) {
        Ok(found) => Ok(found),
        Err(fault) => Err(fault_of(fault)),
    }
}

impl<'a> AcceptedNetlists<'a> {
    /// The least vector on which they differ, if the last gate of their miter tells it within so many conflicts.
    pub(crate) fn unknown_in_miter(
        &self,
        alloc: Global,
        conflicts: u64,
    ) -> Result<Early, AllocError>
        ensures { IfOk result (IsFound (difference self.now.a self.now.b self.now.care)) }
    {
        let net = miter_of(alloc, self.a, self.b, self.columns, self.pairs)?;
        let last = net.gates() - 1;
        unknown_within(alloc, &net, self.care, last, conflicts)
    }

    /// The least vector on which they differ, if the miter is decided within a budget. Its last gate is asked for alone
    /// before: a judgement would show of all gates in loops again that they are known.
    fn difference_by_miter(&self, alloc: Global, limit: u32) -> Result<Early, AllocError>
        requires { limit ≤ MAX_NODES }
        ensures { IfOk result (IsFound (difference self.now.a self.now.b self.now.care)) }
    {
        let net = miter_of(alloc, self.a, self.b, self.columns, self.pairs)?;
        let last = net.gates() - 1;
        match unknown_within(alloc, &net, self.care, last, CONFLICTS)? {
            Early::Found(found) => Ok(Early::Found(found)),
            Early::Nothing => refusal_within(alloc, &net, self.care, limit),
        }
    }

    /// The least vector on which they differ, if it is found within a budget.
    fn early_difference(&self, alloc: Global, limit: u32) -> Result<Early, AllocError>
        requires { limit ≤ MAX_NODES }
        ensures { IfOk result (IsFound (difference self.now.a self.now.b self.now.care)) }
    {
        if stands_in_first(alloc, self.a, self.b, self.columns)? {
            return Ok(Early::Found(None));
        }
        match self.difference_by_pairs(alloc)? {
            Early::Found(found) => Ok(Early::Found(found)),
            Early::Nothing => self.difference_by_miter(alloc, limit),
        }
    }

    /// The least vector on which they differ, by the diagrams of the joined netlist.
    fn late_difference(
        &self,
        alloc: Global,
        d: &mut Diagrams,
        limit: u32,
    ) -> Result<Option<Bits>, EqualFault>
        requires { limit ≤ MAX_NODES }
        ensures { FindsLeast self.now limit d.new result }
    {
        let net = joined_netlist(alloc, self.a, self.b, self.columns)?;
        let loops = NetlistLoops::find(alloc, &net)?;
        let looped = loops.looped();
        let order = order(alloc, self.a)?;
        let comparison = Comparison {
            looped: &looped,
            care: self.care,
            order: &order,
            pairs: self.pairs,
        };
        least_on(alloc, d, &comparison, limit)
    }

    /// The same, within a budget or else by the diagrams.
    fn difference(
        &self,
        alloc: Global,
        d: &mut Diagrams,
        limit: u32,
    ) -> Result<Option<Bits>, EqualFault>
        requires { limit ≤ MAX_NODES }
        ensures { FindsLeast self.now limit d.new result }
    {
        let few = limit.min(FEW_NODES);
        match self.early_difference(alloc, few)? {
            Early::Found(found) => Ok(found),
            Early::Nothing => self.late_difference(alloc, d, limit),
        }
    }
}

/// The least care vector on which two accepted netlists differ. Their miter, which tells of each vector whether they
/// do, is decided within a budget; where that doesn't do, the diagrams solve both netlists at once.
pub(crate) fn least_difference(
    alloc: Global,
    d: &mut Diagrams,
    a: &Netlist,
    b: &Netlist,
    care: &Care,
    limit: u32,
) -> Result<Option<Bits>, EqualFault>
    requires matched { unmatched a.now b.now ≡ None }
    requires care { IsCareOf a.now care.now }
    requires accepted { AreAccepted a.now b.now care.now }
    requires limit { limit ≤ MAX_NODES }
    ensures found { IfOk result (λ found. found ≡ difference a.now b.now care.now) }
    ensures fault { IfErr result (λ fault. (fault ≡ EqualFault.Memory) ⊎ (fault ≡ EqualFault.NodeLimit limit)) }
    ensures cause { result ≡ Err (EqualFault.NodeLimit limit) → IsOutOfNodes d.new (joined a.now b.now []) care.now limit }
    ensures below { result ≡ Err (EqualFault.NodeLimit limit) → IsBelowEnoughFor (order_of a.now) (joined a.now b.now []) care.now (joined_pairs_of a.now b.now) limit }
{
    if !fits(a, b, 0) {
        return Err(EqualFault::Memory);
    }
    let columns = find_columns(alloc, a, b)?;
    let pairs = joined_pairs(alloc, a, b, &columns)?;
    match AcceptedNetlists::new(a, b, care, &columns, &pairs) {
        Some(accepted) => accepted.difference(alloc, d, limit),
        None => Err(EqualFault::Memory),
    }
}
