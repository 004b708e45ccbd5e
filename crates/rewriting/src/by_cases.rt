//! Rewriting by cases.

ghost use Rattle.std.specs.Prelude.{◌≡◌, ◌≤◌, length, IfOk, IfErr, IfSome};
ghost use Rattle.care_sets.specs.Binding.{IsCareOf};
ghost use Rattle.cyc_base.specs.declared.limits.TheConstants.{MAX_NODES as most_nodes};
ghost use Rattle.netlist.specs.Netlists.{IsNetlist};
ghost use Rattle.netlist.specs.Walks.{IsLoopFree};
ghost use Rattle.refusals.specs.declared.observe.Observe.{Observe as Observed};
ghost use Rattle.refusals.specs.Acceptance.{Accepts};
ghost use Rattle.unroll.specs.Laws.{KeepsInterface};
ghost use Rattle.rewriting.specs.Rewriting.{rewritten_size as size_of, IsCaseFault, IsCountedOnCare, IsLoopFreeForm};

use crate::rewriting::rewrite;
use bdd_ops::Diagrams;
use care_sets::Care;
use case_search::split_netlist;
use feedback_cuts::NetlistLoops;
use loops::LoopedNetlist;
use netlist::Netlist;
use refusals::Observe;
use std::alloc::{AllocError, Global};
use unroll::{CountedLoops, UnrollFault};
use verdict::{DecideFault, Verdict, decide};

/// What was made, or nothing where it would be too large.
fn rewritten_if_small(made: Result<Netlist, UnrollFault>) -> Result<Option<Netlist>, AllocError>
    ensures { IfOk result (λ small. IfSome small (λ other. made ≡ Ok other)) }
{
    match made {
        Ok(other) => Ok(Some(other)),
        Err(UnrollFault::TooLarge { size: _ }) => Ok(None),
        Err(UnrollFault::Memory) => Err(AllocError),
    }
}

/// The rewritten netlist of a split one whose blocks and cut wires are found. Where the decision gives up, there is none.
fn rewrite_looped(
    alloc: Global,
    d: &mut Diagrams,
    looped: &LoopedNetlist<'_>,
    care: &Care,
    nodes: u32,
) -> Result<Option<Netlist>, AllocError>
    requires inputs { length looped.now.net.inputs ≤ 4000000000 }
    requires care { IsCareOf looped.now.net care.now }
    requires nodes { nodes ≤ most_nodes }
    ensures form { IfOk result (λ made. IfSome made (IsLoopFreeForm looped.now.net care.now)) }
    ensures interface { IfOk result (λ made. IfSome made (KeepsInterface looped.now.net)) }
{
    let net = looped.net();
    let blocks = looped.blocks();
    let cut = looped.cut();
    let decision = decide(alloc, d, net, blocks, cut, care, nodes, Observe::Outputs);
    match &decision {
        Ok(verdict) => match verdict {
            Verdict::Accepted { sweeps, loose: _ } => {
                let counted = CountedLoops::new(looped, sweeps);
                rewritten_if_small(rewrite(alloc, &counted))
            }
            Verdict::Refused(_) => Ok(None),
        },
        Err(DecideFault::NodeLimit { nodes: _ }) => Ok(None),
        Err(DecideFault::Memory) => Err(AllocError),
    }
}

/// The rewritten netlist of a split one.
fn rewrite_split(
    alloc: Global,
    d: &mut Diagrams,
    split: &Netlist,
    care: &Care,
    nodes: u32,
) -> Result<Option<Netlist>, AllocError>
    requires inputs { length split.now.inputs ≤ 4000000000 }
    requires care { IsCareOf split.now care.now }
    requires nodes { nodes ≤ most_nodes }
    ensures form { IfOk result (λ made. IfSome made (IsLoopFreeForm split.now care.now)) }
    ensures interface { IfOk result (λ made. IfSome made (KeepsInterface split.now)) }
{
    let loops = NetlistLoops::find(alloc, split)?;
    rewrite_looped(alloc, d, &loops.looped(), care, nodes)
}

/// A netlist without loops that is made by cases, where that is done.
fn rewrite_in_cases(
    alloc: Global,
    d: &mut Diagrams,
    looped: &LoopedNetlist<'_>,
    care: &Care,
    nodes: u32,
    cases: u32,
) -> Result<Option<Netlist>, AllocError>
    requires valid { IsNetlist looped.now.net }
    requires some { 1 ≤ cases }
    requires few { cases ≤ 4096 }
    requires inputs { length looped.now.net.inputs ≤ 4000000000 }
    requires care { IsCareOf looped.now.net care.now }
    requires nodes { nodes ≤ most_nodes }
    ensures form { IfOk result (λ made. IfSome made (λ other. (what : Observed) → Accepts looped.now.net care.now what →
        IsLoopFreeForm looped.now.net care.now other)) }
    ensures loop_free { IfOk result (λ made. IfSome made IsLoopFree) }
    ensures interface { IfOk result (λ made. IfSome made (KeepsInterface looped.now.net)) }
{
    match split_netlist(alloc, looped, care, cases)? {
        Some(split) => rewrite_split(alloc, d, &split, care, nodes),
        None => Ok(None),
    }
}

/// A netlist without loops in the place of an accepted one, made by at most so many cases in each region.
///
/// A region is gates of loops and between loops that walks along pins join. For each region columns are picked whose values
/// break its loops, as a tree of splits, with the care models asked: a value that they rule out makes no case, and one that
/// they force is put in. For each case the region's gates are copied with its values put in, and its columns select its copy
/// (Shannon 1949), after the solver has shown that each care vector is in just one case. Loops that are left are unrolled by
/// the sweeps that they need on the care set (Malik 1994). Paths are mostly shorter than those of the rewritten netlist, whose
/// sweeps stand in series. Where no case breaks a loop or the solver gives up, where the netlist so made would be too large,
/// or where the decision about its loops meets the limit of nodes, it is the rewritten netlist, which needs the given sweeps.
///
/// It has no loop, and the names of inputs, latches and outputs, the inits and the clock of the netlist. Each run of the
/// netlist within care and each run of the new one over the same inputs and from the same latches show the same at each
/// tick, whatever their windows, pasts and fair schedules. Its text reads back as it.
///
/// The condition is that the care is the netlist's, that there are at most 4,000,000,000 inputs, from 1 to 4,096 cases, and
/// at most 50,000,000 nodes.
///
/// # Errors
///
/// `TooLarge` only where the rewritten netlist has over 4,000,000 gates and latches, with their number; `Memory` where
/// memory runs out.
pub fn rewrite_by_cases(
    alloc: Global,
    d: &mut Diagrams,
    counted: &CountedLoops<'_>,
    care: &Care,
    nodes: u32,
    cases: u32,
) -> Result<Netlist, UnrollFault>
    requires some { 1 ≤ cases }
    requires few { cases ≤ 4096 }
    requires inputs { length counted.now.net.inputs ≤ 4000000000 }
    requires care { IsCareOf counted.now.net care.now }
    requires nodes { nodes ≤ most_nodes }
    ensures form { IfOk result (λ other. (what : Observed) → Accepts counted.now.net care.now what → IsCountedOnCare counted.now care.now → IsLoopFreeForm counted.now.net care.now other) }
    ensures fault { IfErr result (λ fault. IsCountedOnCare counted.now care.now → IsCaseFault (size_of counted.now.net care.now) fault) }
    ensures loop_free { IfOk result IsLoopFree }
    ensures interface { IfOk result (KeepsInterface counted.now.net) }
{
    match rewrite_in_cases(alloc, d, counted.looped(), care, nodes, cases)? {
        Some(other) => Ok(other),
        None => rewrite(alloc, counted),
    }
}
