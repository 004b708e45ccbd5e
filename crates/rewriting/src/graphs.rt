//! The and-inverter graph of the rewritten netlist.

ghost use Rattle.std.specs.Prelude.{◌≡◌, ◌<◌, ◌≤◌, length, IfOk, IfErr};
ghost use Rattle.aig_core.specs.Answers.{FitsNetlist};
ghost use Rattle.aig_core.specs.Building.{built};
ghost use Rattle.care_sets.specs.Care.{CareSet};
ghost use Rattle.netlist.specs.Netlists.{IsNetlist, columns};
ghost use Rattle.netlist.specs.Walks.{IsLoopFree};
ghost use Rattle.netlist.specs.declared.parts.Parts.{Parts};
ghost use Rattle.refusals.specs.Acceptance.{Accepts};
ghost use Rattle.refusals.specs.declared.observe.Observe.{Observe};
ghost use Rattle.rewriting.specs.Graphs.{most_ands, most_columns, IsGraphIn};
ghost use Rattle.rewriting.specs.Rewriting.{IsLoopFreeForm};

use aig_core::{AigFault, Built, build};
use netlist::Netlist;
use std::alloc::Global;

/// The and-inverter graph of a netlist without loops, in which equal ANDs are one (Kuehlmann and Krohm 1997).
///
/// Of a netlist that stands in the place of an accepted one, as the rewritten one does, it is a machine that does at each
/// tick what the accepted one does in each run within care, whatever the window, the past and the fair schedules are.
///
/// The condition is that the netlist has no loop, and that it has at most 1,000,000,000 inputs and latches.
///
/// # Errors
///
/// `TooLarge` exactly where the graph has over 4,000,000 ANDs; else `Memory` where memory runs out.
pub fn graph(alloc: Global, other: &Netlist) -> Result<Built, AigFault>
    requires loop_free { IsLoopFree other.now }
    requires columns { columns other.now ≤ most_columns }
    ensures built { IfOk result (λ graph. graph ≡ built other.now) }
    ensures few { IfOk result (λ graph. length graph.aig.ands ≤ most_ands) }
    ensures fits { IfOk result (FitsNetlist other.now) }
    ensures graphing { IfOk result (λ graph. (net : Parts) (care : CareSet) (what : Observe) → IsNetlist net → Accepts net care what →
        IsLoopFreeForm net care other.now → IsGraphIn net care other.now graph) }
    ensures too_large { IfErr result (λ fault. fault ≡ AigFault.TooLarge → most_ands < length (built other.now).aig.ands) }
{
    match build(alloc, other)? {
        Some(graph) => Ok(graph),
        None => unreachable!(),
    }
}
