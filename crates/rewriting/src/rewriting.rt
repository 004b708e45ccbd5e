//! The rewritten netlist.

ghost use Rattle.std.specs.Prelude.{◌≡◌, ◌≤◌, length, IfOk, IfErr, OnOk};
ghost use Rattle.care_sets.specs.Care.{CareSet};
ghost use Rattle.netlist.specs.Netlists.{IsNetlist};
ghost use Rattle.netlist.specs.Walks.{IsLoopFree};
ghost use Rattle.refusals.specs.declared.observe.Observe.{Observe};
ghost use Rattle.refusals.specs.Acceptance.{Accepts};
ghost use Rattle.unroll.specs.Counted.{unrolled_by, unrolled_size_by};
ghost use Rattle.unroll.specs.Laws.{KeepsInterface};
ghost use Rattle.unroll.specs.Unrolled.{IsUnrollFault};
ghost use Rattle.rewriting.specs.Rewriting.{rewritten_size as size_of, IsCountedOnCare, IsRewriting};

use crate::covers::have_covers;
use cyc_base::MAX_REWRITTEN_ITEMS;
use netlist::Netlist;
use std::alloc::Global;
use unroll::{CountedLoops, UnrollFault, unroll_counted};

/// The rewritten netlist of an accepted one, by the sweeps that its loops need on its care set.
///
/// It has no loop, and the names of inputs, latches and outputs, the inits and the clock of the netlist. Each run of
/// the netlist within care and each run of the new one over the same inputs and from the same latches show the same at
/// each tick, whatever their windows, pasts and fair schedules (Malik 1994). Its text reads back as it.
///
/// The condition is that there are at most 4,000,000,000 inputs. A flattened netlist has no more.
///
/// # Errors
///
/// `TooLarge` exactly where the new netlist has over 4,000,000 gates and latches, with their number; else `Memory`
/// where memory runs out.
pub fn rewrite(alloc: Global, counted: &CountedLoops<'_>) -> Result<Netlist, UnrollFault>
    requires { length counted.now.net.inputs ≤ 4000000000 }
    ensures rewriting { IfOk result (λ other. (care : CareSet) (what : Observe) → Accepts counted.now.net care what → IsCountedOnCare counted.now care → IsRewriting counted.now.net care other) }
    ensures small { OnOk result ((care : CareSet) → IsCountedOnCare counted.now care → size_of counted.now.net care ≤ MAX_REWRITTEN_ITEMS) }
    ensures fault { IfErr result (λ fault. (care : CareSet) → IsCountedOnCare counted.now care → IsUnrollFault (size_of counted.now.net care) fault) }
    ensures valid { IfOk result IsNetlist }

    // Whatever the sweeps are, it is the netlist unrolled by them.
    ensures unrolled { IfOk result (λ other. other ≡ unrolled_by counted.now) }
    ensures fits { OnOk result (unrolled_size_by counted.now ≤ MAX_REWRITTEN_ITEMS) }
    ensures outgrown { IfErr result (IsUnrollFault (unrolled_size_by counted.now)) }
    ensures loop_free { IfOk result IsLoopFree }
    ensures interface { IfOk result (KeepsInterface counted.now.net) }
{
    let net = counted.net();
    have_covers(net);
    unroll_counted(alloc, counted)
}
