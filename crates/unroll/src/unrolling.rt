//! The unrolled netlist.

ghost use Rattle.std.specs.Prelude.{◌≡◌, ◌<◌, ◌≤◌, ◌+◌, List, length, IfOk, IfErr, OnOk};
ghost use Rattle.cyc_base.specs.declared.trit.Trit.{Trit};
ghost use Rattle.netlist.specs.Netlists.{IsNetlist};
ghost use Rattle.netlist.specs.Walks.{IsLoopFree};
ghost use Rattle.loops.specs.Blocks.{AreBlocksOf};
ghost use Rattle.loops.specs.Cuts.{IsCutOf, in_one_loop, loops_by};
ghost use Rattle.unroll.specs.Counted.{counted_loops, counted_sweeps, unrolled_by, unrolled_size_by, IsCounted};
ghost use Rattle.unroll.specs.Laws.{AreEnough, KeepsInterface, TellsAsMuchAt};
ghost use Rattle.unroll.specs.Unrolled.{sweeps_of, unrolled, unrolled_size as size_of, IsUnrollFault};

use crate::assembly::unrolled_parts;
use crate::counted_loops::CountedLoops;
use crate::fault::UnrollFault;
use crate::sizes::unrolled_size;
use cyc_base::MAX_REWRITTEN_ITEMS;
use loops::{Blocks, Cut, LoopedNetlist, SweepCounts};
use netlist::{Netlist, PartsFault};
use std::alloc::Global;

/// The unrolled netlist's parts are refused for want of memory alone.
fn want_of_memory(_fault: PartsFault) -> UnrollFault
    requires { _fault ≡ PartsFault.Memory }
    ensures { result ≡ UnrollFault.Memory }
{
    UnrollFault::Memory
}

/// How many gates stand before the netlist's own, if the unrolled netlist isn't too large.
fn shift_of(counted: &CountedLoops<'_>) -> Result<u32, UnrollFault>
    ensures by { IfOk result (λ by. length counted.now.net.gates + length counted.now.net.latches + by ≡ unrolled_size_by counted.now) }
    ensures small { OnOk result (unrolled_size_by counted.now ≤ MAX_REWRITTEN_ITEMS) }
    ensures fault { IfErr result (λ fault. (fault ≡ UnrollFault.TooLarge (unrolled_size_by counted.now)) × (MAX_REWRITTEN_ITEMS < unrolled_size_by counted.now)) }
    ensures is { IsCounted counted.now }
{
    let size = unrolled_size(counted);
    if size > u64::from(MAX_REWRITTEN_ITEMS) {
        return Err(UnrollFault::TooLarge { size });
    }
    let net = counted.net();
    Ok(size as u32 - net.gates() - net.latches())
}

/// The netlist without loops that stands for a netlist whose loops need so many sweeps.
///
/// It has the netlist's name, inputs, latches, outputs and clock. Its gates are the constant 0, where there is a
/// loop; then the copies number 1, 2, .. of the gates of each loop, as many as the loop needs sweeps, in flat
/// order; and then the netlist's own gates. A copy reads cut wires of its loop from the copy before, and a gate
/// itself from the last copy (Malik 1994). Where the sweeps bring the cut wires to the fixpoint, each signal of
/// the netlist has in the new one a value above its value here.
///
/// The condition is that there are at most 4,000,000,000 inputs. The time is linear in what it makes.
///
/// # Errors
///
/// `TooLarge` exactly where the new netlist has over 4,000,000 gates and latches, with their number; else
/// `Memory` where memory runs out.
pub fn unroll_counted(alloc: Global, counted: &CountedLoops<'_>) -> Result<Netlist, UnrollFault>
    requires { length counted.now.net.inputs ≤ 4000000000 }
    ensures unrolled { IfOk result (λ other. other ≡ unrolled_by counted.now) }
    ensures small { OnOk result (unrolled_size_by counted.now ≤ MAX_REWRITTEN_ITEMS) }
    ensures fault { IfErr result (IsUnrollFault (unrolled_size_by counted.now)) }
    ensures valid { IfOk result IsNetlist }
    ensures loop_free { IfOk result IsLoopFree }
    ensures interface { IfOk result (KeepsInterface counted.now.net) }
    ensures tells { IfOk result (λ other. (v : List Trit) → AreEnough counted.now.net (counted_loops counted.now) (counted_sweeps counted.now) v → TellsAsMuchAt counted.now.net other v) }
{
    let by = shift_of(counted)?;
    let parts = unrolled_parts(alloc, counted, by)?;
    match Netlist::new(alloc, parts) {
        Ok(other) => Ok(other),
        Err(fault) => Err(want_of_memory(fault)),
    }
}

/// `unroll_counted` of a netlist, its blocks, its cut wires and their sweeps.
///
/// The condition is also that the blocks and the cut are the netlist's, and that there is a number for each block.
///
/// # Errors
///
/// Those of `unroll_counted`.
pub fn unroll(
    alloc: Global,
    net: &Netlist,
    blocks: &Blocks,
    cut: &Cut,
    sweeps: &SweepCounts,
) -> Result<Netlist, UnrollFault>
    requires blocks { AreBlocksOf net.now blocks.now }
    requires cut { IsCutOf net.now cut.now }
    requires sweeps { length sweeps.now.per_block ≡ length blocks.now.list }
    requires inputs { length net.now.inputs ≤ 4000000000 }
    ensures unrolled { IfOk result (λ other. other ≡ unrolled net.now (loops_by blocks.now cut.now) (sweeps_of blocks.now sweeps.now)) }
    ensures small { OnOk result (size_of net.now (in_one_loop blocks.now) (sweeps_of blocks.now sweeps.now) ≤ MAX_REWRITTEN_ITEMS) }
    ensures fault { IfErr result (IsUnrollFault (size_of net.now (in_one_loop blocks.now) (sweeps_of blocks.now sweeps.now))) }
    ensures valid { IfOk result IsNetlist }
    ensures loop_free { IfOk result IsLoopFree }
    ensures interface { IfOk result (KeepsInterface net.now) }
    ensures tells { IfOk result (λ other. (v : List Trit) → AreEnough net.now (loops_by blocks.now cut.now) (sweeps_of blocks.now sweeps.now) v → TellsAsMuchAt net.now other v) }
{
    let looped = LoopedNetlist::new(net, blocks, cut);
    let counted = CountedLoops::new(&looped, sweeps);
    unroll_counted(alloc, &counted)
}
