//! How many copies gates have, and how large the unrolled netlist is.

ghost use Rattle.std.specs.Prelude.{◌≡◌, ◌<◌, ◌≤◌, ◌*◌, length};
ghost use Rattle.std.specs.List.{range_with_len, sum_by};
ghost use Rattle.loops.specs.Cuts.{in_one_loop};
ghost use Rattle.unroll.specs.Counted.{counted_sweeps, unrolled_size_by, IsCounted};
ghost use Rattle.unroll.specs.Unrolled.{copies_of as copies_of_gate, has_loop as has_some_loop};

use crate::counted_loops::CountedLoops;
use loops::LoopedNetlist;

/// Whether a gate is in a loop.
fn is_looped(looped: &LoopedNetlist<'_>, gate: u32) -> bool
    requires { gate < length looped.now.net.gates }
    ensures { result ≡ in_one_loop looped.now.blocks gate gate }
{
    let blocks = looped.blocks();
    let home = blocks.home.items()[gate as usize];
    blocks.list.items()[home as usize].looped
}

/// How many copies a gate has: one for each sweep of its loop, and none outside of loops.
pub(crate) fn copies_of(counted: &CountedLoops<'_>, gate: u32) -> u32
    requires { gate < length counted.now.net.gates }
    ensures { result ≡ copies_of_gate (in_one_loop counted.now.blocks) (counted_sweeps counted.now) gate }
{
    if is_looped(counted.looped(), gate) {
        counted.sweeps_of(gate)
    } else {
        0
    }
}

#[tactic(auto, using(crate::proofs::SizeLemmas::sum_next))]
fn all_copies(counted: &CountedLoops<'_>) -> u64
    ensures all { result ≡ sum_by (copies_of_gate (in_one_loop counted.now.blocks) (counted_sweeps counted.now)) (range_with_len 0 (length counted.now.net.gates)) }
    ensures bound { result ≤ length counted.now.net.gates * 4294967295 }
{
    let mut all = 0;
    for gate in 0..counted.net().gates() {
        all += u64::from(copies_of(counted, gate));
    }
    all
}

/// Whether the netlist has a loop.
pub(crate) fn has_loop(looped: &LoopedNetlist<'_>) -> bool
    ensures { result ≡ has_some_loop looped.now.net (in_one_loop looped.now.blocks) }
{
    (0..looped.net().gates()).any(|gate| is_looped(looped, gate))
}

/// How many gates and latches the unrolled netlist has, also where these are too many for `unroll`. No memory is
/// taken.
pub fn unrolled_size(counted: &CountedLoops<'_>) -> u64
    ensures size { result ≡ unrolled_size_by counted.now }
    ensures is { IsCounted counted.now }
{
    let net = counted.net();
    let own = u64::from(net.gates()) + u64::from(net.latches());
    let size = own + all_copies(counted);
    if has_loop(counted.looped()) {
        size + 1
    } else {
        size
    }
}
