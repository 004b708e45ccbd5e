//! What a netlist is unrolled by.

ghost use Rattle.std.specs.Prelude.{◌≡◌, ◌<◌, ◌≤◌, ◌+◌, length};
ghost use Rattle.netlist.specs.Netlists.{count};
ghost use Rattle.unroll.specs.Counted.{counted_loops, counted_sweeps, IsCounted};
ghost use Rattle.unroll.specs.Marks.{mark as mark_of};
ghost use Rattle.unroll.specs.Unrolled.{copies_of as copies_of_gate, has_loop as has_some_loop, most, shift};

use crate::counted_loops::CountedLoops;
use crate::sizes::{copies_of, has_loop};
use cyc_base::Name;

/// What a netlist is unrolled by.
pub(crate) struct Plan<'a> {
    pub(crate) counted: &'a CountedLoops<'a>,
    /// The mark of new names.
    pub(crate) mark: Name,
    /// How many gates stand before the netlist's own.
    pub(crate) by: u32,
    ghost marked: { mark ≡ mark_of counted.now.net },
    ghost shifted: { by ≡ shift counted.now.net (counted_loops counted.now) (counted_sweeps counted.now) },
    ghost fits: { count counted.now.net + by ≤ 4294967295 },
}

impl<'a> Drop for Plan<'a> {
    fn drop(self) {
        let Plan {
            counted: _,
            mark: _,
            by: _,
        } = self;
    }
}

impl<'a> Plan<'a> {
    ghost use Rattle.unroll.specs.Plans.{loops_in, net_of, sweeps_in};

    /// How many copies a gate has.
    pub(crate) fn copies_of(&self, gate: u32) -> u32
        requires { gate < length (net_of self.now).gates }
        ensures { result ≡ copies_of_gate (loops_in self.now).same (sweeps_in self.now) gate }
    {
        copies_of(self.counted, gate)
    }

    /// The most copies that a gate has.
    #[tactic(auto, using(cyc_base::proofs::TildeLemmas::max_is, crate::proofs::SizeLemmas::most_next))]
    pub(crate) fn most_copies(&self) -> u32
        ensures most { result ≡ most (loops_in self.now).same (sweeps_in self.now) (length (net_of self.now).gates) }
        ensures is { IsCounted self.now.counted.now }
    {
        let mut most = 0;
        for gate in 0..self.counted.net().gates() {
            most = most.max(self.copies_of(gate));
        }
        most
    }

    /// Whether the netlist has a loop.
    pub(crate) fn has_loop(&self) -> bool
        ensures { result ≡ has_some_loop (net_of self.now) (loops_in self.now).same }
    {
        has_loop(self.counted.looped())
    }
}
