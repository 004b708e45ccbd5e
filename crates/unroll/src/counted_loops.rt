//! A netlist with its loops, and how many sweeps each of them needs.

ghost use Rattle.std.specs.Prelude.{◌≡◌, ◌<◌, length};
ghost use Rattle.unroll.specs.Counted.{counted_sweeps, looped_in, with_sweeps, IsCounted};

use loops::{LoopedNetlist, SweepCounts};
use netlist::Netlist;
use std::marker::Model;

/// A netlist with its loops, and how many sweeps each of them needs.
#[derive(Drop)]
pub struct CountedLoops<'a> {
    looped: &'a LoopedNetlist<'a>,
    sweeps: &'a SweepCounts,
}

impl<'a> Model for CountedLoops<'a> {
    ghost use Rattle.unroll.specs.Counted.{Counted, with_sweeps, IsCounted};

    ghost Value = { Counted };

    ghost view = { λ c. with_sweeps c.looped.now c.sweeps.now };

    ghost invariant = { λ c. IsCounted (with_sweeps c.looped.now c.sweeps.now) };
}

impl<'a> CountedLoops<'a> {
    /// A netlist with its loops and these numbers of sweeps.
    ///
    /// The condition is that there is a number for each block.
    pub fn new(looped: &'a LoopedNetlist<'a>, sweeps: &'a SweepCounts) -> CountedLoops<'a>
        requires { length sweeps.now.per_block ≡ length looped.now.blocks.list }
        ensures { result ≡ with_sweeps looped.now sweeps.now }
    {
        looped.net().laws();
        CountedLoops { looped, sweeps }
    }

    /// The netlist with its loops.
    pub fn looped(&self) -> &'a LoopedNetlist<'a>
        ensures looped { result.now ≡ looped_in self.now }
        ensures is { IsCounted self.now }
    {
        self.looped
    }

    /// The netlist.
    pub fn net(&self) -> &'a Netlist
        ensures net { result.now ≡ self.now.net }
        ensures is { IsCounted self.now }
    {
        self.looped.net()
    }

    /// How many sweeps the loop of a gate needs.
    pub fn sweeps_of(&self, gate: u32) -> u32
        requires { gate < length self.now.net.gates }
        ensures { result ≡ counted_sweeps self.now gate }
    {
        let home = self.looped.blocks().home.items()[gate as usize];
        self.sweeps.per_block.items()[home as usize]
    }
}
