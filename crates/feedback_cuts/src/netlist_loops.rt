//! The loops that are found in a netlist.

ghost use Rattle.std.specs.Prelude.{◌≡◌, IfOk};
ghost use Rattle.loops.specs.Looped.{IsLooped};

use crate::cuts::find_cut;
use loops::{Blocks, Cut, LoopedNetlist, find_blocks};
use netlist::Netlist;
use std::alloc::{AllocError, Global};
use std::marker::Model;

/// The blocks and the cut wires of a netlist.
pub struct NetlistLoops<'a> {
    net: &'a Netlist,
    blocks: Blocks,
    cut: Cut,
}

impl<'a> Drop for NetlistLoops<'a> {
    fn drop(self) {
        let NetlistLoops {
            net: _,
            blocks: _,
            cut: _,
        } = self;
    }
}

impl<'a> Model for NetlistLoops<'a> {
    ghost use Rattle.loops.specs.Looped.{Looped, IsLooped};

    ghost Value = { Looped };

    ghost view = { λ l. record { net = l.net.now; blocks = l.blocks; cut = l.cut } };

    ghost invariant = { λ l. IsLooped (record { net = l.net.now; blocks = l.blocks; cut = l.cut }) };
}

impl<'a> NetlistLoops<'a> {
    /// Those of this netlist.
    pub fn find(alloc: Global, net: &'a Netlist) -> Result<NetlistLoops<'a>, AllocError>
        ensures { IfOk result (λ found. found.net ≡ net.now) }
    {
        let blocks = find_blocks(alloc, net)?;
        let cut = find_cut(alloc, net, &blocks)?;
        Ok(NetlistLoops { net, blocks, cut })
    }

    /// The netlist with them.
    pub fn looped(&self) -> LoopedNetlist<'_>
        ensures looped { result ≡ self.now }
        ensures is { IsLooped self.now }
    {
        LoopedNetlist::new(self.net, &self.blocks, &self.cut)
    }
}
