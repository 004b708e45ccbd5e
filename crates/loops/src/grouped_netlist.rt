//! A netlist with its blocks, and the pins within its loops.

ghost use Rattle.std.specs.Prelude.{◌≡◌, ◌<◌, ℕ, length, IfSome, IfNone};
ghost use Rattle.netlist.specs.Netlists.{IsSignal};
ghost use Rattle.loops.specs.Blocks.{AreBlocksOf, block_at, home_of};
ghost use Rattle.loops.specs.Cuts.{in_one_loop};
ghost use Rattle.loops.specs.Links.{IsLoopSource};

use crate::structure::{Block, Blocks};
use cyc_base::Sig;
use netlist::Netlist;
use std::marker::Model;

/// A netlist with its own blocks.
#[derive(Drop)]
pub struct GroupedNetlist<'a> {
    net: &'a Netlist,
    blocks: &'a Blocks,
}

impl<'a> Model for GroupedNetlist<'a> {
    ghost use Rattle.loops.specs.Blocks.{AreBlocksOf};
    ghost use Rattle.loops.specs.Looped.{Grouped};

    ghost Value = { Grouped };

    ghost view = { λ g. record { net = g.net.now; blocks = g.blocks.now } };

    ghost invariant = { λ g. AreBlocksOf g.net.now g.blocks.now };
}

impl<'a> GroupedNetlist<'a> {
    /// A netlist with these blocks.
    ///
    /// The condition is that they are the netlist's.
    pub fn new(net: &'a Netlist, blocks: &'a Blocks) -> GroupedNetlist<'a>
        requires { AreBlocksOf net.now blocks.now }
        ensures { result ≡ record { net = net.now; blocks = blocks.now } }
    {
        GroupedNetlist { net, blocks }
    }

    /// The netlist.
    pub fn net(&self) -> &'a Netlist
        ensures net { result.now ≡ self.now.net }
        ensures grouped { AreBlocksOf self.now.net self.now.blocks }
    {
        self.net
    }

    /// Its blocks.
    pub fn blocks(&self) -> &'a Blocks
        ensures blocks { result.now ≡ self.now.blocks }
        ensures grouped { AreBlocksOf self.now.net self.now.blocks }
    {
        self.blocks
    }

    /// The place of a gate's block.
    fn home(&self, gate: u32) -> usize
        requires { gate < length self.now.net.gates }
        ensures is { result ≡ home_of self.now.blocks gate }
        ensures inside { result < length self.now.blocks.list }
    {
        self.blocks.home.items()[gate as usize] as usize
    }

    /// The block of a gate.
    pub fn block_of(&self, gate: u32) -> &'a Block
        requires { gate < length self.now.net.gates }
        ensures { result.now ≡ block_at self.now.blocks (home_of self.now.blocks gate) }
    {
        let home = self.home(gate);
        &self.blocks.list.items()[home]
    }

    /// Whether two gates are in one block, and this is a loop.
    pub fn are_in_one_loop(&self, gate: u32, other: u32) -> bool
        requires gate { gate < length self.now.net.gates }
        requires other { other < length self.now.net.gates }
        ensures { result ≡ in_one_loop self.now.blocks gate other }
    {
        let home = self.blocks.home.items();
        let place = home[gate as usize];
        self.blocks.list.items()[place as usize].looped && place == home[other as usize]
    }

    /// The gate that drives a pin of this gate, if it is in the gate's loop.
    pub fn loop_source(&self, gate: u32, pin: Sig) -> Option<u32>
        requires gate { gate < length self.now.net.gates }
        requires pin { IsSignal self.now.net pin }
        ensures some { IfSome result (IsLoopSource self.now.net self.now.blocks gate pin) }
        ensures none { IfNone result ((a : ℕ) → ¬ IsLoopSource self.now.net self.now.blocks gate pin a) }
    {
        let source = self.net.driver(pin)?;
        if !self.are_in_one_loop(source, gate) {
            return None;
        }
        Some(source)
    }
}
