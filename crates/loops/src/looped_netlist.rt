//! A netlist with its blocks and its cut wires.

ghost use Rattle.std.specs.Prelude.{◌≡◌, ◌<◌, Some, None, if◌then◌else◌, length, All, IfSome};
ghost use Rattle.netlist.specs.Netlists.{IsNetlist, IsSignal};
ghost use Rattle.loops.specs.Blocks.{AreBlocksOf, block_at};
ghost use Rattle.loops.specs.Cuts.{IsCutOf};
ghost use Rattle.loops.specs.Found.{loops_of};
ghost use Rattle.loops.specs.Looped.{IsLooped};
ghost use Rattle.loops.specs.Sweeps.{gate_of, in_loop_of};

use crate::grouped_netlist::GroupedNetlist;
use crate::structure::{Blocks, Cut};
use cyc_base::Sig;
use netlist::Netlist;
use std::marker::Model;

/// A netlist with its own blocks and its own cut wires.
#[derive(Drop)]
pub struct LoopedNetlist<'a> {
    grouped: GroupedNetlist<'a>,
    cut: &'a Cut,
}

impl<'a> Model for LoopedNetlist<'a> {
    ghost use Rattle.loops.specs.Looped.{Looped, IsLooped};

    ghost Value = { Looped };

    ghost view = { λ l. record { net = l.grouped.net; blocks = l.grouped.blocks; cut = l.cut.now } };

    ghost invariant = { λ l. IsLooped (record { net = l.grouped.net; blocks = l.grouped.blocks; cut = l.cut.now }) };
}

impl<'a> LoopedNetlist<'a> {
    /// A netlist with these blocks and cut wires.
    ///
    /// The condition is that they are the netlist's.
    pub fn new(net: &'a Netlist, blocks: &'a Blocks, cut: &'a Cut) -> LoopedNetlist<'a>
        requires blocks { AreBlocksOf net.now blocks.now }
        requires cut { IsCutOf net.now cut.now }
        ensures { result ≡ record { net = net.now; blocks = blocks.now; cut = cut.now } }
    {
        LoopedNetlist {
            grouped: GroupedNetlist::new(net, blocks),
            cut,
        }
    }

    /// The netlist with its blocks alone.
    pub(crate) fn grouped(&self) -> &GroupedNetlist<'a>
        ensures grouped { result.now ≡ record { net = self.now.net; blocks = self.now.blocks } }
        ensures looped { IsLooped self.now }
    {
        &self.grouped
    }

    /// The netlist.
    pub fn net(&self) -> &'a Netlist
        ensures net { result.now ≡ self.now.net }
        ensures looped { IsLooped self.now }
    {
        self.grouped.net()
    }

    /// Its blocks.
    pub fn blocks(&self) -> &'a Blocks
        ensures blocks { result.now ≡ self.now.blocks }
        ensures looped { IsLooped self.now }
    {
        self.grouped.blocks()
    }

    /// Its cut wires.
    pub fn cut(&self) -> &'a Cut
        ensures cut { result.now ≡ self.now.cut }
        ensures looped { IsLooped self.now }
    {
        self.cut
    }

    /// Whether a gate is a cut wire.
    pub fn is_cut(&self, gate: u32) -> bool
        requires { gate < length self.now.net.gates }
        ensures { result ≡ (loops_of self.now.net).cut gate }
    {
        self.cut.wires.items()[gate as usize]
    }

    /// Whether two gates are in one loop.
    pub fn are_in_one_loop(&self, gate: u32, other: u32) -> bool
        requires gate { gate < length self.now.net.gates }
        requires other { other < length self.now.net.gates }
        ensures { result ≡ (loops_of self.now.net).same gate other }
    {
        self.grouped.are_in_one_loop(gate, other)
    }
}

/// The gates of the block at this place.
///
/// The condition is that there is one at this place.
pub fn gates_at<'a>(looped: &LoopedNetlist<'a>, place: usize) -> &'a [u32]
    requires { place < length looped.now.blocks.list }
    ensures is { result.now ≡ (block_at looped.now.blocks place).gates }
    ensures within { All (λ n. n < length looped.now.net.gates) result.now }
    ensures valid { IsNetlist looped.now.net }
{
    looped.net().laws();
    looped.blocks().list.items()[place].gates.items()
}

/// The gate that drives a pin of this gate, where it is in this gate's loop.
///
/// The condition is that the gate and the pin are the netlist's.
pub fn source_in_loop(looped: &LoopedNetlist<'_>, gate: u32, pin: Sig) -> Option<u32>
    requires gate { gate < length looped.now.net.gates }
    requires pin { IsSignal looped.now.net pin }
    ensures source { result ≡ (if in_loop_of looped.now.net (loops_of looped.now.net) gate pin then Some (gate_of looped.now.net pin) else None) }
    ensures within { IfSome result (λ source. source < length looped.now.net.gates) }
    ensures looped { IsLooped looped.now }
{
    let source = looped.net().driver(pin)?;
    looped.are_in_one_loop(gate, source).then_some(source)
}
