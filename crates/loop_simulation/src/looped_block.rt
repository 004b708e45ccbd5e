//! A block of a netlist that is a loop, with the places of its cut wires.

ghost use Rattle.std.specs.Prelude.{◌≡◌, ◌<◌, ◌==◌, true, length, All, IfOk, IfSome};
ghost use Rattle.netlist.specs.Netlists.{IsSignal};
ghost use Rattle.loops.specs.Blocks.{block_at, home_of};
ghost use Rattle.loops.specs.Cuts.{is_cut};
ghost use Rattle.loop_simulation.specs.LoopsAt.{gates_in, loop_at, looped_in, AreCutPlaces, IsLoopAt};
ghost use Rattle.loop_simulation.specs.Readers.{source_of};

use cyc_base::Sig;
use loops::{Blocks, Cut, LoopedNetlist};
use netlist::Netlist;
use std::alloc::{AllocError, Global};
use std::marker::Model;

/// A block of a netlist that is a loop.
#[derive(Drop)]
pub struct LoopedBlock<'a> {
    looped: &'a LoopedNetlist<'a>,
    // Its place among the blocks.
    number: u32,
    // The places of the cut wires among its gates.
    cuts: Vec<usize>,
}

impl<'a> Model for LoopedBlock<'a> {
    ghost use Rattle.loop_simulation.specs.LoopsAt.{LoopAt, IsLoopAt, loop_at};

    ghost Value = { LoopAt };

    ghost view = { λ b. loop_at b.looped.now b.number b.cuts.items };

    ghost invariant = { λ b. IsLoopAt (loop_at b.looped.now b.number b.cuts.items) };
}

/// The places of the cut wires among these gates.
fn cut_places(alloc: Global, gates: &[u32], wires: &[bool]) -> Result<Vec<usize>, AllocError>
    requires { All (λ n. n < length wires.now) gates.now }
    ensures { IfOk result (λ places. AreCutPlaces (is_cut wires.now) gates.now places.items) }
{
    let mut places = Vec::new(alloc);
    for place in 0..gates.len() {
        if wires[gates[place] as usize] {
            places.push(place)?;
        }
    }
    Ok(places)
}

/// The gates of the block at this place.
fn gates_of(blocks: &Blocks, number: u32) -> &[u32]
    requires { number < length blocks.now.list }
    ensures { result.now ≡ (block_at blocks.now number).gates }
{
    blocks.list.items()[number as usize].gates.items()
}

impl<'a> LoopedBlock<'a> {
    /// The block at this place.
    ///
    /// The condition is that it is a loop.
    pub fn of(
        alloc: Global,
        looped: &'a LoopedNetlist<'a>,
        number: u32,
    ) -> Result<LoopedBlock<'a>, AllocError>
        requires number { number < length looped.now.blocks.list }
        requires looped { (block_at looped.now.blocks number).looped ≡ true }
        ensures { IfOk result (λ block. block ≡ loop_at looped.now number block.cuts) }
    {
        looped.net().laws();
        let gates = gates_of(looped.blocks(), number);
        let cuts = cut_places(alloc, gates, looped.cut().wires.items())?;
        Ok(LoopedBlock {
            looped,
            number,
            cuts,
        })
    }

    /// The netlist with its loops.
    pub fn looped(&self) -> &'a LoopedNetlist<'a>
        ensures looped { result.now ≡ looped_in self.now }
        ensures is { IsLoopAt self.now }
    {
        self.looped
    }

    /// The netlist.
    pub fn net(&self) -> &'a Netlist
        ensures net { result.now ≡ self.now.net }
        ensures is { IsLoopAt self.now }
    {
        self.looped.net()
    }

    /// The place of the block.
    pub fn number(&self) -> u32
        ensures { result ≡ self.now.number }
    {
        self.number
    }

    /// The gates of the loop.
    pub fn gates(&self) -> &'a [u32]
        ensures gates { result.now ≡ gates_in self.now }
        ensures is { IsLoopAt self.now }
    {
        gates_of(self.looped.blocks(), self.number)
    }

    /// The places of the cut wires among them.
    pub fn cuts(&self) -> &[usize]
        ensures cuts { result.now ≡ self.now.cuts }
        ensures is { IsLoopAt self.now }
    {
        &self.cuts
    }

    /// How many cut wires the loop has.
    pub fn cut_count(&self) -> u32
        ensures count { result ≡ length self.now.cuts }
        ensures is { IsLoopAt self.now }
    {
        self.cuts.len() as u32
    }

    /// Whether a gate is in the loop.
    pub(crate) fn contains(&self, gate: u32) -> bool
        requires { gate < length self.now.net.gates }
        ensures { result ≡ (home_of self.now.blocks gate == self.now.number) }
    {
        self.looped.blocks().home.items()[gate as usize] == self.number
    }

    /// The gate of the loop that drives a signal.
    pub(crate) fn source(&self, signal: Sig) -> Option<u32>
        requires { IsSignal self.now.net signal }
        ensures source { result ≡ source_of self.now signal }
        ensures fits { IfSome result (λ gate. gate < length self.now.net.gates) }
    {
        match self.net().driver(signal) {
            Some(gate) if self.contains(gate) => Some(gate),
            _ => None,
        }
    }

    /// Whether a gate is a cut wire.
    pub(crate) fn is_cut(&self, gate: u32) -> bool
        requires { gate < length self.now.net.gates }
        ensures { result ≡ is_cut self.now.cut.wires gate }
    {
        self.looped.cut().wires.items()[gate as usize]
    }
}
