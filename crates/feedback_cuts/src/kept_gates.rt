//! The gates entered so far that are no cut wires: who reads whom within loops, and levels that rise along pins.

ghost use Rattle.std.specs.Prelude.{◌≡◌, ◌<◌, ◌≤◌, ℕ, [], length, replicate, IfOk, OnOk};
ghost use Rattle.std.specs.List.{All};

use crate::kept::{add_reader, add_source};
use crate::levels::highest;
use loops::{GateList, GroupedNetlist, empty_lists};
use std::alloc::{AllocError, Global};

/// For each gate those that read it, those that it reads, and its level.
pub(crate) struct KeptGates {
    pub readers: Vec<GateList>,
    pub sources: Vec<GateList>,
    pub levels: Vec<u32>,
}

impl Drop for KeptGates {
    fn drop(self) {
        let KeptGates {
            readers: _,
            sources: _,
            levels: _,
        } = self;
    }
}

/// The same, to be read: there is a row and a level for each gate, and rows name gates alone.
#[derive(Clone, Copy)]
pub(crate) struct KeptLinks<'a> {
    pub readers: &'a [GateList],
    pub sources: &'a [GateList],
    pub levels: &'a [u32],
    ghost readers_size: { length readers.now ≡ length levels.now },
    ghost sources_size: { length sources.now ≡ length levels.now },
    ghost readers_within: { All (All (λ gate. gate < length levels.now)) readers.now },
    ghost sources_within: { All (All (λ gate. gate < length levels.now)) sources.now },
}

impl KeptGates {
    ghost use Rattle.netlist.specs.Netlists.{gate_at};
    ghost use Rattle.feedback_cuts.specs.Keeping.{AreLinks, HaveGained, HaveGainedPins, IsPlaced};
    ghost use Rattle.loops.specs.Rows.{InRow, row_at};
    ghost use Rattle.feedback_cuts.specs.Searching.{level_at};

    /// No gate is entered yet.
    pub fn new(alloc: Global, gates: u32) -> Result<KeptGates, AllocError>
        ensures readers { IfOk result (λ kept. kept.readers.items ≡ replicate gates []) }
        ensures sources { IfOk result (λ kept. kept.sources.items ≡ replicate gates []) }
        ensures levels { IfOk result (λ kept. kept.levels.items ≡ replicate gates 0) }
    {
        let readers = empty_lists(alloc, gates)?;
        let sources = empty_lists(alloc, gates)?;
        let levels = vec![in alloc; 0; gates as usize]?;
        Ok(KeptGates {
            readers,
            sources,
            levels,
        })
    }

    pub fn links(&self) -> KeptLinks<'_>
        requires { AreLinks self.now.readers.items self.now.sources.items self.now.levels.items }
        ensures readers { result.readers.now ≡ self.now.readers.items }
        ensures sources { result.sources.now ≡ self.now.sources.items }
        ensures levels { result.levels.now ≡ self.now.levels.items }
    {
        KeptLinks {
            readers: &self.readers,
            sources: &self.sources,
            levels: &self.levels,
        }
    }

    /// Enters a gate whose sources are there: it gets the highest of their levels, and a place in the rows of those and of
    /// its readers.
    pub fn insert(&mut self, grouped: &GroupedNetlist<'_>, gate: u32) -> Result<(), AllocError>
        requires gate { gate < length grouped.now.net.gates }
        requires size { length self.old.levels.items ≡ length grouped.now.net.gates }
        requires links { AreLinks self.old.readers.items self.old.sources.items self.old.levels.items }
        requires apart { (p s : ℕ) → InRow self.old.sources.items gate p → InRow self.old.readers.items gate s → level_at self.old.levels.items p ≤ level_at self.old.levels.items s }
        ensures placed { OnOk result (IsPlaced (row_at self.old.sources.items gate) (row_at self.old.readers.items gate) gate self.old.levels.items self.new.levels.items) }
        ensures sources { OnOk result (HaveGained (row_at self.old.readers.items gate) gate (length (row_at self.old.readers.items gate)) self.old.sources.items self.new.sources.items) }
        ensures readers { OnOk result (HaveGainedPins grouped.now.net grouped.now.blocks gate (length (gate_at grouped.now.net gate).pins) self.old.readers.items self.new.readers.items) }
    {
        let behind = self.sources[gate as usize].gates();
        let ahead = self.readers[gate as usize].gates();
        self.levels[gate as usize] = highest(&self.levels, behind);
        add_source(&mut self.sources, ahead, gate)?;
        add_reader(&mut self.readers, grouped, gate)
    }
}
