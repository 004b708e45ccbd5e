//! The cut wires of a netlist's loops.
//!
//! Gates are entered in flat order, and each that would close a walk through those entered before is a cut wire
//! instead. Most such walks pass a landmark, and are seen without a search. The entered gates have levels that rise
//! along their pins, so that a search from one need not go above the levels of what it reads. What it finds is raised
//! above these (levels after Bender, Fineman, Gilbert and Tarjan 2015, with one search in place of their two, so their
//! bound isn't claimed).

ghost use Rattle.std.specs.Prelude.{◌≡◌, ◌<◌, ◌+◌, ◌^◌, ◌↔◌, ℕ, true, length, set, IfOk, OnOk, Contains};
ghost use Rattle.loops.specs.Blocks.{AreBlocksOf};
ghost use Rattle.loops.specs.Cuts.{IsCutOf};
ghost use Rattle.feedback_cuts.specs.Keeping.{AreLinks, AreLow, HasParted, IsCutSearch, IsFresh};
ghost use Rattle.loops.specs.Links.{IsLoopPin};
ghost use Rattle.loops.specs.Rows.{InRow};
ghost use Rattle.feedback_cuts.specs.Searching.{Connects, IsFree, IsReady};
ghost use Rattle.loops.specs.Walks.{AnyGate};

use crate::kept::{reads_itself, sources_before};
use crate::kept_gates::KeptGates;
use crate::landmarks::Landmarks;
use crate::levels::{highest, raise};
use crate::search::Search;
use cyc_base::Bits;
use loops::{Blocks, Cut, GroupedNetlist};
use netlist::Netlist;
use std::alloc::{AllocError, Global};

/// Raises levels so that the gates which the goal reads are below those that read it, or answers that a walk leads from
/// one of these to one of those.
fn part(kept: &mut KeptGates, search: &mut Search, goal: u32) -> Result<bool, AllocError>
    requires fits { goal + 1 < 2 ^ 32 }
    requires goal { goal < length kept.old.levels.items }
    requires links { AreLinks kept.old.readers.items kept.old.sources.items kept.old.levels.items }
    requires low { AreLow goal kept.old.levels.items }
    requires ready { IsReady (length kept.old.levels.items) goal search.old.marks.items }
    ensures readers { kept.new.readers ≡ kept.old.readers }
    ensures sources { kept.new.sources ≡ kept.old.sources }
    ensures parted { IfOk result (HasParted kept.old.readers.items kept.old.sources.items goal kept.old.levels.items kept.new.levels.items) }
    ensures ready { OnOk result (IsReady (length kept.old.levels.items) (goal + 1) search.new.marks.items) }
    ensures found { OnOk result ((n : ℕ) → Contains search.new.found.items n → Connects (InRow kept.old.readers.items) AnyGate goal n) }
{
    let links = kept.links();
    let ahead = links.readers[goal as usize].gates();
    let behind = links.sources[goal as usize].gates();
    let high = highest(links.levels, behind);
    if search.spread(links.readers, links.levels, high, goal, ahead, behind)? {
        return Ok(true);
    }
    raise(&mut kept.levels, &search.found, high + 1);
    Ok(false)
}

/// The gates that were gone through, and what is kept from one to the next.
struct CutSearch {
    kept: KeptGates,
    search: Search,
    landmarks: Landmarks,
}

impl Drop for CutSearch {
    fn drop(self) {
        let CutSearch {
            kept: _,
            search: _,
            landmarks: _,
        } = self;
    }
}

impl CutSearch {
    /// No gate was gone through.
    fn new(alloc: Global, gates: u32) -> Result<CutSearch, AllocError>
        ensures { IfOk result (IsFresh gates) }
    {
        let kept = KeptGates::new(alloc, gates)?;
        let search = Search::new(alloc, gates)?;
        Ok(CutSearch {
            kept,
            search,
            landmarks: Landmarks::new(alloc),
        })
    }

    /// Enters a gate, or answers that it is a cut wire: a walk leads from it back to it through gates of its loop that
    /// come before it and are no cut wires.
    fn enter(
        &mut self,
        alloc: Global,
        grouped: &GroupedNetlist<'_>,
        cut: &[bool],
        gate: u32,
    ) -> Result<bool, AllocError>
        requires gate { gate < length grouped.now.net.gates }
        requires fits { gate + 1 < 2 ^ 32 }
        requires cut { length cut.now ≡ length grouped.now.net.gates }
        requires search { IsCutSearch (IsLoopPin grouped.now.net grouped.now.blocks) cut.now gate self.old }
        ensures leads { IfOk result (λ leads. (leads ≡ true) ↔ Connects (IsLoopPin grouped.now.net grouped.now.blocks) (IsFree cut.now gate) gate gate) }
        ensures search { IfOk result (λ leads. IsCutSearch (IsLoopPin grouped.now.net grouped.now.blocks) (set cut.now gate leads) (gate + 1) self.new) }
    {
        if reads_itself(grouped, gate) {
            return Ok(true);
        }
        let row = sources_before(alloc, grouped, cut, gate)?;
        self.kept.sources[gate as usize] = row;
        if self.landmarks.is_closed(self.kept.links(), gate) {
            return Ok(true);
        }
        if part(&mut self.kept, &mut self.search, gate)? {
            let gates = grouped.net().gates();
            self.landmarks
                .learn(alloc, self.kept.links(), gates, &self.search)?;
            return Ok(true);
        }
        self.kept.insert(grouped, gate)?;
        self.landmarks.extend(self.kept.links(), gate)?;
        Ok(false)
    }
}

/// The cut wires of a netlist, found in flat order: a gate is one exactly where a walk leads from it
/// back to itself through gates of its loop that come before it and are no cut wires.
///
/// The condition is that these are the netlist's blocks.
pub fn find_cut(alloc: Global, net: &Netlist, blocks: &Blocks) -> Result<Cut, AllocError>
    requires { AreBlocksOf net.now blocks.now }
    ensures { IfOk result (IsCutOf net.now) }
{
    let grouped = GroupedNetlist::new(net, blocks);
    let gates = net.gates();
    let mut cut = vec![in alloc; false; gates as usize]?;
    let mut search = CutSearch::new(alloc, gates)?;
    for gate in 0..gates {
        let leads = search.enter(alloc, &grouped, &cut, gate)?;
        cut[gate as usize] = leads;
    }
    Ok(Cut {
        wires: Bits::of(cut),
    })
}
