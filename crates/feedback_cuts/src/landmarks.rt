//! Landmarks: a few gates of which it is kept to which gates they lead and which lead to them, so that a walk past one
//! of them is seen without a search (hops of Cohen, Halperin, Kaplan and Zwick 2003, kept up to date after Italiano
//! 1986).

ghost use Rattle.std.specs.Prelude.{◌≡◌, ◌<◌, ◌+◌, ◌^◌, ℕ, List, true, length, IfOk, OnOk, Contains};
ghost use Rattle.std.specs.List.{All};
ghost use Rattle.feedback_cuts.specs.Landmarks.{AreLandmarks, IsLandmark, Passes, ReadsBack};
ghost use Rattle.loops.specs.Rows.{row_at};
ghost use Rattle.feedback_cuts.specs.Searching.{Meets};

use crate::kept_gates::KeptLinks;
use crate::search::{Search, meets};
use std::alloc::{AllocError, Global};

/// How many landmarks there are at most.
const MOST: usize = 32;

/// A gate, and two searches from it that go on as gates are entered.
pub(crate) struct Landmark {
    pub gate: u32,
    /// It has marked gates to which the landmark leads.
    pub ahead: Search,
    /// It has marked gates that lead to the landmark.
    pub behind: Search,
}

impl Drop for Landmark {
    fn drop(self) {
        let Landmark {
            gate: _,
            ahead: _,
            behind: _,
        } = self;
    }
}

/// The landmarks, the oldest of which make place for others.
#[derive(Drop)]
pub(crate) struct Landmarks {
    pub list: Vec<Landmark>,
    /// The place of the next one.
    pub next: usize,
    /// How many gates searches have found since the last one was chosen.
    pub found: usize,
}

/// A landmark at a gate.
fn landmark_at(
    alloc: Global,
    links: KeptLinks<'_>,
    gates: u32,
    gate: u32,
) -> Result<Landmark, AllocError>
    requires gates { gates ≡ length links.levels.now }
    requires gate { gate < length links.levels.now }
    requires back { ReadsBack links.readers.now links.sources.now gate }
    ensures { IfOk result (IsLandmark links.entry.readers.now (length links.entry.levels.now)) }
{
    let mut ahead = Search::new(alloc, gates)?;
    ahead.spread(links.readers, links.levels, u32::MAX, gate, &[gate], &[])?;
    let mut behind = Search::new(alloc, gates)?;
    behind.spread(links.sources, links.levels, u32::MAX, gate, &[gate], &[])?;
    Ok(Landmark {
        gate,
        ahead,
        behind,
    })
}

/// Whether a walk is known to lead from one row past the landmark to the other.
fn leads_past(landmark: &Landmark, ahead: &[u32], behind: &[u32]) -> bool
    requires fits { landmark.now.gate + 1 < 2 ^ 32 }
    requires ahead { All (λ gate. gate < length landmark.now.behind.marks.items) ahead.now }
    requires behind { All (λ gate. gate < length landmark.now.ahead.marks.items) behind.now }
    ensures { result ≡ true → Meets landmark.now.gate ahead.now landmark.now.behind.marks.items × Meets landmark.now.gate behind.now landmark.now.ahead.marks.items }
{
    meets(ahead, landmark.gate, &landmark.behind.marks)
        && meets(behind, landmark.gate, &landmark.ahead.marks)
}

impl Landmark {
    /// Goes on from a gate that was entered: the landmark leads to it where it leads to one that the gate reads, and
    /// the gate leads to the landmark where one does that reads the gate.
    fn go_on(&mut self, links: KeptLinks<'_>, gate: u32) -> Result<(), AllocError>
        requires gate { gate < length links.levels.now }
        requires back { ReadsBack links.readers.now links.sources.now gate }
        requires landmark { IsLandmark links.readers.now (length links.levels.now) self.old }
        ensures { OnOk result (IsLandmark links.entry.readers.now (length links.entry.levels.now) self.new) }
    {
        let KeptLinks {
            readers,
            sources,
            levels,
        } = links;
        self.ahead
            .extend(sources, readers, levels, self.gate, gate)?;
        self.behind
            .extend(readers, sources, levels, self.gate, gate)?;
        Ok(())
    }
}

impl Landmarks {
    /// No landmarks.
    pub fn new(alloc: Global) -> Landmarks
        ensures { (readers : List (List ℕ)) → (gates : ℕ) → AreLandmarks readers gates result.list.items }
    {
        Landmarks {
            list: Vec::new(alloc),
            next: 0,
            found: 0,
        }
    }

    /// Whether a walk is known to lead from what reads a gate past a landmark to what the gate reads.
    pub fn is_closed(&self, links: KeptLinks<'_>, gate: u32) -> bool
        requires gate { gate < length links.levels.now }
        requires landmarks { AreLandmarks links.readers.now (length links.levels.now) self.now.list.items }
        ensures { result ≡ true → Passes links.entry.readers.now (row_at links.entry.readers.now gate) (row_at links.entry.sources.now gate) }
    {
        let ahead = links.readers[gate as usize].gates();
        let behind = links.sources[gate as usize].gates();
        self.list
            .iter()
            .any(|landmark| leads_past(landmark, ahead, behind))
    }

    /// Goes on from a gate that was entered.
    pub fn extend(&mut self, links: KeptLinks<'_>, gate: u32) -> Result<(), AllocError>
        requires gate { gate < length links.levels.now }
        requires back { ReadsBack links.readers.now links.sources.now gate }
        requires landmarks { AreLandmarks links.readers.now (length links.levels.now) self.old.list.items }
        ensures { OnOk result (AreLandmarks links.entry.readers.now (length links.entry.levels.now) self.new.list.items) }
    {
        for landmark in self.list.iter_mut() {
            landmark.go_on(links, gate)?;
        }
        Ok(())
    }

    /// Puts a landmark in the next place.
    fn put(&mut self, landmark: Landmark) -> Result<(), AllocError>
        ensures { (readers : List (List ℕ)) → (gates : ℕ) → IsLandmark readers gates landmark → AreLandmarks readers gates self.old.list.items → OnOk result (AreLandmarks readers gates self.new.list.items) }
    {
        if self.next < self.list.len() {
            self.list[self.next] = landmark;
        } else {
            self.list.push(landmark)?;
        }
        self.next = self.next.saturating_add(1) % MOST;
        Ok(())
    }

    /// Learns from a search whose walk was closed: one of the gates that it found becomes a landmark once searches
    /// have found as many as there are, which pays for the landmark's two searches.
    pub fn learn(
        &mut self,
        alloc: Global,
        links: KeptLinks<'_>,
        gates: u32,
        search: &Search,
    ) -> Result<(), AllocError>
        requires gates { gates ≡ length links.levels.now }
        requires within { (n : ℕ) → Contains search.now.found.items n → n < length links.levels.now }
        requires back { (n : ℕ) → Contains search.now.found.items n → ReadsBack links.readers.now links.sources.now n }
        requires landmarks { AreLandmarks links.readers.now (length links.levels.now) self.old.list.items }
        ensures { OnOk result (AreLandmarks links.entry.readers.now (length links.entry.levels.now) self.new.list.items) }
    {
        let found = &search.found;
        self.found = self.found.saturating_add(found.len());
        if self.found < gates as usize || found.is_empty() {
            return Ok(());
        }
        let landmark = landmark_at(alloc, links, gates, found[found.len() / 2])?;
        self.found = 0;
        self.put(landmark)
    }
}
