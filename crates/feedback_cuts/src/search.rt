//! A search along rows of gates.

ghost use Rattle.std.specs.Prelude.{◌≡◌, ◌⊎◌, ◌<◌, ◌+◌, ◌^◌, ◌↔◌, ◌∷◌, [], ℕ, true, false, length, IfOk, OnOk, Contains};
ghost use Rattle.std.specs.List.{All};
ghost use Rattle.loops.specs.Rows.{row_at};
ghost use Rattle.feedback_cuts.specs.Searching.{Follows, HasSearched, IsMarked, IsNew, IsReady, Meets, Reaches};

use loops::GateList;
use std::alloc::{AllocError, Global};

/// What a search found.
pub(crate) struct Search {
    /// For each gate one more than the goal of the last search that found it, or 0.
    pub marks: Vec<u32>,
    /// The gates that the last search found, in their order.
    pub found: Vec<u32>,
}

impl Drop for Search {
    fn drop(self) {
        let Search { marks: _, found: _ } = self;
    }
}

/// Whether a search up to a level enters a gate: it hasn't found it yet.
fn is_new(levels: &[u32], high: u32, goal: u32, marks: &[u32], gate: u32) -> bool
    requires fits { goal + 1 < 2 ^ 32 }
    requires gate { gate < length levels.now }
    requires marks { length marks.now ≡ length levels.now }
    ensures { (result ≡ true) ↔ IsNew levels.now high goal marks.now gate }
{
    marks[gate as usize] != goal + 1 && levels[gate as usize] <= high
}

/// Whether a search that marks these gates has found one of the row.
pub(crate) fn meets(row: &[u32], goal: u32, marks: &[u32]) -> bool
    requires fits { goal + 1 < 2 ^ 32 }
    requires row { All (λ gate. gate < length marks.now) row.now }
    ensures some { result ≡ true → Meets goal row.now marks.now }
    ensures none { result ≡ false → (n : ℕ) → Contains row.now n → ¬ IsMarked goal marks.now n }
{
    for gate in row {
        if marks[*gate as usize] == goal + 1 {
            return true;
        }
    }
    false
}

impl Search {
    /// A search that has found nothing yet.
    pub fn new(alloc: Global, gates: u32) -> Result<Search, AllocError>
        ensures { IfOk result (λ search. IsReady gates 0 search.marks.items) }
    {
        let marks = vec![in alloc; 0; gates as usize]?;
        Ok(Search {
            marks,
            found: Vec::new(alloc),
        })
    }

    /// Finds the gates of a row.
    fn follow(
        &mut self,
        row: &[u32],
        levels: &[u32],
        high: u32,
        goal: u32,
    ) -> Result<(), AllocError>
        requires fits { goal + 1 < 2 ^ 32 }
        requires row { All (λ gate. gate < length levels.now) row.now }
        requires marks { length self.old.marks.items ≡ length levels.now }
        ensures { OnOk result (Follows levels.now high goal row.now (length row.now) self.old.marks.items self.new.marks.items self.old.found.items self.new.found.items) }
    {
        for gate in row {
            if is_new(levels, high, goal, &self.marks, *gate) {
                self.marks[*gate as usize] = goal + 1;
                self.found.push(*gate)?;
            }
        }
        Ok(())
    }

    /// Finds gates from those of a row on, past all that the goal has marked, up to a level. It ends early where one of
    /// the others is marked, and answers whether one is.
    pub fn spread(
        &mut self,
        rows: &[GateList],
        levels: &[u32],
        high: u32,
        goal: u32,
        row: &[u32],
        others: &[u32],
    ) -> Result<bool, AllocError>
        requires fits { goal + 1 < 2 ^ 32 }
        requires size { length rows.now ≡ length levels.now }
        requires rows { All (All (λ gate. gate < length levels.now)) rows.now }
        requires row { All (λ gate. gate < length levels.now) row.now }
        requires others { All (λ gate. gate < length levels.now) others.now }
        requires marks { length self.old.marks.items ≡ length levels.now }
        ensures { IfOk result (HasSearched rows.now levels.now high goal row.now others.now self.old self.new) }
    {
        self.found.clear();
        self.follow(row, levels, high, goal)?;
        let mut passed = 0;
        while !meets(others, goal, &self.marks) {
            if passed == self.found.len() {
                return Ok(false);
            }
            let gate = self.found[passed];
            self.follow(rows[gate as usize].gates(), levels, high, goal)?;
            passed += 1;
        }
        Ok(true)
    }
    /// Goes on from a gate along one kind of rows, if it has marked a gate of that one's row of the other kind.
    pub fn extend(
        &mut self,
        from: &[GateList],
        to: &[GateList],
        levels: &[u32],
        goal: u32,
        gate: u32,
    ) -> Result<(), AllocError>
        requires fits { goal + 1 < 2 ^ 32 }
        requires gate { gate < length levels.now }
        requires from_size { length from.now ≡ length levels.now }
        requires from { All (All (λ other. other < length levels.now)) from.now }
        requires to_size { length to.now ≡ length levels.now }
        requires to { All (All (λ other. other < length levels.now)) to.now }
        requires marks { length self.old.marks.items ≡ length levels.now }
        ensures size { OnOk result (length self.new.marks.items ≡ length self.old.marks.items) }
        ensures marked { OnOk result ((x : ℕ) → IsMarked goal self.new.marks.items x → IsMarked goal self.old.marks.items x ⊎ (Meets goal (row_at from.now gate) self.old.marks.items × Reaches to.now gate x)) }
    {
        if meets(from[gate as usize].gates(), goal, &self.marks) {
            self.spread(to, levels, u32::MAX, goal, &[gate], &[])?;
        }
        Ok(())
    }
}
