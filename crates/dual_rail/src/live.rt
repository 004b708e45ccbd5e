//! The rows that first pins leave to be matched, each class of rows once.
ghost use Rattle.std.specs.Prelude.{◌≡◌, ◌<◌, ◌+◌, ◌||◌, ℕ, Bool, List, length, map, IfOk, OnOk};
ghost use Rattle.std.specs.List.{list_any, range_with_len};
ghost use Rattle.std.specs.List.Sorted.{IsStrictlyIncreasing};
ghost use Rattle.dual_rail.specs.Expansion.{narrowed, matches_from, is_contained, MatchAlike};
ghost use Rattle.dual_rail.specs.Classes.{AreClassesOf, class_of};

use crate::classes::Classes;
use crate::rows::{is_allowed, is_contained, literal};
use cover_logic::Row;
use std::alloc::{AllocError, Global};

/// Rows that are left to be matched from a pin on, by their numbers.
#[derive(PartialEq, Eq, Hash)]
pub struct Live {
    pub pin: usize,
    pub rows: Vec<usize>,
}

impl Drop for Live {
    fn drop(self) {
        let Live { pin: _, rows: _ } = self;
    }
}

// In ascending order, each once.
fn ascending(mut rows: Vec<usize>) -> Vec<usize>
    ensures same { (test : ℕ → Bool) → list_any test result.items ≡ list_any test rows.items }
    ensures order { IsStrictlyIncreasing result.items }
{
    rows.sort_unstable();
    rows.dedup();
    rows
}

fn is_contained_in_any(rows: &[Row], pin: usize, row: usize, others: &[usize]) -> bool
    ensures { result ≡ list_any (is_contained rows.now pin row) others.now }
{
    others
        .iter()
        .any(|other| is_contained(rows, pin, row, *other))
}

// Notes a row, in place of those that are contained in it, unless it is contained in one of them.
fn keep(rows: &[Row], pin: usize, kept: &mut Vec<usize>, row: usize) -> Result<(), AllocError>
    ensures { OnOk result ((bits : List Bool) → list_any (matches_from rows.now pin bits) kept.new.items ≡ (list_any (matches_from rows.now pin bits) kept.old.items || matches_from rows.now pin bits row)) }
{
    if is_contained_in_any(rows, pin, row, kept) {
        return Ok(());
    }
    kept.retain(|other| !is_contained(rows, pin, *other, row));
    kept.push(row)?;
    Ok(())
}

// Those that are contained in no other one.
fn widest(alloc: Global, rows: &[Row], pin: usize, live: &[usize]) -> Result<Vec<usize>, AllocError>
    ensures { IfOk result (λ kept. MatchAlike rows.now pin kept.items live.now) }
{
    let mut kept = Vec::with_capacity(alloc, live.len())?;
    for row in live {
        keep(rows, pin, &mut kept, *row)?;
    }
    Ok(kept)
}

// More rows than these are not compared with one another, since that takes a step for each pair and pin.
const MOST_COMPARED: usize = 32;

// The rows from the pin on, each once, and a few of them without those that are contained in another one.
fn gathered(rows: &[Row], pin: usize, live: Vec<usize>) -> Result<Live, AllocError>
    ensures pin { IfOk result (λ next. next.pin ≡ pin) }
    ensures rows { IfOk result (λ next. MatchAlike rows.now pin next.rows.items live.items) }
{
    let live = ascending(live);
    if live.len() > MOST_COMPARED {
        return Ok(Live { pin, rows: live });
    }
    let rows = widest(*live.allocator(), rows, pin, &live)?;
    Ok(Live { pin, rows })
}

// The classes of the rows from the next pin on that this value of the pin matches.
fn allowed(
    rows: &[Row],
    classes: &Classes,
    live: &Live,
    bit: bool,
) -> Result<Vec<usize>, AllocError>
    requires { live.now.pin < 1024 }
    ensures { IfOk result (λ next. next.items ≡ map (class_of classes.now (live.now.pin + 1)) (narrowed rows.now live.now.pin bit live.now.rows.items)) }
{
    let pin = live.pin;
    live.rows
        .iter()
        .copied()
        .filter(|row| is_allowed(literal(rows, *row, pin), bit))
        .map(|row| classes.class(pin + 1, row))
        .collect(*live.rows.allocator())
}

// The classes of all the rows from the first pin on.
fn all_classes(alloc: Global, rows: &[Row], classes: &Classes) -> Result<Vec<usize>, AllocError>
    ensures { IfOk result (λ live. live.items ≡ map (class_of classes.now 0) (range_with_len 0 (length rows.now))) }
{
    (0..rows.len())
        .map(|row| classes.class(0, row))
        .collect(alloc)
}

impl Live {
    /// All the rows, and the first pin.
    pub(crate) fn at_first(
        alloc: Global,
        rows: &[Row],
        classes: &Classes,
    ) -> Result<Live, AllocError>
        requires { AreClassesOf rows.now classes.now }
        ensures pin { IfOk result (λ live. live.pin ≡ 0) }
        ensures rows { IfOk result (λ live. MatchAlike rows.now 0 live.rows.items (range_with_len 0 (length rows.now))) }
    {
        let live = all_classes(alloc, rows, classes)?;
        gathered(rows, 0, live)
    }

    /// What this value of the pin leaves to be matched from the next pin on.
    pub(crate) fn narrowed(
        &self,
        rows: &[Row],
        classes: &Classes,
        bit: bool,
    ) -> Result<Live, AllocError>
        requires pin { self.now.pin < 1024 }
        requires classes { AreClassesOf rows.now classes.now }
        ensures pin { IfOk result (λ next. next.pin ≡ self.now.pin + 1) }
        ensures rows { IfOk result (λ next. MatchAlike rows.now (self.now.pin + 1) next.rows.items (narrowed rows.now self.now.pin bit self.now.rows.items)) }
    {
        let live = allowed(rows, classes, self, bit)?;
        gathered(rows, self.pin + 1, live)
    }
}
