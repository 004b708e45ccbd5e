//! How the values of signals are kept over moments: an entry for each change, linked to the signal's entries before it.

ghost use Rattle.std.specs.Prelude.{◌≡◌, ◌+◌, ◌-◌, ◌<◌, ◌≤◌, ◌^◌, length, vec_len, vec_capacity, IfOk};
ghost use Rattle.std.specs.List.{range_with_len};
ghost use Rattle.delay_core.specs.Entries.{entries_of, entry_at, value_from, AreLinked, AreDated, IsJump, Writes, WritesMoment};

use crate::entry::TimelineEntry;
use std::alloc::{AllocError, Global};

/// An older entry from which the value at the moment `n` is the same, where this one came later.
fn step_back(entries: &[TimelineEntry], newest: &[u32], i: usize, n: usize) -> usize
    requires linked { AreLinked entries.now newest.now }
    requires entry { i < length entries.now }
    requires moment { 1 ≤ n }
    requires later { n < (entry_at entries.now i).moment }
    ensures back { result < i }
    ensures same { value_from entries.now n i ≡ value_from entries.now n result }
{
    let jump = entries[i].jump as usize;
    if entries[jump].moment > n {
        return jump;
    }
    entries[i].older as usize
}

/// The place to which a new entry after this one jumps.
fn jump_after(entries: &[TimelineEntry], newest: &[u32], older: u32) -> u32
    requires linked { AreLinked entries.now newest.now }
    requires entry { older < length entries.now }
    ensures { IsJump entries.now older result }
{
    let near = entries[older as usize].jump;
    let far = entries[near as usize].jump;
    let middle = entries[near as usize].rank;
    let first = entries[older as usize].rank.wrapping_sub(middle);
    let second = middle.wrapping_sub(entries[far as usize].rank);
    if first == second {
        return far;
    }
    older
}

/// The value at the moment `n` of the signal whose newest entry is `head`.
pub(crate) fn value_at(entries: &[TimelineEntry], newest: &[u32], head: usize, n: usize) -> bool
    requires linked { AreLinked entries.now newest.now }
    requires head { head < length entries.now }
    requires moment { 1 ≤ n }
    ensures { result ≡ value_from entries.now n head }
{
    let mut i = head;
    while entries[i].moment > n {
        i = step_back(entries, newest, i, n);
    }
    entries[i].value
}

/// From the moment on the signal has this value, which it may have had before.
pub(crate) fn write(
    entries: &mut Vec<TimelineEntry>,
    newest: &mut Vec<u32>,
    s: usize,
    moment: usize,
    value: bool,
)
    requires room { vec_len entries.old < vec_capacity entries.old }
    requires places { vec_len entries.old < 2 ^ 32 }
    requires linked { AreLinked entries.old.items newest.old.items }
    requires dated { AreDated entries.old.items moment }
    requires moment { 1 ≤ moment }
    requires signal { s < length newest.old.items }
    ensures written { Writes moment s value entries.old.items entries.new.items newest.old.items newest.new.items }
    ensures len { vec_len entries.new ≤ vec_len entries.old + 1 }
    ensures capacity { vec_capacity entries.new ≡ vec_capacity entries.old }
{
    let older = newest[s];
    if value_at(entries, newest, older as usize, moment) == value {
        return;
    }
    let jump = jump_after(entries, newest, older);
    let rank = entries[older as usize].rank.wrapping_add(1);
    newest[s] = entries.len() as u32;
    entries.push_reserved(TimelineEntry {
        moment,
        value,
        older,
        jump,
        rank,
    });
}

/// The moment after the newest one has these values for the first signals, and the others stay.
pub(crate) fn write_moment(
    entries: &mut Vec<TimelineEntry>,
    newest: &mut Vec<u32>,
    moment: usize,
    values: &[bool],
)
    requires room { vec_len entries.old + length values.now ≤ vec_capacity entries.old }
    requires places { vec_len entries.old + length values.now ≤ 2 ^ 32 }
    requires linked { AreLinked entries.old.items newest.old.items }
    requires dated { AreDated entries.old.items moment }
    requires moment { 1 ≤ moment }
    requires width { length values.now ≤ length newest.old.items }
    ensures written { WritesMoment moment values.now entries.old.items entries.new.items newest.old.items newest.new.items }
    ensures len { vec_len entries.new ≤ vec_len entries.old + length values.now }
    ensures capacity { vec_capacity entries.new ≡ vec_capacity entries.old }
{
    for s in 0..values.len() {
        write(entries, newest, s, moment, values[s]);
    }
}

/// An entry of the first moment for each of these values.
pub(crate) fn first_entries(
    alloc: Global,
    values: &[bool],
) -> Result<Vec<TimelineEntry>, AllocError>
    ensures { IfOk result (λ entries. entries.items ≡ entries_of values.now) }
{
    values
        .iter()
        .map(|&value| TimelineEntry {
            moment: 1,
            value,
            older: 0,
            jump: 0,
            rank: 0,
        })
        .collect(alloc)
}

/// The places of the entries of the first moment.
pub(crate) fn first_places(alloc: Global, count: u32) -> Result<Vec<u32>, AllocError>
    ensures { IfOk result (λ places. places.items ≡ range_with_len 0 count) }
{
    let places: Vec<u32> = (0..count).collect(alloc)?;
    Ok(places)
}
