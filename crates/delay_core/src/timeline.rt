ghost use Rattle.std.specs.Prelude.{◌≡◌, ◌+◌, ◌-◌, ◌<◌, ◌≤◌, ◌^◌, [], ◌∷◌, ◌++◌, length, drop, slice_index_or, slice_set, vec_len, vec_capacity, IfOk, OnOk, OnErr, IsOk, false};
ghost use Rattle.schedules.specs.Moments.{moment_at, newest};

use crate::entries::{first_entries, first_places, value_at, write, write_moment};
use crate::entry::TimelineEntry;
use std::alloc::{AllocError, Global};
use std::marker::Model;

/// The most entries of a timeline: their places are numbers of 32 bits.
const MAX_ENTRIES: usize = 4_294_967_296;

/// The values of signals over moments. It keeps one entry for each change, and looks back from the newest.
///
/// Contracts see its history, the newest moment first, and a number: so many changes take no memory.
pub struct Timeline {
    entries: Vec<TimelineEntry>,
    /// The newest entry of each signal.
    newest: Vec<u32>,
    moments: usize,
    spare: usize,
}

impl Drop for Timeline {
    fn drop(self) {
        let Timeline {
            entries: _,
            newest: _,
            moments: _,
            spare: _,
        } = self;
    }
}

impl Model for Timeline {
    ghost use Rattle.std.specs.Prelude.{◌+◌, ◌≤◌, ◌<◌, ◌^◌, vec_len, vec_capacity};
    ghost use Rattle.delay_core.specs.Entries.{history_of};
    ghost use Rattle.delay_core.specs.Timelines.{Told, IsTimeline};

    ghost Value = { Told };

    ghost view = { λ t. record { history = history_of t.entries.items t.newest.items t.moments; spare = t.spare } };

    ghost invariant = { λ t. IsTimeline t.entries.items t.newest.items t.moments × (vec_len t.entries + t.spare ≤ vec_capacity t.entries) × (vec_len t.entries + t.spare ≤ 2 ^ 32) × (t.moments + t.spare < 2 ^ 64) };
}

/// The number of the next moment, where so many more may follow it.
fn next_moment(moments: usize, spare: usize) -> Result<usize, AllocError>
    ensures next { IfOk result (λ next. next ≡ moments + 1) }
    ensures small { IfOk result (λ next. next + spare < 2 ^ 64) }
{
    let next = moments.checked_add(1).ok_or(AllocError)?;
    next.checked_add(spare).ok_or(AllocError)?;
    Ok(next)
}

/// Makes room for so many entries more.
fn reserve_entries(entries: &mut Vec<TimelineEntry>, more: usize) -> Result<(), AllocError>
    ensures room { OnOk result (vec_len entries.new + more ≤ vec_capacity entries.new) }
    ensures places { OnOk result (vec_len entries.new + more ≤ 2 ^ 32) }
    ensures same { entries.new.items ≡ entries.old.items }
    ensures len { vec_len entries.new ≡ vec_len entries.old }
    ensures kept { vec_capacity entries.old ≤ vec_capacity entries.new }
{
    let after = entries.len().checked_add(more).ok_or(AllocError)?;
    if after > MAX_ENTRIES {
        return Err(AllocError);
    }
    entries.reserve(more)
}

impl Timeline {
    /// The timeline of this one moment.
    pub fn of(alloc: Global, first: &[bool]) -> Result<Timeline, AllocError>
        requires { length first.now < 2 ^ 32 }
        ensures { IfOk result (λ timeline. timeline ≡ record { history = first.now ∷ []; spare = 0 }) }
    {
        let entries = first_entries(alloc, first)?;
        let newest = first_places(alloc, first.len() as u32)?;
        Ok(Timeline {
            entries,
            newest,
            moments: 1,
            spare: 0,
        })
    }

    /// How many moments there are.
    pub fn moments(&self) -> usize
        ensures { result ≡ length self.now.history }
    {
        self.moments
    }

    /// The value of a signal at the moment of this age.
    pub fn value(&self, s: usize, age: usize) -> bool
        requires signal { s < length (newest self.now.history) }
        requires age { age < length self.now.history }
        ensures { result ≡ slice_index_or (moment_at self.now.history age) s false }
    {
        value_at(
            &self.entries,
            &self.newest,
            self.newest[s] as usize,
            self.moments - age,
        )
    }

    /// Adds the moment in which the signal has this value, and the others stay. There is room for it.
    pub fn set(&mut self, s: usize, value: bool)
        requires signal { s < length (newest self.old.history) }
        requires room { 1 ≤ self.old.spare }
        ensures history { self.new.history ≡ slice_set (newest self.old.history) s value ∷ self.old.history }
        ensures spent { self.new.spare + 1 ≡ self.old.spare }
    {
        self.spare -= 1;
        self.moments += 1;
        write(&mut self.entries, &mut self.newest, s, self.moments, value);
    }

    /// Adds the moment in which the first signals have these values, and the others stay.
    pub fn push(&mut self, values: &[bool]) -> Result<(), AllocError>
        requires width { length values.now ≤ length (newest self.old.history) }
        ensures ok { OnOk result (self.new ≡ record { history = (values.now ++ drop (length values.now) (newest self.old.history)) ∷ self.old.history; spare = self.old.spare }) }
        ensures err { OnErr result (self.new ≡ self.old) }
    {
        let after = next_moment(self.moments, self.spare)?;
        let room = self.spare.saturating_add(values.len());
        reserve_entries(&mut self.entries, room)?;
        write_moment(&mut self.entries, &mut self.newest, after, values);
        self.moments = after;
        Ok(())
    }

    /// Makes room for so many changes.
    pub fn reserve(&mut self, changes: usize) -> Result<(), AllocError>
        ensures ok { OnOk result (changes ≤ self.new.spare) }
        ensures kept { self.new.history ≡ self.old.history }
        ensures grows { self.old.spare ≤ self.new.spare }
        ensures succeeds { changes ≤ self.old.spare → IsOk result }
        ensures err { OnErr result (self.new ≡ self.old) }
    {
        if changes <= self.spare {
            return Ok(());
        }
        self.moments.checked_add(changes).ok_or(AllocError)?;
        reserve_entries(&mut self.entries, changes)?;
        self.spare = changes;
        Ok(())
    }
}
