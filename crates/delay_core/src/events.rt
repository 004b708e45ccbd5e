//! The events of a round, packed.

ghost use Rattle.std.specs.Prelude.{◌≡◌, ◌+◌, ◌<◌, ◌++◌, ◌∷◌, [], length, IfOk, OnOk, OnErr};
ghost use Rattle.delay_core.specs.EventLists.{begin_of as begin_of_ages, planned_at};

use std::alloc::{AllocError, Global};
use std::marker::Model;

/// The most ages of a round: their places are numbers of 32 bits.
const MAX_AGES: usize = 4_294_967_295;

/// An event: its line, its gate, and where its ages end among those of the round.
#[derive(Clone, Copy)]
pub struct Head {
    pub line: u64,
    pub gate: u32,
    pub end: u32,
}

/// The events of a round, in the order in which they come. Contracts see a list of `PlannedEvent`.
///
/// The ages of all stand in one list, so that an event takes 16 bytes and 4 for each of its pins.
pub struct Events {
    heads: Vec<Head>,
    ages: Vec<u32>,
}

impl Drop for Events {
    fn drop(self) {
        let Events { heads: _, ages: _ } = self;
    }
}

impl Model for Events {
    ghost use Rattle.std.specs.Prelude.{List};
    ghost use Rattle.delay_core.specs.declared.plan.PlannedEvent.{PlannedEvent};
    ghost use Rattle.delay_core.specs.EventLists.{packed_events, ArePacked};

    ghost Value = { List PlannedEvent };

    ghost view = { λ events. packed_events events.heads.items events.ages.items };

    ghost invariant = { λ events. ArePacked events.heads.items events.ages.items };
}

/// Where so many ages more end, behind so many.
fn end_of_more(ages: usize, more: usize) -> Result<u32, AllocError>
    ensures { IfOk result (λ end. end ≡ ages + more) }
{
    let end = ages.checked_add(more).ok_or(AllocError)?;
    if end > MAX_AGES {
        return Err(AllocError);
    }
    Ok(end as u32)
}

/// Where the ages of an event begin.
#[tactic(auto, using(crate::proofs::EventListLemmas::begin_is))]
fn begin_of(heads: &[Head], i: usize) -> usize
    requires { i < length heads.now }
    ensures { result ≡ begin_of_ages heads.now i }
{
    if i == 0 {
        return 0;
    }
    heads[i - 1].end as usize
}

impl Events {
    /// No event yet. It takes no memory.
    pub fn new(alloc: Global) -> Events
        ensures { result ≡ [] }
    {
        Events {
            heads: Vec::new(alloc),
            ages: Vec::new(alloc),
        }
    }

    /// How many events there are.
    #[tactic(auto, using(crate::proofs::EventListLemmas::length_packed))]
    pub fn len(&self) -> usize
        ensures { result ≡ length self.now }
    {
        self.heads.len()
    }

    /// The line of the file that has the event at this place.
    #[tactic(auto, using(crate::proofs::EventListLemmas::length_packed, crate::proofs::EventListLemmas::line_is))]
    pub fn line(&self, i: usize) -> u64
        requires { i < length self.now }
        ensures { result ≡ (planned_at self.now i).line }
    {
        self.heads[i].line
    }

    /// The gate of the event at this place, by its own place in the flat order.
    #[tactic(auto, using(crate::proofs::EventListLemmas::length_packed, crate::proofs::EventListLemmas::gate_is))]
    pub fn gate(&self, i: usize) -> u32
        requires { i < length self.now }
        ensures { result ≡ (planned_at self.now i).event.gate }
    {
        self.heads[i].gate
    }

    /// The ages of the event at this place, one for each pin of its gate.
    #[tactic(auto, using(crate::proofs::EventListLemmas::length_packed, crate::proofs::EventListLemmas::ages_is, crate::proofs::EventListLemmas::rises_here, crate::proofs::EventListLemmas::within_here))]
    pub fn ages(&self, i: usize) -> &[u32]
        requires { i < length self.now }
        ensures { result.now ≡ (planned_at self.now i).event.ages }
    {
        let begin = begin_of(&self.heads, i);
        &self.ages[begin..self.heads[i].end as usize]
    }

    /// Adds an event. `AllocError` comes for want of memory, and where the round would have over 4,294,967,295 ages; the
    /// events are then as before.
    #[tactic(auto, using(crate::proofs::EventListLemmas::one_more, crate::proofs::EventListLemmas::more_packed))]
    pub fn push(&mut self, line: u64, gate: u32, ages: &[u32]) -> Result<(), AllocError>
        ensures ok { OnOk result (self.new ≡ self.old ++ record { line = line; event = record { gate = gate; ages = ages.now } } ∷ []) }
        ensures err { OnErr result (self.new ≡ self.old) }
    {
        let end = end_of_more(self.ages.len(), ages.len())?;
        self.heads.reserve(1)?;
        self.ages.extend_from_slice(ages)?;
        self.heads.push_reserved(Head { line, gate, end });
        Ok(())
    }

    /// Gives back the memory that no event takes.
    pub fn shrink(&mut self)
        ensures { self.new ≡ self.old }
    {
        self.heads.shrink_to_fit();
        self.ages.shrink_to_fit();
    }
}
