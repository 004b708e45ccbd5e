ghost use Rattle.std.specs.Prelude.{◌≡◌, ◌+◌, ◌-◌, ◌<◌, ◌≤◌, ◌⊎◌, ◌++◌, length, min, max, reverse, All, List, Bool, Some, None, [], ◌&&◌, IfErr, IfOk, OnOk, OnErr, IsOk};
ghost use Rattle.std.specs.Result.{result_err};
ghost use Rattle.netlist.specs.Netlists.{count};
ghost use Rattle.schedules.specs.Moments.{bit_at, newest, event_value};
ghost use Rattle.delay_core.specs.Plays.{SeenPlay, event_fault, first_allowed, after_value, after_event, change_to, change_by, events_of_round, unfair_gate, no_events, most_rounds, after_round, starting, next_tick, opening_change, is_given, differ, moment_of_number};

use crate::change::Change;
use crate::fault::{EventFault, Unfair};
use crate::opening::{next_vector, opening_timeline};
use crate::reading::{first_moment, first_too_old, first_without, read_pins};
use crate::timeline::Timeline;
use cyc_base::{Bits, MAX_PINS, Sig};
use netlist::Netlist;
use schedules::Event;
use std::alloc::{AllocError, Global};
use std::marker::Model;

/// A play of events, rounds and ticks. It borrows its netlist, and keeps each change of a signal, so that an event may
/// read any moment of its history.
///
/// Contracts see where it stands (`state`) and a number (`spare`): for so many events it surely has memory.
pub struct Play<'a> {
    alloc: Global,
    net: &'a Netlist,
    window: u32,
    timeline: Timeline,
    /// How many moments came before the first tick.
    past: usize,
    tick: u64,
    /// The number of the tick's opening moment.
    opening: usize,
    /// The round of each event of the tick.
    marks: Vec<u64>,
    /// The round in progress.
    round: u64,
    /// Which gates had an event in this round.
    done: Vec<bool>,
    /// What the pins of an event see.
    bits: Vec<bool>,
    spare: usize,
}

impl<'a> Drop for Play<'a> {
    fn drop(self) {
        let Play {
            alloc: _,
            net: _,
            window: _,
            timeline: _,
            past: _,
            tick: _,
            opening: _,
            marks: _,
            round: _,
            done: _,
            bits: _,
            spare: _,
        } = self;
    }
}

impl<'a> Model for Play<'a> {
    ghost use Rattle.std.specs.Prelude.{◌≡◌, ◌+◌, ◌≤◌, vec_len, vec_capacity};
    ghost use Rattle.cyc_base.specs.declared.limits.TheConstants.{MAX_PINS};
    ghost use Rattle.delay_core.specs.Plays.{SeenPlay, starts_of, IsPlay};

    ghost Value = { SeenPlay };

    ghost view = { λ p. record { state = record { net = p.net.now; window = p.window; past = p.past; history = p.timeline.history; tick = p.tick; opening = p.opening; starts = starts_of p.opening p.marks.items p.round; done = p.done.items }; spare = p.spare } };

    ghost invariant = { λ p. IsPlay p.net.now p.timeline.history p.past p.tick p.opening p.marks.items p.round p.done.items × (MAX_PINS ≤ vec_capacity p.bits) × (p.spare ≤ p.timeline.spare) × (vec_len p.marks + p.spare ≤ vec_capacity p.marks) };
}

impl<'a> Play<'a> {
    /// A play of this netlist that begins with its first tick's opening, whose pins read values of their round.
    pub fn start(
        alloc: Global,
        net: &'a Netlist,
        inputs: &[bool],
        latches: &[bool],
        gates: &[bool],
    ) -> Result<Play<'a>, AllocError>
        requires inputs { length inputs.now ≡ length net.now.inputs }
        requires latches { length latches.now ≡ length net.now.latches }
        requires gates { length gates.now ≡ length net.now.gates }
        ensures { IfOk result (λ play. play ≡ record { state = starting net.now 0 [] (inputs.now ++ latches.now) gates.now; spare = 0 }) }
    {
        Play::start_at(alloc, net, 0, &[], inputs, latches, gates)
    }

    /// A play of this netlist after this past, the oldest moment first, and its first tick's opening. Pins may read values
    /// of so many rounds before, and in the first rounds of a tick any value of the history.
    ///
    /// It takes the working memory of all later calls but for the moments themselves.
    pub fn start_at(
        alloc: Global,
        net: &'a Netlist,
        window: u32,
        past: &[Bits],
        inputs: &[bool],
        latches: &[bool],
        gates: &[bool],
    ) -> Result<Play<'a>, AllocError>
        requires past { All (λ (moment : List Bool). length moment ≡ count net.now) past.now }
        requires inputs { length inputs.now ≡ length net.now.inputs }
        requires latches { length latches.now ≡ length net.now.latches }
        requires gates { length gates.now ≡ length net.now.gates }
        ensures { IfOk result (λ play. play ≡ record { state = starting net.now window (reverse past.now) (inputs.now ++ latches.now) gates.now; spare = 0 }) }
    {
        let _signals = net.count();
        let timeline = opening_timeline(alloc, past, inputs, latches, gates)?;
        let opening = timeline.moments();
        let done = vec![in alloc; false; net.gates() as usize]?;
        let bits = Vec::with_capacity(alloc, MAX_PINS)?;
        Ok(Play {
            alloc,
            net,
            window,
            timeline,
            past: past.len(),
            tick: 1,
            opening,
            marks: Vec::new(alloc),
            round: 1,
            done,
            bits,
            spare: 0,
        })
    }

    /// Makes room for so many events, which then take no memory.
    pub fn reserve(&mut self, events: u32) -> Result<(), AllocError>
        ensures ok { OnOk result (self.new ≡ record { state = self.old.state; spare = max self.old.spare events }) }
        ensures err { OnErr result (self.new ≡ self.old) }
    {
        let events = events as usize;
        if events <= self.spare {
            return Ok(());
        }
        self.marks.reserve(events)?;
        self.timeline.reserve(events)?;
        self.spare = events;
        Ok(())
    }

    /// The value of a signal at the newest moment.
    pub fn value(&self, s: Sig) -> bool
        requires { s.0 < count self.now.state.net }
        ensures value { result ≡ bit_at (newest self.now.state.history) s }
        ensures width { length (newest self.now.state.history) ≡ count self.now.state.net }
    {
        self.timeline.value(s.0 as usize, 0)
    }

    /// The number of the tick in progress, from 1.
    pub fn tick(&self) -> u64
        ensures { result ≡ self.now.state.tick }
    {
        self.tick
    }

    /// The number of the round in progress, from 1 at each tick's start.
    pub fn round(&self) -> u64
        ensures { result ≡ length self.now.state.starts }
    {
        self.round
    }

    /// How many events this round had, or the greatest number.
    pub fn events(&self) -> u32
        ensures { result ≡ min (events_of_round self.now.state) 4294967295 }
    {
        let moments = self.timeline.moments();
        let first = first_moment(0, self.opening, &self.marks, self.round, moments);
        u32::try_from(moments - first).unwrap_or(u32::MAX)
    }

    /// What the tick's opening tells of a signal: in the first tick its starting value, and in a later one the value of an
    /// input or a latch that differs from the tick before.
    pub fn opening(&self, s: Sig) -> Option<Change>
        requires { s.0 < count self.now.state.net }
        ensures { result ≡ opening_change self.now.state s }
    {
        let age = self.timeline.moments() - self.opening;
        let value = self.timeline.value(s.0 as usize, age);
        if self.tick > 1 && !self.differs_at_opening(s, value) {
            return None;
        }
        Some(Change {
            at: (self.opening - 1 - self.past) as u64,
            tick: self.tick,
            round: 0,
            sig: s,
            value,
        })
    }

    /// Plays an event, which adds a moment and may change its gate's value, or answers why it is refused.
    pub fn apply(&mut self, event: &Event) -> Result<Option<Change>, EventFault>
        ensures fault { IfErr result (λ fault. (fault ≡ EventFault.Memory) ⊎ (event_fault self.old.state event.now ≡ Some fault)) }
        ensures allowed { OnOk result (event_fault self.old.state event.now ≡ None) }
        ensures memory { 1 ≤ self.old.spare → result_err result ≡ event_fault self.old.state event.now }
        ensures change { IfOk result (λ change. change ≡ change_by self.old.state event.now) }
        ensures ok { OnOk result (self.new ≡ record { state = after_event self.old.state event.now; spare = self.old.spare - 1 }) }
        ensures err { OnErr result (self.new ≡ self.old) }
    {
        self.update(event.gate, event.ages.items())
    }

    /// Plays the event of a gate whose pins read moments of these ages.
    pub fn update(&mut self, gate: u32, ages: &[u32]) -> Result<Option<Change>, EventFault>
        ensures fault { IfErr result (λ fault. (fault ≡ EventFault.Memory) ⊎ (event_fault self.old.state (record { gate = gate; ages = ages.now }) ≡ Some fault)) }
        ensures allowed { OnOk result (event_fault self.old.state (record { gate = gate; ages = ages.now }) ≡ None) }
        ensures memory { 1 ≤ self.old.spare → result_err result ≡ event_fault self.old.state (record { gate = gate; ages = ages.now }) }
        ensures change { IfOk result (λ change. change ≡ change_by self.old.state (record { gate = gate; ages = ages.now })) }
        ensures ok { OnOk result (self.new ≡ record { state = after_event self.old.state (record { gate = gate; ages = ages.now }); spare = self.old.spare - 1 }) }
        ensures err { OnErr result (self.new ≡ self.old) }
    {
        self.check(gate, ages)?;
        let value = self.value_of(gate, ages);
        let change = self.change_to(gate, value);
        self.reserve_for_one()?;
        self.add(gate, value);
        Ok(change)
    }

    /// Ends the round, or answers the first gate that had no event in it. It takes no memory.
    ///
    /// Only a tick without gates can come to its round 2^64 - 1, and it stays in that one.
    pub fn end_round(&mut self) -> Result<(), Unfair>
        ensures unfair { IfErr result (λ unfair. unfair_gate self.old.state ≡ Some unfair.gate) }
        ensures fair { OnOk result (unfair_gate self.old.state ≡ None) }
        ensures ok { OnOk result (length self.old.state.starts < most_rounds → self.new ≡ record { state = after_round self.old.state; spare = self.old.spare }) }
        ensures full { OnOk result (most_rounds ≤ length self.old.state.starts → self.new ≡ self.old) }
        ensures err { OnErr result (self.new ≡ self.old) }
    {
        let _gates = self.net.gates();
        if let Some(gate) = first_without(&self.done) {
            return Err(Unfair { gate: gate as u32 });
        }
        self.done.fill(false);
        self.round = self.round.saturating_add(1);
        Ok(())
    }

    /// Ends the tick, in whose last round no gate had an event yet: all latches load at once, and the next tick opens, in
    /// which the inputs have these values.
    pub fn end_tick(&mut self, inputs: &[bool]) -> Result<(), AllocError>
        requires inputs { length inputs.now ≡ length self.old.state.net.inputs }
        requires begun { self.old.state.done ≡ no_events self.old.state.net }
        ensures ok { OnOk result (self.new ≡ record { state = next_tick self.old.state inputs.now; spare = self.old.spare }) }
        ensures err { OnErr result (self.new ≡ self.old) }
    {
        let vector = next_vector(self.alloc, self.net, &self.timeline, inputs)?;
        self.timeline.push(&vector)?;
        let opening = self.timeline.moments();
        self.opening = opening;
        self.tick += 1;
        self.marks.clear();
        self.round = 1;
        Ok(())
    }

    /// Whether the signal is an input or a latch that had another value than this in the tick before.
    fn differs_at_opening(&self, s: Sig, value: bool) -> bool
        requires signal { s.0 < count self.now.state.net }
        requires later { 1 < self.now.state.tick }
        ensures { result ≡ (is_given self.now.state.net s && differ (bit_at (moment_of_number self.now.state.history (self.now.state.opening - 1)) s) value) }
    {
        if self.net.driver(s).is_some() {
            return false;
        }
        let age = self.timeline.moments() - (self.opening - 1);
        let before = self.timeline.value(s.0 as usize, age);
        before != value
    }

    /// The number of the earliest moment that this round may read.
    fn first(&self) -> usize
        ensures first { result ≡ first_allowed self.now.state }
        ensures there { result ≤ length self.now.state.history }
        ensures some { 1 ≤ result }
    {
        first_moment(
            self.window,
            self.opening,
            &self.marks,
            self.round,
            self.timeline.moments(),
        )
    }

    /// The first reason for which the event of a gate is refused whose pins read moments of these ages.
    fn check(&self, gate: u32, ages: &[u32]) -> Result<(), EventFault>
        ensures { result_err result ≡ event_fault self.now.state (record { gate = gate; ages = ages.now }) }
    {
        if gate >= self.net.gates() {
            return Err(EventFault::NoGate);
        }
        let pins = self.net.gate(gate).cover.pins();
        if ages.len() != pins {
            return Err(EventFault::AgeCount);
        }
        match first_too_old(ages, self.first(), self.timeline.moments()) {
            Some(pin) => Err(EventFault::TooOld { pin: pin as u32 }),
            None => Ok(()),
        }
    }

    /// The value that an event gives its gate.
    fn value_of(&mut self, gate: u32, ages: &[u32]) -> bool
        requires { event_fault self.old.state (record { gate = gate; ages = ages.now }) ≡ None }
        ensures value { result ≡ event_value self.old.state.net self.old.state.history (record { gate = gate; ages = ages.now }) }
        ensures same { self.new ≡ self.old }
    {
        let gate = self.net.gate(gate);
        let pins = gate.pins.items();
        let _pins = gate.cover.pins();
        read_pins(&self.timeline, pins, ages, &mut self.bits);
        gate.cover.value(&self.bits)
    }

    /// The change that a gate makes by taking this value at the next moment.
    fn change_to(&self, gate: u32, value: bool) -> Option<Change>
        requires { gate < length self.now.state.net.gates }
        ensures { result ≡ change_to self.now.state gate value }
    {
        let sig = self.net.gate_sig(gate);
        let before = self.timeline.value(sig.0 as usize, 0);
        if before == value {
            return None;
        }
        Some(Change {
            at: (self.timeline.moments() - self.past) as u64,
            tick: self.tick,
            round: self.round,
            sig,
            value,
        })
    }

    /// Makes room for an event, where there is none.
    fn reserve_for_one(&mut self) -> Result<(), AllocError>
        ensures state { OnOk result (self.new.state ≡ self.old.state) }
        ensures room { OnOk result (1 ≤ self.new.spare) }
        ensures spare { OnOk result (self.new.spare - 1 ≡ self.old.spare - 1) }
        ensures err { OnErr result (self.new ≡ self.old) }
        ensures succeeds { 1 ≤ self.old.spare → IsOk result }
    {
        if self.spare > 0 {
            return Ok(());
        }
        self.reserve(1)
    }

    /// Adds the moment in which this gate has this value. There is room for it.
    fn add(&mut self, gate: u32, value: bool)
        requires gate { gate < length self.old.state.net.gates }
        requires room { 1 ≤ self.old.spare }
        ensures { self.new ≡ record { state = after_value self.old.state gate value; spare = self.old.spare - 1 } }
    {
        let s = self.net.gate_sig(gate);
        self.timeline.set(s.0 as usize, value);
        self.marks.push_reserved(self.round);
        self.done[gate as usize] = true;
        self.spare -= 1;
    }
}
