//! The events of a storm's round.

ghost use Rattle.std.specs.Prelude.{◌≡◌, ◌<◌, ◌≤◌, ◌+◌, ◌++◌, ◌∷◌, [], length, map, zip, All, IfOk, OnOk};
ghost use Rattle.netlist.specs.Netlists.{IsSignal, gate_at};
ghost use Rattle.storm.specs.Building.{FitsRound, turn_of};
ghost use Rattle.storm.specs.Storms.{is_of_shaking, pin_age, ages, turn_event, turn_events};

use crate::round::StormRound;
use cyc_base::Sig;
use delay_core::Events;
use std::alloc::{AllocError, Global};

/// The age of the round's first moment, for each pin.
fn resting_ages(alloc: Global, newest: u32, pins: &[Sig]) -> Result<Vec<u32>, AllocError>
    ensures { IfOk result (λ ages. ages.items ≡ map (λ pin. newest) pins.now) }
{
    pins.iter().map(|_| newest).collect(alloc)
}

impl<'a> StormRound<'a> {
    /// Whether a signal is that of a shaking gate.
    fn is_of_shaking(&self, s: Sig) -> bool
        requires s { IsSignal self.now.net.now s }
        requires fits { FitsRound self.now.net.now self.now.plan.now }
        ensures { result ≡ is_of_shaking self.now.net.now self.now.plan.now s }
    {
        match self.net.driver(s) {
            Some(gate) => self.plan.shaking.items()[gate as usize],
            None => false,
        }
    }

    /// The age with which a pin on a signal sees this value.
    fn pin_age(&self, newest: u32, signal: Sig, value: bool) -> u32
        requires s { IsSignal self.now.net.now signal }
        requires fits { FitsRound self.now.net.now self.now.plan.now }
        requires small { newest + self.now.back ≤ 4294967295 }
        ensures { result ≡ pin_age self.now.net.now self.now.plan.now self.now.back newest (signal, value) }
    {
        if self.is_of_shaking(signal) && !value {
            newest + self.back
        } else {
            newest
        }
    }

    /// The ages with which the pins of a shaking gate see these values.
    fn shaking_ages(
        &self,
        alloc: Global,
        newest: u32,
        pins: &[Sig],
        values: &[bool],
    ) -> Result<Vec<u32>, AllocError>
        requires pins { All (IsSignal self.now.net.now) pins.now }
        requires fits { FitsRound self.now.net.now self.now.plan.now }
        requires small { newest + self.now.back ≤ 4294967295 }
        ensures { IfOk result (λ ages. ages.items ≡ map (pin_age self.now.net.now self.now.plan.now self.now.back newest) (zip pins.now values.now)) }
    {
        pins.iter()
            .zip(values)
            .map(|(pin, value)| self.pin_age(newest, *pin, *value))
            .collect(alloc)
    }

    fn ages_of(
        &self,
        alloc: Global,
        newest: u32,
        gate: u32,
        values: &[bool],
    ) -> Result<Vec<u32>, AllocError>
        requires gate { gate < length self.now.net.now.gates }
        requires fits { FitsRound self.now.net.now self.now.plan.now }
        requires small { newest + self.now.back ≤ 4294967295 }
        ensures { IfOk result (λ list. list.items ≡ ages self.now.net.now self.now.plan.now self.now.back newest (turn_of gate values.now)) }
    {
        let pins = self.net.gate(gate).pins.items();
        if self.plan.shaking.items()[gate as usize] {
            self.shaking_ages(alloc, newest, pins, values)
        } else {
            resting_ages(alloc, newest, pins)
        }
    }

    /// Adds the event of a gate whose pins are to see these values, behind the events of the round so far.
    pub(crate) fn push_event(
        &self,
        alloc: Global,
        events: &mut Events,
        gate: u32,
        values: &[bool],
    ) -> Result<(), AllocError>
        requires gate { gate < length self.now.net.now.gates }
        requires fits { FitsRound self.now.net.now self.now.plan.now }
        requires small { length events.old + self.now.back ≤ 4294967295 }
        ensures { OnOk result (events.new ≡ events.old ++ turn_event self.now.net.now self.now.plan.now self.now.back (length events.old) (turn_of gate values.now) ∷ []) }
    {
        let newest = events.len() as u32;
        let ages = self.ages_of(alloc, newest, gate, values)?;
        events.push(0, gate, &ages)
    }
}
