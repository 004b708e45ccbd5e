//! The rounds of a storm.

ghost use Rattle.std.specs.Prelude.{◌≡◌, ◌<◌, ◌≤◌, ◌+◌, ◌++◌, ◌∷◌, [], length, map, filter, slice_index_or, IfOk, OnOk};
ghost use Rattle.std.specs.List.{range_with_len};
ghost use Rattle.storm.specs.Building.{FitsRound};
ghost use Rattle.storm.specs.Plans.{each_gate};
ghost use Rattle.storm.specs.declared.planning.StormPlan.{StormPlan as Plan};
ghost use Rattle.storm.specs.Storms.{shakes, shaking_count, low_turn, high_turn, turn_events, storm_round, zeros_back, storm_rounds, most_events};

use crate::planning::StormPlan;
use cyc_base::{Bits, Items};
use delay_core::{Events, RoundPlan, TickPlan};
use netlist::Netlist;
use std::alloc::{AllocError, Global};

/// The values of a gate's pins in a list with an entry for each gate.
fn values_at(list: &[Bits], gate: u32) -> &[bool]
    requires { gate < length list.now }
    ensures { result.now ≡ slice_index_or list.now gate [] }
{
    list[gate as usize].items()
}

/// A round of a plan's storm, which finds the shaking gates at 0 so many moments before its first one.
#[derive(Drop)]
pub(crate) struct StormRound<'a> {
    pub(crate) net: &'a Netlist,
    pub(crate) plan: &'a StormPlan,
    pub(crate) back: u32,
}

impl<'a> StormRound<'a> {
    /// The first half of the round: each gate is computed once, the shaking ones on their low values.
    fn low_events(&self, alloc: Global) -> Result<Events, AllocError>
        requires fits { FitsRound self.now.net.now self.now.plan.now }
        requires back { self.now.back ≤ most_events }
        ensures { IfOk result (λ events. events ≡ turn_events self.now.net.now self.now.plan.now self.now.back 0 (each_gate self.now.net.now (low_turn self.now.plan.now))) }
    {
        let mut events = Events::new(alloc);
        for gate in 0..self.net.gates() {
            let values = values_at(self.plan.low.items(), gate);
            self.push_event(alloc, &mut events, gate, values)?;
        }
        Ok(events)
    }

    /// Adds the event of a gate on its high values, if it shakes.
    fn push_high_event(
        &self,
        alloc: Global,
        events: &mut Events,
        gate: u32,
    ) -> Result<(), AllocError>
        requires gate { gate < length self.now.net.now.gates }
        requires fits { FitsRound self.now.net.now self.now.plan.now }
        requires small { length events.old + self.now.back ≤ 4294967295 }
        ensures { OnOk result (events.new ≡ events.old ++ turn_events self.now.net.now self.now.plan.now self.now.back (length events.old) (map (high_turn self.now.plan.now) (filter (shakes self.now.plan.now) (gate ∷ [])))) }
    {
        if self.plan.shaking.items()[gate as usize] {
            let values = values_at(self.plan.high.items(), gate);
            self.push_event(alloc, events, gate, values)?;
        }
        Ok(())
    }

    /// Adds the second half of the round: each shaking gate is computed once more, on its high values.
    fn push_high_events(&self, alloc: Global, events: &mut Events) -> Result<(), AllocError>
        requires fits { FitsRound self.now.net.now self.now.plan.now }
        requires back { self.now.back ≤ most_events }
        requires first { length events.old ≡ length self.now.net.now.gates }
        ensures { OnOk result (events.new ≡ events.old ++ turn_events self.now.net.now self.now.plan.now self.now.back (length events.old) (map (high_turn self.now.plan.now) (filter (shakes self.now.plan.now) (range_with_len 0 (length self.now.net.now.gates))))) }
    {
        for gate in 0..self.net.gates() {
            self.push_high_event(alloc, events, gate)?;
        }
        Ok(())
    }

    /// The round as it is planned: both halves.
    fn round_plan(&self, alloc: Global) -> Result<RoundPlan, AllocError>
        requires fits { FitsRound self.now.net.now self.now.plan.now }
        requires back { self.now.back ≤ most_events }
        ensures { IfOk result (λ round. round ≡ storm_round self.now.net.now self.now.plan.now self.now.back) }
    {
        let mut events = self.low_events(alloc)?;
        self.push_high_events(alloc, &mut events)?;
        events.shrink();
        Ok(RoundPlan { line: 0, events })
    }
}

/// How many moments before its first one a round finds the shaking gates at 0.
fn zeros_back(round: u32, shaking: u32) -> u32
    ensures { (plan : Plan) → shaking_count plan ≡ shaking → result ≡ zeros_back plan round }
{
    if round == 0 { 1 } else { shaking }
}

/// The rounds of a storm with so many shaking gates.
pub(crate) fn rounds_of(
    alloc: Global,
    net: &Netlist,
    plan: &StormPlan,
    shaking: u32,
    rounds: u32,
) -> Result<TickPlan, AllocError>
    requires fits { FitsRound net.now plan.now }
    requires shaking { shaking ≡ shaking_count plan.now }
    ensures { IfOk result (λ list. list ≡ storm_rounds net.now plan.now rounds) }
{
    let mut list = Vec::with_capacity(alloc, rounds as usize)?;
    for round in 0..rounds {
        let back = zeros_back(round, shaking);
        let round = StormRound { net, plan, back };
        list.push_reserved(round.round_plan(alloc)?);
    }
    Ok(Items::of(list))
}
