ghost use Rattle.std.specs.Prelude.{◌≡◌, ◌⊎◌, ◌<◌, ◌≤◌, ◌+◌, ◌*◌, ◌∷◌, [], length, drop, false, true, Some, IfOk, IfErr, OnOk};
ghost use Rattle.netlist.specs.Fixpoint.{wires};
ghost use Rattle.storm.specs.Building.{FitsRound};
ghost use Rattle.storm.specs.Laws.{PlaysAsStorm, IsTooLarge};
ghost use Rattle.storm.specs.Plans.{storm_plan};
ghost use Rattle.storm.specs.Storms.{shaking_count, gates_with, storm_rounds, storm_by, storm_of, storm_events, most_events};

use crate::fault::StormFault;
use crate::laws::storms_never_rest;
use crate::planning::StormPlan;
use crate::round::rounds_of;
use cyc_base::{Bits, Items};
use delay_core::{Schedule, TickPlan};
use netlist::Netlist;
use std::alloc::{AllocError, Global};

/// The most events that a storm may have.
const MAX_EVENTS: u64 = 4_000_000;

/// How many gates shake.
fn count_shaking(plan: &StormPlan) -> u32
    requires { length plan.now.shaking ≤ 4294967295 }
    ensures { result ≡ shaking_count plan.now }
{
    plan.shaking
        .items()
        .iter()
        .filter(|shakes| **shakes)
        .count() as u32
}

/// The gates with the shaking ones at this value, and the others at rest.
fn gates_with(alloc: Global, plan: &StormPlan, value: bool) -> Result<Vec<bool>, AllocError>
    ensures { IfOk result (λ gates. gates.items ≡ gates_with plan.now value) }
{
    let shaking = plan.shaking.items().iter();
    shaking
        .zip(plan.rest.items())
        .map(|(shakes, rest)| if *shakes { value } else { *rest })
        .collect(alloc)
}

/// A moment: the inputs and latches of a vector, and then these gates.
fn moment_of(alloc: Global, v: &[bool], gates: &[bool]) -> Result<Bits, AllocError>
    ensures { IfOk result (λ moment. moment ≡ wires v.now gates.now) }
{
    let mut moment = v.to_vec(alloc)?;
    moment.extend_from_slice(gates)?;
    Ok(Bits::of(moment))
}

/// The moment with all shaking gates at 0.
fn zeros_of(alloc: Global, v: &[bool], plan: &StormPlan) -> Result<Bits, AllocError>
    ensures { IfOk result (λ moment. moment ≡ wires v.now (gates_with plan.now false)) }
{
    let gates = gates_with(alloc, plan, false)?;
    moment_of(alloc, v, &gates)
}

/// The past: this one moment.
fn past_of(alloc: Global, v: &[bool], plan: &StormPlan) -> Result<Items<Bits>, AllocError>
    ensures { IfOk result (λ past. past ≡ wires v.now (gates_with plan.now false) ∷ []) }
{
    let mut past = Vec::with_capacity(alloc, 1)?;
    past.push_reserved(zeros_of(alloc, v, plan)?);
    Ok(Items::of(past))
}

fn latches_of(alloc: Global, net: &Netlist, v: &[bool]) -> Result<Bits, AllocError>
    requires { length net.now.inputs ≤ length v.now }
    ensures { IfOk result (λ latches. latches ≡ drop (length net.now.inputs) v.now) }
{
    let latches = v[net.inputs() as usize..].to_vec(alloc)?;
    Ok(Bits::of(latches))
}

/// The one tick of a storm.
fn ticks_of(
    alloc: Global,
    net: &Netlist,
    plan: &StormPlan,
    shaking: u32,
    rounds: u32,
) -> Result<Items<TickPlan>, AllocError>
    requires fits { FitsRound net.now plan.now }
    requires shaking { shaking ≡ shaking_count plan.now }
    ensures { IfOk result (λ ticks. ticks ≡ storm_rounds net.now plan.now rounds ∷ []) }
{
    let mut ticks = Vec::with_capacity(alloc, 1)?;
    ticks.push_reserved(rounds_of(alloc, net, plan, shaking, rounds)?);
    Ok(Items::of(ticks))
}

/// The storm of a plan in which so many gates shake.
fn storm_of_plan(
    alloc: Global,
    net: &Netlist,
    v: &[bool],
    plan: &StormPlan,
    shaking: u32,
    rounds: u32,
) -> Result<Schedule, AllocError>
    requires width { length net.now.inputs ≤ length v.now }
    requires fits { FitsRound net.now plan.now }
    requires shaking { shaking ≡ shaking_count plan.now }
    ensures { IfOk result (λ schedule. schedule ≡ storm_by net.now v.now plan.now rounds) }
{
    let past = past_of(alloc, v, plan)?;
    let latches = latches_of(alloc, net, v)?;
    let gates = gates_with(alloc, plan, true)?;
    let ticks = ticks_of(alloc, net, plan, shaking, rounds)?;
    Ok(Schedule {
        window: 1,
        past,
        free: true,
        latches,
        gates: Bits::of(gates),
        ticks,
    })
}

/// The storm of a vector, one value for each input and latch, from its plan: one tick of so many rounds, with 0 as
/// every line's number.
///
/// It is fair with the window 1 and is played over the vector's inputs without a fault; in each round each shaking
/// gate changes to 0 and later to 1; and every other signal has its value of the fixpoint at every moment.
///
/// `TooLarge` comes exactly where it would have over 4,000,000 events.
pub fn schedule(
    alloc: Global,
    net: &Netlist,
    v: &[bool],
    plan: &StormPlan,
    rounds: u32,
) -> Result<Schedule, StormFault>
    requires width { length v.now ≡ length net.now.inputs + length net.now.latches }
    requires plan { storm_plan net.now v.now ≡ Some plan.now }
    requires rounds { 1 ≤ rounds }
    ensures schedule { IfOk result (λ schedule. schedule ≡ storm_of net.now v.now rounds) }
    ensures plays { IfOk result (λ schedule. PlaysAsStorm net.now v.now schedule) }
    ensures few { OnOk result (storm_events net.now plan.now rounds ≤ most_events) }
    ensures fault { IfErr result (λ fault. (fault ≡ StormFault.Memory) ⊎ IsTooLarge (storm_events net.now plan.now rounds) fault) }
{
    let gates = net.gates();
    let shaking = count_shaking(plan);
    let turns = u64::from(gates) + u64::from(shaking);
    let events = u64::from(rounds).saturating_mul(turns);
    if events > MAX_EVENTS {
        return Err(StormFault::TooLarge { events });
    }
    storms_never_rest();
    Ok(storm_of_plan(alloc, net, v, plan, shaking, rounds)?)
}
