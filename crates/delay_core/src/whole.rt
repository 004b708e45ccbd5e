//! Recorded schedules, played whole.

ghost use Rattle.std.specs.Prelude.{◌≡◌, ◌⊎◌, [], ◌+◌, ◌<◌, ◌++◌, ◌∷◌, List, Bool, length, map, All, Some, None, IfErr, IfOk, OnOk};
ghost use Rattle.std.specs.List.{cons_option};
ghost use Rattle.cyc_base.specs.declared.trit.Trit.{Trit};
ghost use Rattle.cyc_base.specs.Values.{bits};
ghost use Rattle.cyc_base.specs.declared.sig.Sig.{Sig as sig_type};
ghost use Rattle.netlist.specs.Netlists.{count};
ghost use Rattle.netlist.specs.Fixpoint.{fix};
ghost use Rattle.schedules.specs.Moments.{bit_at, newest};
ghost use Rattle.schedules.specs.Runs.{ticks_of};
ghost use Rattle.simulation.specs.Simulators.{IsSimulatorOf};
ghost use Rattle.delay_core.specs.Changes.{openings, event_changes, round_changes, tick_changes, changes, logged};
ghost use Rattle.delay_core.specs.EventLists.{planned_at};
ghost use Rattle.delay_core.specs.Plays.{most_rounds, after_event, change_by};
ghost use Rattle.delay_core.specs.Plans.{planned_fault, events_fault, after_planned, round_fault, after_plan, rounds_fault, after_plans, first_opened, schedule_fault, run_of, IsPlayedFairly, given_at, agrees as agree, gate_agrees, stands_at_fix, end_at, end_of, SettledIsTold, SettlesInTime};
ghost use Rattle.delay_core.specs.ScheduledRuns.{inputs_at, rounds_at};

use crate::change_log::ChangeLog;
use crate::events::Events;
use crate::fault::{EventFault, PlayFault};
use crate::plan::{RoundPlan, Schedule, TickEnd};
use crate::play::Play;
use crate::scheduled_run::ScheduledRun;
use cyc_base::{Bits, Sig, Trit};
use netlist::Netlist;
use simulation::Simulator;
use std::alloc::{AllocError, Global};

/// Plays the event at this place.
fn play_event(
    play: &mut Play,
    events: &Events,
    i: usize,
    log: &mut ChangeLog,
) -> Result<(), PlayFault>
    requires { i < length events.now }
    ensures fault { IfErr result (λ fault. (fault ≡ PlayFault.Memory) ⊎ (planned_fault play.old.state (planned_at events.now i) ≡ Some fault)) }
    ensures none { OnOk result (planned_fault play.old.state (planned_at events.now i) ≡ None) }
    ensures played { OnOk result (play.new.state ≡ after_event play.old.state (planned_at events.now i).event) }
    ensures changed { OnOk result (log.new ≡ logged log.old (cons_option (change_by play.old.state (planned_at events.now i).event) [])) }
{
    match play.update(events.gate(i), events.ages(i)) {
        Ok(change) => Ok(log.add(change)?),
        Err(EventFault::Memory) => Err(PlayFault::Memory),
        Err(fault) => Err(PlayFault::Event {
            line: events.line(i),
            fault,
        }),
    }
}

/// Plays the events of a round.
#[tactic(auto, using(crate::proofs::PlanLemmas::event_fails, crate::proofs::PlanLemmas::no_fault_left, crate::proofs::PlanLemmas::all_played, crate::proofs::PlanLemmas::all_changed))]
fn play_events(play: &mut Play, events: &Events, log: &mut ChangeLog) -> Result<(), PlayFault>
    ensures fault { IfErr result (λ fault. (fault ≡ PlayFault.Memory) ⊎ (events_fault play.old.state events.now ≡ Some fault)) }
    ensures none { OnOk result (events_fault play.old.state events.now ≡ None) }
    ensures played { OnOk result (play.new.state ≡ after_planned play.old.state events.now) }
    ensures changed { OnOk result (log.new ≡ logged log.old (event_changes play.old.state events.now)) }
{
    for i in 0..events.len() {
        play_event(play, events, i, log)?;
    }
    Ok(())
}

/// Plays a round to its end.
fn play_round(play: &mut Play, round: &RoundPlan, log: &mut ChangeLog) -> Result<(), PlayFault>
    requires { length play.old.state.starts < most_rounds }
    ensures fault { IfErr result (λ fault. (fault ≡ PlayFault.Memory) ⊎ (round_fault play.old.state round.now ≡ Some fault)) }
    ensures none { OnOk result (round_fault play.old.state round.now ≡ None) }
    ensures played { OnOk result (play.new.state ≡ after_plan play.old.state round.now) }
    ensures changed { OnOk result (log.new ≡ logged log.old (event_changes play.old.state round.now.events)) }
{
    play_events(play, &round.events, log)?;
    match play.end_round() {
        Ok(()) => Ok(()),
        Err(unfair) => Err(PlayFault::Unfair {
            line: round.line,
            gate: unfair.gate,
        }),
    }
}

/// Plays the rounds of a tick.
fn play_rounds(play: &mut Play, rounds: &[RoundPlan], log: &mut ChangeLog) -> Result<(), PlayFault>
    requires { length play.old.state.starts ≡ 1 }
    ensures fault { IfErr result (λ fault. (fault ≡ PlayFault.Memory) ⊎ (rounds_fault play.old.state rounds.now ≡ Some fault)) }
    ensures none { OnOk result (rounds_fault play.old.state rounds.now ≡ None) }
    ensures played { OnOk result (play.new.state ≡ after_plans play.old.state rounds.now) }
    ensures changed { OnOk result (log.new ≡ logged log.old (round_changes play.old.state rounds.now)) }
{
    for round in rounds {
        play_round(play, round, log)?;
    }
    Ok(())
}

/// Keeps what a tick's opening tells, where the log is on.
fn log_opening(net: &Netlist, play: &Play, log: &mut ChangeLog) -> Result<(), AllocError>
    requires { play.now.state.net ≡ net.now }
    ensures { OnOk result (log.new ≡ logged log.old (openings play.now.state)) }
{
    if !log.is_on() {
        return Ok(());
    }
    for number in 0..net.count() {
        log.add(play.opening(Sig(number)))?;
    }
    Ok(())
}

/// The inputs and the latches at the newest moment, as ternary values.
fn given_values(alloc: Global, net: &Netlist, play: &Play) -> Result<Vec<Trit>, AllocError>
    requires { play.now.state.net ≡ net.now }
    ensures given { IfOk result (λ values. values.items ≡ bits (given_at net.now (newest play.now.state.history))) }
    ensures width { IfOk result (λ values. length values.items ≡ length net.now.inputs + length net.now.latches) }
{
    let mut values = Vec::with_capacity(alloc, net.columns() as usize)?;
    for number in 0..net.columns() {
        values.push_reserved(Trit::of(play.value(Sig(number))));
    }
    Ok(values)
}

/// Whether a ternary value is known, and is this one.
fn agrees(value: Trit, known: bool) -> bool
    ensures { result ≡ agree value known }
{
    match value {
        Trit::Zero => !known,
        Trit::One => known,
        Trit::X => false,
    }
}

/// Whether a gate has its value of these at the newest moment.
fn stands_at(net: &Netlist, play: &Play, fixed: &[Trit], number: u32) -> bool
    requires net { play.now.state.net ≡ net.now }
    requires fixed { fixed.now ≡ fix net.now (bits (given_at net.now (newest play.now.state.history))) }
    requires width { length fixed.now ≡ count net.now }
    requires number { number < length net.now.gates }
    ensures { result ≡ gate_agrees net.now (newest play.now.state.history) number }
{
    let s = net.gate_sig(number);
    agrees(fixed[s.0 as usize], play.value(s))
}

/// Whether each gate has its value of these.
fn gates_stand_at(net: &Netlist, play: &Play, fixed: &[Trit]) -> bool
    requires net { play.now.state.net ≡ net.now }
    requires fixed { fixed.now ≡ fix net.now (bits (given_at net.now (newest play.now.state.history))) }
    requires width { length fixed.now ≡ count net.now }
    ensures { result ≡ stands_at_fix net.now (newest play.now.state.history) }
{
    (0..net.gates()).all(|number| stands_at(net, play, fixed, number))
}

/// What signals have at the newest moment.
fn values_of(alloc: Global, play: &Play, signals: &[Sig]) -> Result<Vec<bool>, AllocError>
    requires { All (λ (s : sig_type). s.0 < count play.now.state.net) signals.now }
    ensures { IfOk result (λ values. values.items ≡ map (bit_at (newest play.now.state.history)) signals.now) }
{
    signals.iter().map(|s| play.value(*s)).collect(alloc)
}

/// Whether each gate has its value of the ternary fixpoint at the newest moment. The fixpoint is found by work on what
/// has changed since the tick before.
fn is_settled(
    alloc: Global,
    net: &Netlist,
    simulator: &mut Simulator,
    play: &Play,
) -> Result<bool, AllocError>
    requires net { play.now.state.net ≡ net.now }
    requires simulator { IsSimulatorOf net.now simulator.old }
    ensures simulator { IsSimulatorOf net.now simulator.new }
    ensures settled { IfOk result (λ settled. settled ≡ stands_at_fix net.now (newest play.now.state.history)) }
{
    let values = given_values(alloc, net, play)?;
    let (inputs, latches) = values.split_at(net.inputs() as usize);
    let tick = simulator.tick(alloc, net, inputs, latches)?;
    Ok(gates_stand_at(net, play, tick.wires.items()))
}

/// What is told of a tick of so many rounds at its last moment, which is the newest.
fn tick_end(
    alloc: Global,
    net: &Netlist,
    simulator: &mut Simulator,
    play: &Play,
    rounds: usize,
) -> Result<TickEnd, AllocError>
    requires net { play.now.state.net ≡ net.now }
    requires simulator { IsSimulatorOf net.now simulator.old }
    ensures simulator { IsSimulatorOf net.now simulator.new }
    ensures end { IfOk result (λ end. end ≡ end_at net.now (newest play.now.state.history) rounds) }
{
    let settled = is_settled(alloc, net, simulator, play)?;
    let outputs = values_of(alloc, play, net.outputs())?;
    Ok(TickEnd {
        rounds: rounds as u64,
        settled,
        outputs: Bits::of(outputs),
    })
}

/// Plays a tick that has opened, and tells how it ended.
fn play_tick(
    alloc: Global,
    net: &Netlist,
    simulator: &mut Simulator,
    play: &mut Play,
    rounds: &[RoundPlan],
    log: &mut ChangeLog,
) -> Result<TickEnd, PlayFault>
    requires net { play.old.state.net ≡ net.now }
    requires first { length play.old.state.starts ≡ 1 }
    requires simulator { IsSimulatorOf net.now simulator.old }
    ensures simulator { IsSimulatorOf net.now simulator.new }
    ensures fault { IfErr result (λ fault. (fault ≡ PlayFault.Memory) ⊎ (rounds_fault play.old.state rounds.now ≡ Some fault)) }
    ensures none { OnOk result (rounds_fault play.old.state rounds.now ≡ None) }
    ensures played { OnOk result (play.new.state ≡ after_plans play.old.state rounds.now) }
    ensures changed { OnOk result (log.new ≡ logged log.old (tick_changes play.old.state rounds.now)) }
    ensures end { IfOk result (λ end. end ≡ end_at net.now (newest play.new.state.history) (length rounds.now)) }
{
    log_opening(net, play, log)?;
    play_rounds(play, rounds, log)?;
    Ok(tick_end(alloc, net, simulator, play, rounds.len())?)
}

/// Plays a tick that has opened, and adds how it ended.
fn play_opened(
    alloc: Global,
    run: &ScheduledRun<'_>,
    simulator: &mut Simulator,
    play: &mut Play,
    tick: usize,
    log: &mut ChangeLog,
    ends: &mut Vec<TickEnd>,
) -> Result<(), PlayFault>
    requires tick { tick < length run.now.vectors }
    requires net { play.old.state.net ≡ run.now.net }
    requires first { length play.old.state.starts ≡ 1 }
    requires simulator { IsSimulatorOf run.now.net simulator.old }
    ensures simulator { IsSimulatorOf run.now.net simulator.new }
    ensures fault { IfErr result (λ fault. (fault ≡ PlayFault.Memory) ⊎ (rounds_fault play.old.state (rounds_at run.now tick) ≡ Some fault)) }
    ensures none { OnOk result (rounds_fault play.old.state (rounds_at run.now tick) ≡ None) }
    ensures played { OnOk result (play.new.state ≡ after_plans play.old.state (rounds_at run.now tick)) }
    ensures changed { OnOk result (log.new ≡ logged log.old (tick_changes play.old.state (rounds_at run.now tick))) }
    ensures ends { OnOk result (ends.new.items ≡ ends.old.items ++ end_at run.now.net (newest play.new.state.history) (length (rounds_at run.now tick)) ∷ []) }
{
    let end = play_tick(alloc, run.net(), simulator, play, run.rounds(tick), log)?;
    ends.push(end)?;
    Ok(())
}

/// Plays the ticks of a run, of which the first has opened, and adds how each ended.
fn play_ticks(
    alloc: Global,
    run: &ScheduledRun<'_>,
    play: &mut Play,
    log: &mut ChangeLog,
    ends: &mut Vec<TickEnd>,
) -> Result<(), PlayFault>
    requires some { 0 < length run.now.vectors }
    requires opened { play.old.state ≡ first_opened run.now.net run.now.schedule (inputs_at run.now 0) }
    requires none { ends.old.items ≡ [] }
    ensures fault { IfErr result (λ fault. (fault ≡ PlayFault.Memory) ⊎ (schedule_fault run.now.net run.now.schedule run.now.vectors ≡ Some fault)) }
    ensures whole { OnOk result (schedule_fault run.now.net run.now.schedule run.now.vectors ≡ None) }
    ensures ends { OnOk result (ends.new.items ≡ map (end_of run.now.net) (ticks_of run.now.net (run_of run.now.schedule run.now.vectors))) }
    ensures changed { OnOk result (log.new ≡ logged log.old (changes run.now.net run.now.schedule run.now.vectors)) }
{
    let mut simulator = Simulator::of(alloc, run.net())?;
    play_opened(alloc, run, &mut simulator, play, 0, log, ends)?;
    for tick in 1..run.ticks() {
        run.open(play, tick)?;
        play_opened(alloc, run, &mut simulator, play, tick, log, ends)?;
    }
    Ok(())
}

/// Plays a run whole, tells how each tick ended, and keeps its changes, where the log is on; or answers its first fault in
/// the order of play, and nothing is said of the log.
pub fn play_run(
    alloc: Global,
    run: &ScheduledRun<'_>,
    log: &mut ChangeLog,
) -> Result<Vec<TickEnd>, PlayFault>
    ensures fault { IfErr result (λ fault. (fault ≡ PlayFault.Memory) ⊎ (schedule_fault run.now.net run.now.schedule run.now.vectors ≡ Some fault)) }
    ensures whole { OnOk result (schedule_fault run.now.net run.now.schedule run.now.vectors ≡ None) }
    ensures ends { IfOk result (λ ends. ends.items ≡ map (end_of run.now.net) (ticks_of run.now.net (run_of run.now.schedule run.now.vectors))) }
    ensures fair { OnOk result (All (IsPlayedFairly run.now.net run.now.schedule.window) (ticks_of run.now.net (run_of run.now.schedule run.now.vectors))) }
    ensures settled { OnOk result (All (SettledIsTold run.now.net) (ticks_of run.now.net (run_of run.now.schedule run.now.vectors))) }
    ensures in_time { OnOk result (All (SettlesInTime run.now.net run.now.schedule.window) (ticks_of run.now.net (run_of run.now.schedule run.now.vectors))) }
    ensures changed { OnOk result (log.new ≡ logged log.old (changes run.now.net run.now.schedule run.now.vectors)) }
{
    let mut ends = Vec::new(alloc);
    if run.ticks() == 0 {
        return Ok(ends);
    }
    let mut play = run.start(alloc)?;
    play_ticks(alloc, run, &mut play, log, &mut ends)?;
    Ok(ends)
}

/// Plays a recorded schedule whole, one tick for each vector of inputs, and tells how each tick ended; or answers its
/// first fault in the order of play.
pub fn play_whole(
    alloc: Global,
    net: &Netlist,
    vectors: &[Bits],
    schedule: &Schedule,
) -> Result<Vec<TickEnd>, PlayFault>
    requires past { All (λ (moment : List Bool). length moment ≡ count net.now) schedule.now.past }
    requires latches { length schedule.now.latches ≡ length net.now.latches }
    requires gates { length schedule.now.gates ≡ length net.now.gates }
    requires inputs { All (λ (inputs : List Bool). length inputs ≡ length net.now.inputs) vectors.now }
    requires ticks { length schedule.now.ticks ≡ length vectors.now }
    ensures fault { IfErr result (λ fault. (fault ≡ PlayFault.Memory) ⊎ (schedule_fault net.now schedule.now vectors.now ≡ Some fault)) }
    ensures whole { OnOk result (schedule_fault net.now schedule.now vectors.now ≡ None) }
    ensures fair { OnOk result (All (IsPlayedFairly net.now schedule.now.window) (ticks_of net.now (run_of schedule.now vectors.now))) }
    ensures ends { IfOk result (λ ends. ends.items ≡ map (end_of net.now) (ticks_of net.now (run_of schedule.now vectors.now))) }
    ensures settled { OnOk result (All (SettledIsTold net.now) (ticks_of net.now (run_of schedule.now vectors.now))) }
    ensures in_time { OnOk result (All (SettlesInTime net.now schedule.now.window) (ticks_of net.now (run_of schedule.now vectors.now))) }
{
    let run = ScheduledRun::new(net, vectors, schedule);
    play_run(alloc, &run, &mut ChangeLog::off())
}
