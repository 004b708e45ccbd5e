// The storm of a refused wire, as a schedule file.
ghost use Rattle.std.specs.Prelude.{◌≡◌, ◌+◌, ◌++◌, Some, IfOk, OnOk, length};
ghost use Rattle.commands.specs.Seen.{rounds_seen};
ghost use Rattle.cyc_io.specs.Text.{text_bytes};
ghost use Rattle.refusals.specs.Refusals.{IsRefusalOf};
ghost use Rattle.sched_text.specs.Written.{written};
ghost use Rattle.storm.specs.Laws.{FitsOneTick};
ghost use Rattle.storm.specs.Plans.{storm_plan};
ghost use Rattle.plain_commands.specs.Texts.{told as done};
ghost use Rattle.plain_commands.specs.Storms.{storm_or_refusal, storm_told, bits_or_dash, inputs_line, LeavesUnknown};
ghost use Rattle.plain_commands.specs.Seen.{IsShown, outcome_of};

use crate::outcome::Outcome;
use crate::status;
use crate::texts::{on_out, tell_declined, tell_too_large};
use commands::Rounds;
use cyc_io::{Failed, TextSink, put_bits, write_whole};
use delay_core::Schedule;
use netlist::Netlist;
use refusals::Refusal;
use sched_text::put_schedule;
use std::alloc::{AllocError, Global};
use storm::laws::unknown_gates_have_plans;
use storm::{StormFault, StormPlan, plan, schedule};

// The values of inputs, or a dash where there are none.
fn put_inputs(inputs: &[bool], sink: &mut TextSink) -> Result<(), Failed>
    ensures { OnOk result (text_bytes sink.new ≡ text_bytes sink.old ++ bits_or_dash inputs.now) }
{
    match inputs {
        [] => write_whole(sink, b"-"),
        inputs => put_bits(sink, inputs),
    }
}

// The inputs of a vector, as a comment.
fn put_inputs_line(net: &Netlist, v: &[bool], sink: &mut TextSink) -> Result<(), Failed>
    requires { length v.now ≡ length net.now.inputs + length net.now.latches }
    ensures { OnOk result (text_bytes sink.new ≡ text_bytes sink.old ++ inputs_line net.now v.now) }
{
    write_whole(sink, b"# inputs ")?;
    put_inputs(&v[..net.inputs() as usize], sink)?;
    write_whole(sink, b"\n")
}

fn put_file(
    net: &Netlist,
    v: &[bool],
    schedule: &Schedule,
    sink: &mut TextSink,
) -> Result<(), Failed>
    requires width { length v.now ≡ length net.now.inputs + length net.now.latches }
    requires fits { FitsOneTick net.now schedule.now }
    ensures { OnOk result (text_bytes sink.new ≡ text_bytes sink.old ++ (inputs_line net.now v.now ++ written net.now schedule.now)) }
{
    put_inputs_line(net, v, sink)?;
    put_schedule(net, schedule, sink)
}

// A schedule file of this schedule, for the inputs of a vector.
fn file_of(
    alloc: Global,
    net: &Netlist,
    v: &[bool],
    schedule: &Schedule,
) -> Result<Vec<u8>, AllocError>
    requires width { length v.now ≡ length net.now.inputs + length net.now.latches }
    requires fits { FitsOneTick net.now schedule.now }
    ensures { IfOk result (λ text. text.items ≡ inputs_line net.now v.now ++ written net.now schedule.now) }
{
    let mut sink = TextSink::new(alloc);
    match put_file(net, v, schedule, &mut sink) {
        Ok(()) => Ok(sink.into_vec()),
        Err(_) => Err(AllocError),
    }
}

fn tell_planned(
    alloc: Global,
    net: &Netlist,
    v: &[bool],
    plan: &StormPlan,
    rounds: Rounds,
) -> Result<Outcome, AllocError>
    requires width { length v.now ≡ length net.now.inputs + length net.now.latches }
    requires plan { storm_plan net.now v.now ≡ Some plan.now }
    ensures { IfOk result (λ told. outcome_of told ≡ done (storm_told net.now (rounds_seen rounds) v.now)) }
{
    match schedule(alloc, net, v, plan, rounds.number) {
        Ok(found) => Ok(on_out(alloc, status::DONE, file_of(alloc, net, v, &found)?)),
        Err(StormFault::TooLarge { events }) => Ok(tell_too_large(alloc, events)?),
        Err(StormFault::Memory) => Err(AllocError),
    }
}

// The storm of a vector that leaves a gate unknown: it has a plan then.
fn tell_vector(
    alloc: Global,
    net: &Netlist,
    v: &[bool],
    rounds: Rounds,
) -> Result<Outcome, AllocError>
    requires width { length v.now ≡ length net.now.inputs + length net.now.latches }
    requires unknown { LeavesUnknown net.now v.now }
    ensures { IfOk result (λ told. outcome_of told ≡ done (storm_told net.now (rounds_seen rounds) v.now)) }
{
    unknown_gates_have_plans();
    let found = plan(alloc, net, v)?;
    match &found {
        Some(plan) => tell_planned(alloc, net, v, plan, rounds),
        None => unreachable!(),
    }
}

/// The storm of a refused wire, which is unknown at its vector, or another refusal in place of it. Status 8 says that the storm has
/// over 4,000,000 events.
pub fn tell_storm(
    alloc: Global,
    net: &Netlist,
    refusal: &Refusal,
    rounds: Rounds,
) -> Result<Outcome, AllocError>
    requires fits { IsRefusalOf net.now refusal.now }
    requires shown { IsShown net.now refusal.now }
    ensures { IfOk result (λ told. outcome_of told ≡ done (storm_or_refusal net.now (rounds_seen rounds) refusal.now)) }
{
    match refusal {
        Refusal::Undetermined { vector, .. } => Ok(tell_vector(
            alloc,
            net,
            vector.items(),
            rounds,
        )?),
        _ => Ok(tell_declined(alloc, net, refusal)?),
    }
}
