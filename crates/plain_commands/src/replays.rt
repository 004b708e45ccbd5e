// Plays of the recorded schedule of a file.
ghost use Rattle.std.specs.Prelude.{◌≡◌, [], All, None, Some, length};
ghost use Rattle.delay_core.specs.Changes.{changes};
ghost use Rattle.sched_text.specs.Fitting.{FitsNetlist};
ghost use Rattle.plain_commands.specs.Hearing.{HearPlay, HearRun};
ghost use Rattle.plain_commands.specs.Plans.{play_on, playing, replaying};
ghost use Rattle.plain_commands.specs.Plays.{AreInputs};
ghost use Rattle.plain_commands.specs.Reading.{FollowsAlone, FollowsStillAlone};
ghost use Rattle.plain_commands.specs.Requests.{Shows, shown_by};
ghost use Rattle.plain_commands.specs.Seen.{end_of};
ghost use Rattle.plain_commands.specs.Shelves.{shelf_call};

use crate::outcome::{Outcome, Stop};
use crate::plays::{RecordedRun, known_vectors, play_to_probes, tick_ends};
use crate::reading::{read_netlist, read_schedule_file, read_vector_file, stop_at};
use crate::texts::{tell_delays, tell_probed};
use cyc_base::{Bits, Name};
use cyc_io::Shelf;
use netlist::Netlist;
use probes::{Kind, Probe, ShownRun};
use std::alloc::Global;

/// What `delays` is asked for: the files of a netlist, of vectors and of a schedule, and of which kind the probes are that
/// show the run.
#[derive(Drop)]
pub struct Replay<'a> {
    pub netlist: &'a Name,
    pub vectors: &'a Name,
    pub recorded: &'a Name,
    pub probe: Option<Kind>,
}

// Plays a run by the schedule of this file, and tells no probe.
fn play_alone(alloc: Global, run: &RecordedRun<'_>, recorded: &Name) -> Result<Outcome, Stop>
    requires { FitsNetlist run.now.net.now (length run.now.vectors.now) run.now.schedule.now }
    ensures { (shows : Shows) → FollowsStillAlone (playing shows None recorded.now run.now.net.now run.now.vectors.now run.now.schedule.now) (end_of result) }
{
    match tick_ends(alloc, run) {
        Ok(ends) => Ok(tell_delays(alloc, &ends)?),
        Err(error) => Err(stop_at(alloc, recorded, error)),
    }
}

// Plays it, tells the probes of a kind, and has them show it.
fn play_probed(
    alloc: Global,
    run: &RecordedRun<'_>,
    recorded: &Name,
    probes: &mut [Box<dyn Probe>],
    wanted: Kind,
) -> Result<Outcome, Stop>
    requires fits { FitsNetlist run.now.net.now (length run.now.vectors.now) run.now.schedule.now }
    requires silent { All (λ probe. heard probe ≡ []) probes.old }
    ensures heard { HearRun kind heard text (Some wanted) probes.old probes.new (changes run.now.net.now run.now.schedule.now run.now.vectors.now) }
    ensures comes { FollowsStillAlone (playing (shown_by kind text probes.old) (Some wanted) recorded.now run.now.net.now run.now.vectors.now run.now.schedule.now) (end_of result) }
{
    match play_to_probes(alloc, run, probes, wanted) {
        Ok(ShownRun { ends, text: shown }) => Ok(tell_probed(alloc, wanted, &ends, shown)?),
        Err(error) => Err(stop_at(alloc, recorded, error)),
    }
}

fn play(
    alloc: Global,
    run: &RecordedRun<'_>,
    replay: &Replay<'_>,
    probes: &mut [Box<dyn Probe>],
) -> Result<Outcome, Stop>
    requires fits { FitsNetlist run.now.net.now (length run.now.vectors.now) run.now.schedule.now }
    requires silent { All (λ probe. heard probe ≡ []) probes.old }
    ensures heard { HearRun kind heard text replay.now.probe probes.old probes.new (changes run.now.net.now run.now.schedule.now run.now.vectors.now) }
    ensures comes { FollowsStillAlone (playing (shown_by kind text probes.old) replay.now.probe replay.now.recorded.now run.now.net.now run.now.vectors.now run.now.schedule.now) (end_of result) }
{
    match replay.probe {
        Some(wanted) => play_probed(alloc, run, replay.recorded, probes, wanted),
        None => play_alone(alloc, run, replay.recorded),
    }
}

// Plays the recorded schedule on these vectors.
fn play_file<S: Shelf>(
    alloc: Global,
    shelf: &mut S,
    net: &Netlist,
    vectors: &[Bits],
    replay: &Replay<'_>,
    probes: &mut [Box<dyn Probe>],
) -> Result<Outcome, Stop>
    requires inputs { AreInputs net.now vectors.now }
    requires silent { All (λ probe. heard probe ≡ []) probes.old }
    ensures comes { FollowsAlone (play_on (shown_by kind text probes.old) replay.now.probe replay.now.recorded.now net.now vectors.now) (shelf_call S.files S.faults shelf.old shelf.new) (end_of result) }
    ensures heard { HearPlay kind heard text replay.now.probe (λ shows. play_on shows replay.now.probe replay.now.recorded.now net.now vectors.now) (shelf_call S.files S.faults shelf.old shelf.new)
        probes.old probes.new }
    ensures same { S.files shelf.new ≡ S.files shelf.old }
{
    let schedule = read_schedule_file(alloc, shelf, net, vectors.len(), replay.recorded)?;
    let run = RecordedRun {
        net,
        vectors,
        schedule: &schedule,
    };
    play(alloc, &run, replay, probes)
}

/// Plays the netlist of a file on the vectors of a second one, by the schedule of a third. Probes of the wanted kind hear the
/// changes of the run; they have heard nothing before.
///
/// An `Err` is the end of the call: the read failed (4), the file has a fault, of which the first is told (3), or want of memory (7).
/// The files of the shelf stay, and only the counts of faults of the files that are read change.
pub fn replay_files<S: Shelf>(
    alloc: Global,
    shelf: &mut S,
    replay: &Replay<'_>,
    probes: &mut [Box<dyn Probe>],
) -> Result<Outcome, Stop>
    requires { All (λ probe. heard probe ≡ []) probes.old }
    ensures comes { FollowsAlone (replaying (shown_by kind text probes.old) replay.now.probe replay.now.netlist.now replay.now.vectors.now replay.now.recorded.now) (shelf_call S.files S.faults shelf.old shelf.new) (end_of result) }
    ensures heard { HearPlay kind heard text replay.now.probe (λ shows. replaying shows replay.now.probe replay.now.netlist.now replay.now.vectors.now replay.now.recorded.now) (shelf_call S.files S.faults shelf.old shelf.new)
        probes.old probes.new }
    ensures same { S.files shelf.new ≡ S.files shelf.old }
{
    let net = read_netlist(alloc, shelf, replay.netlist)?;
    let found = read_vector_file(alloc, shelf, &net, false, replay.vectors)?;
    let inputs = known_vectors(alloc, &found)?;
    play_file(alloc, shelf, &net, &inputs, replay, probes)
}
