// Plays of recorded schedules.
ghost use Rattle.std.specs.Prelude.{◌≡◌, ◌+◌, ◌++◌, [], All, Ok, IfOk, IfErr, OnOk, OnErr, length, map};
ghost use Rattle.care_sets.specs.Care.{is_one};
ghost use Rattle.parsed_files.specs.Faults.{IsErrorOf};
ghost use Rattle.parsed_files.specs.Seen.{error_seen};
ghost use Rattle.cyc_io.specs.Text.{text_bytes};
ghost use Rattle.delay_core.specs.Changes.{changes};
ghost use Rattle.probes.specs.Hearing.{EachHears, EachHearsPrefix};
ghost use Rattle.probes.specs.Showing.{texts_of};
ghost use Rattle.report.specs.Ticks.{played_text};
ghost use Rattle.sched_text.specs.Fitting.{FitsNetlist};
ghost use Rattle.plain_commands.specs.Plays.{AreInputs, delays_text, known as known_of, played as played_meant};

use cyc_base::{Bits, Trit, Trits};
use cyc_io::TextSink;
use delay_core::{Schedule, TickEnd, play_whole};
use netlist::Netlist;
use parsed_files::{FileError, play_error};
use probes::{Kind, Probe, ShownRun, play_shown};
use report::put_played_tick;
use std::alloc::{AllocError, Global};

// A netlist with vectors and a schedule for them.
#[derive(Drop)]
pub(crate) struct RecordedRun<'a> {
    pub net: &'a Netlist,
    pub vectors: &'a [Bits],
    pub schedule: &'a Schedule,
    ghost inputs: { AreInputs net.now vectors.now },
}

fn is_one_of(value: Trit) -> bool
    ensures { result ≡ is_one value }
{
    match value {
        Trit::One => true,
        Trit::Zero | Trit::X => false,
    }
}

fn known_vector(alloc: Global, vector: &[Trit]) -> Result<Bits, AllocError>
    ensures { IfOk result (λ bits. bits ≡ map is_one vector.now) }
{
    let mut bits = Vec::with_capacity(alloc, vector.len())?;
    for value in vector {
        bits.push_reserved(is_one_of(*value));
    }
    Ok(Bits::of(bits))
}

// Vectors without unknown values.
pub(crate) fn known_vectors(alloc: Global, vectors: &[Trits]) -> Result<Vec<Bits>, AllocError>
    ensures { IfOk result (λ bits. bits.items ≡ known_of vectors.now) }
{
    let mut bits = Vec::with_capacity(alloc, vectors.len())?;
    for vector in vectors {
        bits.push_reserved(known_vector(alloc, vector.items())?);
    }
    Ok(bits)
}

// How the ticks of a run end, or the first fault in the order of play.
pub(crate) fn tick_ends(alloc: Global, run: &RecordedRun<'_>) -> Result<Vec<TickEnd>, FileError>
    requires { FitsNetlist run.now.net.now (length run.now.vectors.now) run.now.schedule.now }
    ensures good { IfOk result (λ ends. played_meant run.now.net.now run.now.vectors.now run.now.schedule.now ≡ Ok ends.items) }
    ensures bad { IfErr result (λ error. IsErrorOf (played_meant run.now.net.now run.now.vectors.now run.now.schedule.now) (error_seen error)) }
{
    match play_whole(alloc, run.net, run.vectors, run.schedule) {
        Ok(ends) => Ok(ends),
        Err(fault) => Err(play_error(alloc, run.net, fault)),
    }
}

// The same run, told to the probes of a kind, which show it.
pub(crate) fn play_to_probes(
    alloc: Global,
    run: &RecordedRun<'_>,
    probes: &mut [Box<dyn Probe>],
    wanted: Kind,
) -> Result<ShownRun, FileError>
    requires fits { FitsNetlist run.now.net.now (length run.now.vectors.now) run.now.schedule.now }
    requires silent { All (λ probe. heard probe ≡ []) probes.old }
    ensures good { IfOk result (λ shown. played_meant run.now.net.now run.now.vectors.now run.now.schedule.now ≡ Ok shown.ends.items) }
    ensures heard { OnOk result (EachHears kind heard text wanted (changes run.now.net.now run.now.schedule.now run.now.vectors.now) probes.old probes.new) }
    ensures err { OnErr result (EachHearsPrefix kind heard text wanted (changes run.now.net.now run.now.schedule.now run.now.vectors.now) probes.old probes.new) }
    ensures shown { IfOk result (λ shown. shown.text.items ≡ texts_of kind text wanted run.now.net.now (changes run.now.net.now run.now.schedule.now run.now.vectors.now) probes.old) }
    ensures bad { IfErr result (λ error. IsErrorOf (played_meant run.now.net.now run.now.vectors.now run.now.schedule.now) (error_seen error)) }
{
    match play_shown(alloc, run.net, run.vectors, run.schedule, probes, wanted) {
        Ok(shown) => Ok(shown),
        Err(fault) => Err(play_error(alloc, run.net, fault)),
    }
}

fn put_end(tick: u64, end: &TickEnd, sink: &mut TextSink) -> Result<(), AllocError>
    ensures { OnOk result (text_bytes sink.new ≡ text_bytes sink.old ++ played_text tick end.now.rounds end.now.settled end.now.outputs) }
{
    match put_played_tick(tick, end.rounds, end.settled, end.outputs.items(), sink) {
        Ok(()) => Ok(()),
        Err(_) => Err(AllocError),
    }
}

fn put_ends(ends: &[TickEnd], sink: &mut TextSink) -> Result<(), AllocError>
    ensures { OnOk result (text_bytes sink.new ≡ text_bytes sink.old ++ delays_text ends.now) }
{
    for i in 0..ends.len() {
        put_end(i as u64 + 1, &ends[i], sink)?;
    }
    Ok(())
}

// The lines of ticks that were played.
pub(crate) fn end_lines(alloc: Global, ends: &[TickEnd]) -> Result<Vec<u8>, AllocError>
    ensures { IfOk result (λ text. text.items ≡ delays_text ends.now) }
{
    let mut sink = TextSink::new(alloc);
    put_ends(ends, &mut sink)?;
    Ok(sink.into_vec())
}
