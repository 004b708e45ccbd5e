// The end of a call, told to its sinks.
ghost use Rattle.std.specs.Prelude.{◌≤◌};
ghost use Rattle.plain_commands.specs.Seen.{end_of, outcome_of, stop_outcome};
ghost use Rattle.plain_commands.specs.Sinks.{Tells, sink_call};

use crate::outcome::{Outcome, Stop};
use crate::status;
use cyc_io::{Sink, write_whole};
use report::NO_MEMORY_TEXT;

#[tactic(auto, using(crate::proofs::TellLemmas::whole_prefix))]
fn tell<O: Sink, E: Sink>(
    status: u8,
    out_text: &[u8],
    err_text: &[u8],
    out: &mut O,
    err: &mut E,
) -> u8
    ensures told { Tells record { status = status; out = out_text.now; err = err_text.now }
        (sink_call O.put O.faults out.old out.new) (sink_call E.put E.faults err.old err.new) result }
    ensures out_later { O.faults out.old ≤ O.faults out.new }
    ensures err_later { E.faults err.old ≤ E.faults err.new }
{
    if write_whole(out, out_text).is_err() {
        return status::WRITE_FAILED;
    }
    if write_whole(err, err_text).is_err() {
        return status::WRITE_FAILED;
    }
    status
}

fn tell_text<O: Sink, E: Sink>(told: &Outcome, out: &mut O, err: &mut E) -> u8
    ensures told { Tells (outcome_of told.now) (sink_call O.put O.faults out.old out.new)
        (sink_call E.put E.faults err.old err.new) result }
    ensures out_later { O.faults out.old ≤ O.faults out.new }
    ensures err_later { E.faults err.old ≤ E.faults err.new }
{
    tell(told.status, &told.out, &told.err, out, err)
}

// Tells why a call stopped.
fn tell_stop<O: Sink, E: Sink>(stop: &Stop, out: &mut O, err: &mut E) -> u8
    ensures told { Tells (stop_outcome stop.now) (sink_call O.put O.faults out.old out.new)
        (sink_call E.put E.faults err.old err.new) result }
    ensures out_later { O.faults out.old ≤ O.faults out.new }
    ensures err_later { E.faults err.old ≤ E.faults err.new }
{
    match stop {
        Stop::At(told) => tell_text(told, out, err),
        Stop::Memory => tell(status::NO_MEMORY, b"", NO_MEMORY_TEXT, out, err),
    }
}

/// Tells the end of a call: its text for out is written whole, and then that for err. The status is that of the end, or 5 where
/// a write failed: each sink then took a prefix of its text, and err nothing if out isn't whole.
pub fn tell_end<O: Sink, E: Sink>(end: &Result<Outcome, Stop>, out: &mut O, err: &mut E) -> u8
    ensures told { Tells (end_of end.now) (sink_call O.put O.faults out.old out.new)
        (sink_call E.put E.faults err.old err.new) result }
    ensures out_later { O.faults out.old ≤ O.faults out.new }
    ensures err_later { E.faults err.old ≤ E.faults err.new }
{
    match end {
        Ok(told) => tell_text(told, out, err),
        Err(stop) => tell_stop(stop, out, err),
    }
}
