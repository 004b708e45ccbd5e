// Schedule files.
ghost use Rattle.std.specs.Prelude.{◌≡◌, ◌≢◌, ◌+◌, ◌<◌, ◌≤◌, ◌^◌, MatchResult, IfOk, IfErr, OnOk, Ok, Err, None, length, option_map};
ghost use Rattle.sched_text.specs.declared.fault.SchedFault.TheVariants.{BadLine, Memory};
ghost use Rattle.sched_text.specs.Answers.{IsFault};
ghost use Rattle.sched_text.specs.Fitting.{FitsNetlist};
ghost use Rattle.sched_text.specs.Pieces.{bad_line};
ghost use Rattle.sched_text.specs.ReadingOn.{ReadsPiece, FailsPiece};
ghost use Rattle.sched_text.specs.Running.{seen, new_draft, ended};
ghost use Rattle.sched_text.specs.Schedules.{schedule_read};

use crate::draft::Draft;
use crate::fault::SchedFault;
use crate::kind::kind_at;
use crate::line::LineReader;
use crate::pieces::{Piece, Pieces};
use crate::place::SchedulePlace;
use blif_text::end_line;
use delay_core::Schedule;
use netlist::Netlist;
use std::alloc::Global;

impl<'a> LineReader<'a> {
    // Reads the lines of a piece, and gives the place behind them.
    fn take_piece(
        &self,
        alloc: Global,
        lines: &Piece,
        place: SchedulePlace,
        draft: &mut Draft,
    ) -> Result<SchedulePlace, SchedFault>
        requires few { place.begun + length lines.now ≤ self.now.end }
        ensures read { IfOk result (λ next. ReadsPiece self.now.net.now self.now.ticks self.now.end lines.now place (seen draft.old) next (seen draft.new) (length lines.now)) }
        ensures fault { IfErr result (λ fault. fault ≢ Memory → FailsPiece self.now.net.now self.now.ticks self.now.end lines.now place (seen draft.old) fault) }
    {
        let mut next = place;
        for i in 0..lines.len() {
            let line = lines.line(i);
            let kind = kind_at(&line);
            let said = self.read_line(alloc, next, kind, &line)?;
            draft.take(alloc, said)?;
            next = next.after(kind);
        }
        Ok(next)
    }
}

// The first bad byte of what is left comes before all other faults.
fn check_rest(alloc: Global, pieces: &mut Pieces) -> Result<(), SchedFault>
    requires { pieces.old.before + length pieces.old.left.now + 1 < 2 ^ 64 }
    ensures fault { IfErr result (IsFault (option_map BadLine (bad_line (pieces.old.before + 1) pieces.old.left.now))) }
    ensures none { OnOk result (bad_line (pieces.old.before + 1) pieces.old.left.now ≡ None) }
{
    while let Some(_piece) = pieces.next_piece(alloc)? {}
    Ok(())
}

// Reads the lines of a text into a draft that has none.
fn read_lines(
    alloc: Global,
    net: &Netlist,
    ticks: usize,
    bytes: &[u8],
    draft: &mut Draft,
) -> Result<(), SchedFault>
    requires { seen draft.old ≡ new_draft }
    ensures read { OnOk result (schedule_read bytes.now net.now ticks ≡ Ok (ended (seen draft.new))) }
    ensures fault { IfErr result (λ fault. fault ≢ Memory → schedule_read bytes.now net.now ticks ≡ Err fault) }
{
    let end = end_line(bytes);
    let reader = LineReader { net, ticks, end };
    let mut pieces = Pieces::of(bytes);
    let mut place = SchedulePlace::first();
    while let Some(lines) = pieces.next_piece(alloc)? {
        match reader.take_piece(alloc, &lines, place, draft) {
            Ok(next) => place = next,
            Err(fault) => {
                check_rest(alloc, &mut pieces)?;
                return Err(fault);
            }
        }
    }
    place.check_end(ticks, end)?;
    Ok(())
}

/// The schedule of a text in format 1 or 2, for a netlist and so many ticks.
///
/// Each fault but `Memory` comes exactly where the text has it, and it is the text's first: a bad byte anywhere comes
/// before all others, then the first line with a fault decides, and on one line the order of `SchedFault`. Where a line
/// is missing, or a tick, that is a fault of the line in which the text ends.
///
/// The schedule fits the netlist: it has a value for each signal, latch and gate, so many ticks, and events of the
/// netlist's gates alone; and the latches start as their inits permit, unless it is free.
pub fn read_schedule(
    alloc: Global,
    bytes: &[u8],
    net: &Netlist,
    ticks: usize,
) -> Result<Schedule, SchedFault>
    ensures schedule { MatchResult result
        (λ found. schedule_read bytes.now net.now ticks ≡ Ok found)
        (λ fault. fault ≢ Memory → schedule_read bytes.now net.now ticks ≡ Err fault) }
    ensures fits { IfOk result (λ found. FitsNetlist net.now ticks found) }
{
    let mut draft = Draft::new(alloc);
    read_lines(alloc, net, ticks, bytes, &mut draft)?;
    Ok(draft.end()?)
}
