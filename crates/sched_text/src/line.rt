// What a line of a schedule says.
ghost use Rattle.std.specs.Prelude.{◌≡◌, ◌==◌, ◌&&◌, Some, None, if◌then◌else◌};
ghost use Rattle.sched_text.specs.declared.kind.ScheduleKind.TheVariants as kinds;
ghost use Rattle.sched_text.specs.declared.statement.ScheduleStatement.TheVariants as statements;
ghost use Rattle.sched_text.specs.Answers.{Reads};
ghost use Rattle.sched_text.specs.Kinds.{kind as kind_of_line, lacks_lines as lacks_lines_behind};
ghost use Rattle.sched_text.specs.LineFaults.{arguments, fault_of_words, fault_at, is_nothing, is_number};
ghost use Rattle.sched_text.specs.Statements.{statement_of, statement, window_of};

use crate::bits::{read_latches, read_width};
use crate::events::read_event;
use crate::fault::SchedFault;
use crate::kind::{ScheduleKind, lacks_lines, may_follow};
use crate::number::number;
use crate::pieces::PieceLine;
use crate::place::SchedulePlace;
use crate::statement::ScheduleStatement;
use netlist::Netlist;
use std::alloc::Global;

fn read_window(line: &PieceLine<'_>) -> Result<ScheduleStatement, SchedFault>
    ensures { Reads result (if is_number (arguments line.now.words) then None else Some (SchedFault.BadLine line.now.number)) (statements.Window (window_of (arguments line.now.words))) }
{
    if line.words() != 2 {
        return Err(line.bad_line());
    }
    match number(line.word(1)) {
        Some(window) => Ok(ScheduleStatement::Window(window)),
        None => Err(line.bad_line()),
    }
}

fn read_round(line: &PieceLine<'_>) -> Result<ScheduleStatement, SchedFault>
    ensures { Reads result (if is_nothing (arguments line.now.words) then None else Some (SchedFault.BadLine line.now.number)) (statements.Round line.now.number) }
{
    if line.words() > 1 {
        return Err(line.bad_line());
    }
    Ok(ScheduleStatement::Round(line.number()))
}

/// What the lines of a schedule are read for.
#[derive(Drop)]
pub struct LineReader<'a> {
    pub net: &'a Netlist,
    /// How many ticks the schedule is to have.
    pub ticks: usize,
    /// The number of the line in which the text ends.
    pub end: u64,
}

impl<'a> LineReader<'a> {
    // What the line of a tick says, where so many began before.
    fn read_tick(&self, begun: usize, line: &PieceLine<'_>) -> Result<ScheduleStatement, SchedFault>
        ensures { Reads result (fault_of_words self.now.net.now self.now.ticks kinds.Tick line.now.number begun (arguments line.now.words)) (statement_of self.now.net.now kinds.Tick line.now.number (arguments line.now.words)) }
    {
        if line.words() > 1 {
            return Err(line.bad_line());
        }
        if begun >= self.ticks {
            return Err(SchedFault::TickCount {
                line: line.number(),
            });
        }
        Ok(ScheduleStatement::Tick)
    }

    // What a line of this kind says.
    fn read_words(
        &self,
        alloc: Global,
        begun: usize,
        kind: ScheduleKind,
        line: &PieceLine<'_>,
    ) -> Result<ScheduleStatement, SchedFault>
        ensures { Reads result (fault_of_words self.now.net.now self.now.ticks kind line.now.number begun (arguments line.now.words)) (statement_of self.now.net.now kind line.now.number (arguments line.now.words)) }
    {
        match kind {
            ScheduleKind::FormatOne | ScheduleKind::FormatTwo => Ok(ScheduleStatement::Format),
            ScheduleKind::Window => read_window(line),
            ScheduleKind::Past => Ok(ScheduleStatement::Past(read_width(
                alloc,
                self.net.count(),
                line,
            )?)),
            ScheduleKind::Latches => read_latches(alloc, self.net, line),
            ScheduleKind::State => Ok(ScheduleStatement::State(read_width(
                alloc,
                self.net.latches(),
                line,
            )?)),
            ScheduleKind::Gates => Ok(ScheduleStatement::Gates(read_width(
                alloc,
                self.net.gates(),
                line,
            )?)),
            ScheduleKind::Tick => self.read_tick(begun, line),
            ScheduleKind::Round => read_round(line),
            ScheduleKind::Event => read_event(alloc, self.net, line),
            ScheduleKind::Unknown => Err(line.bad_line()),
        }
    }

    // Whether the text ends in a line of this kind, and a line is missing behind it.
    fn is_cut_off(&self, kind: ScheduleKind, line: &PieceLine<'_>) -> bool
        ensures { result ≡ ((line.now.number == self.now.end) && lacks_lines_behind (Some kind)) }
    {
        line.number() == self.end && lacks_lines(Some(kind))
    }

    // What a line at this place says. The text may end in it too early.
    pub fn read_line(
        &self,
        alloc: Global,
        place: SchedulePlace,
        kind: ScheduleKind,
        line: &PieceLine<'_>,
    ) -> Result<ScheduleStatement, SchedFault>
        requires { kind ≡ kind_of_line line.now }
        ensures { Reads result (fault_at self.now.net.now self.now.ticks place.before place.begun ((line.now.number == self.now.end) && lacks_lines_behind (Some (kind_of_line line.now))) line.now) (statement self.now.net.now line.now) }
    {
        if self.is_cut_off(kind, line) || !may_follow(place.before, kind) {
            return Err(line.bad_line());
        }
        self.read_words(alloc, place.begun, kind, line)
    }
}
