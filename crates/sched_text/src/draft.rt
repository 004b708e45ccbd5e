// What the lines so far say of a schedule.
ghost use Rattle.std.specs.Prelude.{◌≡◌, IfOk, OnOk, Some};
ghost use Rattle.sched_text.specs.Running.{seen_round, seen_tick, seen, new_round, new_tick, new_draft, add_event, without_round, begin_round, ended_tick, without_tick, follow, ended};

use crate::statement::ScheduleStatement;
use cyc_base::{Bits, Items};
use delay_core::{Events, PlannedEvent, RoundPlan, Schedule, TickPlan};
use std::alloc::{AllocError, Global};

// A round whose events may go on.
pub struct OpenRound {
    line: u64,
    events: Events,
}

impl Drop for OpenRound {
    fn drop(self) {
        let OpenRound { line: _, events: _ } = self;
    }
}

impl OpenRound {
    fn new(alloc: Global, line: u64) -> OpenRound
        ensures { seen_round result ≡ new_round line }
    {
        OpenRound {
            line,
            events: Events::new(alloc),
        }
    }

    fn end(self) -> RoundPlan
        ensures { result ≡ seen_round self }
    {
        let OpenRound { line, mut events } = self;
        events.shrink();
        RoundPlan { line, events }
    }
}

// A tick whose rounds may go on.
pub struct OpenTick {
    rounds: Vec<RoundPlan>,
    round: Option<OpenRound>,
}

impl Drop for OpenTick {
    fn drop(self) {
        let OpenTick {
            rounds: _,
            round: _,
        } = self;
    }
}

impl OpenTick {
    fn new(alloc: Global) -> OpenTick
        ensures { seen_tick result ≡ new_tick }
    {
        OpenTick {
            rounds: Vec::new(alloc),
            round: None,
        }
    }

    // Ends the round, where there is one.
    fn end_round(&mut self) -> Result<(), AllocError>
        ensures { OnOk result (seen_tick self.new ≡ without_round (seen_tick self.old)) }
    {
        if let Some(round) = self.round.take() {
            self.rounds.push(round.end())?;
        }
        Ok(())
    }

    fn begin_round(&mut self, alloc: Global, line: u64) -> Result<(), AllocError>
        ensures { OnOk result (seen_tick self.new ≡ begin_round line (seen_tick self.old)) }
    {
        self.end_round()?;
        self.round = Some(OpenRound::new(alloc, line));
        Ok(())
    }

    fn add_event(&mut self, planned: &PlannedEvent) -> Result<(), AllocError>
        ensures { OnOk result (seen_tick self.new ≡ add_event planned.now (seen_tick self.old)) }
    {
        if let Some(round) = &mut self.round {
            let event = &planned.event;
            round
                .events
                .push(planned.line, event.gate, event.ages.items())?;
        }
        Ok(())
    }

    fn end(mut self) -> Result<TickPlan, AllocError>
        ensures { IfOk result (λ tick. tick ≡ ended_tick (seen_tick self)) }
    {
        self.end_round()?;
        let OpenTick { rounds, round: _ } = self;
        Ok(TickPlan::of(rounds))
    }
}

// What the lines so far say: the ticks that are ended, and the one whose rounds may go on.
pub struct Draft {
    window: u32,
    past: Vec<Bits>,
    free: bool,
    latches: Bits,
    gates: Bits,
    ticks: Vec<TickPlan>,
    tick: Option<OpenTick>,
}

impl Drop for Draft {
    fn drop(self) {
        let Draft {
            window: _,
            past: _,
            free: _,
            latches: _,
            gates: _,
            ticks: _,
            tick: _,
        } = self;
    }
}

impl Draft {
    pub fn new(alloc: Global) -> Draft
        ensures { seen result ≡ new_draft }
    {
        Draft {
            window: 0,
            past: Vec::new(alloc),
            free: false,
            latches: Bits::of(Vec::new(alloc)),
            gates: Bits::of(Vec::new(alloc)),
            ticks: Vec::new(alloc),
            tick: None,
        }
    }

    // Ends the tick, where there is one.
    fn end_tick(&mut self) -> Result<(), AllocError>
        ensures { OnOk result (seen self.new ≡ without_tick (seen self.old)) }
    {
        if let Some(tick) = self.tick.take() {
            self.ticks.push(tick.end()?)?;
        }
        Ok(())
    }

    fn begin_tick(&mut self, alloc: Global) -> Result<(), AllocError>
        ensures { OnOk result (seen self.new ≡ follow (seen self.old) ScheduleStatement.Tick) }
    {
        self.end_tick()?;
        self.tick = Some(OpenTick::new(alloc));
        Ok(())
    }

    fn begin_round(&mut self, alloc: Global, line: u64) -> Result<(), AllocError>
        ensures { OnOk result (seen self.new ≡ follow (seen self.old) (ScheduleStatement.Round line)) }
    {
        if let Some(tick) = &mut self.tick {
            tick.begin_round(alloc, line)?;
        }
        Ok(())
    }

    fn add_event(&mut self, planned: &PlannedEvent) -> Result<(), AllocError>
        ensures { OnOk result (seen self.new ≡ follow (seen self.old) (ScheduleStatement.Event planned.now)) }
    {
        if let Some(tick) = &mut self.tick {
            tick.add_event(planned)?;
        }
        Ok(())
    }

    // Adds what the next line says.
    pub fn take(&mut self, alloc: Global, said: ScheduleStatement) -> Result<(), AllocError>
        ensures { OnOk result (seen self.new ≡ follow (seen self.old) said) }
    {
        match said {
            ScheduleStatement::Tick => return self.begin_tick(alloc),
            ScheduleStatement::Round(line) => return self.begin_round(alloc, line),
            ScheduleStatement::Event(planned) => return self.add_event(&planned),
            ScheduleStatement::Past(bits) => self.past.push(bits)?,
            ScheduleStatement::Window(window) => self.window = window,
            ScheduleStatement::Latches(bits) => self.latches = bits,
            ScheduleStatement::State(bits) => {
                self.latches = bits;
                self.free = true;
            }
            ScheduleStatement::Gates(bits) => self.gates = bits,
            ScheduleStatement::Format => {}
        }
        Ok(())
    }

    // The schedule, where no line follows.
    pub fn end(mut self) -> Result<Schedule, AllocError>
        ensures { IfOk result (λ schedule. schedule ≡ ended (seen self)) }
    {
        self.end_tick()?;
        let Draft {
            window,
            past,
            free,
            latches,
            gates,
            ticks,
            tick: _,
        } = self;
        Ok(Schedule {
            window,
            past: Items::of(past),
            free,
            latches,
            gates,
            ticks: Items::of(ticks),
        })
    }
}
