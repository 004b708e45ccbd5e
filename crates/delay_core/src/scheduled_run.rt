//! A recorded schedule with what it is played on.

ghost use Rattle.std.specs.Prelude.{◌≡◌, ◌<◌, [], List, Bool, length, slice_index_or, All, IfOk, OnOk};
ghost use Rattle.netlist.specs.Netlists.{count};
ghost use Rattle.delay_core.specs.Plays.{no_events, next_tick};
ghost use Rattle.delay_core.specs.Plans.{first_opened};
ghost use Rattle.delay_core.specs.ScheduledRuns.{IsScheduled, inputs_at, rounds_at};

use crate::plan::{RoundPlan, Schedule};
use crate::play::Play;
use cyc_base::Bits;
use netlist::Netlist;
use std::alloc::{AllocError, Global};
use std::marker::Model;

/// A schedule on its netlist, with a vector of inputs for each tick.
#[derive(Drop)]
pub struct ScheduledRun<'a> {
    net: &'a Netlist,
    vectors: &'a [Bits],
    schedule: &'a Schedule,
}

impl<'a> Model for ScheduledRun<'a> {
    ghost use Rattle.delay_core.specs.ScheduledRuns.{Scheduled, IsScheduled};

    ghost Value = { Scheduled };

    ghost view = { λ r. record { net = r.net.now; vectors = r.vectors.now; schedule = r.schedule.now } };

    ghost invariant = { λ r. IsScheduled (record { net = r.net.now; vectors = r.vectors.now; schedule = r.schedule.now }) };
}

fn bits_at(list: &[Bits], i: usize) -> &[bool]
    requires { i < length list.now }
    ensures { result.now ≡ slice_index_or list.now i [] }
{
    list[i].items()
}

impl<'a> ScheduledRun<'a> {
    /// A schedule on a netlist.
    ///
    /// The condition is that the widths fit, and that there is a vector for each tick.
    pub fn new(net: &'a Netlist, vectors: &'a [Bits], schedule: &'a Schedule) -> ScheduledRun<'a>
        requires past { All (λ (moment : List Bool). length moment ≡ count net.now) schedule.now.past }
        requires latches { length schedule.now.latches ≡ length net.now.latches }
        requires gates { length schedule.now.gates ≡ length net.now.gates }
        requires inputs { All (λ (inputs : List Bool). length inputs ≡ length net.now.inputs) vectors.now }
        requires ticks { length schedule.now.ticks ≡ length vectors.now }
        ensures { result ≡ record { net = net.now; vectors = vectors.now; schedule = schedule.now } }
    {
        ScheduledRun {
            net,
            vectors,
            schedule,
        }
    }

    /// The netlist.
    pub(crate) fn net(&self) -> &'a Netlist
        ensures net { result.now ≡ self.now.net }
        ensures fits { IsScheduled self.now }
    {
        self.net
    }

    /// How many ticks it has.
    pub(crate) fn ticks(&self) -> usize
        ensures ticks { result ≡ length self.now.vectors }
        ensures fits { IsScheduled self.now }
    {
        self.vectors.len()
    }

    /// The inputs of a tick.
    fn inputs(&self, tick: usize) -> &'a [bool]
        requires { tick < length self.now.vectors }
        ensures inputs { result.now ≡ inputs_at self.now tick }
        ensures width { length result.now ≡ length self.now.net.inputs }
    {
        bits_at(self.vectors, tick)
    }

    /// The rounds of a tick.
    pub(crate) fn rounds(&self, tick: usize) -> &'a [RoundPlan]
        requires { tick < length self.now.vectors }
        ensures rounds { result.now ≡ rounds_at self.now tick }
        ensures fits { IsScheduled self.now }
    {
        self.schedule.ticks.items()[tick].items()
    }

    /// A play whose first tick has opened.
    pub(crate) fn start(&self, alloc: Global) -> Result<Play<'a>, AllocError>
        requires { 0 < length self.now.vectors }
        ensures { IfOk result (λ play. play.state ≡ first_opened self.now.net self.now.schedule (inputs_at self.now 0)) }
    {
        Play::start_at(
            alloc,
            self.net,
            self.schedule.window,
            self.schedule.past.items(),
            self.inputs(0),
            self.schedule.latches.items(),
            self.schedule.gates.items(),
        )
    }

    /// Ends the tick before this one, in whose last round no gate had an event yet, and opens this one.
    pub(crate) fn open(&self, play: &mut Play, tick: usize) -> Result<(), AllocError>
        requires tick { tick < length self.now.vectors }
        requires net { play.old.state.net ≡ self.now.net }
        requires begun { play.old.state.done ≡ no_events self.now.net }
        ensures { OnOk result (play.new.state ≡ next_tick play.old.state (inputs_at self.now tick)) }
    {
        play.end_tick(self.inputs(tick))
    }
}
