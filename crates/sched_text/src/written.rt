// The text of a schedule.
ghost use Rattle.std.specs.Prelude.{◌≡◌, Bool, List, false, length, All, OnOk};
ghost use Rattle.cyc_io.specs.Taken.{IsAppended, sink_call};
ghost use Rattle.netlist.specs.Netlists.{count};
ghost use Rattle.netlist.specs.Fixpoint.{IsInitialState};
ghost use Rattle.sched_text.specs.Fitting.{AreOfGates};
ghost use Rattle.sched_text.specs.Written.{written};
ghost use Rattle.sched_text.specs.ReadingBack.{ReadsBack};

use crate::put::{put_head, put_ticks};
use cyc_io::{Failed, Sink};
use delay_core::Schedule;
use netlist::Netlist;

/// Appends the text of a schedule in format 2. It asks that the schedule has a value for each signal, latch and gate,
/// and events of the netlist's gates alone. It takes no memory.
///
/// `Failed` comes only where the sink failed; the sink has then taken a prefix of the text. Where the latches start as
/// their inits permit, or the schedule is free, the text reads back, for as many ticks, as a schedule that is equal but
/// for the numbers of its lines.
pub fn put_schedule<K: Sink>(net: &Netlist, schedule: &Schedule, sink: &mut K) -> Result<(), Failed>
    requires past { All (λ (moment : List Bool). length moment ≡ count net.now) schedule.now.past }
    requires latches { length schedule.now.latches ≡ length net.now.latches }
    requires gates { length schedule.now.gates ≡ length net.now.gates }
    requires events { All (All (AreOfGates (length net.now.gates))) schedule.now.ticks }
    ensures text { IsAppended (written net.now schedule.now) (sink_call K.put K.faults sink.old sink.new) result }

    // It is read, for as many ticks, as a schedule that is equal but for line numbers.
    ensures reads_back { OnOk result ((schedule.now.free ≡ false → IsInitialState net.now schedule.now.latches) → ReadsBack net.now schedule.now) }
{
    let _signals = net.count();
    put_head(sink, schedule)?;
    put_ticks(sink, net, schedule.ticks.items())
}
