//! The run of a recorded schedule, told to probes.

ghost use Rattle.std.specs.Prelude.{◌≡◌, ◌⊎◌, [], ◌<◌, List, Bool, length, map, All, Some, None, IfErr, IfOk, OnOk, OnErr};
ghost use Rattle.netlist.specs.Netlists.{count};
ghost use Rattle.schedules.specs.Runs.{ticks_of};
ghost use Rattle.delay_core.specs.declared.change.Change.{Change as change_type};
ghost use Rattle.delay_core.specs.Changes.{changes};
ghost use Rattle.delay_core.specs.Plans.{schedule_fault, run_of, IsPlayedFairly, end_of, SettledIsTold, SettlesInTime};
ghost use Rattle.probes.specs.Hearing.{EachHears, EachHearsPrefix};

use crate::probe::Probe;
use crate::tell::tell;
use commands::Kind;
use cyc_base::Bits;
use delay_core::{ChangeLog, PlayFault, Schedule, ScheduledRun, TickEnd, play_run};
use netlist::Netlist;
use std::alloc::Global;

/// Plays a recorded schedule whole as `play_whole` does, and tells each probe of the wanted kind the changes of its run:
/// at each tick's start what its opening tells, by the numbers of the signals, and then each event that changes its gate.
///
/// No probe is told before the schedule has been played to its end, so that of one that has a fault no probe hears.
pub fn play_told(
    alloc: Global,
    net: &Netlist,
    vectors: &[Bits],
    schedule: &Schedule,
    probes: &mut [Box<dyn Probe>],
    wanted: Kind,
) -> Result<Vec<TickEnd>, PlayFault>
    requires past { All (λ (moment : List Bool). length moment ≡ count net.now) schedule.now.past }
    requires latches { length schedule.now.latches ≡ length net.now.latches }
    requires gates { length schedule.now.gates ≡ length net.now.gates }
    requires inputs { All (λ (inputs : List Bool). length inputs ≡ length net.now.inputs) vectors.now }
    requires ticks { length schedule.now.ticks ≡ length vectors.now }
    ensures fault { IfErr result (λ fault. (fault ≡ PlayFault.Memory) ⊎ (schedule_fault net.now schedule.now vectors.now ≡ Some fault)) }
    ensures whole { OnOk result (schedule_fault net.now schedule.now vectors.now ≡ None) }
    ensures fair { OnOk result (All (IsPlayedFairly net.now schedule.now.window) (ticks_of net.now (run_of schedule.now vectors.now))) }
    ensures ends { IfOk result (λ ends. ends.items ≡ map (end_of net.now) (ticks_of net.now (run_of schedule.now vectors.now))) }
    ensures settled { OnOk result (All (SettledIsTold net.now) (ticks_of net.now (run_of schedule.now vectors.now))) }
    ensures in_time { OnOk result (All (SettlesInTime net.now schedule.now.window) (ticks_of net.now (run_of schedule.now vectors.now))) }

    ensures signals { OnOk result (All (λ (change : change_type). change.sig.0 < count net.now) (changes net.now schedule.now vectors.now)) }
    ensures heard { OnOk result (EachHears kind heard text wanted (changes net.now schedule.now vectors.now) probes.old probes.new) }
    ensures err { OnErr result (EachHearsPrefix kind heard text wanted (changes net.now schedule.now vectors.now) probes.old probes.new) }
    ensures silent { IfErr result (λ fault. (fault ≡ PlayFault.Memory) ⊎ EachHears kind heard text wanted [] probes.old probes.new) }
{
    let run = ScheduledRun::new(net, vectors, schedule);
    let mut log = ChangeLog::new(alloc);
    let ends = play_run(alloc, &run, &mut log)?;
    tell(probes, wanted, log.changes())?;
    Ok(ends)
}
