//! A recorded schedule, played, told and shown.

ghost use Rattle.std.specs.Prelude.{◌≡◌, ◌⊎◌, [], List, Bool, length, map, All, Some, None, IfErr, IfOk, OnOk, OnErr};
ghost use Rattle.netlist.specs.Netlists.{count};
ghost use Rattle.schedules.specs.Runs.{ticks_of};
ghost use Rattle.delay_core.specs.Plans.{schedule_fault, run_of, end_of, SettledIsTold, SettlesInTime};
ghost use Rattle.delay_core.specs.Changes.{changes};
ghost use Rattle.probes.specs.Hearing.{EachHears, EachHearsPrefix};
ghost use Rattle.probes.specs.Showing.{texts_of};

use crate::probe::Probe;
use crate::show::show_kind;
use crate::told::play_told;
use commands::Kind;
use cyc_base::Bits;
use delay_core::{PlayFault, Schedule, TickEnd};
use netlist::Netlist;
use std::alloc::Global;

/// How the ticks of a run ended, and what probes show of it.
#[derive(Drop)]
pub struct ShownRun {
    pub ends: Vec<TickEnd>,
    pub text: Vec<u8>,
}

/// Plays a recorded schedule whole, tells its changes to the probes of the wanted kind, which heard nothing before, and
/// has these show them, one after another.
pub fn play_shown(
    alloc: Global,
    net: &Netlist,
    vectors: &[Bits],
    schedule: &Schedule,
    probes: &mut [Box<dyn Probe>],
    wanted: Kind,
) -> Result<ShownRun, PlayFault>
    requires past { All (λ (moment : List Bool). length moment ≡ count net.now) schedule.now.past }
    requires latches { length schedule.now.latches ≡ length net.now.latches }
    requires gates { length schedule.now.gates ≡ length net.now.gates }
    requires inputs { All (λ (inputs : List Bool). length inputs ≡ length net.now.inputs) vectors.now }
    requires ticks { length schedule.now.ticks ≡ length vectors.now }
    requires silent { All (λ probe. heard probe ≡ []) probes.old }
    ensures fault { IfErr result (λ fault. (fault ≡ PlayFault.Memory) ⊎ (schedule_fault net.now schedule.now vectors.now ≡ Some fault)) }
    ensures whole { OnOk result (schedule_fault net.now schedule.now vectors.now ≡ None) }
    ensures ends { IfOk result (λ run. run.ends.items ≡ map (end_of net.now) (ticks_of net.now (run_of schedule.now vectors.now))) }
    ensures settled { OnOk result (All (SettledIsTold net.now) (ticks_of net.now (run_of schedule.now vectors.now))) }
    ensures in_time { OnOk result (All (SettlesInTime net.now schedule.now.window) (ticks_of net.now (run_of schedule.now vectors.now))) }
    ensures heard { OnOk result (EachHears kind heard text wanted (changes net.now schedule.now vectors.now) probes.old probes.new) }
    ensures err { OnErr result (EachHearsPrefix kind heard text wanted (changes net.now schedule.now vectors.now) probes.old probes.new) }
    ensures untold { IfErr result (λ fault. (fault ≡ PlayFault.Memory) ⊎ EachHears kind heard text wanted [] probes.old probes.new) }
    ensures text { IfOk result (λ run. run.text.items ≡ texts_of kind text wanted net.now (changes net.now schedule.now vectors.now) probes.old) }
{
    let ends = play_told(alloc, net, vectors, schedule, probes, wanted)?;
    let text_shown = show_kind(alloc, net, probes, wanted)?;
    Ok(ShownRun {
        ends,
        text: text_shown,
    })
}
