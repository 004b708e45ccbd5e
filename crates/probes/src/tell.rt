ghost use Rattle.std.specs.Prelude.{◌≡◌, ◌++◌, ◌∷◌, [], OnOk, OnErr};
ghost use Rattle.probes.specs.Hearing.{Hears, HearsPrefix, EachHears, EachHearsPrefix};

use crate::probe::Probe;
use commands::Kind;
use delay_core::Change;
use std::alloc::AllocError;

/// Tells a probe a change, if it is of the wanted kind.
fn tell_one(probe: &mut Box<dyn Probe>, wanted: Kind, change: &Change) -> Result<(), AllocError>
    ensures heard { OnOk result (Hears kind heard text wanted (change.now ∷ []) probe.old probe.new) }
    ensures err { OnErr result (Hears kind heard text wanted [] probe.old probe.new) }
{
    if probe.kind() == wanted {
        probe.told(change)?;
    }
    Ok(())
}

/// Tells it changes, one after another.
fn tell_all(probe: &mut Box<dyn Probe>, wanted: Kind, changes: &[Change]) -> Result<(), AllocError>
    ensures heard { OnOk result (Hears kind heard text wanted changes.now probe.old probe.new) }
    ensures err { OnErr result (HearsPrefix kind heard text wanted changes.now probe.old probe.new) }
{
    for change in changes {
        tell_one(probe, wanted, change)?;
    }
    Ok(())
}

/// Tells the probes of the wanted kind changes, one probe after another.
pub(crate) fn tell(
    probes: &mut [Box<dyn Probe>],
    wanted: Kind,
    changes: &[Change],
) -> Result<(), AllocError>
    ensures heard { OnOk result (EachHears kind heard text wanted changes.now probes.old probes.new) }
    ensures err { OnErr result (EachHearsPrefix kind heard text wanted changes.now probes.old probes.new) }
{
    for i in 0..probes.len() {
        tell_all(&mut probes[i], wanted, changes)?;
    }
    Ok(())
}
