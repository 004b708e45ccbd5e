//! What the probes of a kind show.

ghost use Rattle.std.specs.Prelude.{◌≡◌, ◌<◌, ◌++◌, All, true, OnOk, IfOk};
ghost use Rattle.netlist.specs.Netlists.{count};
ghost use Rattle.delay_core.specs.declared.change.Change.{Change as change_type};
ghost use Rattle.probes.specs.Showing.{same_kind, text_of_kind, shown_texts};

use crate::pieces::put;
use crate::probe::Probe;
use commands::Kind;
use netlist::Netlist;
use std::alloc::{AllocError, Global};

/// Whether two kinds are one.
fn is_kind(kind: Kind, wanted: Kind) -> bool
    ensures { result ≡ same_kind kind wanted }
{
    kind == wanted
}

/// Appends the text of a probe, if it is of the wanted kind.
fn put_shown(
    shown: &mut Vec<u8>,
    alloc: Global,
    net: &Netlist,
    probe: &Box<dyn Probe>,
    wanted: Kind,
) -> Result<(), AllocError>
    requires { same_kind (kind probe.now) wanted ≡ true → All (λ (change : change_type). change.sig.0 < count net.now) (heard probe.now) }
    ensures { OnOk result (shown.new.items ≡ shown.old.items ++ text_of_kind kind text wanted net.now (heard probe.now) probe.now) }
{
    if !is_kind(probe.kind(), wanted) {
        return Ok(());
    }
    let text_shown = probe.show(alloc, net)?;
    put(shown, &text_shown)
}

/// The texts of the probes of a kind, each of what it heard, in the order of the probes.
pub fn show_kind(
    alloc: Global,
    net: &Netlist,
    probes: &[Box<dyn Probe>],
    wanted: Kind,
) -> Result<Vec<u8>, AllocError>
    requires { All (λ probe. same_kind (kind probe) wanted ≡ true → All (λ (change : change_type). change.sig.0 < count net.now) (heard probe)) probes.now }
    ensures { IfOk result (λ shown. shown.items ≡ shown_texts kind heard text wanted net.now probes.now) }
{
    let mut shown = Vec::new(alloc);
    for probe in probes {
        put_shown(&mut shown, alloc, net, probe, wanted)?;
    }
    Ok(shown)
}
