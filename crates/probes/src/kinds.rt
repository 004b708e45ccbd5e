//! Probes of all kinds together.

ghost use Rattle.std.specs.Prelude.{◌≡◌, [], All, IfOk};
ghost use Rattle.commands.specs.declared.kind.Kind.TheVariants as kinds;
ghost use Rattle.probes.specs.Kinds.{IsNewOfKind, ShowEachKind};

use crate::probe::Probe;
use std::alloc::{AllocError, Global};

/// Four probes, one of each kind, which together show the text of whichever kind is wanted.
pub fn one_of_each_kind(
    alloc: Global,
    trace: Box<dyn Probe>,
    glitches: Box<dyn Probe>,
    last: Box<dyn Probe>,
    dump: Box<dyn Probe>,
) -> Result<Vec<Box<dyn Probe>>, AllocError>
    requires trace { IsNewOfKind (kind trace) (heard trace) (text trace) kinds.Trace }
    requires glitches { IsNewOfKind (kind glitches) (heard glitches) (text glitches) kinds.Glitches }
    requires last { IsNewOfKind (kind last) (heard last) (text last) kinds.Last }
    requires dump { IsNewOfKind (kind dump) (heard dump) (text dump) kinds.Vcd }
    ensures silent { IfOk result (λ probes. All (λ probe. heard probe ≡ []) probes.items) }
    ensures shown { IfOk result (λ probes. ShowEachKind kind text probes.items) }
{
    Ok(vec![in alloc; trace, glitches, last, dump]?)
}
