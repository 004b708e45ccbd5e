//! Idle nodes are taken out between blocks.

ghost use Rattle.std.specs.Prelude.{◌≡◌, ◌≤◌, ◌++◌, ℕ, length, map, All, OnOk, IfSome};
ghost use Rattle.loops.specs.Looped.{Looped};
ghost use Rattle.fixpoint.specs.Kept.{rails_under, AreKept, RootsStay};
ghost use Rattle.fixpoint.specs.Sweeping.{rails_in, HasSolvedTo};

use crate::kept::KeptRails;
use crate::progress::Progress;
use crate::wires::Wires;
use bdd_ops::Diagrams;
use std::alloc::{AllocError, Global};

/// The fewest nodes at which idle ones are taken out while blocks are still to be solved.
const LEAST_SWEPT: u32 = 4_096;

/// Whether idle nodes are to be taken out: there may be as many of them as the last time left others, or the store has
/// come to seven eighths of its limit with an eighth of the limit made since. A sweep costs as much as there are nodes,
/// so all that are due together cost at most some eight times as much as making the nodes.
fn is_due(count: u32, left: u32, limit: u32) -> bool {
    let eighth = limit / 8;
    let has_doubled = count >= LEAST_SWEPT && count / 2 >= left;
    let is_nearly_full = count >= limit - eighth && count.saturating_sub(left) >= eighth;
    has_doubled || is_nearly_full
}

/// Takes out what no root reaches, and reads all wires anew.
pub(crate) fn sweep_store(
    alloc: Global,
    d: &mut Diagrams,
    given: &[KeptRails],
    progress: &mut Progress,
) -> Result<(), AllocError>
    requires given { All (AreKept d.old) given.now }
    requires places { All (λ place. IfSome place (AreKept d.old)) progress.old.places.items }
    ensures before { OnOk result (progress.new.wires.before.items ≡ map (rails_in d.new) progress.old.places.items) }
    ensures rails { OnOk result (progress.new.wires.rails.items ≡ map (rails_under d.new) given.now ++ progress.new.wires.before.items) }
    ensures places { progress.new.places.items ≡ progress.old.places.items }
    ensures roots { RootsStay d.old d.new }
    ensures fewer { length d.new.entries ≤ length d.old.entries }
{
    d.store().laws();
    d.sweep()?;
    d.store().laws();
    progress.wires = Wires::of(alloc, d, given, &progress.places)?;
    progress.left = d.store().count();
    Ok(())
}

/// Takes out what no root reaches, where that is due.
pub(crate) fn sweep_if_due(
    alloc: Global,
    d: &mut Diagrams,
    given: &[KeptRails],
    progress: &mut Progress,
) -> Result<(), AllocError>
    requires given { All (AreKept d.old) given.now }
    requires places { All (λ place. IfSome place (AreKept d.old)) progress.old.places.items }
    ensures solved { (l : Looped) (b : ℕ) → HasSolvedTo l d.old given.now b progress.old → OnOk result (HasSolvedTo l d.new given.now b progress.new) }
    ensures roots { RootsStay d.old d.new }
    ensures fewer { length d.new.entries ≤ length d.old.entries }
{
    d.store().laws();
    if !is_due(d.store().count(), progress.left, d.store().limit()) {
        return Ok(());
    }
    sweep_store(alloc, d, given, progress)?;
    Ok(())
}
