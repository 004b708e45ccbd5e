//! What the names of signals are taken from.

ghost use Rattle.std.specs.Prelude.{◌≡◌, List, ℕ};
ghost use Rattle.std.specs.List.{list_all, list_any};
ghost use Rattle.std.specs.Str.{bytes_eq};
ghost use Rattle.netlist.specs.Faults.{is_blif_name};

use crate::parts::{Gate, Latch};
use cyc_base::Name;

/// What has a name.
pub(crate) trait Named {
    ghost bytes_of: { Self → List ℕ };

    fn name(&self) -> &Name
        ensures { result.now ≡ bytes_of self.now };
}

impl Named for Name {
    ghost bytes_of = { λ name. name };

    fn name(&self) -> &Name {
        self
    }
}

impl Named for Latch {
    ghost bytes_of = { λ latch. latch.name };

    fn name(&self) -> &Name {
        &self.name
    }
}

impl Named for Gate {
    ghost bytes_of = { λ gate. gate.name };

    fn name(&self) -> &Name {
        &self.name
    }
}

#[tactic(auto, using(crate::proofs::Decisions::decided, crate::proofs::Decisions::is_blif_name_decides))]
pub(crate) fn is_blif(name: &Name) -> bool
    ensures { result ≡ is_blif_name name.now }
{
    name.is_blif()
}

/// Whether all their names can stand in a BLIF text.
pub(crate) fn have_blif_names<T: Named>(items: &[T]) -> bool
    ensures { result ≡ list_all (λ item. is_blif_name (T.bytes_of item)) items.now }
{
    items.iter().all(|item| is_blif(item.name()))
}

/// Whether one of them has this name.
pub(crate) fn some_is_named<T: Named>(items: &[T], name: &Name) -> bool
    ensures { result ≡ list_any (λ item. bytes_eq name.now (T.bytes_of item)) items.now }
{
    items.iter().any(|item| name == item.name())
}
