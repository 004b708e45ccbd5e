ghost use Rattle.std.specs.Prelude.{◌≡◌, ◌<◌, ◌++◌, ◌∷◌, [], ℕ, List, All, IfOk, OnOk, OnErr};
ghost use Rattle.delay_core.specs.declared.change.Change.{Change as change_type};
ghost use Rattle.netlist.specs.Netlists.{count};
ghost use Rattle.netlist.specs.declared.parts.Parts.{Parts as parts_type};
ghost use Rattle.commands.specs.declared.kind.Kind.{Kind as kind_type};

use commands::Kind;
use delay_core::Change;
use netlist::Netlist;
use std::alloc::{AllocError, Global};

/// Hears the changes of a run, one after another, and makes a text of them.
pub trait Probe: Drop {
    /// What it makes of them.
    ghost kind: { Self → kind_type };

    /// The changes that it was told, in their order.
    ghost heard: { Self → List change_type };

    /// The text that it makes of changes of a netlist, whatever it was told.
    ghost text: { Self → List change_type → parts_type → List ℕ };

    fn kind(&self) -> Kind
        ensures { result ≡ kind self.now };

    /// Tells it a change.
    fn told(&mut self, change: &Change) -> Result<(), AllocError>
        ensures heard { OnOk result (heard self.new ≡ heard self.old ++ change.now ∷ []) }
        ensures kind { kind self.new ≡ kind self.old }
        ensures text { (changes : List change_type) (net : parts_type) → text self.new changes net ≡ text self.old changes net }
        ensures err { OnErr result (self.new ≡ self.old) };

    /// The text of what it was told.
    fn show(&self, alloc: Global, net: &Netlist) -> Result<Vec<u8>, AllocError>
        requires { All (λ (change : change_type). change.sig.0 < count net.now) (heard self.now) }
        ensures { IfOk result (λ shown. shown.items ≡ text self.now (heard self.now) net.now) };
}
