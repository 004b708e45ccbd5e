//! The changes that a probe was told.

ghost use Rattle.std.specs.Prelude.{◌≡◌, ◌++◌, ◌∷◌, [], OnOk, OnErr};

use delay_core::Change;
use std::alloc::{AllocError, Global};
use std::marker::Model;

/// Changes that were told, in their order.
#[derive(Drop)]
pub struct Heard {
    changes: Vec<Change>,
}

impl Model for Heard {
    ghost use Rattle.std.specs.Prelude.{List};
    ghost use Rattle.delay_core.specs.declared.change.Change.{Change};

    ghost Value = { List Change };

    ghost view = { λ heard. heard.changes.items };
}

impl Heard {
    /// No change yet. It takes no memory.
    pub fn new(alloc: Global) -> Heard
        ensures { result ≡ [] }
    {
        Heard {
            changes: Vec::new(alloc),
        }
    }

    /// Keeps one more change.
    pub fn push(&mut self, change: &Change) -> Result<(), AllocError>
        ensures heard { OnOk result (self.new ≡ self.old ++ change.now ∷ []) }
        ensures err { OnErr result (self.new ≡ self.old) }
    {
        self.changes.push(*change)?;
        Ok(())
    }

    pub fn items(&self) -> &[Change]
        ensures { result.now ≡ self.now }
    {
        &self.changes
    }
}
