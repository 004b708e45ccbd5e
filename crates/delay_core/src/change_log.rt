//! The changes of a run, kept as it is played.

ghost use Rattle.std.specs.Prelude.{◌≡◌, [], Some, None, unwrap_or, OnOk};
ghost use Rattle.std.specs.List.{cons_option};
ghost use Rattle.std.specs.Option.{is_some};
ghost use Rattle.delay_core.specs.Changes.{logged};

use crate::change::Change;
use std::alloc::{AllocError, Global};
use std::marker::Model;

/// The changes of a run so far, or none of them, where they aren't wanted.
#[derive(Drop)]
pub struct ChangeLog {
    changes: Option<Vec<Change>>,
}

impl Model for ChangeLog {
    ghost use Rattle.std.specs.Prelude.{List, option_map};
    ghost use Rattle.std.specs.declared.option.Option.{Option};
    ghost use Rattle.delay_core.specs.declared.change.Change.{Change};

    ghost Value = { Option (List Change) };

    ghost view = { λ log. option_map (λ changes. changes.items) log.changes };
}

impl ChangeLog {
    /// One that has no change yet. It takes no memory.
    pub fn new(alloc: Global) -> ChangeLog
        ensures { result ≡ Some [] }
    {
        ChangeLog {
            changes: Some(Vec::new(alloc)),
        }
    }

    /// One that keeps none.
    pub(crate) fn off() -> ChangeLog
        ensures { result ≡ None }
    {
        ChangeLog { changes: None }
    }

    /// Whether it keeps changes.
    pub(crate) fn is_on(&self) -> bool
        ensures { result ≡ is_some self.now }
    {
        self.changes.is_some()
    }

    /// Adds a change, where there is one and it keeps changes.
    pub(crate) fn add(&mut self, change: Option<Change>) -> Result<(), AllocError>
        ensures { OnOk result (self.new ≡ logged self.old (cons_option change [])) }
    {
        if let (Some(changes), Some(change)) = (&mut self.changes, change) {
            changes.push(change)?;
        }
        Ok(())
    }

    /// The changes so far; none where it keeps none.
    pub fn changes(&self) -> &[Change]
        ensures { result.now ≡ unwrap_or self.now [] }
    {
        match &self.changes {
            Some(changes) => changes,
            None => &[],
        }
    }
}
