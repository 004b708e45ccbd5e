//! How a cover holds its rows.

ghost use Rattle.std.specs.Prelude.{◌≡◌, IfOk};
ghost use Rattle.cover_logic.specs.Held.{rows_of};

use crate::row::{Row, copy_rows};
use std::alloc::{AllocError, Global};
use std::rc::Rc;

/// Rows that a cover has to itself, or that it and its copies hold in common.
#[derive(Debug, Drop)]
pub(crate) enum Held {
    Own(Vec<Row>),
    Common(Rc<Vec<Row>>),
}

impl Held {
    pub(crate) fn items(&self) -> &[Row]
        ensures { result.now ≡ rows_of self.now }
    {
        match self {
            Held::Own(rows) => rows,
            Held::Common(rows) => rows,
        }
    }

    /// The same rows, held in common where these are.
    pub(crate) fn copy(&self) -> Result<Held, AllocError>
        ensures { IfOk result (λ held. rows_of held ≡ rows_of self.now) }
    {
        match self {
            Held::Own(rows) => Ok(Held::Own(copy_rows(*rows.allocator(), rows)?)),
            Held::Common(rows) => Ok(Held::Common(rows.clone()?)),
        }
    }

    /// The same rows, which the copies of this then hold too.
    pub(crate) fn in_common(self, alloc: Global) -> Result<Held, AllocError>
        ensures { IfOk result (λ held. rows_of held ≡ rows_of self) }
    {
        match self {
            Held::Own(rows) => Ok(Held::Common(Rc::new(alloc, rows)?)),
            Held::Common(rows) => Ok(Held::Common(rows)),
        }
    }
}
