//! What looks for a model between the calls of a solver: its functions stand beside what they do, in `steps` and
//! `rounds`.

ghost use Rattle.std.specs.Prelude.{◌≡◌, []};

use crate::clauses::Clauses;
use crate::search::Search;
use crate::working::Working;
use crate::{search, working};
use std::alloc::{AllocError, Global};

/// What looks for a model: the clauses that are known to follow, where the search stands, and the clause that an
/// analysis works on.
pub(crate) struct Engine {
    pub(crate) database: Clauses,
    pub(crate) search: Search,
    pub(crate) working: Working,
}

impl Drop for Engine {
    fn drop(self) {
        let Engine {
            database: _,
            search: _,
            working: _,
        } = self;
    }
}

impl Engine {
    /// Without variables and clauses.
    pub(crate) fn new(alloc: Global) -> Engine
        ensures { result.database ≡ [] }
    {
        Engine {
            database: Clauses::new(alloc),
            search: Search::new(alloc),
            working: Working::new(alloc),
        }
    }

    /// Adds variables up to so many.
    pub(crate) fn widen(&mut self, alloc: Global, variables: usize) -> Result<(), AllocError>
        ensures { self.new.database ≡ self.old.database }
    {
        search::widen(alloc, &mut self.search, variables)?;
        working::widen(&mut self.working, variables)
    }
}
