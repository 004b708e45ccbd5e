// Covers that gates of a model have in common.
ghost use Rattle.std.specs.Prelude.{◌≡◌, IfOk};

use cover_logic::Cover;
use std::alloc::{AllocError, Global};

// The last of the places for covers.
const LAST: usize = 15;

// The last few distinct covers of a model, so that equal gates hold the rows of one.
#[derive(Drop)]
pub struct RecentCovers {
    covers: Vec<Cover>,
    // the place of the next cover: a free one, or else that of the oldest
    next: usize,
}

impl RecentCovers {
    pub fn new(alloc: Global) -> RecentCovers {
        RecentCovers {
            covers: Vec::new(alloc),
            next: 0,
        }
    }

    // The same cover. It holds its rows in common with the equal one that is remembered, or is itself remembered.
    pub fn share(&mut self, alloc: Global, cover: Cover) -> Result<Cover, AllocError>
        ensures { IfOk result (λ shared. shared ≡ cover) }
    {
        for known in &self.covers {
            if known.is_same(&cover) {
                return known.copy();
            }
        }
        let shared = cover.shared(alloc)?;
        self.remember(shared.copy()?)?;
        Ok(shared)
    }

    fn remember(&mut self, cover: Cover) -> Result<(), AllocError> {
        match self.covers.get_mut(self.next) {
            Some(oldest) => *oldest = cover,
            None => self.covers.push(cover)?,
        }
        self.next = if self.next < LAST { self.next + 1 } else { 0 };
        Ok(())
    }
}
