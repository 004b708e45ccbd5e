// Places in a text, of which those that fit take four bytes each.
ghost use Rattle.std.specs.Prelude.{◌≡◌, ◌<◌, ◌++◌, ◌∷◌, [], OnOk, OnErr, length, slice_index_or};
ghost use Rattle.blif_text.specs.WordBuffers.{last_end};

use std::alloc::{AllocError, Global};
use std::marker::Model;

// The places up to the first that doesn't fit in four bytes, and those from there on.
pub struct Ends {
    short: Vec<u32>,
    long: Vec<usize>,
    // the last of them, which is asked for at each byte between words
    last: usize,
}

impl Drop for Ends {
    fn drop(self) {
        let Ends {
            short: _,
            long: _,
            last: _,
        } = self;
    }
}

impl Model for Ends {
    ghost use Rattle.std.specs.Prelude.{List, ℕ, ◌++◌};

    ghost Value = { List ℕ };

    ghost use Rattle.std.specs.Prelude.{◌≡◌};
    ghost use Rattle.blif_text.specs.WordBuffers.{last_end};

    ghost view = { λ ends. ends.short.items ++ ends.long.items };

    ghost invariant = { λ ends. ends.last ≡ last_end (λ e. e) 0 (ends.short.items ++ ends.long.items) };
}

impl Ends {
    pub fn new(alloc: Global) -> Ends
        ensures { result ≡ [] }
    {
        Ends {
            short: Vec::new(alloc),
            long: Vec::new(alloc),
            last: 0,
        }
    }

    #[tactic(auto, using(crate::proofs::EndsLemmas::push_short, crate::proofs::EndsLemmas::push_long, crate::proofs::CutLemmas::last_end_end))]
    pub fn push(&mut self, end: usize) -> Result<(), AllocError>
        ensures added { OnOk result (self.new ≡ self.old ++ end ∷ []) }
        ensures kept { OnErr result (self.new ≡ self.old) }
    {
        if self.long.is_empty() && end <= u32::MAX as usize {
            self.short.push(end as u32)?;
        } else {
            self.long.push(end)?;
        }
        self.last = end;
        Ok(())
    }

    pub fn len(&self) -> usize
        ensures { result ≡ length self.now }
    {
        self.short.len() + self.long.len()
    }

    #[tactic(auto, using(crate::proofs::EndsLemmas::at_short, crate::proofs::EndsLemmas::at_long))]
    pub fn at(&self, k: usize) -> usize
        requires { k < length self.now }
        ensures { result ≡ slice_index_or self.now k 0 }
    {
        let short = self.short.len();
        if k < short {
            self.short[k] as usize
        } else {
            self.long[k - short]
        }
    }

    // Where the last part ends.
    pub fn last(&self) -> usize
        ensures { result ≡ last_end (λ e. e) 0 self.now }
    {
        self.last
    }
}
