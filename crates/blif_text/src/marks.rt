// Where lines end, of which those whose numbers fit take four bytes for each number.
ghost use Rattle.std.specs.Prelude.{◌≡◌, ◌<◌, ◌++◌, ◌∷◌, [], IfSome, OnOk, OnErr, length};
ghost use Rattle.blif_text.specs.WordBuffers.{last_end};
ghost use Rattle.blif_text.specs.LineBuffers.{end_of, mark_begins, mark_at};
ghost use Rattle.blif_text.specs.Marks.{mark_of};

use std::alloc::{AllocError, Global};
use std::marker::Model;

// A line's number, and how many words there are up to its end.
#[derive(Clone, Copy)]
pub struct Mark {
    pub number: u64,
    pub end: usize,
}

// A mark in half the memory.
#[derive(Clone, Copy)]
struct ShortMark {
    number: u32,
    end: u32,
}

// The marks up to the first that doesn't fit into a short one, and those from there on.
pub struct Marks {
    short: Vec<ShortMark>,
    long: Vec<Mark>,
}

impl Drop for Marks {
    fn drop(self) {
        let Marks { short: _, long: _ } = self;
    }
}

impl Model for Marks {
    ghost use Rattle.std.specs.Prelude.{List, ◌++◌, map};
    ghost use Rattle.blif_text.specs.declared.marks.Mark.{Mark as Marked};
    ghost use Rattle.blif_text.specs.Marks.{mark_of};

    ghost Value = { List Marked };

    ghost view = { λ marks. map mark_of marks.short.items ++ marks.long.items };
}

impl Mark {
    // The mark in half the memory, where it fits.
    fn short(self) -> Option<ShortMark>
        ensures { IfSome result (λ short. mark_of short ≡ self) }
    {
        if self.number > u64::from(u32::MAX) || self.end > u32::MAX as usize {
            return None;
        }
        Some(ShortMark {
            number: self.number as u32,
            end: self.end as u32,
        })
    }
}

impl ShortMark {
    fn mark(self) -> Mark
        ensures { result ≡ mark_of self }
    {
        Mark {
            number: u64::from(self.number),
            end: self.end as usize,
        }
    }
}

impl Marks {
    pub fn new(alloc: Global) -> Marks
        ensures { result ≡ [] }
    {
        Marks {
            short: Vec::new(alloc),
            long: Vec::new(alloc),
        }
    }

    #[tactic(auto, using(crate::proofs::MarksLemmas::push_short, crate::proofs::EndsLemmas::push_long))]
    pub fn push(&mut self, mark: Mark) -> Result<(), AllocError>
        ensures added { OnOk result (self.new ≡ self.old ++ mark ∷ []) }
        ensures kept { OnErr result (self.new ≡ self.old) }
    {
        match mark.short() {
            Some(short) if self.long.is_empty() => self.short.push(short)?,
            _ => self.long.push(mark)?,
        }
        Ok(())
    }

    pub fn len(&self) -> usize
        ensures { result ≡ length self.now }
    {
        self.short.len() + self.long.len()
    }

    #[tactic(auto, using(crate::proofs::MarksLemmas::at_short, crate::proofs::MarksLemmas::at_long))]
    pub fn at(&self, i: usize) -> Mark
        requires { i < length self.now }
        ensures { result ≡ mark_at self.now i }
    {
        let short = self.short.len();
        if i < short {
            self.short[i].mark()
        } else {
            self.long[i - short]
        }
    }

    // How many words there are up to the end of the last line.
    #[tactic(auto, using(crate::proofs::LineBufferLemmas::last_mark_is))]
    pub fn last_end(&self) -> usize
        ensures { result ≡ last_end end_of 0 self.now }
    {
        let count = self.len();
        if count == 0 {
            0
        } else {
            self.at(count - 1).end
        }
    }

    // How many words there are before a line.
    pub fn start_of(&self, i: usize) -> usize
        requires { i < length self.now }
        ensures { result ≡ mark_begins self.now i }
    {
        if i == 0 { 0 } else { self.at(i - 1).end }
    }
}
