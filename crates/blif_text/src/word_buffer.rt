// Lists of bytes, kept in one buffer.
ghost use Rattle.std.specs.Prelude.{◌≡◌, ◌<◌, ◌&&◌, ◌==◌, ◌++◌, ◌∷◌, [], IsTrue, IsFalse, OnOk, OnErr, length, slice_index_or, slice_range, ◌≤◌};
ghost use Rattle.blif_text.specs.WordBuffers.{Pieces, parts_of, run_of, AreEnds, last_end, begins_at};
ghost use Rattle.blif_text.specs.Texts.{is_filled, without_last, ends_in_backslash};

use crate::ends::Ends;
use std::alloc::{AllocError, Global};
use std::marker::Model;

// The parts that are ended, and the bytes behind them.
pub struct WordBuffer {
    bytes: Vec<u8>,
    ends: Ends,
}

impl Drop for WordBuffer {
    fn drop(self) {
        let WordBuffer { bytes: _, ends: _ } = self;
    }
}

impl Model for WordBuffer {
    ghost Value = { Pieces };

    ghost view = { λ buffer. record { parts = parts_of buffer.bytes.items buffer.ends; run = run_of buffer.bytes.items buffer.ends } };

    ghost invariant = { λ buffer. AreEnds buffer.bytes.items buffer.ends };
}

impl WordBuffer {
    #[tactic(auto, using(crate::proofs::WordBufferLemmas::are_ends_none, crate::proofs::WordBufferLemmas::parts_none, crate::proofs::WordBufferLemmas::run_none))]
    pub fn new(alloc: Global) -> WordBuffer
        ensures parts { result.parts ≡ [] }
        ensures run { result.run ≡ [] }
    {
        WordBuffer {
            bytes: Vec::new(alloc),
            ends: Ends::new(alloc),
        }
    }

    #[tactic(auto, using(crate::proofs::WordBufferLemmas::are_ends_more, crate::proofs::WordBufferLemmas::parts_more, crate::proofs::WordBufferLemmas::run_more))]
    pub fn push(&mut self, b: u8) -> Result<(), AllocError>
        ensures parts { self.new.parts ≡ self.old.parts }
        ensures run { OnOk result (self.new.run ≡ self.old.run ++ b ∷ []) }
    {
        self.bytes.push(b)?;
        Ok(())
    }

    // Adds bytes behind the parts.
    #[tactic(auto, using(crate::proofs::WordBufferLemmas::are_ends_more, crate::proofs::WordBufferLemmas::parts_more, crate::proofs::WordBufferLemmas::run_more))]
    pub fn extend(&mut self, bytes: &[u8]) -> Result<(), AllocError>
        ensures parts { self.new.parts ≡ self.old.parts }
        ensures run { OnOk result (self.new.run ≡ self.old.run ++ bytes.now) }
    {
        self.bytes.extend_from_slice(bytes)?;
        Ok(())
    }

    #[tactic(auto, using(crate::proofs::WordBufferLemmas::are_ends_end, crate::proofs::WordBufferLemmas::parts_end, crate::proofs::WordBufferLemmas::run_end))]
    pub fn end(&mut self) -> Result<(), AllocError>
        ensures parts { OnOk result (self.new.parts ≡ self.old.parts ++ self.old.run ∷ []) }
        ensures run { OnOk result (self.new.run ≡ []) }
        ensures err { OnErr result (self.new.parts ≡ self.old.parts) }
    {
        let end = self.bytes.len();
        self.ends.push(end)?;
        Ok(())
    }

    // The bytes behind the parts without the last.
    #[tactic(auto, using(crate::proofs::WordBufferLemmas::fewer, crate::proofs::WordBufferLemmas::fewer_parts))]
    pub fn pop(&mut self)
        requires { 0 < length self.old.run }
        ensures parts { self.new.parts ≡ self.old.parts }
        ensures run { self.new.run ≡ without_last self.old.run }
    {
        let _last = self.bytes.pop();
    }

    // Whether there are bytes behind the parts.
    #[tactic(auto, using(crate::proofs::WordBufferLemmas::some_behind, crate::proofs::WordBufferLemmas::none_behind))]
    pub fn has_run(&self) -> bool
        ensures some { IsTrue result → 0 < length self.now.run }
        ensures none { IsFalse result → length self.now.run ≡ 0 }
    {
        self.ends.last() < self.bytes.len()
    }

    // The bytes behind the parts.
    pub fn run(&self) -> &[u8]
        ensures { result.now ≡ self.now.run }
    {
        run_behind(&self.bytes, &self.ends)
    }

    #[tactic(auto, using(crate::proofs::WordBufferLemmas::length_parts))]
    pub fn len(&self) -> usize
        ensures { result ≡ length self.now.parts }
    {
        self.ends.len()
    }

    #[tactic(auto, using(crate::proofs::WordBufferLemmas::length_parts))]
    pub fn part(&self, k: usize) -> &[u8]
        requires { k < length self.now.parts }
        ensures { result.now ≡ slice_index_or self.now.parts k [] }
    {
        part_of(&self.bytes, &self.ends, k)
    }
}

#[tactic(auto, using(crate::proofs::WordBufferLemmas::run_fits, crate::proofs::WordBufferLemmas::run_is))]
fn run_behind<'a>(bytes: &'a [u8], ends: &Ends) -> &'a [u8]
    requires { AreEnds bytes.now ends.now }
    ensures { result.now ≡ run_of bytes.now ends.now }
{
    let start = ends.last();
    between(bytes, start, bytes.len())
}

#[tactic(auto, using(crate::proofs::WordBufferLemmas::part_low, crate::proofs::WordBufferLemmas::part_high, crate::proofs::WordBufferLemmas::part_is))]
fn part_of<'a>(bytes: &'a [u8], ends: &Ends, k: usize) -> &'a [u8]
    requires are { AreEnds bytes.now ends.now }
    requires inside { k < length ends.now }
    ensures { result.now ≡ slice_index_or (parts_of bytes.now ends.now) k [] }
{
    let start = start_of(ends, k);
    let end = ends.at(k);
    between(bytes, start, end)
}

fn between(bytes: &[u8], start: usize, end: usize) -> &[u8]
    requires low { start ≤ end }
    requires high { end ≤ length bytes.now }
    ensures { result.now ≡ slice_range bytes.now start end }
{
    &bytes[start..end]
}

// Where the part at a place begins.
fn start_of(ends: &Ends, k: usize) -> usize
    requires { k < length ends.now }
    ensures { result ≡ begins_at ends.now k }
{
    if k == 0 { 0 } else { ends.at(k - 1) }
}
