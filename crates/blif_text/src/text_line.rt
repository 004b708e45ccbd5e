// One line of many.
ghost use Rattle.std.specs.Prelude.{◌≡◌, ◌<◌, ◌≤◌, [], length, slice_index_or, slice_range};

use crate::word_buffer::WordBuffer;
use std::marker::Model;

/// A line: the number of its first physical line, counted from 1, and its words.
#[derive(Drop)]
pub struct TextLine<'a> {
    buffer: &'a WordBuffer,
    number: u64,
    // the places of its first word and of the next line's
    start: usize,
    end: usize,
}

impl<'a> Model for TextLine<'a> {
    ghost use Rattle.std.specs.Prelude.{◌≤◌, length, slice_range};
    ghost use Rattle.blif_text.specs.Texts.{Line};

    ghost Value = { Line };

    ghost view = { λ line. record { number = line.number; words = slice_range line.buffer.now.parts line.start line.end } };

    ghost invariant = { λ line. (line.start ≤ line.end) × (line.end ≤ length line.buffer.now.parts) };
}

impl<'a> TextLine<'a> {
    pub(crate) fn new(buffer: &'a WordBuffer, number: u64, start: usize, end: usize) -> TextLine<'a>
        requires low { start ≤ end }
        requires high { end ≤ length buffer.now.parts }
        ensures { result ≡ record { number = number; words = slice_range buffer.now.parts start end } }
    {
        TextLine {
            buffer,
            number,
            start,
            end,
        }
    }

    /// The number of its first physical line, counted from 1.
    pub fn number(&self) -> u64
        ensures { result ≡ self.now.number }
    {
        self.number
    }

    /// How many words it has.
    #[tactic(auto, using(crate::proofs::TextLineLemmas::words_between))]
    pub fn words(&self) -> usize
        ensures { result ≡ length self.now.words }
    {
        self.end - self.start
    }

    /// A word, counted from 0.
    #[inline]
    #[tactic(auto, using(crate::proofs::TextLineLemmas::word_inside, crate::proofs::TextLineLemmas::word_between))]
    pub fn word(&self, k: usize) -> &'a [u8]
        requires { k < length self.now.words }
        ensures { result.now ≡ slice_index_or self.now.words k [] }
    {
        let _count = self.buffer.len();
        self.buffer.part(self.start + k)
    }
}
