// Lines, kept as their words and the marks where they end.
ghost use Rattle.std.specs.Prelude.{◌≡◌, ◌<◌, ◌≤◌, ◌^◌, ◌&&◌, ◌==◌, ◌++◌, ◌∷◌, [], IsTrue, OnOk, OnErr, if◌then◌else◌, length, slice_index_or};
ghost use Rattle.blif_text.specs.Texts.{without_last, ends_in_backslash};
ghost use Rattle.blif_text.specs.Lines.{line_at};
ghost use Rattle.blif_text.specs.Reading.{word_if_filled, line_if_filled};

use crate::marks::{Mark, Marks};
use crate::text_line::TextLine;
use crate::word_buffer::WordBuffer;
use std::alloc::{AllocError, Global};
use std::marker::Model;

// The lines that are ended, and the words and bytes behind them.
pub struct LineBuffer {
    words: WordBuffer,
    marks: Marks,
}

impl Drop for LineBuffer {
    fn drop(self) {
        let LineBuffer { words: _, marks: _ } = self;
    }
}

impl Model for LineBuffer {
    ghost use Rattle.blif_text.specs.LineBuffers.{Stored, done_of, words_left, AreMarks};

    ghost Value = { Stored };

    ghost view = { λ buffer. record {
      done = done_of buffer.words.parts buffer.marks;
      words = words_left buffer.words.parts buffer.marks;
      run = buffer.words.run;
    } };

    ghost invariant = { λ buffer. AreMarks buffer.words.parts buffer.marks };
}

impl LineBuffer {
    #[tactic(auto, using(crate::proofs::LineBufferLemmas::are_marks_none, crate::proofs::LineBufferLemmas::done_none, crate::proofs::LineBufferLemmas::words_none))]
    pub fn new(alloc: Global) -> LineBuffer
        ensures done { result.done ≡ [] }
        ensures words { result.words ≡ [] }
        ensures run { result.run ≡ [] }
    {
        LineBuffer {
            words: WordBuffer::new(alloc),
            marks: Marks::new(alloc),
        }
    }

    pub fn push(&mut self, b: u8) -> Result<(), AllocError>
        ensures done { OnOk result (self.new.done ≡ self.old.done) }
        ensures words { OnOk result (self.new.words ≡ self.old.words) }
        ensures run { OnOk result (self.new.run ≡ self.old.run ++ b ∷ []) }
    {
        self.words.push(b)?;
        Ok(())
    }

    pub fn extend(&mut self, bytes: &[u8]) -> Result<(), AllocError>
        ensures done { OnOk result (self.new.done ≡ self.old.done) }
        ensures words { OnOk result (self.new.words ≡ self.old.words) }
        ensures run { OnOk result (self.new.run ≡ self.old.run ++ bytes.now) }
    {
        self.words.extend(bytes)?;
        Ok(())
    }

    // Ends the word, where it has bytes.
    #[tactic(auto, using(crate::proofs::LineBufferLemmas::word_filled, crate::proofs::LineBufferLemmas::word_empty, crate::proofs::LineBufferLemmas::are_marks_more, crate::proofs::LineBufferLemmas::done_more, crate::proofs::LineBufferLemmas::words_more))]
    pub fn end_word(&mut self) -> Result<(), AllocError>
        ensures done { OnOk result (self.new.done ≡ self.old.done) }
        ensures words { OnOk result (self.new.words ≡ self.old.words ++ word_if_filled self.old.run) }
        ensures run { OnOk result (self.new.run ≡ []) }
    {
        if self.words.has_run() {
            self.words.end()?;
        }
        Ok(())
    }

    // Drops a `\` at the end, where there is one, and says so.
    #[tactic(auto, using(crate::proofs::LineBufferLemmas::ends_filled))]
    pub fn drop_backslash(&mut self) -> bool
        ensures found { result ≡ ends_in_backslash self.old.run }
        ensures done { self.new.done ≡ self.old.done }
        ensures words { self.new.words ≡ self.old.words }
        ensures run { self.new.run ≡ (if result then without_last self.old.run else self.old.run) }
    {
        let found = ends_in_backslash(self.words.run());
        if found {
            self.words.pop();
        }
        found
    }

    // Ends the line, where it has words.
    #[tactic(auto, using(crate::proofs::LineBufferLemmas::are_marks_end, crate::proofs::LineBufferLemmas::done_end, crate::proofs::LineBufferLemmas::words_end, crate::proofs::LineBufferLemmas::line_left, crate::proofs::LineBufferLemmas::line_none, crate::proofs::LineBufferLemmas::words_none_left))]
    pub fn end_line(&mut self, number: u64) -> Result<(), AllocError>
        ensures done { OnOk result (self.new.done ≡ self.old.done ++ line_if_filled number self.old.words) }
        ensures words { OnOk result (self.new.words ≡ []) }
        ensures run { OnOk result (self.new.run ≡ self.old.run) }
    {
        let end = self.words.len();
        if self.marks.last_end() < end {
            self.marks.push(Mark { number, end })?;
        }
        Ok(())
    }

    // Whether there is nothing behind the lines.
    #[tactic(auto, using(crate::proofs::LineBufferLemmas::words_none_left, cyc_base::proofs::ListLemmas::empty_list))]
    pub fn is_whole(&self) -> bool
        ensures words { IsTrue result → self.now.words ≡ [] }
        ensures run { IsTrue result → self.now.run ≡ [] }
    {
        !self.words.has_run() && self.words.len() <= self.marks.last_end()
    }

    #[tactic(auto, using(crate::proofs::LineBufferLemmas::length_done))]
    pub fn len(&self) -> usize
        ensures { result ≡ length self.now.done }
    {
        self.marks.len()
    }

    #[tactic(auto, using(crate::proofs::LineBufferLemmas::length_done, crate::proofs::LineBufferLemmas::line_low, crate::proofs::LineBufferLemmas::line_high, crate::proofs::LineBufferLemmas::line_between))]
    pub fn line(&self, i: usize) -> TextLine<'_>
        requires { i < length self.now.done }
        ensures { result ≡ line_at self.now.done i }
    {
        let start = self.marks.start_of(i);
        let Mark { number, end } = self.marks.at(i);
        TextLine::new(&self.words, number, start, end)
    }
}

// Whether the last byte is a `\`.
#[tactic(auto, using(crate::proofs::WordBufferLemmas::ends_by_last))]
fn ends_in_backslash(run: &[u8]) -> bool
    ensures { result ≡ ends_in_backslash run.now }
{
    match run {
        [.., last] => *last == b'\\',
        [] => false,
    }
}
