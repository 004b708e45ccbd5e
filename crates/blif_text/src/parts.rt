// Lines that are handed out while the text is read.
ghost use Rattle.std.specs.Prelude.{◌≡◌, ◌<◌, ◌≤◌, ◌+◌, ◌-◌, ◌^◌, MatchOption, MatchResult, IfOk, Some, true, length, slice_range};
ghost use Rattle.std.specs.List.{list_all};
ghost use Rattle.blif_text.specs.Reading.{start, finish};
ghost use Rattle.blif_text.specs.Faults.{RefusesStep};
ghost use Rattle.blif_text.specs.Parts.{state_behind, state_over, is_word_byte, with_part};

use crate::fault::TextFault;
use crate::lines::{Lines, is_dropped};
use crate::reader::{Reader, is_printed};
use std::alloc::{AllocError, Global};
use std::marker::Model;

/// The lines of a text that is read from place to place, handed out part by part, so that few of them stand in
/// memory at once.
#[derive(Drop)]
pub struct LineParts {
    reader: Reader,
}

impl Model for LineParts {
    ghost use Rattle.blif_text.specs.Reading.{State};
    ghost use Rattle.blif_text.specs.Readers.{state_of};

    ghost Value = { State };

    ghost view = { λ parts. state_of parts.reader };
}

impl LineParts {
    pub fn new(alloc: Global) -> LineParts
        ensures { result ≡ start }
    {
        LineParts {
            reader: Reader::new(alloc),
        }
    }

    // Reads the byte at a place, where those before it are read.
    fn take(&mut self, joins: bool, bytes: &[u8], i: usize) -> Result<(), TextFault>
        requires inside { i < length bytes.now }
        requires number { self.old.number + 1 < 2 ^ 64 }
        ensures { MatchResult result
            (λ _. state_behind joins bytes.now i self.old ≡ Some self.new)
            (λ fault. RefusesStep fault self.old.number (state_behind joins bytes.now i self.old)) }
    {
        let b = bytes[i];
        if is_dropped(bytes, i, b) {
            return Ok(());
        }
        self.reader.take(joins, b)
    }

    /// Reads on from a place, where the bytes before it are read, and answers where to go on: behind the word's bytes at
    /// the place, or else behind one byte.
    #[tactic(auto, using(crate::proofs::RunLemmas::run_over, crate::proofs::RunLemmas::one_over))]
    pub fn take_from(&mut self, joins: bool, bytes: &[u8], i: usize) -> Result<usize, TextFault>
        requires inside { i < length bytes.now }
        requires number { self.old.number + 1 < 2 ^ 64 }
        ensures on { IfOk result (λ next. i < next) }
        ensures within { IfOk result (λ next. next ≤ length bytes.now) }
        ensures read { MatchResult result
            (λ next. state_over joins bytes.now i (next - i) self.old ≡ Some self.new)
            (λ fault. RefusesStep fault self.old.number (state_behind joins bytes.now i self.old)) }
    {
        if !self.reader.is_in_comment() {
            let end = word_end(bytes, i);
            if i < end {
                self.reader.take_run(&bytes[i..end])?;
                return Ok(end);
            }
        }
        self.take(joins, bytes, i)?;
        Ok(i + 1)
    }

    /// The lines since the last part, where they are many and no line goes on.
    pub fn part(&mut self, alloc: Global) -> Option<Lines>
        ensures { MatchOption result (self.new ≡ self.old) (λ part. self.old ≡ with_part part self.new) }
    {
        match self.reader.part(alloc) {
            Some(buffer) => Some(Lines::from_buffer(buffer)),
            None => None,
        }
    }

    /// The lines since the last part, where the text ends.
    pub fn finish(self, joins: bool) -> Result<Lines, AllocError>
        requires { self.number + 1 < 2 ^ 64 }
        ensures { IfOk result (λ part. part ≡ finish joins self) }
    {
        match self.reader.finish(joins) {
            Ok(buffer) => Ok(Lines::from_buffer(buffer)),
            Err(e) => Err(e),
        }
    }
}

fn is_word_byte(b: u8) -> bool
    ensures { result ≡ is_word_byte b }
{
    is_printed(b) && b != b'#'
}

// Where the word's bytes from a place on end.
#[tactic(auto, using(crate::proofs::RunLemmas::word_none, crate::proofs::RunLemmas::word_more))]
fn word_end(bytes: &[u8], i: usize) -> usize
    requires { i ≤ length bytes.now }
    ensures low { i ≤ result }
    ensures high { result ≤ length bytes.now }
    ensures word { list_all is_word_byte (slice_range bytes.now i result) ≡ true }
{
    let mut end = i;
    while end < bytes.len() && is_word_byte(bytes[end]) {
        end += 1;
    }
    end
}
