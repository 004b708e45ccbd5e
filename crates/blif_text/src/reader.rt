// A reader that goes through a text from byte to byte.
ghost use Rattle.std.specs.Prelude.{◌≡◌, ◌<◌, ◌≤◌, ◌+◌, ◌^◌, OnOk, IfOk, MatchOption, MatchResult, Some, false};
ghost use Rattle.blif_text.specs.Texts.{is_blank, is_printed, without_last};
ghost use Rattle.blif_text.specs.Reading.{start, put, put_all, end_word, begin_comment, join_line, close_line, line_break, step, finish, State};
ghost use Rattle.blif_text.specs.Faults.{RefusesStep};
ghost use Rattle.blif_text.specs.Parts.{with_part};
ghost use Rattle.blif_text.specs.Readers.{state_of};

use crate::fault::TextFault;
use crate::line_buffer::LineBuffer;
use std::alloc::{AllocError, Global};
use std::mem;

// A part has at least so many lines, where the text goes on.
const PART_LINES: usize = 1_024;

// What was read so far. The words and bytes at the buffer's end are those of the current logical line.
#[derive(Drop)]
pub struct Reader {
    buffer: LineBuffer,
    // the numbers of the current logical line and of the current physical line
    first: u64,
    number: u64,
    // whether the rest of the physical line is a comment
    comment: bool,
}

impl Reader {
    pub fn new(alloc: Global) -> Reader
        ensures { state_of result ≡ start }
    {
        Reader {
            buffer: LineBuffer::new(alloc),
            first: 1,
            number: 1,
            comment: false,
        }
    }

    fn next_physical_line(&mut self)
        requires { self.old.number + 1 < 2 ^ 64 }
        ensures { self.new ≡ record self.old { number = self.old.number + 1; comment = false } }
    {
        self.number += 1;
        self.comment = false;
    }

    // Goes on in the next physical line, once the `\` is dropped.
    fn join(&mut self) -> Result<(), AllocError>
        requires { self.old.number + 1 < 2 ^ 64 }
        ensures { OnOk result (state_of self.new ≡ record (end_word (state_of self.old)) { number = self.old.number + 1; comment = false }) }
    {
        self.buffer.end_word()?;
        self.next_physical_line();
        Ok(())
    }

    fn close(&mut self) -> Result<(), AllocError>
        requires { self.old.number + 1 < 2 ^ 64 }
        ensures { OnOk result (state_of self.new ≡ close_line (state_of self.old)) }
    {
        self.buffer.end_word()?;
        self.buffer.end_line(self.first)?;
        self.next_physical_line();
        self.first = self.number;
        Ok(())
    }

    fn line_break(&mut self, joins: bool) -> Result<(), AllocError>
        requires { self.old.number + 1 < 2 ^ 64 }
        ensures { OnOk result (state_of self.new ≡ line_break joins (state_of self.old)) }
    {
        if joins && self.buffer.drop_backslash() {
            self.join()?;
        } else {
            self.close()?;
        }
        Ok(())
    }

    pub fn is_in_comment(&self) -> bool
        ensures { result ≡ self.now.comment }
    {
        self.comment
    }

    // Goes on with the word by these bytes.
    pub fn take_run(&mut self, run: &[u8]) -> Result<(), AllocError>
        ensures { OnOk result (state_of self.new ≡ put_all run.now (state_of self.old)) }
    {
        self.buffer.extend(run)?;
        Ok(())
    }

    pub fn take(&mut self, joins: bool, b: u8) -> Result<(), TextFault>
        requires { self.old.number + 1 < 2 ^ 64 }
        ensures { MatchResult result
            (λ _. step joins (state_of self.old) b ≡ Some (state_of self.new))
            (λ fault. RefusesStep fault self.old.number (step joins (state_of self.old) b)) }
    {
        if b == b'\n' {
            self.line_break(joins)?;
            return Ok(());
        }
        if self.comment {
            return Ok(());
        }
        if b == b'#' {
            self.comment = true;
            return Ok(());
        }
        if is_blank(b) {
            self.buffer.end_word()?;
            return Ok(());
        }
        if is_printed(b) {
            self.buffer.push(b)?;
            return Ok(());
        }
        Err(TextFault::BadByte { line: self.number })
    }

    // The lines that are ended, handed over, where they are many and nothing is behind them.
    pub fn part(&mut self, alloc: Global) -> Option<LineBuffer>
        ensures { MatchOption result (self.new ≡ self.old) (λ part. state_of self.old ≡ with_part part.done (state_of self.new)) }
    {
        if self.buffer.len() < PART_LINES || !self.buffer.is_whole() {
            return None;
        }
        Some(mem::replace(&mut self.buffer, LineBuffer::new(alloc)))
    }

    // Ends the text: its last line, and with a join an empty line behind it.
    pub fn finish(mut self, joins: bool) -> Result<LineBuffer, AllocError>
        requires { self.number + 1 < 2 ^ 64 }
        ensures { IfOk result (λ buffer. buffer.done ≡ finish joins (state_of self)) }
    {
        self.line_break(joins)?;
        let number = self.first;
        let mut buffer = self.buffer;
        buffer.end_line(number)?;
        Ok(buffer)
    }
}

fn is_blank(b: u8) -> bool
    ensures { result ≡ is_blank b }
{
    b == b' ' || b == b'\t'
}

pub fn is_printed(b: u8) -> bool
    ensures { result ≡ is_printed b }
{
    (33..=126).contains(&b)
}
