ghost use Rattle.std.specs.Prelude.{◌≡◌, ◌<◌, ◌≤◌, ◌+◌, ◌^◌, ◌&&◌, ◌==◌, [], MatchResult, List, Ok, length, drop, slice_index_or};
ghost use Rattle.blif_text.specs.Texts.{Line, begins_with, end_number, lines};
ghost use Rattle.blif_text.specs.Faults.{Refuses};
ghost use Rattle.blif_text.specs.Lines.{line_at};

use crate::fault::TextFault;
use crate::line_buffer::LineBuffer;
use crate::reader::Reader;
use crate::text_line::TextLine;
use std::alloc::Global;
use std::marker::Model;

/// The logical lines of a text that have words, in order.
///
/// A line loses its comment, which begins at `#`; a line that then ends in `\` goes on in the next one
/// (the Berkeley BLIF manual).
#[derive(Drop)]
pub struct Lines {
    buffer: LineBuffer,
}

impl Model for Lines {
    ghost Value = { List Line };

    ghost view = { λ lines. lines.buffer.done };
}

impl Lines {
    pub(crate) fn from_buffer(buffer: LineBuffer) -> Lines
        ensures { result ≡ buffer.done }
    {
        Lines { buffer }
    }

    /// The lines of a text. With `joins` a line that ends in `\` is joined to the next.
    ///
    /// `BadByte` comes exactly where the text has a bad byte, with the first line that has one.
    pub fn of(alloc: Global, bytes: &[u8], joins: bool) -> Result<Lines, TextFault>
        ensures { MatchResult result
            (λ found. lines bytes.now joins ≡ Ok found)
            (λ fault. Refuses fault (lines bytes.now joins)) }
    {
        match read(alloc, bytes, joins) {
            Ok(buffer) => Ok(Lines { buffer }),
            Err(fault) => Err(fault),
        }
    }

    /// How many lines there are.
    pub fn len(&self) -> usize
        ensures { result ≡ length self.now }
    {
        self.buffer.len()
    }

    /// A line, counted from 0.
    pub fn line(&self, i: usize) -> TextLine<'_>
        requires { i < length self.now }
        ensures { result ≡ line_at self.now i }
    {
        self.buffer.line(i)
    }

    /// The number of a line's first physical line, counted from 1.
    pub fn number(&self, i: usize) -> u64
        requires { i < length self.now }
        ensures { result ≡ (line_at self.now i).number }
    {
        self.line(i).number()
    }

    /// How many words a line has.
    pub fn words(&self, i: usize) -> usize
        requires { i < length self.now }
        ensures { result ≡ length (line_at self.now i).words }
    {
        self.line(i).words()
    }

    /// A word of a line, counted from 0.
    pub fn word(&self, i: usize, k: usize) -> &[u8]
        requires line { i < length self.now }
        requires word { k < length (line_at self.now i).words }
        ensures { result.now ≡ slice_index_or (line_at self.now i).words k [] }
    {
        self.line(i).word(k)
    }
}

/// The number of the line in which a text ends: one more than the number of its LF bytes.
pub fn end_line(bytes: &[u8]) -> u64
    ensures { result ≡ end_number bytes.now }
{
    bytes.iter().filter(|b| **b == b'\n').count() as u64 + 1
}

fn begins_with_lf(rest: &[u8]) -> bool
    ensures { result ≡ begins_with 10 rest.now }
{
    match rest {
        [b, ..] => *b == b'\n',
        [] => false,
    }
}

// Whether the byte at a place is a CR directly before an LF.
pub(crate) fn is_dropped(bytes: &[u8], i: usize, b: u8) -> bool
    requires { i < length bytes.now }
    ensures { result ≡ ((b == 13) && begins_with 10 (drop (i + 1) bytes.now)) }
{
    b == b'\r' && begins_with_lf(&bytes[i + 1..])
}

#[tactic(auto, using(crate::proofs::LoopLemmas::at_start, crate::proofs::LoopLemmas::at_next, crate::proofs::LoopLemmas::at_cr, crate::proofs::LoopLemmas::at_fault, crate::proofs::LoopLemmas::at_end))]
fn read(alloc: Global, bytes: &[u8], joins: bool) -> Result<LineBuffer, TextFault>
    ensures { MatchResult result
        (λ buffer. lines bytes.now joins ≡ Ok buffer.done)
        (λ fault. Refuses fault (lines bytes.now joins)) }
{
    let mut reader = Reader::new(alloc);
    for (i, b) in bytes.iter().enumerate() {
        if !is_dropped(bytes, i, *b) {
            reader.take(joins, *b)?;
        }
    }
    let buffer = reader.finish(joins)?;
    Ok(buffer)
}
