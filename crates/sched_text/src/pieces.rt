// A text, read piece by piece, so that its words never stand in memory all at once.
ghost use Rattle.std.specs.Prelude.{◌≡◌, ◌<◌, ◌≤◌, ◌+◌, ◌^◌, [], length, count_by, position, MatchOption, IfOk, IfErr, IfSome, option_map, slice_index_or};
ghost use Rattle.blif_text.specs.Texts.{is_lf};
ghost use Rattle.blif_text.specs.Lines.{line_at};
ghost use Rattle.sched_text.specs.declared.fault.SchedFault.TheVariants.{BadLine};
ghost use Rattle.sched_text.specs.Answers.{IsFault, Reads};
ghost use Rattle.sched_text.specs.Pieces.{lines_from, bad_line, IsCut, IsNext};

use crate::fault::SchedFault;
use blif_text::{Lines, TextFault, TextLine};
use std::alloc::Global;
use std::marker::Model;

/// A piece has at least so many bytes, where the text goes on.
const LEAST_PIECE: usize = 65_536;

/// The lines of a piece, behind so many physical lines of the text.
pub struct Piece {
    lines: Lines,
    before: u64,
}

impl Drop for Piece {
    fn drop(self) {
        let Piece {
            lines: _,
            before: _,
        } = self;
    }
}

impl Model for Piece {
    ghost use Rattle.std.specs.Prelude.{◌+◌, ◌<◌, ◌^◌, List, All, map};
    ghost use Rattle.blif_text.specs.Texts.{Line};
    ghost use Rattle.sched_text.specs.Pieces.{line_behind};

    ghost Value = { List Line };

    ghost view = { λ piece. map (line_behind piece.before) piece.lines };

    ghost invariant = { λ piece. All (λ line. piece.before + line.number < 2 ^ 64) piece.lines };
}

impl Piece {
    pub fn len(&self) -> usize
        ensures { result ≡ length self.now }
    {
        self.lines.len()
    }

    pub fn line(&self, i: usize) -> PieceLine<'_>
        requires { i < length self.now }
        ensures { result ≡ line_at self.now i }
    {
        PieceLine {
            line: self.lines.line(i),
            before: self.before,
        }
    }
}

/// A line of a piece: its number in the text, counted from 1, and its words.
#[derive(Drop)]
pub struct PieceLine<'a> {
    line: TextLine<'a>,
    // how many physical lines of the text stand before its piece
    before: u64,
}

impl<'a> Model for PieceLine<'a> {
    ghost use Rattle.std.specs.Prelude.{◌+◌, ◌<◌, ◌^◌};
    ghost use Rattle.blif_text.specs.Texts.{Line};
    ghost use Rattle.sched_text.specs.Pieces.{line_behind};

    ghost Value = { Line };

    ghost view = { λ line. line_behind line.before line.line };

    ghost invariant = { λ line. line.before + line.line.number < 2 ^ 64 };
}

impl<'a> PieceLine<'a> {
    pub fn number(&self) -> u64
        ensures { result ≡ self.now.number }
    {
        self.before + self.line.number()
    }

    pub fn words(&self) -> usize
        ensures { result ≡ length self.now.words }
    {
        self.line.words()
    }

    /// A word, counted from 0.
    pub fn word(&self, k: usize) -> &'a [u8]
        requires { k < length self.now.words }
        ensures { result.now ≡ slice_index_or self.now.words k [] }
    {
        self.line.word(k)
    }

    /// The fault that it is no line of a schedule.
    pub fn bad_line(&self) -> SchedFault
        ensures { result ≡ BadLine self.now.number }
    {
        SchedFault::BadLine {
            line: self.number(),
        }
    }
}

// Where the first LF is.
fn first_break(text: &[u8]) -> Option<usize>
    ensures first { result ≡ position is_lf text.now }
    ensures within { IfSome result (λ at. at < length text.now) }
{
    text.iter().position(|b| *b == b'\n')
}

// How many bytes the next piece has.
fn piece_len(text: &[u8]) -> usize
    requires { 0 < length text.now }
    ensures some { 0 < result }
    ensures inside { result ≤ length text.now }
    ensures cut { IsCut text.now result }
{
    if text.len() <= LEAST_PIECE {
        return text.len();
    }
    let (_, behind) = text.split_at(LEAST_PIECE);
    match first_break(behind) {
        Some(at) => LEAST_PIECE + at + 1,
        None => text.len(),
    }
}

fn count_breaks(text: &[u8]) -> u64
    ensures { result ≡ count_by is_lf text.now }
{
    text.iter().filter(|b| **b == b'\n').count() as u64
}

// The lines of a piece behind so many physical lines.
fn piece_of(alloc: Global, piece: &[u8], before: u64) -> Result<Piece, SchedFault>
    requires { before + length piece.now + 1 < 2 ^ 64 }
    ensures { Reads result (option_map BadLine (bad_line (before + 1) piece.now)) (lines_from (before + 1) piece.now) }
{
    match Lines::of(alloc, piece, false) {
        Ok(lines) => Ok(Piece { lines, before }),
        Err(TextFault::BadByte { line }) => Err(SchedFault::BadLine {
            line: before + line,
        }),
        Err(TextFault::Memory) => Err(SchedFault::Memory),
    }
}

/// What is left of a text behind so many physical lines.
#[derive(Drop)]
pub struct Pieces<'a> {
    left: &'a [u8],
    before: u64,
}

impl<'a> Pieces<'a> {
    pub fn of(text: &'a [u8]) -> Pieces<'a>
        ensures left { result.left.now ≡ text.now }
        ensures before { result.before ≡ 0 }
    {
        Pieces {
            left: text,
            before: 0,
        }
    }

    /// The lines of the next piece, where something is left.
    pub fn next_piece(&mut self, alloc: Global) -> Result<Option<Piece>, SchedFault>
        requires { self.old.before + length self.old.left.now + 1 < 2 ^ 64 }
        ensures next { IfOk result (λ next. MatchOption next (self.old.left.now ≡ []) (λ piece. IsNext self.old.before self.new.before self.old.left.now self.new.left.now piece)) }
        ensures fault { IfErr result (IsFault (option_map BadLine (bad_line (self.old.before + 1) self.old.left.now))) }
    {
        if self.left.is_empty() {
            return Ok(None);
        }
        let (front, behind) = self.left.split_at(piece_len(self.left));
        let piece = piece_of(alloc, front, self.before)?;
        self.before += count_breaks(front);
        self.left = behind;
        Ok(Some(piece))
    }
}
