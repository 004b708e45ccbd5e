// Rows of covers.
ghost use Rattle.std.specs.Prelude.{◌≡◌, ◌<◌, ◌&&◌, ◌==◌, IfOk, length, map};
ghost use Rattle.std.specs.List.{list_all};
ghost use Rattle.std.specs.Result.{result_err};
ghost use Rattle.blif_read.specs.Kinds.{is_on};
ghost use Rattle.blif_read.specs.Faults.{is_lit, is_plane, is_row_of, differs, row_fault, row_fault_in};
ghost use Rattle.blif_read.specs.Statements.{lit_of, lits_of};
ghost use Rattle.blif_read.specs.Answers.{Reads};

use crate::fault::BlifFault;
use crate::place::LinePlace;
use crate::statement::Statement;
use crate::words::is;
use blif_text::TextLine;
use cover_logic::{Lit, Row};
use cyc_base::Items;
use std::alloc::{AllocError, Global};

fn is_plane(word: &[u8]) -> bool
    ensures { result ≡ is_plane word.now }
{
    is(word, b"0") || is(word, b"1")
}

fn all_lits(word: &[u8]) -> bool
    ensures { result ≡ list_all is_lit word.now }
{
    word.iter().all(|b| *b == b'0' || *b == b'1' || *b == b'-')
}

fn are_lits(pins: usize, word: &[u8]) -> bool
    ensures { result ≡ ((length word.now == pins) && list_all is_lit word.now) }
{
    word.len() == pins && all_lits(word)
}

fn is_row_of(pins: usize, line: &TextLine<'_>) -> bool
    ensures { result ≡ is_row_of pins line.now.words }
{
    if pins == 0 {
        line.words() == 1 && is_plane(line.word(0))
    } else {
        line.words() == 2 && are_lits(pins, line.word(0)) && is_plane(line.word(1))
    }
}

// Whether the last word of a line is `1`.
fn is_on(line: &TextLine<'_>) -> bool
    ensures { result ≡ is_on line.now }
{
    let words = line.words();
    words != 0 && is(line.word(words - 1), b"1")
}

fn differs(first: Option<bool>, plane: bool) -> bool
    ensures { result ≡ differs first plane }
{
    match first {
        Some(first) => first != plane,
        None => false,
    }
}

fn check_row_of(
    pins: usize,
    first: Option<bool>,
    plane: bool,
    line: &TextLine<'_>,
) -> Result<(), BlifFault>
    requires { plane ≡ is_on line.now }
    ensures { result_err result ≡ row_fault_in pins first line.now }
{
    let number = line.number();
    if !is_row_of(pins, line) {
        return Err(BlifFault::BadRow { line: number });
    }
    if differs(first, plane) {
        return Err(BlifFault::MixedRows { line: number });
    }
    Ok(())
}

fn check_row(place: LinePlace, plane: bool, line: &TextLine<'_>) -> Result<(), BlifFault>
    requires { plane ≡ is_on line.now }
    ensures { result_err result ≡ row_fault place.pins place.first line.now }
{
    match place.pins {
        Some(pins) => check_row_of(pins, place.first, plane, line),
        None => Err(BlifFault::StrayRow {
            line: line.number(),
        }),
    }
}

fn lit_of(b: u8) -> Lit
    ensures { result ≡ lit_of b }
{
    match b {
        b'0' => Lit::Zero,
        b'1' => Lit::One,
        _ => Lit::Any,
    }
}

fn lits_of_word(alloc: Global, word: &[u8]) -> Result<Vec<Lit>, AllocError>
    ensures { IfOk result (λ lits. lits.items ≡ map lit_of word.now) }
{
    word.iter().map(|b| lit_of(*b)).collect(alloc)
}

fn lits_of(alloc: Global, line: &TextLine<'_>) -> Result<Items<Lit>, AllocError>
    ensures { IfOk result (λ lits. lits ≡ lits_of line.now.words) }
{
    if line.words() < 2 {
        return Ok(Items::of(Vec::new(alloc)));
    }
    let lits = lits_of_word(alloc, line.word(0))?;
    Ok(Items::of(lits))
}

pub fn read_row(
    alloc: Global,
    place: LinePlace,
    line: &TextLine<'_>,
) -> Result<Statement, BlifFault>
    ensures { Reads result (row_fault place.pins place.first line.now) (Statement.Row (record { lits = lits_of line.now.words }) (is_on line.now)) }
{
    let plane = is_on(line);
    check_row(place, plane, line)?;
    let lits = lits_of(alloc, line)?;
    Ok(Statement::Row {
        row: Row { lits },
        plane,
    })
}
