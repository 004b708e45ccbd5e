// Vector files.
ghost use Rattle.std.specs.Prelude.{◌≡◌, ◌≢◌, ◌&&◌, ◌==◌, false, map, MatchResult, IfOk, Ok, Err};
ghost use Rattle.std.specs.List.{list_all};
ghost use Rattle.std.specs.Result.{result_err};
ghost use Rattle.sched_text.specs.declared.fault.SchedFault.TheVariants.{Memory};
ghost use Rattle.sched_text.specs.Answers.{Reads};
ghost use Rattle.sched_text.specs.Vectors.{is_value as is_value_byte, is_dash as stands_for_none, word_fault, value_of as value_of_byte, values_of as values_of_word, vector_fault, vector_of, vectors, vectors_read, HaveWidth, AreKnown};

use crate::fault::SchedFault;
use blif_text::{Lines, TextLine};
use cyc_base::{Trit, Trits};
use std::alloc::{AllocError, Global};

fn is_value(b: u8, unknowns: bool) -> bool
    ensures { result ≡ is_value_byte unknowns b }
{
    b == b'0' || b == b'1' || (unknowns && b == b'x')
}

fn are_values(word: &[u8], unknowns: bool) -> bool
    ensures { result ≡ list_all (is_value_byte unknowns) word.now }
{
    word.iter().all(|b| is_value(*b, unknowns))
}

// Whether the word stands for no values.
fn is_dash(word: &[u8], width: usize) -> bool
    ensures { result ≡ stands_for_none width word.now }
{
    width == 0 && word == b"-".as_slice()
}

fn check_word(word: &[u8], line: u64, width: usize, unknowns: bool) -> Result<(), SchedFault>
    ensures { result_err result ≡ word_fault width unknowns line word.now }
{
    if is_dash(word, width) {
        return Ok(());
    }
    if !are_values(word, unknowns) {
        return Err(SchedFault::BadLine { line });
    }
    if word.len() != width {
        return Err(SchedFault::WrongWidth { line });
    }
    Ok(())
}

fn value_of(b: u8) -> Trit
    ensures { result ≡ value_of_byte b }
{
    match b {
        b'0' => Trit::Zero,
        b'1' => Trit::One,
        _ => Trit::X,
    }
}

fn values(alloc: Global, word: &[u8]) -> Result<Vec<Trit>, AllocError>
    ensures { IfOk result (λ values. values.items ≡ map value_of_byte word.now) }
{
    word.iter().map(|b| value_of(*b)).collect(alloc)
}

fn values_of(alloc: Global, word: &[u8], width: usize) -> Result<Trits, AllocError>
    ensures { IfOk result (λ values. values ≡ values_of_word width word.now) }
{
    if is_dash(word, width) {
        return Ok(Trits::of(Vec::new(alloc)));
    }
    Ok(Trits::of(values(alloc, word)?))
}

// The vector of a line.
fn read_vector(
    alloc: Global,
    line: &TextLine<'_>,
    width: usize,
    unknowns: bool,
) -> Result<Trits, SchedFault>
    ensures { Reads result (vector_fault width unknowns line.now) (vector_of width line.now) }
{
    let number = line.number();
    if line.words() != 1 {
        return Err(SchedFault::BadLine { line: number });
    }
    let word = line.word(0);
    check_word(word, number, width, unknowns)?;
    Ok(values_of(alloc, word, width)?)
}

#[tactic(auto, using(crate::proofs::VectorLemmas::at_next, crate::proofs::VectorLemmas::at_fault, crate::proofs::VectorLemmas::at_end))]
fn read_lines(
    alloc: Global,
    lines: &Lines,
    width: usize,
    unknowns: bool,
) -> Result<Vec<Trits>, SchedFault>
    ensures { MatchResult result
        (λ found. vectors width unknowns lines.now ≡ Ok found.items)
        (λ fault. fault ≢ Memory → vectors width unknowns lines.now ≡ Err fault) }
{
    let mut vectors = Vec::with_capacity(alloc, lines.len())?;
    for i in 0..lines.len() {
        vectors.push_reserved(read_vector(alloc, &lines.line(i), width, unknowns)?);
    }
    Ok(vectors)
}

/// The vectors of a text: each line is one tick, and one word with a character for each input, `0`, `1`, or `x` where
/// unknown values are allowed. For a netlist without inputs the word is `-`. A text without lines has no vector.
///
/// `BadLine` comes exactly for the first bad byte of the text, and else `BadLine` or `WrongWidth` for the first line
/// that has a fault: another number of words than one, a character that isn't allowed, and then another number of
/// characters than `width`.
pub fn read_vectors(
    alloc: Global,
    bytes: &[u8],
    width: usize,
    unknowns: bool,
) -> Result<Vec<Trits>, SchedFault>
    ensures vectors { MatchResult result
        (λ found. vectors_read bytes.now width unknowns ≡ Ok found.items)
        (λ fault. fault ≢ Memory → vectors_read bytes.now width unknowns ≡ Err fault) }
    ensures width { IfOk result (λ found. HaveWidth width found.items) }
    ensures known { unknowns ≡ false → IfOk result (λ found. AreKnown found.items) }
{
    let lines = Lines::of(alloc, bytes, false)?;
    Ok(read_lines(alloc, &lines, width, unknowns)?)
}
