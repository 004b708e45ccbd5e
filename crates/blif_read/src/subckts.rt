// `.subckt` lines.
ghost use Rattle.std.specs.Prelude.{◌≡◌, ◌<◌, ◌≤◌, IfOk, length, drop, map};
ghost use Rattle.std.specs.List.{list_all, position_or_len};
ghost use Rattle.std.specs.Result.{result_err};
ghost use Rattle.blif_read.specs.Kinds.{arguments};
ghost use Rattle.blif_read.specs.Faults.{is_equals, formal_of, actual_of, is_pair, subckt_fault};
ghost use Rattle.blif_read.specs.Statements.{pair_of, part_of};
ghost use Rattle.blif_read.specs.Answers.{Reads};

use crate::fault::BlifFault;
use crate::models::PartLine;
use crate::statement::Statement;
use crate::words::name_of;
use blif_text::TextLine;
use cyc_base::{Items, Name};
use std::alloc::{AllocError, Global};

#[tactic(auto, using(std::proofs::lemmas::List::Sums::position_or_len_is))]
// The place of the first `=`, or the length.
fn equals_at(word: &[u8]) -> usize
    ensures place { result ≡ position_or_len is_equals word.now }
    ensures within { result ≤ length word.now }
{
    for (at, b) in word.iter().enumerate() {
        if *b == b'=' {
            return at;
        }
    }
    word.len()
}

fn formal_of(word: &[u8]) -> &[u8]
    ensures { result.now ≡ formal_of word.now }
{
    &word[..equals_at(word)]
}

fn actual_of(word: &[u8]) -> &[u8]
    ensures { result.now ≡ actual_of word.now }
{
    let at = equals_at(word);
    if at == word.len() {
        return &[];
    }
    &word[at + 1..]
}

fn is_pair(word: &[u8]) -> bool
    ensures { result ≡ is_pair word.now }
{
    !formal_of(word).is_empty() && !actual_of(word).is_empty()
}

#[tactic(auto, using(crate::proofs::PartLemmas::pairs_more, crate::proofs::PartLemmas::pairs_end))]
// Whether the words from the third on are pairs.
fn are_pairs(line: &TextLine<'_>) -> bool
    ensures { result ≡ list_all is_pair (drop 2 line.now.words) }
{
    for k in 2..line.words() {
        if !is_pair(line.word(k)) {
            return false;
        }
    }
    true
}

fn check_part(line: &TextLine<'_>) -> Result<(), BlifFault>
    ensures { result_err result ≡ subckt_fault line.now.number (arguments line.now) }
{
    if line.words() < 2 || !are_pairs(line) {
        return Err(BlifFault::BadSubckt {
            line: line.number(),
        });
    }
    Ok(())
}

fn pair_of(alloc: Global, word: &[u8]) -> Result<(Name, Name), AllocError>
    ensures { IfOk result (λ pair. pair ≡ pair_of word.now) }
{
    let formal = name_of(alloc, formal_of(word))?;
    let actual = name_of(alloc, actual_of(word))?;
    Ok((formal, actual))
}

#[tactic(auto, using(crate::proofs::PartLemmas::pair_none, crate::proofs::PartLemmas::pair_all))]
// The pairs, which are the words from the third on.
fn pairs_of(alloc: Global, line: &TextLine<'_>) -> Result<Items<(Name, Name)>, AllocError>
    requires { 2 ≤ length line.now.words }
    ensures { IfOk result (λ pairs. pairs ≡ map pair_of (drop 1 (arguments line.now))) }
{
    let mut pairs = Vec::with_capacity(alloc, line.words() - 2)?;
    for k in 2..line.words() {
        pairs.push(pair_of(alloc, line.word(k))?)?;
    }
    Ok(Items::of(pairs))
}

fn part_of(alloc: Global, line: &TextLine<'_>) -> Result<PartLine, AllocError>
    requires { 2 ≤ length line.now.words }
    ensures { IfOk result (λ part. part ≡ part_of (arguments line.now)) }
{
    let model = name_of(alloc, line.word(1))?;
    let pairs = pairs_of(alloc, line)?;
    Ok(PartLine { model, pairs })
}

pub fn read_part(alloc: Global, line: &TextLine<'_>) -> Result<Statement, BlifFault>
    ensures { Reads result (subckt_fault line.now.number (arguments line.now)) (Statement.Part (part_of (arguments line.now))) }
{
    check_part(line)?;
    Ok(Statement::Part(part_of(alloc, line)?))
}
