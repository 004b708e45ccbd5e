// Words of a line as names.
ghost use Rattle.std.specs.Prelude.{◌≡◌, ◌<◌, ◌≤◌, IfOk, length, slice_range};
ghost use Rattle.std.specs.Str.{bytes_eq};
ghost use Rattle.blif_read.specs.Kinds.{arguments, word_at};

use blif_text::TextLine;
use cyc_base::{Items, Name};
use std::alloc::{AllocError, Global};

// Whether a word is this one.
pub fn is(word: &[u8], other: &[u8]) -> bool
    ensures { result ≡ bytes_eq word.now other.now }
{
    word == other
}

// The name that has these bytes.
pub fn name_of(alloc: Global, bytes: &[u8]) -> Result<Name, AllocError>
    ensures { IfOk result (λ name. name ≡ bytes.now) }
{
    Name::copied_from(alloc, bytes)
}

#[tactic(auto, using(crate::proofs::WordLemmas::slice_none))]
// The words of a line from one place up to another.
pub fn names_between(
    alloc: Global,
    line: &TextLine<'_>,
    from: usize,
    to: usize,
) -> Result<Items<Name>, AllocError>
    requires low { from ≤ to }
    requires high { to ≤ length line.now.words }
    ensures { IfOk result (λ names. names ≡ slice_range line.now.words from to) }
{
    let mut names = Vec::with_capacity(alloc, to - from)?;
    for k in from..to {
        names.push(name_of(alloc, line.word(k))?)?;
    }
    Ok(Items::of(names))
}

#[tactic(auto, using(crate::proofs::WordLemmas::slice_rest))]
// The words of a line behind the first.
pub fn argument_names(alloc: Global, line: &TextLine<'_>) -> Result<Items<Name>, AllocError>
    ensures { IfOk result (λ names. names ≡ arguments line.now) }
{
    let words = line.words();
    if words == 0 {
        return Ok(Items::of(Vec::new(alloc)));
    }
    names_between(alloc, line, 1, words)
}
