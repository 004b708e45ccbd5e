// Standard input among the files of a call.
ghost use Rattle.std.specs.Prelude.{◌≡◌, IfOk, map};
ghost use Rattle.commands.specs.Words.{file_of};

use cyc_base::Name;
use std::alloc::{AllocError, Global};

/// Standard input, as a file.
const STANDARD_INPUT: &[u8] = b"/dev/stdin";

// The file that a word names, where a dash is standard input.
fn file_named(alloc: Global, word: &Name) -> Result<Name, AllocError>
    ensures { IfOk result (λ name. name ≡ file_of word.now) }
{
    if word.bytes() == b"-".as_slice() {
        Name::copied_from(alloc, STANDARD_INPUT)
    } else {
        word.copy()
    }
}

/// The words of a call, with `/dev/stdin` in place of each `-`.
pub fn files_named(alloc: Global, words: &[Name]) -> Result<Vec<Name>, AllocError>
    ensures { IfOk result (λ named. named.items ≡ map file_of words.now) }
{
    let mut named = Vec::with_capacity(alloc, words.len())?;
    for word in words {
        named.push(file_named(alloc, word)?)?;
    }
    Ok(named)
}
