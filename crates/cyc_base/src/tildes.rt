//! Runs of `~` in names, and marks: runs that are longer than each in some names, so that no name has one.

ghost use Rattle.std.specs.Prelude.{◌≡◌, suc, IfOk};
ghost use Rattle.cyc_base.specs.Tildes.{longest_run as longest_run_by, tildes};

use crate::name::Name;
use std::alloc::{AllocError, Global};

/// The longest run of `~` in a name.
#[tactic(auto, using(crate::proofs::TildeLemmas::max_is))]
pub fn longest_run(name: &Name) -> usize
    ensures { result ≡ longest_run_by name.now }
{
    let mut longest = 0;
    let mut run = 0;
    for byte in name.bytes() {
        run = if *byte == b'~' { run + 1 } else { 0 };
        longest = longest.max(run);
    }
    longest
}

/// A run of `~` that is longer by one than this. Where no run in some names is longer than this, none of them has it.
pub fn mark_longer_than(alloc: Global, longest: usize) -> Result<Name, AllocError>
    ensures { IfOk result (λ mark. mark ≡ tildes (suc longest)) }
{
    let mut bytes = vec![in alloc; b'~'; longest]?;
    bytes.push(b'~')?;
    Ok(Name::new(bytes))
}
