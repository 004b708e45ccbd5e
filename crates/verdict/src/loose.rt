//! Gates that are unknown at some care vector, and whether loops are known all the same.

ghost use Rattle.std.specs.Prelude.{◌≡◌, ◌<◌, true, length, All, IfOk};
ghost use Rattle.loops.specs.Blocks.{block_at};
ghost use Rattle.clause_decision.specs.Changes.{AreFedKnown};
ghost use Rattle.verdict.specs.Loose.{AreKnownAround, AreUnknown, AreWithout};

use crate::fanout::are_reached;
use crate::question::Question;
use loops::gates_at;
use std::alloc::{AllocError, Global};

/// The gates that are unknown at some care vector.
#[derive(Clone, Copy)]
pub enum Unknown<'a> {
    /// There are none.
    Nowhere,
    /// Any may be. Those with a mark are known at some care vector.
    Anywhere {
        known: &'a [bool],
    },
    /// Those with a mark, and some that are known at some care vector.
    Marked {
        unknown: &'a [bool],
        known: &'a [bool],
    },
}

/// Clears the marks of these gates.
fn clear_gates(gates: &[u32], marks: &mut [bool])
    requires { All (λ n. n < length marks.old) gates.now }
    ensures { AreWithout gates.now marks.old marks.new }
{
    for gate in gates {
        marks[*gate as usize] = false;
    }
}

/// The marks without those of these gates.
fn without(alloc: Global, marks: &[bool], gates: &[u32]) -> Result<Vec<bool>, AllocError>
    requires { All (λ n. n < length marks.now) gates.now }
    ensures { IfOk result (λ others. AreWithout gates.now marks.now others.items) }
{
    let mut others: Vec<bool> = marks.iter().copied().collect(alloc)?;
    clear_gates(gates, &mut others);
    Ok(others)
}

/// Whether no gate is unknown that feeds the block at this place and is none of its own.
pub(crate) fn is_fed_known(
    alloc: Global,
    question: &Question<'_>,
    unknown: Unknown<'_>,
    place: usize,
) -> Result<bool, AllocError>
    requires unknown { AreUnknown question.now.net question.now.care unknown }
    requires place { place < length question.now.blocks.list }
    ensures { IfOk result (λ known. known ≡ true → AreFedKnown question.now.net question.now.care (block_at question.now.blocks place).gates) }
{
    let gates = gates_at(question.looped(), place);
    match unknown {
        Unknown::Nowhere => Ok(true),
        Unknown::Anywhere { known: _ } => Ok(false),
        Unknown::Marked { unknown, known: _ } => {
            let others = without(alloc, unknown, gates)?;
            Ok(!are_reached(question.net(), gates, &others))
        }
    }
}

/// Whether no gate is unknown that feeds the block at this place or is one of its own.
pub(crate) fn is_known_around(question: &Question<'_>, unknown: Unknown<'_>, place: usize) -> bool
    requires unknown { AreUnknown question.now.net question.now.care unknown }
    requires place { place < length question.now.blocks.list }
    ensures { result ≡ true → AreKnownAround question.now.net question.now.care (block_at question.now.blocks place).gates }
{
    let gates = gates_at(question.looped(), place);
    match unknown {
        Unknown::Nowhere => true,
        Unknown::Anywhere { known: _ } => false,
        Unknown::Marked { unknown, known: _ } => !are_reached(question.net(), gates, unknown),
    }
}
