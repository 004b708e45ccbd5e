//! Many gates, piece by piece. A solver that refutes one gate after another sets the variables of all its clauses anew for
//! each, so with many small loops in one formula that takes time in the square of their number.

ghost use Rattle.std.specs.Prelude.{◌≡◌, ◌<◌, ◌≤◌, ◌+◌, length, All};
ghost use Rattle.verdict.specs.Pieces.{IsPieceAt};

use crate::question::Question;
use loops::upstream_of;
use std::alloc::{AllocError, Global};

/// How many gates a piece has at least, and about how many pieces there are at most.
const FEWEST: usize = 64;

const MOST_PIECES: usize = 256;

/// How many sizes of pieces are tried, each four times the one before.
const SIZES: usize = 4;

/// The gates from this place on, as many as a piece has or as are left, but one at least.
pub(crate) fn piece_at(gates: &[u32], start: usize, size: usize) -> &[u32]
    requires { start < length gates.now }
    ensures { IsPieceAt gates.now start result.now }
{
    let rest = &gates[start..];
    let most = size.max(1).min(rest.len());
    &rest[..most]
}

/// How many marks there are.
fn count_marks(marks: &[bool]) -> usize {
    let mut count = 0_usize;
    for mark in marks {
        if *mark {
            count = count.saturating_add(1);
        }
    }
    count
}

/// How many gates are upstream of these, with themselves.
fn cone_size(alloc: Global, question: &Question<'_>, gates: &[u32]) -> Result<usize, AllocError>
    requires { All (λ n. n < length question.now.net.gates) gates.now }
{
    let marks = upstream_of(alloc, question.looped(), gates)?;
    Ok(count_marks(&marks))
}

/// Whether the cones of all pieces of this size have together at most so many gates.
fn are_small(
    alloc: Global,
    question: &Question<'_>,
    gates: &[u32],
    size: usize,
    most: usize,
) -> Result<bool, AllocError>
    requires { All (λ n. n < length question.now.net.gates) gates.now }
{
    let mut left = most;
    let mut start = 0;
    while start < gates.len() {
        let piece = piece_at(gates, start, size);
        let cone = cone_size(alloc, question, piece)?;
        if cone > left {
            return Ok(false);
        }
        left -= cone;
        start += piece.len();
    }
    Ok(true)
}

/// How many of these gates are asked for at once: all, or few where the cones of the pieces have together at most a quarter
/// more gates than the cone of all, so that little is asked for twice.
pub(crate) fn piece_size(
    alloc: Global,
    question: &Question<'_>,
    gates: &[u32],
) -> Result<usize, AllocError>
    requires { All (λ n. n < length question.now.net.gates) gates.now }
{
    let whole = cone_size(alloc, question, gates)?;
    let most = whole.saturating_add(whole / 4);
    let mut size = FEWEST.max(gates.len() / MOST_PIECES);
    for _ in 0..SIZES {
        if size >= gates.len() {
            return Ok(size);
        }
        if are_small(alloc, question, gates, size, most)? {
            return Ok(size);
        }
        size = size.saturating_mul(4);
    }
    Ok(gates.len())
}
