ghost use Rattle.std.specs.Prelude.{◌≡◌, MatchOption, IfSome, ⊤};
ghost use Rattle.std.specs.List.{All};
ghost use Rattle.sat.specs.declared.values.Truth.TheVariants.{Open, True};
ghost use Rattle.sat.specs.Values.{value_of};
ghost use Rattle.sat.specs.Decisions.{IsNext};

use crate::elimination::{Elimination, is_gone, next_gone};
use crate::lit::Lit;
use crate::queue::{Queue, next_open, next_preferred};
use crate::trail::{NONE, Trail, is_open, is_true, phase_of};

/// What the search is to do where no clause forces anything.
#[derive(Clone, Copy)]
pub(crate) enum Next {
    /// An assumption is open.
    Assume(Lit),
    /// The assumptions are true, and a variable is open.
    Decide(Lit),
    /// An assumption is false.
    Fails(Lit),
    /// No variable is open.
    Full,
}

/// The first assumption that isn't true.
fn next_assumption(trail: &Trail, assumptions: &[Lit]) -> Option<Lit>
    ensures { MatchOption result (All (λ l. value_of trail.now.values.items l ≡ True) assumptions.now) (λ l. ⊤) }
{
    for assumption in assumptions {
        if !is_true(trail, *assumption) {
            return Some(*assumption);
        }
    }
    None
}

/// The first preferred literal that is open.
fn next_choice(trail: &Trail, queue: &mut Queue) -> Option<Lit>
    ensures { IfSome result (λ l. value_of trail.now.values.items l ≡ Open) }
{
    for _ in 0..queue.preferred.as_slice().len() {
        let lit = next_preferred(queue)?;
        if is_open(trail, lit) {
            return Some(lit);
        }
    }
    None
}

/// An open variable with its last value.
#[tactic(auto, using(crate::proofs::ValueLemmas::open_variable))]
fn next_queued(trail: &Trail, queue: &mut Queue) -> Option<Lit>
    ensures { IfSome result (λ l. value_of trail.now.values.items l ≡ Open) }
{
    let variable = next_open(queue, &trail.values)?;
    Some(Lit::of(variable, !phase_of(trail, variable)))
}

/// An open variable with its last value, or else an eliminated one as the others ask for it.
fn next_variable(trail: &Trail, queue: &mut Queue, elimination: &mut Elimination) -> Option<Lit>
    ensures { IfSome result (λ l. value_of trail.now.values.items l ≡ Open) }
{
    for _ in 0..=trail.values.as_slice().len() {
        match next_queued(trail, queue) {
            None => return next_gone(trail, elimination),
            Some(lit) if !is_gone(elimination, lit.variable()) => return Some(lit),
            Some(_) => (),
        }
    }
    None
}

/// A variable that is open, where the assumptions seem to be true.
fn next_beyond(trail: &Trail, queue: &mut Queue, elimination: &mut Elimination) -> Option<Lit>
    ensures { IfSome result (λ l. value_of trail.now.values.items l ≡ Open) }
{
    if trail.assumed == NONE {
        return None;
    }
    match next_choice(trail, queue) {
        Some(lit) => Some(lit),
        None => next_variable(trail, queue, elimination),
    }
}

/// The first assumption that isn't true, or else a variable that is open. Assumptions are looked at where they don't seem to
/// be true, and where no variable is open.
pub(crate) fn next_decision(
    trail: &Trail,
    queue: &mut Queue,
    elimination: &mut Elimination,
    assumptions: &[Lit],
) -> Next
    ensures { IsNext trail.now.values.items assumptions.now result }
{
    if let Some(lit) = next_beyond(trail, queue, elimination) {
        return Next::Decide(lit);
    }
    match next_assumption(trail, assumptions) {
        Some(lit) if is_open(trail, lit) => Next::Assume(lit),
        Some(lit) => Next::Fails(lit),
        None => match next_variable(trail, queue, elimination) {
            Some(lit) => Next::Decide(lit),
            None => Next::Full,
        },
    }
}
