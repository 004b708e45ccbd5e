//! The sweeps of the loops of an accepted netlist, by clauses.

ghost use Rattle.std.specs.Prelude.{IfOk, IfSome};
ghost use Rattle.loop_simulation.specs.Known.{AreKnownSomewhere};
ghost use Rattle.refusals.specs.Acceptance.{SomeCareVector};
ghost use Rattle.diagram_decision.specs.Judgements.{AreLoose};
ghost use Rattle.verdict.specs.Questions.{AreCountsOf};

use crate::counts::sweeps_on_care;
use crate::loose::Unknown;
use crate::question::Question;
use crate::unknown::unknown_gates;
use loop_simulation::known_cut_wires;
use loops::SweepCounts;
use std::alloc::{AllocError, Global};

/// The sweeps of all loops where these gates are unknown on care, and these cut wires are known at some care vector.
fn counts_with_unknown(
    alloc: Global,
    question: &Question<'_>,
    known: &[bool],
) -> Result<Option<SweepCounts>, AllocError>
    requires some { SomeCareVector question.now.net question.now.care }
    requires known { AreKnownSomewhere question.now.net question.now.care known.now }
    ensures { IfOk result (λ found. IfSome found (AreCountsOf question.now)) }
{
    match unknown_gates(alloc, question)? {
        Some(unknown) => {
            let told = Unknown::Marked {
                unknown: &unknown,
                known,
            };
            sweeps_on_care(alloc, question, told)
        }
        None => Ok(None),
    }
}

/// The sweeps of all loops where these cut wires are known at some care vector. Which gates are unknown is found only where
/// these don't tell the sweeps of all loops.
fn counts_with_known(
    alloc: Global,
    question: &Question<'_>,
    known: &[bool],
) -> Result<Option<SweepCounts>, AllocError>
    requires some { SomeCareVector question.now.net question.now.care }
    requires known { AreKnownSomewhere question.now.net question.now.care known.now }
    ensures { IfOk result (λ found. IfSome found (AreCountsOf question.now)) }
{
    match sweeps_on_care(alloc, question, Unknown::Anywhere { known })? {
        Some(counts) => Ok(Some(counts)),
        None => counts_with_unknown(alloc, question, known),
    }
}

/// The sweeps of all loops of an accepted netlist on care, where so many gates are unknown there. There are none where the solver
/// gave up in a search, or where an unknown gate feeds a loop and no simulated vector tells that it needs one sweep.
pub(crate) fn counts_by_clauses(
    alloc: Global,
    question: &Question<'_>,
    loose: u32,
) -> Result<Option<SweepCounts>, AllocError>
    requires some { SomeCareVector question.now.net question.now.care }
    requires loose { AreLoose question.now.net question.now.care loose }
    ensures { IfOk result (λ found. IfSome found (AreCountsOf question.now)) }
{
    if loose == 0 {
        return sweeps_on_care(alloc, question, Unknown::Nowhere);
    }
    let known = known_cut_wires(alloc, question.looped(), question.care())?;
    counts_with_known(alloc, question, &known)
}
