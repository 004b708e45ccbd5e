//! Which gates are unknown on care, where clauses say so, and how many where no observed one is.

ghost use Rattle.std.specs.Prelude.{◌≡◌, ◌<◌, None, true, length, All, IfOk, IfSome};
ghost use Rattle.care_sets.specs.Care.{CareSet};
ghost use Rattle.refusals.specs.Acceptance.{observed as observed_signals};
ghost use Rattle.refusals.specs.Refusals.{undetermined_refusal};
ghost use Rattle.clause_decision.specs.Tests.{TellEachUnknown};
ghost use Rattle.verdict.specs.Loose.{AreScattered, AreUnknownMarks, IsLooseNumber};
ghost use Rattle.diagram_decision.specs.Observed.{AreMarksOf};
ghost use Rattle.verdict.specs.Pieces.{AreToldBefore};

use crate::fanout::candidate_gates;
use crate::pieces::{piece_at, piece_size};
use crate::question::Question;
use crate::scopes::{marked_places, scope_of};
use care_sets::Care;
use clause_decision::each_unknown;
use diagram_decision::observed_gates;
use netlist::Netlist;
use refusals::Observe;
use std::alloc::{AllocError, Global};

/// A mark for each of so many places: those of the list whose value is true.
fn scatter(
    alloc: Global,
    width: usize,
    places: &[u32],
    values: &[bool],
) -> Result<Vec<bool>, AllocError>
    requires places { All (λ n. n < width) places.now }
    requires values { length values.now ≡ length places.now }
    ensures { IfOk result (λ marks. AreScattered width places.now values.now (length places.now) marks.items) }
{
    let mut marks = vec![in alloc; false; width]?;
    for place in 0..places.len() {
        if values[place] {
            marks[places[place] as usize] = true;
        }
    }
    Ok(marks)
}

/// For each of these gates whether it is unknown on care, asked of the clauses of their cone, or none where the solver gave
/// up.
fn ask_cone(
    alloc: Global,
    question: &Question<'_>,
    gates: &[u32],
) -> Result<Option<Vec<bool>>, AllocError>
    requires { All (λ n. n < length question.now.net.gates) gates.now }
    ensures { IfOk result (λ told. IfSome told (λ found. TellEachUnknown question.now.net question.now.care gates.now found.items)) }
{
    let net = question.net();
    let care = question.care();
    let scope = scope_of(alloc, question, gates)?;
    each_unknown(alloc, net, care, &scope, gates, question.conflicts())
}

/// Adds for the gates of one piece more whether each is unknown on care. False where the solver gave up.
fn ask_piece(
    alloc: Global,
    question: &Question<'_>,
    gates: &[u32],
    size: usize,
    found: &mut Vec<bool>,
) -> Result<bool, AllocError>
    requires gates { All (λ n. n < length question.now.net.gates) gates.now }
    requires told { AreToldBefore question.now.net question.now.care gates.now found.old.items }
    requires left { length found.old.items < length gates.now }
    ensures told { IfOk result (λ told. told ≡ true → AreToldBefore question.now.net question.now.care gates.now found.new.items) }
    ensures more { IfOk result (λ told. told ≡ true → length found.old.items < length found.new.items) }
{
    let piece = piece_at(gates, found.len(), size);
    match ask_cone(alloc, question, piece)? {
        Some(told) => {
            found.extend_from_slice(&told)?;
            Ok(true)
        }
        None => Ok(false),
    }
}

/// For each of these gates whether it is unknown on care, or none where the solver gave up.
fn ask_gates(
    alloc: Global,
    question: &Question<'_>,
    gates: &[u32],
) -> Result<Option<Vec<bool>>, AllocError>
    requires { All (λ n. n < length question.now.net.gates) gates.now }
    ensures { IfOk result (λ told. IfSome told (λ found. TellEachUnknown question.now.net question.now.care gates.now found.items)) }
{
    let size = piece_size(alloc, question, gates)?;
    let mut found = Vec::new(alloc);
    while found.len() < gates.len() {
        if !ask_piece(alloc, question, gates, size, &mut found)? {
            return Ok(None);
        }
    }
    Ok(Some(found))
}

/// Marks of the gates that are unknown at some care vector, or none where the solver gave up.
pub(crate) fn unknown_gates(
    alloc: Global,
    question: &Question<'_>,
) -> Result<Option<Vec<bool>>, AllocError>
    ensures { IfOk result (λ found. IfSome found (λ marks. AreUnknownMarks question.now.net question.now.care marks.items)) }
{
    let marks = candidate_gates(alloc, question.looped(), question.settled())?;
    let gates = marked_places(alloc, &marks)?;
    let Some(found) = ask_gates(alloc, question, &gates)? else {
        return Ok(None);
    };
    Ok(Some(scatter(alloc, marks.len(), &gates, &found)?))
}

/// How many gates are marked, or none where an observed one is.
fn count_loose(net: &Netlist, observed: &[bool], unknown: &[bool]) -> Option<u32>
    requires observed { length observed.now ≡ length net.now.gates }
    requires unknown { length unknown.now ≡ length net.now.gates }
    ensures { (care : CareSet) (what : Observe) → AreMarksOf net.now (observed_signals net.now what) observed.now → AreUnknownMarks net.now care unknown.now →
        IfSome result (IsLooseNumber net.now care what) }
{
    let mut loose = 0;
    for gate in 0..net.gates() {
        if unknown[gate as usize] {
            if observed[gate as usize] {
                return None;
            }
            loose += 1;
        }
    }
    Some(loose)
}

/// How many gates are unknown on care, or none where an observed one is.
pub(crate) fn loose_number(
    alloc: Global,
    net: &Netlist,
    care: &Care,
    observe: Observe,
    unknown: &[bool],
) -> Result<Option<u32>, AllocError>
    requires { AreUnknownMarks net.now care.now unknown.now }
    ensures { IfOk result (λ found. IfSome found (IsLooseNumber net.now care.now observe)) }
{
    let observed = observed_gates(alloc, net, observe)?;
    Ok(count_loose(net, &observed, unknown))
}
