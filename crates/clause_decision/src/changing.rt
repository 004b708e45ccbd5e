//! Whether a sweep changes a cut wire on care.

ghost use Rattle.std.specs.Prelude.{◌≡◌, ◌<◌, ◌*◌, length, All, IfOk};
ghost use Rattle.ternary_clauses.specs.Rails.{AreWithin, rails_at};
ghost use Rattle.clause_queries.specs.Queries.{problem, IsReply};
ghost use Rattle.clause_decision.specs.Changes.{change_literals, TellsChange};
ghost use Rattle.clause_decision.specs.Sweepings.{IsOnCare};

use crate::question::query_of;
use crate::sweeping::Swept;
use clause_formulas::negation;
use clause_queries::{Query, Reply};
use std::alloc::{AllocError, Global};
use ternary_clauses::Rails;

/// The literal that says that a copy is known.
fn known_at(copies: &[Rails], place: usize) -> u32
    requires { place < length copies.now }
    ensures { result ≡ (rails_at copies.now place).known }
{
    copies[place].known
}

/// Asks for a model at a care vector in which the copy at this place is unknown before the last sweep, and known after it.
fn ask_change(
    alloc: Global,
    query: &mut Query,
    swept: &Swept,
    before: &[Rails],
    place: usize,
    conflicts: u64,
) -> Result<Reply, AllocError>
    requires query { query.old ≡ problem swept.now.cone.formula }
    requires care { IsOnCare swept.now }
    requires before { place < length before.now }
    requires before_within { All (AreWithin swept.now.cone.formula.variables) before.now }
    requires after { place < length swept.now.copies.items }
    requires after_within { All (AreWithin swept.now.cone.formula.variables) swept.now.copies.items }
    ensures unchanged { query.new ≡ query.old }
    ensures reply { IfOk result (IsReply (problem swept.now.cone.formula) (change_literals swept.now.cone.inside swept.now.cone.allowed before.now swept.now.copies.items place)) }
{
    let assumed = [
        swept.cone.inside,
        swept.cone.allowed,
        negation(known_at(before, place)),
        known_at(&swept.copies, place),
    ];
    query.ask(alloc, &assumed, conflicts)
}

/// Asks for a model at a care vector in which one of the copies at these places is unknown before the last sweep, and known
/// after it.
pub(crate) fn ask_changes(
    alloc: Global,
    swept: &Swept,
    before: &[Rails],
    places: &[usize],
    conflicts: u64,
) -> Result<Reply, AllocError>
    requires care { IsOnCare swept.now }
    requires before { All (λ i. i < length before.now) places.now }
    requires before_within { All (AreWithin swept.now.cone.formula.variables) before.now }
    requires after { All (λ i. i < length swept.now.copies.items) places.now }
    requires after_within { All (AreWithin swept.now.cone.formula.variables) swept.now.copies.items }
    ensures { IfOk result (TellsChange (problem swept.now.cone.formula) swept.now.cone.inside swept.now.cone.allowed before.now swept.now.copies.items places.now) }
{
    let Some(mut query) = query_of(alloc, &swept.cone.formula)? else {
        return Ok(Reply::Unknown);
    };
    for place in places {
        match ask_change(alloc, &mut query, swept, before, *place, conflicts)? {
            Reply::NoModel => {}
            reply => return Ok(reply),
        }
    }
    Ok(Reply::NoModel)
}
