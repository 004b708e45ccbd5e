//! Whether the invariant is one: whether a next state leaves it.

ghost use Rattle.std.specs.Prelude.{IfOk};
ghost use Rattle.netlist.specs.Netlists.{columns as columns_of};
ghost use Rattle.refusals.specs.Tests.{LoadsAreKnown};
ghost use Rattle.clause_queries.specs.Vectors.{IsFirstOf};
ghost use Rattle.refusals.specs.Tests.{is_leaving};
ghost use Rattle.verdict.specs.Invariance.{IsInvariance};

use crate::question::Question;
use crate::scopes::{drivers_read, scope_of};
use care_sets::Care;
use clause_decision::{Found, least_leaving};
use diagram_decision::leaves_at;
use netlist::Netlist;
use refusals::Refusal;
use std::alloc::{AllocError, Global};

/// Whether a next state leaves the invariant.
#[derive(Drop)]
pub enum Invariance {
    /// No care vector's next state does.
    Stays,
    /// That of a care vector does: the refusal of the least one.
    Leaves(Refusal),
    /// The solver gave up.
    Undecided,
}

/// What the least vector of care whose next state isn't in the invariant tells, as it was found.
fn invariance_by(
    alloc: Global,
    net: &Netlist,
    care: &Care,
    found: Found,
) -> Result<Invariance, AllocError>
    requires { IsFirstOf (is_leaving net.now care.now) (columns_of net.now) found }
    ensures { IfOk result (IsInvariance net.now care.now) }
{
    match found {
        Found::Least(vector) => Ok(Invariance::Leaves(leaves_at(alloc, net, vector)?)),
        Found::NoVector => Ok(Invariance::Stays),
        Found::Unknown => Ok(Invariance::Undecided),
    }
}

/// Whether a next state leaves an invariant, asked of the clauses of what the latches load that it reads.
fn ask_invariance(alloc: Global, question: &Question<'_>) -> Result<Invariance, AllocError>
    requires { LoadsAreKnown question.now.net question.now.care }
    ensures { IfOk result (IsInvariance question.now.net question.now.care) }
{
    let net = question.net();
    let care = question.care();
    let drivers = drivers_read(alloc, net, care)?;
    let scope = scope_of(alloc, question, &drivers)?;
    let found = least_leaving(alloc, net, care, &scope, question.conflicts())?;
    invariance_by(alloc, net, care, found)
}

/// Whether a care vector's next state isn't in the invariant, where on care all that latches load is known.
pub(crate) fn invariance_of(
    alloc: Global,
    question: &Question<'_>,
) -> Result<Invariance, AllocError>
    requires { LoadsAreKnown question.now.net question.now.care }
    ensures { IfOk result (IsInvariance question.now.net question.now.care) }
{
    match question.care().invariant() {
        Some(_) => ask_invariance(alloc, question),
        None => Ok(Invariance::Stays),
    }
}
