//! A loop after some sweeps, as clauses, and whether a cut wire is unknown after them on care.

ghost use Rattle.std.specs.Prelude.{◌≡◌, ◌<◌, ◌*◌, ◌∷◌, [], ℕ, List, length, All, IfOk, OnOk};
ghost use Rattle.netlist.specs.declared.parts.Parts.{Parts};
ghost use Rattle.netlist.specs.Netlists.{IsNetlist};
ghost use Rattle.loops.specs.Cuts.{Loops};
ghost use Rattle.care_sets.specs.Binding.{IsCareOf};
ghost use Rattle.care_sets.specs.Care.{CareSet};
ghost use Rattle.clause_formulas.specs.Formulas.{IsFormula};
ghost use Rattle.ternary_clauses.specs.Rails.{AreWithin};
ghost use Rattle.clause_queries.specs.Queries.{problem, IsReply};
ghost use Rattle.clause_decision.specs.declared.scope.Scope.{Scope as TheScope};
ghost use Rattle.loop_simulation.specs.LoopsAt.{gates_in, loops_in, AreCutPlaces};
ghost use Rattle.clause_decision.specs.Scopes.{AreInScope, AreKnownOnCare, IsScopeOf};
ghost use Rattle.clause_decision.specs.Sweepings.{open_literals, AreCopies, IsAsked, IsOnCare, IsSweepable, IsSwept, IsSweptOn, SaysOpen};

use crate::cones::{Cone, cone_of};
use crate::question::query_of;
use crate::scope::Scope;
use care_sets::Care;
use clause_formulas::{Formula, negation};
use clause_queries::Reply;
use loop_simulation::LoopedBlock;
use netlist::Netlist;
use std::alloc::{AllocError, Global};
use std::mem;
use ternary_clauses::{ClausesFault, Rails, add_any, add_sweep, unknown_rails};

/// A loop after some sweeps from its cut wires, as clauses on top of a cone.
pub(crate) struct Swept {
    pub cone: Cone,
    /// The rails of the loop's gates after the last sweep.
    pub copies: Vec<Rails>,
}

impl Drop for Swept {
    fn drop(self) {
        let Swept { cone: _, copies: _ } = self;
    }
}

/// The literal that says that a copy is unknown.
fn open_of(copies: &[Rails], place: usize) -> u32
    requires { place < length copies.now }
    ensures { result ∷ [] ≡ open_literals copies.now (place ∷ []) }
{
    negation(copies[place].known)
}

/// The literals that say that the copies at these places are unknown.
fn literals_of(alloc: Global, copies: &[Rails], places: &[usize]) -> Result<Vec<u32>, AllocError>
    requires { All (λ i. i < length copies.now) places.now }
    ensures { IfOk result (λ literals. literals.items ≡ open_literals copies.now places.now) }
{
    places
        .iter()
        .map(|place| open_of(copies, *place))
        .collect(alloc)
}

/// Adds a literal that says whether the copy at one of these places is unknown.
fn add_open(
    alloc: Global,
    formula: &mut Formula,
    copies: &[Rails],
    places: &[usize],
) -> Result<u32, ClausesFault>
    requires formula { IsFormula formula.old }
    requires copies { All (AreWithin formula.old.variables) copies.now }
    requires places { All (λ i. i < length copies.now) places.now }
    requires some { 0 < length places.now }
    ensures { IfOk result (SaysOpen formula.old formula.new copies.now places.now) }
{
    let literals = literals_of(alloc, copies, places)?;
    let sums = add_any(alloc, formula, &literals)?;
    Ok(sums[places.len() - 1])
}

/// The loop before the first sweep: its gates are unknown.
pub(crate) fn unswept(
    alloc: Global,
    net: &Netlist,
    care: &Care,
    scope: &Scope,
    gates: &[u32],
) -> Result<Swept, ClausesFault>
    requires care { IsCareOf net.now care.now }
    requires scope { IsScopeOf net.now scope.now }
    ensures { (loops : Loops) → IfOk result (λ s. IsSwept net.now care.now scope.now.gates loops gates.now s 0) }
{
    let cone = cone_of(alloc, net, care, scope)?;
    let copies = vec![in alloc; unknown_rails(); gates.len()]?;
    Ok(Swept { cone, copies })
}

/// One sweep more. The answer has the copies before it.
pub(crate) fn sweep_on(
    alloc: Global,
    swept: &mut Swept,
    block: &LoopedBlock<'_>,
) -> Result<Vec<Rails>, ClausesFault>
    requires { IsSweepable block.now.net (gates_in block.now) swept.old }
    ensures sweepable { OnOk result (IsSweepable block.now.net (gates_in block.now) swept.new) }
    ensures before { IfOk result (λ before. AreCopies (gates_in block.now) swept.new before.items) }
    ensures swept { (care : CareSet) (scope : TheScope) (k : ℕ) → IsScopeOf block.now.net scope → AreInScope block.now.net scope (gates_in block.now) →
        IsSwept block.now.net care scope.gates (loops_in block.now) (gates_in block.now) swept.old k →
        IfOk result (λ before. IsSweptOn block.now.net care scope.gates (loops_in block.now) (gates_in block.now) before.items swept.new k) }
{
    let after = add_sweep(
        alloc,
        &mut swept.cone.formula,
        block.looped(),
        block.number(),
        &swept.cone.rails,
        &swept.copies,
    )?;
    Ok(mem::replace(&mut swept.copies, after))
}

/// Asks for a model at a care vector in which a literal is true.
fn ask(alloc: Global, swept: &Swept, literal: u32, conflicts: u64) -> Result<Reply, AllocError>
    requires care { IsOnCare swept.now }
    requires literal { literal < 2 * swept.now.cone.formula.variables }
    ensures { IfOk result (IsReply (problem swept.now.cone.formula) (swept.now.cone.inside ∷ swept.now.cone.allowed ∷ literal ∷ [])) }
{
    let Some(mut query) = query_of(alloc, &swept.cone.formula)? else {
        return Ok(Reply::Unknown);
    };
    let assumed = [swept.cone.inside, swept.cone.allowed, literal];
    query.ask(alloc, &assumed, conflicts)
}

/// Asks for a model at a care vector in which one of the copies at these places is unknown.
pub(crate) fn ask_open(
    alloc: Global,
    swept: &mut Swept,
    places: &[usize],
    conflicts: u64,
) -> Result<Reply, ClausesFault>
    requires formula { IsFormula swept.old.cone.formula }
    requires care { IsOnCare swept.old }
    requires copies { All (AreWithin swept.old.cone.formula.variables) swept.old.copies.items }
    requires places { All (λ i. i < length swept.old.copies.items) places.now }
    requires some { 0 < length places.now }
    ensures rails { swept.new.cone.rails ≡ swept.old.cone.rails }
    ensures asked { (net : Parts) (care : CareSet) (scope : TheScope) (loops : Loops) (gates : List ℕ) (k : ℕ) → IsNetlist net → IsScopeOf net scope → AreInScope net scope gates →
        AreKnownOnCare net care → AreCutPlaces loops.cut gates places.now → IsSwept net care scope.gates loops gates swept.old k → IfOk result (IsAsked net care scope.gates loops gates swept.new k) }
{
    let literal = add_open(alloc, &mut swept.cone.formula, &swept.copies, places)?;
    Ok(ask(alloc, swept, literal, conflicts)?)
}
