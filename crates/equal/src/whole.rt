//! Pairs of wires that are never apart on care, asked for over all gates.

ghost use Rattle.std.specs.Prelude.{◌≡◌, ◌<◌, true, ℕ, length, All, IfOk};
ghost use Rattle.netlist.specs.Netlists.{is_marked};
ghost use Rattle.care_sets.specs.Binding.{IsCareOf};
ghost use Rattle.netlist.specs.Pairs.{IsPairOf};
ghost use Rattle.clause_pairs.specs.Apart.{AreNeverApart};
ghost use Rattle.clause_decision.specs.Scopes.{IsScopeOf};

use care_sets::Care;
use clause_decision::Scope;
use clause_pairs::PairSearch;
use cyc_base::Items;
use loops::LoopedNetlist;
use netlist::Netlist;
use std::alloc::{AllocError, Global};
use verdict::{LOOP_NODES, known_gates, settled_loops};

/// Marks of all gates.
fn all_gates(alloc: Global, net: &Netlist) -> Result<Vec<bool>, AllocError>
    ensures width { IfOk result (λ marks. length marks.items ≡ length net.now.gates) }
    ensures all { IfOk result (λ marks. (n : ℕ) → n < length net.now.gates → is_marked marks.items n ≡ true) }
{
    vec![in alloc; true; net.gates() as usize]
}

/// The scope of all gates.
#[tactic(auto, using(inner_pairs::proofs::ScopeLemmas::all_close))]
fn whole_scope(alloc: Global, looped: &LoopedNetlist<'_>) -> Result<Scope, AllocError>
    ensures scope { IfOk result (IsScopeOf looped.now.net) }
    ensures all { IfOk result (λ scope. (n : ℕ) → n < length looped.now.net.gates → is_marked scope.gates n ≡ true) }
{
    let settled = settled_loops(alloc, looped, LOOP_NODES)?;
    let known = Items::of(known_gates(alloc, looped, &settled)?);
    let gates = Items::of(all_gates(alloc, looped.net())?);
    Ok(Scope { gates, known })
}

/// Whether at no care vector the wires of one of these pairs are 0 and 1, asked of the clauses of all gates. False says
/// nothing: the pairs may be known to be apart, or the solver gave up. Loops that are settled by themselves have one
/// variable for each gate.
///
/// The pairs are asked for in `few` conflicts of the budget each, and then, where that is too few, the hints, one by one in
/// their order, and the pairs with `many`. Hints do most where each stands behind those whose wires feed its own; nothing is
/// said of them.
///
/// The condition is that the care set is the netlist's, and that the wires of each pair and each hint are.
#[tactic(auto, using(inner_pairs::proofs::ScopeLemmas::pairs_in, inner_pairs::proofs::ScopeLemmas::hints_in))]
pub fn are_never_apart(
    alloc: Global,
    looped: &LoopedNetlist<'_>,
    care: &Care,
    search: &PairSearch<'_>,
) -> Result<bool, AllocError>
    requires care { IsCareOf looped.now.net care.now }
    requires hints { All (λ hint. IsPairOf looped.now.net hint.pair) search.now.hints.now }
    requires pairs { All (IsPairOf looped.now.net) search.now.pairs.now }
    ensures { IfOk result (λ never. never ≡ true → AreNeverApart looped.now.net care.now search.now.pairs.now) }
{
    let net = looped.net();
    let scope = whole_scope(alloc, looped)?;
    clause_pairs::are_never_apart(alloc, net, care, &scope, search)
}
