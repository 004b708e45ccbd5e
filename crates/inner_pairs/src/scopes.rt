//! The scope of all gates of a netlist.

ghost use Rattle.std.specs.Prelude.{◌≡◌, ◌<◌, ℕ, true, length, IfOk};
ghost use Rattle.netlist.specs.Netlists.{is_marked};
ghost use Rattle.clause_decision.specs.Scopes.{IsScopeOf};

use clause_decision::Scope;
use cyc_base::Items;
use netlist::Netlist;
use std::alloc::{AllocError, Global};

/// The same mark for each gate.
fn marks_of_gates(alloc: Global, net: &Netlist, mark: bool) -> Result<Vec<bool>, AllocError>
    ensures width { IfOk result (λ marks. length marks.items ≡ length net.now.gates) }
    ensures each { IfOk result (λ marks. (n : ℕ) → n < length net.now.gates → is_marked marks.items n ≡ mark) }
{
    vec![in alloc; mark; net.gates() as usize]
}

/// The scope of all gates. It is said of none that it is known at each vector: unit clauses say so of those that no loop
/// feeds.
#[tactic(auto, using(crate::proofs::ScopeLemmas::all_close, crate::proofs::ScopeLemmas::none_known))]
pub fn whole_scope(alloc: Global, net: &Netlist) -> Result<Scope, AllocError>
    ensures scope { IfOk result (IsScopeOf net.now) }
    ensures all { IfOk result (λ scope. (n : ℕ) → n < length net.now.gates → is_marked scope.gates n ≡ true) }
{
    let known = Items::of(marks_of_gates(alloc, net, false)?);
    let gates = Items::of(marks_of_gates(alloc, net, true)?);
    Ok(Scope { gates, known })
}
