//! Sets of vectors as nodes, and their least vectors.

ghost use Rattle.std.specs.Prelude.{◌≡◌, ℕ, Bool, List, IfOk, find, is_none, option_map};
ghost use Rattle.netlist.specs.Netlists.{columns as columns_of};
ghost use Rattle.bdd_store.specs.Arena.{den, IsNodeOf};
ghost use Rattle.bdd_store.specs.Growth.{Grows};
ghost use Rattle.bdd_store.specs.Subfunctions.{nodes};
ghost use Rattle.bdd_ops.specs.Least.{IsLayout, by_variable as by_variable_of};
ghost use Rattle.cyc_base.specs.Vectors.{vectors};
ghost use Rattle.netlist.specs.declared.parts.Parts.{Parts};
ghost use Rattle.diagram_decision.specs.Sets.{Tells, difference};

use bdd_ops::Diagrams;
use bdd_store::{Node, StoreFault};
use std::alloc::{AllocError, Global};

/// The vectors of the first set that aren't in the second.
pub(crate) fn minus(d: &mut Diagrams, m: Node, n: Node) -> Result<Node, StoreFault>
    requires m { IsNodeOf d.old m }
    requires n { IsNodeOf d.old n }
    ensures node { IfOk result (IsNodeOf d.new) }
    ensures function { IfOk result (λ set. (v : List Bool) → den d.new set v ≡ difference d.old m n v) }
    ensures grows { Grows result d.old d.new (nodes d.old.vars (difference d.old m n)) }
{
    d.ite(n, Node::of(false), m)
}

/// Whether a set has no vector, however the columns are laid.
pub(crate) fn is_never(d: &Diagrams, set: Node) -> bool
    requires { IsNodeOf d.now set }
    ensures laid { (columns : List ℕ) → IsLayout d.now.vars columns → result ≡ is_none (find (λ v. den d.now set (by_variable_of columns v)) (vectors d.now.vars)) }
    ensures told { (net : Parts) (test : List Bool → Bool) → d.now.vars ≡ columns_of net → Tells net d.now set test → result ≡ is_none (find test (vectors (columns_of net))) }
{
    d.store().laws();
    set == Node::of(false)
}

/// The least vector by column of a set, if it has one. `columns` has the column of each variable.
pub fn least_of(
    alloc: Global,
    d: &Diagrams,
    columns: &[u32],
    set: Node,
) -> Result<Option<Vec<bool>>, AllocError>
    requires set { IsNodeOf d.now set }
    requires columns { IsLayout d.now.vars columns.now }
    ensures { IfOk result (λ found. option_map (λ v. v.items) found ≡ find (λ v. den d.now set (by_variable_of columns.now v)) (vectors d.now.vars)) }
{
    if is_never(d, set) {
        return Ok(None);
    }
    let mut vector = vec![in alloc; false; d.store().vars() as usize]?;
    if d.least_by(set, columns, &mut vector)? {
        Ok(Some(vector))
    } else {
        Ok(None)
    }
}
