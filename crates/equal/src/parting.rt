//! Where two rails differ in a set, and the least such vector of many pairs.

ghost use Rattle.std.specs.Prelude.{◌≡◌, ◌*◌, Bool, List, length, All, IfOk, find, option_map};
ghost use Rattle.bdd_store.specs.Arena.{IsNodeOf};
ghost use Rattle.bdd_store.specs.Growth.{GrowsWithin, NoOtherCause};
ghost use Rattle.bdd_ops.specs.Least.{IsLayout, by_variable};
ghost use Rattle.cyc_base.specs.Vectors.{vectors};
ghost use Rattle.dual_rail.specs.Rails.{AreRailsOf};
ghost use Rattle.equal.specs.Sets.{is_above, differ, some_differ, AreComparedIn, HasRails, BoundsAbove, BoundsPair, BoundsPairs};

use crate::lesser::lesser;
use bdd_ops::Diagrams;
use bdd_store::{Node, StoreFault};
use diagram_decision::least_of;
use dual_rail::Rails;
use netlist::Pair;
use std::alloc::Global;

/// Two rails, and the set of vectors at which they are compared.
#[derive(Clone, Copy, Drop)]
pub struct ComparedRails {
    pub set: Node,
    pub here: Rails,
    pub there: Rails,
}

/// The least vector of the set at which the first rails are 1 and the second 0. `order` has the column of each variable.
fn least_above(
    alloc: Global,
    d: &mut Diagrams,
    order: &[u32],
    compared: ComparedRails,
) -> Result<Option<Vec<bool>>, StoreFault>
    requires layout { IsLayout d.old.vars order.now }
    requires compared { AreComparedIn d.old compared }
    ensures least { IfOk result (λ found. option_map (λ v. v.items) found ≡ find (λ v. is_above d.old compared.set compared.here compared.there (by_variable order.now v)) (vectors d.old.vars)) }
    ensures grows { GrowsWithin result d.old d.new NoOtherCause (BoundsAbove d.old compared.set compared.here compared.there) 2 }
{
    let both = d.and(compared.here.one, compared.there.zero)?;
    let node = d.and(compared.set, both)?;
    Ok(least_of(alloc, d, order, node)?)
}

/// The least vector of the set at which one of the rails is 1 and the other 0.
fn least_of_pair(
    alloc: Global,
    d: &mut Diagrams,
    order: &[u32],
    compared: ComparedRails,
) -> Result<Option<Vec<bool>>, StoreFault>
    requires layout { IsLayout d.old.vars order.now }
    requires compared { AreComparedIn d.old compared }
    ensures least { IfOk result (λ found. option_map (λ v. v.items) found ≡ find (λ v. differ d.old compared.set compared.here compared.there (by_variable order.now v)) (vectors d.old.vars)) }
    ensures grows { GrowsWithin result d.old d.new NoOtherCause (BoundsPair d.old compared.set compared.here compared.there) 4 }
{
    let turned = ComparedRails {
        set: compared.set,
        here: compared.there,
        there: compared.here,
    };
    let above = least_above(alloc, d, order, compared)?;
    let below = least_above(alloc, d, order, turned)?;
    Ok(lesser(above, below))
}

/// The least vector of a set at which the wires of some pair differ, one of them 1 and the other 0.
///
/// Each pair is asked for each direction by itself: so what is made for it is made of three functions, which bounds its
/// nodes.
pub(crate) fn least_of_pairs(
    alloc: Global,
    d: &mut Diagrams,
    order: &[u32],
    set: Node,
    rails: &[Rails],
    pairs: &[Pair],
) -> Result<Option<Vec<bool>>, StoreFault>
    requires layout { IsLayout d.old.vars order.now }
    requires set { IsNodeOf d.old set }
    requires rails { All (AreRailsOf d.old) rails.now }
    requires pairs { All (HasRails rails.now) pairs.now }
    ensures least { IfOk result (λ found. option_map (λ v. v.items) found ≡ find (λ v. some_differ d.old set rails.now pairs.now (by_variable order.now v)) (vectors d.old.vars)) }
    ensures grows { GrowsWithin result d.old d.new NoOtherCause (BoundsPairs d.old set rails.now pairs.now) (4 * length pairs.now) }
{
    let mut least = None;
    for pair in pairs {
        let compared = ComparedRails {
            set,
            here: rails[pair.here.0 as usize],
            there: rails[pair.there.0 as usize],
        };
        let found = least_of_pair(alloc, d, order, compared)?;
        least = lesser(least, found);
    }
    Ok(least)
}
