//! What is compared.

ghost use Rattle.std.specs.Prelude.{All};
ghost use Rattle.netlist.specs.Netlists.{columns};
ghost use Rattle.bdd_ops.specs.Least.{IsLayout};
ghost use Rattle.netlist.specs.Pairs.{IsPairOf};

use care_sets::Care;
use loops::LoopedNetlist;
use netlist::Pair;

/// Pairs of wires of a netlist that are compared on a care set, by diagrams.
///
/// The condition is that the order has each column once, and that the wires of each pair are the netlist's.
#[derive(Drop)]
pub(crate) struct Comparison<'a> {
    pub(crate) looped: &'a LoopedNetlist<'a>,
    pub(crate) care: &'a Care,
    /// The column that each variable stands for.
    pub(crate) order: &'a [u32],
    pub(crate) pairs: &'a [Pair],
    ghost laid: { IsLayout (columns looped.now.net) order.now },
    ghost paired: { All (IsPairOf looped.now.net) pairs.now },
}
