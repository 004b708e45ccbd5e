//! The vectors whose states the inits permit.

ghost use Rattle.std.specs.Prelude.{◌≡◌, Bool, List, IfOk};
ghost use Rattle.netlist.specs.Netlists.{columns};
ghost use Rattle.bdd_store.specs.Arena.{Arena, den, IsNodeOf};
ghost use Rattle.bdd_store.specs.Growth.{GrowsWithin, NoOtherCause};
ghost use Rattle.cyc_base.specs.Values.{bit};
ghost use Rattle.dual_rail.specs.Rails.{AreRailsOf, value_of};
ghost use Rattle.refusals.specs.Refusals.{may_start as may_start_with};
ghost use Rattle.fixpoint.specs.Columns.{AreColumns};
ghost use Rattle.fixpoint.specs.Orders.{laid, order as order_of};
ghost use Rattle.diagram_decision.specs.Sets.{Tells, starts, BoundsStarts};

use bdd_ops::Diagrams;
use bdd_store::{Node, StoreFault};
use dual_rail::Rails;
use netlist::{Init, Netlist};

/// The vectors at which a latch may start with the value of its column.
fn may_start_on(init: Init, column: Rails) -> Node
    ensures node { (a : Arena) → AreRailsOf a column → IsNodeOf a result }
    ensures value { (a : Arena) (b : Bool) (v : List Bool) → AreRailsOf a column → value_of a column v ≡ bit b → den a result v ≡ may_start_with init b }
{
    match init {
        Init::Zero => column.zero,
        Init::One => column.one,
        Init::Either => Node::of(true),
    }
}

/// The vectors whose states the inits permit. The latches are taken from the last variable to the first, so that
/// each is put above those before it.
pub(crate) fn starts_on(
    d: &mut Diagrams,
    net: &Netlist,
    order: &[u32],
    rails: &[Rails],
) -> Result<Node, StoreFault>
    requires vars { d.old.vars ≡ columns net.now }
    requires order { order.now ≡ order_of net.now }
    requires columns { AreColumns d.old (order_of net.now) rails.now }
    ensures starts { IfOk result (λ set. Tells net.now d.new set (starts net.now)) }
    ensures grows { GrowsWithin result d.old d.new NoOtherCause (BoundsStarts net.now) (columns net.now) }
{
    let first = net.inputs();
    let mut set = Node::of(true);
    for variable in (0..net.columns()).rev() {
        let column = order[variable as usize];
        if column >= first {
            let latch = may_start_on(net.latch(column - first).init, rails[column as usize]);
            set = d.and(latch, set)?;
        }
    }
    Ok(set)
}
