//! The rails of a cover's function, from those of its pins.
ghost use Rattle.std.specs.Prelude.{◌≡◌, ◌*◌, ◌<◌, Bool, false, List, length, All, IfOk};
ghost use Rattle.bdd_store.specs.Arena.{Arena, index, is_marked, den, IsNodeOf, IsBranching};
ghost use Rattle.bdd_store.specs.Growth.{GrowsWithin, NoOtherCause, IsPartAt};
ghost use Rattle.cover_logic.specs.Covers.{Cover};
ghost use Rattle.cover_logic.specs.Extensions.{exact, ext};
ghost use Rattle.dual_rail.specs.Rails.{AreRailsOf, value_of, values_of};
ghost use Rattle.dual_rail.specs.Local.{Local, function, local_size, IsDiagramOf};
ghost use Rattle.dual_rail.specs.Lifts.{IsFork, IsLift, IsTable};
ghost use Rattle.dual_rail.specs.WorkingLists.{BoundsEach, IsExtended};

use crate::diagram::LocalDiagram;
use crate::rail::{Rails, rails_of};
use bdd_ops::Diagrams;
use bdd_store::{Node, StoreFault};
use std::alloc::Global;

/// What the rails of a node are selected from: those of its pin, and those of its branches.
#[derive(Clone, Copy)]
pub struct Fork {
    pub pin: Rails,
    pub hi: Rails,
    pub lo: Rails,
}

// The rails of a node whose unmarked one stands in the table: those of a complement are exchanged.
fn rails_at(table: &[Rails], node: Node) -> Rails
    requires { index node < length table.now }
    ensures { (l : Local) (s : Arena) (pins : List Rails) → IsTable l s pins table.now → IsLift s pins (den l.store node) result }
{
    let rails = table[node.index() as usize];
    if node.is_marked() {
        rails.complement()
    } else {
        rails
    }
}

// The rails of earlier nodes without marks stand in a table by their indices.
fn fork_at(local: &LocalDiagram, pins: &[Rails], table: &[Rails], node: Node) -> Fork
    requires node { IsNodeOf local.now.store node }
    requires branching { IsBranching node }
    requires at { length table.now ≡ index node }
    requires pins { length pins.now ≡ local.now.pins }
    ensures fork { (s : Arena) → IsTable local.now s pins.now table.now → All (AreRailsOf s) pins.now → IsFork s pins.now (den local.now.store node) result }
    ensures part { IsPartAt local.now.pins (function local.now) local.now.store node }
{
    let store = local.store();
    let pin = pins[store.top(node) as usize];
    let hi = rails_at(table, store.hi(node));
    let lo = rails_at(table, store.lo(node));
    store.laws();
    Fork { pin, hi, lo }
}

// The rails of one node.
fn lift_node(
    d: &mut Diagrams,
    local: &LocalDiagram,
    pins: &[Rails],
    table: &[Rails],
    node: Node,
) -> Result<Rails, StoreFault>
    requires node { IsNodeOf local.now.store node }
    requires branching { IsBranching node }
    requires unmarked { is_marked node ≡ false }
    requires table { IsTable local.now d.old pins.now table.now }
    requires at { length table.now ≡ index node }
    requires pins { length pins.now ≡ local.now.pins }
    requires rails { All (AreRailsOf d.old) pins.now }

    ensures lift { IfOk result (IsLift d.new pins.now (den local.now.store node)) }
    ensures grows { GrowsWithin result d.old d.new NoOtherCause (BoundsEach d.old.vars (IsExtended d.old pins.now (function local.now))) 2 }
{
    let fork = fork_at(local, pins, table, node);
    let one = d.select(fork.pin.one, fork.pin.zero, fork.hi.one, fork.lo.one)?;
    let zero = d.select(fork.pin.one, fork.pin.zero, fork.hi.zero, fork.lo.zero)?;
    Ok(Rails { one, zero })
}

/// The rails of the exact ternary extension of a cover's function, on the values of the pins (Malik 1994). It
/// leaves every earlier node its function, after a refusal too.
///
/// Let w be at least the number of subfunctions of each function that says where the cover's function, with some
/// first pins fixed, is surely 1 or surely 0. Then it adds at most two times w nodes for each node of the cover's
/// function, and `Full` comes only where so many more would be over the limit.
pub fn lift(
    alloc: Global,
    d: &mut Diagrams,
    local: &LocalDiagram,
    pins: &[Rails],
) -> Result<Rails, StoreFault>
    requires pins { length pins.now ≡ local.now.pins }
    requires rails { All (AreRailsOf d.old) pins.now }

    ensures rails { IfOk result (AreRailsOf d.new) }
    ensures value { IfOk result (λ r. (bits : List Bool) → value_of d.new r bits ≡ exact (function local.now) (values_of d.old pins.now bits)) }
    ensures cover { (cover : Cover) → IsDiagramOf local.now cover → IfOk result (λ r. (bits : List Bool) → value_of d.new r bits ≡ ext cover (values_of d.old pins.now bits)) }
    ensures grows { GrowsWithin result d.old d.new NoOtherCause (BoundsEach d.old.vars (IsExtended d.old pins.now (function local.now))) (2 * local_size local.now) }
{
    let Ok(mut table) = vec![in alloc; rails_of(true)] else {
        return Err(StoreFault::Memory);
    };
    let top = local.top();
    let store = local.store();
    store.laws();
    for position in 0..store.count() {
        let rails = lift_node(d, local, pins, &table, store.at(position))?;
        if table.push(rails).is_err() {
            return Err(StoreFault::Memory);
        }
    }
    Ok(rails_at(&table, top))
}
