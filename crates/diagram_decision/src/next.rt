//! The latches' next values: as rails at the vectors of a set, and at one vector.

ghost use Rattle.std.specs.Prelude.{◌≡◌, ◌*◌, Bool, List, length, map, All, IfOk, if◌then◌else◌};
ghost use Rattle.netlist.specs.Netlists.{columns};
ghost use Rattle.bdd_store.specs.Arena.{den, IsNodeOf};
ghost use Rattle.bdd_store.specs.Growth.{GrowsWithin, NoOtherCause};
ghost use Rattle.bdd_ops.specs.Operations.{conjunction};
ghost use Rattle.cyc_base.specs.declared.trit.Trit.TheVariants.{X};
ghost use Rattle.dual_rail.specs.Rails.{AreRailsOf, value_of, values_of};
ghost use Rattle.fixpoint.specs.Orders.{laid};
ghost use Rattle.care_sets.specs.Care.{is_care_vector, is_one as is_one_of};
ghost use Rattle.refusals.specs.Refusals.{next_state};
ghost use Rattle.diagram_decision.specs.Enough.{GrowsInDecision};
ghost use Rattle.diagram_decision.specs.Next.{next_within};
ghost use Rattle.diagram_decision.specs.Sets.{AreFixed, BoundsBoth, Tells};

use crate::question::Question;
use crate::solving::Fixpoint;
use bdd_ops::Diagrams;
use bdd_store::{Node, StoreFault};
use cyc_base::{Bits, Trit};
use dual_rail::Rails;
use netlist::Netlist;
use refusals::Refusal;
use std::alloc::{AllocError, Global};
use ternary_run::{tick, trits_of};

/// Rails that are as given at the vectors of a set, and X elsewhere.
fn restricted(d: &mut Diagrams, set: Node, rails: Rails) -> Result<Rails, StoreFault>
    requires set { IsNodeOf d.old set }
    requires rails { AreRailsOf d.old rails }
    ensures rails { IfOk result (AreRailsOf d.new) }
    ensures value { IfOk result (λ r. (v : List Bool) → value_of d.new r v ≡ (if den d.old set v then value_of d.old rails v else X)) }
    ensures grows { GrowsWithin result d.old d.new NoOtherCause (BoundsBoth d.old.vars (conjunction d.old set rails.one) (conjunction d.old set rails.zero)) 2 }
{
    let one = d.and(set, rails.one)?;
    let zero = d.and(set, rails.zero)?;
    Ok(Rails { one, zero })
}

/// The rails of what the latches load, at the vectors of care: elsewhere they are X, so that what is outside of care
/// costs no nodes.
pub(crate) fn next_on(
    alloc: Global,
    d: &mut Diagrams,
    question: &Question<'_>,
    found: &Fixpoint,
) -> Result<Vec<Rails>, StoreFault>
    requires vars { d.old.vars ≡ columns question.now.net }
    requires fixed { AreFixed question.now.net d.old found.now.rails }
    requires set { Tells question.now.net d.old found.now.set (is_care_vector question.now.net question.now.care) }
    ensures width { IfOk result (λ list. length list.items ≡ length question.now.net.latches) }
    ensures rails { IfOk result (λ list. All (AreRailsOf d.new) list.items) }
    ensures values { IfOk result (λ list. (v : List Bool) → length v ≡ d.old.vars → values_of d.new list.items (laid question.now.net v) ≡ next_within question.now.net d.old found.now.set v) }
    ensures grows { GrowsInDecision result d.old d.new question.now.net question.now.care (2 * length question.now.net.latches) }
{
    let net = question.net();
    let rails = found.rails.items();
    let mut list = Vec::new(alloc);
    for number in 0..net.latches() {
        let source = rails[net.latch(number).from.0 as usize];
        let made = restricted(d, found.set, source)?;
        list.push(made)?;
    }
    Ok(list)
}

/// Whether a value is 1.
fn is_one(value: Trit) -> bool
    ensures { result ≡ is_one_of value }
{
    match value {
        Trit::One => true,
        _ => false,
    }
}

/// Which values are 1.
fn ones_of(alloc: Global, values: &[Trit]) -> Result<Vec<bool>, AllocError>
    ensures { IfOk result (λ ones. ones.items ≡ map is_one_of values.now) }
{
    values.iter().map(|value| is_one(*value)).collect(alloc)
}

/// What the latches load at a vector, by ternary simulation.
fn next_at(alloc: Global, net: &Netlist, vector: &[bool]) -> Result<Vec<bool>, AllocError>
    requires { length vector.now ≡ columns net.now }
    ensures { IfOk result (λ state. state.items ≡ next_state net.now vector.now) }
{
    let given = trits_of(alloc, vector)?;
    let (inputs, latches) = given.split_at(net.inputs() as usize);
    let values = tick(alloc, net, inputs, latches)?;
    ones_of(alloc, values.next.items())
}

/// The refusal of a vector whose next state isn't in the invariant.
///
/// The condition is that the vector has a value for each input and latch.
pub fn leaves_at(alloc: Global, net: &Netlist, vector: Vec<bool>) -> Result<Refusal, AllocError>
    requires { length vector.items ≡ columns net.now }
    ensures { IfOk result (λ refusal. refusal ≡ Refusal.Leaves vector.items (next_state net.now vector.items)) }
{
    let state = next_at(alloc, net, &vector)?;
    Ok(Refusal::Leaves {
        vector: Bits::of(vector),
        next: Bits::of(state),
    })
}
