//! The parts of acceptance: where one fails, its refusal.

ghost use Rattle.std.specs.Prelude.{◌≡◌, ◌*◌, ◌<◌, Bool, List, IfOk, drop, find, length, option_map};
ghost use Rattle.bdd_store.specs.Arena.{den, IsNodeOf};
ghost use Rattle.bdd_store.specs.Growth.{Grows, GrowsWithin, NoOtherCause};
ghost use Rattle.bdd_store.specs.Subfunctions.{nodes};
ghost use Rattle.cyc_base.specs.Vectors.{vectors};
ghost use Rattle.care_sets.specs.Care.{is_care_vector};
ghost use Rattle.netlist.specs.Netlists.{IsNetlist, columns};
ghost use Rattle.refusals.specs.Refusals.{initial_refusal as initial_refusal_of, undetermined_refusal, leaves_refusal};
ghost use Rattle.diagram_decision.specs.Costs.{leaving_cost};
ghost use Rattle.diagram_decision.specs.Enough.{GrowsInDecision};
ghost use Rattle.refusals.specs.Tests.{LoadsAreKnown};
ghost use Rattle.refusals.specs.Tests.{is_unknown_at};
ghost use Rattle.diagram_decision.specs.Judgements.{IsGateVerdict};
ghost use Rattle.diagram_decision.specs.Sets.{Tells, BoundsBoth, AreFixed, difference, unknown_in, starts as starts_in, has_state_inside};

use crate::care::invariant_on;
use crate::gate_verdict::GateVerdict;
use crate::next::{leaves_at, next_on};
use crate::observing::observed_gates;
use crate::question::Question;
use crate::sets::{is_never, least_of, minus};
use crate::solving::Fixpoint;
use bdd_ops::Diagrams;
use bdd_store::{Node, StoreFault};
use cyc_base::Bits;
use dual_rail::Rails;
use refusals::Refusal;
use std::alloc::{AllocError, Global};

/// The least vector of a set, by column.
fn least_in(
    alloc: Global,
    d: &Diagrams,
    question: &Question<'_>,
    set: Node,
) -> Result<Option<Vec<bool>>, AllocError>
    requires vars { d.now.vars ≡ columns question.now.net }
    requires set { IsNodeOf d.now set }
    ensures { (test : List Bool → Bool) → Tells question.now.net d.now set test → IfOk result (λ found. option_map (λ v. v.items) found ≡ find test (vectors (columns question.now.net))) }
{
    least_of(alloc, d, question.order(), set)
}

/// The values of the latches, where `first` is the column of the first.
fn state_of(alloc: Global, first: usize, vector: &[bool]) -> Result<Vec<bool>, AllocError>
    ensures { IfOk result (λ state. state.items ≡ drop first vector.now) }
{
    vector.iter().skip(first).copied().collect(alloc)
}

/// The least state that the inits permit and that isn't in the invariant, as a refusal. `starts` are the
/// vectors of permitted states, and `inside` those of states in the invariant.
pub(crate) fn initial_refusal(
    alloc: Global,
    d: &mut Diagrams,
    question: &Question<'_>,
    starts: Node,
    inside: Node,
) -> Result<Option<Refusal>, StoreFault>
    requires vars { d.old.vars ≡ columns question.now.net }
    requires starts { Tells question.now.net d.old starts (starts_in question.now.net) }
    requires inside { Tells question.now.net d.old inside (has_state_inside question.now.net question.now.care) }
    ensures refusal { IfOk result (λ found. found ≡ initial_refusal_of question.now.net question.now.care) }
    ensures grows { Grows result d.old d.new (nodes d.old.vars (difference d.old starts inside)) }
{
    let outside = minus(d, starts, inside)?;
    let Some(vector) = least_in(alloc, d, question, outside)? else {
        return Ok(None);
    };
    let first = question.net().inputs();
    let state = state_of(alloc, first as usize, &vector)?;
    Ok(Some(Refusal::Initial {
        state: Bits::of(state),
    }))
}

/// The vectors of a set on which these rails are unknown.
pub(crate) fn unknown_on(d: &mut Diagrams, set: Node, rails: Rails) -> Result<Node, StoreFault>
    requires set { IsNodeOf d.old set }
    requires one { IsNodeOf d.old rails.one }
    requires zero { IsNodeOf d.old rails.zero }
    ensures node { IfOk result (IsNodeOf d.new) }
    ensures unknown { IfOk result (λ found. (v : List Bool) → den d.new found v ≡ unknown_in d.old set rails v) }
    ensures grows { GrowsWithin result d.old d.new NoOtherCause (BoundsBoth d.old.vars (difference d.old set rails.one) (unknown_in d.old set rails)) 2 }
{
    let open = minus(d, set, rails.one)?;
    minus(d, open, rails.zero)
}

/// The vectors of care on which a gate is unknown.
fn gate_unknown(
    d: &mut Diagrams,
    question: &Question<'_>,
    found: &Fixpoint,
    gate: u32,
) -> Result<Node, StoreFault>
    requires vars { d.old.vars ≡ columns question.now.net }
    requires fixed { AreFixed question.now.net d.old found.now.rails }
    requires set { Tells question.now.net d.old found.now.set (is_care_vector question.now.net question.now.care) }
    requires gate { gate < length question.now.net.gates }
    ensures told { IfOk result (λ set. Tells question.now.net d.new set (is_unknown_at question.now.net question.now.care gate)) }
    ensures grows { GrowsInDecision result d.old d.new question.now.net question.now.care 2 }
{
    let wire = question.net().gate_sig(gate);
    unknown_on(d, found.set, found.rails.items()[wire.0 as usize])
}

/// The first observed gate that is unknown at a vector of care, with the least such vector, as a refusal; or how many
/// gates are unknown at some, where none of these is observed.
pub(crate) fn verdict_of_gates(
    alloc: Global,
    d: &mut Diagrams,
    question: &Question<'_>,
    found: &Fixpoint,
) -> Result<GateVerdict, StoreFault>
    requires vars { d.old.vars ≡ columns question.now.net }
    requires fixed { AreFixed question.now.net d.old found.now.rails }
    requires set { Tells question.now.net d.old found.now.set (is_care_vector question.now.net question.now.care) }
    ensures gates { IfOk result (IsGateVerdict (undetermined_refusal question.now.net question.now.care question.now.what) question.now.net question.now.care) }
    ensures valid { IsNetlist question.now.net }
    ensures grows { GrowsInDecision result d.old d.new question.now.net question.now.care (2 * length question.now.net.gates) }
{
    let net = question.net();
    let observed = observed_gates(alloc, net, question.observe())?;
    let mut loose = 0;
    for gate in 0..net.gates() {
        let unknown = gate_unknown(d, question, found, gate)?;
        if observed[gate as usize] {
            if let Some(vector) = least_in(alloc, d, question, unknown)? {
                return Ok(GateVerdict::Refused(Refusal::Undetermined {
                    vector: Bits::of(vector),
                    wire: net.gate_sig(gate),
                }));
            }
        } else if !is_never(d, unknown) {
            loose += 1;
        }
    }
    Ok(GateVerdict::Determined { loose })
}

/// The least vector of care whose next state isn't in the invariant, as a refusal. What the latches load is known on
/// care.
pub(crate) fn leaves(
    alloc: Global,
    d: &mut Diagrams,
    question: &Question<'_>,
    found: &Fixpoint,
) -> Result<Option<Refusal>, StoreFault>
    requires vars { d.old.vars ≡ columns question.now.net }
    requires fixed { AreFixed question.now.net d.old found.now.rails }
    requires set { Tells question.now.net d.old found.now.set (is_care_vector question.now.net question.now.care) }
    requires loads { LoadsAreKnown question.now.net question.now.care }
    ensures refusal { IfOk result (λ found. found ≡ leaves_refusal question.now.net question.now.care) }
    ensures grows { GrowsInDecision result d.old d.new question.now.net question.now.care (leaving_cost question.now.net question.now.care) }
{
    let net = question.net();
    let next = next_on(alloc, d, question, found)?;
    let inside = invariant_on(alloc, d, question.care(), net.inputs(), &next)?;
    let outside = minus(d, found.set, inside)?;
    let Some(vector) = least_in(alloc, d, question, outside)? else {
        return Ok(None);
    };
    Ok(Some(leaves_at(alloc, net, vector)?))
}
