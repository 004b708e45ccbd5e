//! Refusals, tried on their vectors by ternary simulation.

ghost use Rattle.std.specs.Prelude.{◌≡◌, ◌+◌, ◌++◌, ◌↔◌, ◌<◌, IfOk, IsTrue, length, map, zip, take, drop};
ghost use Rattle.std.specs.List.{list_all};
ghost use Rattle.cyc_base.specs.Values.{bits};
ghost use Rattle.netlist.specs.Fixpoint.{wire as wire_of, next as next_values};
ghost use Rattle.netlist.specs.Netlists.{count, columns};
ghost use Rattle.care_sets.specs.Care.{is_care_vector as is_care_vector_of};
ghost use Rattle.care_sets.specs.Binding.{IsCareOf};
ghost use Rattle.refusals.specs.Refusals.{is_value, may_start as may_start_with, is_initial as is_initial_state, is_x as is_unknown, is_undetermined as is_undetermined_at, IsAt, IsStepTo, IsRefusalOf, IsOutside, IsUnknownAt, LeavesTo, Proves};

use crate::Refusal;
use care_sets::Care;
use cyc_base::{Sig, Trit};
use netlist::{Init, Netlist};
use std::alloc::{AllocError, Global};
use ternary_run::{settle_at, tick, trits_of};

/// Whether a latch may start with this value.
fn may_start(init: Init, value: bool) -> bool
    ensures { result ≡ may_start_with init value }
{
    match init {
        Init::Zero => !value,
        Init::One => value,
        Init::Either => true,
    }
}

/// Whether the inits permit this state.
fn is_initial(net: &Netlist, state: &[bool]) -> bool
    requires { length state.now ≡ length net.now.latches }
    ensures { result ≡ is_initial_state net.now state.now }
{
    for number in 0..net.latches() {
        if !may_start(net.latch(number).init, state[number as usize]) {
            return false;
        }
    }
    true
}

fn is_x(value: Trit) -> bool
    ensures { result ≡ is_unknown value }
{
    match value {
        Trit::X => true,
        _ => false,
    }
}

/// The value of a signal.
fn value_of(values: &[Trit], signal: Sig) -> Trit
    requires { signal.0 < length values.now }
    ensures { result ≡ wire_of values.now signal }
{
    values[signal.0 as usize]
}

fn is_bit(value: Trit, bit: bool) -> bool
    ensures { result ≡ is_value value bit }
{
    match value {
        Trit::Zero => !bit,
        Trit::One => bit,
        Trit::X => false,
    }
}

fn each_is_bit(values: &[Trit], state: &[bool]) -> bool
    ensures { result ≡ list_all (λ p. is_value p.0 p.1) (zip values.now state.now) }
{
    values
        .iter()
        .zip(state)
        .all(|(value, bit)| is_bit(*value, *bit))
}

/// Whether the values are known, and these bits.
#[tactic(auto, using(crate::proofs::ShowingLemmas::are_bits_decides))]
fn are_bits(values: &[Trit], state: &[bool]) -> bool
    requires { length values.now ≡ length state.now }
    ensures { IsTrue result ↔ (values.now ≡ bits state.now) }
{
    each_is_bit(values, state)
}

/// Whether a vector counts.
///
/// The condition is that the care set is the netlist's, and that the vector has a value for each input and latch.
#[tactic(auto, using(care_sets::proofs::CareLemmas::vectors_serve_assume, care_sets::proofs::CareLemmas::states_serve_invariant))]
pub fn is_care_vector(
    alloc: Global,
    net: &Netlist,
    care: &Care,
    vector: &[bool],
) -> Result<bool, AllocError>
    requires care { IsCareOf net.now care.now }
    requires width { length vector.now ≡ columns net.now }
    ensures { IfOk result (λ counts. counts ≡ is_care_vector_of net.now care.now vector.now) }
{
    let (inputs, latches) = vector.split_at(net.inputs() as usize);
    if !care.state_in(alloc, latches)? {
        return Ok(false);
    }
    care.allows(alloc, inputs, latches)
}

/// Whether a wire is unknown in the fixpoint at a vector.
fn is_undetermined(
    alloc: Global,
    net: &Netlist,
    vector: &[bool],
    wire: Sig,
) -> Result<bool, AllocError>
    requires width { length vector.now ≡ columns net.now }
    requires wire { wire.0 < count net.now }
    ensures { IfOk result (λ unknown. unknown ≡ is_undetermined_at net.now wire vector.now) }
{
    let wires = settle_at(alloc, net, vector)?;
    Ok(is_x(value_of(&wires, wire)))
}

/// Whether the latches load these values at a vector.
fn leads_to(
    alloc: Global,
    net: &Netlist,
    vector: &[bool],
    state: &[bool],
) -> Result<bool, AllocError>
    requires width { length vector.now ≡ columns net.now }
    requires latches { length state.now ≡ length net.now.latches }
    ensures { IfOk result (λ leads. IsTrue leads ↔ (next_values net.now (bits vector.now) ≡ bits state.now)) }
{
    let given = trits_of(alloc, vector)?;
    let (inputs, latches) = given.split_at(net.inputs() as usize);
    let values = tick(alloc, net, inputs, latches)?;
    Ok(are_bits(values.next.items(), state))
}

/// Whether the inits permit a state that isn't in the invariant.
#[tactic(auto, using(crate::proofs::ShowingLemmas::outside_decides, care_sets::proofs::CareLemmas::states_serve_invariant))]
fn is_outside(alloc: Global, net: &Netlist, care: &Care, state: &[bool]) -> Result<bool, AllocError>
    requires care { IsCareOf net.now care.now }
    requires width { length state.now ≡ length net.now.latches }
    ensures { IfOk result (λ shown. IsTrue shown ↔ IsOutside net.now care.now state.now) }
{
    let inside = care.state_in(alloc, state)?;
    Ok(is_initial(net, state) && !inside)
}

/// Whether a vector counts, and the wire is unknown there.
#[tactic(auto, using(crate::proofs::ShowingLemmas::unknown_decides))]
fn is_unknown_at(
    alloc: Global,
    net: &Netlist,
    care: &Care,
    vector: &[bool],
    wire: Sig,
) -> Result<bool, AllocError>
    requires care { IsCareOf net.now care.now }
    requires at { IsAt net.now vector.now wire }
    ensures { IfOk result (λ shown. IsTrue shown ↔ IsUnknownAt net.now care.now vector.now wire) }
{
    let counts = is_care_vector(alloc, net, care, vector)?;
    let unknown = is_undetermined(alloc, net, vector, wire)?;
    Ok(counts && unknown)
}

/// Whether a vector counts, and leads to a state that isn't in the invariant.
#[tactic(auto, using(crate::proofs::ShowingLemmas::leaves_decides, care_sets::proofs::CareLemmas::states_serve_invariant))]
fn leaves_to(
    alloc: Global,
    net: &Netlist,
    care: &Care,
    vector: &[bool],
    state: &[bool],
) -> Result<bool, AllocError>
    requires care { IsCareOf net.now care.now }
    requires step { IsStepTo net.now vector.now state.now }
    ensures { IfOk result (λ shown. IsTrue shown ↔ LeavesTo net.now care.now vector.now state.now) }
{
    let counts = is_care_vector(alloc, net, care, vector)?;
    let leads = leads_to(alloc, net, vector, state)?;
    let inside = care.state_in(alloc, state)?;
    Ok(counts && leads && !inside)
}

/// Whether a refusal shows what it says, by ternary simulation of its vector: a permitted state outside the
/// invariant, a care vector on which the wire is unknown, or a care vector whose next state is this one,
/// known and outside the invariant. `EmptyCare` has no vector that shows it.
pub fn shows(
    alloc: Global,
    net: &Netlist,
    care: &Care,
    refusal: &Refusal,
) -> Result<bool, AllocError>
    requires care { IsCareOf net.now care.now }
    requires refusal { IsRefusalOf net.now refusal.now }
    ensures { IfOk result (λ shown. IsTrue shown ↔ Proves net.now care.now refusal.now) }
{
    match refusal {
        Refusal::Initial { state } => is_outside(alloc, net, care, state.items()),
        Refusal::EmptyCare => Ok(false),
        Refusal::Undetermined { vector, wire } => {
            is_unknown_at(alloc, net, care, vector.items(), *wire)
        }
        Refusal::Leaves { vector, next } => {
            leaves_to(alloc, net, care, vector.items(), next.items())
        }
    }
}
