//! Whether the names of two netlists match.

ghost use Rattle.std.specs.Prelude.{◌≡◌, ◌∷◌, [], not, find, option_copied, option_map, IfOk};
ghost use Rattle.netlist.specs.Netlists.{output_names};
ghost use Rattle.netlist.specs.Faults.{first_there};
ghost use Rattle.miters.specs.Matching.{init_eq as is_same_init, latch_named, latch_name, is_input as is_input_of, is_latch as is_latch_of, has_latch as has_latch_of, is_output as is_output_of, unmatched};

use cyc_base::{Name, Sig};
use indexmap::IndexSet;
use netlist::{Init, Latch, Netlist};
use std::alloc::{AllocError, Global};

fn init_eq(one: Init, other: Init) -> bool
    ensures { result ≡ is_same_init one other }
{
    match (one, other) {
        (Init::Zero, Init::Zero) => true,
        (Init::One, Init::One) => true,
        (Init::Either, Init::Either) => true,
        _ => false,
    }
}

/// Whether an input has this name.
#[tactic(auto, using(crate::proofs::NameLemmas::input_found, crate::proofs::NameLemmas::input_behind, crate::proofs::NameLemmas::input_absent))]
fn is_input(net: &Netlist, name: &Name) -> bool
    ensures { result ≡ is_input_of net.now name.now }
{
    match net.find(name) {
        Some(signal) => signal.0 < net.inputs(),
        None => false,
    }
}

/// The latch of this name.
#[tactic(auto, using(crate::proofs::NameLemmas::latch_found, crate::proofs::NameLemmas::latch_before, crate::proofs::NameLemmas::latch_behind, crate::proofs::NameLemmas::latch_absent))]
pub(crate) fn latch_of<'a>(net: &'a Netlist, name: &Name) -> Option<&'a Latch>
    ensures { option_copied result ≡ latch_named net.now name.now }
{
    let signal = net.find(name)?;
    let first = net.inputs();
    if signal.0 < first {
        return None;
    }
    if signal.0 - first >= net.latches() {
        return None;
    }
    Some(net.latch(signal.0 - first))
}

/// Whether a latch has this name.
fn is_latch(net: &Netlist, name: &Name) -> bool
    ensures { result ≡ is_latch_of net.now name.now }
{
    latch_of(net, name).is_some()
}

/// Whether a latch has the name and the init of this one.
fn has_latch(net: &Netlist, latch: &Latch) -> bool
    ensures { result ≡ has_latch_of net.now latch.now }
{
    match latch_of(net, &latch.name) {
        Some(other) => init_eq(latch.init, other.init),
        None => false,
    }
}

/// The outputs, which are all different.
fn output_set(alloc: Global, net: &Netlist) -> Result<IndexSet<Sig>, AllocError>
    ensures { IfOk result (λ outputs. outputs.keys ≡ net.now.outputs) }
{
    let mut outputs = IndexSet::new(alloc);
    let own = net.outputs();
    for output in own {
        outputs.insert(*output)?;
    }
    Ok(outputs)
}

/// Whether an output has this name.
#[tactic(auto, using(crate::proofs::NameLemmas::output_found, crate::proofs::NameLemmas::output_absent))]
fn is_output(net: &Netlist, outputs: &IndexSet<Sig>, name: &Name) -> bool
    requires { outputs.now.keys ≡ net.now.outputs }
    ensures { result ≡ is_output_of net.now name.now }
{
    match net.find(name) {
        Some(signal) => outputs.contains(&signal),
        None => false,
    }
}

/// The first input that is none of the other netlist.
fn first_other_input<'a>(net: &'a Netlist, other: &Netlist) -> Option<&'a Name>
    ensures { option_copied result ≡ find (λ name. not (is_input_of other.now name)) net.now.inputs }
{
    for number in 0..net.inputs() {
        let name = net.name_of(Sig(number));
        if !is_input(other, name) {
            return Some(name);
        }
    }
    None
}

/// The first latch that is none of the other netlist, or starts otherwise there.
fn first_other_latch<'a>(net: &'a Netlist, other: &Netlist) -> Option<&'a Latch>
    ensures { option_copied result ≡ find (λ latch. not (has_latch_of other.now latch)) net.now.latches }
{
    for number in 0..net.latches() {
        let latch = net.latch(number);
        if !has_latch(other, latch) {
            return Some(latch);
        }
    }
    None
}

/// The first latch whose name no latch of the other netlist has.
fn first_new_latch<'a>(net: &'a Netlist, other: &Netlist) -> Option<&'a Latch>
    ensures { option_copied result ≡ find (λ latch. not (is_latch_of other.now latch.name)) net.now.latches }
{
    for number in 0..net.latches() {
        let latch = net.latch(number);
        if !is_latch(other, &latch.name) {
            return Some(latch);
        }
    }
    None
}

/// The name of the first output that is none of the other netlist, whose outputs are these.
fn first_output_missing<'a>(
    net: &'a Netlist,
    other: &Netlist,
    outputs: &IndexSet<Sig>,
) -> Option<&'a Name>
    requires { outputs.now.keys ≡ other.now.outputs }
    ensures { option_copied result ≡ find (λ name. not (is_output_of other.now name)) (output_names net.now) }
{
    let own = net.outputs();
    for output in own {
        let name = net.name_of(*output);
        if !is_output(other, outputs, name) {
            return Some(name);
        }
    }
    None
}

/// The same, by a set of the other netlist's outputs that is made here.
fn first_other_output<'a>(
    alloc: Global,
    net: &'a Netlist,
    other: &Netlist,
) -> Result<Option<&'a Name>, AllocError>
    ensures { IfOk result (λ found. option_copied found ≡ find (λ name. not (is_output_of other.now name)) (output_names net.now)) }
{
    let outputs = output_set(alloc, other)?;
    Ok(first_output_missing(net, other, &outputs))
}

/// The name of the first column that one of the netlists has alone.
fn first_other_column<'a>(a: &'a Netlist, b: &'a Netlist) -> Option<&'a Name>
    ensures { option_copied result ≡ first_there (
        find (λ name. not (is_input_of b.now name)) a.now.inputs
        ∷ find (λ name. not (is_input_of a.now name)) b.now.inputs
        ∷ option_map latch_name (find (λ latch. not (has_latch_of b.now latch)) a.now.latches)
        ∷ option_map latch_name (find (λ latch. not (is_latch_of a.now latch.name)) b.now.latches)
        ∷ []) }
{
    if let Some(name) = first_other_input(a, b) {
        return Some(name);
    }
    if let Some(name) = first_other_input(b, a) {
        return Some(name);
    }
    if let Some(latch) = first_other_latch(a, b) {
        return Some(&latch.name);
    }
    match first_new_latch(b, a) {
        Some(latch) => Some(&latch.name),
        None => None,
    }
}

/// The first name of one of the netlists that the other doesn't have in its place.
fn find_unmatched<'a>(
    alloc: Global,
    a: &'a Netlist,
    b: &'a Netlist,
) -> Result<Option<&'a Name>, AllocError>
    ensures { IfOk result (λ found. option_copied found ≡ unmatched a.now b.now) }
{
    if let Some(name) = first_other_column(a, b) {
        return Ok(Some(name));
    }
    if let Some(name) = first_other_output(alloc, a, b)? {
        return Ok(Some(name));
    }
    first_other_output(alloc, b, a)
}

/// A copy of the first name of one of the netlists that the other doesn't have in its place: of inputs, then of latches, whose
/// inits are compared too, then of outputs.
pub fn first_unmatched(alloc: Global, a: &Netlist, b: &Netlist) -> Result<Option<Name>, AllocError>
    ensures { IfOk result (λ found. found ≡ unmatched a.now b.now) }
{
    match find_unmatched(alloc, a, b)? {
        Some(name) => Ok(Some(name.copy()?)),
        None => Ok(None),
    }
}
