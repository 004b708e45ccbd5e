//! Where two netlists differ at a vector.

ghost use Rattle.std.specs.Prelude.{◌≡◌, false, Bool, List, length, map, position, IfOk, slice_index_or};
ghost use Rattle.cyc_base.specs.Values.{bits};
ghost use Rattle.netlist.specs.Netlists.{columns};
ghost use Rattle.netlist.specs.Fixpoint.{wire, fix};
ghost use Rattle.miters.specs.Differences.{are_different as are_other, by_name as by_name_of, at_difference as at_difference_of, output_pairs as output_pairs_of, latch_pairs as latch_pairs_of};
ghost use Rattle.miters.specs.Places.{answer_at};

use crate::answer::Answer;
use crate::pairs::{find_columns, latch_pairs, output_pairs};
use cyc_base::{Bits, Sig, Trit};
use netlist::{Netlist, Pair};
use std::alloc::{AllocError, Global};
use ternary_run::settle_at;

fn are_different(one: Trit, other: Trit) -> bool
    ensures { result ≡ are_other one other }
{
    match (one, other) {
        (Trit::Zero, Trit::Zero) => false,
        (Trit::One, Trit::One) => false,
        (Trit::X, Trit::X) => false,
        _ => true,
    }
}

/// The value of a signal, X where there is none.
pub fn value_of(values: &[Trit], signal: Sig) -> Trit
    ensures { result ≡ wire values.now signal }
{
    match values.get(signal.0 as usize) {
        Some(value) => *value,
        None => Trit::X,
    }
}

/// The first pair whose wires have different values.
fn first_different(here: &[Trit], there: &[Trit], pairs: &[Pair]) -> Option<usize>
    ensures { result ≡ position (λ pair. are_other (wire here.now pair.here) (wire there.now pair.there)) pairs.now }
{
    pairs.iter().position(|pair| {
        are_different(value_of(here, pair.here), value_of(there, pair.there))
    })
}

/// The value of a column, 0 where there is none.
fn value_at(vector: &[bool], column: u32) -> bool
    ensures { result ≡ slice_index_or vector.now column false }
{
    match vector.get(column as usize) {
        Some(value) => *value,
        None => false,
    }
}

/// The values that a vector gives these columns.
fn values_of_columns(
    alloc: Global,
    vector: &[bool],
    columns: &[u32],
) -> Result<Vec<bool>, AllocError>
    ensures { IfOk result (λ values. values.items ≡ map (λ column. slice_index_or vector.now column false) columns.now) }
{
    columns
        .iter()
        .map(|column| value_at(vector, *column))
        .collect(alloc)
}

/// A vector of the first netlist as one of the second.
fn by_name(
    alloc: Global,
    a: &Netlist,
    b: &Netlist,
    vector: &[bool],
) -> Result<Vec<bool>, AllocError>
    ensures { IfOk result (λ values. values.items ≡ by_name_of a.now b.now vector.now) }
{
    let columns = find_columns(alloc, a, b)?;
    values_of_columns(alloc, vector, &columns)
}

/// The values of all signals of the second netlist at a vector of the first.
#[tactic(auto, using(crate::proofs::MatchLemmas::length_by_name_is))]
fn values_by_name(
    alloc: Global,
    a: &Netlist,
    b: &Netlist,
    vector: &[bool],
) -> Result<Vec<Trit>, AllocError>
    ensures { IfOk result (λ values. values.items ≡ fix b.now (bits (by_name_of a.now b.now vector.now))) }
{
    let named = by_name(alloc, a, b, vector)?;
    settle_at(alloc, b, &named)
}

/// The first output that differs, where these are the values of all signals.
fn first_output(
    alloc: Global,
    a: &Netlist,
    b: &Netlist,
    here: &[Trit],
    there: &[Trit],
) -> Result<Option<usize>, AllocError>
    ensures { IfOk result (λ found. found ≡ position (λ pair. are_other (wire here.now pair.here) (wire there.now pair.there)) (output_pairs_of a.now b.now)) }
{
    let pairs = output_pairs(alloc, a, b)?;
    Ok(first_different(here, there, &pairs))
}

/// The first latch whose next state differs.
fn first_latch(
    alloc: Global,
    a: &Netlist,
    b: &Netlist,
    here: &[Trit],
    there: &[Trit],
) -> Result<Option<usize>, AllocError>
    ensures { IfOk result (λ found. found ≡ position (λ pair. are_other (wire here.now pair.here) (wire there.now pair.there)) (latch_pairs_of a.now b.now)) }
{
    let pairs = latch_pairs(alloc, a, b)?;
    Ok(first_different(here, there, &pairs))
}

/// An output or a latch, by its place.
#[derive(Clone, Copy, PartialEq, Eq)]
pub(crate) enum Place {
    Output(u32),
    Latch(u32),
}

/// A place as a number: there are no more signals than that.
fn number(place: usize) -> Result<u32, AllocError>
    ensures { IfOk result (λ number. number ≡ place) }
{
    match u32::try_from(place) {
        Ok(number) => Ok(number),
        Err(_) => Err(AllocError),
    }
}

/// The first output that differs, or else the first latch, where these are the values of all signals.
fn place_of(
    alloc: Global,
    a: &Netlist,
    b: &Netlist,
    here: &[Trit],
    there: &[Trit],
) -> Result<Place, AllocError>
    ensures { IfOk result (λ place. (v : List Bool) → here.now ≡ fix a.now (bits v) → there.now ≡ fix b.now (bits (by_name_of a.now b.now v)) → answer_at v place ≡ at_difference_of a.now b.now v) }
{
    if let Some(output) = first_output(alloc, a, b, here, there)? {
        return Ok(Place::Output(number(output)?));
    }
    match first_latch(alloc, a, b, here, there)? {
        Some(latch) => Ok(Place::Latch(number(latch)?)),
        None => Ok(Place::Latch(0)),
    }
}

/// The first output that differs at a vector, or else the first latch.
fn find_place(alloc: Global, a: &Netlist, b: &Netlist, vector: &[bool]) -> Result<Place, AllocError>
    requires { length vector.now ≡ columns a.now }
    ensures { IfOk result (λ place. answer_at vector.now place ≡ at_difference_of a.now b.now vector.now) }
{
    let here = settle_at(alloc, a, vector)?;
    let there = values_by_name(alloc, a, b, vector)?;
    place_of(alloc, a, b, &here, &there)
}

/// What is told of two netlists that differ at this vector of the first: the first output that does, or else the first latch.
pub fn at_difference(
    alloc: Global,
    a: &Netlist,
    b: &Netlist,
    vector: Bits,
) -> Result<Answer, AllocError>
    requires { length vector ≡ columns a.now }
    ensures { IfOk result (λ answer. answer ≡ at_difference_of a.now b.now vector) }
{
    let place = find_place(alloc, a, b, vector.items())?;
    match place {
        Place::Output(at) => Ok(Answer::Output { vector, at }),
        Place::Latch(at) => Ok(Answer::Latch { vector, at }),
    }
}
