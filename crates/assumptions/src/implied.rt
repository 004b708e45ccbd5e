//! Rows without values that their others imply.

ghost use Rattle.std.specs.Prelude.{◌≡◌, ◌<◌, ◌+◌, ◌++◌, true, false, Some, length, take, drop, All, IfOk, OnOk};
ghost use Rattle.netlist.specs.Netlists.{columns as column_count};
ghost use Rattle.care_rows.specs.Rows.{IsSteadySignal};
ghost use Rattle.care_sets.specs.Binding.{IsCareOf};
ghost use Rattle.care_sets.specs.Care.{is_care_vector};
ghost use Rattle.clause_queries.specs.Vectors.{TellsWhetherAny};
ghost use Rattle.assumptions.specs.Implied.{HasTriedWithout, Implies, IsThinned, excluded_row, other_value, refuted_rows};

use crate::strengthening::stronger_care;
use care_rows::{RestrictFault, Row, WireValue};
use care_sets::Care;
use clause_decision::is_possible;
use cyc_base::Items;
use loops::LoopedNetlist;
use netlist::Netlist;
use std::alloc::{AllocError, Global};

/// How many conflicts a search may meet for one value.
const FEW_CONFLICTS: u64 = 1_000;

/// How many values a row has at most for each of them to be tried: a try takes a look at all gates that its wires take.
const MOST_VALUES: usize = 256;

/// A row of one value.
fn single(alloc: Global, value: WireValue) -> Result<Row, AllocError>
    ensures { IfOk result (λ row. row ≡ excluded_row value) }
{
    let values = vec![in alloc; value; 1]?;
    Ok(Row {
        values: Items::of(values),
    })
}

/// The other value of the wire.
fn with_other_value(value: WireValue) -> WireValue
    ensures { result ≡ other_value value }
{
    WireValue {
        wire: value.wire,
        value: !value.value,
    }
}

/// Rows that exclude each vector but those that have the values and not this one.
fn refuting_rows(
    alloc: Global,
    others: &[WireValue],
    value: WireValue,
) -> Result<Vec<Row>, AllocError>
    ensures { IfOk result (λ rows. rows.items ≡ refuted_rows others.now value) }
{
    let mut rows = Vec::new(alloc);
    for other in others {
        rows.push(single(alloc, with_other_value(*other))?)?;
    }
    rows.push(single(alloc, value)?)?;
    Ok(rows)
}

/// Whether a care set has surely no vector.
fn is_surely_empty(alloc: Global, net: &Netlist, care: &Care) -> Result<bool, AllocError>
    requires { IsCareOf net.now care.now }
    ensures { IfOk result (λ empty. empty ≡ true → TellsWhetherAny (is_care_vector net.now care.now) (column_count net.now) (Some false)) }
{
    match is_possible(alloc, net, care, FEW_CONFLICTS)? {
        Some(some) => Ok(!some),
        None => Ok(false),
    }
}

/// Whether the value is one at each vector that has the others: true where the solver found so.
fn is_implied(
    alloc: Global,
    looped: &LoopedNetlist<'_>,
    others: &[WireValue],
    value: WireValue,
) -> Result<bool, AllocError>
    requires others { All (λ e. IsSteadySignal looped.now.net e.wire) others.now }
    requires value { IsSteadySignal looped.now.net value.wire }
    ensures { IfOk result (λ implied. implied ≡ true → Implies looped.now.net others.now value) }
{
    let rows = refuting_rows(alloc, others, value)?;
    match stronger_care(alloc, looped, &Care::none(), &rows) {
        Ok(care) => is_surely_empty(alloc, looped.net(), &care),
        Err(RestrictFault::TooLarge { .. }) => Ok(false),
        Err(RestrictFault::Memory) => Err(AllocError),
    }
}

/// All values but the one at this place.
fn without(alloc: Global, values: &[WireValue], place: usize) -> Result<Vec<WireValue>, AllocError>
    requires { place < length values.now }
    ensures { IfOk result (λ others. others.items ≡ take place values.now ++ drop (place + 1) values.now) }
{
    let mut others = values[..place].to_vec(alloc)?;
    others.extend_from_slice(&values[place + 1..])?;
    Ok(others)
}

/// Leaves out the value at this place, where the others imply it, and answers whether it did.
fn leave_out(
    alloc: Global,
    looped: &LoopedNetlist<'_>,
    values: &mut Vec<WireValue>,
    place: usize,
) -> Result<bool, AllocError>
    requires place { place < length values.old.items }
    requires steady { All (λ e. IsSteadySignal looped.now.net e.wire) values.old.items }
    ensures { IfOk result (λ out. HasTriedWithout looped.now.net values.old.items values.new.items out) }
{
    let others = without(alloc, values, place)?;
    if !is_implied(alloc, looped, &others, values[place])? {
        return Ok(false);
    }
    *values = others;
    Ok(true)
}

/// Leaves out those of the wires with this value that the others imply, in their order.
#[tactic(auto, using(crate::proofs::ImpliedLemmas::thinned_none, crate::proofs::ImpliedLemmas::thinned_then))]
fn leave_out_each(
    alloc: Global,
    looped: &LoopedNetlist<'_>,
    values: &mut Vec<WireValue>,
    kind: bool,
) -> Result<(), AllocError>
    requires { All (λ e. IsSteadySignal looped.now.net e.wire) values.old.items }
    ensures { OnOk result (IsThinned looped.now.net values.old.items values.new.items) }
{
    let mut place = 0;
    while place < values.len() {
        let tried = values[place].value == kind;
        if !tried || !leave_out(alloc, looped, values, place)? {
            place += 1;
        }
    }
    Ok(())
}

/// Leaves out values that the others imply: first wires that are to be 0, so that of a decoder's outputs the one stays that is
/// to be 1.
fn thin(
    alloc: Global,
    looped: &LoopedNetlist<'_>,
    values: &mut Vec<WireValue>,
) -> Result<(), AllocError>
    requires { All (λ e. IsSteadySignal looped.now.net e.wire) values.old.items }
    ensures { OnOk result (IsThinned looped.now.net values.old.items values.new.items) }
{
    leave_out_each(alloc, looped, values, false)?;
    leave_out_each(alloc, looped, values, true)
}

/// The same row, without values that its others imply, where it has not too many.
#[tactic(auto, using(crate::proofs::ImpliedLemmas::thinned_none))]
pub(crate) fn without_implied_values(
    alloc: Global,
    looped: &LoopedNetlist<'_>,
    row: &Row,
) -> Result<Row, AllocError>
    requires { All (λ e. IsSteadySignal looped.now.net e.wire) row.now.values }
    ensures { IfOk result (λ short. IsThinned looped.now.net row.now.values short.values) }
{
    let mut values = row.values.items().to_vec(alloc)?;
    if values.len() <= MOST_VALUES {
        thin(alloc, looped, &mut values)?;
    }
    Ok(Row {
        values: Items::of(values),
    })
}
