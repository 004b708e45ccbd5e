//! What a care set says of values of columns.

ghost use Rattle.std.specs.Prelude.{◌≡◌, ◌++◌, ◌∷◌, [], true, map, IfOk};
ghost use Rattle.case_search.specs.Cases.{fixed_of, opposite_of, HaveNone, ToldBy};

use case_split::ColumnValue;
use clause_pairs::{CareQuestions, Fixed};
use std::alloc::{AllocError, Global};

/// How many conflicts a search may meet for one question.
pub(crate) const CONFLICTS: u64 = 1_000;

/// A value, as it is asked for.
fn fixed_value(value: ColumnValue) -> Fixed
    ensures { result ≡ fixed_of value }
{
    Fixed {
        column: value.column,
        value: value.value,
    }
}

pub(crate) fn fixed_values(alloc: Global, values: &[ColumnValue]) -> Result<Vec<Fixed>, AllocError>
    ensures { IfOk result (λ all. all.items ≡ map fixed_of values.now) }
{
    values
        .iter()
        .map(|value| fixed_value(*value))
        .collect(alloc)
}

pub(crate) fn value_of(column: u32, value: bool) -> ColumnValue {
    ColumnValue { column, value }
}

pub(crate) fn opposite(value: ColumnValue) -> ColumnValue
    ensures { result ≡ opposite_of value }
{
    ColumnValue {
        column: value.column,
        value: !value.value,
    }
}

/// These values and one more.
pub(crate) fn with(
    alloc: Global,
    values: &[ColumnValue],
    value: ColumnValue,
) -> Result<Vec<ColumnValue>, AllocError>
    ensures { IfOk result (λ more. more.items ≡ values.now ++ value ∷ []) }
{
    let mut more = values.to_vec(alloc)?;
    more.push(value)?;
    Ok(more)
}

/// Whether no care vector has all these values. False says nothing.
pub(crate) fn is_ruled_out(
    alloc: Global,
    questions: &mut CareQuestions,
    values: &[ColumnValue],
) -> Result<bool, AllocError>
    ensures unchanged { questions.new ≡ questions.old }
    ensures out { IfOk result (λ out. out ≡ true → ToldBy questions.old (λ net care. HaveNone net care values.now)) }
{
    let cube = fixed_values(alloc, values)?;
    questions.rules_out(alloc, &cube, CONFLICTS)
}

/// The values of both.
pub(crate) fn join(
    alloc: Global,
    cube: &[ColumnValue],
    other: &[ColumnValue],
) -> Result<Vec<ColumnValue>, AllocError>
    ensures { IfOk result (λ both. both.items ≡ cube.now ++ other.now) }
{
    let mut both = cube.to_vec(alloc)?;
    both.extend_from_slice(other)?;
    Ok(both)
}

/// Both values of each of these columns, 0 before 1.
pub(crate) fn both_values(alloc: Global, columns: &[u32]) -> Result<Vec<ColumnValue>, AllocError> {
    let mut values = Vec::new(alloc);
    for column in columns {
        values.push(value_of(*column, false))?;
        values.push(value_of(*column, true))?;
    }
    Ok(values)
}

/// Those of the values that aren't in the cube.
pub(crate) fn others_than(
    alloc: Global,
    values: &[ColumnValue],
    cube: &[ColumnValue],
) -> Result<Vec<ColumnValue>, AllocError> {
    let mut others = Vec::new(alloc);
    for value in values {
        if !cube.contains(value) {
            others.push(*value)?;
        }
    }
    Ok(others)
}

/// The values that are forced where these marks rule out others, or none where both values of a column are ruled out.
fn forced_by(
    alloc: Global,
    values: &[ColumnValue],
    out: &[bool],
) -> Result<Option<Vec<ColumnValue>>, AllocError> {
    let mut forced = Vec::new(alloc);
    for (value, is_out) in values.iter().zip(out) {
        if !*is_out {
            continue;
        }
        if forced.as_slice().contains(value) {
            return Ok(None);
        }
        forced.push(opposite(*value))?;
    }
    Ok(Some(forced))
}

/// The values that these columns have where a care vector has those of the cube, as far as the solver finds so; or none
/// where no care vector has those.
pub(crate) fn forced_values(
    alloc: Global,
    questions: &mut CareQuestions,
    cube: &[ColumnValue],
    columns: &[u32],
) -> Result<Option<Vec<ColumnValue>>, AllocError> {
    let both = both_values(alloc, columns)?;
    let within = fixed_values(alloc, cube)?;
    let asked = fixed_values(alloc, &both)?;
    let out = questions.rules_out_each(alloc, &within, &asked, CONFLICTS)?;
    forced_by(alloc, &both, &out)
}
