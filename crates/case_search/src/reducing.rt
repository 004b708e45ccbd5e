//! Cases by few values: those are left out of a cube that its others imply on care.

use crate::asking::{is_ruled_out, join, opposite, others_than, with};
use case_split::{Case, ColumnValue};
use clause_pairs::CareQuestions;
use std::alloc::{AllocError, Global};

/// Whether each care vector that has the values of both lists has this one too. False says nothing.
fn is_implied(
    alloc: Global,
    questions: &mut CareQuestions,
    before: &[ColumnValue],
    behind: &[ColumnValue],
    value: ColumnValue,
) -> Result<bool, AllocError> {
    let others = join(alloc, before, behind)?;
    let contrary = with(alloc, &others, opposite(value))?;
    is_ruled_out(alloc, questions, &contrary)
}

/// The values without those of this kind that the others imply, in their order.
fn without_implied(
    alloc: Global,
    questions: &mut CareQuestions,
    values: &[ColumnValue],
    kind: bool,
) -> Result<Vec<ColumnValue>, AllocError> {
    let mut kept = Vec::new(alloc);
    for place in 0..values.len() {
        let value = values[place];
        let behind = &values[place + 1..];
        if value.value != kind || !is_implied(alloc, questions, &kept, behind, value)? {
            kept.push(value)?;
        }
    }
    Ok(kept)
}

/// The values without those that the others imply: first zeros are left out, so that of a one-hot word the one stays.
fn thin(
    alloc: Global,
    questions: &mut CareQuestions,
    values: &[ColumnValue],
) -> Result<Vec<ColumnValue>, AllocError> {
    let ones = without_implied(alloc, questions, values, false)?;
    without_implied(alloc, questions, &ones, true)
}

/// The shorter of two cubes that are one on care: out of the cube alone, and out of it and what it forces.
fn shortest(
    alloc: Global,
    questions: &mut CareQuestions,
    cube: &[ColumnValue],
    all: &[ColumnValue],
) -> Result<Vec<ColumnValue>, AllocError> {
    let short = thin(alloc, questions, cube)?;
    let other = thin(alloc, questions, all)?;
    if other.len() < short.len() {
        Ok(other)
    } else {
        Ok(short)
    }
}

/// The case of a cube and of what the care set forces there, by few values.
pub(crate) fn reduced_case(
    alloc: Global,
    questions: &mut CareQuestions,
    cube: &[ColumnValue],
    known: &[ColumnValue],
) -> Result<Case, AllocError> {
    let all = join(alloc, cube, known)?;
    let short = shortest(alloc, questions, cube, &all)?;
    let known = others_than(alloc, &all, &short)?;
    Ok(Case { cube: short, known })
}
