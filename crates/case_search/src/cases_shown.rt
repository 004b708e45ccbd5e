//! Whether some cases are cases on care: each care vector is in just one of them.

ghost use Rattle.std.specs.Prelude.{◌≡◌, ◌≤◌, ◌∷◌, [], List, Bool, true, length, map, All, IfOk};
ghost use Rattle.care_sets.specs.Binding.{IsCareOf};
ghost use Rattle.care_sets.specs.Care.{IsCareVector};
ghost use Rattle.case_split.specs.Cases.{AreOfColumns, IsInOneCase, IsUsable};
ghost use Rattle.clause_pairs.specs.Cubes.{AsksCare};
ghost use Rattle.cyc_base.specs.Values.{bits};
ghost use Rattle.loops.specs.Sweeps.{first_gate};
ghost use Rattle.case_search.specs.Cases.{cube_of, AreApart, AreShown, ForcesKnown, HasAll, IsApartFromEach, ToldBy};

use crate::asking::{CONFLICTS, fixed_values, is_ruled_out, join, opposite, with};
use care_sets::Care;
use case_split::{Case, ColumnValue};
use clause_pairs::{CareQuestions, Cube, leave_none_out};
use cyc_base::Items;
use netlist::Netlist;
use std::alloc::{AllocError, Global};

/// The most values by which a case is selected.
const MOST_VALUES: usize = 1_000;

/// The most cases.
const MOST_CASES: usize = 4_096;

/// Whether both cubes have a column, with other values.
fn are_contrary(cube: &[ColumnValue], other: &[ColumnValue]) -> bool
    ensures { result ≡ true → (v : List Bool) → HasAll v cube.now → ¬ HasAll v other.now }
{
    for value in cube {
        if other.contains(&opposite(*value)) {
            return true;
        }
    }
    false
}

/// Whether no care vector is in both cubes. False says nothing.
fn are_apart(
    alloc: Global,
    questions: &mut CareQuestions,
    cube: &[ColumnValue],
    other: &[ColumnValue],
) -> Result<bool, AllocError>
    ensures unchanged { questions.new ≡ questions.old }
    ensures apart { IfOk result (λ apart. apart ≡ true → ToldBy questions.old (λ net care. AreApart net care cube.now other.now)) }
{
    if are_contrary(cube, other) {
        return Ok(true);
    }
    let both = join(alloc, cube, other)?;
    is_ruled_out(alloc, questions, &both)
}

/// Whether a case is apart from each of these. False says nothing.
fn is_apart_from_each(
    alloc: Global,
    questions: &mut CareQuestions,
    case: &Case,
    others: &[Case],
) -> Result<bool, AllocError>
    ensures unchanged { questions.new ≡ questions.old }
    ensures apart { IfOk result (λ apart. apart ≡ true → ToldBy questions.old (IsApartFromEach case.now others.now)) }
{
    for other in others {
        if !are_apart(alloc, questions, &case.cube, &other.cube)? {
            return Ok(false);
        }
    }
    Ok(true)
}

/// Whether each care vector in a cube has a value. False says nothing.
fn forces_value(
    alloc: Global,
    questions: &mut CareQuestions,
    cube: &[ColumnValue],
    value: ColumnValue,
) -> Result<bool, AllocError>
    ensures unchanged { questions.new ≡ questions.old }
    ensures forces { IfOk result (λ forces. forces ≡ true → ToldBy questions.old (λ net care. ForcesKnown net care cube.now (value ∷ []))) }
{
    let contrary = with(alloc, cube, opposite(value))?;
    is_ruled_out(alloc, questions, &contrary)
}

/// Whether what is known in a case holds at each care vector in its cube. False says nothing.
fn forces_known(
    alloc: Global,
    questions: &mut CareQuestions,
    case: &Case,
) -> Result<bool, AllocError>
    ensures unchanged { questions.new ≡ questions.old }
    ensures forces { IfOk result (λ forces. forces ≡ true → ToldBy questions.old (λ net care. ForcesKnown net care case.now.cube.items case.now.known.items)) }
{
    for value in &case.known {
        if !forces_value(alloc, questions, &case.cube, *value)? {
            return Ok(false);
        }
    }
    Ok(true)
}

/// Whether a case is apart from each one before, and what is known there holds. False says nothing.
fn is_shown(
    alloc: Global,
    questions: &mut CareQuestions,
    case: &Case,
    before: &[Case],
) -> Result<bool, AllocError>
    ensures unchanged { questions.new ≡ questions.old }
    ensures apart { IfOk result (λ shown. shown ≡ true → ToldBy questions.old (IsApartFromEach case.now before.now)) }
    ensures forces { IfOk result (λ shown. shown ≡ true → ToldBy questions.old (λ net care. ForcesKnown net care case.now.cube.items case.now.known.items)) }
{
    if !is_apart_from_each(alloc, questions, case, before)? {
        return Ok(false);
    }
    forces_known(alloc, questions, case)
}

/// Whether the cases are apart, and what is known in them holds. False says nothing.
fn are_shown(
    alloc: Global,
    questions: &mut CareQuestions,
    cases: &[Case],
) -> Result<bool, AllocError>
    ensures unchanged { questions.new ≡ questions.old }
    ensures shown { IfOk result (λ shown. shown ≡ true → ToldBy questions.old (AreShown cases.now (length cases.now))) }
{
    for place in 0..cases.len() {
        if !is_shown(alloc, questions, &cases[place], &cases[..place])? {
            return Ok(false);
        }
    }
    Ok(true)
}

/// The cube of a case, as it is asked for.
fn asked_cube(alloc: Global, case: &Case) -> Result<Cube, AllocError>
    ensures { IfOk result (λ cube. cube ≡ cube_of case.now) }
{
    let fixed = fixed_values(alloc, &case.cube)?;
    Ok(Cube {
        fixed: Items::of(fixed),
    })
}

fn cubes_of(alloc: Global, cases: &[Case]) -> Result<Vec<Cube>, AllocError>
    ensures { IfOk result (λ cubes. cubes.items ≡ map cube_of cases.now) }
{
    let mut cubes = Vec::new(alloc);
    for case in cases {
        cubes.push(asked_cube(alloc, case)?)?;
    }
    Ok(cubes)
}

/// Whether the netlist has the columns of these values.
pub(crate) fn has_columns(net: &Netlist, values: &[ColumnValue]) -> bool
    ensures { result ≡ true → AreOfColumns (first_gate net.now) values.now }
{
    let columns = net.columns();
    values.iter().all(|value| value.column < columns)
}

/// Whether the case is one for this netlist.
fn is_usable(net: &Netlist, case: &Case) -> bool
    ensures { result ≡ true → IsUsable (first_gate net.now) case.now }
{
    has_columns(net, &case.cube) && has_columns(net, &case.known) && case.cube.len() <= MOST_VALUES
}

fn are_usable(net: &Netlist, cases: &[Case]) -> bool
    ensures { result ≡ true → All (IsUsable (first_gate net.now)) cases.now }
{
    for case in cases {
        if !is_usable(net, case) {
            return false;
        }
    }
    true
}

/// Whether each care vector is in just one of the cases, and what is known there holds. False says nothing.
pub(crate) fn are_cases(
    alloc: Global,
    net: &Netlist,
    care: &Care,
    questions: &mut CareQuestions,
    cases: &[Case],
) -> Result<bool, AllocError>
    requires care { IsCareOf net.now care.now }
    requires asks { AsksCare net.now care.now questions.old }
    ensures usable { IfOk result (λ are. are ≡ true → All (IsUsable (first_gate net.now)) cases.now) }
    ensures few { IfOk result (λ are. are ≡ true → length cases.now ≤ 4096) }
    ensures cases { IfOk result (λ are. are ≡ true → (v : List Bool) → IsCareVector net.now care.now v → IsInOneCase cases.now (bits v)) }
{
    if cases.len() > MOST_CASES || !are_usable(net, cases) {
        return Ok(false);
    }
    if !are_shown(alloc, questions, cases)? {
        return Ok(false);
    }
    let cubes = cubes_of(alloc, cases)?;
    leave_none_out(alloc, net, care, &cubes, CONFLICTS)
}
