//! The selection among what stands for a gate in the cases.

ghost use Rattle.std.specs.Prelude.{◌≡◌, ◌+◌, ◌<◌, ◌≤◌, length, All, IfOk, IfSome};
ghost use Rattle.cyc_base.specs.Names.{IsBlifName};
ghost use Rattle.netlist.specs.Netlists.{count};
ghost use Rattle.case_split.specs.Added.{AreNew};
ghost use Rattle.case_split.specs.Cases.{IsUsable};
ghost use Rattle.case_split.specs.Choices.{AreNarrow, IsGroupSize, AreLeavesOf, IsCommon, IsSelectionCover, IsSelected, IsChosenNext, IsChosen};
ghost use Rattle.case_split.specs.Operands.{IsWithin};
ghost use Rattle.case_split.specs.Pins.{AreFirsts, ArePinsOf};

use crate::added::{Added, Base};
use crate::cases::{Case, ColumnValue};
use crate::cofactors::cover_by;
use crate::operands::Operand;
use crate::pins::{Pin, first_places, operands_on, pins_of, rows_of};
use cover_logic::Cover;
use cyc_base::{MAX_PINS, Name};
use std::alloc::{AllocError, Global};

/// The cover of a selection: a row for each case, and one of the last leaf.
fn selection_cover(
    alloc: Global,
    cases: &[Case],
    firsts: &[usize],
    pins: &[Pin],
) -> Result<Cover, AllocError>
    requires pins { ArePinsOf cases.now firsts.now pins.now }
    requires narrow { AreNarrow cases.now }
    ensures { IfOk result (IsSelectionCover cases.now firsts.now pins.now) }
{
    let rows = rows_of(alloc, cases, firsts, pins)?;
    Ok(cover_by(pins.len(), true, rows))
}

/// What is chosen by the cubes of the cases among some leaves on these pins.
fn choose_on(
    alloc: Global,
    base: &Base<'_>,
    added: &mut Added,
    name: &Name,
    cases: &[Case],
    leaves: &[Operand],
    firsts: &[usize],
    pins: &[Pin],
) -> Result<Operand, AllocError>
    requires room { count base.now.net.now + length added.old.gates.items < 4294967295 }
    requires name { IsBlifName name.now }
    requires columns { All (IsUsable (count base.now.net.now)) cases.now }
    requires narrow { AreNarrow cases.now }
    requires within { All (IsWithin (count base.now.net.now + length added.old.gates.items)) leaves.now }
    requires new { AreNew base.now.net.now added.old.gates.items }
    requires firsts { AreFirsts leaves.now firsts.now }
    requires pins { ArePinsOf cases.now firsts.now pins.now }
    ensures { IfOk result (IsSelected base.now.net.now cases.now leaves.now added.old.gates.items added.new.gates.items) }
{
    let cover = selection_cover(alloc, cases, firsts, pins)?;
    let operands = operands_on(alloc, leaves, pins)?;
    added.add(alloc, base, name, &cover, &operands)
}

/// What is chosen by the cubes of the cases among some leaves, the last of which was chosen before.
fn choose_by(
    alloc: Global,
    base: &Base<'_>,
    added: &mut Added,
    name: &Name,
    cases: &[Case],
    leaves: &[Operand],
) -> Result<Operand, AllocError>
    requires room { count base.now.net.now + length added.old.gates.items < 4294967295 }
    requires name { IsBlifName name.now }
    requires columns { All (IsUsable (count base.now.net.now)) cases.now }
    requires narrow { AreNarrow cases.now }
    requires within { All (IsWithin (count base.now.net.now + length added.old.gates.items)) leaves.now }
    requires new { AreNew base.now.net.now added.old.gates.items }
    ensures { IfOk result (IsSelected base.now.net.now cases.now leaves.now added.old.gates.items added.new.gates.items) }
{
    let firsts = first_places(alloc, leaves)?;
    let pins = pins_of(alloc, cases, &firsts)?;
    choose_on(alloc, base, added, name, cases, leaves, &firsts, &pins)
}

/// What is chosen among these cases, or what was chosen before.
fn choose_next(
    alloc: Global,
    base: &Base<'_>,
    added: &mut Added,
    name: &Name,
    cases: &[Case],
    leaves: &[Operand],
    before: Operand,
) -> Result<Operand, AllocError>
    requires room { count base.now.net.now + length added.old.gates.items < 4294967295 }
    requires name { IsBlifName name.now }
    requires columns { All (IsUsable (count base.now.net.now)) cases.now }
    requires narrow { AreNarrow cases.now }
    requires leaves { length leaves.now ≡ length cases.now }
    requires possible { AreLeavesOf cases.now leaves.now }
    requires within { All (IsWithin (count base.now.net.now + length added.old.gates.items)) leaves.now }
    requires before { IsWithin (count base.now.net.now + length added.old.gates.items) before }
    requires new { AreNew base.now.net.now added.old.gates.items }
    ensures { IfOk result (IsChosenNext base.now.net.now cases.now leaves.now before added.old.gates.items added.new.gates.items) }
{
    let mut all = leaves.to_vec(alloc)?;
    all.push(before)?;
    choose_by(alloc, base, added, name, cases, &all)
}

/// The most literals of a cube.
fn widest(cases: &[Case]) -> usize
    requires { All (λ case. length case.cube.items ≤ 1000) cases.now }
    ensures each { All (λ case. length case.cube.items ≤ result) cases.now }
    ensures few { result ≤ 1000 }
{
    let mut most = 0;
    for case in cases {
        let cube: &[ColumnValue] = &case.cube;
        most = most.max(cube.len());
    }
    most
}

/// How many cases one cover selects among: their columns, their leaves and one pin more are no more pins than a cover has.
fn group_size(cases: &[Case]) -> usize
    requires { All (λ case. length case.cube.items ≤ 1000) cases.now }
    ensures some { 1 ≤ result }
    ensures fits { IsGroupSize cases.now result }
{
    (MAX_PINS - 1) / (widest(cases) + 1)
}

/// What is chosen among the cases, by one cover after another: it selects among as many as fit, and what was chosen before.
fn choose_all(
    alloc: Global,
    base: &Base<'_>,
    added: &mut Added,
    name: &Name,
    cases: &[Case],
    leaves: &[Operand],
) -> Result<Operand, AllocError>
    requires room { count base.now.net.now + length added.old.gates.items + length cases.now ≤ 4294967295 }
    requires name { IsBlifName name.now }
    requires columns { All (IsUsable (count base.now.net.now)) cases.now }
    requires leaves { length leaves.now ≡ length cases.now }
    requires possible { AreLeavesOf cases.now leaves.now }
    requires within { All (IsWithin (count base.now.net.now + length added.old.gates.items)) leaves.now }
    requires new { AreNew base.now.net.now added.old.gates.items }
    ensures { IfOk result (IsChosen base.now.net.now cases.now leaves.now added.old.gates.items added.new.gates.items) }
{
    let size = group_size(cases);
    let mut chosen = Operand::Constant(false);
    let mut first = 0;
    while first < cases.len() {
        let end = first + size.min(cases.len() - first);
        chosen = choose_next(
            alloc,
            base,
            added,
            name,
            &cases[first..end],
            &leaves[first..end],
            chosen,
        )?;
        first = end;
    }
    Ok(chosen)
}

/// The one operand that is all of these, if one is.
fn common(leaves: &[Operand]) -> Option<Operand>
    ensures { IfSome result (IsCommon leaves.now) }
{
    let first = *leaves.first()?;
    for leaf in leaves {
        if *leaf != first {
            return None;
        }
    }
    Some(first)
}

/// What is chosen for a gate among the cases, by what stands for it in each.
pub(crate) fn choose(
    alloc: Global,
    base: &Base<'_>,
    added: &mut Added,
    name: &Name,
    cases: &[Case],
    leaves: &[Operand],
) -> Result<Operand, AllocError>
    requires room { count base.now.net.now + length added.old.gates.items + length cases.now ≤ 4294967295 }
    requires name { IsBlifName name.now }
    requires columns { All (IsUsable (count base.now.net.now)) cases.now }
    requires leaves { length leaves.now ≡ length cases.now }
    requires possible { AreLeavesOf cases.now leaves.now }
    requires within { All (IsWithin (count base.now.net.now + length added.old.gates.items)) leaves.now }
    requires new { AreNew base.now.net.now added.old.gates.items }
    ensures { IfOk result (IsChosen base.now.net.now cases.now leaves.now added.old.gates.items added.new.gates.items) }
{
    match common(leaves) {
        Some(operand) => Ok(operand),
        None => choose_all(alloc, base, added, name, cases, leaves),
    }
}
