//! The pins of a selection, and what its rows ask of them.

ghost use Rattle.std.specs.Prelude.{◌≡◌, ◌<◌, ◌∷◌, [], length, map, All, IfOk, OnOk, slice_index_or};
ghost use Rattle.std.specs.List.{range_with_len};
ghost use Rattle.std.specs.List.Sorted.{IsPermutation};
ghost use Rattle.case_split.specs.declared.operands.Operand.{Operand as Standing};
ghost use Rattle.case_split.specs.Pins.{asked_at as asked_by_row, column_pins, operand_on as operand_there, pins_for, AddsPins, AreFirsts, ArePinsOf, AreRows};

use crate::cases::{Case, ColumnValue};
use crate::cubes::asked_of;
use crate::operands::Operand;
use cover_logic::{Lit, Row};
use cyc_base::{Items, Sig};
use std::alloc::{AllocError, Global};

/// What a pin of a selection reads.
#[derive(Clone, Copy, PartialEq, Eq)]
pub(crate) enum Pin {
    /// A column.
    Column(u32),
    /// What stands for the gate in a case: the leaf at this place.
    Leaf(usize),
}

/// The first place at which there stands the same as at this one.
fn first_place(leaves: &[Operand], place: usize) -> usize
    requires { place < length leaves.now }
    ensures { (d : Standing) → slice_index_or leaves.now result d ≡ slice_index_or leaves.now place d }
{
    for first in 0..place {
        if leaves[first] == leaves[place] {
            return first;
        }
    }
    place
}

/// For each leaf the first place at which there stands the same.
pub(crate) fn first_places(alloc: Global, leaves: &[Operand]) -> Result<Vec<usize>, AllocError>
    ensures { IfOk result (λ firsts. AreFirsts leaves.now firsts.items) }
{
    let mut firsts = Vec::with_capacity(alloc, leaves.len())?;
    for place in 0..leaves.len() {
        firsts.push(first_place(leaves, place))?;
    }
    Ok(firsts)
}

fn first_at(firsts: &[usize], place: usize) -> usize
    ensures { result ≡ slice_index_or firsts.now place 0 }
{
    firsts.get(place).copied().unwrap_or(0)
}

/// So many places, those together at which there stands the same.
fn grouped_places(alloc: Global, firsts: &[usize], count: usize) -> Result<Vec<usize>, AllocError>
    ensures permuted { IfOk result (λ places. IsPermutation (range_with_len 0 count) places.items) }
    ensures within { IfOk result (λ places. All (λ place. place < count) places.items) }
{
    let mut places: Vec<usize> = (0..count).collect(alloc)?;
    places.sort_by_key(|place| first_at(firsts, *place))?;
    Ok(places)
}

/// Adds a pin, unless it is there.
fn add_pin(pins: &mut Vec<Pin>, pin: Pin) -> Result<(), AllocError>
    ensures { OnOk result (AddsPins (pin ∷ []) pins.old.items pins.new.items) }
{
    if pins.contains(&pin) {
        return Ok(());
    }
    pins.push(pin)?;
    Ok(())
}

/// Adds pins for the columns of a cube.
fn add_columns(pins: &mut Vec<Pin>, cube: &[ColumnValue]) -> Result<(), AllocError>
    ensures { OnOk result (AddsPins (column_pins cube.now) pins.old.items pins.new.items) }
{
    for literal in cube {
        add_pin(pins, Pin::Column(literal.column))?;
    }
    Ok(())
}

/// Adds pins for what stands for the gate in a case, and for the columns that select it.
fn add_case(pins: &mut Vec<Pin>, case: &Case, first: usize) -> Result<(), AllocError>
    ensures { OnOk result (AddsPins (pins_for case.now first) pins.old.items pins.new.items) }
{
    add_pin(pins, Pin::Leaf(first))?;
    add_columns(pins, &case.cube)
}

/// The pins of a selection among some cases. Each leaf stands beside the columns by which it is selected, so that a diagram
/// over them in their order stays small (Bryant 1986). The last leaf is what was chosen before.
pub(crate) fn pins_of(
    alloc: Global,
    cases: &[Case],
    firsts: &[usize],
) -> Result<Vec<Pin>, AllocError>
    ensures { IfOk result (λ pins. ArePinsOf cases.now firsts.now pins.items) }
{
    let places = grouped_places(alloc, firsts, cases.len())?;
    let mut pins = Vec::new(alloc);
    for place in &places {
        add_case(&mut pins, &cases[*place], first_at(firsts, *place))?;
    }
    add_pin(&mut pins, Pin::Leaf(cases.len()))?;
    Ok(pins)
}

/// What the row of a cube and of a leaf asks of a pin.
fn asked_at(cube: &[ColumnValue], leaf: usize, pin: Pin) -> Lit
    ensures { result ≡ asked_by_row cube.now leaf pin }
{
    match pin {
        Pin::Column(column) => asked_of(cube, column),
        Pin::Leaf(place) => { if place == leaf { Lit::One } else { Lit::Any } }
    }
}

/// What the row of a cube and of a leaf asks of each of the pins.
fn asks_of(
    alloc: Global,
    pins: &[Pin],
    cube: &[ColumnValue],
    leaf: usize,
) -> Result<Vec<Lit>, AllocError>
    ensures { IfOk result (λ asks. asks.items ≡ map (asked_by_row cube.now leaf) pins.now) }
{
    pins.iter()
        .map(|pin| asked_at(cube, leaf, *pin))
        .collect(alloc)
}

/// The row of a case: it matches where columns have what the cube asks, and what stands for the gate is 1.
fn row_of(alloc: Global, pins: &[Pin], cube: &[ColumnValue], leaf: usize) -> Result<Row, AllocError>
    ensures { IfOk result (λ row. row.lits ≡ map (asked_by_row cube.now leaf) pins.now) }
{
    let lits = asks_of(alloc, pins, cube, leaf)?;
    Ok(Row {
        lits: Items::of(lits),
    })
}

/// The rows of these cases, and one of what was chosen before, the last leaf.
pub(crate) fn rows_of(
    alloc: Global,
    cases: &[Case],
    firsts: &[usize],
    pins: &[Pin],
) -> Result<Vec<Row>, AllocError>
    ensures { IfOk result (λ rows. AreRows cases.now firsts.now pins.now rows.items) }
{
    let mut rows = Vec::new(alloc);
    for (place, case) in cases.iter().enumerate() {
        rows.push(row_of(alloc, pins, &case.cube, first_at(firsts, place))?)?;
    }
    rows.push(row_of(alloc, pins, &[], cases.len())?)?;
    Ok(rows)
}

/// What is on a pin.
fn operand_on(leaves: &[Operand], pin: Pin) -> Operand
    ensures { result ≡ operand_there leaves.now pin }
{
    match pin {
        Pin::Column(column) => Operand::Wire(Sig(column)),
        Pin::Leaf(place) => leaves
            .get(place)
            .copied()
            .unwrap_or(Operand::Constant(false)),
    }
}

/// What is on each of the pins.
pub(crate) fn operands_on(
    alloc: Global,
    leaves: &[Operand],
    pins: &[Pin],
) -> Result<Vec<Operand>, AllocError>
    ensures { IfOk result (λ operands. operands.items ≡ map (operand_there leaves.now) pins.now) }
{
    pins.iter()
        .map(|pin| operand_on(leaves, *pin))
        .collect(alloc)
}
