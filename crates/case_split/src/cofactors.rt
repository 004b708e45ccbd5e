//! A cover with known values put in.

ghost use Rattle.std.specs.Prelude.{◌≡◌, ◌≢◌, true, false, List, [], ◌∷◌, length, map, IfOk, None, slice_index_or};
ghost use Rattle.cover_logic.specs.Covers.{Cover as Rows, cover_of, first_fault, value};
ghost use Rattle.cover_logic.specs.Partial.{may_allow};
ghost use Rattle.case_split.specs.Operands.{known_value};
ghost use Rattle.case_split.specs.Cofactors.{is_live as is_live_by, live_rows as live_rows_of, is_literal as is_literal_of, is_asked as is_asked_in, left_at as left_at_pin, AreLeft, wires_of as wires_of_left, left_lits as left_lits_of, left_row, IsLeft, IsCofactor};

use crate::operands::Operand;
use cover_logic::{Cover, Lit, Row};
use cyc_base::{Items, Sig};
use std::alloc::{AllocError, Global};

/// What is left of a cover.
#[derive(Drop)]
pub(crate) enum Cofactor {
    /// It is a constant, or one of its wires.
    Folded(Operand),
    /// A cover of these wires.
    Left(Cover, Vec<Sig>),
}

fn is_allowed(lit: Lit, operand: Operand) -> bool
    ensures { result ≡ may_allow lit (known_value operand) }
{
    match (lit, operand) {
        (Lit::Zero, Operand::Constant(value)) => !value,
        (Lit::One, Operand::Constant(value)) => value,
        _ => true,
    }
}

fn is_live(lits: &[Lit], operands: &[Operand]) -> bool
    ensures { result ≡ is_live_by lits.now operands.now }
{
    lits.iter()
        .zip(operands)
        .all(|(lit, operand)| is_allowed(*lit, *operand))
}

fn copy_row(alloc: Global, row: &Row) -> Result<Row, AllocError>
    ensures { IfOk result (λ copy. copy ≡ row.now) }
{
    let lits = row.lits.items().to_vec(alloc)?;
    Ok(Row {
        lits: Items::of(lits),
    })
}

/// The rows that no constant contradicts.
fn live_rows(alloc: Global, rows: &[Row], operands: &[Operand]) -> Result<Vec<Row>, AllocError>
    ensures { IfOk result (λ live. live.items ≡ live_rows_of rows.now operands.now) }
{
    let mut live = Vec::new(alloc);
    for row in rows {
        if is_live(row.lits.items(), operands) {
            live.push(copy_row(alloc, row)?)?;
        }
    }
    Ok(live)
}

fn is_literal(lits: &[Lit], pin: usize) -> bool
    ensures { result ≡ is_literal_of (slice_index_or lits.now pin Lit.Any) }
{
    match lits.get(pin) {
        Some(lit) => *lit != Lit::Any,
        None => false,
    }
}

fn is_asked(live: &[Row], pin: usize) -> bool
    ensures { result ≡ is_asked_in live.now pin }
{
    live.iter().any(|row| is_literal(row.lits.items(), pin))
}

fn left_at(live: &[Row], pin: usize, operand: Operand) -> Option<Sig>
    ensures { result ≡ left_at_pin live.now pin operand }
{
    match operand {
        Operand::Constant(_) => None,
        Operand::Wire(wire) => {
            if is_asked(live, pin) {
                Some(wire)
            } else {
                None
            }
        }
    }
}

/// For each pin the wire that is left there.
fn left_pins(
    alloc: Global,
    live: &[Row],
    operands: &[Operand],
) -> Result<Vec<Option<Sig>>, AllocError>
    ensures { IfOk result (λ left. AreLeft live.now operands.now left.items) }
{
    let mut left = Vec::with_capacity(alloc, operands.len())?;
    for (pin, operand) in operands.iter().enumerate() {
        left.push(left_at(live, pin, *operand))?;
    }
    Ok(left)
}

fn wires_of(alloc: Global, left: &[Option<Sig>]) -> Result<Vec<Sig>, AllocError>
    ensures { IfOk result (λ wires. wires.items ≡ wires_of_left left.now) }
{
    let mut wires = Vec::new(alloc);
    for pin in left {
        if let Some(wire) = pin {
            wires.push(*wire)?;
        }
    }
    Ok(wires)
}

fn left_lits(alloc: Global, lits: &[Lit], left: &[Option<Sig>]) -> Result<Vec<Lit>, AllocError>
    ensures { IfOk result (λ rest. rest.items ≡ left_lits_of lits.now left.now) }
{
    lits.iter()
        .zip(left)
        .filter(|pin| pin.1.is_some())
        .map(|pin| *pin.0)
        .collect(alloc)
}

fn left_rows(alloc: Global, live: &[Row], left: &[Option<Sig>]) -> Result<Vec<Row>, AllocError>
    ensures { IfOk result (λ rows. rows.items ≡ map (left_row left.now) live.now) }
{
    let mut rows = Vec::with_capacity(alloc, live.len())?;
    for row in live {
        let lits = Items::of(left_lits(alloc, row.lits.items(), left)?);
        rows.push(Row { lits })?;
    }
    Ok(rows)
}

/// The wires that are left of a cover where these operands are on its pins.
pub(crate) fn left_wires(
    alloc: Global,
    cover: &Cover,
    operands: &[Operand],
) -> Result<Vec<Sig>, AllocError> {
    let live = live_rows(alloc, cover.rows(), operands)?;
    let left = left_pins(alloc, &live, operands)?;
    wires_of(alloc, &left)
}

/// The cover of these parts.
pub(crate) fn cover_by(pins: usize, plane: bool, rows: Vec<Row>) -> Cover
    requires { first_fault pins rows.items ≡ None }
    ensures { result ≡ cover_of pins plane rows.items }
{
    match Cover::new(pins, plane, rows) {
        Ok(cover) => cover,
        Err(_) => unreachable!(),
    }
}

/// What is left of a cover by its rows that no constant contradicts, of which there are some.
fn left_of(
    alloc: Global,
    cover: &Cover,
    operands: &[Operand],
    live: &[Row],
) -> Result<Cofactor, AllocError>
    requires counted { length operands.now ≡ cover.now.pins }
    requires live { live.now ≡ live_rows_of cover.now.rows operands.now }
    requires some { length live.now ≢ 0 }
    ensures { IfOk result (IsCofactor cover.now operands.now) }
{
    let left = left_pins(alloc, live, operands)?;
    let wires = wires_of(alloc, &left)?;
    let plane = cover.plane();
    if wires.is_empty() {
        return Ok(Cofactor::Folded(Operand::Constant(plane)));
    }
    let rows = left_rows(alloc, live, &left)?;
    let rest = cover_by(wires.len(), plane, rows);
    Ok(fold(rest, wires))
}

/// What is left of a cover where these operands are on its pins: rows that a constant contradicts go, and so do pins of
/// which no row that is left asks anything.
pub(crate) fn cofactor_of(
    alloc: Global,
    cover: &Cover,
    operands: &[Operand],
) -> Result<Cofactor, AllocError>
    requires { length operands.now ≡ cover.now.pins }
    ensures { IfOk result (IsCofactor cover.now operands.now) }
{
    let live = live_rows(alloc, cover.rows(), operands)?;
    if live.is_empty() {
        return Ok(Cofactor::Folded(Operand::Constant(!cover.plane())));
    }
    left_of(alloc, cover, operands, &live)
}

/// Whether a cover of one pin has its value.
fn is_same(cover: &Cover) -> bool
    requires { cover.now.pins ≡ 1 }
    ensures low { result ≡ true → value cover.now (false ∷ []) ≡ false }
    ensures high { result ≡ true → value cover.now (true ∷ []) ≡ true }
{
    !cover.value(&[false]) && cover.value(&[true])
}

/// A cover of wires, or the one wire that it is the same as.
fn fold(rest: Cover, wires: Vec<Sig>) -> Cofactor
    requires { length wires.items ≡ rest.pins }
    ensures { (cover : Rows) (operands : List Operand) → IsLeft cover operands rest wires.items → IsCofactor cover operands result }
{
    if wires.len() == 1 && is_same(&rest) {
        Cofactor::Folded(Operand::Wire(wires[0]))
    } else {
        Cofactor::Left(rest, wires)
    }
}
