//! Rows that agree from a pin on, as one: the states of an automaton that reads a row from its last pin back.
ghost use Rattle.std.specs.Prelude.{◌≡◌, ◌<◌, ◌≤◌, ◌+◌, ◌⊎◌, ℕ, length, map, All, Some, None, IfOk, OnOk};
ghost use Rattle.cover_logic.specs.declared.row.Lit.{Lit as Literal};
ghost use Rattle.dual_rail.specs.Expansion.{end_of};
ghost use Rattle.dual_rail.specs.Classes.{first_of, first_in, none, AreClasses, AreNumbered, AreClassesOf, AreClassesBack, AreEndsOf, class_of, is_behind_end};

use crate::rows::{end_of, literal};
use cover_logic::{Lit, Row};
use cyc_base::Items;
use std::alloc::{AllocError, Global};

/// Of the rows in one class at the next pin, the first one with each literal at this pin.
#[derive(Clone, Copy)]
pub struct Firsts {
    pub zero: Option<usize>,
    pub one: Option<usize>,
    pub any: Option<usize>,
}

impl Firsts {
    fn none() -> Firsts
        ensures { result ≡ none }
    {
        Firsts {
            zero: None,
            one: None,
            any: None,
        }
    }

    fn of(self, lit: Lit) -> Option<usize>
        ensures { result ≡ first_of self lit }
    {
        match lit {
            Lit::Zero => self.zero,
            Lit::One => self.one,
            Lit::Any => self.any,
        }
    }

    fn with(self, lit: Lit, row: usize) -> Firsts
        ensures same { first_of result lit ≡ Some row }
        ensures others { (other : Literal) → ¬ (other ≡ lit) → first_of result other ≡ first_of self other }
    {
        let row = Some(row);
        match lit {
            Lit::Zero => Firsts { zero: row, ..self },
            Lit::One => Firsts { one: row, ..self },
            Lit::Any => Firsts { any: row, ..self },
        }
    }
}

// The first row with this literal and this class at the next pin, which is this row where there was none.
fn first(firsts: &mut [Firsts], rest: usize, lit: Lit, row: usize) -> usize
    requires { rest < length firsts.old }
    ensures length { length firsts.new ≡ length firsts.old }
    ensures found { (first_in firsts.old rest lit ≡ Some result) ⊎ ((first_in firsts.old rest lit ≡ None) × (result ≡ row)) }
    ensures same { first_in firsts.new rest lit ≡ Some result }
    ensures others { (class : ℕ) (other : Literal) → (first_in firsts.new class other ≡ first_in firsts.old class other) ⊎ ((class ≡ rest) × (other ≡ lit)) }
{
    if let Some(first) = firsts[rest].of(lit) {
        return first;
    }
    firsts[rest] = firsts[rest].with(lit, row);
    row
}

// Puts the class of each row.
fn fill(
    rows: &[Row],
    pin: usize,
    rests: &[usize],
    firsts: &mut [Firsts],
    numbers: &mut Vec<usize>,
) -> Result<(), AllocError>
    requires rests { AreClasses rows.now (pin + 1) rests.now }
    requires length { length firsts.old ≡ length rows.now }
    requires start { AreNumbered rows.now pin rests.now firsts.old numbers.old.items }
    requires empty { length numbers.old.items ≡ 0 }
    ensures numbered { OnOk result (AreNumbered rows.now pin rests.now firsts.new numbers.new.items) }
    ensures all { OnOk result (length numbers.new.items ≡ length rows.now) }
{
    for row in 0..rows.len() {
        let number = first(firsts, rests[row], literal(rows, row, pin), row);
        numbers.push(number)?;
    }
    Ok(())
}

// The classes at a pin, from those at the next one.
fn classes_before(
    alloc: Global,
    rows: &[Row],
    pin: usize,
    rests: &[usize],
) -> Result<Vec<usize>, AllocError>
    requires width { All (λ row. pin < length row.lits) rows.now }
    requires rests { AreClasses rows.now (pin + 1) rests.now }
    ensures { IfOk result (λ numbers. AreClasses rows.now pin numbers.items) }
{
    let mut firsts = vec![in alloc; Firsts::none(); rows.len()]?;
    let mut numbers = Vec::with_capacity(alloc, rows.len())?;
    fill(rows, pin, rests, &mut firsts, &mut numbers)?;
    Ok(numbers)
}

/// For each pin, and behind the last one, the class of each row: rows that agree from there on have one number,
/// which is that of the first of them. And for each row where it ends.
#[derive(Drop)]
pub struct Classes {
    pub at_pins: Vec<Items<usize>>,
    pub ends: Items<usize>,
}

// The classes of all pins, from behind the last pin to the first one.
fn from_last(alloc: Global, rows: &[Row], pins: usize) -> Result<Vec<Items<usize>>, AllocError>
    requires width { All (λ row. length row.lits ≡ pins) rows.now }
    requires pins { pins ≤ 1024 }
    ensures length { IfOk result (λ classes. length classes.items ≡ pins + 1) }
    ensures classes { IfOk result (λ classes. AreClassesBack rows.now pins classes.items) }
{
    let mut classes = Vec::with_capacity(alloc, pins + 1)?;
    classes.push(Items::of(vec![in alloc; 0; rows.len()]?))?;
    for back in 0..pins {
        let numbers = classes_before(alloc, rows, pins - 1 - back, classes[back].items())?;
        classes.push(Items::of(numbers))?;
    }
    Ok(classes)
}

// Where each row ends.
fn ends_of(alloc: Global, rows: &[Row]) -> Result<Vec<usize>, AllocError>
    ensures { IfOk result (λ ends. ends.items ≡ map (λ row. end_of row.lits) rows.now) }
{
    rows.iter()
        .map(|row| end_of(row.lits.items()))
        .collect(alloc)
}

impl Classes {
    /// The classes of rows of so many literals.
    pub(crate) fn of(alloc: Global, rows: &[Row], pins: usize) -> Result<Classes, AllocError>
        requires width { All (λ row. length row.lits ≡ pins) rows.now }
        requires pins { pins ≤ 1024 }
        ensures pins { IfOk result (λ classes. length classes.at_pins.items ≡ pins + 1) }
        ensures classes { IfOk result (AreClassesOf rows.now) }
        ensures ends { IfOk result (AreEndsOf rows.now) }
    {
        let mut at_pins = from_last(alloc, rows, pins)?;
        at_pins.reverse();
        let ends = Items::of(ends_of(alloc, rows)?);
        Ok(Classes { at_pins, ends })
    }

    /// The number of a row's class from a pin on.
    pub(crate) fn class(&self, pin: usize, row: usize) -> usize
        ensures { result ≡ class_of self.now pin row }
    {
        match self.at_pins.get(pin) {
            Some(numbers) => numbers.items().get(row).copied().unwrap_or(row),
            None => row,
        }
    }

    /// Whether a row asks nothing of this pin and of those after it.
    pub(crate) fn is_settled(&self, row: usize, pin: usize) -> bool
        ensures { result ≡ is_behind_end self.now pin row }
    {
        self.ends.items().get(row).copied().unwrap_or(0) <= pin
    }
}
