//! The exact ternary extension of a cover, by the unate recursive paradigm (Brayton, Hachtel, McMullen and
//! Sangiovanni-Vincentelli, 1984) with unit propagation (Davis, Logemann and Loveland, 1962).
//!
//! That no row matches is read off the rows, since each row that no known pin contradicts matches at some
//! completion. That some row matches at every completion, a tautology, is asked of the cofactors at an
//! unknown pin. One of them decides where the rows ask for one value alone at that pin, since the other value is
//! harder, and where a row asks for that pin alone, since it matches at the asked value whatever the others are.
//! After each split, pins get the values that decide so, until no row gives one. A cofactor is rows of its own,
//! over the pins that are still unknown.
//!
//! The recursion goes as deep as there are splits, so what a level calls is kept out of its frame on the stack.

ghost use Rattle.std.specs.Prelude.{◌≡◌, ◌≢◌, ◌+◌, ◌<◌, ◌≤◌, [], true, false, if◌then◌else◌, length, slice_get, slice_set, IfOk, IfSome, IfNone, Some, All};
ghost use Rattle.cyc_base.specs.declared.trit.Trit.TheVariants.{X};
ghost use Rattle.cyc_base.specs.Values.{bit};
ghost use Rattle.cover_logic.specs.Covers.{value_of_rows};
ghost use Rattle.cover_logic.specs.Extensions.{exact};
ghost use Rattle.cover_logic.specs.Partial.{may_allow, must_allow, may_match, must_match, some_row_may_match, some_row_must_match, asks, some_row_asks, is_tautology, unknown_count, open_lits, open_row, open_rows, open_pins};

use crate::row::{Lit, Row};
use crate::value::is_allowed;
use cyc_base::{Items, Trit};
use std::alloc::{AllocError, Global};

fn is_maybe_allowed(lit: Lit, pin: Trit) -> bool
    ensures { result ≡ may_allow lit pin }
{
    match (lit, pin) {
        (Lit::Zero, Trit::One) => false,
        (Lit::One, Trit::Zero) => false,
        _ => true,
    }
}

fn is_surely_allowed(lit: Lit, pin: Trit) -> bool
    ensures { result ≡ must_allow lit pin }
{
    match (lit, pin) {
        (Lit::Zero, Trit::Zero) => true,
        (Lit::One, Trit::One) => true,
        (Lit::Any, _) => true,
        _ => false,
    }
}

fn row_maybe_matches(lits: &[Lit], pins: &[Trit]) -> bool
    ensures { result ≡ may_match lits.now pins.now }
{
    lits.iter()
        .zip(pins)
        .all(|(lit, pin)| is_maybe_allowed(*lit, *pin))
}

fn row_surely_matches(lits: &[Lit], pins: &[Trit]) -> bool
    ensures { result ≡ must_match lits.now pins.now }
{
    lits.iter()
        .zip(pins)
        .all(|(lit, pin)| is_surely_allowed(*lit, *pin))
}

fn any_row_maybe_matches(rows: &[Row], pins: &[Trit]) -> bool
    ensures { result ≡ some_row_may_match rows.now pins.now }
{
    rows.iter()
        .any(|row| row_maybe_matches(row.lits.items(), pins))
}

fn any_row_surely_matches(rows: &[Row], pins: &[Trit]) -> bool
    ensures { result ≡ some_row_must_match rows.now pins.now }
{
    rows.iter()
        .any(|row| row_surely_matches(row.lits.items(), pins))
}

fn row_asks(lits: &[Lit], pin: usize, value: bool) -> bool
    ensures { result ≡ asks lits.now pin value }
{
    match lits.get(pin) {
        Some(lit) => !is_allowed(*lit, !value),
        None => false,
    }
}

/// Whether some row that may match does so only where the pin has this value.
fn any_row_asks(rows: &[Row], pins: &[Trit], pin: usize, value: bool) -> bool
    ensures { result ≡ some_row_asks rows.now pins.now pin value }
{
    rows.iter().any(|row| {
        row_asks(row.lits.items(), pin, value) && row_maybe_matches(row.lits.items(), pins)
    })
}

/// The value at which this unknown pin is harder to cover: no row that may match asks for it, so that each
/// one that matches there matches at the other value too. `None` where rows ask for both.
fn harder_value(rows: &[Row], pins: &[Trit], pin: usize) -> Option<bool>
    ensures { IfSome result (λ value. some_row_asks rows.now pins.now pin value ≡ false) }
{
    if !any_row_asks(rows, pins, pin, false) {
        Some(false)
    } else if !any_row_asks(rows, pins, pin, true) {
        Some(true)
    } else {
        None
    }
}

/// Gives each unknown pin its harder value, where it has one.
fn give_harder_values(rows: &[Row], pins: &mut [Trit])
    ensures same { is_tautology rows.now pins.new ≡ is_tautology rows.now pins.old }
    ensures fewer { unknown_count pins.new ≤ unknown_count pins.old }
{
    for pin in 0..pins.len() {
        if pins[pin] == Trit::X {
            if let Some(value) = harder_value(rows, pins, pin) {
                pins[pin] = Trit::of(value);
            }
        }
    }
}

/// The first unknown pin that a row asks a value of.
fn first_asked(lits: &[Lit], pins: &[Trit]) -> Option<usize>
    ensures { IfSome result (λ pin. slice_get pins.now pin ≡ Some X) }
{
    lits.iter()
        .zip(pins)
        .position(|(lit, pin)| *lit != Lit::Any && *pin == Trit::X)
}

/// Gives an unknown pin the other value than this row asks, if the row asks for it alone: at the asked value the
/// row matches whatever the other pins are, so the other one decides. Says whether it did.
fn propagate(rows: &[Row], row: usize, pins: &mut [Trit]) -> bool
    requires { row < length rows.now }
    ensures same { is_tautology rows.now pins.new ≡ is_tautology rows.now pins.old }
    ensures fewer { unknown_count pins.new + (if result then 1 else 0) ≤ unknown_count pins.old }
{
    let lits = rows[row].lits.items();
    let Some(pin) = first_asked(lits, pins) else {
        return false;
    };
    let asked = row_asks(lits, pin, true);
    pins[pin] = Trit::of(asked);
    let decides = row_surely_matches(lits, pins);
    pins[pin] = if decides { Trit::of(!asked) } else { Trit::X };
    decides
}

/// Propagates by each row, forwards and then backwards, so that a chain takes one call whichever way it is
/// listed. Says whether a pin got a value.
fn propagate_once(rows: &[Row], pins: &mut [Trit]) -> bool
    ensures same { is_tautology rows.now pins.new ≡ is_tautology rows.now pins.old }
    ensures fewer { unknown_count pins.new + (if result then 1 else 0) ≤ unknown_count pins.old }
{
    let mut changed = false;
    for row in 0..rows.len() {
        changed |= propagate(rows, row, pins);
    }
    for row in (0..rows.len()).rev() {
        changed |= propagate(rows, row, pins);
    }
    changed
}

/// Propagates by the rows until no pin gets a value.
fn propagate_all(rows: &[Row], pins: &mut [Trit])
    ensures same { is_tautology rows.now pins.new ≡ is_tautology rows.now pins.old }
    ensures fewer { unknown_count pins.new ≤ unknown_count pins.old }
{
    while propagate_once(rows, pins) {}
}

/// Gives unknown pins the values at which the cofactor decides: those that rows give, and then harder ones.
#[inline(never)]
fn reduce(rows: &[Row], pins: &mut [Trit])
    ensures same { is_tautology rows.now pins.new ≡ is_tautology rows.now pins.old }
    ensures fewer { unknown_count pins.new ≤ unknown_count pins.old }
{
    propagate_all(rows, pins);
    give_harder_values(rows, pins);
}

/// How many literals of a row count: each one more halves its weight, down to 1.
const MOST_WEIGHED: usize = 32;

/// The weight of a row, which is larger where it asks less (Jeroslow and Wang, 1990).
fn weight(lits: &[Lit]) -> usize {
    let asked = lits.iter().filter(|lit| **lit != Lit::Any).count();
    1 << MOST_WEIGHED.saturating_sub(asked)
}

/// Adds the weight of a row at each pin that it asks a value of.
fn add_weight(lits: &[Lit], weights: &mut [usize]) {
    let added = weight(lits);
    for (lit, weight) in lits.iter().zip(weights) {
        if *lit != Lit::Any {
            *weight = weight.saturating_add(added);
        }
    }
}

/// The first of the unknown pins with the highest weight, or this one where all weights are 0.
fn heaviest(weights: &[usize], pins: &[Trit], first: usize) -> usize
    requires { slice_get pins.now first ≡ Some X }
    ensures { slice_get pins.now result ≡ Some X }
{
    let mut best = first;
    let mut most = 0;
    for (pin, weight) in weights.iter().enumerate() {
        if *weight > most && matches!(pins.get(pin), Some(Trit::X)) {
            best = pin;
            most = *weight;
        }
    }
    best
}

/// The unknown pin with the heaviest rows that ask a value of it, or `None` where no pin is unknown.
#[inline(never)]
fn splitting_pin(alloc: Global, rows: &[Row], pins: &[Trit]) -> Result<Option<usize>, AllocError>
    ensures unknown { IfOk result (λ found. IfSome found (λ pin. slice_get pins.now pin ≡ Some X)) }
    ensures none { IfOk result (λ found. IfNone found (All (λ pin. pin ≢ X) pins.now)) }
{
    let Some(first) = pins.iter().position(|pin| *pin == Trit::X) else {
        return Ok(None);
    };
    let mut weights = vec![in alloc; 0_usize; pins.len()]?;
    for row in rows {
        if row_maybe_matches(row.lits.items(), pins) {
            add_weight(row.lits.items(), &mut weights);
        }
    }
    Ok(Some(heaviest(&weights, pins, first)))
}

/// Whether some row matches at each completion of the pins.
#[cycle(tautology)]
fn rows_are_tautology(alloc: Global, rows: &[Row], pins: &[Trit]) -> Result<bool, AllocError>
    ensures { IfOk result (λ all. all ≡ is_tautology rows.now pins.now) }
{
    if any_row_surely_matches(rows, pins) {
        return Ok(true);
    }
    if !any_row_maybe_matches(rows, pins) {
        return Ok(false);
    }
    let Some(pin) = splitting_pin(alloc, rows, pins)? else {
        return Ok(false);
    };
    match harder_value(rows, pins, pin) {
        Some(value) => cofactor_is_tautology(alloc, rows, pins, pin, value),
        None => {
            let low = cofactor_is_tautology(alloc, rows, pins, pin, false)?;
            if low {
                cofactor_is_tautology(alloc, rows, pins, pin, true)
            } else {
                Ok(false)
            }
        }
    }
}

fn copy_of(alloc: Global, pins: &[Trit]) -> Result<Vec<Trit>, AllocError>
    ensures { IfOk result (λ copied. copied.items ≡ pins.now) }
{
    pins.to_vec(alloc)
}

/// What a row asks of the unknown pins.
fn open_lits(alloc: Global, lits: &[Lit], pins: &[Trit]) -> Result<Vec<Lit>, AllocError>
    ensures { IfOk result (λ left. left.items ≡ open_lits lits.now pins.now) }
{
    lits.iter()
        .zip(pins)
        .filter(|pair| *pair.1 == Trit::X)
        .map(|pair| *pair.0)
        .collect(alloc)
}

fn open_row(alloc: Global, row: &Row, pins: &[Trit]) -> Result<Row, AllocError>
    ensures { IfOk result (λ left. left ≡ open_row pins.now row.now) }
{
    let lits = open_lits(alloc, row.lits.items(), pins)?;
    Ok(Row {
        lits: Items::of(lits),
    })
}

/// The rows that may match, and of each what it asks of the unknown pins.
#[inline(never)]
fn open_rows(alloc: Global, rows: &[Row], pins: &[Trit]) -> Result<Vec<Row>, AllocError>
    ensures { IfOk result (λ left. left.items ≡ open_rows rows.now pins.now) }
{
    let mut left = Vec::new(alloc);
    for row in rows {
        if row_maybe_matches(row.lits.items(), pins) {
            left.push(open_row(alloc, row, pins)?)?;
        }
    }
    Ok(left)
}

fn unknown_pins(mut pins: Vec<Trit>) -> Vec<Trit>
    ensures { result.items ≡ open_pins pins.items }
{
    pins.retain(|pin| *pin == Trit::X);
    pins
}

/// The same, asked of the unknown pins alone.
#[cycle(tautology)]
fn open_are_tautology(alloc: Global, rows: &[Row], pins: Vec<Trit>) -> Result<bool, AllocError>
    ensures { IfOk result (λ all. all ≡ is_tautology rows.now pins.items) }
{
    let open = open_rows(alloc, rows, &pins)?;
    let unknown = unknown_pins(pins);
    rows_are_tautology(alloc, &open, &unknown)
}

/// The same where this unknown pin has this value, and after it all pins whose values follow.
#[cycle(tautology)]
fn cofactor_is_tautology(
    alloc: Global,
    rows: &[Row],
    pins: &[Trit],
    pin: usize,
    value: bool,
) -> Result<bool, AllocError>
    requires { slice_get pins.now pin ≡ Some X }
    ensures { IfOk result (λ all. all ≡ is_tautology rows.now (slice_set pins.now pin (bit value))) }
{
    let mut copied = copy_of(alloc, pins)?;
    let pins = copied.as_mut_slice();
    pins[pin] = Trit::of(value);
    if any_row_surely_matches(rows, pins) {
        return Ok(true);
    }
    reduce(rows, pins);
    open_are_tautology(alloc, rows, copied)
}

/// The exact extension of the function of rows in a plane. A plane without rows is an on-plane.
pub(crate) fn extension_of_rows(
    alloc: Global,
    plane: bool,
    rows: &[Row],
    trits: &[Trit],
) -> Result<Trit, AllocError>
    requires { rows.now ≡ [] → plane ≡ true }
    ensures { IfOk result (λ trit. trit ≡ exact (value_of_rows plane rows.now) trits.now) }
{
    if any_row_surely_matches(rows, trits) {
        return Ok(Trit::of(plane));
    }
    if !any_row_maybe_matches(rows, trits) {
        return Ok(Trit::of(!plane));
    }
    let all = rows_are_tautology(alloc, rows, trits)?;
    if all {
        Ok(Trit::of(plane))
    } else {
        Ok(Trit::X)
    }
}
