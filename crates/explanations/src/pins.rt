//! Whether a gate's value stays unknown where some of its pins do, whatever the others are.

ghost use Rattle.std.specs.Prelude.{◌≡◌, ◌<◌, ◌↔◌, true, false, not, length, map, slice_index_or, slice_set, All, IfOk, IfSome, IfNone};
ghost use Rattle.std.specs.List.{list_any};
ghost use Rattle.cover_logic.specs.Covers.{allows};
ghost use Rattle.cover_logic.specs.Partial.{asks};
ghost use Rattle.cover_logic.specs.Extensions.{ext};
ghost use Rattle.cyc_base.specs.Values.{bit as bit_of};
ghost use Rattle.explanations.specs.Pins.{trit_of as trit_of_pin, is_free as is_free_pin, AreAsGood, CanBe, IsBetter, StaysOpen};

use cover_logic::{Cover, Lit, Row};
use cyc_base::Trit;
use std::alloc::{AllocError, Global};

/// What a gate may see on a pin.
#[derive(Clone, Copy, PartialEq, Eq)]
pub enum Pin {
    /// This value, which is determined.
    Known(bool),
    /// A gate that stays unknown.
    Open,
    /// Any value.
    Free,
}

/// What is known of the pin.
fn trit_of(pin: Pin) -> Trit
    ensures { result ≡ trit_of_pin pin }
{
    match pin {
        Pin::Known(bit) => Trit::of(bit),
        Pin::Open => Trit::X,
        Pin::Free => Trit::X,
    }
}

pub(crate) fn is_free(pin: Pin) -> bool
    ensures { result ≡ is_free_pin pin }
{
    match pin {
        Pin::Known(_) => false,
        Pin::Open => false,
        Pin::Free => true,
    }
}

fn trits_of(alloc: Global, pins: &[Pin]) -> Result<Vec<Trit>, AllocError>
    ensures { IfOk result (λ trits. trits.items ≡ map trit_of_pin pins.now) }
{
    pins.iter().map(|pin| trit_of(*pin)).collect(alloc)
}

fn is_allowed(lit: Lit, bit: bool) -> bool
    ensures { result ≡ allows lit bit }
{
    match lit {
        Lit::Zero => !bit,
        Lit::One => bit,
        Lit::Any => true,
    }
}

/// Whether a row matches only where the pin has this value.
fn row_asks(lits: &[Lit], pin: usize, bit: bool) -> bool
    ensures { result ≡ asks lits.now pin bit }
{
    match lits.get(pin) {
        Some(lit) => !is_allowed(*lit, !bit),
        None => false,
    }
}

fn some_row_asks(rows: &[Row], pin: usize, bit: bool) -> bool
    ensures { result ≡ list_any (λ row. asks row.lits pin bit) rows.now }
{
    rows.iter().any(|row| row_asks(row.lits.items(), pin, bit))
}

/// The value of a pin at which the gate has the wanted value wherever it has it at the pin's other value:
/// where rows are to match, one that no row forbids, and else one that no row asks for. `None` where rows
/// ask for both.
fn better_value(cover: &Cover, pin: usize, wanted: bool) -> Option<bool>
    ensures { IfSome result (IsBetter cover.now pin wanted) }
{
    let is_on = wanted == cover.plane();
    if !some_row_asks(cover.rows(), pin, !is_on) {
        Some(true)
    } else if !some_row_asks(cover.rows(), pin, is_on) {
        Some(false)
    } else {
        None
    }
}

/// Whether the gate is determined with the wanted value by what is known of its pins.
fn is_surely(alloc: Global, cover: &Cover, pins: &[Pin], wanted: bool) -> Result<bool, AllocError>
    requires { length pins.now ≡ cover.now.pins }
    ensures { IfOk result (λ is. (is ≡ true) ↔ (ext cover.now (map trit_of_pin pins.now) ≡ bit_of wanted)) }
{
    let trits = trits_of(alloc, pins)?;
    let value = cover.extend(alloc, &trits)?;
    Ok(is_bit(value, wanted))
}

pub(crate) fn is_bit(value: Trit, wanted: bool) -> bool
    ensures { (result ≡ true) ↔ (value ≡ bit_of wanted) }
{
    match value {
        Trit::Zero => !wanted,
        Trit::One => wanted,
        Trit::X => false,
    }
}

fn first_free(pins: &[Pin]) -> Option<usize>
    ensures found { IfSome result (λ pin. slice_index_or pins.now pin (Pin.Open) ≡ Pin.Free) }
    ensures none { IfNone result (All (λ pin. is_free_pin pin ≡ false) pins.now) }
{
    for place in 0..pins.len() {
        if is_free(pins[place]) {
            return Some(place);
        }
    }
    None
}

/// The pins, with this value of one of them.
fn with_value(alloc: Global, pins: &[Pin], pin: usize, bit: bool) -> Result<Vec<Pin>, AllocError>
    requires { pin < length pins.now }
    ensures { IfOk result (λ chosen. chosen.items ≡ slice_set pins.now pin (Pin.Known bit)) }
{
    let mut chosen = pins.to_vec(alloc)?;
    chosen[pin] = Pin::Known(bit);
    Ok(chosen)
}

/// Gives a free pin its better value, where it has one.
fn choose_better(cover: &Cover, pins: &mut [Pin], pin: usize, wanted: bool)
    requires pin { pin < length pins.old }
    ensures { AreAsGood cover.now wanted pins.old pins.new }
{
    if !is_free(pins[pin]) {
        return;
    }
    if let Some(bit) = better_value(cover, pin, wanted) {
        pins[pin] = Pin::Known(bit);
    }
}

/// The pins, with its better value of each free one that has one.
fn at_better_values(
    alloc: Global,
    cover: &Cover,
    pins: &[Pin],
    wanted: bool,
) -> Result<Vec<Pin>, AllocError>
    ensures { IfOk result (λ chosen. AreAsGood cover.now wanted pins.now chosen.items) }
{
    let mut chosen = pins.to_vec(alloc)?;
    for pin in 0..chosen.len() {
        choose_better(cover, &mut chosen, pin, wanted);
    }
    Ok(chosen)
}

/// Whether some values of the free pins determine the gate with the wanted value.
///
/// Each step gives one free pin both values, so the worst case doubles with each free pin.
#[cycle(choice)]
fn can_be(alloc: Global, cover: &Cover, pins: &[Pin], wanted: bool) -> Result<bool, AllocError>
    requires { length pins.now ≡ cover.now.pins }
    ensures { IfOk result (λ can. (can ≡ true) ↔ CanBe cover.now pins.now wanted) }
{
    if is_surely(alloc, cover, pins, wanted)? {
        return Ok(true);
    }
    let Some(pin) = first_free(pins) else {
        return Ok(false);
    };
    let low = can_be_with(alloc, cover, pins, pin, false, wanted)?;
    if low {
        Ok(true)
    } else {
        can_be_with(alloc, cover, pins, pin, true, wanted)
    }
}

/// The same where this free pin has this value.
#[cycle(choice)]
fn can_be_with(
    alloc: Global,
    cover: &Cover,
    pins: &[Pin],
    pin: usize,
    bit: bool,
    wanted: bool,
) -> Result<bool, AllocError>
    requires size { length pins.now ≡ cover.now.pins }
    requires free { slice_index_or pins.now pin (Pin.Open) ≡ Pin.Free }
    ensures { IfOk result (λ can. (can ≡ true) ↔ CanBe cover.now (slice_set pins.now pin (Pin.Known bit)) wanted) }
{
    let chosen = with_value(alloc, pins, pin, bit)?;
    can_be(alloc, cover, &chosen, wanted)
}

/// Whether some values of the free pins determine the gate with the wanted value.
///
/// Each pin that has a better value gets it at once. So only those of which the rows ask both values are tried by both.
fn can_become(alloc: Global, cover: &Cover, pins: &[Pin], wanted: bool) -> Result<bool, AllocError>
    requires { length pins.now ≡ cover.now.pins }
    ensures { IfOk result (λ can. (can ≡ true) ↔ CanBe cover.now pins.now wanted) }
{
    let chosen = at_better_values(alloc, cover, pins, wanted)?;
    can_be(alloc, cover, &chosen, wanted)
}

/// Whether the gate is unknown whatever its free pins are.
pub(crate) fn stays_open(alloc: Global, cover: &Cover, pins: &[Pin]) -> Result<bool, AllocError>
    requires { length pins.now ≡ cover.now.pins }
    ensures { IfOk result (λ stays. (stays ≡ true) ↔ StaysOpen cover.now pins.now) }
{
    let one = can_become(alloc, cover, pins, true)?;
    let zero = can_become(alloc, cover, pins, false)?;
    Ok(!one && !zero)
}
