//! Whether a pin of a gate matters where some of its pins are unknown.
//!
//! It does exactly if some row shows so: at what is known of the pins and what the row asks of the others, the cover is
//! determined with the value that its rows list where this pin has one value, and isn't where it has the other.

ghost use Rattle.std.specs.Prelude.{◌≡◌, ◌≢◌, ◌<◌, ◌↔◌, true, false, length, map, slice_get, slice_index_or, slice_set, zip, Contains, IfOk, Some};
ghost use Rattle.cyc_base.specs.declared.trit.Trit.TheVariants.{X};
ghost use Rattle.cyc_base.specs.Values.{bit as bit_of};
ghost use Rattle.cover_logic.specs.declared.row.Lit.TheVariants.{Any};
ghost use Rattle.cover_logic.specs.Extensions.{ext};
ghost use Rattle.explanations.specs.Matters.{met, cube_of, Matters, MattersBy};

use crate::pins::is_bit;
use cover_logic::{Cover, Lit, Row};
use cyc_base::Trit;
use std::alloc::{AllocError, Global};

/// What is known of a pin where a row matches.
fn matching_value(lit: Lit, trit: Trit) -> Trit
    ensures { result ≡ met lit trit }
{
    match (lit, trit) {
        (Lit::Zero, Trit::X) => Trit::Zero,
        (Lit::One, Trit::X) => Trit::One,
        (_, trit) => trit,
    }
}

/// What is known of the pins where a row matches.
fn cube(alloc: Global, lits: &[Lit], trits: &[Trit]) -> Result<Vec<Trit>, AllocError>
    ensures { IfOk result (λ cube. cube.items ≡ cube_of lits.now trits.now) }
{
    lits.iter()
        .zip(trits)
        .map(|(lit, trit)| matching_value(*lit, *trit))
        .collect(alloc)
}

/// The values, with this one of one pin.
fn with_value(alloc: Global, trits: &[Trit], pin: usize, bit: bool) -> Result<Vec<Trit>, AllocError>
    requires { pin < length trits.now }
    ensures { IfOk result (λ chosen. chosen.items ≡ slice_set trits.now pin (bit_of bit)) }
{
    let mut chosen = trits.to_vec(alloc)?;
    chosen[pin] = Trit::of(bit);
    Ok(chosen)
}

/// Whether the cover is determined with the value that its rows list, where the pin has this value.
fn is_listed(
    alloc: Global,
    cover: &Cover,
    trits: &[Trit],
    pin: usize,
    bit: bool,
) -> Result<bool, AllocError>
    requires size { length trits.now ≡ cover.now.pins }
    requires pin { pin < length trits.now }
    ensures { IfOk result (λ is. (is ≡ true) ↔ (ext cover.now (slice_set trits.now pin (bit_of bit)) ≡ bit_of cover.now.plane)) }
{
    let chosen = with_value(alloc, trits, pin, bit)?;
    let value = cover.extend(alloc, &chosen)?;
    Ok(is_bit(value, cover.plane()))
}

/// Whether a row asks for a value of the pin.
fn asks(lits: &[Lit], pin: usize) -> bool
    ensures { (result ≡ true) ↔ (slice_index_or lits.now pin Any ≢ Any) }
{
    match lits.get(pin) {
        Some(Lit::Zero) => true,
        Some(Lit::One) => true,
        _ => false,
    }
}

/// Whether the pin matters by values at which this row matches.
fn row_shows(
    alloc: Global,
    cover: &Cover,
    row: &Row,
    trits: &[Trit],
    pin: usize,
) -> Result<bool, AllocError>
    requires size { length trits.now ≡ cover.now.pins }
    requires row { Contains cover.now.rows row.now }
    requires width { length row.now.lits ≡ cover.now.pins }
    requires unknown { slice_get trits.now pin ≡ Some X }
    ensures shown { IfOk result (λ shows. shows ≡ true → Matters cover.now trits.now pin) }
    ensures all { IfOk result (λ shows. MattersBy cover.now row.now trits.now pin → shows ≡ true) }
{
    let lits = row.lits.items();
    if !asks(lits, pin) {
        return Ok(false);
    }
    let cube = cube(alloc, lits, trits)?;
    let low = is_listed(alloc, cover, &cube, pin, false)?;
    let high = is_listed(alloc, cover, &cube, pin, true)?;
    Ok(low != high)
}

/// Whether an unknown pin matters: whether some values of the unknown pins let a flip of this one flip the cover.
///
/// The worst case is that of `Cover::extend`, twice for each row that asks for a value of the pin.
pub(crate) fn matters(
    alloc: Global,
    cover: &Cover,
    trits: &[Trit],
    pin: usize,
) -> Result<bool, AllocError>
    requires size { length trits.now ≡ cover.now.pins }
    requires unknown { slice_get trits.now pin ≡ Some X }
    ensures { IfOk result (λ matters. (matters ≡ true) ↔ Matters cover.now trits.now pin) }
{
    for row in cover.rows() {
        if row_shows(alloc, cover, row, trits, pin)? {
            return Ok(true);
        }
    }
    Ok(false)
}
