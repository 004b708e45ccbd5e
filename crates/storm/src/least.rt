//! The least values of pins at which a cover is 0, or 1.

ghost use Rattle.std.specs.Prelude.{◌≡◌, ◌≢◌, ◌<◌, ◌+◌, length, not, IfOk, OnOk, map};
ghost use Rattle.cyc_base.specs.declared.trit.Trit.TheVariants.{X};
ghost use Rattle.cyc_base.specs.Values.{bit};
ghost use Rattle.cover_logic.specs.Covers.{value as value_of};
ghost use Rattle.cover_logic.specs.Extensions.{ext};
ghost use Rattle.storm.specs.Least.{least_where, AreKnown};
ghost use Rattle.storm.specs.Plans.{or_zero};

use cover_logic::Cover;
use cyc_base::{Bits, Trit};
use std::alloc::{AllocError, Global};

/// Gives a pin, if it is unknown, the least value with which the cover can still have this one.
fn decide_pin(
    alloc: Global,
    cover: &Cover,
    trits: &mut [Trit],
    pin: usize,
    wanted: bool,
) -> Result<(), AllocError>
    requires width { length trits.old ≡ cover.now.pins }
    requires pin { pin < length trits.old }
    requires known { AreKnown trits.old pin }
    requires possible { ext cover.now trits.old ≢ bit (not wanted) }
    ensures known { OnOk result (AreKnown trits.new (pin + 1)) }
    ensures possible { OnOk result (ext cover.now trits.new ≢ bit (not wanted)) }
    ensures least { OnOk result (least_where (value_of cover.now) wanted trits.new ≡ least_where (value_of cover.now) wanted trits.old) }
{
    if trits[pin] != Trit::X {
        return Ok(());
    }
    trits[pin] = Trit::Zero;
    let low = cover.extend(alloc, trits)?;
    if low == Trit::of(!wanted) {
        trits[pin] = Trit::One;
    }
    Ok(())
}

/// Gives each unknown pin, from the first on, the least value with which the cover can still have this one.
fn decide_pins(
    alloc: Global,
    cover: &Cover,
    trits: &mut [Trit],
    wanted: bool,
) -> Result<(), AllocError>
    requires width { length trits.old ≡ cover.now.pins }
    requires possible { ext cover.now trits.old ≢ bit (not wanted) }
    ensures known { OnOk result (AreKnown trits.new (length trits.new)) }
    ensures possible { OnOk result (ext cover.now trits.new ≢ bit (not wanted)) }
    ensures least { OnOk result (least_where (value_of cover.now) wanted trits.new ≡ least_where (value_of cover.now) wanted trits.old) }
{
    for pin in 0..trits.len() {
        decide_pin(alloc, cover, trits, pin, wanted)?;
    }
    Ok(())
}

/// The bits that these values are, with 0 for each one that is unknown.
fn known_bits(alloc: Global, trits: &[Trit]) -> Result<Vec<bool>, AllocError>
    ensures { IfOk result (λ bits. bits.items ≡ map or_zero trits.now) }
{
    trits
        .iter()
        .map(|trit| trit.known().unwrap_or(false))
        .collect(alloc)
}

/// The least completion of these values, which are decided on the way.
fn decided_bits(
    alloc: Global,
    cover: &Cover,
    trits: &mut [Trit],
    wanted: bool,
) -> Result<Vec<bool>, AllocError>
    requires width { length trits.old ≡ cover.now.pins }
    requires possible { ext cover.now trits.old ≢ bit (not wanted) }
    ensures { IfOk result (λ bits. bits.items ≡ least_where (value_of cover.now) wanted trits.old) }
{
    decide_pins(alloc, cover, trits, wanted)?;
    let bits = known_bits(alloc, trits)?;
    Ok(bits)
}

/// The least completion of these values at which the cover is 0, or 1, where there is one. Pin by pin, from the first
/// on, 0 is kept exactly where the cover can still have the wanted value: so the work is an extension for each pin, and
/// no completion is listed.
pub(crate) fn least_completion(
    alloc: Global,
    cover: &Cover,
    trits: &[Trit],
    wanted: bool,
) -> Result<Bits, AllocError>
    requires width { length trits.now ≡ cover.now.pins }
    requires possible { ext cover.now trits.now ≢ bit (not wanted) }
    ensures { IfOk result (λ bits. bits ≡ least_where (value_of cover.now) wanted trits.now) }
{
    let mut decided = trits.to_vec(alloc)?;
    let bits = decided_bits(alloc, cover, decided.as_mut_slice(), wanted)?;
    Ok(Bits::of(bits))
}
