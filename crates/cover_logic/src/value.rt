//! The value of a cover at Boolean pins.

ghost use Rattle.std.specs.Prelude.{◌≡◌};
ghost use Rattle.cover_logic.specs.Covers.{allows, matches, some_row_matches, value_of_rows};

use crate::row::{Lit, Row};

pub(crate) fn is_allowed(lit: Lit, bit: bool) -> bool
    ensures { result ≡ allows lit bit }
{
    match lit {
        Lit::Zero => !bit,
        Lit::One => bit,
        Lit::Any => true,
    }
}

fn row_matches(lits: &[Lit], bits: &[bool]) -> bool
    ensures { result ≡ matches lits.now bits.now }
{
    lits.iter()
        .zip(bits)
        .all(|(lit, bit)| is_allowed(*lit, *bit))
}

fn any_row_matches(rows: &[Row], bits: &[bool]) -> bool
    ensures { result ≡ some_row_matches rows.now bits.now }
{
    rows.iter().any(|row| row_matches(row.lits.items(), bits))
}

/// The value of rows in a plane.
pub(crate) fn value_of_rows(plane: bool, rows: &[Row], bits: &[bool]) -> bool
    ensures { result ≡ value_of_rows plane rows.now bits.now }
{
    if plane {
        any_row_matches(rows, bits)
    } else {
        !rows.is_empty() && !any_row_matches(rows, bits)
    }
}
