//! The order of the three values.

use cyc_base::Trit;

pub const CASES: u32 = 3;

fn value_of(case: u32) -> Trit {
    match case {
        0 => Trit::Zero,
        1 => Trit::One,
        _ => Trit::X,
    }
}

/// Whether a value is above unknown, below 0 unless it is 1, and the one that it is known to be.
pub fn is_right(case: u32) -> bool {
    let value = value_of(case);
    Trit::X.is_below(value)
        && value.is_below(Trit::Zero) == (value != Trit::One)
        && value.known().map(Trit::of).unwrap_or(Trit::X) == value
}
