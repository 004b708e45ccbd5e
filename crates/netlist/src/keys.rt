//! Numbers by which gates that may well be the same are found.

use cover_logic::{Cover, Lit, Row};
use cyc_base::Sig;

/// A number with one more in it: times an odd number, and then its upper half in its lower one too.
pub fn mixed(key: u64, number: u64) -> u64 {
    let mixed = (key ^ number).wrapping_mul(0x9e37_79b9_7f4a_7c15);
    mixed ^ (mixed >> 32)
}

fn with_literal(key: u64, lit: Lit) -> u64 {
    match lit {
        Lit::Zero => mixed(key, 1),
        Lit::One => mixed(key, 2),
        Lit::Any => mixed(key, 3),
    }
}

fn with_row(key: u64, row: &Row) -> u64 {
    let mut key = mixed(key, 4);
    for lit in row.lits.items() {
        key = with_literal(key, *lit);
    }
    key
}

/// A number for gates of this cover that read these wires: the same for the same gates, and mostly another one for others.
pub fn gate_key(cover: &Cover, pins: &[Sig]) -> u64 {
    let mut key = u64::from(cover.plane());
    for row in cover.rows() {
        key = with_row(key, row);
    }
    for pin in pins {
        key = mixed(key, u64::from(pin.0) + 5);
    }
    key
}
