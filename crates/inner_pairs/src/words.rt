//! The values of a wire at 64 vectors at once, and what a gate makes of those of its pins.

use cover_logic::{Lit, Row};
use cyc_base::Sig;
use netlist::Gate;

/// The values of a wire at 64 vectors, a bit of each number for each: where it is 1, and where it is 0. Where it is neither
/// it is unknown.
#[derive(Clone, Copy, PartialEq, Eq)]
pub(crate) struct Word {
    pub ones: u64,
    pub zeros: u64,
}

impl Word {
    /// Unknown at each vector.
    pub const UNKNOWN: Word = Word { ones: 0, zeros: 0 };

    const ZERO: Word = Word {
        ones: 0,
        zeros: u64::MAX,
    };

    const ONE: Word = Word {
        ones: u64::MAX,
        zeros: 0,
    };

    /// Known at each vector.
    pub fn known(ones: u64) -> Word {
        Word { ones, zeros: !ones }
    }

    /// This value at each vector.
    pub fn constant(value: bool) -> Word {
        if value { Word::ONE } else { Word::ZERO }
    }

    /// Known at these vectors alone.
    pub fn within(self, vectors: u64) -> Word {
        Word {
            ones: self.ones & vectors,
            zeros: self.zeros & vectors,
        }
    }

    /// At which vectors one of the two is 1 and the other 0.
    pub fn apart(self, other: Word) -> u64 {
        self.ones & other.zeros | self.zeros & other.ones
    }

    fn not(self) -> Word {
        Word {
            ones: self.zeros,
            zeros: self.ones,
        }
    }

    fn and(self, other: Word) -> Word {
        Word {
            ones: self.ones & other.ones,
            zeros: self.zeros | other.zeros,
        }
    }

    fn or(self, other: Word) -> Word {
        self.not().and(other.not()).not()
    }
}

/// The word at a place, unknown where there is none.
pub(crate) fn word_at(words: &[Word], place: usize) -> Word {
    match words.get(place) {
        Some(word) => *word,
        None => Word::UNKNOWN,
    }
}

/// Where a literal holds.
fn literal_word(lit: Lit, pin: Word) -> Word {
    match lit {
        Lit::One => pin,
        Lit::Zero => pin.not(),
        Lit::Any => Word::ONE,
    }
}

/// Where a row holds.
fn row_word(row: &Row, pins: &[Sig], words: &[Word]) -> Word {
    let mut holds = Word::ONE;
    for (lit, pin) in row.lits.items().iter().zip(pins) {
        holds = holds.and(literal_word(*lit, word_at(words, pin.0 as usize)));
    }
    holds
}

/// Where some row holds.
fn rows_word(rows: &[Row], pins: &[Sig], words: &[Word]) -> Word {
    let mut holds = Word::ZERO;
    for row in rows {
        holds = holds.or(row_word(row, pins, words));
    }
    holds
}

/// The word of a gate, row by row: unknown also where only the rows together tell its value.
pub(crate) fn gate_word(gate: &Gate, words: &[Word]) -> Word {
    let holds = rows_word(gate.cover.rows(), gate.pins.items(), words);
    if gate.cover.plane() {
        holds
    } else {
        holds.not()
    }
}
