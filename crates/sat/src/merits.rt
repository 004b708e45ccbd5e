use crate::tables::{at, put};
use crate::trail::NONE;
use std::alloc::{AllocError, Global};

/// What speaks for keeping a clause.
#[derive(Clone, Copy)]
pub(crate) struct Merit {
    /// At how many levels its literals became false when it was learned (Audemard and Simon 2009), and 0 for a clause
    /// of the formula.
    pub(crate) glue: u32,
    /// How much conflicts have read it, where later ones count for more.
    pub(crate) score: f64,
}

/// The merit of a clause of the formula.
pub(crate) const GIVEN: Merit = Merit {
    glue: 0,
    score: 0.0,
};

/// The merit of each clause. All of it is hints.
pub(crate) struct Merits {
    pub(crate) merits: Vec<Merit>,
    /// How many clauses may be forgotten.
    pub(crate) passing: usize,
    /// What a clause's score gains.
    gain: f64,
}

impl Drop for Merits {
    fn drop(self) {
        let Merits {
            merits: _,
            passing: _,
            gain: _,
        } = self;
    }
}

impl Merits {
    /// Without clauses.
    pub(crate) fn new(alloc: Global) -> Merits {
        Merits {
            merits: Vec::new(alloc),
            passing: 0,
            gain: 1.0,
        }
    }
}

/// Whether a clause may be forgotten: those of the formula stay, and those of one or two levels.
pub(crate) fn is_passing(merit: Merit) -> bool {
    merit.glue > 2
}

/// Adds the merit of the next clause.
pub(crate) fn add(merits: &mut Merits, merit: Merit) -> Result<(), AllocError> {
    merits.merits.push(merit)?;
    if is_passing(merit) {
        merits.passing = merits.passing.wrapping_add(1);
    }
    Ok(())
}

/// Without clauses again.
pub(crate) fn clear(merits: &mut Merits) {
    merits.merits.clear();
    merits.passing = 0;
}

/// The clauses of the formula may be forgotten before all others.
pub(crate) fn give_up_given(merits: &mut Merits) {
    for merit in merits.merits.iter_mut() {
        if merit.glue == 0 {
            *merit = Merit {
                glue: NONE,
                score: -1.0,
            };
        }
    }
}

/// The merit of a clause that has just been learned.
pub(crate) fn of_learned(merits: &Merits, glue: u32) -> Merit {
    Merit {
        glue,
        score: merits.gain,
    }
}

fn scale(merits: &mut Merits) {
    for merit in merits.merits.iter_mut() {
        merit.score = merit.score * 1e-100;
    }
    merits.gain = merits.gain * 1e-100;
}

/// A conflict has read a clause.
fn bumped(merits: &mut Merits, number: u32) {
    let mut merit = at(&merits.merits, number as usize, GIVEN);
    if merit.glue == 0 {
        return;
    }
    merit.score = merit.score + merits.gain;
    put(&mut merits.merits, number as usize, merit);
    if merit.score > 1e100 {
        scale(merits);
    }
}

/// A conflict has read these clauses, and later ones count for more.
pub(crate) fn bump_all(merits: &mut Merits, numbers: &[u32]) {
    for number in numbers {
        bumped(merits, *number);
    }
    merits.gain = merits.gain * 1.001;
}
