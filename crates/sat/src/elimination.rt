ghost use Rattle.std.specs.Prelude.{◌≡◌, IfSome};
ghost use Rattle.sat.specs.declared.values.Truth.TheVariants.{Open};
ghost use Rattle.sat.specs.Values.{value_of};

use crate::clauses::Clauses;
use crate::lit::Lit;
use crate::tables::{at, put};
use crate::trail::{NONE, Trail, is_false, is_open};
use std::alloc::{AllocError, Global};

/// A literal of an eliminated variable, and which of the saved clauses it was in.
#[derive(Clone, Copy)]
struct Group {
    lit: Lit,
    start: u32,
    end: u32,
}

/// Variables that a search does without, since all that follows by resolution on them stands in place of the clauses that
/// they were in (Davis and Putnam 1960, Eén and Biere 2005). All of it is hints: what it leaves out of the database is in
/// the formula still.
pub(crate) struct Elimination {
    /// Whether each variable is eliminated.
    is_eliminated: Vec<bool>,
    /// Clauses from which a model gets the values of those variables: each literal is true where one of its clauses has no
    /// other true literal.
    groups: Vec<Group>,
    saved: Clauses,
    /// How many of the groups may be open yet, the first ones.
    left: usize,
}

impl Drop for Elimination {
    fn drop(self) {
        let Elimination {
            is_eliminated: _,
            groups: _,
            saved: _,
            left: _,
        } = self;
    }
}

impl Elimination {
    /// Without variables.
    pub(crate) fn new(alloc: Global) -> Elimination {
        Elimination {
            is_eliminated: Vec::new(alloc),
            groups: Vec::new(alloc),
            saved: Clauses::new(alloc),
            left: 0,
        }
    }
}

/// Adds variables up to so many.
pub(crate) fn widen(elimination: &mut Elimination, variables: usize) -> Result<(), AllocError> {
    elimination.is_eliminated.resize(variables, false)
}

/// Whether a variable is eliminated.
#[inline(always)]
pub(crate) fn is_gone(elimination: &Elimination, variable: u32) -> bool {
    at(&elimination.is_eliminated, variable as usize, false)
}

/// Whether a clause has an eliminated variable.
pub(crate) fn has_gone(elimination: &Elimination, clause: &[Lit]) -> bool {
    for lit in clause {
        if is_gone(elimination, lit.variable()) {
            return true;
        }
    }
    false
}

/// Whether no variable is eliminated.
pub(crate) fn is_empty(elimination: &Elimination) -> bool {
    elimination.groups.as_slice().is_empty()
}

/// Nothing is eliminated.
pub(crate) fn forget(alloc: Global, elimination: &mut Elimination) {
    for gone in elimination.is_eliminated.iter_mut() {
        *gone = false;
    }
    elimination.groups.clear();
    elimination.saved = Clauses::new(alloc);
    elimination.left = 0;
}

/// Some of the eliminated variables may be open again.
pub(crate) fn look_again(elimination: &mut Elimination) {
    elimination.left = elimination.groups.as_slice().len();
}

/// Whether all literals of a clause but one are false.
fn forces(trail: &Trail, clause: &[Lit], lit: Lit) -> bool {
    for other in clause {
        if other.code != lit.code && !is_false(trail, *other) {
            return false;
        }
    }
    true
}

/// Whether a clause of a group makes its literal true.
fn is_forced(trail: &Trail, saved: &Clauses, group: Group) -> bool {
    for number in group.start..group.end.min(saved.len()) {
        if forces(trail, saved.clause(number), group.lit) {
            return true;
        }
    }
    false
}

/// The next eliminated variable that is open, as the others ask for it: those that were eliminated later come first.
pub(crate) fn next_gone(trail: &Trail, elimination: &mut Elimination) -> Option<Lit>
    ensures { IfSome result (λ l. value_of trail.now.values.items l ≡ Open) }
{
    for place in (0..elimination.left).rev() {
        let group = elimination.groups.as_slice().get(place).copied()?;
        elimination.left = place;
        let lit = if is_forced(trail, &elimination.saved, group) {
            group.lit
        } else {
            group.lit.negated()
        };
        if is_open(trail, lit) {
            return Some(lit);
        }
    }
    None
}

/// Eliminates the variable of a literal, and saves clauses of it from which it gets its value.
pub(crate) fn save(
    database: &Clauses,
    elimination: &mut Elimination,
    lit: Lit,
    numbers: &[u32],
) -> Result<(), AllocError> {
    let start = elimination.saved.len();
    for number in numbers {
        save_clause(database, elimination, *number)?;
    }
    let end = elimination.saved.len();
    elimination.groups.push(Group { lit, start, end })?;
    put(
        &mut elimination.is_eliminated,
        lit.variable() as usize,
        true,
    );
    Ok(())
}

fn save_clause(
    database: &Clauses,
    elimination: &mut Elimination,
    number: u32,
) -> Result<(), AllocError> {
    if elimination.saved.len() == NONE || number >= database.len() {
        return Err(AllocError);
    }
    elimination.saved.push(database.clause(number))
}
