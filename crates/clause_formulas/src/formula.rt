ghost use Rattle.std.specs.Prelude.{◌≡◌, ◌∷◌, [], ◌<◌, ◌*◌, ◌&&◌, Bool, List, length, All, OnOk, IfOk};
ghost use Rattle.std.specs.List.{list_any};
ghost use Rattle.clause_formulas.specs.Formulas.{negation as negation_of, holds, says, IsFormula};

use std::alloc::{AllocError, Global};

/// The most variables that there may be, so that each literal is a `u32`.
pub const MAX_VARIABLES: u32 = 2_147_483_647;

/// Clauses in one list: before the literals of each stands how many they are. A literal is twice its variable, and
/// one more where it negates it.
pub struct Formula {
    /// How many variables there are.
    pub variables: u32,
    pub literals: Vec<u32>,
}

impl Drop for Formula {
    fn drop(self) {
        let Formula {
            variables: _,
            literals: _,
        } = self;
    }
}

/// The literal of the other sign.
pub fn negation(literal: u32) -> u32
    ensures { result ≡ negation_of literal }
{
    if literal % 2 == 0 {
        literal + 1
    } else {
        literal - 1
    }
}

/// Whether a literal is true under an assignment. Variables that it has no value for are false.
pub fn value_of(assignment: &[bool], literal: u32) -> bool
    ensures { result ≡ says assignment.now literal }
{
    let value = match assignment.get((literal / 2) as usize) {
        Some(value) => *value,
        None => false,
    };
    if literal % 2 == 0 { value } else { !value }
}

impl Formula {
    /// A variable that is true, and nothing else.
    pub fn first(alloc: Global) -> Result<Formula, AllocError>
        ensures formula { IfOk result IsFormula }
        ensures variables { IfOk result (λ f. f.variables ≡ 1) }
        ensures literals { IfOk result (λ f. f.literals.items ≡ 1 ∷ 0 ∷ []) }
        ensures says { IfOk result (λ f. (m : List Bool) → holds m f.literals.items ≡ says m 0) }
    {
        let literals = vec![in alloc; 1_u32, 0]?;
        Ok(Formula {
            variables: 1,
            literals,
        })
    }

    /// Adds one clause, of literals of the formula's variables. On an error the formula is no longer one.
    pub fn add_clause(&mut self, clause: &[u32]) -> Result<(), AllocError>
        requires formula { IsFormula self.old }
        requires literals { All (λ l. l < 2 * self.old.variables) clause.now }
        requires size { length clause.now < 4294967296 }
        ensures formula { OnOk result (IsFormula self.new) }
        ensures variables { self.new.variables ≡ self.old.variables }
        ensures says { OnOk result ((m : List Bool) → holds m self.new.literals.items ≡ (holds m self.old.literals.items && list_any (says m) clause.now)) }
    {
        self.literals.push(clause.len() as u32)?;
        self.literals.extend_from_slice(clause)?;
        Ok(())
    }
}
