//! Whether two values aren't known and equal.
ghost use Rattle.std.specs.Prelude.{◌≡◌, ◌≤◌, IfOk, IfErr};
ghost use Rattle.ternary_clauses.specs.Apart.{SaysApart};
ghost use Rattle.clause_formulas.specs.Formulas.{IsFormula};
ghost use Rattle.ternary_clauses.specs.Rails.{AreRailsOf};
ghost use Rattle.ternary_clauses.specs.declared.fault.ClausesFault.TheVariants.{TooMany};

use crate::fault::ClausesFault;
use crate::rails::{Rails, add_unless_equal, new_column};
use clause_formulas::Formula;

/// A literal that is true where one of two values is unknown, or one is 0 and the other 1. Where no model has it, its
/// negation makes each of the two known from the other. `TooMany` comes only where there are 2,147,483,647 variables.
pub fn add_apart(formula: &mut Formula, here: Rails, there: Rails) -> Result<u32, ClausesFault>
    requires formula { IsFormula formula.old }
    requires here { AreRailsOf formula.old here }
    requires there { AreRailsOf formula.old there }
    ensures says { IfOk result (SaysApart formula.old formula.new here there) }
    ensures many { IfErr result (λ fault. fault ≡ TooMany → 2147483647 ≤ formula.old.variables) }
{
    let apart = new_column(formula)?.one;
    add_unless_equal(formula, here, there, apart)?;
    Ok(apart)
}
