//! Whether one of many literals is true.
ghost use Rattle.std.specs.Prelude.{◌≡◌, ◌≤◌, ◌<◌, ◌+◌, ◌*◌, All, length, OnOk, IfOk, IfErr};
ghost use Rattle.clause_formulas.specs.Formulas.{IsFormula};
ghost use Rattle.ternary_clauses.specs.Sums.{SaysOr, SaysAny};
ghost use Rattle.ternary_clauses.specs.declared.fault.ClausesFault.TheVariants.{TooMany};

use crate::fault::ClausesFault;
use crate::rails::new_column;
use clause_formulas::{Formula, negation};
use std::alloc::Global;

// The variable 0 is true, and this is its negation.
const FALSE: u32 = 1;

// A literal that is true where one of two others is.
fn add_or(formula: &mut Formula, a: u32, b: u32) -> Result<u32, ClausesFault>
    requires formula { IsFormula formula.old }
    requires a { a < 2 * formula.old.variables }
    requires b { b < 2 * formula.old.variables }
    ensures says { IfOk result (SaysOr formula.old formula.new a b) }
    ensures variables { OnOk result (formula.new.variables ≡ formula.old.variables + 1) }
    ensures many { IfErr result (λ fault. fault ≡ TooMany → 2147483647 ≤ formula.old.variables) }
{
    let sum = new_column(formula)?.one;
    formula.add_clause(&[negation(a), sum])?;
    formula.add_clause(&[negation(b), sum])?;
    formula.add_clause(&[negation(sum), a, b])?;
    Ok(sum)
}

/// For each literal one that is true where it or an earlier one is. So the first that some model makes true is found by
/// halves, with one question each. `TooMany` comes only where there would be over 2,147,483,647 variables, one for each
/// literal more.
pub fn add_any(
    alloc: Global,
    formula: &mut Formula,
    literals: &[u32],
) -> Result<Vec<u32>, ClausesFault>
    requires formula { IsFormula formula.old }
    requires literals { All (λ l. l < 2 * formula.old.variables) literals.now }
    ensures says { IfOk result (λ sums. SaysAny formula.old formula.new literals.now sums.items) }
    ensures many { IfErr result (λ fault. fault ≡ TooMany → 2147483647 < formula.old.variables + length literals.now) }
{
    let mut sums = Vec::new(alloc);
    let mut last = FALSE;
    for literal in literals {
        last = add_or(formula, last, *literal)?;
        sums.push(last)?;
    }
    Ok(sums)
}
