//! Columns of a vector, as variables.
ghost use Rattle.std.specs.Prelude.{◌≡◌, ◌+◌, ◌<◌, IfOk, IfErr};
ghost use Rattle.clause_formulas.specs.Formulas.{IsFormula};
ghost use Rattle.ternary_clauses.specs.Columns.{SaysColumns};
ghost use Rattle.ternary_clauses.specs.declared.fault.ClausesFault.TheVariants.{TooMany};

use crate::fault::ClausesFault;
use crate::rails::{Rails, new_column};
use clause_formulas::Formula;
use std::alloc::Global;

/// New variables, one for each column of a vector: rails that are known, and free. `TooMany` comes only where they would be
/// over 2,147,483,647 with those that there are.
pub fn add_columns(
    alloc: Global,
    formula: &mut Formula,
    count: u32,
) -> Result<Vec<Rails>, ClausesFault>
    requires { IsFormula formula.old }
    ensures says { IfOk result (λ rails. SaysColumns formula.old formula.new rails.items count) }
    ensures many { IfErr result (λ fault. fault ≡ TooMany → 2147483647 < formula.old.variables + count) }
{
    let mut rails = Vec::new(alloc);
    for _ in 0..count {
        let column = new_column(formula)?;
        rails.push(column)?;
    }
    Ok(rails)
}
