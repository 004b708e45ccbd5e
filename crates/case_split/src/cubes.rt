//! What cubes ask of columns.

ghost use Rattle.std.specs.Prelude.{◌≡◌, ◌↔◌, true};
ghost use Rattle.case_split.specs.Cubes.{literal_of as literal_with, asked_of as asked_by, IsCube};

use crate::cases::ColumnValue;
use cover_logic::Lit;

fn literal_of(value: bool) -> Lit
    ensures { result ≡ literal_with value }
{
    if value { Lit::One } else { Lit::Zero }
}

/// What a cube asks of a column.
pub(crate) fn asked_of(cube: &[ColumnValue], column: u32) -> Lit
    ensures { result ≡ asked_by cube.now column }
{
    for literal in cube {
        if literal.column == column {
            return literal_of(literal.value);
        }
    }
    Lit::Any
}

/// Whether a cube asks of no column both values.
pub(crate) fn is_cube(cube: &[ColumnValue]) -> bool
    ensures { (result ≡ true) ↔ IsCube cube.now }
{
    for literal in cube {
        if asked_of(cube, literal.column) != literal_of(literal.value) {
            return false;
        }
    }
    true
}
