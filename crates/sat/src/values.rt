ghost use Rattle.std.specs.Prelude.{◌≡◌};
ghost use Rattle.sat.specs.Values.{assigned, opposite, value_of};

use crate::lit::Lit;
use crate::tables::at;

/// What a variable or a literal is while the search goes on.
#[derive(Clone, Copy)]
pub(crate) enum Truth {
    Open,
    True,
    False,
}

#[inline(always)]
fn flipped(value: Truth) -> Truth
    ensures { result ≡ opposite value }
{
    match value {
        Truth::Open => Truth::Open,
        Truth::True => Truth::False,
        Truth::False => Truth::True,
    }
}

/// The value of a literal, where these are the variables'. Variables past the end are false.
#[inline(always)]
pub(crate) fn value_in(values: &[Truth], lit: Lit) -> Truth
    ensures { result ≡ value_of values.now lit }
{
    let value = at(values, lit.variable() as usize, Truth::False);
    if lit.code % 2 == 0 {
        value
    } else {
        flipped(value)
    }
}

/// Makes a literal true, if its variable isn't past the end.
#[inline(always)]
pub(crate) fn make_true(values: &mut Vec<Truth>, lit: Lit)
    ensures { values.new.items ≡ assigned values.old.items lit }
{
    let variable = lit.variable() as usize;
    if variable < values.as_slice().len() {
        values[variable] = if lit.code % 2 == 0 {
            Truth::True
        } else {
            Truth::False
        };
    }
}
