//! Cases, and what is known in one.

ghost use Rattle.std.specs.Prelude.{◌≡◌, List, length, replicate, All, IfOk};
ghost use Rattle.cyc_base.specs.Values.{EachBelow};
ghost use Rattle.cyc_base.specs.declared.trit.Trit.{Trit};
ghost use Rattle.cyc_base.specs.declared.trit.Trit.TheVariants.{X};
ghost use Rattle.loops.specs.Sweeps.{first_gate};
ghost use Rattle.case_split.specs.Cases.{AreOfColumns, Holds, IsUsable};
ghost use Rattle.case_split.specs.CaseTables.{IsBelowCase};

use cyc_base::Trit;
use netlist::Netlist;
use std::alloc::{AllocError, Global};

/// A column that has a value.
#[derive(Clone, Copy, PartialEq, Eq)]
pub struct ColumnValue {
    pub column: u32,
    pub value: bool,
}

/// A case: by its cube columns select its copies, and the rest is what else is known of columns at the vectors of the case.
pub struct Case {
    pub cube: Vec<ColumnValue>,
    pub known: Vec<ColumnValue>,
}

impl Drop for Case {
    fn drop(self) {
        let Case { cube: _, known: _ } = self;
    }
}

/// The vector that knows no column.
fn unknown_vector(alloc: Global, net: &Netlist) -> Result<Vec<Trit>, AllocError>
    ensures { IfOk result (λ given. given.items ≡ replicate (first_gate net.now) X) }
{
    vec![in alloc; Trit::X; net.columns() as usize]
}

/// Gives columns these values.
fn know(given: &mut Vec<Trit>, values: &[ColumnValue])
    requires { AreOfColumns (length given.old.items) values.now }
    ensures width { length given.new.items ≡ length given.old.items }
    ensures below { (v : List Trit) → EachBelow given.old.items v → All (Holds v) values.now → EachBelow given.new.items v }
{
    for literal in values {
        given[literal.column as usize] = Trit::of(literal.value);
    }
}

/// The vector that knows these columns alone.
pub(crate) fn vector_of(
    alloc: Global,
    net: &Netlist,
    values: &[ColumnValue],
) -> Result<Vec<Trit>, AllocError>
    requires { AreOfColumns (first_gate net.now) values.now }
    ensures width { IfOk result (λ given. length given.items ≡ first_gate net.now) }
    ensures below { IfOk result (λ given. (v : List Trit) → length v ≡ first_gate net.now → All (Holds v) values.now → EachBelow given.items v) }
{
    let mut given = unknown_vector(alloc, net)?;
    know(&mut given, values);
    Ok(given)
}

/// The vector that knows alone what is known in a case.
pub(crate) fn known_vector(
    alloc: Global,
    net: &Netlist,
    case: &Case,
) -> Result<Vec<Trit>, AllocError>
    requires { IsUsable (first_gate net.now) case.now }
    ensures width { IfOk result (λ given. length given.items ≡ first_gate net.now) }
    ensures below { IfOk result (λ given. IsBelowCase net.now case.now given.items) }
{
    let mut given = vector_of(alloc, net, &case.cube)?;
    know(&mut given, &case.known);
    Ok(given)
}
