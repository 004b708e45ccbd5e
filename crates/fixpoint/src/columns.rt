//! The columns of a netlist's vectors as variables of diagrams.

ghost use Rattle.std.specs.Prelude.{◌*◌, IfOk};
ghost use Rattle.bdd_store.specs.Growth.{Grows};
ghost use Rattle.bdd_ops.specs.Least.{IsLayout};
ghost use Rattle.fixpoint.specs.Columns.{AreColumns};

use bdd_ops::Diagrams;
use bdd_store::{Node, StoreFault};
use dual_rail::{Rails, var_rails};
use std::alloc::Global;

/// The rails of all columns, each at its place. `columns` has the column of each variable.
///
/// The condition is that each column stands there once.
pub fn column_rails(
    alloc: Global,
    d: &mut Diagrams,
    columns: &[u32],
) -> Result<Vec<Rails>, StoreFault>
    requires { IsLayout d.old.vars columns.now }
    ensures rails { IfOk result (λ rails. AreColumns d.new columns.now rails.items) }
    ensures grows { Grows result d.old d.new (2 * d.old.vars) }
{
    let unset = Rails {
        one: Node::of(false),
        zero: Node::of(false),
    };
    let mut rails = vec![in alloc; unset; columns.len()]?;
    for variable in 0..d.store().vars() {
        let made = var_rails(d, variable)?;
        rails[columns[variable as usize] as usize] = made;
    }
    Ok(rails)
}
