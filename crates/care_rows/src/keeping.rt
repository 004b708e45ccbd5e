//! What is kept of the netlist, and where it stands in the model.

ghost use Rattle.std.specs.Prelude.{◌≡◌, ◌<◌, ◌≤◌, ◌+◌, length, All, IfOk};
ghost use Rattle.netlist.specs.Netlists.{IsNetlist, columns as column_count};
ghost use Rattle.loops.specs.Cones.{IsConeOf};
ghost use Rattle.care_rows.specs.Rows.{AreSteadyRows};
ghost use Rattle.care_rows.specs.Restricted.{gates_of_rows as gates_of};
ghost use Rattle.care_rows.specs.Models.{IsKept, IsPlaced};

use crate::columns::{add_places, used_columns};
use crate::kept::gates_of_rows;
use crate::rows::Row;
use loops::{LoopedNetlist, upstream_of};
use std::alloc::{AllocError, Global};

/// What is kept: marks of columns and of gates, and a place in the model for each signal that is kept.
pub(crate) struct Kept {
    pub columns: Vec<bool>,
    pub gates: Vec<bool>,
    pub places: Vec<u32>,
    /// How many columns are kept.
    pub inputs: u32,
    /// How many columns and gates.
    pub signals: u32,
}

impl Drop for Kept {
    fn drop(self) {
        let Kept {
            columns: _,
            gates: _,
            places: _,
            inputs: _,
            signals: _,
        } = self;
    }
}

/// What is marked, with its places.
fn kept_of_marks(alloc: Global, columns: Vec<bool>, gates: Vec<bool>) -> Result<Kept, AllocError>
    requires { length columns.items + length gates.items ≤ 4294967295 }
    ensures { IfOk result (IsPlaced columns.items gates.items) }
{
    let mut places = Vec::new(alloc);
    let inputs = add_places(&columns, 0, &mut places)?;
    let signals = add_places(&gates, inputs, &mut places)?;
    Ok(Kept {
        columns,
        gates,
        places,
        inputs,
        signals,
    })
}

/// The gates that drive wires of the rows, and all that lies upstream of them.
fn cone_of(alloc: Global, looped: &LoopedNetlist<'_>, rows: &[Row]) -> Result<Vec<bool>, AllocError>
    requires { AreSteadyRows looped.now.net rows.now }
    ensures { IfOk result (λ cone. IsConeOf looped.now.net (gates_of looped.now.net rows.now) cone.items) }
{
    let drivers = gates_of_rows(alloc, looped.net(), rows)?;
    upstream_of(alloc, looped, &drivers)
}

/// What is kept for these rows, and for an assumption that names these columns.
pub(crate) fn keep(
    alloc: Global,
    looped: &LoopedNetlist<'_>,
    assumed: &[u32],
    rows: &[Row],
) -> Result<Kept, AllocError>
    requires steady { AreSteadyRows looped.now.net rows.now }
    requires assumed { All (λ column. column < column_count looped.now.net) assumed.now }
    ensures { IfOk result (IsKept looped.now.net assumed.now rows.now) }
{
    looped.net().laws();
    let gates = cone_of(alloc, looped, rows)?;
    let columns = used_columns(alloc, looped.net(), assumed, rows, &gates)?;
    kept_of_marks(alloc, columns, gates)
}
