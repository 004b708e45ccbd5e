//! One model of a care set, evaluated by ternary simulation.

ghost use Rattle.std.specs.Prelude.{◌≡◌, ◌≤◌, ◌-◌, ◌<◌, All, IfOk, length, map, slice_index_or, false};
ghost use Rattle.cyc_base.specs.Values.{bit};
ghost use Rattle.netlist.specs.Fixpoint.{wire};
ghost use Rattle.care_sets.specs.Care.{HasValues, holds_at, is_one as is_one_value};
ghost use Rattle.care_sets.specs.Binding.{IsCareModel};

use cyc_base::{Items, Sig, Trit};
use netlist::Netlist;
use std::alloc::{AllocError, Global};
use ternary_run::settle;

/// A model of a care set.
pub(crate) struct CareModel {
    pub net: Netlist,
    /// The first column of the netlist that it may read.
    pub first: u32,
    /// The column that each of its inputs names.
    pub columns: Items<u32>,
}

impl Drop for CareModel {
    fn drop(self) {
        let CareModel {
            net: _,
            first: _,
            columns: _,
        } = self;
    }
}

/// The values of these columns, where those from `first` on have the given values.
fn inputs_at(
    alloc: Global,
    columns: &[u32],
    first: u32,
    values: &[bool],
) -> Result<Vec<Trit>, AllocError>
    requires columns { All (λ column. first ≤ column) columns.now }
    requires values { All (λ column. column - first < length values.now) columns.now }
    ensures { IfOk result (λ trits. trits.items ≡ map (λ column. bit (slice_index_or values.now (column - first) false)) columns.now) }
{
    columns
        .iter()
        .map(|column| Trit::of(values[(*column - first) as usize]))
        .collect(alloc)
}

/// Whether a signal is 1.
fn is_one(values: &[Trit], signal: Sig) -> bool
    requires { signal.0 < length values.now }
    ensures { result ≡ is_one_value (wire values.now signal) }
{
    match values[signal.0 as usize] {
        Trit::One => true,
        _ => false,
    }
}

impl CareModel {
    /// Whether the model's output is 1 in its fixpoint, where the columns from its first one on have these
    /// values.
    pub(crate) fn holds_at(&self, alloc: Global, values: &[bool]) -> Result<bool, AllocError>
        requires model { IsCareModel self.now }
        requires values { HasValues values.now self.now }
        ensures { IfOk result (λ holds. holds ≡ holds_at self.now values.now) }
    {
        let given = inputs_at(alloc, self.columns.items(), self.first, values)?;
        let wires = settle(alloc, &self.net, &given)?;
        let output = self.net.outputs()[0];
        Ok(is_one(&wires, output))
    }
}
