//! Care sets with rows excluded.

ghost use Rattle.std.specs.Prelude.{◌≡◌, option_map, IfOk, IfErr};
ghost use Rattle.care_sets.specs.Binding.{HasNoFault, IsCare, IsCareOf};
ghost use Rattle.care_rows.specs.Rows.{AreSteadyRows};
ghost use Rattle.care_rows.specs.Restricted.{IsRestrictFault};
ghost use Rattle.assumptions.specs.Making.{Excludes, IsBeside};

use care_rows::{RestrictFault, Row, restricted_model};
use care_sets::{Care, CareFault, bind};
use loops::LoopedNetlist;
use netlist::{Netlist, copy_netlist};
use std::alloc::{AllocError, Global};

fn copy_invariant(alloc: Global, care: &Care) -> Result<Option<Netlist>, AllocError>
    ensures copy { IfOk result (λ copy. copy ≡ option_map (λ model. model.net) care.now.invariant) }
    ensures valid { IsCare care.now }
{
    match care.invariant() {
        Some(model) => Ok(Some(copy_netlist(alloc, model)?)),
        None => Ok(None),
    }
}

/// Models without a fault are refused for want of memory alone.
fn want_of_memory(_fault: CareFault) -> AllocError
    requires { _fault ≡ CareFault.Memory }
{
    AllocError
}

/// The care set of this assumption, beside the invariant of another.
fn beside(alloc: Global, net: &Netlist, care: &Care, model: Netlist) -> Result<Care, AllocError>
    requires care { IsCareOf net.now care.now }
    requires passes { HasNoFault net.now 0 model }
    ensures { IfOk result (IsBeside net.now care.now model) }
{
    let invariant = copy_invariant(alloc, care)?;
    match bind(alloc, net, Some(model), invariant) {
        Ok(stronger) => Ok(stronger),
        Err(fault) => Err(want_of_memory(fault)),
    }
}

/// The care set with these rows excluded.
pub(crate) fn stronger_care(
    alloc: Global,
    looped: &LoopedNetlist<'_>,
    care: &Care,
    rows: &[Row],
) -> Result<Care, RestrictFault>
    requires care { IsCareOf looped.now.net care.now }
    requires steady { AreSteadyRows looped.now.net rows.now }
    ensures excludes { IfOk result (Excludes looped.now.net care.now rows.now) }
    ensures fault { IfErr result (IsRestrictFault looped.now.net care.now rows.now) }
{
    let model = restricted_model(alloc, looped, care, rows)?;
    Ok(beside(alloc, looped.net(), care, model)?)
}
