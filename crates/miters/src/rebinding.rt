//! Care models of the first netlist, bound to the second.

ghost use Rattle.std.specs.Prelude.{◌≡◌, None, IfOk, IfSome, length, option_copied};
ghost use Rattle.care_sets.specs.Binding.{HasNoFault, IsCareOf};
ghost use Rattle.miters.specs.Matching.{unmatched};
ghost use Rattle.miters.specs.Rebound.{rebound, BindsEach};

use care_sets::{Care, CareFault, bind};
use netlist::{Netlist, copy_netlist};
use std::alloc::{AllocError, Global};

fn copy_model(alloc: Global, model: Option<&Netlist>) -> Result<Option<Netlist>, AllocError>
    ensures { IfOk result (λ copy. copy ≡ option_copied model.entry) }
{
    match model {
        Some(model) => Ok(Some(copy_netlist(alloc, model)?)),
        None => Ok(None),
    }
}

/// Models without a fault are refused for want of memory alone.
fn want_of_memory(_fault: CareFault) -> AllocError
    requires { _fault ≡ CareFault.Memory }
{
    AllocError
}

/// The care set of models that have no fault. There may be none.
#[tactic(auto, using(crate::proofs::ReboundLemmas::binds_none, crate::proofs::ReboundLemmas::binds_both, crate::proofs::ReboundLemmas::without_fault))]
fn bind_models(
    alloc: Global,
    net: &Netlist,
    assume: Option<Netlist>,
    invariant: Option<Netlist>,
) -> Result<Care, AllocError>
    requires assume { IfSome assume (HasNoFault net.now 0) }
    requires invariant { IfSome invariant (HasNoFault net.now (length net.now.inputs)) }
    ensures { IfOk result (BindsEach net.now assume invariant) }
{
    if assume.is_none() && invariant.is_none() {
        return Ok(Care::none());
    }
    match bind(alloc, net, assume, invariant) {
        Ok(care) => Ok(care),
        Err(fault) => Err(want_of_memory(fault)),
    }
}

/// The models of a care set of the first netlist, bound to the columns of the second by name. Their names match.
pub fn rebind(alloc: Global, a: &Netlist, b: &Netlist, care: &Care) -> Result<Care, AllocError>
    requires matched { unmatched a.now b.now ≡ None }
    requires care { IsCareOf a.now care.now }
    ensures same { IfOk result (λ other. other ≡ rebound b.now care.now) }
    ensures fits { IfOk result (IsCareOf b.now) }
{
    let assume = copy_model(alloc, care.assume())?;
    let invariant = copy_model(alloc, care.invariant())?;
    bind_models(alloc, b, assume, invariant)
}
