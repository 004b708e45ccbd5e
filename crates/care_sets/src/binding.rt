//! Care models are bound to a netlist by the names of their inputs.

ghost use Rattle.std.specs.Prelude.{All, ◌≡◌, ◌+◌, ◌++◌, ◌≤◌, ◌<◌, ◌⊎◌, ℕ, Some, None, map, find, position, length, nat_lt, IfOk, IfErr, OnOk, IfSome, OnSome, IfNone, IsSomeAnd, slice_get, option_map};
ghost use Rattle.std.specs.List.{position_from};
ghost use Rattle.netlist.specs.Netlists.{IsNetlist};
ghost use Rattle.netlist.specs.Walks.{IsLoopFree};
ghost use Rattle.care_sets.specs.declared.fault.CareFault.TheVariants.{UnknownName, NotLatch};
ghost use Rattle.care_sets.specs.Binding.{column_of as column_of_name, is_unknown_name, is_before, fault_but_loops, IsShapeFault, IsUnknownName, AreColumnsOf, LoopsIn, IsFaultOf, Binds, BindsAny};

use crate::fault::CareFault;
use crate::model::CareModel;
use cyc_base::{Items, Name, Sig};
use netlist::Netlist;
use std::alloc::Global;

/// The column that has this name, if there is one.
#[tactic(auto, using(crate::proofs::BindingLemmas::column_found, crate::proofs::BindingLemmas::column_behind, crate::proofs::BindingLemmas::column_absent))]
fn column_of(net: &Netlist, name: &Name) -> Option<u32>
    ensures { result ≡ column_of_name net.now name.now }
{
    let signal = net.find(name)?;
    if signal.0 < net.columns() {
        Some(signal.0)
    } else {
        None
    }
}

/// The name of an input, by its number.
#[tactic(auto, using(crate::proofs::BindingLemmas::input_name))]
fn input_name(model: &Netlist, number: u32) -> &Name
    requires { number < length model.now.inputs }
    ensures { slice_get model.now.inputs number ≡ Some result.now }
{
    model.name_of(Sig(number))
}

/// The column that has this name, which should be there.
fn known_column(net: &Netlist, name: &Name) -> Result<u32, CareFault>
    ensures column { IfOk result (λ column. Some column ≡ column_of_name net.now name.now) }
    ensures fault { IfErr result (λ fault. (fault ≡ CareFault.Memory) ⊎ IsUnknownName net.now name.now fault) }
{
    match column_of(net, name) {
        Some(column) => Ok(column),
        None => Err(CareFault::UnknownName { name: name.copy()? }),
    }
}

/// The columns that a model's inputs name, or the first name that no column has.
fn columns_of(alloc: Global, net: &Netlist, model: &Netlist) -> Result<Vec<u32>, CareFault>
    ensures columns { IfOk result (λ columns. AreColumnsOf net.now model.now.inputs columns.items) }
    ensures fault { IfErr result (λ fault. (fault ≡ CareFault.Memory) ⊎ (option_map UnknownName (find (is_unknown_name net.now) model.now.inputs) ≡ Some fault)) }
{
    let mut columns = Vec::new(alloc);
    for number in 0..model.inputs() {
        let column = known_column(net, input_name(model, number))?;
        columns.push(column)?;
    }
    Ok(columns)
}

/// The place of the first of these columns that comes before `first`.
fn first_before(columns: &[u32], first: u32) -> Option<usize>
    ensures { result ≡ position_from (λ column. nat_lt column first) 0 columns.now }
{
    columns.iter().position(|column| *column < first)
}

/// Refuses a model that has a latch, or not one output.
#[tactic(auto, using(crate::proofs::FaultLemmas::latch_fails, crate::proofs::FaultLemmas::outputs_fail))]
fn refuse_shape(model: &Netlist) -> Result<(), CareFault>
    ensures latches { OnOk result (length model.now.latches ≡ 0) }
    ensures outputs { OnOk result (length model.now.outputs ≡ 1) }
    ensures valid { IsNetlist model.now }
    ensures fault { IfErr result (λ fault. (fault ≡ CareFault.Memory) ⊎ IsShapeFault model.now fault) }
{
    if model.latches() != 0 {
        let model = model.name().copy()?;
        return Err(CareFault::HasLatch { model });
    }
    if model.outputs().len() != 1 {
        let model = model.name().copy()?;
        return Err(CareFault::NotOneOutput { model });
    }
    Ok(())
}

/// The columns that the inputs of a model name, which may read those from `first` on. Or its first fault,
/// but for loops.
#[tactic(auto, using(crate::proofs::FaultLemmas::shape_fails))]
fn checked_columns(
    alloc: Global,
    net: &Netlist,
    model: &Netlist,
    first: u32,
) -> Result<Vec<u32>, CareFault>
    ensures columns { IfOk result (λ columns. AreColumnsOf net.now model.now.inputs columns.items) }
    ensures late { IfOk result (λ columns. All (λ column. first ≤ column) columns.items) }
    ensures sound { OnOk result (fault_but_loops net.now first model.now ≡ None) }
    ensures fault { IfErr result (λ fault. (fault ≡ CareFault.Memory) ⊎ (fault_but_loops net.now first model.now ≡ Some fault)) }
{
    refuse_shape(model)?;
    let columns = columns_of(alloc, net, model)?;
    if let Some(place) = first_before(&columns, first) {
        let name = input_name(model, place as u32).copy()?;
        return Err(CareFault::NotLatch { name });
    }
    Ok(columns)
}

/// Refuses a model with a loop.
fn refuse_loops(alloc: Global, model: &Netlist) -> Result<(), CareFault>
    ensures free { OnOk result (IsLoopFree model.now) }
    ensures fault { IfErr result (λ fault. (fault ≡ CareFault.Memory) ⊎ LoopsIn model.now fault) }
{
    if model.in_order(alloc)?.is_some() {
        return Ok(());
    }
    let model = model.name().copy()?;
    Err(CareFault::Loop { model })
}

/// The columns that the inputs of a model name, or its first fault.
#[tactic(auto, using(crate::proofs::FaultLemmas::loop_alone))]
fn columns_or_fault(
    alloc: Global,
    net: &Netlist,
    model: &Netlist,
    first: u32,
) -> Result<Vec<u32>, CareFault>
    ensures columns { IfOk result (λ columns. AreColumnsOf net.now model.now.inputs columns.items) }
    ensures late { IfOk result (λ columns. All (λ column. first ≤ column) columns.items) }
    ensures others { OnOk result (fault_but_loops net.now first model.now ≡ None) }
    ensures free { OnOk result (IsLoopFree model.now) }
    ensures fault { IfErr result (λ fault. (fault ≡ CareFault.Memory) ⊎ IsFaultOf net.now first fault model.now) }
{
    let columns = checked_columns(alloc, net, model, first)?;
    refuse_loops(alloc, model)?;
    Ok(columns)
}

/// A model, bound to the columns of a netlist from `first` on.
#[tactic(auto, using(crate::proofs::FaultLemmas::bound_model))]
fn bind_model(
    alloc: Global,
    net: &Netlist,
    model: Netlist,
    first: u32,
) -> Result<CareModel, CareFault>
    ensures bound { IfOk result (Binds net.now first model) }
    ensures fault { IfErr result (λ fault. (fault ≡ CareFault.Memory) ⊎ IsFaultOf net.now first fault model) }
{
    let columns = columns_or_fault(alloc, net, &model, first)?;
    Ok(CareModel {
        net: model,
        first,
        columns: Items::of(columns),
    })
}

/// The same, where the model is there.
pub(crate) fn bind_any(
    alloc: Global,
    net: &Netlist,
    model: Option<Netlist>,
    first: u32,
) -> Result<Option<CareModel>, CareFault>
    ensures bound { IfOk result (BindsAny net.now first model) }
    ensures fault { IfErr result (λ fault. (fault ≡ CareFault.Memory) ⊎ IsSomeAnd model (IsFaultOf net.now first fault)) }
{
    match model {
        Some(model) => Ok(Some(bind_model(alloc, net, model, first)?)),
        None => Ok(None),
    }
}
