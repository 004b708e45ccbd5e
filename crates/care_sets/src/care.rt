ghost use Rattle.std.specs.Prelude.{◌≡◌, ◌⊎◌, ◌++◌, [], None, IfOk, IfErr, IfSome, IsSomeAnd, option_copied, option_map, length};
ghost use Rattle.std.specs.Option.{option_map_or};
ghost use Rattle.care_sets.specs.Care.{HasValues, is_allowed, is_in_invariant};
ghost use Rattle.care_sets.specs.Binding.{IsCare, IsCareOf, IsCareModel, IsFaultOf, IsFirstFault, BindsAny, BindsBoth};

use crate::binding::bind_any;
use crate::fault::CareFault;
use crate::model::CareModel;
use netlist::Netlist;
use std::alloc::{AllocError, Global};
use std::marker::Model;

/// A care set: the assumption and the invariant of a care file, each absent or there, with the columns of
/// the netlist that their inputs name. The columns are the netlist's inputs, and then its latches.
pub struct Care {
    assume: Option<CareModel>,
    invariant: Option<CareModel>,
}

impl Drop for Care {
    fn drop(self) {
        let Care {
            assume: _,
            invariant: _,
        } = self;
    }
}

impl Model for Care {
    ghost use Rattle.care_sets.specs.Care.{CareSet};
    ghost use Rattle.care_sets.specs.Binding.{IsCare};

    ghost Value = { CareSet };

    ghost view = { λ care. record { assume = care.assume; invariant = care.invariant } };

    ghost invariant = { λ care. IsCare (record { assume = care.assume; invariant = care.invariant }) };
}

fn net_of(model: &Option<CareModel>) -> Option<&Netlist>
    ensures { option_copied result ≡ option_map (λ part. part.net) model.now }
{
    match model {
        Some(model) => Some(&model.net),
        None => None,
    }
}

fn columns_of(model: &Option<CareModel>) -> &[u32]
    ensures { result.now ≡ option_map_or (λ part. part.columns) model.now [] }
{
    match model {
        Some(model) => model.columns.items(),
        None => &[],
    }
}

/// The values of the inputs and then of the latches.
fn vector(alloc: Global, inputs: &[bool], latches: &[bool]) -> Result<Vec<bool>, AllocError>
    ensures { IfOk result (λ list. list.items ≡ inputs.now ++ latches.now) }
{
    let mut values = inputs.to_vec(alloc)?;
    values.extend_from_slice(latches)?;
    Ok(values)
}

impl Care {
    /// The care set without models: every vector counts.
    pub fn none() -> Care
        ensures assume { result.assume ≡ None }
        ensures invariant { result.invariant ≡ None }
    {
        Care {
            assume: None,
            invariant: None,
        }
    }

    /// What holds of every care set, for a caller that reads nothing of it.
    pub fn laws(&self)
        ensures valid { IsCare self.now }
    {
        let _ = &self.assume;
    }

    /// Whether the assumption holds where the inputs and the latches have these values.
    pub fn allows(
        &self,
        alloc: Global,
        inputs: &[bool],
        latches: &[bool],
    ) -> Result<bool, AllocError>
        requires { IfSome self.now.assume (HasValues (inputs.now ++ latches.now)) }
        ensures { IfOk result (λ allowed. allowed ≡ is_allowed self.now (inputs.now ++ latches.now)) }
    {
        let Some(model) = &self.assume else {
            return Ok(true);
        };
        let values = vector(alloc, inputs, latches)?;
        Ok(model.holds_at(alloc, &values)?)
    }

    /// Whether the invariant holds where the latches have these values.
    pub fn state_in(&self, alloc: Global, latches: &[bool]) -> Result<bool, AllocError>
        requires { IfSome self.now.invariant (HasValues latches.now) }
        ensures { IfOk result (λ inside. inside ≡ is_in_invariant self.now latches.now) }
    {
        let Some(model) = &self.invariant else {
            return Ok(true);
        };
        Ok(model.holds_at(alloc, latches)?)
    }

    /// The model of the assumption, if there is one.
    pub fn assume(&self) -> Option<&Netlist>
        ensures net { option_copied result ≡ option_map (λ model. model.net) self.now.assume }
        ensures valid { IsCare self.now }
    {
        net_of(&self.assume)
    }

    /// The model of the invariant, if there is one.
    pub fn invariant(&self) -> Option<&Netlist>
        ensures net { option_copied result ≡ option_map (λ model. model.net) self.now.invariant }
        ensures valid { IsCare self.now }
    {
        net_of(&self.invariant)
    }

    /// The column that each input of the assumption names; none where it is absent.
    pub fn assume_columns(&self) -> &[u32]
        ensures columns { result.now ≡ option_map_or (λ model. model.columns) self.now.assume [] }
        ensures valid { IsCare self.now }
    {
        columns_of(&self.assume)
    }

    /// The column that each input of the invariant names, all of latches; none where it is absent.
    pub fn invariant_columns(&self) -> &[u32]
        ensures columns { result.now ≡ option_map_or (λ model. model.columns) self.now.invariant [] }
        ensures valid { IsCare self.now }
    {
        columns_of(&self.invariant)
    }
}

/// The care set of a bound assumption and of the invariant.
fn with_invariant(
    alloc: Global,
    net: &Netlist,
    assume: Option<CareModel>,
    invariant: Option<Netlist>,
) -> Result<Care, CareFault>
    requires { IfSome assume IsCareModel }
    ensures kept { IfOk result (λ care. care.assume ≡ assume) }
    ensures bound { IfOk result (λ care. BindsAny net.now (length net.now.inputs) invariant care.invariant) }
    ensures fault { IfErr result (λ fault. (fault ≡ CareFault.Memory) ⊎ IsSomeAnd invariant (IsFaultOf net.now (length net.now.inputs) fault)) }
{
    let invariant = bind_any(alloc, net, invariant, net.inputs())?;
    Ok(Care { assume, invariant })
}

/// The care set of these models, by the names of their inputs. Their first fault is answered in the order
/// of `CareFault`, and that of the assumption before that of the invariant; they are dropped then.
#[tactic(auto, using(crate::proofs::FaultLemmas::invariant_fails))]
pub fn bind(
    alloc: Global,
    net: &Netlist,
    assume: Option<Netlist>,
    invariant: Option<Netlist>,
) -> Result<Care, CareFault>
    ensures bound { IfOk result (BindsBoth net.now assume invariant) }
    ensures care { IfOk result (IsCareOf net.now) }
    ensures fault { IfErr result (λ fault. (fault ≡ CareFault.Memory) ⊎ IsFirstFault net.now assume invariant fault) }
{
    if assume.is_none() && invariant.is_none() {
        return Err(CareFault::NoModels);
    }
    let assume = bind_any(alloc, net, assume, 0)?;
    with_invariant(alloc, net, assume, invariant)
}
