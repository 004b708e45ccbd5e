ghost use Rattle.std.specs.Prelude.{◌≡◌, ◌<◌, ◌⊎◌, ◌++◌, ◌∷◌, [], length, option_map, is_some, false, None, Some, Ok, Err, IfErr, OnOk, option_copied};
ghost use Rattle.flatten.specs.declared.fault.FlatFault.TheVariants.{OpenInput};
ghost use Rattle.flatten.specs.Paths.{actual_of};
ghost use Rattle.flatten.specs.Instances.{model_at, formal_fault, pair_fault, first_open as first_open_by, pairs_fault};
ghost use Rattle.flatten.specs.Laws.{resolved, bound};

use crate::fault::FlatFault;
use crate::hierarchy::Hierarchy;
use crate::scope::{NameScope, resolve};
use blif_read::BlifModel;
use cyc_base::Name;
use indexmap::{IndexMap, IndexSet};
use std::alloc::{AllocError, Global};

/// That the model has the formal, and that no earlier pair binds it.
fn check_formal(
    formals: &IndexSet<Name>,
    table: &IndexMap<Name, Name>,
    formal: &Name,
) -> Result<(), FlatFault>
    ensures fits { OnOk result (formal_fault formals.now.keys table.now.entries formal.now ≡ None) }
    ensures fault { IfErr result (λ fault. (fault ≡ FlatFault.Memory)
        ⊎ (formal_fault formals.now.keys table.now.entries formal.now ≡ Some fault)) }
{
    if !formals.contains(formal) {
        return Err(FlatFault::UnknownFormal {
            name: formal.copy()?,
        });
    }
    if table.contains_key(formal) {
        return Err(FlatFault::FormalTwice {
            name: formal.copy()?,
        });
    }
    Ok(())
}

/// Adds a formal that the table doesn't have, with the printed name of its actual.
fn bind_formal(
    alloc: Global,
    scope: &NameScope,
    table: &mut IndexMap<Name, Name>,
    formal: &Name,
    actual: &Name,
) -> Result<(), AllocError>
    requires { is_some (actual_of table.old.entries formal.now) ≡ false }
    ensures { OnOk result (table.new.entries ≡ table.old.entries
        ++ (formal.now, resolved scope.now.prefix scope.now.table.entries actual.now) ∷ []) }
{
    let printed = resolve(alloc, scope, actual)?;
    table.insert(formal.copy()?, printed)?;
    Ok(())
}

fn bind_pairs(
    alloc: Global,
    scope: &NameScope,
    formals: &IndexSet<Name>,
    table: &mut IndexMap<Name, Name>,
    pairs: &[(Name, Name)],
) -> Result<(), FlatFault>
    requires { table.old.entries ≡ [] }
    ensures table { OnOk result
        (table.new.entries ≡ bound scope.now.prefix scope.now.table.entries pairs.now) }
    ensures fits { OnOk result (pair_fault formals.now.keys [] pairs.now ≡ None) }
    ensures fault { IfErr result
        (λ fault. (fault ≡ FlatFault.Memory) ⊎ (pair_fault formals.now.keys [] pairs.now ≡ Some fault)) }
{
    for (formal, actual) in pairs {
        check_formal(formals, table, formal)?;
        bind_formal(alloc, scope, table, formal, actual)?;
    }
    Ok(())
}

/// The first of these names that the table doesn't have.
fn first_unbound<'a>(table: &IndexMap<Name, Name>, names: &'a [Name]) -> Option<&'a Name>
    ensures { option_copied result ≡ first_open_by table.now.entries names.now }
{
    names.iter().find(|name| !table.contains_key(*name))
}

/// The first input, or else the first clock, of the model that the table doesn't have.
fn first_open<'a>(table: &IndexMap<Name, Name>, model: &'a BlifModel) -> Option<&'a Name>
    ensures { option_copied result ≡ first_open_by table.now.entries (model.now.inputs ++ model.now.clocks) }
{
    match first_unbound(table, model.inputs.items()) {
        Some(name) => Some(name),
        None => first_unbound(table, model.clocks.items()),
    }
}

/// That the table has each input and each clock of the model.
fn check_open(table: &IndexMap<Name, Name>, model: &BlifModel) -> Result<(), FlatFault>
    ensures full { OnOk result
        (option_map OpenInput (first_open_by table.now.entries (model.now.inputs ++ model.now.clocks)) ≡ None) }
    ensures fault { IfErr result (λ fault. (fault ≡ FlatFault.Memory)
        ⊎ (option_map OpenInput (first_open_by table.now.entries (model.now.inputs ++ model.now.clocks)) ≡ Some fault)) }
{
    match first_open(table, model) {
        Some(name) => Err(FlatFault::OpenInput { name: name.copy()? }),
        None => Ok(()),
    }
}

/// Fills the table of an instance of the model at this place: each formal with the printed name of its actual. It is to bind
/// each input and each clock of the model.
pub(crate) fn fill_table(
    alloc: Global,
    hierarchy: &Hierarchy<'_>,
    scope: &NameScope,
    place: usize,
    pairs: &[(Name, Name)],
    table: &mut IndexMap<Name, Name>,
) -> Result<(), FlatFault>
    requires place { place < length hierarchy.now.models }
    requires table { table.old.entries ≡ [] }
    ensures table { OnOk result
        (table.new.entries ≡ bound scope.now.prefix scope.now.table.entries pairs.now) }
    ensures fits { OnOk result (pairs_fault (model_at hierarchy.now.models place) pairs.now ≡ None) }
    ensures fault { IfErr result (λ fault. (fault ≡ FlatFault.Memory)
        ⊎ (pairs_fault (model_at hierarchy.now.models place) pairs.now ≡ Some fault)) }
{
    bind_pairs(alloc, scope, hierarchy.formals(place), table, pairs)?;
    check_open(table, hierarchy.model(place))
}
