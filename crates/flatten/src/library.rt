ghost use Rattle.std.specs.Prelude.{◌≡◌, [], not, map, fold, IfOk, OnOk};
ghost use Rattle.std.specs.List.{IsDistinct};
ghost use Rattle.std.specs.Str.{bytes_eq};
ghost use Rattle.flatten.specs.Instances.{formals, is_among};
ghost use Rattle.flatten.specs.Linking.{each_once};
ghost use Rattle.flatten.specs.Hierarchies.{IsLibraryOf};
ghost use Rattle.indexmap.specs.IndexSet.{insert_key};

use blif_read::BlifModel;
use cyc_base::Name;
use indexmap::IndexSet;
use std::alloc::{AllocError, Global};

/// Where the models of a file stand, and what their instances may bind.
pub(crate) struct Library {
    /// The models' names, in the order of the file.
    pub(crate) places: IndexSet<Name>,
    /// The formals of each model.
    pub(crate) formals: Vec<IndexSet<Name>>,
}

impl Drop for Library {
    fn drop(self) {
        let Library {
            places: _,
            formals: _,
        } = self;
    }
}

/// Adds a copy of the name if it isn't there yet, and answers whether it is new.
pub(crate) fn add_copy(set: &mut IndexSet<Name>, name: &Name) -> Result<bool, AllocError>
    ensures names { OnOk result (set.new.keys ≡ insert_key bytes_eq set.old.keys name.now) }
    ensures is_new { IfOk result (λ is_new. is_new ≡ not (is_among set.old.keys name.now)) }
{
    let name = name.copy()?;
    Ok(set.insert(name)?)
}

/// Adds copies of the names that aren't there yet.
pub(crate) fn add_all(set: &mut IndexSet<Name>, names: &[Name]) -> Result<(), AllocError>
    ensures { OnOk result (set.new.keys ≡ fold (insert_key bytes_eq) set.old.keys names.now) }
{
    for name in names {
        add_copy(set, name)?;
    }
    Ok(())
}

fn add_formals(set: &mut IndexSet<Name>, model: &BlifModel) -> Result<(), AllocError>
    requires { set.old.keys ≡ [] }
    ensures { OnOk result (set.new.keys ≡ each_once (formals model.now)) }
{
    add_all(set, model.inputs.items())?;
    add_all(set, model.outputs.items())?;
    add_all(set, model.clocks.items())?;
    Ok(())
}

fn formals_of(alloc: Global, model: &BlifModel) -> Result<IndexSet<Name>, AllocError>
    ensures { IfOk result (λ set. set.keys ≡ each_once (formals model.now)) }
{
    let mut set = IndexSet::new(alloc);
    add_formals(&mut set, model)?;
    Ok(set)
}

/// Adds the names of models, each once.
#[tactic(auto, using(crate::proofs::Libraries::names_taken))]
fn add_model_names(set: &mut IndexSet<Name>, models: &[BlifModel]) -> Result<(), AllocError>
    requires { set.old.keys ≡ [] }
    ensures { OnOk result (set.new.keys ≡ each_once (map (λ model. model.name) models.now)) }
{
    for model in models {
        add_copy(set, &model.name)?;
    }
    Ok(())
}

/// What instances of each of these models may bind.
fn formals_of_each(alloc: Global, models: &[BlifModel]) -> Result<Vec<IndexSet<Name>>, AllocError>
    ensures { IfOk result
        (λ each. map (λ set. set.keys) each.items ≡ map (λ model. each_once (formals model)) models.now) }
{
    let mut each = Vec::with_capacity(alloc, models.len())?;
    for model in models {
        each.push_reserved(formals_of(alloc, model)?);
    }
    Ok(each)
}

/// The tables of these models.
pub(crate) fn library_of(alloc: Global, models: &[BlifModel]) -> Result<Library, AllocError>
    requires { IsDistinct bytes_eq (map (λ model. model.name) models.now) }
    ensures { IfOk result (λ library. IsLibraryOf models.now library) }
{
    let formals = formals_of_each(alloc, models)?;
    let mut library = Library {
        places: IndexSet::new(alloc),
        formals,
    };
    add_model_names(&mut library.places, models)?;
    Ok(library)
}
