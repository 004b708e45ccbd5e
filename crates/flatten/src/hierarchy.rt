//! The models of a file, with what a walk through them looks up.

ghost use Rattle.std.specs.Prelude.{◌≡◌, ◌<◌, length, IfOk, IfSome};
ghost use Rattle.blif_read.specs.Flattening.{CanBeFlattened};
ghost use Rattle.flatten.specs.Hierarchies.{NestedModels};
ghost use Rattle.flatten.specs.Instances.{find_model, formals as formals_by, model_at};
ghost use Rattle.flatten.specs.Linking.{each_once};
ghost use Rattle.flatten.specs.Wires.{mark_of};

use crate::library::{Library, library_of};
use crate::mark::mark;
use blif_read::BlifModel;
use cyc_base::Name;
use indexmap::IndexSet;
use std::alloc::{AllocError, Global};
use std::marker::Model;

/// The models of a file, and how many instances may lie in one another.
pub(crate) struct Hierarchy<'a> {
    models: &'a [BlifModel],
    library: Library,
    mark: Name,
    depth: usize,
}

impl<'a> Drop for Hierarchy<'a> {
    fn drop(self) {
        let Hierarchy {
            models: _,
            library: _,
            mark: _,
            depth: _,
        } = self;
    }
}

impl<'a> Model for Hierarchy<'a> {
    ghost use Rattle.flatten.specs.Hierarchies.{NestedModels, IsHierarchyOf};

    ghost Value = { NestedModels };

    ghost view = { λ h. record { models = h.models.now; depth = h.depth } };

    ghost invariant = { λ h. IsHierarchyOf h.models.now h.library h.mark };
}

impl<'a> Hierarchy<'a> {
    /// The hierarchy of these models, with at most `depth` instances in one another.
    pub(crate) fn new(
        alloc: Global,
        models: &'a [BlifModel],
        depth: usize,
    ) -> Result<Hierarchy<'a>, AllocError>
        requires { CanBeFlattened models.now }
        ensures { IfOk result (λ hierarchy. hierarchy ≡ record { models = models.now; depth = depth }) }
    {
        let library = library_of(alloc, models)?;
        let mark = mark(alloc, models)?;
        Ok(Hierarchy {
            models,
            library,
            mark,
            depth,
        })
    }

    /// The models, in the order of the file.
    pub(crate) fn models(&self) -> &'a [BlifModel]
        ensures { result.now ≡ self.now.models }
    {
        self.models
    }

    /// What holds of each hierarchy, as the contract of a call that does nothing: its models can be flattened.
    pub(crate) fn laws(&self)
        ensures { CanBeFlattened self.now.models }
    {
        let _ = &self.library;
    }

    /// How many instances may lie in one another.
    pub(crate) fn depth(&self) -> usize
        ensures { result ≡ self.now.depth }
    {
        self.depth
    }

    /// What stands behind the number of an instance in the name of a wire below it.
    pub(crate) fn mark(&self) -> &Name
        ensures { result.now ≡ mark_of self.now.models }
    {
        &self.mark
    }

    /// The place of the model of this name.
    pub(crate) fn find(&self, name: &Name) -> Option<usize>
        ensures found { result ≡ find_model self.now.models name.now }
        ensures within { IfSome result (λ i. i < length self.now.models) }
    {
        self.library.places.get_index_of(name)
    }

    /// The model at this place.
    pub(crate) fn model(&self, place: usize) -> &'a BlifModel
        requires { place < length self.now.models }
        ensures { result.now ≡ model_at self.now.models place }
    {
        &self.models()[place]
    }

    /// The formals of the model at this place.
    pub(crate) fn formals(&self, place: usize) -> &IndexSet<Name>
        requires { place < length self.now.models }
        ensures { result.now.keys ≡ each_once (formals_by (model_at self.now.models place)) }
    {
        &self.library.formals.as_slice()[place]
    }
}
