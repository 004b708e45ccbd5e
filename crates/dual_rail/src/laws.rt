//! Laws of sizes and of working lists, each the contract of a function that does nothing.
ghost use Rattle.std.specs.Prelude.{◌≡◌, Bool, List, length};
ghost use Rattle.bdd_store.specs.Arena.{Arena};
ghost use Rattle.bdd_store.specs.Subfunctions.{prefixes};
ghost use Rattle.cover_logic.specs.Covers.{Cover};
ghost use Rattle.dual_rail.specs.declared.rail.Rails.{Rails};
ghost use Rattle.dual_rail.specs.Local.{Local, IsDiagramOf, size, local_size};
ghost use Rattle.dual_rail.specs.WorkingLists.{BoundsEach, IsExtended};

/// A cover's diagram has the cover's size.
pub fn sizes()
    ensures { (l : Local) (cover : Cover) → IsDiagramOf l cover → local_size l ≡ size cover }
{}

/// The functions that a lift works with have a bound, so the bound of a lift never speaks of nothing.
pub fn working_lists()
    ensures { (a : Arena) (pins : List Rails) (f : List Bool → Bool) → BoundsEach a.vars (IsExtended a pins f) (length (prefixes a.vars)) }
{}
