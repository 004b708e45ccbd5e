//! Laws of the number of subfunctions, each the contract of a function that does nothing.

ghost use Rattle.std.specs.Prelude.{◌≡◌, ℕ, Bool, List};
ghost use Rattle.bdd_store.specs.Subfunctions.{nodes, Alike};

/// Functions with one value at each list of bits have as many nodes.
pub fn nodes_by_values()
    ensures { (vars : ℕ) (f g : List Bool → Bool) → Alike vars f g → nodes vars f ≡ nodes vars g }
{}
