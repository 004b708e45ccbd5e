//! The lesser of two vectors.

ghost use Rattle.std.specs.Prelude.{◌≡◌, ◌||◌, ℕ, Bool, List, find, option_map};
ghost use Rattle.cyc_base.specs.Vectors.{vectors};

/// The lesser of two vectors, or the one that is there: it is the first that passes one of two tests, where each is the
/// first to pass its own.
pub(crate) fn lesser(first: Option<Vec<bool>>, second: Option<Vec<bool>>) -> Option<Vec<bool>>
    ensures { (width : ℕ) (p q : List Bool → Bool) → option_map (λ v. v.items) first ≡ find p (vectors width) → option_map (λ v. v.items) second ≡ find q (vectors width) →
        option_map (λ v. v.items) result ≡ find (λ v. p v || q v) (vectors width) }
{
    match (first, second) {
        (Some(v), Some(w)) => Some(v.min(w)),
        (Some(v), None) => Some(v),
        (None, found) => found,
    }
}
