ghost use Rattle.std.specs.Prelude.{◌≡◌};

use crate::trit::Trit;
use std::marker::Model;

/// A list of values of one type. Contracts see the list alone, and not the capacity of the `Vec` that holds it.
#[derive(Debug, Drop)]
pub struct Items<T: Drop> {
    items: Vec<T>,
}

/// A list of Boolean values, as one for each column of a vector or for each gate of a state.
pub type Bits = Items<bool>;

/// A list of ternary values.
pub type Trits = Items<Trit>;

impl<T: Drop> Model for Items<T> {
    ghost use Rattle.std.specs.Prelude.{List};

    ghost Value = { List T };

    ghost view = { λ list. list.items.items };
}

impl<T: Drop> Items<T> {
    /// The list of these items.
    pub fn of(items: Vec<T>) -> Items<T>
        ensures { result ≡ items.items }
    {
        Items { items }
    }

    pub fn items(&self) -> &[T]
        ensures { result.now ≡ self.now }
    {
        &self.items
    }

    pub fn into_vec(self) -> Vec<T>
        ensures { result.items ≡ self }
    {
        self.items
    }
}
