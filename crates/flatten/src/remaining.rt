//! Lists that are handed over item by item.

ghost use Rattle.std.specs.Prelude.{◌≡◌};

use std::marker::Model;

/// So many items are handed over before their memory is given back.
const GIVEN_BACK: usize = 4_096;

/// What remains of a list whose items are handed over in their order. The memory of those is given back on the
/// way, so that the list and what is made of it needn't stand whole side by side.
#[derive(Drop)]
pub(crate) struct Remaining<T: Drop> {
    /// The items, with the next one at the end.
    left: Vec<T>,
}

impl<T: Drop> Model for Remaining<T> {
    ghost use Rattle.std.specs.Prelude.{List, reverse};

    ghost Value = { List T };

    ghost view = { λ remaining. reverse remaining.left.items };
}

impl<T: Drop> Remaining<T> {
    pub(crate) fn of(items: Vec<T>) -> Remaining<T>
        ensures { result ≡ items.items }
    {
        let mut left = items;
        left.reverse();
        Remaining { left }
    }
}

impl<T: Drop> Iterator for Remaining<T> {
    ghost use Rattle.std.specs.Iterator.{YieldsFirst, item_count};

    type Item = T;

    ghost next_gives = { YieldsFirst (λ left. left) };

    ghost remaining = { item_count (λ left. left) };

    fn next(&mut self) -> Option<T> {
        if self.left.len() % GIVEN_BACK == 0 {
            self.left.shrink_to_fit();
        }
        self.left.pop()
    }
}
