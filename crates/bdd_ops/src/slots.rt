//! A hash table without chains: an entry takes the place of the one before in its slot.
ghost use Rattle.std.specs.Prelude.{◌≡◌, ◌<◌, ◌⊎◌, IfOk, All, Contains};

use std::alloc::{AllocError, Global};
use std::marker::Model;

const FIRST_SLOTS: usize = 256;

const MOST_SLOTS: usize = 1 << 22;

// The slot of a hash: its last bits.
fn slot_of(hash: usize, slots: usize) -> usize
    requires { 0 < slots }
    ensures { result < slots }
{
    hash & (slots - 1)
}

/// Entries, each in the slot that its hash names. The slots are a power of two.
#[derive(Drop)]
pub struct Slots<T: Copy + Drop> {
    entries: Vec<T>,
    // How often an entry was found since there are so many slots.
    found: usize,
}

impl<T: Copy + Drop> Model for Slots<T> {
    ghost use Rattle.std.specs.Prelude.{◌<◌, List, length};

    ghost Value = { List T };

    ghost view = { λ slots. slots.entries.items };

    ghost invariant = { λ slots. 0 < length slots.entries.items };
}

impl<T: Copy + Drop> Slots<T> {
    // The first slots, with one entry in all of them.
    pub(crate) fn new(alloc: Global, idle: T) -> Result<Slots<T>, AllocError>
        ensures { IfOk result (All (λ entry. entry ≡ idle)) }
    {
        let mut entries = Vec::new(alloc);
        entries.resize(FIRST_SLOTS, idle)?;
        Ok(Slots { entries, found: 0 })
    }

    // The entry in the slot of this hash.
    pub(crate) fn at(&self, hash: usize) -> T
        ensures { Contains self.now result }
    {
        self.entries[slot_of(hash, self.entries.len())]
    }

    // Counts an entry that was of use.
    pub(crate) fn count(&mut self)
        ensures { self.new ≡ self.old }
    {
        self.found = self.found.wrapping_add(1);
    }

    // Puts an entry into the slot of its hash.
    pub(crate) fn put(&mut self, hash: usize, entry: T)
        ensures { All (λ kept. Contains self.old kept ⊎ (kept ≡ entry)) self.new }
    {
        self.grow();
        let slot = slot_of(hash, self.entries.len());
        self.entries[slot] = entry;
    }

    // Leaves the first slots, with one entry in all of them. It takes no memory: there is room for as many.
    pub(crate) fn clear(&mut self, idle: T)
        ensures { All (λ entry. entry ≡ idle) self.new }
    {
        self.found = 0;
        self.entries.truncate(1);
        self.entries[0] = idle;
        let _ = self.entries.resize(FIRST_SLOTS, idle);
    }

    // Doubles slots that were of use as often as there are of them. A hash then names the slot of before, or the same
    // place in the second half, so both have the entry. Where there is no memory they stay as they are.
    fn grow(&mut self)
        ensures { All (Contains self.old) self.new }
    {
        let slots = self.entries.len();
        if self.found > slots && slots < MOST_SLOTS {
            self.found = 0;
            let _ = self.entries.extend_from_within(..);
        }
    }
}
