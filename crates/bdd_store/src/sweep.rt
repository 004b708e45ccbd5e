//! What the roots reach, and a table of that alone. Marks and places stand under indices: the constants' is 0, and
//! that of the entry at position p is p + 1.
ghost use Rattle.std.specs.Prelude.{◌≡◌, ◌+◌, ◌<◌, ◌≤◌, ℕ, ◌∷◌, ◌++◌, [], Some, length, slice_get, replicate, Contains, IfOk, OnOk};
ghost use Rattle.bdd_store.specs.Arena.{index};
ghost use Rattle.bdd_store.specs.Soundness.{IsSound, AreWithin};
ghost use Rattle.bdd_store.specs.Renumbering.{root_in, is_marked_at, IsPlaced, moved_node, moved_entry, MarksRoots, MarksWays, AreMarks, AreClosed, AreMoved, AreMovedRoots};

use crate::node::{Entry, Node};
use cyc_base::MAX_NODES;
use indexmap::IndexSet;
use slab::Slab;
use std::alloc::{AllocError, Global};

// Marks the roots.
fn mark_roots(roots: &Slab<Node>, marks: &mut [bool])
    requires { (key : ℕ) (n : Node) → root_in roots.now.slots key ≡ Some n → index n < length marks.old }
    ensures { MarksRoots roots.now.slots marks.old marks.new }
{
    for (_, root) in roots.iter() {
        marks[root.index() as usize] = true;
    }
}

// Marks what marked entries lead to. Branches stand earlier, so one pass from the last to the first reaches it all.
fn mark_branches(entries: &[Entry], marks: &mut [bool])
    requires earlier { (p : ℕ) (e : Entry) → slice_get entries.now p ≡ Some e → (index e.lo ≤ p) × (index e.hi ≤ p) }
    requires long { length marks.old ≡ length entries.now + 1 }
    ensures { MarksWays entries.now marks.old marks.new }
{
    for position in (0..entries.len()).rev() {
        if marks[position + 1] {
            let entry = entries[position];
            marks[entry.lo.index() as usize] = true;
            marks[entry.hi.index() as usize] = true;
        }
    }
}

// Marks for the constants and for what the roots reach.
pub(crate) fn reached(
    alloc: Global,
    entries: &[Entry],
    roots: &Slab<Node>,
) -> Result<Vec<bool>, AllocError>
    requires sound { (vars : ℕ) × IsSound vars entries.now }
    requires room { length entries.now ≤ MAX_NODES }
    requires roots { AreWithin roots.now.slots (length entries.now) }
    ensures { IfOk result (λ marks. AreMarks roots.now.slots entries.now marks.items) }
{
    let mut marks = vec![in alloc; false; entries.len() + 1]?;
    marks[0] = true;
    mark_roots(roots, &mut marks);
    mark_branches(entries, &mut marks);
    Ok(marks)
}

// The node at its place.
fn moved(n: Node, places: &[u32]) -> Node
    requires { IsPlaced places.now n }
    ensures { result ≡ moved_node places.now n }
{
    Node {
        number: 2 * places[n.index() as usize] + n.number % 2,
    }
}

// The entry with its branches at their places.
fn moved_entry(entry: Entry, places: &[u32]) -> Entry
    requires lo { IsPlaced places.now entry.lo }
    requires hi { IsPlaced places.now entry.hi }
    ensures { result ≡ moved_entry places.now entry }
{
    Entry {
        var: entry.var,
        lo: moved(entry.lo, places),
        hi: moved(entry.hi, places),
    }
}

// Puts an entry last that is not there yet, and answers its index.
fn append(table: &mut IndexSet<Entry>, entry: Entry) -> Result<u32, AllocError>
    requires room { length table.old.keys < MAX_NODES }
    requires absent { ¬ Contains table.old.keys entry }
    ensures keys { OnOk result (table.new.keys ≡ table.old.keys ++ entry ∷ []) }
    ensures index { IfOk result (λ i. i ≡ length table.old.keys + 1) }
{
    table.insert(entry)?;
    Ok(table.len() as u32)
}

// Puts the marked entries into the table, in their order, and notes the place of each.
fn fill(
    table: &mut IndexSet<Entry>,
    places: &mut [u32],
    entries: &[Entry],
    marks: &[bool],
) -> Result<(), AllocError>
    requires sound { (vars : ℕ) × IsSound vars entries.now }
    requires room { length entries.now ≤ MAX_NODES }
    requires closed { AreClosed entries.now marks.now }
    requires marks { length marks.now ≡ length entries.now + 1 }
    requires places { places.old ≡ replicate (length entries.now + 1) 0 }
    requires empty { table.old.keys ≡ [] }
    ensures { OnOk result (AreMoved entries.now marks.now places.new table.new.keys (length entries.now)) }
{
    for position in 0..entries.len() {
        if marks[position + 1] {
            let entry = moved_entry(entries[position], places);
            places[position + 1] = append(table, entry)?;
        }
    }
    Ok(())
}

// The table of the marked entries, and their places in it.
pub(crate) fn compact(
    alloc: Global,
    entries: &[Entry],
    marks: &[bool],
) -> Result<(IndexSet<Entry>, Vec<u32>), AllocError>
    requires sound { (vars : ℕ) × IsSound vars entries.now }
    requires room { length entries.now ≤ MAX_NODES }
    requires closed { AreClosed entries.now marks.now }
    requires marks { length marks.now ≡ length entries.now + 1 }
    ensures moved { IfOk result (λ r. AreMoved entries.now marks.now r.1.items r.0.keys (length entries.now)) }
    ensures places { IfOk result (λ r. length r.1.items ≡ length entries.now + 1) }
{
    let kept = marks.iter().filter(|marked| **marked).count();
    let mut table = IndexSet::with_capacity(alloc, kept)?;
    let mut places = vec![in alloc; 0; entries.len() + 1]?;
    fill(&mut table, &mut places, entries, marks)?;
    Ok((table, places))
}

// Puts each root at its place. It takes no memory.
pub(crate) fn renumber(roots: &mut Slab<Node>, places: &[u32])
    requires { (key : ℕ) (n : Node) → root_in roots.old.slots key ≡ Some n → IsPlaced places.now n }
    ensures { AreMovedRoots places.now roots.old.slots roots.new.slots }
{
    for key in 0..roots.capacity() {
        if let Some(root) = roots.get_mut(key) {
            *root = moved(*root, places);
        }
    }
}
