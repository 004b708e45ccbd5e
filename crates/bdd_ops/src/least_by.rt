//! The least vector in an order of its places that need not be the order of the variables. A node is asked for each
//! place in turn whether it is true at some vector that has 0 there, after the bits that are decided. A place that the
//! node's function doesn't read has 0 without being asked for.
ghost use Rattle.std.specs.Prelude.{◌≡◌, ◌≢◌, ◌↔◌, ◌+◌, ◌<◌, ◌≤◌, true, false, Some, IsTrue, IfOk, length, slice_get};
ghost use Rattle.bdd_store.specs.Arena.{constant, den, index, is_marked, IsNodeOf};
ghost use Rattle.bdd_ops.specs.Least.{IsLeast, IsLayout, by_variable};
ghost use Rattle.bdd_ops.specs.Possible.{Takes, MarksRead, flipped_values, either, branch_values};

use bdd_store::{Node, Store};
use std::alloc::{AllocError, Global};

/// Which values a function takes.
#[derive(Clone, Copy)]
pub struct Values {
    pub one: bool,
    pub zero: bool,
}

impl Values {
    fn complement_if(self, mark: bool) -> Values
        ensures { result ≡ flipped_values mark self }
    {
        if mark {
            Values {
                one: self.zero,
                zero: self.one,
            }
        } else {
            self
        }
    }

    fn or(self, other: Values) -> Values
        ensures { result ≡ either self other }
    {
        Values {
            one: self.one || other.one,
            zero: self.zero || other.zero,
        }
    }
}

// The values of a branching node's function, by the bit at its column where that is given.
fn join(lo: Values, hi: Values, bit: Option<bool>) -> Values
    ensures { result ≡ branch_values lo hi bit }
{
    match bit {
        Some(true) => hi,
        Some(false) => lo,
        None => lo.or(hi),
    }
}

// The values of a node's function.
fn values_of(found: &[Values], n: Node) -> Values
    requires { index n < length found.now }
    ensures { (v : Values) → slice_get found.now (index n) ≡ Some v → result ≡ flipped_values (is_marked n) v }
{
    found[n.index() as usize].complement_if(n.is_marked())
}

// The bit at a column, where it is given.
fn bit_at(first: &[bool], column: u32) -> Option<bool>
    ensures { result ≡ slice_get first.now column }
{
    first.get(column as usize).copied()
}

// Whether the function is true at some vector by column that begins with these bits. What each index's function
// takes is found from the lower ones.
fn is_possible(
    store: &Store,
    n: Node,
    columns: &[u32],
    first: &[bool],
    found: &mut [Values],
) -> bool
    requires node { IsNodeOf store.now n }
    requires columns { IsLayout store.now.vars columns.now }
    requires first { length first.now ≤ store.now.vars }
    requires room { length found.old ≡ index n + 1 }
    ensures { IsTrue result ↔ Takes (λ v. den store.now n (by_variable columns.now v)) store.now.vars first.now true }
{
    store.laws();
    found[0] = Values {
        one: true,
        zero: false,
    };
    for position in 0..n.index() {
        let entry = store.at(position);
        let lo = values_of(found, store.lo(entry));
        let hi = values_of(found, store.hi(entry));
        let column = columns[store.top(entry) as usize];
        found[position as usize + 1] = join(lo, hi, bit_at(first, column));
    }
    values_of(found, n).one
}

// Marks the columns that the node's function may read: those of the entries that the node leads to. Branches stand
// earlier, so one pass from the last to the first reaches them all.
fn mark_read(store: &Store, n: Node, columns: &[u32], reached: &mut [bool], read: &mut [bool])
    requires node { IsNodeOf store.now n }
    requires columns { IsLayout store.now.vars columns.now }
    requires reached { length reached.old ≡ index n + 1 }
    requires read { length read.old ≡ store.now.vars }
    ensures { MarksRead (λ v. den store.now n (by_variable columns.now v)) read.new }
{
    store.laws();
    reached[n.index() as usize] = true;
    for position in (0..n.index()).rev() {
        if reached[position as usize + 1] {
            let entry = store.at(position);
            read[columns[store.top(entry) as usize] as usize] = true;
            reached[store.lo(entry).index() as usize] = true;
            reached[store.hi(entry).index() as usize] = true;
        }
    }
}

// Marks for the columns that the node's function may read.
fn read_columns(
    alloc: Global,
    store: &Store,
    n: Node,
    columns: &[u32],
) -> Result<Vec<bool>, AllocError>
    requires node { IsNodeOf store.now n }
    requires columns { IsLayout store.now.vars columns.now }
    ensures marks { IfOk result (λ read. MarksRead (λ v. den store.now n (by_variable columns.now v)) read.items) }
    ensures long { IfOk result (λ read. length read.items ≡ store.now.vars) }
{
    let mut read = vec![in alloc; false; store.vars() as usize]?;
    let mut reached = vec![in alloc; false; n.index() as usize + 1]?;
    mark_read(store, n, columns, &mut reached, &mut read);
    Ok(read)
}

// Decides the bits by column in turn. Each is 0 where some vector that goes on so makes the function true, and so
// where the function doesn't read it.
fn decide(
    store: &Store,
    n: Node,
    columns: &[u32],
    read: &[bool],
    found: &mut [Values],
    out: &mut [bool],
)
    requires node { IsNodeOf store.now n }
    requires alive { n ≢ constant false }
    requires columns { IsLayout store.now.vars columns.now }
    requires read { MarksRead (λ v. den store.now n (by_variable columns.now v)) read.now }
    requires marks { length read.now ≡ store.now.vars }
    requires room { length found.old ≡ index n + 1 }
    requires bits { length out.old ≡ store.now.vars }
    ensures { IsLeast (λ v. den store.now n (by_variable columns.now v)) out.new }
{
    store.laws();
    for column in 0..out.len() {
        out[column] = false;
        if read[column] && !is_possible(store, n, columns, &out[..column + 1], found) {
            out[column] = true;
        }
    }
}

// Writes the least vector by column at which the node's function is true.
pub(crate) fn least_by(
    alloc: Global,
    store: &Store,
    n: Node,
    columns: &[u32],
    out: &mut [bool],
) -> Result<bool, AllocError>
    requires node { IsNodeOf store.now n }
    requires columns { IsLayout store.now.vars columns.now }
    requires bits { length out.old ≡ store.now.vars }
    ensures found { (result ≡ Ok false) ↔ (n ≡ constant false) }
    ensures least { result ≡ Ok true → IsLeast (λ v. den store.now n (by_variable columns.now v)) out.new }
    ensures unchanged { result ≡ Ok false → out.new ≡ out.old }
{
    if n == Node::of(false) {
        return Ok(false);
    }
    let none = Values {
        one: false,
        zero: false,
    };
    let read = read_columns(alloc, store, n, columns)?;
    let mut found = vec![in alloc; none; n.index() as usize + 1]?;
    decide(store, n, columns, &read, &mut found, out);
    Ok(true)
}
