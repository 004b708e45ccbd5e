//! Operations on diagrams of two variables, roots, and the order of columns.

ghost use Rattle.std.specs.Prelude.{◌≡◌, IfOk, IsSome, length};
ghost use Rattle.bdd_store.specs.Arena.{IsNodeOf, root_at};

use crate::texts::net_of;
use bdd_ops::Diagrams;
use bdd_store::{Node, Root, Store, StoreFault};
use fixpoint::order;
use netlist::Netlist;
use std::alloc::{AllocError, Global};
use std::test::Fail;

/// Whether a node has these values at the vectors 00, 10, 01 and 11 of two variables.
fn has_values(store: &Store, n: Node, values: [bool; 4]) -> bool {
    if !store.contains(n) || store.vars() != 2 {
        return false;
    }
    for number in 0..4 {
        let bits = [number % 2 == 1, number / 2 == 1];
        if store.value(n, bits.as_slice()) != values[number] {
            return false;
        }
    }
    true
}

fn operate(d: &mut Diagrams, x: Node, y: Node, number: u32) -> Result<Node, StoreFault>
    requires x { IsNodeOf d.old x }
    requires y { IsNodeOf d.old y }
{
    match number {
        0 => d.and(x, y),
        1 => d.or(x, y),
        2 => d.xor(x, y),
        3 => d.not(x),
        4 => d.ite(x, Node::of(false), y),
        _ => d.select(x, y, Node::of(true), Node::of(false)),
    }
}

fn values_of(number: u32) -> [bool; 4] {
    match number {
        0 => [false, false, false, true],
        1 => [false, true, true, true],
        2 => [false, true, true, false],
        3 => [true, false, true, false],
        4 => [false, false, true, false],
        // Where both rails are true, the first branch is, and where none is, not both branches are.
        _ => [false, true, false, true],
    }
}

fn is_operation(alloc: Global, number: u32) -> Result<bool, Fail> {
    let mut d = Diagrams::new(alloc, 2, 100)?;
    let x = d.var(0)?;
    let y = d.var(1)?;
    if !d.store().contains(x) || !d.store().contains(y) {
        return Ok(false);
    }
    let n = operate(&mut d, x, y, number)?;
    Ok(has_values(d.store(), n, values_of(number)))
}

/// Makes a node, unless a branch doesn't stand below the variable.
fn make(store: &mut Store, var: u32, lo: Node, hi: Node) -> Result<Option<Node>, StoreFault> {
    if var >= store.vars() || !store.contains(lo) || !store.contains(hi) {
        return Ok(None);
    }
    if var >= store.top(lo) || var >= store.top(hi) {
        return Ok(None);
    }
    Ok(Some(store.make(var, lo, hi)?))
}

/// Whether nodes above this one are made once, also for the complement, and none where both branches are one; and one more
/// finds no room.
fn are_made_once(store: &mut Store, y: Node) -> Result<bool, StoreFault> {
    let Some(same) = make(store, 0, y.complement(), y)? else {
        return Ok(false);
    };
    let again = make(store, 0, y.complement(), y)?;
    let flipped = make(store, 0, y, y.complement())?;
    let one_branch = make(store, 0, y, y)?;
    let full = make(store, 0, Node::of(false), y);
    Ok(
        has_values(store, same, [true, false, false, true])
            && again == Some(same)
            && flipped == Some(same.complement())
            && one_branch == Some(y)
            && matches!(full, Err(StoreFault::Full))
            && store.count() == 2,
    )
}

/// Whether nodes are made once in a store of two variables.
fn makes_nodes_once(alloc: Global) -> Result<bool, Fail> {
    let mut store = Store::new(alloc, 2, 2)?;
    match make(&mut store, 1, Node::of(false), Node::of(true))? {
        Some(y) => Ok(are_made_once(&mut store, y)?),
        None => Ok(false),
    }
}

/// Whether a store without variables and entries has the constants.
fn has_constants(alloc: Global) -> Result<bool, Fail> {
    let none = Store::new(alloc, 0, 0)?;
    Ok(none.count() == 0 && none.value(Node::of(true), &[]) && !none.value(Node::of(false), &[]))
}

/// Takes out what roots don't reach, and gives the root's node.
fn root_after_sweep(d: &mut Diagrams, root: &Root) -> Result<Node, AllocError>
    requires { IsSome (root_at d.old root.now.key) }
    ensures { IfOk result (λ n. IsSome (root_at d.new root.now.key)) }
{
    d.sweep()?;
    Ok(d.root(root))
}

/// Whether a node stays as a root, while another one goes; and whether it goes once it is released.
fn is_kept_as_root(d: &mut Diagrams, n: Node) -> Result<bool, AllocError>
    requires { IsNodeOf d.old n }
{
    let root = d.keep(n)?;
    let kept = root_after_sweep(d, &root)?;
    let stays = has_values(d.store(), kept, [false, true, true, false]) && d.store().count() == 2;
    d.release(root);
    d.sweep()?;
    Ok(stays && d.store().count() == 0)
}

/// Whether the answer of a choice is kept, until a sweep.
fn is_answer_kept(d: &mut Diagrams, x: Node, y: Node) -> Result<bool, Fail>
    requires x { IsNodeOf d.old x }
    requires y { IsNodeOf d.old y }
{
    let n = d.ite(x, y.complement(), y)?;
    let store = d.store();
    if !store.contains(x) || !store.contains(y) || !store.contains(y.complement()) {
        return Ok(false);
    }
    if d.cached(x, y.complement(), y) != Some(n) {
        return Ok(false);
    }
    Ok(is_kept_as_root(d, n)?)
}

fn keeps_answers_and_roots(alloc: Global) -> Result<bool, Fail> {
    let mut d = Diagrams::new(alloc, 2, 100)?;
    let x = d.var(0)?;
    let y = d.var(1)?;
    if !d.store().contains(x) || !d.store().contains(y) {
        return Ok(false);
    }
    is_answer_kept(&mut d, x, y)
}

/// A gate that reads the second input first.
const SECOND_FIRST: &[u8] = b".model m\n.inputs x y\n.outputs a\n.names y x a\n11 1\n";

/// The least vector by column, in the order in which gates read, at which the first input is 1.
fn least_with_first(alloc: Global, net: &Netlist) -> Result<Option<[bool; 2]>, Fail> {
    if net.inputs() != 2 || net.latches() != 0 {
        return Ok(None);
    }
    let columns = order(alloc, net)?;
    let mut d = Diagrams::new(alloc, 2, 100)?;
    let x = d.var(0)?;
    let mut least = [true, true];
    if d.least_by(x, &columns, least.as_mut_slice())? {
        Ok(Some(least))
    } else {
        Ok(None)
    }
}

/// Whether columns stand as they are read.
fn has_order(alloc: Global) -> Result<bool, Fail> {
    let net = net_of(alloc, SECOND_FIRST)?;
    Ok(least_with_first(alloc, &net)? == Some([false, true]))
}

pub const CASES: u32 = 10;

pub fn is_right(alloc: Global, case: u32) -> Result<bool, Fail> {
    match case {
        6 => makes_nodes_once(alloc),
        7 => has_constants(alloc),
        8 => keeps_answers_and_roots(alloc),
        9 => has_order(alloc),
        _ => is_operation(alloc, case),
    }
}
