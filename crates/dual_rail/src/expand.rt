//! Shannon's expansion of a cover's rows, pin by pin (Bryant 1986).
ghost use Rattle.std.specs.Prelude.{◌≡◌, ◌<◌, ◌≤◌, ◌+◌, ℕ, Bool, List, length, All, IfOk, OnOk, IfSome, IfNone};
ghost use Rattle.std.specs.List.{list_any, range_with_len};
ghost use Rattle.bdd_store.specs.Arena.{den, top_of, IsNodeOf};
ghost use Rattle.bdd_store.specs.Growth.{KeepsNodes, NewAreParts, IsRefusedPart};
ghost use Rattle.dual_rail.specs.Expansion.{remainder, narrowed, IsExpansion, AreBranches};
ghost use Rattle.dual_rail.specs.Classes.{AreClassesOf, AreEndsOf, is_behind_end};
ghost use Rattle.cover_logic.specs.declared.row.Row.{Row as TheRow};
ghost use Rattle.cover_logic.specs.Covers.{value};
ghost use Rattle.dual_rail.specs.Memo.{IsMemo};

use crate::classes::Classes;
use crate::live::Live;
use bdd_store::{Node, Store, StoreFault};
use cover_logic::{Cover, Row};
use std::alloc::Global;
use std::collections::HashMap;

fn any_settled(classes: &Classes, live: &[usize], pin: usize) -> bool
    ensures { result ≡ list_any (is_behind_end classes.now pin) live.now }
{
    live.iter().any(|row| classes.is_settled(*row, pin))
}

// The value, where the pins before this one decide it.
fn decided(classes: &Classes, plane: bool, pin: usize, live: &[usize]) -> Option<bool>
    ensures found { (rows : List TheRow) → AreEndsOf rows classes.now → IfSome result (λ b. (bits : List Bool) → remainder rows plane pin live.now bits ≡ b) }
    ensures none { (rows : List TheRow) (pins : ℕ) → AreEndsOf rows classes.now → All (λ row. length row.lits ≡ pins) rows → IfNone result (pin < pins) }
{
    if live.is_empty() {
        return Some(!plane);
    }
    if any_settled(classes, live, pin) {
        return Some(plane);
    }
    None
}

// The node of the remainder from those at both values of its pin.
fn join(
    store: &mut Store,
    memo: &mut HashMap<Live, Node>,
    live: Live,
    low: Node,
    high: Node,
) -> Result<Node, StoreFault>
    requires pin { live.pin < store.old.vars }
    requires pins { store.old.vars ≤ 1024 }
    requires low { IsNodeOf store.old low }
    requires high { IsNodeOf store.old high }
    requires below_low { live.pin < top_of store.old low }
    requires below_high { live.pin < top_of store.old high }

    ensures node { (rows : List Row) (plane : Bool) → AreBranches rows plane store.old live.pin live.rows.items low high → IfOk result (IsExpansion rows plane store.new live.pin live.rows.items) }
    ensures memo { (rows : List Row) (plane : Bool) → AreBranches rows plane store.old live.pin live.rows.items low high → IsMemo rows plane store.old memo.old → OnOk result (IsMemo rows plane store.new memo.new) }
    ensures keeps { KeepsNodes store.old store.new }
    ensures parts { (rows : List Row) (plane : Bool) → AreBranches rows plane store.old live.pin live.rows.items low high → NewAreParts store.old store.new (remainder rows plane live.pin live.rows.items) }
    ensures full { (rows : List Row) (plane : Bool) → AreBranches rows plane store.old live.pin live.rows.items low high → result ≡ Err StoreFault.Full → IsRefusedPart store.new (remainder rows plane live.pin live.rows.items) }
{
    let n = store.make(live.pin as u32, low, high)?;
    if memo.insert(live, n).is_err() {
        return Err(StoreFault::Memory);
    }
    Ok(n)
}

/// Rows of a cover, and their classes.
#[derive(Drop)]
struct ClassedRows<'a> {
    rows: &'a [Row],
    plane: bool,
    classes: &'a Classes,
}

impl ClassedRows<'_> {
    // The node of the remainder at one value of the pin.
    #[cycle(expand)]
    fn branch(
        &self,
        store: &mut Store,
        memo: &mut HashMap<Live, Node>,
        live: &Live,
        bit: bool,
    ) -> Result<Node, StoreFault>
        requires width { All (λ row. length row.lits ≡ store.old.vars) self.now.rows.now }
        requires pins { store.old.vars ≤ 1024 }
        requires classes { AreClassesOf self.now.rows.now self.now.classes.now }
        requires ends { AreEndsOf self.now.rows.now self.now.classes.now }
        requires at { live.now.pin < store.old.vars }
        requires memo { IsMemo self.now.rows.now self.now.plane store.old memo.old }

        ensures node { IfOk result (IsExpansion self.now.rows.now self.now.plane store.new (live.now.pin + 1) (narrowed self.now.rows.now live.now.pin bit live.now.rows.items)) }
        ensures memo { OnOk result (IsMemo self.now.rows.now self.now.plane store.new memo.new) }
        ensures keeps { KeepsNodes store.old store.new }
        ensures parts { NewAreParts store.old store.new (remainder self.now.rows.now self.now.plane live.now.pin live.now.rows.items) }
        ensures full { result ≡ Err StoreFault.Full → IsRefusedPart store.new (remainder self.now.rows.now self.now.plane live.now.pin live.now.rows.items) }
    {
        match live.narrowed(self.rows, self.classes, bit) {
            Ok(next) => self.expand(store, memo, next),
            Err(_) => Err(StoreFault::Memory),
        }
    }

    // The node of what these rows leave to be matched from their pin on. It recurses once for each pin.
    #[cycle(expand)]
    fn expand(
        &self,
        store: &mut Store,
        memo: &mut HashMap<Live, Node>,
        live: Live,
    ) -> Result<Node, StoreFault>
        requires width { All (λ row. length row.lits ≡ store.old.vars) self.now.rows.now }
        requires pins { store.old.vars ≤ 1024 }
        requires classes { AreClassesOf self.now.rows.now self.now.classes.now }
        requires ends { AreEndsOf self.now.rows.now self.now.classes.now }
        requires at { live.pin ≤ store.old.vars }
        requires memo { IsMemo self.now.rows.now self.now.plane store.old memo.old }

        ensures node { IfOk result (IsExpansion self.now.rows.now self.now.plane store.new live.pin live.rows.items) }
        ensures memo { OnOk result (IsMemo self.now.rows.now self.now.plane store.new memo.new) }
        ensures keeps { KeepsNodes store.old store.new }
        ensures parts { NewAreParts store.old store.new (remainder self.now.rows.now self.now.plane live.pin live.rows.items) }
        ensures full { result ≡ Err StoreFault.Full → IsRefusedPart store.new (remainder self.now.rows.now self.now.plane live.pin live.rows.items) }
    {
        if let Some(b) = decided(self.classes, self.plane, live.pin, &live.rows) {
            return Ok(Node::of(b));
        }
        if let Some(n) = memo.get(&live).copied() {
            return Ok(n);
        }
        let low = self.branch(store, memo, &live, false)?;
        let high = self.branch(store, memo, &live, true)?;
        join(store, memo, live, low, high)
    }
}

// The node of the value of rows of a store's width.
fn expand_rows(
    alloc: Global,
    rows: &[Row],
    plane: bool,
    pins: usize,
    store: &mut Store,
) -> Result<Node, StoreFault>
    requires width { All (λ row. length row.lits ≡ pins) rows.now }
    requires vars { store.old.vars ≡ pins }
    requires pins { pins ≤ 1024 }
    ensures node { IfOk result (IsExpansion rows.now plane store.new 0 (range_with_len 0 (length rows.now))) }
    ensures keeps { KeepsNodes store.old store.new }
    ensures parts { NewAreParts store.old store.new (remainder rows.now plane 0 (range_with_len 0 (length rows.now))) }
    ensures full { result ≡ Err StoreFault.Full → IsRefusedPart store.new (remainder rows.now plane 0 (range_with_len 0 (length rows.now))) }
{
    let Ok(classes) = Classes::of(alloc, rows, pins) else {
        return Err(StoreFault::Memory);
    };
    let Ok(live) = Live::at_first(alloc, rows, &classes) else {
        return Err(StoreFault::Memory);
    };
    let classed = ClassedRows {
        rows,
        plane,
        classes: &classes,
    };
    let mut memo = HashMap::new(alloc);
    classed.expand(store, &mut memo, live)
}

/// The node of a cover's function.
pub(crate) fn expand_cover(
    alloc: Global,
    cover: &Cover,
    store: &mut Store,
) -> Result<Node, StoreFault>
    requires { store.old.vars ≡ cover.now.pins }
    ensures node { IfOk result (IsNodeOf store.new) }
    ensures function { IfOk result (λ n. (bits : List Bool) → length bits ≡ cover.now.pins → den store.new n bits ≡ value cover.now bits) }
    ensures keeps { KeepsNodes store.old store.new }
    ensures parts { NewAreParts store.old store.new (value cover.now) }
    ensures full { result ≡ Err StoreFault.Full → IsRefusedPart store.new (value cover.now) }
{
    expand_rows(alloc, cover.rows(), cover.plane(), cover.pins(), store)
}
