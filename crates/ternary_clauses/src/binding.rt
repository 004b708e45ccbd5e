//! The clauses of a gate whose pins that are never unknown come first in its cover's diagram.
//!
//! So the diagram forks at known pins before it forks at others, and the nodes behind are functions of what may be unknown
//! alone. A solver meets far fewer conflicts then.

ghost use Rattle.std.specs.Prelude.{◌≡◌, ◌≤◌, ◌<◌, ◌⊎◌, true, false, List, All, length, map, IfOk, IfErr, OnOk};
ghost use Rattle.clause_formulas.specs.Formulas.{IsFormula};
ghost use Rattle.cover_logic.specs.Covers.{Cover as TheCover};
ghost use Rattle.dual_rail.specs.Local.{IsDiagramOf};
ghost use Rattle.ternary_clauses.specs.Faults.{IsFull, IsLarge};
ghost use Rattle.ternary_clauses.specs.Lifts.{SaysGate};
ghost use Rattle.ternary_clauses.specs.Orders.{exchanged_cover as exchanged_cover_of, exchanged_row as exchanged_row_of, IsSameGate};
ghost use Rattle.ternary_clauses.specs.Rails.{AreRailsOf, AreWithin};
ghost use Rattle.ternary_clauses.specs.declared.rails.Rails.{Rails as TheRails};
ghost use Rattle.ternary_clauses.specs.declared.fault.ClausesFault.TheVariants.{TooMany};

use crate::fault::ClausesFault;
use crate::lifting::add_gate;
use crate::rails::Rails;
use bdd_store::StoreFault;
use clause_formulas::Formula;
use cover_logic::{Cover, Row};
use cyc_base::Items;
use dual_rail::{LocalDiagram, local};
use std::alloc::{AllocError, Global};

/// The most nodes of a cover's diagram, each of which takes up to some twenty clauses.
const MOST_NODES: u32 = 1 << 18;

/// The diagram of a cover. Where it is too large, no clauses are made.
fn diagram_of(alloc: Global, cover: &Cover) -> Result<LocalDiagram, ClausesFault>
    ensures diagram { IfOk result (λ l. IsDiagramOf l cover.now) }
    ensures many { IfErr result (λ fault. fault ≡ TooMany → IsLarge cover.now) }
{
    match local(alloc, cover, MOST_NODES) {
        Ok(diagram) => Ok(diagram),
        Err(StoreFault::Full) => Err(ClausesFault::TooMany),
        Err(StoreFault::Memory) => Err(ClausesFault::Memory),
    }
}

/// The most pins of a gate that are put in order: the diagram of so few is small in any.
const MOST_ORDERED: usize = 8;

/// A cover, and rails for its pins.
struct Pinned {
    cover: Cover,
    pins: Vec<Rails>,
}

impl Drop for Pinned {
    fn drop(self) {
        let Pinned { cover: _, pins: _ } = self;
    }
}

/// A row with two pins in each other's place.
fn exchanged_row(alloc: Global, row: &Row, a: usize, b: usize) -> Result<Row, AllocError>
    requires a { a < length row.now.lits }
    requires b { b < length row.now.lits }
    ensures { IfOk result (λ other. other ≡ exchanged_row_of a b row.now) }
{
    let mut lits = row.lits.items().to_vec(alloc)?;
    lits.swap(a, b);
    Ok(Row {
        lits: Items::of(lits),
    })
}

fn exchanged_rows(alloc: Global, rows: &[Row], a: usize, b: usize) -> Result<Vec<Row>, AllocError>
    requires a { All (λ row. a < length row.lits) rows.now }
    requires b { All (λ row. b < length row.lits) rows.now }
    ensures { IfOk result (λ others. others.items ≡ map (exchanged_row_of a b) rows.now) }
{
    let mut others = Vec::with_capacity(alloc, rows.len())?;
    for row in rows {
        others.push(exchanged_row(alloc, row, a, b)?)?;
    }
    Ok(others)
}

/// A cover with two pins in each other's place.
fn exchanged_cover(alloc: Global, cover: &Cover, a: usize, b: usize) -> Result<Cover, AllocError>
    requires a { a < cover.now.pins }
    requires b { b < cover.now.pins }
    ensures { IfOk result (λ other. other ≡ exchanged_cover_of cover.now a b) }
{
    let rows = exchanged_rows(alloc, cover.rows(), a, b)?;
    match Cover::new(cover.pins(), cover.plane(), rows) {
        Ok(other) => Ok(other),
        Err(_) => Err(AllocError),
    }
}

impl Pinned {
    /// The pin at this place is brought forward, in exchange for another one.
    #[tactic(auto, using(crate::proofs::OrderLemmas::exchanged_gate))]
    fn bring_forward(&mut self, alloc: Global, place: usize, front: usize) -> Result<(), AllocError>
        requires place { place < self.old.cover.pins }
        requires front { front ≤ place }
        requires pins { length self.old.pins.items ≡ self.old.cover.pins }
        ensures { (cover : TheCover) (pins : List TheRails) → IsSameGate cover pins self.old.cover self.old.pins.items →
            OnOk result (IsSameGate cover pins self.new.cover self.new.pins.items) }
    {
        if front < place {
            self.cover = exchanged_cover(alloc, &self.cover, front, place)?;
            self.pins.swap(front, place);
        }
        Ok(())
    }
}

/// The gate with those pins first that are never unknown.
#[tactic(auto, using(crate::proofs::OrderLemmas::same_gate))]
fn known_first(alloc: Global, cover: &Cover, pins: &[Rails]) -> Result<Pinned, AllocError>
    requires { length pins.now ≡ cover.now.pins }
    ensures { IfOk result (λ p. IsSameGate cover.now pins.now p.cover p.pins.items) }
{
    let mut pinned = Pinned {
        cover: cover.copy()?,
        pins: pins.to_vec(alloc)?,
    };
    let mut front = 0;
    for place in 0..cover.pins() {
        if pinned.pins[place].known == 0 {
            pinned.bring_forward(alloc, place, front)?;
            front += 1;
        }
    }
    Ok(pinned)
}

/// Whether no pin that is never unknown stands behind another one.
fn are_in_order(pins: &[Rails]) -> bool {
    pins.iter()
        .skip_while(|pin| pin.known == 0)
        .all(|pin| pin.known != 0)
}

/// Binds the rails of a gate in another order of its pins, where that pays. False where nothing is added.
fn bind_in_order(
    alloc: Global,
    formula: &mut Formula,
    cover: &Cover,
    pins: &[Rails],
    out: Rails,
) -> Result<bool, ClausesFault>
    requires pins { length pins.now ≡ cover.now.pins }
    requires rails { All (AreWithin formula.old.variables) pins.now }
    requires out { AreRailsOf formula.old out }
    requires formula { IsFormula formula.old }
    ensures says { result ≡ Ok true → SaysGate formula.old formula.new pins.now out cover.now }
    ensures nothing { result ≡ Ok false → formula.new ≡ formula.old }
    ensures many { IfErr result (λ fault. fault ≡ TooMany → IsFull formula.new) }
{
    if pins.len() > MOST_ORDERED || are_in_order(pins) {
        return Ok(false);
    }
    let gate = known_first(alloc, cover, pins)?;
    match diagram_of(alloc, &gate.cover) {
        Ok(diagram) => {
            add_gate(alloc, formula, &diagram, &gate.pins, out)?;
            Ok(true)
        }
        Err(ClausesFault::TooMany) => Ok(false),
        Err(ClausesFault::Memory) => Err(ClausesFault::Memory),
    }
}

/// Binds rails to the exact ternary extension of a cover at the values of its pins, both ways, and says nothing else
/// (Malik 1994).
pub(crate) fn bind_cover(
    alloc: Global,
    formula: &mut Formula,
    cover: &Cover,
    pins: &[Rails],
    out: Rails,
) -> Result<(), ClausesFault>
    requires pins { length pins.now ≡ cover.now.pins }
    requires rails { All (AreWithin formula.old.variables) pins.now }
    requires out { AreRailsOf formula.old out }
    requires formula { IsFormula formula.old }
    ensures says { OnOk result (SaysGate formula.old formula.new pins.now out cover.now) }
    ensures many { IfErr result (λ fault. fault ≡ TooMany → IsFull formula.new ⊎ IsLarge cover.now) }
{
    if bind_in_order(alloc, formula, cover, pins, out)? {
        return Ok(());
    }
    let diagram = diagram_of(alloc, cover)?;
    add_gate(alloc, formula, &diagram, pins, out)
}
