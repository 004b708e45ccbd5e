//! What was found is kept as roots, block by block.

ghost use Rattle.std.specs.Prelude.{◌≡◌, ◌<◌, ◌+◌, ◌*◌, ◌++◌, ℕ, None, length, map, replicate, option_to_list, option_map, All, Contains, IfOk, OnOk, IfSome};
ghost use Rattle.std.specs.List.{flat_map};
ghost use Rattle.dual_rail.specs.Rails.{AreRailsOf};
ghost use Rattle.fixpoint.specs.Kept.{rails_under, AreKept, HoldsRails, GainsRoots};
ghost use Rattle.fixpoint.specs.Solved.{loop_under};
ghost use Rattle.fixpoint.specs.Sweeping.{rails_at, place_of};

use crate::kept::{KeptRails, keep_rails};
use crate::progress::Progress;
use crate::solved::{LoopSteps, SweptLoop};
use bdd_ops::Diagrams;
use cyc_base::Items;
use dual_rail::Rails;
use std::alloc::{AllocError, Global};

/// Places for the rails of so many gates, all empty.
pub(crate) fn empty_places(
    alloc: Global,
    gates: usize,
) -> Result<Vec<Option<KeptRails>>, AllocError>
    ensures { IfOk result (λ places. places.items ≡ replicate gates None) }
{
    let mut places = Vec::with_capacity(alloc, gates)?;
    for _ in 0..gates {
        places.push(None)?;
    }
    Ok(places)
}

/// Keeps the rails of these gates, each in its place. On `AllocError` some may be kept.
fn keep_gates(
    d: &mut Diagrams,
    gates: &[u32],
    first: usize,
    rails: &[Rails],
    places: &mut [Option<KeptRails>],
) -> Result<(), AllocError>
    requires gates { All (λ n. n < length places.old) gates.now }
    requires width { length rails.now ≡ first + length places.old }
    requires proper { All (AreRailsOf d.old) rails.now }
    ensures kept { OnOk result ((n : ℕ) → Contains gates.now n → HoldsRails d.new (place_of places.new n) (rails_at rails.now (first + n))) }
    ensures others { OnOk result ((n : ℕ) → ¬ Contains gates.now n → place_of places.new n ≡ place_of places.old n) }
    ensures gains { GainsRoots d.old d.new }
{
    for gate in gates {
        let kept = KeptRails::keep(d, rails[first + *gate as usize])?;
        places[*gate as usize] = Some(kept);
    }
    Ok(())
}

/// Keeps steps, each in its place. On `AllocError` some may be kept.
fn keep_steps(
    alloc: Global,
    d: &mut Diagrams,
    steps: &[Items<Rails>],
) -> Result<Vec<Items<KeptRails>>, AllocError>
    requires { All (All (AreRailsOf d.old)) steps.now }
    ensures keys { IfOk result (λ kept. All (All (AreKept d.new)) kept.items) }
    ensures steps { IfOk result (λ kept. map (map (rails_under d.new)) kept.items ≡ steps.now) }
    ensures gains { GainsRoots d.old d.new }
{
    let mut list = Vec::with_capacity(alloc, steps.len())?;
    for step in steps {
        let kept = keep_rails(alloc, d, step.items())?;
        list.push(Items::of(kept))?;
    }
    Ok(list)
}

/// Keeps the steps of a loop.
fn keep_loop(alloc: Global, d: &mut Diagrams, found: SweptLoop) -> Result<LoopSteps, AllocError>
    requires { All (All (AreRailsOf d.old)) found.steps }
    ensures keys { IfOk result (λ loop. All (All (AreKept d.new)) loop.steps) }
    ensures steps { IfOk result (λ loop. loop_under d.new loop ≡ found) }
    ensures gains { GainsRoots d.old d.new }
{
    let steps = keep_steps(alloc, d, found.steps.items())?;
    Ok(LoopSteps {
        block: found.block,
        cuts: found.cuts,
        steps: Items::of(steps),
    })
}

/// Keeps the rails of a block's gates, each in its place. On `AllocError` some may be kept.
fn keep_solved(
    d: &mut Diagrams,
    gates: &[u32],
    first: usize,
    progress: &mut Progress,
) -> Result<(), AllocError>
    requires gates { All (λ n. n < length progress.old.places.items) gates.now }
    requires width { length progress.old.wires.rails.items ≡ first + length progress.old.places.items }
    requires proper { All (AreRailsOf d.old) progress.old.wires.rails.items }
    ensures kept { OnOk result ((n : ℕ) → Contains gates.now n → HoldsRails d.new (place_of progress.new.places.items n) (rails_at progress.old.wires.rails.items (first + n))) }
    ensures others { OnOk result ((n : ℕ) → ¬ Contains gates.now n → place_of progress.new.places.items n ≡ place_of progress.old.places.items n) }
    ensures wires { progress.new.wires ≡ progress.old.wires }
    ensures width { length progress.new.places.items ≡ length progress.old.places.items }
    ensures gains { GainsRoots d.old d.new }
{
    keep_gates(d, gates, first, &progress.wires.rails, &mut progress.places)
}

/// Keeps the steps of a block's loop, if it is one.
fn keep_found(
    alloc: Global,
    d: &mut Diagrams,
    found: Option<SweptLoop>,
) -> Result<Option<LoopSteps>, AllocError>
    requires { IfSome found (λ swept. All (All (AreRailsOf d.old)) swept.steps) }
    ensures keys { IfOk result (λ loop. IfSome loop (λ steps. All (All (AreKept d.new)) steps.steps)) }
    ensures steps { IfOk result (λ loop. option_map (loop_under d.new) loop ≡ found) }
    ensures gains { GainsRoots d.old d.new }
{
    match found {
        Some(swept) => Ok(Some(keep_loop(alloc, d, swept)?)),
        None => Ok(None),
    }
}

/// Keeps what was found of a block: the rails of its gates, and the steps of its loop.
pub(crate) fn keep_block(
    alloc: Global,
    d: &mut Diagrams,
    gates: &[u32],
    first: usize,
    progress: &mut Progress,
    found: Option<SweptLoop>,
) -> Result<Option<LoopSteps>, AllocError>
    requires gates { All (λ n. n < length progress.old.places.items) gates.now }
    requires width { length progress.old.wires.rails.items ≡ first + length progress.old.places.items }
    requires proper { All (AreRailsOf d.old) progress.old.wires.rails.items }
    requires steps { IfSome found (λ swept. All (All (AreRailsOf d.old)) swept.steps) }
    ensures kept { OnOk result ((n : ℕ) → Contains gates.now n → HoldsRails d.new (place_of progress.new.places.items n) (rails_at progress.old.wires.rails.items (first + n))) }
    ensures others { OnOk result ((n : ℕ) → ¬ Contains gates.now n → place_of progress.new.places.items n ≡ place_of progress.old.places.items n) }
    ensures wires { progress.new.wires ≡ progress.old.wires }
    ensures width { length progress.new.places.items ≡ length progress.old.places.items }
    ensures keys { IfOk result (λ loop. IfSome loop (λ steps. All (All (AreKept d.new)) steps.steps)) }
    ensures steps { IfOk result (λ loop. option_map (loop_under d.new) loop ≡ found) }
    ensures gains { GainsRoots d.old d.new }
{
    keep_solved(d, gates, first, progress)?;
    keep_found(alloc, d, found)
}

/// The kept rails of all signals: the given ones, and then those at the places.
pub(crate) fn kept_signals(
    given: Vec<KeptRails>,
    places: Vec<Option<KeptRails>>,
) -> Result<Vec<KeptRails>, AllocError>
    ensures { IfOk result (λ rails. rails.items ≡ given.items ++ flat_map option_to_list places.items) }
{
    let mut rails = given;
    for place in places {
        if let Some(kept) = place {
            rails.push(kept)?;
        }
    }
    Ok(rails)
}
