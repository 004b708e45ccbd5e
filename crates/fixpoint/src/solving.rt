//! Solving a netlist block by block.

ghost use Rattle.std.specs.Prelude.{◌≡◌, ◌<◌, ◌≤◌, ◌+◌, ◌*◌, ◌++◌, None, length, map, take, replicate, option_to_list, All, IfOk, OnOk};
ghost use Rattle.std.specs.List.{flat_map};
ghost use Rattle.bdd_store.specs.Growth.{AddsWithin, GrowsWithin};
ghost use Rattle.bdd_store.specs.Sweeping.{AllReached};
ghost use Rattle.loops.specs.Blocks.{AreBlocksOf, home_of};
ghost use Rattle.loops.specs.Cuts.{IsCutOf, loops_by};
ghost use Rattle.loops.specs.Sweeps.{first_gate};
ghost use Rattle.fixpoint.specs.Kept.{rails_under, values_under, AreKept, RootsStay};
ghost use Rattle.fixpoint.specs.Solved.{AreGiven, HasEachLoopOnce, AreKeptSteps, IsSolution};
ghost use Rattle.dual_rail.specs.WorkingLists.{IsWide};
ghost use Rattle.fixpoint.specs.Working.{IsWidth, IsWorking, HasLargeCover, effort, block_cost};
ghost use Rattle.fixpoint.specs.Sweeping.{unknown as unknown_rails, vectors, IsFoundAt, IsSolvedBelow, AreFresh, IsKeptAt, HasSolvedTo};

use crate::clearing::{sweep_if_due, sweep_store};
use crate::keeping::{keep_block, kept_signals};
use crate::kept::KeptRails;
use crate::progress::Progress;
use crate::solved::{LoopSteps, Solved, SweptLoop};
use crate::sweeping::{gates_of, solve_loop};
use crate::wires::Wires;
use bdd_ops::Diagrams;
use bdd_store::StoreFault;
use cyc_base::Items;
use loops::{Blocks, Cut, LoopedNetlist};
use netlist::Netlist;
use std::alloc::{AllocError, Global};

/// Solves a block, where those before it are solved. A block that is no loop is one gate.
fn solve_block(
    alloc: Global,
    d: &mut Diagrams,
    looped: &LoopedNetlist<'_>,
    gate: u32,
    wires: &mut Wires,
) -> Result<Option<SweptLoop>, StoreFault>
    requires gate { gate < length looped.now.net.gates }
    requires solved { IsSolvedBelow looped.now d.old (vectors looped.now.net d.old wires.old.rails.items) (home_of looped.now.blocks gate) wires.old.before.items wires.old.rails.items }
    requires fresh { AreFresh looped.now (home_of looped.now.blocks gate) wires.old.before.items }
    ensures steps { IfOk result (λ found. IsFoundAt looped.now d.new (vectors looped.now.net d.old wires.old.rails.items) (home_of looped.now.blocks gate) found) }
    ensures solved { OnOk result (IsSolvedBelow looped.now d.new (vectors looped.now.net d.old wires.old.rails.items) (home_of looped.now.blocks gate + 1) wires.new.before.items wires.new.rails.items) }
    ensures fresh { OnOk result (AreFresh looped.now (home_of looped.now.blocks gate + 1) wires.new.before.items) }
    ensures given { OnOk result (take (first_gate looped.now.net) wires.new.rails.items ≡ take (first_gate looped.now.net) wires.old.rails.items) }
    ensures grows { GrowsWithin result d.old d.new (HasLargeCover looped.now.net) (IsWidth d.old.vars looped.now (vectors looped.now.net d.old wires.old.rails.items))
        (2 * ((length looped.now.net.gates + 1) * block_cost looped.now.net looped.now.blocks (home_of looped.now.blocks gate))) }
{
    let blocks = looped.blocks();
    let place = blocks.home.items()[gate as usize];
    if blocks.list.items()[place as usize].looped {
        let steps = solve_loop(alloc, d, looped, place, wires)?;
        return Ok(Some(steps));
    }
    wires.set_gate(alloc, d, looped, gate)?;
    Ok(None)
}

/// Solves the block at a place, where those before it are solved, and keeps its gates and what its loop found.
fn solve_and_keep(
    alloc: Global,
    d: &mut Diagrams,
    looped: &LoopedNetlist<'_>,
    given: &[KeptRails],
    place: usize,
    progress: &mut Progress,
) -> Result<Option<LoopSteps>, StoreFault>
    requires place { place < length looped.now.blocks.list }
    requires solved { HasSolvedTo looped.now d.old given.now place progress.old }
    ensures solved { OnOk result (HasSolvedTo looped.now d.new given.now (place + 1) progress.new) }
    ensures steps { IfOk result (IsKeptAt looped.now d.new (values_under d.new given.now) place) }
    ensures roots { RootsStay d.old d.new }
    ensures adds { AddsWithin result d.old d.new (HasLargeCover looped.now.net) (IsWidth d.old.vars looped.now (values_under d.old given.now))
        (2 * ((length looped.now.net.gates + 1) * block_cost looped.now.net looped.now.blocks place)) }
{
    d.store().laws();
    let gates = gates_of(looped, place);
    let found = solve_block(alloc, d, looped, gates[0], &mut progress.wires)?;
    let first = looped.net().columns() as usize;
    Ok(keep_block(alloc, d, gates, first, progress, found)?)
}

/// Adds what was found of a block.
fn add_loop(loops: &mut Vec<LoopSteps>, found: Option<LoopSteps>) -> Result<(), AllocError>
    ensures { OnOk result (loops.new.items ≡ loops.old.items ++ option_to_list found) }
{
    if let Some(steps) = found {
        loops.push(steps)?;
    }
    Ok(())
}

/// Solves all blocks in their order, and keeps all gates.
fn solve_blocks(
    alloc: Global,
    d: &mut Diagrams,
    looped: &LoopedNetlist<'_>,
    given: &[KeptRails],
    progress: &mut Progress,
) -> Result<Vec<LoopSteps>, StoreFault>
    requires solved { HasSolvedTo looped.now d.old given.now 0 progress.old }
    ensures solved { OnOk result (HasSolvedTo looped.now d.new given.now (length looped.now.blocks.list) progress.new) }
    ensures loops { IfOk result (λ loops. HasEachLoopOnce looped.now.blocks loops.items) }
    ensures steps { IfOk result (λ loops. All (AreKeptSteps looped.now.net looped.now.blocks looped.now.cut d.new (values_under d.new given.now)) loops.items) }
    ensures roots { RootsStay d.old d.new }
    ensures adds { AddsWithin result d.old d.new (HasLargeCover looped.now.net) (IsWidth d.old.vars looped.now (values_under d.old given.now))
        (2 * ((length looped.now.net.gates + 1) * effort looped.now.net)) }
{
    d.store().laws();
    sweep_store(alloc, d, given, progress)?;
    let mut loops = Vec::new(alloc);
    for place in 0..looped.blocks().list.items().len() {
        let found = solve_and_keep(alloc, d, looped, given, place, progress)?;
        sweep_if_due(alloc, d, given, progress)?;
        add_loop(&mut loops, found)?;
    }
    Ok(loops)
}

/// Takes out what no root reaches, and hands out what was kept.
fn hand_out(
    d: &mut Diagrams,
    given: Vec<KeptRails>,
    progress: Progress,
    loops: Vec<LoopSteps>,
) -> Result<Solved, AllocError>
    ensures rails { IfOk result (λ solved. solved.rails ≡ given.items ++ flat_map option_to_list progress.places.items) }
    ensures loops { IfOk result (λ solved. solved.loops ≡ loops.items) }
    ensures roots { RootsStay d.old d.new }
    ensures fewer { length d.new.entries ≤ length d.old.entries }
    ensures reached { OnOk result (AllReached d.new) }
{
    d.store().laws();
    d.sweep()?;
    d.store().laws();
    let rails = kept_signals(given, progress.places)?;
    Ok(Solved {
        rails: Items::of(rails),
        loops: Items::of(loops),
    })
}

/// Solves all blocks, and hands out what was kept.
fn solve_looped(
    alloc: Global,
    d: &mut Diagrams,
    looped: &LoopedNetlist<'_>,
    given: Vec<KeptRails>,
) -> Result<Solved, StoreFault>
    requires { AreGiven looped.now.net d.old given.items }
    ensures solution { IfOk result (IsSolution looped.now.net looped.now.blocks looped.now.cut d.new (values_under d.old given.items)) }
    ensures roots { RootsStay d.old d.new }
    ensures reached { OnOk result (AllReached d.new) }
    ensures adds { AddsWithin result d.old d.new (HasLargeCover looped.now.net) (IsWidth d.old.vars looped.now (values_under d.old given.items))
        (10 * (length looped.now.net.gates + 2) * effort looped.now.net) }
{
    d.store().laws();
    let mut progress = Progress::start(alloc, d, &given, looped.net().gates() as usize)?;
    let loops = solve_blocks(alloc, d, looped, &given, &mut progress)?;
    Ok(hand_out(d, given, progress, loops)?)
}

/// The rails of the fixpoint, for each signal, where the inputs and then the latches have the given rails: block
/// by block, and a loop by sweeps from X until its cut wires stand still, which are at most one more than it has
/// cut wires (Malik 1994). All of them are kept, and so are the steps of each loop; the given roots are those of the
/// inputs and latches. Each root of before keeps its function, after a refusal too.
///
/// Before the first block and in the end it takes out what no root reaches, so that the store then holds just the
/// entries that are reached from its roots. Between blocks it may do so too. So nodes of before that no root had mean
/// nothing after the call.
///
/// For each w that is wide for the working list, it adds at most `10 * w * (gates + 2) * effort` nodes, where the
/// effort is the sum of the covers' sizes and of one for each gate. `Full` comes only where a gate's cover has a
/// size over the limit, or where so many more nodes would be over the limit. After a refusal there may be more roots.
///
/// The condition is that blocks and cut are the netlist's, that the keys of the given rails are in the map, and that
/// they are proper rails of all inputs and latches.
pub fn solve(
    alloc: Global,
    d: &mut Diagrams,
    net: &Netlist,
    blocks: &Blocks,
    cut: &Cut,
    given: Vec<KeptRails>,
) -> Result<Solved, StoreFault>
    requires blocks { AreBlocksOf net.now blocks.now }
    requires cut { IsCutOf net.now cut.now }
    requires given { AreGiven net.now d.old given.items }
    ensures solution { IfOk result (IsSolution net.now blocks.now cut.now d.new (values_under d.old given.items)) }
    ensures roots { RootsStay d.old d.new }
    ensures reached { OnOk result (AllReached d.new) }
    ensures adds { AddsWithin result d.old d.new (HasLargeCover net.now) (IsWide d.old.vars (IsWorking net.now (loops_by blocks.now cut.now) (values_under d.old given.items)))
        (10 * (length net.now.gates + 2) * effort net.now) }
{
    let looped = LoopedNetlist::new(net, blocks, cut);
    solve_looped(alloc, d, &looped, given)
}
