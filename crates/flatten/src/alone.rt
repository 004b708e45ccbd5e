ghost use Rattle.std.specs.Prelude.{◌≡◌, ◌≤◌, ◌⊎◌, ◌++◌, [], ◌∷◌, false, Ok, Err, IfOk, IfErr, OnOk};
ghost use Rattle.std.specs.List.{list_any};
ghost use Rattle.netlist.specs.Netlists.{IsNetlist};
ghost use Rattle.blif_read.specs.Flattening.{IsSoundModel};
ghost use Rattle.flatten.specs.Alone.{is_part as is_part_by, own_gates, own_latches, own_lines as own_lines_by, flat_alone};
ghost use Rattle.flatten.specs.Levels.{lines_of};

use crate::fault::FlatFault;
use crate::link::link;
use crate::remaining::Remaining;
use crate::walk::FlatBody;
use blif_read::{BlifModel, Item};
use cyc_base::{Items, MAX_FLAT_ITEMS};
use netlist::Parts;
use std::alloc::{AllocError, Global};
use std::mem;

fn is_part(item: &Item) -> bool
    ensures { result ≡ is_part_by item.now }
{
    match item {
        Item::Part(_) => true,
        Item::Gate(_) | Item::Latch(_) => false,
    }
}

/// Whether an instance stands in the body.
pub(crate) fn has_parts(body: &[Item]) -> bool
    ensures { result ≡ list_any is_part_by body.now }
{
    body.iter().any(|item| is_part(item))
}

/// Adds a gate or a latch to the lines.
fn add_line(lines: &mut FlatBody, item: Item) -> Result<(), AllocError>
    ensures gates { OnOk result (lines.new.gates.items ≡ lines.old.gates.items ++ own_gates (item ∷ [])) }
    ensures latches { OnOk result (lines.new.latches.items ≡ lines.old.latches.items ++ own_latches (item ∷ [])) }
{
    match item {
        Item::Gate(gate) => lines.gates.push(gate)?,
        Item::Latch(latch) => lines.latches.push(latch)?,
        Item::Part(_part) => {}
    }
    Ok(())
}

fn add_lines(lines: &mut FlatBody, body: Vec<Item>) -> Result<(), AllocError>
    requires gates { lines.old.gates.items ≡ [] }
    requires latches { lines.old.latches.items ≡ [] }
    ensures { OnOk result (lines_of lines.new ≡ own_lines_by body.items) }
{
    for item in Remaining::of(body) {
        add_line(lines, item)?;
    }
    Ok(())
}

/// The gates and the latches of a body, handed over.
fn own_lines(alloc: Global, body: Vec<Item>) -> Result<FlatBody, AllocError>
    ensures { IfOk result (λ lines. lines_of lines ≡ own_lines_by body.items) }
{
    let mut lines = FlatBody {
        latches: Vec::new(alloc),
        gates: Vec::with_capacity(alloc, body.len())?,
    };
    add_lines(&mut lines, body)?;
    Ok(lines)
}

/// The parts of the flat netlist of a model in which no instance stands. Its lines are handed over, and not copied.
#[tactic(auto, using(crate::proofs::OwnLines::alone_fits, crate::proofs::OwnLines::alone_too_large))]
pub(crate) fn parts_alone(alloc: Global, model: BlifModel, limit: u32) -> Result<Parts, FlatFault>
    requires alone { list_any is_part_by model.body ≡ false }
    requires sound { IsSoundModel model }
    requires limit { limit ≤ MAX_FLAT_ITEMS }
    ensures parts { IfOk result (λ parts. flat_alone limit model ≡ Ok parts) }
    ensures valid { IfOk result IsNetlist }
    ensures fault { IfErr result (λ fault. (fault ≡ FlatFault.Memory) ⊎ (flat_alone limit model ≡ Err fault)) }
{
    if model.body.items().len() > limit as usize {
        return Err(FlatFault::TooLarge);
    }
    let mut top = model;
    let body = mem::replace(&mut top.body, Items::of(Vec::new(alloc)));
    let lines = own_lines(alloc, body.into_vec())?;
    link(alloc, &top, lines)
}
