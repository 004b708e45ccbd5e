//! Whether the second netlist stands in the first, gate by gate, under any names: then they don't differ, and no solver is
//! asked.

ghost use Rattle.std.specs.Prelude.{◌≡◌, ◌↔◌, ◌<◌, IsTrue, None, true, length, map, slice_index_or, All, IfOk};
ghost use Rattle.care_sets.specs.Care.{CareSet};
ghost use Rattle.loops.specs.Blocks.{AreBlocksOf};
ghost use Rattle.miters.specs.Differences.{columns_by_name, difference};
ghost use Rattle.miters.specs.Matching.{unmatched};
ghost use Rattle.miters.specs.Placed.{placed_by, IsGate, StandsAt, StandIn};

use crate::pairs::own_pairs;
use cover_logic::Cover;
use cyc_base::Sig;
use indexmap::IndexMap;
use loops::{Blocks, find_blocks};
use netlist::{Gate, Netlist, Pair, gate_key};
use std::alloc::{AllocError, Global};

/// The number at a place, 0 where there is none.
fn number_at(numbers: &[u32], place: usize) -> u32
    ensures { result ≡ slice_index_or numbers.now place 0 }
{
    match numbers.get(place) {
        Some(number) => *number,
        None => 0,
    }
}

/// The signal of the first netlist at which one of the second stands.
fn placed_signal(columns: &[u32], places: &[u32], signal: Sig) -> Sig
    ensures { result ≡ placed_by columns.now places.now signal }
{
    let place = signal.0 as usize;
    if place < columns.len() {
        Sig(columns[place])
    } else {
        Sig(number_at(places, place - columns.len()))
    }
}

/// What these pins read there.
fn placed_pins(
    alloc: Global,
    columns: &[u32],
    places: &[u32],
    pins: &[Sig],
) -> Result<Vec<Sig>, AllocError>
    ensures { IfOk result (λ placed. placed.items ≡ map (placed_by columns.now places.now) pins.now) }
{
    pins.iter()
        .map(|pin| placed_signal(columns, places, *pin))
        .collect(alloc)
}

/// Whether a signal is a gate of this cover that reads these.
fn is_gate(net: &Netlist, signal: u32, cover: &Cover, pins: &[Sig]) -> bool
    ensures { result ≡ true → IsGate net.now signal cover.now pins.now }
{
    if signal < net.columns() || signal >= net.count() {
        return false;
    }
    let gate = net.gate(signal - net.columns());
    if !gate.cover.is_same(cover) {
        return false;
    }
    gate.pins.items() == pins
}

/// Whether a gate of the second netlist stands at one of the first that has its cover and reads what it reads.
fn stands(
    alloc: Global,
    a: &Netlist,
    b: &Netlist,
    columns: &[u32],
    places: &[u32],
    number: u32,
) -> Result<bool, AllocError>
    requires { number < length b.now.gates }
    ensures { IfOk result (λ stands. stands ≡ true → StandsAt a.now b.now columns.now places.now number) }
{
    let own = b.gate(number);
    let pins = placed_pins(alloc, columns, places, own.pins.items())?;
    let place = number_at(places, number as usize);
    Ok(is_gate(a, place, &own.cover, &pins))
}

/// Whether each gate of the second netlist does.
fn all_stand(
    alloc: Global,
    a: &Netlist,
    b: &Netlist,
    columns: &[u32],
    places: &[u32],
) -> Result<bool, AllocError>
    ensures { IfOk result (λ stand. stand ≡ true → StandIn a.now b.now columns.now places.now) }
{
    for number in 0..b.gates() {
        if !stands(alloc, a, b, columns, places, number)? {
            return Ok(false);
        }
    }
    Ok(true)
}

/// Whether the second wire of each pair stands at the first.
fn pairs_stand(columns: &[u32], places: &[u32], pairs: &[Pair]) -> bool
    ensures { IsTrue result ↔ All (λ pair. (placed_by columns.now places.now pair.there).0 ≡ pair.here.0) pairs.now }
{
    pairs.iter().all(|pair| placed_signal(columns, places, pair.there).0 == pair.here.0)
}

/// For each number of gates (`gate_key`) the first netlist's last gate that has it, by its signal.
fn gates_by_key(alloc: Global, a: &Netlist) -> Result<IndexMap<u64, u32>, AllocError> {
    let mut found = IndexMap::new(alloc);
    for number in 0..a.gates() {
        let gate = a.gate(number);
        found.insert(
            gate_key(&gate.cover, gate.pins.items()),
            a.gate_sig(number).0,
        )?;
    }
    Ok(found)
}

/// Where a gate of this name and cover may stand that reads these: at the gate of its name, or else at another one.
fn place_by_pins(
    a: &Netlist,
    by_key: &IndexMap<u64, u32>,
    own: &Gate,
    pins: &[Sig],
) -> Option<u32> {
    match a.find(&own.name) {
        Some(signal) if is_gate(a, signal.0, &own.cover, pins) => Some(signal.0),
        _ => by_key.get(&gate_key(&own.cover, pins)).copied(),
    }
}

/// Where a gate of the second netlist may stand, if those that it reads are placed.
fn place_behind(
    alloc: Global,
    a: &Netlist,
    b: &Netlist,
    columns: &[u32],
    places: &[u32],
    by_key: &IndexMap<u64, u32>,
    number: u32,
) -> Result<Option<u32>, AllocError>
    requires { number < length b.now.gates }
{
    let own = b.gate(number);
    let pins = placed_pins(alloc, columns, places, own.pins.items())?;
    Ok(place_by_pins(a, by_key, own, &pins))
}

/// Where a gate of the second netlist may stand by its name.
fn place_by_name(a: &Netlist, b: &Netlist, number: u32) -> Option<u32>
    requires { number < length b.now.gates }
{
    Some(a.find(&b.gate(number).name)?.0)
}

/// Places the gates of a block of the second netlist: those of a loop by name, and else by what they read. False where there
/// is no place.
fn place_block(
    alloc: Global,
    a: &Netlist,
    b: &Netlist,
    columns: &[u32],
    by_key: &IndexMap<u64, u32>,
    looped: bool,
    gates: &[u32],
    places: &mut [u32],
) -> Result<bool, AllocError>
    requires { All (λ gate. gate < length b.now.gates) gates.now }
{
    for gate in gates {
        let found = if looped {
            place_by_name(a, b, *gate)
        } else {
            place_behind(alloc, a, b, columns, places, by_key, *gate)?
        };
        match (found, places.get_mut(*gate as usize)) {
            (Some(signal), Some(place)) => *place = signal,
            _ => return Ok(false),
        }
    }
    Ok(true)
}

/// Places the gates of all blocks of the second netlist, in their order. False where some gate has no place.
fn place_blocks(
    alloc: Global,
    a: &Netlist,
    b: &Netlist,
    columns: &[u32],
    by_key: &IndexMap<u64, u32>,
    blocks: &Blocks,
    places: &mut [u32],
) -> Result<bool, AllocError>
    requires { AreBlocksOf b.now blocks.now }
{
    let list = blocks.list.items();
    for at in 0..list.len() {
        let block = &list[at];
        let gates = block.gates.items();
        if !place_block(alloc, a, b, columns, by_key, block.looped, gates, places)? {
            return Ok(false);
        }
    }
    Ok(true)
}

/// Places the gates of these blocks by the numbers of the first netlist's gates.
fn place_by_key(
    alloc: Global,
    a: &Netlist,
    b: &Netlist,
    columns: &[u32],
    blocks: &Blocks,
    places: &mut [u32],
) -> Result<bool, AllocError>
    requires { AreBlocksOf b.now blocks.now }
{
    let by_key = gates_by_key(alloc, a)?;
    place_blocks(alloc, a, b, columns, &by_key, blocks, places)
}

/// Places all gates of the second netlist. False where some gate has no place.
fn place_all(
    alloc: Global,
    a: &Netlist,
    b: &Netlist,
    columns: &[u32],
    places: &mut [u32],
) -> Result<bool, AllocError> {
    let blocks = find_blocks(alloc, b)?;
    place_by_key(alloc, a, b, columns, &blocks, places)
}

/// A signal of the first netlist for each gate of the second, at which it may stand. None where some gate has none.
fn find_places(
    alloc: Global,
    a: &Netlist,
    b: &Netlist,
    columns: &[u32],
) -> Result<Option<Vec<u32>>, AllocError> {
    let mut places = vec![in alloc; 0; b.gates() as usize]?;
    if place_all(alloc, a, b, columns, &mut places)? {
        Ok(Some(places))
    } else {
        Ok(None)
    }
}

/// Whether the second netlist stands in the first, gate by gate, with the wires that are compared: then they differ on no care
/// set. False says nothing. Their names match, and `columns` are the first one's columns of the second one's names.
pub fn stands_in_first(
    alloc: Global,
    a: &Netlist,
    b: &Netlist,
    columns: &[u32],
) -> Result<bool, AllocError>
    requires matched { unmatched a.now b.now ≡ None }
    requires columns { columns.now ≡ columns_by_name a.now b.now }
    ensures { IfOk result (λ stands. stands ≡ true → (care : CareSet) → difference a.now b.now care ≡ None) }
{
    if b.gates() > a.gates() {
        return Ok(false);
    }
    let Some(places) = find_places(alloc, a, b, columns)? else {
        return Ok(false);
    };
    let pairs = own_pairs(alloc, a, b)?;
    if !pairs_stand(columns, &places, &pairs) {
        return Ok(false);
    }
    a.laws();
    b.laws();
    all_stand(alloc, a, b, columns, &places)
}
