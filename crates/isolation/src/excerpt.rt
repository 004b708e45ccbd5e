//! Some gates of a netlist, such as those of a loop, as a netlist of its own.

ghost use Rattle.std.specs.Prelude.{◌≡◌, true, false, [], None, ◌<◌, length, map, All, IfOk, IfSome, OnOk, IsSome, Contains};
ghost use Rattle.netlist.specs.Netlists.{count, gate_at, gate_sig as sig_of, IsNetlist, IsSignal};
ghost use Rattle.loops.specs.Blocks.{block_at};
ghost use Rattle.loops.specs.Placing.{Rise};
ghost use Rattle.isolation.specs.Excerpts.{origins, IsRead, IsExcerpt};
ghost use Rattle.isolation.specs.Building.{AddWires, AreApart, AreClosed, AreCopies, AreNumbersOf, AreNumerable, AreWires, AreWiresOf, IsAmong, IsCopyOf, IsLoopNetlist, IsNamedBy, IsPlaceOf, name_at};

use cyc_base::{Items, Name, Sig};
use indexmap::IndexSet;
use loops::{LoopedNetlist, gates_at};
use netlist::{Gate, Netlist, Parts, PartsFault};
use std::alloc::{AllocError, Global};

/// Whether a signal is a gate of the block at this place.
fn is_inside(looped: &LoopedNetlist<'_>, place: u32, signal: Sig) -> bool
    requires place { place < length looped.now.blocks.list }
    requires signal { IsSignal looped.now.net signal }
    ensures outside { result ≡ false → ¬ Contains (map (sig_of looped.now.net) (block_at looped.now.blocks place).gates) signal }
    ensures inside { result ≡ true → Contains (map (sig_of looped.now.net) (block_at looped.now.blocks place).gates) signal }
{
    match looped.net().driver(signal) {
        Some(gate) => looped.blocks().home.items()[gate as usize] == place,
        None => false,
    }
}

/// Adds the wires outside of a block among these, which its gates read.
fn add_outside(
    looped: &LoopedNetlist<'_>,
    place: u32,
    pins: &[Sig],
    outside: &mut IndexSet<Sig>,
) -> Result<(), AllocError>
    requires place { place < length looped.now.blocks.list }
    requires signals { All (IsSignal looped.now.net) pins.now }
    requires read { All (IsRead looped.now.net (block_at looped.now.blocks place).gates) pins.now }
    requires wires { AreWires looped.now.net (block_at looped.now.blocks place).gates outside.old.keys }
    ensures { OnOk result (AddWires looped.now.net (block_at looped.now.blocks place).gates pins.now outside.old.keys outside.new.keys) }
{
    for pin in pins {
        if !is_inside(looped, place, *pin) {
            outside.insert(*pin)?;
        }
    }
    Ok(())
}

/// The wires outside of a block that its gates read, each once.
fn outside_of(
    alloc: Global,
    looped: &LoopedNetlist<'_>,
    place: u32,
) -> Result<IndexSet<Sig>, AllocError>
    requires { place < length looped.now.blocks.list }
    ensures { IfOk result (λ outside. AreWiresOf looped.now.net (block_at looped.now.blocks place).gates (length (block_at looped.now.blocks place).gates) outside.keys) }
{
    let mut outside = IndexSet::new(alloc);
    for gate in gates_at(looped, place as usize) {
        let pins = looped.net().gate(*gate).pins.items();
        add_outside(looped, place, pins, &mut outside)?;
    }
    Ok(outside)
}

/// The place of a gate's signal behind the wires outside.
fn place_inside(net: &Netlist, gates: &[u32], outside: &IndexSet<Sig>, signal: Sig) -> Option<usize>
    requires { IsSignal net.now signal }
    ensures place { IfSome result (IsPlaceOf (origins net.now outside.now.keys gates.now) signal) }
    ensures some { Rise gates.now → Contains (map (sig_of net.now) gates.now) signal → IsSome result }
{
    let gate = net.driver(signal)?;
    match gates.binary_search(&gate) {
        Ok(place) => Some(place + outside.len()),
        Err(_) => None,
    }
}

/// The place of a signal among the wires outside and then the gates.
fn place_of(net: &Netlist, gates: &[u32], outside: &IndexSet<Sig>, signal: Sig) -> Option<usize>
    requires { IsSignal net.now signal }
    ensures place { IfSome result (IsPlaceOf (origins net.now outside.now.keys gates.now) signal) }
    ensures some { Rise gates.now → IsAmong net.now gates.now outside.now.keys signal → IsSome result }
{
    match outside.get_index_of(&signal) {
        Some(place) => Some(place),
        None => place_inside(net, gates, outside, signal),
    }
}

/// The number in the small netlist of a signal: a wire outside, or one of the gates.
fn number_of(net: &Netlist, gates: &[u32], outside: &IndexSet<Sig>, signal: Sig) -> Option<Sig>
    requires { IsSignal net.now signal }
    ensures number { IfSome result (λ s. IsPlaceOf (origins net.now outside.now.keys gates.now) signal s.0) }
    ensures some { AreNumerable gates.now outside.now.keys → IsAmong net.now gates.now outside.now.keys signal → IsSome result }
{
    let place = place_of(net, gates, outside, signal)?;
    match u32::try_from(place) {
        Ok(number) => Some(Sig(number)),
        Err(_) => None,
    }
}

/// The numbers in the small netlist of the signals on pins.
fn numbers_of(
    alloc: Global,
    net: &Netlist,
    gates: &[u32],
    outside: &IndexSet<Sig>,
    pins: &[Sig],
) -> Result<Option<Vec<Sig>>, AllocError>
    requires { All (IsSignal net.now) pins.now }
    ensures numbers { IfOk result (λ found. IfSome found (λ numbers. AreNumbersOf (origins net.now outside.now.keys gates.now) pins.now numbers.items)) }
    ensures some { AreNumerable gates.now outside.now.keys → All (IsAmong net.now gates.now outside.now.keys) pins.now → IfOk result IsSome }
{
    let mut numbers = Vec::with_capacity(alloc, pins.len())?;
    for pin in pins {
        let Some(number) = number_of(net, gates, outside, *pin) else {
            return Ok(None);
        };
        numbers.push(number)?;
    }
    Ok(Some(numbers))
}

/// A gate as the small netlist has it.
fn copy_gate(
    alloc: Global,
    net: &Netlist,
    gates: &[u32],
    outside: &IndexSet<Sig>,
    gate: u32,
) -> Result<Option<Gate>, AllocError>
    requires { gate < length net.now.gates }
    ensures copy { IfOk result (λ found. IfSome found (IsCopyOf (origins net.now outside.now.keys gates.now) (gate_at net.now gate))) }
    ensures some { AreNumerable gates.now outside.now.keys → All (IsAmong net.now gates.now outside.now.keys) (gate_at net.now gate).pins → IfOk result IsSome }
{
    let from = net.gate(gate);
    let Some(pins) = numbers_of(alloc, net, gates, outside, from.pins.items())? else {
        return Ok(None);
    };
    Ok(Some(Gate {
        name: from.name.copy()?,
        pins: Items::of(pins),
        cover: from.cover.copy()?,
    }))
}

/// The gates as the small netlist has them.
fn copy_gates(
    alloc: Global,
    net: &Netlist,
    gates: &[u32],
    outside: &IndexSet<Sig>,
) -> Result<Option<Vec<Gate>>, AllocError>
    requires { All (λ gate. gate < length net.now.gates) gates.now }
    ensures copies { IfOk result (λ found. IfSome found (λ made. AreCopies net.now (origins net.now outside.now.keys gates.now) gates.now made.items (length gates.now))) }
    ensures some { AreNumerable gates.now outside.now.keys → AreClosed net.now gates.now outside.now.keys → IfOk result IsSome }
{
    let mut made = Vec::with_capacity(alloc, gates.len())?;
    for gate in gates {
        let Some(copy) = copy_gate(alloc, net, gates, outside, *gate)? else {
            return Ok(None);
        };
        made.push(copy)?;
    }
    Ok(Some(made))
}

/// The names of these signals.
fn names_of(alloc: Global, net: &Netlist, signals: &[Sig]) -> Result<Vec<Name>, AllocError>
    requires { All (λ s. s.0 < count net.now) signals.now }
    ensures { IfOk result (λ names. names.items ≡ map (name_at net.now) signals.now) }
{
    let mut names = Vec::with_capacity(alloc, signals.len())?;
    for signal in signals {
        let name = net.name_of(*signal).copy()?;
        names.push(name)?;
    }
    Ok(names)
}

/// The parts of the small netlist of these gates, whose inputs are these wires outside of them.
fn excerpt_parts(
    alloc: Global,
    net: &Netlist,
    gates: &[u32],
    outside: &IndexSet<Sig>,
) -> Result<Option<Parts>, AllocError>
    requires gates { All (λ gate. gate < length net.now.gates) gates.now }
    requires outside { All (λ s. s.0 < count net.now) outside.now.keys }
    requires apart { AreApart net.now gates.now outside.now.keys }
    ensures small { IfOk result (λ found. IfSome found (IsExcerpt net.now outside.now.keys gates.now)) }
    ensures named { IfOk result (λ found. IfSome found (IsNamedBy net.now outside.now.keys gates.now)) }
    ensures some { AreNumerable gates.now outside.now.keys → AreClosed net.now gates.now outside.now.keys → IfOk result IsSome }
    ensures valid { IsNetlist net.now }
{
    let name = net.name();
    let Some(copies) = copy_gates(alloc, net, gates, outside)? else {
        return Ok(None);
    };
    let inputs = names_of(alloc, net, outside.as_slice())?;
    Ok(Some(Parts {
        name: name.copy()?,
        inputs: Items::of(inputs),
        clock: None,
        latches: Items::of(Vec::new(alloc)),
        gates: Items::of(copies),
        outputs: Items::of(Vec::new(alloc)),
    }))
}

/// The netlist of these parts, if they make one.
fn made_of(alloc: Global, parts: Parts) -> Result<Option<Netlist>, AllocError>
    ensures same { IfOk result (λ found. IfSome found (λ small. small ≡ parts)) }
    ensures valid { IfOk result (λ found. IfSome found IsNetlist) }
    ensures some { IsNetlist parts → IfOk result IsSome }
{
    match Netlist::new(alloc, parts) {
        Ok(small) => Ok(Some(small)),
        Err(fault) => match fault {
            PartsFault::Memory => Err(AllocError),
            _ => Ok(None),
        },
    }
}

/// These gates as a netlist of its own, whose inputs are these wires outside of them: names are those of the netlist.
fn excerpt(
    alloc: Global,
    net: &Netlist,
    gates: &[u32],
    outside: &IndexSet<Sig>,
) -> Result<Option<Netlist>, AllocError>
    requires gates { All (λ gate. gate < length net.now.gates) gates.now }
    requires outside { All (λ s. s.0 < count net.now) outside.now.keys }
    requires apart { AreApart net.now gates.now outside.now.keys }
    ensures small { IfOk result (λ found. IfSome found (IsExcerpt net.now outside.now.keys gates.now)) }
    ensures valid { IfOk result (λ found. IfSome found IsNetlist) }
    ensures some { AreClosed net.now gates.now outside.now.keys → IfOk result IsSome }
{
    let Some(parts) = excerpt_parts(alloc, net, gates, outside)? else {
        return Ok(None);
    };
    made_of(alloc, parts)
}

/// The block at this place as a netlist of its own, whose inputs are the wires outside that its gates read, each once:
/// names are those of the netlist. It is always there: the parts of a block make a netlist.
///
/// The condition is that there is one at this place.
pub fn loop_netlist(
    alloc: Global,
    looped: &LoopedNetlist<'_>,
    place: u32,
) -> Result<Option<Netlist>, AllocError>
    requires { place < length looped.now.blocks.list }
    ensures small { IfOk result (λ found. IfSome found (IsLoopNetlist looped.now.net (block_at looped.now.blocks place).gates)) }
    ensures filled { IfOk result (λ found. IfSome found (λ small. 0 < length small.gates)) }
    ensures valid { IfOk result (λ found. IfSome found IsNetlist) }
    ensures some { IfOk result IsSome }
{
    let gates = gates_at(looped, place as usize);
    let outside = outside_of(alloc, looped, place)?;
    excerpt(alloc, looped.net(), gates, &outside)
}
