//! The joined netlist of two.

ghost use Rattle.std.specs.Prelude.{◌≡◌, ◌+◌, ◌-◌, ◌++◌, ◌<◌, ◌≤◌, [], None, length, map, All, IfOk, OnOk};
ghost use Rattle.std.specs.List.{range_with_len};
ghost use Rattle.netlist.specs.Netlists.{count, with_gates, IsNetlist, columns as column_count};
ghost use Rattle.unroll.specs.Marks.{mark as mark_of};
ghost use Rattle.miters.specs.Differences.{columns_by_name};
ghost use Rattle.miters.specs.Joined.{moved_by, moved_gate_by, moved_gates, moved_pair_by, joined, joined_pairs as joined_pairs_of};
ghost use Rattle.miters.specs.Matching.{unmatched};

use crate::pairs::own_pairs;
use cyc_base::{Items, Name, Sig};
use netlist::{Gate, Netlist, Pair, copy_gates, netlist_of, parts_with};
use std::alloc::{AllocError, Global};
use unroll::{copy_name, mark};

/// A signal of the second netlist, whose columns are these of the first one, and whose first gate has this number.
fn moved_signal(columns: &[u32], first: u32, signal: Sig) -> Sig
    requires fits { first + (signal.0 - length columns.now) ≤ 4294967295 }
    ensures { result ≡ moved_by columns.now first signal }
{
    let place = signal.0 as usize;
    if place < columns.len() {
        Sig(columns[place])
    } else {
        Sig(first + (place - columns.len()) as u32)
    }
}

/// What the pins of a gate of the second netlist read.
fn moved_pins(
    alloc: Global,
    columns: &[u32],
    first: u32,
    pins: &[Sig],
) -> Result<Vec<Sig>, AllocError>
    requires fits { All (λ pin. first + (pin.0 - length columns.now) ≤ 4294967295) pins.now }
    ensures { IfOk result (λ moved. moved.items ≡ map (moved_by columns.now first) pins.now) }
{
    pins.iter()
        .map(|pin| moved_signal(columns, first, *pin))
        .collect(alloc)
}

/// A gate of the second netlist.
fn moved_gate(
    alloc: Global,
    b: &Netlist,
    columns: &[u32],
    first: u32,
    mark: &Name,
    number: u32,
) -> Result<Gate, AllocError>
    requires number { number < length b.now.gates }
    requires width { length columns.now ≡ column_count b.now }
    requires fits { first + length b.now.gates ≤ 4294967295 }
    ensures { IfOk result (λ gate. gate ≡ moved_gate_by columns.now first mark.now b.now number) }
{
    let own = b.gate(number);
    let name = copy_name(alloc, mark, number, &own.name)?;
    let pins = Items::of(moved_pins(alloc, columns, first, own.pins.items())?);
    let cover = own.cover.copy()?;
    Ok(Gate { name, pins, cover })
}

/// Adds the gates of the second netlist.
fn add_moved(
    alloc: Global,
    b: &Netlist,
    columns: &[u32],
    first: u32,
    mark: &Name,
    gates: &mut Vec<Gate>,
) -> Result<(), AllocError>
    requires width { length columns.now ≡ column_count b.now }
    requires fits { first + length b.now.gates ≤ 4294967295 }
    ensures { OnOk result (gates.new.items ≡ gates.old.items ++ map (moved_gate_by columns.now first mark.now b.now) (range_with_len 0 (length b.now.gates))) }
{
    for number in 0..b.gates() {
        gates.push(moved_gate(alloc, b, columns, first, mark, number)?)?;
    }
    Ok(())
}

/// The gates of both netlists.
pub(crate) fn joined_gates(
    alloc: Global,
    a: &Netlist,
    b: &Netlist,
    columns: &[u32],
    mark: &Name,
) -> Result<Vec<Gate>, AllocError>
    requires columns { columns.now ≡ columns_by_name a.now b.now }
    requires mark { mark.now ≡ mark_of a.now }
    requires fits { count a.now + length b.now.gates ≤ 4294967295 }
    ensures { IfOk result (λ gates. gates.items ≡ a.now.gates ++ moved_gates a.now b.now) }
{
    let mut gates = copy_gates(alloc, a)?;
    add_moved(alloc, b, columns, a.count(), mark, &mut gates)?;
    Ok(gates)
}

/// The netlist of the first one's columns and these gates, without outputs.
pub(crate) fn netlist_with(
    alloc: Global,
    a: &Netlist,
    gates: Vec<Gate>,
) -> Result<Netlist, AllocError>
    requires { IsNetlist (with_gates a.now gates.items []) }
    ensures { IfOk result (λ net. net ≡ with_gates a.now gates.items []) }
{
    let parts = parts_with(alloc, a, gates, Vec::new(alloc))?;
    netlist_of(alloc, parts)
}

/// The joined netlist of two whose names match: the columns and gates of the first, and then the gates of the second, which
/// read the first one's columns by name. `columns` are the first one's columns of the second one's names.
pub fn joined_netlist(
    alloc: Global,
    a: &Netlist,
    b: &Netlist,
    columns: &[u32],
) -> Result<Netlist, AllocError>
    requires matched { unmatched a.now b.now ≡ None }
    requires columns { columns.now ≡ columns_by_name a.now b.now }
    requires fits { count a.now + length b.now.gates ≤ 4294967295 }
    ensures { IfOk result (λ net. net ≡ joined a.now b.now []) }
{
    a.laws();
    b.laws();
    let mark = mark(alloc, a)?;
    let gates = joined_gates(alloc, a, b, columns, &mark)?;
    netlist_with(alloc, a, gates)
}

/// A pair of wires of both netlists as one of the joined netlist.
fn moved_pair(columns: &[u32], first: u32, pair: Pair) -> Pair
    requires { first + (pair.there.0 - length columns.now) ≤ 4294967295 }
    ensures { result ≡ moved_pair_by columns.now first pair }
{
    Pair {
        here: pair.here,
        there: moved_signal(columns, first, pair.there),
    }
}

/// Pairs of both netlists as pairs of the joined netlist.
fn moved_pairs(
    alloc: Global,
    columns: &[u32],
    first: u32,
    own: &[Pair],
) -> Result<Vec<Pair>, AllocError>
    requires { All (λ pair. first + (pair.there.0 - length columns.now) ≤ 4294967295) own.now }
    ensures { IfOk result (λ pairs. pairs.items ≡ map (moved_pair_by columns.now first) own.now) }
{
    own.iter()
        .map(|pair| moved_pair(columns, first, *pair))
        .collect(alloc)
}

/// The outputs of one name, and what the latches of one name load, as wires of the joined netlist of two netlists whose names
/// match. `columns` are the first one's columns of the second one's names.
pub fn joined_pairs(
    alloc: Global,
    a: &Netlist,
    b: &Netlist,
    columns: &[u32],
) -> Result<Vec<Pair>, AllocError>
    requires matched { unmatched a.now b.now ≡ None }
    requires columns { columns.now ≡ columns_by_name a.now b.now }
    requires fits { count a.now + length b.now.gates ≤ 4294967295 }
    ensures { IfOk result (λ pairs. pairs.items ≡ joined_pairs_of a.now b.now) }
{
    let own = own_pairs(alloc, a, b)?;
    a.laws();
    b.laws();
    moved_pairs(alloc, columns, a.count(), &own)
}
