//! Which columns are kept, and where what is kept stands.

ghost use Rattle.std.specs.Prelude.{◌≡◌, ◌<◌, ◌≤◌, ◌+◌, ◌++◌, ℕ, true, false, if◌then◌else◌, length, replicate, All, IfOk, OnOk};
ghost use Rattle.netlist.specs.Netlists.{gate_at, is_marked, columns as column_count};
ghost use Rattle.care_rows.specs.Models.{AreUsed, IsUsed, KeepsMarks, places_from, rank};

use crate::rows::Row;
use cyc_base::Sig;
use netlist::Netlist;
use std::alloc::{AllocError, Global};

/// Marks a signal, if it is a column.
fn mark_signal(signal: Sig, used: &mut [bool])
    ensures keeps { KeepsMarks used.old used.new }
    ensures marks { IsUsed used.new signal }
{
    let column = signal.0 as usize;
    if column < used.len() {
        used[column] = true;
    }
}

/// Marks those of these signals that are columns.
fn mark_signals(signals: &[Sig], used: &mut [bool])
    ensures keeps { KeepsMarks used.old used.new }
    ensures marks { All (IsUsed used.new) signals.now }
{
    for signal in signals {
        mark_signal(*signal, used);
    }
}

/// Marks those of a row's wires that are columns.
fn mark_row(row: &Row, used: &mut [bool])
    ensures keeps { KeepsMarks used.old used.new }
    ensures marks { All (λ e. IsUsed used.new e.wire) row.now.values }
{
    for asked in row.values.items() {
        mark_signal(asked.wire, used);
    }
}

fn mark_rows(rows: &[Row], used: &mut [bool])
    ensures keeps { KeepsMarks used.old used.new }
    ensures marks { All (λ row. All (λ e. IsUsed used.new e.wire) row.values) rows.now }
{
    for row in rows {
        mark_row(row, used);
    }
}

/// Marks the columns on the pins of a gate, if it is marked.
fn mark_pins_of(net: &Netlist, cone: &[bool], gate: u32, used: &mut [bool])
    requires gate { gate < length net.now.gates }
    requires width { length cone.now ≡ length net.now.gates }
    ensures keeps { KeepsMarks used.old used.new }
    ensures marks { is_marked cone.now gate ≡ true → All (IsUsed used.new) (gate_at net.now gate).pins }
{
    if cone[gate as usize] {
        mark_signals(net.gate(gate).pins.items(), used);
    }
}

/// Marks the columns on the pins of the marked gates.
fn mark_pins(net: &Netlist, cone: &[bool], used: &mut [bool])
    requires { length cone.now ≡ length net.now.gates }
    ensures keeps { KeepsMarks used.old used.new }
    ensures marks { (n : ℕ) → n < length net.now.gates → is_marked cone.now n ≡ true → All (IsUsed used.new) (gate_at net.now n).pins }
{
    for gate in 0..net.gates() {
        mark_pins_of(net, cone, gate, used);
    }
}

/// Marks these columns.
fn mark_columns(columns: &[u32], used: &mut [bool])
    requires { All (λ column. column < length used.old) columns.now }
    ensures keeps { KeepsMarks used.old used.new }
    ensures marks { All (λ column. is_marked used.new column ≡ true) columns.now }
{
    for column in columns {
        used[*column as usize] = true;
    }
}

/// Marks the columns that are kept, where none is marked yet.
fn mark_used(net: &Netlist, assumed: &[u32], rows: &[Row], cone: &[bool], used: &mut [bool])
    requires cone { length cone.now ≡ length net.now.gates }
    requires width { length used.old ≡ column_count net.now }
    requires assumed { All (λ column. column < column_count net.now) assumed.now }
    ensures { AreUsed net.now assumed.now rows.now cone.now used.new }
{
    mark_columns(assumed, used);
    mark_rows(rows, used);
    mark_pins(net, cone, used);
}

/// A mark for each column: those that the assumption names, and those that rows and marked gates read.
pub(crate) fn used_columns(
    alloc: Global,
    net: &Netlist,
    assumed: &[u32],
    rows: &[Row],
    cone: &[bool],
) -> Result<Vec<bool>, AllocError>
    requires cone { length cone.now ≡ length net.now.gates }
    requires assumed { All (λ column. column < column_count net.now) assumed.now }
    ensures { IfOk result (λ used. AreUsed net.now assumed.now rows.now cone.now used.items) }
{
    let mut used = vec![in alloc; false; net.columns() as usize]?;
    mark_used(net, assumed, rows, cone, &mut used);
    Ok(used)
}

/// The place behind this one, if there is a mark.
fn place_after(place: u32, mark: bool) -> u32
    requires { place < 4294967295 }
    ensures { result ≡ (if mark then place + 1 else place) }
{
    if mark { place + 1 } else { place }
}

/// Adds a place for each of these, from `first` on: one after another for those that are marked. The next place is
/// answered.
pub(crate) fn add_places(
    marks: &[bool],
    first: u32,
    places: &mut Vec<u32>,
) -> Result<u32, AllocError>
    requires { first + length marks.now ≤ 4294967295 }
    ensures next { IfOk result (λ next. next ≡ first + rank marks.now (length marks.now)) }
    ensures places { OnOk result (places.new.items ≡ places.old.items ++ places_from marks.now first) }
{
    let mut next = first;
    for mark in marks {
        places.push(next)?;
        next = place_after(next, *mark);
    }
    Ok(next)
}
