//! Gates that tell whether wires have their values.

ghost use Rattle.std.specs.Prelude.{◌≡◌, ◌<◌, ◌≤◌, ◌+◌, ◌-◌, ◌++◌, true, None, length, map, All, IfOk, OnOk};
ghost use Rattle.std.specs.List.{range_with_len};
ghost use Rattle.cover_logic.specs.Covers.{cover_of as cover_by, first_fault};
ghost use Rattle.care_rows.specs.Restricted.{telling_gates as telling_gates_of};
ghost use Rattle.care_rows.specs.Models.{and_cover as and_cover_of, and_gate as and_gate_of, link as link_of, linked_piece as linked_piece_of, literal as literal_of, piece as piece_of, placed_row as placed_row_of, row_gates, row_outputs, telling as telling_of, telling_name as telling_name_of, telling_of_rows};

use crate::assumed::marked_name;
use crate::kept::kept_signal;
use crate::rows::{Row, WireValue};
use cover_logic::{Cover, Lit};
use cyc_base::{Items, MAX_PINS, Name, Sig};
use netlist::Gate;
use std::alloc::{AllocError, Global};

/// The most wires that a gate reads beside the one before it.
const PIECE: usize = MAX_PINS - 1;

/// How many gates tell whether so many wires have their values.
pub(crate) fn telling_gates(wires: usize) -> usize
    ensures { result ≡ telling_gates_of wires }
{
    wires.saturating_sub(1) / PIECE + 1
}

fn literal(asked: WireValue) -> Lit
    ensures { result ≡ literal_of asked }
{
    if asked.value { Lit::One } else { Lit::Zero }
}

/// The cover of so many pins that is 1 where one of these rows matches.
fn cover_of(pins: usize, rows: Vec<cover_logic::Row>) -> Cover
    requires { first_fault pins rows.items ≡ None }
    ensures { result ≡ cover_by pins true rows.items }
{
    match Cover::new(pins, true, rows) {
        Ok(cover) => cover,
        Err(_) => unreachable!(),
    }
}

/// What a gate asks of its pins.
fn literals(alloc: Global, wires: &[WireValue]) -> Result<Vec<Lit>, AllocError>
    ensures { IfOk result (λ lits. lits.items ≡ map literal_of wires.now) }
{
    wires.iter().map(|asked| literal(*asked)).collect(alloc)
}

/// What the pins read.
fn pins_of(alloc: Global, wires: &[WireValue]) -> Result<Vec<Sig>, AllocError>
    ensures { IfOk result (λ pins. pins.items ≡ map (λ e. e.wire) wires.now) }
{
    wires.iter().map(|asked| asked.wire).collect(alloc)
}

/// The cover that is 1 where all wires have their values.
fn and_cover(alloc: Global, wires: &[WireValue]) -> Result<Cover, AllocError>
    requires { length wires.now ≤ MAX_PINS }
    ensures { IfOk result (λ cover. cover ≡ and_cover_of wires.now) }
{
    let row = cover_logic::Row {
        lits: Items::of(literals(alloc, wires)?),
    };
    Ok(cover_of(wires.len(), vec![in alloc; row]?))
}

/// The gate that is 1 where all wires have their values.
fn and_gate(alloc: Global, name: Name, wires: &[WireValue]) -> Result<Gate, AllocError>
    requires { length wires.now ≤ MAX_PINS }
    ensures { IfOk result (λ gate. gate ≡ and_gate_of name wires.now) }
{
    let pins = pins_of(alloc, wires)?;
    let cover = and_cover(alloc, wires)?;
    Ok(Gate {
        name,
        pins: Items::of(pins),
        cover,
    })
}

/// What a gate reads of the gate before it, if there is one, where the first has the signal `first`.
fn link(alloc: Global, first: u32, place: u32) -> Result<Vec<WireValue>, AllocError>
    requires { first + place ≤ 4294967295 }
    ensures { IfOk result (λ linked. linked.items ≡ link_of first place) }
{
    if place == 0 {
        return Ok(Vec::new(alloc));
    }
    let before = WireValue {
        wire: Sig(first + place - 1),
        value: true,
    };
    Ok(vec![in alloc; before]?)
}

/// Which of the wires a gate reads.
fn piece(wires: &[WireValue], place: u32) -> &[WireValue]
    requires { place < telling_gates_of (length wires.now) }
    ensures piece { result.now ≡ piece_of wires.now place }
    ensures narrow { length result.now ≤ PIECE }
{
    let start = PIECE * place as usize;
    let end = wires.len().min(start + PIECE);
    &wires[start..end]
}

/// What one of the gates reads that tell of these wires, where the first has the signal `first`.
fn linked_piece(
    alloc: Global,
    first: u32,
    wires: &[WireValue],
    place: u32,
) -> Result<Vec<WireValue>, AllocError>
    requires place { place < telling_gates_of (length wires.now) }
    requires fits { first + place ≤ 4294967295 }
    ensures piece { IfOk result (λ linked. linked.items ≡ linked_piece_of first wires.now place) }
    ensures narrow { IfOk result (λ linked. length linked.items ≤ MAX_PINS) }
{
    let mut linked = link(alloc, first, place)?;
    linked.extend_from_slice(piece(wires, place))?;
    Ok(linked)
}

/// The gates that tell, as they are numbered.
#[derive(Clone, Copy)]
pub(crate) struct Tellers<'a> {
    pub mark: &'a Name,
    /// How many there are.
    pub total: u32,
    /// The signal of the first.
    pub base: u32,
}

impl<'a> Tellers<'a> {
    /// The name of the gate with this number.
    fn name(&self, alloc: Global, number: u32) -> Result<Name, AllocError>
        requires number { number < self.now.total }
        requires fits { self.now.base + self.now.total ≤ 4294967295 }
        ensures { IfOk result (λ name. name ≡ telling_name_of self.now.mark.now self.now.total number) }
    {
        if number + 1 == self.total {
            return marked_name(alloc, b"harmless", self.mark, &[]);
        }
        let shown = number + 1;
        let text = format!(in alloc; "row{shown}")?;
        marked_name(alloc, text.as_bytes(), self.mark, &[])
    }

    /// One of the gates that tell of these wires, of which the first has this number.
    fn gate(
        &self,
        alloc: Global,
        number: u32,
        wires: &[WireValue],
        place: u32,
    ) -> Result<Gate, AllocError>
        requires place { place < telling_gates_of (length wires.now) }
        requires within { number + place < self.now.total }
        requires fits { self.now.base + self.now.total ≤ 4294967295 }
        ensures { IfOk result (λ gate. gate ≡ and_gate_of (telling_name_of self.now.mark.now self.now.total (number + place)) (linked_piece_of (self.now.base + number) wires.now place)) }
    {
        let name = self.name(alloc, number + place)?;
        let linked = linked_piece(alloc, self.base + number, wires, place)?;
        and_gate(alloc, name, &linked)
    }

    /// Adds the gates that tell whether all these wires have their values.
    fn add(
        &self,
        alloc: Global,
        number: u32,
        wires: &[WireValue],
        gates: &mut Vec<Gate>,
    ) -> Result<(), AllocError>
        requires within { number + telling_gates_of (length wires.now) ≤ self.now.total }
        requires fits { self.now.base + self.now.total ≤ 4294967295 }
        ensures { OnOk result (gates.new.items ≡ gates.old.items ++ telling_of self.now.mark.now self.now.total self.now.base number wires.now) }
    {
        for place in 0..telling_gates(wires.len()) as u32 {
            gates.push(self.gate(alloc, number, wires, place)?)?;
        }
        Ok(())
    }

    /// Adds the gates that tell of a row, whose wires stand at these places.
    fn add_row(
        &self,
        alloc: Global,
        number: u32,
        places: &[u32],
        row: &Row,
        gates: &mut Vec<Gate>,
    ) -> Result<(), AllocError>
        requires wires { All (λ e. e.wire.0 < length places.now) row.now.values }
        requires within { number + telling_gates_of (length row.now.values) ≤ self.now.total }
        requires fits { self.now.base + self.now.total ≤ 4294967295 }
        ensures { OnOk result (gates.new.items ≡ gates.old.items ++ telling_of self.now.mark.now self.now.total self.now.base number (placed_row_of places.now row.now)) }
    {
        let wires = placed_row(alloc, places, row)?;
        self.add(alloc, number, &wires, gates)
    }

    /// Adds the gates that tell of each row, and what their outputs should be.
    fn add_rows(
        &self,
        alloc: Global,
        places: &[u32],
        rows: &[Row],
        gates: &mut Vec<Gate>,
        outputs: &mut Vec<WireValue>,
    ) -> Result<(), AllocError>
        requires wires { All (λ row. All (λ e. e.wire.0 < length places.now) row.values) rows.now }
        requires within { telling_of_rows rows.now ≤ self.now.total }
        requires fits { self.now.base + self.now.total ≤ 4294967295 }
        ensures gates { OnOk result (gates.new.items ≡ gates.old.items ++ row_gates self.now.mark.now self.now.total self.now.base places.now 0 rows.now) }
        ensures outputs { OnOk result (outputs.new.items ≡ outputs.old.items ++ row_outputs self.now.base 0 rows.now) }
    {
        let mut number = 0;
        for row in rows {
            self.add_row(alloc, number, places, row, gates)?;
            number += telling_gates(row.values.items().len()) as u32;
            outputs.push(WireValue {
                wire: Sig(self.base + number - 1),
                value: false,
            })?;
        }
        Ok(())
    }
}

impl<'a> Tellers<'a> {
    /// Adds the last gates, which tell whether all conditions hold.
    fn add_last(
        &self,
        alloc: Global,
        conditions: &[WireValue],
        gates: &mut Vec<Gate>,
    ) -> Result<(), AllocError>
        requires room { telling_gates_of (length conditions.now) ≤ self.now.total }
        requires fits { self.now.base + self.now.total ≤ 4294967295 }
        ensures { OnOk result (gates.new.items ≡ gates.old.items ++ telling_of self.now.mark.now self.now.total self.now.base (self.now.total - telling_gates_of (length conditions.now)) conditions.now) }
    {
        let number = self.total - telling_gates(conditions.len()) as u32;
        self.add(alloc, number, conditions, gates)
    }

    /// Adds the gates that tell of each row, and those that tell whether these conditions hold and no row does.
    pub fn add_all(
        &self,
        alloc: Global,
        places: &[u32],
        rows: &[Row],
        conditions: Vec<WireValue>,
        gates: &mut Vec<Gate>,
    ) -> Result<(), AllocError>
        requires wires { All (λ row. All (λ e. e.wire.0 < length places.now) row.values) rows.now }
        requires total { self.now.total ≡ telling_of_rows rows.now + telling_gates_of (length conditions.items + length rows.now) }
        requires fits { self.now.base + self.now.total ≤ 4294967295 }
        ensures { OnOk result (gates.new.items ≡ gates.old.items ++ (row_gates self.now.mark.now self.now.total self.now.base places.now 0 rows.now ++ telling_of self.now.mark.now self.now.total self.now.base (telling_of_rows rows.now) (conditions.items ++ row_outputs self.now.base 0 rows.now))) }
    {
        let mut conditions = conditions;
        self.add_rows(alloc, places, rows, gates, &mut conditions)?;
        self.add_last(alloc, &conditions, gates)?;
        Ok(())
    }
}

/// The wires of a row, where they stand.
fn placed_row(alloc: Global, places: &[u32], row: &Row) -> Result<Vec<WireValue>, AllocError>
    requires { All (λ e. e.wire.0 < length places.now) row.now.values }
    ensures { IfOk result (λ wires. wires.items ≡ placed_row_of places.now row.now) }
{
    row.values
        .items()
        .iter()
        .map(|asked| WireValue {
            wire: kept_signal(places, asked.wire),
            value: asked.value,
        })
        .collect(alloc)
}
