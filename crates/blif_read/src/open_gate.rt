// A gate whose rows may go on.
ghost use Rattle.std.specs.Prelude.{◌≡◌, ◌≤◌, ◌++◌, ◌∷◌, [], All, IfOk, OnOk, OnErr, Some, length, unwrap_or, true, None};
ghost use Rattle.blif_read.specs.Running.{IsOpenGate, new_gate, add_row, gate_line};

use crate::models::GateLine;
use crate::recent_covers::RecentCovers;
use cover_logic::{Cover, Row};
use cyc_base::{Items, MAX_PINS, Name};
use std::alloc::{AllocError, Global};
use std::marker::Model;

// So many rows may have more room than they need.
const FEW_ROWS: usize = 4;

pub struct OpenGate {
    pins: Items<Name>,
    output: Name,
    // whether the first row is of the on-plane, if there is a row
    first: Option<bool>,
    rows: Vec<Row>,
}

impl Drop for OpenGate {
    fn drop(self) {
        let OpenGate {
            pins: _,
            output: _,
            first: _,
            rows: _,
        } = self;
    }
}

impl Model for OpenGate {
    ghost use Rattle.blif_read.specs.Running.{OpenGate as RowsSoFar, IsOpenGate};

    ghost Value = { RowsSoFar };

    ghost view = { λ gate. record { pins = gate.pins; output = gate.output; first = gate.first; rows = gate.rows.items } };

    ghost invariant = { λ gate. IsOpenGate (record { pins = gate.pins; output = gate.output; first = gate.first; rows = gate.rows.items }) };
}

impl OpenGate {
    pub fn new(alloc: Global, pins: Items<Name>, output: Name) -> OpenGate
        requires { length pins ≤ MAX_PINS }
        ensures { result ≡ new_gate pins output }
    {
        OpenGate {
            pins,
            output,
            first: None,
            rows: Vec::new(alloc),
        }
    }

    pub fn add_row(&mut self, row: Row, plane: bool) -> Result<(), AllocError>
        requires { length row.lits ≡ length self.old.pins }
        ensures { OnOk result (self.new ≡ add_row row plane self.old) }
    {
        add_to(&mut self.rows, row)?;
        self.first = Some(self.first.unwrap_or(plane));
        Ok(())
    }

    pub fn pins(&self) -> usize
        ensures { result ≡ length self.now.pins }
    {
        self.pins.items().len()
    }

    pub fn first(&self) -> Option<bool>
        ensures { result ≡ self.now.first }
    {
        self.first
    }

    // The gate, where no more rows follow. Its cover holds its rows in common with an equal one of these.
    pub fn into_line(self, alloc: Global, covers: &mut RecentCovers) -> Result<GateLine, AllocError>
        ensures { IfOk result (λ line. line ≡ gate_line self) }
    {
        let OpenGate {
            pins,
            output,
            first,
            mut rows,
        } = self;
        // A few rows keep their room, since most such covers are let go for an equal one.
        if rows.len() > FEW_ROWS {
            rows.shrink_to_fit();
        }
        let cover = whole_cover(pins.items().len(), first, rows);
        Ok(GateLine {
            pins,
            output,
            cover: covers.share(alloc, cover)?,
        })
    }
}

// Adds a row. There is room for two at first, since most covers have one row or two.
fn add_to(rows: &mut Vec<Row>, row: Row) -> Result<(), AllocError>
    ensures added { OnOk result (rows.new.items ≡ rows.old.items ++ row ∷ []) }
    ensures kept { OnErr result (rows.new.items ≡ rows.old.items) }
{
    if rows.is_empty() {
        rows.reserve_exact(2)?;
    }
    rows.push(row)?;
    Ok(())
}

// The cover of rows that fit.
fn whole_cover(pins: usize, first: Option<bool>, rows: Vec<Row>) -> Cover
    requires pins { pins ≤ MAX_PINS }
    requires width { All (λ row. length row.lits ≡ pins) rows.items }
    requires first { rows.items ≡ [] → first ≡ None }
    ensures { result ≡ record { pins = pins; plane = unwrap_or first true; rows = rows.items } }
{
    match Cover::new(pins, first.unwrap_or(true), rows) {
        Ok(cover) => cover,
        Err(_) => unreachable!(),
    }
}
