//! The lines of the gates.

ghost use Rattle.std.specs.Prelude.{◌≡◌, ◌<◌, ◌++◌, ◌∷◌, [], All, map, codes, OnOk};
ghost use Rattle.cyc_io.specs.Taken.{IsAppended, sink_call};
ghost use Rattle.cover_logic.specs.Covers.{IsCover};
ghost use Rattle.netlist.specs.Netlists.{IsSignal, IsNetlist, signal_name};
ghost use Rattle.blif_write.specs.Written.{line_text, lit_byte, plane_word, row_line};
ghost use Rattle.blif_write.specs.Laws.{HasCovers};
ghost use Rattle.blif_write.specs.Putting.{lits_text, rows_text, gate_text, gates_text};

use crate::names::put_names;
use crate::put::put_last_word;
use cover_logic::{Lit, Row};
use cyc_io::{Failed, Sink, write_whole};
use netlist::{Gate, Netlist};

fn lit_text(lit: Lit) -> &'static [u8]
    ensures { result.now ≡ lit_byte lit ∷ [] }
{
    match lit {
        Lit::Zero => b"0",
        Lit::One => b"1",
        Lit::Any => b"-",
    }
}

/// A row without literals: the plane's digit.
fn bare_row(plane: bool) -> &'static [u8]
    ensures { result.now ≡ line_text (plane_word plane ∷ []) }
{
    if plane { b"1\n" } else { b"0\n" }
}

/// What follows the literals of a row: a blank and the plane's digit.
fn row_end(plane: bool) -> &'static [u8]
    ensures { result.now ≡ 32 ∷ line_text (plane_word plane ∷ []) }
{
    if plane { b" 1\n" } else { b" 0\n" }
}

fn put_lits<K: Sink>(sink: &mut K, lits: &[Lit]) -> Result<(), Failed>
    ensures { IsAppended (lits_text lits.now) (sink_call K.put K.faults sink.old sink.new) result }
{
    for lit in lits {
        write_whole(sink, lit_text(*lit))?;
    }
    Ok(())
}

fn put_lits_and_plane<K: Sink>(sink: &mut K, plane: bool, lits: &[Lit]) -> Result<(), Failed>
    ensures { IsAppended (lits_text lits.now ++ 32 ∷ line_text (plane_word plane ∷ [])) (sink_call K.put K.faults sink.old sink.new) result }
{
    put_lits(sink, lits)?;
    write_whole(sink, row_end(plane))
}

fn put_row<K: Sink>(sink: &mut K, plane: bool, row: &Row) -> Result<(), Failed>
    ensures { IsAppended (line_text (row_line plane row.now)) (sink_call K.put K.faults sink.old sink.new) result }
{
    match row.lits.items() {
        [] => write_whole(sink, bare_row(plane)),
        lits => put_lits_and_plane(sink, plane, lits),
    }
}

fn put_rows<K: Sink>(sink: &mut K, plane: bool, rows: &[Row]) -> Result<(), Failed>
    ensures { IsAppended (rows_text plane rows.now) (sink_call K.put K.faults sink.old sink.new) result }
{
    for row in rows {
        put_row(sink, plane, row)?;
    }
    Ok(())
}

fn put_gate_names<K: Sink>(sink: &mut K, net: &Netlist, gate: &Gate) -> Result<(), Failed>
    requires { All (IsSignal net.now) gate.now.pins }
    ensures { IsAppended (line_text (codes ".names" ∷ (map (signal_name net.now) gate.now.pins ++ gate.now.name ∷ []))) (sink_call K.put K.faults sink.old sink.new) result }
{
    write_whole(sink, b".names")?;
    put_names(sink, net, gate.pins.items())?;
    put_last_word(sink, gate.name.bytes())
}

fn put_gate<K: Sink>(sink: &mut K, net: &Netlist, gate: &Gate) -> Result<(), Failed>
    requires { All (IsSignal net.now) gate.now.pins }
    ensures text { IsAppended (gate_text net.now gate.now) (sink_call K.put K.faults sink.old sink.new) result }
    ensures proper { OnOk result (IsCover gate.now.cover) }
{
    put_gate_names(sink, net, gate)?;
    put_rows(sink, gate.cover.plane(), gate.cover.rows())
}

/// Appends the lines of all gates.
pub(crate) fn put_gates<K: Sink>(sink: &mut K, net: &Netlist) -> Result<(), Failed>
    ensures text { IsAppended (gates_text net.now) (sink_call K.put K.faults sink.old sink.new) result }
    ensures covers { OnOk result (HasCovers net.now) }
    ensures valid { IsNetlist net.now }
{
    for i in 0..net.gates() {
        put_gate(sink, net, net.gate(i))?;
    }
    Ok(())
}
