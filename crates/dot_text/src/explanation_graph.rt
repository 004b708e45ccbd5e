//! Why a gate is undetermined.

ghost use Rattle.std.specs.Prelude.{◌≡◌, ◌<◌, ◌+◌, ◌++◌, ◌&&◌, false, All, OnOk, length, slice_index_or};
ghost use Rattle.std.specs.List.{flat_map, list_any};
ghost use Rattle.cyc_base.specs.Values.{bits};
ghost use Rattle.cyc_base.specs.declared.trit.Trit.TheVariants.{X};
ghost use Rattle.cyc_io.specs.Taken.{IsAppended, sink_call};
ghost use Rattle.cyc_io.specs.Text.{text_bytes};
ghost use Rattle.explanations.specs.Held.{seen};
ghost use Rattle.explanations.specs.declared.pins.Pin.TheVariants.{Free};
ghost use Rattle.loops.specs.Found.{loops_of};
ghost use Rattle.netlist.specs.Fixpoint.{fix, wire as value_of};
ghost use Rattle.netlist.specs.Netlists.{IsNetlist, IsSignal, gate_sig, is_marked};
ghost use Rattle.dot_text.specs.ExplanationGraphs.{IsExplanationOf};
ghost use Rattle.dot_text.specs.Dot.{box, labelled_graph, quoted};
ghost use Rattle.dot_text.specs.ExplanationGraphs.{explanation_graph, gate_box, gate_node, gate_opens as gate_opens_of, gate_wire, held_at, is_held as is_held_by, need_at, picture, pin_line, pin_wire, pin_wires, style as style_of, unknown_style as unknown_style_of, value_line};
ghost use Rattle.dot_text.specs.RefusalGraphs.{wire_label};
ghost use Rattle.dot_text.specs.Seen.{picture_seen, quoted_line};

use crate::drawing::Drawing;
use crate::loop_graph::wire_style;
use crate::node::{close_box, open_box, put_node, put_quoted, put_wire};
use crate::refusal_graph::open_wire_graph;
use cyc_base::{Name, Sig, Trit};
use cyc_io::{Failed, Sink, TextSink, write_whole};
use explanations::{Explanation, Pin};
use loops::LoopedNetlist;
use std::alloc::{AllocError, Global};

fn gate_opens(value: Trit) -> &'static [u8]
    ensures { result.now ≡ gate_opens_of value }
{
    match value {
        Trit::X => b" [color=red, label=\"",
        _ => b" [label=\"",
    }
}

fn unknown_style(bold: bool, cut: bool) -> &'static [u8]
    ensures { result.now ≡ unknown_style_of bold cut }
{
    match (bold, cut) {
        (false, false) => b" [color=red];\n",
        (false, true) => b" [color=red, style=dashed];\n",
        (true, false) => b" [color=red, style=bold];\n",
        (true, true) => b" [color=red, style=\"bold,dashed\"];\n",
    }
}

fn style(value: Trit, bold: bool, cut: bool) -> &'static [u8]
    ensures { result.now ≡ style_of value bold cut }
{
    match value {
        Trit::X => unknown_style(bold, cut),
        _ => wire_style(cut),
    }
}

// The node of a gate.
fn put_gate<K: Sink>(sink: &mut K, drawing: &Drawing<'_>, gate: u32) -> Result<(), Failed>
    requires { gate < length drawing.now.looped.now.net.gates }
    ensures { IsAppended (gate_node (picture_seen drawing.now) gate) (sink_call K.put K.faults sink.old sink.new) result }
{
    let signal = drawing.looped.net().gate_sig(gate);
    put_node(
        sink,
        signal,
        gate_opens(drawing.values[signal.0 as usize]),
        drawing.looped.net().gate(gate).name.bytes(),
        b"\"];\n",
    )
}

// The nodes of the gates.
fn put_gates<K: Sink>(sink: &mut K, drawing: &Drawing<'_>) -> Result<(), Failed>
    ensures { IsAppended (flat_map (gate_node (picture_seen drawing.now)) drawing.now.gates.items) (sink_call K.put K.faults sink.old sink.new) result }
{
    for gate in &drawing.gates {
        put_gate(sink, drawing, *gate)?;
    }
    Ok(())
}

// How the wire from one gate to another is drawn.
fn style_between(drawing: &Drawing<'_>, from: u32, to: u32) -> &'static [u8]
    requires from { from < length drawing.now.looped.now.net.gates }
    requires to { to < length drawing.now.looped.now.net.gates }
    ensures { result.now ≡ style_of (value_of drawing.now.values.items (gate_sig drawing.now.looped.now.net from))
        (is_marked drawing.now.cycle.items from && is_marked drawing.now.cycle.items to)
        ((loops_of drawing.now.looped.now.net).same to from && (loops_of drawing.now.looped.now.net).cut from) }
{
    let value = drawing.values[drawing.looped.net().gate_sig(from).0 as usize];
    let bold = drawing.cycle[from as usize] && drawing.cycle[to as usize];
    let cut = drawing.looped.are_in_one_loop(to, from) && drawing.looped.is_cut(from);
    style(value, bold, cut)
}

// The wire from one gate to another, where the first is drawn.
#[tactic(auto, using(cyc_io::proofs::TakenLemmas::appended_none))]
fn put_gate_wire<K: Sink>(
    sink: &mut K,
    drawing: &Drawing<'_>,
    gate: u32,
    source: u32,
) -> Result<(), Failed>
    requires gate { gate < length drawing.now.looped.now.net.gates }
    requires source { source < length drawing.now.looped.now.net.gates }
    ensures { IsAppended (gate_wire (picture_seen drawing.now) gate source) (sink_call K.put K.faults sink.old sink.new) result }
{
    if drawing.shows(source) {
        let net = drawing.looped.net();
        put_wire(
            sink,
            net.gate_sig(source),
            net.gate_sig(gate),
            style_between(drawing, source, gate),
        )
    } else {
        Ok(())
    }
}

// The wire that a pin of a gate reads, where a gate drives it that is drawn.
#[tactic(auto, using(cyc_io::proofs::TakenLemmas::appended_none))]
fn put_pin<K: Sink>(sink: &mut K, drawing: &Drawing<'_>, gate: u32, pin: Sig) -> Result<(), Failed>
    requires gate { gate < length drawing.now.looped.now.net.gates }
    requires pin { IsSignal drawing.now.looped.now.net pin }
    ensures { IsAppended (pin_wire (picture_seen drawing.now) gate pin) (sink_call K.put K.faults sink.old sink.new) result }
{
    match drawing.looped.net().driver(pin) {
        Some(source) => put_gate_wire(sink, drawing, gate, source),
        None => Ok(()),
    }
}

fn put_pins<K: Sink>(
    sink: &mut K,
    drawing: &Drawing<'_>,
    gate: u32,
    pins: &[Sig],
) -> Result<(), Failed>
    requires gate { gate < length drawing.now.looped.now.net.gates }
    requires pins { All (IsSignal drawing.now.looped.now.net) pins.now }
    ensures { IsAppended (flat_map (pin_wire (picture_seen drawing.now) gate) pins.now) (sink_call K.put K.faults sink.old sink.new) result }
{
    for pin in pins {
        put_pin(sink, drawing, gate, *pin)?;
    }
    Ok(())
}

fn put_wires_of<K: Sink>(sink: &mut K, drawing: &Drawing<'_>, gate: u32) -> Result<(), Failed>
    requires { gate < length drawing.now.looped.now.net.gates }
    ensures { IsAppended (pin_wires (picture_seen drawing.now) gate) (sink_call K.put K.faults sink.old sink.new) result }
{
    put_pins(
        sink,
        drawing,
        gate,
        drawing.looped.net().gate(gate).pins.items(),
    )
}

// The wires that the gates read.
fn put_wires<K: Sink>(sink: &mut K, drawing: &Drawing<'_>) -> Result<(), Failed>
    ensures { IsAppended (flat_map (pin_wires (picture_seen drawing.now)) drawing.now.gates.items) (sink_call K.put K.faults sink.old sink.new) result }
{
    for gate in &drawing.gates {
        put_wires_of(sink, drawing, *gate)?;
    }
    Ok(())
}

fn value_at(values: &[Trit], column: u32) -> Trit
    ensures { result ≡ slice_index_or values.now column X }
{
    values.get(column as usize).copied().unwrap_or(Trit::X)
}

// The value of a column, where it is needed.
fn needed_value(drawing: &Drawing<'_>, column: u32) -> Trit
    ensures { result ≡ need_at (picture_seen drawing.now) column }
{
    match value_at(drawing.needs, column) {
        Trit::X => value_at(drawing.also, column),
        value => value,
    }
}

fn side_at(sides: &[Pin], signal: u32) -> Pin
    ensures { result ≡ slice_index_or sides.now signal Free }
{
    sides.get(signal as usize).copied().unwrap_or(Pin::Free)
}

// What is known of a value that is needed, or of none.
fn pin_of(value: Trit) -> Pin
    ensures { result ≡ seen false value }
{
    match value {
        Trit::Zero => Pin::Known(false),
        Trit::One => Pin::Known(true),
        Trit::X => Pin::Free,
    }
}

// What holds a gate open on a pin.
fn value_on_pin(drawing: &Drawing<'_>, gate: u32, pin: Sig) -> Pin
    requires { gate < length drawing.now.looped.now.net.gates }
    ensures { result ≡ held_at (picture_seen drawing.now) gate pin }
{
    if drawing.cycle[gate as usize] {
        side_at(drawing.sides, pin.0)
    } else if drawing.way[gate as usize] {
        pin_of(needed_value(drawing, pin.0))
    } else {
        Pin::Free
    }
}

fn is_held(pin: Pin) -> bool
    ensures { result ≡ is_held_by pin }
{
    !matches!(pin, Pin::Free)
}

// Whether a value on one of these pins holds a gate open.
fn is_any_held(drawing: &Drawing<'_>, gate: u32, pins: &[Sig]) -> bool
    requires { gate < length drawing.now.looped.now.net.gates }
    ensures { result ≡ list_any (λ pin. is_held_by (held_at (picture_seen drawing.now) gate pin)) pins.now }
{
    pins.iter()
        .any(|pin| is_held(value_on_pin(drawing, gate, *pin)))
}

// A name and the end of its line.
fn put_named<K: Sink>(sink: &mut K, name: &Name, end: &[u8]) -> Result<(), Failed>
    ensures { IsAppended (quoted name.now ++ end.now) (sink_call K.put K.faults sink.old sink.new) result }
{
    put_quoted(sink, name.bytes())?;
    write_whole(sink, end)
}

// A value as a line of a box.
#[tactic(auto, using(cyc_io::proofs::TakenLemmas::appended_none))]
fn put_value<K: Sink>(sink: &mut K, name: &Name, value: Pin) -> Result<(), Failed>
    ensures { IsAppended (quoted (value_line name.now value)) (sink_call K.put K.faults sink.old sink.new) result }
{
    match value {
        Pin::Known(false) => put_named(sink, name, b"=0\\l"),
        Pin::Known(true) => put_named(sink, name, b"=1\\l"),
        Pin::Open => put_named(sink, name, b"=x\\l"),
        Pin::Free => Ok(()),
    }
}

// The name and the value of a wire on a pin of a gate, where that holds it open.
fn put_line<K: Sink>(sink: &mut K, drawing: &Drawing<'_>, gate: u32, pin: Sig) -> Result<(), Failed>
    requires gate { gate < length drawing.now.looped.now.net.gates }
    requires pin { IsSignal drawing.now.looped.now.net pin }
    ensures { IsAppended (quoted (pin_line (picture_seen drawing.now) gate pin)) (sink_call K.put K.faults sink.old sink.new) result }
{
    put_value(
        sink,
        drawing.looped.net().name_of(pin),
        value_on_pin(drawing, gate, pin),
    )
}

fn put_lines<K: Sink>(
    sink: &mut K,
    drawing: &Drawing<'_>,
    gate: u32,
    pins: &[Sig],
) -> Result<(), Failed>
    requires gate { gate < length drawing.now.looped.now.net.gates }
    requires pins { All (IsSignal drawing.now.looped.now.net) pins.now }
    ensures { IsAppended (flat_map (quoted_line (picture_seen drawing.now) gate) pins.now) (sink_call K.put K.faults sink.old sink.new) result }
{
    for pin in pins {
        put_line(sink, drawing, gate, *pin)?;
    }
    Ok(())
}

// The box of a gate.
fn put_box<K: Sink>(
    sink: &mut K,
    drawing: &Drawing<'_>,
    gate: u32,
    pins: &[Sig],
) -> Result<(), Failed>
    requires gate { gate < length drawing.now.looped.now.net.gates }
    requires pins { All (IsSignal drawing.now.looped.now.net) pins.now }
    ensures { IsAppended (box (gate_sig drawing.now.looped.now.net gate).0 (flat_map (pin_line (picture_seen drawing.now) gate) pins.now)) (sink_call K.put K.faults sink.old sink.new) result }
{
    let signal = drawing.looped.net().gate_sig(gate);
    open_box(sink, signal)?;
    put_lines(sink, drawing, gate, pins)?;
    close_box(sink, signal)
}

// The same, where a value holds the gate open.
#[tactic(auto, using(cyc_io::proofs::TakenLemmas::appended_none))]
fn put_box_of<K: Sink>(sink: &mut K, drawing: &Drawing<'_>, gate: u32) -> Result<(), Failed>
    requires { gate < length drawing.now.looped.now.net.gates }
    ensures { IsAppended (gate_box (picture_seen drawing.now) gate) (sink_call K.put K.faults sink.old sink.new) result }
{
    let pins = drawing.looped.net().gate(gate).pins.items();
    if is_any_held(drawing, gate, pins) {
        put_box(sink, drawing, gate, pins)
    } else {
        Ok(())
    }
}

// The boxes of the gates.
fn put_boxes<K: Sink>(sink: &mut K, drawing: &Drawing<'_>) -> Result<(), Failed>
    ensures { IsAppended (flat_map (gate_box (picture_seen drawing.now)) drawing.now.gates.items) (sink_call K.put K.faults sink.old sink.new) result }
{
    for gate in &drawing.gates {
        put_box_of(sink, drawing, *gate)?;
    }
    Ok(())
}

fn put_picture<K: Sink>(sink: &mut K, drawing: &Drawing<'_>) -> Result<(), Failed>
    ensures { IsAppended (picture (picture_seen drawing.now)) (sink_call K.put K.faults sink.old sink.new) result }
{
    put_boxes(sink, drawing)?;
    put_gates(sink, drawing)?;
    put_wires(sink, drawing)
}

fn put_drawing<K: Sink>(sink: &mut K, wire: Sig, drawing: &Drawing<'_>) -> Result<(), Failed>
    requires { IsSignal drawing.now.looped.now.net wire }
    ensures { IsAppended (labelled_graph (wire_label drawing.now.looped.now.net wire) (picture (picture_seen drawing.now))) (sink_call K.put K.faults sink.old sink.new) result }
{
    open_wire_graph(sink, drawing.looped.net(), wire)?;
    put_picture(sink, drawing)?;
    write_whole(sink, b"}\n")
}

fn tell_drawing(wire: Sig, drawing: &Drawing<'_>, sink: &mut TextSink) -> Result<(), AllocError>
    requires { IsSignal drawing.now.looped.now.net wire }
    ensures { OnOk result (text_bytes sink.new ≡ text_bytes sink.old ++ labelled_graph (wire_label drawing.now.looped.now.net wire) (picture (picture_seen drawing.now))) }
{
    if put_drawing(sink, wire, drawing).is_err() {
        return Err(AllocError);
    }
    Ok(())
}

/// Appends why a wire is undetermined at a vector as a graph that has what is refused as its label: the gates of the loop in
/// which the cycle lies and those of the way, the wires between them, and beside each gate of the cycle and of the way a box
/// with the values on its pins that hold it open. What is unknown at the vector is red, wires between gates of the cycle are
/// bold, and cut wires are dashed.
///
/// The condition is that the wire is a signal, that the explanation speaks of the netlist's gates and columns, and that there
/// is a cycle. It takes time in proportion to the gates and pins.
///
/// # Errors
///
/// `AllocError` for want of memory alone.
pub fn tell_explanation_graph(
    alloc: Global,
    looped: &LoopedNetlist<'_>,
    vector: &[bool],
    wire: Sig,
    why: &Explanation,
    sink: &mut TextSink,
) -> Result<(), AllocError>
    requires valid { IsNetlist looped.now.net }
    requires width { length vector.now ≡ length looped.now.net.inputs + length looped.now.net.latches }
    requires wire { IsSignal looped.now.net wire }
    requires why { IsExplanationOf looped.now.net why.now }
    requires some { 0 < length why.now.cycle }
    ensures { OnOk result (text_bytes sink.new ≡ text_bytes sink.old ++ explanation_graph looped.now.net wire (fix looped.now.net (bits vector.now)) why.now) }
{
    let drawing = Drawing::of(alloc, looped, vector, why)?;
    tell_drawing(wire, &drawing, sink)
}
