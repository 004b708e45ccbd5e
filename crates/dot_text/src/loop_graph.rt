//! The loops of a netlist.

ghost use Rattle.std.specs.Prelude.{◌≡◌, ◌<◌, All, length};
ghost use Rattle.std.specs.List.{flat_map};
ghost use Rattle.cyc_io.specs.Taken.{IsAppended, sink_call};
ghost use Rattle.loops.specs.Found.{loops_of};
ghost use Rattle.loops.specs.Left.{loop_seen};
ghost use Rattle.loops.specs.Numbered.{IsLoopOf};
ghost use Rattle.netlist.specs.Netlists.{IsSignal};
ghost use Rattle.dot_text.specs.LoopGraphs.{cluster_body, cluster_opens, clusters, gate_node, labelled_cluster, loop_graph, loop_wire, loop_wires, loops_graph, wire_style as wire_style_of};

use crate::node::{put_node, put_quoted, put_wire};
use cyc_base::Sig;
use cyc_io::{Failed, Sink, put_numbered, write_whole};
use loops::{ListedLoop, LoopedNetlist, source_in_loop};
use netlist::Netlist;

pub(crate) fn put_gate<K: Sink>(sink: &mut K, net: &Netlist, gate: u32) -> Result<(), Failed>
    requires { gate < length net.now.gates }
    ensures { IsAppended (gate_node net.now gate) (sink_call K.put K.faults sink.old sink.new) result }
{
    put_node(
        sink,
        net.gate_sig(gate),
        b" [label=\"",
        net.gate(gate).name.bytes(),
        b"\"];\n",
    )
}

fn put_gates<K: Sink>(sink: &mut K, looped: &LoopedNetlist<'_>, gates: &[u32]) -> Result<(), Failed>
    requires { All (λ gate. gate < length looped.now.net.gates) gates.now }
    ensures { IsAppended (flat_map (gate_node looped.now.net) gates.now) (sink_call K.put K.faults sink.old sink.new) result }
{
    for gate in gates {
        put_gate(sink, looped.net(), *gate)?;
    }
    Ok(())
}

// The end of the line of a wire in a loop: those of cut wires are dashed.
pub(crate) fn wire_style(cut: bool) -> &'static [u8]
    ensures { result.now ≡ wire_style_of cut }
{
    if cut { b" [style=dashed];\n" } else { b";\n" }
}

// The wire that a pin of a gate reads, where it is one of its loop.
fn put_pin<K: Sink>(
    sink: &mut K,
    looped: &LoopedNetlist<'_>,
    gate: u32,
    pin: Sig,
) -> Result<(), Failed>
    requires gate { gate < length looped.now.net.gates }
    requires pin { IsSignal looped.now.net pin }
    ensures { IsAppended (loop_wire looped.now.net (loops_of looped.now.net) gate pin) (sink_call K.put K.faults sink.old sink.new) result }
{
    match source_in_loop(looped, gate, pin) {
        Some(source) => put_wire(
            sink,
            pin,
            looped.net().gate_sig(gate),
            wire_style(looped.is_cut(source)),
        ),
        None => Ok(()),
    }
}

// The wires that these pins of a gate read, where they are of its loop.
fn put_reads<K: Sink>(
    sink: &mut K,
    looped: &LoopedNetlist<'_>,
    gate: u32,
    pins: &[Sig],
) -> Result<(), Failed>
    requires gate { gate < length looped.now.net.gates }
    requires pins { All (IsSignal looped.now.net) pins.now }
    ensures { IsAppended (flat_map (loop_wire looped.now.net (loops_of looped.now.net) gate) pins.now) (sink_call K.put K.faults sink.old sink.new) result }
{
    for pin in pins {
        put_pin(sink, looped, gate, *pin)?;
    }
    Ok(())
}

fn put_pins<K: Sink>(sink: &mut K, looped: &LoopedNetlist<'_>, gate: u32) -> Result<(), Failed>
    requires { gate < length looped.now.net.gates }
    ensures { IsAppended (loop_wires looped.now.net (loops_of looped.now.net) gate) (sink_call K.put K.faults sink.old sink.new) result }
{
    put_reads(sink, looped, gate, looped.net().gate(gate).pins.items())
}

fn put_wires<K: Sink>(sink: &mut K, looped: &LoopedNetlist<'_>, gates: &[u32]) -> Result<(), Failed>
    requires { All (λ gate. gate < length looped.now.net.gates) gates.now }
    ensures { IsAppended (flat_map (loop_wires looped.now.net (loops_of looped.now.net)) gates.now) (sink_call K.put K.faults sink.old sink.new) result }
{
    for gate in gates {
        put_pins(sink, looped, *gate)?;
    }
    Ok(())
}

// Gates and the wires between them, at the end of a cluster.
fn put_body<K: Sink>(sink: &mut K, looped: &LoopedNetlist<'_>, gates: &[u32]) -> Result<(), Failed>
    requires { All (λ gate. gate < length looped.now.net.gates) gates.now }
    ensures { IsAppended (cluster_body looped.now.net (loops_of looped.now.net) gates.now) (sink_call K.put K.faults sink.old sink.new) result }
{
    put_gates(sink, looped, gates)?;
    put_wires(sink, looped, gates)?;
    write_whole(sink, b"}\n")
}

// What stands before the body of a cluster with this text as its label.
pub(crate) fn open_cluster<K: Sink>(sink: &mut K, number: u32, label: &[u8]) -> Result<(), Failed>
    ensures { IsAppended (cluster_opens number label.now) (sink_call K.put K.faults sink.old sink.new) result }
{
    put_numbered(sink, b"subgraph cluster_", number)?;
    write_whole(sink, b" {\n  label=\"")?;
    put_quoted(sink, label)?;
    write_whole(sink, b"\";\n")
}

/// Appends these gates and the wires between them as the cluster of this number, with this text as its label, cut wires
/// dashed. It takes no memory.
///
/// The condition is that the gates are in range.
pub fn put_labelled_cluster<K: Sink>(
    looped: &LoopedNetlist<'_>,
    number: u32,
    label: &[u8],
    gates: &[u32],
    sink: &mut K,
) -> Result<(), Failed>
    requires { All (λ gate. gate < length looped.now.net.gates) gates.now }
    ensures { IsAppended (labelled_cluster looped.now.net (loops_of looped.now.net) number label.now gates.now) (sink_call K.put K.faults sink.old sink.new) result }
{
    open_cluster(sink, number, label)?;
    put_body(sink, looped, gates)
}

// A loop as a cluster.
fn put_cluster<K: Sink>(
    sink: &mut K,
    looped: &LoopedNetlist<'_>,
    listed: ListedLoop<'_>,
) -> Result<(), Failed>
    requires { IsLoopOf looped.now.net (loop_seen listed) }
    ensures { IsAppended (loop_graph looped.now.net (loops_of looped.now.net) listed.entry.number listed.entry.first) (sink_call K.put K.faults sink.old sink.new) result }
{
    put_numbered(sink, b"subgraph cluster_", listed.number)?;
    put_numbered(sink, b" {\n  label=\"loop ", listed.number)?;
    write_whole(sink, b"\";\n")?;
    put_body(sink, looped, listed.gates)
}

// All loops, in the order of their first gates.
fn put_clusters<K: Sink>(sink: &mut K, looped: &LoopedNetlist<'_>) -> Result<(), Failed>
    ensures { IsAppended (clusters looped.now.net (loops_of looped.now.net)) (sink_call K.put K.faults sink.old sink.new) result }
{
    for listed in looped.in_order() {
        put_cluster(sink, looped, listed)?;
    }
    Ok(())
}

/// Appends the loops of a netlist as a graph, each with its gates and the wires between them, cut wires dashed. It takes no
/// memory.
pub fn put_loops_graph<K: Sink>(looped: &LoopedNetlist<'_>, sink: &mut K) -> Result<(), Failed>
    ensures { IsAppended (loops_graph looped.now.net) (sink_call K.put K.faults sink.old sink.new) result }
{
    write_whole(sink, b"digraph {\n")?;
    put_clusters(sink, looped)?;
    write_whole(sink, b"}\n")
}
