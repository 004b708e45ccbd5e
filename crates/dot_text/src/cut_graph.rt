//! Loops of many gates, by their cut wires.

ghost use Rattle.std.specs.Prelude.{◌≡◌, ◌<◌, All, length};
ghost use Rattle.std.specs.List.{flat_map};
ghost use Rattle.cyc_io.specs.Taken.{IsAppended, sink_call};
ghost use Rattle.loops.specs.Found.{loops_of};
ghost use Rattle.dot_text.specs.LoopGraphs.{between, between_node, cut_body, cut_cluster, cut_node, cut_wires, wires_at};

use crate::loop_graph::{open_cluster, put_gate};
use cyc_base::Sig;
use cyc_io::{Failed, Sink, put_number_between, put_numbered, write_whole};
use loops::LoopedNetlist;

// A gate, where it is a cut wire.
#[tactic(auto, using(cyc_io::proofs::TakenLemmas::appended_none))]
fn put_cut<K: Sink>(sink: &mut K, looped: &LoopedNetlist<'_>, gate: u32) -> Result<(), Failed>
    requires { gate < length looped.now.net.gates }
    ensures { IsAppended (cut_node looped.now.net (loops_of looped.now.net) gate) (sink_call K.put K.faults sink.old sink.new) result }
{
    if looped.is_cut(gate) {
        put_gate(sink, looped.net(), gate)
    } else {
        Ok(())
    }
}

// Those of these gates that are cut wires.
fn put_cuts<K: Sink>(sink: &mut K, looped: &LoopedNetlist<'_>, gates: &[u32]) -> Result<(), Failed>
    requires { All (λ gate. gate < length looped.now.net.gates) gates.now }
    ensures { IsAppended (flat_map (cut_node looped.now.net (loops_of looped.now.net)) gates.now) (sink_call K.put K.faults sink.old sink.new) result }
{
    for gate in gates {
        put_cut(sink, looped, *gate)?;
    }
    Ok(())
}

// How many of these gates are no cut wires.
fn count_between(looped: &LoopedNetlist<'_>, gates: &[u32]) -> usize
    requires { All (λ gate. gate < length looped.now.net.gates) gates.now }
    ensures { result ≡ between (loops_of looped.now.net) gates.now }
{
    gates.iter().filter(|gate| !looped.is_cut(**gate)).count()
}

// The node of the gates between the cut wires.
fn put_between<K: Sink>(sink: &mut K, number: u32, gates: usize) -> Result<(), Failed>
    ensures { IsAppended (between_node number gates) (sink_call K.put K.faults sink.old sink.new) result }
{
    put_numbered(sink, b"  b", number)?;
    put_number_between(sink, b" [shape=none, label=\"", gates, b" gates\"];\n")
}

// The wires from a cut wire to the gates between, and back.
fn put_cut_wires<K: Sink>(sink: &mut K, number: u32, signal: Sig) -> Result<(), Failed>
    ensures { IsAppended (cut_wires number signal.0) (sink_call K.put K.faults sink.old sink.new) result }
{
    put_numbered(sink, b"  s", signal.0)?;
    put_numbered(sink, b" -> b", number)?;
    put_numbered(sink, b" [style=dashed];\n  b", number)?;
    put_numbered(sink, b" -> s", signal.0)?;
    write_whole(sink, b";\n")
}

// The same of a gate, where it is a cut wire.
#[tactic(auto, using(cyc_io::proofs::TakenLemmas::appended_none))]
fn put_wires_at<K: Sink>(
    sink: &mut K,
    looped: &LoopedNetlist<'_>,
    number: u32,
    gate: u32,
) -> Result<(), Failed>
    requires { gate < length looped.now.net.gates }
    ensures { IsAppended (wires_at looped.now.net (loops_of looped.now.net) number gate) (sink_call K.put K.faults sink.old sink.new) result }
{
    if looped.is_cut(gate) {
        put_cut_wires(sink, number, looped.net().gate_sig(gate))
    } else {
        Ok(())
    }
}

// The wires of those of these gates that are cut wires.
fn put_wires<K: Sink>(
    sink: &mut K,
    looped: &LoopedNetlist<'_>,
    number: u32,
    gates: &[u32],
) -> Result<(), Failed>
    requires { All (λ gate. gate < length looped.now.net.gates) gates.now }
    ensures { IsAppended (flat_map (wires_at looped.now.net (loops_of looped.now.net) number) gates.now) (sink_call K.put K.faults sink.old sink.new) result }
{
    for gate in gates {
        put_wires_at(sink, looped, number, *gate)?;
    }
    Ok(())
}

fn put_body<K: Sink>(
    sink: &mut K,
    looped: &LoopedNetlist<'_>,
    number: u32,
    gates: &[u32],
) -> Result<(), Failed>
    requires { All (λ gate. gate < length looped.now.net.gates) gates.now }
    ensures { IsAppended (cut_body looped.now.net (loops_of looped.now.net) number gates.now) (sink_call K.put K.faults sink.old sink.new) result }
{
    put_cuts(sink, looped, gates)?;
    put_between(sink, number, count_between(looped, gates))?;
    put_wires(sink, looped, number, gates)?;
    write_whole(sink, b"}\n")
}

/// Appends those of these gates that are cut wires as the cluster of this number, with this text as its label, and between
/// them a node with the number of the others. It takes no memory.
///
/// The condition is that the gates are in range.
pub fn put_cut_cluster<K: Sink>(
    looped: &LoopedNetlist<'_>,
    number: u32,
    label: &[u8],
    gates: &[u32],
    sink: &mut K,
) -> Result<(), Failed>
    requires { All (λ gate. gate < length looped.now.net.gates) gates.now }
    ensures { IsAppended (cut_cluster looped.now.net (loops_of looped.now.net) number label.now gates.now) (sink_call K.put K.faults sink.old sink.new) result }
{
    open_cluster(sink, number, label)?;
    put_body(sink, looped, number, gates)
}
