// The text of a netlist's loops and their cut wires.
ghost use Rattle.std.specs.Prelude.{◌<◌, All, length, filter, codes, if◌then◌else◌, []};
ghost use Rattle.cyc_io.specs.Taken.{IsAppended, sink_call};
ghost use Rattle.loops.specs.Found.{loops_of};
ghost use Rattle.loops.specs.Left.{loop_seen};
ghost use Rattle.loops.specs.Numbered.{IsLoopOf};
ghost use Rattle.report.specs.LoopTexts.{gate_name, names_text, loop_line, loop_lines, each_loop, loops_text};

use cyc_io::{Failed, Sink, put_numbered, put_two, write_whole};
use loops::{ListedLoop, LoopedNetlist};
use netlist::Netlist;

fn put_gate_name<K: Sink>(sink: &mut K, net: &Netlist, gate: u32) -> Result<(), Failed>
    requires { gate < length net.now.gates }
    ensures { IsAppended (gate_name net.now gate) (sink_call K.put K.faults sink.old sink.new) result }
{
    put_two(sink, b" ", net.gate(gate).name.bytes())
}

/// Appends the names of gates, each behind a blank. It takes no memory.
pub fn put_gate_names<K: Sink>(sink: &mut K, net: &Netlist, gates: &[u32]) -> Result<(), Failed>
    requires { All (λ gate. gate < length net.now.gates) gates.now }
    ensures { IsAppended (names_text net.now gates.now) (sink_call K.put K.faults sink.old sink.new) result }
{
    for gate in gates {
        put_gate_name(sink, net, *gate)?;
    }
    Ok(())
}

// The name of a gate, where it is a cut wire.
#[tactic(auto, using(cyc_io::proofs::TakenLemmas::appended_none))]
fn put_cut_name<K: Sink>(sink: &mut K, looped: &LoopedNetlist<'_>, gate: u32) -> Result<(), Failed>
    requires { gate < length looped.now.net.gates }
    ensures { IsAppended (if (loops_of looped.now.net).cut gate then gate_name looped.now.net gate else []) (sink_call K.put K.faults sink.old sink.new) result }
{
    if looped.is_cut(gate) {
        put_gate_name(sink, looped.net(), gate)
    } else {
        Ok(())
    }
}

// The names of those of these gates that are cut wires.
fn put_cut_names<K: Sink>(
    sink: &mut K,
    looped: &LoopedNetlist<'_>,
    gates: &[u32],
) -> Result<(), Failed>
    requires { All (λ gate. gate < length looped.now.net.gates) gates.now }
    ensures { IsAppended (names_text looped.now.net (filter (loops_of looped.now.net).cut gates.now)) (sink_call K.put K.faults sink.old sink.new) result }
{
    for gate in gates {
        put_cut_name(sink, looped, *gate)?;
    }
    Ok(())
}

fn put_gates_line<K: Sink>(
    sink: &mut K,
    net: &Netlist,
    number: u32,
    gates: &[u32],
) -> Result<(), Failed>
    requires { All (λ gate. gate < length net.now.gates) gates.now }
    ensures { IsAppended (loop_line net.now number (codes " gates") gates.now) (sink_call K.put K.faults sink.old sink.new) result }
{
    put_numbered(sink, b"loop ", number)?;
    write_whole(sink, b" gates")?;
    put_gate_names(sink, net, gates)?;
    write_whole(sink, b"\n")
}

fn put_cut_line<K: Sink>(
    sink: &mut K,
    looped: &LoopedNetlist<'_>,
    number: u32,
    gates: &[u32],
) -> Result<(), Failed>
    requires { All (λ gate. gate < length looped.now.net.gates) gates.now }
    ensures { IsAppended (loop_line looped.now.net number (codes " cut") (filter (loops_of looped.now.net).cut gates.now)) (sink_call K.put K.faults sink.old sink.new) result }
{
    put_numbered(sink, b"loop ", number)?;
    write_whole(sink, b" cut")?;
    put_cut_names(sink, looped, gates)?;
    write_whole(sink, b"\n")
}

/// Appends the two lines of a loop: its gates, and those of them that are cut wires. It takes no memory.
pub fn put_loop<K: Sink>(
    sink: &mut K,
    looped: &LoopedNetlist<'_>,
    listed: ListedLoop<'_>,
) -> Result<(), Failed>
    requires { IsLoopOf looped.now.net (loop_seen listed) }
    ensures { IsAppended (loop_lines looped.now.net listed.entry.number listed.entry.first) (sink_call K.put K.faults sink.old sink.new) result }
{
    put_gates_line(sink, looped.net(), listed.number, listed.gates)?;
    put_cut_line(sink, looped, listed.number, listed.gates)
}

// The lines of all loops, in the order of their first gates.
fn put_each_loop<K: Sink>(sink: &mut K, looped: &LoopedNetlist<'_>) -> Result<(), Failed>
    ensures { IsAppended (each_loop (loop_lines looped.now.net) looped.now.net) (sink_call K.put K.faults sink.old sink.new) result }
{
    for listed in looped.in_order() {
        put_loop(sink, looped, listed)?;
    }
    Ok(())
}

/// Appends the number of a netlist's loops and, for each loop by its first gate, its gates and its cut wires. It takes
/// no memory.
pub fn put_loops<K: Sink>(looped: &LoopedNetlist<'_>, sink: &mut K) -> Result<(), Failed>
    ensures { IsAppended (loops_text looped.now.net) (sink_call K.put K.faults sink.old sink.new) result }
{
    put_numbered(sink, b"loops=", looped.count())?;
    write_whole(sink, b"\n")?;
    put_each_loop(sink, looped)
}
