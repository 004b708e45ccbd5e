//! Refusals.

ghost use Rattle.std.specs.Prelude.{◌++◌, codes};
ghost use Rattle.cyc_io.specs.Taken.{IsAppended, sink_call};
ghost use Rattle.netlist.specs.Netlists.{IsSignal};
ghost use Rattle.refusals.specs.Refusals.{IsRefusalOf};
ghost use Rattle.dot_text.specs.Dot.{graph_head, quoted};
ghost use Rattle.dot_text.specs.RefusalGraphs.{refusal_graph, refusal_label, wire_label};

use crate::node::{open_graph, put_quoted};
use cyc_base::{Name, Sig};
use cyc_io::{Failed, Sink, write_whole};
use netlist::Netlist;
use refusals::Refusal;

// What stands before the body of a graph, the label of which ends in a name.
fn open_named<K: Sink>(sink: &mut K, name: &Name) -> Result<(), Failed>
    ensures { IsAppended (graph_head (codes "refused undetermined wire=" ++ (name.now ++ codes "\n"))) (sink_call K.put K.faults sink.old sink.new) result }
{
    write_whole(sink, b"digraph {\n  label=\"refused undetermined wire=")?;
    put_quoted(sink, name.bytes())?;
    write_whole(sink, b"\\l\";\n")
}

// What stands before the body of a graph of why a wire is undetermined.
pub(crate) fn open_wire_graph<K: Sink>(sink: &mut K, net: &Netlist, wire: Sig) -> Result<(), Failed>
    requires { IsSignal net.now wire }
    ensures { IsAppended (graph_head (wire_label net.now wire)) (sink_call K.put K.faults sink.old sink.new) result }
{
    open_named(sink, net.name_of(wire))
}

// What stands before the body of a graph of a refusal.
fn open_refusal_graph<K: Sink>(sink: &mut K, net: &Netlist, refusal: &Refusal) -> Result<(), Failed>
    requires { IsRefusalOf net.now refusal.now }
    ensures { IsAppended (graph_head (refusal_label net.now refusal.now)) (sink_call K.put K.faults sink.old sink.new) result }
{
    match refusal {
        Refusal::Initial { .. } => open_graph(sink, b"refused initial\n"),
        Refusal::EmptyCare => open_graph(sink, b"refused empty care\n"),
        Refusal::Undetermined { wire, .. } => open_wire_graph(sink, net, *wire),
        Refusal::Leaves { .. } => open_graph(sink, b"refused leaves\n"),
    }
}

/// Appends a graph that has the first words of a refusal as its label, and nothing else. It takes no memory.
pub fn put_refusal_graph<K: Sink>(
    net: &Netlist,
    refusal: &Refusal,
    sink: &mut K,
) -> Result<(), Failed>
    requires { IsRefusalOf net.now refusal.now }
    ensures { IsAppended (refusal_graph net.now refusal.now) (sink_call K.put K.faults sink.old sink.new) result }
{
    open_refusal_graph(sink, net, refusal)?;
    write_whole(sink, b"}\n")
}
