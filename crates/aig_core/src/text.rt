ghost use Rattle.cyc_io.specs.Taken.{IsAppended, sink_call};
ghost use Rattle.aig_core.specs.Answers.{FitsNetlist};
ghost use Rattle.aig_core.specs.Text.{aiger_text, binary_text};

use crate::binary::{put_and_groups, put_loads};
use crate::building::Built;
use crate::graph_lines::{put_ands, put_counts, put_inputs, put_latches, put_outputs};
use crate::symbols::put_names;
use cyc_io::{Failed, Sink};
use netlist::Netlist;

/// Appends the graph of a netlist in the ASCII form of AIGER (version 1.9; Biere, Heljanko and Wieringa 2011), with the
/// names of inputs, latches and outputs. The clock isn't written. It takes no memory. `Failed` comes only where the sink
/// failed; the sink has then taken a prefix of the text.
pub fn write_ascii<K: Sink>(net: &Netlist, built: &Built, sink: &mut K) -> Result<(), Failed>
    requires { FitsNetlist net.now built.now }
    ensures { IsAppended (aiger_text net.now built.now) (sink_call K.put K.faults sink.old sink.new) result }
{
    put_counts(sink, b"aag ", net, built)?;
    put_inputs(sink, &built.aig)?;
    put_latches(sink, net, built)?;
    put_outputs(sink, built.outputs.items())?;
    put_ands(sink, &built.aig)?;
    put_names(sink, net)
}

/// The same in the binary form.
pub fn write_binary<K: Sink>(net: &Netlist, built: &Built, sink: &mut K) -> Result<(), Failed>
    requires { FitsNetlist net.now built.now }
    ensures { IsAppended (binary_text net.now built.now) (sink_call K.put K.faults sink.old sink.new) result }
{
    put_counts(sink, b"aig ", net, built)?;
    put_loads(sink, net, built)?;
    put_outputs(sink, built.outputs.items())?;
    put_and_groups(sink, &built.aig)?;
    put_names(sink, net)
}
