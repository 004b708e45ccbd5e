//! The lines of the graph.

ghost use Rattle.std.specs.Prelude.{◌+◌, ◌∷◌};
ghost use Rattle.std.specs.List.{flat_map, range_with_len};
ghost use Rattle.cyc_io.specs.Taken.{IsAppended, sink_call};
ghost use Rattle.aig_core.specs.Answers.{FitsNetlist};
ghost use Rattle.aig_core.specs.Text.{numbers_line, head_text, input_line, init_words, latches_text, output_line, ands_text};

use crate::aig::Aig;
use crate::building::Built;
use crate::edge::Edge;
use crate::lines::put_line;
use cyc_io::{Failed, Sink, write_whole};
use netlist::{Init, Netlist};

/// Appends the line of the form's word, of the greatest variable and of how many there are of each kind.
pub(crate) fn put_counts<K: Sink>(
    sink: &mut K,
    word: &[u8],
    net: &Netlist,
    built: &Built,
) -> Result<(), Failed>
    requires { FitsNetlist net.now built.now }
    ensures { IsAppended (head_text word.now built.now) (sink_call K.put K.faults sink.old sink.new) result }
{
    let inputs = built.aig.inputs();
    let latches = built.aig.latches();
    let ands = built.aig.count();
    let outputs = net.outputs().len() as u32;
    write_whole(sink, word)?;
    put_line(
        sink,
        inputs + latches + ands,
        &[inputs, latches, outputs, ands],
    )
}

pub(crate) fn put_inputs<K: Sink>(sink: &mut K, aig: &Aig) -> Result<(), Failed>
    ensures { IsAppended (flat_map input_line (range_with_len 0 aig.now.inputs)) (sink_call K.put K.faults sink.old sink.new) result }
{
    for input in 0..aig.inputs() {
        put_line(sink, 2 * (1 + input), &[])?;
    }
    Ok(())
}

/// Appends the line of a latch that has this edge and loads `next`.
fn put_latch<K: Sink>(sink: &mut K, own: u32, next: Edge, init: Init) -> Result<(), Failed>
    ensures { IsAppended (numbers_line (own ∷ next.0 ∷ init_words own init)) (sink_call K.put K.faults sink.old sink.new) result }
{
    match init {
        Init::Zero => put_line(sink, own, &[next.0]),
        Init::One => put_line(sink, own, &[next.0, 1]),
        Init::Either => put_line(sink, own, &[next.0, own]),
    }
}

pub(crate) fn put_latches<K: Sink>(sink: &mut K, net: &Netlist, built: &Built) -> Result<(), Failed>
    requires { FitsNetlist net.now built.now }
    ensures { IsAppended (latches_text net.now built.now) (sink_call K.put K.faults sink.old sink.new) result }
{
    let inputs = built.aig.inputs();
    for place in 0..net.latches() {
        let next = built.nexts.items()[place as usize];
        put_latch(sink, 2 * (1 + inputs + place), next, net.latch(place).init)?;
    }
    Ok(())
}

pub(crate) fn put_outputs<K: Sink>(sink: &mut K, outputs: &[Edge]) -> Result<(), Failed>
    ensures { IsAppended (flat_map output_line outputs.now) (sink_call K.put K.faults sink.old sink.new) result }
{
    for output in outputs {
        put_line(sink, output.0, &[])?;
    }
    Ok(())
}

pub(crate) fn put_ands<K: Sink>(sink: &mut K, aig: &Aig) -> Result<(), Failed>
    ensures { IsAppended (ands_text aig.now) (sink_call K.put K.faults sink.old sink.new) result }
{
    let first = 1 + aig.inputs() + aig.latches();
    for place in 0..aig.count() {
        let (greater, smaller) = aig.pair(place);
        put_line(sink, 2 * (first + place), &[greater.0, smaller.0])?;
    }
    Ok(())
}
