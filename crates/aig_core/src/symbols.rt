//! The names of inputs, latches and outputs.

ghost use Rattle.std.specs.Prelude.{map, codes};
ghost use Rattle.netlist.specs.Netlists.{signal_name};
ghost use Rattle.cyc_io.specs.Taken.{IsAppended, sink_call};
ghost use Rattle.aig_core.specs.Text.{symbol_line, symbols_text, names_text};

use cyc_base::Sig;
use cyc_io::{Failed, Sink, put_numbered, put_three};
use netlist::Netlist;

fn put_symbol<K: Sink>(sink: &mut K, kind: &[u8], place: u32, name: &[u8]) -> Result<(), Failed>
    ensures { IsAppended (symbol_line kind.now place name.now) (sink_call K.put K.faults sink.old sink.new) result }
{
    put_numbered(sink, kind, place)?;
    put_three(sink, b" ", name, b"\n")
}

fn put_input_names<K: Sink>(sink: &mut K, net: &Netlist) -> Result<(), Failed>
    ensures { IsAppended (symbols_text (codes "i") net.now.inputs) (sink_call K.put K.faults sink.old sink.new) result }
{
    for place in 0..net.inputs() {
        put_symbol(sink, b"i", place, net.name_of(Sig(place)).bytes())?;
    }
    Ok(())
}

fn put_latch_names<K: Sink>(sink: &mut K, net: &Netlist) -> Result<(), Failed>
    ensures { IsAppended (symbols_text (codes "l") (map (λ latch. latch.name) net.now.latches)) (sink_call K.put K.faults sink.old sink.new) result }
{
    for place in 0..net.latches() {
        put_symbol(sink, b"l", place, net.latch(place).name.bytes())?;
    }
    Ok(())
}

fn put_output_names<K: Sink>(sink: &mut K, net: &Netlist) -> Result<(), Failed>
    ensures { IsAppended (symbols_text (codes "o") (map (signal_name net.now) net.now.outputs)) (sink_call K.put K.faults sink.old sink.new) result }
{
    let outputs = net.outputs();
    let count = outputs.len() as u32;
    for place in 0..count {
        let output = outputs[place as usize];
        put_symbol(sink, b"o", place, net.name_of(output).bytes())?;
    }
    Ok(())
}

/// Appends the names of the inputs, the latches and the outputs.
pub(crate) fn put_names<K: Sink>(sink: &mut K, net: &Netlist) -> Result<(), Failed>
    ensures { IsAppended (names_text net.now) (sink_call K.put K.faults sink.old sink.new) result }
{
    put_input_names(sink, net)?;
    put_latch_names(sink, net)?;
    put_output_names(sink, net)
}
