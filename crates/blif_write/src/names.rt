//! The lines that name the model, its inputs, its outputs and its clock.

ghost use Rattle.std.specs.Prelude.{◌≡◌, ◌<◌, ◌∷◌, [], All, map, codes, Some};
ghost use Rattle.std.specs.List.{flat_map, list_any};
ghost use Rattle.std.specs.Str.{bytes_eq};
ghost use Rattle.cyc_io.specs.Taken.{IsAppended, sink_call};
ghost use Rattle.netlist.specs.Netlists.{IsSignal, signal_name};
ghost use Rattle.blif_write.specs.Written.{line_text, text_of, clock_lines, head_lines};
ghost use Rattle.blif_write.specs.Putting.{behind, names_behind, last_word};

use crate::put::{put_end, put_last_word, put_word};
use cyc_base::Sig;
use cyc_io::{Failed, Sink, write_whole};
use netlist::{Clock, Netlist};

/// The name of a signal, as its bytes.
#[tactic(auto, using(crate::proofs::NameLemmas::named))]
fn signal_name(net: &Netlist, sig: Sig) -> &[u8]
    requires { IsSignal net.now sig }
    ensures { result.now ≡ signal_name net.now sig }
{
    net.name_of(sig).bytes()
}

/// Appends the name of a signal behind a blank.
pub(crate) fn put_name<K: Sink>(sink: &mut K, net: &Netlist, sig: Sig) -> Result<(), Failed>
    requires { IsSignal net.now sig }
    ensures { IsAppended (behind (signal_name net.now sig)) (sink_call K.put K.faults sink.old sink.new) result }
{
    put_word(sink, signal_name(net, sig))
}

/// Appends the names of these signals, each behind a blank.
pub(crate) fn put_names<K: Sink>(sink: &mut K, net: &Netlist, sigs: &[Sig]) -> Result<(), Failed>
    requires { All (IsSignal net.now) sigs.now }
    ensures { IsAppended (names_behind net.now sigs.now) (sink_call K.put K.faults sink.old sink.new) result }
{
    for sig in sigs {
        put_name(sink, net, *sig)?;
    }
    Ok(())
}

/// Appends the names of the inputs, each behind a blank.
fn put_input_names<K: Sink>(sink: &mut K, net: &Netlist) -> Result<(), Failed>
    ensures { IsAppended (flat_map behind net.now.inputs) (sink_call K.put K.faults sink.old sink.new) result }
{
    for i in 0..net.inputs() {
        put_name(sink, net, Sig(i))?;
    }
    Ok(())
}

/// The last word of the line of the inputs.
fn last_input(net: &Netlist) -> &[u8]
    ensures { result.now ≡ last_word (codes ".inputs") net.now.inputs }
{
    match net.inputs() {
        0 => b".inputs",
        inputs => signal_name(net, Sig(inputs - 1)),
    }
}

fn put_inputs<K: Sink>(sink: &mut K, net: &Netlist) -> Result<(), Failed>
    ensures { IsAppended (line_text (codes ".inputs" ∷ net.now.inputs)) (sink_call K.put K.faults sink.old sink.new) result }
{
    write_whole(sink, b".inputs")?;
    put_input_names(sink, net)?;
    put_end(sink, last_input(net))
}

/// The last word of the line of the outputs.
fn last_output(net: &Netlist) -> &[u8]
    ensures { result.now ≡ last_word (codes ".outputs") (map (signal_name net.now) net.now.outputs) }
{
    match net.outputs() {
        [] => b".outputs",
        [.., last] => signal_name(net, *last),
    }
}

fn put_outputs<K: Sink>(sink: &mut K, net: &Netlist) -> Result<(), Failed>
    ensures { IsAppended (line_text (codes ".outputs" ∷ map (signal_name net.now) net.now.outputs)) (sink_call K.put K.faults sink.old sink.new) result }
{
    write_whole(sink, b".outputs")?;
    put_names(sink, net, net.outputs())?;
    put_end(sink, last_output(net))
}

fn is_input(net: &Netlist, clock: &Clock) -> bool
    requires { net.now.clock ≡ Some clock.now }
    ensures { result ≡ list_any (bytes_eq clock.now.name) net.now.inputs }
{
    match net.find(&clock.name) {
        Some(_) => true,
        None => false,
    }
}

fn put_clock_line<K: Sink>(sink: &mut K, clock: &Clock) -> Result<(), Failed>
    ensures { IsAppended (line_text (codes ".clock" ∷ clock.now.name ∷ [])) (sink_call K.put K.faults sink.old sink.new) result }
{
    write_whole(sink, b".clock")?;
    put_last_word(sink, clock.name.bytes())
}

#[tactic(auto, using(cyc_io::proofs::TakenLemmas::appended_none))]
fn put_clock<K: Sink>(sink: &mut K, net: &Netlist) -> Result<(), Failed>
    ensures { IsAppended (text_of (clock_lines net.now net.now.clock)) (sink_call K.put K.faults sink.old sink.new) result }
{
    match net.clock() {
        Some(clock) if !is_input(net, clock) => put_clock_line(sink, clock),
        _ => Ok(()),
    }
}

fn put_model<K: Sink>(sink: &mut K, net: &Netlist) -> Result<(), Failed>
    ensures { IsAppended (line_text (codes ".model" ∷ net.now.name ∷ [])) (sink_call K.put K.faults sink.old sink.new) result }
{
    write_whole(sink, b".model")?;
    put_last_word(sink, net.name().bytes())
}

/// Appends the lines of the model's name, its inputs, its outputs and its clock.
pub(crate) fn put_head<K: Sink>(sink: &mut K, net: &Netlist) -> Result<(), Failed>
    ensures { IsAppended (text_of (head_lines net.now)) (sink_call K.put K.faults sink.old sink.new) result }
{
    put_model(sink, net)?;
    put_inputs(sink, net)?;
    put_outputs(sink, net)?;
    put_clock(sink, net)
}
