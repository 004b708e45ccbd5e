//! The lines of the latches.

ghost use Rattle.std.specs.Prelude.{◌≡◌, ◌<◌, ◌++◌, []};
ghost use Rattle.std.specs.List.{flat_map};
ghost use Rattle.cyc_io.specs.Taken.{IsAppended, sink_call};
ghost use Rattle.netlist.specs.Netlists.{IsSignal};
ghost use Rattle.blif_write.specs.Written.{line_text, edge_word, init_word, control_words, latch_line};
ghost use Rattle.blif_write.specs.Putting.{behind, latches_text};

use crate::names::put_name;
use crate::put::{put_last_word, put_word};
use cyc_io::{Failed, Sink, write_whole};
use netlist::{Clock, Edge, Init, Latch, Netlist};

fn edge_word(edge: Edge) -> &'static [u8]
    ensures { result.now ≡ edge_word edge }
{
    match edge {
        Edge::Rise => b"re",
        Edge::Fall => b"fe",
    }
}

fn init_word(init: Init) -> &'static [u8]
    ensures { result.now ≡ init_word init }
{
    match init {
        Init::Zero => b"0",
        Init::One => b"1",
        Init::Either => b"3",
    }
}

fn put_clock_words<K: Sink>(sink: &mut K, clock: &Clock) -> Result<(), Failed>
    ensures { IsAppended (behind (edge_word clock.now.edge) ++ (behind clock.now.name ++ [])) (sink_call K.put K.faults sink.old sink.new) result }
{
    put_word(sink, edge_word(clock.edge))?;
    put_word(sink, clock.name.bytes())
}

/// Appends the edge and the clock of a latch that is clocked.
#[tactic(auto, using(cyc_io::proofs::TakenLemmas::appended_none))]
fn put_control<K: Sink>(sink: &mut K, net: &Netlist, clocked: bool) -> Result<(), Failed>
    ensures { IsAppended (flat_map behind (control_words net.now.clock clocked)) (sink_call K.put K.faults sink.old sink.new) result }
{
    match net.clock() {
        Some(clock) if clocked => put_clock_words(sink, clock),
        _ => Ok(()),
    }
}

fn put_latch<K: Sink>(sink: &mut K, net: &Netlist, latch: &Latch) -> Result<(), Failed>
    requires { IsSignal net.now latch.now.from }
    ensures { IsAppended (line_text (latch_line net.now latch.now)) (sink_call K.put K.faults sink.old sink.new) result }
{
    write_whole(sink, b".latch")?;
    put_name(sink, net, latch.from)?;
    put_word(sink, latch.name.bytes())?;
    put_control(sink, net, latch.clocked)?;
    put_last_word(sink, init_word(latch.init))
}

/// Appends the lines of all latches.
pub(crate) fn put_latches<K: Sink>(sink: &mut K, net: &Netlist) -> Result<(), Failed>
    ensures { IsAppended (latches_text net.now) (sink_call K.put K.faults sink.old sink.new) result }
{
    for i in 0..net.latches() {
        put_latch(sink, net, net.latch(i))?;
    }
    Ok(())
}
