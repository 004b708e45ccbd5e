// The lines of ticks.
ghost use Rattle.std.specs.Prelude.{◌≡◌};
ghost use Rattle.std.specs.List.{flat_map};
ghost use Rattle.cyc_io.specs.Taken.{IsAppended, sink_call};
ghost use Rattle.report.specs.Ticks.{trit_text, tick_text, settled_text, played_text};

use cyc_base::Trit;
use cyc_io::{Failed, Sink, put_bits, put_numbered, write_whole};

fn trit(t: Trit) -> &'static [u8]
    ensures { result.now ≡ trit_text t }
{
    match t {
        Trit::Zero => b"0",
        Trit::One => b"1",
        Trit::X => b"x",
    }
}

fn put_trits<K: Sink>(sink: &mut K, trits: &[Trit]) -> Result<(), Failed>
    ensures { IsAppended (flat_map trit_text trits.now) (sink_call K.put K.faults sink.old sink.new) result }
{
    for t in trits {
        write_whole(sink, trit(*t))?;
    }
    Ok(())
}

/// Appends the line of a tick of a ternary simulation, with the values of its outputs. It takes no memory.
pub fn put_tick<K: Sink>(tick: u64, outputs: &[Trit], sink: &mut K) -> Result<(), Failed>
    ensures { IsAppended (tick_text tick outputs.now) (sink_call K.put K.faults sink.old sink.new) result }
{
    put_numbered(sink, b"tick ", tick)?;
    write_whole(sink, b" outputs=")?;
    put_trits(sink, outputs)?;
    write_whole(sink, b"\n")
}

fn settled_words(settled: bool) -> &'static [u8]
    ensures { result.now ≡ settled_text settled }
{
    if settled {
        b" settled=yes outputs="
    } else {
        b" settled=no outputs="
    }
}

/// Appends the line of a tick that was played: how many rounds it had, whether it settled, and the values of its
/// outputs as it ends. It takes no memory.
pub fn put_played_tick<K: Sink>(
    tick: u64,
    rounds: u64,
    settled: bool,
    outputs: &[bool],
    sink: &mut K,
) -> Result<(), Failed>
    ensures { IsAppended (played_text tick rounds settled outputs.now) (sink_call K.put K.faults sink.old sink.new) result }
{
    put_numbered(sink, b"tick ", tick)?;
    put_numbered(sink, b" rounds=", rounds)?;
    write_whole(sink, settled_words(settled))?;
    put_bits(sink, outputs)?;
    write_whole(sink, b"\n")
}
