// The texts of verdicts.
ghost use Rattle.std.specs.Prelude.{◌≡◌, ◌≤◌, ◌<◌, ◌+◌, ◌++◌, [], codes, length, Some};
ghost use Rattle.cyc_io.specs.Bits.{bit_text};
ghost use Rattle.cyc_io.specs.Taken.{IsAppended, sink_call};
ghost use Rattle.netlist.specs.Netlists.{count};
ghost use Rattle.refusals.specs.Refusals.{IsStepTo, IsRefusalOf};
ghost use Rattle.refusals.specs.declared.refusal.Refusal.TheVariants.{Leaves};
ghost use Rattle.report.specs.Verdicts.{column_text, columns_text, last_columns, vector_text, refusal_text, open_text, accepted_text, rewritten_text, ring_line};

use cyc_base::{Name, Sig};
use cyc_io::{Failed, Sink, put_number_between, put_numbered, put_three, put_two, write_whole};
use netlist::Netlist;
use refusals::Refusal;

fn value(b: bool) -> &'static [u8]
    ensures { result.now ≡ codes "=" ++ bit_text b }
{
    if b { b"=1" } else { b"=0" }
}

/// Appends the value of a column, ` NAME=0` or ` NAME=1`. It takes no memory.
pub fn put_column<K: Sink>(sink: &mut K, name: &Name, b: bool) -> Result<(), Failed>
    ensures { IsAppended (column_text (name.now, b)) (sink_call K.put K.faults sink.old sink.new) result }
{
    put_three(sink, b" ", name.bytes(), value(b))
}

// The values of the signals from this one on.
fn put_columns<K: Sink>(
    sink: &mut K,
    net: &Netlist,
    first: u32,
    values: &[bool],
) -> Result<(), Failed>
    requires fits { first + length values.now ≤ count net.now }
    ensures { IsAppended (columns_text net.now first values.now) (sink_call K.put K.faults sink.old sink.new) result }
{
    net.laws();
    for i in 0..values.len() {
        put_column(sink, net.name_of(Sig(first + i as u32)), values[i])?;
    }
    Ok(())
}

// The same, with the end of the line.
fn put_last_columns<K: Sink>(
    sink: &mut K,
    net: &Netlist,
    first: u32,
    values: &[bool],
) -> Result<(), Failed>
    requires fits { first + length values.now ≤ count net.now }
    ensures { IsAppended (last_columns net.now first values.now) (sink_call K.put K.faults sink.old sink.new) result }
{
    put_columns(sink, net, first, values)?;
    write_whole(sink, b"\n")
}

fn put_at<K: Sink>(sink: &mut K, net: &Netlist, vector: &[bool]) -> Result<(), Failed>
    requires fits { length vector.now ≤ count net.now }
    ensures { IsAppended (codes " at" ++ last_columns net.now 0 vector.now) (sink_call K.put K.faults sink.old sink.new) result }
{
    write_whole(sink, b" at")?;
    put_last_columns(sink, net, 0, vector)
}

/// Appends a vector, where there is a column, and the end of the line. It takes no memory.
pub fn put_vector<K: Sink>(sink: &mut K, net: &Netlist, vector: &[bool]) -> Result<(), Failed>
    requires fits { length vector.now ≤ count net.now }
    ensures { IsAppended (vector_text net.now vector.now) (sink_call K.put K.faults sink.old sink.new) result }
{
    match vector {
        [] => write_whole(sink, b"\n"),
        _ => put_at(sink, net, vector),
    }
}

fn put_initial<K: Sink>(sink: &mut K, net: &Netlist, state: &[bool]) -> Result<(), Failed>
    requires { length state.now ≡ length net.now.latches }
    ensures { IsAppended (codes "refused initial" ++ last_columns net.now (length net.now.inputs) state.now) (sink_call K.put K.faults sink.old sink.new) result }
{
    write_whole(sink, b"refused initial")?;
    put_last_columns(sink, net, net.inputs(), state)
}

fn put_undetermined<K: Sink>(
    sink: &mut K,
    net: &Netlist,
    vector: &[bool],
    wire: &Name,
) -> Result<(), Failed>
    requires fits { length vector.now ≤ count net.now }
    ensures { IsAppended ((codes "refused undetermined wire=" ++ wire.now) ++ vector_text net.now vector.now) (sink_call K.put K.faults sink.old sink.new) result }
{
    put_two(sink, b"refused undetermined wire=", wire.bytes())?;
    put_vector(sink, net, vector)
}

fn put_leaves<K: Sink>(
    sink: &mut K,
    net: &Netlist,
    vector: &[bool],
    next: &[bool],
) -> Result<(), Failed>
    requires { IsStepTo net.now vector.now next.now }
    ensures { IsAppended (refusal_text net.now (Leaves vector.now next.now)) (sink_call K.put K.faults sink.old sink.new) result }
{
    let latches = net.inputs();
    write_whole(sink, b"refused leaves at")?;
    put_columns(sink, net, 0, vector)?;
    write_whole(sink, b" next")?;
    put_last_columns(sink, net, latches, next)
}

/// Appends the text of a refusal: what refuses the netlist, and the values of the columns by name. It takes no
/// memory.
pub fn put_refusal<K: Sink>(net: &Netlist, refusal: &Refusal, sink: &mut K) -> Result<(), Failed>
    requires { IsRefusalOf net.now refusal.now }
    ensures { IsAppended (refusal_text net.now refusal.now) (sink_call K.put K.faults sink.old sink.new) result }
{
    match refusal {
        Refusal::Initial { state } => put_initial(sink, net, state.items()),
        Refusal::EmptyCare => write_whole(sink, b"refused empty care\n"),
        Refusal::Undetermined { vector, wire } => {
            let wire = net.name_of(*wire);
            put_undetermined(sink, net, vector.items(), wire)
        }
        Refusal::Leaves { vector, next } => { put_leaves(sink, net, vector.items(), next.items()) }
    }
}

// The number of gates that are unknown on some care vector, where it is asked for, and the end of the line.
fn put_open<K: Sink>(sink: &mut K, loose: Option<u32>) -> Result<(), Failed>
    ensures { IsAppended (open_text loose) (sink_call K.put K.faults sink.old sink.new) result }
{
    match loose {
        Some(loose) => put_number_between(sink, b" open=", loose, b"\n"),
        None => write_whole(sink, b"\n"),
    }
}

/// Appends the text of a netlist that is accepted, with this number of loops, and ` open=` and the number of gates
/// that are unknown on some care vector where that is given. It takes no memory.
pub fn put_accepted<K: Sink>(
    net: &Netlist,
    loops: u32,
    loose: Option<u32>,
    sink: &mut K,
) -> Result<(), Failed>
    ensures { IsAppended (accepted_text net.now loops loose) (sink_call K.put K.faults sink.old sink.new) result }
{
    put_numbered(sink, b"accepted gates=", net.gates())?;
    put_numbered(sink, b" loops=", loops)?;
    put_numbered(sink, b" latches=", net.latches())?;
    put_open(sink, loose)
}

fn put_rewritten<K: Sink>(sink: &mut K, gates: u64) -> Result<(), Failed>
    ensures { IsAppended (rewritten_text gates) (sink_call K.put K.faults sink.old sink.new) result }
{
    put_number_between(sink, b" accepted rewritten=", gates, b"\n")
}

/// Appends the line of a ring arbiter of so many cells that is accepted, with this number of loops, and of gates of the
/// rewritten netlist. It takes no memory.
pub fn put_ring<K: Sink>(
    cells: u32,
    net: &Netlist,
    loop_count: u32,
    rewritten: u64,
    sink: &mut K,
) -> Result<(), Failed>
    ensures { IsAppended (ring_line cells net.now loop_count rewritten) (sink_call K.put K.faults sink.old sink.new) result }
{
    put_numbered(sink, b"ring ", cells)?;
    put_numbered(sink, b" gates=", net.gates())?;
    put_numbered(sink, b" loops=", loop_count)?;
    put_rewritten(sink, rewritten)
}
