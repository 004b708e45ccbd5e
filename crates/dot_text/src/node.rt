//! Nodes and wires.

ghost use Rattle.cyc_io.specs.Taken.{IsAppended, sink_call};
ghost use Rattle.dot_text.specs.Dot.{box_closes, box_opens, graph_head, node, quoted as quoted_text, quoted_byte, wire};

use cyc_base::Sig;
use cyc_io::{Failed, Sink, put_numbered, write_whole};

// A byte between quotes.
fn put_byte<K: Sink>(sink: &mut K, byte: u8) -> Result<(), Failed>
    ensures { IsAppended (quoted_byte byte) (sink_call K.put K.faults sink.old sink.new) result }
{
    if byte == b'"' {
        write_whole(sink, b"\\\"")
    } else if byte == b'\\' {
        write_whole(sink, b"\\\\")
    } else if byte == b'&' {
        write_whole(sink, b"&amp;")
    } else if byte == b'\n' {
        write_whole(sink, b"\\l")
    } else {
        write_whole(sink, &[byte])
    }
}

pub(crate) fn put_quoted<K: Sink>(sink: &mut K, text: &[u8]) -> Result<(), Failed>
    ensures { IsAppended (quoted_text text.now) (sink_call K.put K.faults sink.old sink.new) result }
{
    for byte in text {
        put_byte(sink, *byte)?;
    }
    Ok(())
}

// What stands before the text of the box at a signal's node.
pub(crate) fn open_box<K: Sink>(sink: &mut K, signal: Sig) -> Result<(), Failed>
    ensures { IsAppended (box_opens signal.0) (sink_call K.put K.faults sink.old sink.new) result }
{
    put_numbered(sink, b"  v", signal.0)?;
    write_whole(sink, b" [shape=box, label=\"")
}

// And behind it.
pub(crate) fn close_box<K: Sink>(sink: &mut K, signal: Sig) -> Result<(), Failed>
    ensures { IsAppended (box_closes signal.0) (sink_call K.put K.faults sink.old sink.new) result }
{
    put_numbered(sink, b"\"];\n  v", signal.0)?;
    put_numbered(sink, b" -> s", signal.0)?;
    write_whole(sink, b";\n")
}

// The node of a signal, whose name stands between what opens its label and what closes it.
pub(crate) fn put_node<K: Sink>(
    sink: &mut K,
    signal: Sig,
    opens: &[u8],
    name: &[u8],
    closes: &[u8],
) -> Result<(), Failed>
    ensures { IsAppended (node signal.0 opens.now name.now closes.now) (sink_call K.put K.faults sink.old sink.new) result }
{
    put_numbered(sink, b"  s", signal.0)?;
    write_whole(sink, opens)?;
    put_quoted(sink, name)?;
    write_whole(sink, closes)
}

pub(crate) fn put_wire<K: Sink>(
    sink: &mut K,
    from: Sig,
    to: Sig,
    style: &[u8],
) -> Result<(), Failed>
    ensures { IsAppended (wire from.0 to.0 style.now) (sink_call K.put K.faults sink.old sink.new) result }
{
    put_numbered(sink, b"  s", from.0)?;
    put_numbered(sink, b" -> s", to.0)?;
    write_whole(sink, style)
}

/// Appends what stands before the body of a graph with this text as its label. It takes no memory.
pub fn open_graph<K: Sink>(sink: &mut K, label: &[u8]) -> Result<(), Failed>
    ensures { IsAppended (graph_head label.now) (sink_call K.put K.faults sink.old sink.new) result }
{
    write_whole(sink, b"digraph {\n  label=\"")?;
    put_quoted(sink, label)?;
    write_whole(sink, b"\";\n")
}
