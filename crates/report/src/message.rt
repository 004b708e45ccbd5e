// What a call tells where there is no result.
ghost use Rattle.cyc_io.specs.Taken.{IsAppended, sink_call};
ghost use Rattle.report.specs.Messages.{read_failed_text, limit_text, too_large_text, too_many_rows_text};

use cyc_base::Name;
use cyc_io::{Failed, Sink, put_number_between, put_two};

/// What words outside the grammar are told.
pub const USAGE_TEXT: &[u8] = b"usage: cyc COMMAND FILES OPTIONS\n";

/// What want of memory is told.
pub const NO_MEMORY_TEXT: &[u8] = b"no memory\n";

/// Appends what is told of a file that wasn't read. It takes no memory.
pub fn put_read_failed<K: Sink>(file: &Name, sink: &mut K) -> Result<(), Failed>
    ensures { IsAppended (read_failed_text file.now) (sink_call K.put K.faults sink.old sink.new) result }
{
    put_two(sink, file.bytes(), b": read failed\n")
}

/// Appends what is told of a decision that met its limit of nodes. It takes no memory.
pub fn put_limit<K: Sink>(limit: u32, sink: &mut K) -> Result<(), Failed>
    ensures { IsAppended (limit_text limit) (sink_call K.put K.faults sink.old sink.new) result }
{
    put_number_between(sink, b"node limit ", limit, b" reached\n")
}

/// Appends what is told where what is to be made is too large. It takes no memory.
pub fn put_too_large<K: Sink>(size: u64, sink: &mut K) -> Result<(), Failed>
    ensures { IsAppended (too_large_text size) (sink_call K.put K.faults sink.old sink.new) result }
{
    put_number_between(sink, b"too large ", size, b"\n")
}

/// Appends what is told where an assumption would have more rows than these. It takes no memory.
pub fn put_too_many_rows<K: Sink>(most: u32, sink: &mut K) -> Result<(), Failed>
    ensures { IsAppended (too_many_rows_text most) (sink_call K.put K.faults sink.old sink.new) result }
{
    put_number_between(sink, b"over ", most, b" rows\n")
}
