//! Lines of numbers.

ghost use Rattle.std.specs.Prelude.{◌++◌, ◌∷◌, codes, decimal};
ghost use Rattle.std.specs.List.{flat_map};
ghost use Rattle.cyc_io.specs.Taken.{IsAppended, sink_call};
ghost use Rattle.aig_core.specs.Text.{numbers_line};

use cyc_io::{Failed, Sink, put_number, put_numbered, write_whole};

/// Appends numbers, each behind a blank.
fn put_next_numbers<K: Sink>(sink: &mut K, numbers: &[u32]) -> Result<(), Failed>
    ensures { IsAppended (flat_map (λ number. codes " " ++ decimal number) numbers.now) (sink_call K.put K.faults sink.old sink.new) result }
{
    for number in numbers {
        put_numbered(sink, b" ", *number)?;
    }
    Ok(())
}

/// Appends a line of numbers.
pub(crate) fn put_line<K: Sink>(sink: &mut K, first: u32, others: &[u32]) -> Result<(), Failed>
    ensures { IsAppended (numbers_line (first ∷ others.now)) (sink_call K.put K.faults sink.old sink.new) result }
{
    put_number(sink, first)?;
    put_next_numbers(sink, others)?;
    write_whole(sink, b"\n")
}
