//! Words, and the ends of lines.

ghost use Rattle.std.specs.Prelude.{◌≡◌, ◌++◌, ◌∷◌};
ghost use Rattle.cyc_io.specs.Taken.{IsAppended, sink_call};
ghost use Rattle.blif_text.specs.Texts.{ends_in_backslash};
ghost use Rattle.blif_write.specs.Written.{line_end};

use cyc_io::{Failed, Sink, write_whole};

/// Appends a blank and a word.
pub(crate) fn put_word<K: Sink>(sink: &mut K, word: &[u8]) -> Result<(), Failed>
    ensures { IsAppended (32 ∷ word.now) (sink_call K.put K.faults sink.old sink.new) result }
{
    write_whole(sink, b" ")?;
    write_whole(sink, word)
}

fn ends_in_backslash(word: &[u8]) -> bool
    ensures { result ≡ ends_in_backslash word.now }
{
    match word {
        [.., b] => *b == b'\\',
        [] => false,
    }
}

/// Ends a line. Where its last word ends in `\`, a blank keeps it from going on in the next line.
pub(crate) fn put_end<K: Sink>(sink: &mut K, last: &[u8]) -> Result<(), Failed>
    ensures { IsAppended (line_end last.now) (sink_call K.put K.faults sink.old sink.new) result }
{
    if ends_in_backslash(last) {
        write_whole(sink, b" \n")
    } else {
        write_whole(sink, b"\n")
    }
}

/// Appends the last word of a line, with a blank before it, and ends the line.
pub(crate) fn put_last_word<K: Sink>(sink: &mut K, word: &[u8]) -> Result<(), Failed>
    ensures { IsAppended (32 ∷ (word.now ++ line_end word.now)) (sink_call K.put K.faults sink.old sink.new) result }
{
    put_word(sink, word)?;
    put_end(sink, word)
}
