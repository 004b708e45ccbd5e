// Texts of several parts, and numbers and bits as texts.
ghost use Rattle.std.specs.Prelude.{◌≡◌, ◌++◌};
ghost use Rattle.cyc_io.specs.Bits.{bit_text, bits_text};
ghost use Rattle.cyc_io.specs.Taken.{IsAppended, sink_call};

use crate::{Failed, Sink, write_whole};
use itoa::{Buffer, Integer};

/// Appends one text and then another. It takes no memory, as none of these does.
pub fn put_two<K: Sink>(sink: &mut K, front: &[u8], back: &[u8]) -> Result<(), Failed>
    ensures { IsAppended (front.now ++ back.now) (sink_call K.put K.faults sink.old sink.new) result }
{
    write_whole(sink, front)?;
    write_whole(sink, back)
}

/// Appends three texts.
pub fn put_three<K: Sink>(
    sink: &mut K,
    front: &[u8],
    middle: &[u8],
    back: &[u8],
) -> Result<(), Failed>
    ensures { IsAppended (front.now ++ (middle.now ++ back.now)) (sink_call K.put K.faults sink.old sink.new) result }
{
    write_whole(sink, front)?;
    write_whole(sink, middle)?;
    write_whole(sink, back)
}

/// Appends a number in decimal digits.
pub fn put_number<K: Sink, I: Integer>(sink: &mut K, number: I) -> Result<(), Failed>
    ensures { IsAppended (I.text number) (sink_call K.put K.faults sink.old sink.new) result }
{
    write_whole(sink, Buffer::new().format(number).as_bytes())
}

/// Appends words and a number behind them.
pub fn put_numbered<K: Sink, I: Integer>(
    sink: &mut K,
    words: &[u8],
    number: I,
) -> Result<(), Failed>
    ensures { IsAppended (words.now ++ I.text number) (sink_call K.put K.faults sink.old sink.new) result }
{
    put_two(sink, words, Buffer::new().format(number).as_bytes())
}

/// Appends a number between words.
pub fn put_number_between<K: Sink, I: Integer>(
    sink: &mut K,
    front: &[u8],
    number: I,
    back: &[u8],
) -> Result<(), Failed>
    ensures { IsAppended (front.now ++ (I.text number ++ back.now)) (sink_call K.put K.faults sink.old sink.new) result }
{
    put_three(sink, front, Buffer::new().format(number).as_bytes(), back)
}

/// A bit as a digit.
pub fn bit_text(bit: bool) -> &'static [u8]
    ensures { result.now ≡ bit_text bit }
{
    if bit { b"1" } else { b"0" }
}

/// Appends a digit for each bit.
pub fn put_bits<K: Sink>(sink: &mut K, bits: &[bool]) -> Result<(), Failed>
    ensures { IsAppended (bits_text bits.now) (sink_call K.put K.faults sink.old sink.new) result }
{
    for bit in bits {
        write_whole(sink, bit_text(*bit))?;
    }
    Ok(())
}
