ghost use Rattle.std.specs.Prelude.{◌≡◌, ◌<◌, length};
ghost use Rattle.blif_read.specs.Kinds.{begins_with_dot, is_left_out, is_port_timing, is_default_timing, is_read_over, directive_of, kind_of, kind};

use crate::words::is;
use blif_text::TextLine;

// What a line is by its first word.
#[derive(Clone, Copy)]
pub enum LineKind {
    Row,
    Model,
    Inputs,
    Outputs,
    Clock,
    Names,
    Latch,
    Subckt,
    End,
    ReadOver,
    LeftOut,
    Unknown,
}

fn begins_with_dot(word: &[u8]) -> bool
    ensures { result ≡ begins_with_dot word.now }
{
    match word {
        [b, ..] => *b == b'.',
        [] => false,
    }
}

// Whether the profile leaves the directive out.
fn is_left_out(word: &[u8]) -> bool
    ensures { result ≡ is_left_out word.now }
{
    is(word, b".gate")
        || is(word, b".mlatch")
        || is(word, b".exdc")
        || is(word, b".search")
        || is(word, b".start_kiss")
        || is(word, b".end_kiss")
        || is(word, b".latch_order")
        || is(word, b".code")
        || is(word, b".cycle")
        || is(word, b".clock_event")
        || is(word, b".blackbox")
        || is(word, b".conn")
        || is(word, b".barbuf")
}

// Whether the directive tells of arrivals, drives and loads at a port.
fn is_port_timing(word: &[u8]) -> bool
    ensures { result ≡ is_port_timing word.now }
{
    is(word, b".input_arrival")
        || is(word, b".output_required")
        || is(word, b".input_drive")
        || is(word, b".max_input_load")
        || is(word, b".output_load")
}

// Whether the directive tells of them for all ports.
fn is_default_timing(word: &[u8]) -> bool
    ensures { result ≡ is_default_timing word.now }
{
    is(word, b".default_input_arrival")
        || is(word, b".default_output_required")
        || is(word, b".default_input_drive")
        || is(word, b".default_max_input_load")
        || is(word, b".default_output_load")
}

// Whether the directive is read over with all its words.
fn is_read_over(word: &[u8]) -> bool
    ensures { result ≡ is_read_over word.now }
{
    is_port_timing(word)
        || is_default_timing(word)
        || is(word, b".area")
        || is(word, b".delay")
        || is(word, b".wire_load_slope")
        || is(word, b".wire")
        || is(word, b".attr")
        || is(word, b".param")
        || is(word, b".cname")
}

fn directive_of(word: &[u8]) -> LineKind
    ensures { result ≡ directive_of word.now }
{
    if is(word, b".names") {
        return LineKind::Names;
    }
    if is(word, b".latch") {
        return LineKind::Latch;
    }
    if is(word, b".subckt") {
        return LineKind::Subckt;
    }
    if is(word, b".inputs") {
        return LineKind::Inputs;
    }
    if is(word, b".outputs") {
        return LineKind::Outputs;
    }
    if is(word, b".clock") {
        return LineKind::Clock;
    }
    if is(word, b".model") {
        return LineKind::Model;
    }
    if is(word, b".end") {
        return LineKind::End;
    }
    if is_read_over(word) {
        return LineKind::ReadOver;
    }
    if is_left_out(word) {
        return LineKind::LeftOut;
    }
    LineKind::Unknown
}

fn kind_of(word: &[u8]) -> LineKind
    ensures { result ≡ kind_of word.now }
{
    if begins_with_dot(word) {
        directive_of(word)
    } else {
        LineKind::Row
    }
}

// The kind of a line.
pub fn kind_at(line: &TextLine<'_>) -> LineKind
    ensures { result ≡ kind line.now }
{
    if line.words() == 0 {
        LineKind::Row
    } else {
        kind_of(line.word(0))
    }
}
