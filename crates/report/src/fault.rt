ghost use Rattle.std.specs.Prelude.{◌++◌, IfSome};
ghost use Rattle.cyc_io.specs.Taken.{IsAppended, sink_call};
ghost use Rattle.report.specs.Texts.{fault_of, fault_text, number_of, number_text, line_text, tail_text, words_of, IsCode};

use crate::fault_code::FaultCode;
use cyc_base::Name;
use cyc_io::{Failed, Sink, put_number_between, put_numbered, put_three, put_two, write_whole};

/// What stands behind the words of a fault.
#[derive(Clone, Copy)]
pub enum Tail<'a> {
    Nothing,
    Name(&'a Name),
    Number(u64),
}

// The line, where there is one.
#[tactic(auto, using(cyc_io::proofs::TakenLemmas::appended_none))]
fn put_line<K: Sink>(sink: &mut K, line: Option<u64>) -> Result<(), Failed>
    ensures { IsAppended (line_text line) (sink_call K.put K.faults sink.old sink.new) result }
{
    match line {
        Some(line) => put_numbered(sink, b":", line),
        None => Ok(()),
    }
}

fn put_code<K: Sink>(sink: &mut K, fault: FaultCode) -> Result<(), Failed>
    ensures { IsAppended (number_text (number_of fault) ++ words_of fault) (sink_call K.put K.faults sink.old sink.new) result }
{
    let number = fault.number();
    let digits = [
        b':',
        b' ',
        b'E',
        b'0' + number / 10,
        b'0' + number % 10,
        b' ',
    ];
    put_two(sink, &digits, fault.words())
}

fn put_tail<K: Sink>(sink: &mut K, tail: Tail) -> Result<(), Failed>
    ensures { IsAppended (tail_text tail.entry) (sink_call K.put K.faults sink.old sink.new) result }
{
    match tail {
        Tail::Nothing => write_whole(sink, b"\n"),
        Tail::Name(name) => put_three(sink, b" ", name.bytes(), b"\n"),
        Tail::Number(n) => put_number_between(sink, b" ", n, b"\n"),
    }
}

/// Appends the text of a fault of a file: `FILE:LINE: Ecc WORDS TAIL` and LF, where the line and the tail are there
/// only if the fault has them. It takes no memory.
pub fn put_file_fault<K: Sink>(
    file: &Name,
    fault: FaultCode,
    line: Option<u64>,
    tail: Tail,
    sink: &mut K,
) -> Result<(), Failed>
    ensures { IsAppended (fault_text file.now fault line (tail_text tail.entry)) (sink_call K.put K.faults sink.old sink.new) result }
{
    write_whole(sink, file.bytes())?;
    put_line(sink, line)?;
    put_code(sink, fault)?;
    put_tail(sink, tail)
}

/// The same for the fault of this number.
pub fn put_fault<K: Sink>(
    file: &Name,
    code: u8,
    line: Option<u64>,
    tail: Tail,
    sink: &mut K,
) -> Result<(), Failed>
    requires { IsCode code }
    ensures { IfSome (fault_of code) (λ fault. IsAppended (fault_text file.now fault line (tail_text tail.entry)) (sink_call K.put K.faults sink.old sink.new) result) }
{
    match FaultCode::of_number(code) {
        Some(fault) => put_file_fault(file, fault, line, tail, sink),
        None => Ok(()),
    }
}
