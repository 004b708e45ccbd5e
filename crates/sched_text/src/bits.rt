// Lines of bits.
ghost use Rattle.std.specs.Prelude.{◌≡◌, length, map, Some, None, if◌then◌else◌};
ghost use Rattle.std.specs.List.{list_all};
ghost use Rattle.std.specs.Result.{result_err};
ghost use Rattle.sched_text.specs.declared.kind.ScheduleKind.TheVariants as kinds;
ghost use Rattle.sched_text.specs.Answers.{Reads};
ghost use Rattle.sched_text.specs.LineFaults.{arguments, is_bit, are_bits, bit_of, bits_of, width_fault, permits as permits_start, start_fault, fault_of_words};
ghost use Rattle.sched_text.specs.Statements.{statement_of};

use crate::fault::SchedFault;
use crate::pieces::PieceLine;
use crate::statement::ScheduleStatement;
use cyc_base::Bits;
use netlist::{Init, Netlist};
use std::alloc::Global;

// The bit for which a character stands, in the line of this number.
fn read_bit(line: u64, character: u8) -> Result<bool, SchedFault>
    ensures { Reads result (if is_bit character then None else Some (SchedFault.BadLine line)) (bit_of character) }
{
    match character {
        b'0' => Ok(false),
        b'1' => Ok(true),
        _ => Err(SchedFault::BadLine { line }),
    }
}

// The bits of a word, which stands in the line of this number.
fn read_word(alloc: Global, line: u64, word: &[u8]) -> Result<Bits, SchedFault>
    ensures { Reads result (if list_all is_bit word.now then None else Some (SchedFault.BadLine line)) (map bit_of word.now) }
{
    let mut bits = Vec::with_capacity(alloc, word.len())?;
    for character in word {
        bits.push_reserved(read_bit(line, *character)?);
    }
    Ok(Bits::of(bits))
}

// The bits behind the first word of a line. No second word is no bits.
fn read_bits(alloc: Global, line: &PieceLine<'_>) -> Result<Bits, SchedFault>
    ensures { Reads result (if are_bits (arguments line.now.words) then None else Some (SchedFault.BadLine line.now.number)) (bits_of (arguments line.now.words)) }
{
    match line.words() {
        0 | 1 => Ok(Bits::of(Vec::new(alloc))),
        2 => read_word(alloc, line.number(), line.word(1)),
        _ => Err(line.bad_line()),
    }
}

fn check_width(line: u64, width: usize, bits: &Bits) -> Result<(), SchedFault>
    ensures { result_err result ≡ width_fault line width bits.now }
{
    if bits.items().len() != width {
        return Err(SchedFault::WrongWidth { line });
    }
    Ok(())
}

fn permits(init: Init, b: bool) -> bool
    ensures { result ≡ permits_start init b }
{
    match init {
        Init::Zero => !b,
        Init::One => b,
        Init::Either => true,
    }
}

// Whether the latches may start with these values.
fn check_start(line: u64, net: &Netlist, bits: &[bool]) -> Result<(), SchedFault>
    requires { length bits.now ≡ length net.now.latches }
    ensures { result_err result ≡ start_fault line net.now.latches bits.now }
{
    for latch in 0..net.latches() {
        if !permits(net.latch(latch).init, bits[latch as usize]) {
            return Err(SchedFault::BadStart { line, latch });
        }
    }
    Ok(())
}

// A line of so many bits.
pub fn read_width(alloc: Global, width: u32, line: &PieceLine<'_>) -> Result<Bits, SchedFault>
    ensures { let bits = bits_of (arguments line.now.words) in
        Reads result (if are_bits (arguments line.now.words) then width_fault line.now.number width bits else Some (SchedFault.BadLine line.now.number)) bits }
{
    let bits = read_bits(alloc, line)?;
    check_width(line.number(), width as usize, &bits)?;
    Ok(bits)
}

pub fn read_latches(
    alloc: Global,
    net: &Netlist,
    line: &PieceLine<'_>,
) -> Result<ScheduleStatement, SchedFault>
    ensures { Reads result (fault_of_words net.now 0 kinds.Latches line.now.number 0 (arguments line.now.words)) (statement_of net.now kinds.Latches line.now.number (arguments line.now.words)) }
{
    let bits = read_width(alloc, net.latches(), line)?;
    check_start(line.number(), net, bits.items())?;
    Ok(ScheduleStatement::Latches(bits))
}
