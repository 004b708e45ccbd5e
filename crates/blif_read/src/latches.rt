// `.latch` lines.
ghost use Rattle.std.specs.Prelude.{◌≡◌, ◌<◌, ◌≤◌, IfOk, length};
ghost use Rattle.std.specs.Result.{result_err};
ghost use Rattle.blif_read.specs.Kinds.{arguments};
ghost use Rattle.blif_read.specs.Faults.{is_edge_type, is_level_type, is_init, typed_latch_fault, latch_fault};
ghost use Rattle.blif_read.specs.Statements.{edge_of, control_of, init_of, latch_control, latch_init, latch_of};
ghost use Rattle.blif_read.specs.Answers.{Reads};

use crate::fault::BlifFault;
use crate::models::LatchLine;
use crate::statement::Statement;
use crate::words::{is, name_of};
use blif_text::TextLine;
use netlist::{Clock, Edge, Init};
use std::alloc::{AllocError, Global};

fn is_edge_type(word: &[u8]) -> bool
    ensures { result ≡ is_edge_type word.now }
{
    is(word, b"re") || is(word, b"fe")
}

fn is_level_type(word: &[u8]) -> bool
    ensures { result ≡ is_level_type word.now }
{
    is(word, b"ah") || is(word, b"al") || is(word, b"as")
}

fn is_init(word: &[u8]) -> bool
    ensures { result ≡ is_init word.now }
{
    is(word, b"0") || is(word, b"1") || is(word, b"2") || is(word, b"3")
}

fn check_typed(line: u64, trigger: &[u8], init_is_good: bool) -> Result<(), BlifFault>
    ensures { result_err result ≡ typed_latch_fault line trigger.now init_is_good }
{
    let is_level = is_level_type(trigger);
    if !init_is_good || !(is_edge_type(trigger) || is_level) {
        return Err(BlifFault::BadLatch { line });
    }
    if is_level {
        return Err(BlifFault::LevelLatch { line });
    }
    Ok(())
}

#[tactic(auto, using(crate::proofs::LatchLemmas::fault_of_six))]
fn check_latch(line: &TextLine<'_>) -> Result<(), BlifFault>
    ensures { result_err result ≡ latch_fault line.now.number (arguments line.now) }
{
    let number = line.number();
    match line.words() {
        3 => Ok(()),
        4 if is_init(line.word(3)) => Ok(()),
        5 => check_typed(number, line.word(3), true),
        6 => check_typed(number, line.word(3), is_init(line.word(5))),
        _ => Err(BlifFault::BadLatch { line: number }),
    }
}

fn edge_of(word: &[u8]) -> Edge
    ensures { result ≡ edge_of word.now }
{
    if is(word, b"re") {
        Edge::Rise
    } else {
        Edge::Fall
    }
}

fn init_of(word: &[u8]) -> Init
    ensures { result ≡ init_of word.now }
{
    if is(word, b"0") {
        return Init::Zero;
    }
    if is(word, b"1") {
        return Init::One;
    }
    Init::Either
}

fn control_of(alloc: Global, edge: Edge, word: &[u8]) -> Result<Option<Clock>, AllocError>
    ensures { IfOk result (λ control. control ≡ control_of edge word.now) }
{
    if is(word, b"NIL") {
        return Ok(None);
    }
    let name = name_of(alloc, word)?;
    Ok(Some(Clock { edge, name }))
}

fn latch_control(alloc: Global, line: &TextLine<'_>) -> Result<Option<Clock>, AllocError>
    ensures { IfOk result (λ control. control ≡ latch_control (arguments line.now)) }
{
    if line.words() < 5 {
        return Ok(None);
    }
    control_of(alloc, edge_of(line.word(3)), line.word(4))
}

fn latch_init(line: &TextLine<'_>) -> Init
    ensures { result ≡ latch_init (arguments line.now) }
{
    match line.words() {
        4 => init_of(line.word(3)),
        6 => init_of(line.word(5)),
        _ => Init::Either,
    }
}

fn latch_of(alloc: Global, line: &TextLine<'_>) -> Result<LatchLine, AllocError>
    requires { 3 ≤ length line.now.words }
    ensures { IfOk result (λ latch. latch ≡ latch_of (arguments line.now)) }
{
    Ok(LatchLine {
        from: name_of(alloc, line.word(1))?,
        output: name_of(alloc, line.word(2))?,
        control: latch_control(alloc, line)?,
        init: latch_init(line),
    })
}

pub fn read_latch(alloc: Global, line: &TextLine<'_>) -> Result<Statement, BlifFault>
    ensures { Reads result (latch_fault line.now.number (arguments line.now)) (Statement.Latch (latch_of (arguments line.now))) }
{
    check_latch(line)?;
    Ok(Statement::Latch(latch_of(alloc, line)?))
}
