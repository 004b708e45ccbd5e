// `.names` lines.
ghost use Rattle.std.specs.Prelude.{◌≡◌, ◌<◌, ◌≤◌, IfOk, None, length};
ghost use Rattle.std.specs.Result.{result_err};
ghost use Rattle.blif_read.specs.Kinds.{arguments};
ghost use Rattle.blif_read.specs.Faults.{names_fault};
ghost use Rattle.blif_read.specs.Statements.{pins_of, output_of};
ghost use Rattle.blif_read.specs.Answers.{Reads};

use crate::fault::BlifFault;
use crate::statement::Statement;
use crate::words::{name_of, names_between};
use blif_text::TextLine;
use cyc_base::MAX_PINS;
use std::alloc::{AllocError, Global};

fn check_names(line: &TextLine<'_>) -> Result<(), BlifFault>
    ensures { result_err result ≡ names_fault line.now.number (arguments line.now) }
{
    let number = line.number();
    let words = line.words();
    if words < 2 {
        return Err(BlifFault::NoOutputName { line: number });
    }
    if words - 2 > MAX_PINS {
        return Err(BlifFault::TooManyPins { line: number });
    }
    Ok(())
}

fn names_statement(alloc: Global, line: &TextLine<'_>) -> Result<Statement, AllocError>
    requires { 2 ≤ length line.now.words }
    ensures { let names = arguments line.now in
        IfOk result (λ said. said ≡ Statement.Names (pins_of names) (output_of names)) }
{
    let last = line.words() - 1;
    let pins = names_between(alloc, line, 1, last)?;
    let output = name_of(alloc, line.word(last))?;
    Ok(Statement::Names { pins, output })
}

pub fn read_names(alloc: Global, line: &TextLine<'_>) -> Result<Statement, BlifFault>
    ensures { let names = arguments line.now in
        Reads result (names_fault line.now.number names) (Statement.Names (pins_of names) (output_of names)) }
{
    check_names(line)?;
    Ok(names_statement(alloc, line)?)
}
