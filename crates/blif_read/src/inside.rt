// Lines in a model in progress.
ghost use Rattle.std.specs.Prelude.{◌≡◌, ◌≢◌, ◌<◌, length};
ghost use Rattle.blif_read.specs.Faults.{fault_inside};
ghost use Rattle.blif_read.specs.Statements.{statement_of_kind};
ghost use Rattle.blif_read.specs.Answers.{Reads};
ghost use Rattle.blif_read.specs.declared.kind.LineKind as kinds;

use crate::fault::BlifFault;
use crate::gates::read_names;
use crate::kind::LineKind;
use crate::latches::read_latch;
use crate::place::LinePlace;
use crate::rows::read_row;
use crate::statement::Statement;
use crate::subckts::read_part;
use crate::words::argument_names;
use blif_text::TextLine;
use std::alloc::Global;

// What a line says that isn't a `.model` line.
pub fn read_inside(
    alloc: Global,
    kind: LineKind,
    place: LinePlace,
    line: &TextLine<'_>,
) -> Result<Statement, BlifFault>
    requires { kind ≢ LineKind.Model }
    ensures { Reads result (fault_inside kind line.now place) (statement_of_kind kind line.now) }
{
    match kind {
        LineKind::Row => read_row(alloc, place, line),
        LineKind::Names => read_names(alloc, line),
        LineKind::Latch => read_latch(alloc, line),
        LineKind::Subckt => read_part(alloc, line),
        LineKind::Inputs => Ok(Statement::Inputs(argument_names(alloc, line)?)),
        LineKind::Outputs => Ok(Statement::Outputs(argument_names(alloc, line)?)),
        LineKind::Clock => Ok(Statement::Clocks(argument_names(alloc, line)?)),
        LineKind::End => Ok(Statement::End),
        LineKind::Model | LineKind::ReadOver => Ok(Statement::Nothing),
        LineKind::LeftOut => Err(BlifFault::LeftOut {
            line: line.number(),
        }),
        LineKind::Unknown => Err(BlifFault::UnknownDirective {
            line: line.number(),
        }),
    }
}
