use crate::models::{LatchLine, PartLine};
use cover_logic::Row;
use cyc_base::{Items, Name};

// What a line says, once it has no fault.
#[derive(Drop)]
pub enum Statement {
    Model(Name),
    Inputs(Items<Name>),
    Outputs(Items<Name>),
    Clocks(Items<Name>),
    // the pins and the output of a gate, whose rows follow
    Names { pins: Items<Name>, output: Name },
    // a row, and whether it is of the on-plane
    Row { row: Row, plane: bool },
    Latch(LatchLine),
    Part(PartLine),
    End,
    // a directive that is read over
    Nothing,
}
