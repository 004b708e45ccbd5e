use crate::cases::Cases;
use crate::command::{Cells, Rounds};
use crate::encoding::Encoding;
use crate::form::Form;

/// What a netlist is judged for: its verdict says all.
#[derive(Clone, Copy, Drop)]
pub enum Telling {
    /// To tell the verdict.
    Judge,
    /// To write a schedule of so many rounds on which a refused wire never rests.
    Storm(Rounds),
}

/// What a netlist is decided for whose sweeps are wanted, where it is accepted.
#[derive(Clone, Copy, Drop)]
pub enum Making {
    /// To write it without loops, split into so many cases, where these are more than one.
    Rewrite(Option<Cases>),
    /// To write the and-inverter graph of that, in a form of AIGER.
    Aiger(Encoding, Option<Cases>),
    /// To show why a refused wire is undetermined, or what loops an accepted netlist has.
    Explain(Form),
    /// To tell that the ring arbiter of so many cells is accepted.
    Demonstrate(Cells),
}

/// What a netlist is decided for.
#[derive(Clone, Copy, Drop)]
pub enum Purpose {
    Tell(Telling),
    Make(Making),
}
