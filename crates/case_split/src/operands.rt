//! What stands for a signal in a case.

use cyc_base::Sig;

/// What stands for a signal in a case.
#[derive(Clone, Copy, PartialEq, Eq)]
pub(crate) enum Operand {
    /// The case determines it.
    Constant(bool),
    /// This wire of the netlist that is made has its value.
    Wire(Sig),
}
