/// The number of a signal in its netlist: first the inputs, then the latches, then the gates.
#[derive(Clone, Copy, Debug, PartialEq, Eq, PartialOrd, Ord, Hash)]
pub struct Sig(pub u32);
