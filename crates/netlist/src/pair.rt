use cyc_base::Sig;

/// Two wires that are compared: of one netlist, or the first of one and the second of another.
#[derive(Clone, Copy, PartialEq, Eq)]
pub struct Pair {
    pub here: Sig,
    pub there: Sig,
}
