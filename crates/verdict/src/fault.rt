use std::fmt;
use thiserror::Error;

/// Why a netlist gets no verdict.
#[derive(Clone, Copy, Debug, PartialEq, Eq, Error)]
pub enum DecideFault {
    /// The diagrams hold as many nodes as they may, or a cover's own diagram would hold more.
    NodeLimit { nodes: u32 },
    Memory,
}

impl fmt::Display for DecideFault {
    fn fmt<W: fmt::Write>(&self, f: &mut fmt::Formatter<W>) -> fmt::Result {
        f.write_str("the netlist gets no verdict")
    }
}
