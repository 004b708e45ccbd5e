//! The order in which a netlist is settled, and the gates that read each signal.

ghost use Rattle.std.specs.Prelude.{IfOk};
ghost use Rattle.simulation.specs.Plans.{IsPlanOf};

use crate::readers::readers_of;
use components::Graph;
use loops::{Blocks, find_blocks};
use netlist::Netlist;
use std::alloc::{AllocError, Global};

/// The blocks of a netlist, each after those that it reads, and the gates that read each signal.
pub(crate) struct Plan {
    pub blocks: Blocks,
    /// A node for each signal. Its successors are the gates that read it.
    pub readers: Graph,
}

impl Drop for Plan {
    fn drop(self) {
        let Plan {
            blocks: _,
            readers: _,
        } = self;
    }
}

impl Plan {
    /// The plan of a netlist, in time and memory in proportion to its gates and pins.
    pub fn of(alloc: Global, net: &Netlist) -> Result<Plan, AllocError>
        ensures { IfOk result (IsPlanOf net.now) }
    {
        let blocks = find_blocks(alloc, net)?;
        let readers = readers_of(alloc, net)?;
        Ok(Plan { blocks, readers })
    }
}
