ghost use Rattle.std.specs.Prelude.{IfOk};
ghost use Rattle.components.specs.Graphs.{AreComponentsOf};

use crate::graph::Graph;
use crate::search::{close_all, homes};
use cyc_base::Items;
use std::alloc::{AllocError, Global};

/// The strongly connected components of a graph, by number.
#[derive(Drop)]
pub struct Components {
    /// How many there are.
    pub count: u32,
    /// The component of each node.
    pub home: Items<u32>,
}

impl Components {
    /// The strongly connected components of a graph, in an order in which no edge leads to a later one. It
    /// takes time and memory in proportion to the nodes and edges.
    pub fn of(alloc: Global, graph: &Graph) -> Result<Components, AllocError>
        ensures { IfOk result (AreComponentsOf graph.now) }
    {
        let search = close_all(alloc, graph)?;
        let home = homes(alloc, &search.marks)?;
        Ok(Components {
            count: search.count,
            home: Items::of(home),
        })
    }
}
