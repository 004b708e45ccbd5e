ghost use Rattle.std.specs.Prelude.{◌≡◌, ◌+◌, ◌≤◌, ◌<◌, ◌++◌, length, map, IfOk, OnOk, IfSome, IfNone, OnSome};
ghost use Rattle.netlist.specs.Netlists.{IsNetlist};
ghost use Rattle.netlist.specs.Orders.{numbers_from, gates_read, gate_graph as gate_graph_of, IsGateOrder, HasLoop};
ghost use Rattle.netlist.specs.Walks.{IsLoopFree};

use crate::netlist::Netlist;
use crate::parts::Gate;
use components::{Graph, topological_order};
use cyc_base::Sig;
use std::alloc::{AllocError, Global};

/// Appends the gates that pins read, where the gates' signals are numbered from `first` on.
fn add_gates_read(first: u32, pins: &[Sig], reads: &mut Vec<u32>) -> Result<(), AllocError>
    ensures { OnOk result (reads.new.items ≡ reads.old.items ++ numbers_from first pins.now) }
{
    for pin in pins {
        if pin.0 >= first {
            reads.push(pin.0 - first)?;
        }
    }
    Ok(())
}

fn graph_of(alloc: Global, first: u32, gates: &[Gate]) -> Result<Graph, AllocError>
    requires { length gates.now ≤ 4294967295 }
    ensures { IfOk result (λ graph. graph ≡ map (gates_read first) gates.now) }
{
    let mut graph = Graph::new(alloc);
    let mut reads = Vec::new(alloc);
    for gate in gates {
        reads.clear();
        add_gates_read(first, gate.pins.items(), &mut reads)?;
        graph.add_node(&reads)?;
    }
    Ok(graph)
}

impl Netlist {
    /// The graph of its gates, in which an edge leads from each gate to the gates on its pins.
    pub fn gate_graph(&self, alloc: Global) -> Result<Graph, AllocError>
        ensures graph { IfOk result (λ graph. graph ≡ gate_graph_of self.now) }
        ensures valid { IsNetlist self.now }
    {
        graph_of(alloc, self.columns(), self.gate_list())
    }

    /// All gates, each after the gates that it reads: `None` exactly where the netlist has a loop.
    pub fn in_order(&self, alloc: Global) -> Result<Option<Vec<u32>>, AllocError>
        ensures order { IfOk result (λ found. IfSome found (λ order. IsGateOrder self.now order.items)) }
        ensures loop_free { IfOk result (λ found. OnSome found (IsLoopFree self.now)) }
        ensures none { IfOk result (λ found. IfNone found (HasLoop self.now)) }
        ensures valid { IsNetlist self.now }
    {
        let graph = self.gate_graph(alloc)?;
        Ok(topological_order(alloc, &graph)?)
    }
}
