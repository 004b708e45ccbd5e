//! The gates that read each signal.

ghost use Rattle.std.specs.Prelude.{◌≡◌, ◌<◌, ◌≤◌, length, All, IfOk, OnOk};
ghost use Rattle.netlist.specs.Netlists.{IsNetlist};
ghost use Rattle.simulation.specs.Plans.{AreReadersOf};
ghost use Rattle.simulation.specs.Listing.{AreListed};

use components::Graph;
use cyc_base::Sig;
use loops::{GateList, empty_lists};
use netlist::Netlist;
use std::alloc::{AllocError, Global};

/// Adds a gate to the readers of each of its pins.
fn add_gate(lists: &mut [GateList], gate: u32, pins: &[Sig]) -> Result<(), AllocError>
    requires { All (λ pin. pin.0 < length lists.old) pins.now }
    ensures { OnOk result (AreListed gate pins.now (length pins.now) lists.old lists.new) }
{
    for pin in pins {
        lists[pin.0 as usize].push(gate)?;
    }
    Ok(())
}

fn lists_of(alloc: Global, net: &Netlist) -> Result<Vec<GateList>, AllocError>
    ensures readers { IfOk result (λ lists. AreReadersOf net.now lists.items) }
    ensures valid { IsNetlist net.now }
{
    let mut lists = empty_lists(alloc, net.count())?;
    for number in 0..net.gates() {
        add_gate(&mut lists, number, net.gate(number).pins.items())?;
    }
    Ok(lists)
}

/// The lists as one graph.
fn graph_of(alloc: Global, lists: &[GateList]) -> Result<Graph, AllocError>
    requires { length lists.now ≤ 4294967295 }
    ensures { IfOk result (λ graph. graph ≡ lists.now) }
{
    let mut graph = Graph::new(alloc);
    for readers in lists {
        graph.add_node(readers.gates())?;
    }
    Ok(graph)
}

/// A node for each signal. Its successors are the gates that read it, once for each pin.
pub(crate) fn readers_of(alloc: Global, net: &Netlist) -> Result<Graph, AllocError>
    ensures readers { IfOk result (AreReadersOf net.now) }
    ensures valid { IsNetlist net.now }
{
    let lists = lists_of(alloc, net)?;
    graph_of(alloc, &lists)
}
