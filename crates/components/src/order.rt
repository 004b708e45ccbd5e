ghost use Rattle.std.specs.Prelude.{◌≡◌, ◌<◌, ℕ, true, false, length, IfOk, IfSome, IfNone, OnSome, slice_index, slice_index_or};
ghost use Rattle.std.specs.List.{All, Contains};
ghost use Rattle.components.specs.Orders.{IsTopologicalOrder, HasCycle, IsAcyclic, HasSelfEdge, HasPair, AllDiffer, HasPlaces};
ghost use Rattle.components.specs.Graphs.{Edge};

use crate::components::Components;
use crate::graph::Graph;
use std::alloc::{AllocError, Global};

/// Whether some node is its own successor.
fn has_self_edge(graph: &Graph) -> bool
    ensures some { result ≡ true → HasSelfEdge graph.now }
    ensures none { result ≡ false → (a : ℕ) → ¬ Edge graph.now a a }
    ensures size { length graph.now < 4294967296 }
{
    for node in 0..graph.len() {
        if graph.successors(node).contains(&node) {
            return true;
        }
    }
    false
}

/// Whether no number stands twice in a list of numbers below a count.
fn all_differ(alloc: Global, numbers: &[u32], count: u32) -> Result<bool, AllocError>
    requires { All (λ number. number < count) numbers.now }
    ensures all { IfOk result (λ differ. differ ≡ true → AllDiffer numbers.now count) }
    ensures pair { IfOk result (λ differ. differ ≡ false → HasPair numbers.now) }
{
    let mut seen = vec![in alloc; false; count as usize]?;
    for number in numbers {
        if seen[*number as usize] {
            return Ok(false);
        }
        seen[*number as usize] = true;
    }
    Ok(true)
}

/// For each number below a count its place in a list where no number stands twice.
fn places(alloc: Global, numbers: &[u32], count: u32) -> Result<Vec<u32>, AllocError>
    requires within { All (λ number. number < count) numbers.now }
    requires size { length numbers.now < 4294967296 }
    requires differ { AllDiffer numbers.now count }
    ensures { IfOk result (λ places. HasPlaces numbers.now places.items count (length numbers.now)) }
{
    let mut places = vec![in alloc; 0; count as usize]?;
    for (place, number) in numbers.iter().enumerate() {
        places[*number as usize] = place as u32;
    }
    Ok(places)
}

/// All nodes of a graph, each after its successors: `None` exactly where a walk leads from a node back to
/// it. It takes time and memory in proportion to the nodes and edges.
pub fn topological_order(alloc: Global, graph: &Graph) -> Result<Option<Vec<u32>>, AllocError>
    ensures order { IfOk result (λ found. IfSome found (λ order. IsTopologicalOrder graph.now order.items)) }
    ensures acyclic { IfOk result (λ found. OnSome found (IsAcyclic graph.now)) }
    ensures none { IfOk result (λ found. IfNone found (HasCycle graph.now)) }
{
    if has_self_edge(graph) {
        return Ok(None);
    }
    let components = Components::of(alloc, graph)?;
    let homes = components.home.items();
    if !all_differ(alloc, homes, components.count)? {
        return Ok(None);
    }
    Ok(Some(places(alloc, homes, components.count)?))
}
