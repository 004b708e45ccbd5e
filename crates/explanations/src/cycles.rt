//! The cycle with the fewest nodes through one node.

ghost use Rattle.std.specs.Prelude.{◌≡◌, ◌≤◌, ◌<◌, ◌↔◌, true, length, Contains, IfOk};
ghost use Rattle.components.specs.Graphs.{successors as successors_of};
ghost use Rattle.explanations.specs.Search.{IsClosing, IsNearer, IsThrough};

use crate::search::{SearchStep, search, step_of, way_back};
use components::Graph;
use cyc_base::Items;
use std::alloc::{AllocError, Global};

/// Whether an edge leads from one node to the other.
fn leads(graph: &Graph, from: u32, to: u32) -> bool
    requires { from < length graph.now }
    ensures { (result ≡ true) ↔ Contains (successors_of graph.now from) to }
{
    graph.successors(from).contains(&to)
}

/// Whether nothing is found yet, or only deeper.
fn is_nearer(best: Option<SearchStep>, depth: u32) -> bool
    ensures { (result ≡ true) ↔ IsNearer best depth }
{
    match best {
        Some(step) => depth < step.depth,
        None => true,
    }
}

/// The node nearest to the root from which an edge leads back to it, with the node's own depth.
fn closing_step(graph: &Graph, root: u32, steps: &[Option<SearchStep>]) -> Option<SearchStep>
    ensures { IsClosing graph.now root steps.now (length graph.now) result }
{
    let mut best: Option<SearchStep> = None;
    for node in 0..graph.len() {
        if let Some(step) = step_of(steps, node) {
            if is_nearer(best, step.depth) && leads(graph, node, root) {
                best = Some(SearchStep {
                    from: node,
                    depth: step.depth,
                });
            }
        }
    }
    best
}

/// A cycle through the root, which is its last node, with the fewest nodes, where one has at most one node
/// more than the limit.
pub(crate) fn shortest_through(
    alloc: Global,
    graph: &Graph,
    root: u32,
    limit: u32,
) -> Result<Option<Items<u32>>, AllocError>
    requires { root < length graph.now }
    ensures { IfOk result (IsThrough graph.now root limit) }
{
    let steps = search(alloc, graph, root, limit)?;
    match closing_step(graph, root, &steps) {
        Some(step) => Ok(Some(Items::of(way_back(alloc, &steps, step.from)?))),
        None => Ok(None),
    }
}
