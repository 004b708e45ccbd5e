//! The cycle with the fewest nodes of those that a node reaches.

ghost use Rattle.std.specs.Prelude.{◌≡◌, ◌≤◌, ◌<◌, ◌+◌, ◌↔◌, true, length, take, drop, All, Contains, IfOk, IfSome, IfNone};
ghost use Rattle.explanations.specs.Cycles.{IsShortest, ReachesNone};
ghost use Rattle.explanations.specs.Search.{IsBest, IsPlaced, IsSearch, IsNearestOf, IsLimitBelow, IsDeeper, step_at};

use crate::cycles::shortest_through;
use crate::search::{SearchStep, search, step_of, way_back};
use components::Graph;
use cyc_base::Items;
use std::alloc::{AllocError, Global};

/// A cycle, and a way from it to the node that was asked for. An edge leads from each node to the one before
/// it, from the cycle's first node to its last, and from the way's first node to a node of the cycle.
pub(crate) struct ShortCycle {
    pub cycle: Items<u32>,
    /// From behind the cycle to the node that was asked for: nothing where it is on the cycle.
    pub way: Items<u32>,
}

impl ShortCycle {
    /// The cycle and the way.
    pub(crate) fn into_parts(self) -> (Items<u32>, Items<u32>)
        ensures cycle { result.0 ≡ self.cycle }
        ensures way { result.1 ≡ self.way }
    {
        let ShortCycle { cycle, way } = self;
        (cycle, way)
    }
}

impl Drop for ShortCycle {
    fn drop(self) {
        let ShortCycle { cycle: _, way: _ } = self;
    }
}

/// How deep a search must go for a cycle with fewer nodes, where there may be one.
fn limit_below(nodes: u32, best: &Option<Items<u32>>) -> Option<u32>
    ensures { IsLimitBelow nodes best.now result }
{
    match best {
        None => Some(nodes),
        Some(cycle) => match cycle.items().len().checked_sub(2) {
            Some(limit) => Some(u32::try_from(limit).unwrap_or(u32::MAX)),
            None => None,
        },
    }
}

/// The better of the best cycle so far and those through this root.
fn with_root(
    alloc: Global,
    graph: &Graph,
    reached: &[Option<SearchStep>],
    root: u32,
    best: Option<Items<u32>>,
) -> Result<Option<Items<u32>>, AllocError>
    requires root { root < length graph.now }
    requires placed { IsPlaced reached.now root }
    requires best { IsBest graph.now reached.now root best }
    ensures { IfOk result (IsBest graph.now reached.now (root + 1)) }
{
    let Some(limit) = limit_below(graph.len(), &best) else {
        return Ok(best);
    };
    match shortest_through(alloc, graph, root, limit)? {
        Some(cycle) => Ok(Some(cycle)),
        None => Ok(best),
    }
}

/// The cycle with the fewest nodes of those whose last node was reached.
fn best_cycle(
    alloc: Global,
    graph: &Graph,
    reached: &[Option<SearchStep>],
) -> Result<Option<Items<u32>>, AllocError>
    ensures { IfOk result (IsBest graph.now reached.now (length graph.now)) }
{
    let mut best = None;
    for root in 0..graph.len() {
        if step_of(reached, root).is_some() {
            best = with_root(alloc, graph, reached, root, best)?;
        }
    }
    Ok(best)
}

/// Whether the first node was reached by more edges than the second.
fn is_deeper(reached: &[Option<SearchStep>], first: u32, second: u32) -> bool
    ensures { (result ≡ true) ↔ IsDeeper (step_at reached.now first) (step_at reached.now second) }
{
    match (step_of(reached, first), step_of(reached, second)) {
        (Some(first), Some(second)) => second.depth < first.depth,
        _ => false,
    }
}

/// The node of a list that was reached by the fewest edges.
fn nearest(reached: &[Option<SearchStep>], nodes: &[u32]) -> u32
    requires some { 0 < length nodes.now }
    requires placed { All (IsPlaced reached.now) nodes.now }
    ensures { IsNearestOf reached.now nodes.now (length nodes.now) result }
{
    let mut best = nodes[0];
    for node in nodes {
        if is_deeper(reached, best, *node) {
            best = *node;
        }
    }
    best
}

fn behind_first(alloc: Global, nodes: &[u32]) -> Result<Vec<u32>, AllocError>
    requires { 0 < length nodes.now }
    ensures { IfOk result (λ rest. rest.items ≡ drop 1 nodes.now) }
{
    nodes[1..].to_vec(alloc)
}

/// A cycle with the fewest nodes of those that the goal reaches, and the shortest way off it to the goal: `None`
/// exactly where the goal reaches no cycle.
///
/// Each node that the goal reaches is the root of a search that goes no deeper than the best cycle so far
/// lets it, so that where short cycles are found early the work is nearly linear.
pub(crate) fn shortest_cycle(
    alloc: Global,
    graph: &Graph,
    goal: u32,
) -> Result<Option<ShortCycle>, AllocError>
    requires { goal < length graph.now }
    ensures found { IfOk result (λ found. IfSome found (IsShortest graph.now goal)) }
    ensures none { IfOk result (λ found. IfNone found (ReachesNone graph.now goal)) }
{
    let reached = search(alloc, graph, goal, graph.len())?;
    let Some(cycle) = best_cycle(alloc, graph, &reached)? else {
        return Ok(None);
    };
    let start = nearest(&reached, cycle.items());
    let whole = way_back(alloc, &reached, start)?;
    let way = behind_first(alloc, &whole)?;
    Ok(Some(ShortCycle {
        cycle,
        way: Items::of(way),
    }))
}
