//! A search in breadth from one node, level by level.

ghost use Rattle.std.specs.Prelude.{◌≡◌, ◌+◌, ◌<◌, ◌↔◌, [], ◌∷◌, true, length, replicate, slice_set, All, IfOk, OnOk, IfSome, IfNone, Some, None};
ghost use Rattle.components.specs.Graphs.{successors as successors_of};
ghost use Rattle.explanations.specs.Search.{step_at, IsNew, IsPlaced, Grown, LeadsTo, HasVisited, IsNextLevel, IsSearch, IsRooted, ComesFrom, IsFirst, IsWayBack};

use components::Graph;
use std::alloc::{AllocError, Global};

/// How a search came to a node.
#[derive(Clone, Copy, PartialEq, Eq)]
pub(crate) struct SearchStep {
    /// The node before it. For the root it is the root itself.
    pub from: u32,
    /// How many edges lead from the root to the node.
    pub depth: u32,
}

/// How the search came to a node, if it did.
pub(crate) fn step_of(steps: &[Option<SearchStep>], node: u32) -> Option<SearchStep>
    ensures { result ≡ step_at steps.now node }
{
    match steps.get(node as usize) {
        Some(step) => *step,
        None => None,
    }
}

/// Whether this is a node to which the search hasn't come.
fn is_new(steps: &[Option<SearchStep>], node: u32) -> bool
    ensures { (result ≡ true) ↔ IsNew steps.now node }
{
    (node as usize) < steps.len() && step_of(steps, node).is_none()
}

/// Comes from a node to this one, where it is new.
fn visit(
    target: u32,
    from: u32,
    depth: u32,
    steps: &mut [Option<SearchStep>],
    found: &mut Vec<u32>,
) -> Result<(), AllocError>
    ensures grown { OnOk result (Grown (LeadsTo from target) depth steps.old steps.new found.old.items found.new.items) }
    ensures placed { OnOk result (target < length steps.old → IsPlaced steps.new target) }
{
    if !is_new(steps, target) {
        return Ok(());
    }
    steps[target as usize] = Some(SearchStep { from, depth });
    found.push(target)?;
    Ok(())
}

/// Comes from a node to those of these that are new.
fn visit_all(
    targets: &[u32],
    from: u32,
    depth: u32,
    steps: &mut [Option<SearchStep>],
    found: &mut Vec<u32>,
) -> Result<(), AllocError>
    ensures { OnOk result (HasVisited from targets.now (length targets.now) depth steps.old steps.new found.old.items found.new.items) }
{
    for target in targets {
        visit(*target, from, depth, steps, found)?;
    }
    Ok(())
}

/// Comes from the nodes of a level to their successors that are new, which are the next level.
fn next_level(
    alloc: Global,
    graph: &Graph,
    level: &[u32],
    depth: u32,
    steps: &mut [Option<SearchStep>],
) -> Result<Vec<u32>, AllocError>
    requires nodes { All (λ node. node < length graph.now) level.now }
    requires size { length steps.old ≡ length graph.now }
    ensures { IfOk result (λ next. IsNextLevel graph.now level.now (length level.now) depth steps.old steps.new next.items) }
{
    let mut next = Vec::new(alloc);
    for node in level {
        visit_all(graph.successors(*node), *node, depth, steps, &mut next)?;
    }
    Ok(next)
}

/// A search that has come to its root alone.
fn at_root(alloc: Global, nodes: u32, root: u32) -> Result<Vec<Option<SearchStep>>, AllocError>
    requires { root < nodes }
    ensures { IfOk result (λ steps. steps.items ≡ slice_set (replicate nodes None) root (Some (record { from = root; depth = 0 }))) }
{
    let mut steps = vec![in alloc; None; nodes as usize]?;
    steps[root as usize] = Some(SearchStep {
        from: root,
        depth: 0,
    });
    Ok(steps)
}

fn only(alloc: Global, node: u32) -> Result<Vec<u32>, AllocError>
    ensures { IfOk result (λ list. list.items ≡ node ∷ []) }
{
    let mut list = Vec::new(alloc);
    list.push(node)?;
    Ok(list)
}

/// The nodes that the root reaches by at most so many edges, each with the fewest that lead to it.
pub(crate) fn search(
    alloc: Global,
    graph: &Graph,
    root: u32,
    limit: u32,
) -> Result<Vec<Option<SearchStep>>, AllocError>
    requires { root < length graph.now }
    ensures { IfOk result (λ steps. IsSearch graph.now root limit steps.items) }
{
    let mut steps = at_root(alloc, graph.len(), root)?;
    let mut level = only(alloc, root)?;
    let mut depth = 0;
    while depth < limit {
        let next = next_level(alloc, graph, &level, depth + 1, &mut steps)?;
        if next.is_empty() {
            return Ok(steps);
        }
        level = next;
        depth += 1;
    }
    Ok(steps)
}

/// The node from which the search came to this one, if it isn't the root.
fn node_before(steps: &[Option<SearchStep>], node: u32) -> Option<u32>
    ensures some { IfSome result (ComesFrom steps.now node) }
    ensures none { IfNone result (IsFirst steps.now node) }
{
    match step_of(steps, node) {
        Some(step) if step.depth > 0 => Some(step.from),
        _ => None,
    }
}

/// The nodes by which the search came to this one, from it back to the root.
pub(crate) fn way_back(
    alloc: Global,
    steps: &[Option<SearchStep>],
    node: u32,
) -> Result<Vec<u32>, AllocError>
    requires { IsRooted steps.now }
    ensures { IfOk result (λ way. IsWayBack steps.now node way.items) }
{
    let mut way = only(alloc, node)?;
    let mut at = node;
    while let Some(from) = node_before(steps, at) {
        way.push(from)?;
        at = from;
    }
    Ok(way)
}
