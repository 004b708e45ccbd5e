//! The postorder of a depth-first search, without recursion.

ghost use Rattle.std.specs.Prelude.{◌≡◌, ◌<◌, ◌++◌, ◌∷◌, [], All, OnOk, IfOk, length, map, reverse};
ghost use Rattle.aig_core.specs.Depth.{postorder as postorder_of, HasRanks};
ghost use Rattle.aig_core.specs.Tasks.{visit, node_of, AreWithin, finished, tasks_left, HasMarks, Advances};

use components::Graph;
use std::alloc::{AllocError, Global};

/// What is left to do with a node: to visit it, or to place it behind the nodes that it needs.
#[derive(Clone, Copy)]
pub(crate) enum NodeTask {
    Visit(u32),
    Place(u32),
}

/// The nodes that are placed, in their order.
pub(crate) struct Placed {
    nodes: Vec<u32>,
    /// For each node whether it is placed.
    marks: Vec<bool>,
}

impl Drop for Placed {
    fn drop(self) {
        let Placed { nodes: _, marks: _ } = self;
    }
}

impl Placed {
    fn none(alloc: Global, count: u32) -> Result<Placed, AllocError>
        ensures nodes { IfOk result (λ placed. placed.nodes.items ≡ []) }
        ensures marks { IfOk result (λ placed. HasMarks placed.nodes.items placed.marks.items) }
        ensures width { IfOk result (λ placed. length placed.marks.items ≡ count) }
    {
        let marks = vec![in alloc; false; count as usize]?;
        Ok(Placed {
            nodes: Vec::new(alloc),
            marks,
        })
    }

    fn into_nodes(self) -> Vec<u32>
        ensures { result.items ≡ self.nodes.items }
    {
        let Placed { nodes, marks: _ } = self;
        nodes
    }
}

fn place(placed: &mut Placed, node: u32) -> Result<(), AllocError>
    requires within { node < length placed.old.marks.items }
    requires marks { HasMarks placed.old.nodes.items placed.old.marks.items }
    ensures nodes { OnOk result (placed.new.nodes.items ≡ placed.old.nodes.items ++ node ∷ []) }
    ensures marks { OnOk result (HasMarks placed.new.nodes.items placed.new.marks.items) }
    ensures width { length placed.new.marks.items ≡ length placed.old.marks.items }
{
    placed.marks[node as usize] = true;
    placed.nodes.push(node)?;
    Ok(())
}

/// Adds visits to these nodes, the first of which is taken first.
fn add_visits(tasks: &mut Vec<NodeTask>, nodes: &[u32]) -> Result<(), AllocError>
    ensures { OnOk result (tasks.new.items ≡ tasks.old.items ++ map visit (reverse nodes.now)) }
{
    for node in nodes.iter().rev() {
        tasks.push(NodeTask::Visit(*node))?;
    }
    Ok(())
}

/// Does a task: a node that isn't placed is placed after its successors have been visited.
fn step(
    graph: &Graph,
    placed: &mut Placed,
    tasks: &mut Vec<NodeTask>,
    task: NodeTask,
) -> Result<(), AllocError>
    requires ranks { HasRanks graph.now }
    requires task { node_of task < length graph.now }
    requires tasks { AreWithin (length graph.now) tasks.old.items }
    requires marks { HasMarks placed.old.nodes.items placed.old.marks.items }
    requires width { length placed.old.marks.items ≡ length graph.now }
    ensures advances { OnOk result (Advances graph.now placed.old.nodes.items placed.new.nodes.items (tasks.old.items ++ task ∷ []) tasks.new.items) }
    ensures marks { OnOk result (HasMarks placed.new.nodes.items placed.new.marks.items) }
    ensures width { length placed.new.marks.items ≡ length placed.old.marks.items }
{
    match task {
        NodeTask::Place(node) => place(placed, node),
        NodeTask::Visit(node) => {
            if placed.marks[node as usize] {
                return Ok(());
            }
            tasks.push(NodeTask::Place(node))?;
            add_visits(tasks, graph.successors(node))
        }
    }
}

/// Places the nodes that are needed for these.
fn place_needed(
    alloc: Global,
    graph: &Graph,
    placed: &mut Placed,
    needed: &[u32],
) -> Result<(), AllocError>
    requires ranks { HasRanks graph.now }
    requires needed { All (λ n. n < length graph.now) needed.now }
    requires nodes { placed.old.nodes.items ≡ [] }
    requires marks { HasMarks placed.old.nodes.items placed.old.marks.items }
    requires width { length placed.old.marks.items ≡ length graph.now }
    ensures { OnOk result (placed.new.nodes.items ≡ postorder_of graph.now needed.now) }
{
    let mut tasks = Vec::new(alloc);
    add_visits(&mut tasks, needed)?;
    while let Some(task) = tasks.pop() {
        step(graph, placed, &mut tasks, task)?;
    }
    Ok(())
}

/// The nodes that are needed for these, each behind its successors, in a graph without a loop. It takes time and memory
/// in proportion to the nodes and edges.
pub(crate) fn postorder(
    alloc: Global,
    graph: &Graph,
    needed: &[u32],
) -> Result<Vec<u32>, AllocError>
    requires ranks { HasRanks graph.now }
    requires needed { All (λ n. n < length graph.now) needed.now }
    ensures { IfOk result (λ nodes. nodes.items ≡ postorder_of graph.now needed.now) }
{
    let mut placed = Placed::none(alloc, graph.len())?;
    place_needed(alloc, graph, &mut placed, needed)?;
    Ok(placed.into_nodes())
}
