ghost use Rattle.std.specs.Prelude.{◌≡◌, ◌+◌, ◌<◌, ◌≤◌, ◌++◌, [], ◌∷◌, ◌-◌, Some, None, length, OnOk, IfOk, IfSome, IfNone, slice_get, slice_index, slice_index_or, option_copied, map, IsTrue, ◌↔◌};
ghost use Rattle.std.specs.List.{All, AllPairs};
ghost use Rattle.components.specs.Search.{state_of, mark_of, IsSound, Searching, Following, opened, IsMerged, IsMarked, IsClosedLast, steps_left, Advances, started, Rests, Explores, HasExplored, component_of as component_of_mark};

use crate::graph::Graph;
use std::alloc::{AllocError, Global};

/// What the search knows of a node.
#[derive(Clone, Copy)]
pub(crate) enum Mark {
    New,
    /// On the path, at this place.
    Open(u32),
    /// In this component.
    Closed(u32),
}

/// Where the nodes of a group begin on the path, and its edges among those that wait.
#[derive(Clone, Copy)]
pub(crate) struct Group {
    nodes: usize,
    edges: usize,
}

/// A search for components (Gabow 2000). The path is a list of open nodes in groups. Those of a group are
/// strongly connected, and each group leads to the next. An edge back to an earlier group merges the groups
/// from there on. A group whose edges have all been followed is a component.
pub(crate) struct Search {
    pub(crate) marks: Vec<Mark>,
    path: Vec<u32>,
    /// The targets of edges that leave nodes of the path and haven't been followed, group by group.
    waiting: Vec<u32>,
    groups: Vec<Group>,
    /// How many components are closed.
    pub(crate) count: u32,
}

impl Drop for Search {
    fn drop(self) {
        let Search {
            marks: _,
            path: _,
            waiting: _,
            groups: _,
            count: _,
        } = self;
    }
}

/// Adds a new node to the path, as a group of its own.
fn open(graph: &Graph, search: &mut Search, node: u32) -> Result<(), AllocError>
    requires node { node < length graph.now }
    requires within { node < length search.old.marks.items }
    requires place { length search.old.path.items < 4294967296 }
    ensures { OnOk result (state_of search.new ≡ opened graph.now node (state_of search.old)) }
{
    let place = search.path.as_slice().len();
    search.groups.push(Group {
        nodes: place,
        edges: search.waiting.as_slice().len(),
    })?;
    search.marks[node as usize] = Mark::Open(place as u32);
    search.path.push(node)?;
    search.waiting.extend_from_slice(graph.successors(node))?;
    Ok(())
}

/// Merges the groups that begin past a place of the path into the one before them.
fn merge(groups: &mut Vec<Group>, place: usize)
    ensures { IsMerged groups.old.items groups.new.items place }
{
    while let Some(group) = groups.last().copied() {
        if group.nodes <= place {
            break;
        }
        groups.pop();
    }
}

fn mark_closed(marks: &mut [Mark], nodes: &[u32], number: u32)
    requires { All (λ node. node < length marks.old) nodes.now }
    ensures { IsMarked marks.old marks.new nodes.now number }
{
    for node in nodes {
        marks[*node as usize] = Mark::Closed(number);
    }
}

/// Closes the last group as a component.
fn close(search: &mut Search, group: Group)
    requires nodes { group.nodes ≤ length search.old.path.items }
    requires within { All (λ node. node < length search.old.marks.items) search.old.path.items }
    requires room { search.old.count < 4294967295 }
    requires groups { 0 < length search.old.groups.items }
    ensures { IsClosedLast group (state_of search.old) (state_of search.new) }
{
    mark_closed(&mut search.marks, &search.path[group.nodes..], search.count);
    search.path.truncate(group.nodes);
    search.groups.pop();
    search.count += 1;
}

/// Takes off the last waiting edge of a group whose edges begin here: `None` where it has none left.
fn next_edge(waiting: &mut Vec<u32>, edges: usize) -> Option<u32>
    ensures none { IfNone result ((length waiting.old.items ≤ edges) × (waiting.new.items ≡ waiting.old.items)) }
    ensures some { IfSome result (λ target. (waiting.old.items ≡ waiting.new.items ++ target ∷ []) × (edges ≤ length waiting.new.items)) }
{
    if waiting.as_slice().len() <= edges {
        return None;
    }
    waiting.pop()
}

/// Follows an edge of the last group.
fn follow(graph: &Graph, search: &mut Search, target: u32) -> Result<(), AllocError>
    requires size { length graph.now ≤ 4294967295 }
    requires following { Following graph.now (state_of search.old) target }
    ensures { OnOk result (Advances graph.now (state_of search.old) (state_of search.new)) }
{
    if target as usize >= search.marks.as_slice().len() {
        return Ok(());
    }
    match search.marks[target as usize] {
        Mark::New => open(graph, search, target),
        Mark::Open(place) => {
            merge(&mut search.groups, place as usize);
            Ok(())
        }
        Mark::Closed(_) => Ok(()),
    }
}

/// Follows an edge of the last group, or closes the group where none is left.
fn step(graph: &Graph, search: &mut Search, group: Group) -> Result<(), AllocError>
    requires size { length graph.now ≤ 4294967295 }
    requires searching { Searching graph.now (state_of search.old) }
    requires last { slice_get search.old.groups.items (length search.old.groups.items - 1) ≡ Some group }
    ensures advances { OnOk result (Advances graph.now (state_of search.old) (state_of search.new)) }
    ensures less { OnOk result (steps_left graph.now (state_of search.new) < steps_left graph.now (state_of search.old)) }
{
    match next_edge(&mut search.waiting, group.edges) {
        Some(target) => follow(graph, search, target),
        None => {
            close(search, group);
            Ok(())
        }
    }
}

/// Opens a new node, and takes steps until the path is empty again.
fn explore(graph: &Graph, search: &mut Search, root: u32) -> Result<(), AllocError>
    requires size { length graph.now ≤ 4294967295 }
    requires root { root < length graph.now }
    requires new { mark_of search.old.marks.items root ≡ Mark.New }
    requires rests { Rests graph.now (state_of search.old) }
    ensures { OnOk result (Explores graph.now (state_of search.old) (state_of search.new) root) }
{
    open(graph, search, root)?;
    while let Some(group) = search.groups.last().copied() {
        step(graph, search, group)?;
    }
    Ok(())
}

fn is_new(marks: &[Mark], node: u32) -> bool
    requires { node < length marks.now }
    ensures { IsTrue result ↔ (mark_of marks.now node ≡ Mark.New) }
{
    match marks[node as usize] {
        Mark::New => true,
        Mark::Open(_) => false,
        Mark::Closed(_) => false,
    }
}

fn start(alloc: Global, nodes: u32) -> Result<Search, AllocError>
    ensures { IfOk result (λ search. state_of search ≡ started nodes) }
{
    let marks = vec![in alloc; Mark::New; nodes as usize]?;
    Ok(Search {
        marks,
        path: Vec::new(alloc),
        waiting: Vec::new(alloc),
        groups: Vec::new(alloc),
        count: 0,
    })
}

/// Closes every node of a graph.
pub(crate) fn close_all(alloc: Global, graph: &Graph) -> Result<Search, AllocError>
    ensures { IfOk result (λ search. HasExplored graph.now (state_of search) (length graph.now)) }
{
    let nodes = graph.len();
    let mut search = start(alloc, nodes)?;
    for node in 0..nodes {
        if is_new(&search.marks, node) {
            explore(graph, &mut search, node)?;
        }
    }
    Ok(search)
}

fn component_of(mark: Mark) -> u32
    ensures { result ≡ component_of_mark mark }
{
    match mark {
        Mark::New => 0,
        Mark::Open(_) => 0,
        Mark::Closed(component) => component,
    }
}

/// The component of each node.
pub(crate) fn homes(alloc: Global, marks: &[Mark]) -> Result<Vec<u32>, AllocError>
    ensures { IfOk result (λ homes. homes.items ≡ map component_of_mark marks.now) }
{
    marks.iter().map(|mark| component_of(*mark)).collect(alloc)
}
