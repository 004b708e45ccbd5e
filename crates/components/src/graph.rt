ghost use Rattle.std.specs.Prelude.{◌≡◌, ◌≤◌, ◌<◌, ◌++◌, [], ◌∷◌, length, OnOk, OnErr, slice_index, slice_index_or, slice_range};
ghost use Rattle.components.specs.Pieces.{pieces, EndAt};

use std::alloc::{AllocError, Global};
use std::marker::Model;

/// A directed graph. Contracts see it as the list of its nodes' successors: an edge leads from node `a` to
/// node `b` where `b` is a successor of `a` and a node itself. A number that isn't a node's means nothing.
///
/// All successors lie in one list, so a node takes 8 bytes and an edge 4.
pub struct Graph {
    /// Where the successors of each node end. Those of the next node begin there.
    ends: Vec<usize>,
    targets: Vec<u32>,
}

impl Drop for Graph {
    fn drop(self) {
        let Graph {
            ends: _,
            targets: _,
        } = self;
    }
}

impl Model for Graph {
    ghost use Rattle.std.specs.Prelude.{List, ℕ, ◌≤◌, length};
    ghost use Rattle.components.specs.Pieces.{pieces, EndAt};

    ghost Value = { List (List ℕ) };

    ghost view = { λ graph. pieces 0 graph.ends.items graph.targets.items };

    ghost invariant = { λ graph. EndAt 0 graph.ends.items (length graph.targets.items) × (length graph.ends.items ≤ 4294967295) };
}

/// Where the successors of a node begin.
fn start_of(ends: &[usize], node: usize) -> usize
    requires { node < length ends.now }
    ensures { result ≡ slice_index (0 ∷ ends.now) node }
{
    if node == 0 { 0 } else { ends[node - 1] }
}

fn part(targets: &[u32], start: usize, end: usize) -> &[u32]
    requires rises { start ≤ end }
    requires within { end ≤ length targets.now }
    ensures { result.now ≡ slice_range targets.now start end }
{
    &targets[start..end]
}

fn piece<'a>(ends: &[usize], targets: &'a [u32], node: usize) -> &'a [u32]
    requires ends { EndAt 0 ends.now (length targets.now) }
    requires within { node < length ends.now }
    ensures { result.now ≡ slice_index_or (pieces 0 ends.now targets.now) node [] }
{
    part(targets, start_of(ends, node), ends[node])
}

impl Graph {
    /// The graph without nodes.
    pub fn new(alloc: Global) -> Graph
        ensures { result ≡ [] }
    {
        Graph {
            ends: Vec::new(alloc),
            targets: Vec::new(alloc),
        }
    }

    /// How many nodes it has.
    pub fn len(&self) -> u32
        ensures { result ≡ length self.now }
    {
        self.ends.as_slice().len() as u32
    }

    /// Adds a node, whose number is the length before, with these successors. It changes nothing where
    /// memory runs out.
    pub fn add_node(&mut self, successors: &[u32]) -> Result<(), AllocError>
        requires { length self.old < 4294967295 }
        ensures added { OnOk result (self.new ≡ self.old ++ successors.now ∷ []) }
        ensures unchanged { OnErr result (self.new ≡ self.old) }
    {
        let start = self.targets.as_slice().len();
        self.targets.extend_from_slice(successors)?;
        let end = self.targets.as_slice().len();
        if self.ends.push(end).is_err() {
            self.targets.truncate(start);
            return Err(AllocError);
        }
        Ok(())
    }

    /// The successors of a node, as they were given.
    pub fn successors(&self, node: u32) -> &[u32]
        requires { node < length self.now }
        ensures { result.now ≡ slice_index_or self.now node [] }
    {
        piece(&self.ends, &self.targets, node as usize)
    }
}
