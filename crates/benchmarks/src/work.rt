ghost use Rattle.std.specs.Prelude.{IsTrue};
ghost use Rattle.bdd_store.specs.Arena.{IsNodeOf};

use bdd_ops::Diagrams;
use bdd_store::Node;
use cyc_base::MAX_NODES;
use std::alloc::{AllocError, Global};

/// Diagrams, how many operations there were since their start, and whether each gave its node. An operation that
/// gives none answers the constant 0: where memory or room runs out, at a node of other diagrams, and at a variable
/// that there is not.
pub struct Work {
    diagrams: Diagrams,
    operations: u64,
    is_whole: bool,
}

impl Drop for Work {
    fn drop(self) {
        let Work {
            diagrams: _,
            operations: _,
            is_whole: _,
        } = self;
    }
}

impl Work {
    /// Without variables.
    pub fn new(alloc: Global) -> Result<Work, AllocError> {
        let diagrams = Diagrams::new(alloc, 0, MAX_NODES)?;
        Ok(Work {
            diagrams,
            operations: 0,
            is_whole: true,
        })
    }

    /// Begins anew with so many variables.
    pub fn start(&mut self, vars: u32) {
        self.operations = 0;
        self.is_whole = self.diagrams.start(vars, MAX_NODES).is_ok();
    }

    pub fn nodes(&self) -> u32 {
        self.diagrams.store().count()
    }

    pub fn operations(&self) -> u64 {
        self.operations
    }

    pub fn is_whole(&self) -> bool {
        self.is_whole
    }

    fn has(&self, n: Node) -> bool
        ensures { IsTrue result → IsNodeOf self.now.diagrams n }
    {
        self.diagrams.store().contains(n)
    }

    // Counts an operation, and answers its node.
    fn counted(&mut self, answer: Option<Node>) -> Node {
        self.operations = self.operations.wrapping_add(1);
        self.is_whole = self.is_whole && answer.is_some();
        answer.unwrap_or(Node::of(false))
    }

    pub fn var(&mut self, v: u32) -> Node {
        let answer = if v < self.diagrams.store().vars() {
            self.diagrams.var(v).ok()
        } else {
            None
        };
        self.counted(answer)
    }

    pub fn not(&mut self, a: Node) -> Node {
        let answer = if self.has(a) {
            self.diagrams.not(a).ok()
        } else {
            None
        };
        self.counted(answer)
    }

    pub fn and(&mut self, a: Node, b: Node) -> Node {
        let answer = if self.has(a) && self.has(b) {
            self.diagrams.and(a, b).ok()
        } else {
            None
        };
        self.counted(answer)
    }

    pub fn or(&mut self, a: Node, b: Node) -> Node {
        let answer = if self.has(a) && self.has(b) {
            self.diagrams.or(a, b).ok()
        } else {
            None
        };
        self.counted(answer)
    }

    pub fn xor(&mut self, a: Node, b: Node) -> Node {
        let answer = if self.has(a) && self.has(b) {
            self.diagrams.xor(a, b).ok()
        } else {
            None
        };
        self.counted(answer)
    }

    pub fn ite(&mut self, a: Node, b: Node, c: Node) -> Node {
        let answer = if self.has(a) && self.has(b) && self.has(c) {
            self.diagrams.ite(a, b, c).ok()
        } else {
            None
        };
        self.counted(answer)
    }
}
