ghost use Rattle.std.specs.Prelude.{◌≡◌, ◌↔◌, ℕ, ◌≤◌, Bool, List, not, IsTrue};
ghost use Rattle.bdd_store.specs.Arena.{Arena, index, is_marked, complemented, complemented_if, flipped, constant, den, top_of, IsNodeOf, IsBranching};

/// A node of a store: a constant, or a position of its unique table, each with or without a mark. A mark
/// negates the function. The number is twice the index, and one more where there is no mark, as literals are
/// written in AIGER: its last bit is the function's value where all bits are 1. Nodes fill the tables, and this
/// halves them.
#[derive(Clone, Copy, PartialEq, Eq, Hash)]
pub struct Node {
    pub(crate) number: u32,
}

impl Node {
    /// The constant of a truth value, which is a node of each store. False is true with a mark.
    pub fn of(b: bool) -> Node
        ensures constant { result ≡ constant b }
        ensures node { (a : Arena) → IsNodeOf a result }
        ensures value { (a : Arena) (bits : List Bool) → den a result bits ≡ b }
        ensures top { (a : Arena) → top_of a result ≡ a.vars }
    {
        if b {
            Node { number: 1 }
        } else {
            Node { number: 0 }
        }
    }

    /// Whether it has branches: it is no constant.
    pub fn is_branching(self) -> bool
        ensures { IsTrue result ↔ IsBranching self }
    {
        self.number >= 2
    }

    /// Its number, by which nodes with and without a mark differ.
    pub fn number(self) -> u32
        ensures { result ≡ self.number }
    {
        self.number
    }

    /// Its index, which a node has in common with its complement: 0 for the constants, and one more than the
    /// position of its entry.
    pub fn index(self) -> u32
        ensures { result ≡ index self }
    {
        self.number / 2
    }

    /// Whether it has a mark.
    pub fn is_marked(self) -> bool
        ensures { result ≡ is_marked self }
    {
        self.number % 2 == 0
    }

    /// The node of the complement, which shares the entry.
    pub fn complement(self) -> Node
        ensures complement { result ≡ complemented self }
        ensures node { (a : Arena) → IsNodeOf a self → IsNodeOf a result }
        ensures function { (a : Arena) (bits : List Bool) → den a result bits ≡ not (den a self bits) }
        ensures top { (a : Arena) → top_of a result ≡ top_of a self }
    {
        Node {
            number: self.number ^ 1,
        }
    }

    /// The complement where `mark` is true, and itself where it isn't.
    pub fn complement_if(self, mark: bool) -> Node
        ensures complement { result ≡ complemented_if mark self }
        ensures node { (a : Arena) → IsNodeOf a self → IsNodeOf a result }
        ensures function { (a : Arena) (bits : List Bool) → den a result bits ≡ flipped mark (den a self bits) }
        ensures top { (a : Arena) → top_of a result ≡ top_of a self }
    {
        if mark { self.complement() } else { self }
    }
}

/// A choice between two nodes: `b` where `a` is true, and `c` elsewhere.
#[derive(Clone, Copy, PartialEq, Eq, Hash)]
pub struct Choice {
    pub a: Node,
    pub b: Node,
    pub c: Node,
}

/// A variable, and the nodes for its bit at 0 and at 1. The one at 1 has no mark.
#[derive(Clone, Copy, PartialEq, Eq, Hash)]
pub struct Entry {
    pub(crate) var: u32,
    pub(crate) lo: Node,
    pub(crate) hi: Node,
}
