ghost use Rattle.std.specs.Prelude.{◌≡◌};
ghost use Rattle.aig_core.specs.Graphs.{complement as complement_of};

/// An edge of a graph: twice the number of a variable, and one more for the complement. So 0 is false, and 1 is true.
#[derive(Clone, Copy, PartialEq, Eq, Hash)]
pub struct Edge(pub u32);

impl Edge {
    /// The edge of the complement.
    pub fn complement(self) -> Edge
        ensures { result ≡ complement_of self }
    {
        Edge(self.0 ^ 1)
    }
}

/// The AND of two edges.
#[derive(Clone, Copy, PartialEq, Eq, Hash)]
pub struct And {
    pub greater: Edge,
    pub smaller: Edge,
}
