/// How loops and explanations are told.
#[derive(Clone, Copy, PartialEq, Eq, Drop)]
pub enum Form {
    /// As lines.
    Lines,
    /// As a graph in the DOT language of Graphviz.
    Dot,
}
