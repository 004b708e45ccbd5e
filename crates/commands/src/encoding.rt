/// The forms of AIGER in which a graph is written.
#[derive(Clone, Copy, PartialEq, Eq, Drop)]
pub enum Encoding {
    /// Lines of decimal numbers, `aag`.
    Ascii,
    /// The ANDs as bytes, `aig`.
    Binary,
}
