/// Which signals a user looks at.
#[derive(Clone, Copy, PartialEq, Eq)]
pub enum Observe {
    /// Each gate.
    All,
    /// The outputs, and what the latches load.
    Outputs,
}
