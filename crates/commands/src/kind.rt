/// What a probe makes of the changes that it is told.
#[derive(Clone, Copy, PartialEq, Eq)]
pub enum Kind {
    /// Each change, one to a line.
    Trace,
    /// How often gates change without need.
    Glitches,
    /// In which round of each tick a gate changed last.
    Last,
    /// A value change dump.
    Vcd,
}
