// The statuses of a call.

/// Done, or accepted, or equal.
pub const DONE: u8 = 0;
/// The netlist is refused, or two aren't equal.
pub const REFUSED: u8 = 1;
/// The words aren't in the grammar.
pub const USAGE: u8 = 2;
/// A file has a fault.
pub const FAULT: u8 = 3;
/// A file wasn't read.
pub const READ_FAILED: u8 = 4;
/// A write failed.
pub const WRITE_FAILED: u8 = 5;
/// The limit of nodes was met.
pub const LIMIT_REACHED: u8 = 6;
/// No memory was found.
pub const NO_MEMORY: u8 = 7;
/// The result would be too large.
pub const TOO_LARGE: u8 = 8;
