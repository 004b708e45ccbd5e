/// The greatest length of a file, in bytes.
pub const MAX_FILE_BYTES: usize = 67_108_864;

/// The most pins of a cover.
pub const MAX_PINS: usize = 1_024;

/// The most gates, latches and instances of a flat netlist, counted together.
pub const MAX_FLAT_ITEMS: u32 = 4_000_000;

/// How deep an instance may lie: one of the top model is 1 deep.
pub const MAX_DEPTH: u32 = 200;

/// The most gates and latches of a rewritten netlist, counted together.
pub const MAX_REWRITTEN_ITEMS: u32 = 4_000_000;

/// The least limit of nodes that a user may set.
pub const MIN_NODES: u32 = 1;

/// The greatest limit of the nodes of a store.
pub const MAX_NODES: u32 = 50_000_000;

/// The limit of nodes where the user sets none.
pub const DEFAULT_NODES: u32 = 8_000_000;

/// The least number of cells of the ring that the tool makes.
pub const MIN_RING_CELLS: u32 = 2;

/// The greatest number of cells of the ring that the tool makes.
pub const MAX_RING_CELLS: u32 = 64;
