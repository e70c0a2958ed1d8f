//! The limits of a message and of a grid.

/// The most octets that a message has.
pub const MOST_OCTETS: usize = 134_217_728;

/// The most cells that a grid has in a row or a column.
pub const MOST_SIDE: u32 = 16_384;

/// The most cells that a grid has.
pub const MOST_CELLS: u32 = 33_554_432;
