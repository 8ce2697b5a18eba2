//! The limits of a table.

/// The most places.
pub const MAX_PLACES: usize = 4096;

/// The most passes.
pub const MAX_PASSES: usize = 64;

/// The most runs of a place.
pub const MAX_RUNS: u64 = 1 << 40;
