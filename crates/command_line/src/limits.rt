//! The greatest numbers that options take.

/// Workers: threads, each of which serves many connections.
pub const MAX_WORKERS: u64 = 64;

/// Places of the table of sets.
pub const MAX_PLACES: u64 = 4096;

/// Records that a server appends to its file.
pub const MAX_RECORDS: u64 = 1 << 40;

/// Connections after which a server ends.
pub const MAX_CONNECTIONS: u64 = 1_000_000;

/// Clients that are served at once.
pub const MAX_CLIENTS: u64 = 64_000;

/// Seconds for which a connection may send or take nothing: a day.
pub const MAX_TIMEOUT: u64 = 86_400;
