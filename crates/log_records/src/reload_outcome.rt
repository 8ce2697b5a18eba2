//! What a reload gives.

ghost use Rattle.std.specs.Prelude.{◌≡◌};
ghost use Rattle.log_records.specs.declared.reload_outcome.ReloadFault.TheVariants as faults;

use std::alloc::AllocError;
use thiserror::Error;

/// What a reload took.
#[derive(Clone, Copy, Debug, PartialEq, Eq)]
pub struct Loaded {
    /// How many records were replayed. A header is none.
    pub records: u64,
    /// The bytes of the whole records, of the header, and of the skips between them.
    pub whole: u64,
    /// The bytes behind them: the torn end of one more record.
    pub torn: u64,
    /// The file's version, 1 or 2: 2 where the first record is the header.
    pub version: u8,
}

/// Why a reload ended before the end of its file. What was replayed before stands.
#[derive(Clone, Copy, Debug, PartialEq, Eq, Error)]
pub enum ReloadFault {
    #[error("out of memory")]
    NoMemory,
    /// The record that begins at this byte, counted from 0, has a byte that no record may have at
    /// its place.
    #[error("the append file is damaged at byte {0}")]
    Damaged(u64),
    #[error("the append file can't be read")]
    ReadFault,
    /// The record that begins at this byte, counted from 0, is no command that changes sets, or is
    /// refused; or in a file of version 2 it is a ZADD with an option.
    #[error("the append file has no command at byte {0}")]
    NotACommand(u64),
    #[error("the append file was read as often as allowed")]
    TooManyReads,
    /// The first record names a version other than 2. Nothing was replayed.
    #[error("the append file is of an unknown version")]
    UnknownVersion,
}

impl From<AllocError> for ReloadFault {
    ghost from_gives = { λ _ fault. fault ≡ faults.NoMemory };

    fn from(_error: AllocError) -> ReloadFault {
        ReloadFault::NoMemory
    }
}
