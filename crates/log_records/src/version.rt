//! The versions of an append file, and the header that names one.

ghost use Rattle.std.specs.Prelude.{◌≡◌};
ghost use Rattle.log_records.specs.Replay.{is_header as is_header_record, names_version as is_version_record};
ghost use Rattle.log_records.specs.ReloadOutcome.{version_number};

use resp_wire::Request;
use std::alloc::Allocator;

/// How the records of an append file are read. The first record decides.
#[derive(Clone, Copy, Debug, PartialEq, Eq)]
pub enum Version {
    /// Version 1: each record is a command as it was given.
    Commands,
    /// Version 2: behind a header, each record is what a command changed.
    Effects,
}

/// The number of the version that a first record told. A file without a record has version 1.
pub fn number_of(version: Option<Version>) -> u8
    ensures { result ≡ version_number version }
{
    match version {
        Some(Version::Effects) => 2,
        Some(Version::Commands) | None => 1,
    }
}

/// Whether a record names a version: by these very bytes, and one word behind them.
pub fn names_version<A: Allocator>(entry: &Request<A>) -> bool
    ensures { result ≡ is_version_record entry.now }
{
    let words = entry.words();
    words.len() == 2 && words[0].as_slice() == b"ZCRACKD".as_slice()
}

/// Whether a record is the header of version 2.
pub fn is_header<A: Allocator>(entry: &Request<A>) -> bool
    ensures { result ≡ is_header_record entry.now }
{
    let words = entry.words();
    names_version(entry) && words[1].as_slice() == b"2".as_slice()
}
