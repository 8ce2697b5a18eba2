//! Sources of which each read fails once: what was read before stays, which no run of the program shows.

ghost use Rattle.std.specs.Prelude.{◌≤◌};

use crate::owners::{Reads, WHOLE_READS, reloads_to};
use crate::records::{LISTING, THREE_RECORDS};
use crate::versions::{A_AT_1, NOTHING};
use append_log::ReloadFault;
use std::test::*;

/// Reads of a whole file, of which so many are made and one fails, and the fault.
const STOPPED: [(u64, u64, ReloadFault); 2] = [
    (1, 0, ReloadFault::TooManyReads),
    (1000, 2, ReloadFault::ReadFault),
];

// It stops behind the first record, which stands whole in the first read of 35 bytes.
#[test]
fn a_reload_stops_at_its_reads(rt: HostRuntime) -> Result<(), Fail> {
    for (most, fails_at, fault) in STOPPED {
        let reads = Reads {
            chunk: 65_536,
            fails_at,
            most,
        };
        let asked = ("ZSCORE k a", "$1~1~ ");
        assert!(rt;
            reloads_to(&rt, THREE_RECORDS, reads, Err(fault), asked)?,
            "{fault}"
        );
    }
    Ok(())
}

const B_AT_2: &str = "*2~$1~b~$1~2~ ";

const BOTH: &str = "*4~$1~a~$1~1~$1~b~$1~2~ ";

/// The listing of k after the records that stand whole in so many bytes of the three.
fn listed_of(bytes: usize) -> &'static str {
    match bytes {
        0..=34 => NOTHING,
        35..=69 => A_AT_1,
        70..=97 => BOTH,
        _ => B_AT_2,
    }
}

/// Whether a reload comes to what it should, and leaves k as the records that were read make it.
fn reads_so_far(rt: &HostRuntime, chunk: usize, fails_at: u64, fails: bool) -> Result<bool, Fail>
    requires some { 1 ≤ chunk }
    requires first { 1 ≤ fails_at }
{
    let reads = Reads {
        chunk,
        fails_at,
        ..WHOLE_READS
    };
    let found = if fails {
        Err(ReloadFault::ReadFault)
    } else {
        Ok((1, 3, 98, 0))
    };
    let listed = listed_of(chunk.saturating_mul(fails_at as usize - 1));
    reloads_to(rt, THREE_RECORDS, reads, found, (LISTING, listed))
}

/// How many bytes a read gives, and how many reads there are where none fails: those of 98 bytes, and the one behind them
/// that finds the end.
const READS: [(usize, u64); 3] = [(1, 99), (3, 34), (7, 15)];

// Each of the reads fails in a run of its own, and none in the last run.
#[test]
fn each_failing_read_leaves_what_was_read(rt: HostRuntime) -> Result<(), Fail> {
    for (chunk, reads) in READS {
        for fails_at in 1..reads.saturating_add(2) {
            let goes_so = reads_so_far(&rt, chunk, fails_at, fails_at <= reads)?;
            assert!(rt; goes_so, "{chunk} bytes a read: read {fails_at}");
        }
    }
    Ok(())
}
