//! Logs whose appends leave their syncs to later, settled by a syncer beside them.

ghost use Rattle.std.specs.Prelude.{◌≡◌};

use crate::owners::{AMPLE, Limits, are_logged, log_of, opened};
use append_log::{FuseHandle, Log, LogSink, SyncHandle, Syncer};
use std::cell::Cell;
use std::marker::Brand;
use std::sync::ledger::{Blank, Ledger};
use std::sync::{Mutex, Wait};
use std::test::*;

/// Three of these append a record, each by one call of the sink.
static COMMANDS: [&str; 4] = ["ZADD k 1 a", "ZADD k 2 a", "ZCARD k", "ZADD j 1 a"];

/// How many records are settled, 99 where they can't be.
fn count(settled: Option<u64>) -> u64 {
    settled.unwrap_or(99)
}

/// What a syncer tells that settles the second record, then the third, then none.
fn settled_by<R: Wait, S: LogSink, L: Ledger, H: SyncHandle>(
    rt: &R,
    log: &Mutex<Log<S, L>>,
    syncer: &mut Syncer<H>,
) -> [u64; 3] {
    [
        count(syncer.settle(rt, log, 2)),
        count(syncer.settle(rt, log, 3)),
        count(syncer.settle(rt, log, 0)),
    ]
}

/// What a syncer beside a log of three records tells that settles the second one, then the third, then none, how often
/// it synced, and whether the log is broken then.
fn settled_beside<S: LogSink + Drop, L: Ledger, R: Wait>(
    rt: &R,
    log: Log<S, L>,
    fails_at: u64,
) -> ([u64; 4], bool) {
    let log = Mutex::new(log);
    let syncs = Cell::new(0);
    let mut syncer = Syncer::new(FuseHandle::new(&syncs, fails_at));
    let [second, third, none] = settled_by(rt, &log, &mut syncer);
    let is_broken = log.lock(rt).is_broken();
    drop(log);
    ([second, third, none, syncs.get()], is_broken)
}

const DEFERRED: Limits = Limits {
    is_deferred: true,
    ..AMPLE
};

/// The same of a new owner, whose log leaves its syncs to later.
fn settled_anew<L: Ledger, R: Wait>(
    rt: &R,
    host: &HostRuntime,
    blank: Blank,
    fails_at: u64,
) -> Result<([u64; 4], bool), Fail>
    requires name { blank.name ≡ L.name }
    requires parts { blank.parts ≡ L.parts }
    requires two { blank.parts ≡ 2 }
{
    let mut owner = opened::<L>(host, blank, DEFERRED)?;
    let are_told = are_logged(host.alloc(), &mut owner, &COMMANDS, ":1~ :0~ :1~ :1~ ");
    let settled = settled_beside(rt, log_of(owner), fails_at);
    if are_told? {
        Ok(settled)
    } else {
        Err(Fail::new("other replies"))
    }
}

/// Which sync fails, 0 for none, and what [`settled_beside`] tells then.
const SETTLED: [(u64, ([u64; 4], bool)); 2] = [
    (0, ([3, 3, 3, 1], false)),
    (1, ([99, 99, 0, 1], true)),
];

// One sync is behind all that were appended before it. Behind a failure a syncer syncs no more, and the log takes no
// record.
#[test]
fn a_syncer_settles_all_records_at_once_or_none(rt: HostRuntime) -> Result<(), Fail> {
    for (fails_at, wanted) in SETTLED {
        let told = settled_anew::<Brand, _>(&rt, &rt, Blank::new(2), fails_at)?;
        assert!(rt; told == wanted, "fails at {fails_at}");
    }
    Ok(())
}
