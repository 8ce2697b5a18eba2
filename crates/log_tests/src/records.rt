//! Logs over memory: what a full one refuses, and how records are reloaded.

ghost use Rattle.std.specs.Prelude.{◌≡◌};

use crate::owners::{
    AMPLE, Found, Limits, Logged, Sink, WHOLE_READS, are_logged, log_of, opened, reloads_to,
};
use crate::versions;
use append_log::ReloadFault;
use std::alloc::Global;
use std::marker::Brand;
use std::sync::ledger::{Blank, Ledger};
use std::test::*;

/// Commands over a log of such limits: the replies, the records that were appended, whether the log is broken then, how
/// often its sink was called and the bytes that it has.
#[derive(Clone, Copy)]
struct Case {
    limits: Limits,
    commands: &'static [&'static str],
    replies: &'static str,
    appended: u64,
    is_broken: bool,
    calls: u64,
    bytes: &'static [u8],
}

/// One record alone may be appended. What the full log refuses then leaves the sets, and what changes nothing is answered.
const FULL: Case = Case {
    limits: Limits {
        max_records: 1,
        ..AMPLE
    },
    commands: &[
        "ZADD k 1 a",
        "ZADD k 2 b",
        "ZADD k 1 a",
        "ZREM k a",
        "ZCARD k",
    ],
    replies: ":1~ -ERR 15 append file is full~ :0~ -ERR 15 append file is full~ :1~ ",
    appended: 1,
    is_broken: false,
    calls: 2,
    bytes: RECORD,
};

/// Whether an owner leaves its log as a case says.
fn leaves_log<L: Ledger>(owner: Logged<Sink, L, Global>, case: &Case) -> bool {
    let log = log_of(owner);
    let is_so = (log.appended(), log.is_broken()) == (case.appended, case.is_broken);
    let sink = log.into_sink();
    let is_called = sink.calls() == case.calls;
    let inner = sink.into_inner();
    is_so && is_called && inner.bytes() == case.bytes
}

/// Whether commands come to what their case says.
fn goes_so<L: Ledger>(rt: &HostRuntime, blank: Blank, case: &Case) -> Result<bool, Fail>
    requires name { blank.name ≡ L.name }
    requires parts { blank.parts ≡ L.parts }
    requires two { blank.parts ≡ 2 }
{
    let limits = case.limits;
    if limits.chunk == 0 || limits.max_records == 0 || limits.max_records > 10 {
        return Err(Fail::new("no limits of a log"));
    }
    let mut owner = opened::<L>(rt, blank, limits)?;
    let are_told = are_logged(rt.alloc(), &mut owner, case.commands, case.replies);
    let is_left = leaves_log(owner, case);
    Ok(are_told? && is_left)
}

#[test]
fn a_full_log_refuses_changes(rt: HostRuntime) -> Result<(), Fail> {
    assert!(rt; goes_so::<Brand>(&rt, Blank::new(2), &FULL)?);
    Ok(())
}

pub const LISTING: &str = "ZRANGEBYSCORE k -inf +inf WITHSCORES";

/// ZADD k 1 a, ZADD k 2 b and ZREM k a: records of 35, 35 and 28 bytes.
pub const THREE_RECORDS: &[u8] =
    b"*4\r\n$4\r\nZADD\r\n$1\r\nk\r\n$1\r\n1\r\n$1\r\na\r\n*4\r\n$4\r\nZADD\r\n$1\r\nk\r\n$1\r\n2\r\n$1\r\nb\r\n*3\r\n$4\r\nZREM\r\n$1\r\nk\r\n$1\r\na\r\n";

/// ZADD k 1 a.
const RECORD: &[u8] = b"*4\r\n$4\r\nZADD\r\n$1\r\nk\r\n$1\r\n1\r\n$1\r\na\r\n";

/// The header, of 24 bytes, and behind it ZADD j -3 x and ZADD k 1 B 1 a 1 b.
pub const TWO_SETS_REWRITTEN: &[u8] =
    b"*2\r\n$7\r\nZCRACKD\r\n$1\r\n2\r\n*4\r\n$4\r\nZADD\r\n$1\r\nj\r\n$2\r\n-3\r\n$1\r\nx\r\n*8\r\n$4\r\nZADD\r\n$1\r\nk\r\n$1\r\n1\r\n$1\r\nB\r\n$1\r\n1\r\n$1\r\na\r\n$1\r\n1\r\n$1\r\nb\r\n";

/// The first 80 bytes of the three records.
const CUT: &[u8] =
    b"*4\r\n$4\r\nZADD\r\n$1\r\nk\r\n$1\r\n1\r\n$1\r\na\r\n*4\r\n$4\r\nZADD\r\n$1\r\nk\r\n$1\r\n2\r\n$1\r\nb\r\n*3\r\n$4\r\nZR";

/// The three records, but that a byte of the second is another.
const DAMAGED: &[u8] =
    b"*4\r\n$4\r\nZADD\r\n$1\r\nk\r\n$1\r\n1\r\n$1\r\na\r\n*4\r\n!4\r\nZADD\r\n$1\r\nk\r\n$1\r\n2\r\n$1\r\nb\r\n*3\r\n$4\r\nZREM\r\n$1\r\nk\r\n$1\r\na\r\n";

/// ZADD k 1 a, ZADD k 2 b and ZCARD k, which changes nothing.
const WITH_A_READING: &[u8] =
    b"*4\r\n$4\r\nZADD\r\n$1\r\nk\r\n$1\r\n1\r\n$1\r\na\r\n*4\r\n$4\r\nZADD\r\n$1\r\nk\r\n$1\r\n2\r\n$1\r\nb\r\n*2\r\n$5\r\nZCARD\r\n$1\r\nk\r\n";

/// What stands for no request: it is no record, and counts among the whole bytes.
const SKIPS: &[u8] = b"*0\r\n*-1\r\n";

/// Commands with options, a removal of more than one, what stands for no request, and a torn end: 310 bytes.
const OLD: &[u8] =
    b"*6\r\n$4\r\nZADD\r\n$1\r\nk\r\n$1\r\n1\r\n$1\r\na\r\n$1\r\n2\r\n$1\r\nb\r\n*0\r\n*5\r\n$4\r\nzadd\r\n$1\r\nk\r\n$4\r\nINCR\r\n$2\r\n+5\r\n$1\r\na\r\n*8\r\n$4\r\nZADD\r\n$1\r\nk\r\n$2\r\nGT\r\n$2\r\nCH\r\n$1\r\n1\r\n$1\r\nb\r\n$1\r\n9\r\n$1\r\nc\r\n*4\r\n$4\r\nZADD\r\n$1\r\nj\r\n$4\r\n-1.0\r\n$1\r\nx\r\n*4\r\n$4\r\nZREM\r\n$1\r\nk\r\n$1\r\nb\r\n$1\r\nz\r\n*4\r\n$16\r\nZREMRANGEBYSCORE\r\n$1\r\nk\r\n$2\r\n(6\r\n$4\r\n+inf\r\n*4\r\n$4\r\nZADD\r\n$1\r\nk\r\n";

/// A file in pieces, what it is reloaded as, and the listing of k then.
pub type Reload = (&'static [&'static [u8]], Found, &'static str);

const RELOADS: [Reload; 9] = [
    (&[THREE_RECORDS], Ok((1, 3, 98, 0)), "*2~$1~b~$1~2~ "),
    (&[OLD], Ok((1, 6, 289, 21)), "*2~$1~a~$1~6~ "),
    (
        &[TWO_SETS_REWRITTEN],
        Ok((2, 2, 123, 0)),
        "*6~$1~B~$1~1~$1~a~$1~1~$1~b~$1~1~ ",
    ),
    (&[b"*4\r\n$4\r"], Ok((1, 0, 0, 7)), "*0~ "),
    (&[CUT], Ok((1, 2, 70, 10)), "*4~$1~a~$1~1~$1~b~$1~2~ "),
    (&[DAMAGED], Err(ReloadFault::Damaged(35)), "*2~$1~a~$1~1~ "),
    (
        &[WITH_A_READING],
        Err(ReloadFault::NotACommand(70)),
        "*4~$1~a~$1~1~$1~b~$1~2~ ",
    ),
    (&[SKIPS], Ok((1, 0, 9, 0)), "*0~ "),
    (&[], Ok((1, 0, 0, 0)), "*0~ "),
];

/// Whether a file is reloaded so.
fn is_reloaded(rt: &HostRuntime, reload: &Reload) -> Result<bool, Fail> {
    let (pieces, found, listed) = *reload;
    let mut bytes = Vec::new(rt.alloc());
    for piece in pieces {
        bytes.extend_from_slice(piece)?;
    }
    reloads_to(rt, &bytes, WHOLE_READS, found, (LISTING, listed))
}

/// How many files are reloaded so, until one is not.
fn reloaded(rt: &HostRuntime, reloads: &[Reload]) -> Result<usize, Fail> {
    for (at, reload) in reloads.iter().enumerate() {
        if !is_reloaded(rt, reload)? {
            return Ok(at);
        }
    }
    Ok(reloads.len())
}

/// Files by what they show.
static THEMES: [(&str, &[Reload]); 3] = [
    ("files that are whole, cut and damaged", &RELOADS),
    ("the first record tells the version", &versions::READ),
    ("what is no effect ends a reload", &versions::NOT_READ),
];

#[test]
fn files_are_reloaded_as_told(rt: HostRuntime) -> Result<(), Fail> {
    for (theme, reloads) in &THEMES {
        let reloaded = reloaded(&rt, reloads)?;
        assert!(rt; reloaded == reloads.len(), "{theme}: case {reloaded}");
    }
    Ok(())
}
