//! Sessions whose changes share their syncs: what leaves, and when, and what does not where a write or a sync fails.

ghost use Rattle.std.specs.Prelude.{◌≡◌, ◌≤◌};

use crate::exchange::write_words;
use append_log::{FuseSink, Log, LogSink, LoggedOwner, MemorySink};
use held_replies::HeldReplies;
use lone_sessions::serve_deferred;
use resp_wire::{ByteDrain, MemoryDrain, MemorySource};
use session_core::{Ended, SessionFault};
use sorted_sets::OneOwner;
use std::alloc::{AllocError, Allocator, Global};
use std::hash::{BuildHasher, RandomState};
use std::marker::Brand;
use std::sync::ledger::{Blank, Ledger};
use std::test::Fail;

/// What a client sends in one session: requests by their words, and bytes behind these that begin no request.
#[derive(Clone, Copy)]
struct Script<'t> {
    requests: &'t [&'t str],
    behind: &'t [u8],
}

/// The bytes of a script.
fn input_of(alloc: Global, script: &Script<'_>) -> Result<Vec<u8>, Fail> {
    let mut input = Vec::new(alloc);
    for words in script.requests {
        write_words(alloc, words, &mut input)?;
    }
    input.extend_from_slice(script.behind)?;
    Ok(input)
}

/// Three changes of one set, each in 35 bytes, and a reading.
const REQUESTS: &[&str] = &["ZADD k 1 a", "ZADD k 2 b", "ZADD k 3 c", "ZCARD k"];

const CHANGES: Script<'static> = Script {
    requests: REQUESTS,
    behind: b"",
};

/// What only reads.
const READINGS: Script<'static> = Script {
    requests: &["ZCARD k", "PING", "ZSCORE k a"],
    behind: b"",
};

/// The changes, and a byte that begins no request.
const CHANGES_AND_A_FAULT: Script<'static> = Script {
    requests: REQUESTS,
    behind: b"?",
};

/// What a session comes to.
#[derive(Drop)]
struct Outcome {
    end: String,
    /// The bytes that left.
    left: Vec<u8>,
    /// How many bytes never left, how many records are settled, and how often the sink was called.
    counts: [u64; 3],
}

/// An owner over a log that leaves its syncs to later.
fn opened<H: BuildHasher + Clone + Drop, S: LogSink, L: Ledger, A: Allocator + Copy>(
    alloc: A,
    hasher: H,
    blank: Blank,
    sink: S,
) -> LoggedOwner<H, S, L, A>
    requires name { blank.name ≡ L.name }
    requires parts { blank.parts ≡ L.parts }
    requires two { blank.parts ≡ 2 }
{
    let log = Log::<_, L>::deferred(blank, sink, 1000);
    LoggedOwner::new(alloc, OneOwner::new(alloc, hasher), log)
}

/// How many records are settled, and how often the sink was called.
fn numbers_of<H: BuildHasher + Clone + Drop, S: LogSink + Drop, L: Ledger, A: Allocator + Copy>(
    owner: LoggedOwner<H, FuseSink<S>, L, A>,
) -> (u64, u64) {
    let (sets, log) = owner.into_parts();
    drop(sets);
    let settled = log.settled();
    let sink = log.into_sink();
    let calls = sink.calls();
    drop(sink);
    (settled, calls)
}

/// How a session ends.
fn told<A: Allocator + Copy>(
    alloc: A,
    end: Result<Ended, SessionFault>,
) -> Result<String<A>, AllocError> {
    match end {
        Ok(ended) => format!(in alloc; "{} requests", ended.requests),
        Err(fault) => format!(in alloc; "{fault}"),
    }
}

/// What a session comes to whose drain took the bytes that left.
fn outcome_of(
    alloc: Global,
    end: Result<Ended, SessionFault>,
    drain: MemoryDrain<Global>,
    counts: [u64; 3],
) -> Result<Outcome, Fail> {
    let left = Vec::from_slice(alloc, drain.flushed());
    drop(drain);
    let left = left?;
    match told(alloc, end) {
        Ok(end) => Ok(Outcome { end, left, counts }),
        Err(error) => {
            drop(left);
            Err(Fail::from(error))
        }
    }
}

/// How a session over an owner and a drain ends, with the drain and its counts.
fn serve<
    R,
    D: ByteDrain + Drop,
    H: BuildHasher + Clone + Drop,
    S: LogSink + Drop,
    L: Ledger,
    A: Allocator + Copy,
>(
    rt: &R,
    alloc: A,
    source: &mut MemorySource<'_>,
    drain: D,
    owner: LoggedOwner<H, FuseSink<S>, L, A>,
) -> (Result<Ended, SessionFault>, D, [u64; 3]) {
    let mut owner = owner;
    let mut replies = HeldReplies::new(alloc, drain);
    let end = serve_deferred(rt, alloc, source, &mut replies, &mut owner);
    let (settled, calls) = numbers_of(owner);
    let (drain, held) = replies.into_parts();
    (end, drain, [held as u64, settled, calls])
}

/// Serves the input in pieces over a new owner, whose sink fails at the call of this number.
fn served<L: Ledger>(
    rt: &HostRuntime,
    blank: Blank,
    input: &[u8],
    piece: usize,
    fails_at: u64,
) -> Result<Outcome, Fail>
    requires name { blank.name ≡ L.name }
    requires parts { blank.parts ≡ L.parts }
    requires two { blank.parts ≡ 2 }
    requires piece { 1 ≤ piece }
{
    let alloc = rt.alloc();
    let hasher = RandomState::new(rt)?;
    let sink = FuseSink::new(MemorySink::new(alloc, 4096), fails_at);
    let owner = opened::<_, _, L, _>(alloc, hasher, blank, sink);
    let mut source = MemorySource::new(input, piece);
    let drain = MemoryDrain::new(alloc, 4096);
    let (end, drain, counts) = serve(rt, alloc, &mut source, drain, owner);
    outcome_of(alloc, end, drain, counts)
}

/// The same, with a ledger of its own.
fn ended(rt: &HostRuntime, input: &[u8], piece: usize, fails_at: u64) -> Result<Outcome, Fail>
    requires { 1 ≤ piece }
{
    served::<Brand>(rt, Blank::new(2), input, piece, fails_at)
}

/// What is served, in pieces of so many bytes, and the call of the sink that fails, 0 for none.
type Given = (Script<'static>, usize, u64);

/// How the session ends, what left or how it begins, and the counts of its outcome.
type Wanted = (&'static str, Left, [u64; 3]);

#[derive(Clone, Copy)]
enum Left {
    Whole(&'static [u8]),
    Begins(&'static [u8]),
}

/// The replies to the changes.
const REPLIES: &[u8] = b":1\r\n:1\r\n:1\r\n:3\r\n";

static CASES: [(Given, Wanted); 9] = [
    // records that came at once share a sync; those that come one by one have one each
    (
        (CHANGES, 4096, 0),
        ("4 requests", Left::Whole(REPLIES), [0, 3, 4]),
    ),
    (
        (CHANGES, 35, 0),
        ("4 requests", Left::Whole(REPLIES), [0, 3, 6]),
    ),
    // what only reads syncs nothing
    (
        (READINGS, 4096, 0),
        (
            "3 requests",
            Left::Whole(b":0\r\n+PONG\r\n$-1\r\n"),
            [0, 0, 0],
        ),
    ),
    // behind a fault of the protocol all replies leave, behind a sync
    (
        (CHANGES_AND_A_FAULT, 4096, 0),
        (
            "ERR protocol 2 not an array",
            Left::Begins(b":1\r\n:1\r\n:1\r\n:3\r\n-"),
            [0, 3, 4],
        ),
    ),
    // a sync that fails keeps all back that it was for: the first read's, or the second's
    (
        (CHANGES, 4096, 4),
        (
            "the drain failed after 16 bytes",
            Left::Whole(b""),
            [16, 0, 4],
        ),
    ),
    (
        (CHANGES, 35, 4),
        (
            "the drain failed after 8 bytes",
            Left::Whole(b":1\r\n"),
            [4, 1, 4],
        ),
    ),
    // the reply of 30 bytes that tells a fault is kept back too
    (
        (CHANGES_AND_A_FAULT, 4096, 4),
        (
            "the drain failed after 46 bytes",
            Left::Whole(b""),
            [46, 0, 4],
        ),
    ),
    // a log that could not write a record is not synced: what waits then never leaves
    (
        (CHANGES, 4096, 2),
        (
            "the drain failed after 72 bytes",
            Left::Whole(b""),
            [72, 0, 2],
        ),
    ),
    // where nothing waits, all leaves
    (
        (CHANGES, 4096, 1),
        (
            "4 requests",
            Left::Begins(b"-ERR 16 append file failed\r\n-ERR 14 "),
            [0, 0, 1],
        ),
    ),
];

/// Whether a session comes to what is wanted.
fn is_as_wanted(outcome: &Outcome, wanted: &Wanted) -> bool {
    let (end, left, counts) = wanted;
    let has_left = match left {
        Left::Whole(bytes) => outcome.left.as_slice() == *bytes,
        Left::Begins(bytes) => outcome.left.starts_with(bytes),
    };
    has_left && outcome.end.as_str() == *end && outcome.counts == *counts
}

/// Whether a session on what is given does.
fn goes_so(rt: &HostRuntime, given: &Given, wanted: &Wanted) -> Result<bool, Fail> {
    let (script, piece, fails_at) = given;
    if *piece == 0 {
        return Err(Fail::new("no piece"));
    }
    let input = input_of(rt.alloc(), script)?;
    let outcome = ended(rt, &input, *piece, *fails_at);
    drop(input);
    let outcome = outcome?;
    let is_as_wanted = is_as_wanted(&outcome, wanted);
    drop(outcome);
    Ok(is_as_wanted)
}

#[test]
fn replies_leave_behind_their_syncs(rt: HostRuntime) -> Result<(), Fail> {
    for (at, (given, wanted)) in CASES.iter().enumerate() {
        assert!(rt; goes_so(&rt, given, wanted)?, "case {at}");
    }
    Ok(())
}

/// An addition of two long members, and then so many listings of them.
fn listings(alloc: Global, times: u64) -> Result<Vec<u8>, Fail> {
    let mut input = Vec::new(alloc);
    let addition = "ZADD k 1 a-member-of-thirty-two-bytes-abc 2 another-of-thirty-two-bytes-abcd";
    write_words(alloc, addition, &mut input)?;
    for _ in 0..times {
        write_words(alloc, "ZRANGEBYSCORE k 1 2", &mut input)?;
    }
    Ok(input)
}

/// Whether a session over three hundred listings leaves their replies whole.
fn are_whole(rt: &HostRuntime, input: &[u8]) -> Result<bool, Fail> {
    let outcome = ended(rt, input, 65_536, 0)?;
    let is_whole = outcome.end.as_str() == "301 requests"
        && outcome.left.len() == 4 + 300 * 82
        && outcome.counts == [0, 1, 2];
    drop(outcome);
    Ok(is_whole)
}

// More replies than are held at once, from one read, leave whole.
#[test]
fn many_replies_leave_whole(rt: HostRuntime) -> Result<(), Fail> {
    let input = listings(rt.alloc(), 300)?;
    let are_whole = are_whole(&rt, &input);
    drop(input);
    assert!(rt; are_whole?);
    Ok(())
}
