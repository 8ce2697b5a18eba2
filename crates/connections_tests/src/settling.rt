//! Replies that wait until their records are settled.

ghost use Rattle.std.specs.Prelude.{◌≡◌, None, IfOk};

use crate::devices::{Device, Pace, Sender, TestClock};
use crate::recorded::{Page, Reader, Recorded, Settler};
use crate::scripts::Script;
use connections::{Connections, Settle, Watched};
use resp_wire::{PolledDrain, PolledSource, Reading, Writing};
use session_core::Exec;
use sorted_sets::OneOwner;
use std::alloc::Global;
use std::cell::Cell;
use std::hash::RandomState;
use std::test::*;

/// All connections of a test.
type Held<'h> = Connections<Reading<Sender<'h>>, Writing<Reader<'h>>, Global>;

/// An executor without records.
fn new_recorded(rt: &HostRuntime) -> Result<Recorded, Fail>
    ensures { IfOk result (λ recorded. recorded.owner.next ≡ None) }
{
    Ok(Recorded {
        owner: OneOwner::new(rt.alloc(), RandomState::new(rt)?),
        records: 0,
        told: Cell::new(0),
    })
}

/// Connections to clients that send these, so many bytes at a time. No record is settled.
fn begun<'h>(
    rt: &HostRuntime,
    scripts: &'h [Script<'h>],
    page: &'h Page,
    chunk: usize,
) -> Result<Held<'h>, Fail> {
    let clock = TestClock::new(Pace::Stands);
    let mut held = Connections::new(rt, rt.alloc())?;
    for script in scripts.iter() {
        let device = Device {
            chunk,
            fails_at: 0,
            is_slow: false,
        };
        let sender = Reading::new(Sender::new(&script.bytes, device));
        held.add(&clock, sender, Writing::new(Reader { page }));
    }
    Ok(held)
}

/// How many connections are held after some turns, or fewer until none is, while the time goes so.
fn left<R, E: Exec<R, Global>, S, D, T: Settle<R>>(
    rt: &R,
    held: &mut Connections<S, D, Global>,
    exec: &mut E,
    settler: &T,
    turns_at: (u32, Pace),
) -> usize
where
    S: PolledSource + Watched + Drop,
    D: PolledDrain + Drop,
    requires { E.settled exec.old }
{
    let (turns, pace) = turns_at;
    let clock = TestClock::new(pace);
    for _ in 0..turns {
        if held.count() > 0 {
            held.turn(rt, &clock, exec, settler);
        }
    }
    held.count()
}

/// The same of connections to clients that send these, so many bytes at a time.
fn left_over<E: Exec<HostRuntime, Global>>(
    rt: &HostRuntime,
    scripts: &[Script<'_>],
    chunk: usize,
    exec: &mut E,
    settler: &Settler<'_>,
    turns_at: (u32, Pace),
) -> Result<usize, Fail>
    requires { E.settled exec.old }
{
    let mut held = begun(rt, scripts, settler.page, chunk)?;
    let left = left(rt, &mut held, exec, settler, turns_at);
    drop(held);
    Ok(left)
}

/// The same over an executor without records.
fn left_anew(
    rt: &HostRuntime,
    scripts: &[Script<'_>],
    chunk: usize,
    settler: &Settler<'_>,
    turns_at: (u32, Pace),
) -> Result<usize, Fail> {
    let mut recorded = new_recorded(rt)?;
    let left = left_over(rt, scripts, chunk, &mut recorded, settler, turns_at);
    drop(recorded);
    left
}

/// What leaves in some turns, and how many connections are left then. That many records are settled at a call; None:
/// no record can be.
fn played(
    rt: &HostRuntime,
    scripts: &[Script<'_>],
    chunk: usize,
    most: Option<u64>,
    turns: u32,
) -> Result<(Vec<u8>, usize), Fail> {
    let page = Page::new(rt.alloc());
    let settler = Settler {
        page: &page,
        most,
        settles_later: true,
    };
    let left = left_anew(rt, scripts, chunk, &settler, (turns, Pace::Stands))?;
    Ok((page.text(rt.alloc())?, left))
}

/// Clients that each send their requests once.
fn clients<'r>(alloc: Global, requests: &[&'r [&'r str]]) -> Result<Vec<Script<'r>>, Fail> {
    let mut scripts = Vec::new(alloc);
    for requests in requests.iter() {
        scripts.push(Script::new(alloc, *requests, 1)?)?;
    }
    Ok(scripts)
}

/// What clients send, so many bytes at a time, how many records are settled at a call, and how many turns there are; what
/// leaves in these, and how many connections are left then.
struct Course {
    requests: &'static [&'static [&'static str]],
    chunk: usize,
    most: Option<u64>,
    turns: u32,
    text: &'static [u8],
    left: usize,
}

/// Whether that leaves.
fn is_told(rt: &HostRuntime, course: &Course) -> Result<bool, Fail> {
    let scripts = clients(rt.alloc(), course.requests)?;
    let played = played(rt, &scripts, course.chunk, course.most, course.turns);
    drop(scripts);
    let (text, left) = played?;
    Ok(text.as_slice() == course.text && left == course.left)
}

static SETTLED_AT_ONCE: Course = Course {
    requests: &[&["ZADD k 1 a"], &["PING"]],
    chunk: 65_536,
    most: Some(1),
    turns: 1,
    text: b"+PONG\r\n[1]:1\r\n",
    left: 2,
};

#[test]
fn a_change_is_told_once_it_is_settled(rt: HostRuntime) -> Result<(), Fail> {
    assert!(rt; is_told(&rt, &SETTLED_AT_ONCE)?);
    Ok(())
}

// Each turn reads 14 bytes: a PING, and in the third turn the last of the change.
static NEVER_SETTLED: Course = Course {
    requests: &[&["ZADD k 1 a"], &["PING", "PING", "PING", "PING", "PING"]],
    chunk: 14,
    most: None,
    turns: 4,
    text: b"+PONG\r\n+PONG\r\n+PONG\r\n[1]+PONG\r\n",
    left: 1,
};

#[test]
fn what_is_never_settled_is_never_told(rt: HostRuntime) -> Result<(), Fail> {
    assert!(rt; is_told(&rt, &NEVER_SETTLED)?);
    Ok(())
}

static ALL_OF_A_ROUND: Course = Course {
    requests: &[&["ZADD k 1 a"], &["ZADD k 1 a"], &["ZADD k 2 b"]],
    chunk: 65_536,
    most: Some(3),
    turns: 1,
    text: b"[1]:1\r\n:0\r\n:1\r\n",
    left: 3,
};

#[test]
fn one_call_settles_a_round(rt: HostRuntime) -> Result<(), Fail> {
    assert!(rt; is_told(&rt, &ALL_OF_A_ROUND)?);
    Ok(())
}

/// Whether what leaves behind a change and a fault of the protocol begins so, and ends there just where no record can be
/// settled.
fn begins(rt: &HostRuntime, most: Option<u64>, wanted: &[u8]) -> Result<bool, Fail> {
    let mut scripts = clients(rt.alloc(), &[&["ZADD k 1 a"]])?;
    for script in scripts.iter_mut() {
        script.bytes.extend_from_slice(b"*x\r\n")?;
    }
    let played = played(rt, &scripts, 65_536, most, 1);
    drop(scripts);
    let (text, left) = played?;
    let goes_on = text.len() > wanted.len();
    Ok(text.starts_with(wanted) && goes_on == most.is_some() && left == 0)
}

// A fault of the protocol ends a session, which sends all replies on then.
#[test]
fn a_fault_behind_a_change_waits_with_it(rt: HostRuntime) -> Result<(), Fail> {
    assert!(rt; begins(&rt, None, b"[1]")?, "unsettled");
    assert!(rt; begins(&rt, Some(1), b"[1]:1\r\n-ERR ")?, "settled");
    Ok(())
}

/// PINGs and, behind them, 60 changes, all at once.
fn pings_and_changes(alloc: Global, pings: usize) -> Result<Script<'static>, Fail> {
    let mut script = Script::new(alloc, &["PING"], pings)?;
    let changes = Script::new(alloc, &["ZADD k 1 a"], 60)?;
    let extended = script.bytes.extend_from_slice(&changes.bytes);
    drop(changes);
    match extended {
        Ok(()) => Ok(script),
        Err(_) => {
            drop(script);
            Err(Fail::new("no memory"))
        }
    }
}

/// How often a byte is among others.
fn count_of(byte: u8, bytes: &[u8]) -> usize {
    let mut count = 0usize;
    for other in bytes {
        if *other == byte {
            count = count.saturating_add(1);
        }
    }
    count
}

/// How many times records are settled while these are answered. Each look at the clock is 25 microseconds after the look
/// before.
fn settled_times(rt: &HostRuntime, settles_later: bool, pings: usize) -> Result<usize, Fail> {
    let page = Page::new(rt.alloc());
    let settler = Settler {
        page: &page,
        most: Some(0),
        settles_later,
    };
    let scripts = [pings_and_changes(rt.alloc(), pings)?];
    let left = left_anew(rt, &scripts, 65_536, &settler, (100, Pace::Trots));
    drop(scripts);
    left?;
    let text = page.text(rt.alloc())?;
    if count_of(b':', &text) != 60 {
        return Err(Fail::new("not all were answered"));
    }
    Ok(count_of(b'[', &text))
}

/// Whether records are settled later, PINGs before 60 changes, and how many times records are settled. Half a millisecond
/// has 20 requests, and a part of a turn else one. A turn of five parts without a change counts as six, since its end is one,
/// and behind 16 a part is short, until a change comes.
const SETTLED: [(bool, usize, usize); 4] = [
    (true, 0, 3),
    (true, 260, 3),
    (true, 280, 4),
    (false, 0, 60),
];

#[test]
fn changes_that_are_settled_later_share_a_settlement(rt: HostRuntime) -> Result<(), Fail> {
    for (settles_later, pings, wanted) in SETTLED {
        let times = settled_times(&rt, settles_later, pings)?;
        assert!(rt; times == wanted, "{settles_later}, {pings}: {times}");
    }
    Ok(())
}
