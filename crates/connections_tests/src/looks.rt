//! How often the clock is looked at.

use crate::devices::{Device, Pace, Sender, Taker, TestClock};
use crate::model::MOST_TURNS;
use crate::scripts::Script;
use connections::{Buffers, Moment, Next, Visit};
use resp_wire::{PolledDrain, PolledSource, Reading, Writing};
use session_core::Exec;
use sorted_sets::OneOwner;
use std::alloc::Global;
use std::hash::RandomState;
use std::test::*;

/// Gives a connection turns, by this clock, and tells whether it ends.
fn ends<R, E: Exec<R, Global>, S: PolledSource, D: PolledDrain>(
    rt: &R,
    clock: &TestClock,
    exec: &mut E,
    buffers: &mut Buffers<Global>,
    visit: &mut Visit<S, D, Global>,
) -> bool
    requires { E.settled exec.old }
{
    let moment = Moment::new(clock, None, false);
    for _ in 0..MOST_TURNS {
        if visit.turn(rt, &moment, buffers, exec, u64::MAX) == Next::Ends {
            return true;
        }
    }
    false
}

/// The same of the connection of a client that sends these at once.
fn is_served<R, E: Exec<R, Global>>(
    rt: &R,
    alloc: Global,
    clock: &TestClock,
    script: &Script<'_>,
    exec: &mut E,
) -> Result<bool, Fail>
    requires { E.settled exec.old }
{
    let mut buffers = Buffers::new(alloc)?;
    let device = Device {
        chunk: 65_536,
        fails_at: 0,
        is_slow: false,
    };
    let mut taken = Vec::new(alloc);
    let source = Reading::new(Sender::new(&script.bytes, device));
    let drain = Writing::new(Taker::new(&mut taken, device));
    let mut visit = Visit::new(alloc, source, drain, false);
    let ends = ends(rt, clock, exec, &mut buffers, &mut visit);
    drop(visit);
    drop(buffers);
    Ok(ends)
}

/// How often the clock is looked at while a connection that sends so many PINGs at once is served.
fn looks_behind(rt: &HostRuntime, pace: Pace, requests: usize) -> Result<u64, Fail> {
    let alloc = rt.alloc();
    let script = Script::new(alloc, &["PING"], requests)?;
    let mut owner = OneOwner::new(alloc, RandomState::new(rt)?);
    let clock = TestClock::new(pace);
    let is_served = is_served(rt, alloc, &clock, &script, &mut owner);
    drop(owner);
    drop(script);
    if is_served? {
        Ok(clock.looks())
    } else {
        Err(Fail::new("no end"))
    }
}

/// Paces, PINGs, and how often the clock is looked at: in each turn of 128 once at its beginning; behind each request of
/// the first turn, and of one behind a turn that had long requests; else behind the second and each eighth after the first, up
/// to a long one, and behind each that follows.
const LOOKS: [(Pace, usize, u64); 5] = [
    (Pace::Stands, 1, 1 + 1),
    (Pace::Stands, 128, (1 + 128) + 1),
    (Pace::Stands, 300, (1 + 128) + (1 + 1 + 15) + (1 + 1 + 5)),
    (Pace::Trips(4), 300, (1 + 128) + (1 + 128) + (1 + 1 + 5)),
    (
        Pace::Trips(132),
        300,
        (1 + 128) + (1 + 1 + 1 + 119) + (1 + 44),
    ),
];

#[test]
fn the_clock_is_looked_at_behind_each_request_that_may_be_long(
    rt: HostRuntime,
) -> Result<(), Fail> {
    for (pace, requests, wanted) in LOOKS {
        let looks = looks_behind(&rt, pace, requests)?;
        assert!(rt; looks == wanted, "{pace:?}, {requests}: {looks} looks");
    }
    Ok(())
}
