//! When a worker yields its processor.

use crate::devices::{Pace, TestClock};
use connections::Yields;
use std::test::*;

/// How many of so many calls yield, by a clock of this pace.
fn yields_among(calls: u32, pace: Pace) -> u32 {
    let clock = TestClock::new(pace);
    let mut yields = Yields::new();
    let mut made = 0u32;
    for _ in 0..calls {
        if yields.yield_now(&clock) {
            made = made.saturating_add(1);
        }
    }
    made
}

/// Clocks, calls, and how many of these yield. Behind a yield of a millisecond there is none for 16, and behind a shorter
/// one for 250 microseconds.
const YIELDS: [(Pace, u32, u32); 9] = [
    (Pace::Runs, 16, 1),
    (Pace::Runs, 17, 2),
    (Pace::Runs, 32, 2),
    (Pace::Runs, 33, 3),
    (Pace::Jogs, 33, 33),
    (Pace::Trots, 10, 1),
    (Pace::Trots, 11, 2),
    (Pace::Stands, 33, 1),
    (Pace::Fails, 33, 0),
];

#[test]
fn a_yield_is_followed_by_a_pause(rt: HostRuntime) {
    for (pace, calls, wanted) in YIELDS {
        let made = yields_among(calls, pace);
        assert!(rt; made == wanted, "{pace:?}: {made} of {calls}");
    }
}
