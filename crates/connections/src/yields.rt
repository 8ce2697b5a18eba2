//! A worker that gives its processor up between turns.

ghost use Rattle.std.specs.Prelude.{◌≡◌, ◌*◌, ◌≤◌, ◌<◌, min, false};
ghost use Rattle.std.specs.Duration.{as_nanos, max_nanos};

use std::time::{Clock, Duration, Instant};

/// A yield of so many milliseconds or more is long: others use the processor for as long as the system lets them.
const LONG_MILLIS: u64 = 1;

/// Behind a long yield there is none for so many times as long as it took.
const PAUSE_FACTOR: u32 = 16;

/// Behind another there is none for so many microseconds: each costs a call of the system.
const PAUSE_MICROS: u64 = 250;

/// For how long there is no yield behind one that took so long.
fn pause_behind(took: Duration) -> Duration
    ensures short { as_nanos took < LONG_MILLIS * 1_000_000 → as_nanos result ≡ PAUSE_MICROS * 1_000 }
    ensures long { LONG_MILLIS * 1_000_000 ≤ as_nanos took → as_nanos result ≡ min (as_nanos took * PAUSE_FACTOR) max_nanos }
{
    if took < Duration::from_millis(LONG_MILLIS) {
        Duration::from_micros(PAUSE_MICROS)
    } else {
        took.saturating_mul(PAUSE_FACTOR)
    }
}

/// When a worker yields its processor.
///
/// A worker whose clients pipeline never waits. The system lets such a thread run for some milliseconds, and then another
/// for as long, and meanwhile a client that asks seldom gets no reply. A yield lets those run at once that wait for the
/// processor: mostly clients, which soon wait for replies again. Other programs may use it for as long as they are let,
/// as a long yield shows. A worker that yielded again and again would get little of it then, so it goes on for a time
/// without.
#[derive(Clone, Copy, Debug)]
pub struct Yields {
    /// When the last one ended.
    ended: Option<Instant>,
    /// For how long there is none behind it.
    pause: Duration,
}

impl Yields {
    /// None was made yet.
    pub fn new() -> Self {
        Yields {
            ended: None,
            pause: Duration::ZERO,
        }
    }

    /// Whether the pause behind the last one is over.
    fn is_due(&self, now: Instant) -> bool {
        match self.ended {
            Some(ended) => now.duration_since(ended) >= self.pause,
            None => true,
        }
    }

    /// Lets those run that wait for the processor, by sched_yield(2), if that is due. Whether it was.
    pub fn yield_now<C: Clock>(&mut self, clock: &C) -> bool
        // Else nothing changes.
        ensures { result ≡ false → self.new ≡ self.old }
    {
        let Ok(begun) = Instant::now(clock) else {
            return false;
        };
        if !self.is_due(begun) {
            return false;
        }
        let _ = libc::sched_yield();
        let ended = Instant::now(clock).unwrap_or(begun);
        self.ended = Some(ended);
        self.pause = pause_behind(ended.duration_since(begun));
        true
    }
}
