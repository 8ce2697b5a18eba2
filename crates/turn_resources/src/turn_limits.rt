//! How long a turn of a connection may be.

ghost use Rattle.std.specs.Prelude.{◌≡◌, ◌+◌, ◌<◌, ◌^◌, None, false, true, unwrap_or};

use std::time::{Clock, Duration, Instant};

/// How many requests of one connection are run before the others have their turn.
pub const MOST_REQUESTS: u32 = 128;

/// With so many bytes of replies that are on their way a connection's turn ends.
pub const MOST_HELD: usize = 65_536;

/// After so many microseconds a part of a turn ends, with the requests up to the next look at the clock. Between two parts
/// it is looked whether a connection has become ready that comes first.
pub const PART_MICROS: u64 = 25;

/// How many parts a turn has at most.
pub const MOST_PARTS: u32 = 5;

/// So many microseconds a part takes at most where its replies may wait for records that are settled behind it: each such part
/// is a call of the device.
pub const SETTLED_PART_MICROS: u64 = 500;

/// Behind so many parts in a row whose replies waited for none, it is taken that those of a connection do not wait.
pub const UNWAITED_PARTS: u32 = 16;

/// Requests are long that take so many microseconds from one look at the clock to the next: half a part.
const LONG_MICROS: u64 = PART_MICROS / 2;

/// Where requests are short the clock is looked at once for so many: a look takes as long as a tenth of a short one.
const REQUESTS_A_LOOK: u32 = 8;

/// When connections have their turns, and what these are to keep to.
#[derive(Drop)]
pub struct Moment<'c, C> {
    pub clock: &'c C,
    /// When these turns began, where that is asked for.
    pub now: Option<Instant>,
    /// Replies may wait for records that are settled behind these turns.
    pub settles_later: bool,
    /// The turn that is under way ends: nothing more is run in it.
    pub ends_turn: bool,
}

impl<'c, C> Moment<'c, C> {
    /// When turns begin.
    pub fn new(clock: &'c C, now: Option<Instant>, settles_later: bool) -> Self
        ensures now { result.now ≡ now }
        ensures later { result.settles_later ≡ settles_later }
        ensures begins { result.ends_turn ≡ false }
    {
        Moment {
            clock,
            now,
            settles_later,
            ends_turn: false,
        }
    }

    /// For the next part of a turn that has begun, or, where others come first, for its end.
    pub fn further(&self, ends_turn: bool) -> Self
        ensures now { result.now ≡ self.entry.now.now }
        ensures later { result.settles_later ≡ self.entry.now.settles_later }
        ensures ends { result.ends_turn ≡ ends_turn }
    {
        Moment {
            clock: self.clock,
            now: self.now,
            settles_later: self.settles_later,
            ends_turn,
        }
    }
}

/// The time of a part of a turn. Where requests may be long the clock is looked at behind each, so that a part is as long as
/// it may be and one request longer at most.
#[derive(Drop)]
pub struct PartTime<'c, C> {
    clock: &'c C,
    most: Duration,
    /// When it began, and when the clock was looked at last. None where that can't be told.
    looks: Option<(Instant, Instant)>,
    /// The clock is looked at behind the request of this number, counted from the turn's first one, which is 0.
    next: u32,
    /// Requests of the connection may be long.
    may_be_long: bool,
    /// Whether some of this part were, where the clock was looked at.
    were_long: Option<bool>,
}

impl<'c, C: Clock> PartTime<'c, C> {
    /// Of a part that begins now, with the request of this number, and takes so many microseconds.
    pub fn new(clock: &'c C, most_micros: u64, first: u32, may_be_long: bool) -> Self
        ensures unknown { (result.may_be_long ≡ may_be_long) × (result.were_long ≡ None) }
        // The clock is looked at behind the first request where that may be long, else behind the second.
        ensures at_once { may_be_long ≡ true → result.next ≡ first }
        ensures later { may_be_long ≡ false → first + 1 < 2 ^ 32 → result.next ≡ first + 1 }
    {
        PartTime {
            clock,
            most: Duration::from_micros(most_micros),
            looks: Instant::now(clock).ok().map(|now| (now, now)),
            next: if may_be_long {
                first
            } else {
                first.saturating_add(1)
            },
            may_be_long,
            were_long: None,
        }
    }

    /// Whether it is over behind the request of this number, or can't be told.
    pub fn is_over(&mut self, number: u32) -> bool
        // Before the next look it is not.
        ensures early { number < self.old.next → (result ≡ false) × (self.new ≡ self.old) }
        ensures known { self.new.may_be_long ≡ self.old.may_be_long }
    {
        number >= self.next && self.look(number)
    }

    /// Looks at the clock. Whether the time is up, or can't be told.
    fn look(&mut self, number: u32) -> bool
        ensures known { self.new.may_be_long ≡ self.old.may_be_long }
    {
        let (Some((begun, last)), Ok(now)) = (self.looks, Instant::now(self.clock)) else {
            return true;
        };
        self.looks = Some((begun, now));
        self.note_time(number, now.duration_since(last));
        now.duration_since(begun) >= self.most
    }

    /// Notes how long the requests since the last look took, up to the one of this number.
    fn note_time(&mut self, number: u32, took: Duration)
        ensures known { self.new.may_be_long ≡ self.old.may_be_long }
    {
        let were_long = took >= Duration::from_micros(LONG_MICROS) || self.were_long == Some(true);
        let step = if were_long || self.may_be_long {
            1
        } else {
            REQUESTS_A_LOOK - number % REQUESTS_A_LOOK
        };
        self.were_long = Some(were_long);
        self.next = number.saturating_add(step);
    }

    /// Whether the connection's next requests may be long: some of these were, or it is not known.
    pub fn next_may_be_long(&self) -> bool
        ensures { result ≡ unwrap_or self.now.were_long self.now.may_be_long }
    {
        self.were_long.unwrap_or(self.may_be_long)
    }
}
