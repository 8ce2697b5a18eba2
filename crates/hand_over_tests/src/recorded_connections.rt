//! Connections in memory, handed over to recording handlers.

ghost use Rattle.std.specs.Prelude.{◌≡◌, Some, ◌+◌, ◌<◌, ◌≤◌, ◌^◌, IfOk, All, vec_len, ⊤};
ghost use Rattle.hand_over.specs.ArrivalCounts.{came_after, kind_of};

use hand_over::{Arrival, ArrivalKind, Arrivals, Bell, HandedOver, Handler, hand_over};
use std::alloc::{AllocError, Global};
use std::sync::Wait;
use std::sync::atomic::{AtomicU64, Ordering};
use std::thread::Threads;

/// Connections in memory, the numbers from 0 on up to `all`, and then the end, or a fault.
#[derive(Drop)]
struct Row {
    all: u64,
    faults: bool,
    next: u64,
    last: Option<ArrivalKind>,
    is_closed: bool,
}

fn row_of(all: u64, faults: bool) -> Row {
    Row {
        all,
        faults,
        next: 0,
        last: None,
        is_closed: false,
    }
}

impl Arrivals for Row {
    type Conn = u64;

    ghost came = { λ s. s.next };

    ghost last = { λ s. s.last };

    fn arrive(&mut self) -> Arrival<u64>
        ensures came { self.new.next ≡ came_after result self.old.next }
        ensures last { self.new.last ≡ Some (kind_of result) }
    {
        if self.next >= self.all || self.next == u64::MAX {
            if self.faults {
                self.last = Some(ArrivalKind::Failure);
                return Arrival::Fault;
            }
            self.last = Some(ArrivalKind::End);
            return Arrival::Closed;
        }
        let number = self.next;
        self.next += 1;
        self.last = Some(ArrivalKind::Connection);
        Arrival::Came(number)
    }

    fn close(&mut self) {
        self.is_closed = true;
    }
}

/// How long a handler waits at most, in turns of a loop.
const TURNS: u64 = 1_000_000_000;

/// A hand-over: how many connections come, to how many workers, and how many are accepted at most.
#[derive(Clone, Copy)]
struct Course {
    name: &'static str,
    connections: u64,
    workers: u64,
    limit: u64,
    /// Accepting fails behind them.
    faults: bool,
    /// Which connection waits until which other one is handled.
    waits: Option<(u64, u64)>,
    /// Handlers hold connections.
    holds: bool,
}

/// Notes for each connection who handled it, and as which of its connections: `turn_of` its own number and of how many
/// it has handled then. Where its course says so it holds them, and ends one at each third turn.
#[derive(Drop)]
struct Recorder<'f> {
    number: u64,
    course: &'f Course,
    done: &'f [AtomicU64],
    handled: u64,
    late: bool,
    held: usize,
    turns: u64,
}

/// The handler's number from 1 on, and behind it in 32 bits which of its connections it is, from 1 on.
fn turn_of(number: u64, handled: u64) -> u64 {
    number
        .wrapping_add(1)
        .wrapping_mul(4_294_967_296)
        .wrapping_add(handled)
}

impl<'f> Recorder<'f> {
    /// Whether a connection is handled before the turns are used up.
    fn is_done(&self, number: u64) -> bool {
        for _ in 0..TURNS {
            match self.done.get(number as usize) {
                Some(flag) if flag.load(Ordering::SeqCst) == 0 => std::thread::yield_now(),
                _ => return true,
            }
        }
        false
    }

    /// Whether a connection waits for another in vain.
    fn is_late(&self, connection: u64) -> bool {
        match self.course.waits {
            Some((waiting, other)) => waiting == connection && !self.is_done(other),
            None => false,
        }
    }
}

/// No bell: a handler that waits for nobody needs none.
#[derive(Drop)]
struct NoBell;

impl Bell for NoBell {
    fn ring(&self) {}
}

impl<'f> Handler<u64> for Recorder<'f> {
    type Bell = NoBell;

    ghost keeps = { λ before after. ⊤ };

    ghost handled = { λ recorder. recorder.handled };

    ghost reflexive = { λ h. tt };

    ghost transitive = { λ a b c p q. tt };

    fn bell(&self) -> Option<NoBell> {
        None
    }

    fn live(&self) -> usize {
        self.held
    }

    fn turn<R: Wait>(&mut self, _rt: &R)
        ensures keeps { ⊤ }
        ensures handled { self.new.handled ≡ self.old.handled }
    {
        self.turns = self.turns.wrapping_add(1);
        if self.turns.is_multiple_of(3) {
            self.held = self.held.saturating_sub(1);
        }
        std::thread::yield_now();
    }

    fn handle<R: Wait>(&mut self, _rt: &R, connection: u64)
        requires { self.old.handled + 1 < 2 ^ 64 }
        ensures keeps { ⊤ }
        ensures handled { self.new.handled ≡ self.old.handled + 1 }
    {
        self.handled += 1;
        self.late |= self.is_late(connection);
        if self.course.holds {
            self.held = self.held.saturating_add(1);
        }
        if let Some(turn) = self.done.get(connection as usize) {
            turn.store(turn_of(self.number, self.handled), Ordering::SeqCst);
        }
    }
}

/// A handler that holds nothing. By its number, handlers end connections at different turns.
fn recorder_of<'f>(number: u64, done: &'f [AtomicU64], course: &'f Course) -> Recorder<'f>
    ensures { result.handled ≡ 0 }
{
    Recorder {
        number,
        course,
        done,
        handled: 0,
        late: false,
        held: 0,
        turns: number,
    }
}

fn recorders<'f>(
    alloc: Global,
    done: &'f [AtomicU64],
    course: &'f Course,
) -> Result<Vec<Recorder<'f>>, AllocError>
    requires { course.now.workers ≤ 64 }
    ensures { IfOk result
        (λ all. All (λ r. r.handled ≡ 0) all.items × (vec_len all ≡ course.now.workers)) }
{
    let mut all = Vec::new(alloc);
    for number in 0..course.workers {
        all.push(recorder_of(number, done, course))?;
    }
    Ok(all)
}

fn flags(alloc: Global, count: u64) -> Result<Vec<AtomicU64>, AllocError> {
    let mut all = Vec::new(alloc);
    for _ in 0..count {
        all.push(AtomicU64::new(0))?;
    }
    Ok(all)
}

/// Whether a handler handled just the connections of its list, in the order of the list. Each connection is
/// the number that it is to have.
fn are_handled(recorder: &Recorder<'_>, list: &[u64]) -> bool {
    let mut handled = 0u64;
    for connection in list {
        handled = handled.wrapping_add(1);
        match recorder.done.get(*connection as usize) {
            Some(turn) => {
                if turn.load(Ordering::SeqCst) != turn_of(recorder.number, handled) {
                    return false;
                }
            }
            None => return false,
        }
    }
    handled == recorder.handled
}

/// Whether a handler handled its list so, holds nothing any more, and no connection of it waited in vain.
fn has_ended(recorder: &Recorder<'_>, list: &[u64]) -> bool {
    recorder.held == 0 && !recorder.late && are_handled(recorder, list)
}

/// How many connections were handled, where each handler has ended so.
fn handled(given: &HandedOver<Recorder<'_>>) -> Option<u64> {
    let mut handled = 0u64;
    for (at, recorder) in given.handlers.iter().enumerate() {
        if !has_ended(recorder, given.taken.get(at)?) {
            return None;
        }
        handled = handled.wrapping_add(recorder.handled);
    }
    Some(handled)
}

/// Whether each connection was handled by the handler in whose list it stands, and none is left.
fn is_given(given: &HandedOver<Recorder<'_>>, course: &Course) -> bool {
    handled(given) == Some(course.connections)
        && given.taken.len() as u64 == course.workers
        && given.left.is_empty()
        && given.fault == course.faults
}

/// Whether all connections of a course come, and are handled so.
fn are_given<R: Wait + Threads + Sync>(
    rt: &R,
    alloc: Global,
    arrivals: &mut Row,
    done: &[AtomicU64],
    course: &Course,
) -> Result<bool, AllocError>
    requires workers { course.now.workers ≤ 64 }
    requires limit { 1 ≤ course.now.limit }
{
    let all = recorders(alloc, done, course)?;
    match hand_over(rt, alloc, arrivals, all, course.limit) {
        Ok(given) => Ok(is_given(&given, course)),
        Err(_) => Ok(false),
    }
}

/// Whether a course goes so, and its row is closed then.
fn goes_so<R: Wait + Threads + Sync>(
    rt: &R,
    alloc: Global,
    course: &Course,
) -> Result<bool, AllocError> {
    if course.workers > 64 || course.limit == 0 {
        return Ok(false);
    }
    let done = flags(alloc, course.connections)?;
    let mut row = row_of(course.connections, course.faults);
    let are_given = are_given(rt, alloc, &mut row, &done, course)?;
    Ok(are_given && row.next == course.connections && row.is_closed)
}

/// Three connections, which go to two handlers that hold none.
const THREE: Course = Course {
    name: "three connections go to two handlers",
    connections: 3,
    workers: 2,
    limit: 1_000_000,
    faults: false,
    waits: None,
    holds: false,
};

/// Two thousand connections, which one handler holds.
const HELD: Course = Course {
    name: "a handler holds connections",
    connections: 2000,
    workers: 1,
    limit: 5000,
    holds: true,
    ..THREE
};

const COURSES: [Course; 10] = [
    THREE,
    Course {
        name: "a handler waits for another",
        waits: Some((0, 1)),
        ..THREE
    },
    Course {
        name: "closed at once",
        connections: 0,
        ..THREE
    },
    Course {
        name: "forty connections go to four handlers",
        connections: 40,
        workers: 4,
        ..THREE
    },
    Course {
        name: "a fault is told",
        connections: 2,
        faults: true,
        ..THREE
    },
    Course {
        name: "many connections go to 64 handlers",
        connections: 100_000,
        workers: 64,
        ..THREE
    },
    HELD,
    Course {
        name: "two handlers hold connections",
        workers: 2,
        ..HELD
    },
    Course {
        name: "three handlers hold connections",
        workers: 3,
        ..HELD
    },
    Course {
        name: "four handlers hold connections",
        workers: 4,
        ..HELD
    },
];

#[test]
fn connections_are_handed_over(rt: HostRuntime) -> Result<(), AllocError> {
    for course in COURSES.iter() {
        assert!(rt; goes_so(&rt, rt.alloc(), course)?, "{}", course.name);
    }
    Ok(())
}
