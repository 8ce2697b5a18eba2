//! How many clients are served at once.

use mio::unix::SourceFd;
use mio::{Events, Interest, Poll, Token, Waker};
use std::alloc::{AllocError, Global};
use std::io;
use std::net::Net;
use std::os::fd::RawFd;
use std::sync::Arc;
use std::sync::atomic::{AtomicBool, AtomicU64, Ordering};
use std::time::Duration;

/// The token of the listener, and that of a client who leaves.
const LISTENER: Token = Token(0);

const LEFT: Token = Token(1);

/// How many events one wait gives at most.
const EVENTS: usize = 8;

/// The seats of the clients that are served: how many are taken, and whether somebody waits for one.
#[derive(Drop)]
struct Seats {
    taken: AtomicU64,
    is_awaited: AtomicBool,
    waker: Waker,
}

/// A client's seat, which is free again once this is dropped.
pub struct Seat {
    seats: Arc<Seats, Global>,
}

impl Drop for Seat {
    fn drop(self) {
        self.seats.taken.fetch_sub(1, Ordering::SeqCst);
        if self.seats.is_awaited.swap(false, Ordering::SeqCst) {
            let _ = self.seats.waker.wake();
        }
        let Seat { seats: _ } = self;
    }
}

/// Where the accepting thread waits: for a client to come, or for a seat.
#[derive(Drop)]
pub struct Doorway {
    poll: Poll,
    events: Events<Global>,
    seats: Arc<Seats, Global>,
    /// How many seats there are.
    most: u64,
}

impl Doorway {
    /// A doorway for the clients of a listener, so many at once.
    pub fn new<R: Net>(net: &R, alloc: Global, listener: RawFd, most: u64) -> io::Result<Self> {
        let poll = Poll::new(net)?;
        let waker = Waker::new(poll.registry(), LEFT)?;
        let mut source = SourceFd(&listener);
        poll.registry()
            .register(&mut source, LISTENER, Interest::READABLE)?;
        let seats = Seats {
            taken: AtomicU64::new(0),
            is_awaited: AtomicBool::new(false),
            waker,
        };
        Ok(Doorway {
            poll,
            events: Events::with_capacity(alloc, EVENTS)?,
            seats: Arc::new(alloc, seats)?,
            most,
        })
    }

    /// Waits until something happened. It may be nothing that was waited for.
    pub fn wait(&mut self) {
        let _ = self.poll.poll(&mut self.events, None);
    }

    fn has_seat(&self) -> bool {
        self.seats.taken.load(Ordering::SeqCst) < self.most
    }

    /// Waits until there is a seat.
    pub fn await_seat(&mut self) {
        for _ in 0..u64::MAX {
            if self.has_seat() {
                return;
            }
            self.seats.is_awaited.store(true, Ordering::SeqCst);
            // One who left before that has not woken anybody.
            if self.has_seat() {
                return;
            }
            self.wait();
        }
    }

    /// Takes a seat.
    pub fn take_seat(&self) -> Result<Seat, AllocError> {
        let seats = Arc::try_clone(&self.seats)?;
        seats.taken.fetch_add(1, Ordering::SeqCst);
        Ok(Seat { seats })
    }
}
