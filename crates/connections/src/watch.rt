//! Which connections are ready.

use mio::unix::SourceFd;
use mio::{Events, Interest, Poll, Token, Waker};
use resp_wire::{FuseSource, MemorySource, Reading};
use std::alloc::Allocator;
use std::io::{self, Read};
use std::net::Net;
use std::os::fd::RawFd;
use std::sync::Arc;
use std::time::Duration;

/// What a connection is watched by.
pub trait Watched {
    /// The descriptor that tells whether the device is ready. None: it is always ready, as memory is.
    fn descriptor(&self) -> Option<RawFd>;

    /// For how long the connection may send or take nothing before it is ended; None: for any time.
    fn silence(&self) -> Option<Duration>;

    /// Has reads wait a moment for bytes, some milliseconds at most, or no longer wait. False where it can't: then they
    /// are as they were.
    fn set_waiting(&self, waits: bool) -> bool;
}

impl<R: Read + Watched> Watched for Reading<R> {
    fn descriptor(&self) -> Option<RawFd> {
        self.get_ref().descriptor()
    }

    fn silence(&self) -> Option<Duration> {
        self.get_ref().silence()
    }

    fn set_waiting(&self, waits: bool) -> bool {
        self.get_ref().set_waiting(waits)
    }
}

impl<'a> Watched for MemorySource<'a> {
    fn descriptor(&self) -> Option<RawFd> {
        None
    }

    fn silence(&self) -> Option<Duration> {
        None
    }

    fn set_waiting(&self, _waits: bool) -> bool {
        false
    }
}

impl<S> Watched for FuseSource<S> {
    fn descriptor(&self) -> Option<RawFd> {
        None
    }

    fn silence(&self) -> Option<Duration> {
        None
    }

    fn set_waiting(&self, _waits: bool) -> bool {
        false
    }
}

/// Wakes a worker that waits for its connections.
#[derive(Drop)]
pub struct Ringer<A: Allocator> {
    waker: Arc<Waker, A>,
}

impl<A: Allocator> Ringer<A> {
    /// Ends the wait that is under way, or else the next. It does not wait itself.
    pub fn ring(&self) {
        let _ = self.waker.wake();
    }
}

/// How many events one wait gives at most.
const EVENTS: usize = 256;

/// The token of a worker's bell.
const RUNG: Token = Token(usize::MAX);

/// Watches the descriptors of a worker's connections. Each is watched for both ways at once and for
/// good; an event comes where one becomes ready that was not.
#[derive(Drop)]
pub struct Watch<A: Allocator> {
    poll: Poll,
    waker: Arc<Waker, A>,
    events: Events<A>,
}

/// An event of a connection.
#[derive(Clone, Copy, Debug, PartialEq, Eq)]
pub struct Change {
    pub place: usize,
    /// The peer sends no more.
    pub is_closed: bool,
}

impl<A: Allocator + Copy> Watch<A> {
    pub fn new<R: Net>(net: &R, alloc: A) -> io::Result<Self> {
        let poll = Poll::new(net)?;
        let waker = Waker::new(poll.registry(), RUNG)?;
        Ok(Watch {
            poll,
            waker: Arc::new(alloc, waker)?,
            events: Events::with_capacity(alloc, EVENTS)?,
        })
    }

    /// What wakes the one who waits here.
    pub fn ringer(&self) -> Option<Ringer<A>> {
        let waker = Arc::try_clone(&self.waker).ok()?;
        Some(Ringer { waker })
    }

    /// Watches a descriptor for the connection at this place, until it is closed.
    pub fn add(&self, descriptor: RawFd, place: usize) -> io::Result<()> {
        let both = Interest::READABLE | Interest::WRITABLE;
        let mut source = SourceFd(&descriptor);
        self.poll
            .registry()
            .register(&mut source, Token(place), both)
    }

    /// Waits until one is ready, the bell is rung or the time is up. None: there is no limit. Where
    /// the wait itself fails, nothing is ready.
    pub fn wait(&mut self, timeout: Option<Duration>) {
        if self.poll.poll(&mut self.events, timeout).is_err() {
            self.events.clear();
        }
    }

    /// How many changes the last wait told.
    pub fn len(&self) -> usize {
        self.events.iter().len()
    }

    /// A change that the last wait told. None for the bell.
    pub fn change(&self, number: usize) -> Option<Change> {
        let event = self.events.iter().as_slice().get(number)?;
        if event.token() == RUNG {
            return None;
        }
        Some(Change {
            place: event.token().0,
            is_closed: event.is_read_closed(),
        })
    }
}
