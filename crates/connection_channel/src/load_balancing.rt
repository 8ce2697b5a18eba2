//! How connections are shared out among workers. A count that is behind costs a worker a look at the channel, or has a
//! connection taken by another worker; it loses none.

use crate::handler::{Bell, Handler};
use std::alloc::{AllocError, Global};
use std::sync::atomic::{AtomicU64, Ordering};

/// What the accepting thread and the workers share of one worker.
#[derive(Drop)]
pub struct Door<B> {
    /// So many messages the worker is to take, which are in the channel or about to be sent.
    due: AtomicU64,
    /// How many connections the worker holds.
    live: AtomicU64,
    bell: Option<B>,
}

impl<B> Door<B> {
    /// Whether the worker is to take a message.
    fn is_due(&self) -> bool {
        self.due.load(Ordering::SeqCst) > 0
    }

    /// How many connections the worker holds or is to take.
    fn load(&self) -> u64 {
        let live = self.live.load(Ordering::SeqCst);
        live.saturating_add(self.due.load(Ordering::SeqCst))
    }

    /// Has the worker take one message more.
    fn expect(&self) {
        self.due.fetch_add(1, Ordering::SeqCst);
    }

    /// Has the worker take one message less. False where it is to take none.
    fn settle(&self) -> bool {
        let settled = self.due.fetch_update(
            Ordering::SeqCst,
            Ordering::SeqCst,
            |due| due.checked_sub(1),
        );
        settled.is_ok()
    }
}

/// The doors of all workers. As many messages are due at them as there are in the channel, or more.
#[derive(Drop)]
pub struct Doors<B> {
    doors: Vec<Door<B>>,
}

/// A door for each handler.
pub(crate) fn doors_of<C, H: Handler<C> + Drop>(
    alloc: Global,
    handlers: &Vec<H>,
) -> Result<Doors<H::Bell>, AllocError> {
    let mut doors = Vec::with_capacity(alloc, handlers.len())?;
    for handler in handlers.iter() {
        doors.push(Door {
            due: AtomicU64::new(0),
            live: AtomicU64::new(0),
            bell: handler.bell(),
        })?;
    }
    Ok(Doors { doors })
}

impl<B> Doors<B> {
    /// Has the worker that holds the fewest connections take the message that is about to be sent.
    pub(crate) fn expect_least(&self) {
        let mut best = None;
        let mut fewest = u64::MAX;
        for door in self.doors.iter() {
            let load = door.load();
            if load < fewest {
                fewest = load;
                best = Some(door);
            }
        }
        if let Some(door) = best {
            door.expect();
        }
    }

    /// Has each worker take a message that is about to be sent.
    pub(crate) fn expect_each(&self) {
        for door in self.doors.iter() {
            door.expect();
        }
    }

    /// Has some worker take one message less.
    fn settle_any(&self) {
        for door in self.doors.iter() {
            if door.settle() {
                return;
            }
        }
    }
}

impl<B: Bell> Doors<B> {
    /// Wakes each worker that is to take a message, once one was sent. One that was woken before, looked into the channel
    /// in vain and rests is woken too: another worker may have taken its message, and then this one is its own.
    pub(crate) fn ring_due(&self) {
        for door in self.doors.iter() {
            if door.is_due() {
                if let Some(bell) = &door.bell {
                    bell.ring();
                }
            }
        }
    }
}

/// A worker's own door, among those of all.
#[derive(Drop)]
pub struct Post<'d, B> {
    pub doors: &'d Doors<B>,
    pub worker: usize,
}

impl<'d, B> Post<'d, B> {
    fn door(&self) -> Option<&Door<B>> {
        self.doors.doors.get(self.worker)
    }

    /// Whether the worker is to look into the channel.
    pub(crate) fn is_due(&self) -> bool {
        match self.door() {
            Some(door) => door.is_due(),
            None => false,
        }
    }

    /// Tells how many connections the worker holds.
    pub(crate) fn tell_live(&self, live: usize) {
        if let Some(door) = self.door() {
            let live = live as u64;
            // Where all is as it was, no other thread has to hear of it.
            if door.live.load(Ordering::SeqCst) != live {
                door.live.store(live, Ordering::SeqCst);
            }
        }
    }

    /// Notes that the worker took a connection, and holds so many with it: it is to take one less. Where it was to take
    /// none, another worker is.
    pub fn note_taken(&self, live: usize) {
        self.tell_live(live);
        if let Some(door) = self.door() {
            if door.settle() {
                return;
            }
        }
        self.doors.settle_any();
    }
}
