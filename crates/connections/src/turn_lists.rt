//! The lists in which the connections of a worker wait for their turns.

use crate::traffic::Traffic;
use crate::watch::Watch;
use connection_turns::Next;
use std::alloc::{AllocError, Allocator};
use std::collections::VecDeque;
use std::os::fd::RawFd;

/// The places of connections that wait for a turn or for their records, each once in one of these.
#[derive(Drop)]
pub struct TurnLists<A: Allocator> {
    /// Quiet ones that waited and have become ready.
    pub woken: VecDeque<usize, A>,
    /// Those of which it is not known how much they ask, and that have become ready.
    pub newcomers: VecDeque<usize, A>,
    /// Those that can go on behind their last turn, and busy ones that waited and have become ready.
    pub ready: VecDeque<usize, A>,
    /// Those whose replies wait until their records are settled.
    pub unsettled: Vec<usize, A>,
}

impl<A: Allocator + Copy> TurnLists<A> {
    pub fn new(alloc: A) -> Self {
        TurnLists {
            woken: VecDeque::new(alloc),
            newcomers: VecDeque::new(alloc),
            ready: VecDeque::new(alloc),
            unsettled: Vec::new(alloc),
        }
    }

    /// Room for so many places in each.
    pub fn reserve(&mut self, places: usize) -> Result<(), AllocError> {
        self.woken.reserve(places)?;
        self.newcomers.reserve(places)?;
        self.ready.reserve(places)?;
        self.unsettled.reserve(places)
    }

    /// Whether one that is known to be ready waits for its turn.
    pub fn can_go_on(&self) -> bool {
        self.has_first() || !self.ready.is_empty()
    }

    /// Watches a connection that begins; one that can't be watched is always ready. None where there is no
    /// memory for that; else whether it is in a list.
    pub fn begin(
        &mut self,
        watch: &Watch<A>,
        descriptor: Option<RawFd>,
        place: usize,
    ) -> Option<bool> {
        match descriptor {
            Some(descriptor) => {
                watch.add(descriptor, place).ok()?;
                Some(false)
            }
            None => {
                self.ready.push_back(place).ok()?;
                Some(true)
            }
        }
    }

    /// Puts the place of a connection that has become ready behind others of such traffic, where it is in no list. Whether
    /// it is in one now.
    pub fn queue(&mut self, place: usize, traffic: Traffic, is_queued: bool) -> bool {
        if is_queued {
            return true;
        }
        let list = match traffic {
            Traffic::Unknown => &mut self.newcomers,
            Traffic::Quiet => &mut self.woken,
            Traffic::Busy => &mut self.ready,
        };
        list.push_back(place).is_ok()
    }

    /// Whether one has become ready that comes before the turns of busy ones, and before the further parts of one.
    pub fn has_first(&self) -> bool {
        !self.woken.is_empty() || !self.newcomers.is_empty()
    }

    /// What becomes of a connection after its turn, or a part of one: whether it is in a list again or goes on. None: it
    /// leaves.
    pub fn queue_again(&mut self, place: usize, next: Next) -> Option<bool> {
        match next {
            Next::Ends => None,
            Next::Waits => Some(false),
            Next::Underway => Some(true),
            Next::Again => {
                self.ready.push_back(place).ok()?;
                Some(true)
            }
            Next::Settles => {
                self.unsettled.push(place).ok()?;
                Some(true)
            }
        }
    }
}
