//! A worker that waits in the reads of its only connection.

ghost use Rattle.std.specs.Prelude.{◌≡◌};
ghost use Rattle.connections.specs.HeldConnections.{TurnsAreTaken};

use crate::many::Connections;
use crate::watch::Watched;
use resp_wire::{PolledDrain, PolledSource};
use session_core::Exec;
use std::alloc::Allocator;
use std::time::Clock;
use turn_resources::Moment;

/// Reads of a worker's only connection wait after so many turns in a row in which bytes moved. A client that asks seldom
/// costs one wait in vain for as many requests.
const READS_WAIT_AFTER: u32 = 16;

/// Whether reads of a worker's only connection wait a moment for bytes: then the system is not asked first whether some
/// came, which is a call less for each request.
#[derive(Clone, Copy, Debug)]
pub struct WaitingReads {
    /// Reads of the connection that had the last turn wait.
    is_on: bool,
    /// The place of the connection that had the last turn.
    pub last: usize,
    /// So many turns in a row bytes of the only connection moved.
    turns: u32,
}

impl WaitingReads {
    /// No reads wait.
    pub fn new() -> Self {
        WaitingReads {
            is_on: false,
            last: 0,
            turns: 0,
        }
    }
}

impl<S: PolledSource + Watched + Drop, D: PolledDrain + Drop, A: Allocator + Copy> Connections<
    S,
    D,
    A,
> {
    /// Whether it is to be waited in a read of the only connection, which has no requests left to run.
    fn reads_wait(&self) -> bool {
        self.waiting_reads.is_on && !self.lists.can_go_on()
    }

    /// Has reads of the connection that had the last turn wait for bytes, or no longer, as [`Watched::set_waiting`] says.
    fn set_waiting(&self, waits: bool) -> bool {
        match self.slots.get(self.waiting_reads.last) {
            Some(held) => held.set_waiting(waits),
            None => false,
        }
    }

    /// Whether there is one connection alone, and bytes of it moved in the last turn.
    fn has_one_that_moves(&self) -> bool {
        if self.slots.count() != 1 {
            return false;
        }
        match self.slots.get(self.waiting_reads.last) {
            Some(held) => !held.is_still(),
            None => false,
        }
    }

    /// Has no reads wait from now on.
    pub fn end_waiting_reads(&mut self)
        ensures same { self.new ≡ self.old }
    {
        if self.waiting_reads.is_on {
            self.set_waiting(false);
        }
        self.waiting_reads = WaitingReads::new();
    }

    /// Reads of the only connection go on waiting, or begin to, where bytes of it moved in the last turns; else no reads wait.
    fn choose_how_to_wait(&mut self)
        ensures same { self.new ≡ self.old }
    {
        if !self.has_one_that_moves() {
            self.end_waiting_reads();
            return;
        }
        self.waiting_reads.turns = self.waiting_reads.turns.saturating_add(1);
        if !self.waiting_reads.is_on && self.waiting_reads.turns >= READS_WAIT_AFTER {
            self.waiting_reads.is_on = self.set_waiting(true);
        }
    }

    /// Waits as [`Connections::wait`] does, unless a read is to wait.
    pub fn wait_due(&mut self)
        ensures same { self.new ≡ self.old }
    {
        self.choose_how_to_wait();
        if !self.reads_wait() {
            self.wait(self.patience());
        }
    }

    /// A turn for the one whose reads wait.
    pub fn serve_by_read<R, C: Clock, E: Exec<R, A>>(
        &mut self,
        rt: &R,
        moment: &Moment<'_, C>,
        exec: &mut E,
    )
        requires settled { E.settled exec.old }
        ensures { TurnsAreTaken E.allows E.settled self.old exec.old self.new exec.new }
    {
        if !self.reads_wait() {
            return;
        }
        self.serve(rt, moment, self.waiting_reads.last, exec);
    }
}
