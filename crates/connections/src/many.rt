//! All connections of one worker.

ghost use Rattle.std.specs.Prelude.{◌≡◌, IfOk};
ghost use Rattle.session_core.specs.Interleaved.{StateMoves};
ghost use Rattle.connections.specs.Places.{IsGrown};
ghost use Rattle.connections.specs.HeldConnections.{AllGoOn, AllMayLeave, AllWait, HaveLeft, IsAdded, no_connections};
ghost use Rattle.connection_turns.specs.ConnectionTurnState.{new_state};
ghost use Rattle.connection_turns.specs.SettledRecords.{RisesBy};

mod blocking_reads_when_alone;
mod serving;

use crate::held_connection::Held;
use crate::many::blocking_reads_when_alone::WaitingReads;
use crate::slots::Slots;
use crate::turn_lists::TurnLists;
use crate::watch::{Ringer, Watch, Watched};
use crate::yields::Yields;
use connection_turns::{Settle, settle_to};
use resp_wire::{PolledDrain, PolledSource};
use session_core::Exec;
use std::alloc::{AllocError, Allocator};
use std::marker::Model;
use std::net::Net;
use std::time::{Clock, Duration, Instant};
use std::{io, mem};
use turn_resources::{Buffers, Moment};

/// After so many seconds it is looked again which connections were silent for too long.
const LOOKS_AFTER: u64 = 1;

/// The connections of one worker. They share an executor, turn by turn.
#[derive(Drop)]
pub struct Connections<S: PolledSource, D: PolledDrain, A: Allocator> {
    alloc: A,
    watch: Watch<A>,
    slots: Slots<Box<Held<S, D, A>, A>, A>,
    lists: TurnLists<A>,
    /// Nothing was run since it was looked last which are ready.
    has_looked: bool,
    /// So many records are known to be settled.
    settled: u64,
    buffers: Buffers<A>,
    /// Some connection is ended if it is silent for too long.
    ends_silent: bool,
    /// When it was looked for such last.
    looked: Option<Instant>,
    waiting_reads: WaitingReads,
    yields: Yields,
}

/// Seen as the connections at their places, and how many records are known to be settled.
impl<S: PolledSource, D: PolledDrain, A: Allocator> Model for Connections<S, D, A> {
    ghost use Rattle.std.specs.Prelude.{map, option_map, box_value};
    ghost use Rattle.connections.specs.HeldConnections.{HeldConnections};

    ghost Value = { HeldConnections };

    ghost view = { λ c. record { held = map (option_map box_value) c.slots; settled = c.settled } };
}

impl<S: PolledSource + Watched + Drop, D: PolledDrain + Drop, A: Allocator + Copy> Connections<
    S,
    D,
    A,
> {
    /// No connection yet, and no record is known to be settled.
    pub fn new<R: Net>(net: &R, alloc: A) -> io::Result<Self>
        ensures none { IfOk result (λ connections. connections ≡ no_connections) }
    {
        Ok(Connections {
            alloc,
            watch: Watch::new(net, alloc)?,
            slots: Slots::new(alloc),
            lists: TurnLists::new(alloc),
            has_looked: false,
            settled: 0,
            buffers: Buffers::new(alloc)?,
            ends_silent: false,
            looked: None,
            waiting_reads: WaitingReads::new(),
            yields: Yields::new(),
        })
    }

    /// What wakes the worker that waits for these connections.
    pub fn ringer(&self) -> Option<Ringer<A>> {
        self.watch.ringer()
    }

    /// How many connections are held.
    pub fn count(&self) -> usize {
        self.slots.count()
    }

    /// Room for one connection more, in all lists, and its place.
    fn make_room(&mut self) -> Result<usize, AllocError>
        ensures grown { IsGrown self.old.held self.new.held }
        ensures settled { self.new.settled ≡ self.old.settled }
    {
        let place = self.slots.make_room()?;
        self.lists.reserve(self.slots.len())?;
        Ok(place)
    }

    /// The time, where silence ends a connection.
    fn now<C: Clock>(&self, clock: &C) -> Option<Instant> {
        if !self.ends_silent {
            return None;
        }
        Instant::now(clock).ok()
    }

    fn try_add<C: Clock>(&mut self, clock: &C, source: S, drain: D) -> Result<(), AllocError>
        ensures added { IsAdded (new_state (S.told source) (D.told drain)) self.old.held self.new.held }
        ensures settled { self.new.settled ≡ self.old.settled }
    {
        let place = self.make_room()?;
        let descriptor = source.descriptor();
        let silence = source.silence();
        self.ends_silent |= silence.is_some();
        let moved = self.now(clock);
        let visit = Held::new(
            self.alloc,
            source,
            drain,
            descriptor.is_some(),
            silence,
            moved,
        );
        let mut held = Box::new(self.alloc, visit)?;
        let Some(is_queued) = self.lists.begin(&self.watch, descriptor, place) else {
            return Ok(());
        };
        held.set_queued(is_queued);
        self.slots.put(held);
        Ok(())
    }

    /// Takes a connection on. Where there is no memory for it, or it can't be watched, it is dropped.
    pub fn add<C: Clock>(&mut self, clock: &C, source: S, drain: D)
        ensures added { IsAdded (new_state (S.told source) (D.told drain)) self.old.held self.new.held }
        ensures settled { self.new.settled ≡ self.old.settled }
    {
        self.end_waiting_reads();
        let _ = self.try_add(clock, source, drain);
    }

    /// Notes that the connection at a place is ready.
    fn note(&mut self, place: usize, is_closed: bool)
        ensures same { self.new ≡ self.old }
    {
        if place >= self.slots.len() {
            return;
        }
        let Some(mut held) = self.slots.take(place) else {
            return;
        };
        held.note(is_closed);
        let (traffic, is_queued) = (held.traffic(), held.is_queued());
        let is_queued = self.lists.queue(place, traffic, is_queued);
        held.set_queued(is_queued);
        self.slots.put_back(place, held);
    }

    /// For how long to wait for a connection that becomes ready: not at all where one can go on.
    fn patience(&self) -> Option<Duration> {
        if self.lists.can_go_on() {
            Some(Duration::ZERO)
        } else if self.ends_silent {
            Some(Duration::from_secs(LOOKS_AFTER))
        } else {
            None
        }
    }

    /// Waits until a connection becomes ready, the bell is rung or the time is up, and notes those that have become
    /// ready.
    fn wait(&mut self, timeout: Option<Duration>)
        ensures same { self.new ≡ self.old }
    {
        self.watch.wait(timeout);
        for number in 0..self.watch.len() {
            if let Some(change) = self.watch.change(number) {
                self.note(change.place, change.is_closed);
            }
        }
        self.has_looked = true;
    }

    /// Notes which others have become ready, where there are others, without waiting.
    fn look(&mut self)
        ensures same { self.new ≡ self.old }
    {
        if !self.has_looked && self.slots.count() > 1 {
            self.wait(Some(Duration::ZERO));
        }
    }

    /// Sends the replies of one that waited for its records, where these are settled or can be; else it leaves.
    fn let_go<R, T: Settle<R>>(&mut self, rt: &R, now: Option<Instant>, place: usize, settler: &T)
        ensures leave { AllMayLeave self.new.settled self.old.held self.new.held }
        ensures settled_by { RisesBy (T.settles settler.now) self.old.settled self.new.settled }
    {
        if place >= self.slots.len() {
            return;
        }
        let Some(mut held) = self.slots.take(place) else {
            return;
        };
        settle_to(rt, settler, &mut self.settled, held.awaited());
        let next = held.let_go(now, &mut self.buffers, self.settled);
        match self.lists.queue_again(place, next) {
            Some(is_queued) => {
                held.set_queued(is_queued);
                self.slots.put_back(place, held);
            }
            None => self.slots.let_go(place),
        }
    }

    /// Sends the replies of those that waited for their records, once these are settled. Those whose records can't be
    /// settled leave.
    fn let_go_settled<R, T: Settle<R>>(&mut self, rt: &R, now: Option<Instant>, settler: &T)
        ensures leave { AllMayLeave self.new.settled self.old.held self.new.held }
        ensures settled_by { RisesBy (T.settles settler.now) self.old.settled self.new.settled }
    {
        let mut unsettled = mem::replace(&mut self.lists.unsettled, Vec::new(self.alloc));
        for place in unsettled.iter() {
            self.let_go(rt, now, *place, settler);
        }
        unsettled.clear();
        self.lists.unsettled = unsettled;
    }

    /// Ends the connection at a place.
    fn end(&mut self, place: usize)
        ensures left { HaveLeft self.old.held self.new.held }
        ensures settled { self.new.settled ≡ self.old.settled }
    {
        if place >= self.slots.len() {
            return;
        }
        let ended = self.slots.take(place);
        if ended.is_some() {
            self.slots.let_go(place);
        }
    }

    /// Ends the connections that were silent for too long.
    fn end_silent(&mut self, now: Instant)
        ensures left { HaveLeft self.old.held self.new.held }
        ensures settled { self.new.settled ≡ self.old.settled }
    {
        for place in 0..self.slots.len() {
            let is_silent = match self.slots.get(place) {
                Some(held) => held.is_silent(now),
                None => false,
            };
            if is_silent {
                self.end(place);
            }
        }
    }

    /// Ends those that were silent for too long, where that was not looked at for a second.
    fn look_for_silent<C: Clock>(&mut self, clock: &C)
        ensures left { HaveLeft self.old.held self.new.held }
        ensures settled { self.new.settled ≡ self.old.settled }
    {
        let Some(now) = self.now(clock) else {
            return;
        };
        let is_due = match self.looked {
            Some(looked) => now.duration_since(looked).as_secs() >= LOOKS_AFTER,
            None => true,
        };
        if is_due {
            self.looked = Some(now);
            self.end_silent(now);
        }
    }

    /// Waits until a connection is ready or the bell is rung, or for a moment in a read of the only one, and gives each
    /// that is ready a turn. Then the replies that tell of records which are not settled wait no longer: the records are
    /// settled, and where that can't be, the connections whose replies tell of them leave, and their replies don't.
    pub fn turn<R, C: Clock, E: Exec<R, A>, T: Settle<R>>(
        &mut self,
        rt: &R,
        clock: &C,
        exec: &mut E,
        settler: &T,
    )
        requires settled { E.settled exec.old }
        ensures settled { E.settled exec.new }
        // What the connections share is moved by requests alone.
        ensures moves { StateMoves E.allows exec.old exec.new }
        // Each that is held was held before, and goes on as one that is served alone: its requests
        // are run in turn, and their replies stand behind those before.
        ensures goes_on { AllGoOn E.allows self.old.held exec.old self.new.held exec.new }
        // Of one whose replies wait for a record that is not settled nothing leaves. How many are is what it was, or what the
        // settler told.
        ensures waits { AllWait self.new.settled self.old.held self.new.held }
        ensures settled_by { RisesBy (T.settles settler.now) self.old.settled self.new.settled }
    {
        self.wait_due();
        let now = self.now(clock);
        let moment = Moment::new(clock, now, settler.settles_later());
        self.serve_by_read(rt, &moment, exec);
        self.serve_woken(rt, &moment, exec);
        self.serve_newcomers(rt, &moment, exec);
        self.serve_ready(rt, &moment, exec);
        self.let_go_settled(rt, now, settler);
        self.look_for_silent(clock);
    }
}
