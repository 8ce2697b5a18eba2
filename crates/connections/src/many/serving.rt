//! Whose turn it is among a worker's connections.

ghost use Rattle.std.specs.Prelude.{◌≡◌};
ghost use Rattle.connections.specs.HeldConnections.{TurnsAreTaken};

use crate::many::Connections;
use crate::traffic::Traffic;
use crate::watch::Watched;
use connection_turns::Next;
use resp_wire::{PolledDrain, PolledSource};
use session_core::{Exec, takes_turns};
use std::alloc::Allocator;
use std::time::Clock;
use turn_resources::{MOST_PARTS, Moment};

impl<S: PolledSource + Watched + Drop, D: PolledDrain + Drop, A: Allocator + Copy> Connections<
    S,
    D,
    A,
> {
    /// A part of one connection's turn. Whether another part may follow.
    fn serve_part<R, C: Clock, E: Exec<R, A>>(
        &mut self,
        rt: &R,
        moment: &Moment<'_, C>,
        place: usize,
        exec: &mut E,
    ) -> bool
        requires settled { E.settled exec.old }
        ensures { TurnsAreTaken E.allows E.settled self.old exec.old self.new exec.new }
    {
        takes_turns::<R, A, E>();
        if place >= self.slots.len() {
            return false;
        }
        let Some(mut held) = self.slots.take(place) else {
            return false;
        };
        self.waiting_reads.last = place;
        self.has_looked = false;
        let next = held.turn(rt, moment, &mut self.buffers, exec, self.settled);
        let is_underway = next == Next::Underway;
        match self.lists.queue_again(place, next) {
            Some(is_queued) => {
                held.set_queued(is_queued);
                self.slots.put_back(place, held);
                is_underway
            }
            None => {
                self.slots.let_go(place);
                false
            }
        }
    }

    /// One connection's turn. Where one comes first that becomes ready meanwhile, it ends behind the part that is under way.
    pub fn serve<R, C: Clock, E: Exec<R, A>>(
        &mut self,
        rt: &R,
        moment: &Moment<'_, C>,
        place: usize,
        exec: &mut E,
    )
        requires settled { E.settled exec.old }
        ensures { TurnsAreTaken E.allows E.settled self.old exec.old self.new exec.new }
    {
        let mut is_underway = self.serve_part(rt, moment, place, exec);
        for part in 1..MOST_PARTS + 1 {
            if !is_underway {
                return;
            }
            self.look();
            let further = moment.further(part == MOST_PARTS || self.lists.has_first());
            is_underway = self.serve_part(rt, &further, place, exec);
        }
    }

    /// A turn for each quiet one that waited and has become ready.
    pub fn serve_woken<R, C: Clock, E: Exec<R, A>>(
        &mut self,
        rt: &R,
        moment: &Moment<'_, C>,
        exec: &mut E,
    )
        requires settled { E.settled exec.old }
        ensures { TurnsAreTaken E.allows E.settled self.old exec.old self.new exec.new }
    {
        for _ in 0..self.lists.woken.len() {
            let Some(place) = self.lists.woken.pop_front() else {
                return;
            };
            self.serve(rt, moment, place, exec);
        }
    }

    /// Yields the processor behind the turn of a busy connection.
    fn yield_behind<C: Clock>(&mut self, clock: &C, place: usize)
        ensures same { self.new ≡ self.old }
    {
        let Some(held) = self.slots.get(place) else {
            return;
        };
        if let Traffic::Busy = held.traffic() {
            self.yields.yield_now(clock);
        }
    }

    /// A connection's turn, behind those of the quiet ones that have become ready by now.
    fn serve_behind_quiet<R, C: Clock, E: Exec<R, A>>(
        &mut self,
        rt: &R,
        moment: &Moment<'_, C>,
        place: usize,
        exec: &mut E,
    )
        requires settled { E.settled exec.old }
        ensures { TurnsAreTaken E.allows E.settled self.old exec.old self.new exec.new }
    {
        self.look();
        self.serve_woken(rt, moment, exec);
        self.serve(rt, moment, place, exec);
        self.yield_behind(moment.clock, place);
    }

    /// A turn for each of which it is not known how much it asks, and that has become ready.
    pub fn serve_newcomers<R, C: Clock, E: Exec<R, A>>(
        &mut self,
        rt: &R,
        moment: &Moment<'_, C>,
        exec: &mut E,
    )
        requires settled { E.settled exec.old }
        ensures { TurnsAreTaken E.allows E.settled self.old exec.old self.new exec.new }
    {
        for _ in 0..self.lists.newcomers.len() {
            let Some(place) = self.lists.newcomers.pop_front() else {
                return;
            };
            self.serve_behind_quiet(rt, moment, place, exec);
        }
    }

    /// A turn for each that can go on, or is busy, behind those of quiet ones and of newcomers.
    pub fn serve_ready<R, C: Clock, E: Exec<R, A>>(
        &mut self,
        rt: &R,
        moment: &Moment<'_, C>,
        exec: &mut E,
    )
        requires settled { E.settled exec.old }
        ensures { TurnsAreTaken E.allows E.settled self.old exec.old self.new exec.new }
    {
        for _ in 0..self.lists.ready.len() {
            self.serve_newcomers(rt, moment, exec);
            let Some(place) = self.lists.ready.pop_front() else {
                return;
            };
            self.serve_behind_quiet(rt, moment, place, exec);
        }
    }
}
