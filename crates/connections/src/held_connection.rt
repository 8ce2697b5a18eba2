//! A connection at its place.

ghost use Rattle.std.specs.Prelude.{◌≡◌, ◌<◌, ◌⊎◌};
ghost use Rattle.session_core.specs.Interleaved.{StateMoves};
ghost use Rattle.connection_turns.specs.declared.connection_in_turns.Next.TheVariants.{Ends, Settles};
ghost use Rattle.connections.specs.HeldConnections.{Begins};
ghost use Rattle.connection_turns.specs.ConnectionTurnState.{GoesOn, WaitsForTold, new_state};

use crate::traffic::Traffic;
use crate::watch::Watched;
use connection_turns::{Next, Visit};
use resp_wire::{PolledDrain, PolledSource};
use session_core::Exec;
use std::alloc::Allocator;
use std::marker::Model;
use std::time::{Clock, Duration, Instant};
use turn_resources::{Buffers, Moment};

/// A connection, and what its worker keeps of it beside.
#[derive(Drop)]
pub struct Held<S: PolledSource, D: PolledDrain, A: Allocator> {
    visit: Visit<S, D, A>,
    /// It is among those that are ready, or that wait until their records are settled.
    is_queued: bool,
    /// For how long it may send or take nothing.
    silence: Option<Duration>,
    /// When its last bytes came or went, where that is asked for.
    moved: Option<Instant>,
    /// In its last turn no byte came or went.
    is_still: bool,
    traffic: Traffic,
    /// How many requests had been run when it waited for more last.
    run_at_last_wait: u64,
}

/// Seen as its visit shows itself, with what its replies wait for and what left.
impl<S: PolledSource, D: PolledDrain, A: Allocator> Model for Held<S, D, A> {
    ghost use Rattle.connections.specs.HeldConnections.{HeldState};
    ghost use Rattle.connection_turns.specs.ConnectionTurnState.{visit_state, told_by_outbox};

    ghost Value = { HeldState };

    ghost view = { λ h. record {
      visit = visit_state h.visit.stage (S.told h.visit.source) (told_by_outbox D.told h.visit.replies.outbox)
          h.visit.session.decoder h.visit.session.progress;
      awaited = h.visit.awaited;
      left = D.told h.visit.replies.outbox.drain;
    } };
}

impl<S: PolledSource, D: PolledDrain, A: Allocator + Copy> Held<S, D, A> {
    /// A connection that was just accepted, and is not among those that are ready.
    pub fn new(
        alloc: A,
        source: S,
        drain: D,
        is_watched: bool,
        silence: Option<Duration>,
        moved: Option<Instant>,
    ) -> Self
        ensures new { Begins (new_state (S.told source) (D.told drain)) result }
    {
        Held {
            visit: Visit::new(alloc, source, drain, is_watched),
            is_queued: false,
            silence,
            moved,
            is_still: true,
            traffic: Traffic::Unknown,
            run_at_last_wait: 0,
        }
    }

    /// Notes that the device became ready, and whether the peer sends no more.
    pub fn note(&mut self, is_closed: bool)
        ensures same { self.new ≡ self.old }
    {
        self.visit.note(is_closed);
    }

    /// Whether it is among those that are ready, or that wait until their records are settled.
    pub fn is_queued(&self) -> bool {
        self.is_queued
    }

    /// Says whether it is among those.
    pub fn set_queued(&mut self, is_queued: bool)
        ensures same { self.new ≡ self.old }
    {
        self.is_queued = is_queued;
    }

    /// Whether it was silent for too long.
    pub fn is_silent(&self, now: Instant) -> bool {
        match (self.silence, self.moved) {
            (Some(silence), Some(moved)) if !self.is_queued => now.duration_since(moved) >= silence,
            _ => false,
        }
    }

    /// What is known of its traffic.
    pub fn traffic(&self) -> Traffic {
        self.traffic
    }

    /// Whether no byte came or went in its last turn.
    pub fn is_still(&self) -> bool {
        self.is_still
    }

    /// Has its reads wait for bytes or no longer, as [`Watched::set_waiting`] says.
    pub fn set_waiting(&self, waits: bool) -> bool
    where
        S: Watched,
    {
        self.visit.source().set_waiting(waits)
    }

    /// The number of the last record that its replies wait for, 0 for none.
    pub fn awaited(&self) -> u64
        ensures awaited { result ≡ self.now.awaited }
    {
        self.visit.awaited()
    }

    /// Notes that bytes came or went, where they did.
    fn note_moved(&mut self, now: Option<Instant>)
        ensures same { self.new ≡ self.old }
    {
        self.is_still = !self.visit.take_moved();
        if !self.is_still {
            self.moved = now;
        }
    }

    /// Notes how much it has asked since it waited for more last.
    fn note_traffic(&mut self)
        ensures same { self.new ≡ self.old }
    {
        let (run, waits) = (self.visit.requests(), self.visit.waits_for_requests());
        let asked = run.wrapping_sub(self.run_at_last_wait);
        self.traffic = self.traffic.behind(asked, waits);
        if waits {
            self.run_at_last_wait = run;
        }
    }

    /// The connection's turn or a part of one, as [`Visit::turn`] says.
    pub fn turn<R, C: Clock, E: Exec<R, A>>(
        &mut self,
        rt: &R,
        moment: &Moment<'_, C>,
        buffers: &mut Buffers<A>,
        exec: &mut E,
        settled: u64,
    ) -> Next
        requires settled { E.settled exec.old }
        ensures settled { E.settled exec.new }
        ensures moves { StateMoves E.allows exec.old exec.new }
        ensures goes_on { GoesOn E.allows self.old.visit exec.old self.new.visit exec.new }
        ensures told { (self.new.visit.progress ≡ self.old.visit.progress)
            ⊎ WaitsForTold (E.tells exec.new) settled result self.new.awaited }
        ensures waits { result ≡ Settles → settled < self.new.awaited }
        ensures held { settled < self.old.awaited → self.new ≡ self.old }
    {
        let next = self.visit.turn(rt, moment, buffers, exec, settled);
        self.note_traffic();
        self.note_moved(moment.now);
        next
    }

    /// Sends replies that waited for their records, or ends, as [`Visit::let_go`] says.
    pub fn let_go(&mut self, now: Option<Instant>, buffers: &mut Buffers<A>, settled: u64) -> Next
        ensures visit { self.new.visit ≡ self.old.visit }
        ensures held { settled < self.old.awaited → self.new ≡ self.old }
        ensures ends { settled < self.old.awaited → result ≡ Ends }
    {
        let next = self.visit.let_go(buffers, settled);
        self.note_traffic();
        self.note_moved(now);
        next
    }
}
