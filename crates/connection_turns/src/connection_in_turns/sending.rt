//! How the replies of a connection leave.

ghost use Rattle.std.specs.Prelude.{◌≡◌, ◌<◌};
ghost use Rattle.connection_turns.specs.declared.connection_in_turns.Next.TheVariants.{Settles};
ghost use Rattle.connection_turns.specs.ConnectionTurnState.{visit_state};

use crate::connection_in_turns::{Next, Stage, Visit};
use resp_wire::{ByteDrain, PolledDrain, PolledSource};
use std::alloc::Allocator;
use turn_resources::Replies;

impl<S: PolledSource, D: PolledDrain, A: Allocator + Copy> Visit<S, D, A> {
    /// Sends what is held. None where the drain failed.
    pub(crate) fn send(&mut self) -> Option<bool>
        ensures same { (visit_state self.new.stage (S.told self.new.source)
            (⟦<Replies<D, A> as ByteDrain>⟧.told self.new.replies) self.new.session.decoder self.new.session.progress)
            ≡ (visit_state self.old.stage (S.told self.old.source)
            (⟦<Replies<D, A> as ByteDrain>⟧.told self.old.replies) self.old.session.decoder self.old.session.progress) }
    {
        let before = self.replies.len();
        if before == 0 {
            return Some(true);
        }
        let sent = self.replies.pump();
        if self.replies.len() < before {
            self.has_moved = true;
        }
        sent.ok()
    }

    /// Sends what is held before a turn begins. None where the drain failed.
    pub(crate) fn send_before_turn(&mut self) -> Option<bool>
        ensures same { (visit_state self.new.stage (S.told self.new.source)
            (⟦<Replies<D, A> as ByteDrain>⟧.told self.new.replies) self.new.session.decoder self.new.session.progress)
            ≡ (visit_state self.old.stage (S.told self.old.source)
            (⟦<Replies<D, A> as ByteDrain>⟧.told self.old.replies) self.old.session.decoder self.old.session.progress) }
    {
        if self.underway.is_some() {
            return Some(true);
        }
        self.send()
    }

    /// What follows, where this is what the drain took.
    pub(crate) fn next(&self, sent: Option<bool>) -> Next
        ensures sent { result ≡ Settles → ⊥ }
    {
        match (sent, self.stage) {
            (None, _) => Next::Ends,
            (Some(false), _) => Next::Waits,
            (Some(true), Stage::Ended(_)) => Next::Ends,
            (Some(true), Stage::Reads) if self.is_drained => Next::Waits,
            (Some(true), _) => Next::Again,
        }
    }

    /// Sends what is held, where the last record is settled that it may tell of, and the turn has no further part; else it
    /// waits for that.
    pub(crate) fn send_settled(&mut self, told: u64, settled: u64) -> Next
        ensures same { (visit_state self.new.stage (S.told self.new.source)
            (⟦<Replies<D, A> as ByteDrain>⟧.told self.new.replies) self.new.session.decoder self.new.session.progress)
            ≡ (visit_state self.old.stage (S.told self.old.source)
            (⟦<Replies<D, A> as ByteDrain>⟧.told self.old.replies) self.old.session.decoder self.old.session.progress) }
        ensures held { settled < told → self.new.replies ≡ self.old.replies }
        ensures awaited { settled < told → (result ≡ Settles) × (self.new.awaited ≡ told) }
        ensures waits { result ≡ Settles → settled < told }
    {
        if told > settled {
            self.unwaited = 0;
            self.underway = None;
            self.awaited = told;
            return Next::Settles;
        }
        self.unwaited = self.unwaited.saturating_add(1);
        self.awaited = 0;
        if self.underway.is_some() {
            return Next::Underway;
        }
        let sent = self.send();
        self.next(sent)
    }
}
