//! Replies that are held back until they are let go.

ghost use Rattle.std.specs.Prelude.{◌≡◌, ◌≤◌, ◌<◌, ◌⊎◌, [], length, take, IfOk, OnOk, MatchResult};
ghost use Rattle.std.specs.Io.KnownBytes.{append_known};
ghost use Rattle.resp_wire.specs.Device.{Rose, moved, saturating_succ, failures_after, flushed_after};
ghost use Rattle.append_log.specs.LogViewAndSteps.{Settles};
ghost use Rattle.held_replies.specs.OwnerSync.{IsSynced};

use append_log::{LogSink, LoggedOwner};
use resp_wire::{ByteDrain, CallCount, Failed, write_all};
use std::alloc::Allocator;
use std::hash::BuildHasher;
use std::sync::ledger::Ledger;
use zset_commands::Refusal;

/// Settles an owner's records, by a sync where one is not settled yet.
fn settle<H: BuildHasher + Clone + Drop, K: LogSink, L: Ledger, A: Allocator + Copy>(
    owner: &mut LoggedOwner<H, K, L, A>,
) -> Result<(), Refusal>
    ensures settles { OnOk result (Settles owner.old.log owner.new.log) }
    ensures synced { IsSynced owner.old owner.new }
{
    if owner.is_settled() {
        return Ok(());
    }
    owner.sync()
}

/// A drain that takes all that is written to it and sends nothing, not even when it is flushed, before it is let go
/// ([`HeldReplies::let_go`]). It tells the bytes that its inner drain took, and behind them those that it holds.
#[derive(Drop)]
pub struct HeldReplies<D, A: Allocator> {
    inner: D,
    held: Vec<u8, A>,
    /// How many of the bytes held were written before the last flush.
    flushed: usize,
    count: CallCount,
    ghost within: { flushed ≤ length held.items },
}

impl<D: ByteDrain, A: Allocator> HeldReplies<D, A> {
    /// Holds nothing. It takes no memory.
    pub fn new(alloc: A, inner: D) -> Self
        ensures inner { result.inner ≡ inner }
        ensures held { result.held.items ≡ [] }
        ensures uncalled { (result.count.calls ≡ 0) × (result.count.failures ≡ 0) }
    {
        HeldReplies {
            inner,
            held: Vec::new(alloc),
            flushed: 0,
            count: CallCount::new(),
        }
    }

    /// How many bytes are held.
    pub fn len(&self) -> usize
        ensures { result ≡ length self.now.held.items }
    {
        self.held.len()
    }

    /// The inner drain, and how many bytes were never sent to it.
    pub fn into_parts(self) -> (D, usize)
        ensures inner { result.0 ≡ self.inner }
        ensures held { result.1 ≡ length self.held.items }
    {
        let HeldReplies {
            inner,
            held,
            flushed: _,
            count: _,
        } = self;
        (inner, held.len())
    }

    /// Sends what is held, and has the inner drain send it on.
    ///
    /// # Errors
    ///
    /// The inner drain failed. What it did not take is held as before.
    fn send(&mut self) -> Result<(), Failed>
        ensures told { ⟦<HeldReplies<D, A> as ByteDrain>⟧.told self.new
            ≡ ⟦<HeldReplies<D, A> as ByteDrain>⟧.told self.old }
        ensures none { OnOk result (self.new.held.items ≡ []) }
        ensures sent { OnOk result (D.flushed self.new.inner ≡ ⟦<HeldReplies<D, A> as ByteDrain>⟧.told self.new) }
        ensures calls { self.new.count.calls ≡ self.old.count.calls }
        ensures failures { MatchResult result (λ _. self.new.count.failures ≡ self.old.count.failures)
            (λ _. Rose self.old.count.failures self.new.count.failures) }
    {
        self.flushed = 0;
        if let Err(taken) = write_all(&mut self.inner, &self.held) {
            let len = self.held.len();
            self.held.copy_within(taken.., 0);
            self.held.truncate(len - taken);
            return Err(self.count.failed(Failed));
        }
        self.held.clear();
        match self.inner.flush() {
            Ok(()) => Ok(()),
            Err(_) => Err(self.count.failed(Failed)),
        }
    }

    /// Lets go what is held, once all of the owner's records are settled: what is held may tell of any of them. Those that
    /// are not settled yet are settled by a sync.
    ///
    /// # Errors
    ///
    /// The records can't be settled, and nothing leaves. Or the inner drain failed: what it did not take is held as before.
    pub fn let_go<H: BuildHasher + Clone + Drop, K: LogSink, L: Ledger, B: Allocator + Copy>(
        &mut self,
        owner: &mut LoggedOwner<H, K, L, B>,
    ) -> Result<(), Failed>
        ensures told { ⟦<HeldReplies<D, A> as ByteDrain>⟧.told self.new
            ≡ ⟦<HeldReplies<D, A> as ByteDrain>⟧.told self.old }
        ensures none { OnOk result (self.new.held.items ≡ []) }
        ensures sent { OnOk result (D.flushed self.new.inner ≡ ⟦<HeldReplies<D, A> as ByteDrain>⟧.told self.new) }
        ensures settles { OnOk result (Settles owner.old.log owner.new.log) }
        // Nothing leaves but behind a sync of all records.
        ensures unsettled { (owner.new.log.settled ≡ owner.new.log.appended) ⊎ (self.new.inner ≡ self.old.inner) }
        ensures synced { IsSynced owner.old owner.new }
        ensures calls { self.new.count.calls ≡ self.old.count.calls }
        ensures failures { MatchResult result (λ _. self.new.count.failures ≡ self.old.count.failures)
            (λ _. Rose self.old.count.failures self.new.count.failures) }
    {
        match settle(owner) {
            Ok(()) => self.send(),
            Err(_) => Err(self.count.failed(Failed)),
        }
    }
}

impl<D: ByteDrain, A: Allocator> ByteDrain for HeldReplies<D, A> {
    ghost told = { λ h. append_known (D.told h.inner) h.held.items };

    ghost flushed = { λ h. append_known (D.told h.inner) (take h.flushed h.held.items) };

    ghost calls = { λ h. h.count.calls };

    ghost failures = { λ h. h.count.failures };

    /// Holds all of the piece. It fails where no memory is left for it, and holds nothing more then.
    fn write(&mut self, piece: &[u8]) -> Result<usize, Failed>
        ensures count { IfOk result (λ n. n ≡ length piece.now) }
        ensures some { IfOk result (λ n. 0 < length piece.now → 0 < n) }
        ensures told { ⟦<HeldReplies<D, A> as ByteDrain>⟧.told self.new
            ≡ append_known (⟦<HeldReplies<D, A> as ByteDrain>⟧.told self.old) (moved result piece.now) }
        ensures flushed { ⟦<HeldReplies<D, A> as ByteDrain>⟧.flushed self.new
            ≡ ⟦<HeldReplies<D, A> as ByteDrain>⟧.flushed self.old }
        ensures calls { self.new.count.calls ≡ saturating_succ self.old.count.calls }
        ensures failures { self.new.count.failures ≡ failures_after self.old.count.failures result }
        // Nothing leaves.
        ensures inner { self.new.inner ≡ self.old.inner }
    {
        self.count.called();
        match self.held.extend_from_slice(piece) {
            Ok(()) => Ok(piece.len()),
            Err(_) => Err(self.count.failed(Failed)),
        }
    }

    /// What is held goes on being held.
    fn flush(&mut self) -> Result<(), Failed>
        ensures told { ⟦<HeldReplies<D, A> as ByteDrain>⟧.told self.new
            ≡ ⟦<HeldReplies<D, A> as ByteDrain>⟧.told self.old }
        ensures flushed { ⟦<HeldReplies<D, A> as ByteDrain>⟧.flushed self.new
            ≡ flushed_after (⟦<HeldReplies<D, A> as ByteDrain>⟧.flushed self.old)
            (⟦<HeldReplies<D, A> as ByteDrain>⟧.told self.old) result }
        ensures calls { self.new.count.calls ≡ saturating_succ self.old.count.calls }
        ensures failures { self.new.count.failures ≡ failures_after self.old.count.failures result }
        // Nothing leaves.
        ensures inner { self.new.inner ≡ self.old.inner }
        ensures held { self.new.held ≡ self.old.held }
    {
        self.count.called();
        self.flushed = self.held.len();
        Ok(())
    }
}
