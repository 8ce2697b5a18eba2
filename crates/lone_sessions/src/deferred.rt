//! A session whose changes share their syncs: its replies wait for them.

ghost use Rattle.std.specs.Prelude.{◌≡◌, ℕ, ◌+◌, ◌-◌, ◌≤◌, ◌<◌, ◌^◌, List, Option, length, min, Err, IfErr, IfOk, OnOk, OnSome, MatchResult};
ghost use Rattle.std.specs.Io.KnownBytes.{IsAtEnd};
ghost use Rattle.resp_wire.specs.Device.{Rose, saturating_succ};
ghost use Rattle.append_log.specs.LoggedOwnerViewAndRuns.{LoggedView};
ghost use Rattle.lone_sessions.specs.ExchangesBetweenSyncs.{IsAt, IsPast, TalkBetweenSyncs};
ghost use Rattle.held_replies.specs.OwnerSync.{IsSynced};
ghost use Rattle.session_core.specs.Interleaved.{PartWay};
ghost use Rattle.session_core.specs.SessionEnd.{Served};
ghost use Rattle.session_core.specs.SendOutcome.{DrainFailed, SessionSourceFailed, SentOn};
ghost use Rattle.session_core.specs.ServeSteps.{IsBetween, SessionIsBetweenReads, IsSmall, StaysSmall, SessionUnderway};
ghost use Rattle.session_core.specs.declared.session_end.SessionFault.TheVariants.{WriteFault, TooManyReads};

use append_log::{LogSink, LoggedOwner};
use held_replies::HeldReplies;
use resp_wire::{ByteDrain, ByteSource, MAX_READS, READ_BUFFER, laws};
use session_core::{Ended, Progress, Session, SessionFault, begun};
use std::alloc::Allocator;
use std::hash::BuildHasher;
use std::sync::ledger::Ledger;

/// With so many bytes of replies held they are let go before the next request is run.
const MOST_HELD: usize = 16_384;

/// Lets replies go behind a sync, with the fault by which a session ends where they can't.
fn let_go<H, K, L, D, A>(
    owner: &mut LoggedOwner<H, K, L, A>,
    replies: &mut HeldReplies<D, A>,
    progress: &Progress,
) -> Result<(), SessionFault>
where
    H: BuildHasher + Clone + Drop,
    K: LogSink,
    L: Ledger,
    D: ByteDrain,
    A: Allocator + Copy,
    ensures told { ⟦<HeldReplies<D, A> as ByteDrain>⟧.told replies.new
        ≡ ⟦<HeldReplies<D, A> as ByteDrain>⟧.told replies.old }
    ensures sent { OnOk result (D.flushed replies.new.inner ≡ ⟦<HeldReplies<D, A> as ByteDrain>⟧.told replies.new) }
    ensures settled { OnOk result (owner.new.log.settled ≡ owner.new.log.appended) }
    ensures synced { IsSynced owner.old owner.new }
    ensures err { IfErr result (λ end. end ≡ WriteFault progress.now.out) }
    ensures failures { MatchResult result (λ _. replies.new.count.failures ≡ replies.old.count.failures)
        (λ end. DrainFailed end replies.old.count.failures replies.new.count.failures) }
{
    match replies.let_go(owner) {
        Ok(()) => Ok(()),
        Err(_) => Err(SessionFault::WriteFault(progress.out)),
    }
}

/// Runs the requests that the decoder holds. Their replies are held, but where they are too many; behind a fault of the
/// protocol all are let go.
fn answer_deferred<R, H, K, L, D, A>(
    rt: &R,
    session: &mut Session<A>,
    replies: &mut HeldReplies<D, A>,
    owner: &mut LoggedOwner<H, K, L, A>,
) -> Result<(), SessionFault>
where
    H: BuildHasher + Clone + Drop,
    K: LogSink,
    L: Ledger,
    D: ByteDrain,
    A: Allocator + Copy,
    requires ready { SessionIsBetweenReads session.old.decoder session.old.progress }
    ensures small { OnOk result (IsSmall session.new.decoder session.new.progress) }
    ensures bytes { OnOk result (session.new.decoder.taken + length session.new.decoder.held
        ≡ session.old.decoder.taken + length session.old.decoder.held) }
    ensures past { (start : LoggedView) (source₀ source drain₀ : Option (List ℕ))
        → PartWay TalkBetweenSyncs start source₀ source drain₀
        (⟦<HeldReplies<D, A> as ByteDrain>⟧.told replies.old) owner.old session.old.decoder session.old.progress
        → IsPast start source₀ source drain₀ (⟦<HeldReplies<D, A> as ByteDrain>⟧.told replies.new)
        result owner.new session.new.decoder session.new.progress }
    ensures failures { MatchResult result (λ _. replies.new.count.failures ≡ replies.old.count.failures)
        (λ end. DrainFailed end replies.old.count.failures replies.new.count.failures) }
    ensures sent_on { IfErr result (λ end. SentOn end (⟦<HeldReplies<D, A> as ByteDrain>⟧.told replies.new)
        (D.flushed replies.new.inner)) }
    ensures between { IfErr result IsBetween }
{
    'turns: loop {
        match session.turn(rt, 1, replies, owner) {
            Ok(is_all) => {
                if is_all {
                    return Ok(());
                }
                if replies.len() >= MOST_HELD {
                    let_go(owner, replies, &session.progress)?;
                }
            }
            Err(end) => match end {
                SessionFault::Wire(_) => {
                    let_go(owner, replies, &session.progress)?;
                    return Err(end);
                }
                SessionFault::NoMemory
                | SessionFault::ReadFault
                | SessionFault::WriteFault(_)
                | SessionFault::TooManyReads => return Err(end),
            },
        }
    }
}

/// Lets the replies go, reads once, and answers all requests that are whole then. None: the input may go on.
fn read_deferred<R, H, K, L, S, D, A>(
    rt: &R,
    session: &mut Session<A>,
    source: &mut S,
    buffer: &mut [u8],
    replies: &mut HeldReplies<D, A>,
    owner: &mut LoggedOwner<H, K, L, A>,
) -> Result<Option<Ended>, SessionFault>
where
    H: BuildHasher + Clone + Drop,
    K: LogSink,
    L: Ledger,
    S: ByteSource,
    D: ByteDrain,
    A: Allocator + Copy,
    requires ready { SessionIsBetweenReads session.old.decoder session.old.progress }
    requires some { 1 ≤ length buffer.old }
    requires room { session.old.decoder.taken + length session.old.decoder.held + length buffer.old
        < 2 ^ 60 }
    ensures small { OnOk result (StaysSmall session.old.decoder (length buffer.old)
        session.new.decoder session.new.progress) }
    ensures at { (start : LoggedView) (source₀ drain₀ : Option (List ℕ))
        → SessionUnderway TalkBetweenSyncs start source₀ (S.told source.old) drain₀
        (⟦<HeldReplies<D, A> as ByteDrain>⟧.told replies.old) owner.old session.old.decoder session.old.progress
        → IsAt start source₀ (S.told source.new) drain₀ (⟦<HeldReplies<D, A> as ByteDrain>⟧.told replies.new)
        result owner.new session.new.decoder session.new.progress }
    ensures reads { S.calls source.new ≤ S.calls source.old + 1 }
    ensures once { OnOk result (S.calls source.new ≡ saturating_succ (S.calls source.old)) }
    ensures not_many { result ≡ Err TooManyReads → ⊥ }
    ensures at_end { IfOk result (λ next. OnSome next (IsAtEnd (S.told source.new))) }
    ensures source_failures { MatchResult result
        (λ _. S.failures source.new ≡ S.failures source.old)
        (λ end. SessionSourceFailed end (S.failures source.old) (S.failures source.new)) }
    ensures drain_failures { MatchResult result
        (λ _. replies.new.count.failures ≡ replies.old.count.failures)
        (λ end. DrainFailed end replies.old.count.failures replies.new.count.failures) }
    ensures sent_on { MatchResult result
        (λ next. OnSome next ((D.flushed replies.new.inner ≡ ⟦<HeldReplies<D, A> as ByteDrain>⟧.told replies.new)
        × (owner.new.log.settled ≡ owner.new.log.appended)))
        (λ end. SentOn end (⟦<HeldReplies<D, A> as ByteDrain>⟧.told replies.new) (D.flushed replies.new.inner)) }
{
    // What a stream holds does not depend on the pieces that it comes in.
    laws::cut();
    let_go(owner, replies, &session.progress)?;
    match source.read(buffer) {
        Err(_) => Err(SessionFault::ReadFault),
        Ok(0) => Ok(Some(session.ended())),
        Ok(n) => {
            session.feed(&buffer[..n])?;
            answer_deferred(rt, session, replies, owner)?;
            Ok(None)
        }
    }
}

/// Serves one connection until its input ends, as [`serve`](crate::serve) does, from an owner whose log is deferred: many
/// changes share a sync. Replies are held, and let go behind a sync of all records that they may tell of: before each read,
/// where many are held, behind a fault of the protocol, and in the end.
///
/// # Errors
///
/// Those of [`serve`](crate::serve). Where the records can't be settled the session ends with
/// [`SessionFault::WriteFault`], and no reply leaves that may tell of them: those that are held count as written there.
pub fn serve_deferred<R, H, K, L, S, D, A>(
    rt: &R,
    alloc: A,
    source: &mut S,
    replies: &mut HeldReplies<D, A>,
    owner: &mut LoggedOwner<H, K, L, A>,
) -> Result<Ended, SessionFault>
where
    H: BuildHasher + Clone + Drop,
    K: LogSink,
    L: Ledger,
    S: ByteSource,
    D: ByteDrain,
    A: Allocator + Copy,
    ensures served { Served TalkBetweenSyncs owner.old (S.told source.old) (S.told source.new)
        (⟦<HeldReplies<D, A> as ByteDrain>⟧.told replies.old) (⟦<HeldReplies<D, A> as ByteDrain>⟧.told replies.new)
        result owner.new }
    ensures at_end { OnOk result (IsAtEnd (S.told source.new)) }
    ensures settled { OnOk result (owner.new.log.settled ≡ owner.new.log.appended) }
    ensures reads { S.calls source.new ≤ S.calls source.old + MAX_READS }
    // So many reads were made, as far as the source counts.
    ensures many { result ≡ Err TooManyReads → min (S.calls source.old + MAX_READS) (2 ^ 64 - 1)
        ≤ S.calls source.new }
    ensures source_failures { MatchResult result
        (λ _. S.failures source.new ≡ S.failures source.old)
        (λ end. SessionSourceFailed end (S.failures source.old) (S.failures source.new)) }
    ensures drain_failures { MatchResult result (λ _. replies.new.count.failures ≡ replies.old.count.failures)
        (λ end. DrainFailed end replies.old.count.failures replies.new.count.failures) }
    ensures sent_on { MatchResult result
        (λ _. D.flushed replies.new.inner ≡ ⟦<HeldReplies<D, A> as ByteDrain>⟧.told replies.new)
        (λ end. SentOn end (⟦<HeldReplies<D, A> as ByteDrain>⟧.told replies.new) (D.flushed replies.new.inner)) }
{
    let begun = match begun(alloc, READ_BUFFER) {
        Ok(begun) => begun,
        Err(_) => return Err(SessionFault::NoMemory),
    };
    let (mut piece, mut session) = begun;
    'reads: for _ in 0..MAX_READS {
        if let Some(ended) = read_deferred(rt, &mut session, source, &mut piece, replies, owner)? {
            return Ok(ended);
        }
    }
    let_go(owner, replies, &session.progress)?;
    Err(SessionFault::TooManyReads)
}
