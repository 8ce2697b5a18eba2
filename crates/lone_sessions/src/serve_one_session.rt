//! A session that is served alone.

ghost use Rattle.std.specs.Prelude.{◌≡◌, ◌+◌, ◌-◌, ◌≤◌, ◌<◌, ◌^◌, length, min, Err, IfErr, OnOk, OnSome, MatchResult};
ghost use Rattle.std.specs.Io.KnownBytes.{IsAtEnd};
ghost use Rattle.resp_wire.specs.Device.{Rose, saturating_succ};
ghost use Rattle.session_core.specs.Exchange.{Exchanges};
ghost use Rattle.session_core.specs.SessionEnd.{Served};
ghost use Rattle.session_core.specs.SendOutcome.{DrainFailed, SessionSourceFailed, SentOn};
ghost use Rattle.session_core.specs.declared.session_end.SessionFault.TheVariants.{WriteFault, TooManyReads};
ghost use Rattle.session_core.specs.ServeSteps.{SessionIsBetweenReads, StaysSmall, Round};

use resp_wire::{ByteDrain, ByteSource, MAX_READ_BUFFER, MAX_READS, laws};
use session_core::{Ended, Exec, Progress, Session, SessionFault, begun};
use std::alloc::Allocator;

/// Sends on what the drain holds back.
fn flush<D: ByteDrain>(drain: &mut D, progress: &Progress) -> Result<(), SessionFault>
    ensures told { D.told drain.new ≡ D.told drain.old }
    ensures err { IfErr result (λ end. end ≡ WriteFault progress.now.out) }
    ensures failures { MatchResult result (λ _. D.failures drain.new ≡ D.failures drain.old)
        (λ _. Rose (D.failures drain.old) (D.failures drain.new)) }
    ensures sent_on { MatchResult result (λ _. D.flushed drain.new ≡ D.told drain.new)
        (λ end. SentOn end (D.told drain.new) (D.flushed drain.new)) }
{
    match drain.flush() {
        Ok(()) => Ok(()),
        Err(_) => Err(SessionFault::WriteFault(progress.out)),
    }
}

/// Reads once, and answers all requests that are whole then. None: the input may go on.
fn read_on<R, A: Allocator + Copy, S: ByteSource, D: ByteDrain, E: Exec<R, A>>(
    rt: &R,
    session: &mut Session<A>,
    source: &mut S,
    buffer: &mut [u8],
    drain: &mut D,
    exec: &mut E,
) -> Result<Option<Ended>, SessionFault>
    requires settled { E.settled exec.old }
    requires ready { SessionIsBetweenReads session.old.decoder session.old.progress }
    requires some { 1 ≤ length buffer.old }
    requires room { session.old.decoder.taken + length session.old.decoder.held + length buffer.old
        < 2 ^ 60 }
    ensures settled { E.settled exec.new }
    ensures small { OnOk result (StaysSmall session.old.decoder (length buffer.old)
        session.new.decoder session.new.progress) }
    ensures round { Round E.allows exec.old session.old.decoder session.old.progress
        (S.told source.old) (D.told drain.old) result exec.new session.new.decoder
        session.new.progress (S.told source.new) (D.told drain.new) }
    ensures reads { S.calls source.new ≤ S.calls source.old + 1 }
    ensures once { OnOk result (S.calls source.new ≡ saturating_succ (S.calls source.old)) }
    ensures source_failures { MatchResult result
        (λ _. S.failures source.new ≡ S.failures source.old)
        (λ end. SessionSourceFailed end (S.failures source.old) (S.failures source.new)) }
    ensures drain_failures { MatchResult result
        (λ _. D.failures drain.new ≡ D.failures drain.old)
        (λ end. DrainFailed end (D.failures drain.old) (D.failures drain.new)) }
    ensures sent_on { MatchResult result
        (λ next. OnSome next (D.flushed drain.new ≡ D.told drain.new))
        (λ end. SentOn end (D.told drain.new) (D.flushed drain.new)) }
{
    flush(drain, &session.progress)?;
    match source.read(buffer) {
        Err(_) => Err(SessionFault::ReadFault),
        Ok(0) => {
            flush(drain, &session.progress)?;
            Ok(Some(session.ended()))
        }
        Ok(n) => {
            session.take_piece(rt, &buffer[..n], drain, exec)?;
            Ok(None)
        }
    }
}

/// Serves one connection until its input ends: requests are read from the source and run in turn,
/// and their replies written to the drain. A reply is out whole before the next request is run; a
/// refused command is answered by its error text. What the drain holds back is sent on before each
/// read, so a client that waits for a reply has it, and before the session ends in good order.
///
/// Each read is handed a slice of `buffer` bytes, and there are `max_reads` reads at most.
///
/// # Errors
///
/// [`SessionFault::ReadFault`], [`SessionFault::TooManyReads`]: all requests that were read whole were run,
/// and their replies written. [`SessionFault::Wire`]: these, and behind them the error text of the fault.
/// [`SessionFault::WriteFault`] bears how many bytes of the replies, and of such a text, the drain took
/// before it failed: each reply is whole but for the last of these, and no request behind it was run.
/// [`SessionFault::NoMemory`], for a request or for a reply's bytes: the replies are whole; a request may
/// have been run whose reply is missing, the last one. (A command that has no memory for its work is
/// refused by a reply, and the session goes on.) Of a device that does not tell its bytes, as a socket
/// doesn't, all this holds of some bytes.
pub fn serve<R, A: Allocator + Copy, S: ByteSource, D: ByteDrain, E: Exec<R, A>>(
    rt: &R,
    alloc: A,
    source: &mut S,
    drain: &mut D,
    exec: &mut E,
    buffer: usize,
    max_reads: u64,
) -> Result<Ended, SessionFault>
    requires settled { E.settled exec.old }
    requires some { 1 ≤ buffer }
    requires buffer { buffer ≤ MAX_READ_BUFFER }
    requires reads { max_reads ≤ MAX_READS }
    ensures settled { E.settled exec.new }
    ensures served { Served (Exchanges E.allows) exec.old (S.told source.old) (S.told source.new)
        (D.told drain.old) (D.told drain.new) result exec.new }
    ensures at_end { OnOk result (IsAtEnd (S.told source.new)) }
    ensures reads { S.calls source.new ≤ S.calls source.old + max_reads }
    // So many reads were made, as far as the source counts.
    ensures many { result ≡ Err TooManyReads → min (S.calls source.old + max_reads) (2 ^ 64 - 1)
        ≤ S.calls source.new }
    ensures source_failures { MatchResult result
        (λ _. S.failures source.new ≡ S.failures source.old)
        (λ end. SessionSourceFailed end (S.failures source.old) (S.failures source.new)) }
    ensures drain_failures { MatchResult result (λ _. D.failures drain.new ≡ D.failures drain.old)
        (λ end. DrainFailed end (D.failures drain.old) (D.failures drain.new)) }
    // A read that fails leaves it so too: all was sent on before each read.
    ensures sent_on { MatchResult result (λ _. D.flushed drain.new ≡ D.told drain.new)
        (λ end. SentOn end (D.told drain.new) (D.flushed drain.new)) }
{
    // What a stream holds does not depend on the pieces that it comes in.
    laws::cut();
    let begun = match begun(alloc, buffer) {
        Ok(begun) => begun,
        Err(_) => return Err(SessionFault::NoMemory),
    };
    let (mut piece, mut session) = begun;
    'reads: for _ in 0..max_reads {
        if let Some(ended) = read_on(rt, &mut session, source, &mut piece, drain, exec)? {
            return Ok(ended);
        }
    }
    flush(drain, &session.progress)?;
    Err(SessionFault::TooManyReads)
}
