//! A session between its turns.

ghost use Rattle.std.specs.Prelude.{◌≡◌, ℕ, ◌+◌, ◌≤◌, ◌<◌, ◌^◌, [], length, true, false, None, Ok, Err, IfErr, IfOk, OnOk, MatchResult};
ghost use Rattle.std.specs.Io.KnownBytes.{append_known};
ghost use Rattle.resp_wire.specs.Stream.{requests, fault};
ghost use Rattle.resp_wire.specs.Response.{response_of, encoded};
ghost use Rattle.resp_wire.specs.declared.fault.ProtocolFault.{ProtocolFault};
ghost use Rattle.zset_commands.specs.CommandGrammar.{asked};
ghost use Rattle.session_core.specs.Interleaved.{TakesTurns};
ghost use Rattle.session_core.specs.SendOutcome.{DrainFailed, SendEnds, SentOn};
ghost use Rattle.session_core.specs.declared.session_end.SessionFault.TheVariants.{NoMemory, WriteFault, Wire};
ghost use Rattle.session_core.specs.ServeSteps.{IsSmall, SessionIsBetweenReads, AnsweredOne, HaltedOne, Halfway, Answered, Halted, fed};

use crate::reply_sending::{send, tell_fault};
use crate::session_end::{Ended, SessionFault};
use command_executor::Exec;
use resp_wire::{ByteDrain, Decoder, Reply, Request, WireFault, laws};
use std::alloc::{AllocError, Allocator};
use std::mem;
use zset_commands::Command;

/// How far a session came.
#[derive(Clone, Copy, Debug, PartialEq, Eq)]
pub struct Progress {
    /// The requests that were run.
    pub requests: u64,
    /// The bytes of replies that are out.
    pub out: u128,
}

/// A session between its turns, for one who shares its executor among several: pieces of the input
/// are fed, and the requests in them run turn by turn. `lone_sessions` serves one alone.
#[derive(Drop)]
pub struct Session<A: Allocator> {
    alloc: A,
    pub decoder: Decoder<A>,
    /// The buffer that replies share.
    text: Vec<u8, A>,
    pub progress: Progress,
}

impl<A: Allocator + Copy> Session<A> {
    /// A session before its first read. It takes no memory.
    pub fn new(alloc: A) -> Self
        ensures decoder { result.decoder ≡ record { held = []; taken = 0; fault = None } }
        ensures progress { result.progress ≡ record { requests = 0; out = 0 } }
    {
        Session {
            alloc,
            decoder: Decoder::new(alloc),
            text: Vec::new(alloc),
            progress: Progress {
                requests: 0,
                out: 0,
            },
        }
    }

    /// Sends the reply to a request, and counts it.
    fn put_reply<D: ByteDrain>(
        &mut self,
        reply: &Reply<A>,
        drain: &mut D,
    ) -> Result<(), SessionFault>
        requires few { self.old.progress.requests < 2 ^ 60 }
        requires room { self.old.progress.out < 2 ^ 127 }
        ensures decoder { self.new.decoder ≡ self.old.decoder }
        ensures told { OnOk result (D.told drain.new
            ≡ append_known (D.told drain.old) (encoded (response_of reply.now))) }
        ensures out { OnOk result (self.new.progress.out
            ≡ self.old.progress.out + length (encoded (response_of reply.now))) }
        ensures count { OnOk result (self.new.progress.requests ≡ self.old.progress.requests + 1) }
        ensures grown { OnOk result (self.new.progress.out < self.old.progress.out + 2 ^ 64) }
        ensures ended { IfErr result (SendEnds (encoded (response_of reply.now)) self.old.progress.out
            (D.told drain.old) (D.told drain.new)) }
        ensures failures { MatchResult result (λ _. D.failures drain.new ≡ D.failures drain.old)
            (λ end. DrainFailed end (D.failures drain.old) (D.failures drain.new)) }
        ensures sent_on { IfErr result
            (λ end. SentOn end (D.told drain.new) (D.flushed drain.new)) }
    {
        send(drain, &mut self.text, &mut self.progress.out, reply)?;
        self.progress.requests += 1;
        Ok(())
    }

    /// Runs a command, and sends its reply. Each reply is sent where it comes to be, since a reply is long to move.
    fn answer_command<R, D: ByteDrain, E: Exec<R, A>>(
        &mut self,
        rt: &R,
        command: &Command<A>,
        drain: &mut D,
        exec: &mut E,
    ) -> Result<(), SessionFault>
        requires settled { E.settled exec.old }
        requires read { asked command.now.words ≡ Ok command.now.meaning }
        requires few { self.old.progress.requests < 2 ^ 60 }
        requires room { self.old.progress.out < 2 ^ 127 }
        ensures settled { E.settled exec.new }
        ensures decoder { self.new.decoder ≡ self.old.decoder }
        ensures answered { OnOk result
            (AnsweredOne E.allows exec.old command.now.words self.old.progress (D.told drain.old) exec.new
            self.new.progress (D.told drain.new)) }
        ensures grown { OnOk result (self.new.progress.out < self.old.progress.out + 2 ^ 64) }
        ensures halted { IfErr result
            (λ end. HaltedOne E.allows exec.old command.now.words self.old.progress.out (D.told drain.old) end
            exec.new (D.told drain.new)) }
        ensures failures { MatchResult result (λ _. D.failures drain.new ≡ D.failures drain.old)
            (λ end. DrainFailed end (D.failures drain.old) (D.failures drain.new)) }
        ensures sent_on { IfErr result
            (λ end. SentOn end (D.told drain.new) (D.flushed drain.new)) }
    {
        match exec.run(rt, command) {
            Err(refusal) => self.put_reply(&Reply::Fault(refusal.text()), drain),
            Ok(reply) => self.put_reply(&reply, drain),
        }
    }

    /// Runs a request, and sends its reply.
    fn answer<R, D: ByteDrain, E: Exec<R, A>>(
        &mut self,
        rt: &R,
        request: Request<A>,
        drain: &mut D,
        exec: &mut E,
    ) -> Result<(), SessionFault>
        requires settled { E.settled exec.old }
        requires few { self.old.progress.requests < 2 ^ 60 }
        requires room { self.old.progress.out < 2 ^ 127 }
        ensures settled { E.settled exec.new }
        ensures decoder { self.new.decoder ≡ self.old.decoder }
        ensures answered { OnOk result
            (AnsweredOne E.allows exec.old request self.old.progress (D.told drain.old) exec.new
            self.new.progress (D.told drain.new)) }
        ensures grown { OnOk result (self.new.progress.out < self.old.progress.out + 2 ^ 64) }
        ensures halted { IfErr result
            (λ end. HaltedOne E.allows exec.old request self.old.progress.out (D.told drain.old) end
            exec.new (D.told drain.new)) }
        ensures failures { MatchResult result (λ _. D.failures drain.new ≡ D.failures drain.old)
            (λ end. DrainFailed end (D.failures drain.old) (D.failures drain.new)) }
        ensures sent_on { IfErr result
            (λ end. SentOn end (D.told drain.new) (D.flushed drain.new)) }
    {
        match Command::read(self.alloc, request) {
            Err(refusal) => self.put_reply(&Reply::Fault(refusal.text()), drain),
            Ok(command) => {
                let sent = self.answer_command(rt, &command, drain, exec);
                self.decoder.reuse(command.into_request());
                sent
            }
        }
    }

    /// Takes the next piece of the input.
    ///
    /// # Errors
    ///
    /// [`SessionFault::NoMemory`]: the session is as it was.
    pub fn feed(&mut self, piece: &[u8]) -> Result<(), SessionFault>
        requires unfaulted { self.old.decoder.fault ≡ None }
        requires small { IsSmall (fed self.old.decoder piece.now) self.old.progress }
        ensures fed { OnOk result (self.new.decoder ≡ fed self.old.decoder piece.now) }
        ensures err { IfErr result
            (λ end. (end ≡ NoMemory) × (self.new.decoder ≡ self.old.decoder)) }
        ensures progress { self.new.progress ≡ self.old.progress }
    {
        match self.decoder.feed(piece) {
            Ok(()) => Ok(()),
            Err(_) => Err(SessionFault::NoMemory),
        }
    }

    /// How a session ends whose input has come to its end.
    pub fn ended(&self) -> Ended
        ensures requests { result.requests ≡ self.now.progress.requests }
        ensures rest { result.rest ≡ length self.now.decoder.held }
    {
        Ended {
            requests: self.progress.requests,
            rest: self.decoder.rest_len(),
        }
    }

    /// Puts replies into this memory from now on, which many sessions can share in turn.
    pub fn lend(&mut self, memory: Vec<u8, A>)
        ensures decoder { self.new.decoder ≡ self.old.decoder }
        ensures progress { self.new.progress ≡ self.old.progress }
    {
        self.text = memory;
    }

    /// Gives up the memory for replies. What the decoder has stays its own: where memory is exhausted
    /// later, the next request still has room.
    pub fn take_memory(&mut self) -> Vec<u8, A>
        ensures decoder { self.new.decoder ≡ self.old.decoder }
        ensures progress { self.new.progress ≡ self.old.progress }
    {
        mem::replace(&mut self.text, Vec::new(self.alloc))
    }

    /// One turn: runs requests that the decoder holds, `most` of them at most, each after the reply
    /// before it was written whole. True: all that are whole were run. False: so many were run, and
    /// there may be more.
    ///
    /// # Errors
    ///
    /// As a session ends that is served alone: with no [`SessionFault::ReadFault`] or [`SessionFault::TooManyReads`].
    pub fn turn<R, D: ByteDrain, E: Exec<R, A>>(
        &mut self,
        rt: &R,
        most: u64,
        drain: &mut D,
        exec: &mut E,
    ) -> Result<bool, SessionFault>
        requires settled { E.settled exec.old }
        requires ready { SessionIsBetweenReads self.old.decoder self.old.progress }
        ensures settled { E.settled exec.new }
        ensures ready { OnOk result (SessionIsBetweenReads self.new.decoder self.new.progress) }
        ensures answered { IfOk result (λ all. all ≡ true →
            Answered E.allows exec.old self.old.decoder self.old.progress (D.told drain.old)
            exec.new self.new.decoder self.new.progress (D.told drain.new)) }
        ensures half { IfOk result (λ all. all ≡ false →
            Halfway E.allows exec.old self.old.decoder self.old.progress (D.told drain.old)
            exec.new self.new.decoder self.new.progress (D.told drain.new)) }
        ensures count { IfOk result (λ all. all ≡ false →
            self.new.progress.requests ≡ self.old.progress.requests + most) }
        // Each request that was run took a byte or more off what is held.
        ensures shrinks { OnOk result (length self.new.decoder.held + self.new.progress.requests
            ≤ length self.old.decoder.held + self.old.progress.requests) }
        ensures halted { IfErr result
            (λ end. Halted E.allows exec.old (requests self.old.decoder.held)
            (fault self.old.decoder.held) self.old.progress.out (D.told drain.old) end exec.new
            (D.told drain.new)) }
        // Where a fault of the protocol was told, its text is counted with the bytes that are out.
        ensures counted { (told : ProtocolFault) → result ≡ Err (Wire told)
            → Halted E.allows exec.old (requests self.old.decoder.held)
            (fault self.old.decoder.held) self.old.progress.out (D.told drain.old)
            (WriteFault self.new.progress.out) exec.new (D.told drain.new) }
        ensures failures { MatchResult result (λ _. D.failures drain.new ≡ D.failures drain.old)
            (λ end. DrainFailed end (D.failures drain.old) (D.failures drain.new)) }
        ensures sent_on { IfErr result
            (λ end. SentOn end (D.told drain.new) (D.flushed drain.new)) }
    {
        'requests: for _ in 0..most {
            match self.decoder.next() {
                Err(wire_fault) => {
                    return Err(match wire_fault {
                        WireFault::NoMemory => SessionFault::NoMemory,
                        WireFault::Protocol(fault) => {
                            tell_fault(drain, &mut self.text, &mut self.progress.out, fault)
                        }
                    });
                }
                Ok(next) => match next {
                    None => {
                        // The rest behind the last whole request is no longer than what was held.
                        laws::longest();
                        return Ok(true);
                    }
                    Some(request) => self.answer(rt, request, drain, exec)?,
                },
            }
        }
        Ok(false)
    }
}

/// What is reserved for a reply at the start, more than the longest text of an error takes: where memory
/// is exhausted later, that is told.
const REPLY_ROOM: usize = 128;

/// Where pieces of the input are read into, and a session before its first read.
pub fn begun<A: Allocator + Copy>(
    alloc: A,
    buffer: usize,
) -> Result<(Vec<u8, A>, Session<A>), AllocError>
    ensures piece { IfOk result (λ begun. length begun.0.items ≡ buffer) }
    ensures decoder { IfOk result
        (λ begun. begun.1.decoder ≡ record { held = []; taken = 0; fault = None }) }
    ensures progress { IfOk result (λ begun. begun.1.progress ≡ record { requests = 0; out = 0 }) }
{
    let piece = vec![in alloc; 0; buffer]?;
    let mut session = Session::new(alloc);
    session.text = Vec::with_capacity(alloc, REPLY_ROOM)?;
    Ok((piece, session))
}

/// Sessions may share an executor, turn by turn: whatever others were served between its turns, a
/// session goes on, and ends as one that is served alone, its exchanges standing among theirs.
pub fn takes_turns<R, A: Allocator + Copy, E: Exec<R, A>>()
    ensures law { TakesTurns E.allows }
{
    laws::cut();
}
