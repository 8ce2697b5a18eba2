//! Pieces of the input, each answered as far as its requests are whole.

ghost use Rattle.std.specs.Prelude.{◌≡◌, ◌++◌, None, IfErr, OnOk, MatchResult};
ghost use Rattle.resp_wire.specs.Stream.{requests, fault};
ghost use Rattle.session_core.specs.SendOutcome.{DrainFailed, SentOn};
ghost use Rattle.session_core.specs.ServeSteps.{IsSmall, SessionIsBetweenReads, Halted, Answered, fed};

use crate::resumable_session::Session;
use crate::session_end::SessionFault;
use command_executor::Exec;
use resp_wire::ByteDrain;
use std::alloc::Allocator;

/// The requests of a turn.
const TURN: u64 = 128;

impl<A: Allocator + Copy> Session<A> {
    /// Runs the requests that the decoder holds, turn after turn.
    pub fn answer_held<R, D: ByteDrain, E: Exec<R, A>>(
        &mut self,
        rt: &R,
        drain: &mut D,
        exec: &mut E,
    ) -> Result<(), SessionFault>
        requires settled { E.settled exec.old }
        requires ready { SessionIsBetweenReads self.old.decoder self.old.progress }
        ensures settled { E.settled exec.new }
        ensures small { OnOk result (IsSmall self.new.decoder self.new.progress) }
        ensures answered { OnOk result
            (Answered E.allows exec.old self.old.decoder self.old.progress (D.told drain.old)
            exec.new self.new.decoder self.new.progress (D.told drain.new)) }
        ensures halted { IfErr result
            (λ end. Halted E.allows exec.old (requests self.old.decoder.held)
            (fault self.old.decoder.held) self.old.progress.out (D.told drain.old) end exec.new
            (D.told drain.new)) }
        ensures failures { MatchResult result (λ _. D.failures drain.new ≡ D.failures drain.old)
            (λ end. DrainFailed end (D.failures drain.old) (D.failures drain.new)) }
        ensures sent_on { IfErr result
            (λ end. SentOn end (D.told drain.new) (D.flushed drain.new)) }
    {
        'turns: loop {
            if self.turn(rt, TURN, drain, exec)? {
                return Ok(());
            }
        }
    }

    /// Takes the next piece of the input, and answers all requests that are whole then.
    pub fn take_piece<R, D: ByteDrain, E: Exec<R, A>>(
        &mut self,
        rt: &R,
        piece: &[u8],
        drain: &mut D,
        exec: &mut E,
    ) -> Result<(), SessionFault>
        requires settled { E.settled exec.old }
        requires unfaulted { self.old.decoder.fault ≡ None }
        requires small { IsSmall (fed self.old.decoder piece.now) self.old.progress }
        ensures settled { E.settled exec.new }
        ensures small { OnOk result (IsSmall self.new.decoder self.new.progress) }
        ensures answered { OnOk result
            (Answered E.allows exec.old (fed self.old.decoder piece.now) self.old.progress
            (D.told drain.old) exec.new self.new.decoder self.new.progress (D.told drain.new)) }
        ensures halted { IfErr result
            (λ end. Halted E.allows exec.old (requests (self.old.decoder.held ++ piece.now))
            (fault (self.old.decoder.held ++ piece.now)) self.old.progress.out (D.told drain.old)
            end exec.new (D.told drain.new)) }
        ensures failures { MatchResult result (λ _. D.failures drain.new ≡ D.failures drain.old)
            (λ end. DrainFailed end (D.failures drain.old) (D.failures drain.new)) }
        ensures sent_on { IfErr result
            (λ end. SentOn end (D.told drain.new) (D.flushed drain.new)) }
    {
        if self.decoder.feed(piece).is_err() {
            return Err(SessionFault::NoMemory);
        }
        self.answer_held(rt, drain, exec)
    }
}
