//! One session over standard input and output, or over what stands for them in a test.

ghost use Rattle.std.specs.Prelude.{◌≡◌, ◌+◌, ◌≤◌};
ghost use Rattle.session_core.specs.Exchange.{Exchanges};
ghost use Rattle.exit_lines.specs.DeviceStates.{drain_state, source_state};
ghost use Rattle.program_runs.specs.SessionFinish.{finish_of, Finishes, most_reads};

use exit_lines::{Finish, Line};
use lone_sessions::serve;
use resp_wire::{ByteDrain, ByteSource, MAX_READS, READ_BUFFER};
use session_core::{Ended, Exec, SessionFault};
use std::alloc::Allocator;

/// How the program ends after a session: with status 0 at the end of the input, 4 out of
/// memory, and else 1; a session that did not come to the end of its input has one line.
pub fn after_session(session: Result<Ended, SessionFault>) -> Finish
    ensures { result ≡ finish_of session }
{
    match session {
        Ok(_) => Finish::quiet(0),
        Err(end) => match end {
            SessionFault::NoMemory => Finish::with_line(4, Line::OutOfMemory),
            SessionFault::ReadFault => Finish::with_line(1, Line::ReadFault),
            SessionFault::WriteFault(out) => Finish::with_line(1, Line::WriteFaultAfter(out)),
            SessionFault::Wire(fault) => Finish::with_line(1, Line::ProtocolFault(fault.number())),
            SessionFault::TooManyReads => Finish::with_line(1, Line::ReadTooOften),
        },
    }
}

/// Serves the source to the drain, and gives how the program ends.
pub fn stdio_run<R, A: Allocator + Copy, S: ByteSource, D: ByteDrain, E: Exec<R, A>>(
    rt: &R,
    alloc: A,
    source: &mut S,
    drain: &mut D,
    exec: &mut E,
) -> Finish
    requires { E.settled exec.old }
    ensures settled { E.settled exec.new }
    ensures finishes { Finishes (Exchanges E.allows) exec.old
        (source_state S.told S.calls S.failures source.old)
        (source_state S.told S.calls S.failures source.new)
        (drain_state D.told D.flushed D.failures drain.old)
        (drain_state D.told D.flushed D.failures drain.new)
        result exec.new }
    ensures reads { S.calls source.new ≤ S.calls source.old + most_reads }
{
    after_session(serve(rt, alloc, source, drain, exec, READ_BUFFER, MAX_READS))
}
