//! What runs commands.

ghost use Rattle.std.specs.Prelude.{◌≡◌, ℕ, Result};
ghost use Rattle.resp_wire.specs.Response.{Response};
ghost use Rattle.zset_commands.specs.AbstractCommand.{Asked};
ghost use Rattle.zset_commands.specs.declared.refusal.Refusal.{Refusal as RefusalValue};
ghost use Rattle.command_executor.specs.Answer.{answer_of};

use resp_wire::Reply;
use std::alloc::Allocator;
use zset_commands::{Command, Refusal};

/// What runs commands: one owner of sets, with an append file or without, or a worker on a shared
/// table. `R` is the runtime, for those that wait for others.
pub trait Exec<R, A: Allocator> {
    /// It may run a command now.
    ghost settled: { Self → Type 0 };

    /// Old state, command, answer, new state.
    ghost allows: { Self → Asked → Result Response RefusalValue → Self → Type 0 };

    /// The answers given since [`Exec::take_told`] was last asked may tell of the log's records up to this number, and of
    /// none behind it: as far as contracts see an executor's records.
    ghost tells: { Self → ℕ → Type 0 };

    /// Runs one command.
    fn run(&mut self, rt: &R, command: &Command<A>) -> Result<Reply<A>, Refusal>
        requires { settled self.old }
        ensures settled { settled self.new }
        ensures allowed { allows self.old command.now (answer_of result) self.new };

    /// The log's number of the last record that the answers given since this was last asked may tell of, where records
    /// are settled later than they are appended: those answers wait for it. 0 where they tell of none.
    fn take_told(&mut self) -> u64
        ensures same { self.new ≡ self.old }
        ensures told { tells self.old result };
}
