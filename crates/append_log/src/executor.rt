//! An owner with an append file as what runs the commands of a session.

ghost use Rattle.std.specs.Prelude.{◌≡◌, ⊤};
ghost use Rattle.append_log.specs.LoggedAnswers.{LoggedAnswers};

use crate::logged::LoggedOwner;
use command_executor::Exec;
use log_records::LogSink;
use resp_wire::Reply;
use std::alloc::Allocator;
use std::hash::BuildHasher;
use std::sync::ledger::Ledger;
use zset_commands::{Command, Refusal};

/// An owner with an append file: a command that changes sets is answered once its record was appended: synced, unless its
/// log is deferred. Then its answers wait for [`LoggedOwner::sync`].
impl<R, H: BuildHasher + Clone + Drop, S: LogSink, L: Ledger, A: Allocator + Copy> Exec<R, A>
    for LoggedOwner<H, S, L, A> {
    ghost settled = { λ _. ⊤ };

    ghost allows = { LoggedAnswers };

    // None waits here: its owner settles them.
    ghost tells = { λ _ told. told ≡ 0 };

    fn run(&mut self, _rt: &R, command: &Command<A>) -> Result<Reply<A>, Refusal> {
        LoggedOwner::run(self, command)
    }

    fn take_told(&mut self) -> u64 {
        0
    }
}
