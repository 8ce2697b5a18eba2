//! An owner of sets as what runs the commands of a session.

ghost use Rattle.std.specs.Prelude.{◌≡◌};
ghost use Rattle.sorted_sets.specs.OwnerAnswers.{OwnerIsIdle, OwnerAnswers};

use crate::owner::OneOwner;
use command_executor::Exec;
use resp_wire::Reply;
use std::alloc::Allocator;
use std::hash::BuildHasher;
use zset_commands::{Command, Refusal};

/// One owner of sets: a command is answered by its definition, or refused with all sets as they
/// were.
impl<R, H: BuildHasher + Clone + Drop, A: Allocator + Copy> Exec<R, A> for OneOwner<H, A> {
    ghost settled = { OwnerIsIdle };

    ghost allows = { OwnerAnswers };

    // It has no log.
    ghost tells = { λ _ told. told ≡ 0 };

    fn run(&mut self, _rt: &R, command: &Command<A>) -> Result<Reply<A>, Refusal> {
        OneOwner::run(self, command)
    }

    fn take_told(&mut self) -> u64 {
        0
    }
}
