//! The replay of one command.

ghost use Rattle.std.specs.Prelude.{◌≡◌, None, Ok, Some, OnOk, OnErr, IfErr};
ghost use Rattle.log_records.specs.Replay.{after_reading, is_replayed as is_replayed_by};
ghost use Rattle.log_records.specs.ReloadSteps.{UnreplayedFor};

use crate::version::Version;
use sorted_sets::OneOwner;
use std::alloc::Allocator;
use std::hash::BuildHasher;
use zset_commands::{Command, Refusal};

/// Why a record is not replayed.
#[derive(Clone, Copy, Debug, PartialEq, Eq)]
pub enum Unreplayed {
    NoMemory,
    NotACommand,
    UnknownVersion,
}

/// Whether a command is replayed in a file of this version.
fn is_replayed<A: Allocator>(version: Version, command: &Command<A>) -> bool
    ensures { result ≡ is_replayed_by version command.now.meaning }
{
    match version {
        Version::Commands => command.writes(),
        Version::Effects => command.writes() && !command.has_options(),
    }
}

/// Replays the command of a record. All sets stay where it is not replayed.
pub fn replay_command<H: BuildHasher + Clone + Drop, A: Allocator + Copy>(
    owner: &mut OneOwner<H, A>,
    version: Version,
    command: &Command<A>,
) -> Result<(), Unreplayed>
    requires idle { owner.old.next ≡ None }
    ensures idle { owner.new.next ≡ None }
    ensures ok { OnOk result
        (after_reading version owner.old.world (Ok command.now.meaning) ≡ Some owner.new.world) }
    ensures err { OnErr result (owner.new.world ≡ owner.old.world) }
    ensures cause { IfErr result
        (λ cause. UnreplayedFor cause (after_reading version owner.old.world (Ok command.now.meaning))) }
{
    if !is_replayed(version, command) {
        return Err(Unreplayed::NotACommand);
    }
    match owner.run(command) {
        Ok(_) => Ok(()),
        Err(Refusal::NoMemory) => Err(Unreplayed::NoMemory),
        Err(_) => Err(Unreplayed::NotACommand),
    }
}
