//! A command run on the set of its key.
ghost use Rattle.std.specs.Prelude.{◌≡◌, None, Some, IsSome};
ghost use Rattle.zset_commands.specs.AbstractCommand.{key_of};
ghost use Rattle.sorted_sets.specs.OwnerViewAndInvariant.{set_in, AllRest, RunsAt};
ghost use Rattle.sorted_sets.specs.SetAndOwnerViews.{RunsOn};

use crate::memory_reserve::Spare;
use crate::owner::set_tree::{SetTree, insert_set};
use crate::set::ZSet;
use resp_wire::Reply;
use std::alloc::Allocator;
use std::hash::BuildHasher;
use zset_commands::{Command, Refusal};

/// Runs a command on the set of its key.
pub fn run_set<H: BuildHasher, A: Allocator + Copy>(
    set: &mut ZSet<H, A>,
    command: &Command<A>,
) -> Result<Reply<A>, Refusal>
    requires idle { set.old.next ≡ None }
    requires keyed { IsSome (key_of command.now.meaning) }
    ensures { RunsOn command.now.meaning result set.old set.new }
{
    if command.writes() {
        set.prepare(command)?;
        return Ok(set.commit());
    }
    Ok(set.answer(command)?)
}

/// Runs a command on the key of a missing set, which is put in if it is not empty then.
fn run_absent<H: BuildHasher + Clone + Drop, A: Allocator + Copy>(
    alloc: A,
    hasher: &H,
    sets: &mut SetTree<H, A>,
    key: &[u8],
    command: &Command<A>,
) -> Result<Reply<A>, Refusal>
    requires keyed { key_of command.now.meaning ≡ Some key.now }
    requires absent { set_in sets.old.entries key.now ≡ None }
    requires rest { AllRest sets.old.entries }
    ensures { RunsAt key.now command.now.meaning result sets.old.entries sets.new.entries }
{
    let mut set = ZSet::with_hasher(alloc, hasher.clone()?);
    match run_set(&mut set, command) {
        Ok(reply) => {
            if set.card() == 0 {
                drop(set);
                return Ok(reply);
            }
            insert_set(alloc, sets, key, set)?;
            Ok(reply)
        }
        Err(refusal) => {
            drop(set);
            Err(refusal)
        }
    }
}

/// Runs a command on the set of its key once.
fn run_once_at<H: BuildHasher + Clone + Drop, A: Allocator + Copy>(
    alloc: A,
    hasher: &H,
    sets: &mut SetTree<H, A>,
    key: &[u8],
    command: &Command<A>,
) -> Result<Reply<A>, Refusal>
    requires keyed { key_of command.now.meaning ≡ Some key.now }
    requires rest { AllRest sets.old.entries }
    ensures { RunsAt key.now command.now.meaning result sets.old.entries sets.new.entries }
{
    match sets.get_mut(key) {
        None => run_absent(alloc, hasher, sets, key, command),
        Some(set) => {
            let ran = set.run(command);
            if set.card() == 0 {
                sets.remove(key);
            }
            ran
        }
    }
}

/// Runs a command on the set of its key. An addition keeps memory back first, which a removal that finds none lets go
/// and is run again.
pub fn run_at<H: BuildHasher + Clone + Drop, A: Allocator + Copy>(
    alloc: A,
    hasher: &H,
    sets: &mut SetTree<H, A>,
    spare: &mut Spare<A>,
    key: &[u8],
    command: &Command<A>,
) -> Result<Reply<A>, Refusal>
    requires keyed { key_of command.now.meaning ≡ Some key.now }
    requires rest { AllRest sets.old.entries }
    ensures { RunsAt key.now command.now.meaning result sets.old.entries sets.new.entries }
{
    if command.creates() {
        spare.keep()?;
    }
    match run_once_at(alloc, hasher, sets, key, command) {
        Err(refusal) if spare.lets_go_for(command, refusal) => {
            run_once_at(alloc, hasher, sets, key, command)
        }
        ran => ran,
    }
}
