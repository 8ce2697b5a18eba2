//! A command prepared in the set of its key, and what becomes of it.
ghost use Rattle.std.specs.Prelude.{◌≡◌, None, Some, IfSome, IsSome, IsTrue};
ghost use Rattle.resp_wire.specs.Response.{response_of};
ghost use Rattle.zset_commands.specs.AbstractCommand.{is_writing};
ghost use Rattle.sorted_sets.specs.OwnerViewAndInvariant.{world_of, set_in, next_at, AllRest, OthersRest, PreparesAt};
ghost use Rattle.zset_core.specs.SetsByKey.{put_set};

use crate::memory_reserve::Spare;
use crate::owner::set_tree::{SetTree, insert_set};
use crate::set::ZSet;
use crate::set::change_counts::Outline;
use resp_wire::Reply;
use std::alloc::Allocator;
use std::hash::BuildHasher;
use zset_commands::{Command, Refusal};

/// Prepares a command on the key of a missing set, which is put in.
fn prepare_absent<H: BuildHasher + Clone + Drop, A: Allocator + Copy>(
    alloc: A,
    hasher: &H,
    sets: &mut SetTree<H, A>,
    key: &[u8],
    command: &Command<A>,
) -> Result<Outline, Refusal>
    requires writing { IsTrue (is_writing command.now.meaning) }
    requires absent { set_in sets.old.entries key.now ≡ None }
    requires rest { AllRest sets.old.entries }
    ensures { PreparesAt key.now command.now.meaning result sets.old.entries sets.new.entries }
{
    let mut set = ZSet::with_hasher(alloc, hasher.clone()?);
    match set.prepare(command) {
        Ok(outline) => {
            insert_set(alloc, sets, key, set)?;
            Ok(outline)
        }
        Err(refusal) => {
            drop(set);
            Err(refusal)
        }
    }
}

/// Prepares a command in the set of its key once.
fn prepare_once_at<H: BuildHasher + Clone + Drop, A: Allocator + Copy>(
    alloc: A,
    hasher: &H,
    sets: &mut SetTree<H, A>,
    key: &[u8],
    command: &Command<A>,
) -> Result<Outline, Refusal>
    requires writing { IsTrue (is_writing command.now.meaning) }
    requires rest { AllRest sets.old.entries }
    ensures { PreparesAt key.now command.now.meaning result sets.old.entries sets.new.entries }
{
    match sets.get_mut(key) {
        None => prepare_absent(alloc, hasher, sets, key, command),
        Some(set) => set.prepare(command),
    }
}

/// Prepares a command in the set of its key. An addition keeps memory back first, which a removal that finds none lets
/// go and is prepared again.
pub fn prepare_at<H: BuildHasher + Clone + Drop, A: Allocator + Copy>(
    alloc: A,
    hasher: &H,
    sets: &mut SetTree<H, A>,
    spare: &mut Spare<A>,
    key: &[u8],
    command: &Command<A>,
) -> Result<Outline, Refusal>
    requires writing { IsTrue (is_writing command.now.meaning) }
    requires rest { AllRest sets.old.entries }
    ensures { PreparesAt key.now command.now.meaning result sets.old.entries sets.new.entries }
{
    if command.creates() {
        spare.keep()?;
    }
    match prepare_once_at(alloc, hasher, sets, key, command) {
        Err(refusal) if spare.lets_go_for(command, refusal) => {
            prepare_once_at(alloc, hasher, sets, key, command)
        }
        prepared => prepared,
    }
}

/// Commits what is prepared in the set at a key.
pub fn commit_at<H: BuildHasher + Drop, A: Allocator + Copy>(
    sets: &mut SetTree<H, A>,
    key: &[u8],
) -> Reply<A>
    requires prepared { IsSome (next_at sets.old.entries (Some key.now)) }
    requires others { OthersRest key.now sets.old.entries }
    ensures made { IfSome (next_at sets.old.entries (Some key.now))
        (λ next. (world_of sets.new.entries
        ≡ put_set (world_of sets.old.entries) key.now next.1.members)
        × (response_of result ≡ next.1.reply)) }
    ensures rest { AllRest sets.new.entries }
{
    match sets.get_mut(key) {
        None => unreachable!(),
        Some(set) => {
            let reply = set.commit();
            if set.card() == 0 {
                sets.remove(key);
            }
            reply
        }
    }
}

/// Discards what is prepared in the set at a key.
pub fn drop_at<H: BuildHasher + Drop, A: Allocator + Copy>(sets: &mut SetTree<H, A>, key: &[u8])
    requires prepared { IsSome (next_at sets.old.entries (Some key.now)) }
    requires others { OthersRest key.now sets.old.entries }
    ensures world { world_of sets.new.entries ≡ world_of sets.old.entries }
    ensures rest { AllRest sets.new.entries }
{
    if let Some(set) = sets.get_mut(key) {
        set.drop_prepared();
        if set.card() == 0 {
            sets.remove(key);
        }
    }
}
