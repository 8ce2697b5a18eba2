//! Sets by key.
ghost use Rattle.std.specs.Prelude.{◌≡◌, None, IfOk, IfErr, IfSome, OnOk, OnErr, IsSome, IsTrue, MatchOption, option_map, slice_get};
ghost use Rattle.std.specs.FinMap as map;
ghost use Rattle.std.specs.Option.{option_copied};
ghost use Rattle.resp_wire.specs.Response.{response_of};
ghost use Rattle.zset_commands.specs.AbstractCommand.{is_removing, is_writing, key_of};
ghost use Rattle.sorted_sets.specs.ChangeCounts.{IsOutline};
ghost use Rattle.zset_commands.specs.Refusal.{IsRefused};
ghost use Rattle.zset_commands.specs.declared.refusal.Refusal.TheVariants.{NoMemory};
ghost use Rattle.sorted_sets.specs.WorldWithinRequestLimits.{IsBoundedWorld};
ghost use Rattle.zset_core.specs.SortedSet.{whole};
ghost use Rattle.sorted_sets.specs.SetAndOwnerViews.{HasNoSet, IsPreparedAt, IsSetAt};
ghost use Rattle.zset_core.specs.SetsByKey.{key_behind, put_set, set_at};
ghost use Rattle.zset_core.specs.Semantics.{act};

mod boxed_set;
mod executor;
mod keys_in_order;
mod new_empty_set;
mod prepare_and_commit;
mod run;
mod set_tree;
mod take_first;

use crate::memory_reserve::Spare;
use crate::owner::keys_in_order::{first_key, next_key, nth_key};
use crate::owner::prepare_and_commit::{commit_at, drop_at, prepare_at};
use crate::owner::run::run_at;
use crate::owner::set_tree::SetTree;
use crate::query::missing_key_reply::reply_without_set;
use crate::set::ZSet;
use crate::set::change_counts::Outline;
use crack_kernel::Row;
use resp_wire::Reply;
use std::alloc::{AllocError, Allocator};
use std::collections::BTreeMap;
use std::hash::BuildHasher;
use std::marker::Model;
use std::snapshot::Snapshot;
use zset_commands::{Command, Refusal};

/// Sorted sets by key, of one owner. A set that loses its last member is gone with its key. A
/// contract sees the world of its sets and, as `next`, the key of the set in which a command is prepared
/// with what the commit will leave and reply, or None. What a command makes of a world is `act`, after
/// Redis's command pages.
#[derive(Drop)]
pub struct OneOwner<H: BuildHasher, A: Allocator + Copy> {
    alloc: A,
    hasher: H,
    sets: SetTree<H, A>,
    asked: Option<Snapshot<Command<A>>>,
    spare: Spare<A>,
}

impl<H: BuildHasher, A: Allocator + Copy> Model for OneOwner<H, A> {
    ghost use Rattle.sorted_sets.specs.SetAndOwnerViews.{OwnerView};

    ghost Value = { OwnerView };

    ghost use Rattle.std.specs.Coded.{codes};
    ghost use Rattle.sorted_sets.specs.SetAndOwnerViews.{coded_members, coded_world};

    ghost coded = { Prim.hlevel (codes, coded_members, coded_world) };

    ghost use Rattle.sorted_sets.specs.OwnerViewAndInvariant.{owner_view, IsOwned};
    ghost use Rattle.sorted_sets.specs.WorldWithinRequestLimits.{IsBoundedOwner};

    ghost view = { λ o. owner_view o.sets.entries o.asked };

    ghost invariant = { λ o. IsOwned o.sets.entries o.asked × IsBoundedOwner (owner_view o.sets.entries o.asked) };
}

impl<H: BuildHasher, A: Allocator + Copy> OneOwner<H, A> {
    /// No sets. Each set's map will take a clone of this hasher.
    pub fn new(alloc: A, hasher: H) -> Self
        ensures world { result.world ≡ map.empty }
        ensures idle { result.next ≡ None }
    {
        OneOwner {
            alloc,
            hasher,
            sets: BTreeMap::new(alloc),
            asked: None,
            spare: Spare::new(alloc),
        }
    }
}

impl<H: BuildHasher + Clone + Drop, A: Allocator + Copy> OneOwner<H, A> {
    /// Runs a command. Refused when out of memory, or where a sum of INCR is no score; all sets are
    /// then as they were. An addition keeps memory back, which a removal that finds none may use.
    pub fn run(&mut self, command: &Command<A>) -> Result<Reply<A>, Refusal>
        requires { self.old.next ≡ None }
        ensures ok { IfOk result (λ reply. act self.old.world command.now.meaning
            ≡ Some (self.new.world, response_of reply)) }
        ensures err { OnErr result (self.new.world ≡ self.old.world) }
        ensures refused { IfErr result
            (λ refusal. IsRefused refusal (act self.old.world command.now.meaning)) }
        ensures idle { self.new.next ≡ None }
    {
        match command.key() {
            None => Ok(reply_without_set(self.alloc, command)?),
            Some(key) => {
                let sets = &mut self.sets;
                run_at(
                    self.alloc,
                    &self.hasher,
                    sets,
                    &mut self.spare,
                    key,
                    command,
                )
            }
        }
    }

    /// Prepares a command that changes sets in the set of its key: takes all the memory that it
    /// needs, and leaves all sets as they are until `commit` or `drop_prepared`. The outline tells how
    /// many members it will add and take out, and whether it changes the set. Refused for want
    /// of memory, or where a sum of INCR is no score; nothing is prepared then.
    pub fn prepare(&mut self, command: &Command<A>) -> Result<Outline, Refusal>
        requires idle { self.old.next ≡ None }
        requires writing { IsTrue (is_writing command.now.meaning) }
        ensures world { self.new.world ≡ self.old.world }
        ensures ready { OnOk result (IsPreparedAt self.old.world (key_of command.now.meaning)
            command.now.meaning self.new.next) }
        ensures outline { IfOk result
            (λ outline. IfSome self.new.next
            (λ next. IsOutline outline (set_at self.old.world next.0) next.1.members)) }
        ensures refused { IfErr result
            (λ refusal. IsRefused refusal (act self.old.world command.now.meaning)) }
        ensures err { OnErr result (self.new.next ≡ None) }
    {
        match command.key() {
            None => unreachable!(),
            Some(key) => {
                let sets = &mut self.sets;
                let spare = &mut self.spare;
                let outline = prepare_at(self.alloc, &self.hasher, sets, spare, key, command)?;
                self.asked = Some(Snapshot::of(command));
                Ok(outline)
            }
        }
    }

    /// Whether a command that was refused is to be run again: a removal that found no memory, while some was kept back for
    /// it, which is let go then. Nothing that a contract tells of the owner changes.
    pub fn lets_go_for(&mut self, command: &Command<A>, refusal: Refusal) -> bool
        ensures same { self.new ≡ self.old }
        ensures again { IsTrue result → (refusal ≡ NoMemory) × IsTrue (is_removing command.now.meaning) }
    {
        self.spare.lets_go_for(command, refusal)
    }

    /// Makes the change that is prepared in the set of the command's key, and gives its reply. It
    /// takes no memory.
    pub fn commit(&mut self, command: &Command<A>) -> Reply<A>
        requires prepared { IsSome self.old.next }
        requires same { option_map (λ next. next.0) self.old.next ≡ key_of command.now.meaning }
        ensures made { IfSome self.old.next
            (λ next. (self.new.world ≡ put_set self.old.world next.0 next.1.members)
            × (response_of result ≡ next.1.reply)) }
        ensures idle { self.new.next ≡ None }
    {
        self.asked = None;
        match command.key() {
            None => unreachable!(),
            Some(key) => commit_at(&mut self.sets, key),
        }
    }

    /// Discards the change that is prepared in the set of the command's key. It takes no memory.
    pub fn drop_prepared(&mut self, command: &Command<A>)
        requires prepared { IsSome self.old.next }
        requires same { option_map (λ next. next.0) self.old.next ≡ key_of command.now.meaning }
        ensures world { self.new.world ≡ self.old.world }
        ensures idle { self.new.next ≡ None }
    {
        self.asked = None;
        match command.key() {
            None => unreachable!(),
            Some(key) => drop_at(&mut self.sets, key),
        }
    }

    /// The set at a key. Where there is None, the set has no member and nothing is prepared in it.
    pub fn set(&self, key: &[u8]) -> Option<&ZSet<H, A>>
        ensures { MatchOption result (HasNoSet self.now key.now)
            (λ set. IsSetAt self.now key.now set.now) }
    {
        match self.sets.get(key) {
            None => None,
            Some(kept) => Some(kept.get()),
        }
    }

    /// A law: a request can carry each key and each pair of the sets, and no set that is kept is
    /// empty. The body reads nothing.
    pub fn bounds(&self)
        ensures { IsBoundedWorld self.now.world }
    {
        let _ = &self.alloc;
    }

    /// The number of keys whose sets are not empty.
    pub fn key_count(&self) -> usize
        requires { self.now.next ≡ None }
        ensures { result ≡ map.len self.now.world }
    {
        self.sets.len()
    }

    /// The key at an index among those whose sets are not empty, in byte order.
    pub fn key_at(&self, index: usize) -> Option<&[u8]>
        requires { self.now.next ≡ None }
        ensures { option_copied result ≡ slice_get (map.keys self.now.world) index }
    {
        nth_key(&self.sets, index)
    }

    /// The first of the keys whose sets are not empty, or the next one behind such a key, in byte
    /// order.
    pub fn key_after(&self, key: Option<&[u8]>) -> Option<&[u8]>
        requires idle { self.now.next ≡ None }
        requires present { IfSome (option_copied key) (λ key. IsSome (map.get self.now.world key)) }
        ensures { option_copied result
            ≡ key_behind (map.keys self.now.world) (option_copied key.entry) }
    {
        match key {
            None => first_key(&self.sets),
            Some(key) => next_key(&self.sets, key),
        }
    }

    /// All pairs of the set at a key, by rising score, equal scores by the bytes of their members.
    /// Refused only when out of memory.
    pub fn pairs(&self, key: &[u8]) -> Result<Vec<Row<A>, A>, AllocError>
        requires { self.now.next ≡ None }
        ensures { IfOk result (λ rows. rows.items ≡ whole (set_at self.now.world key.now)) }
    {
        match self.sets.get(key) {
            None => Ok(Vec::new(self.alloc)),
            Some(kept) => kept.get().pairs(),
        }
    }
}
