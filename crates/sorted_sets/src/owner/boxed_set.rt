//! A set as the tree of an owner keeps it.
ghost use Rattle.std.specs.Prelude.{◌≡◌, ◌<◌, ◌^◌, None, Some, IfOk, IfErr, IfSome, OnOk, OnErr, IsSome, IsTrue};
ghost use Rattle.std.specs.FinMap as map;
ghost use Rattle.resp_wire.specs.Response.{response_of};
ghost use Rattle.zset_commands.specs.AbstractCommand.{is_writing, key_of};
ghost use Rattle.sorted_sets.specs.ChangeCounts.{IsOutline};
ghost use Rattle.zset_commands.specs.Refusal.{IsRefused};
ghost use Rattle.zset_core.specs.Semantics.{step};
ghost use Rattle.sorted_sets.specs.SetAndOwnerViews.{IsPreparedFor, RunsOn};

use crate::owner::run::run_set;
use crate::set::ZSet;
use crate::set::change_counts::Outline;
use resp_wire::Reply;
use std::alloc::{AllocError, Allocator};
use std::hash::BuildHasher;
use std::marker::Model;
use zset_commands::{Command, Refusal};

/// A set in a block of its own: the tree's nodes have room for twice as many values as they mostly hold,
/// so that each is to be small.
///
/// Contracts see the set.
#[derive(Drop)]
pub struct BoxedSet<H: BuildHasher, A: Allocator + Copy> {
    set: Box<ZSet<H, A>, A>,
}

impl<H: BuildHasher, A: Allocator + Copy> Model for BoxedSet<H, A> {
    ghost use Rattle.sorted_sets.specs.SetAndOwnerViews.{SetView};

    ghost Value = { SetView };

    ghost use Rattle.std.specs.Coded.{codes};
    ghost use Rattle.sorted_sets.specs.SetAndOwnerViews.{coded_members};

    ghost coded = { Prim.hlevel (codes, coded_members) };

    ghost view = { λ k. k.set.value };
}

impl<H: BuildHasher + Drop, A: Allocator + Copy> BoxedSet<H, A> {
    /// Keeps a set. Refused for want of memory alone.
    pub fn new(alloc: A, set: ZSet<H, A>) -> Result<Self, AllocError>
        ensures { IfOk result (λ kept. kept ≡ set) }
    {
        Ok(BoxedSet {
            set: boxed(alloc, set)?,
        })
    }
}

/// A value of any type in a block of its own.
///
/// Where a set is let go in place, a proof takes apart all that it may hold, which takes a minute: so sets are let go by
/// calls.
fn boxed<T: Drop, A: Allocator + Copy>(alloc: A, value: T) -> Result<Box<T, A>, AllocError>
    ensures { IfOk result (λ kept. kept.value ≡ value) }
{
    Ok(Box::new(alloc, value)?)
}

impl<H: BuildHasher, A: Allocator + Copy> BoxedSet<H, A> {
    /// The set.
    pub fn get(&self) -> &ZSet<H, A>
        ensures { result.now ≡ self.now }
    {
        &self.set
    }

    /// The set itself. It takes no memory.
    pub fn into_set(self) -> ZSet<H, A>
        ensures { result ≡ self }
    {
        Box::into_inner(self.set)
    }

    /// The number of members.
    pub fn card(&self) -> usize
        ensures card { result ≡ map.len self.now.members }
        ensures few { result < 2 ^ 63 }
    {
        self.set.card()
    }

    /// Runs a command. Refused when out of memory, or where a sum of INCR is no score; the set is then as
    /// it was.
    pub fn run(&mut self, command: &Command<A>) -> Result<Reply<A>, Refusal>
        requires idle { self.old.next ≡ None }
        requires keyed { IsSome (key_of command.now.meaning) }
        ensures { RunsOn command.now.meaning result self.old self.new }
    {
        run_set(&mut self.set, command)
    }

    /// Prepares a command that changes sets, as [`ZSet::prepare`] does.
    pub fn prepare(&mut self, command: &Command<A>) -> Result<Outline, Refusal>
        requires idle { self.old.next ≡ None }
        requires writing { IsTrue (is_writing command.now.meaning) }
        ensures members { self.new.members ≡ self.old.members }
        ensures ok { OnOk result (IsPreparedFor self.old.members command.now.meaning self.new.next) }
        ensures outline { IfOk result
            (λ outline. IfSome self.new.next
            (λ next. IsOutline outline self.old.members next.members)) }
        ensures refused { IfErr result
            (λ refusal. IsRefused refusal (step self.old.members command.now.meaning)) }
        ensures err { OnErr result (self.new.next ≡ None) }
    {
        self.set.prepare(command)
    }

    /// Makes the prepared change, and gives its reply. It takes no memory.
    pub fn commit(&mut self) -> Reply<A>
        requires { IsSome self.old.next }
        ensures made { IfSome self.old.next
            (λ next. (self.new.members ≡ next.members) × (response_of result ≡ next.reply)) }
        ensures idle { self.new.next ≡ None }
    {
        self.set.commit()
    }

    /// Discards the prepared change: the set is as it was before it. It takes no memory.
    pub fn drop_prepared(&mut self)
        requires { IsSome self.old.next }
        ensures members { self.new.members ≡ self.old.members }
        ensures idle { self.new.next ≡ None }
    {
        self.set.drop_prepared();
    }
}
