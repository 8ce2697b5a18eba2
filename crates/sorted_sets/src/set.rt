//! One sorted set.
ghost use Rattle.std.specs.Prelude.{◌≡◌, ◌+◌, ◌<◌, ◌≤◌, ◌^◌, ◌⊎◌, ◌↔◌, length, slice_get, true, false, Some, None, IsSome, IfNone, IfSome, IfOk, IfErr, OnOk, OnErr, IsTrue, take, option_map};
ghost use Rattle.std.specs.FinMap as map;
ghost use Rattle.indexmap.specs.IndexMap.{IsUnique};
ghost use Rattle.sorted_sets.specs.MembersWithStagedScores.{current_score, slot_at, same_bytes};
ghost use Rattle.sorted_sets.specs.SetViewAndInvariant.{kept_of};
ghost use Rattle.zset_commands.specs.AbstractCommand.{is_writing, range_to_remove};
ghost use Rattle.sorted_sets.specs.MovedMembers.{prepared_effect};
ghost use Rattle.sorted_sets.specs.ChangeCounts.{IsOutline};
ghost use Rattle.zset_commands.specs.Refusal.{IsRefused};
ghost use Rattle.ripple_column.specs.Content.{Holds};
ghost use Rattle.ripple_column.specs.RangeEffects.{TakesOut};
ghost use Rattle.sorted_sets.specs.CommandEffectsOnColumn.{PreparesColumn, changes_named};
ghost use Rattle.zset_core.specs.RowEdits.{most_edits};
ghost use Rattle.zset_core.specs.SortedSet.{pairs};
ghost use Rattle.zset_core.specs.Semantics.{step};
ghost use Rattle.sorted_sets.specs.SetAndOwnerViews.{IsPreparedFor};
ghost use Rattle.resp_wire.specs.Response.{response_of};

pub mod change_counts;
pub mod commit;
pub mod draft;
pub mod member_removal;
pub mod members_with_staged_scores;
pub mod moved_members;
pub mod place_filter;
pub mod plan;
pub mod range_removal;

use crate::set::change_counts::Outline;
use crate::set::commit::{apply_plan, discard};
use crate::set::members_with_staged_scores::MemberMap;
use crate::set::moved_members::effect_entry;
use crate::set::plan::{Plan, make_plan};
use indexmap::IndexMap;
use resp_wire::Reply;
use ripple_column::Column;
use short_bytes::BorrowedBytes;
use std::alloc::{AllocError, Allocator};
use std::hash::BuildHasher;
use std::marker::Model;
use std::snapshot::Snapshot;
use zset_commands::{Command, Form, Refusal};

/// What is prepared, and the command that it was prepared for.
#[derive(Drop)]
struct Prepared<A: Allocator + Copy> {
    asked: Snapshot<Command<A>>,
    plan: Plan<A>,
}

/// A sorted set: members with scores. A command that changes it is `prepare` and then `commit` or
/// `drop_prepared`. In contracts `next` is None until one is prepared, and then what its commit will leave
/// and reply; the members are those from before, and the column is seen beside them.
///
/// It keeps its pairs twice: in a map from members to scores, and in a column of rows that the
/// ranges asked for crack. The content of the column is the bag of the members' pairs at every time
/// between two calls.
#[derive(Drop)]
pub struct ZSet<H: BuildHasher, A: Allocator + Copy> {
    pub(crate) alloc: A,
    pub(crate) members: MemberMap<H, A>,
    pub(crate) column: Column<A>,
    prepared: Option<Prepared<A>>,
}

impl<H: BuildHasher, A: Allocator + Copy> Model for ZSet<H, A> {
    ghost use Rattle.sorted_sets.specs.SetAndOwnerViews.{SetView};

    ghost Value = { SetView };

    ghost use Rattle.std.specs.Coded.{codes};
    ghost use Rattle.sorted_sets.specs.SetAndOwnerViews.{coded_members};

    ghost coded = { Prim.hlevel (codes, coded_members) };

    ghost use Rattle.sorted_sets.specs.SetViewAndInvariant.{view_of, IsSoundSet};

    ghost view = { λ z. view_of z.members.entries z.column z.prepared };

    ghost invariant = { λ z. IsSoundSet z.members.entries z.column z.prepared };
}

impl<H: BuildHasher, A: Allocator + Copy> ZSet<H, A> {
    /// An empty set, whose map takes this hasher.
    pub fn with_hasher(alloc: A, hasher: H) -> Self
        ensures members { result.members ≡ map.empty }
        ensures idle { result.next ≡ None }
    {
        ZSet {
            alloc,
            members: IndexMap::with_hasher(alloc, hasher),
            column: Column::new(alloc),
            prepared: None,
        }
    }

    /// The number of members.
    pub fn card(&self) -> usize
        ensures card { result ≡ map.len self.now.members }
        ensures few { result < 2 ^ 63 }
    {
        kept_len(&self.members, &self.prepared)
    }

    /// The score of a member, if it is one.
    pub fn score(&self, member: &[u8]) -> Option<i64>
        ensures { result ≡ map.get self.now.members member.now }
    {
        let kept = kept_len(&self.members, &self.prepared);
        score_before(&self.members, kept, member)
    }

    /// Whether a command is prepared.
    pub fn is_prepared(&self) -> bool
        ensures { IsTrue result ↔ IsSome self.now.next }
    {
        self.prepared.is_some()
    }

    /// The column of the members' rows. Its content is the bag of their pairs, also while a command
    /// is prepared.
    pub fn column(&self) -> &Column<A>
        ensures column { result.now ≡ self.now.column }
        ensures content { Holds self.now.column (pairs self.now.members) }
    {
        &self.column
    }

    /// Prepares a command that changes sets: takes all the memory that it needs, and leaves the
    /// members as they are until `commit` or `drop_prepared`. `next` is then what the command's
    /// definition (`step`) makes of the members, with its reply: `commit` leaves these members and
    /// gives this reply. The outline tells how many members it will add and take out, and whether it
    /// changes the set. ZREMRANGEBYSCORE takes no memory for the members that leave.
    ///
    /// # Errors
    ///
    /// Nothing is prepared. [`Refusal::NoMemory`], or [`Refusal::ScoreOverflow`] where a sum of INCR is no score.
    pub fn prepare(&mut self, command: &Command<A>) -> Result<Outline, Refusal>
        requires idle { self.old.next ≡ None }
        requires writing { IsTrue (is_writing command.now.meaning) }
        ensures ok { OnOk result (IsPreparedFor self.old.members command.now.meaning self.new.next) }
        ensures outline { IfOk result
            (λ outline. IfSome self.new.next
            (λ next. IsOutline outline self.old.members next.members)) }
        ensures few { IfOk result (λ outline. outline.added ≤ most_edits) }

        // Prepared or refused, the members stay. ZADD and ZREM merge what waits where they need room, also
        // where they are then refused. ZREMRANGEBYSCORE merges what waits in its range and cracks it; refused
        // it leaves the column as it was but for spare room.
        ensures members { self.new.members ≡ self.old.members }
        ensures column { PreparesColumn command.now.meaning self.old.members result
            self.old.column self.new.column }

        // Refused.
        ensures refused { IfErr result
            (λ refusal. IsRefused refusal (step self.old.members command.now.meaning)) }
        ensures err { OnErr result (self.new.next ≡ None) }
    {
        let words = command.request().words();
        let Form::Changes(change) = command.form() else {
            unreachable!();
        };
        let plan = make_plan(
            self.alloc,
            &mut self.members,
            &mut self.column,
            words,
            change,
        )?;
        let outline = plan.outline();
        let asked = Snapshot::of(command);
        self.prepared = Some(Prepared { asked, plan });
        Ok(outline)
    }

    /// How many members the prepared command moves: those that it names and that get another score,
    /// come in or leave. ZREMRANGEBYSCORE names none, and 0 is told too where nothing is prepared. It
    /// takes no memory.
    pub fn effect_len(&self) -> usize
        ensures { result ≡ length (prepared_effect self.now) }
    {
        match &self.prepared {
            None => 0,
            Some(prepared) => prepared.plan.moved_len(&self.members),
        }
    }

    /// One of the members that the prepared command moves, in the order in which it first names them: its
    /// name, and the score that it will have, None where it will be gone. It takes no memory.
    pub fn effect_at(&self, index: usize) -> (&[u8], Option<i64>)
        requires { index < length (prepared_effect self.now) }
        ensures { slice_get (prepared_effect self.now) index ≡ Some (result.0.now, result.1) }
    {
        match &self.prepared {
            None => unreachable!(),
            Some(prepared) => effect_entry(&self.members, &prepared.plan, index),
        }
    }

    /// Makes the prepared change, and gives its reply. It takes no memory.
    pub fn commit(&mut self) -> Reply<A>
        requires { IsSome self.old.next }
        ensures made { IfSome self.old.next
            (λ next. (self.new.members ≡ next.members) × (response_of result ≡ next.reply)) }
        ensures idle { self.new.next ≡ None }

        // The edits of ZADD and ZREM only come to wait in the column.
        ensures rows { IfSome self.old.next (λ next. changes_named next.meaning ≡ true
            → self.new.column.rows ≡ self.old.column.rows) }
        ensures pivots { IfSome self.old.next (λ next. changes_named next.meaning ≡ true
            → self.new.column.pivots ≡ self.old.column.pivots) }

        // The rows of ZREMRANGEBYSCORE's range leave it.
        ensures range { IfSome self.old.next (λ next. IfSome (range_to_remove next.meaning)
            (λ range. TakesOut range self.old.column self.new.column)) }
    {
        match self.prepared.take() {
            None => unreachable!(),
            Some(prepared) => apply_plan(&mut self.members, &mut self.column, prepared.plan),
        }
    }

    /// Discards the prepared change: the set is as it was before it. It takes no memory.
    pub fn drop_prepared(&mut self)
        requires { IsSome self.old.next }
        ensures members { self.new.members ≡ self.old.members }
        ensures idle { self.new.next ≡ None }
        ensures column { self.new.column ≡ self.old.column }
    {
        if let Some(prepared) = self.prepared.take() {
            discard(&mut self.members, prepared.plan);
        }
    }
}

/// The number of entries from before what is prepared: of the members that callers see.
fn kept_len<H: BuildHasher, A: Allocator + Copy>(
    members: &MemberMap<H, A>,
    prepared: &Option<Prepared<A>>,
) -> usize
    ensures kept { result ≡ kept_of members.now.entries prepared.now }
    ensures unique { IsUnique same_bytes members.now }
    ensures small { length members.now.entries < 2 ^ 63 }
{
    let len = members.len();
    match prepared {
        None => len,
        Some(prepared) => match &prepared.plan {
            Plan::Scores(plan) => plan.draft.kept,
            Plan::Removal(_) | Plan::RangeRemoval(_) => len,
        },
    }
}

/// The score that a member has among the first entries.
fn score_before<H: BuildHasher, A: Allocator + Copy>(
    members: &MemberMap<H, A>,
    kept: usize,
    member: &[u8],
) -> Option<i64>
    ensures { result ≡ option_map current_score (slot_at (take kept members.now.entries) member.now) }
{
    match members.get_full(BorrowedBytes(member)) {
        None => None,
        Some((place, _, slot)) => {
            if place < kept {
                Some(slot.current)
            } else {
                None
            }
        }
    }
}
