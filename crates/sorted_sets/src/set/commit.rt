//! What becomes of a plan: it is committed or discarded.
ghost use Rattle.std.specs.Prelude.{◌≡◌, length, take};
ghost use Rattle.ripple_column.specs.Content.{Holds};
ghost use Rattle.sorted_sets.specs.MembersWithStagedScores.{current_score, staged_score, rows_by, members_by, names_at, ScoresAreSettled, IsWaiting, IsWithin};
ghost use Rattle.sorted_sets.specs.Plan.{CommitsIn, OnlyWaits, coming_rows, kept_by, replaced_rows, left_by, removed_by, reply_of, touched_by};
ghost use Rattle.sorted_sets.specs.declared.set.plan.Plan.TheVariants.{Scores, Removal};
ghost use Rattle.zset_core.specs.RowEdits.{TurnsInto};
ghost use Rattle.zset_core.specs.Semantics.{remove_all};
ghost use Rattle.sorted_sets.specs.SetViewAndInvariant.{HasRoomForPlan, IsReadyForPlan};
ghost use Rattle.zset_core.specs.SortedSet.{pairs};

use crate::set::member_removal::remove_members;
use crate::set::members_with_staged_scores::{MemberMap, adopt_staged};
use crate::set::plan::{Plan, RemovalPlan, ScoresPlan};
use crate::set::range_removal::remove_range;
use resp_wire::Reply;
use ripple_column::Column;
use std::alloc::Allocator;
use std::hash::BuildHasher;
use zset_core::make_edits;

/// A plan is discarded: the entries become what they were before it. It takes no memory.
pub fn discard<H: BuildHasher, A: Allocator + Copy>(members: &mut MemberMap<H, A>, plan: Plan<A>)
    requires { IsWaiting (touched_by plan) members.old.entries }
    ensures current { rows_by current_score members.new.entries
        ≡ take (kept_by members.old.entries plan) (rows_by current_score members.old.entries) }
    ensures settled { ScoresAreSettled members.new.entries }
{
    match plan {
        Plan::Scores(plan) => plan.draft.roll_back(members),
        Plan::Removal(_) | Plan::RangeRemoval(_) => {}
    }
}

/// Members come in and get the scores that wait for them, and their rows come to wait in the column. It takes no
/// memory.
fn apply_scores<H: BuildHasher, A: Allocator + Copy>(
    members: &mut MemberMap<H, A>,
    column: &mut Column<A>,
    plan: ScoresPlan<A>,
) -> Reply<A>
    requires waiting { IsWaiting plan.draft.touched.items members.old.entries }
    requires room { HasRoomForPlan column.old (Scores plan) }
    requires turns { TurnsInto column.old (members_by staged_score members.old.entries)
        plan.draft.edits.coming.items plan.draft.edits.leaving.items }
    ensures members { members_by current_score members.new.entries
        ≡ members_by staged_score members.old.entries }
    ensures settled { ScoresAreSettled members.new.entries }
    ensures content { Holds column.new (pairs (members_by staged_score members.old.entries)) }
    ensures column { OnlyWaits column.old column.new }
    ensures reply { result ≡ plan.reply }
{
    let draft = plan.draft;
    adopt_staged(members, draft.touched.as_slice());
    make_edits(column, draft.edits);
    column.give_back_room();
    plan.reply
}

/// Members leave by their names, and their rows come to wait in the column. It takes no memory.
fn apply_removal<H: BuildHasher, A: Allocator + Copy>(
    members: &mut MemberMap<H, A>,
    column: &mut Column<A>,
    plan: RemovalPlan<A>,
) -> Reply<A>
    requires settled { ScoresAreSettled members.old.entries }
    requires room { HasRoomForPlan column.old (Removal plan) }
    requires within { IsWithin (length members.old.entries) plan.places.keys }
    requires content { Holds column.old (pairs (members_by current_score members.old.entries)) }
    ensures members { members_by current_score members.new.entries
        ≡ remove_all (members_by current_score members.old.entries) (names_at members.old.entries plan.places.keys) }
    ensures settled { ScoresAreSettled members.new.entries }
    ensures content { Holds column.new (pairs (members_by current_score members.new.entries)) }
    ensures column { OnlyWaits column.old column.new }
    ensures reply { result ≡ plan.reply }
{
    remove_members(members, column, plan.places);
    column.give_back_room();
    plan.reply
}

/// What the plan says is done to the entries and to the column. It takes no memory.
pub fn apply_plan<H: BuildHasher, A: Allocator + Copy>(
    members: &mut MemberMap<H, A>,
    column: &mut Column<A>,
    plan: Plan<A>,
) -> Reply<A>
    requires waiting { IsWaiting (touched_by plan) members.old.entries }
    requires ready { IsReadyForPlan column.old plan }
    requires removed { IsWithin (length members.old.entries) (removed_by plan) }
    requires turns { TurnsInto column.old (members_by staged_score members.old.entries)
        (coming_rows plan) (replaced_rows plan) }
    ensures members { members_by current_score members.new.entries ≡ left_by members.old.entries plan }
    ensures settled { ScoresAreSettled members.new.entries }
    ensures content { Holds column.new (pairs (left_by members.old.entries plan)) }
    ensures column { CommitsIn plan column.old column.new }
    ensures reply { result ≡ reply_of plan }
{
    match plan {
        Plan::Scores(plan) => apply_scores(members, column, plan),
        Plan::Removal(plan) => apply_removal(members, column, plan),
        Plan::RangeRemoval(plan) => {
            remove_range(members, column, plan.leaving);
            plan.reply
        }
    }
}
