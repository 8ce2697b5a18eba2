//! The removal of a range: planned, and made once it is committed. No member is named or copied on the
//! way: the column's rows in the range tell which leave.
ghost use Rattle.std.specs.Prelude.{◌≡◌, [], Some, pos, length, IfOk, IfSome, OnOk, OnErr};
ghost use Rattle.resp_wire.specs.Response.{Integer};
ghost use Rattle.score_bounds.specs.RangesAndCuts.{is_in};
ghost use Rattle.ripple_column.specs.Content.{Holds, IsUnchanged, SameContent};
ghost use Rattle.ripple_column.specs.RangeEffects.{Selects, TakesOut};
ghost use Rattle.sorted_sets.specs.MembersWithStagedScores.{current_score, members_by, ScoresAreSettled};
ghost use Rattle.sorted_sets.specs.Plan.{Prepares};
ghost use Rattle.sorted_sets.specs.declared.set.plan.Plan.TheVariants.{RangeRemoval};
ghost use Rattle.zset_core.specs.Semantics.{without_range};
ghost use Rattle.sorted_sets.specs.SetViewAndInvariant.{RangeStandsIn};
ghost use Rattle.zset_core.specs.SortedSet.{listing, pairs};

use crate::score_and_count_replies::count_reply;
use crate::set::change_counts::Outline;
use crate::set::members_with_staged_scores::{MemberMap, take_out_rows};
use crate::set::plan::{LeavingRange, RangeRemovalPlan};
use ripple_column::Column;
use score_bounds::Range;
use std::alloc::{AllocError, Allocator};
use std::hash::BuildHasher;

/// The plan of a ZREMRANGEBYSCORE, and the column made ready for its range. Where it is refused the
/// column is what it was.
pub fn plan_range<H: BuildHasher, A: Allocator + Copy>(
    members: &MemberMap<H, A>,
    column: &mut Column<A>,
    range: &Range,
) -> Result<RangeRemovalPlan<A>, AllocError>
    requires settled { ScoresAreSettled members.now.entries }
    requires content { Holds column.old (pairs (members_by current_score members.now.entries)) }
    ensures ok { IfOk result (λ plan. Prepares members.now.entries members.now.entries (RangeRemoval plan)
        (without_range range.now (members_by current_score members.now.entries))
        (Integer (pos (length (listing (is_in range.now) (members_by current_score members.now.entries)))))) }
    ensures range { IfOk result (λ plan. plan.leaving.range ≡ range.now) }
    ensures answer { IfOk result (λ plan. RangeStandsIn column.new plan.leaving) }
    ensures content { SameContent column.old column.new }
    ensures selected { OnOk result (Selects range.now column.old column.new) }
    ensures refused { OnErr result (IsUnchanged column.old column.new) }
{
    let (from, to) = column.select(range)?;
    let count = column.rows(from, to).len();
    Ok(RangeRemovalPlan {
        leaving: LeavingRange {
            range: *range,
            from,
            to,
        },
        reply: count_reply(count),
        outline: Outline {
            added: 0,
            removed: count,
            changed: count > 0,
        },
    })
}

/// The members of a range leave the entries, and their rows the column. It takes no memory.
pub fn remove_range<H: BuildHasher, A: Allocator + Copy>(
    members: &mut MemberMap<H, A>,
    column: &mut Column<A>,
    leaving: LeavingRange,
)
    requires settled { ScoresAreSettled members.old.entries }
    requires content { Holds column.old (pairs (members_by current_score members.old.entries)) }
    requires stands { RangeStandsIn column.old leaving }
    ensures members { members_by current_score members.new.entries
        ≡ without_range leaving.range (members_by current_score members.old.entries) }
    ensures settled { ScoresAreSettled members.new.entries }
    ensures content { Holds column.new
        (pairs (without_range leaving.range (members_by current_score members.old.entries))) }
    ensures column { TakesOut leaving.range column.old column.new }
{
    let LeavingRange { range: _, from, to } = leaving;
    take_out_rows(members, column.rows(from, to));
    column.remove_rows(from, to);
}
