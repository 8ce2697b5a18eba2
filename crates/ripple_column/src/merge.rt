//! The merging of rows that wait: those with scores in a range come into the column, or go out of
//! it. Where many wait, passes over the pieces take them at once; what they leave goes one by one.
//!
//! The order of the rows that go on waiting is left open.

ghost use Rattle.std.specs.Prelude.{◌≡◌, ◌+◌, ◌<◌, ◌≤◌, OnOk, OnErr, [], false, length, count_by, vec_len, vec_capacity};
ghost use Rattle.std.specs.List.{AllWithin};
ghost use Rattle.crack_kernel.specs.RowBag.{Test, IsSubBag};
ghost use Rattle.column_rows.specs.Content.{has_score_in, NoneIn, SameOutside};
ghost use Rattle.column_rows.specs.RangeCutsAsPivots.{values};
ghost use Rattle.column_rows.specs.MergeEffects.{HasLast, HasRoomFor, KeepsFrame, Merges, NoneWaits, StaysAsItWas, most_waiting};

use crate::ripple::{ripple_insert, ripple_remove};
use column_rows::{
    Cracked, MAX_PENDING, MAX_RESERVED, Pending, PendingList, RangeTails, is_within, merge_many,
};
use score_bounds::{Bound, Range};
use std::alloc::{AllocError, Allocator};

/// Takes the rows that wait as deletions and have scores in the range out of the column. They stand from
/// the index `from` on.
fn merge_deletions<A: Allocator>(
    cracked: &mut Cracked<A>,
    deletions: &mut PendingList<A>,
    range: &Range,
    from: usize,
)
    requires from { from ≤ length deletions.old.items }
    requires outside { AllWithin (λ r. has_score_in range.now r ≡ false) deletions.old.items 0 from }
    requires part { IsSubBag deletions.old.items cracked.old.rows.items }
    ensures part { IsSubBag deletions.new.items cracked.new.rows.items }
    ensures content { (p : Test) → count_by p cracked.new.rows.items + count_by p deletions.old.items
        ≡ count_by p cracked.old.rows.items + count_by p deletions.new.items }
    ensures merged { NoneIn range.now deletions.new.items }
    ensures waiting { SameOutside range.now deletions.old.items deletions.new.items }
    ensures less { IsSubBag deletions.new.items deletions.old.items }
    ensures frame { KeepsFrame cracked.old.rows cracked.old.pivots cracked.new.rows cracked.new.pivots }
{
    let interval = range.interval();
    let mut i = from;
    while i < deletions.len() {
        let next = &deletions.list()[i];
        if is_within(next, &interval) {
            let row = deletions.swap_remove(i);
            let _gone = ripple_remove(&mut cracked.rows, &mut cracked.pivots, &row);
        } else {
            i += 1;
        }
    }
}

/// Puts the rows that wait as insertions and have scores in the range into the column. They stand from
/// the index `from` on.
fn merge_insertions<A: Allocator>(
    cracked: &mut Cracked<A>,
    insertions: &mut PendingList<A>,
    range: &Range,
    from: usize,
)
    requires from { from ≤ length insertions.old.items }
    requires outside { AllWithin (λ r. has_score_in range.now r ≡ false) insertions.old.items 0 from }
    requires room { vec_len cracked.old.rows + count_by (has_score_in range.now) insertions.old.items
        ≤ vec_capacity cracked.old.rows }
    ensures content { (p : Test) → count_by p cracked.new.rows.items + count_by p insertions.new.items
        ≡ count_by p cracked.old.rows.items + count_by p insertions.old.items }
    ensures merged { NoneIn range.now insertions.new.items }
    ensures waiting { SameOutside range.now insertions.old.items insertions.new.items }
    ensures less { IsSubBag insertions.new.items insertions.old.items }
    ensures frame { KeepsFrame cracked.old.rows cracked.old.pivots cracked.new.rows cracked.new.pivots }
{
    let interval = range.interval();
    let mut i = from;
    while i < insertions.len() {
        let next = &insertions.list()[i];
        if is_within(next, &interval) {
            let row = insertions.swap_remove(i);
            ripple_insert(&mut cracked.rows, &mut cracked.pivots, row);
        } else {
            i += 1;
        }
    }
}

/// Merges all rows that wait and have scores in the range.
pub fn merge_range<A: Allocator + Copy>(
    cracked: &mut Cracked<A>,
    pending: &mut Pending<A>,
    range: &Range,
)
    requires part { IsSubBag pending.old.deletions.items cracked.old.rows.items }
    requires room { vec_len cracked.old.rows + count_by (has_score_in range.now) pending.old.insertions.items
        ≤ vec_capacity cracked.old.rows }
    ensures merges { Merges cracked.old cracked.new pending.old pending.new }
    ensures merged_deletions { NoneIn range.now pending.new.deletions.items }
    ensures merged_insertions { NoneIn range.now pending.new.insertions.items }
    ensures waiting_deletions { SameOutside range.now pending.old.deletions.items pending.new.deletions.items }
    ensures waiting_insertions { SameOutside range.now pending.old.insertions.items pending.new.insertions.items }
    ensures frame { KeepsFrame cracked.old.rows cracked.old.pivots cracked.new.rows cracked.new.pivots }
{
    let tails = pending.gather(range);
    merge_gathered(cracked, pending, range, tails);
}

/// Merges all rows that wait and have scores in the range, which are gathered at the ends of the two
/// lists.
pub fn merge_gathered<A: Allocator + Copy>(
    cracked: &mut Cracked<A>,
    pending: &mut Pending<A>,
    range: &Range,
    tails: RangeTails,
)
    requires part { IsSubBag pending.old.deletions.items cracked.old.rows.items }
    requires deletions { HasLast range.now pending.old.deletions.items tails.deletions }
    requires insertions { HasLast range.now pending.old.insertions.items tails.insertions }
    requires room { vec_len cracked.old.rows + count_by (has_score_in range.now) pending.old.insertions.items
        ≤ vec_capacity cracked.old.rows }
    ensures merges { Merges cracked.old cracked.new pending.old pending.new }
    ensures merged_deletions { NoneIn range.now pending.new.deletions.items }
    ensures merged_insertions { NoneIn range.now pending.new.insertions.items }
    ensures waiting_deletions { SameOutside range.now pending.old.deletions.items pending.new.deletions.items }
    ensures waiting_insertions { SameOutside range.now pending.old.insertions.items pending.new.insertions.items }
    ensures frame { KeepsFrame cracked.old.rows cracked.old.pivots cracked.new.rows cracked.new.pivots }
{
    merge_many(cracked, pending, tails);
    merge_deletions(cracked, &mut pending.deletions, range, tails.deletions);
    merge_insertions(cracked, &mut pending.insertions, range, tails.insertions);
}

/// Merges all rows that wait. On Err, all is unchanged.
pub fn merge_all<A: Allocator + Copy>(
    cracked: &mut Cracked<A>,
    pending: &mut Pending<A>,
) -> Result<(), AllocError>
    requires part { IsSubBag pending.old.deletions.items cracked.old.rows.items }
    ensures merges { Merges cracked.old cracked.new pending.old pending.new }
    ensures merged_deletions { OnOk result (pending.new.deletions.items ≡ []) }
    ensures merged_insertions { OnOk result (pending.new.insertions.items ≡ []) }
    ensures values { values cracked.new.pivots.list ≡ values cracked.old.pivots.list }
    ensures refused { OnErr result (StaysAsItWas cracked.old cracked.new pending.old pending.new) }
{
    cracked.rows.reserve(pending.insertions.len())?;
    let all_scores = Range {
        min: Bound::NegInf,
        max: Bound::PosInf,
    };
    merge_range(cracked, pending, &all_scores);
    Ok(())
}

/// From how many rows on there is always room for those that wait to come in.
const RESERVED_AHEAD_FROM: usize = 1024;

/// Makes room for `n` more rows in each of the two lists of rows that wait. Where one would pass
/// [`MAX_PENDING`] rows, all that waits is merged first. On Err, the content is unchanged.
pub fn reserve_write<A: Allocator + Copy>(
    cracked: &mut Cracked<A>,
    pending: &mut Pending<A>,
    n: usize,
) -> Result<(), AllocError>
    requires n { n ≤ MAX_RESERVED }
    requires part { IsSubBag pending.old.deletions.items cracked.old.rows.items }
    requires few_deletions { length pending.old.deletions.items ≤ MAX_PENDING }
    requires few_insertions { length pending.old.insertions.items ≤ MAX_PENDING }
    ensures merges { Merges cracked.old cracked.new pending.old pending.new }
    ensures values { values cracked.new.pivots.list ≡ values cracked.old.pivots.list }
    ensures room { OnOk result (HasRoomFor n pending.new) }

    // All is merged exactly where one of the lists would pass its limit.
    ensures merged { OnOk result (MAX_PENDING < most_waiting pending.old + n → NoneWaits pending.new) }
    ensures still { most_waiting pending.old + n ≤ MAX_PENDING
        → StaysAsItWas cracked.old cracked.new pending.old pending.new }
{
    if pending.deletions.len().max(pending.insertions.len()) + n > MAX_PENDING {
        merge_all(cracked, pending)?;
    }
    pending.insertions.reserve(n)?;
    pending.deletions.reserve(n)?;
    reserve_ahead(cracked, pending.insertions.len() + n)
}

/// Makes room for rows that wait to come in among many, so that their merge takes no memory then: rows can leave where
/// there is none left. What a merge of few rows takes is little.
fn reserve_ahead<A: Allocator + Copy>(
    cracked: &mut Cracked<A>,
    coming: usize,
) -> Result<(), AllocError>
    ensures rows { cracked.new.rows.items ≡ cracked.old.rows.items }
    ensures len { vec_len cracked.new.rows ≡ vec_len cracked.old.rows }
    ensures pivots { cracked.new.pivots ≡ cracked.old.pivots }
{
    if cracked.rows.len() < RESERVED_AHEAD_FROM {
        return Ok(());
    }
    cracked.rows.reserve(coming)
}
