//! All that waits merged, where the pivots that are shown may have a list of their own.

ghost use Rattle.std.specs.Prelude.{◌≡◌, ◌+◌, ◌<◌, ◌≤◌, [], length, OnOk, OnErr};
ghost use Rattle.crack_kernel.specs.RowBag.{IsSubBag};
ghost use Rattle.column_rows.specs.RangeCutsAsPivots.{values};
ghost use Rattle.column_rows.specs.MergeEffects.{HasRoomFor, Merges, NoneWaits, most_waiting};
ghost use Rattle.column_rows.specs.EffectsOnPieces.{StaysAsShown, shown};

use crate::merge::{merge_all, reserve_write};
use column_rows::{MAX_PENDING, MAX_RESERVED, Pending, Pieces, renew_places};
use std::alloc::{AllocError, Allocator};

/// Merges all rows that wait. On Err, all is unchanged.
pub fn merge_all_pieces<A: Allocator + Copy>(
    pieces: &mut Pieces<A>,
    pending: &mut Pending<A>,
) -> Result<(), AllocError>
    requires part { IsSubBag pending.old.deletions.items pieces.old.cracked.rows.items }
    ensures merges { Merges pieces.old.cracked pieces.new.cracked pending.old pending.new }
    ensures merged_deletions { OnOk result (pending.new.deletions.items ≡ []) }
    ensures merged_insertions { OnOk result (pending.new.insertions.items ≡ []) }
    ensures values { values (shown pieces.new) ≡ values (shown pieces.old) }
    ensures refused { OnErr result (StaysAsShown pieces.old pieces.new pending.old pending.new) }
{
    merge_all(&mut pieces.cracked, pending)?;
    renew_places(pieces.apart, &mut pieces.kept, &pieces.cracked.pivots);
    Ok(())
}

/// Makes room for `n` more rows in each of the two lists of rows that wait. Where one would pass
/// [`MAX_PENDING`] rows, all that waits is merged first. On Err, the content is unchanged.
pub fn reserve_write_beside_pieces<A: Allocator + Copy>(
    pieces: &mut Pieces<A>,
    pending: &mut Pending<A>,
    n: usize,
) -> Result<(), AllocError>
    requires n { n ≤ MAX_RESERVED }
    requires part { IsSubBag pending.old.deletions.items pieces.old.cracked.rows.items }
    requires few_deletions { length pending.old.deletions.items ≤ MAX_PENDING }
    requires few_insertions { length pending.old.insertions.items ≤ MAX_PENDING }
    ensures merges { Merges pieces.old.cracked pieces.new.cracked pending.old pending.new }
    ensures values { values (shown pieces.new) ≡ values (shown pieces.old) }
    ensures room { OnOk result (HasRoomFor n pending.new) }

    // All is merged exactly where one of the lists would pass its limit.
    ensures merged { OnOk result (MAX_PENDING < most_waiting pending.old + n → NoneWaits pending.new) }
    ensures still { most_waiting pending.old + n ≤ MAX_PENDING
        → StaysAsShown pieces.old pieces.new pending.old pending.new }
{
    let merging = pending.deletions.len().max(pending.insertions.len()) + n > MAX_PENDING;
    let reserved = reserve_write(&mut pieces.cracked, pending, n);
    if merging {
        renew_places(pieces.apart, &mut pieces.kept, &pieces.cracked.pivots);
    }
    reserved
}
