//! The selection of a range: what waits in it is merged, and the column is cracked at its cuts.

ghost use Rattle.std.specs.Prelude.{◌≡◌, ◌⊎◌, ◌+◌, ◌<◌, ◌≤◌, ◌++◌, ℕ, ℤ, List, [], true, false, IsTrue, min, max, Contains, IsErr, length, count_by, slice_index_or, IsPermutation, IfOk, OnOk, OnErr, IfSome, OnSome, vec_len, vec_capacity};
ghost use Rattle.crack_kernel.specs.RowBag.{IsSubBag};
ghost use Rattle.crack_kernel.specs.PivotList.{IsRising};
ghost use Rattle.column_rows.specs.Content.{has_score_in, NoneIn, SameOutside};
ghost use Rattle.column_rows.specs.MergeEffects.{Merges};
ghost use Rattle.column_rows.specs.EffectsOnPieces.{HasRoom, StaysAsShown, most_with_inner, shown};
ghost use Rattle.column_rows.specs.RangeCutsAsPivots.{is_before, values, cut_values, count_with_cuts, new_values, values_with_cuts, StandsAt, IsUncracked};

use crate::merge::merge_gathered;
use column_rows::{
    Pending, Pieces, approach_cuts, are_short, break_up, count_missing, crack_between, is_before,
    is_short_at, renew_places, show_cuts,
};
use crack_kernel::{MAX_PIVOTS, Pivots};
use score_bounds::{Cut, Range};
use std::alloc::{AllocError, Allocator};

/// From so many shown pivots on inner ones are dropped where they are few: the places of all that are
/// shown are copied after each merge, which costs more than few inner pivots save.
const MANY_SHOWN: usize = 512;

/// Few inner pivots: fewer than this part of those that are shown.
const FEW_INNER: usize = 8;

/// Drops the inner pivots where they are few beside many that are shown, and the shown ones alone make the
/// pieces short, those of the two cuts too: each new cut would be put into both lists.
///
/// Where cuts move on, as those up to now do, the shown pivots stand close at one end, and the cuts come
/// into the one long piece behind them. Without the inner pivots each cut would read all of it.
fn drop_few_inner<A: Allocator>(pieces: &mut Pieces<A>, first: &Cut, second: &Cut)
    ensures rows { pieces.new.cracked.rows ≡ pieces.old.cracked.rows }
    ensures shown { shown pieces.new ≡ shown pieces.old }
{
    let all = pieces.cracked.pivots.len();
    let shown = pieces.kept.len();
    let are_few = shown >= MANY_SHOWN && shown <= all && (all - shown) * FEW_INNER < shown;
    if !pieces.apart || !are_few {
        return;
    }
    let rows_len = pieces.cracked.rows.len();
    let kept = &pieces.kept;
    let short_at_cuts = is_short_at(kept, first, rows_len) && is_short_at(kept, second, rows_len);
    if short_at_cuts && are_short(kept, rows_len) {
        pieces.drop_inner();
    }
}

/// Whether two more pivots fit beside all, and beside those that are shown, whatever the cuts are.
fn fit_two_more<A: Allocator>(pieces: &Pieces<A>) -> bool
    ensures all { IsTrue result → length pieces.now.cracked.pivots.list + 2 ≤ MAX_PIVOTS }
    ensures shown { IsTrue result → length (shown pieces.now) + 2 ≤ MAX_PIVOTS }
{
    let most = pieces.shown().len().max(pieces.cracked.pivots.len());
    most + 2 <= MAX_PIVOTS
}

/// Drops pivots where there is no room for the two cuts beside them: the inner ones alone, if that
/// is enough.
fn fit_cuts<A: Allocator>(pieces: &mut Pieces<A>, first: &Cut, second: &Cut)
    requires spare { 2 ≤ pieces.old.cracked.pivots.spare }
    requires room { HasRoom pieces.old }
    ensures rows { pieces.new.cracked.rows ≡ pieces.old.cracked.rows }
    ensures kept { count_with_cuts first.now second.now (shown pieces.old) ≤ MAX_PIVOTS → shown pieces.new ≡ shown pieces.old }
    ensures cleared { MAX_PIVOTS < count_with_cuts first.now second.now (shown pieces.old) → shown pieces.new ≡ [] }
    ensures few_shown { count_with_cuts first.now second.now (shown pieces.new) ≤ MAX_PIVOTS }
    ensures spare { 2 ≤ pieces.new.cracked.pivots.spare }
    ensures room { HasRoom pieces.new }
    ensures few { count_with_cuts first.now second.now pieces.new.cracked.pivots.list ≤ MAX_PIVOTS }
{
    if fit_two_more(pieces) {
        return;
    }
    let shown = pieces.shown();
    let needed = shown.len() + count_missing(shown, first) + count_missing(shown, second);
    let all = &pieces.cracked.pivots;
    let needed_all = all.len() + count_missing(all, first) + count_missing(all, second);
    if needed > MAX_PIVOTS {
        pieces.cracked.pivots.clear();
        pieces.apart = false;
    } else if pieces.apart && needed_all > MAX_PIVOTS {
        pieces.drop_inner();
    }
}

/// Makes room for the rows that wait in the range and for the pivots that the cuts become. Where
/// these would be too many, pivots are dropped: the inner ones alone, if that is enough.
pub fn make_room<A: Allocator>(
    pieces: &mut Pieces<A>,
    pending: &Pending<A>,
    range: &Range,
    first: &Cut,
    second: &Cut,
) -> Result<(), AllocError>
    ensures rows { pieces.new.cracked.rows.items ≡ pieces.old.cracked.rows.items }
    ensures refused { OnErr result (shown pieces.new ≡ shown pieces.old) }
    ensures room { OnOk result (vec_len pieces.new.cracked.rows + count_by (has_score_in range.now) pending.now.insertions.items
        ≤ vec_capacity pieces.new.cracked.rows) }

    // The pivots that are shown.
    ensures kept { OnOk result (count_with_cuts first.now second.now (shown pieces.old) ≤ MAX_PIVOTS
        → shown pieces.new ≡ shown pieces.old) }
    ensures cleared { OnOk result (MAX_PIVOTS < count_with_cuts first.now second.now (shown pieces.old)
        → shown pieces.new ≡ []) }
    ensures room_shown { OnOk result (HasRoom pieces.new) }
    ensures few_shown { OnOk result (count_with_cuts first.now second.now (shown pieces.new) ≤ MAX_PIVOTS) }

    // All pivots.
    ensures spare { OnOk result (2 ≤ pieces.new.cracked.pivots.spare) }
    ensures few { OnOk result (count_with_cuts first.now second.now pieces.new.cracked.pivots.list ≤ MAX_PIVOTS) }
{
    // Where all that waits would find room, what waits in the range need not be counted.
    let insertions = &pending.insertions;
    if pieces.cracked.rows.spare() < insertions.len() {
        let arriving = insertions.count_within(range);
        pieces.cracked.rows.reserve(arriving)?;
    }
    drop_few_inner(pieces, first, second);
    pieces.reserve_cuts()?;
    fit_cuts(pieces, first, second);
    Ok(())
}

/// Merges the rows that wait and have scores in the range. Coarse pieces that rows leave are cracked
/// first.
fn settle<A: Allocator + Copy>(pieces: &mut Pieces<A>, pending: &mut Pending<A>, range: &Range)
    requires part { IsSubBag pending.old.deletions.items pieces.old.cracked.rows.items }
    requires room { vec_len pieces.old.cracked.rows + count_by (has_score_in range.now) pending.old.insertions.items
        ≤ vec_capacity pieces.old.cracked.rows }
    ensures merges { Merges pieces.old.cracked pieces.new.cracked pending.old pending.new }
    ensures merged_deletions { NoneIn range.now pending.new.deletions.items }
    ensures merged_insertions { NoneIn range.now pending.new.insertions.items }
    ensures waiting { SameOutside range.now pending.old.deletions.items pending.new.deletions.items
        × SameOutside range.now pending.old.insertions.items pending.new.insertions.items }

    // The pivots keep their values, and room is left for two more.
    ensures values { values (shown pieces.new) ≡ values (shown pieces.old) }
    ensures values_kept { (v : ℤ) → Contains (values pieces.old.cracked.pivots.list) v
        → Contains (values pieces.new.cracked.pivots.list) v }
    ensures spare { min 2 pieces.old.cracked.pivots.spare ≤ pieces.new.cracked.pivots.spare }
    ensures room { HasRoom pieces.old → HasRoom pieces.new }
    ensures few { length pieces.new.cracked.pivots.list ≤ max most_with_inner (length pieces.old.cracked.pivots.list) }

    // Where nothing waits in the range nothing changes.
    ensures still { NoneIn range.now pending.old.deletions.items → NoneIn range.now pending.old.insertions.items
        → (pieces.new.cracked.rows.items ≡ pieces.old.cracked.rows.items) × (shown pieces.new ≡ shown pieces.old) }
{
    let tails = pending.gather(range);
    if pending.ends_before(tails) {
        return;
    }
    break_up(pieces, &pending.deletions, tails.deletions);
    merge_gathered(&mut pieces.cracked, pending, range, tails);
    renew_places(pieces.apart, &mut pieces.kept, &pieces.cracked.pivots);
    pending.give_back(pieces.cracked.rows.len(), 0);
}

/// Cracks the rows at two cuts, of which the first is below the second, shows these as pivots, and
/// answers their places.
fn crack_and_show<A: Allocator>(pieces: &mut Pieces<A>, first: &Cut, second: &Cut) -> (usize, usize)
    requires order { is_before first.now second.now ≡ true }
    requires spare { length (new_values first.now (values pieces.old.cracked.pivots.list))
        + length (new_values second.now (values pieces.old.cracked.pivots.list)) ≤ pieces.old.cracked.pivots.spare }
    requires few { count_with_cuts first.now second.now pieces.old.cracked.pivots.list ≤ MAX_PIVOTS }
    requires room_shown { HasRoom pieces.old }
    requires few_shown { count_with_cuts first.now second.now (shown pieces.old) ≤ MAX_PIVOTS }
    ensures rows { IsPermutation pieces.old.cracked.rows.items pieces.new.cracked.rows.items }
    ensures first { StandsAt first.now (shown pieces.new) (length pieces.new.cracked.rows.items) result.0 }
    ensures second { StandsAt second.now (shown pieces.new) (length pieces.new.cracked.rows.items) result.1 }
    ensures values { IsPermutation (values_with_cuts first.now second.now (values (shown pieces.old)))
        (values (shown pieces.new)) }
    ensures still { (k : ℕ) (d : ℤ × List ℕ) → IsUncracked first.now (shown pieces.old) k
        → IsUncracked second.now (shown pieces.old) k → slice_index_or pieces.new.cracked.rows.items k d
        ≡ slice_index_or pieces.old.cracked.rows.items k d }
{
    let places = crack_between(&mut pieces.cracked, first, second);
    if pieces.apart {
        let rows_len = pieces.cracked.rows.len();
        show_cuts(
            &mut pieces.kept,
            &pieces.cracked.pivots,
            first,
            second,
            rows_len,
            places,
        );
    }
    places
}

/// Merges what waits in a range, cracks the column at its cuts, and answers their places. Where the
/// first cut is not below the second, there is nothing to do. On Err, all is unchanged.
pub fn select_between<A: Allocator + Copy>(
    pieces: &mut Pieces<A>,
    pending: &mut Pending<A>,
    range: &Range,
    first: &Cut,
    second: &Cut,
) -> Result<(usize, usize), AllocError>
    requires part { IsSubBag pending.old.deletions.items pieces.old.cracked.rows.items }
    ensures merges { Merges pieces.old.cracked pieces.new.cracked pending.old pending.new }

    // Where nothing is to be done all is unchanged.
    ensures empty { is_before first.now second.now ≡ false → result ≡ Ok (0, 0) }
    ensures same { is_before first.now second.now ≡ false ⊎ IsErr result
        → StaysAsShown pieces.old pieces.new pending.old pending.new }

    // What waited in the range is merged.
    ensures merged_deletions { is_before first.now second.now ≡ true → OnOk result (NoneIn range.now pending.new.deletions.items) }
    ensures merged_insertions { is_before first.now second.now ≡ true → OnOk result (NoneIn range.now pending.new.insertions.items) }
    ensures waiting { SameOutside range.now pending.old.deletions.items pending.new.deletions.items
        × SameOutside range.now pending.old.insertions.items pending.new.insertions.items }

    // The cuts are pivots. The other pivots stay where there is room for all.
    ensures first { is_before first.now second.now ≡ true → IfOk result
        (λ r. StandsAt first.now (shown pieces.new) (length pieces.new.cracked.rows.items) r.0) }
    ensures second { is_before first.now second.now ≡ true → IfOk result
        (λ r. StandsAt second.now (shown pieces.new) (length pieces.new.cracked.rows.items) r.1) }
    ensures values_kept { is_before first.now second.now ≡ true → OnOk result
        (count_with_cuts first.now second.now (shown pieces.old) ≤ MAX_PIVOTS
        → IsPermutation (values_with_cuts first.now second.now (values (shown pieces.old)))
        (values (shown pieces.new))) }
    ensures values_cleared { is_before first.now second.now ≡ true → OnOk result (MAX_PIVOTS
        < count_with_cuts first.now second.now (shown pieces.old)
        → IsPermutation (cut_values second.now ++ cut_values first.now)
        (values (shown pieces.new))) }
    ensures still { OnOk result (count_with_cuts first.now second.now (shown pieces.old) ≤ MAX_PIVOTS
        → NoneIn range.now pending.old.insertions.items → NoneIn range.now pending.old.deletions.items
        → (k : ℕ) (d : ℤ × List ℕ) → IsUncracked first.now (shown pieces.old) k
        → IsUncracked second.now (shown pieces.old) k → slice_index_or pieces.new.cracked.rows.items k d
        ≡ slice_index_or pieces.old.cracked.rows.items k d) }
{
    if !is_before(first, second) {
        return Ok((0, 0));
    }
    make_room(pieces, pending, range, first, second)?;
    settle(pieces, pending, range);
    approach_cuts(pieces, first, second);
    Ok(crack_and_show(pieces, first, second))
}

/// The place of a cut, if it has one: an end of the column, or a pivot.
fn place_of_cut<A: Allocator>(pivots: &Pivots<A>, cut: &Cut, rows_len: usize) -> Option<usize>
    requires { IsRising pivots.now.list }
    ensures place { IfSome result (λ place. StandsAt cut.now pivots.now.list rows_len place) }
    ensures exact { (place : ℕ) → StandsAt cut.now pivots.now.list rows_len place → result ≡ Some place }
{
    match *cut {
        Cut::Start => Some(0),
        Cut::At(v) => pivots.find(v),
        Cut::End => Some(rows_len),
    }
}

/// The places of the two cuts of a range, if both have one and nothing waits in the range.
pub fn settled_places<A: Allocator>(
    pieces: &Pieces<A>,
    pending: &Pending<A>,
    range: &Range,
    first: &Cut,
    second: &Cut,
) -> Option<(usize, usize)>
    ensures first { IfSome result (λ r. StandsAt first.now (shown pieces.now) (length pieces.now.cracked.rows.items) r.0) }
    ensures second { IfSome result (λ r. StandsAt second.now (shown pieces.now) (length pieces.now.cracked.rows.items) r.1) }
    ensures deletions { OnSome result (NoneIn range.now pending.now.deletions.items) }
    ensures insertions { OnSome result (NoneIn range.now pending.now.insertions.items) }
    ensures exact { (r : ℕ × ℕ) → StandsAt first.now (shown pieces.now) (length pieces.now.cracked.rows.items) r.0
        → StandsAt second.now (shown pieces.now) (length pieces.now.cracked.rows.items) r.1 → NoneIn range.now pending.now.deletions.items
        → NoneIn range.now pending.now.insertions.items → result ≡ Some r }
{
    if pending.has_within(range) {
        return None;
    }
    let rows_len = pieces.cracked.rows.len();
    let shown = pieces.shown();
    let from = place_of_cut(shown, first, rows_len)?;
    let to = place_of_cut(shown, second, rows_len)?;
    Some((from, to))
}
