//! The cracking of a column at a cut.

ghost use Rattle.std.specs.Prelude.{◌≡◌, ◌+◌, ◌<◌, ◌≤◌, ℕ, ℤ, List, ◌∷◌, ◌++◌, true, length, IsPermutation, slice_index_or, vec_capacity};
ghost use Rattle.crack_kernel.specs.PivotList.{IsNewValue, RisesPast};
ghost use Rattle.column_rows.specs.RangeCutsAsPivots.{is_before, values, count_with_cuts, new_values, values_with_cuts, StandsAt, IsApart, IsUncracked};
ghost use Rattle.column_rows.specs.ShownPivots.{IsAmong};

use crate::cracked_rows::Cracked;
use crack_kernel::{MAX_PIVOTS, Pivots};
use score_bounds::Cut;
use std::alloc::Allocator;

/// Whether the first cut lies below the second.
pub fn is_before(first: &Cut, second: &Cut) -> bool
    ensures { result ≡ is_before first.now second.now }
{
    first < second
}

/// How many pivots are missing for a cut: one, or none at an end and where it is a pivot.
pub fn count_missing<A: Allocator>(pivots: &Pivots<A>, cut: &Cut) -> usize
    ensures { result ≡ length (new_values cut.now (values pivots.now.list)) }
{
    match *cut {
        Cut::At(v) => match pivots.find(v) {
            Some(_) => 0,
            None => 1,
        },
        Cut::Start | Cut::End => 0,
    }
}

/// Cracks the rows at two cuts, of which the first is below the second, and answers their places.
///
/// Where both lie in one piece this is crack-in-three: the second crack finds the piece that
/// begins at the first cut.
pub fn crack_between<A: Allocator>(
    cracked: &mut Cracked<A>,
    first: &Cut,
    second: &Cut,
) -> (usize, usize)
    requires order { is_before first.now second.now ≡ true }
    requires room { length (new_values first.now (values cracked.old.pivots.list))
        + length (new_values second.now (values cracked.old.pivots.list)) ≤ cracked.old.pivots.spare }
    requires few { count_with_cuts first.now second.now cracked.old.pivots.list ≤ MAX_PIVOTS }
    ensures rows { IsPermutation cracked.old.rows.items cracked.new.rows.items }
    ensures first { StandsAt first.now cracked.new.pivots.list (length cracked.new.rows.items) result.0 }
    ensures second { StandsAt second.now cracked.new.pivots.list (length cracked.new.rows.items) result.1 }
    ensures values { IsPermutation (values_with_cuts first.now second.now (values cracked.old.pivots.list))
        (values cracked.new.pivots.list) }
    ensures kept { IsAmong cracked.old.pivots.list cracked.new.pivots.list }
    ensures still { (k : ℕ) (d : ℤ × List ℕ) → IsUncracked first.now cracked.old.pivots.list k
        → IsUncracked second.now cracked.old.pivots.list k → slice_index_or cracked.new.rows.items k d
        ≡ slice_index_or cracked.old.rows.items k d }
{
    let from = crack_at_cut(cracked, first);
    let to = crack_at_cut(cracked, second);
    (from, to)
}

/// Cracks the rows at a cut, which becomes a pivot unless it is one, and answers its place.
fn crack_at_cut<A: Allocator>(cracked: &mut Cracked<A>, cut: &Cut) -> usize
    requires room { length (new_values cut.now (values cracked.old.pivots.list)) ≤ cracked.old.pivots.spare }
    requires few { length cracked.old.pivots.list + length (new_values cut.now (values cracked.old.pivots.list)) ≤ MAX_PIVOTS }
    ensures rows { IsPermutation cracked.old.rows.items cracked.new.rows.items }
    ensures place { StandsAt cut.now cracked.new.pivots.list (length cracked.new.rows.items) result }
    ensures values { IsPermutation (new_values cut.now (values cracked.old.pivots.list)
        ++ values cracked.old.pivots.list) (values cracked.new.pivots.list) }
    ensures kept { IsAmong cracked.old.pivots.list cracked.new.pivots.list }
    ensures spare { cracked.old.pivots.spare ≡ cracked.new.pivots.spare + length (new_values cut.now (values cracked.old.pivots.list)) }
    ensures still { (k : ℕ) (d : ℤ × List ℕ) → IsUncracked cut.now cracked.old.pivots.list k
        → slice_index_or cracked.new.rows.items k d ≡ slice_index_or cracked.old.rows.items k d }
{
    match *cut {
        Cut::Start => 0,
        Cut::At(v) => {
            let index = cracked.pivots.count_upto(v);
            match cracked.pivots.find_at(index, v) {
                Some(place) => place,
                None => crack_at(cracked, index, v),
            }
        }
        Cut::End => cracked.rows.len(),
    }
}

/// Cracks the piece of `v`, which becomes a pivot, and answers its place. The first `index` pivots have a
/// value up to `v`, and the others have not.
pub fn crack_at<A: Allocator>(cracked: &mut Cracked<A>, index: usize, v: i64) -> usize
    requires index { RisesPast v cracked.old.pivots.list index }
    requires new { IsNewValue v cracked.old.pivots.list }
    requires room { 0 < cracked.old.pivots.spare }
    requires few { length cracked.old.pivots.list < MAX_PIVOTS }
    ensures rows { IsPermutation cracked.old.rows.items cracked.new.rows.items }
    ensures pivots { IsPermutation ((v, result) ∷ cracked.old.pivots.list) cracked.new.pivots.list }
    ensures spare { cracked.old.pivots.spare ≡ cracked.new.pivots.spare + 1 }
    ensures capacity { vec_capacity cracked.new.rows ≡ vec_capacity cracked.old.rows }
    ensures still { (k : ℕ) (d : ℤ × List ℕ) → IsApart v cracked.old.pivots.list k
        → slice_index_or cracked.new.rows.items k d ≡ slice_index_or cracked.old.rows.items k d }
{
    let (from, to) = cracked.pivots.piece_at(index, cracked.rows.len());
    let place = cracked.rows.crack(from, to, v);
    cracked.pivots.add_at(index, v, place);
    place
}
