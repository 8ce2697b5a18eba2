//! Cracks in the center of a piece, where a range's cut would come near its end (Stochastic Database
//! Cracking, Halim, Idreos, Karras and Yap, PVLDB 5, 2012: data driven center).
//!
//! Where ranges move on, as those of a sliding window do, each cut comes near the end of the piece that
//! no range has parted yet. Cracked at the cuts alone, all its rows would be read each time.

ghost use Rattle.std.specs.Prelude.{◌≡◌, ℕ, ℤ, List, slice_index_or};
ghost use Rattle.column_rows.specs.RangeCutsAsPivots.{IsUncracked};
ghost use Rattle.column_rows.specs.EffectsOnPieces.{AreCracked, shown};
ghost use Rattle.score_bounds.specs.declared.ranges_and_cuts.Cut.TheVariants.{At};

use crate::cracked_with_shown_pivots::Pieces;
use crate::inner_cracks::{SAMPLE, crack_inside, parting_score_at, sample_of};
use crack_kernel::{Pivots, Row};
use score_bounds::Cut;
use std::alloc::Allocator;

/// A piece of so many rows or more is long: one whose rows take long to read.
const LONG_PIECE: usize = 2048;

/// A piece of fewer rows is cracked at a cut alone, which reads them as fast as a crack in the center.
const CENTERED_ROWS: usize = 256;

/// A cut comes near the end of a long piece where fewer rows of its sample than this are on one side.
const NEAR: usize = SAMPLE / 8;

/// The same of a piece that is not long: few enough that cuts at random seldom crack its center too.
const NEAR_IN_SHORT: usize = 2;

/// Around so many places, at equal distances, the pieces are looked at to tell whether all are short.
const LOOKED_AT: usize = 8;

/// How many rows the piece around a place has.
fn piece_len<A: Allocator>(pivots: &Pivots<A>, place: usize, rows_len: usize) -> usize {
    let list = pivots.list();
    let i = list.partition_point(|pivot| pivot.1 <= place);
    let (from, to) = pivots.piece_at(i, rows_len);
    to.saturating_sub(from)
}

/// Whether pivots part the rows into short pieces, as far as a few of these tell.
pub fn are_short<A: Allocator>(pivots: &Pivots<A>, rows_len: usize) -> bool {
    let step = rows_len / LOOKED_AT;
    for i in 0..LOOKED_AT {
        if piece_len(pivots, i * step, rows_len) >= LONG_PIECE {
            return false;
        }
    }
    true
}

/// Whether a cut, if it is not an end of the column, comes into a short piece.
pub fn is_short_at<A: Allocator>(pivots: &Pivots<A>, cut: &Cut, rows_len: usize) -> bool {
    match *cut {
        Cut::At(v) => {
            let (from, to) = pivots.piece_of(v, rows_len);
            to.saturating_sub(from) < LONG_PIECE
        }
        Cut::Start | Cut::End => true,
    }
}

/// A score that parts these rows in the center, where a cut at `v` would come near an end of them.
fn center_score<A: Allocator>(rows: &[Row<A>], v: i64) -> Option<i64> {
    let near = if rows.len() < LONG_PIECE {
        NEAR_IN_SHORT
    } else {
        NEAR
    };
    let mut sample = sample_of(rows)?;
    let below = sample.iter().filter(|score| **score < v).count();
    if below >= near && below <= SAMPLE - near {
        return None;
    }
    sample.sort_unstable();
    parting_score_at(&sample, SAMPLE / 2)
}

/// Cracks the piece of `v` in its center, where it has enough rows and a cut at `v` would come near its end, and
/// answers whether it did. Where `v` is a pivot it cracks nothing.
fn crack_center<A: Allocator>(pieces: &mut Pieces<A>, v: i64) -> bool
    ensures cracked { AreCracked pieces.old pieces.new }
    ensures still { (k : ℕ) (d : ℤ × List ℕ) → IsUncracked (At v) pieces.old.cracked.pivots.list k
        → slice_index_or pieces.new.cracked.rows.items k d ≡ slice_index_or pieces.old.cracked.rows.items k d }
{
    let cracked = &pieces.cracked;
    let index = cracked.pivots.count_upto(v);
    if cracked.pivots.find_at(index, v).is_some() {
        return false;
    }
    let rows_len = cracked.rows.len();
    let (from, to) = cracked.pivots.piece_at(index, rows_len);
    if to - from < CENTERED_ROWS {
        return false;
    }
    let Some(center) = center_score(&cracked.rows.list()[from..to], v) else {
        return false;
    };
    // A row's score lies in the row's piece: this is only told here.
    let (center_from, center_to) = cracked.pivots.piece_of(center, rows_len);
    if center_from != from || center_to != to {
        return false;
    }
    crack_inside(pieces, center)
}

/// Cracks the piece of `v` in its center, and the half of it with `v` again, until a cut there comes near no end of
/// its piece or the piece has few rows.
fn crack_centers<A: Allocator>(pieces: &mut Pieces<A>, v: i64)
    ensures cracked { AreCracked pieces.old pieces.new }
    ensures still { (k : ℕ) (d : ℤ × List ℕ) → IsUncracked (At v) pieces.old.cracked.pivots.list k
        → slice_index_or pieces.new.cracked.rows.items k d ≡ slice_index_or pieces.old.cracked.rows.items k d }
{
    for _turn in 0..SAMPLE {
        if !crack_center(pieces, v) {
            return;
        }
    }
}

/// Cracks the piece of a cut in centers, where the cut is not an end of the column.
fn approach_cut<A: Allocator>(pieces: &mut Pieces<A>, cut: &Cut)
    ensures cracked { AreCracked pieces.old pieces.new }
    ensures still { (k : ℕ) (d : ℤ × List ℕ) → IsUncracked cut.now pieces.old.cracked.pivots.list k
        → slice_index_or pieces.new.cracked.rows.items k d ≡ slice_index_or pieces.old.cracked.rows.items k d }
{
    if let Cut::At(v) = *cut {
        crack_centers(pieces, v);
    }
}

/// Cracks the pieces of two cuts in their centers, so that the cuts come near no end of a piece of many rows.
pub fn approach_cuts<A: Allocator>(pieces: &mut Pieces<A>, first: &Cut, second: &Cut)
    ensures cracked { AreCracked pieces.old pieces.new }
    ensures still { (k : ℕ) (d : ℤ × List ℕ) → IsUncracked first.now (shown pieces.old) k
        → IsUncracked second.now (shown pieces.old) k → slice_index_or pieces.new.cracked.rows.items k d
        ≡ slice_index_or pieces.old.cracked.rows.items k d }
{
    approach_cut(pieces, first);
    approach_cut(pieces, second);
}
