//! Inner pivots: cracks beside those that the cuts of ranges make, so that a search for a row, and a
//! window of a range, read few rows.
//!
//! Where a range cuts nothing, as one from -inf to +inf, its piece would stay the whole column.

ghost use Rattle.std.specs.Prelude.{◌<◌, ◌≤◌, length, MatchOption};
ghost use Rattle.column_rows.specs.EffectsOnPieces.{AreCracked, RestStays};

use crate::cracked_rows::Cracked;
use crate::cracked_with_shown_pivots::Pieces;
use crate::cut_cracks::crack_at;
use crate::pending_lists::PendingList;
use crack_kernel::{MAX_PIVOTS, Row};
use std::alloc::Allocator;

/// How many scores of a piece are read to find one that parts it: few beside the rows of the
/// smallest piece that is cracked, and enough that a part is seldom much smaller than meant.
pub const SAMPLE: usize = 64;

/// A search for a row cracks no piece of fewer rows: they are read faster than they are cracked.
const SEARCHED_ROWS: usize = 2048;

/// Nor one with fewer rows for each pivot: a ripple move over the pivots takes as long as the search
/// then, and each pivot more makes it longer.
const ROWS_A_PIVOT: usize = 64;

/// From so many pivots on a search cracks nothing: the pieces are short enough by then.
const SEARCH_PIVOTS: usize = 512;

/// A window cracks no piece of fewer rows: there is no sample of them, and they are as fast copied and put in order.
const WINDOW_ROWS: usize = SAMPLE;

/// How many places of the sample a window's crack stands away from the window, so that this lies
/// inside the smaller part for nearly every sample.
const BESIDE: usize = 4;

/// The greatest number of pivots that inner ones make: the two cuts of a range fit beside them.
const MAX_WITH_INNER: usize = MAX_PIVOTS - 2;

/// Cracks the piece of `v`, which becomes an inner pivot, and answers whether it did. It does not
/// where `v` is a pivot, and where there would be too many pivots or no memory for them.
pub fn crack_inside<A: Allocator>(pieces: &mut Pieces<A>, v: i64) -> bool
    ensures cracked { AreCracked pieces.old pieces.new }
    ensures rest { RestStays v pieces.old pieces.new }
{
    let pivots = &pieces.cracked.pivots;
    if pivots.len() >= MAX_WITH_INNER || pivots.find(v).is_some() || !pieces.set_apart() {
        return false;
    }
    match pieces.cracked.pivots.reserve(3) {
        Ok(()) => {
            let index = pieces.cracked.pivots.count_upto(v);
            let _place = crack_at(&mut pieces.cracked, index, v);
            true
        }
        Err(_) => false,
    }
}

/// The scores of so many of these rows, at equal distances. None where there are fewer rows.
pub fn sample_of<A: Allocator>(rows: &[Row<A>]) -> Option<[i64; SAMPLE]>
    ensures { MatchOption result (length rows.now < SAMPLE) (λ sample. SAMPLE ≤ length rows.now) }
{
    let step = rows.len() / SAMPLE;
    if step == 0 {
        return None;
    }
    let mut sample = [0; SAMPLE];
    for i in 0..SAMPLE {
        sample[i] = rows[i * step].score();
    }
    Some(sample)
}

/// The score at a place of a sorted sample, or the first one behind it that parts the sample. None
/// where the sample has one score alone.
pub fn parting_score_at(sample: &[i64; SAMPLE], index: usize) -> Option<i64> {
    let least = sample[0];
    let above = sample.partition_point(|score| *score <= least);
    if above >= SAMPLE {
        return None;
    }
    Some(sample[index.max(above).min(SAMPLE - 1)])
}

/// A score that parts these rows, from a sample: the one that a row at the place has once they are
/// in order, and `beside` places of the sample beside it, on the side where more rows are. None where
/// the sample has one score alone.
fn parting_score<A: Allocator>(rows: &[Row<A>], place: usize, beside: usize) -> Option<i64>
    requires { beside ≤ BESIDE }
{
    let mut sample = sample_of(rows)?;
    sample.sort_unstable();
    let near = place / (rows.len() / SAMPLE);
    let index = if near < SAMPLE / 2 {
        near + beside
    } else {
        near - beside
    };
    parting_score_at(&sample, index)
}

/// Whether a search had better crack a piece of so many rows.
fn is_coarse(len: usize, pivots: usize) -> bool {
    len >= SEARCHED_ROWS && len / ROWS_A_PIVOT >= pivots && pivots < SEARCH_PIVOTS
}

/// Cracks the piece of a score in the middle, if it is coarse.
fn break_piece<A: Allocator>(pieces: &mut Pieces<A>, score: i64)
    ensures { AreCracked pieces.old pieces.new }
{
    let cracked = &pieces.cracked;
    let (from, to) = cracked.pivots.piece_of(score, cracked.rows.len());
    if !is_coarse(to - from, cracked.pivots.len()) {
        return;
    }
    if let Some(v) = parting_score(&cracked.rows.list()[from..to], (to - from) / 2, 0) {
        crack_inside(pieces, v);
    }
}

/// Cracks the coarse pieces of the rows that wait from the index `from` on. Where all rows together would
/// not make a coarse piece, there is none.
pub fn break_up<A: Allocator>(pieces: &mut Pieces<A>, waiting: &PendingList<A>, from: usize)
    ensures { AreCracked pieces.old pieces.new }
{
    let cracked = &pieces.cracked;
    if !is_coarse(cracked.rows.len(), cracked.pivots.len()) {
        return;
    }
    for i in from..waiting.len() {
        break_piece(pieces, waiting.list()[i].score());
    }
}

/// A score that parts the piece around a place near it. None where the place is an end of its piece,
/// where the piece is short, and where its rows have one score alone.
fn score_beside<A: Allocator>(cracked: &Cracked<A>, place: usize) -> Option<i64> {
    let list = cracked.pivots.list();
    let i = list.partition_point(|pivot| pivot.1 <= place);
    let (from, to) = cracked.pivots.piece_at(i, cracked.rows.len());
    if from >= place || place >= to {
        return None;
    }
    let len = to - from;
    if len < WINDOW_ROWS || len < list.len() {
        return None;
    }
    parting_score(&cracked.rows.list()[from..to], place - from, BESIDE)
}

/// Cracks the piece around a place near it, and answers whether it did.
fn narrow_once<A: Allocator>(pieces: &mut Pieces<A>, place: usize) -> bool
    ensures { AreCracked pieces.old pieces.new }
{
    match score_beside(&pieces.cracked, place) {
        Some(v) => crack_inside(pieces, v),
        None => false,
    }
}

/// Whether `narrow` would crack a piece at a place.
pub fn is_wide<A: Allocator>(cracked: &Cracked<A>, place: usize) -> bool {
    cracked.pivots.len() < MAX_WITH_INNER && score_beside(cracked, place).is_some()
}

/// Cracks the pieces around a place until few rows stand between it and the pivots on both sides.
pub fn narrow<A: Allocator>(pieces: &mut Pieces<A>, place: usize)
    ensures { AreCracked pieces.old pieces.new }
{
    for _turn in 0..SAMPLE {
        if !narrow_once(pieces, place) {
            return;
        }
    }
}
