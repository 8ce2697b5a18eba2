ghost use Rattle.std.specs.Prelude.{◌≡◌, ◌∷◌, [], pos, IsTrue};

use crack_kernel::{Pivots, Row, crack_three, crack_two};
use short_bytes::ShortBytes;
use std::alloc::{AllocError, Global};

// Rows of these scores, each with a member of one byte.
fn rows_of(alloc: Global, scores: &[i64]) -> Result<Vec<Row<Global>>, AllocError> {
    let mut rows = Vec::new(alloc);
    for score in scores {
        rows.push(Row::new(*score, ShortBytes::from_slice(alloc, b"m")?))?;
    }
    Ok(rows)
}

// Where rows of these scores are cracked in two at 5, and in three at 3 and 6.
fn places_of(alloc: Global, scores: &[i64]) -> Result<(usize, (usize, usize)), AllocError> {
    let mut rows = rows_of(alloc, scores)?;
    let place = crack_two(&mut rows, 5);
    drop(rows);
    let mut rows = rows_of(alloc, scores)?;
    let places = crack_three(&mut rows, 3, 6);
    drop(rows);
    Ok((place, places))
}

// 4,096 scores from 0 on, in no order.
fn mixed_scores(alloc: Global) -> Result<Vec<i64>, AllocError> {
    let mut scores = Vec::new(alloc);
    for i in 0..4096u16 {
        scores.push(i64::from(i) * 1021 % 4096)?;
    }
    Ok(scores)
}

// Whether a row of the score stands at a place.
fn stands_at(rows: &[Row<Global>], at: usize, score: i64) -> bool {
    match rows.get(at) {
        None => false,
        Some(row) => row.score() == score,
    }
}

// How many rows stood on their side of a score's place, and how many of these stand where they stood.
fn kept_places(scores: &[i64], rows: &[Row<Global>], place: usize, v: i64) -> (usize, usize) {
    let mut stood = 0usize;
    let mut kept = 0usize;
    for (at, score) in scores.iter().enumerate() {
        if (at < place) == (*score < v) {
            stood = stood.saturating_add(1);
            if stands_at(rows, at, *score) {
                kept = kept.saturating_add(1);
            }
        }
    }
    (stood, kept)
}

// Whether the first range of a long set is cracked with few moves: rows on the wrong side change places, and the others
// stay, but for a block or two.
fn stay_on_their_side(alloc: Global) -> Result<bool, AllocError> {
    let scores = mixed_scores(alloc)?;
    let mut rows = rows_of(alloc, &scores)?;
    let place = crack_two(&mut rows, 2048);
    let (stood, kept) = kept_places(&scores, &rows, place, 2048);
    drop(rows);
    drop(scores);
    Ok(stood > 1000 && kept.saturating_mul(8) > stood.saturating_mul(7))
}

#[test]
fn rows_are_cracked(rt: HostRuntime) -> Result<(), AllocError> {
    assert!(rt; places_of(rt.alloc(), &[5, 1, 5, 9, 3])? == (2, (1, 4)));
    assert!(rt; places_of(rt.alloc(), &[])? == (0, (0, 0)));
    assert!(rt; stay_on_their_side(rt.alloc())?);
    Ok(())
}

// Each score stands in this piece among ten rows.
static PIECES: [(i64, (usize, usize)); 4] = [(1, (0, 2)), (3, (2, 6)), (5, (2, 6)), (7, (6, 10))];

// Whether pieces are found by the scores in them.
fn has_pieces(pivots: &Pivots<Global>) -> bool {
    for (value, piece) in &PIECES {
        if pivots.piece_of(*value, 10) != *piece {
            return false;
        }
    }
    true
}

// Two pivots are found by their values.
fn has_two(pivots: &Pivots<Global>) -> bool {
    are_at(pivots, 2, 6) && pivots.find(3) == Some(2) && pivots.find(4).is_none()
}

// Whether the pivots are 3 and 7, at these places.
fn are_at(pivots: &Pivots<Global>, low: usize, high: usize) -> bool
    ensures { IsTrue result → pivots.now.list ≡ (pos 3, low) ∷ (pos 7, high) ∷ [] }
{
    match pivots.list() {
        [first, second] => *first == (3, low) && *second == (7, high),
        _ => false,
    }
}

// Whether the places of two pivots are moved as they should be, and close up.
fn are_moved(pivots: &mut Pivots<Global>) -> bool {
    if !are_at(pivots, 2, 6) {
        return false;
    }
    pivots.shift(1, true);
    if !are_at(pivots, 2, 7) {
        return false;
    }
    pivots.shift(0, false);
    let are_lowered = are_at(pivots, 1, 6);
    pivots.close_up(2, 4);
    let are_closed = are_at(pivots, 1, 4);
    pivots.close_up(0, 3);
    are_lowered && are_closed && are_at(pivots, 0, 1)
}

#[test]
fn pivots_are_kept(rt: HostRuntime) -> Result<(), AllocError> {
    let mut pivots = Pivots::new(rt.alloc());
    pivots.reserve(2)?;
    assert!(rt; pivots.is_empty());
    pivots.add(3, 2);
    assert!(rt; pivots.find(7).is_none() && pivots.len() == 1);
    pivots.add(7, 6);
    assert!(rt; has_two(&pivots));
    assert!(rt; has_pieces(&pivots));
    assert!(rt; are_moved(&mut pivots));
    pivots.clear();
    assert!(rt; pivots.is_empty() && pivots.len() == 0);
    Ok(())
}
