//! The merging of many rows at once, by passes over the pieces.
//!
//! The rows that are to leave and to come are lined up by score. While no more come than have left,
//! a pass goes up over the pieces with the gap that was left. Where more come than have left, the
//! rows that leave above make room: a pass goes down from the piece where they are as many, or from
//! the end of the column, and then the next one goes on upwards from there. So each pivot moves
//! once, by as many places as it has to.

ghost use Rattle.std.specs.Prelude.{◌≡◌, ◌+◌, ◌-◌, ◌≤◌, ◌&&◌, not, true, false, length, take, count_by, IsPermutation, vec_len, vec_capacity};
ghost use Rattle.column_rows.specs.Content.{KeepsContent};
ghost use Rattle.column_rows.specs.MergeGap.{TakenFrom};
ghost use Rattle.column_rows.specs.MergeEffects.{KeepsFrame};

use crate::cracked_rows::Cracked;
use crate::deletion_bloom::DeletionBloom;
use crate::merge_at_gap::Direction;
use crate::merge_pass::{Pass, run_pass};
use crate::pending_lists::{Pending, RangeTails};
use crack_kernel::{Pivots, Row};
use std::alloc::Allocator;

/// From how many rows on a merge goes over the pieces once for all of them, however few pieces there are.
const MANY: usize = 32;

/// From how many moves on, one of each row over each pivot, the ripple moves of fewer rows than that take longer than
/// a pass, which carries a row that leaves to where one comes.
const MANY_MOVES: usize = 4096;

/// Whether so many rows are merged by passes among so many pivots.
fn are_many(rows: usize, pivots: usize) -> bool {
    rows >= MANY || rows >= 2 && rows.saturating_mul(pivots) >= MANY_MOVES
}

/// From which index on, from `from` on and at most `to`, scores are below `v` in a list in which
/// they fall.
fn tail_below<A: Allocator>(list: &[Row<A>], from: usize, to: usize, v: i64) -> usize
    requires order { from ≤ to }
    requires within { to ≤ length list.now }
    ensures low { from ≤ result }
    ensures high { result ≤ to }
{
    let mut i = to;
    while i > from && list[i - 1].score() < v {
        i -= 1;
    }
    i
}

/// From which index on, from `from` on and at most `to`, scores in a list in which they fall are below those of the
/// piece of the index `piece`.
fn tail_below_piece<A: Allocator>(
    pivots: &[(i64, usize)],
    piece: usize,
    list: &[Row<A>],
    from: usize,
    to: usize,
) -> usize
    requires order { from ≤ to }
    requires within { to ≤ length list.now }
    ensures low { from ≤ result }
    ensures high { result ≤ to }
{
    if piece == 0 || piece > pivots.len() {
        return to;
    }
    tail_below(list, from, to, pivots[piece - 1].0)
}

/// Where, from the piece of a pass on, no more rows are to come than to leave: the pass that goes down
/// from that piece, or from the last one, with blank rows from above. It is to take all insertions
/// below that piece, and as many deletions.
///
/// Only where rows leave can that be, so no other piece is looked at.
fn next_surplus<A: Allocator>(pivots: &Pivots<A>, pending: &Pending<A>, up: Pass) -> Pass
    requires piece { up.piece ≤ length pivots.now.list }
    requires deletions { up.deletions ≤ length pending.now.deletions.items }
    requires insertions { up.insertions ≤ length pending.now.insertions.items }
    ensures piece { result.piece ≤ length pivots.now.list }
    ensures deletions_low { up.deletions ≤ result.deletions }
    ensures deletions_high { result.deletions ≤ length pending.now.deletions.items }
    ensures insertions_low { up.insertions ≤ result.insertions }
    ensures insertions_high { result.insertions ≤ length pending.now.insertions.items }
{
    let deletions = pending.deletions.list();
    let insertions = pending.insertions.list();
    let mut leaving = deletions.len();
    let mut arriving = insertions.len();
    while leaving > up.deletions {
        let piece = pivots
            .count_upto(deletions[leaving - 1].score())
            .max(up.piece);
        let Some(end) = pivots.list().get(piece) else {
            break;
        };
        let below = tail_below_piece(pivots.list(), piece, insertions, up.insertions, arriving);
        leaving = tail_below(deletions, up.deletions, leaving - 1, end.0);
        arriving = tail_below(insertions, up.insertions, below, end.0);
        if deletions.len() - leaving >= insertions.len() - arriving {
            return Pass {
                direction: Direction::Down,
                piece,
                deletions: deletions.len() - (insertions.len() - below),
                insertions: below,
            };
        }
    }
    Pass {
        direction: Direction::Down,
        piece: pivots.len(),
        ..up
    }
}

/// The index of the piece of the lowest of the last rows of the two lists.
fn lowest_piece<A: Allocator>(pivots: &Pivots<A>, pending: &Pending<A>) -> usize
    ensures { result ≤ length pivots.now.list }
{
    let mut first = pivots.len();
    if let Some(row) = pending.deletions.list().last() {
        first = pivots.count_upto(row.score());
    }
    if let Some(row) = pending.insertions.list().last() {
        first = first.min(pivots.count_upto(row.score()));
    }
    first
}

/// A filter with the rows.
fn filter_of<A: Allocator>(rows: &[Row<A>]) -> DeletionBloom {
    let mut filter = DeletionBloom::new();
    for row in rows {
        filter.add(row);
    }
    filter
}

/// Merges rows that wait in the two lists from some index on, where scores fall. What it leaves
/// waits on.
fn merge_tails<A: Allocator + Copy>(
    cracked: &mut Cracked<A>,
    pending: &mut Pending<A>,
    deletions_from: usize,
    insertions_from: usize,
)
    requires deletions { deletions_from ≤ length pending.old.deletions.items }
    requires insertions { insertions_from ≤ length pending.old.insertions.items }
    requires room { vec_len cracked.old.rows + length pending.old.insertions.items
        ≤ vec_capacity cracked.old.rows + insertions_from }
    ensures content { KeepsContent cracked.old.rows.items pending.old.insertions.items pending.old.deletions.items
        cracked.new.rows.items pending.new.insertions.items pending.new.deletions.items }
    ensures deletions { TakenFrom deletions_from pending.old.deletions.items pending.new.deletions.items }
    ensures insertions { TakenFrom insertions_from pending.old.insertions.items pending.new.insertions.items }
    ensures frame { KeepsFrame cracked.old.rows cracked.old.pivots cracked.new.rows cracked.new.pivots }
{
    let leaving = &pending.deletions.list()[deletions_from..];
    cracked.rows.expect_passes(leaving.len());
    let filter = filter_of(leaving);
    let mut piece = lowest_piece(&cracked.pivots, pending);
    // Each turn ends at a higher piece than the one before.
    for _turn in 0..cracked.pivots.len() + 1 {
        let up = Pass {
            direction: Direction::Up,
            piece,
            deletions: deletions_from,
            insertions: insertions_from,
        };
        piece = run_pass(cracked, pending, up, &filter);
        if pending.insertions.len() == insertions_from {
            break;
        }
        let down = next_surplus(&cracked.pivots, pending, Pass { piece, ..up });
        pending.deletions.reverse_from(down.deletions);
        pending.insertions.reverse_from(down.insertions);
        run_pass(cracked, pending, down, &filter);
        piece = down.piece;
    }
}

/// Merges the rows that wait in the two lists from some index on by passes over the pieces, where many
/// wait there. What it leaves is for the ripple moves.
pub fn merge_many<A: Allocator + Copy>(
    cracked: &mut Cracked<A>,
    pending: &mut Pending<A>,
    tails: RangeTails,
)
    requires deletions { tails.deletions ≤ length pending.old.deletions.items }
    requires insertions { tails.insertions ≤ length pending.old.insertions.items }
    requires room { vec_len cracked.old.rows + length pending.old.insertions.items
        ≤ vec_capacity cracked.old.rows + tails.insertions }
    ensures content { KeepsContent cracked.old.rows.items pending.old.insertions.items pending.old.deletions.items
        cracked.new.rows.items pending.new.insertions.items pending.new.deletions.items }
    ensures deletions { TakenFrom tails.deletions pending.old.deletions.items pending.new.deletions.items }
    ensures insertions { TakenFrom tails.insertions pending.old.insertions.items pending.new.insertions.items }
    ensures frame { KeepsFrame cracked.old.rows cracked.old.pivots cracked.new.rows cracked.new.pivots }
{
    let deletions = pending.deletions.len() - tails.deletions;
    let insertions = pending.insertions.len() - tails.insertions;
    if !are_many(deletions.saturating_add(insertions), cracked.pivots.len()) {
        return;
    }
    pending.deletions.sort_from(tails.deletions);
    pending.insertions.sort_from(tails.insertions);
    merge_tails(cracked, pending, tails.deletions, tails.insertions);
}
