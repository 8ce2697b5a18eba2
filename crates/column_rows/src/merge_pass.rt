//! Passes over the pieces of a column with a gap: in each piece rows that wait as deletions go out
//! and widen the gap, and rows that wait as insertions come in and fill it.

ghost use Rattle.std.specs.Prelude.{◌≡◌, ◌+◌, ◌-◌, ◌≤◌, length, IfSome, vec_len, vec_capacity};
ghost use Rattle.crack_kernel.specs.PivotList.{piece_start};
ghost use Rattle.column_rows.specs.Content.{KeepsContent};
ghost use Rattle.column_rows.specs.MergeGap.{KeepsContentBeside, TakenFrom};
ghost use Rattle.column_rows.specs.MergeEffects.{KeepsFrame};
ghost use Rattle.column_rows.specs.GapEffects.{IsCarried};

use crate::cracked_rows::Cracked;
use crate::deletion_bloom::DeletionBloom;
use crate::gapped_rows::GappedRows;
use crate::merge_at_gap::{Direction, Tail, is_in_piece};
use crate::pending_lists::Pending;
use crack_kernel::{Pivots, Row};
use std::alloc::Allocator;

/// A pass: which way it goes, from the piece of which index on, and from which indices on the two
/// lists of rows that wait have the rows that it takes.
#[derive(Clone, Copy)]
pub struct Pass {
    pub direction: Direction,
    pub piece: usize,
    pub deletions: usize,
    pub insertions: usize,
}

/// From which index on, from `from` on, the last rows of a list belong to the piece of the index
/// `i`.
fn piece_tail<A: Allocator>(pivots: &Pivots<A>, i: usize, list: &[Row<A>], from: usize) -> usize
    requires index { i ≤ length pivots.now.list }
    requires from { from ≤ length list.now }
    ensures low { from ≤ result }
    ensures high { result ≤ length list.now }
{
    let mut start = list.len();
    while start > from && is_in_piece(pivots, i, list[start - 1].score()) {
        start -= 1;
    }
    start
}

/// Lets rows that wait out of the piece above the gap's own, and into its own, and leaves the gap at the start of
/// its piece.
fn change_piece<A: Allocator + Copy>(
    gapped: &mut GappedRows<A>,
    pending: &mut Pending<A>,
    pass: Pass,
    filter: &DeletionBloom,
)
    requires deletions { pass.deletions ≤ length pending.old.deletions.items }
    requires insertions { pass.insertions ≤ length pending.old.insertions.items }
    ensures start { gapped.new.low ≡ piece_start gapped.new.pivots.list gapped.new.piece }
    ensures content { KeepsContentBeside (gapped.old.high - gapped.old.low) gapped.old.rows.items
        pending.old.insertions.items pending.old.deletions.items (gapped.new.high - gapped.new.low)
        gapped.new.rows.items pending.new.insertions.items pending.new.deletions.items }
    ensures deletions { TakenFrom pass.deletions pending.old.deletions.items pending.new.deletions.items }
    ensures insertions { TakenFrom pass.insertions pending.old.insertions.items pending.new.insertions.items }
    ensures pivots { gapped.new.pivots ≡ gapped.old.pivots }
    ensures capacity { vec_capacity gapped.new.rows ≡ vec_capacity gapped.old.rows }
{
    gapped.sink();
    let (_, end) = gapped.pivots.piece_at(gapped.piece, gapped.rows.len());
    let from = piece_tail(
        &gapped.pivots,
        gapped.piece,
        pending.deletions.list(),
        pass.deletions,
    );
    let tail = Tail {
        from,
        direction: pass.direction,
    };
    gapped.take_out(end, &mut pending.deletions, tail, filter);
    gapped.fill(&mut pending.insertions, pass.insertions);
    gapped.sink();
}

/// The index of the piece to which the last row of a list goes, if one stands there from `from` on.
fn piece_of_last<A: Allocator>(pivots: &Pivots<A>, list: &[Row<A>], from: usize) -> Option<usize>
    ensures { IfSome result (λ i. i ≤ length pivots.now.list) }
{
    if list.len() <= from {
        return None;
    }
    let row = list.last()?;
    Some(pivots.count_upto(row.score()))
}

/// Whether a row that waits for the piece of the gap finds no room there: the gap is empty.
fn is_stuck<A: Allocator>(gapped: &GappedRows<A>, insertions: &[Row<A>], from: usize) -> bool {
    if gapped.low < gapped.high || insertions.len() <= from {
        return false;
    }
    match insertions.last() {
        Some(row) => is_in_piece(&gapped.pivots, gapped.piece, row.score()),
        None => false,
    }
}

/// The index of the piece to which the gap goes next: the first one on its way to which a row that waits goes, or
/// the neighbor where that is none of these. There is none where nothing is left for the pass, or a row that
/// waits has found no room.
fn next_stop<A: Allocator>(
    gapped: &GappedRows<A>,
    pending: &Pending<A>,
    pass: Pass,
) -> Option<usize>
    ensures { IfSome result (λ i. i ≤ length gapped.now.pivots.list) }
{
    let insertions = pending.insertions.list();
    if is_stuck(gapped, insertions, pass.insertions) {
        return None;
    }
    let pivots = &gapped.pivots;
    let leaving = piece_of_last(pivots, pending.deletions.list(), pass.deletions);
    let arriving = piece_of_last(pivots, insertions, pass.insertions);
    let one = leaving.or(arriving)?;
    let other = arriving.unwrap_or(one);
    match pass.direction {
        Direction::Up if gapped.piece < pivots.len() => Some(one.min(other).max(gapped.piece + 1)),
        Direction::Down if gapped.piece > 0 => Some(one.max(other).min(gapped.piece - 1)),
        _ => None,
    }
}

/// Carries the gap from the start of its piece into the next piece. Where there is no next piece,
/// all stays.
fn next_piece<A: Allocator + Copy>(gapped: &mut GappedRows<A>, direction: Direction)
    requires start { gapped.old.low ≡ piece_start gapped.old.pivots.list gapped.old.piece }
    ensures carried { IsCarried gapped.old gapped.new }
{
    match direction {
        Direction::Up if gapped.piece < gapped.pivots.len() => gapped.lift(),
        Direction::Down if gapped.piece > 0 => gapped.lower(),
        _ => (),
    }
}

/// Carries the gap from the start of its piece to that of the index `stop`, over the pieces between.
fn carry_to<A: Allocator + Copy>(gapped: &mut GappedRows<A>, direction: Direction, stop: usize)
    requires start { gapped.old.low ≡ piece_start gapped.old.pivots.list gapped.old.piece }
    requires stop { stop ≤ length gapped.old.pivots.list }
    ensures carried { IsCarried gapped.old gapped.new }
{
    if gapped.low == gapped.high {
        gapped.jump(stop);
        return;
    }
    for _piece in 0..stop.abs_diff(gapped.piece) {
        next_piece(gapped, direction);
        gapped.sink();
    }
}

/// Goes over the pieces until nothing is left for the pass or a row that is to come in finds no
/// room; answers the index of the piece at which it ends. A pass that goes down from the last piece
/// fetches blank rows for as many rows as come more than leave.
pub fn run_pass<A: Allocator + Copy>(
    cracked: &mut Cracked<A>,
    pending: &mut Pending<A>,
    pass: Pass,
    filter: &DeletionBloom,
) -> usize
    requires piece { pass.piece ≤ length cracked.old.pivots.list }
    requires deletions { pass.deletions ≤ length pending.old.deletions.items }
    requires insertions { pass.insertions ≤ length pending.old.insertions.items }
    requires room { vec_len cracked.old.rows + length pending.old.insertions.items
        ≤ vec_capacity cracked.old.rows + pass.insertions }
    ensures piece { result ≤ length cracked.new.pivots.list }
    ensures content { KeepsContent cracked.old.rows.items pending.old.insertions.items pending.old.deletions.items
        cracked.new.rows.items pending.new.insertions.items pending.new.deletions.items }
    ensures deletions { TakenFrom pass.deletions pending.old.deletions.items pending.new.deletions.items }
    ensures insertions { TakenFrom pass.insertions pending.old.insertions.items pending.new.insertions.items }
    ensures frame { KeepsFrame cracked.old.rows cracked.old.pivots cracked.new.rows cracked.new.pivots }
{
    let leaving = pending.deletions.len() - pass.deletions;
    let arriving = pending.insertions.len() - pass.insertions;
    let width = match pass.direction {
        Direction::Up => 0,
        Direction::Down => arriving.saturating_sub(leaving),
    };
    let mut gapped = GappedRows::open(cracked.take(), pass.piece, width);
    change_piece(&mut gapped, pending, pass, filter);
    for _passed in 0..gapped.pivots.len() {
        let Some(stop) = next_stop(&gapped, pending, pass) else {
            break;
        };
        carry_to(&mut gapped, pass.direction, stop);
        change_piece(&mut gapped, pending, pass, filter);
    }
    let piece = gapped.piece;
    let (rows, pivots) = gapped.lift_out();
    *cracked = Cracked { rows, pivots };
    piece
}
