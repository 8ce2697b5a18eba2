//! Rows that leave a column together, and the pivots that close up with those behind them.
//!
//! The fewer of the rows before those that leave and behind them close up. Where few leave from the midst of many, that
//! would move many rows: a gap takes their places instead and is carried to the nearer end, over one piece after another,
//! and in each of them no more rows change places than the gap is wide.

ghost use Rattle.std.specs.Prelude.{◌≡◌, ◌+◌, ◌-◌, ◌<◌, ◌≤◌, ℕ, ℤ, pos, List, length, replicate, count_by, slice_index_or, IfSome, IsFalse, IsTrue};
ghost use Rattle.crack_kernel.specs.PivotList.{piece_end};
ghost use Rattle.crack_kernel.specs.RowBag.{SameBag, Test};
ghost use Rattle.column_rows.specs.ClosedUp.{closed_up_pivots, closed_up_rows};
ghost use Rattle.column_rows.specs.RangeCutsAsPivots.{values};
ghost use Rattle.column_rows.specs.EffectsOnPieces.{shown};
ghost use Rattle.column_rows.specs.MergeEffects.{KeepsFrame};
ghost use Rattle.column_rows.specs.MergeGap.{AllParted, StandFrom, blank};

use crate::cracked_rows::Cracked;
use crate::cracked_with_shown_pivots::Pieces;
use crate::fingerprinted_rows::Rows;
use crate::gapped_rows::GappedRows;
use crack_kernel::Pivots;
use std::alloc::Allocator;

/// A row that changes places with one of the gap takes as long as so many rows that close up.
const SWAP_COST: usize = 2;

/// A piece that the gap passes takes as long as so many rows that change places in it.
const PIECE_COST: usize = 8;

/// Whether a gap of so many rows passes so many pieces in less time than so many rows close up.
fn is_carried(width: usize, pieces: usize, rows: usize) -> bool {
    pieces.saturating_mul(width.saturating_add(PIECE_COST)) < rows / SWAP_COST
}

/// The piece that ends at the place `from`, where a gap in the places of the rows from there on and before `to` had
/// better be carried to an end. None where the rows beside it had better close up.
fn piece_to_leave<A: Allocator>(cracked: &Cracked<A>, from: usize, to: usize) -> Option<usize>
    requires order { from ≤ to }
    requires within { to ≤ length cracked.now.rows.items }
    ensures piece { IfSome result (λ piece. piece ≤ length cracked.now.pivots.list) }
    ensures end { IfSome result
        (λ piece. piece_end cracked.now.pivots.list piece (length cracked.now.rows.items) ≡ from) }
{
    if from == 0 {
        return None;
    }
    let rows = &cracked.rows;
    let piece = cracked.pivots.count_upto(rows.list()[from - 1].score());
    let pieces = piece.min(cracked.pivots.len() - piece);
    let closing = from.min(rows.len() - to);
    let (_, end) = cracked.pivots.piece_at(piece, rows.len());
    if end != from || !is_carried(to - from, pieces, closing) {
        return None;
    }
    Some(piece)
}

impl<A: Allocator + Copy> GappedRows<A> {
    /// Lets the pivot at the end of the gap, that of a piece without rows, pass to its start: the gap stands above that
    /// piece then. False: no pivot stands at the end of the gap.
    fn pass_pivot(&mut self) -> bool
        requires piece { self.old.piece < length self.old.pivots.list }
        ensures passed { IsTrue result → self.new.piece ≡ self.old.piece + 1 }
        ensures none { IsFalse result → StandFrom self.new.pivots.list self.new.piece (self.new.high + 1) }
        ensures low { self.new.low ≡ self.old.low }
        ensures high { self.new.high ≡ self.old.high }
        ensures rows { self.new.rows ≡ self.old.rows }
        ensures values { values self.new.pivots.list ≡ values self.old.pivots.list }
        ensures spare { self.new.pivots.spare ≡ self.old.pivots.spare }
    {
        if self.pivots.list()[self.piece].1 > self.high {
            return false;
        }
        self.pivots.set_place(self.piece, self.low);
        self.piece += 1;
        true
    }

    /// Lets the gap pass the pivots at its end, those of pieces without rows: they stand at its start then.
    fn pass_ended(&mut self)
        ensures passed { StandFrom self.new.pivots.list self.new.piece (self.new.high + 1) }
        ensures low { self.new.low ≡ self.old.low }
        ensures high { self.new.high ≡ self.old.high }
        ensures rows { self.new.rows ≡ self.old.rows }
        ensures values { values self.new.pivots.list ≡ values self.old.pivots.list }
        ensures spare { self.new.pivots.spare ≡ self.old.pivots.spare }
    {
        for _piece in self.piece..self.pivots.len() {
            if !self.pass_pivot() {
                break;
            }
        }
    }

    /// Drops the rows from the end of the gap on and before the place `to`. The gap takes their places.
    fn widen(&mut self, to: usize)
        requires order { self.old.high ≤ to }
        requires within { to ≤ length self.old.rows.items }
        ensures low { self.new.low ≡ self.old.low }
        ensures high { self.new.high ≡ to }
        ensures others { (k : ℕ) (d : ℤ × List ℕ) → (self.old.high ≤ k → to ≤ k)
            → slice_index_or self.new.rows.items k d ≡ slice_index_or self.old.rows.items k d }
        ensures len { length self.new.rows.items ≡ length self.old.rows.items }
        ensures frame { KeepsFrame self.old.rows self.old.pivots self.new.rows self.new.pivots }
    {
        for _at in self.high..to {
            self.pass_ended();
            self.blank_out(self.high);
        }
    }

    /// Carries the gap over the pieces below it, and cuts it off.
    fn sink_out(self) -> (Rows<A>, Pivots<A>)
        ensures parted { AllParted result.1.list result.0.items }
        ensures content { (p : Test) → count_by p self.rows.items
            ≡ count_by p result.0.items + count_by p (replicate (self.high - self.low) blank) }
        ensures values { values result.1.list ≡ values self.pivots.list }
    {
        let mut sunk = self;
        sunk.sink();
        for _piece in 0..sunk.piece {
            sunk.lower();
            sunk.sink();
        }
        let GappedRows {
            mut rows,
            mut pivots,
            piece: _,
            low: _,
            high,
        } = sunk;
        rows.remove_between(0, high);
        pivots.close_up(0, high);
        (rows, pivots)
    }

    /// Drops the rows from the place of the empty gap on and before the place `to`, and carries the gap that they leave
    /// to the end behind the fewer pieces.
    fn carry_out(self, to: usize) -> (Rows<A>, Pivots<A>)
        requires empty { self.high ≡ self.low }
        requires order { self.high ≤ to }
        requires within { to ≤ length self.rows.items }
        ensures parted { AllParted result.1.list result.0.items }
        ensures rows { SameBag result.0.items (closed_up_rows self.low to self.rows.items) }
        ensures values { values result.1.list ≡ values self.pivots.list }
    {
        let mut wide = self;
        wide.widen(to);
        if wide.piece < wide.pivots.len() / 2 {
            wide.sink_out()
        } else {
            wide.lift_out()
        }
    }
}

/// Drops the rows from the place `from` on and before the place `to`.
fn close_up<A: Allocator + Copy>(cracked: &mut Cracked<A>, from: usize, to: usize)
    requires order { from ≤ to }
    requires within { to ≤ length cracked.old.rows.items }
    ensures rows { SameBag cracked.new.rows.items (closed_up_rows from to cracked.old.rows.items) }
    ensures pivots { cracked.new.pivots.list ≡ closed_up_pivots from to cracked.old.pivots.list }
{
    match piece_to_leave(cracked, from, to) {
        Some(piece) => {
            let gapped = GappedRows::open(cracked.take(), piece, 0);
            let (rows, pivots) = gapped.carry_out(to);
            *cracked = Cracked { rows, pivots };
        }
        None => {
            cracked.rows.remove_between(from, to);
            cracked.pivots.close_up_in_order(from, to);
        }
    }
}

/// Drops the rows from the place `from` on and before the place `to`. It takes no memory.
pub fn remove_between<A: Allocator + Copy>(pieces: &mut Pieces<A>, from: usize, to: usize)
    requires order { from ≤ to }
    requires within { to ≤ length pieces.old.cracked.rows.items }
    ensures rows { SameBag pieces.new.cracked.rows.items (closed_up_rows from to pieces.old.cracked.rows.items) }
    ensures shown { shown pieces.new ≡ closed_up_pivots from to (shown pieces.old) }
{
    close_up(&mut pieces.cracked, from, to);
    if pieces.apart {
        pieces.kept.close_up_in_order(from, to);
    }
}
