//! How a gap of blank rows is carried over the pieces of a column.
//!
//! As all rows of a gap are alike, and the order of rows in a piece is free, the gap and a piece change places by as few
//! swaps as the shorter of the two has rows.

ghost use Rattle.std.specs.Prelude.{◌≡◌, ◌+◌, ◌-◌, ◌<◌, ◌≤◌, length, replicate, count_by, IsPermutation, vec_capacity};
ghost use Rattle.crack_kernel.specs.RowBag.{Test};
ghost use Rattle.crack_kernel.specs.PivotList.{piece_start};
ghost use Rattle.column_rows.specs.MergeGap.{AllParted, ChangedPlaces, blank};
ghost use Rattle.column_rows.specs.MergeEffects.{KeepsFrame};
ghost use Rattle.column_rows.specs.GapEffects.{IsCarried};

use crate::fingerprinted_rows::Rows;
use crate::gapped_rows::GappedRows;
use crack_kernel::Pivots;
use std::alloc::Allocator;

/// Lets the rows from `low` on and before `mid` change places with those from `mid` on and before
/// `high`, in whatever order.
fn change_places<A: Allocator>(rows: &mut Rows<A>, low: usize, mid: usize, high: usize)
    requires order { low ≤ mid }
    requires above { mid ≤ high }
    requires within { high ≤ length rows.old.items }
    ensures permutation { IsPermutation rows.old.items rows.new.items }
    ensures changed { ChangedPlaces rows.old.items rows.new.items low mid high }
    ensures len { length rows.new.items ≡ length rows.old.items }
    ensures capacity { vec_capacity rows.new ≡ vec_capacity rows.old }
{
    let below = mid - low;
    let above = high - mid;
    let count = if below < above { below } else { above };
    let from = high - count;
    for i in 0..count {
        rows.swap(low + i, from + i);
    }
}

impl<A: Allocator + Copy> GappedRows<A> {
    /// Has an empty gap stand at the end of another piece: there are no rows to carry.
    pub fn jump(&mut self, piece: usize)
        requires piece { piece ≤ length self.old.pivots.list }
        requires empty { self.old.high ≡ self.old.low }
        ensures carried { IsCarried self.old self.new }
    {
        let (_, end) = self.pivots.piece_at(piece, self.rows.len());
        self.piece = piece;
        self.low = end;
        self.high = end;
    }

    /// Carries the gap down to the start of its piece.
    pub fn sink(&mut self)
        ensures start { self.new.low ≡ piece_start self.new.pivots.list self.new.piece }
        ensures piece { self.new.piece ≡ self.old.piece }
        ensures pivots { self.new.pivots ≡ self.old.pivots }
        ensures carried { IsCarried self.old self.new }
    {
        let (start, _) = self.pivots.piece_at(self.piece, self.rows.len());
        let width = self.high - self.low;
        change_places(&mut self.rows, start, self.low, self.high);
        self.low = start;
        self.high = start + width;
    }

    /// Carries the gap over the piece above it.
    pub fn lift(&mut self)
        requires { self.old.piece < length self.old.pivots.list }
        ensures piece { self.new.piece ≡ self.old.piece + 1 }
        ensures carried { IsCarried self.old self.new }
    {
        let end = self.pivots.list()[self.piece].1;
        let width = self.high - self.low;
        change_places(&mut self.rows, self.low, self.high, end);
        let place = self.low + (end - self.high);
        self.pivots.set_place(self.piece, place);
        self.piece += 1;
        self.low = place;
        self.high = place + width;
    }

    /// Lets the pivot at the start of the gap, that of the piece below, pass it: the gap stands above that piece then.
    pub fn lower(&mut self)
        requires some { 0 < self.old.piece }
        requires start { self.old.low ≡ piece_start self.old.pivots.list self.old.piece }
        ensures piece { self.new.piece + 1 ≡ self.old.piece }
        ensures carried { IsCarried self.old self.new }
    {
        self.pivots.set_place(self.piece - 1, self.high);
        self.piece -= 1;
    }

    /// Carries the gap over the rows behind it, of the last piece, and cuts it off.
    fn close(self) -> (Rows<A>, Pivots<A>)
        requires last { length self.pivots.list ≤ self.piece }
        ensures parted { AllParted result.1.list result.0.items }
        ensures content { (p : Test) → count_by p self.rows.items
            ≡ count_by p result.0.items + count_by p (replicate (self.high - self.low) blank) }
        ensures frame { KeepsFrame self.rows self.pivots result.0 result.1 }
    {
        let GappedRows {
            mut rows,
            pivots,
            piece: _,
            low,
            high,
        } = self;
        let end = rows.len();
        change_places(&mut rows, low, high, end);
        rows.truncate(low + (end - high));
        (rows, pivots)
    }

    /// Carries the gap over the pieces above it, and cuts it off.
    pub fn lift_out(self) -> (Rows<A>, Pivots<A>)
        ensures parted { AllParted result.1.list result.0.items }
        ensures content { (p : Test) → count_by p self.rows.items
            ≡ count_by p result.0.items + count_by p (replicate (self.high - self.low) blank) }
        ensures frame { KeepsFrame self.rows self.pivots result.0 result.1 }
    {
        if self.low == self.high {
            return (self.rows, self.pivots);
        }
        let mut lifted = self;
        for _piece in lifted.piece..lifted.pivots.len() {
            lifted.lift();
        }
        lifted.close()
    }
}
