//! What a merge of many rows does at a gap of blank rows: rows that leave the piece above it widen it, and rows that
//! come into the piece below fill it.

ghost use Rattle.std.specs.Prelude.{◌≡◌, ◌≢◌, ◌+◌, ◌-◌, ◌<◌, ◌≤◌, ◌<ℤ◌, ◌≤ℤ◌, ℕ, ℤ, pos, List, set, length, replicate, count_by, slice_index_or, IfSome, IsPermutation, IsTrue};
ghost use Rattle.std.specs.List.{HoldsAt};
ghost use Rattle.crack_kernel.specs.RowBag.{Test};
ghost use Rattle.crack_kernel.specs.PivotList.{RisesPast};
ghost use Rattle.column_rows.specs.MergeGap.{StandFrom, TakenFrom, blank};
ghost use Rattle.column_rows.specs.GapEffects.{IsFilled, IsWidened};

use crate::deletion_bloom::DeletionBloom;
use crate::front_room_rows::blank_row;
use crate::gapped_rows::GappedRows;
use crate::indexed_deletions::take_out_many;
use crate::pending_lists::{PendingList, row_cmp};
use crack_kernel::{Pivots, Row};
use std::alloc::Allocator;

/// So many rows that leave one piece are found by an index: the rows that wait move up behind each that
/// leaves else, which costs less where they are fewer.
const INDEXED: usize = 64;

/// Which way a gap goes over the pieces. Rows that wait are taken from the ends of their lists:
/// where the gap goes up, rows fall there by score and member, and where it goes down, they rise.
#[derive(Clone, Copy)]
pub enum Direction {
    Up,
    Down,
}

/// The rows of a list from an index on, which fall by score and member, or where the gap goes down,
/// rise.
#[derive(Clone, Copy)]
pub struct Tail {
    pub from: usize,
    pub direction: Direction,
}

/// Whether the score `v` is not below the pivot at the start of the piece of the index `i`, if it
/// has one.
fn is_from_start(pivots: &[(i64, usize)], i: usize, v: i64) -> bool
    requires { i ≤ length pivots.now }
    ensures { IsTrue result → 0 < i → (slice_index_or pivots.now (i - 1) (pos 0, 0)).0 ≤ℤ v }
{
    if i == 0 { true } else { pivots[i - 1].0 <= v }
}

/// Whether the score `v` is below the pivot at the end of the piece of the index `i`, if it has
/// one.
fn is_below_end(pivots: &[(i64, usize)], i: usize, v: i64) -> bool
    ensures { IsTrue result → i < length pivots.now → v <ℤ (slice_index_or pivots.now i (pos 0, 0)).0 }
{
    if i < pivots.len() {
        v < pivots[i].0
    } else {
        true
    }
}

/// Whether rows of the score `v` stand in the piece of the index `i`.
pub fn is_in_piece<A: Allocator>(pivots: &Pivots<A>, i: usize, v: i64) -> bool
    requires { i ≤ length pivots.now.list }
    ensures { IsTrue result → RisesPast v pivots.now.list i }
{
    let list = pivots.list();
    let from_start = is_from_start(list, i, v);
    let below_end = is_below_end(list, i, v);
    from_start && below_end
}

/// Where a row like `row` stands in the tail of the list. How it looks is left open.
fn find_waiting<A: Allocator>(list: &PendingList<A>, tail: Tail, row: &Row<A>) -> Option<usize>
    requires { tail.from ≤ length list.now.items }
    ensures low { IfSome result (λ i. tail.from ≤ i) }
    ensures within { IfSome result (λ i. i < length list.now.items) }
    ensures here { IfSome result (λ i. HoldsAt (λ r. r ≡ row.now) list.now.items i) }
{
    let rows = list.list();
    let last = &rows[tail.from..];
    let before = match tail.direction {
        Direction::Up => last.partition_point(|waiting| row_cmp(waiting, row).is_gt()),
        Direction::Down => last.partition_point(|waiting| row_cmp(waiting, row).is_lt()),
    };
    let at = tail.from + before;
    if at < rows.len() && rows[at].is_same(row) {
        Some(at)
    } else {
        None
    }
}

impl<A: Allocator + Copy> GappedRows<A> {
    /// Has the row at the place `at`, in the piece above the gap, leave: a blank row takes its place and joins the gap.
    pub fn blank_out(&mut self, at: usize)
        requires above { self.old.high ≤ at }
        requires within { at < length self.old.rows.items }
        requires ends { StandFrom self.old.pivots.list self.old.piece (at + 1) }
        ensures widened { IsWidened self.old self.new }
        ensures high { self.new.high ≡ self.old.high + 1 }
        ensures rows { IsPermutation (set self.old.rows.items at blank) self.new.rows.items }
        ensures others { (k : ℕ) (d : ℤ × List ℕ) → k ≢ self.old.high → k ≢ at
            → slice_index_or self.new.rows.items k d ≡ slice_index_or self.old.rows.items k d }
    {
        self.rows.set(at, blank_row());
        self.rows.swap(self.high, at);
        self.high += 1;
    }

    /// Takes the row at the place `at`, in the piece above the gap, out of the column, if it waits in the tail of the
    /// deletions.
    fn take_out_at(&mut self, at: usize, deletions: &mut PendingList<A>, tail: Tail)
        requires above { self.old.high ≤ at }
        requires within { at < length self.old.rows.items }
        requires ends { StandFrom self.old.pivots.list self.old.piece (at + 1) }
        requires from { tail.from ≤ length deletions.old.items }
        ensures widened { IsWidened self.old self.new }
        ensures high { self.new.high ≤ at + 1 }
        ensures content { (p : Test) → count_by p self.new.rows.items + count_by p deletions.old.items
            ≡ count_by p self.old.rows.items + count_by p deletions.new.items
            + count_by p (replicate (self.new.high - self.old.high) blank) }
        ensures taken { TakenFrom tail.from deletions.old.items deletions.new.items }
    {
        if let Some(found) = find_waiting(deletions, tail, &self.rows.list()[at]) {
            let _gone = deletions.remove(found);
            self.blank_out(at);
        }
    }

    /// Takes rows that wait in the tail of the deletions out of the piece above the gap, which ends at
    /// `end`. Blank rows take their places and join the gap.
    ///
    /// The filter has these deletions, so that few other rows are looked up.
    pub fn take_out(
        &mut self,
        end: usize,
        deletions: &mut PendingList<A>,
        tail: Tail,
        filter: &DeletionBloom,
    )
        requires above { self.old.high ≤ end }
        requires within { end ≤ length self.old.rows.items }
        requires ends { StandFrom self.old.pivots.list self.old.piece end }
        requires from { tail.from ≤ length deletions.old.items }
        ensures widened { IsWidened self.old self.new }
        ensures high { self.new.high ≤ end }
        ensures content { (p : Test) → count_by p self.new.rows.items + count_by p deletions.old.items
            ≡ count_by p self.old.rows.items + count_by p deletions.new.items
            + count_by p (replicate (self.new.high - self.old.high) blank) }
        ensures taken { TakenFrom tail.from deletions.old.items deletions.new.items }
    {
        let count = deletions.len() - tail.from;
        if count == 0 {
            return;
        }
        if count >= INDEXED {
            take_out_many(self, end, deletions, tail.from, filter);
            return;
        }
        let mut at = self.rows.next_within(self.high, end, filter);
        while at < end && deletions.len() > tail.from {
            self.take_out_at(at, deletions, tail);
            at = self.rows.next_within(at + 1, end, filter);
        }
    }

    /// Has the first row of the gap, a blank one, make place for a row of the piece below.
    fn put(&mut self, row: Row<A>)
        requires some { self.old.low < self.old.high }
        requires piece { RisesPast row.0 self.old.pivots.list self.old.piece }
        ensures filled { IsFilled self.old self.new }
        ensures low { self.new.low ≡ self.old.low + 1 }
        ensures rows { self.new.rows.items ≡ set self.old.rows.items self.old.low row }
    {
        self.rows.set(self.low, row);
        self.low += 1;
    }

    /// Puts rows that wait as insertions into the gap, from the last one on and down to the index
    /// `from`, while they belong to the piece below it.
    pub fn fill(&mut self, insertions: &mut PendingList<A>, from: usize)
        requires from { from ≤ length insertions.old.items }
        ensures filled { IsFilled self.old self.new }
        ensures content { (p : Test) → count_by p self.new.rows.items + count_by p insertions.new.items
            + count_by p (replicate (self.new.low - self.old.low) blank)
            ≡ count_by p self.old.rows.items + count_by p insertions.old.items }
        ensures taken { TakenFrom from insertions.old.items insertions.new.items }
    {
        while self.low < self.high && insertions.len() > from {
            let next = &insertions.list()[insertions.len() - 1];
            if !is_in_piece(&self.pivots, self.piece, next.score()) {
                break;
            }
            match insertions.pop() {
                Some(row) => self.put(row),
                None => unreachable!(),
            }
        }
    }
}
