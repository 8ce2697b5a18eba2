//! Rows that wait in no order, and can be gathered by a range.

ghost use Rattle.std.specs.Prelude.{◌≡◌, ◌+◌, ◌-◌, ◌<◌, ◌≤◌, ◌≢◌, ◌++◌, ◌∷◌, ◌↔◌, true, false, ℕ, ℤ, List, [], Some, IsSome, length, take, OnOk, slice_index_or, option_to_list, IsPermutation, vec_len, vec_capacity};
ghost use Rattle.std.specs.List.{AllWithin, list_any, remove, swap_remove};
ghost use Rattle.column_rows.specs.Content.{has_score_in};
ghost use Rattle.column_rows.specs.MergeEffects.{ArePassed, HasLast};

use crate::front_room_rows::reserve_rows;
use crate::pending_lists::{is_within, row_cmp};
use crack_kernel::Row;
use score_bounds::{Bound, Range};
use std::alloc::{AllocError, Allocator};
use std::marker::Model;

/// Rows in no order. Of the first ones it is known that they have no score in the range by which they
/// were gathered last: where it is asked for again, only the rows that came since are read.
///
/// Contracts see the rows alone, as a `Vec`.
#[derive(Drop)]
pub struct PendingRows<A: Allocator> {
    rows: Vec<Row<A>, A>,
    /// The range by which they were gathered last.
    last: Range,
    /// How many of the first rows are known to have no score in it.
    passed: usize,
}

impl<A: Allocator> Model for PendingRows<A> {
    ghost use Rattle.std.specs.Prelude.{ℤ, ℕ, List};
    ghost use Rattle.std.specs.declared.vec.Vec.{Vec as VecValue};
    ghost use Rattle.column_rows.specs.MergeEffects.{ArePassed};

    ghost Value = { VecValue (ℤ × List ℕ) A };

    ghost view = { λ w. w.rows };

    ghost invariant = { λ w. ArePassed w.last w.rows.items w.passed };
}

impl<A: Allocator + Copy> PendingRows<A> {
    /// No rows. It takes no memory.
    pub fn new(alloc: A) -> Self
        ensures { result.items ≡ [] }
    {
        PendingRows {
            rows: Vec::new(alloc),
            last: Range {
                min: Bound::NegInf,
                max: Bound::PosInf,
            },
            passed: 0,
        }
    }
}

impl<A: Allocator> PendingRows<A> {
    /// How many rows there are.
    pub fn len(&self) -> usize
        ensures { result ≡ length self.now.items }
    {
        self.rows.len()
    }

    /// The rows.
    pub fn list(&self) -> &[Row<A>]
        ensures { result.now ≡ self.now.items }
    {
        &self.rows
    }

    /// For how many rows there is room.
    pub fn capacity(&self) -> usize
        ensures { result ≡ vec_capacity self.now }
    {
        self.rows.capacity()
    }

    /// Makes room for `n` more rows.
    pub fn reserve(&mut self, n: usize) -> Result<(), AllocError>
        ensures items { self.new.items ≡ self.old.items }
        ensures len { vec_len self.new ≡ vec_len self.old }
        ensures room { OnOk result (vec_len self.new + n ≤ vec_capacity self.new) }
    {
        reserve_rows(&mut self.rows, n)
    }

    /// Gives back the room that no row takes.
    pub fn give_back(&mut self)
        ensures items { self.new.items ≡ self.old.items }
        ensures len { vec_len self.new ≡ vec_len self.old }
        ensures freed { vec_len self.old ≡ 0 → vec_capacity self.new ≡ 0 }
    {
        self.rows.shrink_to_fit();
    }

    /// Puts a row behind the last one. It takes no memory.
    pub fn push_reserved(&mut self, row: Row<A>)
        requires { vec_len self.old < vec_capacity self.old }
        ensures items { self.new.items ≡ self.old.items ++ row ∷ [] }
        ensures len { vec_len self.new ≡ vec_len self.old + 1 }
        ensures capacity { vec_capacity self.new ≡ vec_capacity self.old }
    {
        self.rows.push_reserved(row);
    }

    /// Takes out the row at an index, and puts the last one there.
    pub fn swap_remove(&mut self, index: usize) -> Row<A>
        requires { index < vec_len self.old }
        ensures value { result ≡ slice_index_or self.old.items index result }
        ensures items { self.new.items ≡ swap_remove self.old.items index result }
        ensures len { vec_len self.new + 1 ≡ vec_len self.old }
        ensures capacity { vec_capacity self.new ≡ vec_capacity self.old }
        ensures others { (k : ℕ) (d : ℤ × List ℕ) → k ≢ index → k + 1 < vec_len self.old
            → slice_index_or self.new.items k d ≡ slice_index_or self.old.items k d }
    {
        self.passed = self.passed.min(index);
        self.rows.swap_remove(index)
    }

    /// Takes out the row at an index. The rows behind it move up.
    pub fn remove(&mut self, index: usize) -> Row<A>
        requires { index < vec_len self.old }
        ensures value { result ≡ slice_index_or self.old.items index result }
        ensures items { self.new.items ≡ remove self.old.items index }
        ensures len { vec_len self.new + 1 ≡ vec_len self.old }
        ensures capacity { vec_capacity self.new ≡ vec_capacity self.old }
        ensures before { take index self.new.items ≡ take index self.old.items }
    {
        self.passed = self.passed.min(index);
        self.rows.remove(index)
    }

    /// Takes out the last row.
    pub fn pop(&mut self) -> Option<Row<A>>
        ensures items { self.old.items ≡ self.new.items ++ option_to_list result }
        ensures variant { IsSome result ↔ (0 < vec_len self.old) }
        ensures len { vec_len self.new + length (option_to_list result) ≡ vec_len self.old }
        ensures capacity { vec_capacity self.new ≡ vec_capacity self.old }
        ensures value { (d : ℤ × List ℕ) → 0 < vec_len self.old → result
            ≡ Some (slice_index_or self.old.items (vec_len self.old - 1) d) }
    {
        let row = self.rows.pop();
        self.passed = self.passed.min(self.rows.len());
        row
    }

    /// How many of the first rows are known to have no score in the range.
    fn passed_for(&self, range: &Range) -> usize
        ensures { ArePassed range.now self.now.items result }
    {
        if self.last == *range { self.passed } else { 0 }
    }

    /// Whether a row has a score in the range. Those that are known to have none are not looked at.
    pub fn has_within(&self, range: &Range) -> bool
        ensures { result ≡ list_any (has_score_in range.now) self.now.items }
    {
        has_from(&self.rows, range, self.passed_for(range))
    }

    /// Puts the rows with scores in the range last, and answers how many others there are.
    pub fn gather(&mut self, range: &Range) -> usize
        ensures rows { IsPermutation self.old.items self.new.items }
        ensures last { HasLast range.now self.new.items result }
        ensures capacity { vec_capacity self.new ≡ vec_capacity self.old }
    {
        let passed = self.passed_for(range);
        let others = partition_from(&mut self.rows, range, passed);
        self.last = *range;
        self.passed = others;
        others
    }

    /// Sorts the rows from the index `from` on by falling scores, and those of one score by falling
    /// members.
    pub fn sort_from(&mut self, from: usize)
        requires { from ≤ length self.old.items }
        ensures rows { IsPermutation self.old.items self.new.items }
        ensures before { take from self.new.items ≡ take from self.old.items }
        ensures capacity { vec_capacity self.new ≡ vec_capacity self.old }
    {
        self.passed = self.passed.min(from);
        sort_tail(&mut self.rows, from);
    }

    /// Turns the order of the rows from the index `from` on round.
    pub fn reverse_from(&mut self, from: usize)
        requires { from ≤ length self.old.items }
        ensures rows { IsPermutation self.old.items self.new.items }
        ensures before { take from self.new.items ≡ take from self.old.items }
        ensures capacity { vec_capacity self.new ≡ vec_capacity self.old }
    {
        self.passed = self.passed.min(from);
        reverse_tail(&mut self.rows, from);
    }
}

/// Whether a row has a score in the range, where those before the index `from` have none.
fn has_from<A: Allocator>(list: &[Row<A>], range: &Range, from: usize) -> bool
    requires { ArePassed range.now list.now from }
    ensures { result ≡ list_any (has_score_in range.now) list.now }
{
    is_any_within(&list[from..], range)
}

/// Whether one of these rows has a score in the range.
fn is_any_within<A: Allocator>(rows: &[Row<A>], range: &Range) -> bool
    ensures { result ≡ list_any (has_score_in range.now) rows.now }
{
    let interval = range.interval();
    rows.iter().any(|row| is_within(row, &interval))
}

/// Puts the rows with scores in the range last, and answers how many others there are. Those before the
/// index `from` have none.
fn partition_from<A: Allocator>(list: &mut Vec<Row<A>, A>, range: &Range, from: usize) -> usize
    requires { ArePassed range.now list.old.items from }
    ensures rows { IsPermutation list.old.items list.new.items }
    ensures last { HasLast range.now list.new.items result }
    ensures capacity { vec_capacity list.new ≡ vec_capacity list.old }
{
    let interval = range.interval();
    let mut others = from;
    let mut end = list.len();
    while others < end {
        if is_within(&list[others], &interval) {
            end -= 1;
            list.swap(others, end);
        } else {
            others += 1;
        }
    }
    others
}

/// Sorts rows by falling scores, and those of one score by falling members.
fn sort_falling<A: Allocator>(rows: &mut [Row<A>])
    ensures { IsPermutation rows.old rows.new }
{
    rows.sort_unstable_by(|x, y| row_cmp(y, x));
}

/// Sorts the rows from the index `from` on by falling scores.
fn sort_from<A: Allocator>(rows: &mut [Row<A>], from: usize)
    requires { from ≤ length rows.old }
    ensures rows { IsPermutation rows.old rows.new }
    ensures before { take from rows.new ≡ take from rows.old }
{
    sort_falling(&mut rows[from..]);
}

/// Sorts the rows of a list from the index `from` on by falling scores.
fn sort_tail<A: Allocator>(list: &mut Vec<Row<A>, A>, from: usize)
    requires { from ≤ length list.old.items }
    ensures rows { IsPermutation list.old.items list.new.items }
    ensures before { take from list.new.items ≡ take from list.old.items }
    ensures capacity { vec_capacity list.new ≡ vec_capacity list.old }
{
    sort_from(list, from);
}

/// Turns the order of the rows from the index `from` on round.
fn reverse_from<A: Allocator>(rows: &mut [Row<A>], from: usize)
    requires { from ≤ length rows.old }
    ensures rows { IsPermutation rows.old rows.new }
    ensures before { take from rows.new ≡ take from rows.old }
{
    rows[from..].reverse();
}

/// Turns the order of the rows of a list from the index `from` on round.
fn reverse_tail<A: Allocator>(list: &mut Vec<Row<A>, A>, from: usize)
    requires { from ≤ length list.old.items }
    ensures rows { IsPermutation list.old.items list.new.items }
    ensures before { take from list.new.items ≡ take from list.old.items }
    ensures capacity { vec_capacity list.new ≡ vec_capacity list.old }
{
    reverse_from(list, from);
}
