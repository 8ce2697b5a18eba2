//! Rows that keep room at the front of their vector.

ghost use Rattle.std.specs.Prelude.{◌≡◌, ◌+◌, ◌-◌, ◌^◌, ◌<◌, ◌≤◌, ◌++◌, ◌∷◌, ℕ, ℤ, List, [], take, drop, length, slice_set, Some, IsSome, ◌↔◌, IsPermutation, OnOk, vec_len, vec_capacity, option_to_list, slice_index_or};
ghost use Rattle.std.specs.List.{AllWithin, SwappedAt, swap};
ghost use Rattle.crack_kernel.specs.PartedRows.{ChangesWithin, IsBelow, IsFrom};
ghost use Rattle.column_rows.specs.ClosedUp.{closed_up_rows};
ghost use Rattle.column_rows.specs.MergeGap.{blank};

use crack_kernel::{Row, crack_piece};
use short_bytes::ShortBytes;
use std::alloc::{AllocError, Allocator};
use std::marker::Model;
use std::mem;

/// A list of at least as many rows doubles where it grows; a shorter one grows by less, since its room is
/// most of what a small set takes.
const DOUBLED_FROM: usize = 128;

/// The part of its rows by which a shorter list grows.
const GROWTH: usize = 4;

/// How many rows may move up to the vector's start for each place that they win.
const MOVED_PER_PLACE: usize = 4;

/// Rows behind places at the front of their vector that other rows have left.
///
/// Rows that leave at the front move none of those behind them, and those move up to the vector's start
/// once room is asked for and the places that were left are many. Contracts see the rows alone, as a
/// `Vec` that begins behind these places.
#[derive(Drop)]
pub struct FrontRoomRows<A: Allocator> {
    rows: Vec<Row<A>, A>,
    /// How many places at the vector's front rows have left. Blank rows stand there.
    left: usize,
}

impl<A: Allocator> Model for FrontRoomRows<A> {
    ghost use Rattle.std.specs.Prelude.{◌≤◌, ℤ, ℕ, List, length};
    ghost use Rattle.std.specs.declared.vec.Vec.{Vec as VecValue};
    ghost use Rattle.column_rows.specs.FrontRoom.{without_first};

    ghost Value = { VecValue (ℤ × List ℕ) A };

    ghost view = { λ r. without_first r.left r.rows };

    ghost invariant = { λ r. r.left ≤ length r.rows.items };
}

impl<A: Allocator> FrontRoomRows<A> {
    /// How many rows there are.
    pub fn len(&self) -> usize
        ensures { result ≡ length self.now.items }
    {
        self.rows.len() - self.left
    }

    /// The rows.
    pub fn list(&self) -> &[Row<A>]
        ensures { result.now ≡ self.now.items }
    {
        &self.rows[self.left..]
    }

    /// How many places of the vector stand before the first row.
    pub fn left(&self) -> usize
        ensures { result + vec_capacity self.now < 2 ^ 63 }
    {
        self.left
    }

    /// How many places the vector has, those before the first row among them.
    pub fn places(&self) -> usize {
        self.rows.capacity()
    }

    /// For how many more rows there is room behind the last one.
    pub fn spare(&self) -> usize
        ensures { vec_len self.now + result ≡ vec_capacity self.now }
    {
        self.rows.capacity() - self.rows.len()
    }

    /// Makes room for `additional` more rows: where many places were left, the rows move up to the vector's
    /// start, and no memory is taken. On Err, the rows are unchanged.
    pub fn reserve(&mut self, additional: usize) -> Result<(), AllocError>
        ensures items { self.new.items ≡ self.old.items }
        ensures len { vec_len self.new ≡ vec_len self.old }
        ensures ok { OnOk result (vec_len self.new + additional ≤ vec_capacity self.new) }
    {
        let least = additional.max(self.len() / MOVED_PER_PLACE);
        if self.spare() < additional && self.left >= least {
            let left = mem::replace(&mut self.left, 0);
            self.rows.drain(..left);
            return Ok(());
        }
        reserve_rows(&mut self.rows, additional)
    }

    /// Puts a row behind the last one. It takes no memory.
    pub fn push_reserved(&mut self, row: Row<A>)
        requires { vec_len self.old < vec_capacity self.old }
        ensures items { self.new.items ≡ self.old.items ++ row ∷ [] }
        ensures len { vec_len self.new ≡ vec_len self.old + 1 }
        ensures capacity { vec_capacity self.new ≡ vec_capacity self.old }
    {
        self.rows.push_reserved(row);
    }

    /// Takes the last row out.
    pub fn pop(&mut self) -> Option<Row<A>>
        ensures items { self.old.items ≡ self.new.items ++ option_to_list result }
        ensures variant { IsSome result ↔ (0 < vec_len self.old) }
        ensures value { (d : ℤ × List ℕ) → 0 < vec_len self.old → result ≡ Some (slice_index_or self.old.items (vec_len self.old - 1) d) }
        ensures rest { self.new.items ≡ take (vec_len self.old - 1) self.old.items }
        ensures capacity { vec_capacity self.new ≡ vec_capacity self.old }
    {
        if self.rows.len() == self.left {
            return None;
        }
        self.rows.pop()
    }

    /// Drops the rows from the place `len` on.
    pub fn truncate(&mut self, len: usize)
        ensures items { self.new.items ≡ take len self.old.items }
        ensures capacity { vec_capacity self.new ≡ vec_capacity self.old }
    {
        if len < self.len() {
            self.rows.truncate(self.left + len);
        }
    }

    /// Puts a row at a place, and drops the one that stood there.
    pub fn set(&mut self, at: usize, row: Row<A>)
        requires { at < vec_len self.old }
        ensures items { self.new.items ≡ slice_set self.old.items at row }
        ensures capacity { vec_capacity self.new ≡ vec_capacity self.old }
    {
        self.rows[self.left + at] = row;
    }

    /// Lets two rows change places.
    pub fn swap(&mut self, i: usize, j: usize)
        requires i_in_bounds { i < vec_len self.old }
        requires j_in_bounds { j < vec_len self.old }
        ensures items { self.new.items ≡ swap self.old.items i j }
        ensures capacity { vec_capacity self.new ≡ vec_capacity self.old }
        ensures by_index { SwappedAt self.old.items self.new.items i j }
    {
        self.rows[self.left..].swap(i, j);
    }

    /// Cracks the rows from the place `from` on and before the place `to`, and answers where those
    /// with a score of `v` or more begin. The other rows stay where they are.
    pub fn crack(&mut self, from: usize, to: usize, v: i64) -> usize
        requires order { from ≤ to }
        requires within { to ≤ length self.old.items }
        ensures permutation { IsPermutation self.old.items self.new.items }
        ensures len { length self.new.items ≡ length self.old.items }
        ensures changes { ChangesWithin from to self.old.items self.new.items }
        ensures low { from ≤ result }
        ensures high { result ≤ to }
        ensures before { AllWithin (IsBelow v) self.new.items from result }
        ensures behind { AllWithin (IsFrom v) self.new.items result to }
        ensures capacity { vec_capacity self.new ≡ vec_capacity self.old }
    {
        crack_piece(&mut self.rows[self.left..], from, to, v)
    }
}

impl<A: Allocator + Copy> FrontRoomRows<A> {
    /// No rows. It takes no memory.
    pub fn new(alloc: A) -> Self
        ensures { result.items ≡ [] }
    {
        FrontRoomRows {
            rows: Vec::new(alloc),
            left: 0,
        }
    }

    /// Where its memory is taken from.
    pub fn allocator(&self) -> A {
        *self.rows.allocator()
    }

    /// Whether the rows before the place `from` move where those up to the place `to` leave, since they are no more than
    /// those behind.
    pub fn moves_front(&self, from: usize, to: usize) -> bool
        requires { to ≤ length self.now.items }
    {
        from <= self.len() - to
    }

    /// Drops the rows from the place `from` on and before the place `to`. The fewer of those before them and those behind
    /// them close up; the others keep their places in the vector.
    pub fn remove_between(&mut self, from: usize, to: usize)
        requires order { from ≤ to }
        requires within { to ≤ length self.old.items }
        ensures { self.new.items ≡ closed_up_rows from to self.old.items }
    {
        if self.moves_front(from, to) {
            self.rows[self.left..self.left + to].rotate_left(from);
            self.remove_first(to - from);
        } else {
            self.rows.drain(self.left + from..self.left + to);
        }
    }

    /// Drops the first `count` rows. Blank ones take their places, or none where no row is left.
    fn remove_first(&mut self, count: usize)
        requires { count ≤ length self.old.items }
        ensures { self.new.items ≡ drop count self.old.items }
    {
        let end = self.left + count;
        if end == self.rows.len() {
            self.rows.clear();
            self.left = 0;
            return;
        }
        blank_out(&mut self.rows, self.left, end);
        self.left = end;
    }
}

/// A row that stands where none does, in a gap or at the front. It takes no memory.
pub fn blank_row<A: Allocator>() -> Row<A>
    ensures { result ≡ blank }
{
    Row::new(0, ShortBytes::new())
}

/// Puts blank rows in the places from `from` on and before `to`, and drops those that stood there.
fn blank_out<A: Allocator>(rows: &mut [Row<A>], from: usize, to: usize)
    requires order { from ≤ to }
    requires within { to ≤ length rows.old }
    ensures { drop to rows.new ≡ drop to rows.old }
{
    for at in from..to {
        rows[at] = blank_row();
    }
}

/// Makes room for `additional` more rows. A short list gets little more than that, and so does a long one where
/// there is no memory to double it.
pub fn reserve_rows<A: Allocator>(
    rows: &mut Vec<Row<A>, A>,
    additional: usize,
) -> Result<(), AllocError>
    ensures items { rows.new.items ≡ rows.old.items }
    ensures len { vec_len rows.new ≡ vec_len rows.old }
    ensures ok { OnOk result (vec_len rows.new + additional ≤ vec_capacity rows.new) }
{
    let len = rows.len();
    if len < DOUBLED_FROM && additional > rows.capacity() - len {
        return rows.reserve_exact(additional.max(len / GROWTH));
    }
    if rows.reserve(additional).is_ok() {
        return Ok(());
    }
    rows.reserve_exact(additional)
}
