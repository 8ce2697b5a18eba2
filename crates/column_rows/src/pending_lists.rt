//! The rows that wait.

ghost use Rattle.std.specs.Prelude.{◌≡◌, ◌+◌, ◌-◌, ◌<◌, ◌≤◌, ◌≢◌, ◌≤ℤ◌, ◌++◌, ◌∷◌, ◌↔◌, ◌&&◌, not, true, false, ℕ, ℤ, List, [], Some, IsSome, length, take, Contains, MatchOption, OnOk, IsFalse, IsTrue, count_by, slice_index_or, option_to_list, IsPermutation, vec_len, vec_capacity};
ghost use Rattle.std.specs.List.{HoldsAt, list_any, remove, swap_remove};
ghost use Rattle.score_bounds.specs.ScoreTexts.{greatest};
ghost use Rattle.crack_kernel.specs.RowBag.{Test};
ghost use Rattle.column_rows.specs.Content.{has_score_in, NoneIn, Pends};
ghost use Rattle.column_rows.specs.MergeEffects.{HasLast};
ghost use Rattle.column_rows.specs.RowHash.{hash_of};

use crate::pending_bloom::PendingBloom;
use crate::range_gathered_rows::PendingRows;
use crate::row_hash::hash_of;
use crate::row_position::position_of;
use crate::score_span::ScoreSpan;
use crack_kernel::Row;
use score_bounds::{Interval, Range};
use std::alloc::{AllocError, Allocator};
use std::cmp::Ordering;
use std::marker::Model;

/// The greatest number of rows in each of the two lists of rows that wait.
pub const MAX_PENDING: usize = 2048;

/// For how many insertions, and deletions, room is made at once at most: a request's arguments.
pub const MAX_RESERVED: usize = 1027;

/// From how many rows on a list gets marks. Fewer rows are as quickly looked through.
const MARKED_FROM: usize = 128;

/// Beside so many rows or more the lists keep their room where nothing waits. Beside fewer it would be as much as
/// these take.
pub const KEEPS_ROOM_FROM: usize = 1024;

/// Room for so many rows is kept after a change: the next one takes it.
pub const SMALL_ROOM: usize = 16;

/// Rows that wait, in no order, beside their marks, so that mostly no row is looked at where the one
/// that is looked for does not wait.
///
/// Contracts see the rows alone, as a `Vec`.
#[derive(Drop)]
pub struct PendingList<A: Allocator> {
    rows: PendingRows<A>,
    marks: PendingBloom<A>,
    /// Between which scores the rows lie. Where a range lies elsewhere, none is looked at.
    span: ScoreSpan,
}

impl<A: Allocator> Model for PendingList<A> {
    ghost use Rattle.std.specs.Prelude.{ℤ, ℕ, List};
    ghost use Rattle.std.specs.declared.vec.Vec.{Vec as VecValue};
    ghost use Rattle.column_rows.specs.PendingBloom.{Covers};
    ghost use Rattle.column_rows.specs.ScoreSpan.{Spans};

    ghost Value = { VecValue (ℤ × List ℕ) A };

    ghost view = { λ l. l.rows };

    ghost invariant = { λ l. Covers l.marks.words.items l.rows.items × Spans l.span l.rows.items };
}

impl<A: Allocator + Copy> PendingList<A> {
    /// No rows. It takes no memory.
    pub fn new(alloc: A) -> Self
        ensures { result.items ≡ [] }
    {
        PendingList {
            rows: PendingRows::new(alloc),
            marks: PendingBloom::new(alloc),
            span: ScoreSpan::empty(),
        }
    }
}

impl<A: Allocator> PendingList<A> {
    /// How many rows wait.
    pub fn len(&self) -> usize
        ensures { result ≡ length self.now.items }
    {
        self.rows.len()
    }

    /// The rows.
    pub fn list(&self) -> &[Row<A>]
        ensures { result.now ≡ self.now.items }
    {
        self.rows.list()
    }

    /// Whether a row with a score in the range waits.
    pub fn has_within(&self, range: &Range) -> bool
        ensures { result ≡ list_any (has_score_in range.now) self.now.items }
    {
        let interval = range.interval();
        if self.span.is_missed_by(&interval) {
            return false;
        }
        self.rows.has_within(range)
    }

    /// How many rows have scores in the range.
    pub fn count_within(&self, range: &Range) -> usize
        ensures { result ≡ count_by (has_score_in range.now) self.now.items }
    {
        let interval = range.interval();
        if self.span.is_missed_by(&interval) {
            return 0;
        }
        self.list()
            .iter()
            .filter(|row| is_within(*row, &interval))
            .count()
    }

    /// The index at which `row`, of which the hash is given, waits, if it does.
    fn find(&self, row: &Row<A>, hash: u64) -> Option<usize>
        requires { hash ≡ hash_of row.now }
        ensures found { MatchOption result (¬ Contains self.now.items row.now) (λ i. HoldsAt (λ r. r
            ≡ row.now) self.now.items i × (i < length self.now.items)) }
    {
        if self.marks.may_have(hash) {
            position_of(self.rows.list(), row)
        } else {
            None
        }
    }

    /// Wipes the marks of an empty list, and makes those of one that has become long.
    fn renew_marks(&mut self) -> Result<(), AllocError>
        ensures items { self.new.items ≡ self.old.items }
        ensures len { vec_len self.new ≡ vec_len self.old }
    {
        let len = self.rows.len();
        if len == 0 {
            self.marks.wipe();
            self.span = ScoreSpan::empty();
            return Ok(());
        }
        if len >= MARKED_FROM && self.marks.is_empty() {
            return self.marks.mark_rows(self.rows.list());
        }
        Ok(())
    }

    /// Makes room for `n` more rows, and renews the marks.
    pub fn reserve(&mut self, n: usize) -> Result<(), AllocError>
        ensures items { self.new.items ≡ self.old.items }
        ensures len { vec_len self.new ≡ vec_len self.old }
        ensures room { OnOk result (vec_len self.new + n ≤ vec_capacity self.new) }
    {
        self.renew_marks()?;
        self.rows.reserve(n)
    }

    /// Gives back all room, and the marks, where no row waits and the room is for more than `kept` rows.
    pub fn give_back(&mut self, kept: usize)
        ensures items { self.new.items ≡ self.old.items }
        ensures freed { vec_len self.old ≡ 0 → vec_capacity self.new ≤ kept }
    {
        if self.rows.len() == 0 && self.rows.capacity() > kept {
            self.rows.give_back();
            self.marks.give_back();
        }
    }

    /// Puts a row, of which the hash is given, behind the last one. It takes no memory.
    fn push_reserved(&mut self, row: Row<A>, hash: u64)
        requires hash { hash ≡ hash_of row }
        requires room { vec_len self.old < vec_capacity self.old }
        ensures items { self.new.items ≡ self.old.items ++ row ∷ [] }
        ensures len { vec_len self.new ≡ vec_len self.old + 1 }
        ensures capacity { vec_capacity self.new ≡ vec_capacity self.old }
    {
        self.marks.mark(hash);
        self.span.widen(row.score());
        self.rows.push_reserved(row);
    }

    /// Takes out the row at an index, and puts the last one there.
    pub fn swap_remove(&mut self, index: usize) -> Row<A>
        requires { index < vec_len self.old }
        ensures value { result ≡ slice_index_or self.old.items index result }
        ensures items { self.new.items ≡ swap_remove self.old.items index result }
        ensures len { vec_len self.new + 1 ≡ vec_len self.old }
        ensures capacity { vec_capacity self.new ≡ vec_capacity self.old }
        ensures others { (k : ℕ) (d : ℤ × List ℕ) → k ≢ index → k + 1 < vec_len self.old
            → slice_index_or self.new.items k d ≡ slice_index_or self.old.items k d }
    {
        self.rows.swap_remove(index)
    }

    /// Takes out the row at an index. The rows behind it move up.
    pub fn remove(&mut self, index: usize) -> Row<A>
        requires { index < vec_len self.old }
        ensures value { result ≡ slice_index_or self.old.items index result }
        ensures items { self.new.items ≡ remove self.old.items index }
        ensures len { vec_len self.new + 1 ≡ vec_len self.old }
        ensures capacity { vec_capacity self.new ≡ vec_capacity self.old }
        ensures before { take index self.new.items ≡ take index self.old.items }
    {
        self.rows.remove(index)
    }

    /// Takes out the last row.
    pub fn pop(&mut self) -> Option<Row<A>>
        ensures items { self.old.items ≡ self.new.items ++ option_to_list result }
        ensures variant { IsSome result ↔ (0 < vec_len self.old) }
        ensures len { vec_len self.new + length (option_to_list result) ≡ vec_len self.old }
        ensures capacity { vec_capacity self.new ≡ vec_capacity self.old }
        ensures value { (d : ℤ × List ℕ) → 0 < vec_len self.old → result
            ≡ Some (slice_index_or self.old.items (vec_len self.old - 1) d) }
    {
        self.rows.pop()
    }

    /// Puts the rows with scores in the range last, and answers how many others there are.
    pub fn gather(&mut self, range: &Range) -> usize
        ensures rows { IsPermutation self.old.items self.new.items }
        ensures last { HasLast range.now self.new.items result }
        ensures capacity { vec_capacity self.new ≡ vec_capacity self.old }
    {
        if self.span.is_missed_by(&range.interval()) {
            return self.rows.len();
        }
        self.rows.gather(range)
    }

    /// Sorts the rows from the index `from` on by falling scores, and those of one score by falling
    /// members.
    pub fn sort_from(&mut self, from: usize)
        requires { from ≤ length self.old.items }
        ensures rows { IsPermutation self.old.items self.new.items }
        ensures before { take from self.new.items ≡ take from self.old.items }
        ensures capacity { vec_capacity self.new ≡ vec_capacity self.old }
    {
        self.rows.sort_from(from);
    }

    /// Turns the order of the rows from the index `from` on round.
    pub fn reverse_from(&mut self, from: usize)
        requires { from ≤ length self.old.items }
        ensures rows { IsPermutation self.old.items self.new.items }
        ensures before { take from self.new.items ≡ take from self.old.items }
        ensures capacity { vec_capacity self.new ≡ vec_capacity self.old }
    {
        self.rows.reverse_from(from);
    }

    /// Puts `row` into the list, or withdraws it from the other one, whose effect it would undo.
    pub fn pend(&mut self, row: Row<A>, other: &mut PendingList<A>)
        requires room { vec_len self.old < vec_capacity self.old }
        ensures pends { Pends row self.old.items self.new.items other.old.items other.new.items }
        ensures score { row.0 ≤ℤ greatest }
        ensures len { vec_len self.new ≤ vec_len self.old + 1 }
        ensures len_other { vec_len other.new ≤ vec_len other.old }
        ensures capacity { vec_capacity self.new ≡ vec_capacity self.old }
        ensures capacity_other { vec_capacity other.new ≡ vec_capacity other.old }
    {
        let hash = hash_of(&row);
        match other.find(&row, hash) {
            Some(i) => {
                let _withdrawn = other.swap_remove(i);
            }
            None => self.push_reserved(row, hash),
        }
    }
}

/// Whether the row's score is in the range of an interval.
pub fn is_within<A: Allocator>(row: &Row<A>, interval: &Interval) -> bool
    ensures { result ≡ has_score_in interval.now.range row.now }
{
    interval.contains(row.score())
}

/// From which indices on the rows of a range stand in the two lists, once they are gathered there.
#[derive(Clone, Copy)]
pub struct RangeTails {
    pub deletions: usize,
    pub insertions: usize,
}

/// The rows that wait to be taken out, and those that wait to be put in.
#[derive(Drop)]
pub struct Pending<A: Allocator> {
    pub deletions: PendingList<A>,
    pub insertions: PendingList<A>,
}

impl<A: Allocator + Copy> Pending<A> {
    /// No rows. It takes no memory.
    pub fn new(alloc: A) -> Self
        ensures deletions { result.deletions.items ≡ [] }
        ensures insertions { result.insertions.items ≡ [] }
    {
        Pending {
            deletions: PendingList::new(alloc),
            insertions: PendingList::new(alloc),
        }
    }
}

impl<A: Allocator> Pending<A> {
    /// Whether a row with a score in the range waits.
    pub fn has_within(&self, range: &Range) -> bool
        ensures { IsFalse result ↔ (NoneIn range.now self.now.deletions.items × NoneIn range.now self.now.insertions.items) }
    {
        self.deletions.has_within(range) || self.insertions.has_within(range)
    }

    /// Puts the rows with scores in the range last in both lists, and answers where they begin.
    pub fn gather(&mut self, range: &Range) -> RangeTails
        ensures deletions { IsPermutation self.old.deletions.items self.new.deletions.items }
        ensures insertions { IsPermutation self.old.insertions.items self.new.insertions.items }
        ensures last_deletions { HasLast range.now self.new.deletions.items result.deletions }
        ensures last_insertions { HasLast range.now self.new.insertions.items result.insertions }
    {
        RangeTails {
            deletions: self.deletions.gather(range),
            insertions: self.insertions.gather(range),
        }
    }

    /// Gives back the room of each list in which no row waits, if it is for more than `kept` rows, beside a column of
    /// so many rows, if these are few.
    pub fn give_back(&mut self, rows_len: usize, kept: usize)
        ensures deletions { self.new.deletions.items ≡ self.old.deletions.items }
        ensures insertions { self.new.insertions.items ≡ self.old.insertions.items }
        ensures freed_deletions { rows_len < KEEPS_ROOM_FROM → vec_len self.old.deletions ≡ 0
            → vec_capacity self.new.deletions ≤ kept }
        ensures freed_insertions { rows_len < KEEPS_ROOM_FROM → vec_len self.old.insertions ≡ 0
            → vec_capacity self.new.insertions ≤ kept }
    {
        if rows_len < KEEPS_ROOM_FROM {
            self.deletions.give_back(kept);
            self.insertions.give_back(kept);
        }
    }

    /// Whether both lists end where the rows of a range would begin.
    pub fn ends_before(&self, tails: RangeTails) -> bool
        ensures { IsTrue result ↔ ((length self.now.deletions.items ≤ tails.deletions)
            × (length self.now.insertions.items ≤ tails.insertions)) }
    {
        self.deletions.len() <= tails.deletions && self.insertions.len() <= tails.insertions
    }
}

/// How two rows stand to one another: by their scores, and where these are the same, by their members.
pub fn row_cmp<A: Allocator>(x: &Row<A>, y: &Row<A>) -> Ordering {
    match x.score().cmp(&y.score()) {
        Ordering::Equal => x.member().cmp(y.member()),
        apart => apart,
    }
}
