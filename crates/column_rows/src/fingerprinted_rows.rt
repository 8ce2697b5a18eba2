//! The rows of a column, beside their fingerprints.

ghost use Rattle.std.specs.Prelude.{◌≡◌, ◌+◌, ◌-◌, ◌<◌, ◌≤◌, ◌++◌, ◌∷◌, ℕ, ℤ, List, [], take, length, slice_set, Some, IsSome, ◌↔◌, IsPermutation, OnOk, vec_len, vec_capacity, option_to_list, slice_index_or};
ghost use Rattle.std.specs.List.{AllWithin, SwappedAt, swap};
ghost use Rattle.crack_kernel.specs.PartedRows.{ChangesWithin, IsBelow, IsFrom};
ghost use Rattle.column_rows.specs.ClosedUp.{closed_up_rows};

use crate::deletion_bloom::DeletionBloom;
use crate::fingerprint_search::{Wanted, next_like, next_within};
use crate::front_room_rows::FrontRoomRows;
use crate::row_hash::{is_of_score, row_fingerprint, score_fingerprint};
use crack_kernel::Row;
use std::alloc::{AllocError, Allocator};
use std::marker::Model;

/// To look at a row by its fingerprint saves about an eighth of what it costs to carry one along in a
/// ripple move, by the clock.
const CARRIED: usize = 8;

/// Room for fewer rows has none for fingerprints: the rows themselves are read as fast.
const FINGERPRINTED_FROM: usize = 256;

/// Passes that take fewer rows out look at the rows themselves where their fingerprints were forgotten.
const LISTED_FROM: usize = 32;

/// Rows, and their fingerprints, so that a walk over many rows reads 4 bytes of each one and not 32
/// and a member.
///
/// A row's fingerprint stands at the row's place in its vector, where the list reaches so far, or 0 where
/// none is made yet. It is first that of the row's score, which needs no look at the member; where that tells
/// nothing, that of score and member takes its place. Contracts see the rows alone, as a `Vec`: with a
/// wrong fingerprint a pass would only leave its row to the ripple moves, and a ripple deletion look at
/// each row of the piece.
#[derive(Drop)]
pub struct Rows<A: Allocator> {
    rows: FrontRoomRows<A>,
    fingerprints: Vec<u32, A>,
}

impl<A: Allocator> Model for Rows<A> {
    ghost use Rattle.std.specs.Prelude.{ℤ, ℕ, List};
    ghost use Rattle.std.specs.declared.vec.Vec.{Vec as VecValue};

    ghost Value = { VecValue (ℤ × List ℕ) A };

    ghost view = { λ r. r.rows };
}

impl<A: Allocator> Rows<A> {
    /// How many rows there are.
    pub fn len(&self) -> usize
        ensures { result ≡ length self.now.items }
    {
        self.rows.len()
    }

    /// The rows.
    pub fn list(&self) -> &[Row<A>]
        ensures { result.now ≡ self.now.items }
    {
        self.rows.list()
    }

    /// For how many more rows there is room.
    pub fn spare(&self) -> usize
        ensures { vec_len self.now + result ≡ vec_capacity self.now }
    {
        self.rows.spare()
    }

    /// Makes room for `additional` more rows and their fingerprints. On Err, the rows are unchanged.
    pub fn reserve(&mut self, additional: usize) -> Result<(), AllocError>
        ensures items { self.new.items ≡ self.old.items }
        ensures len { vec_len self.new ≡ vec_len self.old }
        ensures ok { OnOk result (vec_len self.new + additional ≤ vec_capacity self.new) }
    {
        let left = self.rows.left();
        self.rows.reserve(additional)?;
        let moved = left.saturating_sub(self.rows.left());
        self.take_out(0, moved);
        if self.rows.places() < FINGERPRINTED_FROM {
            return Ok(());
        }
        let missing = self.rows.places().saturating_sub(self.fingerprints.len());
        if self.fingerprints.reserve(missing).is_ok() {
            return Ok(());
        }
        self.fingerprints.reserve_exact(missing)
    }

    /// Puts a row behind the last one. It takes no memory.
    pub fn push_reserved(&mut self, row: Row<A>)
        requires { vec_len self.old < vec_capacity self.old }
        ensures items { self.new.items ≡ self.old.items ++ row ∷ [] }
        ensures len { vec_len self.new ≡ vec_len self.old + 1 }
        ensures capacity { vec_capacity self.new ≡ vec_capacity self.old }
    {
        let place = self.rows.len();
        self.note(place, score_fingerprint(row.score()));
        self.rows.push_reserved(row);
    }

    /// Takes the last row out.
    pub fn pop(&mut self) -> Option<Row<A>>
        ensures items { self.old.items ≡ self.new.items ++ option_to_list result }
        ensures variant { IsSome result ↔ (0 < vec_len self.old) }
        ensures value { (d : ℤ × List ℕ) → 0 < vec_len self.old → result ≡ Some (slice_index_or self.old.items (vec_len self.old - 1) d) }
        ensures rest { self.new.items ≡ take (vec_len self.old - 1) self.old.items }
        ensures capacity { vec_capacity self.new ≡ vec_capacity self.old }
    {
        self.rows.pop()
    }

    /// Drops the rows from the place `len` on.
    pub fn truncate(&mut self, len: usize)
        ensures items { self.new.items ≡ take len self.old.items }
        ensures capacity { vec_capacity self.new ≡ vec_capacity self.old }
    {
        self.rows.truncate(len);
    }

    /// Puts a row at a place, and drops the one that stood there.
    pub fn set(&mut self, at: usize, row: Row<A>)
        requires { at < vec_len self.old }
        ensures items { self.new.items ≡ slice_set self.old.items at row }
        ensures capacity { vec_capacity self.new ≡ vec_capacity self.old }
    {
        self.note(at, score_fingerprint(row.score()));
        self.rows.set(at, row);
    }

    /// Lets two rows change places.
    pub fn swap(&mut self, i: usize, j: usize)
        requires i_in_bounds { i < vec_len self.old }
        requires j_in_bounds { j < vec_len self.old }
        ensures items { self.new.items ≡ swap self.old.items i j }
        ensures capacity { vec_capacity self.new ≡ vec_capacity self.old }
        ensures by_index { SwappedAt self.old.items self.new.items i j }
    {
        self.rows.swap(i, j);
        let first = self.rows.left().min(self.fingerprints.len());
        let known = &mut self.fingerprints[first..];
        if i < known.len() && j < known.len() {
            known.swap(i, j);
        }
    }

    /// Cracks the rows from the place `from` on and before the place `to`, and answers where those
    /// with a score of `v` or more begin. The other rows stay where they are.
    pub fn crack(&mut self, from: usize, to: usize, v: i64) -> usize
        requires order { from ≤ to }
        requires within { to ≤ length self.old.items }
        ensures permutation { IsPermutation self.old.items self.new.items }
        ensures len { length self.new.items ≡ length self.old.items }
        ensures changes { ChangesWithin from to self.old.items self.new.items }
        ensures low { from ≤ result }
        ensures high { result ≤ to }
        ensures before { AllWithin (IsBelow v) self.new.items from result }
        ensures behind { AllWithin (IsFrom v) self.new.items result to }
        ensures capacity { vec_capacity self.new ≡ vec_capacity self.old }
    {
        self.forget(from, to);
        self.rows.crack(from, to, v)
    }

    /// Notes the fingerprint of the row at a place, or of one that is about to come there.
    fn note(&mut self, at: usize, fingerprint: u32)
        ensures { self.new ≡ self.old }
    {
        let first = self.rows.left().min(self.fingerprints.len());
        let known = &mut self.fingerprints[first..];
        if at < known.len() {
            known[at] = fingerprint;
        }
    }

    /// The fingerprints from that of the first row on.
    fn known(&self) -> &[u32] {
        let first = self.rows.left().min(self.fingerprints.len());
        &self.fingerprints[first..]
    }

    /// The fingerprint of the row at a place, or 0 where none is made.
    fn fingerprint(&self, at: usize) -> u32 {
        self.known().get(at).copied().unwrap_or(0)
    }

    /// Forgets the fingerprints from the place `from` on and before the place `to`.
    fn forget(&mut self, from: usize, to: usize)
        ensures { self.new ≡ self.old }
    {
        let first = self.rows.left().min(self.fingerprints.len());
        let known = &mut self.fingerprints[first..];
        let end = to.min(known.len());
        if from < end {
            known[from..end].fill(0);
        }
    }

    /// Takes the fingerprints of the places from `from` on and before `to` of the vector out.
    fn take_out(&mut self, from: usize, to: usize)
        ensures { self.new ≡ self.old }
    {
        let end = to.min(self.fingerprints.len());
        if from < end {
            self.fingerprints.drain(from..end);
        }
    }

    /// Moves the fingerprints of the rows before the place `from` to where these rows go when those up to the place `to`
    /// leave.
    fn move_front(&mut self, from: usize, to: usize)
        requires order { from ≤ to }
        requires within { to ≤ length self.old.items }
        ensures { self.new ≡ self.old }
    {
        let left = self.rows.left();
        let known = self.fingerprints.len();
        let run = &mut self.fingerprints[left.min(known)..(left + to).min(known)];
        let count = (to - from).min(run.len());
        run.rotate_right(count);
    }

    /// Gets the fingerprints ready for passes that take so many rows out. For few of them those that were
    /// forgotten are not worth their list, which is as long as the rows' own.
    pub fn expect_passes(&mut self, leaving: usize)
        ensures { self.new ≡ self.old }
    {
        if leaving >= LISTED_FROM {
            self.extend_fingerprints();
        }
    }

    /// Extends the list of fingerprints to each place that rows can take, in the room that it has. None
    /// is made there yet.
    fn extend_fingerprints(&mut self)
        ensures { self.new ≡ self.old }
    {
        if self.rows.places() >= FINGERPRINTED_FROM {
            let _in_room = self.fingerprints.resize(self.rows.places(), 0);
        }
    }

    /// Gets the fingerprints ready for a ripple move over the pieces above one, of the pieces that so
    /// many pivots make. Over many pieces all are forgotten: each would be as far to fetch as its row.
    /// With few pivots they are kept from then on.
    pub fn expect_moves(&mut self, above: usize, pivots: usize)
        ensures { self.new ≡ self.old }
    {
        if !self.is_carried_over(above) {
            self.fingerprints.clear();
        } else if self.is_carried_over(pivots) {
            self.extend_fingerprints();
        }
    }

    /// Whether a ripple move over so many pieces carries the fingerprints along: to find a row by them
    /// in a piece of their mean length saves more than that takes.
    fn is_carried_over(&self, pieces: usize) -> bool {
        pieces.saturating_mul(pieces) <= self.rows.len() / CARRIED
    }

    /// Whether the row stands at a place. Where the fingerprint there does not tell it from this row,
    /// one that does is made.
    fn is_at(&mut self, at: usize, row: &Row<A>) -> bool
        requires { at < length self.old.items }
        ensures { self.new ≡ self.old }
    {
        let found = &self.rows.list()[at];
        if found.is_same(row) {
            return true;
        }
        let fingerprint = if found.score() == row.score() {
            row_fingerprint(found)
        } else {
            score_fingerprint(found.score())
        };
        self.note(at, fingerprint);
        false
    }

    /// A place from `from` on and before `to` at which the row stands, or `to` where none is found. Each
    /// answer is to be tested: fingerprints alone tell where to look.
    pub fn find_between(&mut self, from: usize, to: usize, row: &Row<A>) -> usize
        requires within { to ≤ length self.old.items }
        ensures { self.new ≡ self.old }
    {
        let wanted = Wanted {
            of_score: score_fingerprint(row.score()),
            of_row: row_fingerprint(row),
        };
        if self.fingerprints.is_empty() {
            return to;
        }
        let mut at = next_like(self.known(), from, to, wanted);
        while at < to {
            if self.is_at(at, row) {
                return at;
            }
            at = next_like(self.known(), at + 1, to, wanted);
        }
        to
    }

    /// Whether the filter may have the row at a place. Its fingerprint is made: that of its score where
    /// this tells.
    fn may_leave(&mut self, at: usize, filter: &DeletionBloom) -> bool
        requires { at < length self.old.items }
        ensures { self.new ≡ self.old }
    {
        let row = &self.rows.list()[at];
        let mut fingerprint = self.fingerprint(at);
        if fingerprint == 0 {
            fingerprint = score_fingerprint(row.score());
        }
        if is_of_score(fingerprint) && filter.may_have(fingerprint) {
            fingerprint = row_fingerprint(row);
        }
        self.note(at, fingerprint);
        filter.may_have(fingerprint)
    }

    /// The first place from `from` on and before `to` of a row that the filter may have, or `to`. The
    /// fingerprints up to it are made.
    pub fn next_within(&mut self, from: usize, to: usize, filter: &DeletionBloom) -> usize
        requires order { from ≤ to }
        requires within { to ≤ length self.old.items }
        ensures same { self.new ≡ self.old }
        ensures low { from ≤ result }
        ensures high { result ≤ to }
    {
        let mut at = next_within(self.known(), from, to, filter);
        while at < to {
            if self.may_leave(at, filter) {
                return at;
            }
            at = next_within(self.known(), at + 1, to, filter);
        }
        to
    }
}

impl<A: Allocator + Copy> Rows<A> {
    /// No rows. It takes no memory.
    pub fn new(alloc: A) -> Self
        ensures { result.items ≡ [] }
    {
        Rows {
            rows: FrontRoomRows::new(alloc),
            fingerprints: Vec::new(alloc),
        }
    }

    /// Where its memory is taken from.
    pub fn allocator(&self) -> A {
        self.rows.allocator()
    }

    /// Drops the rows from the place `from` on and before the place `to`. Those behind them close up.
    pub fn remove_between(&mut self, from: usize, to: usize)
        requires order { from ≤ to }
        requires within { to ≤ length self.old.items }
        ensures { self.new.items ≡ closed_up_rows from to self.old.items }
    {
        if self.rows.moves_front(from, to) {
            self.move_front(from, to);
        } else {
            let left = self.rows.left();
            self.take_out(left + from, left + to);
        }
        self.rows.remove_between(from, to);
    }
}
