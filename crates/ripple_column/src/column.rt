//! The column.

ghost use Rattle.std.specs.Prelude.{◌≡◌, ◌+◌, ◌<◌, ◌≤◌, ℕ, [], ◌∷◌, false, length, count_by, slice_range, IfOk, IfSome, OnOk, OnErr};
ghost use Rattle.score_bounds.specs.declared.ranges_and_cuts.Range.{Range};
ghost use Rattle.crack_kernel.specs.RowBag.{IsSubBag, Test};
ghost use Rattle.crack_kernel.specs.PivotList.{ObeysPivots};
ghost use Rattle.column_rows.specs.RangeAnswer.{AnswersSome, HoldsRange, IsAnswer, low_cut, high_cut};
ghost use Rattle.column_rows.specs.RangeEffects.{Narrows, Removes, Selects};
ghost use Rattle.column_rows.specs.Content.{HasRow, IsUnchanged, Pends, SameContent, content_count, most_pending};
ghost use Rattle.column_rows.specs.RangeCutsAsPivots.{is_before, values};
ghost use Rattle.column_rows.specs.ShownPivots.{IsAmong};

use crate::merge_beside_shown_pivots::{merge_all_pieces, reserve_write_beside_pieces};
use crate::select::{select_between, settled_places};
use column_rows::{
    KEEPS_ROOM_FROM, MAX_PENDING, MAX_RESERVED, Pending, Pieces, SMALL_ROOM, is_before, is_wide,
    narrow, remove_between,
};
use crack_kernel::Row;
use score_bounds::Range;
use std::alloc::{AllocError, Allocator};
use std::marker::Model;

/// Rows that are cracked by queries, with insertions and deletions that wait.
///
/// Its content is a bag of rows: those that stand in the column and those that wait to be inserted,
/// but for those that wait to be deleted. Between neighbouring pivots the rows stand in no order.
///
/// Contracts see the pivots that are shown, the cuts of the ranges asked for. Inner pivots beside
/// them part long pieces.
#[derive(Drop)]
pub struct Column<A: Allocator> {
    pieces: Pieces<A>,
    pending: Pending<A>,
}

impl<A: Allocator> Model for Column<A> {
    ghost use Rattle.column_rows.specs.Content.{ColumnState};

    ghost Value = { ColumnState };

    ghost use Rattle.ripple_column.specs.ColumnViewAndInvariant.{state, ColumnViewAndInvariant};

    ghost view = { state };

    ghost invariant = { λ c. ColumnViewAndInvariant (state c) };
}

impl<A: Allocator + Copy> Column<A> {
    /// An empty column. It takes no memory.
    pub fn new(alloc: A) -> Self
        ensures rows { result.rows ≡ [] }
        ensures pivots { result.pivots ≡ [] }
        ensures insertions { result.insertions ≡ [] }
        ensures deletions { result.deletions ≡ [] }
    {
        Column {
            pieces: Pieces::new(alloc),
            pending: Pending::new(alloc),
        }
    }

    /// How many rows there are, pending ones aside.
    pub fn len(&self) -> usize
        ensures { result ≡ length self.now.rows }
    {
        self.pieces.cracked.rows.len()
    }

    /// How many insertions and how many deletions wait: at most 2,048 of each. The rows that wait to
    /// be deleted stand in the column.
    pub fn pending(&self) -> (usize, usize)
        ensures insertions { result.0 ≡ length self.now.insertions }
        ensures deletions { result.1 ≡ length self.now.deletions }
        ensures few_insertions { length self.now.insertions ≤ MAX_PENDING }
        ensures few_deletions { length self.now.deletions ≤ MAX_PENDING }
        ensures part { IsSubBag self.now.deletions self.now.rows }
    {
        (self.pending.insertions.len(), self.pending.deletions.len())
    }

    /// The pivots in order, each a value and a place.
    pub fn pivot_list(&self) -> &[(i64, usize)]
        ensures pivots { result.now ≡ self.now.pivots }
        ensures law { ObeysPivots self.now.pivots self.now.rows }
    {
        self.pieces.shown().list()
    }

    /// The pivots in order with the inner ones beside them, each a value and a place.
    pub fn piece_list(&self) -> &[(i64, usize)]
        ensures law { ObeysPivots result.now self.now.rows }
        ensures among { IsAmong self.now.pivots result.now }
    {
        self.pieces.cracked.pivots.list()
    }

    /// The rows from the place `from` on and before the place `to`.
    pub fn rows(&self, from: usize, to: usize) -> &[Row<A>]
        requires order { from ≤ to }
        requires within { to ≤ length self.now.rows }
        ensures { result.now ≡ slice_range self.now.rows from to }
    {
        &self.pieces.cracked.rows.list()[from..to]
    }

    /// Makes room for `n` more pending insertions and `n` more pending deletions. Where either
    /// list would pass 2,048 rows, all that waits is merged first. On Err, the content is unchanged.
    pub fn reserve_write(&mut self, n: usize) -> Result<(), AllocError>
        requires { n ≤ MAX_RESERVED }
        ensures content { SameContent self.old self.new }
        ensures values { values self.new.pivots ≡ values self.old.pivots }
        ensures room_insertions { OnOk result (n ≤ self.new.insert_spare) }
        ensures room_deletions { OnOk result (n ≤ self.new.delete_spare) }
        ensures unchanged { most_pending self.old + n ≤ MAX_PENDING → IsUnchanged self.old self.new }
        ensures merged_insertions { OnOk result (MAX_PENDING < most_pending self.old + n → self.new.insertions ≡ []) }
        ensures merged_deletions { OnOk result (MAX_PENDING < most_pending self.old + n → self.new.deletions ≡ []) }
    {
        reserve_write_beside_pieces(&mut self.pieces, &mut self.pending, n)
    }

    /// Adds `row` to the content: it waits as an insertion, or withdraws a deletion of it that
    /// waits. It takes no memory.
    pub fn insert(&mut self, row: Row<A>)
        requires room { 0 < self.old.insert_spare }
        ensures content { (p : Test) → content_count p self.new ≡ content_count p self.old + count_by p (row ∷ []) }
        ensures pends { Pends row self.old.insertions self.new.insertions self.old.deletions self.new.deletions }
        ensures rows { self.new.rows ≡ self.old.rows }
        ensures pivots { self.new.pivots ≡ self.old.pivots }
        ensures spare { self.old.insert_spare ≤ self.new.insert_spare + 1 }
        ensures spare_deletions { self.old.delete_spare ≤ self.new.delete_spare }
    {
        self.pending
            .insertions
            .pend(row, &mut self.pending.deletions);
    }

    /// Takes `row` out of the content: it waits as a deletion, or withdraws an insertion of it
    /// that waits. It takes no memory.
    pub fn delete(&mut self, row: Row<A>)
        requires room { 0 < self.old.delete_spare }
        requires there { HasRow self.old row }
        ensures content { (p : Test) → content_count p self.old ≡ content_count p self.new + count_by p (row ∷ []) }
        ensures pends { Pends row self.old.deletions self.new.deletions self.old.insertions self.new.insertions }
        ensures rows { self.new.rows ≡ self.old.rows }
        ensures pivots { self.new.pivots ≡ self.old.pivots }
        ensures spare { self.old.delete_spare ≤ self.new.delete_spare + 1 }
        ensures spare_insertions { self.old.insert_spare ≤ self.new.insert_spare }
    {
        self.pending
            .deletions
            .pend(row, &mut self.pending.insertions);
    }

    /// Gives back the room of each list in which no row waits, where it is for more than [`SMALL_ROOM`] rows and the
    /// column has fewer than [`KEEPS_ROOM_FROM`]. A change calls it at its end: beside few rows such room would be much.
    pub fn give_back_room(&mut self)
        ensures unchanged { IsUnchanged self.old self.new }
        ensures insertions { length self.old.rows < KEEPS_ROOM_FROM → self.old.insertions ≡ []
            → self.new.insert_spare ≤ SMALL_ROOM }
        ensures deletions { length self.old.rows < KEEPS_ROOM_FROM → self.old.deletions ≡ []
            → self.new.delete_spare ≤ SMALL_ROOM }
    {
        self.pending
            .give_back(self.pieces.cracked.rows.len(), SMALL_ROOM);
    }

    /// Merges all that waits. On Err, the column is unchanged but for its spare room.
    pub fn merge_all(&mut self) -> Result<(), AllocError>
        ensures content { SameContent self.old self.new }
        ensures values { values self.new.pivots ≡ values self.old.pivots }
        ensures insertions { OnOk result (self.new.insertions ≡ []) }
        ensures deletions { OnOk result (self.new.deletions ≡ []) }
        ensures refused { OnErr result (IsUnchanged self.old self.new) }
    {
        merge_all_pieces(&mut self.pieces, &mut self.pending)
    }

    /// Where the rows with scores in the range stand: from the first place on and before the
    /// second. What waits in the range is merged, and the cuts of the range become pivots; where
    /// there would be more than 4,096 of them, all others are dropped. The content stays, and what
    /// waits outside the range goes on waiting. A range whose first cut is not below its second
    /// holds no row, is answered by (0, 0), and changes nothing but spare room. Room that
    /// `reserve_write` made need not be there afterwards.
    ///
    /// Where nothing waits in the range and no pivot is dropped, rows outside the pieces in which a
    /// cut falls stand still.
    ///
    /// On Err, the column is unchanged but for its spare room.
    pub fn select(&mut self, range: &Range) -> Result<(usize, usize), AllocError>
        ensures content { SameContent self.old self.new }

        // The cuts of the range are pivots at these places, or ends of the column, and nothing waits in it.
        ensures answer { IfOk result (λ answer. IsAnswer self.new range.now answer) }
        ensures rows { IfOk result (λ answer. HoldsRange self.new range.now answer) }

        // What becomes of the rest of the column.
        ensures selects { OnOk result (Selects range.now self.old self.new) }
        ensures empty { is_before (low_cut range.now) (high_cut range.now) ≡ false → result ≡ Ok (0, 0) }
        ensures refused { OnErr result (IsUnchanged self.old self.new) }
    {
        let (first, second) = range.cuts();
        select_between(&mut self.pieces, &mut self.pending, range, &first, &second)
    }

    /// Takes the rows with scores in a range out of the content. The column's answer for the range has to be the places
    /// `from` and `to`: from the first on, and before the second, these rows stand. The others stay in the content, each
    /// between the pivots between which it stood. Pivots keep their values: the place of one inside the range becomes
    /// `from`, and that of one behind it falls by as many rows as leave. What waits goes on waiting. It takes no memory.
    ///
    /// No clause speaks of cost. The rows on one side of the range close up, or, where few leave, in each piece there no
    /// more rows move than leave; and the pivots of that side get new places.
    pub fn remove_rows(&mut self, from: usize, to: usize)
        requires answer { AnswersSome self.old (from, to) }
        ensures removes { (range : Range) → IsAnswer self.old range (from, to) → Removes range from self.old self.new }
    {
        remove_between(&mut self.pieces, from, to);
    }

    /// Lets rows change places between the shown pivots, and nothing else: the content, the shown pivots and what waits
    /// stay, and each range is answered by the same places.
    ///
    /// It is for a listing of the rows from the place `from` on and before the place `to`. Near both it adds inner pivots,
    /// so that mostly few rows stand between each of them and the pivots around it. No clause sees these: neither that any
    /// is added, nor how few rows stand there, nor that the cracks so far stay where memory is refused. Any two places may
    /// be given.
    pub fn narrow(&mut self, from: usize, to: usize)
        ensures content { SameContent self.old self.new }
        ensures narrows { Narrows self.old self.new }
        ensures answers { (range : Range) (answer : ℕ × ℕ) → IsAnswer self.old range answer
            → IsAnswer self.new range answer × HoldsRange self.new range answer }
    {
        narrow(&mut self.pieces, from);
        narrow(&mut self.pieces, to);
    }

    /// Whether `narrow` would let fewer rows stand between one of these places and the pivots around it.
    /// It is a hint: nothing that the column answers depends on it.
    pub fn is_wide(&self, from: usize, to: usize) -> bool {
        let cracked = &self.pieces.cracked;
        is_wide(cracked, from) || is_wide(cracked, to)
    }

    /// The answer of `select`, where the column is ready for it: nothing waits in the range, and
    /// each of its cuts is a pivot or an end of the column; or the first cut is not below the
    /// second.
    pub fn ready(&self, range: &Range) -> Option<(usize, usize)>
        ensures answer { IfSome result (λ answer. IsAnswer self.now range.now answer) }
        ensures rows { IfSome result (λ answer. HoldsRange self.now range.now answer) }
        ensures exact { (answer : ℕ × ℕ) → IsAnswer self.now range.now answer → result ≡ Some answer }
    {
        let pieces = &self.pieces;
        let (first, second) = range.cuts();
        if !is_before(&first, &second) {
            return Some((0, 0));
        }
        settled_places(pieces, &self.pending, range, &first, &second)
    }
}
