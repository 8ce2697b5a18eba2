//! Ripple insertion and ripple deletion: a row comes into its piece, or goes out of it, and each
//! piece above passes one row from its one end to the other.
//!
//! The row is carried by swaps, so that all rows are there at each step. The pivots are shifted
//! once, at the end.

ghost use Rattle.std.specs.Prelude.{◌≡◌, ◌-◌, ◌<◌, ◌≤◌, ◌++◌, ◌∷◌, [], length, Contains, IsPermutation, vec_len, vec_capacity};
ghost use Rattle.std.specs.List.{HoldsAt};
ghost use Rattle.crack_kernel.specs.PivotList.{ObeysPivots};
ghost use Rattle.column_rows.specs.StandsWithin.{StandsWithin};
ghost use Rattle.column_rows.specs.MergeEffects.{KeepsFrame};

use column_rows::Rows;
use crack_kernel::{Pivots, Row};
use std::alloc::Allocator;

/// Puts `row` into its piece. Each piece above passes its first row behind its last.
pub fn ripple_insert<A: Allocator>(rows: &mut Rows<A>, pivots: &mut Pivots<A>, row: Row<A>)
    requires law { ObeysPivots pivots.old.list rows.old.items }
    requires room { vec_len rows.old < vec_capacity rows.old }
    ensures rows { IsPermutation (rows.old.items ++ row ∷ []) rows.new.items }
    ensures law { ObeysPivots pivots.new.list rows.new.items }
    ensures frame { KeepsFrame rows.old pivots.old rows.new pivots.new }
{
    let above = pivots.len() - pivots.count_upto(row.score());
    rows.expect_moves(above, pivots.len());
    carry_in(rows, pivots, row);
}

/// Puts `row` behind all others and carries it into its piece.
fn carry_in<A: Allocator>(rows: &mut Rows<A>, pivots: &mut Pivots<A>, row: Row<A>)
    requires law { ObeysPivots pivots.old.list rows.old.items }
    requires room { vec_len rows.old < vec_capacity rows.old }
    ensures rows { IsPermutation (rows.old.items ++ row ∷ []) rows.new.items }
    ensures law { ObeysPivots pivots.new.list rows.new.items }
    ensures frame { KeepsFrame rows.old pivots.old rows.new pivots.new }
{
    let first = pivots.count_upto(row.score());
    let mut hole = rows.len();
    rows.push_reserved(row);
    let list = pivots.list();
    let mut i = list.len();
    while i > first {
        i -= 1;
        let place = list[i].1;
        rows.swap(place, hole);
        hole = place;
    }
    pivots.shift(first, true);
}

/// Takes `row` out of its piece, and gives it back. Each piece above passes its last row to the
/// place before its first.
pub fn ripple_remove<A: Allocator>(
    rows: &mut Rows<A>,
    pivots: &mut Pivots<A>,
    row: &Row<A>,
) -> Row<A>
    requires law { ObeysPivots pivots.old.list rows.old.items }
    requires there { Contains rows.old.items row.now }
    ensures gone { result ≡ row.now }
    ensures rows { IsPermutation rows.old.items (rows.new.items ++ row.now ∷ []) }
    ensures law { ObeysPivots pivots.new.list rows.new.items }
    ensures frame { KeepsFrame rows.old pivots.old rows.new pivots.new }
{
    let first = pivots.count_upto(row.score());
    rows.expect_moves(pivots.len() - first, pivots.len());
    let (from, to) = pivots.piece_at(first, rows.len());
    let likely = rows.find_between(from, to.min(rows.len()), row);
    carry_out(rows, pivots, row, likely)
}

/// Takes `row`, which likely stands at a place, out of its piece, and gives it back.
fn carry_out<A: Allocator>(
    rows: &mut Rows<A>,
    pivots: &mut Pivots<A>,
    row: &Row<A>,
    likely: usize,
) -> Row<A>
    requires law { ObeysPivots pivots.old.list rows.old.items }
    requires there { Contains rows.old.items row.now }
    ensures gone { result ≡ row.now }
    ensures rows { IsPermutation rows.old.items (rows.new.items ++ row.now ∷ []) }
    ensures law { ObeysPivots pivots.new.list rows.new.items }
    ensures frame { KeepsFrame rows.old pivots.old rows.new pivots.new }
{
    let list = pivots.list();
    let first = pivots.count_upto(row.score());
    let (from, to) = pivots.piece_at(first, rows.len());
    let at = place_between(rows.list(), likely, from, to, row);
    let mut hole = to - 1;
    rows.swap(hole, at);
    let mut i = first;
    while i < list.len() {
        i += 1;
        let (_, end) = pivots.piece_at(i, rows.len());
        rows.swap(end - 1, hole);
        hole = end - 1;
    }
    pivots.shift(first, false);
    match rows.pop() {
        Some(gone) => gone,
        None => unreachable!(),
    }
}

/// A place from `from` on, and before `to`, at which `row` stands: the one where it likely does, or the
/// first.
fn place_between<A: Allocator>(
    rows: &[Row<A>],
    likely: usize,
    from: usize,
    to: usize,
    row: &Row<A>,
) -> usize
    requires there { StandsWithin row.now rows.now from to }
    requires within { to ≤ length rows.now }
    ensures low { from ≤ result }
    ensures high { result < to }
    ensures here { HoldsAt (λ r. r ≡ row.now) rows.now result }
{
    if from <= likely && likely < to && rows[likely].is_same(row) {
        likely
    } else {
        first_between(rows, from, to, row)
    }
}

/// The first place from `from` on, and before `to`, at which `row` stands.
fn first_between<A: Allocator>(rows: &[Row<A>], from: usize, to: usize, row: &Row<A>) -> usize
    requires there { StandsWithin row.now rows.now from to }
    requires within { to ≤ length rows.now }
    ensures low { from ≤ result }
    ensures high { result < to }
    ensures here { HoldsAt (λ r. r ≡ row.now) rows.now result }
{
    for at in from..to {
        let found = &rows[at];
        if found.is_same(row) {
            return at;
        }
    }
    unreachable!()
}
