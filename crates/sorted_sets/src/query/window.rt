//! Windows of a listing: which ranks LIMIT asks for, and the rows that stand there.
ghost use Rattle.std.specs.Prelude.{◌≡◌, ◌+◌, ◌≤◌, ℕ, ℤ, List, length, take, drop, slice_range, IfOk, IsSome, IsTrue, OnErr, OnOk};
ghost use Rattle.std.specs.List.Sorted.{IsNonDecreasingBy, IsSorted};
ghost use Rattle.ripple_column.specs.Content.{IsUnchanged, SameContent};
ghost use Rattle.ripple_column.specs.RangeAnswer.{HoldsRange, IsAnswer};
ghost use Rattle.sorted_sets.specs.CommandEffectsOnColumn.{SelectsListed};
ghost use Rattle.zset_core.specs.SortedSet.{Pair};
ghost use Rattle.zset_core.specs.Semantics.{from_offset, at_most, apply_limit};
ghost use Rattle.sorted_sets.specs.BorrowedListingPairs.{pairs_of, shown_cmp};
ghost use Rattle.sorted_sets.specs.WindowPieces.{HasLeast, IsPart, IsPieceStart, IsPieceEnd};

use crate::query::least_pairs::least_pairs;
use crack_kernel::Row;
use ripple_column::Column;
use score_bounds::Range;
use std::alloc::{AllocError, Allocator};
use zset_commands::Limit;

/// A piece of more rows than these is long.
const LONG_PIECE: usize = 128;

/// How many of `len` pairs a number of LIMIT speaks of: all of them where it is negative.
fn limit_number(number: i64, len: usize) -> usize
    ensures within { result ≤ len }
    ensures offset { (ps : List Pair) → length ps ≡ len → from_offset number ps ≡ drop result ps }
    ensures count { (ps : List Pair) → length ps ≡ len → at_most number ps ≡ take result ps }
{
    if number < 0 {
        return len;
    }
    len.min(number as usize)
}

/// The ranks that LIMIT asks for in a listing of `len` pairs: from the first on and before the
/// second. All of them without it.
pub fn ranks_of(limit: &Option<Limit>, len: usize) -> (usize, usize)
    ensures order { result.0 ≤ result.1 }
    ensures within { result.1 ≤ len }
    ensures ranks { (ps : List Pair) → length ps ≡ len → apply_limit limit.now ps
        ≡ slice_range ps result.0 result.1 }
{
    match limit {
        None => (0, len),
        Some(limit) => {
            let start = limit_number(limit.offset, len);
            let end = start + limit_number(limit.count, len - start);
            (start, end)
        }
    }
}

/// Where the rows of a range stand that is to be listed. With LIMIT the pieces around the window that it asks for are
/// made short: to list that window then reads few rows.
pub fn select_listed<A: Allocator + Copy>(
    column: &mut Column<A>,
    range: &Range,
    limit: &Option<Limit>,
) -> Result<(usize, usize), AllocError>
    ensures content { SameContent column.old column.new }
    ensures answer { IfOk result (λ answer. IsAnswer column.new range.now answer) }
    ensures rows { IfOk result (λ answer. HoldsRange column.new range.now answer) }
    ensures listed { OnOk result (SelectsListed limit.now range.now column.old column.new) }
    ensures refused { OnErr result (IsUnchanged column.old column.new) }
{
    let (from, to) = column.select(range)?;
    if limit.is_some() && from < to {
        let (start, end) = ranks_of(limit, to - from);
        column.narrow(from + start, from + end);
    }
    Ok((from, to))
}

/// Whether the pieces around the window that LIMIT asks for among the rows at these places are longer than
/// `select_listed` would leave them.
pub fn is_wide<A: Allocator + Copy>(
    column: &Column<A>,
    rows: (usize, usize),
    limit: &Option<Limit>,
) -> bool
    requires { rows.0 ≤ rows.1 }
    ensures { IsTrue result → IsSome limit.now }
{
    let (from, to) = rows;
    if limit.is_none() {
        return false;
    }
    let (start, end) = ranks_of(limit, to - from);
    column.is_wide(from + start, from + end)
}

/// The greatest place of a pivot that is at most `first`, or `from` where no such place is greater.
pub fn piece_start(pivots: &[(i64, usize)], from: usize, first: usize) -> usize
    requires rising { IsNonDecreasingBy (λ (p : ℤ × ℕ). p.1) pivots.now }
    requires order { from ≤ first }
    ensures { IsPieceStart pivots.now from first result }
{
    let count = pivots.partition_point(|pivot| pivot.1 <= first);
    if count == 0 {
        return from;
    }
    from.max(pivots[count - 1].1)
}

/// The least place of a pivot that is at least `last`, or `to` where no such place is less.
pub fn piece_end(pivots: &[(i64, usize)], to: usize, last: usize) -> usize
    requires rising { IsNonDecreasingBy (λ (p : ℤ × ℕ). p.1) pivots.now }
    requires order { last ≤ to }
    ensures { IsPieceEnd pivots.now to last result }
{
    let count = pivots.partition_point(|pivot| pivot.1 < last);
    if count == pivots.len() {
        return to;
    }
    to.min(pivots[count].1)
}

/// The scores and the members of the least rows of a piece where they stand, in no order: at least
/// `count` of them. Of a long piece only `count` are held where that is an eighth of it at most.
pub fn least_rows<'a, A: Allocator + Copy>(
    alloc: A,
    rows: &'a [Row<A>],
    count: usize,
) -> Result<Vec<(i64, &'a [u8]), A>, AllocError>
    requires { count ≤ length rows.now }
    ensures least { IfOk result (λ shown. HasLeast rows.now (length shown.items)
        (pairs_of shown.items)) }
    ensures enough { IfOk result (λ shown. count ≤ length shown.items) }
{
    if rows.len() > LONG_PIECE && count <= rows.len() / 8 {
        return least_pairs(alloc, rows, count);
    }
    shown_rows(alloc, rows)
}

/// The scores and the members of rows, where they stand.
fn shown_rows<'a, A: Allocator + Copy>(
    alloc: A,
    rows: &'a [Row<A>],
) -> Result<Vec<(i64, &'a [u8]), A>, AllocError>
    ensures { IfOk result (λ shown. pairs_of shown.items ≡ rows.now) }
{
    let mut shown = Vec::with_capacity(alloc, rows.len())?;
    for row in rows {
        shown.push((row.score(), row.member()))?;
    }
    Ok(shown)
}

/// The pairs of the ranks before `end` in a listing, in no order.
fn low_ranks<'a, 'b>(shown: &'b mut [(i64, &'a [u8])], end: usize) -> &'b mut [(i64, &'a [u8])]
    requires { end ≤ length shown.old }
    ensures { IsPart (pairs_of shown.old) 0 end (pairs_of result.now) }
{
    if end == shown.len() {
        return shown;
    }
    let (low, _, _) = shown.select_nth_unstable(end);
    low
}

/// The pairs of the ranks from `start` on in a listing, in no order.
fn high_ranks<'a, 'b>(shown: &'b mut [(i64, &'a [u8])], start: usize) -> &'b mut [(i64, &'a [u8])]
    requires { start ≤ length shown.old }
    ensures { IsPart (pairs_of shown.old) start (length shown.old) (pairs_of result.now) }
{
    if start == 0 {
        return shown;
    }
    let (_, _, high) = shown.select_nth_unstable(start - 1);
    high
}

/// The pairs of the ranks from `start` on and before `end`, in the order of a listing. Only they
/// are put in order.
pub fn window_of<'a, 'b>(
    shown: &'b mut [(i64, &'a [u8])],
    start: usize,
    end: usize,
) -> &'b [(i64, &'a [u8])]
    requires order { start ≤ end }
    requires within { end ≤ length shown.old }
    ensures part { IsPart (pairs_of shown.old) start end (pairs_of result.now) }
    ensures sorted { IsSorted shown_cmp result.now }
{
    let window = high_ranks(low_ranks(shown, end), start);
    window.sort_unstable();
    window
}
