//! The cracking of rows.

ghost use Rattle.std.specs.Prelude.{◌≡◌, ◌≤◌, ◌+◌, ◌≤ℤ◌, length, take, IsPermutation};
ghost use Rattle.std.specs.List.{AllWithin};
ghost use Rattle.crack_kernel.specs.PartedRows.{IsBelow, IsFrom, IsParted, ChangesWithin, Lists};

use crate::crack_from_both_ends::{BLOCK, Ends};
use crate::row::Row;
use std::alloc::Allocator;

/// A slice of fewer rows is cracked from its low end alone.
const BOTH_ENDS_FROM: usize = 512;

/// Puts the rows with a score below `v` before the others, and answers how many they are.
///
/// This is crack-in-two of Database Cracking (CIDR 2007), a block of rows at a time as in BlockQuicksort (Edelkamp and
/// Weiß, ESA 2016): no branch hangs on a score, and rows on the wrong side change places in pairs. It takes no memory.
pub fn crack_two<A: Allocator>(rows: &mut [Row<A>], v: i64) -> usize
    ensures permutation { IsPermutation rows.old rows.new }
    ensures parted { IsParted (IsBelow v) (IsFrom v) rows.new result }
{
    let (from, to) = crack_ends(rows, v);
    from + crack_run(&mut rows[from..to], v)
}

/// Cracks a long slice from both ends, and answers where the few rows between them begin and end that are not yet
/// cracked.
fn crack_ends<A: Allocator>(rows: &mut [Row<A>], v: i64) -> (usize, usize)
    ensures permutation { IsPermutation rows.old rows.new }
    ensures order { (result.0 ≤ result.1) × (result.1 ≤ length rows.new) }
    ensures below { AllWithin (IsBelow v) rows.new 0 result.0 }
    ensures behind { AllWithin (IsFrom v) rows.new result.1 (length rows.new) }
{
    let len = rows.len();
    if len < BOTH_ENDS_FROM {
        return (0, len);
    }
    let mut ends = Ends::of(rows, v);
    while ends.upper.from - ends.lower.to >= 2 * BLOCK {
        ends.find_lower(rows);
        ends.find_upper(rows);
        ends.exchange(rows);
    }
    (ends.lower.from, ends.upper.to)
}

/// Cracks a slice from its low end, with one swap for each row below.
fn crack_run<A: Allocator>(rows: &mut [Row<A>], v: i64) -> usize
    ensures permutation { IsPermutation rows.old rows.new }
    ensures parted { IsParted (IsBelow v) (IsFrom v) rows.new result }
{
    let len = rows.len();
    let mut found = [0; BLOCK];
    let mut place = 0;
    let mut from = 0;
    while from < len {
        let to = from + BLOCK.min(len - from);
        place = crack_block(rows, place, from, to, v, &mut found);
        from = to;
    }
    place
}

/// Cracks a block of rows behind others that are cracked at `place`, and answers the new place.
fn crack_block<A: Allocator>(
    rows: &mut [Row<A>],
    place: usize,
    from: usize,
    to: usize,
    v: i64,
    found: &mut [usize; BLOCK],
) -> usize
    requires order { (place ≤ from) × (from ≤ to) }
    requires within { to ≤ length rows.old }
    requires room { to ≤ from + BLOCK }
    requires below { AllWithin (IsBelow v) rows.old 0 place }
    requires behind { AllWithin (IsFrom v) rows.old place from }
    ensures permutation { IsPermutation rows.old rows.new }
    ensures order { result ≤ to }
    ensures below { AllWithin (IsBelow v) rows.new 0 result }
    ensures behind { AllWithin (IsFrom v) rows.new result to }
{
    let count = find_below(rows, from, to, v, found);
    let mut next = place;
    for i in 0..count {
        rows.swap(next, found[i]);
        next += 1;
    }
    next
}

/// Finds the rows with a score below `v` among those of a block. Their places come first in `found`, and the answer is
/// how many they are.
fn find_below<A: Allocator>(
    rows: &[Row<A>],
    from: usize,
    to: usize,
    v: i64,
    found: &mut [usize; BLOCK],
) -> usize
    requires order { from ≤ to }
    requires within { to ≤ length rows.now }
    requires room { to ≤ from + BLOCK }
    ensures few { result ≤ BLOCK }
    ensures found { Lists (IsBelow v) (IsFrom v) rows.now (take result found.new) from to }
{
    // Each place is written, whatever the row's score, and the score only moves the count: a write under a condition
    // would be a branch that no processor can foretell.
    let mut count = 0;
    for i in from..to {
        let below = rows[i].score() < v;
        found[count] = i;
        if below {
            count += 1;
        }
    }
    count
}

/// Puts the rows with a score below `v` first and those from `w` on last, and answers where the
/// rows between them begin and where they end.
///
/// This is crack-in-three of Database Cracking (CIDR 2007), as two runs of [`crack_two`], of which
/// the second sees the rows that the first left behind. It takes no memory.
pub fn crack_three<A: Allocator>(rows: &mut [Row<A>], v: i64, w: i64) -> (usize, usize)
    requires { v ≤ℤ w }
    ensures permutation { IsPermutation rows.old rows.new }
    ensures order { result.0 ≤ result.1 }
    ensures first { IsParted (IsBelow v) (IsFrom v) rows.new result.0 }
    ensures second { IsParted (IsBelow w) (IsFrom w) rows.new result.1 }
{
    let from = crack_two(rows, v);
    let len = rows.len();
    let to = crack_piece(rows, from, len, w);
    (from, to)
}

/// Cracks the rows from the place `from` on and before the place `to` by [`crack_two`], and answers
/// the place in the whole slice. The other rows stay where they are.
pub fn crack_piece<A: Allocator>(rows: &mut [Row<A>], from: usize, to: usize, v: i64) -> usize
    requires order { from ≤ to }
    requires within { to ≤ length rows.old }
    ensures permutation { IsPermutation rows.old rows.new }
    ensures changes { ChangesWithin from to rows.old rows.new }
    ensures low { from ≤ result }
    ensures high { result ≤ to }
    ensures before { AllWithin (IsBelow v) rows.new from result }
    ensures behind { AllWithin (IsFrom v) rows.new result to }
{
    from + crack_two(&mut rows[from..to], v)
}
