//! The least pairs of a long piece, found without a copy of the piece.
ghost use Rattle.std.specs.Prelude.{◌≡◌, ◌<◌, ◌++◌, ◌∷◌, [], true, false, List, slice_index_or, IfOk, OnOk};
ghost use Rattle.std.specs.BinaryHeap.{IsHeap, IsUpperBound, heap_items, heap_len};
ghost use Rattle.std.specs.Ordering.{is_lt};
ghost use Rattle.sorted_sets.specs.BorrowedListingPairs.{pair_of, pairs_of, shown_cmp};
ghost use Rattle.zset_core.specs.SortedSet.{Pair};
ghost use Rattle.sorted_sets.specs.WindowPieces.{HasLeast};

use crack_kernel::Row;
use std::alloc::{AllocError, Allocator};
use std::collections::BinaryHeap;

/// The `count` least pairs of rows, or all where they are fewer, in no order. No more pairs than
/// these are held at a time.
pub fn least_pairs<'a, A: Allocator + Copy>(
    alloc: A,
    rows: &'a [Row<A>],
    count: usize,
) -> Result<Vec<(i64, &'a [u8]), A>, AllocError>
    ensures { IfOk result (λ least. HasLeast rows.now count (pairs_of least.items)) }
{
    let mut least = BinaryHeap::with_capacity(alloc, count)?;
    for row in rows {
        keep_least(&mut least, count, (row.score(), row.member()))?;
    }
    Ok(least.into_vec())
}

// One more pair comes: it is kept if it is one of the `count` least, then in the place of the
// greatest that is kept.
fn keep_least<'a, A: Allocator + Copy>(
    least: &mut BinaryHeap<(i64, &'a [u8]), A>,
    count: usize,
    pair: (i64, &'a [u8]),
) -> Result<(), AllocError>
    requires { IsHeap shown_cmp (heap_items least.old) }
    ensures heap { OnOk result (IsHeap shown_cmp (heap_items least.new)) }
    ensures least { OnOk result ((all : List Pair) → HasLeast all count (pairs_of (heap_items least.old))
        → HasLeast (all ++ pair_of pair.entry ∷ []) count (pairs_of (heap_items least.new))) }
{
    if least.as_slice().len() < count {
        least.push(pair)?;
        return Ok(());
    }
    if is_below_greatest(least, pair) {
        match least.pop() {
            None => unreachable!(),
            Some(_) => least.push(pair)?,
        }
    }
    Ok(())
}

// Whether the pair stands before the greatest that is kept.
fn is_below_greatest<'a, A: Allocator + Copy>(
    least: &BinaryHeap<(i64, &'a [u8]), A>,
    pair: (i64, &'a [u8]),
) -> bool
    requires { IsHeap shown_cmp (heap_items least.now) }
    ensures some { result ≡ true → 0 < heap_len least.now }
    ensures under { result ≡ true → is_lt (shown_cmp pair.entry
        (slice_index_or (heap_items least.now) 0 pair.entry)) ≡ true }
    ensures over { result ≡ false → IsUpperBound shown_cmp pair.entry (heap_items least.now) }
{
    match least.peek() {
        None => false,
        Some(greatest) => pair.cmp(greatest).is_lt(),
    }
}
