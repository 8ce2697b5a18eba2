//! Many rows that leave one piece: a hash index tells where each of them waits.
//!
//! Rows leave in the order in which they stand in the column, which is none. A list kept in order would close
//! up behind each: among 2,000 rows that wait that moves a thousand of them for one.

ghost use Rattle.std.specs.Prelude.{◌≡◌, ◌+◌, ◌-◌, ◌<◌, ◌≤◌, length, replicate, count_by, IfSome};
ghost use Rattle.std.specs.List.{HoldsAt};
ghost use Rattle.crack_kernel.specs.RowBag.{Test};
ghost use Rattle.column_rows.specs.MergeGap.{StandFrom, TakenFrom, blank};
ghost use Rattle.column_rows.specs.GapEffects.{IsWidened};

use crate::deletion_bloom::DeletionBloom;
use crate::gapped_rows::GappedRows;
use crate::pending_lists::PendingList;
use crate::row_hash::hash_of;
use crack_kernel::Row;
use std::alloc::Allocator;

/// How many slots an index has: two for each row that a list has at most.
const SLOTS: usize = 4096;

/// What stands in a slot that no row took.
const EMPTY: u16 = u16::MAX;

/// How many slots are looked at for one row.
const LOOKED_AT: usize = 64;

/// Where rows of a list stand: open addressing by the hash of the row, with linear probing. A slot that a row took
/// stays taken once the row is gone.
///
/// Nothing is promised of what stands in it: a place that it tells is looked at, and a row that it misses is merged later.
#[derive(Drop)]
struct DeletionIndex {
    slots: [u16; SLOTS],
}

impl DeletionIndex {
    /// The index of the rows from the index `from` on.
    fn of<A: Allocator>(list: &[Row<A>], from: usize) -> Self {
        let mut index = DeletionIndex {
            slots: [EMPTY; SLOTS],
        };
        for place in from..list.len() {
            index.put(&list[place], EMPTY, place);
        }
        index
    }

    /// Puts a place into the first slot for the row in which `old` stands.
    fn put<A: Allocator>(&mut self, row: &Row<A>, old: u16, place: usize) {
        let Ok(place) = u16::try_from(place) else {
            return;
        };
        let first = first_slot(row);
        for step in 0..LOOKED_AT {
            let slot = slot_behind(first, step);
            if self.slots[slot] == old {
                self.slots[slot] = place;
                return;
            }
        }
    }

    /// Where a row like `row` stands in the list, from the index `from` on.
    fn find<A: Allocator>(&self, list: &[Row<A>], from: usize, row: &Row<A>) -> Option<usize>
        ensures low { IfSome result (λ i. from ≤ i) }
        ensures within { IfSome result (λ i. i < length list.now) }
        ensures here { IfSome result (λ i. HoldsAt (λ r. r ≡ row.now) list.now i) }
    {
        let first = first_slot(row);
        for step in 0..LOOKED_AT {
            let stands = self.slots[slot_behind(first, step)];
            if stands == EMPTY {
                return None;
            }
            let place = stands as usize;
            if from <= place && place < list.len() && list[place].is_same(row) {
                return Some(place);
            }
        }
        None
    }

    /// Notes that the row that was the last one has come to a place.
    fn follow<A: Allocator>(&mut self, list: &[Row<A>], place: usize) {
        let Ok(last) = u16::try_from(list.len()) else {
            return;
        };
        if place < list.len() {
            self.put(&list[place], last, place);
        }
    }
}

/// The slot at which the search for a row begins.
fn first_slot<A: Allocator>(row: &Row<A>) -> u32
    ensures { result < 4096 }
{
    (hash_of(row) >> 40) as u32 & 0xfff
}

/// A slot some steps behind another.
fn slot_behind(first: u32, step: usize) -> usize
    ensures { result < SLOTS }
{
    (first as usize).wrapping_add(step) % SLOTS
}

/// Takes the row at the place `at`, in the piece above the gap, out of the column, if the index tells that it waits in
/// the list from the index `from` on.
fn take_out_found<A: Allocator + Copy>(
    gapped: &mut GappedRows<A>,
    at: usize,
    deletions: &mut PendingList<A>,
    from: usize,
    index: &mut DeletionIndex,
)
    requires above { gapped.old.high ≤ at }
    requires within { at < length gapped.old.rows.items }
    requires ends { StandFrom gapped.old.pivots.list gapped.old.piece (at + 1) }
    requires from { from ≤ length deletions.old.items }
    ensures widened { IsWidened gapped.old gapped.new }
    ensures high { gapped.new.high ≤ at + 1 }
    ensures content { (p : Test) → count_by p gapped.new.rows.items + count_by p deletions.old.items
        ≡ count_by p gapped.old.rows.items + count_by p deletions.new.items
        + count_by p (replicate (gapped.new.high - gapped.old.high) blank) }
    ensures taken { TakenFrom from deletions.old.items deletions.new.items }
{
    if let Some(found) = index.find(deletions.list(), from, &gapped.rows.list()[at]) {
        let _gone = deletions.swap_remove(found);
        index.follow(deletions.list(), found);
        gapped.blank_out(at);
    }
}

/// Takes rows that wait in the list from the index `from` on out of the piece above the gap, which ends at
/// `end`. Blank rows take their places and join the gap. The rows that go on waiting may stand in another order.
///
/// The filter has these deletions, so that few other rows are looked up.
pub fn take_out_many<A: Allocator + Copy>(
    gapped: &mut GappedRows<A>,
    end: usize,
    deletions: &mut PendingList<A>,
    from: usize,
    filter: &DeletionBloom,
)
    requires above { gapped.old.high ≤ end }
    requires within { end ≤ length gapped.old.rows.items }
    requires ends { StandFrom gapped.old.pivots.list gapped.old.piece end }
    requires from { from ≤ length deletions.old.items }
    ensures widened { IsWidened gapped.old gapped.new }
    ensures high { gapped.new.high ≤ end }
    ensures content { (p : Test) → count_by p gapped.new.rows.items + count_by p deletions.old.items
        ≡ count_by p gapped.old.rows.items + count_by p deletions.new.items
        + count_by p (replicate (gapped.new.high - gapped.old.high) blank) }
    ensures taken { TakenFrom from deletions.old.items deletions.new.items }
{
    let mut index = DeletionIndex::of(deletions.list(), from);
    let mut at = gapped.rows.next_within(gapped.high, end, filter);
    while at < end && deletions.len() > from {
        take_out_found(gapped, at, deletions, from, &mut index);
        at = gapped.rows.next_within(at + 1, end, filter);
    }
}
