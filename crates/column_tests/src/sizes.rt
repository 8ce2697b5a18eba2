//! What a column takes, in a heap that counts it: the memory of rows that left, and of lists that were merged, comes
//! back.

use crate::expectations::expect_that;
use crate::rows::add;
use linked_list_allocator::LocalHeap;
use ripple_column::{Column, MAX_RESERVED};
use score_bounds::{Bound, Range};
use std::alloc::{AllocError, Allocator, Global};
use std::test::Fail;

/// A heap with more memory than the columns here need.
const ROOM: usize = 1 << 20;

const ALL: Range = Range {
    min: Bound::NegInf,
    max: Bound::PosInf,
};

/// A member that takes a block of its own.
const LONG: [u8; 100] = [b'm'; 100];

/// Adds so many rows with scores from 0 on.
fn fill<A: Allocator + Copy>(
    alloc: A,
    column: &mut Column<A>,
    count: u16,
    member: &[u8],
) -> Result<(), AllocError> {
    for score in 0..count {
        add(alloc, column, i64::from(score), member)?;
    }
    Ok(())
}

/// Takes the rows of a range out, and says how many bytes the heap had given before.
fn remove<A: Allocator + Copy>(
    heap: &LocalHeap,
    column: &mut Column<A>,
    min: Bound,
    max: Bound,
) -> Result<usize, AllocError> {
    let range = Range { min, max };
    let (from, to) = column.select(&range)?;
    let used = heap.used();
    column.remove_rows(from, to);
    Ok(used)
}

/// How many rows a window has, and how many come and leave at a turn.
const WINDOW: i64 = 500;

const STEP: i64 = 10;

/// Adds the rows of a turn at the high end, merges them, and takes as many of the oldest out.
fn turn<A: Allocator + Copy>(
    heap: &LocalHeap,
    alloc: A,
    column: &mut Column<A>,
    number: u16,
) -> Result<usize, AllocError> {
    let low = STEP * i64::from(number);
    for score in low..low + STEP {
        add(alloc, column, score, b"m")?;
    }
    column.merge_all()?;
    remove(
        heap,
        column,
        Bound::NegInf,
        Bound::Excl(low + STEP - WINDOW),
    )
}

/// Turns a window so many times.
fn slide<A: Allocator + Copy>(
    heap: &LocalHeap,
    alloc: A,
    column: &mut Column<A>,
    turns: u16,
) -> Result<usize, AllocError> {
    for number in 0..turns {
        turn(heap, alloc, column, number)?;
    }
    Ok(heap.used())
}

/// Removes the rows of a range from 1,000, with members that take blocks of their own.
fn remove_long<A: Allocator + Copy>(
    heap: &LocalHeap,
    alloc: A,
    column: &mut Column<A>,
    min: Bound,
    max: Bound,
) -> Result<usize, AllocError> {
    fill(alloc, column, 1000, &LONG)?;
    column.merge_all()?;
    remove(heap, column, min, max)
}

/// Merges so many rows that wait.
fn merge<A: Allocator + Copy>(
    heap: &LocalHeap,
    alloc: A,
    column: &mut Column<A>,
    rows: u16,
) -> Result<usize, AllocError> {
    fill(alloc, column, rows, b"m")?;
    let used = heap.used();
    column.select(&ALL)?;
    Ok(used)
}

/// Has room for so many rows more to wait, or for as many as a call may ask for.
fn reserve<A: Allocator + Copy>(column: &mut Column<A>, room: u16) -> Result<(), AllocError> {
    column.reserve_write(usize::from(room).min(MAX_RESERVED))
}

/// Gives room back, beside so many rows, for which so many more were to wait.
fn give_room_back<A: Allocator + Copy>(
    heap: &LocalHeap,
    alloc: A,
    column: &mut Column<A>,
    rows: u16,
    room: u16,
) -> Result<usize, AllocError> {
    merge(heap, alloc, column, rows)?;
    reserve(column, room)?;
    let used = heap.used();
    column.give_back_room();
    Ok(used)
}

/// What is done with a new column, and what its heap then has to tell.
enum Work {
    /// A window turns so many times. It takes no more memory.
    Slide(u16),
    /// The rows of a range leave, whose members take so many bytes at the least.
    Remove(Bound, Bound, usize),
    /// So many rows that wait are merged. They take as much in the column as in their list, which keeps nothing.
    Merge(u16),
    /// Room in each list is given back, beside so many rows and for so many; or none is, where it is little or the rows
    /// are many.
    GiveRoomBack(u16, u16, bool),
}

/// Does it, and says how many bytes the heap had given before its last call.
fn work_on<A: Allocator + Copy>(
    heap: &LocalHeap,
    alloc: A,
    column: &mut Column<A>,
    work: &Work,
) -> Result<usize, AllocError> {
    match work {
        Work::Slide(turns) => slide(heap, alloc, column, *turns),
        Work::Remove(min, max, _) => remove_long(heap, alloc, column, *min, *max),
        Work::Merge(rows) => merge(heap, alloc, column, *rows),
        Work::GiveRoomBack(rows, room, _) => give_room_back(heap, alloc, column, *rows, *room),
    }
}

/// Twice what a window takes with its pivots. The rows that came would take as much again, and more.
const ENOUGH: usize = 120_000;

/// Whether a column has so many rows, and its heap has given so many bytes before the last call and behind it, as a
/// work wants. The rows of a window move up in their vector: it holds these, and not all that came. In a list a row
/// takes 32 bytes.
fn is_right(work: &Work, rows: usize, before: usize, after: usize) -> bool {
    let given_back = before.saturating_sub(after);
    match work {
        Work::Slide(_) => rows == 500 && after < ENOUGH,
        Work::Remove(_, _, least) => given_back >= *least,
        Work::Merge(_) => after <= before.saturating_add(before / 4),
        Work::GiveRoomBack(_, room, true) => {
            given_back > 0 && given_back >= usize::from(*room) * 64
        }
        Work::GiveRoomBack(_, _, false) => given_back == 0,
    }
}

fn is_done<A: Allocator + Copy>(
    heap: &LocalHeap,
    alloc: A,
    column: &mut Column<A>,
    work: &Work,
) -> Result<bool, AllocError> {
    let before = work_on(heap, alloc, column, work)?;
    Ok(is_right(work, column.len(), before, heap.used()))
}

fn is_done_anew(heap: &LocalHeap, work: &Work) -> Result<bool, AllocError> {
    let mut column = Column::new(heap);
    let is_done = is_done(heap, heap, &mut column, work);
    drop(column);
    is_done
}

/// The same in a heap of its own.
fn is_done_in_heap(alloc: Global, work: &Work) -> Result<bool, Fail> {
    let heap = LocalHeap::new(alloc, ROOM)?;
    Ok(is_done_anew(&heap, work)?)
}

/// The works: 7,500 rows of a window come; ranges leave at either end of 1,000 rows and between them, of 400 rows each,
/// and one of few rows.
static WORKS: [(&str, Work); 13] = [
    ("a sliding window", Work::Slide(750)),
    (
        "rows at the low end",
        Work::Remove(Bound::NegInf, Bound::Excl(400), 40_000),
    ),
    (
        "rows in the middle",
        Work::Remove(Bound::Incl(300), Bound::Excl(700), 40_000),
    ),
    (
        "rows at the high end",
        Work::Remove(Bound::Incl(600), Bound::PosInf, 40_000),
    ),
    (
        "few rows",
        Work::Remove(Bound::Incl(500), Bound::Excl(510), 1000),
    ),
    ("a list of 10 rows", Work::Merge(10)),
    ("a list of 300 rows", Work::Merge(300)),
    ("a list of 900 rows", Work::Merge(900)),
    ("room beside no rows", Work::GiveRoomBack(0, 50, true)),
    ("room beside 900 rows", Work::GiveRoomBack(900, 300, true)),
    ("little room", Work::GiveRoomBack(10, 16, false)),
    ("room for 17 rows", Work::GiveRoomBack(1023, 17, true)),
    (
        "room beside many rows",
        Work::GiveRoomBack(1024, 300, false),
    ),
];

#[test]
fn memory_comes_back(rt: HostRuntime) -> Result<(), Fail> {
    for (what, work) in &WORKS {
        let is_done = is_done_in_heap(rt.alloc(), work)?;
        expect_that(&rt, is_done, what);
    }
    Ok(())
}
