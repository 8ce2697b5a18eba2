//! The cracking of a slice of rows.

use crate::numbers::Numbers;
use crate::run::Run;
use crack_kernel::{Row, crack_three, crack_two};
use short_bytes::ShortBytes;
use std::alloc::{AllocError, Allocator, Global};
use std::rt::Runtime;
use std::time::Instant;

/// A row with a member of 16 bytes.
pub fn row_of<A: Allocator + Copy>(
    alloc: A,
    number: u32,
    score: i64,
) -> Result<Row<A>, AllocError> {
    let mut member = *b"member-000000000";
    member[12..].copy_from_slice(&number.to_be_bytes());
    Ok(Row::new(score, ShortBytes::from_slice(alloc, &member)?))
}

/// Rows with scores of 31 bits.
fn rows_of<A: Allocator + Copy>(
    alloc: A,
    count: u32,
    numbers: &mut Numbers,
) -> Result<Vec<Row<A>, A>, AllocError> {
    let mut rows = Vec::new(alloc);
    for i in 0..count {
        rows.push(row_of(alloc, i, i64::from(numbers.next()))?)?;
    }
    Ok(rows)
}

/// Cracks rows at a random value.
fn crack_at_one<R: Runtime>(
    rt: &R,
    rows: &mut [Row<Global>],
    run: &Run,
    numbers: &mut Numbers,
) -> anyhow::Result<()> {
    let value = i64::from(numbers.next());
    let start = Instant::now(rt)?;
    let place = crack_two(rows, value);
    run.tell(rt, "two", place, start)
}

/// Cracks rows at two random values.
fn crack_at_two<R: Runtime>(
    rt: &R,
    rows: &mut [Row<Global>],
    run: &Run,
    numbers: &mut Numbers,
) -> anyhow::Result<()> {
    let one = i64::from(numbers.next());
    let other = i64::from(numbers.next());
    let start = Instant::now(rt)?;
    let (from, to) = crack_three(rows, one.min(other), one.max(other));
    run.tell(rt, "three", to - from, start)
}

/// Moves rows into another list and back. The way back, into memory that was used before, is the least that any work on
/// all of them costs.
fn move_back<R: Runtime>(
    rt: &R,
    alloc: Global,
    rows: &mut Vec<Row<Global>>,
    run: &Run,
) -> anyhow::Result<()> {
    let mut moved = Vec::new(alloc);
    moved.append(rows)?;
    let start = Instant::now(rt)?;
    rows.append(&mut moved)?;
    run.tell(rt, "copy", rows.len(), start)
}

/// Cracks rows at a random value, and others at two, and moves these.
pub fn cracks<R: Runtime>(rt: &R, alloc: Global, run: &Run) -> anyhow::Result<()> {
    let mut numbers = Numbers::new(run.seed);
    let mut rows = rows_of(alloc, run.rows, &mut numbers)?;
    crack_at_one(rt, &mut rows, run, &mut numbers)?;
    let mut rows = rows_of(alloc, run.rows, &mut numbers)?;
    crack_at_two(rt, &mut rows, run, &mut numbers)?;
    move_back(rt, alloc, &mut rows, run)
}
