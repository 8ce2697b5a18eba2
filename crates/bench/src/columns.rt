//! The work of a column: rows change, and ranges are selected.

ghost use Rattle.std.specs.Prelude.{◌≡◌, ◌<◌, length, IfOk, OnOk};
ghost use Rattle.ripple_column.specs.Content.{Holds, SameContent};

use crate::cracks::row_of;
use crate::numbers::Numbers;
use crate::run::Run;
use crack_kernel::Row;
use ripple_column::Column;
use score_bounds::{Bound, Range};
use short_bytes::ShortBytes;
use std::alloc::{AllocError, Allocator, Global};
use std::rt::Runtime;
use std::time::Instant;

/// How many rows change in each work.
const UPDATES: u32 = 4000;

/// A hundredth of the scores.
const WIDTH: i64 = 21474836;

/// The row of the same member with another score.
fn with_score<A: Allocator + Copy>(alloc: A, row: &Row<A>, score: i64) -> Result<Row<A>, AllocError>
    ensures { IfOk result (λ r. r ≡ (score, row.now.1)) }
{
    Ok(Row::new(score, ShortBytes::from_slice(alloc, row.member())?))
}

/// Adds `count` rows to the column and to the list of the rows that it holds.
fn fill<A: Allocator + Copy>(
    alloc: A,
    column: &mut Column<A>,
    held: &mut Vec<Row<A>, A>,
    count: u32,
    numbers: &mut Numbers,
) -> Result<(), AllocError>
    requires { Holds column.old held.old.items }
    ensures { OnOk result (Holds column.new held.new.items) }
{
    for i in 0..count {
        let row = row_of(alloc, i, i64::from(numbers.next()))?;
        let copy = with_score(alloc, &row, row.score())?;
        column.reserve_write(1)?;
        column.insert(row);
        held.push(copy)?;
    }
    column.merge_all()
}

/// Gives the row at `index` of those held another score: a deletion and an insertion.
fn change<A: Allocator + Copy>(
    alloc: A,
    column: &mut Column<A>,
    held: &mut Vec<Row<A>, A>,
    index: usize,
    score: i64,
) -> Result<(), AllocError>
    requires holds { Holds column.old held.old.items }
    requires within { index < length held.old.items }
    ensures holds { OnOk result (Holds column.new held.new.items) }
    ensures len { length held.new.items ≡ length held.old.items }
{
    let row = &held[index];
    let old = with_score(alloc, row, row.score())?;
    let new = with_score(alloc, row, score)?;
    let copy = with_score(alloc, row, score)?;
    column.reserve_write(1)?;
    column.delete(old);
    column.insert(new);
    held[index] = copy;
    Ok(())
}

/// Gives `count` random rows random scores.
fn update<A: Allocator + Copy>(
    alloc: A,
    column: &mut Column<A>,
    held: &mut Vec<Row<A>, A>,
    count: u32,
    numbers: &mut Numbers,
) -> Result<(), AllocError>
    requires { Holds column.old held.old.items }
    ensures { OnOk result (Holds column.new held.new.items) }
{
    for _ in 0..count {
        let index = numbers.next() as usize;
        let score = i64::from(numbers.next());
        if !held.is_empty() {
            let len = held.len();
            change(alloc, column, held, index % len, score)?;
        }
    }
    Ok(())
}

/// How many rows have scores in a random hundredth of the scores.
fn count_some<A: Allocator + Copy>(
    column: &mut Column<A>,
    numbers: &mut Numbers,
) -> Result<usize, AllocError>
    ensures { SameContent column.old column.new }
{
    let low = i64::from(numbers.next());
    let range = Range {
        min: Bound::Incl(low),
        max: Bound::Excl(low + WIDTH),
    };
    let (from, to) = column.select(&range)?;
    Ok(to - from)
}

/// Counts `times` random ranges, of which each leaves two pivots.
fn settle<A: Allocator + Copy>(
    column: &mut Column<A>,
    times: u32,
    numbers: &mut Numbers,
) -> Result<(), AllocError>
    ensures { SameContent column.old column.new }
{
    for _ in 0..times {
        count_some(column, numbers)?;
    }
    Ok(())
}

/// How a column is changed and merged: after how many ranges were selected, how many rows change
/// before each merge, and how many merges there are.
#[derive(Clone, Copy, Debug)]
pub struct Merges {
    pub ranges: u32,
    pub updates: u32,
    pub times: u32,
}

/// A column, the rows that it holds, and the numbers that change both.
#[derive(Drop)]
struct Driven {
    column: Column<Global>,
    held: Vec<Row<Global>>,
    numbers: Numbers,
}

impl Driven {
    fn new(alloc: Global, seed: u64) -> Self
        ensures { Holds result.column result.held.items }
    {
        Driven {
            column: Column::new(alloc),
            held: Vec::new(alloc),
            numbers: Numbers::new(seed),
        }
    }

    /// Adds so many rows, and counts so many ranges.
    fn begin(&mut self, alloc: Global, rows: u32, ranges: u32) -> Result<(), AllocError>
        requires { Holds self.old.column self.old.held.items }
        ensures { OnOk result (Holds self.new.column self.new.held.items) }
    {
        fill(
            alloc,
            &mut self.column,
            &mut self.held,
            rows,
            &mut self.numbers,
        )?;
        settle(&mut self.column, ranges, &mut self.numbers)
    }

    /// Gives so many random rows random scores.
    fn update(&mut self, alloc: Global, count: u32) -> Result<(), AllocError>
        requires { Holds self.old.column self.old.held.items }
        ensures { OnOk result (Holds self.new.column self.new.held.items) }
    {
        update(
            alloc,
            &mut self.column,
            &mut self.held,
            count,
            &mut self.numbers,
        )
    }

    /// Changes rows and merges all, as often as is told.
    fn merge_often(&mut self, alloc: Global, merges: &Merges) -> Result<(), AllocError>
        requires { Holds self.old.column self.old.held.items }
    {
        for _ in 0..merges.times {
            self.update(alloc, merges.updates)?;
            self.column.merge_all()?;
        }
        Ok(())
    }

    /// Changes 1,000 rows and counts a range, ten times: how many rows the ranges had.
    fn count_often(&mut self, alloc: Global) -> Result<usize, AllocError>
        requires { Holds self.old.column self.old.held.items }
    {
        let mut found = 0usize;
        for _ in 0..10u8 {
            self.update(alloc, 1000)?;
            found = found.wrapping_add(count_some(&mut self.column, &mut self.numbers)?);
        }
        Ok(found)
    }
}

/// Changes rows of a column without pivots, and merges all.
pub fn plain<R: Runtime>(rt: &R, alloc: Global, run: &Run) -> anyhow::Result<()> {
    merge_as(rt, alloc, run, "plain", &all_at_once(0))
}

/// The same with 4,096 pivots.
pub fn with_pivots<R: Runtime>(rt: &R, alloc: Global, run: &Run) -> anyhow::Result<()> {
    merge_as(rt, alloc, run, "pivots", &all_at_once(2048))
}

/// One merge of all that changes, after so many ranges.
fn all_at_once(ranges: u32) -> Merges {
    Merges {
        ranges,
        updates: UPDATES,
        times: 1,
    }
}

/// Changes rows of a column and merges them, as often as is told.
pub fn merge<R: Runtime>(rt: &R, alloc: Global, run: &Run, merges: &Merges) -> anyhow::Result<()> {
    merge_as(rt, alloc, run, "merge", merges)
}

/// The same under a name.
fn merge_as<R: Runtime>(
    rt: &R,
    alloc: Global,
    run: &Run,
    name: &str,
    merges: &Merges,
) -> anyhow::Result<()> {
    let mut driven = Driven::new(alloc, run.seed);
    time_merges(rt, alloc, &mut driven, run, name, merges)
}

/// Fills a column, and tells how long its changes and merges took.
fn time_merges<R: Runtime>(
    rt: &R,
    alloc: Global,
    driven: &mut Driven,
    run: &Run,
    name: &str,
    merges: &Merges,
) -> anyhow::Result<()>
    requires { Holds driven.old.column driven.old.held.items }
{
    driven.begin(alloc, run.rows, merges.ranges)?;
    let start = Instant::now(rt)?;
    driven.merge_often(alloc, merges)?;
    run.tell(rt, name, driven.column.len(), start)
}

/// Changes 1,000 rows and counts a range, ten times, after 100 ranges were selected.
pub fn settled<R: Runtime>(rt: &R, alloc: Global, run: &Run) -> anyhow::Result<()> {
    let mut driven = Driven::new(alloc, run.seed);
    time_counts(rt, alloc, &mut driven, run)
}

/// Fills a column, and tells how long its changes and counts took.
fn time_counts<R: Runtime>(
    rt: &R,
    alloc: Global,
    driven: &mut Driven,
    run: &Run,
) -> anyhow::Result<()>
    requires { Holds driven.old.column driven.old.held.items }
{
    driven.begin(alloc, run.rows, 100)?;
    let start = Instant::now(rt)?;
    let found = driven.count_often(alloc)?;
    run.tell(rt, "settled", found, start)
}
