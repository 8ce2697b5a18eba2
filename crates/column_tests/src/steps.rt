//! Steps on a column, of which a test has constant lists.

ghost use Rattle.std.specs.Prelude.{◌<◌, length, OnOk};
ghost use Rattle.ripple_column.specs.Content.{SameContent};
ghost use Rattle.column_tests.specs.Known.{HoldsAll, KeepsOthers};

use crate::expectations::expect_all;
use crate::rows::{
    RISING, Ranges, Scores, add, add_at, add_each, are_parted, count, count_each, sorted_scores,
};
use crack_kernel::Row;
use ripple_column::Column;
use score_bounds::{Bound, Range};
use short_bytes::ShortBytes;
use std::alloc::{AllocError, Global};
use std::process::Abort;

/// What is done with a column, or asked of it.
pub enum Step {
    /// A row is added.
    Add(i64, &'static [u8]),
    /// A row is taken out that a step added, with no range removed since, nor many rows added or ranges selected.
    Take(i64, &'static [u8]),
    /// A range is selected, which has so many rows.
    Count(Bound, Bound, usize),
    /// All that waits is merged.
    Merge,
    /// A window is wanted.
    Narrow(usize, usize),
    /// Rows with these scores are added.
    Rows(Scores),
    /// Ranges are selected, which have so many rows together.
    Ranges(Ranges, usize),
    /// Cuts move on past so many scores, below each of which a row waits.
    MovingCuts(u16),
    /// A range is selected, which has so many rows, and these are removed.
    Remove(Bound, Bound, usize),
    /// The same, and the column has as many inner pivots as before.
    RemoveBesideInner(Bound, Bound, usize),
    /// The column has these pivots, so many rows, and so many insertions and deletions that wait.
    State(&'static [(i64, usize)], usize, (usize, usize)),
    /// The column shows so many pivots.
    Shown(usize),
    /// The column has so many pivots, with the inner ones.
    Pivots(usize),
    /// Whether the column has inner pivots beside those that it shows.
    HasInner(bool),
    /// A pivot stands behind ten rows, and not far behind them.
    ShortEnd,
    /// Every pivot parts the rows, inner ones too.
    Parted,
    /// Each row has this member.
    Members(&'static [u8]),
    /// Each row has a score between these.
    Between(i64, i64),
}

/// Adds a row to a column, and to the list of those that are known to be there.
pub fn add_known(
    alloc: Global,
    column: &mut Column<Global>,
    known: &mut Vec<Row<Global>>,
    score: i64,
    member: &[u8],
) -> Result<(), AllocError>
    requires { HoldsAll column.old known.old.items }
    ensures known { OnOk result (HoldsAll column.new known.new.items) }
    ensures others { OnOk result (KeepsOthers column.old column.new known.old.items known.new.items) }
{
    add(alloc, column, score, member)?;
    known.push(Row::new(score, ShortBytes::from_slice(alloc, member)?))?;
    Ok(())
}

/// Takes a row out of both.
pub fn take_known(
    column: &mut Column<Global>,
    known: &mut Vec<Row<Global>>,
    index: usize,
) -> Result<(), AllocError>
    requires known { HoldsAll column.old known.old.items }
    requires within { index < length known.old.items }
    ensures known { OnOk result (HoldsAll column.new known.new.items) }
    ensures others { OnOk result (KeepsOthers column.old column.new known.old.items known.new.items) }
{
    column.reserve_write(1)?;
    let row = known.swap_remove(index);
    column.delete(row);
    Ok(())
}

// Where the row of a score and a member stands in a list, or how long that is.
fn place_of(rows: &[Row<Global>], score: i64, member: &[u8]) -> usize {
    let mut place = 0usize;
    for row in rows {
        if row.score() == score && row.member() == member {
            return place;
        }
        place = place.saturating_add(1);
    }
    place
}

// Takes such a row out of both, if it is known.
fn is_taken(
    column: &mut Column<Global>,
    known: &mut Vec<Row<Global>>,
    score: i64,
    member: &[u8],
) -> Result<bool, AllocError>
    requires { HoldsAll column.old known.old.items }
    ensures { OnOk result (HoldsAll column.new known.new.items) }
{
    let place = place_of(known.as_slice(), score, member);
    let is_known = place < known.len();
    if is_known {
        take_known(column, known, place)?;
    }
    Ok(is_known)
}

// Selects a range, which has `want` rows, and removes these. Nothing that waits comes or goes.
pub fn is_removed(
    column: &mut Column<Global>,
    min: Bound,
    max: Bound,
    want: usize,
) -> Result<bool, AllocError> {
    let range = Range { min, max };
    let (from, to) = column.select(&range)?;
    let rows = column.len();
    let pending = column.pending();
    column.remove_rows(from, to);
    let is_closed = column.ready(&range) == Some((from, from));
    let is_less = column.len().saturating_add(want) == rows;
    Ok(is_closed && is_less && to - from == want && column.pending() == pending)
}

// Cuts that move on, below each of which a row waits.
fn move_on(alloc: Global, column: &mut Column<Global>, to: u16) -> Result<bool, AllocError> {
    for number in 0..to {
        let score = i64::from(number);
        add(alloc, column, score, b"late")?;
        let range = Range {
            min: Bound::NegInf,
            max: Bound::Incl(score),
        };
        if count(column, &range)? != Some(2 * (usize::from(number) + 1)) {
            return Ok(false);
        }
    }
    Ok(true)
}

// How many pivots there are beside those that are shown.
fn inner_pivots(column: &Column<Global>) -> usize {
    let shown = column.pivot_list().len();
    column.piece_list().len().saturating_sub(shown)
}

// Whether a pivot stands behind ten rows, and not far behind them.
fn has_short_end(pivots: &[(i64, usize)]) -> bool {
    for (_, place) in pivots {
        if *place > 10 && *place < 512 {
            return true;
        }
    }
    false
}

fn have_member(rows: &[Row<Global>], member: &[u8]) -> bool {
    for row in rows {
        if row.member() != member {
            return false;
        }
    }
    true
}

fn are_between(rows: &[Row<Global>], low: i64, high: i64) -> bool {
    for row in rows {
        if row.score() <= low || row.score() >= high {
            return false;
        }
    }
    true
}

fn is_parted(alloc: Global, column: &Column<Global>) -> Result<bool, AllocError> {
    let scores = sorted_scores(alloc, column)?;
    let is_parted = are_parted(&scores, column.piece_list());
    drop(scores);
    Ok(is_parted)
}

fn removes_beside_inner(
    column: &mut Column<Global>,
    min: Bound,
    max: Bound,
    want: usize,
) -> Result<bool, AllocError> {
    let inner = inner_pivots(column);
    Ok(is_removed(column, min, max, want)? && inner_pivots(column) == inner)
}

// Takes a step that changes many rows or pivots.
fn is_done(alloc: Global, column: &mut Column<Global>, step: &Step) -> Result<bool, AllocError> {
    match step {
        Step::Rows(scores) => {
            add_each(alloc, column, scores)?;
            Ok(true)
        }
        Step::Ranges(ranges, want) => Ok(count_each(column, ranges)? == *want),
        Step::MovingCuts(to) => move_on(alloc, column, *to),
        Step::Remove(min, max, want) => is_removed(column, *min, *max, *want),
        Step::RemoveBesideInner(min, max, want) => removes_beside_inner(column, *min, *max, *want),
        _ => Ok(shows(column, step)),
    }
}

// Whether a column is as a step says.
fn shows(column: &Column<Global>, step: &Step) -> bool {
    let rows = column.rows(0, column.len());
    match step {
        Step::State(pivots, len, pending) => {
            column.pivot_list() == *pivots && rows.len() == *len && column.pending() == *pending
        }
        Step::Shown(len) => column.pivot_list().len() == *len,
        Step::Pivots(len) => column.piece_list().len() == *len,
        Step::HasInner(has_inner) => (inner_pivots(column) > 0) == *has_inner,
        Step::ShortEnd => has_short_end(column.piece_list()),
        Step::Members(member) => have_member(rows, member),
        Step::Between(low, high) => are_between(rows, *low, *high),
        _ => false,
    }
}

// Selects a range, and says whether it has so many rows.
fn has_count(
    column: &mut Column<Global>,
    min: Bound,
    max: Bound,
    want: usize,
) -> Result<bool, AllocError>
    ensures { SameContent column.old column.new }
{
    Ok(count(column, &Range { min, max })? == Some(want))
}

// Takes one step, and says whether all is as it tells. Rows are known no more where others come or go with no list.
fn is_right(
    alloc: Global,
    column: &mut Column<Global>,
    known: &mut Vec<Row<Global>>,
    step: &Step,
) -> Result<bool, AllocError>
    requires { HoldsAll column.old known.old.items }
    ensures { OnOk result (HoldsAll column.new known.new.items) }
{
    match step {
        Step::Add(score, member) => {
            add_known(alloc, column, known, *score, member)?;
            Ok(true)
        }
        Step::Take(score, member) => is_taken(column, known, *score, member),
        Step::Count(min, max, want) => has_count(column, *min, *max, *want),
        Step::Merge => {
            column.merge_all()?;
            Ok(true)
        }
        Step::Narrow(from, to) => {
            column.narrow(*from, *to);
            Ok(true)
        }
        Step::Parted => is_parted(alloc, column),
        Step::Rows(_)
        | Step::Ranges(..)
        | Step::MovingCuts(_)
        | Step::Remove(..)
        | Step::RemoveBesideInner(..) => {
            known.clear();
            is_done(alloc, column, step)
        }
        _ => Ok(shows(column, step)),
    }
}

/// Takes steps in turn, and says how many come before one that tells what is not so.
pub fn right_steps(
    alloc: Global,
    column: &mut Column<Global>,
    steps: &[Step],
) -> Result<usize, AllocError> {
    let mut known = Vec::new(alloc);
    let mut count = 0usize;
    for step in steps {
        if !is_right(alloc, column, &mut known, step)? {
            return Ok(count);
        }
        count = count.saturating_add(1);
    }
    Ok(count)
}

// The same with a new column.
fn right_steps_anew(alloc: Global, steps: &[Step]) -> Result<usize, AllocError> {
    let mut column = Column::new(alloc);
    let count = right_steps(alloc, &mut column, steps);
    drop(column);
    count
}

/// Words that tell what becomes of a new column, and the steps that it takes.
pub type Course = (&'static str, &'static [Step]);

/// Each column is as its steps tell.
pub fn expect_courses<R: Abort>(
    rt: &R,
    alloc: Global,
    courses: &[Course],
) -> Result<(), AllocError> {
    for (what, steps) in courses {
        let count = right_steps_anew(alloc, steps)?;
        expect_all(rt, count, steps.len(), what);
    }
    Ok(())
}
