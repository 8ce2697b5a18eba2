//! Rows with scores equally far apart, ranges that begin at such scores or are all below them, and what then stands in
//! a column.

ghost use Rattle.std.specs.Prelude.{◌≡◌, ◌+◌, ◌≤◌, ◌∷◌, [], count_by, OnOk};
ghost use Rattle.crack_kernel.specs.RowBag.{Test};
ghost use Rattle.ripple_column.specs.Content.{SameContent, content_count};

use crack_kernel::Row;
use ripple_column::Column;
use score_bounds::{Bound, Range};
use short_bytes::ShortBytes;
use std::alloc::{AllocError, Allocator, Global};

/// So many scores, each as far from the next, from a first one on. Where the stride is not 1 they are taken in another
/// order: it has no divisor in common with their number.
#[derive(Clone, Copy)]
pub struct Scores {
    pub count: u16,
    pub first: i64,
    pub apart: i64,
    pub stride: u16,
}

/// The scores from 0 on.
pub const RISING: Scores = Scores {
    count: u16::MAX,
    first: 0,
    apart: 1,
    stride: 1,
};

impl Scores {
    /// The score that is taken behind so many others.
    pub fn at(&self, number: u16) -> i64 {
        let steps = u32::from(number).wrapping_mul(u32::from(self.stride));
        let place = steps.checked_rem(u32::from(self.count)).unwrap_or(0);
        let distance = self.apart.saturating_mul(i64::from(place));
        self.first.saturating_add(distance)
    }
}

/// Ranges of a width from such scores on, or of all that is below such scores.
#[derive(Clone, Copy)]
pub struct Ranges {
    pub from: Scores,
    pub width: Option<i64>,
}

impl Ranges {
    fn at(&self, number: u16) -> Range {
        let low = self.from.at(number);
        match self.width {
            None => Range {
                min: Bound::NegInf,
                max: Bound::Excl(low),
            },
            Some(width) => Range {
                min: Bound::Incl(low),
                max: Bound::Excl(low.saturating_add(width)),
            },
        }
    }
}

/// Adds a row.
pub fn add<A: Allocator + Copy>(
    alloc: A,
    column: &mut Column<A>,
    score: i64,
    member: &[u8],
) -> Result<(), AllocError>
    ensures { OnOk result ((p : Test) → content_count p column.new
        ≡ content_count p column.old + count_by p ((score, member.now) ∷ [])) }
{
    let row = Row::new(score, ShortBytes::from_slice(alloc, member)?);
    column.reserve_write(1)?;
    column.insert(row);
    Ok(())
}

/// The member of a row among others is told by its number. Of three members one takes a block of its own.
fn name_of(number: u16) -> [u8; 40] {
    let mut name = [b'm'; 40];
    name[..2].copy_from_slice(&number.to_be_bytes());
    name
}

fn name_length(number: u16) -> usize
    ensures { result ≤ 40 }
{
    if number % 3 == 0 { 40 } else { 2 }
}

/// Adds the row of such a score.
pub fn add_at<A: Allocator + Copy>(
    alloc: A,
    column: &mut Column<A>,
    scores: &Scores,
    number: u16,
) -> Result<(), AllocError> {
    let name = name_of(number);
    let member = &name[..name_length(number)];
    add(alloc, column, scores.at(number), member)
}

/// Adds a row of each score.
pub fn add_each<A: Allocator + Copy>(
    alloc: A,
    column: &mut Column<A>,
    scores: &Scores,
) -> Result<(), AllocError> {
    for number in 0..scores.count {
        add_at(alloc, column, scores, number)?;
    }
    Ok(())
}

/// Selects a range, and says how many rows it has; `None` where the column then has another answer as it stands.
pub fn count<A: Allocator + Copy>(
    column: &mut Column<A>,
    range: &Range,
) -> Result<Option<usize>, AllocError>
    ensures { SameContent column.old column.new }
{
    let (from, to) = column.select(range)?;
    let is_ready = column.ready(range) == Some((from, to));
    Ok(if is_ready { Some(to - from) } else { None })
}

/// Selects each range, and says how many rows they have together: 2^64 - 1 where the column does not have the same
/// answer then.
pub fn count_each<A: Allocator + Copy>(
    column: &mut Column<A>,
    ranges: &Ranges,
) -> Result<usize, AllocError>
    ensures { SameContent column.old column.new }
{
    let mut rows = 0usize;
    for number in 0..ranges.from.count {
        let in_range = count(column, &ranges.at(number))?;
        rows = rows.saturating_add(in_range.unwrap_or(usize::MAX));
    }
    Ok(rows)
}

// The scores of rows, in the order of these.
fn scores_of<A: Allocator>(alloc: Global, rows: &[Row<A>]) -> Result<Vec<i64>, AllocError> {
    let mut scores = Vec::new(alloc);
    for row in rows {
        scores.push(row.score())?;
    }
    Ok(scores)
}

/// The scores of a column's rows, in order.
pub fn sorted_scores<A: Allocator + Copy>(
    alloc: Global,
    column: &Column<A>,
) -> Result<Vec<i64>, AllocError> {
    let mut scores = scores_of(alloc, column.rows(0, column.len()))?;
    scores.sort_unstable();
    Ok(scores)
}

// Whether a row has the member that came with its score.
fn is_named<A: Allocator>(row: &Row<A>, scores: &Scores) -> bool {
    match row.member() {
        [high, low, ..] => {
            let number = u16::from_be_bytes([*high, *low]);
            let name = name_of(number);
            number < scores.count
                && scores.at(number) == row.score()
                && row.member() == &name[..name_length(number)]
        }
        _ => false,
    }
}

// Whether each of them has.
fn are_named<A: Allocator>(rows: &[Row<A>], scores: &Scores) -> bool {
    for row in rows {
        if !is_named(row, scores) {
            return false;
        }
    }
    true
}

/// Whether each pivot has as many scores before it as are below its value.
pub fn are_parted(sorted: &[i64], pivots: &[(i64, usize)]) -> bool {
    for (value, place) in pivots {
        if sorted.partition_point(|score| *score < *value) != *place {
            return false;
        }
    }
    true
}

/// Whether a column has just the rows of these of the scores, which are in order, and its pivots part them, inner ones
/// too.
pub fn has_rows<A: Allocator + Copy>(
    alloc: Global,
    column: &Column<A>,
    scores: &Scores,
    wanted: &[i64],
) -> Result<bool, AllocError> {
    let sorted = sorted_scores(alloc, column)?;
    let has_scores = sorted.as_slice() == wanted;
    let is_parted = are_parted(&sorted, column.piece_list());
    drop(sorted);
    Ok(has_scores && is_parted && are_named(column.rows(0, column.len()), scores))
}
