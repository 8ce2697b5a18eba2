//! Few rows leave from the midst of many: by a gap that is carried over few pieces, or by closing up where the pieces
//! are many beside the rows.

use crate::expectations::expect_all;
use crate::rows::{RISING, Ranges, Scores, add_each, count_each, has_rows};
use crate::steps::is_removed;
use crack_kernel::Row;
use ripple_column::Column;
use score_bounds::{Bound, Range};
use std::alloc::{AllocError, Global};
use std::test::Fail;

// The scores of rows, in the order of these, but those from `low` on and below `high`.
fn without(
    alloc: Global,
    rows: &[Row<Global>],
    low: i64,
    high: i64,
) -> Result<Vec<i64>, AllocError> {
    let mut others = Vec::new(alloc);
    for row in rows {
        let score = row.score();
        if score < low || score >= high {
            others.push(score)?;
        }
    }
    Ok(others)
}

// Whether rows have just these scores, in this order.
fn have_scores(rows: &[Row<Global>], scores: &[i64]) -> bool {
    let mut place = 0usize;
    for row in rows {
        if scores.get(place).copied() != Some(row.score()) {
            return false;
        }
        place = place.saturating_add(1);
    }
    place == scores.len()
}

// Selects the scores from one on and below another.
fn select(column: &mut Column<Global>, low: i64, high: i64) -> Result<(), AllocError> {
    column.select(&Range {
        min: Bound::Incl(low),
        max: Bound::Excl(high),
    })?;
    Ok(())
}

// Selects the first score from `low` on, the first two, and those below `high`, so that there are pivots inside.
fn part(column: &mut Column<Global>, low: i64, high: i64) -> Result<(), AllocError> {
    for end in [low.saturating_add(1), low.saturating_add(2), high] {
        select(column, low, end)?;
    }
    Ok(())
}

// How many rows a column gets and in what order, and below which scores it counts before some leave.
struct Shape {
    rows: Scores,
    bounds: Ranges,
}

// Scores from one on that leave, so many, with pivots inside them, and whether they leave by a gap.
type Leaving = (i64, u8, bool);

// The first of them, and the first score behind them.
fn ends_of(leaving: &Leaving) -> (i64, i64) {
    let (low, width, _) = *leaving;
    (low, low.saturating_add(i64::from(width)))
}

// They leave, and the others, given in the order of their rows, keep it where they close up.
fn leave(
    column: &mut Column<Global>,
    leaving: &Leaving,
    others: &[i64],
) -> Result<bool, AllocError> {
    let (_, width, is_carried) = *leaving;
    let (low, high) = ends_of(leaving);
    let (min, max) = (Bound::Incl(low), Bound::Excl(high));
    let is_done = is_removed(column, min, max, usize::from(width))?;
    let keeps_order = have_scores(column.rows(0, column.len()), others);
    Ok(is_done && keeps_order != is_carried)
}

// The same, and the others stay, with their members.
fn have_left(
    alloc: Global,
    column: &mut Column<Global>,
    scores: &Scores,
    leaving: &Leaving,
) -> Result<bool, AllocError> {
    let (low, high) = ends_of(leaving);
    part(column, low, high)?;
    let mut others = without(alloc, column.rows(0, column.len()), low, high)?;
    let leave = leave(column, leaving, &others);
    others.sort_unstable();
    let has_others = has_rows(alloc, column, scores, &others);
    drop(others);
    Ok(leave? && has_others?)
}

// Fills a column, and parts it by inner pivots around two places and by the bounds.
fn fill(alloc: Global, column: &mut Column<Global>, shape: &Shape) -> Result<(), AllocError> {
    add_each(alloc, column, &shape.rows)?;
    column.merge_all()?;
    column.narrow(5000, 15_000);
    count_each(column, &shape.bounds)?;
    Ok(())
}

// Fills a column, and lets rows leave in turn; how many of these leave as told.
fn count_left(
    alloc: Global,
    column: &mut Column<Global>,
    shape: &Shape,
    all: &[Leaving],
) -> Result<usize, AllocError> {
    fill(alloc, column, shape)?;
    let mut count = 0usize;
    for leaving in all {
        if !have_left(alloc, column, &shape.rows, leaving)? {
            return Ok(count);
        }
        count = count.saturating_add(1);
    }
    Ok(count)
}

// The same of a new column.
fn count_left_anew(alloc: Global, shape: &Shape, all: &[Leaving]) -> Result<usize, AllocError> {
    let mut column = Column::new(alloc);
    let count = count_left(alloc, &mut column, shape, all);
    drop(column);
    count
}

const FEW_PIVOTS: Shape = Shape {
    rows: Scores {
        count: 20_000,
        stride: 7919,
        ..RISING
    },
    bounds: Ranges {
        from: Scores {
            count: 60,
            first: 0,
            apart: 330,
            stride: 1021,
        },
        width: None,
    },
};

// In the lower half and in the upper half, inside a piece, from a pivot on and across one; and most rows.
const AMONG_FEW: [Leaving; 6] = [
    (3000, 10, true),
    (9240, 10, true),
    (9566, 10, true),
    (12_000, 10, true),
    (17_155, 10, true),
    (5000, 200, false),
];

const MANY_PIVOTS: Shape = Shape {
    rows: Scores {
        count: 50_000,
        stride: 7919,
        ..RISING
    },
    bounds: Ranges {
        from: Scores {
            count: 2200,
            first: 0,
            apart: 22,
            stride: 1021,
        },
        width: None,
    },
};

// So many pieces are passed by a narrow gap in less time than the rows close up, and by a wider one in more.
const AMONG_MANY: [Leaving; 4] = [
    (10_000, 2, true),
    (40_000, 2, true),
    (20_000, 10, false),
    (30_000, 10, false),
];

static COLUMNS: [(&str, Shape, &[Leaving]); 2] = [
    ("among few pivots", FEW_PIVOTS, &AMONG_FEW),
    ("among many pivots", MANY_PIVOTS, &AMONG_MANY),
];

#[test]
fn few_rows_leave_by_a_gap_or_close_up(rt: HostRuntime) -> Result<(), Fail> {
    for (what, shape, all) in &COLUMNS {
        let count = count_left_anew(rt.alloc(), shape, all)?;
        expect_all(&rt, count, all.len(), what);
    }
    Ok(())
}
