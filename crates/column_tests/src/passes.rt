//! That many rows are merged by passes over the pieces. No answer tells it, so the clock has to: at once they take a
//! small part of the time of the same rows one by one. Were no pass made they would take as long.

use crate::rows::{RISING, Ranges, Scores, add, add_each, count_each};
use ripple_column::Column;
use std::alloc::{AllocError, Global};
use std::test::Fail;
use std::time::{Duration, Instant};

/// 2,000 scores from 0 on.
const PARTED: Scores = Scores {
    count: 2000,
    ..RISING
};

/// Ranges whose cuts are as many pivots.
const RANGES: Ranges = Ranges {
    from: Scores {
        count: 1000,
        apart: 2,
        ..RISING
    },
    width: Some(1),
};

/// Adds 200 rows below all pivots, and merges them: each by itself, or all at once.
fn add_below(
    alloc: Global,
    column: &mut Column<Global>,
    is_each_merged: bool,
) -> Result<(), AllocError> {
    for i in 0..200u16 {
        add(alloc, column, -1 - i64::from(i), b"n")?;
        if is_each_merged {
            column.merge_all()?;
        }
    }
    column.merge_all()
}

/// How long that takes in a new column, once it is parted.
fn time_in(
    rt: &HostRuntime,
    column: &mut Column<Global>,
    is_each_merged: bool,
) -> Result<Duration, Fail> {
    add_each(rt.alloc(), column, &PARTED)?;
    count_each(column, &RANGES)?;
    let start = Instant::now(rt)?;
    add_below(rt.alloc(), column, is_each_merged)?;
    Ok(start.elapsed(rt)?)
}

fn time_of(rt: &HostRuntime, is_each_merged: bool) -> Result<Duration, Fail> {
    let mut column = Column::new(rt.alloc());
    let time = time_in(rt, &mut column, is_each_merged);
    drop(column);
    time
}

/// How many times as long the rows take one by one, at the least, in one of so many tries.
const TIMES: u32 = 5;

const TRIES: u8 = 3;

/// Whether rows take so much longer one by one than at once.
fn is_fast(rt: &HostRuntime) -> Result<bool, Fail> {
    for _ in 0..TRIES {
        let at_once = time_of(rt, false)?;
        let in_turn = time_of(rt, true)?;
        if at_once.saturating_mul(TIMES) < in_turn {
            return Ok(true);
        }
    }
    Ok(false)
}

#[test]
fn many_rows_are_merged_by_a_pass(rt: HostRuntime) -> Result<(), Fail> {
    assert!(rt; is_fast(&rt)?);
    Ok(())
}
