//! Each allocation of a column's calls refused in turn: where a call is refused for want of one, the column is as
//! before and answers once it is asked again. Inner pivots are done without.

use crate::expectations::expect_that;
use crate::rows::{RISING, Ranges, Scores, add_each, count_each, has_rows};
use fuse_alloc::Fuse;
use ripple_column::Column;
use score_bounds::{Bound, Range};
use std::alloc::{AllocError, Allocator, Global};
use std::test::Fail;

/// The calls of a column that change it.
#[derive(Clone, Copy)]
enum Call {
    /// Room for one more row.
    Reserve,
    Select(Range),
    /// Inner pivots near two places, which is never refused.
    Narrow(usize, usize),
    MergeAll,
    /// The rows of a range leave, for which the column has an answer.
    Remove(Range),
}

const ALL: Range = Range {
    min: Bound::NegInf,
    max: Bound::PosInf,
};

fn is_made<A: Allocator + Copy>(column: &mut Column<A>, call: Call) -> bool {
    match call {
        Call::Reserve => column.reserve_write(1).is_ok(),
        Call::Select(range) => column.select(&range).is_ok(),
        Call::Narrow(from, to) => {
            column.narrow(from, to);
            true
        }
        Call::MergeAll => column.merge_all().is_ok(),
        Call::Remove(range) => is_removed(column, &range),
    }
}

fn is_removed<A: Allocator + Copy>(column: &mut Column<A>, range: &Range) -> bool {
    match column.ready(range) {
        None => false,
        Some((from, to)) => {
            column.remove_rows(from, to);
            true
        }
    }
}

/// A column in numbers: its rows, those that wait as insertions and as deletions, and the pivots that it shows.
type Numbers = (usize, (usize, usize), usize);

fn numbers_of<A: Allocator + Copy>(column: &Column<A>) -> Numbers {
    (column.len(), column.pending(), column.pivot_list().len())
}

/// Adds so many rows with scores from 0 on.
fn fill<A: Allocator + Copy>(
    alloc: A,
    column: &mut Column<A>,
    count: u16,
) -> Result<(), AllocError> {
    add_each(alloc, column, &Scores { count, ..RISING })
}

/// Asks for so many ranges, which end where none begins.
fn crack<A: Allocator + Copy>(column: &mut Column<A>, count: u16) -> Result<(), AllocError> {
    let from = Scores {
        count,
        apart: 10,
        ..RISING
    };
    let width = Some(5);
    count_each(column, &Ranges { from, width })?;
    Ok(())
}

/// What a column is filled with before a call: rows that wait, or that were merged and cracked, and behind these
/// rows that wait. A window and a range may then be asked for.
#[derive(Clone, Copy)]
struct Setup {
    first: u16,
    ranges: u16,
    then: u16,
    answered: Option<Range>,
}

fn set_up<A: Allocator + Copy>(
    alloc: A,
    column: &mut Column<A>,
    setup: Setup,
) -> Result<(), AllocError> {
    fill(alloc, column, setup.first)?;
    crack(column, setup.ranges)?;
    fill(alloc, column, setup.then)?;
    if let Some(range) = setup.answered {
        column.narrow(1000, 1010);
        column.select(&range)?;
    }
    Ok(())
}

/// Whether a call leaves rows of a score.
fn leaves(call: Call, score: i64) -> bool {
    match call {
        Call::Remove(range) => !range.contains(score),
        _ => true,
    }
}

/// The scores, in order, of the rows with which a column is filled and which a call leaves.
fn scores_of(alloc: Global, setup: Setup, call: Call) -> Result<Vec<i64>, AllocError> {
    let mut scores = Vec::new(alloc);
    for count in [setup.first, setup.then] {
        push_left(&mut scores, count, call)?;
    }
    scores.sort_unstable();
    Ok(scores)
}

fn push_left(scores: &mut Vec<i64>, count: u16, call: Call) -> Result<(), AllocError> {
    for i in 0..count {
        let score = i64::from(i);
        if leaves(call, score) {
            scores.push(score)?;
        }
    }
    Ok(())
}

/// Whether a column has the rows that a call leaves, once all that waits is merged.
fn has_rows_of<A: Allocator + Copy>(
    alloc: Global,
    column: &mut Column<A>,
    setup: Setup,
    call: Call,
) -> Result<bool, AllocError> {
    column.merge_all()?;
    let wanted = scores_of(alloc, setup, call)?;
    has_rows(alloc, column, &RISING, &wanted)
}

/// What came of a call one of whose allocations was refused.
#[derive(Clone, Copy)]
struct After {
    /// There were fewer allocations.
    is_whole: bool,
    is_made: bool,
    has_stayed: bool,
    /// The column once the call was asked again, and how many pivots it then has with the inner ones.
    end: Numbers,
    with_inner: usize,
    has_rows: bool,
}

fn refuse<A: Allocator + Copy>(
    fuse: &Fuse<Global>,
    fused: A,
    room: Global,
    column: &mut Column<A>,
    setup: Setup,
    call: Call,
    allocation: u64,
) -> Result<After, AllocError> {
    set_up(fused, column, setup)?;
    let before = numbers_of(column);
    fuse.arm(allocation);
    let is_made_at_once = is_made(column, call);
    let is_whole = fuse.is_armed();
    fuse.arm(0);
    let has_stayed = numbers_of(column) == before;
    if !is_made_at_once {
        is_made(column, call);
    }
    let end = numbers_of(column);
    let with_inner = column.piece_list().len();
    let has_rows = has_rows_of(room, column, setup, call)?;
    Ok(After {
        is_whole,
        is_made: is_made_at_once,
        has_stayed,
        end,
        with_inner,
        has_rows,
    })
}

/// The same with a new column.
fn refuse_anew(
    fuse: &Fuse<Global>,
    room: Global,
    setup: Setup,
    call: Call,
    allocation: u64,
) -> Result<After, AllocError> {
    let mut column = Column::new(fuse);
    let after = refuse(fuse, fuse, room, &mut column, setup, call, allocation);
    drop(column);
    after
}

fn refused(alloc: Global, setup: Setup, call: Call, allocation: u64) -> Result<After, AllocError> {
    let fuse = Fuse::new(alloc, 0);
    refuse_anew(&fuse, alloc, setup, call, allocation)
}

/// How many allocations of a call were refused, one in each run, how often the call was refused for want of one, and
/// how many inner pivots the column has where none was refused.
#[derive(Clone, Copy)]
struct Points {
    all: u64,
    refused: u64,
    inner: usize,
}

impl Points {
    fn are_at_least(&self, least: Least) -> bool {
        let made = self.all.saturating_sub(self.refused);
        self.refused >= least.0 && made >= least.1 && self.inner >= least.2
    }
}

/// Refuses each allocation of a call, until a run has no more. Each run ends with these numbers and with all rows. A
/// refused call leaves the column as it was; one that was made all the same did without.
fn points_of(alloc: Global, setup: Setup, call: Call, end: Numbers) -> Result<Points, Fail> {
    let mut refusals = 0u64;
    for allocation in 1..100u64 {
        let after = refused(alloc, setup, call, allocation)?;
        let is_right = after.is_made || after.has_stayed && !after.is_whole;
        if after.end != end || !is_right || !after.has_rows {
            return Err(Fail::new("neither refused nor made"));
        }
        if after.is_whole {
            return Ok(Points {
                all: allocation - 1,
                refused: refusals,
                inner: after.with_inner.saturating_sub(end.2),
            });
        }
        refusals = refusals.saturating_add(u64::from(!after.is_made));
    }
    Err(Fail::new("no end"))
}

const SCORES: Range = Range {
    min: Bound::Incl(50_001),
    max: Bound::Incl(50_002),
};

const FOUR: Range = Range {
    min: Bound::Incl(3),
    max: Bound::Incl(6),
};

/// No rows.
const NONE: Setup = Setup {
    first: 0,
    ranges: 0,
    then: 0,
    answered: None,
};

/// Ten rows that wait.
const TEN: Setup = Setup { first: 10, ..NONE };

/// As many pivots as there may be, and a row that waits.
const CRACKED: Setup = Setup {
    first: 1,
    ranges: 2048,
    then: 1,
    ..NONE
};

/// A full list of rows that wait.
const FULL: Setup = Setup {
    first: 2048,
    ..NONE
};

/// A piece of 4,096 rows, and one that waits behind them.
const LONG: Setup = Setup {
    first: 4097,
    ..NONE
};

/// How often a call is refused, how often it is made although an allocation is refused, and how many inner pivots it
/// leaves, each at the least.
type Least = (u64, u64, usize);

/// Calls, with the rows, the insertions and deletions that wait, and the shown pivots that each leaves.
static CALLS: [(&str, Setup, Call, Numbers, Least); 6] = [
    (
        "a first range of rows that wait",
        TEN,
        Call::Select(FOUR),
        (4, (6, 0), 2),
        (1, 0, 0),
    ),
    (
        "two pivots more than there may be, with a row that goes on waiting in front of them",
        CRACKED,
        Call::Select(SCORES),
        (1, (1, 0), 2),
        (1, 0, 0),
    ),
    (
        "room beside a full list",
        FULL,
        Call::Reserve,
        (2048, (0, 0), 0),
        (1, 0, 0),
    ),
    (
        "a full list is merged",
        FULL,
        Call::MergeAll,
        (2048, (0, 0), 0),
        (1, 0, 0),
    ),
    (
        "cuts near the end of a long piece, which does without inner pivots",
        LONG,
        Call::Select(FOUR),
        (4096, (1, 0), 2),
        (1, 1, 1),
    ),
    (
        "a window of a long piece, which does without inner pivots",
        LONG,
        Call::Narrow(1000, 1010),
        (4096, (1, 0), 0),
        (0, 1, 1),
    ),
];

#[test]
fn calls_meet_each_refused_allocation(rt: HostRuntime) -> Result<(), Fail> {
    for (name, setup, call, end, least) in &CALLS {
        let points = points_of(rt.alloc(), *setup, *call, *end)?;
        expect_that(&rt, points.are_at_least(*least), name);
    }
    Ok(())
}

/// Whether rows leave, or are merged, without an allocation.
fn is_made_without_memory(
    alloc: Global,
    first: u16,
    then: u16,
    leaving: Option<Range>,
) -> Result<bool, AllocError> {
    let setup = Setup {
        first,
        ranges: 0,
        then,
        answered: leaving,
    };
    let call = match leaving {
        None => Call::MergeAll,
        Some(range) => Call::Remove(range),
    };
    let after = refused(alloc, setup, call, 1)?;
    Ok(after.is_whole && after.is_made && !after.has_stayed && after.has_rows)
}

const MIDDLE: Range = Range {
    min: Bound::Incl(5),
    max: Bound::Excl(9),
};

/// Changes that take no memory, of so many rows, with so many that wait behind them: a range leaves, or all is merged.
/// Beside many rows there is room for those that wait, so that rows can leave where there is none left.
static WITHOUT_MEMORY: [(&str, u16, u16, Option<Range>); 9] = [
    ("ten rows: some near the low end leave", 10, 0, Some(FOUR)),
    ("ten rows: some in the middle leave", 10, 0, Some(MIDDLE)),
    ("ten rows: all leave", 10, 0, Some(ALL)),
    ("many rows: four low ones leave", 4097, 0, Some(FOUR)),
    ("many rows: others near leave", 4097, 0, Some(MIDDLE)),
    ("many rows: all leave", 4097, 0, Some(ALL)),
    ("one row more is merged", 4097, 1, None),
    ("100 more are merged", 4097, 100, None),
    ("2,000 more are merged", 4097, 2000, None),
];

#[test]
fn rows_leave_and_are_merged_without_memory(rt: HostRuntime) -> Result<(), Fail> {
    for (name, first, then, leaving) in &WITHOUT_MEMORY {
        let is_made = is_made_without_memory(rt.alloc(), *first, *then, *leaving)?;
        expect_that(&rt, is_made, name);
    }
    Ok(())
}
