//! Columns whose ranges are asked for while rows come and go.

use crate::rows::{RISING, Ranges, Scores};
use crate::steps::{Course, Step, expect_courses};
use score_bounds::Bound;
use std::alloc::AllocError;

/// The scores from 1 to 10.
const TEN: Scores = Scores {
    count: 10,
    first: 1,
    ..RISING
};

/// As many scores as rows may wait, all of them 1.
const FULL_LIST: Scores = Scores {
    count: 2048,
    first: 1,
    apart: 0,
    stride: 1,
};

/// 4,096 scores from 0 on, in no order.
pub const LONG: Scores = Scores {
    count: 4096,
    stride: 1021,
    ..RISING
};

/// 2,047 ranges behind that from 0 on, none of which has a row.
const MANY_RANGES: Ranges = Ranges {
    from: Scores {
        count: 2047,
        first: 10,
        apart: 10,
        stride: 1,
    },
    width: Some(5),
};

// Ten rows are cracked; three rows come, and one of them goes again.
const CRACKED_AND_MERGED: &[Step] = &[
    Step::Rows(TEN),
    Step::Count(Bound::NegInf, Bound::PosInf, 10),
    Step::Count(Bound::Incl(3), Bound::Incl(6), 4),
    Step::State(&[(3, 2), (7, 6)], 10, (0, 0)),
    Step::Add(1, b"x"),
    Step::Add(5, b"y"),
    Step::Add(9, b"z"),
    Step::Take(5, b"y"),
    Step::State(&[(3, 2), (7, 6)], 10, (2, 0)),
    Step::Count(Bound::Incl(0), Bound::Incl(10), 12),
    Step::State(&[(0, 0), (3, 3), (7, 7), (11, 12)], 12, (0, 0)),
];

// The row of `a` moves up past the others, and down again.
const MOVED: &[Step] = &[
    Step::Add(1, b"a"),
    Step::Add(5, b"b"),
    Step::Add(9, b"c"),
    Step::Count(Bound::NegInf, Bound::PosInf, 3),
    Step::Count(Bound::Incl(4), Bound::Incl(6), 1),
    Step::State(&[(4, 1), (7, 2)], 3, (0, 0)),
    Step::Take(1, b"a"),
    Step::Add(8, b"a"),
    Step::Count(Bound::NegInf, Bound::Excl(4), 0),
    Step::State(&[(4, 0), (7, 1)], 2, (1, 0)),
    Step::Count(Bound::Incl(4), Bound::Incl(6), 1),
    Step::Count(Bound::Incl(7), Bound::PosInf, 2),
    Step::Take(8, b"a"),
    Step::Add(2, b"a"),
    Step::Count(Bound::NegInf, Bound::Excl(4), 1),
    Step::State(&[(4, 1), (7, 2)], 4, (0, 1)),
    Step::Count(Bound::Incl(7), Bound::PosInf, 1),
    Step::State(&[(4, 1), (7, 2)], 3, (0, 0)),
];

// The last row goes, and another comes.
const EMPTIED: &[Step] = &[
    Step::Add(1, b"a"),
    Step::Count(Bound::Incl(0), Bound::Incl(2), 1),
    Step::Take(1, b"a"),
    Step::Count(Bound::Incl(0), Bound::Incl(2), 0),
    Step::State(&[(0, 0), (3, 0)], 0, (0, 0)),
    Step::Add(1, b"b"),
    Step::Count(Bound::Incl(0), Bound::Incl(2), 1),
    Step::Members(b"b"),
];

// A row comes, as many ranges as there may be pivots for, and one more.
const DROPPED: &[Step] = &[
    Step::Add(1, b"a"),
    Step::Count(Bound::Incl(0), Bound::Incl(4), 1),
    Step::Ranges(MANY_RANGES, 0),
    Step::Shown(4096),
    Step::Count(Bound::Incl(50001), Bound::Incl(50002), 0),
    Step::State(&[(50001, 1), (50003, 1)], 1, (0, 0)),
];

// As many rows come as may wait, and one more.
const FULL: &[Step] = &[
    Step::Rows(FULL_LIST),
    Step::State(&[], 0, (2048, 0)),
    Step::Add(1, b"last"),
    Step::State(&[], 2048, (1, 0)),
    Step::Merge,
    Step::State(&[], 2049, (0, 0)),
];

// A row comes and goes again, among the rows of one long piece.
const SEARCHED: &[Step] = &[
    Step::Rows(LONG),
    Step::Merge,
    Step::Add(2000, b"n"),
    Step::Count(Bound::NegInf, Bound::PosInf, 4097),
    Step::Pivots(0),
    Step::Take(2000, b"n"),
    Step::Count(Bound::NegInf, Bound::PosInf, 4096),
    Step::Pivots(1),
    Step::State(&[], 4096, (0, 0)),
];

// The piece of a window is short, and no pivot of it is shown; then ranges beside its inner pivots, before and after a
// row comes.
const NARROWED: &[Step] = &[
    Step::Rows(LONG),
    Step::Merge,
    Step::Narrow(0, 10),
    Step::ShortEnd,
    Step::State(&[], 4096, (0, 0)),
    Step::Count(Bound::Incl(100), Bound::Excl(200), 100),
    Step::Add(50, b"n"),
    Step::Count(Bound::NegInf, Bound::Incl(150), 152),
    Step::State(&[(100, 101), (151, 152), (200, 201)], 4097, (0, 0)),
];

static COURSES: [Course; 7] = [
    ("a range is cracked and merged", CRACKED_AND_MERGED),
    ("a row moves between pieces", MOVED),
    ("the last row goes", EMPTIED),
    ("too many pivots are dropped", DROPPED),
    ("a full list is merged", FULL),
    ("a search cracks a long piece", SEARCHED),
    ("a window gets short pieces", NARROWED),
];

#[test]
fn ranges_are_cracked_and_merged(rt: HostRuntime) -> Result<(), AllocError> {
    expect_courses(&rt, rt.alloc(), &COURSES)
}
