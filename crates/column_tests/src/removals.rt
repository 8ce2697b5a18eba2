//! Columns which the rows of ranges leave.

use crate::columns::LONG;
use crate::rows::Scores;
use crate::steps::{Course, Step, expect_courses};
use score_bounds::Bound;
use std::alloc::AllocError;

/// The scores from 1 to 10, in no order.
const TEN_MIXED: Scores = Scores {
    count: 10,
    first: 1,
    apart: 1,
    stride: 7,
};

/// 64 scores from 2,000 on.
const BEHIND: Scores = Scores {
    count: 64,
    first: 2000,
    apart: 16,
    stride: 1,
};

// The rows between two pivots leave, and another comes there.
const MIDDLE_REMOVED: &[Step] = &[
    Step::Rows(TEN_MIXED),
    Step::Count(Bound::Incl(3), Bound::Incl(6), 4),
    Step::Merge,
    Step::State(&[(3, 2), (7, 6)], 10, (0, 0)),
    Step::Remove(Bound::Incl(3), Bound::Incl(6), 4),
    Step::State(&[(3, 2), (7, 2)], 6, (0, 0)),
    Step::Count(Bound::Incl(2), Bound::Incl(7), 2),
    Step::State(&[(2, 1), (3, 2), (7, 2), (8, 3)], 6, (0, 0)),
    Step::Add(5, b"new"),
    Step::Count(Bound::Incl(3), Bound::Incl(6), 1),
    Step::State(&[(2, 1), (3, 2), (7, 3), (8, 4)], 7, (0, 0)),
];

// The rows at both ends leave.
const ENDS_REMOVED: &[Step] = &[
    Step::Rows(TEN_MIXED),
    Step::Count(Bound::Incl(3), Bound::Incl(6), 4),
    Step::Merge,
    Step::Remove(Bound::NegInf, Bound::Excl(5), 4),
    Step::State(&[(3, 0), (5, 0), (7, 2)], 6, (0, 0)),
    Step::Remove(Bound::Excl(8), Bound::PosInf, 2),
    Step::State(&[(3, 0), (5, 0), (7, 2), (9, 4)], 4, (0, 0)),
    Step::Between(4, 9),
];

// All rows leave, and another comes.
const ALL_REMOVED: &[Step] = &[
    Step::Rows(TEN_MIXED),
    Step::Count(Bound::Incl(3), Bound::Incl(6), 4),
    Step::Merge,
    Step::Remove(Bound::NegInf, Bound::PosInf, 10),
    Step::State(&[(3, 0), (7, 0)], 0, (0, 0)),
    Step::Add(4, b"new"),
    Step::Count(Bound::NegInf, Bound::PosInf, 1),
    Step::State(&[(3, 0), (7, 1)], 1, (0, 0)),
];

// Ranges without rows. One whose ends are the wrong way round has no answer but (0, 0).
const NONE_REMOVED: &[Step] = &[
    Step::Rows(TEN_MIXED),
    Step::Count(Bound::Incl(3), Bound::Incl(6), 4),
    Step::Merge,
    Step::Remove(Bound::Incl(20), Bound::Incl(29), 0),
    Step::State(&[(3, 2), (7, 6), (20, 10), (30, 10)], 10, (0, 0)),
    Step::Remove(Bound::Incl(6), Bound::Incl(3), 0),
    Step::Remove(Bound::Excl(3), Bound::Excl(3), 0),
    Step::State(&[(3, 2), (7, 6), (20, 10), (30, 10)], 10, (0, 0)),
];

// The greatest score and the least come and leave.
const EXTREMES_REMOVED: &[Step] = &[
    Step::Rows(TEN_MIXED),
    Step::Count(Bound::Incl(3), Bound::Incl(6), 4),
    Step::Merge,
    Step::Add(i64::MAX, b"greatest"),
    Step::Add(i64::MIN, b"least"),
    Step::Remove(Bound::Excl(10), Bound::Incl(i64::MAX), 1),
    Step::Count(Bound::NegInf, Bound::PosInf, 11),
    Step::Remove(Bound::Incl(i64::MIN), Bound::Incl(1), 2),
    Step::Count(Bound::NegInf, Bound::PosInf, 9),
];

// Beside ten rows, one more is taken out while three wait, one of them in the range that is removed.
const WAITING: &[Step] = &[
    Step::Rows(TEN_MIXED),
    Step::Count(Bound::Incl(3), Bound::Incl(6), 4),
    Step::Merge,
    Step::Add(8, b"gone"),
    Step::Count(Bound::Incl(7), Bound::PosInf, 5),
    Step::State(&[(3, 2), (7, 6)], 11, (0, 0)),
    Step::Add(1, b"low"),
    Step::Add(4, b"inside"),
    Step::Add(12, b"high"),
    Step::Take(8, b"gone"),
    Step::State(&[(3, 2), (7, 6)], 11, (3, 1)),
    Step::Remove(Bound::Incl(3), Bound::Incl(6), 5),
    Step::State(&[(3, 2), (7, 2)], 7, (2, 1)),
    Step::Count(Bound::NegInf, Bound::PosInf, 8),
    Step::State(&[(3, 3), (7, 3)], 8, (0, 0)),
];

// A range leaves, rows that come behind it are counted, and the rows at both ends leave.
const GREAT_RANGE_REMOVED: &[Step] = &[
    Step::Rows(LONG),
    Step::Merge,
    Step::Narrow(1500, 3000),
    Step::Shown(0),
    Step::HasInner(true),
    Step::RemoveBesideInner(Bound::Incl(1000), Bound::Excl(2000), 1000),
    Step::State(&[(1000, 1000), (2000, 1000)], 3096, (0, 0)),
    Step::Parted,
    Step::Rows(BEHIND),
    Step::Count(Bound::Incl(500), Bound::Excl(3500), 2064),
    Step::Parted,
    Step::Remove(Bound::NegInf, Bound::Incl(2500), 1533),
    Step::Remove(Bound::Excl(3000), Bound::PosInf, 1096),
    Step::Count(Bound::NegInf, Bound::PosInf, 531),
    Step::Parted,
];

static COURSES: [Course; 7] = [
    ("rows in the middle leave", MIDDLE_REMOVED),
    ("rows at an end leave", ENDS_REMOVED),
    ("all rows leave", ALL_REMOVED),
    ("no row leaves", NONE_REMOVED),
    ("the least and the greatest score leave", EXTREMES_REMOVED),
    ("what waits outside the range stays", WAITING),
    (
        "a great range leaves beside inner pivots",
        GREAT_RANGE_REMOVED,
    ),
];

#[test]
fn rows_of_ranges_leave(rt: HostRuntime) -> Result<(), AllocError> {
    expect_courses(&rt, rt.alloc(), &COURSES)
}
