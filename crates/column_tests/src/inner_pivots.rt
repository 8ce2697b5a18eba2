//! Inner pivots beside those that a column shows.

use crate::columns::LONG;
use crate::rows::{RISING, Ranges, Scores};
use crate::steps::{Course, Step, expect_courses};
use score_bounds::Bound;
use std::alloc::AllocError;

/// All that is below 499 bounds, six scores apart, each of which is a pivot then that is shown.
const BELOW_MANY: Ranges = Ranges {
    from: Scores {
        count: 499,
        first: 6,
        apart: 6,
        stride: 1,
    },
    width: None,
};

/// The same of 699 bounds.
const BELOW_MORE: Ranges = Ranges {
    from: Scores {
        count: 699,
        first: 6,
        apart: 6,
        stride: 1,
    },
    width: None,
};

// Its cuts leave many shown pivots close at the low end, and a long piece behind them. A row waits below one of them:
// the inner pivots of the long piece stay, so that the next cut does not read all of it.
const MOVED_ON: &[Step] = &[
    Step::Rows(Scores {
        count: 9000,
        ..RISING
    }),
    Step::MovingCuts(600),
    Step::Add(5, b"later"),
    Step::Count(Bound::NegInf, Bound::Incl(99), 201),
    Step::HasInner(true),
];

// Counts at new bounds would take longer: each bound goes into two lists of pivots, as long as an inner one is left.
const INNER_ONES_DROPPED: &[Step] = &[
    Step::Rows(LONG),
    Step::Merge,
    Step::Narrow(0, 10),
    Step::Ranges(BELOW_MANY, 748_500),
    Step::HasInner(true),
    Step::Ranges(BELOW_MORE, 1_467_050),
    Step::HasInner(false),
];

static COURSES: [Course; 2] = [
    ("cuts that move on keep inner pivots", MOVED_ON),
    (
        "few inner pivots beside many are dropped",
        INNER_ONES_DROPPED,
    ),
];

#[test]
fn inner_pivots_are_kept_and_dropped(rt: HostRuntime) -> Result<(), AllocError> {
    expect_courses(&rt, rt.alloc(), &COURSES)
}
