//! Two columns that are driven by the same changes, merged more and less often, are alike whenever nothing waits.

ghost use Rattle.std.specs.Prelude.{◌<◌, length, OnOk};
ghost use Rattle.ripple_column.specs.Content.{Holds, SameContent};

use crate::alike::are_alike;
use crate::expectations::expect_that;
use crate::rows::{Ranges, Scores, count_each};
use crate::steps::{add_known, take_known};
use crack_kernel::Row;
use ripple_column::Column;
use score_bounds::{Bound, Range};
use std::alloc::{AllocError, Global};
use std::process::Abort;
use std::test::Fail;

// A linear congruential generator with the constants of Knuth's MMIX, and how many scores its rows
// have.
#[derive(Drop)]
struct Numbers {
    state: u64,
    scores: u32,
}

impl Numbers {
    fn next(&mut self) -> u32 {
        self.state = self
            .state
            .wrapping_mul(6364136223846793005)
            .wrapping_add(1442695040888963407);
        (self.state >> 33) as u32
    }

    // A number below `count`, which is not 0.
    fn below(&mut self, count: usize) -> usize
        requires { 0 < count }
        ensures { result < count }
    {
        self.next() as usize % count
    }

    // A score below 0 or above.
    fn score(&mut self) -> i64 {
        let number = self.next().checked_rem(self.scores).unwrap_or(0);
        i64::from(number) - i64::from(self.scores / 2)
    }
}

// Adds a row to the column and to the list of the rows that it holds.
fn add(
    alloc: Global,
    column: &mut Column<Global>,
    held: &mut Vec<Row<Global>>,
    numbers: &mut Numbers,
) -> Result<(), AllocError>
    requires { Holds column.old held.old.items }
    ensures { OnOk result (Holds column.new held.new.items) }
{
    // Some rows are there twice, some members are empty, and some take memory of their own.
    let number = numbers.next() % 1000;
    let bytes = [(number % 251) as u8; 40];
    let len = (number % 41) as usize;
    let score = numbers.score();
    add_known(alloc, column, held, score, &bytes[..len])
}

// Takes a row out of both.
fn take(
    column: &mut Column<Global>,
    held: &mut Vec<Row<Global>>,
    index: usize,
) -> Result<(), AllocError>
    requires holds { Holds column.old held.old.items }
    requires within { index < length held.old.items }
    ensures { OnOk result (Holds column.new held.new.items) }
{
    take_known(column, held, index)
}

// Adds a row or takes one out, `adds` of four times the first.
fn change_one(
    alloc: Global,
    column: &mut Column<Global>,
    held: &mut Vec<Row<Global>>,
    numbers: &mut Numbers,
    adds: u32,
) -> Result<(), AllocError>
    requires { Holds column.old held.old.items }
    ensures { OnOk result (Holds column.new held.new.items) }
{
    if numbers.next() % 4 < adds || held.is_empty() {
        return add(alloc, column, held, numbers);
    }
    let index = numbers.below(held.len());
    take(column, held, index)
}

// Makes 600 such changes, and merges all that waits after each `each` of them.
fn change(
    alloc: Global,
    column: &mut Column<Global>,
    held: &mut Vec<Row<Global>>,
    numbers: &mut Numbers,
    adds: u32,
    each: u32,
) -> Result<(), AllocError>
    requires { Holds column.old held.old.items }
    ensures { OnOk result (Holds column.new held.new.items) }
{
    for i in 1..601u32 {
        change_one(alloc, column, held, numbers, adds)?;
        if i.checked_rem(each) == Some(0) {
            column.merge_all()?;
        }
    }
    Ok(())
}

// A column, the rows that it holds, the numbers that drive it, and after how many changes each all that waits is
// merged.
#[derive(Drop)]
struct Driven {
    column: Column<Global>,
    held: Vec<Row<Global>>,
    numbers: Numbers,
    each: u32,
}

impl Driven {
    fn new(alloc: Global, numbers: Numbers, each: u32) -> Self
        ensures { Holds result.column result.held.items }
    {
        Driven {
            column: Column::new(alloc),
            held: Vec::new(alloc),
            numbers,
            each,
        }
    }
}

// Selects a range where the numbers say, of which a window of ten ranks is then wanted: the range's lower end, and how
// many rows it has.
fn ask(column: &mut Column<Global>, numbers: &mut Numbers) -> Result<(i64, usize), AllocError>
    ensures { SameContent column.old column.new }
{
    let low = numbers.score();
    let range = Range {
        min: Bound::Incl(low),
        max: Bound::Excl(low.saturating_add(30)),
    };
    let (from, to) = column.select(&range)?;
    let start = from.saturating_add(numbers.below(1000)).min(to);
    column.narrow(start, start.saturating_add(10).min(to));
    Ok((low, to - from))
}

// Changes a column, and asks for a range.
fn drive(alloc: Global, driven: &mut Driven, adds: u32) -> Result<(i64, usize), AllocError>
    requires { Holds driven.old.column driven.old.held.items }
    ensures { OnOk result (Holds driven.new.column driven.new.held.items) }
{
    let Driven {
        column,
        held,
        numbers,
        each,
    } = driven;
    change(alloc, column, held, numbers, adds, *each)?;
    ask(column, numbers)
}

// All that waits in both is merged: whether they are alike, with the rows that the first holds.
fn are_merged_alike(alloc: Global, one: &mut Driven, other: &mut Driven) -> Result<bool, Fail>
    requires one { Holds one.old.column one.old.held.items }
    requires other { Holds other.old.column other.old.held.items }
    ensures one { OnOk result (Holds one.new.column one.new.held.items) }
    ensures other { OnOk result (Holds other.new.column other.new.held.items) }
    ensures content_one { SameContent one.old.column one.new.column }
    ensures content_other { SameContent other.old.column other.new.column }
{
    one.column.merge_all()?;
    other.column.merge_all()?;
    are_alike(alloc, &one.column, &other.column, one.held.as_slice())
}

// What drives two columns: how many scores rows have, how many ranges apart from each other are selected before there
// are rows, in how many rounds rows then come and go, of four changes how many add a row, in rounds in turn, the state
// in which the numbers begin, and after how many changes each is merged.
struct Course {
    what: &'static str,
    scores: u32,
    ranges: u16,
    rounds: usize,
    adds: [u32; 4],
    state: u64,
    each: (u32, u32),
}

// Drives both by the same numbers: whether their ranges are the same.
fn are_driven(
    alloc: Global,
    one: &mut Driven,
    other: &mut Driven,
    adds: u32,
) -> Result<bool, AllocError>
    requires one { Holds one.old.column one.old.held.items }
    requires other { Holds other.old.column other.old.held.items }
    ensures one { OnOk result (Holds one.new.column one.new.held.items) }
    ensures other { OnOk result (Holds other.new.column other.new.held.items) }
{
    let in_one = drive(alloc, one, adds)?;
    Ok(drive(alloc, other, adds)? == in_one)
}

// Drives both in rounds, and merges them in each third: whether their ranges are the same, and they are alike.
fn are_driven_alike(
    alloc: Global,
    one: &mut Driven,
    other: &mut Driven,
    course: &Course,
) -> Result<bool, Fail>
    requires one { Holds one.old.column one.old.held.items }
    requires other { Holds other.old.column other.old.held.items }
{
    for round in 0..course.rounds {
        let is_alike = are_driven(alloc, one, other, course.adds[round % 4])?;
        if !is_alike || round % 3 == 0 && !are_merged_alike(alloc, one, other)? {
            return Ok(false);
        }
    }
    Ok(true)
}

// Selects the ranges of a course, each of which leaves two pivots.
fn show_pivots(driven: &mut Driven, course: &Course) -> Result<bool, AllocError>
    requires { Holds driven.old.column driven.old.held.items }
    ensures { OnOk result (Holds driven.new.column driven.new.held.items) }
{
    let ranges = Ranges {
        from: Scores {
            count: course.ranges,
            first: -500_000,
            apart: 900,
            stride: 1,
        },
        width: Some(30),
    };
    count_each(&mut driven.column, &ranges)?;
    Ok(driven.column.pivot_list().len() == 2 * usize::from(course.ranges))
}

// Shows the pivots of a course in both, and drives them.
fn are_alike_all_along(
    alloc: Global,
    one: &mut Driven,
    other: &mut Driven,
    course: &Course,
) -> Result<bool, Fail>
    requires one { Holds one.old.column one.old.held.items }
    requires other { Holds other.old.column other.old.held.items }
{
    let are_shown = show_pivots(one, course)? && show_pivots(other, course)?;
    Ok(are_shown && are_driven_alike(alloc, one, other, course)?)
}

// Whether random changes, merges and selects lead to the same rows and pivots, however many changes each all that waits
// is merged, and to the rows of a plain list: the same numbers drive both columns.
fn is_alike(alloc: Global, course: &Course) -> Result<bool, Fail> {
    let Course { state, scores, .. } = *course;
    let (seldom, often) = course.each;
    let mut one = Driven::new(alloc, Numbers { state, scores }, seldom);
    let mut other = Driven::new(alloc, Numbers { state, scores }, often);
    let are_alike = are_alike_all_along(alloc, &mut one, &mut other, course);
    drop(one);
    drop(other);
    are_alike
}

// Rows come, stay as many, go, and come and go.
const TO_AND_FRO: [u32; 4] = [4, 2, 1, 2];

// Past 10,000 rows.
const MORE_AND_MORE: [u32; 4] = [4, 4, 2, 3];

// Merged at once and row by row: many rows at once, and few. Among few pivots these move each by itself.
const FEW_PIVOTS: Course = Course {
    what: "200 scores",
    scores: 200,
    ranges: 0,
    rounds: 40,
    adds: TO_AND_FRO,
    state: 0,
    each: (u32::MAX, 10),
};

// Among many pivots two rows and more are merged by a pass, which goes from one to the next.
const MANY_PIVOTS: Course = Course {
    what: "two rows at once",
    scores: 1_000_000,
    ranges: 1_100,
    rounds: 9,
    adds: TO_AND_FRO,
    state: 6,
    each: (2, 1),
};

// The columns of each course are alike all along.
fn expect_alike<R: Abort>(rt: &R, alloc: Global, courses: &[Course]) -> Result<(), Fail> {
    for course in courses {
        expect_that(rt, is_alike(alloc, course)?, course.what);
    }
    Ok(())
}

static FEW_ROWS: [Course; 4] = [
    FEW_PIVOTS,
    Course {
        what: "200 scores again",
        state: 1,
        ..FEW_PIVOTS
    },
    Course {
        what: "three scores",
        scores: 3,
        state: 2,
        ..FEW_PIVOTS
    },
    Course {
        what: "one score",
        scores: 1,
        state: 3,
        ..FEW_PIVOTS
    },
];

#[test]
fn merging_at_once_is_merging_row_by_row(rt: HostRuntime) -> Result<(), Fail> {
    expect_alike(&rt, rt.alloc(), &FEW_ROWS)
}

static MANY_ROWS: [Course; 2] = [
    Course {
        what: "many scores",
        scores: 1_000_000,
        adds: MORE_AND_MORE,
        state: 4,
        ..FEW_PIVOTS
    },
    Course {
        what: "two scores",
        scores: 2,
        adds: MORE_AND_MORE,
        state: 5,
        ..FEW_PIVOTS
    },
];

#[test]
fn many_rows_are_merged_alike(rt: HostRuntime) -> Result<(), Fail> {
    expect_alike(&rt, rt.alloc(), &MANY_ROWS)
}

static AMONG_MANY_PIVOTS: [Course; 3] = [
    MANY_PIVOTS,
    Course {
        what: "five rows at once",
        state: 7,
        each: (5, 1),
        ..MANY_PIVOTS
    },
    Course {
        what: "31 rows at once",
        state: 8,
        each: (31, 1),
        ..MANY_PIVOTS
    },
];

#[test]
fn few_rows_among_many_pivots_are_merged_as_one_is(rt: HostRuntime) -> Result<(), Fail> {
    expect_alike(&rt, rt.alloc(), &AMONG_MANY_PIVOTS)
}
