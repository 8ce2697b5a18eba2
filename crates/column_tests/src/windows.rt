//! Windows that slide: rows come at the high end, and as many leave at the low one.

use crate::expectations::expect_all;
use crate::rows::{RISING, add_at, has_rows};
use crate::steps::{Step, is_removed, right_steps};
use ripple_column::Column;
use score_bounds::Bound;
use std::alloc::{AllocError, Global};
use std::process::Abort;

// A column beside the scores of its rows, which rise.
#[derive(Drop)]
struct Window {
    column: Column<Global>,
    scores: Vec<i64>,
}

// Adds a row at the high end.
fn push(alloc: Global, window: &mut Window, score: u16) -> Result<(), AllocError> {
    add_at(alloc, &mut window.column, &RISING, score)?;
    window.scores.push(i64::from(score))?;
    Ok(())
}

// Adds so many rows with the scores from 0 on.
fn fill(alloc: Global, window: &mut Window, len: u16) -> Result<(), AllocError> {
    for score in 0..len {
        push(alloc, window, score)?;
    }
    Ok(())
}

// Takes the rows of a range out, which are so many from a place on.
fn removes(
    window: &mut Window,
    min: Bound,
    max: Bound,
    place: usize,
    count: usize,
) -> Result<bool, AllocError> {
    for _ in 0..count {
        if place < window.scores.len() {
            window.scores.remove(place);
        }
    }
    is_removed(&mut window.column, min, max, count)
}

// Takes the first row out.
fn removes_first(window: &mut Window) -> Result<bool, AllocError> {
    match window.scores.first().copied() {
        None => Ok(false),
        Some(first) => removes(window, Bound::NegInf, Bound::Incl(first), 0, 1),
    }
}

// Takes the row in the middle and the one before it out.
fn removes_two(window: &mut Window) -> Result<bool, AllocError> {
    let middle = window.scores.len() / 2;
    let before = middle.saturating_sub(1);
    let low = window.scores.get(before).copied().map(Bound::Incl);
    let high = window.scores.get(middle).copied().map(Bound::Incl);
    match (low, high) {
        (Some(min), Some(max)) => removes(window, min, max, before, 2),
        _ => Ok(false),
    }
}

// Adds rows with the scores from `from` on and before `to`, and takes the first row out after each. Those
// that came are merged where their score can be divided by `merged`.
fn slides(
    alloc: Global,
    window: &mut Window,
    from: u16,
    to: u16,
    merged: u16,
) -> Result<bool, AllocError> {
    for score in from..to {
        push(alloc, window, score)?;
        if score.checked_rem(merged) == Some(0) {
            window.column.merge_all()?;
        }
        if !removes_first(window)? {
            return Ok(false);
        }
    }
    window.column.merge_all()?;
    Ok(true)
}

// Takes all rows out, and adds another.
fn empties(alloc: Global, window: &mut Window) -> Result<bool, AllocError> {
    let rows = window.scores.len();
    let is_empty = removes(window, Bound::NegInf, Bound::PosInf, 0, rows)?;
    push(alloc, window, 7)?;
    window.column.merge_all()?;
    Ok(is_empty)
}

// How many rows the first piece with rows has.
fn first_piece(column: &Column<Global>) -> usize {
    for pivot in column.piece_list() {
        if pivot.1 > 0 {
            return pivot.1;
        }
    }
    column.len()
}

/// What becomes of a window.
enum Turn {
    /// Rows with the scores from one on and before another come, and the first row leaves after each. Those that came
    /// are merged where their score can be divided by the third number.
    Slides(u16, u16, u16),
    /// Two rows in the middle leave.
    LosesTwo,
    /// All rows leave, and another comes.
    IsEmptied,
    /// Its column takes steps.
    Takes(&'static [Step]),
    /// Whether its first piece with rows is long.
    HasLongPiece(bool),
}

fn is_turned(alloc: Global, window: &mut Window, turn: &Turn) -> Result<bool, AllocError> {
    match turn {
        Turn::Slides(from, to, merged) => slides(alloc, window, *from, *to, *merged),
        Turn::LosesTwo => removes_two(window),
        Turn::IsEmptied => empties(alloc, window),
        Turn::Takes(steps) => Ok(right_steps(alloc, &mut window.column, steps)? == steps.len()),
        Turn::HasLongPiece(_) => Ok(false),
    }
}

// Turns a window, which then has just its rows; or tells of its first piece, whatever waits.
fn is_right(alloc: Global, window: &mut Window, turn: &Turn) -> Result<bool, AllocError> {
    if let Turn::HasLongPiece(is_long) = turn {
        return Ok((first_piece(&window.column) > 2048) == *is_long);
    }
    let is_done = is_turned(alloc, window, turn)?;
    Ok(is_done && has_rows(alloc, &window.column, &RISING, window.scores.as_slice())?)
}

// Fills a window with so many rows, and turns it; how many turns come before one that tells what is not so.
fn right_turns(
    alloc: Global,
    window: &mut Window,
    len: u16,
    turns: &[Turn],
) -> Result<usize, AllocError> {
    fill(alloc, window, len)?;
    let mut count = 0usize;
    for turn in turns {
        if !is_right(alloc, window, turn)? {
            return Ok(count);
        }
        count = count.saturating_add(1);
    }
    Ok(count)
}

// The same with a new window.
fn right_turns_anew(alloc: Global, len: u16, turns: &[Turn]) -> Result<usize, AllocError> {
    let mut window = Window {
        column: Column::new(alloc),
        scores: Vec::new(alloc),
    };
    let count = right_turns(alloc, &mut window, len, turns);
    drop(window);
    count
}

// A window of ten rows turns over twice, and once more behind rows in the middle that left, and is emptied.
const TEN: &[Turn] = &[
    Turn::Slides(10, 30, 1),
    Turn::LosesTwo,
    Turn::Slides(30, 38, 1),
    Turn::IsEmptied,
];

const MANY: &[Turn] = &[
    Turn::Slides(3000, 9000, 1),
    Turn::LosesTwo,
    Turn::Slides(9000, 11_998, 1),
    Turn::IsEmptied,
];

const SELDOM_MERGED: &[Turn] = &[
    Turn::Slides(3000, 9000, 64),
    Turn::LosesTwo,
    Turn::Slides(9000, 11_998, 64),
    Turn::IsEmptied,
];

// Pivots behind rows that left, and a range; and the pivots once three more rows left.
const CLOSED_UP: &[Turn] = &[
    Turn::Slides(10, 13, 1),
    Turn::Takes(&[
        Step::State(&[(1, 0), (2, 0), (3, 0)], 10, (0, 0)),
        Step::Count(Bound::Incl(5), Bound::Incl(6), 2),
        Step::State(&[(1, 0), (2, 0), (3, 0), (5, 2), (7, 4)], 10, (0, 0)),
    ]),
    Turn::Slides(13, 16, 1),
    Turn::Takes(&[Step::State(&SEVEN_PIVOTS, 10, (0, 0))]),
];

const SEVEN_PIVOTS: [(i64, usize); 7] = [(1, 0), (2, 0), (3, 0), (4, 0), (5, 0), (6, 0), (7, 1)];

// More turns than there may be pivots for a search to crack at: a sliding cut reads a short piece all the same.
const SHORT_PIECES: &[Turn] = &[
    Turn::HasLongPiece(true),
    Turn::Slides(9000, 9600, 8),
    Turn::HasLongPiece(false),
];

// What becomes of a new window of so many rows.
type Course = (&'static str, u16, &'static [Turn]);

// Each window is as its turns tell.
fn expect_turns<R: Abort>(rt: &R, alloc: Global, courses: &[Course]) -> Result<(), AllocError> {
    for (what, len, turns) in courses {
        let count = right_turns_anew(alloc, *len, turns)?;
        expect_all(rt, count, turns.len(), what);
    }
    Ok(())
}

static LEAVING: [Course; 2] = [("ten rows", 10, TEN), ("many rows", 3000, MANY)];

#[test]
fn the_first_row_leaves_again_and_again(rt: HostRuntime) -> Result<(), AllocError> {
    expect_turns(&rt, rt.alloc(), &LEAVING)
}

static WAITING: [Course; 1] = [("many rows", 3000, SELDOM_MERGED)];

#[test]
fn the_first_row_leaves_while_others_wait(rt: HostRuntime) -> Result<(), AllocError> {
    expect_turns(&rt, rt.alloc(), &WAITING)
}

static PARTED: [Course; 2] = [
    ("pivots close up behind rows that left", 10, CLOSED_UP),
    ("a sliding cut finds short pieces", 9000, SHORT_PIECES),
];

#[test]
fn pieces_of_a_window_stay_short(rt: HostRuntime) -> Result<(), AllocError> {
    expect_turns(&rt, rt.alloc(), &PARTED)
}
