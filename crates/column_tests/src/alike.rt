//! Whether two columns are alike, and have just the rows of a list.

use crack_kernel::Row;
use ripple_column::Column;
use std::alloc::Global;
use std::test::Fail;

// A number for a score and a member of up to 40 equal bytes, another for each; `None` for another member.
fn number_of(row: &Row<Global>) -> Option<i64> {
    let member = row.member();
    let byte = member.first().copied().unwrap_or(0);
    if member.len() > 40 || member != &[byte; 40][..member.len()] {
        return None;
    }
    let place = i64::from(byte) * 41 + member.len() as i64;
    Some(row.score().saturating_mul(16_384).saturating_add(place))
}

// Appends this number of a row.
fn push_number(numbers: &mut Vec<i64>, row: &Row<Global>) -> Result<(), Fail> {
    match number_of(row) {
        Some(number) => Ok(numbers.push(number)?),
        None => Err(Fail::new("a row of another member")),
    }
}

// These numbers of rows, in order.
fn sorted(alloc: Global, rows: &[Row<Global>]) -> Result<Vec<i64>, Fail> {
    let mut numbers = Vec::new(alloc);
    for row in rows {
        push_number(&mut numbers, row)?;
    }
    numbers.sort_unstable();
    Ok(numbers)
}

// Whether nothing waits in a column, and its rows are just those of such numbers.
fn has_just(alloc: Global, column: &Column<Global>, wanted: &[i64]) -> Result<bool, Fail> {
    let numbers = sorted(alloc, column.rows(0, column.len()))?;
    let has_just = column.pending() == (0, 0) && numbers.as_slice() == wanted;
    drop(numbers);
    Ok(has_just)
}

// The same of two columns.
fn have_just(
    alloc: Global,
    one: &Column<Global>,
    other: &Column<Global>,
    wanted: &[i64],
) -> Result<bool, Fail> {
    Ok(has_just(alloc, one, wanted)? && has_just(alloc, other, wanted)?)
}

/// Whether in two columns nothing waits, and they have the rows of a list, and the same pivots at the same places.
pub fn are_alike(
    alloc: Global,
    one: &Column<Global>,
    other: &Column<Global>,
    held: &[Row<Global>],
) -> Result<bool, Fail> {
    let wanted = sorted(alloc, held)?;
    let have_rows = have_just(alloc, one, other, &wanted);
    drop(wanted);
    Ok(have_rows? && one.pivot_list() == other.pivot_list())
}
