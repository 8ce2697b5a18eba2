//! Rows with a gap of blank rows among them.

ghost use Rattle.std.specs.Prelude.{◌≡◌, ◌+◌, ◌-◌, ◌≤◌, ◌++◌, length, replicate, vec_len, vec_capacity};
ghost use Rattle.crack_kernel.specs.PivotList.{piece_end};
ghost use Rattle.column_rows.specs.MergeGap.{HasGap, blank};
ghost use Rattle.column_rows.specs.MergeEffects.{KeepsFrame};

use crate::cracked_rows::Cracked;
use crate::fingerprinted_rows::Rows;
use crate::front_room_rows::blank_row;
use crack_kernel::Pivots;
use std::alloc::Allocator;

/// Rows with a gap of blank rows among them, above the rows of one piece. The pivots below the gap stand at its start or
/// below, the others at its end or above, and each parts the rows that are not in the gap.
#[derive(Drop)]
pub struct GappedRows<A: Allocator> {
    pub rows: Rows<A>,
    pub pivots: Pivots<A>,
    /// The index of the piece whose rows stand below the gap.
    pub piece: usize,
    /// Where the gap begins.
    pub low: usize,
    /// Where it ends.
    pub high: usize,
    pub ghost has_gap: { HasGap pivots.list rows.items piece low high },
}

/// Puts `count` blank rows behind the last row.
fn push_blanks<A: Allocator + Copy>(rows: &mut Rows<A>, count: usize)
    requires room { vec_len rows.old + count ≤ vec_capacity rows.old }
    ensures items { rows.new.items ≡ rows.old.items ++ replicate count blank }
    ensures capacity { vec_capacity rows.new ≡ vec_capacity rows.old }
{
    for _pushed in 0..count {
        rows.push_reserved(blank_row());
    }
}

impl<A: Allocator + Copy> GappedRows<A> {
    /// A gap at the end of the piece of the index `piece`. It is empty, but for `width` blank rows behind the last piece.
    pub fn open(cracked: Cracked<A>, piece: usize, width: usize) -> Self
        requires piece { piece ≤ length cracked.pivots.list }
        requires room { vec_len cracked.rows + width ≤ vec_capacity cracked.rows }
        ensures rows { result.rows.items ≡ cracked.rows.items ++ replicate (result.high - result.low) blank }
        ensures piece { result.piece ≡ piece }
        ensures low { result.low ≡ piece_end cracked.pivots.list piece (length cracked.rows.items) }
        ensures high { result.high ≤ result.low + width }
        ensures frame { KeepsFrame cracked.rows cracked.pivots result.rows result.pivots }
    {
        let Cracked { mut rows, pivots } = cracked;
        let (_, low) = pivots.piece_at(piece, rows.len());
        if piece < pivots.len() {
            return GappedRows {
                rows,
                pivots,
                piece,
                low,
                high: low,
            };
        }
        push_blanks(&mut rows, width);
        GappedRows {
            rows,
            pivots,
            piece,
            low,
            high: low + width,
        }
    }
}
