//! Cracked rows with those of their pivots that a column shows.

ghost use Rattle.std.specs.Prelude.{◌≡◌, [], false};
ghost use Rattle.column_rows.specs.ShownPivots.{AreFound, shown_of};

pub mod shown_pivots;

use crate::cracked_rows::Cracked;
use crack_kernel::Pivots;
use std::alloc::Allocator;

/// Cracked rows with those of their pivots that are shown: the cuts of the ranges asked for. The
/// others, inner pivots, part long pieces.
#[derive(Drop)]
pub struct Pieces<A: Allocator> {
    /// The rows with all pivots.
    pub cracked: Cracked<A>,
    /// Whether the shown pivots have a list of their own. While they have none, all pivots are
    /// shown, so that a column without inner pivots keeps one list alone.
    pub apart: bool,
    /// That list. While it is not in use, what stands in it means nothing.
    pub kept: Pivots<A>,
    pub ghost among: { AreFound (shown_of apart kept.list cracked.pivots.list) cracked.pivots.list },
}

impl<A: Allocator + Copy> Pieces<A> {
    /// No rows. It takes no memory.
    pub fn new(alloc: A) -> Self
        ensures rows { result.cracked.rows.items ≡ [] }
        ensures apart { result.apart ≡ false }
        ensures pivots { result.cracked.pivots.list ≡ [] }
    {
        Pieces {
            cracked: Cracked::new(alloc),
            apart: false,
            kept: Pivots::new(alloc),
        }
    }
}
