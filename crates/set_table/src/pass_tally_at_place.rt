//! What a pass was answered at one place.

ghost use Rattle.std.specs.Prelude.{◌≡◌};
ghost use Rattle.set_table.specs.PassTallies.{empty_tally};

use crate::member_change_counts::Tally;
use std::marker::Model;

/// What a pass was answered at one place, which its cell tells too. A table makes those of its passes
/// when it is opened; they stay in the pass and can't be cloned, or it could forget what it was
/// answered.
#[derive(Drop)]
pub struct Shares {
    pub(crate) place: usize,
    pub(crate) pass: usize,
    pub(crate) opened: u64,
    pub(crate) tally: Tally,
}

impl Model for Shares {
    ghost use Rattle.set_table.specs.PassTallies.{ShareView};

    ghost Value = { ShareView };

    ghost view = { λ s. record { place = s.place; pass = s.pass; opened = s.opened; tally = s.tally } };
}

impl Shares {
    /// Those of a pass at a place that had so many members at opening, before any run. A cell refuses
    /// others than it has told.
    pub fn new(place: usize, pass: usize, opened: u64) -> Self
        ensures { result
            ≡ record { place = place; pass = pass; opened = opened; tally = empty_tally } }
    {
        Shares {
            place,
            pass,
            opened,
            tally: Tally::empty(),
        }
    }
}
