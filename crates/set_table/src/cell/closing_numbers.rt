//! The numbers that are added up when a cell's table is closed: `table_lifetime` asks for them.

ghost use Rattle.std.specs.Prelude.{◌≡◌, ◌↔◌, length, IsTrue};
ghost use Rattle.std.specs.FinMap as map;
ghost use Rattle.set_table.specs.CellViewAndRuns.{CellIsWhole};
ghost use Rattle.set_table.specs.PassTallies.{total_of};

use crate::cell::Cell;
use crate::member_change_counts::Tally;
use std::alloc::Allocator;
use std::hash::BuildHasher;
use std::sync::ledger::Ledger;

/// A cell's numbers: its members now and at opening, the runs that it may answer, what all passes were
/// answered, and the records that were appended for it.
#[derive(Clone, Copy)]
pub struct CellNumbers {
    pub members: u64,
    pub opened: u64,
    pub max_runs: u64,
    pub total: Tally,
    pub records: u64,
}

impl<H: BuildHasher, L: Ledger, A: Allocator + Copy> Cell<H, L, A> {
    /// The cell's numbers. Only for `table_lifetime`.
    pub fn numbers(&self) -> CellNumbers
        ensures numbers { result ≡ record {
          members = map.len self.now.sorted_set.members;
          opened = self.now.opened;
          max_runs = self.now.max_runs;
          total = total_of self.now.tallies;
          records = self.now.appended;
        } }
        ensures whole { CellIsWhole self.now }
    {
        CellNumbers {
            members: self.sorted_set.card() as u64,
            opened: self.opened,
            max_runs: self.max_runs,
            total: self.total,
            records: self.share.count(),
        }
    }

    /// Whether it has a tally for each of so many passes, and none besides. Only for `table_lifetime`.
    pub fn has_tallies(&self, passes: usize) -> bool
        ensures { IsTrue result ↔ (length self.now.tallies ≡ passes) }
    {
        self.tallies.len() == passes
    }
}
