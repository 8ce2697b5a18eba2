//! What a table is made of when it is opened, and leaves when it is closed.

ghost use Rattle.std.specs.Prelude.{◌≡◌, ◌<◌, ◌≤◌, length};

use crate::cell::Cell;
use crate::limits::MAX_PLACES;
use crate::table::Table;
use append_log::{Log, LogSink};
use place_names::Names;
use std::alloc::Allocator;
use std::hash::BuildHasher;
use std::sync::ledger::Ledger;
use std::sync::{Mutex, RwLock};

/// What a table is made of: for each place its name, its cell behind a lock and the members that it has at opening; the
/// log that the cells have shares of, how many passes there are, how many runs a place may answer, and how many records
/// the log had at opening. Only for `table_lifetime`: who shares a table with others reaches none of these.
#[derive(Drop)]
pub struct TableParts<H: BuildHasher, S: LogSink, L: Ledger, A: Allocator + Copy> {
    pub names: Names,
    pub cells: Vec<RwLock<Cell<H, L, A>>, A>,
    pub opened: Vec<u64, A>,
    pub log: Log<S, L>,
    pub passes: usize,
    pub max_runs: u64,
    pub records_before: u64,
    // The last field, as in a cell.
    pub alloc: A,
}

impl<H: BuildHasher, S: LogSink, L: Ledger, A: Allocator + Copy> Table<H, S, L, A> {
    /// The table of these parts. Only for `table_lifetime`.
    pub fn new(parts: TableParts<H, S, L, A>) -> Self
        requires names { length parts.names ≡ length parts.opened.items }
        requires cells { length parts.cells.items ≡ length parts.opened.items }
        requires places { (0 < length parts.opened.items)
            × (length parts.opened.items ≤ MAX_PLACES) }
        ensures { result ≡ record {
          names = parts.names;
          opened = parts.opened.items;
          passes = parts.passes;
          max_runs = parts.max_runs;
          records_before = parts.records_before;
        } }
    {
        let TableParts {
            names,
            cells,
            opened,
            log,
            passes,
            max_runs,
            records_before,
            alloc,
        } = parts;
        Table {
            names,
            cells,
            opened,
            log: Mutex::new(log),
            passes,
            max_runs,
            records_before,
            alloc,
        }
    }

    /// The table's parts, which nobody shares any more. Only for `table_lifetime`.
    pub fn into_parts(self) -> TableParts<H, S, L, A>
        ensures names { result.names ≡ self.names }
        ensures opened { result.opened.items ≡ self.opened }
        ensures passes { result.passes ≡ self.passes }
        ensures max_runs { result.max_runs ≡ self.max_runs }
        ensures records_before { result.records_before ≡ self.records_before }
        ensures named { length self.names ≡ length self.opened }
        ensures cells { length result.cells.items ≡ length self.opened }
        ensures places { (0 < length self.opened) × (length self.opened ≤ MAX_PLACES) }
    {
        let Table {
            names,
            cells,
            opened,
            log,
            passes,
            max_runs,
            records_before,
            alloc,
        } = self;
        TableParts {
            names,
            cells,
            opened,
            log: log.into_inner(),
            passes,
            max_runs,
            records_before,
            alloc,
        }
    }
}
