//! A table's cells.

ghost use Rattle.std.specs.Prelude.{◌≡◌, ◌<◌, ◌≤◌, length, IfOk};
ghost use Rattle.table_lifetime.specs.Opening.{AreIdleSets, AreNewCells};

use append_log::{Log, LogSink};
use set_table::{Cell, MAX_RUNS};
use sorted_sets::ZSet;
use std::alloc::{AllocError, Global};
use std::hash::BuildHasher;
use std::sync::RwLock;
use std::sync::ledger::Ledger;

/// A cell for each set, with a share of the log's records.
pub(crate) fn new_cells<H: BuildHasher + Drop, S: LogSink, L: Ledger>(
    alloc: Global,
    sets: Vec<ZSet<H, Global>>,
    passes: usize,
    max_runs: u64,
    log: &mut Log<S, L>,
) -> Result<Vec<Cell<H, L, Global>>, AllocError>
    requires idle { AreIdleSets sets.items }
    requires max_runs { max_runs ≤ MAX_RUNS }
    requires parts { length sets.items < log.old.parts }
    ensures cells { IfOk result (λ cells. AreNewCells max_runs passes sets.items cells.items) }
    ensures log { log.new.appended ≡ log.old.appended }
{
    let mut cells = Vec::new(alloc);
    for set in sets {
        let share = log.split();
        cells.push(Cell::new(alloc, cells.len(), set, max_runs, passes, share)?)?;
    }
    Ok(cells)
}

/// The cells, each behind a lock of its own. From here on a contract sees only how many they are.
pub(crate) fn behind_locks<H: BuildHasher + Drop, L: Ledger>(
    alloc: Global,
    cells: Vec<Cell<H, L, Global>>,
) -> Result<Vec<RwLock<Cell<H, L, Global>>>, AllocError>
    ensures { IfOk result (λ locks. length locks.items ≡ length cells.items) }
{
    let mut locks = Vec::new(alloc);
    for cell in cells {
        locks.push(RwLock::new(cell))?;
    }
    Ok(locks)
}
