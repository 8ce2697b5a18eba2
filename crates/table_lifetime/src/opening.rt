//! A table is opened with an owner's sets.

ghost use Rattle.std.specs.Prelude.{◌≡◌, ◌<◌, ◌≤◌, None, IfOk, IfErr};
ghost use Rattle.std.specs.FinMap as map;
ghost use Rattle.table_lifetime.specs.Opening.{AreNewPasses, IsOpened, IsTableOpenFault};

mod making_cells;
mod passes;
mod placing;

use crate::opening::making_cells::{behind_locks, new_cells};
use crate::opening::passes::new_passes;
use crate::opening::placing::{cards, empty_sets, place_all};
use append_log::{Log, LogSink};
use place_names::Names;
use set_table::{MAX_PASSES, MAX_PLACES, MAX_RUNS, Pass, Table, TableParts};
use sorted_sets::OneOwner;
use std::alloc::{AllocError, Global};
use std::hash::BuildHasher;
use std::sync::ledger::Ledger;

/// Why a table was not opened.
#[derive(Clone, Copy, Debug, PartialEq, Eq)]
pub enum TableOpenFault {
    /// There was no memory for it.
    NoMemory,
    /// There are more sets than places.
    TooManyKeys,
}

/// A table of an owner's sets, and its passes, one for each worker. A place may answer `max_runs` runs;
/// readings under a shared lock don't count. The table appends to the log, which must have more
/// shares left than there are places, since each place takes one, and counts records from now on.
///
/// Promised are the numbers of places, passes and runs; that the members at all places add up to the
/// owner's; and that each pass knows the place of every set, with that set's number of members. Of the
/// sets behind the locks no contract tells more: that they are the owner's, that they stand in the byte
/// order of their keys, and that each other place has an empty set and no name, tests show.
///
/// # Errors
///
/// Owner and log are dropped, and nothing was written. [`TableOpenFault::TooManyKeys`] exactly where
/// there are more sets than places; [`TableOpenFault::NoMemory`].
pub fn open<H: BuildHasher + Clone + Drop, S: LogSink + Drop, L: Ledger>(
    alloc: Global,
    owner: OneOwner<H, Global>,
    log: Log<S, L>,
    places: usize,
    passes: usize,
    max_runs: u64,
) -> Result<(Table<H, S, L, Global>, Vec<Pass<Global>>), TableOpenFault>
    requires idle { owner.next ≡ None }
    requires places { (1 ≤ places) × (places ≤ MAX_PLACES) }
    requires passes { (1 ≤ passes) × (passes ≤ MAX_PASSES) }
    requires max_runs { (1 ≤ max_runs) × (max_runs ≤ MAX_RUNS) }
    requires parts { places < log.parts }
    ensures table { IfOk result
        (λ opened. IsOpened owner.world places passes max_runs log.appended opened.0) }
    ensures passes { IfOk result
        (λ opened. AreNewPasses opened.0 owner.world opened.1.items) }
    ensures fits { IfOk result (λ _. map.len owner.world ≤ places) }
    ensures err { IfErr result (λ fault. IsTableOpenFault fault owner.world places) }
{
    if owner.key_count() > places {
        return Err(TableOpenFault::TooManyKeys);
    }
    match build(alloc, owner, log, places, passes, max_runs) {
        Ok(opened) => Ok(opened),
        Err(_) => Err(TableOpenFault::NoMemory),
    }
}

/// The table and its passes, where there are places for all sets.
fn build<H: BuildHasher + Clone + Drop, S: LogSink + Drop, L: Ledger>(
    alloc: Global,
    owner: OneOwner<H, Global>,
    log: Log<S, L>,
    places: usize,
    passes: usize,
    max_runs: u64,
) -> Result<(Table<H, S, L, Global>, Vec<Pass<Global>>), AllocError>
    requires idle { owner.next ≡ None }
    requires places { (1 ≤ places) × (places ≤ MAX_PLACES) }
    requires max_runs { max_runs ≤ MAX_RUNS }
    requires parts { places < log.parts }
    ensures table { IfOk result
        (λ opened. IsOpened owner.world places passes max_runs log.appended opened.0) }
    ensures passes { IfOk result (λ opened. AreNewPasses opened.0 owner.world opened.1.items) }
{
    let mut log = log;
    let records_before = log.appended();
    let names = Names::new(alloc, places)?;
    let mut knowledge = names.knowledge()?;
    let mut sets = empty_sets(alloc, &owner, places)?;
    place_all(owner, &names, &mut knowledge, &mut sets)?;
    let opened = cards(alloc, &sets)?;
    let cells = behind_locks(alloc, new_cells(alloc, sets, passes, max_runs, &mut log)?)?;
    let made = new_passes(alloc, &mut knowledge, passes, &opened)?;
    let table = Table::new(TableParts {
        names,
        cells,
        opened,
        log,
        passes,
        max_runs,
        records_before,
        alloc,
    });
    Ok((table, made))
}
