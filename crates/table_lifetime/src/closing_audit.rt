//! The end of a table: the passes are gathered, and what they tell is compared with the cells.

ghost use Rattle.std.specs.Prelude.{◌≡◌, ◌+◌, ◌*◌, ◌<◌, ◌≤◌, ◌^◌, ◌↔◌, ℕ, length, IfErr, IfNone, IfOk, IfSome, OnOk, IsTrue};
ghost use Rattle.std.proofs.Math.ListN.{get_or};
ghost use Rattle.set_table.specs.CellViewAndRuns.{InStep, CellIsWhole};
ghost use Rattle.table_lifetime.specs.ClosingSteps.{AddsCell, AddsPlace, HaveShares, IsBounded};
ghost use Rattle.table_lifetime.specs.ClosingAudit.{AddsUp, AgreeAt, Agrees, AreNumbered, AreOfCells, HasOtherCell, HaveOnePlace, IsOutOfStep, pass_at, share_at};
ghost use Rattle.set_table.specs.TableAndPassViews.{IsPassOf};

mod passes_agree_on_names;
mod sort_passes_by_number;
pub(crate) mod totals;

use crate::closing_audit::passes_agree_on_names::compare_names;
use crate::closing_audit::sort_passes_by_number::put_in_order;
use crate::closing_audit::totals::Totals;
use append_log::{Log, LogSink};
use set_table::{Cell, MAX_PLACES, Pass, Table, TableParts};
use std::alloc::Allocator;
use std::hash::BuildHasher;
use std::sync::RwLock;
use std::sync::ledger::Ledger;

/// Why a table can't tell its totals.
#[derive(Clone, Copy, Debug, PartialEq, Eq)]
pub enum CloseFault {
    /// The passes that were handed in are not all of the table's.
    MissingPass,
    /// A cell and a pass, or the cells and the log, tell different numbers.
    OutOfStep,
}

/// Ends the table, and tells what became of its sets by what the passes were answered: the
/// totals, and the log. The passes may come in any order.
///
/// Promised are that each total is the sum over the places of what all passes were told, members being
/// those at opening, with those added and without those removed; that members and records are those of
/// cells, one for each place, which tell the same as each pass; that the log has as many records more
/// than at opening as the totals tell; that passes which know a place's name know the same one; and that
/// no key has two places.
///
/// # Errors
///
/// Table and passes are dropped. [`CloseFault::MissingPass`] exactly where the numbers of the
/// passes are not 0 to the last, each once; [`CloseFault::OutOfStep`] where a cell and a pass
/// are not in step, a cell may answer another number of runs than the table says, or the cells'
/// records are not those that the log took since the table was opened. With the table's own passes
/// that would be a fault of `set_table`, or of this crate. No contract sees what stands behind the
/// locks, so the numbers are compared here, and that they agree is not proved: promised is that there
/// is such a cell, or log, where that is answered.
pub fn close<H: BuildHasher + Drop, S: LogSink + Drop, L: Ledger, A: Allocator + Copy>(
    table: Table<H, S, L, A>,
    passes: Vec<Pass<A>, A>,
) -> Result<(Totals, Log<S, L>), CloseFault>
    requires own { (i : ℕ) → i < length passes.items → IsPassOf table (pass_at passes.items i) }
    ensures totals { IfOk result (λ closed. AddsUp passes.items table.opened closed.0) }
    ensures records { IfOk result
        (λ closed. closed.0.records + table.records_before ≡ closed.1.appended) }
    ensures cells { IfOk result (λ closed. AreOfCells passes.items table.max_runs (length table.opened)
        closed.0.members closed.0.records) }
    ensures agree { OnOk result ((place : ℕ) → place < length table.names
        → AgreeAt passes.items place) }
    ensures one_place { OnOk result (HaveOnePlace passes.items) }
    ensures numbered { OnOk result (AreNumbered passes.items table.passes) }
    ensures missing { IfErr result (λ fault. (fault ≡ CloseFault.MissingPass)
        ↔ (AreNumbered passes.items table.passes → ⊥)) }
    ensures out_of_step { IfErr result (λ fault. fault ≡ CloseFault.OutOfStep
        → IsOutOfStep passes.items table.max_runs table.opened table.records_before) }
{
    let mut passes = passes;
    let parts = table.into_parts();
    compare_names(&parts.names, &mut passes);
    if !put_in_order(&mut passes, parts.passes) {
        return Err(CloseFault::MissingPass);
    }
    match add_up(parts, &passes) {
        Some(closed) => Ok(closed),
        None => Err(CloseFault::OutOfStep),
    }
}

/// The totals and the log, where all numbers agree. The passes stand in the order of their
/// numbers.
fn add_up<H: BuildHasher + Drop, S: LogSink + Drop, L: Ledger, A: Allocator + Copy>(
    parts: TableParts<H, S, L, A>,
    passes: &Vec<Pass<A>, A>,
) -> Option<(Totals, Log<S, L>)>
    requires own { HaveShares passes.now.items (length parts.opened.items) }
    requires count { length parts.cells.items ≡ length parts.opened.items }
    requires few { length parts.opened.items ≤ MAX_PLACES }
    ensures totals { IfSome result (λ closed. AddsUp passes.now.items parts.opened.items closed.0) }
    ensures records { IfSome result
        (λ closed. closed.0.records + parts.records_before ≡ closed.1.appended) }
    ensures cells { IfSome result (λ closed. AreOfCells passes.now.items parts.max_runs (length parts.opened.items)
        closed.0.members closed.0.records) }
    ensures none { IfNone result
        (IsOutOfStep passes.now.items parts.max_runs parts.opened.items parts.records_before) }
{
    let TableParts {
        names: _names,
        mut cells,
        opened,
        log,
        passes: _,
        max_runs,
        records_before,
        alloc: _,
    } = parts;
    let totals = add_places(&mut cells, passes, &opened, max_runs)?;
    if !are_appended(totals.records, records_before, log.appended()) {
        return None;
    }
    Some((totals, log))
}

/// Whether so many records were appended to a log that had `before` of them.
fn are_appended(records: u128, before: u64, appended: u64) -> bool
    requires { records ≤ MAX_PLACES * 2 ^ 64 }
    ensures { IsTrue result ↔ (records + before ≡ appended) }
{
    records + u128::from(before) == u128::from(appended)
}

/// The totals of all places, where each cell is in step with each pass. The passes stand in the order
/// of their numbers.
fn add_places<H: BuildHasher, L: Ledger, A: Allocator + Copy>(
    cells: &mut [RwLock<Cell<H, L, A>>],
    passes: &Vec<Pass<A>, A>,
    opened: &[u64],
    max_runs: u64,
) -> Option<Totals>
    requires own { HaveShares passes.now.items (length opened.now) }
    requires count { length cells.old ≡ length opened.now }
    requires few { length opened.now ≤ MAX_PLACES }
    ensures sums { IfSome result (λ totals. AddsUp passes.now.items opened.now totals) }
    ensures bound { IfSome result (λ totals. totals.records ≤ MAX_PLACES * 2 ^ 64) }
    ensures cells { IfSome result (λ totals. AreOfCells passes.now.items max_runs (length opened.now)
        totals.members totals.records) }
    ensures none { IfNone result (HasOtherCell passes.now.items max_runs opened.now) }
{
    let mut totals = Totals::none();
    for place in 0..opened.len() {
        let cell = cells[place].get_mut();
        totals = add_place(cell, passes, place, opened[place], max_runs, totals)?;
    }
    Some(totals)
}

/// The totals with one place more.
fn add_place<H: BuildHasher, L: Ledger, A: Allocator + Copy>(
    cell: &Cell<H, L, A>,
    passes: &Vec<Pass<A>, A>,
    place: usize,
    opened: u64,
    max_runs: u64,
    totals: Totals,
) -> Option<Totals>
    requires own { HaveShares passes.now.items (place + 1) }
    requires few { place < MAX_PLACES }
    requires bound { IsBounded place totals }
    ensures sums { IfSome result (λ more. AddsPlace passes.now.items place opened totals more) }
    ensures bound { IfSome result (λ more. IsBounded (place + 1) more) }
    ensures cell { IfSome result (λ more. AddsCell passes.now.items max_runs place cell.now totals more) }
    ensures none { IfNone result
        (cell.now.opened ≡ opened → Agrees passes.now.items max_runs place cell.now → ⊥) }
    ensures whole { CellIsWhole cell.now }
{
    let numbers = cell.numbers();
    if numbers.opened != opened
        || numbers.max_runs != max_runs
        || !cell.has_tallies(passes.len())
        || !all_in_step(cell, passes, place)
    {
        return None;
    }
    Some(Totals {
        sets: totals.sets + u128::from(numbers.members.min(1)),
        members: totals.members + u128::from(numbers.members),
        opened: totals.opened + u128::from(opened),
        added: totals.added + u128::from(numbers.total.added),
        removed: totals.removed + u128::from(numbers.total.removed),
        records: totals.records + u128::from(numbers.records),
    })
}

/// Whether a cell is in step with each pass.
fn all_in_step<H: BuildHasher, L: Ledger, A: Allocator + Copy>(
    cell: &Cell<H, L, A>,
    passes: &Vec<Pass<A>, A>,
    place: usize,
) -> bool
    requires { (i : ℕ) → i < length passes.now.items
        → place < length (pass_at passes.now.items i).shares }
    ensures { IsTrue result ↔ ((i : ℕ) → i < length passes.now.items
        → InStep cell.now (share_at (pass_at passes.now.items i) place)) }
{
    for i in 0..passes.len() {
        if !cell.is_in_step(passes[i].share(place)) {
            return false;
        }
    }
    true
}
