//! A server: connections handed over to workers that share a table of sets.

ghost use Rattle.std.specs.Prelude.{◌≡◌, ◌<◌, ◌⊎◌, None, All};
ghost use Rattle.table_lifetime.specs.ClosingAudit.{AreNumbered};
ghost use Rattle.set_table.specs.TableAndPassViews.{IsPassOf};
ghost use Rattle.exit_lines.specs.DeviceStates.{drain_state};
ghost use Rattle.tcp_server.specs.ServerRun as server;
ghost use Rattle.tcp_server.specs.ServerRun.{HasNotServed, HasServed, HasTotals, IsTold};

use crate::serve_by_table_workers::attend;
use crate::server_sizes::Settings;
use crate::totals_line::{print_totals, server_finish};
use append_log::{LogSink, SyncHandle, Syncer};
use connections::Watched;
use exit_lines::{Finish, Line};
use hand_over::{Arrivals, HandOverFault};
use resp_wire::{ByteDrain, PolledDrain, PolledSource};
use set_table::{MAX_RUNS, Pass, Table};
use sorted_sets::OneOwner;
use std::alloc::{AllocGlobal, Global};
use std::hash::RandomState;
use std::net::Net;
use std::sync::ledger::Ledger;
use std::sync::{Mutex, Wait};
use std::thread::Threads;
use std::time::Clock;
use table_lifetime::{CloseFault, TableOpenFault, Totals, close, open};
use table_worker::Journal;

/// The line that tells why there is no table.
fn open_line(fault: TableOpenFault) -> Line
    ensures { result ≡ server.table_open_line fault }
{
    match fault {
        TableOpenFault::NoMemory => Line::OutOfMemory,
        TableOpenFault::TooManyKeys => Line::MoreKeysThanPlaces,
    }
}

/// The line that tells why no connection was handed over.
fn hand_over_line(fault: HandOverFault) -> Line
    ensures { result ≡ server.hand_over_line fault }
{
    match fault {
        HandOverFault::NoMemory => Line::OutOfMemory,
        HandOverFault::Spawn => Line::CannotStartWorkers,
    }
}

/// Closes a table, and gives its totals. The passes are all that it has, so that none is missing.
fn totals_of<K: LogSink + Drop, L: Ledger>(
    table: Table<RandomState, K, L, Global>,
    passes: Vec<Pass<Global>>,
) -> Result<Totals, CloseFault>
    // The passes are the table's,
    requires own { All (IsPassOf table) passes.items }
    // all of them.
    requires numbered { AreNumbered passes.items table.passes }
    // The totals are those of the passes, or they disagree with what stands in the table.
    ensures { HasTotals result table.opened passes.items }
{
    match close(table, passes) {
        Ok((totals, _log)) => Ok(totals),
        Err(fault) => Err(fault),
    }
}

/// Tells the totals of a closed table, where its numbers agree.
fn tell_totals<D: ByteDrain>(
    alloc: Global,
    drain: &mut D,
    connections: u128,
    closed: Result<Totals, CloseFault>,
) -> Result<(), Line>
    ensures { IsTold closed connections result
        (drain_state D.told D.flushed D.failures drain.old)
        (drain_state D.told D.flushed D.failures drain.new) }
{
    match closed {
        Ok(totals) => print_totals(alloc, drain, connections, &totals),
        Err(_) => Err(Line::TotalsDisagree),
    }
}

/// Serves connections from the sets of an owner, until as many came as the settings say, the arrivals close, or accepting
/// fails. Each worker is a thread that serves many connections.
///
/// Either it does not begin: nothing is accepted and nothing printed. The status is 3 where there are more keys than
/// places, 4 where there is no memory or no thread.
///
/// Or one table is opened, in which each key's place has as many members as the owner's set. What each worker's pass
/// knows in the end is what some requests made of it, each answered lawfully. Then, where the table's numbers agree, the
/// line `connections C sets S members M added A removed R records L` is printed: so many connections came, S, M, A and R
/// are the passes' totals, and of L no clause speaks. The status is 0; else 4 where there was no memory for the line, and
/// else 1: accepting failed, the line could not be written, or the numbers disagree.
///
/// No clause says that a connection is served to its end, that the requests are the connections' own, when the numbers
/// disagree, that a log that breaks changes neither line nor status and has changes refused from then on, or that a
/// reply waits until what it tells of is settled, as it does where the journal has a handle: tests show these.
pub fn serve_run<A, S, D, K, L, Y, W, R>(
    rt: &R,
    arrivals: &mut A,
    owner: OneOwner<RandomState, Global>,
    journal: Journal<K, L, Y>,
    settings: &Settings,
    drain: &mut W,
) -> Finish
where
    A: Arrivals<Conn = (S, D)>,
    S: PolledSource + Watched + Drop + Send,
    D: PolledDrain + Drop + Send,
    K: LogSink + Drop + Send,
    L: Ledger + Send + Sync,
    Y: SyncHandle + Drop + Send,
    W: ByteDrain,
    R: Wait + Threads + Net + Clock + AllocGlobal + Sync,
    // No set of the owner is prepared.
    requires idle { owner.next ≡ None }
    // The log has a part for each place, and one more.
    requires parts { settings.now.places < journal.log.parts }
    // The connections were served and the passes' totals told, or it did not begin to serve.
    ensures { HasServed A.came A.last arrivals.old arrivals.new owner.world journal.log.appended settings.now
        (drain_state W.told W.flushed W.failures drain.old)
        (drain_state W.told W.flushed W.failures drain.new)
        result
        ⊎ HasNotServed arrivals.old arrivals.new owner.world settings.now.places
        (drain_state W.told W.flushed W.failures drain.old)
        (drain_state W.told W.flushed W.failures drain.new)
        result }
{
    let alloc = rt.alloc();
    let Settings {
        workers,
        places,
        connections,
    } = *settings;
    let Journal { log, handle } = journal;
    let syncer = handle.map(|handle| Mutex::new(Syncer::new(handle)));
    let (table, passes) = match open(alloc, owner, log, places, workers, MAX_RUNS) {
        Ok(opened) => opened,
        Err(fault) => return Finish::by(open_line(fault)),
    };
    let served = match attend(rt, arrivals, &table, syncer.as_ref(), passes, connections) {
        Ok(served) => served,
        Err(fault) => return Finish::by(hand_over_line(fault)),
    };
    let closed = totals_of(table, served.passes);
    let printed = tell_totals(alloc, drain, served.connections, closed);
    server_finish(printed, served.fault)
}
