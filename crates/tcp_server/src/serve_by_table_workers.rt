//! Connections handed over to the workers of a table, and what these bring back.

ghost use Rattle.std.specs.Prelude.{◌≡◌, ◌+◌, ◌≤◌, [], length, All, IfOk, OnErr, vec_len, vec_capacity};
ghost use Rattle.command_line.specs.declared.limits.TheConstants.{MAX_CONNECTIONS};
ghost use Rattle.hand_over.specs.Outcome.{all_of};
ghost use Rattle.set_table.specs.TableAndPassViews.{IsPassOf};
ghost use Rattle.tcp_server.specs.ServerRun.{IsAttended};
ghost use Rattle.table_worker.specs.WorkerRequests.{new_handlers, passes_of};

use append_log::{LogSink, SyncHandle, Syncer};
use connections::Watched;
use hand_over::{Arrivals, HandOverFault, HandedOver, hand_over};
use resp_wire::{PolledDrain, PolledSource};
use set_table::{Pass, Table};
use std::alloc::{AllocGlobal, Global};
use std::hash::RandomState;
use std::io::{self, ErrorKind};
use std::net::Net;
use std::sync::ledger::Ledger;
use std::sync::{Mutex, Wait};
use std::thread::Threads;
use std::time::Clock;
use table_worker::ConnectionHandler;

/// What is known once all connections were served.
#[derive(Drop)]
pub struct ServedConnections {
    /// The workers' passes.
    pub passes: Vec<Pass<Global>>,
    /// How many connections came.
    pub connections: u128,
    /// Accepting ended by a fault.
    pub fault: bool,
}

/// Why a handler can't be made: no memory, or no descriptor to wait by.
fn fault_of(error: &io::Error) -> HandOverFault {
    if error.kind() == ErrorKind::OutOfMemory {
        return HandOverFault::NoMemory;
    }
    HandOverFault::Spawn
}

/// A handler for each pass.
fn handlers_of<'t, K, L, Y, S, D, R>(
    rt: &'t R,
    alloc: Global,
    table: &'t Table<RandomState, K, L, Global>,
    syncer: Option<&'t Mutex<Syncer<Y>>>,
    passes: Vec<Pass<Global>>,
) -> Result<Vec<ConnectionHandler<'t, K, L, Y, S, D, R>>, HandOverFault>
where
    K: LogSink,
    L: Ledger,
    Y: SyncHandle,
    S: PolledSource + Watched + Drop,
    D: PolledDrain + Drop,
    R: Net + Clock,
    requires own { All (IsPassOf table.now) passes.items }
    ensures handlers { IfOk result (λ handlers. handlers.items ≡ new_handlers table.entry.now passes.items) }
    ensures none { IfOk result (λ handlers. All (λ handler. handler.handled ≡ 0) handlers.items) }
{
    let mut handlers = Vec::with_capacity(alloc, passes.len())?;
    for pass in passes {
        match ConnectionHandler::new(rt, alloc, table, syncer, pass) {
            Ok(handler) => handlers.push_reserved(handler),
            Err(error) => return Err(fault_of(&error)),
        }
    }
    Ok(handlers)
}

/// The handlers' passes, in a list that has room for them.
fn take_passes<K: LogSink, L: Ledger, Y, S: PolledSource + Drop, D: PolledDrain + Drop, C>(
    handlers: Vec<ConnectionHandler<'_, K, L, Y, S, D, C>>,
    passes: &mut Vec<Pass<Global>>,
)
    requires empty { passes.old.items ≡ [] }
    requires room { vec_len handlers ≤ vec_capacity passes.old }
    ensures passes { passes.new.items ≡ passes_of handlers.entry.items }
    ensures own { All (λ handler. IsPassOf handler.worker.table handler.worker.pass) handlers.entry.items }
{
    for handler in handlers {
        passes.push_reserved(handler.into_pass());
    }
}

/// How many numbers the lists have.
fn count_of<H>(handed: &HandedOver<H>) -> u128
    requires few { vec_len handed.now.taken ≤ 64 }
    ensures { result ≡ length (all_of handed.now.taken.items) + vec_len handed.now.left }
{
    let mut count = handed.left.len() as u128;
    for list in handed.taken.iter() {
        count += list.len() as u128;
    }
    count
}

/// Hands connections over to workers on a table, one with each of these passes, `limit` connections
/// at most, and gathers the passes once all were served. Where there is a syncer, the workers settle the log's records
/// by it.
///
/// # Errors
///
/// As [`hand_over`] has them: no connection was accepted.
pub fn attend<A, S, D, K, L, Y, R>(
    rt: &R,
    arrivals: &mut A,
    table: &Table<RandomState, K, L, Global>,
    syncer: Option<&Mutex<Syncer<Y>>>,
    passes: Vec<Pass<Global>>,
    limit: u64,
) -> Result<ServedConnections, HandOverFault>
where
    A: Arrivals<Conn = (S, D)>,
    S: PolledSource + Watched + Drop + Send,
    D: PolledDrain + Drop + Send,
    K: LogSink + Send,
    L: Ledger + Send + Sync,
    Y: SyncHandle + Send,
    R: Wait + Threads + Net + Clock + AllocGlobal + Sync,
    // The passes are the table's,
    requires own { All (IsPassOf table.now) passes.items }
    // for 64 workers at most.
    requires few { vec_len passes ≤ 64 }
    requires limit { (1 ≤ limit) × (limit ≤ MAX_CONNECTIONS) }
    // Each pass became what its worker's requests made of it, and the connections are counted.
    ensures ok { IfOk result (λ served. IsAttended A.came A.last arrivals.old arrivals.new limit
        table.now passes.items served.passes.items served.connections served.fault) }
    // Refused, nothing was accepted.
    ensures err { OnErr result (arrivals.new ≡ arrivals.old) }
{
    let alloc = rt.alloc();
    let mut gathered = Vec::with_capacity(alloc, passes.len())?;
    let handlers = handlers_of(rt, alloc, table, syncer, passes)?;
    let handed = hand_over(rt, alloc, arrivals, handlers, limit)?;
    let connections = count_of(&handed);
    take_passes(handed.handlers, &mut gathered);
    Ok(ServedConnections {
        passes: gathered,
        connections,
        fault: handed.fault,
    })
}
