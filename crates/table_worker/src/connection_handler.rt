//! What a worker thread does with its connections.

ghost use Rattle.std.specs.Prelude.{◌≡◌, ◌+◌, ◌<◌, ◌^◌, [], IfOk};
ghost use Rattle.set_table.specs.TableAndPassViews.{IsPassOf};
ghost use Rattle.table_worker.specs.WorkerRequests.{Attends};
ghost use Rattle.table_worker.specs.WorkerRequestsCompose.{attends_itself, attends_on};

use crate::settle_by_group_commit::Settling;
use crate::table_executor::Worker;
use append_log::{LogSink, SyncHandle, Syncer};
use connections::{Connections, Ringer, Watched};
use hand_over::{Bell, Handler};
use resp_wire::{PolledDrain, PolledSource};
use session_core::takes_turns;
use set_table::{NoGate, Pass, Table};
use std::alloc::Global;
use std::hash::RandomState;
use std::io;
use std::marker::Model;
use std::net::Net;
use std::sync::ledger::Ledger;
use std::sync::{Mutex, Wait};
use std::time::Clock;

/// Wakes a worker that waits for its connections.
#[derive(Drop)]
pub struct WorkerBell {
    ringer: Ringer<Global>,
}

impl Bell for WorkerBell {
    fn ring(&self) {
        self.ringer.ring();
    }
}

/// Serves connections, turn by turn, all by one worker on the server's table.
#[derive(Drop)]
pub struct ConnectionHandler<'t, K: LogSink, L: Ledger, Y, S: PolledSource, D: PolledDrain, C> {
    clock: &'t C,
    worker: Worker<'t, RandomState, K, L, Global, NoGate>,
    connections: Connections<S, D, Global>,
    /// How its worker settles records.
    table: &'t Table<RandomState, K, L, Global>,
    syncer: Option<&'t Mutex<Syncer<Y>>>,
    handled: u64,
}

impl<'t, K: LogSink, L: Ledger, Y, S: PolledSource, D: PolledDrain, C> Model
    for ConnectionHandler<'t, K, L, Y, S, D, C> {
    ghost use Rattle.table_worker.specs.WorkerRequests.{HandlerView};

    ghost Value = { HandlerView };

    ghost view = { λ h. record { worker = h.worker; handled = h.handled; connections = h.connections.held } };
}

impl<'t, K: LogSink, L: Ledger, Y, S: PolledSource, D: PolledDrain, C> ConnectionHandler<
    't,
    K,
    L,
    Y,
    S,
    D,
    C,
> {
    /// A handler that has served no connection, with one of the table's passes. Where there is a syncer, replies wait until
    /// what they tell of is settled by it.
    ///
    /// # Errors
    ///
    /// The system gives nothing to wait by, or, as [`io::ErrorKind::OutOfMemory`], no memory.
    pub fn new(
        rt: &'t C,
        alloc: Global,
        table: &'t Table<RandomState, K, L, Global>,
        syncer: Option<&'t Mutex<Syncer<Y>>>,
        pass: Pass<Global>,
    ) -> io::Result<Self>
    where
        S: Watched + Drop,
        D: Drop,
        C: Net + Clock,
        requires own { IsPassOf table.now pass }
        ensures worker { IfOk result (λ handler. handler.worker
            ≡ record { table = table.entry.now; pass = pass }) }
        ensures handled { IfOk result (λ handler. handler.handled ≡ 0) }
        ensures none { IfOk result (λ handler. handler.connections ≡ []) }
    {
        let connections = Connections::new(rt, alloc)?;
        Ok(ConnectionHandler {
            clock: rt,
            worker: Worker::new(table, pass, NoGate),
            connections,
            table,
            syncer,
            handled: 0,
        })
    }

    /// The worker's pass, for the table's end.
    pub fn into_pass(self) -> Pass<Global>
    where
        S: Drop,
        D: Drop,
        ensures pass { result ≡ self.entry.worker.pass }
        ensures own { IsPassOf self.entry.worker.table result }
    {
        let ConnectionHandler {
            clock: _,
            worker,
            connections: _,
            table: _,
            syncer: _,
            handled: _,
        } = self;
        worker.into_pass()
    }
}

/// Connections are served turn by turn, each to its end, whatever ends it: the end of its input, a
/// fault of its devices, bytes that begin no request. The worker's table and pass stay its own, and
/// its pass is moved by the requests that it ran, as a worker's answers move it. Each connection that
/// is held stands as one that is served alone: the requests that it sent were run in turn, with those
/// of others between them, and their replies are what was written.
impl<'t, K, L, Y, S, D, C> Handler<(S, D)> for ConnectionHandler<'t, K, L, Y, S, D, C>
where
    K: LogSink,
    L: Ledger,
    Y: SyncHandle,
    S: PolledSource + Watched + Drop,
    D: PolledDrain + Drop,
    C: Clock,
{
    type Bell = WorkerBell;

    ghost keeps = { Attends };

    ghost handled = { λ handler. handler.handled };

    ghost reflexive = { attends_itself };

    ghost transitive = { attends_on };

    fn bell(&self) -> Option<WorkerBell> {
        let ringer = self.connections.ringer()?;
        Some(WorkerBell { ringer })
    }

    fn live(&self) -> usize {
        self.connections.count()
    }

    fn handle<R: Wait>(&mut self, _rt: &R, connection: (S, D)) {
        // A connection that begins stands as one that is served alone.
        takes_turns::<R, Global, Worker<'t, RandomState, K, L, Global, NoGate>>();
        let (source, drain) = connection;
        self.handled += 1;
        self.connections.add(self.clock, source, drain);
    }

    fn turn<R: Wait>(&mut self, rt: &R) {
        let settling = Settling {
            table: self.table,
            syncer: self.syncer,
        };
        self.connections
            .turn(rt, self.clock, &mut self.worker, &settling);
    }
}
