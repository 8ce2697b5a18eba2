//! The way to a running server over TCP: its file, its address, its table.

ghost use Rattle.std.specs.Prelude.{◌≡◌, ◌+◌, ◌≤◌, ◌⊎◌, None};
ghost use Rattle.command_line.specs.declared.limits.TheConstants.{MAX_RECORDS};
ghost use Rattle.exit_lines.specs.DeviceStates.{drain_state};
ghost use Rattle.tcp_server.specs.ServerRun.{HasNotServed, HasServed};

use crate::checked_server_options::ServerPlan;
use crate::new_log::new_log;
use crate::server_run::serve_run;
use crate::server_sizes::Settings;
use crate::tcp_sockets_and_arrivals::TcpArrivals;
use append_file::FileHandle;
use append_log::{LogSink, NoSink, SyncHandle};
use command_line::ServeTask;
use connections::{Watched, descriptor_limit};
use exit_lines::{Finish, Line, print};
use hand_over::Arrivals;
use program_runs::{Ending, Telling, WatchedFiles, open_file, tell_torn};
use resp_wire::{ByteDrain, PolledDrain, PolledSource, Writing};
use sorted_sets::OneOwner;
use std::alloc::{AllocGlobal, Global};
use std::fs::File;
use std::hash::RandomState;
use std::io::{self, ErrorKind};
use std::marker::Brand;
use std::net::{Net, SocketAddr, TcpListener};
use std::sync::Wait;
use std::sync::ledger::{Blank, Ledger};
use std::thread::Threads;
use std::time::Clock;
use table_worker::{Journal, handle_of};

/// The sets that a server starts with, and where the records of their changes go.
#[derive(Drop)]
pub struct Stock<K, Y> {
    pub owner: OneOwner<RandomState, Global>,
    pub sink: K,
    /// Where many changes share a sync: by which way they are synced.
    pub handle: Option<Y>,
    /// How many records may be appended.
    pub max_records: u64,
    ghost records_fit: { (1 ≤ max_records) × (max_records ≤ MAX_RECORDS) },
}

/// Serves connections from a stock, as [`serve_run`] does. The blank is of the ledger that counts the
/// records: one part for each place, and two for the log.
pub fn serve_stock<L, A, S, D, K, Y, W, R>(
    rt: &R,
    arrivals: &mut A,
    blank: Blank,
    stock: Stock<K, Y>,
    settings: &Settings,
    drain: &mut W,
) -> Finish
where
    L: Ledger + Send + Sync,
    A: Arrivals<Conn = (S, D)>,
    S: PolledSource + Watched + Drop + Send,
    D: PolledDrain + Drop + Send,
    K: LogSink + Drop + Send,
    Y: SyncHandle + Drop + Send,
    W: ByteDrain,
    R: Wait + Threads + Net + Clock + AllocGlobal + Sync,
    // No set of the owner is prepared.
    requires idle { stock.owner.next ≡ None }
    // The blank is that of the ledger, and has its parts.
    requires name { blank.name ≡ L.name }
    requires parts { blank.parts ≡ L.parts }
    requires enough { settings.now.places + 2 ≤ blank.parts }
    // As `serve_run` does, with a log of no record.
    ensures { HasServed A.came A.last arrivals.old arrivals.new stock.owner.world 0 settings.now
        (drain_state W.told W.flushed W.failures drain.old)
        (drain_state W.told W.flushed W.failures drain.new)
        result
        ⊎ HasNotServed arrivals.old arrivals.new stock.owner.world settings.now.places
        (drain_state W.told W.flushed W.failures drain.old)
        (drain_state W.told W.flushed W.failures drain.new)
        result }
{
    let Stock {
        owner,
        sink,
        handle,
        max_records,
    } = stock;
    let log = new_log::<_, L>(blank, sink, max_records, handle.is_some());
    serve_run(
        rt,
        arrivals,
        owner,
        Journal { log, handle },
        settings,
        drain,
    )
}

/// Binds an address, and gives it with the port that was really bound.
fn bind(rt: &HostRuntime, address: SocketAddr) -> io::Result<(TcpListener, SocketAddr)> {
    let listener = TcpListener::bind(rt, address)?;
    let bound = listener.local_addr()?;
    Ok((listener, bound))
}

/// Prints the address that was bound.
fn print_bound<D: ByteDrain>(alloc: Global, bound: SocketAddr, drain: &mut D) -> Result<(), Line> {
    let Ok(text) = format!(in alloc; "listening on {bound}\n") else {
        return Err(Line::OutOfMemory);
    };
    print(drain, text.as_bytes())
}

/// Listens on an address, and prints it with the port that was really bound.
fn listen<D: ByteDrain>(
    rt: &HostRuntime,
    address: SocketAddr,
    drain: &mut D,
) -> Result<TcpListener, Ending> {
    let (listener, bound) = match bind(rt, address) {
        Ok(bound) => bound,
        Err(cause) => return Err(Ending::of_address(rt.alloc(), address, cause)),
    };
    match print_bound(rt.alloc(), bound, drain) {
        Ok(()) => Ok(listener),
        Err(line) => Err(Ending::of(Finish::by(line))),
    }
}

/// Descriptors that are no client's: the standard streams, the listener, the append file and its
/// folder, what the accepting thread waits by, and some for sockets that are being closed.
const OTHER_DESCRIPTORS: u64 = 32;

/// What each worker waits by.
const WORKER_DESCRIPTORS: u64 = 2;

/// How many clients are served at once: as many as the plan says, and fewer where the process may
/// not have so many descriptors. That is told to one who is told causes.
fn clients_within(rt: &HostRuntime, plan: &ServerPlan, telling: Telling) -> u64 {
    let Some(limit) = descriptor_limit() else {
        return plan.max_clients;
    };
    let others = OTHER_DESCRIPTORS + WORKER_DESCRIPTORS * plan.settings.workers as u64;
    let room = limit.saturating_sub(others).max(1);
    if plan.max_clients <= room {
        return plan.max_clients;
    }
    if telling.causes {
        let _ = eprintln!(rt;
            "zcrackd: {room} clients at once, not {}: no more than {limit} files may be open",
            plan.max_clients
        );
    }
    room
}

/// Listens, and serves from the stock whatever connects.
fn serve_address<K, Y, R>(
    rt: &HostRuntime,
    threads: &R,
    plan: &ServerPlan,
    stock: Stock<K, Y>,
    telling: Telling,
) -> Ending
where
    K: LogSink + Drop + Send,
    Y: SyncHandle + Drop + Send,
    R: Wait + Threads + Net + Clock + AllocGlobal + Sync,
    requires { stock.owner.next ≡ None }
{
    let mut drain = Writing::new(rt.stdout());
    let listener = match listen(rt, plan.address, &mut drain) {
        Ok(listener) => listener,
        Err(ending) => return ending,
    };
    let clients = clients_within(rt, plan, telling);
    let mut arrivals = match TcpArrivals::new(rt, listener, clients, plan.timeout) {
        Ok(arrivals) => arrivals,
        Err(cause) if cause.kind() == ErrorKind::OutOfMemory => {
            return Ending::of(Finish::by(Line::OutOfMemory));
        }
        Err(cause) => return Ending::of_address(rt.alloc(), plan.address, cause),
    };
    let settings = &plan.settings;
    let blank = Blank::new(settings.places as u64 + 2);
    let finish = serve_stock::<Brand, _, _, _, _, _, _, _>(
        threads,
        &mut arrivals,
        blank,
        stock,
        settings,
        &mut drain,
    );
    // That accepting failed was told when it did.
    Ending::of(finish.without_line(Line::AcceptFault))
}

/// Serves from an append file, which is locked meanwhile. A torn end is told at once, and cut.
fn serve_file<R: Wait + Threads + Net + Clock + AllocGlobal + Sync>(
    rt: &HostRuntime,
    threads: &R,
    hasher: RandomState,
    plan: &ServerPlan,
    files: &WatchedFiles<'_>,
    path: &str,
) -> Ending {
    let alloc = rt.alloc();
    let mut owner = OneOwner::new(alloc, hasher);
    let (sink, loaded) = match open_file(files, alloc, path, &mut owner) {
        Ok(opened) => opened,
        Err(line) => return Ending::of_files(files, Finish::by(line), path, path),
    };
    tell_torn(alloc, &mut Writing::new(rt.stderr()), &loaded);
    let handle = match handle_of(&sink, plan.sync) {
        Ok(handle) => handle,
        Err(line) => return Ending::of_files(files, Finish::by(line), path, path),
    };
    let stock = Stock {
        owner,
        sink,
        handle,
        max_records: plan.max_records,
    };
    serve_address(rt, threads, plan, stock, files.telling())
}

/// Serves connections over TCP, from the sets of an append file where one is named, else from none.
/// What is at fault is told in this order: the text of the address, the file, the address, standard output, the
/// table and its workers.
pub fn serve_tcp<R: Wait + Threads + Net + Clock + AllocGlobal + Sync>(
    rt: &HostRuntime,
    threads: &R,
    hasher: RandomState,
    task: ServeTask<'_>,
    telling: Telling,
) -> Ending {
    let Some(plan) = ServerPlan::read(&task) else {
        return Ending::of_no_address(rt.alloc(), task.listen);
    };
    if let Some(path) = task.file {
        let files = WatchedFiles::kept(rt, telling, path);
        return serve_file(rt, threads, hasher, &plan, &files, path);
    }
    let stock = Stock {
        owner: OneOwner::new(rt.alloc(), hasher),
        sink: NoSink::new(),
        handle: None::<FileHandle<File>>,
        max_records: plan.max_records,
    };
    serve_address(rt, threads, &plan, stock, telling)
}
