//! How the workers of a server settle the records of its log.

ghost use Rattle.std.specs.Prelude.{◌≡◌, ⊤, None, Ok, IfErr, IfOk, IsSome};
ghost use Rattle.append_file.specs.declared.file_sink.FileFault.TheVariants as faults;
ghost use Rattle.command_line.specs.declared.serve.SyncMode.TheVariants.{Each, Group};
ghost use Rattle.exit_lines.specs.declared.lines_and_statuses.Line.TheVariants as lines;
ghost use Rattle.exit_lines.specs.declared.lines_and_statuses.Unusable.TheVariants as unusable;

use append_file::{FileFault, FileHandle, FileSink};
use append_log::{Log, LogSink, SyncHandle, Syncer};
use command_line::SyncMode;
use connections::Settle;
use exit_lines::{Line, Unusable};
use set_table::Table;
use std::alloc::Global;
use std::fs::OpenFile;
use std::hash::RandomState;
use std::io::Write;
use std::sync::ledger::Ledger;
use std::sync::{Mutex, Wait};

/// A server's log, and where its appends leave their syncs to others, the way by which these sync.
#[derive(Drop)]
pub struct Journal<K: LogSink, L: Ledger, Y> {
    pub log: Log<K, L>,
    pub handle: Option<Y>,
}

/// The way by which the changes in an append file are synced, where many share a sync. Where each is synced by itself there
/// is none.
///
/// # Errors
///
/// The system gives no second descriptor of the file: the line of a file that can't be opened.
pub fn handle_of<F: Write + OpenFile>(
    sink: &FileSink<F>,
    sync: SyncMode,
) -> Result<Option<FileHandle<F>>, Line>
    ensures each { sync ≡ Each → result ≡ Ok None }
    ensures group { sync ≡ Group → IfOk result (λ handle. IsSome handle) }
    ensures err { IfErr result (λ line. line ≡ lines.CannotUseFile (unusable.Old faults.Open)) }
{
    match sync {
        SyncMode::Each => Ok(None),
        SyncMode::Group => match sink.handle() {
            Ok(handle) => Ok(Some(handle)),
            Err(_) => Err(Line::CannotUseFile(Unusable::Old(FileFault::Open))),
        },
    }
}

/// How a worker settles the records of a table's log: by the syncer that all workers share. Where there is none, all are
/// settled, each when it is appended.
#[derive(Drop)]
pub struct Settling<'t, K: LogSink, L: Ledger, Y> {
    pub table: &'t Table<RandomState, K, L, Global>,
    pub syncer: Option<&'t Mutex<Syncer<Y>>>,
}

impl<'t, R: Wait, K: LogSink, L: Ledger, Y: SyncHandle> Settle<R> for Settling<'t, K, L, Y> {
    // What the syncer knows stands behind its lock, and no clause follows it from there.
    ghost settles = { λ _ _. ⊤ };

    fn settles_later(&self) -> bool {
        self.syncer.is_some()
    }

    fn settle(&self, rt: &R, number: u64) -> Option<u64> {
        match self.syncer {
            Some(syncer) => self.table.settle(rt, syncer, number),
            None => Some(u64::MAX),
        }
    }
}
