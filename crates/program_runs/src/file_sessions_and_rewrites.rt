//! The append file: opened for a session, and written anew.

ghost use Rattle.std.specs.Prelude.{◌≡◌, None, false, IfOk, IfErr, OnOk};
ghost use Rattle.std.specs.Io.KnownBytes.{append_known};
ghost use Rattle.resp_wire.specs.Device.{Rose};
ghost use Rattle.append_file.specs.FileOpening.{Restores};
ghost use Rattle.exit_lines.specs.DeviceStates.{drain_state, source_state};
ghost use Rattle.exit_lines.specs.ExitStatusAndLines.{IsPrinted};
ghost use Rattle.program_runs.specs.FileRunOutcomes as files;
ghost use Rattle.program_runs.specs.FileRunOutcomes.{FailsBy, FileIsOpened, FileIsUnopened, Prints, MakesNewFile, Rewrites, ServesFile, ServesFrom, TellsTorn};
ghost use Rattle.exit_lines.specs.declared.lines_and_statuses.Line.TheVariants as lines;

use crate::stdio::stdio_run;
use append_file::{
    FileFault, FileSink, LockFile, NewFileFault, OpenFault, open_to_append, open_to_read,
    write_anew,
};
use append_log::{Loaded, Log, LogSink, LoggedOwner, ReloadFault, RewriteFault};
use exit_lines::{Finish, Line, Unusable, print};
use resp_wire::{ByteDrain, ByteSource};
use sorted_sets::OneOwner;
use std::alloc::{AllocGlobal, Global};
use std::fs::Files;
use std::hash::{BuildHasher, RandomState};
use std::marker::Brand;
use std::sync::ledger::{Blank, Ledger};

/// The most records that a session appends to its file.
pub const MAX_SESSION_RECORDS: u64 = 1_000_000_000;

/// The line that tells why a file's records could not be replayed.
fn reload_line(fault: ReloadFault) -> Line
    ensures { result ≡ files.reload_line fault }
{
    match fault {
        ReloadFault::NoMemory => Line::OutOfMemory,
        ReloadFault::Damaged(at) => Line::FileDamaged(at),
        ReloadFault::ReadFault => Line::FileReadFault,
        ReloadFault::NotACommand(at) => Line::NoCommandInFile(at),
        ReloadFault::TooManyReads => Line::FileReadTooOften,
        ReloadFault::UnknownVersion => Line::UnknownVersion,
    }
}

/// The line that tells why a file of version 1 was not renewed.
fn renewal_line(fault: NewFileFault) -> Line
    ensures { result ≡ files.renewal_line fault }
{
    let cause = match fault {
        NewFileFault::File(fault) => fault,
        NewFileFault::Rewrite(RewriteFault::Sink) => FileFault::Write,
        NewFileFault::Rewrite(RewriteFault::NoMemory) => return Line::OutOfMemory,
    };
    Line::CannotUseFile(Unusable::Renewed(cause))
}

/// The line that tells why a file was not opened.
fn open_line(fault: OpenFault) -> Line
    ensures { result ≡ files.open_line fault }
{
    match fault {
        OpenFault::File(fault) => Line::CannotUseFile(Unusable::Old(fault)),
        OpenFault::Reload(fault) => reload_line(fault),
        OpenFault::Renew(fault) => renewal_line(fault),
    }
}

/// The line that tells why a file was not written anew.
fn new_file_line(fault: NewFileFault) -> Line
    ensures { result ≡ files.new_file_line fault }
{
    match fault {
        NewFileFault::File(fault) => Line::CannotUseFile(Unusable::New(fault)),
        NewFileFault::Rewrite(RewriteFault::NoMemory) => Line::OutOfMemory,
        NewFileFault::Rewrite(RewriteFault::Sink) => Line::WriteFault,
    }
}

/// The notice of a torn end, where there is one.
fn torn_notice(loaded: &Loaded) -> Option<Line>
    ensures { result ≡ files.torn_notice loaded.now }
{
    if loaded.torn == 0 {
        None
    } else {
        Some(Line::TornEnd(loaded.torn))
    }
}

/// Opens a file for appending, as [`open_to_append`] does, with the line of its fault.
pub fn open_file<R: Files, H: BuildHasher + Clone + Drop>(
    rt: &R,
    alloc: Global,
    path: &str,
    owner: &mut OneOwner<H, Global>,
) -> Result<(FileSink<R::File>, Loaded), Line>
where
    R::File: LockFile,
    requires { owner.old.next ≡ None }
    ensures idle { owner.new.next ≡ None }
    ensures restores { IfOk result
        (λ opened. Restores owner.old.world opened.1 owner.new.world) }
    ensures calls { IfOk result (λ opened. ⟦<FileSink<R::File> as LogSink>⟧.calls opened.0 ≡ 0) }
    ensures failures { IfOk result
        (λ opened. ⟦<FileSink<R::File> as LogSink>⟧.failures opened.0 ≡ 0) }
    ensures fails { IfErr result (λ line. FailsBy line owner.old.world owner.new.world) }
{
    match open_to_append(rt, alloc, path, owner) {
        Ok(opened) => Ok(opened),
        Err(fault) => Err(open_line(fault)),
    }
}

/// An append file that is open: the owner of the sets that its records replay to, and the sink to
/// which their changes go.
#[derive(Drop)]
pub struct Opened<K> {
    pub owner: OneOwner<RandomState, Global>,
    pub sink: K,
}

/// Opens an append file for a session, and tells a torn end.
pub fn open_session<R: Files, E: ByteDrain>(
    rt: &R,
    alloc: Global,
    hasher: RandomState,
    path: &str,
    errors: &mut E,
) -> Result<Opened<FileSink<R::File>>, Line>
where
    R::File: LockFile,
    ensures idle { IfOk result (λ opened. opened.owner.next ≡ None) }
    ensures opened { IfOk result (λ opened. FileIsOpened opened.owner.world
        (drain_state E.told E.flushed E.failures errors.old)
        (drain_state E.told E.flushed E.failures errors.new)) }
    ensures unopened { IfErr result (λ line. FileIsUnopened line
        (drain_state E.told E.flushed E.failures errors.old)
        (drain_state E.told E.flushed E.failures errors.new)) }
{
    let mut owner = OneOwner::new(alloc, hasher);
    match open_file(rt, alloc, path, &mut owner) {
        Ok((sink, loaded)) => {
            tell_torn(alloc, errors, &loaded);
            Ok(Opened { owner, sink })
        }
        Err(line) => Err(line),
    }
}

/// Serves the source to the drain from an open file, with a sync for each change. The blank is of the ledger that counts
/// its records: one part for the log, one for the owner.
pub fn serve_logged<L: Ledger, R, K: LogSink + Drop, S: ByteSource, D: ByteDrain>(
    rt: &R,
    alloc: Global,
    blank: Blank,
    opened: Opened<K>,
    source: &mut S,
    drain: &mut D,
) -> Finish
    requires name { blank.name ≡ L.name }
    requires parts { blank.parts ≡ L.parts }
    requires two { blank.parts ≡ 2 }
    requires idle { opened.owner.next ≡ None }
    ensures { ServesFrom false opened.owner.world
        (source_state S.told S.calls S.failures source.old)
        (source_state S.told S.calls S.failures source.new)
        (drain_state D.told D.flushed D.failures drain.old)
        (drain_state D.told D.flushed D.failures drain.new)
        result }
{
    let Opened { owner, sink } = opened;
    let log = Log::<_, L>::new(blank, sink, MAX_SESSION_RECORDS);
    let mut logged = LoggedOwner::new(alloc, owner, log);
    stdio_run(rt, alloc, source, drain, &mut logged)
}

/// Prints the notice of a torn end.
fn print_torn<E: ByteDrain>(alloc: Global, errors: &mut E, bytes: u64) -> Result<(), Line>
    ensures { IsPrinted (files.torn_text bytes) result
        (drain_state E.told E.flushed E.failures errors.old)
        (drain_state E.told E.flushed E.failures errors.new) }
{
    let Ok(text) = format!(in alloc; "zcrackd: torn end of {bytes} bytes\n") else {
        return Err(Line::OutOfMemory);
    };
    print(errors, text.as_bytes())
}

/// Tells a torn end, where a file has one. That it can't be told changes nothing else.
pub fn tell_torn<E: ByteDrain>(alloc: Global, errors: &mut E, loaded: &Loaded)
    ensures { TellsTorn loaded.now.torn
        (drain_state E.told E.flushed E.failures errors.old)
        (drain_state E.told E.flushed E.failures errors.new) }
{
    if loaded.torn > 0 {
        let _ = print_torn(alloc, errors, loaded.torn);
    }
}

/// Serves the source to the drain from the sets of an append file, which is locked meanwhile and to
/// which the changes go. A torn end is cut or left out of the file that takes its place, and told
/// before the session begins.
pub fn serve_file<R: Files + AllocGlobal, S: ByteSource, D: ByteDrain, E: ByteDrain>(
    rt: &R,
    hasher: RandomState,
    path: &str,
    source: &mut S,
    drain: &mut D,
    errors: &mut E,
) -> Finish
where
    R::File: LockFile,
    ensures { ServesFile false
        (source_state S.told S.calls S.failures source.old)
        (source_state S.told S.calls S.failures source.new)
        (drain_state D.told D.flushed D.failures drain.old)
        (drain_state D.told D.flushed D.failures drain.new)
        (drain_state E.told E.flushed E.failures errors.old)
        (drain_state E.told E.flushed E.failures errors.new)
        result }
{
    let alloc = rt.alloc();
    match open_session(rt, alloc, hasher, path, errors) {
        Ok(opened) => {
            serve_logged::<Brand, _, _, _, _>(rt, alloc, Blank::new(2), opened, source, drain)
        }
        Err(line) => Finish::by(line),
    }
}

/// Prints the number of records, and gives it.
fn print_records<D: ByteDrain>(alloc: Global, drain: &mut D, records: u64) -> Result<u64, Line>
    ensures { Prints records result
        (drain_state D.told D.flushed D.failures drain.old)
        (drain_state D.told D.flushed D.failures drain.new) }
{
    let Ok(text) = format!(in alloc; "records {records}\n") else {
        return Err(Line::OutOfMemory);
    };
    match print(drain, text.as_bytes()) {
        Ok(()) => Ok(records),
        Err(line) => Err(line),
    }
}

/// Writes the new file with the records of the owner's sets, and prints their number.
fn renew<R: Files, D: ByteDrain>(
    rt: &R,
    alloc: Global,
    path: &str,
    owner: &OneOwner<RandomState, Global>,
    drain: &mut D,
) -> Finish
where
    R::File: LockFile,
    requires { owner.now.next ≡ None }
    ensures { MakesNewFile owner.now.world
        (drain_state D.told D.flushed D.failures drain.old)
        (drain_state D.told D.flushed D.failures drain.new)
        result }
{
    match write_anew(rt, alloc, path, owner) {
        Ok(records) => match print_records(alloc, drain, records) {
            Ok(_) => Finish::quiet(0),
            Err(line) => Finish::by(line),
        },
        Err(fault) => Finish::by(new_file_line(fault)),
    }
}

/// Writes the append file `new` with the records of the sets that the append file `old` replays to,
/// and prints their number. `old` is locked and read whole before anything is made of `new`, which
/// must not be there, and is not written to.
pub fn rewrite_run<R: Files, D: ByteDrain>(
    rt: &R,
    hasher: RandomState,
    alloc: Global,
    old: &str,
    new: &str,
    drain: &mut D,
) -> Finish
where
    R::File: LockFile,
    ensures { Rewrites
        (drain_state D.told D.flushed D.failures drain.old)
        (drain_state D.told D.flushed D.failures drain.new)
        result }
{
    let mut owner = OneOwner::new(alloc, hasher);
    // The old file stays locked until the new one is whole.
    let (_locked, loaded) = match open_to_read(rt, alloc, old, &mut owner) {
        Ok(opened) => opened,
        Err(fault) => return Finish::by(open_line(fault)),
    };
    let finish = renew(rt, alloc, new, &owner, drain);
    finish.after_notice(torn_notice(&loaded))
}
