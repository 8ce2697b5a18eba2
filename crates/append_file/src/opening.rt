//! Opening an append file: it is locked before it is read, what was read is on the device before
//! anything is answered from it, and one of version 1 is renewed.

ghost use Rattle.std.specs.Prelude.{◌≡◌, ◌<◌, None, IfOk, IfErr};
ghost use Rattle.append_file.specs.FileOpening.{Restores, OpenFails, LeavesSets, IsUnkept, IsUnready};
ghost use Rattle.append_file.specs.declared.opening.OpenFault.TheVariants as opens;
ghost use Rattle.append_file.specs.declared.file_sink.FileFault.TheVariants as files;

use crate::file_sink::{FileFault, FileSink, LockFile, is_named_by, sync_uninterrupted};
use crate::new_file::{NewFileFault, replace_old};
use append_log::{Loaded, LogSink, ReloadFault, reload};
use resp_wire::{MAX_READS, READ_BUFFER, Reading};
use sorted_sets::OneOwner;
use std::alloc::Allocator;
use std::fs::{self, Files, OpenFile, OpenOptions};
use std::hash::BuildHasher;
use std::io::ErrorKind;
use std::path::{Path, PathBuf};
use thiserror::Error;

/// Why an append file was not opened.
#[derive(Clone, Copy, Debug, PartialEq, Eq, Error)]
pub enum OpenFault {
    /// The file can't be used.
    #[error("{0}")]
    File(FileFault),
    /// Its records can't be replayed.
    #[error("{0}")]
    Reload(ReloadFault),
    /// It is of version 1, and can't be renewed.
    #[error("{0}")]
    Renew(NewFileFault),
}

impl From<FileFault> for OpenFault {
    ghost from_gives = { λ cause fault. fault ≡ opens.File cause };

    fn from(cause: FileFault) -> OpenFault {
        OpenFault::File(cause)
    }
}

impl From<ReloadFault> for OpenFault {
    ghost from_gives = { λ cause fault. fault ≡ opens.Reload cause };

    fn from(cause: ReloadFault) -> OpenFault {
        OpenFault::Reload(cause)
    }
}

impl From<NewFileFault> for OpenFault {
    ghost from_gives = { λ cause fault. fault ≡ opens.Renew cause };

    fn from(cause: NewFileFault) -> OpenFault {
        OpenFault::Renew(cause)
    }
}

/// Brings the folder of a file to the device, so that a name that was given is found there after a
/// crash.
pub(crate) fn sync_folder<R: Files>(rt: &R, path: &str) -> Result<(), FileFault>
    ensures { IfErr result (λ fault. fault ≡ files.Folder) }
{
    let folder = match Path::new(path).parent() {
        Some(parent) if !parent.as_str().is_empty() => parent.as_str(),
        _ => ".",
    };
    let Ok(folder) = fs::open(rt, folder) else {
        return Err(FileFault::Folder);
    };
    match folder.sync_all() {
        Ok(()) => Ok(()),
        Err(_) => Err(FileFault::Folder),
    }
}

/// Whether a file can keep records. A device would take them and forget them.
fn check_regular<F: OpenFile>(file: &F) -> Result<(), FileFault>
    ensures { IfErr result (λ fault. fault ≡ files.NotRegular) }
{
    match file.metadata() {
        Ok(found) if found.is_file() => Ok(()),
        _ => Err(FileFault::NotRegular),
    }
}

/// Cuts the torn end, where there is one. A file without one is left alone.
fn cut_torn<F: OpenFile>(file: &F, loaded: &Loaded) -> Result<(), FileFault>
    ensures { IfErr result (λ fault. (fault ≡ files.Cut) × (0 < loaded.now.torn)) }
{
    if loaded.torn == 0 {
        return Ok(());
    }
    match file.set_len(loaded.whole) {
        Ok(()) => Ok(()),
        Err(_) => Err(FileFault::Cut),
    }
}

/// Cuts the torn end, where there is one, and brings what was read and the file's name to the device.
/// Whoever wrote it may have been killed before a sync.
fn keep<R: Files>(rt: &R, file: &R::File, place: &str, loaded: &Loaded) -> Result<(), FileFault>
    ensures { IfErr result (λ fault. IsUnkept fault loaded.now) }
{
    cut_torn(file, loaded)?;
    if sync_uninterrupted(file).is_err() {
        return Err(FileFault::Sync);
    }
    sync_folder(rt, place)
}

/// The path under which a file stands: this one, or where a link leads.
fn place_of<R: Files, A: Allocator>(rt: &R, alloc: A, path: &str) -> Result<PathBuf<A>, OpenFault>
    ensures { IfErr result LeavesSets }
{
    let found = match fs::symlink_metadata(rt, path) {
        Ok(found) if found.is_symlink() => rt.canonicalize(alloc, path),
        _ => PathBuf::from_str(alloc, path).map_err(|error| error.into()),
    };
    match found {
        Ok(place) => Ok(place),
        Err(error) if error.kind() == ErrorKind::OutOfMemory => {
            Err(OpenFault::Reload(ReloadFault::NoMemory))
        }
        Err(_) => Err(OpenFault::File(FileFault::Open)),
    }
}

/// Refuses a file that is locked but has lost its name: another process gave that to a new file after
/// this one was opened, and this one's records are old.
fn check_named<R: Files>(rt: &R, file: &R::File, path: &str) -> Result<(), FileFault>
    ensures { IfErr result (λ fault. fault ≡ files.Locked) }
{
    if is_named_by(file, fs::metadata(rt, path)) {
        Ok(())
    } else {
        Err(FileFault::Locked)
    }
}

/// Opens a file to which a log may append, or makes it, and locks it alone. With it comes the path under which it
/// stands.
fn open_alone<R: Files, A: Allocator>(
    rt: &R,
    alloc: A,
    path: &str,
) -> Result<(R::File, PathBuf<A>), OpenFault>
where
    R::File: LockFile,
    ensures { IfErr result LeavesSets }
{
    let Ok(file) = OpenOptions::new()
        .read(true)
        .append(true)
        .create(true)
        .open(rt, path)
    else {
        return Err(OpenFault::File(FileFault::Open));
    };
    check_regular(&file)?;
    file.hold_alone()?;
    let place = place_of(rt, alloc, path)?;
    check_named(rt, &file, place.as_str())?;
    Ok((file, place))
}

/// The file to which a log appends, once this one was replayed: itself, or of version 1 the one that
/// takes its place. The old one stays locked until its name is the new one's.
fn made_ready<R: Files, H: BuildHasher + Clone + Drop, A: Allocator + Copy>(
    rt: &R,
    alloc: A,
    place: &str,
    file: R::File,
    loaded: &Loaded,
    owner: &OneOwner<H, A>,
) -> Result<R::File, OpenFault>
where
    R::File: LockFile,
    requires { owner.now.next ≡ None }
    ensures { IfErr result (λ fault. IsUnready fault loaded.now) }
{
    if loaded.version == 1 {
        return Ok(replace_old(rt, alloc, place, &file, owner)?);
    }
    keep(rt, &file, place, loaded)?;
    Ok(file)
}

/// Opens an append file for appending, and locks it alone until the sink is dropped: makes it where
/// it is missing, and replays its records on the sets of the owner.
///
/// A file of version 2 is then cut where its end is torn, and synced, with its folder: what is
/// answered from is on the device. One of version 1, an empty one included, is renewed: a file of
/// version 2 with the owner's sets is written beside it, under its name with `.new` behind, and
/// takes its name. Where the path is a link it stays one, and this goes on where it leads.
///
/// No contract knows a file's bytes: this one says that some were read, that the owner has what these
/// replay to, and that the new sink counts its calls and failures from 0.
///
/// # Errors
///
/// A file with damage, or with a record that is no command, is not written to. The owner then holds
/// the sets that the records before replay to. One of version 1 that can't be renewed has its bytes
/// as before, but where the new one has its name and only the sync of the folder failed.
pub fn open_to_append<R: Files, H: BuildHasher + Clone + Drop, A: Allocator + Copy>(
    rt: &R,
    alloc: A,
    path: &str,
    owner: &mut OneOwner<H, A>,
) -> Result<(FileSink<R::File>, Loaded), OpenFault>
where
    R::File: LockFile,
    requires { owner.old.next ≡ None }
    ensures idle { owner.new.next ≡ None }
    ensures replays { IfOk result
        (λ opened. Restores owner.old.world opened.1 owner.new.world) }
    ensures calls { IfOk result (λ opened. ⟦<FileSink<R::File> as LogSink>⟧.calls opened.0 ≡ 0) }
    ensures failures { IfOk result
        (λ opened. ⟦<FileSink<R::File> as LogSink>⟧.failures opened.0 ≡ 0) }
    ensures fails { IfErr result (λ fault. OpenFails fault owner.old.world owner.new.world) }
{
    let (file, place) = open_alone(rt, alloc, path)?;
    let mut source = Reading::new(file);
    let loaded = reload(alloc, &mut source, owner, READ_BUFFER, MAX_READS)?;
    let file = made_ready(
        rt,
        alloc,
        place.as_str(),
        source.into_inner(),
        &loaded,
        owner,
    )?;
    Ok((FileSink::new(file), loaded))
}

/// Opens an append file of either version for reading, locks it beside others who read, and replays
/// its records on the sets of the owner. The lock is held until the file is dropped.
///
/// # Errors
///
/// The owner then holds the sets that the records before replay to.
pub fn open_to_read<R: Files, H: BuildHasher + Clone + Drop, A: Allocator + Copy>(
    rt: &R,
    alloc: A,
    path: &str,
    owner: &mut OneOwner<H, A>,
) -> Result<(R::File, Loaded), OpenFault>
where
    R::File: LockFile,
    requires { owner.old.next ≡ None }
    ensures idle { owner.new.next ≡ None }
    ensures replays { IfOk result
        (λ opened. Restores owner.old.world opened.1 owner.new.world) }
    ensures fails { IfErr result (λ fault. OpenFails fault owner.old.world owner.new.world) }
{
    let Ok(file) = fs::open(rt, path) else {
        return Err(OpenFault::File(FileFault::Open));
    };
    file.hold_shared()?;
    check_named(rt, &file, path)?;
    let mut source = Reading::new(file);
    let loaded = reload(alloc, &mut source, owner, READ_BUFFER, MAX_READS)?;
    Ok((source.into_inner(), loaded))
}
