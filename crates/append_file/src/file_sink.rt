//! Files as sinks, and their locks.

ghost use Rattle.std.specs.Prelude.{◌≡◌, ℕ, ◌≤◌, None, length, IfOk, IfErr};
ghost use Rattle.append_file.specs.FileOpening.{IsOfLock};

use append_log::{LogSink, SinkFault, SyncHandle};
use resp_wire::{ATTEMPTS, CallCount, is_interrupted, write_uninterrupted};
use std::fs::{File, Metadata, OpenFile, TryLockError};
use std::io::{Result as IoResult, Write};
use std::os::unix::fs::MetadataExt;
use thiserror::Error;

/// Why a file can't be used.
#[derive(Clone, Copy, Debug, PartialEq, Eq, Error)]
pub enum FileFault {
    /// It could not be opened or made.
    #[error("it can't be opened or made")]
    Open,
    /// It is a folder, a pipe or a device.
    #[error("it is no regular file")]
    NotRegular,
    /// Somebody else holds a lock on it, or gave its name to another file meanwhile.
    #[error("it is in use")]
    Locked,
    /// The system gave no lock.
    #[error("it can't be locked")]
    Lock,
    /// Its torn end could not be cut.
    #[error("it can't be cut")]
    Cut,
    /// Its bytes could not be brought to the device.
    #[error("it can't be synced")]
    Sync,
    /// A record could not be written or synced.
    #[error("it can't be written")]
    Write,
    /// It could not be given its name: a file of that name is there, or the folder has no links, or
    /// does not let it be renamed.
    #[error("it can't be given its name")]
    Name,
    /// Its folder could not be synced.
    #[error("its folder can't be synced")]
    Folder,
}

/// A file that can be locked. A lock keeps out nobody but those who ask for one, and it is held
/// until the file is closed.
pub trait LockFile {
    /// Takes a lock beside which there is no other. Does not wait.
    fn hold_alone(&self) -> Result<(), FileFault>
        ensures { IfErr result IsOfLock };

    /// Takes a lock beside which there are only such as this one. Does not wait.
    fn hold_shared(&self) -> Result<(), FileFault>
        ensures { IfErr result IsOfLock };
}

fn lock_fault(error: TryLockError) -> FileFault
    ensures { IsOfLock result }
{
    match error {
        TryLockError::WouldBlock => FileFault::Locked,
        TryLockError::Error(_) => FileFault::Lock,
    }
}

impl LockFile for File {
    fn hold_alone(&self) -> Result<(), FileFault> {
        match self.try_lock() {
            Ok(()) => Ok(()),
            Err(error) => Err(lock_fault(error)),
        }
    }

    fn hold_shared(&self) -> Result<(), FileFault> {
        match self.try_lock_shared() {
            Ok(()) => Ok(()),
            Err(error) => Err(lock_fault(error)),
        }
    }
}

/// Whether a path that has this metadata names the file that is open. Else it was given to another
/// file, or taken away, after the file was opened.
pub(crate) fn is_named_by<F: OpenFile>(file: &F, found: IoResult<Metadata>) -> bool {
    match (file.metadata(), found) {
        (Ok(open), Ok(named)) => open.dev() == named.dev() && open.ino() == named.ino(),
        _ => false,
    }
}

/// Brings a file's data to the device. A call that a signal interrupted is made again, a hundred
/// times at the most.
pub(crate) fn sync_uninterrupted<F: OpenFile>(file: &F) -> IoResult<()> {
    for _ in 1..ATTEMPTS {
        let answer = file.sync_data();
        if !is_interrupted(&answer) {
            return answer;
        }
    }
    file.sync_data()
}

/// A file of std's, opened for appending. Its bytes are not known, and a write of no byte counts as
/// a failure. A sync asks the system to bring the file's data to the device. A call that a signal
/// interrupted is made again, a hundred times at the most; all of these are one call.
#[derive(Drop)]
pub struct FileSink<F> {
    file: F,
    count: CallCount,
}

impl<F: Write + OpenFile> FileSink<F> {
    pub fn new(file: F) -> Self
        ensures calls { ⟦<FileSink<F> as LogSink>⟧.calls result ≡ 0 }
        ensures failures { ⟦<FileSink<F> as LogSink>⟧.failures result ≡ 0 }
    {
        FileSink {
            file,
            count: CallCount::new(),
        }
    }

    /// A second way to the file, by which its data are brought to the device while records are appended.
    ///
    /// # Errors
    ///
    /// The system gave none, as where no more files may be open.
    pub fn handle(&self) -> IoResult<FileHandle<F>>
        ensures calls { IfOk result (λ handle. ⟦<FileHandle<F> as SyncHandle>⟧.calls handle ≡ 0) }
        ensures failures { IfOk result (λ handle. ⟦<FileHandle<F> as SyncHandle>⟧.failures handle ≡ 0) }
    {
        Ok(FileHandle {
            file: self.file.try_clone()?,
            count: CallCount::new(),
        })
    }

    /// The file, for a sink that counts anew.
    pub(crate) fn into_file(self) -> F {
        self.file
    }
}

impl<F: Write + OpenFile> LogSink for FileSink<F> {
    ghost told = { λ s. None };

    ghost synced = { λ s. 0 };

    ghost calls = { λ s. s.count.calls };

    ghost failures = { λ s. s.count.failures };

    fn write(&mut self, bytes: &[u8]) -> Result<usize, SinkFault> {
        self.count.called();
        match write_uninterrupted(&mut self.file, bytes) {
            Ok(n) if n > 0 || bytes.is_empty() => Ok(n),
            _ => Err(self.count.failed(SinkFault)),
        }
    }

    fn sync(&mut self) -> Result<(), SinkFault> {
        self.count.called();
        match sync_uninterrupted(&self.file) {
            Ok(()) => Ok(()),
            Err(_) => Err(self.count.failed(SinkFault)),
        }
    }
}

/// A second way to an append file. A sync asks the system to bring the file's data to the device, as a sink's sync
/// does.
#[derive(Drop)]
pub struct FileHandle<F> {
    file: F,
    count: CallCount,
}

impl<F: OpenFile> SyncHandle for FileHandle<F> {
    ghost calls = { λ h. h.count.calls };

    ghost failures = { λ h. h.count.failures };

    fn sync(&mut self) -> Result<(), SinkFault> {
        self.count.called();
        if sync_uninterrupted(&self.file).is_err() {
            return Err(self.count.failed(SinkFault));
        }
        Ok(())
    }
}
