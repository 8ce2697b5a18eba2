//! The program's files, watched: standard error is told while the program runs how far an append
//! file was read, and that one failed.

use append_file::{FileFault, LockFile};
use std::alloc::{Alloc, Allocator, Global};
use std::cell::Cell;
use std::fs::{File, Files, Metadata, OpenFile, OpenOptions, Permissions};
use std::io::{self, ErrorKind, IsTerminal, Read, Seek, SeekFrom, Write};
use std::path::PathBuf;
use std::time::Instant;

/// What standard error is told beside the lines that it always gets.
#[derive(Clone, Copy, Debug, PartialEq, Eq)]
pub struct Telling {
    /// Causes, and at once that an append file failed.
    pub causes: bool,
    /// How far an append file was read.
    pub progress: bool,
}

impl Telling {
    /// A terminal is told all. One who asks for it is told causes, whatever standard error is.
    pub fn of(rt: &HostRuntime, explains: bool) -> Self {
        let terminal = rt.stderr().is_terminal();
        Telling {
            causes: explains || terminal,
            progress: terminal,
        }
    }
}

/// After so many seconds a reader at a terminal is told again how far a file was read.
const TELLS_AFTER: u64 = 1;

/// How far a file was read.
#[derive(Clone, Copy)]
struct Progress<'p> {
    path: &'p str,
    size: u64,
    read: u64,
    /// When it was told last, at first when the reading began.
    told: Option<Instant>,
}

impl<'p> Progress<'p> {
    /// The share of the file's bytes that was read, in whole percent.
    fn percent(&self) -> u128 {
        let size = self.size.max(1);
        self.read.min(size) as u128 * 100 / size as u128
    }

    /// Counts bytes that were read, and tells how far the reading is where that was not told for a
    /// second.
    fn add(&mut self, rt: &HostRuntime, count: usize) {
        self.read = self.read.saturating_add(count as u64);
        let Ok(now) = Instant::now(rt) else {
            return;
        };
        match self.told {
            Some(told) if now.duration_since(told).as_secs() < TELLS_AFTER => {}
            Some(_) => {
                let _ = eprintln!(rt; "zcrackd: {} % of {} read", self.percent(), self.path);
                self.told = Some(now);
            }
            None => self.told = Some(now),
        }
    }
}

/// An open file that is watched.
#[derive(Drop)]
pub struct WatchedFile<'p> {
    rt: HostRuntime,
    file: File,
    /// Whether it is told that the file failed.
    tells_failure: bool,
    /// Whether it was synced. The first sync is the last call of the opening on this file.
    is_ready: Cell<bool>,
    progress: Option<Progress<'p>>,
}

impl<'p> WatchedFile<'p> {
    /// Tells why a call that keeps a change failed. The log makes no further call then, so that this
    /// is told once. A call that a signal interrupted is made again, and one of the opening that fails
    /// ends the program.
    fn tell_failure(&self, cause: &io::Error) {
        let is_told = self.tells_failure && self.is_ready.get();
        if is_told && cause.kind() != ErrorKind::Interrupted {
            let _ = eprintln!(self.rt;
                "zcrackd: append file failed: {cause}; changes are refused from now on. Make room, rewrite the file, and restart"
            );
        }
    }
}

impl<'p> Read for WatchedFile<'p> {
    fn read(&mut self, buffer: &mut [u8]) -> io::Result<usize> {
        let count = self.file.read(buffer)?;
        if let Some(progress) = &mut self.progress {
            progress.add(&self.rt, count);
        }
        Ok(count)
    }
}

impl<'p> Write for WatchedFile<'p> {
    fn write(&mut self, bytes: &[u8]) -> io::Result<usize> {
        let answer = self.file.write(bytes);
        match &answer {
            Ok(0) if !bytes.is_empty() => self.tell_failure(&io::Error::from(ErrorKind::WriteZero)),
            Ok(_) => {}
            Err(cause) => self.tell_failure(cause),
        }
        answer
    }

    fn flush(&mut self) -> io::Result<()> {
        self.file.flush()
    }
}

impl<'p> Seek for WatchedFile<'p> {
    fn seek(&mut self, to: SeekFrom) -> io::Result<u64> {
        self.file.seek(to)
    }
}

impl<'p> OpenFile for WatchedFile<'p> {
    fn metadata(&self) -> io::Result<Metadata> {
        self.file.metadata()
    }

    fn set_len(&self, size: u64) -> io::Result<()> {
        self.file.set_len(size)
    }

    fn sync_all(&self) -> io::Result<()> {
        self.file.sync_all()
    }

    fn sync_data(&self) -> io::Result<()> {
        let answer = self.file.sync_data();
        match &answer {
            Ok(()) => self.is_ready.set(true),
            Err(cause) => self.tell_failure(cause),
        }
        answer
    }

    fn set_permissions(&self, permissions: Permissions) -> io::Result<()> {
        self.file.set_permissions(permissions)
    }

    fn try_clone(&self) -> io::Result<Self> {
        Ok(WatchedFile {
            rt: self.rt,
            file: self.file.try_clone()?,
            tells_failure: self.tells_failure,
            is_ready: Cell::new(self.is_ready.get()),
            progress: None,
        })
    }
}

impl<'p> LockFile for WatchedFile<'p> {
    fn hold_alone(&self) -> Result<(), FileFault> {
        self.file.hold_alone()
    }

    fn hold_shared(&self) -> Result<(), FileFault> {
        self.file.hold_shared()
    }
}

/// The system's files, watched.
#[derive(Drop)]
pub struct WatchedFiles<'p> {
    rt: HostRuntime,
    telling: Telling,
    /// The append file whose reading is told.
    path: &'p str,
    /// Whether changes are kept in the files, so that it is told when one fails.
    keeps: bool,
    /// Why the last file was not opened, by the system's number.
    refusal: Cell<Option<i32>>,
}

impl<'p> WatchedFiles<'p> {
    /// Those of a session or a server that keeps its changes in this append file.
    pub fn kept(rt: &HostRuntime, telling: Telling, path: &'p str) -> Self {
        WatchedFiles {
            rt: *rt,
            telling,
            path,
            keeps: true,
            refusal: Cell::new(None),
        }
    }

    /// Those of a rewrite of this append file.
    pub fn rewritten(rt: &HostRuntime, telling: Telling, path: &'p str) -> Self {
        WatchedFiles {
            rt: *rt,
            telling,
            path,
            keeps: false,
            refusal: Cell::new(None),
        }
    }

    /// What standard error is told.
    pub fn telling(&self) -> Telling {
        self.telling
    }

    /// Why the last file that was asked for was not opened.
    pub fn refusal(&self) -> Option<io::Error> {
        self.refusal.get().map(io::Error::from_raw_os_error)
    }

    fn progress_of(&self, how: &OpenOptions, path: &str, file: &File) -> Option<Progress<'p>> {
        if !(self.telling.progress && how.asks_read() && path == self.path) {
            return None;
        }
        let size = file.metadata().ok()?.len();
        Some(Progress {
            path: self.path,
            size,
            read: 0,
            told: None,
        })
    }
}

impl<'p> Alloc for WatchedFiles<'p> {
    type A = Global;

    fn alloc(&self) -> Global {
        self.rt.alloc()
    }
}

impl<'p> Files for WatchedFiles<'p> {
    type File = WatchedFile<'p>;

    type Dir = <HostRuntime as Files>::Dir;

    fn open_file(&self, how: &OpenOptions, path: &str) -> io::Result<WatchedFile<'p>> {
        match self.rt.open_file(how, path) {
            Ok(file) => {
                self.refusal.set(None);
                let progress = self.progress_of(how, path, &file);
                Ok(WatchedFile {
                    rt: self.rt,
                    file,
                    tells_failure: self.telling.causes && self.keeps,
                    is_ready: Cell::new(false),
                    progress,
                })
            }
            Err(error) => {
                self.refusal.set(error.raw_os_error());
                Err(error)
            }
        }
    }

    fn open_dir(&self, path: &str) -> io::Result<Self::Dir> {
        self.rt.open_dir(path)
    }

    fn metadata(&self, path: &str) -> io::Result<Metadata> {
        Files::metadata(&self.rt, path)
    }

    fn symlink_metadata(&self, path: &str) -> io::Result<Metadata> {
        self.rt.symlink_metadata(path)
    }

    fn copy(&self, from: &str, to: &str) -> io::Result<u64> {
        self.rt.copy(from, to)
    }

    fn rename(&self, from: &str, to: &str) -> io::Result<()> {
        self.rt.rename(from, to)
    }

    fn remove_file(&self, path: &str) -> io::Result<()> {
        self.rt.remove_file(path)
    }

    fn create_dir(&self, path: &str) -> io::Result<()> {
        self.rt.create_dir(path)
    }

    fn remove_dir(&self, path: &str) -> io::Result<()> {
        self.rt.remove_dir(path)
    }

    fn remove_dir_all<B: Allocator>(&self, alloc: B, path: &str) -> io::Result<()> {
        self.rt.remove_dir_all(alloc, path)
    }

    fn canonicalize<B: Allocator>(&self, alloc: B, path: &str) -> io::Result<PathBuf<B>> {
        self.rt.canonicalize(alloc, path)
    }

    fn hard_link(&self, original: &str, link: &str) -> io::Result<()> {
        self.rt.hard_link(original, link)
    }
}
