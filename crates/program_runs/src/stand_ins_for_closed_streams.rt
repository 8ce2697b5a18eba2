//! The three standard streams, as the program was started with them.

use std::fs::{File, OpenOptions};
use std::io;
use std::os::fd::AsFd;

/// Stand-ins for the standard streams that the program was started without. A file that is opened
/// takes the lowest number that is free: without a stand-in an append file would be taken for
/// standard output, and replies would be written into it.
#[derive(Drop)]
pub struct StandIns {
    _input: Option<File>,
    _output: Option<File>,
    _error: Option<File>,
}

/// The system's number for a descriptor that is not open: EBADF of Linux.
const NOT_OPEN: i32 = 9;

/// Whether a stream is closed: a copy of its descriptor is refused for that. Where a copy is refused
/// for another cause, as where no more files may be open, the stream is open.
fn is_closed<F: AsFd>(stream: &F) -> bool {
    match stream.as_fd().try_clone_to_owned() {
        Ok(_) => false,
        Err(error) => error.raw_os_error() == Some(NOT_OPEN),
    }
}

/// `/dev/null` in place of a stream that is closed.
fn stand_in<F: AsFd>(rt: &HostRuntime, stream: &F) -> io::Result<Option<File>> {
    if !is_closed(stream) {
        return Ok(None);
    }
    let file = OpenOptions::new()
        .read(true)
        .write(true)
        .open(rt, "/dev/null")?;
    Ok(Some(file))
}

impl StandIns {
    /// Opens `/dev/null` for each stream that is closed, the lowest first, since the lowest free
    /// number is what each takes. They stay open for as long as this is kept.
    ///
    /// # Errors
    ///
    /// `/dev/null` can't be opened.
    pub fn open(rt: &HostRuntime) -> io::Result<Self> {
        Ok(StandIns {
            _input: stand_in(rt, &rt.stdin())?,
            _output: stand_in(rt, &rt.stdout())?,
            _error: stand_in(rt, &rt.stderr())?,
        })
    }
}
