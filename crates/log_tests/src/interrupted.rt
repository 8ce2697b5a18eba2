//! Calls of a device that a signal interrupts, and that std makes again in the program: each is made again, a hundred times
//! at most.

use append_file::FileSink;
use append_log::LogSink;
use resp_wire::{ByteDrain, Writing};
use std::cell::Cell;
use std::fs::{Metadata, OpenFile};
use std::io::{Error, ErrorKind, Result as IoResult, Write};
use std::test::*;

/// What was asked of a device.
#[derive(Drop)]
struct Tally {
    /// The calls, of which some were interrupted.
    calls: Cell<u32>,
    /// How often the call under way was interrupted.
    interrupted: Cell<u32>,
    /// The calls that were made.
    made: Cell<u32>,
}

impl Tally {
    fn new() -> Self {
        Tally {
            calls: Cell::new(0),
            interrupted: Cell::new(0),
            made: Cell::new(0),
        }
    }
}

/// A device each of whose calls a signal interrupts so many times before it is made.
#[derive(Drop)]
struct Device<'a> {
    interruptions: u32,
    tally: &'a Tally,
}

impl Device<'_> {
    /// Counts a call, and interrupts it where it is one of those.
    fn ask(&self) -> IoResult<()> {
        let tally = self.tally;
        tally.calls.set(tally.calls.get().saturating_add(1));
        let interrupted = tally.interrupted.get();
        if interrupted < self.interruptions {
            tally.interrupted.set(interrupted.saturating_add(1));
            return Err(Error::from(ErrorKind::Interrupted));
        }
        tally.interrupted.set(0);
        tally.made.set(tally.made.get().saturating_add(1));
        Ok(())
    }
}

impl Write for Device<'_> {
    fn write(&mut self, bytes: &[u8]) -> IoResult<usize> {
        self.ask()?;
        Ok(bytes.len())
    }

    fn flush(&mut self) -> IoResult<()> {
        self.ask()
    }
}

impl OpenFile for Device<'_> {
    fn metadata(&self) -> IoResult<Metadata> {
        Err(Error::from(ErrorKind::Unsupported))
    }

    fn set_len(&self, _size: u64) -> IoResult<()> {
        Err(Error::from(ErrorKind::Unsupported))
    }

    fn sync_all(&self) -> IoResult<()> {
        Err(Error::from(ErrorKind::Unsupported))
    }

    fn sync_data(&self) -> IoResult<()> {
        self.ask()
    }
}

/// A call of a writer, or of a file that is a sink.
#[derive(Clone, Copy)]
enum Call {
    Write,
    Flush,
    Sync,
}

static CALLS: [(&str, Call); 3] = [
    ("write", Call::Write),
    ("flush", Call::Flush),
    ("sync", Call::Sync),
];

fn is_written<W: Write + Drop>(device: W) -> bool {
    let mut writing = Writing::new(device);
    let is_written = writing.write(b"abc") == Ok(3);
    drop(writing);
    is_written
}

fn is_flushed<W: Write + Drop>(device: W) -> bool {
    let mut writing = Writing::new(device);
    let is_flushed = writing.flush().is_ok();
    drop(writing);
    is_flushed
}

fn is_synced<F: Write + OpenFile + Drop>(file: F) -> bool {
    let mut sink = FileSink::new(file);
    let is_synced = sink.sync().is_ok();
    drop(sink);
    is_synced
}

/// Makes a call on a device; whether it is answered as it should be.
fn is_answered(device: Device<'_>, call: Call) -> bool {
    match call {
        Call::Write => is_written(device),
        Call::Flush => is_flushed(device),
        Call::Sync => is_synced(device),
    }
}

/// Whether a call that is interrupted so many times is answered, how often it was asked, and how often made.
fn interrupted(call: Call, interruptions: u32) -> (bool, u32, u32) {
    let tally = Tally::new();
    let device = Device {
        interruptions,
        tally: &tally,
    };
    let is_answered = is_answered(device, call);
    (is_answered, tally.calls.get(), tally.made.get())
}

/// How often a call is interrupted, and what [`interrupted`] tells then: the hundredth call is the last.
static ANSWERS: [(u32, (bool, u32, u32)); 5] = [
    (0, (true, 1, 1)),
    (1, (true, 2, 1)),
    (2, (true, 3, 1)),
    (99, (true, 100, 1)),
    (100, (false, 100, 0)),
];

/// How many of these hold of a call, until one does not.
fn right_answers(call: Call) -> usize {
    for (at, (times, wanted)) in ANSWERS.iter().enumerate() {
        if interrupted(call, *times) != *wanted {
            return at;
        }
    }
    ANSWERS.len()
}

#[test]
fn an_interrupted_call_is_made_again(rt: HostRuntime) {
    for (name, call) in &CALLS {
        let right = right_answers(*call);
        assert!(rt; right == ANSWERS.len(), "{name}: case {right}");
    }
}
