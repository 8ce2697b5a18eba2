//! The devices that bytes come from and go to.
//!
//! A device counts how often it was called and how often a call failed. Memory also tells its bytes,
//! which no failing call takes or gives; a file or a socket cannot tell them.

ghost use Rattle.std.specs.Prelude.{◌≡◌, ◌↔◌, ℕ, ◌<◌, ◌≤◌, List, Option, None, Ok, IfOk, IsErrAnd, IsTrue, MatchResult, length, take};
ghost use Rattle.std.specs.IoError.{error_kind};
ghost use Rattle.std.specs.declared.io.ErrorKind.TheVariants.{Interrupted};
ghost use Rattle.std.specs.Io.KnownBytes.{append_known, prepend_known, IsAtEnd};
ghost use Rattle.byte_devices.specs.Device.{Rose, moved, saturating_succ, failures_after, flushed_after};

use crate::call_count::CallCount;
use std::error::Error;
use std::fmt;
use std::io::{Error as IoError, ErrorKind, Read, Result as IoResult, Write};

/// A call of a device failed.
#[derive(Clone, Copy, Debug, PartialEq, Eq)]
pub struct Failed;

impl fmt::Display for Failed {
    fn fmt<W: fmt::Write>(&self, f: &mut fmt::Formatter<W>) -> fmt::Result {
        f.write_str("the device failed")
    }
}

impl Error for Failed {}

/// Where bytes come from.
pub trait ByteSource {
    /// The bytes that are left, where they are known.
    ghost told: { Self → Option (List ℕ) };

    /// The number of calls. At 2^64 - 1 it stays, and counts as risen.
    ghost calls: { Self → ℕ };

    /// The number of calls that failed, counted in the same way.
    ghost failures: { Self → ℕ };

    /// Reads into a prefix of the buffer, and gives the number of bytes. 0 for a buffer that is
    /// not empty says that the end is reached.
    fn read(&mut self, buffer: &mut [u8]) -> Result<usize, Failed>
        ensures count { IfOk result (λ n. n ≤ length buffer.old) }
        ensures told { told self.old ≡ prepend_known (moved result buffer.new) (told self.new) }
        ensures end { result ≡ Ok 0 → 0 < length buffer.old → IsAtEnd (told self.new) }
        ensures calls { calls self.new ≡ saturating_succ (calls self.old) }
        ensures failures { failures self.new ≡ failures_after (failures self.old) result };
}

/// Where bytes go.
pub trait ByteDrain {
    /// The bytes that were taken, where they are known.
    ghost told: { Self → Option (List ℕ) };

    /// The bytes that were taken before the last good flush, where they are known.
    ghost flushed: { Self → Option (List ℕ) };

    /// The number of calls. At 2^64 - 1 it stays, and counts as risen.
    ghost calls: { Self → ℕ };

    /// The number of calls that failed, counted in the same way.
    ghost failures: { Self → ℕ };

    /// Takes a prefix of a piece, of one that is not empty at least one byte, and gives its
    /// length.
    fn write(&mut self, piece: &[u8]) -> Result<usize, Failed>
        ensures count { IfOk result (λ n. n ≤ length piece.now) }
        ensures some { IfOk result (λ n. 0 < length piece.now → 0 < n) }
        ensures told { told self.new ≡ append_known (told self.old) (moved result piece.now) }
        ensures flushed { flushed self.new ≡ flushed self.old }
        ensures calls { calls self.new ≡ saturating_succ (calls self.old) }
        ensures failures { failures self.new ≡ failures_after (failures self.old) result };

    /// Sends on what the device holds back.
    fn flush(&mut self) -> Result<(), Failed>
        ensures told { told self.new ≡ told self.old }
        ensures flushed { flushed self.new ≡ flushed_after (flushed self.old) (told self.old) result }
        ensures calls { calls self.new ≡ saturating_succ (calls self.old) }
        ensures failures { failures self.new ≡ failures_after (failures self.old) result };
}

/// The bytes that the program reads at once, from a client or a file.
pub const READ_BUFFER: usize = 16_384;

/// The most bytes that may be read at once.
pub const MAX_READ_BUFFER: usize = 65_536;

/// The most reads of one source.
pub const MAX_READS: u64 = 1 << 40;

/// Writes all of a piece.
///
/// # Errors
///
/// The drain failed: how many bytes of the piece it took before.
pub fn write_all<D: ByteDrain>(drain: &mut D, piece: &[u8]) -> Result<(), usize>
    ensures told { MatchResult result
        (λ _. D.told drain.new ≡ append_known (D.told drain.old) piece.now)
        (λ n. (n ≤ length piece.now)
        × (D.told drain.new ≡ append_known (D.told drain.old) (take n piece.now))) }
    ensures flushed { D.flushed drain.new ≡ D.flushed drain.old }
    ensures failures { MatchResult result (λ _. D.failures drain.new ≡ D.failures drain.old)
        (λ _. Rose (D.failures drain.old) (D.failures drain.new)) }
{
    let mut taken = 0;
    while taken < piece.len() {
        match drain.write(&piece[taken..]) {
            Ok(n) => taken += n,
            Err(_) => return Err(taken),
        }
    }
    Ok(())
}

/// How often a call that a signal interrupted is made before it counts as failed.
pub const ATTEMPTS: u32 = 100;

/// Whether a signal interrupted a call, so that it may be made again.
pub fn is_interrupted<T>(answer: &IoResult<T>) -> bool
    ensures { IsTrue result ↔ IsErrAnd answer.now (λ e. error_kind e ≡ Interrupted) }
{
    match answer {
        Ok(_) => false,
        Err(error) => error.kind() == ErrorKind::Interrupted,
    }
}

/// Whether a call would have to wait.
pub(crate) fn is_blocked(error: &IoError) -> bool {
    error.kind() == ErrorKind::WouldBlock
}

pub(crate) fn read_uninterrupted<R: Read>(reader: &mut R, buffer: &mut [u8]) -> IoResult<usize>
    ensures { IfOk result (λ n. n ≤ length buffer.old) }
{
    for _ in 1..ATTEMPTS {
        let answer = reader.read(buffer);
        if !is_interrupted(&answer) {
            return answer;
        }
    }
    reader.read(buffer)
}

/// Writes a prefix of the piece, again where a signal interrupted it, [`ATTEMPTS`] times at most.
pub fn write_uninterrupted<W: Write>(writer: &mut W, piece: &[u8]) -> IoResult<usize>
    ensures { IfOk result (λ n. n ≤ length piece.now) }
{
    for _ in 1..ATTEMPTS {
        let answer = writer.write(piece);
        if !is_interrupted(&answer) {
            return answer;
        }
    }
    writer.write(piece)
}

fn flush_uninterrupted<W: Write>(writer: &mut W) -> IoResult<()> {
    for _ in 1..ATTEMPTS {
        let answer = writer.flush();
        if !is_interrupted(&answer) {
            return answer;
        }
    }
    writer.flush()
}

/// A reader of std's. Its bytes are not known. A read that a signal interrupted is made again, a
/// hundred times at the most; all of these are one call.
#[derive(Drop)]
pub struct Reading<R> {
    pub(crate) inner: R,
    pub(crate) count: CallCount,
}

impl<R: Read> Reading<R> {
    pub fn new(inner: R) -> Self
        ensures calls { ⟦<Reading<R> as ByteSource>⟧.calls result ≡ 0 }
        ensures failures { ⟦<Reading<R> as ByteSource>⟧.failures result ≡ 0 }
    {
        Reading {
            inner,
            count: CallCount::new(),
        }
    }

    /// The reader.
    pub fn get_ref(&self) -> &R {
        &self.inner
    }

    /// Gives the reader back.
    pub fn into_inner(self) -> R {
        let Reading { inner, count: _ } = self;
        inner
    }
}

impl<R: Read> ByteSource for Reading<R> {
    ghost told = { λ s. None };

    ghost calls = { λ s. s.count.calls };

    ghost failures = { λ s. s.count.failures };

    fn read(&mut self, buffer: &mut [u8]) -> Result<usize, Failed> {
        self.count.called();
        match read_uninterrupted(&mut self.inner, buffer) {
            Ok(n) => Ok(n),
            Err(_) => Err(self.count.failed(Failed)),
        }
    }
}

/// A writer of std's. Its bytes are not known, and a write of no byte counts as a failure. A call
/// that a signal interrupted is made again, a hundred times at the most; all of these are one call.
#[derive(Drop)]
pub struct Writing<W> {
    pub(crate) inner: W,
    pub(crate) count: CallCount,
}

impl<W: Write> Writing<W> {
    pub fn new(inner: W) -> Self
        ensures calls { ⟦<Writing<W> as ByteDrain>⟧.calls result ≡ 0 }
        ensures failures { ⟦<Writing<W> as ByteDrain>⟧.failures result ≡ 0 }
    {
        Writing {
            inner,
            count: CallCount::new(),
        }
    }

    /// Gives the writer back, with what it holds.
    pub fn into_inner(self) -> W
        ensures { result ≡ self.inner }
    {
        let Writing { inner, count: _ } = self;
        inner
    }
}

impl<W: Write> ByteDrain for Writing<W> {
    ghost told = { λ s. None };

    ghost flushed = { λ s. None };

    ghost calls = { λ s. s.count.calls };

    ghost failures = { λ s. s.count.failures };

    fn write(&mut self, piece: &[u8]) -> Result<usize, Failed> {
        self.count.called();
        match write_uninterrupted(&mut self.inner, piece) {
            Ok(n) if n > 0 || piece.is_empty() => Ok(n),
            _ => Err(self.count.failed(Failed)),
        }
    }

    fn flush(&mut self) -> Result<(), Failed> {
        self.count.called();
        match flush_uninterrupted(&mut self.inner) {
            Ok(()) => Ok(()),
            Err(_) => Err(self.count.failed(Failed)),
        }
    }
}
