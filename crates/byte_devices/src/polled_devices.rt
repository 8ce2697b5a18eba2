//! Devices that can be asked whether they are ready, so that nobody waits for them.

ghost use Rattle.std.specs.Prelude.{◌≡◌, ◌<◌, ◌≤◌, Some, Ok, IfOk, IfSome, length};
ghost use Rattle.std.specs.Io.KnownBytes.{append_known, prepend_known, IsAtEnd};
ghost use Rattle.byte_devices.specs.Device.{saturating_succ, failures_after};
ghost use Rattle.byte_devices.specs.PolledDevices.{moved_now};

use crate::device::{
    ByteDrain, ByteSource, Failed, Reading, Writing, is_blocked, read_uninterrupted,
    write_uninterrupted,
};
use crate::fuse_devices::{FuseDrain, FuseSource};
use crate::memory_devices::{MemoryDrain, MemorySource};
use std::alloc::Allocator;
use std::io::{Read, Write};

/// A source that may have nothing yet.
pub trait PolledSource: ByteSource {
    /// Reads what is there, as [`ByteSource::read`] does. None where nothing is and the input may go
    /// on: that is no failure, and moves no byte.
    fn read_now(&mut self, buffer: &mut [u8]) -> Result<Option<usize>, Failed>
        ensures count { IfOk result (λ read. IfSome read (λ n. n ≤ length buffer.old)) }
        ensures told { Self.told self.old ≡ prepend_known (moved_now result buffer.new) (Self.told self.new) }
        ensures end { result ≡ Ok (Some 0) → 0 < length buffer.old → IsAtEnd (Self.told self.new) }
        ensures calls { Self.calls self.new ≡ saturating_succ (Self.calls self.old) }
        ensures failures { Self.failures self.new ≡ failures_after (Self.failures self.old) result };
}

/// A drain that may take nothing yet.
pub trait PolledDrain: ByteDrain {
    /// Takes a prefix of a piece, as [`ByteDrain::write`] does. None where it can take no byte now:
    /// that is no failure.
    fn write_now(&mut self, piece: &[u8]) -> Result<Option<usize>, Failed>
        ensures count { IfOk result (λ taken. IfSome taken (λ n. n ≤ length piece.now)) }
        ensures some { IfOk result (λ taken. IfSome taken (λ n. 0 < length piece.now → 0 < n)) }
        ensures told { Self.told self.new ≡ append_known (Self.told self.old) (moved_now result piece.now) }
        ensures flushed { Self.flushed self.new ≡ Self.flushed self.old }
        ensures calls { Self.calls self.new ≡ saturating_succ (Self.calls self.old) }
        ensures failures { Self.failures self.new ≡ failures_after (Self.failures self.old) result };
}

impl<R: Read> PolledSource for Reading<R> {
    fn read_now(&mut self, buffer: &mut [u8]) -> Result<Option<usize>, Failed> {
        self.count.called();
        match read_uninterrupted(&mut self.inner, buffer) {
            Ok(n) => Ok(Some(n)),
            Err(error) if is_blocked(&error) => Ok(None),
            Err(_) => Err(self.count.failed(Failed)),
        }
    }
}

impl<W: Write> PolledDrain for Writing<W> {
    fn write_now(&mut self, piece: &[u8]) -> Result<Option<usize>, Failed> {
        self.count.called();
        match write_uninterrupted(&mut self.inner, piece) {
            Ok(n) if n > 0 || piece.is_empty() => Ok(Some(n)),
            Err(error) if is_blocked(&error) => Ok(None),
            _ => Err(self.count.failed(Failed)),
        }
    }
}

/// Memory is always ready.
impl<'a> PolledSource for MemorySource<'a> {
    fn read_now(&mut self, buffer: &mut [u8]) -> Result<Option<usize>, Failed> {
        Ok(Some(self.read(buffer)?))
    }
}

/// Memory is always ready.
impl<A: Allocator> PolledDrain for MemoryDrain<A> {
    fn write_now(&mut self, piece: &[u8]) -> Result<Option<usize>, Failed> {
        Ok(Some(self.write(piece)?))
    }
}

impl<S: PolledSource> PolledSource for FuseSource<S> {
    fn read_now(&mut self, buffer: &mut [u8]) -> Result<Option<usize>, Failed> {
        if self.fuse.blows() {
            return Err(self.fuse.failed(Failed));
        }
        match self.inner.read_now(buffer) {
            Ok(read) => Ok(read),
            Err(_) => Err(self.fuse.failed(Failed)),
        }
    }
}

impl<D: PolledDrain> PolledDrain for FuseDrain<D> {
    fn write_now(&mut self, piece: &[u8]) -> Result<Option<usize>, Failed> {
        if self.fuse.blows() {
            return Err(self.fuse.failed(Failed));
        }
        match self.inner.write_now(piece) {
            Ok(taken) => Ok(taken),
            Err(_) => Err(self.fuse.failed(Failed)),
        }
    }
}
