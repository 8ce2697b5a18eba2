//! Devices in memory, for tests.

ghost use Rattle.std.specs.Prelude.{◌≡◌, ℕ, ◌<◌, ◌≤◌, [], Some, Ok, IfOk, IsOk, length, min, take};
ghost use Rattle.std.specs.Io.KnownBytes.{append_known, prepend_known, IsAtEnd};
ghost use Rattle.byte_devices.specs.Device.{moved, saturating_succ, failures_after};

use crate::call_count::CallCount;
use crate::device::{ByteDrain, ByteSource, Failed};
use std::alloc::Allocator;

/// Bytes in memory, of which a read gives at most `chunk`.
#[derive(Drop)]
pub struct MemorySource<'a> {
    rest: &'a [u8],
    chunk: usize,
    count: CallCount,
    ghost some: { 0 < chunk },
}

impl<'a> MemorySource<'a> {
    pub fn new(bytes: &'a [u8], chunk: usize) -> Self
        requires { 1 ≤ chunk }
        ensures told { ⟦<MemorySource<'a> as ByteSource>⟧.told result ≡ Some bytes.now }
        ensures calls { ⟦<MemorySource<'a> as ByteSource>⟧.calls result ≡ 0 }
        ensures chunk { result.chunk ≡ chunk }
    {
        MemorySource {
            rest: bytes,
            chunk,
            count: CallCount::new(),
        }
    }
}

impl<'a> ByteSource for MemorySource<'a> {
    ghost told = { λ s. Some s.rest.now };

    ghost calls = { λ s. s.count.calls };

    ghost failures = { λ s. 0 };

    /// Reads as much as there is, as the buffer holds, and as `chunk` allows.
    fn read(&mut self, buffer: &mut [u8]) -> Result<usize, Failed>
        ensures count { IfOk result (λ n. n ≤ length buffer.old) }
        ensures exact { result
            ≡ Ok (min (min self.old.chunk (length self.old.rest.now)) (length buffer.old)) }
        ensures chunk { self.new.chunk ≡ self.old.chunk }
        ensures told { Some self.old.rest.now
            ≡ prepend_known (moved result buffer.new) (Some self.new.rest.now) }
        ensures end { result ≡ Ok 0 → 0 < length buffer.old → IsAtEnd (Some self.new.rest.now) }
        ensures calls { self.new.count.calls ≡ saturating_succ self.old.count.calls }
        ensures failures { 0 ≡ failures_after 0 result }
    {
        self.count.called();
        let n = self.chunk.min(self.rest.len()).min(buffer.len());
        let (prefix, rest) = self.rest.split_at(n);
        buffer[..n].copy_from_slice(prefix);
        self.rest = rest;
        Ok(n)
    }
}

/// Keeps what is written, at most `chunk` bytes of a call. It fails where no memory is left.
#[derive(Drop)]
pub struct MemoryDrain<A: Allocator> {
    bytes: Vec<u8, A>,
    /// How many of these bytes stood at the last flush.
    flushed: usize,
    chunk: usize,
    count: CallCount,
    ghost some: { 0 < chunk },
    ghost within: { flushed ≤ length bytes.items },
}

impl<A: Allocator> MemoryDrain<A> {
    pub fn new(alloc: A, chunk: usize) -> Self
        requires { 1 ≤ chunk }
        ensures told { ⟦<MemoryDrain<A> as ByteDrain>⟧.told result ≡ Some [] }
        ensures flushed { ⟦<MemoryDrain<A> as ByteDrain>⟧.flushed result ≡ Some [] }
        ensures calls { ⟦<MemoryDrain<A> as ByteDrain>⟧.calls result ≡ 0 }
        ensures failures { ⟦<MemoryDrain<A> as ByteDrain>⟧.failures result ≡ 0 }
        ensures chunk { result.chunk ≡ chunk }
    {
        MemoryDrain {
            bytes: Vec::new(alloc),
            flushed: 0,
            chunk,
            count: CallCount::new(),
        }
    }

    /// What was written.
    pub fn bytes(&self) -> &[u8]
        ensures { ⟦<MemoryDrain<A> as ByteDrain>⟧.told self.now ≡ Some result.now }
    {
        &self.bytes
    }

    /// What of it was written before the last flush.
    pub fn flushed(&self) -> &[u8]
        ensures { ⟦<MemoryDrain<A> as ByteDrain>⟧.flushed self.now ≡ Some result.now }
    {
        &self.bytes[..self.flushed]
    }
}

impl<A: Allocator> ByteDrain for MemoryDrain<A> {
    ghost told = { λ s. Some s.bytes.items };

    ghost flushed = { λ s. Some (take s.flushed s.bytes.items) };

    ghost calls = { λ s. s.count.calls };

    ghost failures = { λ s. s.count.failures };

    /// Takes as much as the piece has and as `chunk` allows, or nothing where no memory is left.
    fn write(&mut self, piece: &[u8]) -> Result<usize, Failed>
        ensures count { IfOk result (λ n. n ≤ length piece.now) }
        ensures some { IfOk result (λ n. 0 < length piece.now → 0 < n) }
        ensures exact { IfOk result (λ n. n ≡ min self.old.chunk (length piece.now)) }
        ensures chunk { self.new.chunk ≡ self.old.chunk }
        ensures told { Some self.new.bytes.items
            ≡ append_known (Some self.old.bytes.items) (moved result piece.now) }
        ensures flushed { Some (take self.new.flushed self.new.bytes.items)
            ≡ Some (take self.old.flushed self.old.bytes.items) }
        ensures calls { self.new.count.calls ≡ saturating_succ self.old.count.calls }
        ensures failures { self.new.count.failures ≡ failures_after self.old.count.failures result }
    {
        self.count.called();
        let n = self.chunk.min(piece.len());
        if self.bytes.extend_from_slice(&piece[..n]).is_err() {
            return Err(self.count.failed(Failed));
        }
        Ok(n)
    }

    /// Never fails.
    fn flush(&mut self) -> Result<(), Failed>
        ensures ok { IsOk result }
        ensures chunk { self.new.chunk ≡ self.old.chunk }
        ensures told { Some self.new.bytes.items ≡ Some self.old.bytes.items }
        ensures flushed { Some (take self.new.flushed self.new.bytes.items)
            ≡ Some self.old.bytes.items }
        ensures calls { self.new.count.calls ≡ saturating_succ self.old.count.calls }
        ensures failures { self.new.count.failures ≡ self.old.count.failures }
    {
        self.count.called();
        self.flushed = self.bytes.len();
        Ok(())
    }
}
