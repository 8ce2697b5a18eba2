//! Where a log writes.

ghost use Rattle.std.specs.Prelude.{◌≡◌, ℕ, ◌<◌, ◌≤◌, [], List, Option, Some, None, length, IfOk};
ghost use Rattle.std.specs.Io.KnownBytes.{append_known};
ghost use Rattle.resp_wire.specs.Device.{moved, saturating_succ, failures_after};
ghost use Rattle.log_records.specs.SyncedBytes.{synced_after};

use resp_wire::{CallCount, Fuse};
use std::alloc::Allocator;
use thiserror::Error;

/// A write or a sync failed.
#[derive(Clone, Copy, Debug, PartialEq, Eq, Error)]
#[error("the sink failed")]
pub struct SinkFault;

/// Where a log writes. A sink counts its calls and its failures, and tells its bytes where it knows
/// them: a file doesn't, memory does. A call that fails moves no told byte.
pub trait LogSink {
    /// The bytes that it took, where they are known.
    ghost told: { Self → Option (List ℕ) };

    /// How many of them stood at its last good sync.
    ghost synced: { Self → ℕ };

    /// The number of calls. At 2^64 - 1 it stays, and counts as risen.
    ghost calls: { Self → ℕ };

    /// The number of calls that failed, counted in the same way.
    ghost failures: { Self → ℕ };

    /// Takes a prefix of a slice, of one that is not empty at least one byte, and gives its
    /// length.
    fn write(&mut self, bytes: &[u8]) -> Result<usize, SinkFault>
        ensures count { IfOk result (λ n. n ≤ length bytes.now) }
        ensures some { IfOk result (λ n. 0 < length bytes.now → 0 < n) }
        ensures told { told self.new ≡ append_known (told self.old) (moved result bytes.now) }
        ensures synced { synced self.new ≡ synced self.old }
        ensures calls { calls self.new ≡ saturating_succ (calls self.old) }
        ensures failures { failures self.new ≡ failures_after (failures self.old) result };

    /// Puts all bytes that it took where they outlive the program.
    fn sync(&mut self) -> Result<(), SinkFault>
        ensures told { told self.new ≡ told self.old }
        ensures synced { synced self.new ≡ synced_after (synced self.old) (told self.old) result }
        ensures calls { calls self.new ≡ saturating_succ (calls self.old) }
        ensures failures { failures self.new ≡ failures_after (failures self.old) result };
}

/// Keeps nothing, and never fails.
#[derive(Drop)]
pub struct NoSink {
    calls: u64,
}

impl NoSink {
    pub fn new() -> Self
        ensures { ⟦<NoSink as LogSink>⟧.calls result ≡ 0 }
    {
        NoSink { calls: 0 }
    }
}

impl LogSink for NoSink {
    ghost told = { λ s. None };

    ghost synced = { λ s. 0 };

    ghost calls = { λ s. s.calls };

    ghost failures = { λ s. 0 };

    fn write(&mut self, bytes: &[u8]) -> Result<usize, SinkFault> {
        self.calls = self.calls.saturating_add(1);
        Ok(bytes.len())
    }

    fn sync(&mut self) -> Result<(), SinkFault> {
        self.calls = self.calls.saturating_add(1);
        Ok(())
    }
}

/// Keeps what is written, at most `chunk` bytes of a call. It fails where no memory is left. For
/// tests.
#[derive(Drop)]
pub struct MemorySink<A: Allocator> {
    bytes: Vec<u8, A>,
    chunk: usize,
    synced: usize,
    count: CallCount,
    ghost some: { 0 < chunk },
}

impl<A: Allocator> MemorySink<A> {
    pub fn new(alloc: A, chunk: usize) -> Self
        requires { 1 ≤ chunk }
        ensures told { ⟦<MemorySink<A> as LogSink>⟧.told result ≡ Some [] }
        ensures synced { ⟦<MemorySink<A> as LogSink>⟧.synced result ≡ 0 }
        ensures calls { ⟦<MemorySink<A> as LogSink>⟧.calls result ≡ 0 }
        ensures failures { ⟦<MemorySink<A> as LogSink>⟧.failures result ≡ 0 }
    {
        MemorySink {
            bytes: Vec::new(alloc),
            chunk,
            synced: 0,
            count: CallCount::new(),
        }
    }

    /// What was written.
    pub fn bytes(&self) -> &[u8]
        ensures { ⟦<MemorySink<A> as LogSink>⟧.told self.now ≡ Some result.now }
    {
        &self.bytes
    }
}

impl<A: Allocator> LogSink for MemorySink<A> {
    ghost told = { λ s. Some s.bytes.items };

    ghost synced = { λ s. s.synced };

    ghost calls = { λ s. s.count.calls };

    ghost failures = { λ s. s.count.failures };

    fn write(&mut self, bytes: &[u8]) -> Result<usize, SinkFault> {
        self.count.called();
        let count = self.chunk.min(bytes.len());
        if self.bytes.extend_from_slice(&bytes[..count]).is_err() {
            return Err(self.count.failed(SinkFault));
        }
        Ok(count)
    }

    fn sync(&mut self) -> Result<(), SinkFault> {
        self.count.called();
        self.synced = self.bytes.len();
        Ok(())
    }
}

/// Fails at one of its calls, which moves nothing, and passes all others on. For tests.
#[derive(Drop)]
pub struct FuseSink<S> {
    inner: S,
    fuse: Fuse,
}

impl<S: LogSink> FuseSink<S> {
    /// Its call number `fails_at`, counted from 1, will fail; at 0 none.
    pub fn new(inner: S, fails_at: u64) -> Self
        ensures told { ⟦<FuseSink<S> as LogSink>⟧.told result ≡ S.told inner }
        ensures synced { ⟦<FuseSink<S> as LogSink>⟧.synced result ≡ S.synced inner }
        ensures calls { ⟦<FuseSink<S> as LogSink>⟧.calls result ≡ 0 }
        ensures failures { ⟦<FuseSink<S> as LogSink>⟧.failures result ≡ 0 }
    {
        FuseSink {
            inner,
            fuse: Fuse::new(fails_at),
        }
    }

    /// The sink that calls were passed on to.
    pub fn into_inner(self) -> S
        ensures told { S.told result ≡ ⟦<FuseSink<S> as LogSink>⟧.told self }
        ensures synced { S.synced result ≡ ⟦<FuseSink<S> as LogSink>⟧.synced self }
    {
        let FuseSink { inner, fuse: _ } = self;
        inner
    }

    /// The number of calls.
    pub fn calls(&self) -> u64
        ensures { result ≡ ⟦<FuseSink<S> as LogSink>⟧.calls self.now }
    {
        self.fuse.calls()
    }
}

impl<S: LogSink> LogSink for FuseSink<S> {
    ghost told = { λ s. S.told s.inner };

    ghost synced = { λ s. S.synced s.inner };

    ghost calls = { λ s. s.fuse.count.calls };

    ghost failures = { λ s. s.fuse.count.failures };

    fn write(&mut self, bytes: &[u8]) -> Result<usize, SinkFault> {
        if self.fuse.blows() {
            return Err(self.fuse.failed(SinkFault));
        }
        match self.inner.write(bytes) {
            Ok(count) => Ok(count),
            Err(_) => Err(self.fuse.failed(SinkFault)),
        }
    }

    fn sync(&mut self) -> Result<(), SinkFault> {
        if self.fuse.blows() {
            return Err(self.fuse.failed(SinkFault));
        }
        match self.inner.sync() {
            Ok(()) => Ok(()),
            Err(_) => Err(self.fuse.failed(SinkFault)),
        }
    }
}
