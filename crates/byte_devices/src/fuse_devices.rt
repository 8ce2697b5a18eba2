//! Devices that fail at one of their calls, for tests.

ghost use Rattle.std.specs.Prelude.{◌≡◌, ◌+◌, ◌↔◌, IsTrue};
ghost use Rattle.byte_devices.specs.Device.{saturating_succ};

use crate::call_count::CallCount;
use crate::device::{ByteDrain, ByteSource, Failed};

/// Which call of a device fails, and how often it was called and failed, for tests. At 2^64 - 1 a count stays.
#[derive(Drop)]
pub struct Fuse {
    fails_at: u64,
    count: CallCount,
}

impl Fuse {
    /// Call number `fails_at`, counted from 1, will fail; at 0 none.
    pub fn new(fails_at: u64) -> Self
        ensures { result ≡ record { fails_at = fails_at; count = record { calls = 0; failures = 0 } } }
    {
        Fuse {
            fails_at,
            count: CallCount::new(),
        }
    }

    /// The number of calls.
    pub fn calls(&self) -> u64
        ensures { result ≡ self.now.count.calls }
    {
        self.count.calls
    }

    /// Counts a call, and says whether it is the one that fails.
    pub fn blows(&mut self) -> bool
        ensures blows { IsTrue result ↔ (self.old.count.calls + 1 ≡ self.old.fails_at) }
        ensures count { self.new ≡ record self.old
            { count = record self.old.count { calls = saturating_succ self.old.count.calls } } }
    {
        let fails_at = self.fails_at;
        let before = self.count.calls;
        self.count.called();
        before < u64::MAX && before + 1 == fails_at
    }

    /// Counts a call as failed, and gives its error.
    pub fn failed<E>(&mut self, error: E) -> E
        ensures error { result ≡ error }
        ensures count { self.new ≡ record self.old
            { count = record self.old.count { failures = saturating_succ self.old.count.failures } } }
    {
        self.count.failed(error)
    }
}

/// A source that fails at one of its calls, which moves nothing, and passes all others on.
#[derive(Drop)]
pub struct FuseSource<S> {
    pub(crate) inner: S,
    pub(crate) fuse: Fuse,
}

impl<S: ByteSource> FuseSource<S> {
    /// Its call number `fails_at`, counted from 1, will fail; at 0 none.
    pub fn new(inner: S, fails_at: u64) -> Self
        ensures told { ⟦<FuseSource<S> as ByteSource>⟧.told result ≡ S.told inner }
        ensures fuse { result.fuse ≡ record { fails_at = fails_at; count = record { calls = 0; failures = 0 } } }
        ensures calls { ⟦<FuseSource<S> as ByteSource>⟧.calls result ≡ 0 }
        ensures failures { ⟦<FuseSource<S> as ByteSource>⟧.failures result ≡ 0 }
    {
        FuseSource {
            inner,
            fuse: Fuse::new(fails_at),
        }
    }

    /// The source that calls were passed on to.
    pub fn into_inner(self) -> S
        ensures told { S.told result ≡ ⟦<FuseSource<S> as ByteSource>⟧.told self }
    {
        let FuseSource { inner, fuse: _ } = self;
        inner
    }
}

impl<S: ByteSource> ByteSource for FuseSource<S> {
    ghost told = { λ s. S.told s.inner };

    ghost calls = { λ s. s.fuse.count.calls };

    ghost failures = { λ s. s.fuse.count.failures };

    fn read(&mut self, buffer: &mut [u8]) -> Result<usize, Failed> {
        if self.fuse.blows() {
            return Err(self.fuse.failed(Failed));
        }
        match self.inner.read(buffer) {
            Ok(n) => Ok(n),
            Err(_) => Err(self.fuse.failed(Failed)),
        }
    }
}

/// A drain that fails at one of its calls, writes and flushes counted alike, which moves nothing, and
/// passes all others on.
#[derive(Drop)]
pub struct FuseDrain<D> {
    pub(crate) inner: D,
    pub(crate) fuse: Fuse,
}

impl<D: ByteDrain> FuseDrain<D> {
    /// Its call number `fails_at`, counted from 1, will fail; at 0 none.
    pub fn new(inner: D, fails_at: u64) -> Self
        ensures told { ⟦<FuseDrain<D> as ByteDrain>⟧.told result ≡ D.told inner }
        ensures flushed { ⟦<FuseDrain<D> as ByteDrain>⟧.flushed result ≡ D.flushed inner }
        ensures fuse { result.fuse ≡ record { fails_at = fails_at; count = record { calls = 0; failures = 0 } } }
        ensures calls { ⟦<FuseDrain<D> as ByteDrain>⟧.calls result ≡ 0 }
        ensures failures { ⟦<FuseDrain<D> as ByteDrain>⟧.failures result ≡ 0 }
    {
        FuseDrain {
            inner,
            fuse: Fuse::new(fails_at),
        }
    }

    /// The drain that calls were passed on to.
    pub fn into_inner(self) -> D
        ensures told { D.told result ≡ ⟦<FuseDrain<D> as ByteDrain>⟧.told self }
        ensures flushed { D.flushed result ≡ ⟦<FuseDrain<D> as ByteDrain>⟧.flushed self }
    {
        let FuseDrain { inner, fuse: _ } = self;
        inner
    }
}

impl<D: ByteDrain> ByteDrain for FuseDrain<D> {
    ghost told = { λ d. D.told d.inner };

    ghost flushed = { λ d. D.flushed d.inner };

    ghost calls = { λ d. d.fuse.count.calls };

    ghost failures = { λ d. d.fuse.count.failures };

    fn write(&mut self, piece: &[u8]) -> Result<usize, Failed> {
        if self.fuse.blows() {
            return Err(self.fuse.failed(Failed));
        }
        match self.inner.write(piece) {
            Ok(n) => Ok(n),
            Err(_) => Err(self.fuse.failed(Failed)),
        }
    }

    fn flush(&mut self) -> Result<(), Failed> {
        if self.fuse.blows() {
            return Err(self.fuse.failed(Failed));
        }
        match self.inner.flush() {
            Ok(()) => Ok(()),
            Err(_) => Err(self.fuse.failed(Failed)),
        }
    }
}
