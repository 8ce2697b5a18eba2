//! Records that are settled beside the log's lock, by one sync for all that were appended before it.

ghost use Rattle.std.specs.Prelude.{◌≡◌, ℕ, ◌<◌, ◌≤◌, Some, None, true, false, IfNone, IfSome};
ghost use Rattle.resp_wire.specs.Device.{saturating_succ, failures_after, Rose};

use crate::log::Log;
use log_records::{LogSink, SinkFault};
use resp_wire::Fuse;
use std::cell::Cell;
use std::sync::ledger::Ledger;
use std::sync::{Mutex, Wait};

/// A way to the bytes that a log's sink took, beside the sink. It counts its calls and its failures.
pub trait SyncHandle {
    /// The number of calls. At 2^64 - 1 it stays, and counts as risen.
    ghost calls: { Self → ℕ };

    /// The number of calls that failed, counted in the same way.
    ghost failures: { Self → ℕ };

    /// Puts all bytes that the sink took before this where they outlive the program.
    fn sync(&mut self) -> Result<(), SinkFault>
        ensures calls { calls self.new ≡ saturating_succ (calls self.old) }
        ensures failures { failures self.new ≡ failures_after (failures self.old) result };
}

/// Syncs nothing, counts its calls where others see them, and fails at one of them. For tests.
#[derive(Drop)]
pub struct FuseHandle<'c> {
    seen: &'c Cell<u64>,
    fuse: Fuse,
}

impl<'c> FuseHandle<'c> {
    /// Its call number `fails_at`, counted from 1, will fail; at 0 none.
    pub fn new(seen: &'c Cell<u64>, fails_at: u64) -> Self
        ensures calls { ⟦<FuseHandle<'c> as SyncHandle>⟧.calls result ≡ 0 }
        ensures failures { ⟦<FuseHandle<'c> as SyncHandle>⟧.failures result ≡ 0 }
    {
        FuseHandle {
            seen,
            fuse: Fuse::new(fails_at),
        }
    }
}

impl<'c> SyncHandle for FuseHandle<'c> {
    ghost calls = { λ h. h.fuse.count.calls };

    ghost failures = { λ h. h.fuse.count.failures };

    fn sync(&mut self) -> Result<(), SinkFault> {
        let blows = self.fuse.blows();
        self.seen.set(self.fuse.calls());
        if blows {
            return Err(self.fuse.failed(SinkFault));
        }
        Ok(())
    }
}

/// Settles the records of a log whose appends leave their syncs to it: it knows how many a good sync came behind. One
/// stands behind a lock beside the log's own. Who waits for that lock while another syncs finds its own records settled
/// as a rule.
#[derive(Drop)]
pub struct Syncer<K> {
    handle: K,
    settled: u64,
    has_failed: bool,
}

impl<K: SyncHandle> Syncer<K> {
    /// A syncer of a log of no records.
    pub fn new(handle: K) -> Self
        ensures { result ≡ record { handle = handle; settled = 0; has_failed = false } }
    {
        Syncer {
            handle,
            settled: 0,
            has_failed: false,
        }
    }

    /// Settles the log's record of this number and those before it, where they are not: by one sync, behind which all
    /// are settled that were appended before it. It begins under no lock of the log's, so that others append meanwhile.
    /// Gives how many records are settled. None where a sync failed, now or earlier: nothing more is settled for good,
    /// and nothing more appended.
    pub fn settle<R: Wait, S: LogSink, L: Ledger>(
        &mut self,
        rt: &R,
        log: &Mutex<Log<S, L>>,
        number: u64,
    ) -> Option<u64>
        // Those that are settled stay so.
        ensures rises { self.old.settled ≤ self.new.settled }
        ensures some { IfSome result (λ settled. (settled ≡ self.new.settled) × (number ≤ settled)) }
        // Where the record is settled nobody is asked.
        ensures known { number ≤ self.old.settled
            → (result ≡ Some self.old.settled) × (self.new ≡ self.old) }
        // Behind a failure none is settled any more.
        ensures failed { self.old.settled < number → self.old.has_failed ≡ true
            → (result ≡ None) × (self.new ≡ self.old) }
        // Else there is one sync, and more are settled only where it went well.
        ensures asked { self.old.settled < number → self.old.has_failed ≡ false
            → K.calls self.new.handle ≡ saturating_succ (K.calls self.old.handle) }
        ensures good { self.new.has_failed ≡ false
            → (self.old.has_failed ≡ false) × (K.failures self.new.handle ≡ K.failures self.old.handle) }
        ensures broken { self.new.has_failed ≡ true → self.new.settled ≡ self.old.settled }
        ensures cause { self.old.has_failed ≡ false → self.new.has_failed ≡ true
            → Rose (K.failures self.old.handle) (K.failures self.new.handle) }
    {
        if self.settled >= number {
            return Some(self.settled);
        }
        if self.has_failed {
            return None;
        }
        let appended = log.lock(rt).appended();
        if self.handle.sync().is_err() {
            self.has_failed = true;
            log.lock(rt).break_off();
            return None;
        }
        self.settled = self.settled.max(appended);
        if self.settled < number {
            return None;
        }
        Some(self.settled)
    }
}
