//! Replies on their way to a drain that may take nothing yet.

ghost use Rattle.std.specs.Prelude.{◌≡◌, ◌↔◌, ◌-◌, ◌≤◌, true, IfOk, IsTrue, drop, length};
ghost use Rattle.std.specs.Io.KnownBytes.{append_known};

use byte_devices::{ByteDrain, CallCount, Failed, PolledDrain};
use std::alloc::Allocator;
use std::mem;

/// A drain, and before it the bytes that it did not take yet. What it tells is what was handed in:
/// what the drain took, and behind it what is held.
#[derive(Drop)]
pub struct Outbox<D, A: Allocator> {
    drain: D,
    held: Vec<u8, A>,
    /// How many of the bytes held the drain has taken.
    sent: usize,
    count: CallCount,
    ghost within: { sent ≤ length held.items },
}

impl<D: PolledDrain, A: Allocator + Copy> Outbox<D, A> {
    /// An outbox that holds nothing. It takes no memory.
    pub fn new(alloc: A, drain: D) -> Self
        ensures told { ⟦<Outbox<D, A> as ByteDrain>⟧.told result ≡ D.told drain }
        ensures failures { ⟦<Outbox<D, A> as ByteDrain>⟧.failures result ≡ 0 }
    {
        Outbox {
            drain,
            held: Vec::new(alloc),
            sent: 0,
            count: CallCount::new(),
        }
    }

    /// How many bytes are held.
    pub fn len(&self) -> usize
        ensures { result ≡ length self.now.held.items - self.now.sent }
    {
        self.held.len() - self.sent
    }

    /// Whether nothing is held.
    pub fn is_empty(&self) -> bool
        ensures { IsTrue result ↔ (length self.now.held.items ≤ self.now.sent) }
    {
        self.len() == 0
    }

    /// Has the drain take what it can now. True: nothing is held any more.
    ///
    /// # Errors
    ///
    /// The drain failed. What it did not take is held as before.
    pub fn pump(&mut self) -> Result<bool, Failed>
        // Bytes move on: none is dropped, none is sent twice, and their order stays.
        ensures told { ⟦<Outbox<D, A> as ByteDrain>⟧.told self.new ≡ ⟦<Outbox<D, A> as ByteDrain>⟧.told self.old }
        ensures flushed { ⟦<Outbox<D, A> as ByteDrain>⟧.flushed self.new ≡ ⟦<Outbox<D, A> as ByteDrain>⟧.flushed self.old }
        ensures calls { ⟦<Outbox<D, A> as ByteDrain>⟧.calls self.new ≡ ⟦<Outbox<D, A> as ByteDrain>⟧.calls self.old }
        ensures failures { ⟦<Outbox<D, A> as ByteDrain>⟧.failures self.new ≡ ⟦<Outbox<D, A> as ByteDrain>⟧.failures self.old }
        // Where nothing is held any more, the drain has taken all that was handed in.
        ensures all { IfOk result (λ all. all ≡ true → D.told self.new.drain ≡ ⟦<Outbox<D, A> as ByteDrain>⟧.told self.new) }
    {
        while self.sent < self.held.len() {
            match self.drain.write_now(&self.held[self.sent..])? {
                Some(n) => self.sent += n,
                None => return Ok(false),
            }
        }
        self.held.clear();
        self.sent = 0;
        Ok(true)
    }

    /// Holds replies in this memory from now on, which many can share in turn. An outbox that holds
    /// some keeps its own.
    pub fn lend(&mut self, memory: Vec<u8, A>)
        ensures told { ⟦<Outbox<D, A> as ByteDrain>⟧.told self.new ≡ ⟦<Outbox<D, A> as ByteDrain>⟧.told self.old }
        ensures flushed { ⟦<Outbox<D, A> as ByteDrain>⟧.flushed self.new ≡ ⟦<Outbox<D, A> as ByteDrain>⟧.flushed self.old }
        ensures calls { ⟦<Outbox<D, A> as ByteDrain>⟧.calls self.new ≡ ⟦<Outbox<D, A> as ByteDrain>⟧.calls self.old }
        ensures failures { ⟦<Outbox<D, A> as ByteDrain>⟧.failures self.new ≡ ⟦<Outbox<D, A> as ByteDrain>⟧.failures self.old }
    {
        if self.held.is_empty() {
            self.held = memory;
            self.held.clear();
        }
    }

    /// Gives up its memory where it holds nothing.
    pub fn take_memory(&mut self) -> Vec<u8, A>
        ensures told { ⟦<Outbox<D, A> as ByteDrain>⟧.told self.new ≡ ⟦<Outbox<D, A> as ByteDrain>⟧.told self.old }
        ensures flushed { ⟦<Outbox<D, A> as ByteDrain>⟧.flushed self.new ≡ ⟦<Outbox<D, A> as ByteDrain>⟧.flushed self.old }
        ensures calls { ⟦<Outbox<D, A> as ByteDrain>⟧.calls self.new ≡ ⟦<Outbox<D, A> as ByteDrain>⟧.calls self.old }
        ensures failures { ⟦<Outbox<D, A> as ByteDrain>⟧.failures self.new ≡ ⟦<Outbox<D, A> as ByteDrain>⟧.failures self.old }
    {
        let none = Vec::new(*self.held.allocator());
        if self.held.is_empty() {
            return mem::replace(&mut self.held, none);
        }
        none
    }
}

impl<D: PolledDrain, A: Allocator + Copy> ByteDrain for Outbox<D, A> {
    ghost told = { λ o. append_known (D.told o.drain) (drop o.sent o.held.items) };

    ghost flushed = { λ o. D.flushed o.drain };

    ghost calls = { λ o. o.count.calls };

    ghost failures = { λ o. o.count.failures };

    /// Holds all of the piece. It fails where no memory is left for it, and holds nothing more then.
    fn write(&mut self, piece: &[u8]) -> Result<usize, Failed> {
        self.count.called();
        match self.held.extend_from_slice(piece) {
            Ok(()) => Ok(piece.len()),
            Err(_) => Err(self.count.failed(Failed)),
        }
    }

    /// Sends on what is held. It fails where the drain does not take all of it now: the rest is held.
    fn flush(&mut self) -> Result<(), Failed> {
        self.count.called();
        let is_sent = self.pump() == Ok(true) && self.drain.flush().is_ok();
        if is_sent {
            return Ok(());
        }
        Err(self.count.failed(Failed))
    }
}
