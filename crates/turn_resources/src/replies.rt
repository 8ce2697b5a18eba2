//! Replies of a connection on their way.

ghost use Rattle.std.specs.Prelude.{◌≡◌, ◌-◌, length};
ghost use Rattle.resp_wire.specs.Device.{saturating_succ, failures_after, flushed_after};

use resp_wire::{ByteDrain, CallCount, Failed, Outbox, PolledDrain};
use std::alloc::Allocator;

/// An outbox that sends when it is asked to, and at no other time: a session that writes replies, and flushes them,
/// brings none of them out.
#[derive(Drop)]
pub struct Replies<D, A: Allocator> {
    outbox: Outbox<D, A>,
    count: CallCount,
}

impl<D: PolledDrain, A: Allocator + Copy> Replies<D, A> {
    /// Without replies. It takes no memory.
    pub fn new(alloc: A, drain: D) -> Self
        ensures told { ⟦<Replies<D, A> as ByteDrain>⟧.told result ≡ D.told drain }
    {
        Replies {
            outbox: Outbox::new(alloc, drain),
            count: CallCount::new(),
        }
    }

    /// How many bytes are held.
    pub fn len(&self) -> usize
        ensures { result ≡ length self.now.outbox.held.items - self.now.outbox.sent }
    {
        self.outbox.len()
    }

    /// Has the drain take what it can now. True: nothing is held any more.
    ///
    /// # Errors
    ///
    /// The drain failed. What it did not take is held as before.
    pub fn pump(&mut self) -> Result<bool, Failed>
        // Bytes move on: none is dropped, none is sent twice, and their order stays.
        ensures told { ⟦<Replies<D, A> as ByteDrain>⟧.told self.new ≡ ⟦<Replies<D, A> as ByteDrain>⟧.told self.old }
    {
        self.outbox.pump()
    }

    /// Holds replies in this memory from now on, as [`Outbox::lend`] does.
    pub fn lend(&mut self, memory: Vec<u8, A>)
        ensures told { ⟦<Replies<D, A> as ByteDrain>⟧.told self.new ≡ ⟦<Replies<D, A> as ByteDrain>⟧.told self.old }
    {
        self.outbox.lend(memory);
    }

    /// Gives up its memory where it holds nothing.
    pub fn take_memory(&mut self) -> Vec<u8, A>
        ensures told { ⟦<Replies<D, A> as ByteDrain>⟧.told self.new ≡ ⟦<Replies<D, A> as ByteDrain>⟧.told self.old }
    {
        self.outbox.take_memory()
    }
}

impl<D: PolledDrain, A: Allocator + Copy> ByteDrain for Replies<D, A> {
    ghost told = { λ r. ⟦<Outbox<D, A> as ByteDrain>⟧.told r.outbox };

    ghost flushed = { λ r. ⟦<Outbox<D, A> as ByteDrain>⟧.flushed r.outbox };

    ghost calls = { λ r. r.count.calls };

    ghost failures = { λ r. r.count.failures };

    /// Holds all of the piece. It fails where no memory is left for it, and holds nothing more then.
    fn write(&mut self, piece: &[u8]) -> Result<usize, Failed> {
        self.count.called();
        match self.outbox.write(piece) {
            Ok(n) => Ok(n),
            Err(_) => Err(self.count.failed(Failed)),
        }
    }

    /// It always fails: what is held goes on being held.
    fn flush(&mut self) -> Result<(), Failed>
        ensures told { ⟦<Replies<D, A> as ByteDrain>⟧.told self.new ≡ ⟦<Replies<D, A> as ByteDrain>⟧.told self.old }
        ensures flushed { ⟦<Replies<D, A> as ByteDrain>⟧.flushed self.new
            ≡ flushed_after (⟦<Replies<D, A> as ByteDrain>⟧.flushed self.old) (⟦<Replies<D, A> as ByteDrain>⟧.told self.old) result }
        ensures calls { self.new.count.calls ≡ saturating_succ self.old.count.calls }
        ensures failures { self.new.count.failures ≡ failures_after self.old.count.failures result }
        // Nothing leaves.
        ensures held { self.new.outbox ≡ self.old.outbox }
    {
        // Nothing is sent.
        self.count.called();
        Err(self.count.failed(Failed))
    }
}
