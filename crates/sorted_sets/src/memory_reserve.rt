//! Memory that is kept back for removals.

ghost use Rattle.std.specs.Prelude.{◌≡◌, ◌<◌, ◌≤◌, ◌↔◌, IsOk, OnErr, OnOk, IsTrue, IsFalse};
ghost use Rattle.zset_commands.specs.AbstractCommand.{is_removing};
ghost use Rattle.zset_commands.specs.declared.refusal.Refusal.TheVariants.{NoMemory};

use std::alloc::{AllocError, Allocator};
use std::marker::Model;
use zset_commands::{Command, Refusal};

/// How many bytes are kept back: the list of pending deletions can grow to its longest, and as much is there for
/// places, a record and what the allocator adds.
pub const KEPT_BACK: usize = 131_072;

/// A block of memory that is kept back while sets grow, and let go where a removal finds none and is tried again. So
/// clients whose additions are refused can take members out. A contract sees how many bytes are kept back.
#[derive(Drop)]
pub struct Spare<A: Allocator> {
    block: Vec<u8, A>,
}

impl<A: Allocator> Model for Spare<A> {
    ghost use Rattle.std.specs.Prelude.{◌≡◌, ℕ, vec_capacity, vec_len};

    ghost Value = { ℕ };

    ghost view = { λ s. vec_capacity s.block };

    ghost invariant = { λ s. vec_len s.block ≡ 0 };
}

impl<A: Allocator> Spare<A> {
    /// Nothing is kept back yet. It takes no memory.
    pub fn new(alloc: A) -> Self
        ensures { result ≡ 0 }
    {
        Spare {
            block: Vec::new(alloc),
        }
    }

    /// Keeps [`KEPT_BACK`] bytes back, if they are not kept already.
    ///
    /// # Errors
    ///
    /// [`AllocError`] where there is no such memory. What is kept back stays.
    pub fn keep(&mut self) -> Result<(), AllocError>
        ensures ok { OnOk result (KEPT_BACK ≤ self.new) }
        ensures err { OnErr result (self.new ≡ self.old) }
        ensures succeeds { KEPT_BACK ≤ self.old → IsOk result }
    {
        self.block.reserve_exact(KEPT_BACK)
    }

    /// Whether a command that was refused is to be run again: a removal that found no memory, while some was kept back for
    /// it. That is let go then.
    pub fn lets_go_for(&mut self, command: &Command<A>, refusal: Refusal) -> bool
        ensures again { IsTrue result ↔ ((refusal ≡ NoMemory) × IsTrue (is_removing command.now.meaning)
            × (0 < self.old)) }
        ensures gone { IsTrue result → self.new ≡ 0 }
        ensures kept { IsFalse result → self.new ≡ self.old }
    {
        refusal == Refusal::NoMemory && command.removes() && self.let_go()
    }

    /// Lets go what is kept back, and answers whether there was any.
    pub fn let_go(&mut self) -> bool
        ensures told { IsTrue result ↔ (0 < self.old) }
        ensures gone { self.new ≡ 0 }
    {
        let was_kept = self.block.capacity() > 0;
        self.block.shrink_to_fit();
        was_kept
    }
}
