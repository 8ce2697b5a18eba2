//! Memory that the connections of a worker share.

ghost use Rattle.std.specs.Prelude.{◌≡◌, length};

use resp_wire::READ_BUFFER;
use std::alloc::{AllocError, Allocator};
use std::mem;

/// What is reserved for replies before the first connection: where memory is exhausted later, a removal
/// is still replied to.
const RESERVED: usize = 16_384;

/// A buffer that a great reply made longer than this is given up.
const LONGEST: usize = 1 << 20;

/// What the connections of a worker share, turn by turn, so that one that rests has none of its own.
#[derive(Drop)]
pub struct Buffers<A: Allocator> {
    alloc: A,
    /// Where bytes are read into.
    pub input: Vec<u8, A>,
    /// Where a reply is put.
    text: Vec<u8, A>,
    /// Where replies are held that are on their way.
    replies: Vec<u8, A>,
    ghost piece: { length input.items ≡ 16384 },
}

/// The memory, if it is not too much to keep.
fn kept<A: Allocator + Copy>(alloc: A, memory: Vec<u8, A>) -> Vec<u8, A> {
    if memory.capacity() > LONGEST {
        return Vec::new(alloc);
    }
    memory
}

impl<A: Allocator + Copy> Buffers<A> {
    /// Buffers for the connections of one worker.
    pub fn new(alloc: A) -> Result<Self, AllocError> {
        Ok(Buffers {
            alloc,
            input: vec![in alloc; 0; READ_BUFFER]?,
            text: Vec::with_capacity(alloc, RESERVED)?,
            replies: Vec::with_capacity(alloc, RESERVED)?,
        })
    }

    /// Lends the memory for a reply, and that for replies on their way.
    pub fn lend(&mut self) -> (Vec<u8, A>, Vec<u8, A>) {
        let text = mem::replace(&mut self.text, Vec::new(self.alloc));
        let replies = mem::replace(&mut self.replies, Vec::new(self.alloc));
        (text, replies)
    }

    /// Takes the memory back.
    pub fn take_back(&mut self, text: Vec<u8, A>, replies: Vec<u8, A>) {
        self.text = kept(self.alloc, text);
        self.replies = kept(self.alloc, replies);
    }
    /// Takes memory back that replies were held in, where there is less.
    pub fn take_replies(&mut self, replies: Vec<u8, A>) {
        let replies = kept(self.alloc, replies);
        if replies.capacity() > self.replies.capacity() {
            self.replies = replies;
        }
    }
}
