//! An allocator that refuses one allocation, so that a test can refuse each allocation of a call in
//! turn.
#![tactic(auto)]

use std::alloc::{AllocError, Allocator};
use std::cell::Cell;

/// Passes each call on to another allocator, but for the one allocation that it was set to refuse.
/// A `Vec` that grows makes one allocation.
pub struct Fuse<B: Allocator> {
    inner: B,
    /// The allocations that are left up to the refused one; 0 where none is to be refused any more.
    left: Cell<u64>,
}

impl<B: Allocator> Fuse<B> {
    /// Refuses the allocation with this number, counted from 1, and no other; none where it is 0.
    pub fn new(inner: B, number: u64) -> Self {
        Fuse {
            inner,
            left: Cell::new(number),
        }
    }

    /// Counts anew from here: refuses the allocation with this number, and none where it is 0.
    pub fn arm(&self, number: u64) {
        self.left.set(number);
    }

    /// Whether the allocation that was to be refused is still to come.
    pub fn is_armed(&self) -> bool {
        self.left.get() != 0
    }
}

impl<B: Allocator> Drop for Fuse<B> {
    fn drop(self) {
        let Self { inner: _, left: _ } = self;
    }
}

/// Counts an allocation, and says whether it is the one to be refused.
fn refuses(left: &Cell<u64>) -> bool {
    let growths = left.get();
    left.set(growths.saturating_sub(1));
    growths == 1
}

unsafe impl<B: Allocator> Allocator for Fuse<B> {
    ghost dealloc_token = { λ heap ty ptr. B.dealloc_token heap.inner ty ptr };

    fn allocate(&self, size: usize, align: usize) -> Result<*mut u8, AllocError> {
        if refuses(&self.left) {
            return Err(AllocError);
        }
        self.inner.allocate(size, align)
    }

    unsafe fn deallocate(&self, ptr: *mut u8, size: usize, align: usize) {
        self.inner.deallocate(ptr, size, align);
    }
}
