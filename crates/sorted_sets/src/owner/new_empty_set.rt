//! A set that no key has yet.

ghost use Rattle.std.specs.Prelude.{◌≡◌, None, IfOk};
ghost use Rattle.std.specs.FinMap as map;

use crate::owner::OneOwner;
use crate::set::ZSet;
use std::alloc::{AllocError, Allocator};
use std::hash::BuildHasher;

impl<H: BuildHasher + Clone + Drop, A: Allocator + Copy> OneOwner<H, A> {
    /// An empty set of its own, whose map takes a clone of this owner's hasher. Refused for want of
    /// memory alone.
    pub fn empty_set(&self) -> Result<ZSet<H, A>, AllocError>
        requires { self.now.next ≡ None }
        ensures members { IfOk result (λ set. set.members ≡ map.empty) }
        ensures idle { IfOk result (λ set. set.next ≡ None) }
    {
        Ok(ZSet::with_hasher(self.alloc, self.hasher.clone()?))
    }
}
