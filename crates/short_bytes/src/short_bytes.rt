//! Byte strings.

ghost use Rattle.std.specs.Prelude.{◌≡◌, ◌≤◌, ℕ, List, [], ◌∷◌, length, nat_eq, IfOk, IsOk};
ghost use Rattle.std.specs.Cmp.{partial_equiv_from_equiv};
ghost use Rattle.std.specs.Cmp.Lexicographic.{bytes_decides, pointwise, nat_list_eq_equiv};
ghost use Rattle.std.proofs.Common.{ap};

use crate::comparison::are_same;
use crate::inline::{IN_PLACE, Inline};
use indexmap::Equivalent;
use std::alloc::{AllocError, Allocator};
use std::fmt;
use std::hash::{Hash, Hasher};
use std::marker::Model;
use std::sync::Arc;

/// Where the bytes stand: in place, or in a block that all share who have them.
#[derive(Drop)]
enum Place<A: Allocator> {
    Here(Inline),
    Away(Arc<Vec<u8, A>, A>),
}

/// A byte string that takes 24 bytes. Up to [`IN_PLACE`] bytes stand in place and take no memory of their own, more
/// stand in a block that can be shared. They don't change. A contract sees the list of them.
pub struct ShortBytes<A: Allocator> {
    place: Place<A>,
}

impl<A: Allocator> Model for ShortBytes<A> {
    ghost use Rattle.std.specs.Prelude.{ℕ, List};
    ghost use Rattle.short_bytes.specs.InlineOrShared.{bytes_in, IsPlaced};

    ghost Value = { List ℕ };

    ghost view = { λ b. bytes_in b.place };

    ghost invariant = { λ b. IsPlaced b.place };
}

/// By hand, so that a proof about code that drops a byte string has no case for each place.
impl<A: Allocator> Drop for ShortBytes<A> {
    fn drop(self) {
        let ShortBytes { place: _ } = self;
    }
}

impl<A: Allocator + Copy> ShortBytes<A> {
    /// A copy of these bytes.
    ///
    /// # Errors
    ///
    /// [`AllocError`] where there is no memory for more than [`IN_PLACE`] bytes.
    pub fn from_slice(alloc: A, bytes: &[u8]) -> Result<Self, AllocError>
        ensures bytes { IfOk result (λ copy. copy ≡ bytes.now) }
        ensures short { length bytes.now ≤ IN_PLACE → IsOk result }
    {
        let place = if bytes.len() <= IN_PLACE {
            Place::Here(Inline::new(bytes))
        } else {
            Place::Away(Arc::new(alloc, Vec::from_slice(alloc, bytes)?)?)
        };
        Ok(ShortBytes { place })
    }
}

impl<A: Allocator> ShortBytes<A> {
    /// No bytes. It takes no memory.
    pub fn new() -> Self
        ensures { result ≡ [] }
    {
        ShortBytes {
            place: Place::Here(Inline::new(&[])),
        }
    }

    /// The same bytes once more, which stand where they stood. It takes no memory.
    ///
    /// # Errors
    ///
    /// [`AllocError`] where more share long bytes than an `Arc` can count.
    pub fn share(&self) -> Result<Self, AllocError>
        ensures bytes { IfOk result (λ shared. shared ≡ self.now) }
        ensures short { length self.now ≤ IN_PLACE → IsOk result }
    {
        let place = match &self.place {
            Place::Here(bytes) => Place::Here(bytes.copied()),
            Place::Away(block) => Place::Away(block.clone()?),
        };
        Ok(ShortBytes { place })
    }

    /// The bytes.
    pub fn as_slice(&self) -> &[u8]
        ensures { result.now ≡ self.now }
    {
        match &self.place {
            Place::Here(bytes) => bytes.as_slice(),
            Place::Away(block) => {
                let bytes: &Vec<u8, A> = block;
                bytes.as_slice()
            }
        }
    }
}

impl<A: Allocator> fmt::Debug for ShortBytes<A> {
    fn fmt<W: fmt::Write>(&self, f: &mut fmt::Formatter<W>) -> fmt::Result {
        self.as_slice().fmt(f)
    }
}

impl<A: Allocator> PartialEq for ShortBytes<A> {
    ghost eq = { pointwise nat_eq };

    ghost laws = { partial_equiv_from_equiv nat_list_eq_equiv };

    fn eq(&self, other: &Self) -> bool {
        are_same(self.as_slice(), other.as_slice())
    }
}

impl<A: Allocator> Eq for ShortBytes<A> {
    ghost laws = { nat_list_eq_equiv };
}

/// A hasher is fed all bytes at once: element by element, as it is fed a slice, takes several times as long.
impl<A: Allocator> Hash for ShortBytes<A> {
    ghost hash_input = { λ b. b ∷ [] };

    ghost respects_eq = { λ x y h. ap (λ (bytes : List ℕ). bytes ∷ []) ((bytes_decides x y).0 h) };

    fn hash<H: Hasher>(&self, state: &mut H) {
        state.write(self.as_slice());
    }
}

/// Bytes that stand elsewhere, by which a map by byte strings is asked: they are compared and hashed as a byte string is.
#[derive(Clone, Copy, PartialEq, Eq)]
pub struct BorrowedBytes<'a>(pub &'a [u8]);

impl<'a> Hash for BorrowedBytes<'a> {
    ghost hash_input = { λ b. b.0.now ∷ [] };

    ghost respects_eq = { λ x y h. ap (λ (bytes : List ℕ). bytes ∷ []) ((bytes_decides x.0.now y.0.now).0 h) };

    fn hash<H: Hasher>(&self, state: &mut H) {
        state.write(self.0);
    }
}

impl<'a, A: Allocator> Equivalent<ShortBytes<A>> for BorrowedBytes<'a> {
    ghost equivalent = { λ q k. pointwise nat_eq q.0.now k };

    ghost respects_hash = { λ q k h. ap (λ (bytes : List ℕ). bytes ∷ []) ((bytes_decides q.0.now k).0 h) };

    ghost respects_eq = { λ q x y. nat_list_eq_equiv.congr q.0.now x y };

    fn equivalent(&self, key: &ShortBytes<A>) -> bool {
        are_same(self.0, key.as_slice())
    }
}
