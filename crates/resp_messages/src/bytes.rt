//! Byte strings, and lists of them.

ghost use Rattle.std.specs.Prelude.{◌≡◌, ◌≤◌, ◌↔◌, [], length, take, nat_eq, IfOk, IsOk, IsTrue};
ghost use Rattle.std.specs.Cmp.{partial_equiv_from_equiv};
ghost use Rattle.std.specs.Cmp.Lexicographic.{pointwise, nat_list_eq_equiv, lists_equiv};

use short_bytes::{IN_PLACE, Inline};
use std::alloc::{AllocError, Allocator};
use std::fmt;
use std::marker::Model;

/// Where the bytes stand: in place, or in a block of their own.
#[derive(Drop)]
enum Storage<A: Allocator> {
    InPlace(Inline),
    Apart(Vec<u8, A>),
}

/// A byte string: a key, a member or another argument. Up to [`IN_PLACE`] bytes that were copied from a slice take no
/// memory of their own. A contract sees the list of its bytes.
pub struct Bytes<A: Allocator> {
    storage: Storage<A>,
}

impl<A: Allocator> Model for Bytes<A> {
    ghost use Rattle.std.specs.Prelude.{ℕ, List};
    ghost use Rattle.resp_messages.specs.ByteStringStorage.{stored_bytes};

    ghost Value = { List ℕ };

    ghost view = { λ b. stored_bytes b.storage };
}

/// By hand, so that a proof about code that drops a byte string has no case for each place.
impl<A: Allocator> Drop for Bytes<A> {
    fn drop(self) {
        let Bytes { storage: _ } = self;
    }
}

impl<A: Allocator> Bytes<A> {
    /// The byte string of these bytes, which stay where they are.
    pub fn new(bytes: Vec<u8, A>) -> Self
        ensures { result ≡ bytes.items }
    {
        Bytes {
            storage: Storage::Apart(bytes),
        }
    }

    /// A copy of these bytes.
    ///
    /// # Errors
    ///
    /// [`AllocError`] where there is no memory for more than [`IN_PLACE`] bytes.
    pub fn from_slice(alloc: A, bytes: &[u8]) -> Result<Self, AllocError>
        ensures bytes { IfOk result (λ copy. copy ≡ bytes.now) }
        ensures short { length bytes.now ≤ IN_PLACE → IsOk result }
    {
        let storage = if bytes.len() <= IN_PLACE {
            Storage::InPlace(Inline::new(bytes))
        } else {
            Storage::Apart(Vec::from_slice(alloc, bytes)?)
        };
        Ok(Bytes { storage })
    }

    /// A copy of the first `len` of these bytes. With [`IN_PLACE`] bytes or more there, a short one takes least time.
    ///
    /// # Errors
    ///
    /// As [`Bytes::from_slice`].
    pub fn from_first(alloc: A, bytes: &[u8], len: usize) -> Result<Self, AllocError>
        requires { len ≤ length bytes.now }
        ensures bytes { IfOk result (λ copy. copy ≡ take len bytes.now) }
        ensures short { len ≤ IN_PLACE → IsOk result }
    {
        if len <= IN_PLACE && IN_PLACE <= bytes.len() {
            return Ok(Bytes {
                storage: Storage::InPlace(Inline::first(bytes, len)),
            });
        }
        Bytes::from_slice(alloc, &bytes[..len])
    }

    pub fn as_slice(&self) -> &[u8]
        ensures { result.now ≡ self.now }
    {
        match &self.storage {
            Storage::InPlace(bytes) => bytes.as_slice(),
            Storage::Apart(bytes) => bytes.as_slice(),
        }
    }

    pub fn len(&self) -> usize
        ensures { result ≡ length self.now }
    {
        self.as_slice().len()
    }

    pub fn is_empty(&self) -> bool
        ensures { IsTrue result ↔ (self.now ≡ []) }
    {
        self.as_slice().is_empty()
    }
}

impl<A: Allocator> fmt::Debug for Bytes<A> {
    fn fmt<W: fmt::Write>(&self, f: &mut fmt::Formatter<W>) -> fmt::Result {
        self.as_slice().fmt(f)
    }
}

impl<A: Allocator> PartialEq for Bytes<A> {
    ghost eq = { pointwise nat_eq };

    ghost laws = { partial_equiv_from_equiv nat_list_eq_equiv };

    fn eq(&self, other: &Self) -> bool {
        self.as_slice() == other.as_slice()
    }
}

impl<A: Allocator> Eq for Bytes<A> {
    ghost laws = { nat_list_eq_equiv };
}

/// A list of byte strings. A contract sees the list of their lists of bytes.
#[derive(Drop)]
#[derive_where(Debug)]
pub struct BytesList<A: Allocator> {
    list: Vec<Bytes<A>, A>,
}

impl<A: Allocator> Model for BytesList<A> {
    ghost use Rattle.std.specs.Prelude.{ℕ, List};

    ghost Value = { List (List ℕ) };

    ghost view = { λ b. b.list.items };
}

impl<A: Allocator> BytesList<A> {
    /// The list of these byte strings.
    pub fn new(list: Vec<Bytes<A>, A>) -> Self
        ensures { result ≡ list.items }
    {
        BytesList { list }
    }

    pub fn as_slice(&self) -> &[Bytes<A>]
        ensures { result.now ≡ self.now }
    {
        self.list.as_slice()
    }

    pub fn len(&self) -> usize
        ensures { result ≡ length self.now }
    {
        self.list.len()
    }

    pub fn is_empty(&self) -> bool
        ensures { IsTrue result ↔ (self.now ≡ []) }
    {
        self.list.is_empty()
    }

    /// Gives the byte strings back, without memory.
    pub fn into_vec(self) -> Vec<Bytes<A>, A>
        ensures { result.items ≡ self }
    {
        self.list
    }
}

impl<A: Allocator> PartialEq for BytesList<A> {
    ghost eq = { pointwise (pointwise nat_eq) };

    ghost laws = { partial_equiv_from_equiv (lists_equiv nat_list_eq_equiv) };

    fn eq(&self, other: &Self) -> bool {
        self.list.as_slice() == other.list.as_slice()
    }
}

impl<A: Allocator> Eq for BytesList<A> {
    ghost laws = { lists_equiv nat_list_eq_equiv };
}
