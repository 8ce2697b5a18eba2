//! A key as a place's name, and where its walk begins.

ghost use Rattle.std.specs.Prelude.{◌≡◌, ◌↔◌, ◌<◌, ◌^◌, List, ℕ, IfOk, IsTrue};
ghost use Rattle.place_names.specs.Naming.{hash_from};

use short_bytes::{ShortBytes, are_same};
use std::alloc::{AllocError, Global};
use std::marker::Model;

/// A key that a place bears as its name, with its hash. A contract sees its bytes. Those of a short one stand beside the
/// hash, so that comparing it reads no other block.
#[derive(Drop)]
pub struct Name {
    hash: u64,
    bytes: ShortBytes<Global>,
}

impl Model for Name {
    ghost use Rattle.std.specs.Prelude.{List, ℕ};

    ghost Value = { List ℕ };

    ghost view = { λ n. n.bytes };

    ghost use Rattle.std.specs.Prelude.{◌≡◌, ◌<◌, ◌^◌};
    ghost use Rattle.place_names.specs.Naming.{hash_from};

    ghost invariant = { λ n. (n.hash ≡ hash_from 7 n.bytes) × (n.hash < 2 ^ 32) };
}

impl Name {
    /// The name that has this key's bytes.
    pub(crate) fn of(alloc: Global, key: &[u8]) -> Result<Self, AllocError>
        ensures { IfOk result (λ name. name ≡ key.now) }
    {
        Ok(Name {
            hash: hash(key),
            bytes: ShortBytes::from_slice(alloc, key)?,
        })
    }

    /// Whether it is this key.
    pub(crate) fn is(&self, key: &[u8]) -> bool
        ensures { IsTrue result ↔ (self.now ≡ key.now) }
    {
        are_same(self.bytes.as_slice(), key)
    }

    /// Its hash as a key.
    pub fn hash(&self) -> u64
        ensures value { result ≡ hash_from 7 self.now }
        ensures fits { result < 2 ^ 32 }
    {
        self.hash
    }
}

/// A key's hash, which says where its walk over the places begins.
pub fn hash(key: &[u8]) -> u64
    ensures value { result ≡ hash_from 7 key.now }
    ensures fits { result < 2 ^ 32 }
{
    let mut hash: u64 = 7;
    for byte in key {
        hash = (31 * hash + u64::from(*byte)) % (1 << 32);
    }
    hash
}
