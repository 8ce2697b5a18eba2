//! Bytes that stand in place.

ghost use Rattle.std.specs.Prelude.{◌≡◌, ◌≤◌, length, take};

use std::marker::Model;

/// How many bytes stand in place: with their number, and the mark of where they stand, they fill the 24 bytes that a
/// `Vec` takes.
pub const IN_PLACE: usize = 22;

/// Up to [`IN_PLACE`] bytes. A contract sees the list of them.
#[derive(Drop)]
pub struct Inline {
    len: u8,
    bytes: [u8; IN_PLACE],
}

impl Model for Inline {
    ghost use Rattle.std.specs.Prelude.{ℕ, List, ◌≤◌, take};

    ghost Value = { List ℕ };

    ghost view = { λ b. take b.len b.bytes };

    ghost invariant = { λ b. b.len ≤ 22 };
}

impl Inline {
    /// A copy of these bytes.
    pub fn new(bytes: &[u8]) -> Self
        requires { length bytes.now ≤ IN_PLACE }
        ensures { result ≡ bytes.now }
    {
        let mut all = [0; IN_PLACE];
        all[..bytes.len()].copy_from_slice(bytes);
        Inline {
            len: bytes.len() as u8,
            bytes: all,
        }
    }

    /// A copy of the first `len` of at least [`IN_PLACE`] bytes. All of these are copied, though the others are not seen: a
    /// copy of a length that is known takes a few moves.
    pub fn first(bytes: &[u8], len: usize) -> Self
        requires enough { IN_PLACE ≤ length bytes.now }
        requires within { len ≤ IN_PLACE }
        ensures { result ≡ take len bytes.now }
    {
        let mut all = [0; IN_PLACE];
        all.copy_from_slice(&bytes[..IN_PLACE]);
        Inline {
            len: len as u8,
            bytes: all,
        }
    }

    /// The same bytes once more.
    pub fn copied(&self) -> Self
        ensures { result ≡ self.now }
    {
        Inline {
            len: self.len,
            bytes: self.bytes,
        }
    }

    /// The bytes.
    pub fn as_slice(&self) -> &[u8]
        ensures { result.now ≡ self.now }
    {
        &self.bytes[..self.len as usize]
    }
}
