//! A filter of the rows that a merge takes out of a column, which is asked by their fingerprints.

ghost use Rattle.std.specs.Prelude.{◌<◌};

use crate::row_hash::{row_fingerprint, score_fingerprint};
use crack_kernel::Row;
use std::alloc::Allocator;

/// How many words the filter has.
const WORDS: usize = 4096;

/// How many bits the filter has.
const BITS: u32 = 262_144;

/// The fingerprints of rows that wait to be taken out, that of each row and that of its score alone,
/// each by two bits of [`BITS`] (a Bloom filter).
///
/// It tells each row that was added, and of 2,048 rows about one in 1,000 others. Nothing of that
/// is promised: a row that the filter passes over is merged later.
#[derive(Drop)]
pub struct DeletionBloom {
    words: [u64; WORDS],
}

impl DeletionBloom {
    /// A filter with no row. It has the fingerprint 0, which no row has: it stands where none was
    /// made.
    pub fn new() -> Self {
        let mut words = [0; WORDS];
        words[0] = 1;
        DeletionBloom { words }
    }

    /// Adds a row.
    pub fn add<A: Allocator>(&mut self, row: &Row<A>) {
        self.set_both(score_fingerprint(row.score()));
        self.set_both(row_fingerprint(row));
    }

    /// Whether a row with the fingerprint may have been added.
    pub fn may_have(&self, fingerprint: u32) -> bool {
        self.has(first_bit(fingerprint)) && self.has(second_bit(fingerprint))
    }

    fn set_both(&mut self, fingerprint: u32) {
        self.set(first_bit(fingerprint));
        self.set(second_bit(fingerprint));
    }

    fn set(&mut self, bit: u32)
        requires { bit < BITS }
    {
        self.words[(bit >> 6) as usize] |= 1 << (bit & 63);
    }

    fn has(&self, bit: u32) -> bool
        requires { bit < BITS }
    {
        self.words[(bit >> 6) as usize] >> (bit & 63) & 1 == 1
    }
}

/// The bit of 18 bits of a fingerprint, those behind the highest.
fn first_bit(fingerprint: u32) -> u32
    ensures { result < BITS }
{
    fingerprint >> 13 & 0x3_ffff
}

/// The bit of a fingerprint's last 18 bits.
fn second_bit(fingerprint: u32) -> u32
    ensures { result < BITS }
{
    fingerprint & 0x3_ffff
}
