//! A hash of a row, which tells it from other rows of the same score, and the fingerprints of a row: of
//! its score alone, and of its hash.

ghost use Rattle.std.specs.Prelude.{◌≡◌, ◌+◌, ◌*◌, ◌≤◌, ◌≤ℤ◌, length};
ghost use Rattle.score_bounds.specs.ScoreTexts.{greatest};
ghost use Rattle.column_rows.specs.RowHash.{hash_of, mix, mix_all, mix_bytes, mix_words, eight_bytes_at};

use crack_kernel::Row;
use std::alloc::Allocator;

/// The odd number next to 2^64 divided by the golden ratio: a product with it spreads each bit over
/// those above.
const SPREAD: u64 = 0x9e37_79b9_7f4a_7c15;

/// The highest bit, which fingerprints of a score alone have.
const OF_SCORE: u32 = 0x8000_0000;

/// How many bytes a word has.
const WORD: usize = 8;

/// A hash that takes in a word.
fn mix(hash: u64, word: u64) -> u64
    ensures { result ≡ mix hash word }
{
    hash.wrapping_add(word).wrapping_mul(SPREAD)
}

/// The eight bytes from an index on as one number.
fn eight_bytes_at(bytes: &[u8], at: usize) -> u64
    requires { at + 8 ≤ length bytes.now }
    ensures { result ≡ eight_bytes_at bytes.now at }
{
    u64::from_be_bytes([
        bytes[at],
        bytes[at + 1],
        bytes[at + 2],
        bytes[at + 3],
        bytes[at + 4],
        bytes[at + 5],
        bytes[at + 6],
        bytes[at + 7],
    ])
}

/// A hash that takes in bytes, one at a time.
fn mix_bytes(hash: u64, bytes: &[u8]) -> u64
    ensures { result ≡ mix_bytes hash bytes.now (length bytes.now) }
{
    let mut mixed = hash;
    for i in 0..bytes.len() {
        mixed = mix(mixed, bytes[i] as u64);
    }
    mixed
}

/// A hash that takes in the first `count` words.
fn mix_words(hash: u64, bytes: &[u8], count: usize) -> u64
    requires { 8 * count ≤ length bytes.now }
    ensures { result ≡ mix_words hash bytes.now count }
{
    let mut mixed = hash;
    for i in 0..count {
        mixed = mix(mixed, eight_bytes_at(bytes, WORD * i));
    }
    mixed
}

/// A hash that takes in all bytes. The last word ends with them, and may overlap the one before.
fn mix_all(hash: u64, bytes: &[u8]) -> u64
    ensures { result ≡ mix_all hash bytes.now }
{
    let len = bytes.len();
    if len < WORD {
        return mix_bytes(hash, bytes);
    }
    let mixed = mix_words(hash, bytes, (len - 1) / WORD);
    mix(mixed, eight_bytes_at(bytes, len - WORD))
}

/// The hash of a row: of its score and its member's bytes.
pub fn hash_of<A: Allocator>(row: &Row<A>) -> u64
    ensures is { result ≡ hash_of row.now }
    ensures score { row.now.0 ≤ℤ greatest }
{
    mix_all(mix(0, row.score().unsigned_abs()), row.member())
}

/// The fingerprint of a score alone: the first bits of a product that spreads the score over a word
/// (Fibonacci hashing), behind a bit that marks it.
pub fn score_fingerprint(score: i64) -> u32 {
    let spread = score.unsigned_abs().wrapping_mul(SPREAD);
    (spread >> 32) as u32 | OF_SCORE
}

/// The fingerprint of a row: the first bits of its hash, but 1 for 0.
pub fn row_fingerprint<A: Allocator>(row: &Row<A>) -> u32 {
    ((hash_of(row) >> 33) as u32).max(1)
}

/// Whether the fingerprint is that of a score alone.
pub fn is_of_score(fingerprint: u32) -> bool {
    fingerprint >= OF_SCORE
}
