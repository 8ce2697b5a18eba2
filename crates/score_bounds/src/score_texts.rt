//! The texts of scores and integers.
ghost use Rattle.std.specs.Prelude.{◌≡◌, ◌==◌, ◌++◌, OnOk, OnErr};
ghost use Rattle.std.specs.List.{list_all};
ghost use Rattle.score_bounds.specs.ScoreTexts.{integer_value, score_value, score_text, is_zeros};

use memchr::memchr;
use std::alloc::{AllocError, Allocator};

/// Reads a whole number of 64 bits: an optional `+` or `-`, and one or more digits.
/// `None` where the text is no such number. LIMIT's words are read so.
pub fn read_integer(text: &[u8]) -> Option<i64>
    ensures { result ≡ integer_value text.now }
{
    match std::str::from_utf8(text) {
        Ok(text) => text.parse().ok(),
        Err(_) => None,
    }
}

/// Reads a score: an integer, behind which a point and one or more zeros may stand.
/// `None` where the text is no such score.
pub fn read_score(text: &[u8]) -> Option<i64>
    ensures { result ≡ score_value text.now }
{
    match memchr(b'.', text) {
        None => read_integer(text),
        Some(point) => {
            if is_zeros(&text[point + 1..]) {
                read_integer(&text[..point])
            } else {
                None
            }
        }
    }
}

/// Appends a score in decimal: no leading zero, no `+`, no `-0`.
///
/// # Errors
///
/// Want of memory; `out`'s bytes are then as they were.
#[tactic(auto, unfolding(crate::specs::ScoreTexts::score_text))]
pub fn write_score<A: Allocator>(score: i64, out: &mut Vec<u8, A>) -> Result<(), AllocError>
    ensures written { OnOk result (out.new.items ≡ out.old.items ++ score_text score) }
    ensures refused { OnErr result (out.new.items ≡ out.old.items) }
{
    let mut buffer = itoa::Buffer::new();
    out.extend_from_slice(buffer.format(score).as_bytes())
}

fn is_zeros(text: &[u8]) -> bool
    ensures { result ≡ is_zeros text.now }
{
    !text.is_empty() && are_all_zero(text)
}

fn are_all_zero(text: &[u8]) -> bool
    ensures { result ≡ list_all (λ byte. byte == 48) text.now }
{
    text.iter().all(|byte| *byte == b'0')
}
