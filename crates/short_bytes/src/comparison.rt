//! Comparing byte strings.

ghost use Rattle.std.specs.Prelude.{◌≡◌, nat_eq};
ghost use Rattle.std.specs.Cmp.Lexicographic.{pointwise};

use crate::inline::IN_PLACE;

/// Whether two byte strings have the same bytes. Short ones are compared byte by byte: slices compare theirs by vectors,
/// which takes twice as long for a few bytes.
pub fn are_same(left: &[u8], right: &[u8]) -> bool
    ensures { result ≡ pointwise nat_eq left.now right.now }
{
    if left.len() != right.len() || IN_PLACE < left.len() {
        return left == right;
    }
    let mut left_rest = left;
    let mut right_rest = right;
    while let ([a, behind_a @ ..], [b, behind_b @ ..]) = (left_rest, right_rest) {
        if *a != *b {
            return false;
        }
        left_rest = behind_a;
        right_rest = behind_b;
    }
    true
}
