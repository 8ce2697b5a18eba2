//! Searches of fingerprints, which find the rows to look at.

ghost use Rattle.std.specs.Prelude.{◌+◌, ◌≤◌, length};

use crate::deletion_bloom::DeletionBloom;

/// The fingerprints that a row may have: that of its score and its own.
#[derive(Clone, Copy)]
pub struct Wanted {
    pub of_score: u32,
    pub of_row: u32,
}

/// The first place from `from` on and before `to` of which the filter may have the fingerprint, or
/// which has none, or `to`.
pub fn next_within(fingerprints: &[u32], from: usize, to: usize, filter: &DeletionBloom) -> usize
    requires { from ≤ to }
    ensures low { from ≤ result }
    ensures high { result ≤ to }
{
    let known = to.min(fingerprints.len());
    for at in from..known {
        if filter.may_have(fingerprints[at]) {
            return at;
        }
    }
    known.max(from)
}

/// Whether a row with the fingerprint may be the one that is wanted.
fn is_like(fingerprint: u32, wanted: Wanted) -> bool {
    (fingerprint == wanted.of_row) | (fingerprint == wanted.of_score) | (fingerprint == 0)
}

/// Whether one of the four fingerprints from the index `from` on is like that of the row that is
/// wanted.
fn four_like(fingerprints: &[u32], from: usize, wanted: Wanted) -> bool
    requires { from + 4 ≤ length fingerprints.now }
{
    is_like(fingerprints[from], wanted)
        | is_like(fingerprints[from + 1], wanted)
        | is_like(fingerprints[from + 2], wanted)
        | is_like(fingerprints[from + 3], wanted)
}

/// Goes on from `from` over fingerprints that are not like that of the row that is wanted, by four at a
/// time.
fn skip_unlike(fingerprints: &[u32], from: usize, to: usize, wanted: Wanted) -> usize
    requires order { from ≤ to }
    requires within { to ≤ length fingerprints.now }
    ensures low { from ≤ result }
    ensures high { result ≤ to }
{
    let mut at = from;
    while to - at >= 4 && !four_like(fingerprints, at, wanted) {
        at += 4;
    }
    at
}

/// The first place from `from` on and before `to` of which the fingerprint is like that of the row that
/// is wanted, or which has none; or `to`.
pub fn next_like(fingerprints: &[u32], from: usize, to: usize, wanted: Wanted) -> usize
    ensures { from ≤ result }
{
    let known = to.min(fingerprints.len());
    if from >= known {
        return from;
    }
    for at in skip_unlike(fingerprints, from, known, wanted)..known {
        if is_like(fingerprints[at], wanted) {
            return at;
        }
    }
    known
}
