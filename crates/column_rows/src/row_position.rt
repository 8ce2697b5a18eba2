//! Where a row stands among rows in no order.

ghost use Rattle.std.specs.Prelude.{◌≡◌, ◌+◌, ◌<◌, ◌≤◌, false, length, Contains, MatchOption};
ghost use Rattle.std.specs.List.{AllWithin, HoldsAt};

use crack_kernel::Row;
use std::alloc::Allocator;

/// Whether a row has the score.
fn has_score<A: Allocator>(row: &Row<A>, score: i64) -> bool
    ensures { result ≡ false → row.now.0 ≡ score → ⊥ }
{
    row.score() == score
}

/// Whether one of the four rows from the index `from` on has the score.
fn four_have<A: Allocator>(rows: &[Row<A>], from: usize, score: i64) -> bool
    requires { from + 4 ≤ length rows.now }
    ensures { result ≡ false → AllWithin (λ r. r.0 ≡ score → ⊥) rows.now from (from + 4) }
{
    has_score(&rows[from], score)
        | has_score(&rows[from + 1], score)
        | has_score(&rows[from + 2], score)
        | has_score(&rows[from + 3], score)
}

/// Goes on from an index over rows of other scores, four at a time: half the time of one by one.
fn skip_others<A: Allocator>(rows: &[Row<A>], from: usize, score: i64) -> usize
    requires { from ≤ length rows.now }
    ensures low { from ≤ result }
    ensures high { result ≤ length rows.now }
    ensures others { AllWithin (λ r. r.0 ≡ score → ⊥) rows.now from result }
{
    let mut i = from;
    while rows.len() - i >= 4 && !four_have(rows, i, score) {
        i += 4;
    }
    i
}

/// The index at which `row` stands, if it is there. Members are compared only where the scores
/// agree.
pub fn position_of<A: Allocator>(rows: &[Row<A>], row: &Row<A>) -> Option<usize>
    ensures found { MatchOption result (¬ Contains rows.now row.now) (λ i. HoldsAt (λ r. r
        ≡ row.now) rows.now i × (i < length rows.now)) }
{
    let score = row.score();
    let mut i = skip_others(rows, 0, score);
    while i < rows.len() {
        let waiting = &rows[i];
        if waiting.score() == score && waiting.is_same(row) {
            return Some(i);
        }
        i = skip_others(rows, i + 1, score);
    }
    None
}
