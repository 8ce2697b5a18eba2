//! A row of a column.

ghost use Rattle.std.specs.Prelude.{◌≡◌, ◌↔◌, IsTrue};

use short_bytes::ShortBytes;
use std::alloc::Allocator;
use std::marker::Model;

/// A member, which is a byte string, with its score.
///
/// Contracts see the pair of the score and the member's bytes.
#[derive_where(Debug)]
pub struct Row<A: Allocator> {
    score: i64,
    member: ShortBytes<A>,
}

impl<A: Allocator> Model for Row<A> {
    ghost use Rattle.std.specs.Prelude.{ℤ, ℕ, List};

    ghost Value = { ℤ × List ℕ };

    ghost view = { λ r. (r.score, r.member) };
}

/// By hand, so that a proof about code that drops a row sees one step.
impl<A: Allocator> Drop for Row<A> {
    fn drop(self) {
        let Row {
            score: _,
            member: _,
        } = self;
    }
}

impl<A: Allocator> Row<A> {
    /// The row of a score and a member. It takes no memory.
    pub fn new(score: i64, member: ShortBytes<A>) -> Self
        ensures { result ≡ (score, member) }
    {
        Row { score, member }
    }

    /// The row's score.
    pub fn score(&self) -> i64
        ensures { result ≡ self.now.0 }
    {
        self.score
    }

    /// The member's bytes.
    pub fn member(&self) -> &[u8]
        ensures { result.now ≡ self.now.1 }
    {
        self.member.as_slice()
    }

    /// Whether the two rows have the same score and the same member.
    pub fn is_same(&self, other: &Row<A>) -> bool
        ensures { IsTrue result ↔ (self.now ≡ other.now) }
    {
        self.score == other.score && self.member() == other.member()
    }
}
