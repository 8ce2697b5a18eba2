//! What a command keeps of its arguments once they are read.

use crate::flags::Flags;
use crate::limit::Limit;
use score_bounds::Range;
use std::alloc::Allocator;

/// A command beside its arguments: places of arguments, and the numbers that were read, so that running it
/// reads no text again. Places count the words from the name, which is at 0; the key is at 1.
#[derive(Drop)]
#[derive_where(Debug)]
pub enum Form<A: Allocator> {
    /// PING: the text, if there is one, is at 1.
    Ping,
    /// A question of the key's set.
    Asks(QuestionForm),
    /// A change of the key's set.
    Changes(ChangeForm<A>),
}

/// A question beside its arguments.
#[derive(Clone, Copy, Debug)]
pub enum QuestionForm {
    /// ZSCORE: the member is at 2.
    Score,
    /// ZCARD.
    Card,
    /// ZCOUNT.
    Count {
        range: Range,
    },
    /// ZRANGEBYSCORE.
    ListRange {
        range: Range,
        with_scores: bool,
        limit: Option<Limit>,
    },
}

/// A change beside its arguments.
#[derive(Drop)]
#[derive_where(Debug)]
pub enum ChangeForm<A: Allocator> {
    /// ZADD: pair `i` has `scores[i]`, and its member is at `first + 2 i + 1`.
    Add {
        flags: Flags,
        /// CH: members whose score was changed are counted too.
        changed: bool,
        first: usize,
        scores: Vec<i64, A>,
    },
    /// ZADD with INCR: `given` is added to the score of the member at the place `member`.
    Increase {
        flags: Flags,
        given: i64,
        member: usize,
    },
    /// ZREM: the members stand from 2 on.
    Remove,
    /// ZREMRANGEBYSCORE.
    RemoveRange {
        range: Range,
    },
}
