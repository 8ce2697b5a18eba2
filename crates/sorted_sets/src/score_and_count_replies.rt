//! Replies with scores and counts.
ghost use Rattle.std.specs.Prelude.{◌≡◌, ◌<◌, ◌^◌, pos, IfOk};
ghost use Rattle.resp_wire.specs.Response.{response_of, Integer};
ghost use Rattle.score_bounds.specs.ScoreTexts.{score_text};
ghost use Rattle.zset_core.specs.Semantics.{increase_reply, score_reply};

use itoa::Buffer;
use resp_wire::{Bytes, Reply};
use std::alloc::{AllocError, Allocator};
use zset_core::Outcome;

/// The text of a score. It is short enough to take no memory.
#[tactic(auto, unfolding(score_bounds::specs::ScoreTexts::score_text))]
pub fn score_bytes<A: Allocator + Copy>(alloc: A, score: i64) -> Result<Bytes<A>, AllocError>
    ensures { IfOk result (λ bytes. bytes ≡ score_text score) }
{
    let mut buffer = Buffer::new();
    Bytes::from_slice(alloc, buffer.format(score).as_bytes())
}

/// The reply to ZADD with INCR.
pub fn increase_reply<A: Allocator + Copy>(
    alloc: A,
    what: Outcome,
    score: i64,
) -> Result<Reply<A>, AllocError>
    ensures { IfOk result (λ reply. response_of reply ≡ increase_reply what score) }
{
    match what {
        Outcome::Stopped => Ok(Reply::Null),
        _ => Ok(Reply::Bulk(score_bytes(alloc, score)?)),
    }
}

/// The reply with a number of members.
pub fn count_reply<A: Allocator + Copy>(count: usize) -> Reply<A>
    requires { count < 2 ^ 63 }
    ensures { response_of result ≡ Integer (pos count) }
{
    Reply::Int(count as i64)
}

/// The reply to ZSCORE.
pub fn score_reply<A: Allocator + Copy>(
    alloc: A,
    score: Option<i64>,
) -> Result<Reply<A>, AllocError>
    ensures { IfOk result (λ reply. response_of reply ≡ score_reply score) }
{
    match score {
        None => Ok(Reply::Null),
        Some(score) => Ok(Reply::Bulk(score_bytes(alloc, score)?)),
    }
}
