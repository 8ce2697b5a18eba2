//! PING, which asks for no set.
ghost use Rattle.std.specs.Prelude.{◌≡◌, slice_get, IfOk};
ghost use Rattle.resp_wire.specs.Response.{response_of};
ghost use Rattle.zset_core.specs.Semantics.{echo};

use resp_wire::{Bytes, Reply};
use std::alloc::{AllocError, Allocator};

/// The reply to a PING's words: the text to repeat, or `PONG` where there is none.
pub fn pong<A: Allocator + Copy>(alloc: A, words: &[Bytes<A>]) -> Result<Reply<A>, AllocError>
    ensures { IfOk result (λ reply. response_of reply ≡ echo (slice_get words.now 1)) }
{
    match words.get(1) {
        None => Ok(Reply::Simple("PONG")),
        Some(text) => Ok(Reply::Bulk(Bytes::from_slice(alloc, text.as_slice())?)),
    }
}
