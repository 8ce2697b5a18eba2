//! The pairs of ZADD.
ghost use Rattle.std.specs.Prelude.{◌≡◌, ◌*◌, length};

use resp_wire::Bytes;
use std::alloc::Allocator;

/// The scores of a ZADD, and the arguments that they were read from: each score with its member
/// behind it.
#[derive(Drop)]
pub struct GivenPairs<'a, A: Allocator> {
    pub scores: &'a [i64],
    pub arguments: &'a [Bytes<A>],
    ghost paired: { length arguments.now ≡ 2 * length scores.now },
}
