//! Requests.

ghost use Rattle.std.specs.Prelude.{◌≡◌, ◌↔◌, [], All, IsTrue, SomeIff};
ghost use Rattle.resp_messages.specs.RequestEncoding.{IsRequest, IsArgument};

use crate::bytes::{Bytes, BytesList};
use std::alloc::Allocator;
use std::marker::Model;

/// The most arguments of a request, its name included.
pub const MAX_ARGUMENTS: usize = 1027;

/// The most bytes of an argument.
pub const MAX_LENGTH: usize = 65536;

/// A request: 1 to 1,027 byte strings of at most 65,536 bytes each, the first of which names the
/// command.
#[derive(Drop)]
#[derive_where(Debug)]
pub struct Request<A: Allocator> {
    arguments: BytesList<A>,
}

impl<A: Allocator> Model for Request<A> {
    ghost use Rattle.std.specs.Prelude.{ℕ, List};
    ghost use Rattle.resp_messages.specs.RequestEncoding.{IsRequest};

    ghost Value = { List (List ℕ) };

    ghost view = { λ r. r.arguments };

    ghost invariant = { λ r. IsRequest r.arguments };
}

impl<A: Allocator> Request<A> {
    /// The request of these arguments. None where there are no arguments, more than 1,027, or one
    /// of more than 65,536 bytes.
    pub fn new(arguments: BytesList<A>) -> Option<Self>
        ensures { SomeIff result (IsRequest arguments) arguments }
    {
        if arguments.is_empty()
            || MAX_ARGUMENTS < arguments.len()
            || !are_arguments(arguments.as_slice())
        {
            return None;
        }
        Some(Request { arguments })
    }

    /// A request of arguments that are known to make one: 1 to 1,027 of at most 65,536 bytes each.
    pub fn of(arguments: BytesList<A>) -> Self
        requires { IsRequest arguments }
        ensures { result ≡ arguments }
    {
        Request { arguments }
    }

    /// The arguments, of which there is at least one.
    pub fn words(&self) -> &[Bytes<A>]
        ensures words { result.now ≡ self.now }
        ensures within { IsRequest self.now }
    {
        self.arguments.as_slice()
    }

    /// Gives up the arguments, and keeps the room that their list had.
    pub fn into_room(self) -> Vec<Bytes<A>, A>
        ensures { result.items ≡ [] }
    {
        let mut room = self.arguments.into_vec();
        room.clear();
        room
    }
}

fn are_arguments<A: Allocator>(arguments: &[Bytes<A>]) -> bool
    ensures { IsTrue result ↔ All IsArgument arguments.now }
{
    arguments.iter().all(|value| value.len() <= MAX_LENGTH)
}
