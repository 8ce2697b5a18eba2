//! How long a record is as bytes.

ghost use Rattle.std.specs.Prelude.{◌≡◌, ◌≤◌, length};
ghost use Rattle.resp_wire.specs.RequestEncoding.{IsArgument, argument, line, request as request_text};

use itoa::Buffer;
use resp_wire::{Bytes, Request};
use std::alloc::Allocator;

/// A number of 64 bits and the end of its line are no longer.
const LONGEST_LINE: u64 = 42;

/// An argument's text is no longer.
const LONGEST_ARGUMENT: u64 = 70_000;

/// The length of a number in decimal and of the end of its line.
fn line_len(n: usize) -> u64
    ensures counted { result ≡ length (line n) }
    ensures short { result ≤ LONGEST_LINE }
{
    Buffer::new().format(n).len() as u64 + 2
}

/// The length of an argument's text: its mark, its length's line, its bytes and the end of their line.
fn argument_len<A: Allocator>(bytes: &Bytes<A>) -> u64
    requires { IsArgument bytes.now }
    ensures counted { result ≡ length (argument bytes.now) }
    ensures short { result ≤ LONGEST_ARGUMENT }
{
    1 + line_len(bytes.len()) + bytes.len() as u64 + 2
}

/// The length of a request's text. It is counted, since it is wanted of each record, and to write the
/// text would take a buffer and a copy of each argument.
pub fn text_len<A: Allocator>(wanted: &Request<A>) -> u64
    ensures { result ≡ length (request_text wanted.now) }
{
    let words = wanted.words();
    let mut len = 1 + line_len(words.len());
    for bytes in words {
        len += argument_len(bytes);
    }
    len
}
