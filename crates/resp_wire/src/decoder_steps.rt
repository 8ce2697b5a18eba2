//! The steps of a decoder over the bytes at its cursor.
//!
//! Each is a function of the fields that it needs and of no others, so that a step changes nothing
//! where memory runs out, and `Decoder::next` alone moves the cursor.

ghost use Rattle.std.specs.Prelude.{◌≡◌, ℕ, ◌≤◌, ◌<◌, ◌++◌, length, take, All, Some, IfOk, OnOk};
ghost use Rattle.std.specs.List.{flat_map};
ghost use Rattle.resp_wire.specs.ParserCodeAgreement.{Gives};
ghost use Rattle.resp_messages.specs.RequestEncoding.{IsArgument, argument};
ghost use Rattle.resp_wire.specs.Parser.{head_at};
ghost use Rattle.resp_wire.specs.DecoderSteps.{SkipsTo, ArgumentStops, Went, Steps};

use crate::fault::{Failure, Stop};
use crate::parser;
use resp_messages::{Bytes, MAX_ARGUMENTS};
use std::alloc::Allocator;

/// What stands behind the skips.
#[derive(Drop)]
pub struct AfterSkips<'a> {
    /// The bytes behind the skips.
    rest: &'a [u8],
    /// The number of arguments of a request and the bytes behind its first line, or why there is
    /// none.
    head: Result<(usize, &'a [u8]), Stop>,
}

/// Goes past the skips.
fn past_skips(bytes: &[u8]) -> AfterSkips<'_>
    ensures skips { SkipsTo bytes.now result.rest.now }
    ensures head { Gives (λ found. (Some found.0, found.1.now)) result.head
        (head_at result.rest.now) }
    ensures some { IfOk result.head (λ found. 0 < found.0) }
{
    let mut rest = bytes;
    'skips: loop {
        match parser::head(rest) {
            Err(stop) => {
                return AfterSkips {
                    rest,
                    head: Err(stop),
                };
            }
            Ok((head, behind)) => match head {
                Some(count) if count > 0 => {
                    return AfterSkips {
                        rest,
                        head: Ok((count, behind)),
                    };
                }
                _ => rest = behind,
            },
        }
    }
}

/// Reads arguments until there are `count` of them, and gives the bytes behind.
fn fill<'a, A: Allocator + Copy>(
    alloc: A,
    arguments: &mut Vec<Bytes<A>, A>,
    count: usize,
    bytes: &'a [u8],
) -> (&'a [u8], Result<(), Failure>)
    requires { length arguments.old.items ≤ count }
    ensures text { flat_map argument arguments.new.items ++ result.0.now
        ≡ flat_map argument arguments.old.items ++ bytes.now }
    ensures each { All IsArgument arguments.old.items → All IsArgument arguments.new.items }
    ensures full { OnOk result.1 (length arguments.new.items ≡ count) }
    ensures stop { ArgumentStops result.1 result.0.now (length arguments.new.items) count }
    ensures shorter { length result.0.now ≤ length bytes.now }
    ensures kept { take (length arguments.old.items) arguments.new.items ≡ arguments.old.items }
    ensures few { length arguments.new.items ≤ count }
{
    let mut rest = bytes;
    'arguments: while arguments.len() < count {
        match parser::argument(alloc, rest) {
            Err(failure) => return (rest, Err(failure)),
            Ok((value, behind)) => match arguments.push(value) {
                Err(_) => return (rest, Err(Failure::Memory)),
                Ok(()) => rest = behind,
            },
        }
    }
    (rest, Ok(()))
}

/// How far a request came.
#[derive(Clone, Copy, Debug, PartialEq, Eq)]
pub enum End {
    Whole,
    Memory,
    Stopped(Stop),
}

/// Goes on with a request of `count` arguments. Out of memory: the arguments are unchanged.
fn go_on<'a, A: Allocator + Copy>(
    alloc: A,
    arguments: &mut Vec<Bytes<A>, A>,
    count: usize,
    bytes: &'a [u8],
) -> (&'a [u8], End)
    requires some { 0 < count }
    requires within { count ≤ MAX_ARGUMENTS }
    requires few { length arguments.old.items ≤ count }
    requires each { All IsArgument arguments.old.items }
    ensures { Went count arguments.old.items bytes.now result.1 arguments.new.items result.0.now }
{
    let had = arguments.len();
    let (rest, filled) = fill(alloc, arguments, count, bytes);
    match filled {
        Ok(()) => (rest, End::Whole),
        Err(failure) => match failure {
            Failure::Stop(stop) => (rest, End::Stopped(stop)),
            Failure::Memory => {
                arguments.truncate(had);
                (bytes, End::Memory)
            }
        },
    }
}

/// How far one step came towards the next request: past the skips first, then over its arguments.
#[derive(Clone, Copy)]
pub struct Step {
    /// The bytes of the skips.
    pub skipped: usize,
    /// The bytes that were read, those of the skips included.
    pub used: usize,
    /// The number of arguments of the request that has begun, 0 where none has.
    pub count: usize,
    pub end: End,
}

/// Goes on with the request of `count` arguments that has begun, or begins the next one where
/// `count` is 0.
pub fn advance<A: Allocator + Copy>(
    alloc: A,
    arguments: &mut Vec<Bytes<A>, A>,
    count: usize,
    bytes: &[u8],
) -> Step
    requires within { count ≤ MAX_ARGUMENTS }
    requires few { length arguments.old.items ≤ count }
    requires each { All IsArgument arguments.old.items }
    ensures { Steps count arguments.old.items bytes.now result arguments.new.items }
{
    if count > 0 {
        let (rest, end) = go_on(alloc, arguments, count, bytes);
        return Step {
            skipped: 0,
            used: bytes.len() - rest.len(),
            count,
            end,
        };
    }
    let after = past_skips(bytes);
    let skipped = bytes.len() - after.rest.len();
    match after.head {
        Err(stop) => Step {
            skipped,
            used: skipped,
            count: 0,
            end: End::Stopped(stop),
        },
        Ok((count, body)) => {
            let (rest, end) = go_on(alloc, arguments, count, body);
            Step {
                skipped,
                used: bytes.len() - rest.len(),
                count,
                end,
            }
        }
    }
}
