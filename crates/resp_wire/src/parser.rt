//! Parsing at the start of a slice: a value and the bytes behind it, or where parsing stops.

ghost use Rattle.std.specs.Prelude.{◌≡◌, ℕ, ◌+◌, ◌*◌, ◌≤◌, ◌<◌, ◌^◌, List, length, take, Ok, OnOk};
ghost use Rattle.resp_wire.specs.ParserCodeAgreement.{Gives, GivesUnlessFull};
ghost use Rattle.resp_wire.specs.Parser.{byte_at, line_end_at, digits_at, number_at, head_at, body_at, argument_at};

use crate::fault::{Failure, ProtocolFault, Stop};
use resp_messages::{Bytes, MAX_ARGUMENTS, MAX_LENGTH};
use std::alloc::Allocator;

#[tactic(auto, unfolding(crate::specs::Parser::byte_at))]
fn after_byte(wanted: u8, fault: ProtocolFault, bytes: &[u8]) -> Result<&[u8], Stop>
    ensures { Gives (λ rest. rest.now) result (byte_at wanted fault bytes.now) }
{
    match bytes {
        [] => Err(Stop::Short),
        [b, rest @ ..] if *b == wanted => Ok(rest),
        _ => Err(Stop::Wrong(fault)),
    }
}

#[tactic(auto, unfolding(crate::specs::Parser::line_end_at))]
fn after_line_end(fault: ProtocolFault, bytes: &[u8]) -> Result<&[u8], Stop>
    ensures { Gives (λ rest. rest.now) result (line_end_at fault bytes.now) }
{
    let rest = after_byte(b'\r', fault, bytes)?;
    after_byte(b'\n', fault, rest)
}

/// A number up to the limit, and the bytes behind the end of its line. A number over the limit is
/// told at the digit that makes it so, and a zero before a digit at that digit.
#[tactic(auto, unfolding(crate::specs::Parser::digits_at, crate::specs::Parser::number_at))]
fn number(limit: usize, over: ProtocolFault, bytes: &[u8]) -> Result<(usize, &[u8]), Stop>
    requires { limit < 2 ^ 32 }
    ensures { Gives (λ found. (found.0, found.1.now)) result (number_at limit over bytes.now) }
{
    let mut n = match bytes {
        [] => return Err(Stop::Short),
        [b, ..] if b.is_ascii_digit() => (*b - b'0') as usize,
        _ => return Err(Stop::Wrong(ProtocolFault::BadNumber)),
    };
    let mut rest = &bytes[1..];
    while let [b, behind @ ..] = rest {
        if !b.is_ascii_digit() {
            return Ok((n, after_line_end(ProtocolFault::BadNumber, rest)?));
        }
        if n == 0 {
            return Err(Stop::Wrong(ProtocolFault::BadNumber));
        }
        n = n * 10 + (*b - b'0') as usize;
        if limit < n {
            return Err(Stop::Wrong(over));
        }
        rest = behind;
    }
    Err(Stop::Short)
}

/// The number behind `*`, where None is the -1, and the bytes behind the line.
#[tactic(auto, unfolding(crate::specs::Parser::head_at, crate::specs::Parser::count_at))]
pub fn head(bytes: &[u8]) -> Result<(Option<usize>, &[u8]), Stop>
    ensures { Gives (λ found. (found.0, found.1.now)) result (head_at bytes.now) }
{
    let behind_star = after_byte(b'*', ProtocolFault::NotAnArray, bytes)?;
    match behind_star {
        [] => Err(Stop::Short),
        [b'-', behind @ ..] => {
            let rest = after_byte(b'1', ProtocolFault::BadNumber, behind)?;
            let after = after_line_end(ProtocolFault::BadNumber, rest)?;
            Ok((None, after))
        }
        _ => {
            let (count, after) = number(
                MAX_ARGUMENTS,
                ProtocolFault::TooManyArguments,
                behind_star,
            )?;
            Ok((Some(count), after))
        }
    }
}

/// The bytes behind so many and the line end after them.
#[tactic(auto, unfolding(crate::specs::Parser::body_at))]
fn behind_body(len: usize, bytes: &[u8]) -> Result<&[u8], Stop>
    ensures gives { Gives (λ rest. (take len bytes.now, rest.now)) result (body_at len bytes.now) }
    ensures within { OnOk result (len ≤ length bytes.now) }
{
    if bytes.len() < len {
        return Err(Stop::Short);
    }
    let (_, behind) = bytes.split_at(len);
    let rest = after_line_end(ProtocolFault::BadBulk, behind)?;
    Ok(rest)
}

/// An argument as a value of its own, and the bytes behind it.
#[tactic(auto, unfolding(crate::specs::Parser::argument_at))]
pub fn argument<A: Allocator>(alloc: A, bytes: &[u8]) -> Result<(Bytes<A>, &[u8]), Failure>
    ensures { GivesUnlessFull (λ found. (found.0, found.1.now)) result (argument_at bytes.now) }
{
    let behind_dollar = after_byte(b'$', ProtocolFault::BadBulk, bytes)?;
    let (len, behind_line) = number(MAX_LENGTH, ProtocolFault::TooLong, behind_dollar)?;
    let rest = behind_body(len, behind_line)?;
    Ok((Bytes::from_first(alloc, behind_line, len)?, rest))
}
