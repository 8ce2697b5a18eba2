//! Requests and replies, written.

ghost use Rattle.std.specs.Prelude.{◌≡◌, ◌≤◌, ◌<◌, ◌+◌, [], ◌++◌, ◌∷◌, length, take, OnOk, OnErr};
ghost use Rattle.std.specs.Fmt.{signed_decimal};
ghost use Rattle.std.specs.List.{flat_map};
ghost use Rattle.resp_messages.specs.RequestEncoding.{line, argument, request};
ghost use Rattle.resp_messages.specs.Response.{response_of, encoded};

use crate::bytes::Bytes;
use crate::reply::Reply;
use crate::request::Request;
use itoa::Buffer;
use std::alloc::{AllocError, Allocator};

/// The end of a line.
fn end_line<A: Allocator>(out: &mut Vec<u8, A>) -> Result<(), AllocError>
    ensures ok { OnOk result (out.new.items ≡ out.old.items ++ 13 ∷ 10 ∷ []) }
    ensures kept { take (length out.old.items) out.new.items ≡ out.old.items }
    ensures longer { length out.old.items ≤ length out.new.items }
{
    out.extend_from_slice(b"\r\n")
}

/// The digit of a number.
fn digit(n: usize) -> u8
    requires { n < 10 }
    ensures { result ≡ 48 + n }
{
    b'0' + n as u8
}

/// A mark, a number, and the end of the line. Most numbers are lengths and counts of up to four digits: these are put at
/// once.
#[tactic(auto, using(std::proofs::lemmas::Fmt::decimal_digit, crate::proofs::ShortNumbers::short_numbers))]
fn put_number<A: Allocator>(out: &mut Vec<u8, A>, mark: u8, n: usize) -> Result<(), AllocError>
    ensures ok { OnOk result (out.new.items ≡ out.old.items ++ mark ∷ line n) }
    ensures kept { take (length out.old.items) out.new.items ≡ out.old.items }
    ensures longer { length out.old.items ≤ length out.new.items }
{
    if n < 10 {
        return out.extend_from_slice(&[mark, digit(n), b'\r', b'\n']);
    }
    if n < 100 {
        return out.extend_from_slice(&[mark, digit(n / 10), digit(n % 10), b'\r', b'\n']);
    }
    if n < 1000 {
        let (tens, ones) = (digit(n / 10 % 10), digit(n % 10));
        return out.extend_from_slice(&[mark, digit(n / 100), tens, ones, b'\r', b'\n']);
    }
    if n < 10_000 {
        let (hundreds, tens, ones) = (digit(n / 100 % 10), digit(n / 10 % 10), digit(n % 10));
        return out.extend_from_slice(&[mark, digit(n / 1000), hundreds, tens, ones, b'\r', b'\n']);
    }
    let mut buffer = Buffer::new();
    out.push(mark)?;
    out.extend_from_slice(buffer.format(n).as_bytes())?;
    end_line(out)
}

/// A mark, a text, and the end of the line.
fn put_text<A: Allocator>(out: &mut Vec<u8, A>, mark: u8, text: &[u8]) -> Result<(), AllocError>
    ensures ok { OnOk result (out.new.items ≡ out.old.items ++ mark ∷ (text.now ++ 13 ∷ 10 ∷ [])) }
    ensures kept { take (length out.old.items) out.new.items ≡ out.old.items }
    ensures longer { length out.old.items ≤ length out.new.items }
{
    out.push(mark)?;
    out.extend_from_slice(text)?;
    end_line(out)
}

/// A bulk string.
fn put_bulk<A: Allocator>(out: &mut Vec<u8, A>, bytes: &[u8]) -> Result<(), AllocError>
    ensures ok { OnOk result (out.new.items ≡ out.old.items ++ argument bytes.now) }
    ensures kept { take (length out.old.items) out.new.items ≡ out.old.items }
    ensures longer { length out.old.items ≤ length out.new.items }
{
    put_number(out, b'$', bytes.len())?;
    out.extend_from_slice(bytes)?;
    end_line(out)
}

/// An array of bulk strings.
fn put_array<A: Allocator>(out: &mut Vec<u8, A>, list: &[Bytes<A>]) -> Result<(), AllocError>
    ensures ok { OnOk result (out.new.items ≡ out.old.items ++ 42
        ∷ (line (length list.now) ++ flat_map argument list.now)) }
    ensures kept { take (length out.old.items) out.new.items ≡ out.old.items }
    ensures longer { length out.old.items ≤ length out.new.items }
{
    put_number(out, b'*', list.len())?;
    for bytes in list {
        put_bulk(out, bytes.as_slice())?;
    }
    Ok(())
}

fn put_reply<A: Allocator>(reply: &Reply<A>, out: &mut Vec<u8, A>) -> Result<(), AllocError>
    ensures ok { OnOk result (out.new.items ≡ out.old.items ++ encoded (response_of reply.now)) }
    ensures kept { take (length out.old.items) out.new.items ≡ out.old.items }
    ensures longer { length out.old.items ≤ length out.new.items }
{
    match reply {
        Reply::Int(n) if *n >= 0 => put_number(out, b':', *n as usize),
        Reply::Int(n) => put_text(out, b':', Buffer::new().format(*n).as_bytes()),
        Reply::Bulk(bytes) => put_bulk(out, bytes.as_slice()),
        Reply::Null => out.extend_from_slice(b"$-1\r\n"),
        Reply::List(list) => put_array(out, list.as_slice()),
        Reply::Simple(text) => put_text(out, b'+', text.as_bytes()),
        Reply::Fault(text) => put_text(out, b'-', text.as_bytes()),
    }
}

/// The most bytes that stand beside an argument's own, or before the first one: a mark, a number of at
/// most five digits, and the ends of two lines.
const FRAME: usize = 10;

/// As many bytes as the arguments take once they are written, and few more, so that the room is made at once.
fn room_for<A: Allocator>(words: &[Bytes<A>]) -> usize {
    let mut room = FRAME;
    for word in words {
        room = room.saturating_add(word.len()).saturating_add(FRAME);
    }
    room
}

/// Writes the beginning of an array of so many bulk strings at the end of the bytes: [`write_bulk`]
/// writes each. On Err, the bytes are unchanged.
pub fn write_array_header<A: Allocator>(len: usize, out: &mut Vec<u8, A>) -> Result<(), AllocError>
    ensures ok { OnOk result (out.new.items ≡ out.old.items ++ 42 ∷ line len) }
    ensures err { OnErr result (out.new.items ≡ out.old.items) }
{
    let had = out.len();
    let written = put_number(out, b'*', len);
    if written.is_err() {
        out.truncate(had);
    }
    written
}

/// Writes a bulk string, as which a request has each of its arguments, at the end of the bytes. On Err,
/// they are unchanged.
pub fn write_bulk<A: Allocator>(bytes: &[u8], out: &mut Vec<u8, A>) -> Result<(), AllocError>
    ensures ok { OnOk result (out.new.items ≡ out.old.items ++ argument bytes.now) }
    ensures err { OnErr result (out.new.items ≡ out.old.items) }
{
    let had = out.len();
    let written = put_bulk(out, bytes);
    if written.is_err() {
        out.truncate(had);
    }
    written
}

/// Writes a number in decimal as a bulk string at the end of the bytes. On Err, they are unchanged.
pub fn write_number_bulk<A: Allocator>(number: i64, out: &mut Vec<u8, A>) -> Result<(), AllocError>
    ensures ok { OnOk result (out.new.items ≡ out.old.items ++ argument (signed_decimal number)) }
    ensures err { OnErr result (out.new.items ≡ out.old.items) }
{
    write_bulk(Buffer::new().format(number).as_bytes(), out)
}

/// Writes a request at the end of the bytes. On Err, they are unchanged.
pub fn write_request<A: Allocator>(
    wanted: &Request<A>,
    out: &mut Vec<u8, A>,
) -> Result<(), AllocError>
    ensures ok { OnOk result (out.new.items ≡ out.old.items ++ request wanted.now) }
    ensures err { OnErr result (out.new.items ≡ out.old.items) }
{
    out.reserve(room_for(wanted.words()))?;
    let had = out.len();
    let written = put_array(out, wanted.words());
    if written.is_err() {
        out.truncate(had);
    }
    written
}

/// Writes a reply at the end of the bytes. On Err, they are unchanged.
pub fn write_reply<A: Allocator>(reply: &Reply<A>, out: &mut Vec<u8, A>) -> Result<(), AllocError>
    ensures ok { OnOk result (out.new.items ≡ out.old.items ++ encoded (response_of reply.now)) }
    ensures err { OnErr result (out.new.items ≡ out.old.items) }
{
    let had = out.len();
    let written = put_reply(reply, out);
    if written.is_err() {
        out.truncate(had);
    }
    written
}
