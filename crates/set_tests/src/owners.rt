//! What owners of sets list.

ghost use Rattle.std.specs.Prelude.{◌≡◌, None};

use crate::trials::{Trial, expect_of_owners};
use crack_kernel::Row;
use resp_wire::{Bytes, BytesList, Reply, Request, write_reply};
use sorted_sets::OneOwner;
use std::alloc::{AllocError, Allocator, Global};
use std::hash::RandomState;
use std::test::Fail;
use zset_commands::Command;

pub type Owner = OneOwner<RandomState, Global>;

fn put_word<A: Allocator + Copy>(
    alloc: A,
    word: &str,
    words: &mut Vec<Bytes<A>, A>,
) -> Result<(), AllocError> {
    words.push(Bytes::from_slice(alloc, word.as_bytes())?)?;
    Ok(())
}

/// The request of a text's words, which single spaces part.
fn request<A: Allocator + Copy>(alloc: A, text: &str) -> Result<Request<A>, Fail> {
    let mut words = Vec::new(alloc);
    for word in text.split(' ') {
        put_word(alloc, word, &mut words)?;
    }
    match Request::new(BytesList::new(words)) {
        Some(request) => Ok(request),
        None => Err(Fail::new("no request")),
    }
}

/// The command of a text's words.
pub fn command<A: Allocator + Copy>(alloc: A, text: &str) -> Result<Command<A>, Fail> {
    Command::read(alloc, request(alloc, text)?).map_err(|_| Fail::from("no command"))
}

/// Fails with a text where something is not so.
pub fn expect_that(is_so: bool, text: &str) -> Result<(), Fail> {
    if is_so { Ok(()) } else { Err(Fail::new(text)) }
}

// These bytes, an end of line as `~`.
fn shown<A: Allocator + Copy>(alloc: A, bytes: &[u8]) -> Result<String<A>, Fail> {
    match std::str::from_utf8(bytes) {
        Ok(text) => Ok(text.replace(alloc, "\r\n", "~")?),
        Err(_) => Err(Fail::new("no text")),
    }
}

/// The bytes of a reply, an end of line as `~`.
pub fn text_of<A: Allocator + Copy>(alloc: A, reply: &Reply<A>) -> Result<String<A>, Fail> {
    let mut bytes = Vec::new(alloc);
    write_reply(reply, &mut bytes)?;
    let shown = shown(alloc, &bytes);
    drop(bytes);
    shown
}

// The bytes of the reply to a command, an end of line as `~`.
fn reply_to(alloc: Global, owner: &mut Owner, text: &str) -> Result<String, Fail>
    requires { owner.old.next ≡ None }
    ensures { owner.new.next ≡ None }
{
    let command = command(alloc, text)?;
    let answer = owner.run(&command);
    drop(command);
    match answer {
        Ok(reply) => {
            let shown = text_of(alloc, &reply);
            drop(reply);
            shown
        }
        Err(_) => Err(Fail::new("refused")),
    }
}

/// A command on an owner's sets has this reply.
pub fn expect_reply(alloc: Global, owner: &mut Owner, text: &str, want: &str) -> Result<(), Fail>
    requires { owner.old.next ≡ None }
    ensures { owner.new.next ≡ None }
{
    let reply = reply_to(alloc, owner, text)?;
    let is_wanted = reply.as_str() == want;
    drop(reply);
    expect_that(is_wanted, text)
}

// Commands in turn on one owner's sets, with their replies.
fn expect_replies(alloc: Global, owner: &mut Owner, rows: &[(&str, &str)]) -> Result<(), Fail>
    requires { owner.old.next ≡ None }
    ensures { owner.new.next ≡ None }
{
    for (text, want) in rows {
        expect_reply(alloc, owner, text, want)?;
    }
    Ok(())
}

// Sets at two keys, and one that is gone again.
static TWO_KEYS: [(&str, &str); 4] = [
    ("ZADD k 1 b 1 a 1 B", ":3~"),
    ("ZADD j -3 x", ":1~"),
    ("ZADD empty 1 a", ":1~"),
    ("ZREM empty a", ":1~"),
];

// Whether there is a key, which is this.
fn is_key(key: Option<&[u8]>, want: &[u8]) -> bool {
    match key {
        None => false,
        Some(bytes) => bytes == want,
    }
}

// Whether the keys are listed in the order of their bytes.
fn has_two_keys(owner: &Owner) -> bool
    requires { owner.now.next ≡ None }
{
    is_key(owner.key_at(0), b"j")
        && is_key(owner.key_at(1), b"k")
        && owner.key_at(2).is_none()
        && is_key(owner.key_after(None), b"j")
        && owner.key_count() == 2
        && owner.set(b"empty").is_none()
}

// Whether a row has this member and the score 1.
fn is_row(row: &Row<Global>, member: &[u8]) -> bool {
    row.score() == 1 && row.member() == member
}

// Whether rows are just those at `k`.
fn are_rows_of_k(rows: &[Row<Global>]) -> bool {
    match rows {
        [first, second, third] => {
            is_row(first, b"B") && is_row(second, b"a") && is_row(third, b"b")
        }
        _ => false,
    }
}

/// The keys of sets and the pairs of one are listed in order.
pub fn expect_listed(alloc: Global, owner: &mut Owner) -> Result<(), Fail>
    requires { owner.old.next ≡ None }
{
    expect_replies(alloc, owner, &TWO_KEYS)?;
    expect_that(has_two_keys(owner), "two keys")?;
    let rows = owner.pairs(b"k".as_slice())?;
    let are_listed = are_rows_of_k(&rows);
    drop(rows);
    expect_that(are_listed, "the pairs of a key")
}

static LISTED: [Trial; 1] = [Trial::Listed];

#[test]
fn keys_and_pairs_are_listed_in_order(rt: HostRuntime) -> Result<(), Fail> {
    expect_of_owners(&rt, &LISTED)
}
