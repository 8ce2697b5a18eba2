//! What takes no memory: a change that was prepared, a set that leaves its owner, and a request of few words behind one
//! that was answered.

ghost use Rattle.std.specs.Prelude.{◌≡◌, ◌≤◌, length, None};

use crate::owners::{Owner, accept, command};
use fuse_alloc::Fuse;
use resp_wire::Decoder;
use sorted_sets::OneOwner;
use std::alloc::{Allocator, Global};
use std::hash::RandomState;
use std::test::*;
use zset_commands::Command;

/// A set with rows in pieces and rows that wait, and a set of one member.
static SETUP: [&str; 5] = [
    "ZADD k 5 a 6 b 7 c 7 d 9 e 12 f",
    "ZCOUNT k 6 9",
    "ZADD k 8 g -1 h 6 a",
    "ZREM k d",
    "ZADD j 1 x",
];

/// Changes of these, each of which is prepared with memory and made without.
static CHANGES: [&str; 11] = [
    "ZADD k 1 i 2 j 3 a",
    "ZADD new 1 a",
    "ZADD k XX CH 3 a 9 nobody",
    "ZADD k NX 4 a 5 l",
    "ZADD k INCR 4 b",
    "ZADD k XX INCR 5 b",
    "ZADD k XX INCR 5 nobody",
    "ZADD k NX INCR 5 n",
    "ZREM k a b nobody",
    "ZREM j x",
    "ZREMRANGEBYSCORE k (6 8",
];

/// Whether a change is prepared, and then made without an allocation.
fn is_made_without<A: Allocator + Copy>(
    fuse: &Fuse<Global>,
    owner: &mut Owner<A>,
    change: &Command<A>,
) -> bool
    requires { owner.old.next ≡ None }
    ensures { owner.new.next ≡ None }
{
    if !change.writes() {
        return false;
    }
    match owner.prepare(change) {
        Err(_refusal) => false,
        Ok(_outline) => {
            fuse.arm(1);
            drop(owner.commit(change));
            let is_armed = fuse.is_armed();
            fuse.arm(0);
            is_armed
        }
    }
}

/// The same of a change's words.
fn are_made_without<A: Allocator + Copy>(
    fuse: &Fuse<Global>,
    alloc: A,
    owner: &mut Owner<A>,
    words: &str,
) -> Result<bool, Fail>
    requires { owner.old.next ≡ None }
    ensures { owner.new.next ≡ None }
{
    let change = command(alloc, words)?;
    let are_made = is_made_without(fuse, owner, &change);
    drop(change);
    Ok(are_made)
}

/// The first of the changes that is not made so, or "none".
fn first_with_memory<A: Allocator + Copy>(
    fuse: &Fuse<Global>,
    alloc: A,
    owner: &mut Owner<A>,
) -> Result<&'static str, Fail>
    requires { owner.old.next ≡ None }
{
    accept(alloc, owner, &SETUP)?;
    for text in &CHANGES {
        if !are_made_without(fuse, alloc, owner, text)? {
            return Ok(text);
        }
    }
    Ok("none")
}

/// The same of the owner of no sets.
fn first_with_memory_anew<A: Allocator + Copy>(
    fuse: &Fuse<Global>,
    alloc: A,
    hasher: RandomState,
) -> Result<&'static str, Fail> {
    let mut owner = OneOwner::new(alloc, hasher);
    let first = first_with_memory(fuse, alloc, &mut owner);
    drop(owner);
    first
}

// A change whose record is written is made, whatever memory there is then.
#[test]
fn a_prepared_change_takes_no_memory(rt: HostRuntime) -> Result<(), Fail> {
    let hasher = RandomState::new(&rt)?;
    let fuse = Fuse::new(rt.alloc(), 0);
    let first = first_with_memory_anew(&fuse, &fuse, hasher)?;
    assert!(rt; first == "none", "{first}");
    Ok(())
}

/// Whether keys are told and a set leaves an owner without an allocation.
fn leaves_without<A: Allocator + Copy>(fuse: &Fuse<Global>, owner: &mut Owner<A>) -> bool
    requires { owner.old.next ≡ None }
{
    fuse.arm(1);
    let is_told = owner.key_at(1) == Some(b"k".as_slice());
    let set = owner.take_first();
    let has_left = set.is_some();
    drop(set);
    let is_armed = fuse.is_armed();
    fuse.arm(0);
    is_told && has_left && is_armed
}

/// The same of a new owner, behind the commands that set up the sets.
fn leaves_without_anew<A: Allocator + Copy>(
    fuse: &Fuse<Global>,
    alloc: A,
    hasher: RandomState,
) -> Result<bool, Fail> {
    let mut owner = OneOwner::new(alloc, hasher);
    let leaves = match accept(alloc, &mut owner, &SETUP) {
        Ok(()) => Ok(leaves_without(fuse, &mut owner)),
        Err(fail) => Err(fail),
    };
    drop(owner);
    leaves
}

// A server takes the sets of its file over, however many they are.
#[test]
fn a_set_that_leaves_takes_no_memory(rt: HostRuntime) -> Result<(), Fail> {
    let hasher = RandomState::new(&rt)?;
    let fuse = Fuse::new(rt.alloc(), 0);
    assert!(rt; leaves_without_anew(&fuse, &fuse, hasher)?);
    Ok(())
}

/// Two requests of two words.
const OF_TWO_WORDS: &[u8] = b"*2\r\n$5\r\nZCARD\r\n$1\r\nk\r\n*2\r\n$5\r\nZCARD\r\n$1\r\nj\r\n";

/// Two requests of nine words.
const OF_NINE_WORDS: &[u8] =
    b"*9\r\n$1\r\n1\r\n$1\r\n2\r\n$1\r\n3\r\n$1\r\n4\r\n$1\r\n5\r\n$1\r\n6\r\n$1\r\n7\r\n$1\r\n8\r\n$1\r\n9\r\n\
      *9\r\n$1\r\n1\r\n$1\r\n2\r\n$1\r\n3\r\n$1\r\n4\r\n$1\r\n5\r\n$1\r\n6\r\n$1\r\n7\r\n$1\r\n8\r\n$1\r\n9\r\n";

/// Whether a request is read, which is reused then.
fn reuses_one<A: Allocator + Copy>(decoder: &mut Decoder<A>) -> bool {
    match decoder.next() {
        Ok(Some(request)) => {
            decoder.reuse(request);
            true
        }
        _ => false,
    }
}

/// Whether a request is read without an allocation.
fn reads_one_without<A: Allocator + Copy>(fuse: &Fuse<Global>, decoder: &mut Decoder<A>) -> bool {
    fuse.arm(1);
    let next = decoder.next();
    let is_given = matches!(&next, Ok(Some(_)));
    drop(next);
    let is_armed = fuse.is_armed();
    fuse.arm(0);
    is_given && is_armed
}

/// Whether the second of two requests is read without an allocation, where the first was answered and is reused.
fn is_read_without<A: Allocator + Copy>(
    fuse: &Fuse<Global>,
    alloc: A,
    two: &[u8],
) -> Result<bool, Fail>
    requires { length two.now ≤ 1000 }
{
    let mut decoder = Decoder::new(alloc);
    let is_fed = decoder.feed(two).is_ok();
    let is_answered = is_fed && reuses_one(&mut decoder);
    let is_read = is_answered && reads_one_without(fuse, &mut decoder);
    drop(decoder);
    if is_answered {
        Ok(is_read)
    } else {
        Err(Fail::new("no request"))
    }
}

// Where memory is exhausted, requests of few words are still read. A longer list is given up.
#[test]
fn a_short_request_behind_another_takes_no_memory(rt: HostRuntime) -> Result<(), Fail> {
    let fuse = Fuse::new(rt.alloc(), 0);
    assert!(rt; is_read_without(&fuse, &fuse, OF_TWO_WORDS)?);
    assert!(rt; !is_read_without(&fuse, &fuse, OF_NINE_WORDS)?);
    Ok(())
}
