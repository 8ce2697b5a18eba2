//! Windows of long sets, which are narrowed: they leave short pieces, so that the next ones read few rows.

ghost use Rattle.std.specs.Prelude.{◌≡◌, None};

use crate::columns::{Set, run};
use crate::owners::{Owner, command, expect_reply, expect_that};
use crate::trials::{SetTrial, Trial, expect_of_owners, expect_of_sets};
use ripple_column::Column;
use sorted_sets::ZSet;
use std::alloc::{Allocator, Global};
use std::hash::BuildHasher;
use std::test::Fail;
use zset_commands::Command;

fn put_pair<A: Allocator + Copy>(alloc: A, number: u64, text: &mut String<A>) -> Result<(), Fail> {
    let pair = format!(in alloc; " {number} m{number}")?;
    let put = text.push_str(&pair);
    drop(pair);
    Ok(put?)
}

/// `ZADD k` with 500 pairs: each member is `m` and its number, which is its score.
fn addition<A: Allocator + Copy>(alloc: A, from: u32) -> Result<String<A>, Fail> {
    let mut text = "ZADD k".to_string(alloc)?;
    for index in 0..500u32 {
        put_pair(alloc, u64::from(from) + u64::from(index), &mut text)?;
    }
    Ok(text)
}

/// So many members are added, from a number on, all of which are new.
fn expect_added(alloc: Global, owner: &mut Owner, from: u32) -> Result<(), Fail>
    requires { owner.old.next ≡ None }
    ensures { owner.new.next ≡ None }
{
    let text = addition(alloc, from)?;
    let told = expect_reply(alloc, owner, &text, ":500~");
    drop(text);
    told
}

/// A set of 4,500 members.
fn fill(alloc: Global, owner: &mut Owner) -> Result<(), Fail>
    requires { owner.old.next ≡ None }
    ensures { owner.new.next ≡ None }
{
    for turn in 0..9u32 {
        expect_added(alloc, owner, turn.saturating_mul(500))?;
    }
    Ok(())
}

/// How many rows stand between the pivots around a place.
fn rows_around<A: Allocator + Copy>(column: &Column<A>, place: usize) -> usize {
    let (mut from, mut to) = (0, column.len());
    for (_, at) in column.piece_list() {
        if *at <= place {
            from = from.max(*at);
        } else {
            to = to.min(*at);
        }
    }
    to.saturating_sub(from)
}

/// The same in the set at `k`, all of its rows where there is none.
fn rows_of_k(owner: &Owner, place: usize) -> usize {
    match owner.set(b"k") {
        None => usize::MAX,
        Some(set) => rows_around(set.column(), place),
    }
}

/// A window of a long set leaves short pieces, so that the next one reads few rows.
pub fn expect_short_pieces(alloc: Global, owner: &mut Owner) -> Result<(), Fail>
    requires { owner.old.next ≡ None }
{
    fill(alloc, owner)?;
    expect_reply(alloc, owner, "ZCOUNT k -inf +inf", ":4500~")?;
    expect_that(rows_of_k(owner, 2000) == 4500, "one long piece")?;
    let window = "ZRANGEBYSCORE k -inf +inf LIMIT 2000 2";
    expect_reply(alloc, owner, window, "*2~$5~m2000~$5~m2001~")?;
    expect_that(rows_of_k(owner, 2000) <= 1024, "a short piece")
}

static SHORT_PIECES: [Trial; 1] = [Trial::ShortPieces];

#[test]
fn a_window_leaves_short_pieces(rt: HostRuntime) -> Result<(), Fail> {
    expect_of_owners(&rt, &SHORT_PIECES)
}

// Adds a member, with one of a million scores by its number (the generator of Park and Miller).
fn add(alloc: Global, set: &mut Set, member: u64) -> Result<(), Fail>
    requires { set.old.next ≡ None }
    ensures { set.new.next ≡ None }
{
    let score = member.wrapping_add(1).wrapping_mul(48271) % 2147483647 % 1_000_000;
    let text = format!(in alloc; "ZADD k {score} m{member}")?;
    let ran = run(alloc, set, &text);
    drop(text);
    ran
}

// Adds three thousand members.
fn add_many(alloc: Global, set: &mut Set) -> Result<(), Fail>
    requires { set.old.next ≡ None }
    ensures { set.new.next ≡ None }
{
    for member in 0..3_000u64 {
        add(alloc, set, member)?;
    }
    Ok(())
}

// Whether there is an answer, which is let go.
fn is_there<T: Drop>(answer: Option<T>) -> bool {
    let is_there = answer.is_some();
    drop(answer);
    is_there
}

// Whether a set is ready for a command on a key, and would read many rows for it.
fn reads_many<H: BuildHasher, A: Allocator + Copy>(set: &ZSet<H, A>, command: &Command<A>) -> bool
    requires { set.now.next ≡ None }
{
    if command.key().is_none() {
        return false;
    }
    let are_few = is_there(set.ready_by_few(command));
    let is_ready = is_there(set.ready(command));
    is_ready && !are_few
}

// Whether a listing of the ten lowest would read many rows of a set that is ready for it.
fn is_wide<H: BuildHasher, A: Allocator + Copy>(alloc: A, set: &ZSet<H, A>) -> Result<bool, Fail>
    requires { set.now.next ≡ None }
{
    let command = command(alloc, "ZRANGEBYSCORE k -inf +inf LIMIT 0 10")?;
    let is_wide = reads_many(set, &command);
    drop(command);
    Ok(is_wide)
}

// Runs a command: a listing of the ten lowest is wide then, or is not.
fn expect_wide(alloc: Global, set: &mut Set, text: &str, wide: bool) -> Result<(), Fail>
    requires { set.old.next ≡ None }
    ensures { set.new.next ≡ None }
{
    run(alloc, set, text)?;
    expect_that(is_wide(alloc, set)? == wide, text)
}

// Commands on them, and whether a listing of the ten lowest is wide then.
static NARROWED: [(&str, bool); 3] = [
    ("ZCOUNT k -inf +inf", true),
    ("ZRANGEBYSCORE k -inf +inf", true),
    ("ZRANGEBYSCORE k -inf +inf LIMIT 0 10", false),
];

pub fn expect_narrowed(alloc: Global, set: &mut Set) -> Result<(), Fail>
    requires { set.old.next ≡ None }
{
    add_many(alloc, set)?;
    for (text, wide) in &NARROWED {
        expect_wide(alloc, set, text, *wide)?;
    }
    Ok(())
}

static NARROWING: [SetTrial; 1] = [SetTrial::Narrowed];

#[test]
fn a_window_of_a_long_piece_narrows_it(rt: HostRuntime) -> Result<(), Fail> {
    expect_of_sets(&rt, &NARROWING)
}
