//! Logged commands in a heap that has little left: how much memory a record takes, and what removals find where
//! additions find none.

ghost use Rattle.std.specs.Prelude.{◌≡◌};

use crate::owners::{Logged, command, unkept};
use append_log::NoSink;
use linked_list_allocator::LocalHeap;
use resp_wire::Reply;
use std::alloc::{Allocator, Global};
use std::hash::RandomState;
use std::marker::Brand;
use std::sync::ledger::{Blank, Ledger};
use std::test::*;
use zset_commands::Command;

/// The bytes of the heap.
const HEAP: usize = 1 << 20;

/// What is left for a change of a score whose record has 35 bytes.
const LEFT: usize = 1_024;

/// The bytes that `~` stands for in a command.
const LONG: usize = 59_999;

/// Commands that are read while there is room: the removal names `a` behind two long words, in a record of more than
/// 120,000 bytes.
static COMMANDS: [&str; 5] = [
    "ZADD k 1 a",
    "ZADD k 2 a",
    "ZADD k 3 z~",
    "ZREM k x~ y~ a",
    "ZCARD k",
];

/// What they are answered: the first with all the room, the others with [`LEFT`] bytes.
const ANSWERS: [i64; 5] = [1, 0, -1, 1, 0];

/// A command whose words have a long one for `~`.
fn read_command<A: Allocator + Copy>(
    alloc: Global,
    heap: A,
    words: &str,
) -> Result<Command<A>, Fail> {
    let long = "l".repeat(alloc, LONG)?;
    let text = words.replace(alloc, "~", long.as_str())?;
    command(heap, text.as_str())
}

fn read_commands<A: Allocator + Copy>(alloc: Global, heap: A) -> Result<Vec<Command<A>>, Fail> {
    let mut commands = Vec::new(alloc);
    for words in &COMMANDS {
        let command = read_command(alloc, heap, words)?;
        commands.push(command)?;
    }
    Ok(commands)
}

/// Takes all of a heap but [`LEFT`] bytes.
fn take_room<A: Allocator + Copy>(heap: &LocalHeap, alloc: A) -> Option<Vec<u8, A>> {
    let room = heap.free().saturating_sub(LEFT);
    Vec::with_capacity(alloc, room).ok()
}

/// The number that an owner answers, or that of its refusal below zero.
fn answer<L: Ledger, A: Allocator + Copy>(
    owner: &mut Logged<NoSink, L, A>,
    command: &Command<A>,
) -> i64 {
    let answer = owner.run(command);
    let number = match &answer {
        Ok(Reply::Int(number)) => *number,
        Ok(_) => 100,
        Err(refusal) => -i64::from(refusal.number()),
    };
    drop(answer);
    number
}

/// What an owner answers once no room is left but [`LEFT`] bytes, if that could be taken.
fn answer_in_little<L: Ledger, A: Allocator + Copy>(
    heap: &LocalHeap,
    alloc: A,
    owner: &mut Logged<NoSink, L, A>,
    command: &Command<A>,
) -> Option<i64> {
    let taken = take_room(heap, alloc)?;
    let number = answer(owner, command);
    drop(taken);
    Some(number)
}

/// What an owner answers. Room is taken behind the first command, and before the last one.
fn answers_of<L: Ledger, A: Allocator + Copy>(
    heap: &LocalHeap,
    alloc: A,
    owner: &mut Logged<NoSink, L, A>,
    commands: &[Command<A>],
) -> Option<[i64; 5]> {
    let [first, moved, long_addition, long_removal, count] = commands else {
        return None;
    };
    let first = answer(owner, first);
    let taken = take_room(heap, alloc)?;
    let moved = answer(owner, moved);
    let long_addition = answer(owner, long_addition);
    let long_removal = answer(owner, long_removal);
    let count = answer_in_little(heap, alloc, owner, count);
    drop(taken);
    Some([first, moved, long_addition, long_removal, count?])
}

/// The same of the owner of no sets.
fn answers_over<L: Ledger, A: Allocator + Copy>(
    heap: &LocalHeap,
    alloc: A,
    hasher: RandomState,
    blank: Blank,
    commands: &[Command<A>],
) -> Option<[i64; 5]>
    requires name { blank.name ≡ L.name }
    requires parts { blank.parts ≡ L.parts }
    requires two { blank.parts ≡ 2 }
{
    let mut owner = unkept::<L, _>(alloc, hasher, blank);
    let answers = answers_of(heap, alloc, &mut owner, commands);
    drop(owner);
    answers
}

/// Whether they are [`ANSWERS`] in a heap of its own.
fn are_answered(alloc: Global, hasher: RandomState) -> Result<bool, Fail> {
    let heap = LocalHeap::new(alloc, HEAP)?;
    let commands = read_commands(alloc, &heap)?;
    let answers = answers_over::<Brand, _>(&heap, &heap, hasher, Blank::new(2), &commands);
    drop(commands);
    Ok(answers == Some(ANSWERS))
}

#[test]
fn removals_have_room_where_additions_have_none(rt: HostRuntime) -> Result<(), Fail> {
    let hasher = RandomState::new(&rt)?;
    assert!(rt; are_answered(rt.alloc(), hasher)?);
    Ok(())
}
