//! What is answered in a heap with little room: a window of a long piece, and a removal whose record finds none.

ghost use Rattle.std.specs.Prelude.{◌≡◌, None};

use crate::owners::{Logged, Owner, accept, addition, are_told, command, unkept};
use append_log::NoSink;
use linked_list_allocator::LocalHeap;
use sorted_sets::OneOwner;
use std::alloc::{AllocError, Allocator, Global};
use std::hash::RandomState;
use std::marker::Brand;
use std::sync::ledger::{Blank, Ledger};
use std::test::*;
use zset_commands::Command;

/// The bytes of a heap.
const HEAP: usize = 1 << 20;

/// The bytes of the least block that is taken of it. The rows of a long piece would take over fifteen times as many.
const LEAST: usize = 1_024;

/// Takes a block of a heap, if it has one of this size.
fn take_block<A: Allocator>(
    heap: A,
    size: usize,
    taken: &mut Vec<Vec<u8, A>, A>,
) -> Result<bool, AllocError> {
    match Vec::with_capacity(heap, size) {
        Ok(block) => {
            taken.push(block)?;
            Ok(true)
        }
        Err(_) => Ok(false),
    }
}

/// Takes room of a heap until no block of [`LEAST`] bytes is left.
fn take_room<A: Allocator + Copy>(
    heap: A,
    taken: &mut Vec<Vec<u8, A>, A>,
) -> Result<(), AllocError> {
    let mut size = HEAP;
    for _ in 0..100u8 {
        if !take_block(heap, size, taken)? {
            size = (size / 2).max(LEAST);
        }
    }
    Ok(())
}

/// A window of two members of 500 that stand in one piece.
const WINDOW: &[&str] = &["ZRANGEBYSCORE k -inf +inf LIMIT 0 2"];

/// Whether the window is told in a heap with so little left.
fn is_told_in_little<A: Allocator + Copy>(heap: A, owner: &mut Owner<A>) -> Result<bool, Fail>
    requires { owner.old.next ≡ None }
{
    let mut taken = Vec::with_capacity(heap, 100)?;
    let is_told = match take_room(heap, &mut taken) {
        Ok(()) => are_told(heap, owner, WINDOW, "*2~$8~member-0~$8~member-1~ "),
        Err(_) => Err(Fail::new("no memory")),
    };
    drop(taken);
    is_told
}

/// The same of the owner of a set that a command has made.
fn is_told_anew<A: Allocator + Copy>(
    heap: A,
    hasher: RandomState,
    text: &str,
) -> Result<bool, Fail> {
    let mut owner = OneOwner::new(heap, hasher);
    let is_told = match accept(heap, &mut owner, &[text, "ZCOUNT k -inf +inf"]) {
        Ok(()) => is_told_in_little(heap, &mut owner),
        Err(fail) => Err(fail),
    };
    drop(owner);
    is_told
}

#[test]
fn a_short_window_of_a_long_piece_takes_little(rt: HostRuntime) -> Result<(), Fail> {
    let hasher = RandomState::new(&rt)?;
    let text = addition(rt.alloc(), 500)?;
    let heap = LocalHeap::new(rt.alloc(), HEAP)?;
    let is_told = is_told_anew(&heap, hasher, text.as_str());
    drop(text);
    assert!(rt; is_told?);
    Ok(())
}

/// What is left for the removal of a long member: enough to prepare it, and too little for its record.
const LEFT_BESIDE_A_RECORD: usize = 16_384;

/// The command with these words and a member of 60,000 bytes behind them.
fn long_command<A: Allocator + Copy>(
    alloc: Global,
    heap: A,
    words: &str,
) -> Result<Command<A>, Fail> {
    let member = "0123456789".repeat(alloc, 6_000)?;
    let text = format!(in alloc; "{words} {member}")?;
    command(heap, text.as_str())
}

/// Whether a command is not refused.
fn is_made<L: Ledger, A: Allocator + Copy>(
    owner: &mut Logged<NoSink, L, A>,
    command: &Command<A>,
) -> bool {
    let answer = owner.run(command);
    let is_made = answer.is_ok();
    drop(answer);
    is_made
}

/// Whether a long member is added, and then taken out where there is no room for the record.
fn is_taken_out<L: Ledger, A: Allocator + Copy>(
    heap: &LocalHeap,
    alloc: A,
    owner: &mut Logged<NoSink, L, A>,
    addition: &Command<A>,
    removal: &Command<A>,
) -> bool {
    let is_added = is_made(owner, addition);
    let room = heap.free().saturating_sub(LEFT_BESIDE_A_RECORD);
    let taken: Result<Vec<u8, A>, AllocError> = Vec::with_capacity(alloc, room);
    let is_removed = is_made(owner, removal);
    let is_taken = taken.is_ok();
    drop(taken);
    is_added && is_taken && is_removed
}

/// The same of the owner of no sets.
fn is_taken_out_anew<L: Ledger, A: Allocator + Copy>(
    heap: &LocalHeap,
    alloc: A,
    hasher: RandomState,
    blank: Blank,
    addition: Command<A>,
    removal: Command<A>,
) -> bool
    requires name { blank.name ≡ L.name }
    requires parts { blank.parts ≡ L.parts }
    requires two { blank.parts ≡ 2 }
{
    let mut owner = unkept::<L, _>(alloc, hasher, blank);
    let is_out = is_taken_out(heap, alloc, &mut owner, &addition, &removal);
    drop(addition);
    drop(removal);
    drop(owner);
    is_out
}

/// The same in a heap of its own.
fn is_taken_out_in_heap(alloc: Global, hasher: RandomState) -> Result<bool, Fail> {
    let heap = LocalHeap::new(alloc, HEAP)?;
    let addition = long_command(alloc, &heap, "ZADD k 3")?;
    let removal = match long_command(alloc, &heap, "ZREM k") {
        Ok(removal) => removal,
        Err(fail) => {
            drop(addition);
            return Err(fail);
        }
    };
    let blank = Blank::new(2);
    Ok(is_taken_out_anew::<Brand, _>(&heap, &heap, hasher, blank, addition, removal))
}

// A removal whose record finds no room lets go what was kept back, and is made.
#[test]
fn a_removal_has_room_for_its_record(rt: HostRuntime) -> Result<(), Fail> {
    let hasher = RandomState::new(&rt)?;
    assert!(rt; is_taken_out_in_heap(rt.alloc(), hasher)?);
    Ok(())
}
