//! What sets take, in a heap that counts it.

ghost use Rattle.std.specs.Prelude.{◌≡◌, None};

use crate::owners::{Owner, accept, addition};
use linked_list_allocator::LocalHeap;
use sorted_sets::OneOwner;
use std::alloc::{Allocator, Global};
use std::hash::RandomState;
use std::test::*;

/// The bytes of a heap.
const HEAP: usize = 1 << 20;

/// The bytes that a set takes once so many members were added to it at once. Another set was there before.
fn size_of<A: Allocator + Copy>(
    heap: &LocalHeap,
    alloc: A,
    owner: &mut Owner<A>,
    text: &str,
) -> Result<usize, Fail>
    requires { owner.old.next ≡ None }
{
    accept(alloc, owner, &["ZADD j 1 x"])?;
    let before = heap.used();
    accept(alloc, owner, &[text])?;
    Ok(heap.used().saturating_sub(before))
}

/// The same of the owner of no sets.
fn size_anew<A: Allocator + Copy>(
    heap: &LocalHeap,
    alloc: A,
    hasher: RandomState,
    text: &str,
) -> Result<usize, Fail> {
    let mut owner = OneOwner::new(alloc, hasher);
    let bytes = size_of(heap, alloc, &mut owner, text);
    drop(owner);
    bytes
}

/// The same in a heap of its own, where so many members are added.
fn size_in_heap(alloc: Global, hasher: RandomState, members: u64) -> Result<usize, Fail> {
    let text = addition(alloc, members)?;
    let heap = LocalHeap::new(alloc, HEAP)?;
    let bytes = size_anew(&heap, &heap, hasher, &text);
    drop(text);
    bytes
}

/// How many members are added, and how many bytes their set takes at the most. Its map and one list of rows that wait
/// are in use; a list for rows that leave would take 32 bytes a member more.
static SIZES: [(u64, usize); 3] = [(1, 1500), (50, 6600), (200, 23_500)];

#[test]
fn a_new_set_keeps_no_room_for_removals(rt: HostRuntime) -> Result<(), Fail> {
    for (members, most) in &SIZES {
        let bytes = size_in_heap(rt.alloc(), RandomState::new(&rt)?, *members)?;
        assert!(rt; bytes <= *most, "{members} members: {bytes}");
    }
    Ok(())
}
