//! The removal of members that a ZREM names: planned by their places, and made once it is committed. No
//! member is copied on the way: its name goes from the entries into the row that leaves the column.
ghost use Rattle.std.specs.Prelude.{◌≡◌, ◌+◌, ◌-◌, ◌<◌, ◌≤◌, ◌++◌, ◌∷◌, ℕ, pos, length, List, [], IfOk, OnOk};
ghost use Rattle.std.specs.FinMap as map;
ghost use Rattle.std.specs.List.{list_any};
ghost use Rattle.std.specs.Str.{bytes_eq};
ghost use Rattle.resp_wire.specs.Response.{Integer};
ghost use Rattle.ripple_column.specs.Content.{Holds};
ghost use Rattle.zset_core.specs.Semantics.{remove_all};
ghost use Rattle.sorted_sets.specs.MembersWithStagedScores.{current_score, members_by, name_at, names_at, ScoresAreSettled, IsWithin};
ghost use Rattle.sorted_sets.specs.MovedMembers.{moved_names};
ghost use Rattle.sorted_sets.specs.RemovedMemberPlaces.{AreFoundPlaces};
ghost use Rattle.sorted_sets.specs.NamesTouchedByPlan.{noted};
ghost use Rattle.sorted_sets.specs.Plan.{MovesTo, NeedsAtMost, Prepares};
ghost use Rattle.sorted_sets.specs.declared.set.plan.Plan.TheVariants.{Removal};
ghost use Rattle.zset_core.specs.RowEdits.{most_edits};
ghost use Rattle.zset_core.specs.SortedSet.{pairs};

use crate::score_and_count_replies::count_reply;
use crate::set::change_counts::Outline;
use crate::set::members_with_staged_scores::{MemberMap, find_slot};
use crate::set::plan::RemovalPlan;
use crack_kernel::Row;
use resp_wire::Bytes;
use ripple_column::Column;
use std::alloc::{AllocError, Allocator};
use std::collections::BTreeSet;
use std::hash::BuildHasher;

/// Puts a place behind those that were found. With the first, room is made for so many.
fn note_found<A: Allocator>(
    order: &mut Vec<usize, A>,
    most: usize,
    place: usize,
) -> Result<(), AllocError>
    ensures { OnOk result (order.new.items ≡ order.old.items ++ place ∷ []) }
{
    if order.is_empty() {
        order.reserve(most)?;
    }
    order.push(place)?;
    Ok(())
}

/// One name, of so many: if it is a member, its place is among those found, and in the order in which they
/// were.
fn find_one<H: BuildHasher, A: Allocator + Copy>(
    members: &MemberMap<H, A>,
    places: &mut BTreeSet<usize, A>,
    order: &mut Vec<usize, A>,
    most: usize,
    name: &[u8],
) -> Result<(), AllocError>
    requires found { AreFoundPlaces members.now.entries places.old }
    requires within { IsWithin (length members.now.entries) order.old.items }
    requires seen { (q : List ℕ) → list_any (bytes_eq q) (names_at members.now.entries order.old.items)
        ≡ list_any (bytes_eq q) (names_at members.now.entries places.old.keys) }
    ensures within { OnOk result (IsWithin (length members.now.entries) order.new.items) }
    ensures seen { OnOk result ((q : List ℕ) → list_any (bytes_eq q) (names_at members.now.entries order.new.items)
        ≡ list_any (bytes_eq q) (names_at members.now.entries places.new.keys)) }
    ensures order { OnOk result (names_at members.now.entries order.new.items
        ≡ noted (members_by current_score members.now.entries) (names_at members.now.entries order.old.items) name.now) }
    ensures found { OnOk result (AreFoundPlaces members.now.entries places.new) }
    ensures gone { OnOk result (remove_all (members_by current_score members.now.entries)
        (names_at members.now.entries places.new.keys)
        ≡ map.remove (remove_all (members_by current_score members.now.entries)
        (names_at members.now.entries places.old.keys)) name.now) }
    ensures few { OnOk result (length places.new.keys ≤ length places.old.keys + 1) }
{
    if let Some((place, _)) = find_slot(members, name) {
        if places.insert(place)? {
            note_found(order, most, place)?;
        }
    }
    Ok(())
}

/// The places of the members among some names, and the order in which they are named.
fn find_places<H: BuildHasher, A: Allocator + Copy>(
    alloc: A,
    members: &MemberMap<H, A>,
    names: &[Bytes<A>],
    order: &mut Vec<usize, A>,
) -> Result<BTreeSet<usize, A>, AllocError>
    requires { order.old.items ≡ [] }
    ensures order { OnOk result (names_at members.now.entries order.new.items
        ≡ moved_names (members_by current_score members.now.entries)
        (remove_all (members_by current_score members.now.entries) names.now) names.now) }
    ensures noted { OnOk result (IsWithin (length members.now.entries) order.new.items) }
    ensures same { IfOk result (λ places. (q : List ℕ) → list_any (bytes_eq q) (names_at members.now.entries order.new.items)
        ≡ list_any (bytes_eq q) (names_at members.now.entries places.keys)) }
    ensures gone { IfOk result (λ places. remove_all (members_by current_score members.now.entries)
        (names_at members.now.entries places.keys)
        ≡ remove_all (members_by current_score members.now.entries) names.now) }
    ensures count { IfOk result (λ places. length places.keys
        + map.len (remove_all (members_by current_score members.now.entries) names.now)
        ≡ map.len (members_by current_score members.now.entries)) }
    ensures within { IfOk result (λ places. IsWithin (length members.now.entries) places.keys) }
    ensures few { IfOk result (λ places. length places.keys ≤ length names.now) }
{
    let mut places = BTreeSet::new(alloc);
    for name in names {
        find_one(members, &mut places, order, names.len(), name.as_slice())?;
    }
    Ok(places)
}

/// The plan of a ZREM.
pub fn plan_remove<H: BuildHasher, A: Allocator + Copy>(
    alloc: A,
    members: &MemberMap<H, A>,
    names: &[Bytes<A>],
) -> Result<RemovalPlan<A>, AllocError>
    requires settled { ScoresAreSettled members.now.entries }
    requires few { length names.now ≤ most_edits }
    ensures ok { IfOk result (λ plan. Prepares members.now.entries members.now.entries (Removal plan)
        (remove_all (members_by current_score members.now.entries) names.now)
        (Integer (pos (map.len (members_by current_score members.now.entries)
        - map.len (remove_all (members_by current_score members.now.entries) names.now))))) }
    ensures rows { IfOk result (λ plan. NeedsAtMost (map.len (members_by current_score members.now.entries)
        - map.len (remove_all (members_by current_score members.now.entries) names.now)) (Removal plan)) }
    ensures moved { IfOk result (λ plan. MovesTo members.now.entries members.now.entries (Removal plan) names.now
        (remove_all (members_by current_score members.now.entries) names.now)) }
{
    let mut order = Vec::new(alloc);
    let places = find_places(alloc, members, names, &mut order)?;
    let count = places.len();
    Ok(RemovalPlan {
        places,
        order,
        reply: count_reply(count),
        outline: Outline {
            added: 0,
            removed: count,
            changed: count > 0,
        },
    })
}

/// The member at a place leaves the entries, and its row the column. The entries before that place
/// stay where they are. It takes no memory.
fn remove_member<H: BuildHasher, A: Allocator + Copy>(
    members: &mut MemberMap<H, A>,
    column: &mut Column<A>,
    place: usize,
)
    requires settled { ScoresAreSettled members.old.entries }
    requires within { place < length members.old.entries }
    requires content { Holds column.old (pairs (members_by current_score members.old.entries)) }
    requires room { 0 < column.old.delete_spare }
    ensures members { members_by current_score members.new.entries
        ≡ map.remove (members_by current_score members.old.entries) (name_at members.old.entries place) }
    ensures settled { ScoresAreSettled members.new.entries }
    ensures before { (p : ℕ) → p < place → name_at members.new.entries p ≡ name_at members.old.entries p }
    ensures len { length members.new.entries + 1 ≡ length members.old.entries }
    ensures content { Holds column.new (pairs (members_by current_score members.new.entries)) }
    ensures rows { column.new.rows ≡ column.old.rows }
    ensures pivots { column.new.pivots ≡ column.old.pivots }
    ensures spare { column.old.delete_spare ≤ column.new.delete_spare + 1 }
{
    let _count = members.len();
    match members.swap_remove_index(place) {
        None => unreachable!(),
        Some((name, slot)) => column.delete(Row::new(slot.current, name)),
    }
}

/// The members at places leave the entries, and their rows the column. It takes no memory.
pub fn remove_members<H: BuildHasher, A: Allocator + Copy>(
    members: &mut MemberMap<H, A>,
    column: &mut Column<A>,
    mut places: BTreeSet<usize, A>,
)
    requires settled { ScoresAreSettled members.old.entries }
    requires within { IsWithin (length members.old.entries) places.keys }
    requires content { Holds column.old (pairs (members_by current_score members.old.entries)) }
    requires room { length places.keys ≤ column.old.delete_spare }
    ensures members { members_by current_score members.new.entries
        ≡ remove_all (members_by current_score members.old.entries) (names_at members.old.entries places.keys) }
    ensures settled { ScoresAreSettled members.new.entries }
    ensures content { Holds column.new (pairs (members_by current_score members.new.entries)) }
    ensures rows { column.new.rows ≡ column.old.rows }
    ensures pivots { column.new.pivots ≡ column.old.pivots }
{
    // Each place is behind those that are left, so what moves into it stands at none of them.
    while let Some(place) = places.pop_last() {
        remove_member(members, column, place);
    }
}
