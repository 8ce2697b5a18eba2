//! Which members a prepared command moves, in the order in which it names them, and what becomes of each.
ghost use Rattle.std.specs.Prelude.{◌≡◌, ◌<◌, ◌+◌, ◌≤◌, ◌&&◌, ◌++◌, not, length, take, get_or};
ghost use Rattle.std.specs.FinMap as map;
ghost use Rattle.std.specs.List.{list_any, range_with_len};
ghost use Rattle.std.specs.Str.{bytes_eq};
ghost use Rattle.sorted_sets.specs.MovedMembers.{differs, moved_names};
ghost use Rattle.sorted_sets.specs.MembersWithStagedScores.{current_score, staged_score, members_by, name_at, names_at, IsWaiting, IsWithin};
ghost use Rattle.sorted_sets.specs.NamesTouchedByPlan.{IsLed, noted_places};
ghost use Rattle.sorted_sets.specs.PlaceMarks.{AreMarked};
ghost use Rattle.sorted_sets.specs.Plan.{HasMovedPlaces, IsCounted, edited_by, moved_by, moved_places, touched_by};

use crate::set::draft::Draft;
use crate::set::members_with_staged_scores::MemberMap;
use crate::set::place_filter::{mark_place, stands_among};
use crate::set::plan::Plan;
use std::alloc::Allocator;
use std::hash::BuildHasher;

/// Up to so many places are told apart by the fewest marks.
const FEW: usize = 16;

/// Up to so many by more, and further ones by the most.
const SOME: usize = 128;

/// Whether the member at a place is new, or waits for another score than it has.
fn is_moved_at<H: BuildHasher, A: Allocator + Copy>(
    members: &MemberMap<H, A>,
    kept: usize,
    place: usize,
) -> bool
    requires { place < length members.now.entries }
    ensures { result ≡ differs (members_by current_score (take kept members.now.entries))
        (members_by staged_score members.now.entries) (name_at members.now.entries place) }
{
    let _count = members.len();
    let slot = &members[place];
    if place >= kept {
        return true;
    }
    if slot.staged != slot.current {
        return true;
    }
    false
}

/// Whether the member at a place moves, and stands at none of the places so far: those of the leading
/// new members, behind the ones that are kept, and some others, which are marked.
fn is_next<H: BuildHasher, A: Allocator + Copy>(
    members: &MemberMap<H, A>,
    kept: usize,
    leading: usize,
    marks: &[bool],
    others: &[usize],
    place: usize,
) -> bool
    requires place { place < length members.now.entries }
    requires leading { kept + leading ≤ length members.now.entries }
    requires marks { 1 ≤ length marks.now }
    requires marked { AreMarked marks.now others.now }
    requires others { IsWithin (length members.now.entries) others.now }
    ensures { result ≡ (differs (members_by current_score (take kept members.now.entries))
        (members_by staged_score members.now.entries) (name_at members.now.entries place)
        && not (list_any (bytes_eq (name_at members.now.entries place))
        (names_at members.now.entries (range_with_len kept leading ++ others.now)))) }
{
    let _count = members.len();
    if place >= kept && place < kept + leading {
        return false;
    }
    is_moved_at(members, kept, place) && !stands_among(marks, others, place)
}

/// Puts the places of the members that move first among those that were noted, as `gather_moved` does, and
/// marks them on the way.
fn gather_marked<H: BuildHasher, A: Allocator + Copy>(
    members: &MemberMap<H, A>,
    kept: usize,
    leading: usize,
    noted: &mut Vec<usize, A>,
    marks: &mut [bool],
) -> usize
    requires waiting { IsWaiting noted.old.items members.now.entries }
    requires leading { kept + leading ≤ length members.now.entries }
    requires marks { 1 ≤ length marks.old }
    ensures counted { result ≤ length noted.new.items }
    ensures waiting { IsWaiting noted.new.items members.now.entries }
    ensures names { names_at members.now.entries (range_with_len kept leading ++ take result noted.new.items)
        ≡ moved_names (members_by current_score (take kept members.now.entries))
        (members_by staged_score members.now.entries)
        (names_at members.now.entries (range_with_len kept leading ++ noted.old.items)) }
{
    let _count = members.len();
    let mut moved = 0;
    for index in 0..noted.len() {
        let place = noted[index];
        if is_next(members, kept, leading, marks, &noted[..moved], place) {
            noted.swap(moved, index);
            mark_place(marks, place);
            moved += 1;
        }
    }
    moved
}

/// Puts the places of the members that move first among those that were noted, each once, and tells how
/// many they are. The leading new members, which stand behind those that are kept, are left out.
fn gather_moved<H: BuildHasher, A: Allocator + Copy>(
    members: &MemberMap<H, A>,
    kept: usize,
    leading: usize,
    noted: &mut Vec<usize, A>,
) -> usize
    requires waiting { IsWaiting noted.old.items members.now.entries }
    requires leading { kept + leading ≤ length members.now.entries }
    ensures counted { result ≤ length noted.new.items }
    ensures waiting { IsWaiting noted.new.items members.now.entries }
    ensures names { names_at members.now.entries (range_with_len kept leading ++ take result noted.new.items)
        ≡ moved_names (members_by current_score (take kept members.now.entries))
        (members_by staged_score members.now.entries)
        (names_at members.now.entries (range_with_len kept leading ++ noted.old.items)) }
{
    // Marks are wiped first, a byte each, so there are a few times as many of them as places, and not more.
    let count = noted.len();
    if count <= FEW {
        return gather_marked(members, kept, leading, noted, &mut [false; 4 * FEW]);
    }
    if count <= SOME {
        return gather_marked(members, kept, leading, noted, &mut [false; 8 * SOME]);
    }
    gather_marked(members, kept, leading, noted, &mut [false; 64 * SOME])
}

impl<A: Allocator + Copy> Draft<A> {
    /// Finds which of the members that were named move, once all pairs are staged.
    pub fn settle_moved<H: BuildHasher>(&mut self, members: &MemberMap<H, A>)
        requires waiting { IsWaiting self.old.touched.items members.now.entries }
        requires led { IsLed self.old (length members.now.entries) }
        ensures waiting { IsWaiting self.new.touched.items members.now.entries }
        ensures counted { IsCounted self.new members.now.entries }
        ensures names { names_at members.now.entries (moved_places self.new)
            ≡ moved_names (members_by current_score (take self.old.kept members.now.entries))
            (members_by staged_score members.now.entries)
            (names_at members.now.entries (noted_places self.old)) }
        ensures kept { self.new.kept ≡ self.old.kept }
        ensures edits { self.new.edits ≡ self.old.edits }
    {
        self.moved = gather_moved(members, self.kept, self.leading, &mut self.touched);
    }

    /// How many members move.
    pub fn moved_len<H: BuildHasher>(&self, members: &MemberMap<H, A>) -> usize
        requires counted { IsCounted self.now members.now.entries }
        ensures { result ≡ length (moved_places self.now) }
    {
        let _count = members.len();
        self.leading + self.moved
    }

    /// The place of one of the members that move.
    fn moved_place<H: BuildHasher>(&self, members: &MemberMap<H, A>, index: usize) -> usize
        requires counted { IsCounted self.now members.now.entries }
        requires waiting { IsWaiting self.now.touched.items members.now.entries }
        requires index { index < length (moved_places self.now) }
        ensures place { result ≡ get_or (moved_places self.now) index 0 }
        ensures within { result < length members.now.entries }
    {
        let _count = members.len();
        if index < self.leading {
            return self.kept + index;
        }
        self.touched[index - self.leading]
    }
}

impl<A: Allocator + Copy> Plan<A> {
    /// How many members move that are named.
    pub fn moved_len<H: BuildHasher>(&self, members: &MemberMap<H, A>) -> usize
        requires counted { HasMovedPlaces self.now members.now.entries }
        ensures { result ≡ length (moved_by self.now) }
    {
        match self {
            Plan::Scores(plan) => plan.draft.moved_len(members),
            Plan::Removal(plan) => plan.order.len(),
            Plan::RangeRemoval(_) => 0,
        }
    }

    /// The place of one of them.
    fn moved_place<H: BuildHasher>(&self, members: &MemberMap<H, A>, index: usize) -> usize
        requires counted { HasMovedPlaces self.now members.now.entries }
        requires waiting { IsWaiting (touched_by self.now) members.now.entries }
        requires index { index < length (moved_by self.now) }
        ensures place { result ≡ get_or (moved_by self.now) index 0 }
        ensures within { result < length members.now.entries }
    {
        match self {
            Plan::Scores(plan) => plan.draft.moved_place(members, index),
            Plan::Removal(plan) => plan.order[index],
            Plan::RangeRemoval(_) => unreachable!(),
        }
    }
}

/// What becomes of one of the members that a plan moves: its name, and the score that it gets, None where
/// it leaves by its name.
pub fn effect_entry<'a, H: BuildHasher, A: Allocator + Copy>(
    members: &'a MemberMap<H, A>,
    plan: &Plan<A>,
    index: usize,
) -> (&'a [u8], Option<i64>)
    requires counted { HasMovedPlaces plan.now members.now.entries }
    requires waiting { IsWaiting (touched_by plan.now) members.now.entries }
    requires index { index < length (moved_by plan.now) }
    ensures name { result.0.now
        ≡ name_at members.entry.now.entries (get_or (moved_by plan.entry.now) index 0) }
    ensures score { result.1 ≡ map.get (edited_by members.entry.now.entries plan.entry.now)
        (name_at members.entry.now.entries (get_or (moved_by plan.entry.now) index 0)) }
{
    let _count = members.len();
    let place = plan.moved_place(members, index);
    match members.get_index(place) {
        None => unreachable!(),
        Some((name, slot)) => match plan {
            Plan::Scores(_) => (name.as_slice(), Some(slot.staged)),
            Plan::Removal(_) | Plan::RangeRemoval(_) => (name.as_slice(), None),
        },
    }
}
