//! The members of one set, and the scores of each: its own, and the one that is staged for it. Staged
//! scores are adopted or discarded, and members that leave are taken out.

ghost use Rattle.std.specs.Prelude.{◌≡◌, ◌<◌, ◌^◌, Some, length, slice_get, option_map, IfOk, IfSome};
ghost use Rattle.std.specs.FinMap as map;
ghost use Rattle.indexmap.specs.IndexMap.{IsUnique};
ghost use Rattle.sorted_sets.specs.MembersWithStagedScores.{current_score, staged_score, rows_by, members_by, name_at, slot_at, slots, same_bytes, ScoresAreSettled, IsWaiting};
ghost use Rattle.zset_core.specs.SortedSet.{names_of};
ghost use Rattle.zset_core.specs.Semantics.{remove_all};

use crack_kernel::Row;
use indexmap::IndexMap;
use short_bytes::{BorrowedBytes, ShortBytes};
use std::alloc::{AllocError, Allocator};
use std::hash::BuildHasher;

/// The score of a member, and the one that it gets when what is prepared is committed.
#[derive(Clone, Copy, Debug, PartialEq, Eq)]
pub struct ScoreSlot {
    pub current: i64,
    pub staged: i64,
}

/// The members of a set by their bytes. Members that a prepared command adds stand last.
pub type MemberMap<H, A> = IndexMap<ShortBytes<A>, ScoreSlot, H, A>;

/// The place of a member among the entries, with its scores.
pub fn find_slot<H: BuildHasher, A: Allocator + Copy>(
    members: &MemberMap<H, A>,
    member: &[u8],
) -> Option<(usize, ScoreSlot)>
    ensures slot { option_map (λ p. p.1) result ≡ slot_at members.now.entries member.now }
    ensures score { option_map (λ p. p.1.staged) result
        ≡ map.get (members_by staged_score members.now.entries) member.now }
    ensures place { IfSome result
        (λ p. slice_get (slots members.now.entries) p.0 ≡ Some (member.now, p.1)) }
    ensures unique { IsUnique same_bytes members.now }
{
    let _count = members.len();
    match members.get_full(BorrowedBytes(member)) {
        None => None,
        Some((place, _, slot)) => Some((place, *slot)),
    }
}

/// The member at a place, whose bytes stand where the entry has them. It takes no memory.
pub fn share_name<H: BuildHasher, A: Allocator + Copy>(
    members: &MemberMap<H, A>,
    place: usize,
) -> Result<ShortBytes<A>, AllocError>
    requires { place < length members.now.entries }
    ensures { IfOk result (λ name. name ≡ name_at members.now.entries place) }
{
    let _count = members.len();
    match members.get_index(place) {
        None => unreachable!(),
        Some((name, _)) => name.share(),
    }
}

/// The number of members.
pub fn card_of<H: BuildHasher, A: Allocator + Copy>(members: &MemberMap<H, A>) -> usize
    ensures card { result ≡ map.len (members_by current_score members.now.entries) }
    ensures few { result < 2 ^ 63 }
{
    members.len()
}

/// The score of a member.
pub fn score_of<H: BuildHasher, A: Allocator + Copy>(
    members: &MemberMap<H, A>,
    member: &[u8],
) -> Option<i64>
    ensures { result ≡ map.get (members_by current_score members.now.entries) member.now }
{
    match members.get(BorrowedBytes(member)) {
        None => None,
        Some(slot) => Some(slot.current),
    }
}

/// Staged scores become the members' own.
pub fn adopt_staged<H: BuildHasher, A: Allocator + Copy>(
    members: &mut MemberMap<H, A>,
    touched: &[usize],
)
    requires { IsWaiting touched.now members.old.entries }
    ensures staged { rows_by staged_score members.new.entries ≡ rows_by staged_score members.old.entries }
    ensures settled { ScoresAreSettled members.new.entries }
{
    for place in touched {
        let staged = members[*place].staged;
        members[*place] = ScoreSlot {
            current: staged,
            staged,
        };
    }
}

/// Staged scores are discarded, and members keep theirs.
pub fn discard_staged<H: BuildHasher, A: Allocator + Copy>(
    members: &mut MemberMap<H, A>,
    touched: &[usize],
)
    requires { IsWaiting touched.now members.old.entries }
    ensures current { rows_by current_score members.new.entries ≡ rows_by current_score members.old.entries }
    ensures settled { ScoresAreSettled members.new.entries }
{
    for place in touched {
        let current = members[*place].current;
        members[*place] = ScoreSlot {
            current,
            staged: current,
        };
    }
}

/// The members of rows are taken out.
pub fn take_out_rows<H: BuildHasher, A: Allocator + Copy>(
    members: &mut MemberMap<H, A>,
    rows: &[Row<A>],
)
    requires { ScoresAreSettled members.old.entries }
    ensures members { members_by current_score members.new.entries
        ≡ remove_all (members_by current_score members.old.entries) (names_of rows.now) }
    ensures settled { ScoresAreSettled members.new.entries }
{
    for row in rows {
        members.swap_remove(BorrowedBytes(row.member()));
    }
}
