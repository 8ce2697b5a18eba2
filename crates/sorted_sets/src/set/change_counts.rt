//! What a command does to a set in numbers.
ghost use Rattle.std.specs.Prelude.{◌≡◌, ◌≢◌, ◌≤◌, true, false, length, take};
ghost use Rattle.sorted_sets.specs.MembersWithStagedScores.{current_score, staged_score, members_by, ScoresAreSettled, IsWaiting};
ghost use Rattle.sorted_sets.specs.ChangeCounts.{IsOutline};

use crate::set::draft::Draft;
use crate::set::members_with_staged_scores::MemberMap;
use std::alloc::Allocator;
use std::hash::BuildHasher;

/// What a prepared command does to the members of its set.
#[derive(Clone, Copy, Debug, PartialEq, Eq)]
pub struct Outline {
    /// How many members come in.
    pub added: usize,
    /// How many members leave.
    pub removed: usize,
    /// Whether the set becomes another. A score that is moved away and back does not make it so.
    pub changed: bool,
}

/// Whether one of these members waits for another score than it has.
fn is_moved<H: BuildHasher, A: Allocator + Copy>(
    members: &MemberMap<H, A>,
    touched: &[usize],
) -> bool
    requires { IsWaiting touched.now members.now.entries }
    ensures settled { result ≡ false → ScoresAreSettled members.now.entries }
    ensures moved { result ≡ true → members_by staged_score members.now.entries
        ≢ members_by current_score members.now.entries }
{
    let _count = members.len();
    for place in touched {
        let slot = &members[*place];
        if slot.staged != slot.current {
            return true;
        }
    }
    false
}

/// The outline of what ZADD staged behind the entries that were there.
pub fn outline_staged<H: BuildHasher, A: Allocator + Copy>(
    members: &MemberMap<H, A>,
    draft: &Draft<A>,
) -> Outline
    requires within { draft.now.kept ≤ length members.now.entries }
    requires waiting { IsWaiting draft.now.touched.items members.now.entries }
    ensures { IsOutline result (members_by current_score (take draft.now.kept members.now.entries))
        (members_by staged_score members.now.entries) }
{
    let added = members.len() - draft.kept;
    Outline {
        added,
        removed: 0,
        changed: added > 0 || is_moved(members, draft.touched.as_slice()),
    }
}
