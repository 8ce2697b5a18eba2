//! Listings: pairs by rising score, equal scores by the bytes of their members.
ghost use Rattle.std.specs.Prelude.{◌≡◌, ◌++◌, ◌∷◌, [], OnOk, IfOk};
ghost use Rattle.zset_core.specs.SortedSet.{whole};
ghost use Rattle.zset_core.specs.Semantics.{elements};
ghost use Rattle.sorted_sets.specs.MembersWithStagedScores.{current_score, members_by};
ghost use Rattle.sorted_sets.specs.BorrowedListingPairs.{entry_pairs, pairs_of};

use crate::score_and_count_replies::score_bytes;
use crate::set::members_with_staged_scores::MemberMap;
use crack_kernel::Row;
use resp_wire::{Bytes, BytesList};
use short_bytes::ShortBytes;
use std::alloc::{AllocError, Allocator};
use std::hash::BuildHasher;

/// The pairs of the entries, in the entries' order.
fn pairs_in<'a, H: BuildHasher, A: Allocator + Copy>(
    alloc: A,
    members: &'a MemberMap<H, A>,
) -> Result<Vec<(i64, &'a [u8]), A>, AllocError>
    ensures { IfOk result (λ pairs. pairs_of pairs.items ≡ entry_pairs members.now.entries) }
{
    let mut pairs = Vec::with_capacity(alloc, members.len())?;
    for place in 0..members.len() {
        match members.get_index(place) {
            None => unreachable!(),
            Some((member, slot)) => pairs.push((slot.current, member.as_slice()))?,
        }
    }
    Ok(pairs)
}

/// All pairs, in the order of a listing.
fn listed_pairs<'a, H: BuildHasher, A: Allocator + Copy>(
    alloc: A,
    members: &'a MemberMap<H, A>,
) -> Result<Vec<(i64, &'a [u8]), A>, AllocError>
    ensures { IfOk result (λ pairs. pairs_of pairs.items
        ≡ whole (members_by current_score members.now.entries)) }
{
    let _count = members.len();
    let mut pairs = pairs_in(alloc, members)?;
    pairs.sort()?;
    Ok(pairs)
}

/// The elements of one pair: its member, with WITHSCORES also its score.
fn put_elements<A: Allocator + Copy>(
    alloc: A,
    list: &mut Vec<Bytes<A>, A>,
    with_scores: bool,
    score: i64,
    member: &[u8],
) -> Result<(), AllocError>
    ensures { OnOk result (list.new.items ≡ list.old.items
        ++ elements with_scores ((score, member.now) ∷ [])) }
{
    list.push(Bytes::from_slice(alloc, member)?)?;
    if with_scores {
        list.push(score_bytes(alloc, score)?)?;
    }
    Ok(())
}

/// The elements of a reply that lists pairs.
pub fn elements_of<A: Allocator + Copy>(
    alloc: A,
    pairs: &[(i64, &[u8])],
    with_scores: bool,
) -> Result<BytesList<A>, AllocError>
    ensures { IfOk result (λ list. list ≡ elements with_scores (pairs_of pairs.now)) }
{
    let elements_each = if with_scores { 2 } else { 1 };
    let mut list = Vec::with_capacity(alloc, pairs.len().saturating_mul(elements_each))?;
    for (score, member) in pairs {
        put_elements(alloc, &mut list, with_scores, *score, member)?;
    }
    Ok(BytesList::new(list))
}

/// The pairs as rows of their own.
fn rows_of<A: Allocator + Copy>(
    alloc: A,
    pairs: &[(i64, &[u8])],
) -> Result<Vec<Row<A>, A>, AllocError>
    ensures { IfOk result (λ rows. rows.items ≡ pairs_of pairs.now) }
{
    let mut rows = Vec::with_capacity(alloc, pairs.len())?;
    for (score, member) in pairs {
        rows.push(Row::new(*score, ShortBytes::from_slice(alloc, member)?))?;
    }
    Ok(rows)
}

/// The whole listing, as rows.
pub fn all_rows<H: BuildHasher, A: Allocator + Copy>(
    alloc: A,
    members: &MemberMap<H, A>,
) -> Result<Vec<Row<A>, A>, AllocError>
    ensures { IfOk result (λ rows. rows.items ≡ whole (members_by current_score members.now.entries)) }
{
    let pairs = listed_pairs(alloc, members)?;
    rows_of(alloc, pairs.as_slice())
}
