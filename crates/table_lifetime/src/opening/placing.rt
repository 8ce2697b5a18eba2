//! An owner's sets are given their places.

ghost use Rattle.std.specs.Prelude.{◌≡◌, ◌<◌, ◌≤◌, None, length, slice_set, IfOk, OnOk};
ghost use Rattle.std.specs.FinMap as fin;
ghost use Rattle.place_names.specs.Naming.{AreNotesOf};
ghost use Rattle.table_lifetime.specs.Opening.{AllHavePlaces, AreEmptySets, AreIdleSets, cards_of, members_of, sum_of_numbers};

use place_names::{Knowledge, Names};
use set_table::{MAX_PLACES, claim};
use sorted_sets::{OneOwner, ZSet};
use std::alloc::{AllocError, Global};
use std::hash::BuildHasher;

/// An empty set for each place.
pub(crate) fn empty_sets<H: BuildHasher + Clone + Drop>(
    alloc: Global,
    owner: &OneOwner<H, Global>,
    places: usize,
) -> Result<Vec<ZSet<H, Global>>, AllocError>
    requires idle { owner.now.next ≡ None }
    ensures { IfOk result (λ sets. AreEmptySets places sets.items) }
{
    let mut sets = Vec::new(alloc);
    for _ in 0..places {
        sets.push(owner.empty_set()?)?;
    }
    Ok(sets)
}

/// Puts a value in the place of another, which is let go. It is of any type: where it is a set, a proof takes apart all
/// that this may hold.
fn put<T: Drop>(values: &mut Vec<T>, place: usize, value: T)
    requires { place < length values.old.items }
    ensures { values.new.items ≡ slice_set values.old.items place value }
{
    values[place] = value;
}

/// Puts each set of an owner where its key's place is, in the byte order of the keys.
pub(crate) fn place_all<H: BuildHasher + Clone + Drop>(
    owner: OneOwner<H, Global>,
    names: &Names,
    knowledge: &mut Knowledge,
    sets: &mut Vec<ZSet<H, Global>>,
) -> Result<(), AllocError>
    requires idle { owner.next ≡ None }
    requires own { AreNotesOf names.now knowledge.old }
    requires places { (0 < length names.now) × (length names.now ≤ MAX_PLACES) }
    requires sets { AreEmptySets (length names.now) sets.old.items }
    ensures own { AreNotesOf names.now knowledge.new }
    ensures idle { AreIdleSets sets.new.items }
    ensures count { length sets.new.items ≡ length names.now }
    ensures known { OnOk result
        (AllHavePlaces owner.world knowledge.new.known (cards_of sets.new.items)) }
    ensures sum { OnOk result
        (sum_of_numbers (cards_of sets.new.items) ≡ members_of (fin.entries owner.world)) }
{
    let mut owner = owner;
    for _ in 0..owner.key_count() {
        match owner.take_first() {
            None => unreachable!(),
            Some((key, set)) => match claim(names, knowledge, &key) {
                Ok(place) => put(sets, place, set),
                // No place is missing: there are as many as keys, and nobody else names any yet.
                Err(_) => {
                    drop(set);
                    return Err(AllocError);
                }
            },
        }
    }
    Ok(())
}

/// How many members each set has.
pub(crate) fn cards<H: BuildHasher>(
    alloc: Global,
    sets: &[ZSet<H, Global>],
) -> Result<Vec<u64>, AllocError>
    ensures { IfOk result (λ cards. cards.items ≡ cards_of sets.now) }
{
    let mut cards = Vec::new(alloc);
    for place in 0..sets.len() {
        cards.push(sets[place].card() as u64)?;
    }
    Ok(cards)
}
