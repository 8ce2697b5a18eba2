//! The tree of an owner's sets.
ghost use Rattle.std.specs.Prelude.{◌≡◌, Some, OnOk, OnErr};
ghost use Rattle.sorted_sets.specs.OwnerViewAndInvariant.{IsAfter};

use crate::owner::boxed_set::BoxedSet;
use crate::set::ZSet;
use std::alloc::{AllocError, Allocator};
use std::collections::BTreeMap;
use std::hash::BuildHasher;

/// Sets by key, in the byte order of their keys.
pub type SetTree<H, A> = BTreeMap<Vec<u8, A>, BoxedSet<H, A>, A>;

/// Puts a set in at a key.
pub fn insert_set<H: BuildHasher + Drop, A: Allocator + Copy>(
    alloc: A,
    sets: &mut SetTree<H, A>,
    key: &[u8],
    set: ZSet<H, A>,
) -> Result<(), AllocError>
    ensures put { OnOk result (IsAfter sets.old.entries key.now (Some set) sets.new.entries) }
    ensures err { OnErr result (sets.new.entries ≡ sets.old.entries) }
{
    let kept = BoxedSet::new(alloc, set)?;
    let name = Vec::from_slice(alloc, key)?;
    sets.insert(name, kept)?;
    Ok(())
}
