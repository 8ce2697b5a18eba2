//! The keys of an owner's sets, in byte order.
ghost use Rattle.std.specs.Prelude.{◌≡◌, None, Some, IsSome, option_map, slice_get};
ghost use Rattle.std.specs.Map.{keys_of};
ghost use Rattle.std.specs.Option.{option_copied};
ghost use Rattle.sorted_sets.specs.OwnerViewAndInvariant.{set_keys, KeysRise, set_in};
ghost use Rattle.zset_core.specs.SetsByKey.{key_behind};

use crate::owner::set_tree::SetTree;
use std::alloc::Allocator;
use std::hash::BuildHasher;
use std::ops::Bound;

/// The key at an index.
pub fn nth_key<H: BuildHasher, A: Allocator + Copy>(
    sets: &SetTree<H, A>,
    index: usize,
) -> Option<&[u8]>
    ensures key { option_copied result
        ≡ option_map (λ key. key.items) (slice_get (keys_of sets.now.entries) index) }
    ensures ordered { KeysRise sets.now.entries }
{
    let mut keys = sets.keys();
    for _place in 0..index {
        keys.next()?;
    }
    match keys.next() {
        None => None,
        Some(key) => Some(key.as_slice()),
    }
}

/// The first key.
pub fn first_key<H: BuildHasher, A: Allocator + Copy>(sets: &SetTree<H, A>) -> Option<&[u8]>
    ensures key { option_copied result ≡ key_behind (set_keys sets.now.entries) None }
    ensures ordered { KeysRise sets.now.entries }
{
    match sets.keys().next() {
        None => None,
        Some(first) => Some(first.as_slice()),
    }
}

/// The key behind one that is there.
pub fn next_key<'a, H: BuildHasher, A: Allocator + Copy>(
    sets: &'a SetTree<H, A>,
    key: &[u8],
) -> Option<&'a [u8]>
    requires { IsSome (set_in sets.now.entries key.now) }
    ensures key { option_copied result ≡ key_behind (set_keys sets.now.entries) (Some key.now) }
    ensures ordered { KeysRise sets.now.entries }
{
    match sets.get_key_value(key) {
        None => unreachable!(),
        Some((stored, _)) => {
            let behind = (Bound::Excluded(stored), Bound::Unbounded);
            match sets.range(behind).next() {
                None => None,
                Some((next, _)) => Some(next.as_slice()),
            }
        }
    }
}
