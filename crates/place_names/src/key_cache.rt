//! Where a pass met keys: by a key's hash, so that one that was met is found without its walk.

ghost use Rattle.std.specs.Prelude.{◌≡◌, ◌*◌, ◌<◌, ◌^◌, ◌⊎◌, ℕ, length, IfOk, IfSome};
ghost use Rattle.place_names.specs.LookupCaches.{Says, AllMet};
ghost use Rattle.place_names.specs.Naming.{Naming as NamingType};

use std::alloc::{AllocError, Global};

/// How many slots there are for each place.
const SLOTS_A_PLACE: usize = 4;

/// How many slots are looked at for a key.
const MOST_STEPS: usize = 16;

/// A key that was met: its hash and its place.
#[derive(Clone, Copy)]
pub(crate) struct MetKey {
    pub(crate) hash: u32,
    pub(crate) place: u16,
}

/// Keys that were met, each in the first slot that was free from where its hash says. What a slot
/// says is only a hint: a place's name has to be compared with the key.
#[derive(Drop)]
pub(crate) struct KeyCache {
    pub(crate) slots: Vec<Option<MetKey>>,
}

impl KeyCache {
    /// A cache for the keys of so many places, which has met none.
    pub(crate) fn new(alloc: Global, places: usize) -> Result<Self, AllocError>
        requires { places < 2 ^ 16 }
        ensures met { (known : NamingType) → IfOk result (λ cache. AllMet known cache.slots.items) }
        ensures len { IfOk result (λ cache. length cache.slots.items ≡ SLOTS_A_PLACE * places) }
    {
        Ok(KeyCache {
            slots: Vec::from_elem(alloc, None, SLOTS_A_PLACE * places)?,
        })
    }

    /// The place of the key with this hash that was met last, if one was.
    pub(crate) fn place_of(&self, hash: u32) -> Option<usize>
        ensures { IfSome result (λ place. Says self.now.slots.items place) }
    {
        for step in 0..MOST_STEPS {
            match self.slots.get(self.slot_of(hash, step)) {
                Some(Some(met)) => {
                    if met.hash == hash {
                        return Some(usize::from(met.place));
                    }
                }
                _ => return None,
            }
        }
        None
    }

    /// Remembers a key's place, in the first slot that is free, or has the key's hash; where all
    /// that are looked at are taken, the key that was in the first one is forgotten.
    pub(crate) fn remember(&mut self, hash: u32, place: usize)
        requires { place < 2 ^ 16 }
        ensures { (other : ℕ) → Says self.new.slots.items other
            → Says self.old.slots.items other ⊎ (other ≡ place) }
    {
        let slot = self.free_slot(hash);
        if slot < self.slots.len() {
            self.slots[slot] = Some(MetKey {
                hash,
                place: place as u16,
            });
        }
    }

    /// The slot that a key takes.
    fn free_slot(&self, hash: u32) -> usize {
        for step in 0..MOST_STEPS {
            let slot = self.slot_of(hash, step);
            match self.slots.get(slot) {
                Some(Some(met)) => {
                    if met.hash == hash {
                        return slot;
                    }
                }
                _ => return slot,
            }
        }
        self.slot_of(hash, 0)
    }

    /// The slot of a hash after so many steps, round the end of the slots. The hash's share of its range gives the first
    /// one: a product is much quicker than a remainder.
    fn slot_of(&self, hash: u32, step: usize) -> usize
        requires { step < 2 ^ 16 }
    {
        let len = self.slots.len();
        let first = (u64::from(hash).wrapping_mul(len as u64) >> 32) as usize;
        let slot = first + step;
        if slot < len { slot } else { slot - len }
    }
}

/// A hash of a key that differs in most bits where keys differ in one byte, for the cache of keys alone: which hash it is
/// no clause tells. It takes four bytes at a step, since each step waits for the one before.
pub fn mixed_hash(key: &[u8]) -> u32 {
    let mut hash: u32 = 0x811c_9dc5;
    let mut rest = key;
    while let [a, b, c, d, behind @ ..] = rest {
        hash = stirred(hash, u32::from_le_bytes([*a, *b, *c, *d]));
        rest = behind;
    }
    for byte in rest {
        hash = stirred(hash, u32::from(*byte));
    }
    hash = (hash ^ (hash >> 15)).wrapping_mul(0x2c1b_3c6d);
    hash = (hash ^ (hash >> 12)).wrapping_mul(0x297a_2d39);
    hash ^ (hash >> 15)
}

/// A hash with a few bytes more: as FNV-1a takes them, with the upper bits mixed into the lower ones, which a product
/// does not do.
fn stirred(hash: u32, bytes: u32) -> u32 {
    let product = (hash ^ bytes).wrapping_mul(0x0100_0193);
    product ^ (product >> 15)
}
