//! The hashes of the names that a pass has met: one beside the other, so that a walk passes over most
//! places without a look at their names.

ghost use Rattle.std.specs.Prelude.{◌≡◌, ◌≢◌, ◌<◌, ◌^◌, IfOk, IsTrue};
ghost use Rattle.std.proofs.Math.ListN.{get_or};
ghost use Rattle.place_names.specs.LookupCaches.{AllHashed, HasHash};
ghost use Rattle.place_names.specs.Naming.{Naming as NamingType};

use std::alloc::{AllocError, Global};

/// For each place the hash of the name that was met there, or 0.
#[derive(Drop)]
pub(crate) struct NameHashes {
    pub(crate) hashes: Vec<u32>,
}

impl NameHashes {
    /// Hashes of no names, for so many places.
    pub(crate) fn new(alloc: Global, places: usize) -> Result<Self, AllocError>
        ensures { (known : NamingType) → IfOk result (λ met. AllHashed known met.hashes.items) }
    {
        Ok(NameHashes {
            hashes: Vec::from_elem(alloc, 0, places)?,
        })
    }

    /// Whether a name with another hash was met at a place.
    pub(crate) fn has_other(&self, place: usize, hash: u64) -> bool
        ensures { IsTrue result → (get_or self.now.hashes.items place 0 ≢ 0)
            × (get_or self.now.hashes.items place 0 ≢ hash) }
    {
        match self.hashes.get(place) {
            Some(met) => *met != 0 && u64::from(*met) != hash,
            None => false,
        }
    }

    /// Keeps the hash of a place's name.
    pub(crate) fn learn(&mut self, place: usize, hash: u64)
        requires { hash < 2 ^ 32 }
        ensures { (known : NamingType) → HasHash known place hash
            → AllHashed known self.old.hashes.items → AllHashed known self.new.hashes.items }
    {
        if place < self.hashes.len() {
            self.hashes[place] = hash as u32;
        }
    }
}
