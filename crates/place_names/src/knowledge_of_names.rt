//! What a pass knows of the places' names.

ghost use Rattle.std.specs.Prelude.{◌≡◌, ◌<◌, ◌↔◌, ◌^◌, List, ℕ, IsTrue};
ghost use Rattle.place_names.specs.LookupCaches.{IsMet};
ghost use Rattle.place_names.specs.Naming.{BearsOther, hash_from};

use crate::hashed_key::Name;
use crate::key_cache::KeyCache;
use crate::known_place_names::Notes;
use crate::met_name_hashes::NameHashes;
use std::marker::Model;

/// What a pass knows of the places' names: its notes of them; a cache of the keys whose places it
/// met, and the hashes of the names that it met, which make nothing known that the notes don't tell;
/// and how often it compared a name with a key. A contract sees the notes.
#[derive(Drop)]
pub struct Knowledge {
    pub(crate) notes: Notes,
    pub(crate) key_cache: KeyCache,
    pub(crate) hashes: NameHashes,
    pub(crate) compared: u64,
}

impl Model for Knowledge {
    ghost use Rattle.place_names.specs.LookupCaches.{AllHashed, AllMet};
    ghost use Rattle.place_names.specs.Naming.{NotesView};

    ghost Value = { NotesView };

    ghost view = { λ k. k.notes };

    ghost invariant = { λ k. AllMet k.notes.known k.key_cache.slots.items × AllHashed k.notes.known k.hashes.hashes.items };
}

impl Knowledge {
    /// How often a name was compared with a key, a number that wraps and that no clause tells.
    pub fn compared(&self) -> u64 {
        self.compared
    }

    /// Remembers the place of a key with this mixed hash, so that the key is found there without its walk.
    pub fn remember(&mut self, hash: u32, place: usize)
        requires met { IsMet self.old.known place }
        requires few { place < 2 ^ 16 }
        ensures { self.new ≡ self.old }
    {
        self.key_cache.remember(hash, place);
    }

    /// Whether a place is known to bear a name with another hash than this, which no key with this
    /// hash is.
    pub fn has_other_hash(&self, place: usize, hash: u64) -> bool
        ensures { (key : List ℕ) → hash_from 7 key ≡ hash → IsTrue result
            → BearsOther self.now.known key place }
    {
        self.hashes.has_other(place, hash)
    }

    /// Whether a name is the key.
    pub fn bears(&mut self, name: &Name, key: &[u8]) -> bool
        ensures same { self.new ≡ self.old }
        ensures is { IsTrue result ↔ (name.now ≡ key.now) }
    {
        self.compared = self.compared.wrapping_add(1);
        name.is(key)
    }
}
