//! A second pass's knowledge, which begins as a first one's.

ghost use Rattle.std.specs.Prelude.{◌≡◌, IfOk};

use crate::key_cache::KeyCache;
use crate::knowledge_of_names::Knowledge;
use crate::known_place_names::{Notes, PlaceNote};
use crate::met_name_hashes::NameHashes;
use std::alloc::{AllocError, Global};

impl Knowledge {
    /// Knowledge of the same.
    pub fn again(&mut self, alloc: Global) -> Result<Knowledge, AllocError>
        ensures same { self.new ≡ self.old }
        ensures copy { IfOk result (λ copy. copy ≡ self.old) }
    {
        let slots = Vec::from_slice(alloc, &self.key_cache.slots)?;
        let hashes = Vec::from_slice(alloc, &self.hashes.hashes)?;
        Ok(Knowledge {
            notes: self.notes.again(alloc)?,
            key_cache: KeyCache { slots },
            hashes: NameHashes { hashes },
            compared: 0,
        })
    }
}

impl Notes {
    /// Notes that know the same.
    pub(crate) fn again(&mut self, alloc: Global) -> Result<Notes, AllocError>
        ensures same { self.new ≡ self.old }
        ensures copy { IfOk result (λ copy. copy ≡ self.old) }
    {
        Ok(Notes {
            places: noted_again(alloc, &mut self.places)?,
        })
    }
}

/// Second notes of the same places.
fn noted_again(alloc: Global, places: &mut Vec<PlaceNote>) -> Result<Vec<PlaceNote>, AllocError>
    ensures same { places.new.items ≡ places.old.items }
    ensures copy { IfOk result (λ copy. copy.items ≡ places.old.items) }
{
    let mut copy = Vec::new(alloc);
    for place in 0..places.len() {
        copy.push(PlaceNote {
            note: places[place].note.again(),
        })?;
    }
    Ok(copy)
}
