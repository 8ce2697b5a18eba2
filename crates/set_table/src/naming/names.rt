//! The walks by which a key finds its place, or is given one.

ghost use Rattle.std.specs.Prelude.{◌≡◌, ◌<◌, ◌≤◌, ℕ, length, IfOk, IfErr, IfSome, IfNone};
ghost use Rattle.place_names.specs.Naming.{AreNotesOf, NamingGrows, IsPlace};
ghost use Rattle.set_table.specs.Claiming.{IsUnclaimed};

use crate::limits::MAX_PLACES;
use place_names::{Knowledge, Names, hash, mixed_hash};

/// Why a key gets no place.
#[derive(Drop)]
pub enum ClaimFault {
    NoMemory,
    TableFull,
}

/// The key's place, where the pass or the table knows it. One that the pass met before is found
/// by its cache of keys; another by the key's walk.
pub(crate) fn find(names: &Names, known: &mut Knowledge, key: &[u8]) -> Option<usize>
    requires own { AreNotesOf names.now known.old }
    requires places { (0 < length names.now) × (length names.now ≤ MAX_PLACES) }
    ensures own { AreNotesOf names.now known.new }
    ensures grows { NamingGrows known.old.known known.new.known }
    ensures found { IfSome result (λ place. IsPlace known.new.known key.now place) }
    ensures none { IfNone result ((place : ℕ) → IsPlace known.old.known key.now place → ⊥) }
{
    let hash = mixed_hash(key);
    if let Some(place) = names.recall(known, hash, key) {
        return Some(place);
    }
    let place = find_by_walk(names, known, key)?;
    known.remember(hash, place);
    Some(place)
}

/// The key's place, which is given one where it has none. Only for `table_lifetime`, while it opens a table: a worker asks
/// its table.
pub fn claim(names: &Names, known: &mut Knowledge, key: &[u8]) -> Result<usize, ClaimFault>
    requires own { AreNotesOf names.now known.old }
    requires places { (0 < length names.now) × (length names.now ≤ MAX_PLACES) }
    ensures own { AreNotesOf names.now known.new }
    ensures grows { NamingGrows known.old.known known.new.known }
    ensures ok { IfOk result (λ place. IsPlace known.new.known key.now place) }
    ensures err { IfErr result (λ fault. IsUnclaimed fault known.new.known key.now) }
{
    let hash = mixed_hash(key);
    if let Some(place) = names.recall(known, hash, key) {
        return Ok(place);
    }
    let place = claim_by_walk(names, known, key)?;
    known.remember(hash, place);
    Ok(place)
}

/// The key's place, by a walk over the places from where the key's hash says, to the first that
/// bears the key or has no name. A name that the pass met is read only where its hash is the key's.
fn find_by_walk(names: &Names, known: &mut Knowledge, key: &[u8]) -> Option<usize>
    requires own { AreNotesOf names.now known.old }
    requires places { (0 < length names.now) × (length names.now ≤ MAX_PLACES) }
    ensures own { AreNotesOf names.now known.new }
    ensures grows { NamingGrows known.old.known known.new.known }
    ensures found { IfSome result (λ place. IsPlace known.new.known key.now place) }
    ensures none { IfNone result ((place : ℕ) → IsPlace known.old.known key.now place → ⊥) }
{
    let hash = hash(key);
    let first = names.first_place(key, hash);
    for step in 0..names.places() {
        let place = names.walk(key, first, step);
        if known.has_other_hash(place, hash) {
            continue;
        }
        let name = names.meet(known, place)?;
        if name.hash() != hash {
            continue;
        }
        if known.bears(name, key) {
            return Some(place);
        }
    }
    None
}

/// The key's place, by its walk: the first place that has no name takes the key's, unless
/// another thread was quicker there. Then the walk goes on by the name that that thread set.
fn claim_by_walk(names: &Names, known: &mut Knowledge, key: &[u8]) -> Result<usize, ClaimFault>
    requires own { AreNotesOf names.now known.old }
    requires places { (0 < length names.now) × (length names.now ≤ MAX_PLACES) }
    ensures own { AreNotesOf names.now known.new }
    ensures grows { NamingGrows known.old.known known.new.known }
    ensures ok { IfOk result (λ place. IsPlace known.new.known key.now place) }
    ensures err { IfErr result (λ fault. IsUnclaimed fault known.new.known key.now) }
{
    let hash = hash(key);
    let first = names.first_place(key, hash);
    for step in 0..names.places() {
        let place = names.walk(key, first, step);
        if known.has_other_hash(place, hash) {
            continue;
        }
        let given = match names.meet_or_name(known, place, key) {
            Ok(name) => name,
            Err(_) => return Err(ClaimFault::NoMemory),
        };
        if given.hash() != hash {
            continue;
        }
        if known.bears(given, key) {
            return Ok(place);
        }
    }
    Err(ClaimFault::TableFull)
}
