//! The places' names, and the steps of the walk by which a key finds its own.

ghost use Rattle.std.specs.Prelude.{◌≡◌, ◌<◌, ◌%◌, ◌^◌, None, Some, length, IfOk, IfSome, MatchOption, MatchResult};
ghost use Rattle.once_cell.specs.Once.{cell_name, Agrees};
ghost use Rattle.place_names.specs.Naming.{AreNotesOf, NamingGrows, IsPlace, Learns, hash_from, name_at_place, walk};

mod comparing_notes_of_passes;

use crate::hashed_key::Name;
use crate::key_cache::KeyCache;
use crate::knowledge_of_names::Knowledge;
use crate::known_place_names::{Notes, PlaceNote};
use crate::met_name_hashes::NameHashes;
use once_cell::race::{Note, OnceBox};
use std::alloc::{AllocError, Global};
use std::marker::Model;

/// The places' names, each set once. A contract sees which once cells they stand in; what a cell
/// holds only a pass's notes can tell.
#[derive(Drop)]
pub struct Names {
    alloc: Global,
    names: Vec<OnceBox<Name>>,
}

impl Model for Names {
    ghost use Rattle.std.specs.Prelude.{List, ℕ, map};
    ghost use Rattle.once_cell.specs.Once.{cell_name};

    ghost Value = { List ℕ };

    ghost view = { λ n. map cell_name n.names.items };
}

impl Names {
    /// Names for so many places, none of them set.
    pub fn new(alloc: Global, places: usize) -> Result<Self, AllocError>
        ensures { IfOk result (λ names. length names ≡ places) }
    {
        let mut names = Vec::new(alloc);
        for _ in 0..places {
            names.push(OnceBox::new(alloc))?;
        }
        Ok(Names { alloc, names })
    }

    /// Notes that know nothing.
    fn notes(&self) -> Result<Notes, AllocError>
        ensures { IfOk result (λ notes. AreNotesOf self.now notes) }
    {
        let mut places = Vec::new(self.alloc);
        for place in 0..self.names.len() {
            places.push(PlaceNote {
                note: self.names[place].note(),
            })?;
        }
        Ok(Notes { places })
    }

    /// The number of places.
    pub fn places(&self) -> usize
        ensures { result ≡ length self.now }
    {
        self.names.len()
    }

    /// Knowledge of nothing.
    pub fn knowledge(&self) -> Result<Knowledge, AllocError>
        requires { length self.now < 2 ^ 16 }
        ensures { IfOk result (λ knowledge. AreNotesOf self.now knowledge) }
    {
        Ok(Knowledge {
            notes: self.notes()?,
            key_cache: KeyCache::new(self.alloc, self.places())?,
            hashes: NameHashes::new(self.alloc, self.places())?,
            compared: 0,
        })
    }

    /// The key's place, where the pass's cache of keys has it: the place that was met with the key's
    /// hash, if it bears the key.
    pub fn recall(&self, known: &mut Knowledge, hash: u32, key: &[u8]) -> Option<usize>
        requires own { AreNotesOf self.now known.old }
        ensures own { AreNotesOf self.now known.new }
        ensures grows { NamingGrows known.old.known known.new.known }
        ensures found { IfSome result (λ place. IsPlace known.new.known key.now place) }
    {
        let place = known.key_cache.place_of(hash)?;
        let name = self.name_of(&mut known.notes, place)?;
        if !known.bears(name, key) {
            return None;
        }
        Some(place)
    }

    /// The place where the key's walk begins.
    pub fn first_place(&self, key: &[u8], hash: u64) -> usize
        requires hash { hash ≡ hash_from 7 key.now }
        requires some { 0 < length self.now }
        ensures value { result ≡ hash_from 7 key.now % length self.now }
        ensures within { result < length self.now }
    {
        (hash % self.names.len() as u64) as usize
    }

    /// A place of the key's walk.
    pub fn walk(&self, key: &[u8], first: usize, step: usize) -> usize
        requires first { first ≡ hash_from 7 key.now % length self.now }
        requires began { first < length self.now }
        requires within { step < length self.now }
        requires few { length self.now < 2 ^ 16 }
        ensures value { result ≡ walk (length self.now) key.now step }
        ensures within { result < length self.now }
    {
        let place = first + step;
        if place < self.names.len() {
            place
        } else {
            place - self.names.len()
        }
    }

    /// A place's name, if it has one, which the pass then knows with its hash.
    pub fn meet<'a>(&'a self, known: &mut Knowledge, place: usize) -> Option<&'a Name>
        requires own { AreNotesOf self.now known.old }
        requires within { place < length self.now }
        ensures own { AreNotesOf self.now known.new }
        ensures seen { MatchOption result
            ((name_at_place known.old.known place ≡ None) × (known.new.known ≡ known.old.known))
            (λ name. Learns known.old.known known.new.known place name.now) }
    {
        let name = self.name_of(&mut known.notes, place)?;
        known.hashes.learn(place, name.hash());
        Some(name)
    }

    /// A place's name, which is the key where it had none, and which the pass then knows with its hash.
    pub fn meet_or_name<'a>(
        &'a self,
        known: &mut Knowledge,
        place: usize,
        key: &[u8],
    ) -> Result<&'a Name, AllocError>
        requires own { AreNotesOf self.now known.old }
        requires within { place < length self.now }
        ensures own { AreNotesOf self.now known.new }
        ensures seen { MatchResult result
            (λ name. Learns known.old.known known.new.known place name.now)
            (λ _. known.new.known ≡ known.old.known) }
    {
        let name = self.name_or_key(&mut known.notes, place, key)?;
        known.hashes.learn(place, name.hash());
        Ok(name)
    }

    /// A place's name, if it has one, which the pass then knows.
    fn name_of<'a>(&'a self, notes: &mut Notes, place: usize) -> Option<&'a Name>
        requires own { AreNotesOf self.now notes.old }
        requires within { place < length self.now }
        ensures own { AreNotesOf self.now notes.new }
        ensures seen { MatchOption result
            ((name_at_place notes.old.known place ≡ None) × (notes.new.known ≡ notes.old.known))
            (λ name. Learns notes.old.known notes.new.known place name.now) }
    {
        let known = &mut notes.places[place];
        self.names[place].get_as(&mut known.note)
    }

    /// A place's name, which is the key where it had none.
    fn name_or_key<'a>(
        &'a self,
        notes: &mut Notes,
        place: usize,
        key: &[u8],
    ) -> Result<&'a Name, AllocError>
        requires own { AreNotesOf self.now notes.old }
        requires within { place < length self.now }
        ensures own { AreNotesOf self.now notes.new }
        ensures seen { MatchResult result
            (λ name. Learns notes.old.known notes.new.known place name.now)
            (λ _. notes.new.known ≡ notes.old.known) }
    {
        let known = &mut notes.places[place];
        set_once(self.alloc, &self.names[place], &mut known.note, key)
    }
}

/// The name in a cell, which is the key where it had none. Where two threads set it at once, both
/// are given the one that came first.
fn set_once<'a>(
    alloc: Global,
    cell: &'a OnceBox<Name>,
    note: &mut Note<Name>,
    key: &[u8],
) -> Result<&'a Name, AllocError>
    requires { note.old.cell ≡ cell_name cell.now }
    ensures cell { note.new.cell ≡ note.old.cell }
    ensures name { MatchResult result
        (λ name. (note.new.known ≡ Some name.now) × Agrees note.old.known name.now)
        (λ _. (note.old.known ≡ None) × (note.new.known ≡ None)) }
{
    cell.get_or_try_init_as(move || Ok(Box::new(alloc, Name::of(alloc, key)?)?), note)
}
