//! What a pass knows of the places' names.

ghost use Rattle.std.specs.Prelude.{◌≡◌, ◌<◌, length, None};
ghost use Rattle.std.proofs.Math.ListN.{get_or};
ghost use Rattle.place_names.specs.Naming.{name_at_place};

use crate::hashed_key::Name;
use once_cell::race::Note;
use std::marker::Model;

/// What a pass knows of one place's name.
#[derive(Drop)]
pub(crate) struct PlaceNote {
    pub(crate) note: Note<Name>,
}

/// What a pass knows of each place's name, once it has met it.
#[derive(Drop)]
pub(crate) struct Notes {
    pub(crate) places: Vec<PlaceNote>,
}

impl Model for Notes {
    ghost use Rattle.std.specs.Prelude.{map};
    ghost use Rattle.place_names.specs.Naming.{NotesView};

    ghost Value = { NotesView };

    ghost view = { λ n. record { names = map (λ p. p.note.cell) n.places.items; known = map (λ p. p.note.known) n.places.items } };
}

impl Notes {
    /// A second note of a place's name, which knows what the first does.
    pub(crate) fn note_of(&mut self, place: usize) -> Note<Name>
        requires { place < length self.old.known }
        ensures same { self.new ≡ self.old }
        ensures cell { result.cell ≡ get_or self.old.names place 0 }
        ensures known { result.known ≡ name_at_place self.old.known place }
    {
        self.places[place].note.again()
    }
}
