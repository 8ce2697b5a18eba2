//! Whether passes know the same names.

ghost use Rattle.std.specs.Prelude.{◌≡◌, ◌<◌, length, Some, None, IfSome};
ghost use Rattle.std.proofs.Math.ListN.{get_or};
ghost use Rattle.place_names.specs.Naming.{AreNotesOf, name_at_place};

use crate::hashed_key::Name;
use crate::knowledge_of_names::Knowledge;
use crate::known_place_names::Notes;
use crate::names_set_once::Names;
use once_cell::race::Note;

impl Names {
    /// A note of a place's name, which knows nothing.
    pub fn note_of(&self, place: usize) -> Note<Name>
        requires { place < length self.now }
        ensures cell { result.cell ≡ get_or self.now place 0 }
        ensures none { result.known ≡ None }
    {
        self.names[place].note()
    }

    /// The note of all passes learns what a pass knows of a place's name.
    pub fn gather(&self, known: &mut Knowledge, place: usize, all: &mut Note<Name>)
        requires own { AreNotesOf self.now known.old }
        requires within { place < length self.now }
        requires all { all.old.cell ≡ get_or self.now place 0 }
        ensures same { known.new ≡ known.old }
        ensures cell { all.new.cell ≡ all.old.cell }
        ensures known { IfSome (name_at_place known.old.known place) (λ name. all.new.known ≡ Some name) }
        ensures all { IfSome all.old.known (λ name. all.new.known ≡ Some name) }
    {
        self.gather_note(&mut known.notes, place, all);
    }

    /// The same, of what the pass has noted. Two notes of one cell know the same name.
    fn gather_note(&self, notes: &mut Notes, place: usize, all: &mut Note<Name>)
        requires own { AreNotesOf self.now notes.old }
        requires within { place < length self.now }
        requires all { all.old.cell ≡ get_or self.now place 0 }
        ensures same { notes.new ≡ notes.old }
        ensures cell { all.new.cell ≡ all.old.cell }
        ensures known { IfSome (name_at_place notes.old.known place) (λ name. all.new.known ≡ Some name) }
        ensures all { IfSome all.old.known (λ name. all.new.known ≡ Some name) }
    {
        let mut note = notes.note_of(place);
        if self.names[place].get_as(&mut note).is_some() {
            all.compare(note.again());
            *all = note;
        }
    }
}
