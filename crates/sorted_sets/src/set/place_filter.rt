//! Marks of places, so that mostly no list of places is searched for one that does not stand there.
ghost use Rattle.std.specs.Prelude.{◌≡◌, ◌≤◌, ◌++◌, ◌∷◌, [], ℕ, List, nat_eq, length};
ghost use Rattle.std.specs.List.{list_any};
ghost use Rattle.sorted_sets.specs.PlaceMarks.{AreMarked};

/// Marks a place, beside those that are marked.
pub fn mark_place(marks: &mut [bool], place: usize)
    requires { 1 ≤ length marks.old }
    ensures length { length marks.new ≡ length marks.old }
    ensures marked { (places : List ℕ) → AreMarked marks.old places
        → AreMarked marks.new (places ++ place ∷ []) }
{
    let at = place % marks.len();
    marks[at] = true;
}

/// Whether a place is one of some that are marked.
pub fn stands_among(marks: &[bool], places: &[usize], place: usize) -> bool
    requires some { 1 ≤ length marks.now }
    requires marked { AreMarked marks.now places.now }
    ensures { result ≡ list_any (λ p. nat_eq p place) places.now }
{
    marks[place % marks.len()] && places.contains(&place)
}
