//! Whether the passes know the same names.

ghost use Rattle.std.specs.Prelude.{◌≡◌, ◌<◌, ℕ, length};
ghost use Rattle.table_lifetime.specs.ClosingAudit.{AgreeAt, pass_at};
ghost use Rattle.place_names.specs.Naming.{AreNotesOf};

use place_names::Names;
use set_table::Pass;
use std::alloc::Allocator;

/// Compares what the passes know of the places' names: where two of them know one, it is the same.
pub(crate) fn compare_names<A: Allocator>(names: &Names, passes: &mut Vec<Pass<A>, A>)
    requires own { (i : ℕ) → i < length passes.old.items
        → AreNotesOf names.now (pass_at passes.old.items i).notes }
    ensures same { passes.new.items ≡ passes.old.items }
    ensures agree { (place : ℕ) → place < length names.now → AgreeAt passes.old.items place }
{
    for place in 0..names.places() {
        compare_at(names, passes, place);
    }
}

/// Compares what the passes know of one place's name.
fn compare_at<A: Allocator>(names: &Names, passes: &mut Vec<Pass<A>, A>, place: usize)
    requires own { (i : ℕ) → i < length passes.old.items
        → AreNotesOf names.now (pass_at passes.old.items i).notes }
    requires within { place < length names.now }
    ensures same { passes.new.items ≡ passes.old.items }
    ensures agree { AgreeAt passes.old.items place }
{
    let mut all = names.note_of(place);
    for i in 0..passes.len() {
        passes[i].tell_name(names, place, &mut all);
    }
}
