//! Sets that leave an owner, in the byte order of their keys.

ghost use Rattle.std.specs.Prelude.{◌≡◌, ◌∷◌, [], None, IfSome, MatchOption};
ghost use Rattle.std.specs.FinMap as map;
ghost use Rattle.sorted_sets.specs.OwnerViewAndInvariant.{IsAfter, KeysRise};
ghost use Rattle.sorted_sets.specs.FirstKeyTakenOut.{IsFirst};

use crate::owner::OneOwner;
use crate::owner::set_tree::SetTree;
use crate::set::ZSet;
use std::alloc::Allocator;
use std::hash::BuildHasher;

impl<H: BuildHasher + Drop, A: Allocator + Copy> OneOwner<H, A> {
    /// Takes out the set whose key is the first in byte order, with its key. None where there is
    /// no set. It takes no memory.
    pub fn take_first(&mut self) -> Option<(Vec<u8, A>, ZSet<H, A>)>
        requires { self.old.next ≡ None }
        ensures idle { self.new.next ≡ None }
        ensures taken { MatchOption result
            ((self.old.world ≡ map.empty) × (self.new.world ≡ map.empty))
            (λ taken. IsFirst self.old.world taken.0.items taken.1 self.new.world) }
    {
        pop_first(&mut self.sets)
    }
}

/// Takes out the first entry of a tree.
fn pop_first<H: BuildHasher + Drop, A: Allocator + Copy>(
    sets: &mut SetTree<H, A>,
) -> Option<(Vec<u8, A>, ZSet<H, A>)>
    ensures taken { MatchOption result
        ((sets.old.entries ≡ []) × (sets.new.entries ≡ []))
        (λ taken. sets.old.entries ≡ taken ∷ sets.new.entries) }
    ensures gone { IfSome result
        (λ taken. IsAfter sets.old.entries taken.0.items None sets.new.entries) }
    ensures ordered { KeysRise sets.old.entries }
{
    let _count = sets.len();
    match sets.pop_first() {
        None => None,
        Some((key, kept)) => Some((key, kept.into_set())),
    }
}
