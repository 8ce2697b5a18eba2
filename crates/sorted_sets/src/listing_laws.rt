//! Laws of listings: each function's contract is a law, and its body is empty.

ghost use Rattle.std.specs.Prelude.{◌≡◌, ◌↔◌, ℕ, ℤ, Bool, true, List, Some, AllPairs, Contains};
ghost use Rattle.std.specs.FinMap as fin;
ghost use Rattle.zset_core.specs.SortedSet.{Members, listing, IsListedBefore};

/// The pairs of a listing rise strictly: by score, and those of one score by the bytes of their
/// members.
pub fn listing_order()
    ensures { (test : ℤ → Bool) (members : Members) → AllPairs IsListedBefore (listing test
        members) }
{}

/// A pair is in a listing exactly where its score passes the test and is the one that its member has
/// in the set.
pub fn listed_pairs()
    ensures { (test : ℤ → Bool) (members : Members) (score : ℤ) (member : List ℕ)
        → Contains (listing test members) (score, member)
        ↔ ((fin.get members member ≡ Some score) × (test score ≡ true)) }
{}
