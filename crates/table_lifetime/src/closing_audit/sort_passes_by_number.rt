//! The passes in the order of their numbers.

ghost use Rattle.std.specs.Prelude.{◌≡◌, ◌<◌, ◌↔◌, ℕ, length, IsTrue, MatchOption};
ghost use Rattle.std.specs.List.Sorted.{IsPermutation};
ghost use Rattle.table_lifetime.specs.ClosingSteps.{InOrder};
ghost use Rattle.table_lifetime.specs.ClosingAudit.{AreNumbered, pass_at};

use set_table::Pass;
use std::alloc::Allocator;

/// Puts the passes into the order of their numbers. False where these are not 0 to `count` - 1,
/// each once.
pub(crate) fn put_in_order<A: Allocator>(passes: &mut Vec<Pass<A>, A>, count: usize) -> bool
    ensures same { IsPermutation passes.old.items passes.new.items }
    ensures order { IsTrue result → InOrder passes.new.items (length passes.new.items) }
    ensures numbered { IsTrue result ↔ AreNumbered passes.old.items count }
{
    if passes.len() != count {
        return false;
    }
    sort_by_number(passes)
}

/// Puts the passes into the order of their numbers. False where one of 0 to the last is missing.
fn sort_by_number<A: Allocator>(passes: &mut Vec<Pass<A>, A>) -> bool
    ensures same { IsPermutation passes.old.items passes.new.items }
    ensures order { IsTrue result → InOrder passes.new.items (length passes.new.items) }
    ensures numbered { IsTrue result ↔ AreNumbered passes.old.items (length passes.old.items) }
{
    for number in 0..passes.len() {
        match index_of(passes, number) {
            Some(index) => passes.swap(number, index),
            None => return false,
        }
    }
    true
}

/// Where the pass with this number stands.
fn index_of<A: Allocator>(passes: &Vec<Pass<A>, A>, number: usize) -> Option<usize>
    ensures { MatchOption result
        ((i : ℕ) → i < length passes.now.items → (pass_at passes.now.items i).number ≡ number → ⊥)
        (λ i. (i < length passes.now.items) × ((pass_at passes.now.items i).number ≡ number)) }
{
    for i in 0..passes.len() {
        if passes[i].number() == number {
            return Some(i);
        }
    }
    None
}
