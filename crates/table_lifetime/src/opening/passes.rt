//! A table's passes.

ghost use Rattle.std.specs.Prelude.{◌≡◌, ◌<◌, ℕ, length, IfOk};
ghost use Rattle.table_lifetime.specs.Opening.{AreNewShares, IsNewPass, pass_at};

use place_names::Knowledge;
use set_table::{Pass, Shares};
use std::alloc::{AllocError, Global};

/// The passes, each with the same knowledge of the names.
pub(crate) fn new_passes(
    alloc: Global,
    knowledge: &mut Knowledge,
    count: usize,
    opened: &[u64],
) -> Result<Vec<Pass<Global>>, AllocError>
    ensures count { IfOk result (λ passes. length passes.items ≡ count) }
    ensures each { IfOk result (λ passes. (i : ℕ) → i < count
        → IsNewPass opened.now knowledge.old i (pass_at passes.items i)) }
{
    let mut passes = Vec::new(alloc);
    for number in 0..count {
        let known = knowledge.again(alloc)?;
        let shares = new_shares(alloc, number, opened)?;
        passes.push(Pass::new(alloc, number, known, shares))?;
    }
    Ok(passes)
}

/// A pass's shares, which tell of no run.
fn new_shares(alloc: Global, number: usize, opened: &[u64]) -> Result<Vec<Shares>, AllocError>
    ensures { IfOk result (λ shares. AreNewShares opened.now number shares.items) }
{
    let mut shares = Vec::new(alloc);
    for place in 0..opened.len() {
        shares.push(Shares::new(place, number, opened[place]))?;
    }
    Ok(shares)
}
