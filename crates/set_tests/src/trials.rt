//! What tests ask of new owners of sets, and of new sets. One function makes each, since it takes long to prove.

ghost use Rattle.std.specs.Prelude.{◌≡◌, None};

use crate::columns::{Set, expect, expect_few_pivots};
use crate::owners::{Owner, expect_listed};
use crate::windows::{expect_narrowed, expect_short_pieces};
use sorted_sets::{OneOwner, ZSet};
use std::alloc::Global;
use std::hash::RandomState;
use std::random::RandomSource;
use std::test::Fail;

/// What is asked of an owner.
pub enum Trial {
    Listed,
    ShortPieces,
}

fn expect_trial(alloc: Global, owner: &mut Owner, trial: &Trial) -> Result<(), Fail>
    requires { owner.old.next ≡ None }
{
    match trial {
        Trial::Listed => expect_listed(alloc, owner),
        Trial::ShortPieces => expect_short_pieces(alloc, owner),
    }
}

fn expect_of_owner(alloc: Global, hasher: RandomState, trial: &Trial) -> Result<(), Fail> {
    let mut owner = OneOwner::new(alloc, hasher);
    let told = expect_trial(alloc, &mut owner, trial);
    drop(owner);
    told
}

/// For each trial a new owner is as it asks.
pub fn expect_of_owners<R: AllocGlobal + RandomSource>(
    rt: &R,
    trials: &[Trial],
) -> Result<(), Fail> {
    for trial in trials {
        expect_of_owner(rt.alloc(), RandomState::new(rt)?, trial)?;
    }
    Ok(())
}

/// What is asked of a set.
pub enum SetTrial {
    /// Commands in turn, with their replies and with the column that they leave.
    Rows(&'static [(&'static str, &'static str, &'static str)]),
    FewPivots,
    Narrowed,
}

fn expect_set_trial(alloc: Global, set: &mut Set, trial: &SetTrial) -> Result<(), Fail>
    requires { set.old.next ≡ None }
{
    match trial {
        SetTrial::Rows(rows) => expect(alloc, set, rows),
        SetTrial::FewPivots => expect_few_pivots(alloc, set),
        SetTrial::Narrowed => expect_narrowed(alloc, set),
    }
}

fn expect_of_set(alloc: Global, hasher: RandomState, trial: &SetTrial) -> Result<(), Fail> {
    let mut set = ZSet::with_hasher(alloc, hasher);
    let told = expect_set_trial(alloc, &mut set, trial);
    drop(set);
    told
}

/// For each trial a new set is as it asks.
pub fn expect_of_sets<R: AllocGlobal + RandomSource>(
    rt: &R,
    trials: &[SetTrial],
) -> Result<(), Fail> {
    for trial in trials {
        expect_of_set(rt.alloc(), RandomState::new(rt)?, trial)?;
    }
    Ok(())
}
