//! Records that are settled later than they are appended.

ghost use Rattle.std.specs.Prelude.{◌≡◌, ◌≢◌, ◌≤◌, ℕ, IfSome, ⊤};
ghost use Rattle.connection_turns.specs.SettledRecords.{RisesBy};

/// Settles records, which are numbered from 1 on: until a record is settled, no reply leaves that may tell of it.
/// `R` is the runtime, for those that wait for others.
pub trait Settle<R> {
    /// So many records are settled: as far as contracts see how this settles them.
    ghost settles: { Self → ℕ → Type 0 };

    /// Whether records are settled later than they are appended, so that replies may wait for them. How long turns are hangs
    /// on this, and nothing else.
    fn settles_later(&self) -> bool;

    /// Settles the record of this number and those before it. Gives how many records are settled: at least as many.
    /// None: they can't be settled, ever.
    fn settle(&self, rt: &R, number: u64) -> Option<u64>
        ensures enough { IfSome result (λ settled. number ≤ settled) }
        ensures told { IfSome result (λ settled. settles self.now settled) };
}

/// For executors whose records are settled when they are appended.
#[derive(Clone, Copy, Debug)]
pub struct AtOnce;

impl<R> Settle<R> for AtOnce {
    // All are.
    ghost settles = { λ _ _. ⊤ };

    fn settles_later(&self) -> bool {
        false
    }

    fn settle(&self, _rt: &R, _number: u64) -> Option<u64> {
        Some(u64::MAX)
    }
}

/// Settles the record of this number, if it can be, where no more than the first `settled` are known to be. Then as many
/// are known to be as the settler tells.
pub fn settle_to<R, T: Settle<R>>(rt: &R, settler: &T, settled: &mut u64, number: u64)
    ensures rises { RisesBy (T.settles settler.now) settled.old settled.new }
    ensures known { number ≤ settled.old → settled.new ≡ settled.old }
    ensures some { settled.new ≢ settled.old → number ≤ settled.new }
{
    if number > *settled {
        if let Some(all) = settler.settle(rt, number) {
            *settled = all;
        }
    }
}
