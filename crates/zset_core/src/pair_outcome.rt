//! What ZADD does with one score and its member.
ghost use Rattle.std.specs.Prelude.{◌≡◌};
ghost use Rattle.zset_core.specs.Semantics.{outcome_of, keeps_score, counted, is_barred, sum_of};

use zset_commands::Flags;

/// Whether a pair of ZADD with INCR is stopped before the sum is formed, by the score that its
/// member has.
pub fn is_barred(flags: Flags, old: Option<i64>) -> bool
    ensures { result ≡ is_barred flags old }
{
    match old {
        None => flags.xx,
        Some(_) => flags.nx,
    }
}

// Whether GT or LT keeps a member's score from becoming another one.
fn keeps_score(flags: Flags, old: i64, new: i64) -> bool
    ensures { result ≡ keeps_score flags old new }
{
    (flags.gt && new <= old) || (flags.lt && old <= new)
}

/// The score that INCR gives a member. None where it is outside 64 bits.
pub fn sum(old: Option<i64>, given: i64) -> Option<i64>
    ensures { result ≡ sum_of old given }
{
    match old {
        None => Some(given),
        Some(old) => old.checked_add(given),
    }
}

/// What became of a pair of ZADD.
#[derive(Clone, Copy, Debug, PartialEq, Eq)]
pub enum Outcome {
    /// NX, XX, GT or LT stopped it.
    Stopped,
    /// The member was not there, and was added.
    Added,
    /// The member had another score.
    Changed,
    /// The member had this score already.
    Same,
}

impl Outcome {
    /// What becomes of a pair, by the score that its member has.
    pub fn of(flags: Flags, old: Option<i64>, new: i64) -> Self
        ensures { result ≡ outcome_of flags old new }
    {
        match old {
            None => {
                if flags.xx {
                    Outcome::Stopped
                } else {
                    Outcome::Added
                }
            }
            Some(old) => {
                if flags.nx || keeps_score(flags, old, new) {
                    Outcome::Stopped
                } else if old == new {
                    Outcome::Same
                } else {
                    Outcome::Changed
                }
            }
        }
    }

    /// What the pair adds to the reply; `changed` is the option CH.
    pub fn counted_in(self, changed: bool) -> u64
        ensures { result ≡ counted changed self }
    {
        match self {
            Outcome::Added => 1,
            Outcome::Changed => u64::from(changed),
            Outcome::Stopped | Outcome::Same => 0,
        }
    }
}
