//! Ranges made ready to be asked about many scores.
ghost use Rattle.std.specs.Prelude.{◌≡◌, ◌&&◌, ◌↔◌, ◌≤ℤ◌, not, true, false, ℤ, int_lt, IsTrue, MatchOption};
ghost use Rattle.score_bounds.specs.RangesAndCuts.{is_in, is_under, is_over};
ghost use Rattle.score_bounds.specs.ScoreTexts.{IsScore};

use crate::ranges_and_cuts::{Bound, Range};

/// A range with the interval of its scores, from `low` to `high`, both among them; it has none where
/// `low` is above `high`.
///
/// To ask it takes two comparisons, whatever the bounds of the range are.
#[derive(Clone, Copy)]
pub struct Interval {
    pub range: Range,
    low: i64,
    high: i64,
    pub ghost same: { (score : ℤ) → IsScore score
        → (not (int_lt score low) && not (int_lt high score)) ≡ is_in range score },
}

impl Interval {
    /// Whether a score is in the range.
    pub fn contains(&self, score: i64) -> bool
        ensures { result ≡ is_in self.now.range score }
    {
        (self.low <= score) & (score <= self.high)
    }

    /// Whether no score from `least` to `greatest`, both among them, is in the range.
    pub fn misses(&self, least: i64, greatest: i64) -> bool
        ensures { IsTrue result ↔ ((score : ℤ) → least ≤ℤ score → score ≤ℤ greatest
            → is_in self.now.range score ≡ false) }
    {
        self.high.min(greatest) < self.low.max(least)
    }
}

/// The least score that is not under the minimum, if there is one.
fn least_of(min: &Bound) -> Option<i64>
    ensures { MatchOption result ((score : ℤ) → IsScore score → is_under min.now score ≡ true)
        (λ least. (score : ℤ) → IsScore score → is_under min.now score ≡ int_lt score least) }
{
    match *min {
        Bound::NegInf => Some(i64::MIN),
        Bound::Incl(limit) => Some(limit),
        Bound::Excl(limit) => limit.checked_add(1),
        Bound::PosInf => None,
    }
}

/// The greatest score that is not over the maximum, if there is one.
fn greatest_of(max: &Bound) -> Option<i64>
    ensures { MatchOption result ((score : ℤ) → IsScore score → is_over max.now score ≡ true)
        (λ greatest. (score : ℤ) → IsScore score → is_over max.now score ≡ int_lt greatest score) }
{
    match *max {
        Bound::NegInf => None,
        Bound::Incl(limit) => Some(limit),
        Bound::Excl(limit) => limit.checked_sub(1),
        Bound::PosInf => Some(i64::MAX),
    }
}

impl Range {
    /// The range, made ready to be asked about many scores.
    pub fn interval(&self) -> Interval
        ensures { result.range ≡ self.now }
    {
        match (least_of(&self.min), greatest_of(&self.max)) {
            (Some(low), Some(high)) => Interval {
                range: *self,
                low,
                high,
            },
            _ => Interval {
                range: *self,
                low: 1,
                high: 0,
            },
        }
    }
}
