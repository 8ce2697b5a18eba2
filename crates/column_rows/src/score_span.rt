//! Between which scores rows that wait lie, so that mostly none is looked at where a range lies elsewhere.

ghost use Rattle.std.specs.Prelude.{◌≡◌, ◌↔◌, ℤ, false, IsTrue};
ghost use Rattle.std.specs.Int.{int_max, int_min};
ghost use Rattle.score_bounds.specs.RangesAndCuts.{is_in};
ghost use Rattle.score_bounds.specs.ScoreTexts.{greatest, least};
ghost use Rattle.column_rows.specs.ScoreSpan.{is_outside};

use score_bounds::Interval;

/// A least and a greatest score; where the least is above the greatest, no score lies between them.
#[derive(Clone, Copy)]
pub struct ScoreSpan {
    least: i64,
    greatest: i64,
}

impl ScoreSpan {
    /// The span of no scores.
    pub fn empty() -> Self
        ensures least { result.least ≡ greatest }
        ensures greatest { result.greatest ≡ least }
    {
        ScoreSpan {
            least: i64::MAX,
            greatest: i64::MIN,
        }
    }

    /// Widens the span to a score.
    pub fn widen(&mut self, score: i64)
        ensures least { self.new.least ≡ int_min self.old.least score }
        ensures greatest { self.new.greatest ≡ int_max self.old.greatest score }
        ensures inside { is_outside self.new score ≡ false }
        ensures kept { (s : ℤ) → is_outside self.old s ≡ false → is_outside self.new s ≡ false }
    {
        self.least = self.least.min(score);
        self.greatest = self.greatest.max(score);
    }

    /// Whether a range has no score that lies in the span.
    pub fn is_missed_by(&self, interval: &Interval) -> bool
        ensures { IsTrue result ↔ ((s : ℤ) → is_outside self.now s ≡ false → is_in interval.now.range s ≡ false) }
    {
        interval.misses(self.least, self.greatest)
    }
}
