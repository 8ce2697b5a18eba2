//! Bounds, ranges and cuts.
ghost use Rattle.std.specs.Prelude.{◌≡◌, ◌≤ℤ◌, ◌&&◌, not, ℤ};
ghost use Rattle.score_bounds.specs.RangesAndCuts.{is_in, is_below, is_under, is_over, cut_above, first_cut, second_cut, bound_at, bound_value, end_value, range_value};
ghost use Rattle.std.specs.Str.{str_eq_ignore_ascii_case};
ghost use Rattle.score_bounds.specs.ScoreTexts.{greatest};

use crate::score_texts::read_score;

/// One end of a range of scores, as the command page of ZRANGEBYSCORE has it.
#[derive(Clone, Copy, Debug, PartialEq, Eq)]
pub enum Bound {
    /// Below every score: the text `-inf`.
    NegInf,
    /// This score, which belongs to the range: its text.
    Incl(i64),
    /// This score, which does not belong to the range: its text behind `(`.
    Excl(i64),
    /// Above every score: the text `inf` or `+inf`.
    PosInf,
}

/// The scores from a minimum to a maximum. It may be reversed, and is then empty.
#[derive(Clone, Copy, Debug, PartialEq, Eq)]
pub struct Range {
    /// The lower end: with `NegInf` no score is under it, with `PosInf` every score is.
    pub min: Bound,
    /// The upper end: with `NegInf` every score is over it, with `PosInf` no score is.
    pub max: Bound,
}

/// A place between scores (Database Cracking, CIDR 2007), ordered by where it lies.
#[derive(Clone, Copy, Debug, PartialEq, Eq, PartialOrd, Ord)]
pub enum Cut {
    /// Below every score.
    Start,
    /// Just below this score.
    At(i64),
    /// Above every score.
    End,
}

fn is_under_min(min: &Bound, score: i64) -> bool
    ensures { result ≡ is_under min.now score }
{
    match *min {
        Bound::NegInf => false,
        Bound::Incl(limit) => score < limit,
        Bound::Excl(limit) => score <= limit,
        Bound::PosInf => true,
    }
}

fn is_over_max(max: &Bound, score: i64) -> bool
    ensures { result ≡ is_over max.now score }
{
    match *max {
        Bound::NegInf => true,
        Bound::Incl(limit) => score > limit,
        Bound::Excl(limit) => score >= limit,
        Bound::PosInf => false,
    }
}

fn above(score: i64) -> Cut
    ensures { result ≡ cut_above score }
{
    match score.checked_add(1) {
        Some(next) => Cut::At(next),
        None => Cut::End,
    }
}

fn cut_at_min(min: &Bound) -> Cut
    ensures { result ≡ first_cut min.now }
{
    match *min {
        Bound::NegInf => Cut::Start,
        Bound::Incl(limit) => Cut::At(limit),
        Bound::Excl(limit) => above(limit),
        Bound::PosInf => Cut::End,
    }
}

fn cut_at_max(max: &Bound) -> Cut
    ensures { result ≡ second_cut max.now }
{
    match *max {
        Bound::NegInf => Cut::Start,
        Bound::Incl(limit) => above(limit),
        Bound::Excl(limit) => Cut::At(limit),
        Bound::PosInf => Cut::End,
    }
}

fn is_word(text: &[u8], word: &[u8]) -> bool
    ensures { result ≡ str_eq_ignore_ascii_case text.now word.now }
{
    text.eq_ignore_ascii_case(word)
}

fn bound_at(score: i64, is_exclusive: bool) -> Bound
    ensures { result ≡ bound_at is_exclusive score }
{
    if is_exclusive {
        Bound::Excl(score)
    } else {
        Bound::Incl(score)
    }
}

// Reads a bound's text without its `(`, which leaves a score out of the range.
#[tactic(auto, unfolding(crate::specs::RangesAndCuts::end_value))]
fn read_end(text: &[u8], is_exclusive: bool) -> Option<Bound>
    ensures { result ≡ end_value is_exclusive text.now }
{
    if is_word(text, b"-inf") {
        Some(Bound::NegInf)
    } else if is_word(text, b"inf") || is_word(text, b"+inf") {
        Some(Bound::PosInf)
    } else {
        let score = read_score(text)?;
        Some(bound_at(score, is_exclusive))
    }
}

#[tactic(auto, unfolding(crate::specs::RangesAndCuts::bound_value))]
fn read_bound(text: &[u8]) -> Option<Bound>
    ensures { result ≡ bound_value text.now }
{
    match text {
        [b'(', end @ ..] => read_end(end, true),
        _ => read_end(text, false),
    }
}

impl Range {
    /// Reads the range between two texts of bounds: a score or an infinity (`inf`, `+inf`,
    /// `-inf`, letters in either case), behind an optional `(`, which leaves the score itself out
    /// and changes nothing before an infinity. `None` where a text is no bound.
    #[tactic(auto, unfolding(crate::specs::RangesAndCuts::range_value))]
    pub fn read(min: &[u8], max: &[u8]) -> Option<Range>
        ensures { result ≡ range_value min.now max.now }
    {
        Some(Range {
            min: read_bound(min)?,
            max: read_bound(max)?,
        })
    }

    /// Whether a score is in the range: not under the minimum and not over the maximum.
    pub fn contains(&self, score: i64) -> bool
        ensures { result ≡ is_in self.now score }
    {
        !is_under_min(&self.min, score) && !is_over_max(&self.max, score)
    }

    /// The two cuts between which the range lies: a score is in it exactly where it is not below
    /// the first and is below the second.
    pub fn cuts(&self) -> (Cut, Cut)
        ensures first { result.0 ≡ first_cut self.now.min }
        ensures second { result.1 ≡ second_cut self.now.max }
        ensures between { (score : ℤ) → score ≤ℤ greatest → is_in self.now score
            ≡ (not (is_below score result.0) && is_below score result.1) }
    {
        (cut_at_min(&self.min), cut_at_max(&self.max))
    }
}
