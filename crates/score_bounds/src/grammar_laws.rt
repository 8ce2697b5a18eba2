//! Laws of the definitions: each function's contract is a law, and its body is empty.
ghost use Rattle.std.specs.Prelude.{◌≡◌, ℕ, ℤ, List, Some};
ghost use Rattle.score_bounds.specs.ScoreTexts.{integer_value, score_value, score_text, SpellsInteger, SpellsScore, IsScore, IsPlain};
ghost use Rattle.score_bounds.specs.RangesAndCuts.{bound_value, range_value, SpellsBound, SpellsRange};
ghost use Rattle.score_bounds.specs.declared.ranges_and_cuts.Bound.{Bound};
ghost use Rattle.score_bounds.specs.declared.ranges_and_cuts.Range.{Range};

/// A text has an integer as its value exactly where the grammar spells it.
pub fn integer_grammar()
    ensures spelled { (text : List ℕ) (number : ℤ) → integer_value text ≡ Some number
        → SpellsInteger text number }
    ensures read { (text : List ℕ) (number : ℤ) → SpellsInteger text number → integer_value text
        ≡ Some number }
{}

/// A text has a score as its value exactly where the grammar spells it.
pub fn score_grammar()
    ensures spelled { (text : List ℕ) (score : ℤ) → score_value text ≡ Some score
        → SpellsScore text score }
    ensures read { (text : List ℕ) (score : ℤ) → SpellsScore text score → score_value text
        ≡ Some score }
{}

/// A printed score is read back as itself, and has no leading zero, no `+` and no `-0`.
pub fn printed_scores()
    ensures read_back { (score : ℤ) → IsScore score → score_value (score_text score) ≡ Some score }
    ensures plain { (score : ℤ) → IsScore score → IsPlain (score_text score) }
{}

/// A text has a bound as its value exactly where the grammar spells it.
pub fn bound_grammar()
    ensures spelled { (text : List ℕ) (bound : Bound) → bound_value text ≡ Some bound
        → SpellsBound text bound }
    ensures read { (text : List ℕ) (bound : Bound) → SpellsBound text bound → bound_value text
        ≡ Some bound }
{}

/// Two texts have a range as their value exactly where they spell its bounds.
pub fn range_grammar()
    ensures spelled { (min max : List ℕ) (range : Range) → range_value min max ≡ Some range
        → SpellsRange min max range }
    ensures read { (min max : List ℕ) (range : Range) → SpellsRange min max range
        → range_value min max ≡ Some range }
{}
