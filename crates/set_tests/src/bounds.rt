use crate::owners::expect_that;
use score_bounds::{Bound, Cut, Range, read_integer};
use std::test::Fail;

// Texts of integers and the numbers that they spell, `None` where they spell none.
static INTEGERS: [(&[u8], Option<i64>); 4] = [
    (b"-12", Some(-12)),
    (b"+9223372036854775807", Some(i64::MAX)),
    (b"1.0", None),
    (b"", None),
];

// A text, or words in its place where its bytes are no text.
fn name_of(text: &[u8]) -> &str {
    std::str::from_utf8(text).unwrap_or("bytes that are no text")
}

// Texts of bounds, and the bounds that they spell as both ends of a range.
static BOUNDS: [(&[u8], Option<Bound>); 17] = [
    (b"5", Some(Bound::Incl(5))),
    (b"(5", Some(Bound::Excl(5))),
    (b"(+5.0", Some(Bound::Excl(5))),
    (b"9223372036854775807", Some(Bound::Incl(i64::MAX))),
    (b"(-9223372036854775808", Some(Bound::Excl(i64::MIN))),
    (b"(9223372036854775808", None),
    (b"inf", Some(Bound::PosInf)),
    (b"+INF", Some(Bound::PosInf)),
    (b"(inf", Some(Bound::PosInf)),
    (b"-inf", Some(Bound::NegInf)),
    (b"-Inf", Some(Bound::NegInf)),
    (b"(-inf", Some(Bound::NegInf)),
    (b"(", None),
    (b"((1", None),
    (b"1.5", None),
    (b"", None),
    (b"infinity", None),
];

// Whether a text is read as this bound, at both ends of a range and at each.
fn is_read_as(text: &[u8], bound: Option<Bound>) -> bool {
    let both = bound.map(|end| Range { min: end, max: end });
    let as_max = Range::read(b"1", text).is_some();
    let as_min = Range::read(text, b"2").is_some();
    Range::read(text, text) == both && as_max == bound.is_some() && as_min == bound.is_some()
}

// Two bounds, a score, whether it is in their range, and the cuts.
static RANGES: [(&[u8], &[u8], i64, bool, (Cut, Cut)); 13] = [
    (
        b"(9223372036854775807",
        b"+inf",
        i64::MAX,
        false,
        (Cut::End, Cut::End),
    ),
    (
        b"(9223372036854775806",
        b"+inf",
        i64::MAX,
        true,
        (Cut::At(i64::MAX), Cut::End),
    ),
    (
        b"9223372036854775807",
        b"9223372036854775807",
        i64::MAX,
        true,
        (Cut::At(i64::MAX), Cut::End),
    ),
    (
        b"-inf",
        b"(9223372036854775807",
        i64::MAX,
        false,
        (Cut::Start, Cut::At(i64::MAX)),
    ),
    (
        b"-inf",
        b"(-9223372036854775808",
        i64::MIN,
        false,
        (Cut::Start, Cut::At(i64::MIN)),
    ),
    (
        b"-9223372036854775808",
        b"inf",
        i64::MIN,
        true,
        (Cut::At(i64::MIN), Cut::End),
    ),
    (b"5", b"1", 5, false, (Cut::At(5), Cut::At(2))),
    (b"(5", b"(5", 5, false, (Cut::At(6), Cut::At(5))),
    (b"5", b"(5", 5, false, (Cut::At(5), Cut::At(5))),
    (b"(inf", b"+INF", 5, false, (Cut::End, Cut::End)),
    (b"5", b"5", 5, true, (Cut::At(5), Cut::At(6))),
    (b"-inf", b"inf", 5, true, (Cut::Start, Cut::End)),
    (b"-inf", b"-inf", 5, false, (Cut::Start, Cut::Start)),
];

// Whether two bounds are read as a range with these cuts, which has the score or not, as wanted.
fn is_range(min: &[u8], max: &[u8], score: i64, is_in: bool, cuts: (Cut, Cut)) -> bool {
    match Range::read(min, max) {
        None => false,
        Some(range) => range.contains(score) == is_in && range.cuts() == cuts,
    }
}

fn expect_integers() -> Result<(), Fail> {
    for (text, integer) in &INTEGERS {
        expect_that(read_integer(text) == *integer, name_of(text))?;
    }
    Ok(())
}

fn expect_bounds() -> Result<(), Fail> {
    for (text, bound) in &BOUNDS {
        expect_that(is_read_as(text, *bound), name_of(text))?;
    }
    Ok(())
}

fn expect_ranges() -> Result<(), Fail> {
    for (min, max, score, is_in, cuts) in &RANGES {
        expect_that(is_range(min, max, *score, *is_in, *cuts), name_of(min))?;
    }
    Ok(())
}

#[test]
fn integers_and_bounds_are_read_and_ranges_are_cut(rt: HostRuntime) -> Result<(), Fail> {
    expect_integers()?;
    expect_bounds()?;
    expect_ranges()?;
    let are_ends_outside = Cut::Start < Cut::At(i64::MIN) && Cut::At(i64::MAX) < Cut::End;
    assert!(rt; are_ends_outside && Cut::At(-1) < Cut::At(0));
    Ok(())
}
