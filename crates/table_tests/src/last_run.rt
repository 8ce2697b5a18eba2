//! Two readers that find one run left at a place.

use crate::tables::{FOUR_PLACES, Plan};
use crate::windows::filling;
use crate::workers::{Manner, Texts, race_of};
use std::test::*;

const FOUR_RUNS: Plan = Plan {
    max_runs: 4,
    ..FOUR_PLACES
};

static WINDOW: [&str; 1] = ["ZRANGEBYSCORE k -inf +inf LIMIT 500 1"];

// Two readers of a window for which their set is ready, but had better be run, where it has one run left: filling it and
// making it ready took three of four. One takes the last run, the other is told what its set answers as it stands.
#[test]
fn the_last_run_is_taken_from_a_reader(rt: HostRuntime) -> Result<(), Fail> {
    let (low, high) = filling(rt.alloc())?;
    let before = [low.as_str(), high.as_str(), "ZCOUNT k -inf +inf"];
    let texts = Texts {
        before: &before,
        first: &WINDOW,
        second: &WINDOW,
    };
    let raced = race_of(&rt, &rt, FOUR_RUNS, Manner::Together, texts);
    drop(low);
    drop(high);
    let (told, _totals) = raced?;
    let text = told.text(rt.alloc());
    drop(told);
    assert_eq!(rt; text?.as_str(), "*1~$4~m500~ *1~$4~m500~");
    Ok(())
}
