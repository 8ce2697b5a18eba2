//! A window of a long set, which is readied by one run.

use crate::tables::{FOUR_PLACES, Plan, Talk, day_of};
use std::alloc::Global;
use std::test::*;

/// ZADD at `k` with 510 members, each named by a number that is its score too.
fn addition(alloc: Global, from: u64) -> Result<String, Fail> {
    let mut text = "ZADD k".to_string(alloc)?;
    for step in 0..510u64 {
        let number = from.wrapping_add(step);
        text.push_str(format!(in alloc; " {number} m{number}")?.as_str())?;
    }
    Ok(text)
}

/// Two commands that fill the set at `k` with more members than a window is listed from without a run.
pub fn filling(alloc: Global) -> Result<(String, String), Fail> {
    Ok((addition(alloc, 0)?, addition(alloc, 510)?))
}

const FIVE_RUNS: Plan = Plan {
    max_runs: 5,
    ..FOUR_PLACES
};

// A set that was filled has two of five runs left. The window takes one of them, by which its column's pieces get
// short, and is only read from then on.
#[test]
fn a_window_takes_one_run(rt: HostRuntime) -> Result<(), Fail> {
    let (low, high) = filling(rt.alloc())?;
    let texts = [
        low.as_str(),
        high.as_str(),
        "ZCOUNT k -inf +inf",
        "ZCOUNT k -inf +inf",
        "ZRANGEBYSCORE k -inf +inf LIMIT 500 1",
        "ZRANGEBYSCORE k -inf +inf LIMIT 500 1",
        "ZRANGEBYSCORE k -inf +inf LIMIT 500 1",
        "ZADD k 1000 m1000",
        "ZADD k 1000 m1000",
    ];
    let talk = Talk {
        plan: FIVE_RUNS,
        sets: &[],
        first: &texts,
        second: &[],
    };
    let told = day_of(&rt, &rt, &talk);
    drop(low);
    drop(high);
    let told = told?;
    let wanted = ":510~ :510~ :1020~ :1020~ *1~$4~m500~ *1~$4~m500~ *1~$4~m500~ :0~ r12 ";
    assert!(rt; told.as_str() == wanted, "{told}");
    Ok(())
}
