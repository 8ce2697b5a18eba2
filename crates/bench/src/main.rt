//! Times the cracking of rows and the work of a column. The scripts under bench/ run it beside the
//! same work in Rust.
//!
//! Without arguments it does all on 1,000 rows and prints places and counts alone. With the name of
//! a work and a number, as `crack 1000000`, it does that work on so many rows and prints the
//! microseconds too; a second number is the seed of the rows. The work `merge` has three more numbers:
//! how many ranges are selected first, how many rows change before each merge, and how many merges
//! there are.
#![tactic(auto)]

mod columns;
mod cracks;
mod numbers;
mod run;

use columns::{Merges, merge, plain, settled, with_pivots};
use cracks::cracks;
use run::Run;
use std::alloc::Global;
use std::env;
use std::rt::Runtime;

/// The seed where none is given.
const SEED: u32 = 7;

fn main(rt: HostRuntime) -> anyhow::Result<()> {
    let mut words = env::args(&rt)?.skip(1);
    let (Some(name), Some(rows)) = (words.next(), words.next()) else {
        return run_all(&rt, rt.alloc());
    };
    let run = Run {
        rows: rows.parse()?,
        seed: u64::from(number_or(words.next(), SEED)?),
        timed: true,
    };
    match name.as_str() {
        "crack" => cracks(&rt, rt.alloc(), &run),
        "plain" => plain(&rt, rt.alloc(), &run),
        "pivots" => with_pivots(&rt, rt.alloc(), &run),
        "merge" => {
            let merges = Merges {
                ranges: number_or(words.next(), 0)?,
                updates: number_or(words.next(), 2048)?,
                times: number_or(words.next(), 1)?,
            };
            merge(&rt, rt.alloc(), &run, &merges)
        }
        "settled" => settled(&rt, rt.alloc(), &run),
        _ => anyhow::bail!("no such work: {name}"),
    }
}

/// Does each work on few rows.
fn run_all<R: Runtime>(rt: &R, alloc: Global) -> anyhow::Result<()> {
    let run = Run {
        rows: 1000,
        seed: u64::from(SEED),
        timed: false,
    };
    let merges = Merges {
        ranges: 10,
        updates: 100,
        times: 2,
    };
    cracks(rt, alloc, &run)?;
    plain(rt, alloc, &run)?;
    with_pivots(rt, alloc, &run)?;
    merge(rt, alloc, &run, &merges)?;
    settled(rt, alloc, &run)
}

/// The number that a word spells, or another where there is no word.
fn number_or(word: Option<String>, other: u32) -> anyhow::Result<u32> {
    match word {
        Some(word) => Ok(word.parse()?),
        None => Ok(other),
    }
}
