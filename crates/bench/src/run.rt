//! What one run of a work is given, and what it prints.

use std::io::Print;
use std::time::{Clock, Instant};

/// On how many rows to work, from which seed they come, and whether to print times.
#[derive(Clone, Copy, Debug)]
pub struct Run {
    pub rows: u32,
    pub seed: u64,
    pub timed: bool,
}

impl Run {
    /// Prints the work's name, what came out, and the microseconds since its start.
    pub fn tell<R: Clock + Print>(
        &self,
        rt: &R,
        name: &str,
        outcome: usize,
        start: Instant,
    ) -> anyhow::Result<()> {
        if self.timed {
            let micros = start.elapsed(rt)?.as_micros();
            println!(rt; "{name} {outcome} {micros}")?;
        } else {
            println!(rt; "{name} {outcome}")?;
        }
        Ok(())
    }
}
