//! Sorted sets behind locks of their own, which threads share, and what each worker was told of
//! them.
//!
//! A table has places. A place bears a key's name, which is set once and read without a lock, and
//! has a cell: a sorted set behind a lock, which alone runs the set's commands. Each worker has a
//! pass: what it knows of the names, and in numbers what it was answered at each place. Where a
//! cell and a pass tell different numbers the command is refused, so that at the end the numbers of
//! all passes add up to what became of the sets.
//!
//! A table is opened and closed by `table_lifetime`, which stands on this crate: what only that crate
//! needs says so.
#![tactic(auto)]

mod answer_with_counts;
mod cell;
mod limits;
mod member_change_counts;
mod naming;
mod pass_tally_at_place;
mod table;
mod test_gate;
mod worker_pass;

pub use answer_with_counts::Answer;
pub use cell::{Cell, CellNumbers};
pub use limits::{MAX_PASSES, MAX_PLACES, MAX_RUNS};
pub use member_change_counts::{Counts, OwnCounts, Tally};
pub use naming::names::{ClaimFault, claim};
pub use pass_tally_at_place::Shares;
pub use table::{Answered, Table, TableParts};
pub use test_gate::{NoGate, TestGate};
pub use worker_pass::Pass;
