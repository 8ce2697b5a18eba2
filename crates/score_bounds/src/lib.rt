//! Texts of scores, ranges of scores, and the cuts that part a column of scores at a range.
//!
//! Scores are signed whole numbers of 64 bits. A range is given by two bounds, as the command
//! page of ZRANGEBYSCORE has them; a cut is a place between scores, as in Database Cracking
//! (CIDR 2007).
#![tactic(auto)]

mod closed_interval;
pub mod grammar_laws;
mod ranges_and_cuts;
mod score_texts;

pub use closed_interval::Interval;
pub use ranges_and_cuts::{Bound, Cut, Range};
pub use score_texts::{read_integer, read_score, write_score};
