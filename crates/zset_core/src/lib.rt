//! What a command makes of a sorted set, and the rows by which one set becomes another.
//!
//! The first is a definition (`specs/Semantics`). Of the code that follows it two parts stand here: what one
//! pair of ZADD comes to, and the edits of a set's column. Sets themselves stand in `sorted_sets`.
#![tactic(auto)]

mod pair_outcome;
mod row_edits;

pub use pair_outcome::{Outcome, is_barred, sum};
pub use row_edits::{Edits, make_edits};
