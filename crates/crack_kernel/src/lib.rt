//! Rows with a score, the cracking of a slice of rows by a score, and the index of its pivots.
//!
//! Database cracking (Idreos, Kersten and Manegold, CIDR 2007) sorts a column a little with each
//! query: the query's bounds become pivots, and the rows between two neighbouring pivots, a piece,
//! stay in no order.
#![tactic(auto)]

pub mod crack;
mod crack_from_both_ends;
pub mod pivots;
pub mod row;

pub use crack::{crack_piece, crack_three, crack_two};
pub use pivots::{MAX_PIVOTS, Pivots};
pub use row::Row;
