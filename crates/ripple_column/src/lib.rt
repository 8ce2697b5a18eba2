//! A column of rows that is cracked by its queries, with insertions and deletions that wait until
//! a query needs them.
//!
//! The column is that of Database Cracking (Idreos, Kersten and Manegold, CIDR 2007). Pending
//! insertions and deletions, and the ripple moves that merge them, which move at most one row a piece,
//! are those of Updating a Cracked Database (the same, SIGMOD 2007). The passes that merge many rows at
//! once, and inner pivots, are this project's own: they stand in `column_rows`, with the rows themselves.
#![tactic(auto)]

mod column;
mod merge;
mod merge_beside_shown_pivots;
mod ripple;
mod select;

pub use column::Column;
pub use column_rows::{KEEPS_ROOM_FROM, MAX_PENDING, MAX_RESERVED, SMALL_ROOM};
