//! Byte strings of which short ones stand in place and long ones are shared, so that a set's map and its column keep a
//! member once.
#![tactic(auto)]

mod comparison;
mod inline;
mod short_bytes;

pub use comparison::are_same;
pub use inline::{IN_PLACE, Inline};
pub use short_bytes::{BorrowedBytes, ShortBytes};
