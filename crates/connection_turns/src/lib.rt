//! One connection of many: its turns, each of which is bounded, so that none holds up the others.
//!
//! A turn has one read, [`MOST_REQUESTS`](turn_resources::MOST_REQUESTS) requests,
//! [`MOST_HELD`](turn_resources::MOST_HELD) bytes of replies and [`MOST_PARTS`](turn_resources::MOST_PARTS) parts. What a
//! peer does not take is held, and meanwhile nothing is read from it nor run for it.
//!
//! A reply may tell of a record that was appended to a file and is not settled there, as synced. It waits until a
//! [`Settle`] has settled the record.
#![tactic(auto)]

mod connection_in_turns;
mod settle_records;

pub use connection_in_turns::{Next, Stage, Visit};
pub use settle_records::{AtOnce, Settle, settle_to};
