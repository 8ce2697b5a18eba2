//! The connections of one worker: many of them, each of which is served while it is ready.
//!
//! A worker goes from one ready connection to the next. The turn of each is bounded, so that none
//! holds up the others: one read, [`MOST_REQUESTS`] requests, [`MOST_HELD`] bytes of replies and
//! [`MOST_PARTS`] parts of [`PART_MICROS`] microseconds. Behind each part a turn ends where one that asks seldom has become
//! ready. What a peer does not take is held, and meanwhile nothing is read from it nor run
//! for it. Behind the turns of those that ask much it lets others have its processor ([`Yields`]).
//!
//! A reply may tell of a record that was appended to a file and is not settled there, as synced. It waits, and at the
//! end of the round a [`Settle`] settles the records of all that wait.
#![tactic(auto)]

mod held_connection;
mod keep_alive_and_descriptors;
mod many;
mod slots;
mod traffic;
mod turn_lists;
mod watch;
mod yields;

pub use connection_turns::{AtOnce, Next, Settle, Stage, Visit};
pub use keep_alive_and_descriptors::{descriptor_limit, keep_alive};
pub use many::Connections;
pub use turn_resources::{
    Buffers, MOST_HELD, MOST_PARTS, MOST_REQUESTS, Moment, PART_MICROS, SETTLED_PART_MICROS,
};
pub use watch::{Ringer, Watched};
pub use yields::Yields;
