//! What the turns of a worker's connections are given: the time of each, the memory that they share in turn, and the outbox
//! in which the replies of one wait.
#![tactic(auto)]

mod buffers;
mod replies;
mod turn_limits;

pub use buffers::Buffers;
pub use replies::Replies;
pub use turn_limits::{
    MOST_HELD, MOST_PARTS, MOST_REQUESTS, Moment, PART_MICROS, PartTime, SETTLED_PART_MICROS,
    UNWAITED_PARTS,
};
