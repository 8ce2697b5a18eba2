//! The channel that hands numbered connections to workers, and its two ends: the one that accepts connections and
//! sends them, and what workers take from it and hand back.
//!
//! The channel is under a rule: what was sent stands in the lists of those that took it, each number once, or in
//! the channel, in order and above all that was taken. What a worker does between taking and handing back, and
//! when workers start and end, is the matter of `hand_over`.
#![tactic(auto)]

mod accepting;
mod arrivals;
mod channel_protocol;
mod crew;
mod desks;
mod handler;
mod load_balancing;
mod promise;
mod recalling_workers;
mod worker_steps;

pub use accepting::Unsent;
pub use arrivals::{Arrival, ArrivalKind, Arrivals};
pub use channel_protocol::{
    ChannelEnds, ChannelPass, ChannelPassView, Found, Message, Numbered, Receiver, Sender,
    SplitPass, drain,
};
pub use crew::{Crew, crew_of, rooms};
pub use desks::Desk;
pub use handler::{Bell, Handler};
pub use load_balancing::{Doors, Post};
pub use promise::{Child, Finished, Worked};
pub use recalling_workers::Returned;
pub use worker_steps::{finish, next_message};
