//! Connections handed over to workers: one thread accepts them, numbers them and sends them through
//! a channel, and each worker takes the next one, handles it and notes its number.
//!
//! The channel is under a rule: what was sent stands in the lists of those that took it, each number
//! once, or in the channel, in order and above all that was taken. So each connection that came is
//! told once at the end, as taken by one worker or as left.
#![tactic(auto)]

mod outcome;
mod run_worker_pool;
mod starting_workers;
mod worker;

pub use connection_channel::{Arrival, ArrivalKind, Arrivals, Bell, Handler};
pub use outcome::{HandOverFault, HandedOver};
pub use run_worker_pool::hand_over;
