//! Replies of one connection that are held until the records that they may tell of are settled.
#![tactic(auto)]

mod held_replies;

pub use held_replies::HeldReplies;
