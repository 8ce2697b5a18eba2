//! Sorted sets: members with scores, and sets by key.
//!
//! Three folders: `set` is one sorted set and how a command changes it, `query` answers the commands that
//! change nothing, and `owner` keeps sets by key. Beside them stand replies, the memory that is kept back for
//! removals, and laws of listings.
#![tactic(auto)]

pub mod listing_laws;
mod memory_reserve;
mod owner;
mod query;
mod score_and_count_replies;
mod set;

pub use memory_reserve::{KEPT_BACK, Spare};
pub use owner::OneOwner;
pub use query::missing_key_reply::reply_without_set;
pub use set::ZSet;
pub use set::change_counts::Outline;
