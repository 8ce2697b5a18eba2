//! One connection that is served alone, from its first byte to its end: requests are read from a source in whatever pieces
//! it gives, run one after the other, and the replies written to a drain, at once or behind syncs that they share.
//!
//! What a session is, turn by turn, is the matter of `session_core`, and how replies wait for a sync that of
//! `held_replies`.
#![tactic(auto)]

mod deferred;
mod serve_one_session;

pub use deferred::serve_deferred;
pub use serve_one_session::serve;
