//! What the program does once its command line is read, and how it ends then: sessions over standard input and
//! output, with their changes kept in an append file or not; an append file written anew. The server over TCP stands in a
//! crate of its own.
//!
//! Each of them gives a [`Finish`]: an exit status, and the lines for standard error before it. An [`Ending`] tells
//! what these lines mean in its case.
#![tactic(auto)]

mod explanations;
mod file_progress_reports;
mod file_sessions_and_rewrites;
mod group_commit_session;
mod stand_ins_for_closed_streams;
mod stdio;

pub use explanations::Ending;
pub use file_progress_reports::{Telling, WatchedFiles};
pub use file_sessions_and_rewrites::{open_file, rewrite_run, serve_file, tell_torn};
pub use group_commit_session::serve_group;
pub use stand_ins_for_closed_streams::StandIns;
pub use stdio::{after_session, stdio_run};
