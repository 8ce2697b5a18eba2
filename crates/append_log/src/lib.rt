//! The append file: a log of the changes of sets, its reload, and its rewrite.
//!
//! A record is the request of a command that changes sets, in RESP2. In a file of version 1 it is
//! the command as it was given; in one of version 2, which begins with a header, it is what the
//! command changed. Records stand one behind the other. Each is synced before its command is
//! answered, or before the answer leaves the process, so that a reload after a crash replays to all
//! that was answered.
#![tactic(auto)]

mod executor;
mod group_commit;
mod loading;
mod log;
mod logged;
mod rewriting;

pub use group_commit::{FuseHandle, SyncHandle, Syncer};
pub use loading::reload;
pub use log::Log;
pub use log_records::{
    FuseSink, Loaded, LogSink, MemorySink, NoSink, Record, RecordShare, ReloadFault, RewriteFault,
    SinkFault, Version, replay_laws,
};
pub use logged::LoggedOwner;
pub use rewriting::rewrite;
