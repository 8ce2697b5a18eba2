//! Records of an append file, and what stands below a log of them.
//!
//! A record is the request of a command that changes sets. Here stand what a command's record is, the versions of a
//! file and what its records replay to, where a log writes, the shares of its count, and the records of whole sets.
//! The definitions of a log, of its reload and its rewrite stand here too (`specs`), with what follows from them
//! (`proofs`): of the code that keeps them `append_log` has the log itself, the reload and the rewrite.
#![tactic(auto)]

pub mod dumping;
mod log_sinks;
mod record;
mod record_count_share;
mod record_length;
mod reload_outcome;
pub mod replay_laws;
pub mod replaying;
mod thread_safe_ledger_share;
pub mod version;
pub mod writing_out;

pub use dumping::RewriteFault;
pub use log_sinks::{FuseSink, LogSink, MemorySink, NoSink, SinkFault};
pub use record::Record;
pub use record_count_share::RecordShare;
pub use record_length::text_len;
pub use reload_outcome::{Loaded, ReloadFault};
pub use version::Version;
