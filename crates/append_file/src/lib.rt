//! The append file as a file of the system: made, locked, opened and replayed, renewed, and appended to.
//!
//! What its bytes mean is the matter of `append_log`.
#![tactic(auto)]

mod file_sink;
mod new_file;
mod opening;

pub use file_sink::{FileFault, FileHandle, FileSink, LockFile};
pub use new_file::{NewFileFault, write_anew};
pub use opening::{OpenFault, open_to_append, open_to_read};
