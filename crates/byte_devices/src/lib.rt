//! Devices that bytes come from and go to: sources and drains, which count their calls and failures
//! and tell their bytes where these are known; in memory, with failures at chosen calls, and such
//! that nobody has to wait for.
#![tactic(auto)]

mod call_count;
mod device;
mod fuse_devices;
mod memory_devices;
mod polled_devices;

pub use call_count::CallCount;
pub use device::{
    ATTEMPTS, ByteDrain, ByteSource, Failed, MAX_READ_BUFFER, MAX_READS, READ_BUFFER, Reading,
    Writing, is_interrupted, write_all, write_uninterrupted,
};
pub use fuse_devices::{Fuse, FuseDrain, FuseSource};
pub use memory_devices::{MemoryDrain, MemorySource};
pub use polled_devices::{PolledDrain, PolledSource};
