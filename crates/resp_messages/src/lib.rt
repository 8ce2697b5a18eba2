//! The requests and replies of RESP2, in memory and written.
#![tactic(auto)]

mod bytes;
mod encoding;
mod reply;
mod request;

pub use bytes::{Bytes, BytesList};
pub use encoding::{write_array_header, write_bulk, write_number_bulk, write_reply, write_request};
pub use reply::Reply;
pub use request::{MAX_ARGUMENTS, MAX_LENGTH, Request};
