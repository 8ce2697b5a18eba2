//! RESP2 as this server speaks it: requests read from a stream in whatever pieces it comes, and
//! replies that wait until a drain takes them. Requests and replies themselves, and how they are
//! written, stand in `resp_messages`; the traits of the devices that bytes come from and go to in
//! `byte_devices`.
//!
//! A request is an array of 1 to 1,027 bulk strings of at most 65,536 bytes each. The empty and the
//! null array are skipped. Any other byte is a fault of the protocol, which is told as soon as no
//! request can begin so.
#![tactic(auto)]

mod decoder;
mod decoder_steps;
mod fault;
pub mod laws;
mod outbox;
mod parser;

pub use byte_devices::{
    ATTEMPTS, ByteDrain, ByteSource, CallCount, Failed, Fuse, FuseDrain, FuseSource,
    MAX_READ_BUFFER, MAX_READS, MemoryDrain, MemorySource, PolledDrain, PolledSource, READ_BUFFER,
    Reading, Writing, is_interrupted, write_all, write_uninterrupted,
};
pub use decoder::Decoder;
pub use fault::{ProtocolFault, WireFault};
pub use laws::{cut, encoding_round_trip, fault_table, faults, longest, one_encoding};
pub use outbox::Outbox;
pub use resp_messages::{
    Bytes, BytesList, Reply, Request, write_array_header, write_bulk, write_number_bulk,
    write_reply, write_request,
};
