//! Replies.

use crate::bytes::{Bytes, BytesList};
use std::alloc::Allocator;

/// A reply in RESP2. A contract sees it by `response_of`.
#[derive(Drop)]
#[derive_where(PartialEq, Eq, Debug)]
pub enum Reply<A: Allocator> {
    /// A whole number.
    Int(i64),
    /// A bulk string.
    Bulk(Bytes<A>),
    /// The null bulk string.
    Null,
    /// An array of bulk strings.
    List(BytesList<A>),
    /// A simple string, which holds neither CR nor LF.
    Simple(&'static str),
    /// An error, whose text holds neither CR nor LF.
    Fault(&'static str),
}
