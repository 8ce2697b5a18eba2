//! Sessions over an empty owner.

ghost use Rattle.std.specs.Prelude.{◌≤◌, ◌^◌};

use crate::ample_memory::request;
use lone_sessions::serve;
use resp_wire::{
    MAX_READ_BUFFER, MAX_READS, MemoryDrain, MemorySource, READ_BUFFER, write_request,
};
use session_core::{Ended, SessionFault};
use sorted_sets::OneOwner;
use std::alloc::Allocator;
use std::hash::RandomState;
use std::io;
use std::test::Fail;

/// What a session came to: the bytes that were written, and how it ended.
#[derive(Drop)]
pub struct Session {
    pub written: Vec<u8>,
    pub end: Result<Ended, SessionFault>,
}

/// Serves the input over an empty owner, in reads of at most `chunk` bytes.
pub fn serve_bytes(rt: &HostRuntime, input: &[u8], chunk: usize) -> io::Result<Session>
    requires { 1 ≤ chunk }
{
    serve_limited(rt, input, chunk, READ_BUFFER, MAX_READS)
}

/// The same with slices of `buffer` bytes and at most so many reads.
pub fn serve_limited(
    rt: &HostRuntime,
    input: &[u8],
    chunk: usize,
    buffer: usize,
    max_reads: u64,
) -> io::Result<Session>
    requires chunk { 1 ≤ chunk }
    requires some { 1 ≤ buffer }
    requires few { buffer ≤ MAX_READ_BUFFER }
    requires reads { max_reads ≤ MAX_READS }
{
    let alloc = rt.alloc();
    let mut owner = OneOwner::new(alloc, RandomState::new(rt)?);
    let mut source = MemorySource::new(input, chunk);
    let mut drain = MemoryDrain::new(alloc, 65_536);
    let end = serve(
        rt,
        alloc,
        &mut source,
        &mut drain,
        &mut owner,
        buffer,
        max_reads,
    );
    drop(owner);
    let written = Vec::from_slice(alloc, drain.bytes());
    drop(drain);
    Ok(Session {
        written: written?,
        end,
    })
}

/// Writes the request whose words stand between single blanks.
pub fn write_words<A: Allocator + Copy>(
    alloc: A,
    words: &str,
    out: &mut Vec<u8, A>,
) -> Result<(), Fail> {
    let request = request(alloc, words)?;
    let written = write_request(&request, out);
    drop(request);
    Ok(written?)
}
