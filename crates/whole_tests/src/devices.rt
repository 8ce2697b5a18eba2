//! Drains of which a call fails, and that take few bytes at once.

ghost use Rattle.std.specs.Prelude.{◌≡◌, ◌≤◌};

use crate::ample_memory::{LISTING, ask_all};
use crate::sessions::TWO_REQUESTS;
use lone_sessions::serve;
use resp_wire::{FuseDrain, MemoryDrain, MemorySource};
use session_core::{Ended, Exec, SessionFault};
use sorted_sets::OneOwner;
use std::alloc::Global;
use std::hash::RandomState;
use std::test::Fail;

/// How many bytes a call moves, and which call fails, 0 for none.
#[derive(Clone, Copy)]
struct Device {
    chunk: usize,
    fails_at: u64,
}

/// What a session over failing devices came to: how it ended, what was written, and what the sets then are.
#[derive(Drop)]
struct Broken {
    end: Result<Ended, SessionFault>,
    written: Vec<u8>,
    listed: Vec<u8>,
}

static LISTINGS: [&str; 2] = [LISTING, "ZRANGEBYSCORE j -inf +inf WITHSCORES"];

/// All pairs of the sets that the tests change.
fn listing<R, E: Exec<R, Global>>(rt: &R, alloc: Global, exec: &mut E) -> Result<Vec<u8>, Fail>
    requires { E.settled exec.old }
    ensures { E.settled exec.new }
{
    let mut listed = Vec::new(alloc);
    ask_all(rt, alloc, exec, &LISTINGS, &mut listed)?;
    Ok(listed)
}

/// Serves the input, which comes in one read, to a device over what runs its commands.
fn serve_with<R, E: Exec<R, Global>>(
    rt: &R,
    alloc: Global,
    exec: &mut E,
    input: &[u8],
    to: Device,
) -> Result<Broken, Fail>
    requires settled { E.settled exec.old }
    requires to { 1 ≤ to.chunk }
{
    let mut source = MemorySource::new(input, 65_536);
    let mut drain = FuseDrain::new(MemoryDrain::new(alloc, to.chunk), to.fails_at);
    let end = serve(rt, alloc, &mut source, &mut drain, exec, 65_536, 1 << 40);
    let drain = drain.into_inner();
    let written = Vec::from_slice(alloc, drain.bytes());
    drop(drain);
    let written = written?;
    match listing(rt, alloc, exec) {
        Ok(listed) => Ok(Broken {
            end,
            written,
            listed,
        }),
        Err(fail) => {
            drop(written);
            Err(fail)
        }
    }
}

/// Serves the input over an owner.
fn serve_over(rt: &HostRuntime, input: &[u8], to: Device) -> Result<Broken, Fail>
    requires { 1 ≤ to.chunk }
{
    let alloc = rt.alloc();
    let mut owner = OneOwner::new(alloc, RandomState::new(rt)?);
    let broken = serve_with(rt, alloc, &mut owner, input, to);
    drop(owner);
    broken
}

/// What a session over the two requests comes to: how it ends, the bytes that were written, and the listings of the sets
/// then.
type Wanted = (Result<Ended, SessionFault>, &'static [u8], &'static [u8]);

/// It ends with no request cut.
const SERVED: Result<Ended, SessionFault> = Ok(Ended {
    requests: 2,
    rest: 0,
});

const NO_SETS: &[u8] = b"*0\r\n*0\r\n";

const ONE_SET: &[u8] = b"*2\r\n$1\r\na\r\n$1\r\n5\r\n*0\r\n";

/// Which call of a drain fails. The two requests come in one read, and their 15 bytes go out by three at once: a flush,
/// two writes and four, and a flush before the next read and at the end.
static DRAINS: [(u64, Wanted); 10] = [
    (1, (Err(SessionFault::WriteFault(0)), b"", NO_SETS)),
    (2, (Err(SessionFault::WriteFault(0)), b"", ONE_SET)),
    (3, (Err(SessionFault::WriteFault(3)), b":1\r", ONE_SET)),
    (4, (Err(SessionFault::WriteFault(4)), b":1\r\n", ONE_SET)),
    (
        5,
        (Err(SessionFault::WriteFault(7)), b":1\r\n*1\r", ONE_SET),
    ),
    (
        6,
        (
            Err(SessionFault::WriteFault(10)),
            b":1\r\n*1\r\n$1",
            ONE_SET,
        ),
    ),
    (
        7,
        (
            Err(SessionFault::WriteFault(13)),
            b":1\r\n*1\r\n$1\r\na",
            ONE_SET,
        ),
    ),
    (
        8,
        (
            Err(SessionFault::WriteFault(15)),
            b":1\r\n*1\r\n$1\r\na\r\n",
            ONE_SET,
        ),
    ),
    (
        9,
        (
            Err(SessionFault::WriteFault(15)),
            b":1\r\n*1\r\n$1\r\na\r\n",
            ONE_SET,
        ),
    ),
    (10, (SERVED, b":1\r\n*1\r\n$1\r\na\r\n", ONE_SET)),
];

/// Whether a session comes to that.
fn is_broken_so(broken: &Broken, wanted: &Wanted) -> bool {
    let (end, written, listed) = wanted;
    broken.end == *end
        && broken.written.as_slice() == *written
        && broken.listed.as_slice() == *listed
}

/// Whether a session over the two requests does.
fn fails_so(rt: &HostRuntime, to: Device, wanted: &Wanted) -> Result<bool, Fail>
    requires { 1 ≤ to.chunk }
{
    let broken = serve_over(rt, TWO_REQUESTS, to)?;
    let is_so = is_broken_so(&broken, wanted);
    drop(broken);
    Ok(is_so)
}

#[test]
fn a_drain_fails_at_each_call(rt: HostRuntime) -> Result<(), Fail> {
    for (fails_at, wanted) in &DRAINS {
        let to = Device {
            chunk: 3,
            fails_at: *fails_at,
        };
        assert!(rt; fails_so(&rt, to, wanted)?, "call {fails_at}");
    }
    Ok(())
}
