//! How sessions end.

use crate::exchange::{serve_bytes, serve_limited};
use resp_wire::ProtocolFault;
use session_core::{Ended, SessionFault};
use std::test::Fail;

/// An addition and a range of one score: 80 bytes.
pub const TWO_REQUESTS: &[u8] =
    b"*4\r\n$4\r\nZADD\r\n$1\r\nk\r\n$1\r\n5\r\n$1\r\na\r\n*4\r\n$13\r\nZRANGEBYSCORE\r\n$1\r\nk\r\n$1\r\n5\r\n$1\r\n5\r\n";

/// The first 79 bytes of these.
const CUT: &[u8] =
    b"*4\r\n$4\r\nZADD\r\n$1\r\nk\r\n$1\r\n5\r\n$1\r\na\r\n*4\r\n$13\r\nZRANGEBYSCORE\r\n$1\r\nk\r\n$1\r\n5\r\n$1\r\n5\r";

/// The input of a session, what is written, and how it ends.
type Talk = (&'static [u8], &'static [u8], Result<Ended, SessionFault>);

static TALKS: [Talk; 4] = [
    (
        TWO_REQUESTS,
        b":1\r\n*1\r\n$1\r\na\r\n",
        Ok(Ended {
            requests: 2,
            rest: 0,
        }),
    ),
    (
        CUT,
        b":1\r\n",
        Ok(Ended {
            requests: 1,
            rest: 44,
        }),
    ),
    (
        b"",
        b"",
        Ok(Ended {
            requests: 0,
            rest: 0,
        }),
    ),
    // a wrong byte ends the session
    (
        b"*0\r\n*-1\r\n*1\r\n$4\r\nping\r\nPING\r\n",
        b"+PONG\r\n-ERR protocol 2 not an array\r\n",
        Err(SessionFault::Wire(ProtocolFault::NotAnArray)),
    ),
];

/// Whether a session goes so.
fn goes_so(rt: &HostRuntime, talk: &Talk) -> Result<bool, Fail> {
    let (input, written, end) = talk;
    let session = serve_bytes(rt, input, 65_536)?;
    let goes_so = session.end == *end && session.written.as_slice() == *written;
    drop(session);
    Ok(goes_so)
}

#[test]
fn the_end_of_a_session_is_told(rt: HostRuntime) -> Result<(), Fail> {
    assert!(rt; TWO_REQUESTS.len() == 80);
    for (at, talk) in TALKS.iter().enumerate() {
        assert!(rt; goes_so(&rt, talk)?, "case {at}");
    }
    Ok(())
}

#[test]
fn reads_are_counted(rt: HostRuntime) -> Result<(), Fail> {
    let session = serve_limited(&rt, TWO_REQUESTS, 65_536, 35, 1)?;
    let has_first = session.written.as_slice() == b":1\r\n".as_slice();
    let is_told = session.end == Err(SessionFault::TooManyReads);
    drop(session);
    assert!(rt; has_first && is_told);
    Ok(())
}
