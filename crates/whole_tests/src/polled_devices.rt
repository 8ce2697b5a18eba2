//! What an error is told as by a look at a device, for which nobody waits.

use resp_wire::{Failed, PolledDrain, PolledSource, Reading, Writing};
use std::io::{Error, ErrorKind, Read, Result as IoResult, Write};
use std::test::*;

/// A device each of whose calls fails so.
#[derive(Drop)]
struct Refusing(ErrorKind);

impl Read for Refusing {
    fn read(&mut self, _buffer: &mut [u8]) -> IoResult<usize> {
        Err(Error::from(self.0))
    }
}

impl Write for Refusing {
    fn write(&mut self, _bytes: &[u8]) -> IoResult<usize> {
        Err(Error::from(self.0))
    }

    fn flush(&mut self) -> IoResult<()> {
        Err(Error::from(self.0))
    }
}

/// An error, and what a look gives that it ends. Where the call would have had to wait nothing is there yet; each other
/// error is a failure, also that of a call that a signal interrupts each time.
const ERRORS: [(ErrorKind, Result<Option<usize>, Failed>); 6] = [
    (ErrorKind::WouldBlock, Ok(None)),
    (ErrorKind::ConnectionReset, Err(Failed)),
    (ErrorKind::BrokenPipe, Err(Failed)),
    (ErrorKind::TimedOut, Err(Failed)),
    (ErrorKind::Interrupted, Err(Failed)),
    (ErrorKind::Other, Err(Failed)),
];

/// What a look at a source gives, and at a drain.
fn looks(error: ErrorKind) -> [Result<Option<usize>, Failed>; 2] {
    [
        Reading::new(Refusing(error)).read_now(&mut [0; 3]),
        Writing::new(Refusing(error)).write_now(b"abc"),
    ]
}

#[test]
fn an_error_is_no_want_of_bytes(rt: HostRuntime) {
    for (error, wanted) in ERRORS {
        assert!(rt; looks(error) == [wanted; 2], "{error:?}");
    }
}
