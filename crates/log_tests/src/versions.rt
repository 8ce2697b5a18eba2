//! Files of version 2, and what may stand for a header.

use crate::records::Reload;
use append_log::ReloadFault;

/// The header, of 24 bytes.
const HEADER: &[u8] = b"*2\r\n$7\r\nZCRACKD\r\n$1\r\n2\r\n";

/// A record of the set k.
const ADD: &[u8] = b"*4\r\n$4\r\nZADD\r\n$1\r\nk\r\n$1\r\n1\r\n$1\r\na\r\n";

/// What stands for no request.
const SKIPS: &[u8] = b"*0\r\n*-1\r\n";

/// The header of another version.
const OF_VERSION_3: &[u8] = b"*2\r\n$7\r\nZCRACKD\r\n$1\r\n3\r\n";

pub const NOTHING: &str = "*0~ ";

pub const A_AT_1: &str = "*2~$1~a~$1~1~ ";

pub const READ: [Reload; 5] = [
    (&[HEADER], Ok((2, 0, 24, 0)), NOTHING),
    (&[HEADER, ADD], Ok((2, 1, 59, 0)), A_AT_1),
    (&[HEADER, SKIPS, ADD, SKIPS], Ok((2, 1, 77, 0)), A_AT_1),
    (&[SKIPS, HEADER, ADD], Ok((2, 1, 68, 0)), A_AT_1),
    (&[SKIPS, ADD], Ok((1, 1, 44, 0)), A_AT_1),
];

pub const NOT_READ: [Reload; 6] = [
    (
        &[HEADER, HEADER],
        Err(ReloadFault::NotACommand(24)),
        NOTHING,
    ),
    (
        &[HEADER, ADD, HEADER],
        Err(ReloadFault::NotACommand(59)),
        A_AT_1,
    ),
    (&[ADD, HEADER], Err(ReloadFault::NotACommand(35)), A_AT_1),
    (
        &[ADD, OF_VERSION_3],
        Err(ReloadFault::NotACommand(35)),
        A_AT_1,
    ),
    (
        &[HEADER, OF_VERSION_3],
        Err(ReloadFault::NotACommand(24)),
        NOTHING,
    ),
    (&[OF_VERSION_3], Err(ReloadFault::UnknownVersion), NOTHING),
];
