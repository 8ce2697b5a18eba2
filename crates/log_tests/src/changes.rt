//! Changes of which each allocation is refused in turn, over logs that take their record and over logs that do not.

use crate::want_of_memory::Change;

/// A member gets another score, and another member is added.
const CHANGE: &str = "ZADD k 1 a 2 b";

/// The log takes all records. A change that is refused is made when it is asked again.
pub const LOGGED: Change = Change {
    fails_at: 0,
    max_records: 10,
    before: &["ZADD k 9 a", "ZADD j 1 x"],
    told_before: ":1~ :1~ ",
    words: CHANGE,
    behind: &["ZCARD k", "ZCOUNT k 9 9", CHANGE],
    whole: (":1~ :2~ :0~ :0~ ", 3),
    refused: ("-ERR 1 out of memory~ :1~ :1~ :1~ ", 3),
};

/// The same, asked once: the log has its record only where it was made.
pub const ASKED_ONCE: Change = Change {
    behind: &["ZSCORE k a", "ZCARD k"],
    whole: (":1~ $1~1~ :2~ ", 3),
    refused: ("-ERR 1 out of memory~ $1~9~ :1~ ", 2),
    ..LOGGED
};

/// The log was broken by the record before.
pub const BROKEN: Change = Change {
    fails_at: 3,
    told_before: ":1~ -ERR 16 append file failed~ ",
    whole: (
        "-ERR 14 append file failed earlier~ :1~ :1~ -ERR 14 append file failed earlier~ ",
        1,
    ),
    refused: (
        "-ERR 1 out of memory~ :1~ :1~ -ERR 14 append file failed earlier~ ",
        1,
    ),
    ..LOGGED
};

/// The log is full with the record before.
pub const FULL: Change = Change {
    max_records: 2,
    whole: (
        "-ERR 15 append file is full~ :1~ :1~ -ERR 15 append file is full~ ",
        2,
    ),
    refused: (
        "-ERR 1 out of memory~ :1~ :1~ -ERR 15 append file is full~ ",
        2,
    ),
    ..LOGGED
};

/// The log's sink fails at its next call.
pub const FAILING: Change = Change {
    fails_at: 5,
    whole: (
        "-ERR 16 append file failed~ :1~ :1~ -ERR 14 append file failed earlier~ ",
        2,
    ),
    refused: (
        "-ERR 1 out of memory~ :1~ :1~ -ERR 16 append file failed~ ",
        2,
    ),
    ..LOGGED
};
