//! Each allocation of a logged removal refused in turn: it is made all the same, with the memory that was kept back.
//! And how many allocations a removal makes.

use crate::want_of_memory::{Change, Work, allocations_of};
use std::test::*;

/// A set whose rows stand in pieces, as a count has left them, with changes that wait; and sets of one member and
/// of eight, as they came. Five records.
const SETUP: [&str; 6] = [
    "ZADD k 5 a 6 b 7 c 7 d 9 e 12 f",
    "ZCOUNT k 6 9",
    "ZADD k 8 g -1 h 6 a",
    "ZREM k d",
    "ZADD j 1 x",
    "ZADD i 1 a 2 b 3 c 4 d 5 e 6 f 7 g 8 h",
];

const LISTING_OF_K: &str = "ZRANGEBYSCORE k -inf +inf";

const LISTING_OF_J: &str = "ZRANGEBYSCORE j -inf +inf";

const LISTING_OF_I: &str = "ZRANGEBYSCORE i -inf +inf";

/// The most allocations that the removal of one member by its name makes, its record's included.
const MOST_OF_ONE: u64 = 4;

/// The most that the removal of eight members by their names makes.
const MOST_OF_EIGHT: u64 = 5;

/// The most that the removal of a range makes, of however many members.
const MOST_OF_A_RANGE: u64 = 3;

/// A removal of these sets, whichever of its allocations is refused.
const REMOVAL: Change = Change {
    fails_at: 0,
    max_records: 10,
    before: &SETUP,
    told_before: ":6~ :4~ :2~ :1~ :1~ :8~ ",
    words: "",
    behind: &[],
    whole: ("", 6),
    refused: ("", 6),
};

/// Removals, each with a listing of its set behind it and asked again then, and the most allocations that it makes.
static REMOVALS: [(Change, u64); 10] = [
    (
        Change {
            words: "ZREM k a",
            behind: &[LISTING_OF_K, "ZREM k a"],
            whole: (":1~ *6~$1~h~$1~b~$1~c~$1~g~$1~e~$1~f~ :0~ ", 6),
            refused: (":1~ *6~$1~h~$1~b~$1~c~$1~g~$1~e~$1~f~ :0~ ", 6),
            ..REMOVAL
        },
        MOST_OF_ONE,
    ),
    (
        Change {
            words: "ZREM k h nobody h",
            behind: &[LISTING_OF_K, "ZREM k h nobody h"],
            whole: (":1~ *6~$1~a~$1~b~$1~c~$1~g~$1~e~$1~f~ :0~ ", 6),
            refused: (":1~ *6~$1~a~$1~b~$1~c~$1~g~$1~e~$1~f~ :0~ ", 6),
            ..REMOVAL
        },
        MOST_OF_ONE,
    ),
    (
        Change {
            words: "ZREM j x",
            behind: &[LISTING_OF_J, "ZREM j x"],
            whole: (":1~ *0~ :0~ ", 6),
            refused: (":1~ *0~ :0~ ", 6),
            ..REMOVAL
        },
        MOST_OF_ONE,
    ),
    (
        Change {
            words: "ZREM i d",
            behind: &[LISTING_OF_I, "ZREM i d"],
            whole: (":1~ *7~$1~a~$1~b~$1~c~$1~e~$1~f~$1~g~$1~h~ :0~ ", 6),
            refused: (":1~ *7~$1~a~$1~b~$1~c~$1~e~$1~f~$1~g~$1~h~ :0~ ", 6),
            ..REMOVAL
        },
        MOST_OF_ONE,
    ),
    (
        Change {
            words: "ZREM k b c e f g h a",
            behind: &[LISTING_OF_K, "ZREM k b c e f g h a"],
            whole: (":7~ *0~ :0~ ", 6),
            refused: (":7~ *0~ :0~ ", 6),
            ..REMOVAL
        },
        MOST_OF_EIGHT,
    ),
    (
        Change {
            words: "ZREM i a b c d e f g h",
            behind: &[LISTING_OF_I, "ZREM i a b c d e f g h"],
            whole: (":8~ *0~ :0~ ", 6),
            refused: (":8~ *0~ :0~ ", 6),
            ..REMOVAL
        },
        MOST_OF_EIGHT,
    ),
    (
        Change {
            words: "ZREMRANGEBYSCORE k -inf +inf",
            behind: &[LISTING_OF_K, "ZREMRANGEBYSCORE k -inf +inf"],
            whole: (":7~ *0~ :0~ ", 6),
            refused: (":7~ *0~ :0~ ", 6),
            ..REMOVAL
        },
        MOST_OF_A_RANGE,
    ),
    (
        Change {
            words: "ZREMRANGEBYSCORE k (6 8",
            behind: &[LISTING_OF_K, "ZREMRANGEBYSCORE k (6 8"],
            whole: (":2~ *5~$1~h~$1~a~$1~b~$1~e~$1~f~ :0~ ", 6),
            refused: (":2~ *5~$1~h~$1~a~$1~b~$1~e~$1~f~ :0~ ", 6),
            ..REMOVAL
        },
        MOST_OF_A_RANGE,
    ),
    (
        Change {
            words: "ZREMRANGEBYSCORE j 1 1",
            behind: &[LISTING_OF_J, "ZREMRANGEBYSCORE j 1 1"],
            whole: (":1~ *0~ :0~ ", 6),
            refused: (":1~ *0~ :0~ ", 6),
            ..REMOVAL
        },
        MOST_OF_A_RANGE,
    ),
    (
        Change {
            words: "ZREMRANGEBYSCORE i 4 (7",
            behind: &[LISTING_OF_I, "ZREMRANGEBYSCORE i 4 (7"],
            whole: (":3~ *5~$1~a~$1~b~$1~c~$1~g~$1~h~ :0~ ", 6),
            refused: (":3~ *5~$1~a~$1~b~$1~c~$1~g~$1~h~ :0~ ", 6),
            ..REMOVAL
        },
        MOST_OF_A_RANGE,
    ),
];

/// Whether it makes so many allocations at most, whichever of them is refused.
fn is_made(rt: &HostRuntime, removal: &Change, most: u64) -> Result<bool, Fail> {
    let made = allocations_of(rt, Work::Change(removal))?;
    Ok(1 <= made && made <= most)
}

#[test]
fn a_removal_is_made_whichever_allocation_is_refused(rt: HostRuntime) -> Result<(), Fail> {
    for (removal, most) in &REMOVALS {
        assert!(rt; is_made(&rt, removal, *most)?, "{}", removal.words);
    }
    Ok(())
}
