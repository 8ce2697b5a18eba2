//! Worked examples on one thread: places of keys, and what answers tell beside their replies.

use crate::tables::{DEFERRED, Example, FOUR_PLACES, Plan, SILENCE, Talk, expect_each};
use std::test::*;

// Places of which each set is run so often at most.
static SPENT: [Example; 3] = [
    (
        "a place that answered as many runs as it may still answers under the shared lock",
        Talk {
            plan: Plan {
                max_runs: 2,
                ..FOUR_PLACES
            },
            first: &["ZADD k 1 a", "ZADD k 1 a", "ZADD k 2 b", "ZCARD k"],
            ..SILENCE
        },
        ":1~ :0~ r12 :1~ ",
    ),
    (
        "ranges that a spent place is ready for are read, others refused",
        Talk {
            plan: Plan {
                max_runs: 2,
                ..FOUR_PLACES
            },
            first: &[
                "ZADD k 1 a 5 b",
                "ZCOUNT k 3 6",
                "ZCOUNT k 3 6",
                "ZCOUNT k 6 3",
                "ZCOUNT k 4 6",
                "ZCOUNT k -inf +inf",
            ],
            ..SILENCE
        },
        ":2~ :1~ :1~ :0~ r12 r12 ",
    ),
    (
        "the runs of both workers are counted at their place together, and those of another place apart",
        Talk {
            plan: Plan {
                max_runs: 3,
                ..FOUR_PLACES
            },
            first: &["ZADD k 1 a"],
            second: &[
                "ZADD k 1 a",
                "ZADD k 1 a",
                "ZADD k 1 a",
                "ZADD j 1 x",
                "ZCARD k",
            ],
            ..SILENCE
        },
        ":1~ :0~ :0~ r12 :1~ :1~ ",
    ),
];

#[test]
fn spent_places_answer_under_the_shared_lock(rt: HostRuntime) -> Result<(), Fail> {
    expect_each(&rt, &rt, &SPENT)
}

// Places of keys.
static PLACES: [Example; 4] = [
    (
        "the walk of c begins at the place of a, and b finds none left",
        Talk {
            plan: Plan {
                places: 2,
                ..FOUR_PLACES
            },
            first: &["claim a", "claim c", "claim a", "find b", "claim b"],
            second: &["find a"],
            ..SILENCE
        },
        "0 1 0 none r11 0 ",
    ),
    (
        "the walks of both begin at place 3, which the first by its bytes has",
        Talk {
            sets: &["ZADD Aa 1 x", "ZADD BB 1 y"],
            first: &["find Aa", "find BB"],
            ..SILENCE
        },
        "3 0 ",
    ),
    (
        "whichever came first",
        Talk {
            sets: &["ZADD BB 1 y", "ZADD Aa 1 x"],
            first: &["find Aa", "find BB"],
            ..SILENCE
        },
        "3 0 ",
    ),
    (
        "three keys of one hash and a fourth are told apart",
        Talk {
            first: &["claim Aa", "claim BB", "claim C#", "claim a"],
            ..SILENCE
        },
        "3 0 1 2 ",
    ),
];

#[test]
fn keys_find_their_places(rt: HostRuntime) -> Result<(), Fail> {
    expect_each(&rt, &rt, &PLACES)
}

// What an answer tells beside its reply: its place, the counts that the command found there, and how many members came
// in and left by it.
static COUNTS: [Example; 2] = [
    (
        "of two pairs that name one member, the first adds it and the second changes it",
        Talk {
            first: &["counts ZADD k 1 a 2 a"],
            ..SILENCE
        },
        ":1~@0:0+0-0:+1-0 ",
    ),
    (
        "the set had one member at opening",
        Talk {
            sets: &["ZADD k 9 z"],
            first: &[
                "counts ZADD k 1 a 2 a",
                "counts ZADD k CH 3 b 4 z",
                "counts ZADD k INCR 1 c",
                "counts ZREM k a z x",
                "counts ZCARD k",
                "counts ZCOUNT k 2 9",
                "counts ZREMRANGEBYSCORE k 2 9",
                "counts ZSCORE k c",
            ],
            ..SILENCE
        },
        ":1~@0:1+0-0:+1-0 :2~@0:1+1-0:+1-0 $1~1~@0:1+2-0:+1-0 :2~@0:1+3-0:+0-2 :2~@0:1+3-2:+0-0 :1~@0:1+3-2:+0-0 :1~@0:1+3-2:+0-1 $1~1~@0:1+3-3:+0-0 ",
    ),
];

#[test]
fn counts_are_told(rt: HostRuntime) -> Result<(), Fail> {
    expect_each(&rt, &rt, &COUNTS)
}

// Which records answers may tell of.
static RECORDS: [Example; 1] = [(
    "an answer tells of its set's last change, whoever made it: one that changes nothing too, and a refusal",
    Talk {
        plan: DEFERRED,
        sets: &["ZADD i 3 z"],
        first: &[
            "record ZADD k 1 a",
            "record ZADD j 1 a",
            "record ZCARD k",
            "record ZADD k 1 a",
            "record PING",
            "record ZCARD nothing",
        ],
        second: &[
            "record ZRANGEBYSCORE j 0 5",
            "record ZADD k INCR 9223372036854775807 a",
            "record ZREM k a",
            "record ZSCORE k a",
            "record ZCARD i",
        ],
    },
    ":1~1 :1~2 :1~1 :0~1 +PONG~0 :0~0 *1~$1~a~2 r131 :1~3 $-1~3 :1~0 ",
)];

#[test]
fn an_answer_tells_of_the_last_record_of_its_set(rt: HostRuntime) -> Result<(), Fail> {
    expect_each(&rt, &rt, &RECORDS)
}
