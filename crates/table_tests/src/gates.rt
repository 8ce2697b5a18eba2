//! A worker's run that is held inside its place's lock while another worker asks for one: of another place it is
//! answered meanwhile, of the same place it waits unless both read.

use crate::tables::FOUR_PLACES;
use crate::workers::{AtOnce, MANY_TURNS, Manner, Texts, race_of};
use std::sync::Wait;
use std::test::*;
use std::thread::Threads;
use table_lifetime::Totals;

// So long a run is held that another waits for: long enough for that one to be answered, could it be.
const FEW_TURNS: u64 = 200_000;

// Commands that run before, the one that is held, the one beside it, their replies, and whether the one beside is
// answered while the other is held.
#[derive(Clone, Copy)]
struct Pair {
    before: &'static [&'static str],
    held: &'static str,
    beside: &'static str,
    replies: &'static str,
    is_beside: bool,
}

// What both are told, and the totals of their table. `locks` waits for the table's locks.
fn told_to<R: Threads + Wait + AllocGlobal + Sync>(
    rt: &HostRuntime,
    locks: &R,
    pair: &Pair,
) -> Result<(AtOnce, Totals), Fail> {
    let turns = if pair.is_beside {
        MANY_TURNS
    } else {
        FEW_TURNS
    };
    let texts = Texts {
        before: pair.before,
        first: &[pair.held],
        second: &[pair.beside],
    };
    race_of(rt, locks, FOUR_PLACES, Manner::Held(turns), texts)
}

// The totals of their table, where both are answered as wanted.
fn totals_of<R: Threads + Wait + AllocGlobal + Sync>(
    rt: &HostRuntime,
    locks: &R,
    pair: &Pair,
) -> Result<Option<Totals>, Fail> {
    let (told, totals) = told_to(rt, locks, pair)?;
    let replies = told.text(rt.alloc());
    let is_beside = !told.ran_out;
    drop(told);
    let is_right = replies?.as_str() == pair.replies && is_beside == pair.is_beside;
    Ok(if is_right { Some(totals) } else { None })
}

// Commands of two places. One Mutex round all sets would let the wait run out.
const OF_TWO_KEYS: Pair = Pair {
    before: &["ZADD b 1 y", "ZREM b y"],
    held: "ZADD a 1 x",
    beside: "ZCARD b",
    replies: ":1~ :0~",
    is_beside: true,
};

// Two readers of one place. One Mutex for each set would let the wait run out.
const READERS: Pair = Pair {
    before: &["ZADD k 1 a"],
    held: "ZCARD k",
    beside: "ZCARD k",
    replies: ":1~ :1~",
    is_beside: true,
};

// Pairs with the totals of their tables.
static COUNTED: [(Pair, Totals); 2] = [
    (
        OF_TWO_KEYS,
        Totals {
            sets: 1,
            members: 1,
            opened: 0,
            added: 2,
            removed: 1,
            records: 3,
        },
    ),
    (
        READERS,
        Totals {
            sets: 1,
            members: 1,
            opened: 0,
            added: 1,
            removed: 0,
            records: 1,
        },
    ),
];

#[test]
fn what_pairs_change_is_in_the_totals(rt: HostRuntime) -> Result<(), Fail> {
    for (pair, totals) in &COUNTED {
        let told = totals_of(&rt, &rt, pair)?;
        assert!(rt;
            told == Some(*totals),
            "{} beside {}",
            pair.held,
            pair.beside
        );
    }
    Ok(())
}

// Two commands that read ranges, whose cuts are made before.
const OF_RANGES: Pair = Pair {
    before: &["ZADD k 1 a 3 b 5 c 7 d", "ZCOUNT k 2 5"],
    held: "ZCOUNT k 2 5",
    beside: "ZCOUNT k 2 5",
    replies: ":2~ :2~",
    is_beside: true,
};

// Two commands of one place of which one at least changes it. Each reply tells which of the two came first.
const IN_TURN: Pair = Pair {
    before: &["ZADD k 1 a", "ZCOUNT k 0 5"],
    held: "ZADD k 2 b",
    beside: "ZCARD k",
    replies: ":1~ :2~",
    is_beside: false,
};

static PAIRS: [Pair; 9] = [
    // A reading of a range that takes its set's lock alone would let the wait run out.
    OF_RANGES,
    Pair {
        beside: "ZRANGEBYSCORE k 2 5",
        replies: ":2~ *2~$1~b~$1~c~",
        ..OF_RANGES
    },
    Pair {
        held: "ZRANGEBYSCORE k 2 5 LIMIT 1 1",
        beside: "ZRANGEBYSCORE k 2 5 LIMIT 0 1",
        replies: "*1~$1~c~ *1~$1~b~",
        ..OF_RANGES
    },
    Pair {
        held: "ZRANGEBYSCORE k 2 5 WITHSCORES",
        replies: "*4~$1~b~$1~3~$1~c~$1~5~ :2~",
        ..OF_RANGES
    },
    // A gate that is called outside the lock would let the run beside be answered.
    IN_TURN,
    Pair {
        beside: "ZADD k 3 b",
        replies: ":1~ :0~",
        ..IN_TURN
    },
    Pair {
        held: "ZCARD k",
        beside: "ZADD k 2 b",
        replies: ":1~ :1~",
        ..IN_TURN
    },
    Pair {
        held: "ZCOUNT k 0 5",
        beside: "ZADD k 2 b",
        replies: ":1~ :1~",
        ..IN_TURN
    },
    Pair {
        held: "ZCOUNT k 0 5",
        beside: "ZREM k a",
        replies: ":1~ :1~",
        ..IN_TURN
    },
];

#[test]
fn a_held_place_leaves_readers(rt: HostRuntime) -> Result<(), Fail> {
    for pair in &PAIRS {
        let told = totals_of(&rt, &rt, pair)?;
        assert!(rt; told.is_some(), "{} beside {}", pair.held, pair.beside);
    }
    Ok(())
}
