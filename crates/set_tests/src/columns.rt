ghost use Rattle.std.specs.Prelude.{◌≡◌, None, false, IfOk, IsTrue};
ghost use Rattle.zset_commands.specs.AbstractCommand.{is_writing};

use crate::owners::{command, expect_that, text_of};
use crate::trials::{SetTrial, expect_of_sets};
use resp_wire::Reply;
use ripple_column::Column;
use sorted_sets::ZSet;
use std::alloc::{Allocator, Global};
use std::hash::RandomState;
use std::test::Fail;
use zset_commands::Command;

pub type Set = ZSet<RandomState, Global>;

/// The reply to a command that changes nothing.
fn ask(set: &mut Set, command: &Command<Global>) -> Result<Reply<Global>, Fail>
    requires idle { set.old.next ≡ None }
    requires reading { is_writing command.now.meaning ≡ false }
    ensures { set.new.next ≡ None }
{
    if command.key().is_none() {
        return Err(Fail::new("no key"));
    }
    Ok(set.answer(command)?)
}

/// The reply to a command that changes sets.
fn change(set: &mut Set, command: &Command<Global>) -> Result<Reply<Global>, Fail>
    requires idle { set.old.next ≡ None }
    requires writing { IsTrue (is_writing command.now.meaning) }
    ensures { set.new.next ≡ None }
{
    match set.prepare(command) {
        Err(_) => Err(Fail::new("refused")),
        Ok(_) => Ok(set.commit()),
    }
}

/// The reply to a command that is run on a set, as an owner runs it.
fn reply_to(alloc: Global, set: &mut Set, text: &str) -> Result<Reply<Global>, Fail>
    requires { set.old.next ≡ None }
    ensures { set.new.next ≡ None }
{
    let command = command(alloc, text)?;
    let reply = if command.writes() {
        change(set, &command)
    } else {
        ask(set, &command)
    };
    drop(command);
    reply
}

/// Runs a command on a set, whatever the reply.
pub fn run(alloc: Global, set: &mut Set, text: &str) -> Result<(), Fail>
    requires { set.old.next ≡ None }
    ensures { set.new.next ≡ None }
{
    let reply = reply_to(alloc, set, text)?;
    drop(reply);
    Ok(())
}

/// The bytes of the reply to a command that is run on a set.
fn shown_reply(alloc: Global, set: &mut Set, text: &str) -> Result<String, Fail>
    requires { set.old.next ≡ None }
    ensures { set.new.next ≡ None }
{
    let reply = reply_to(alloc, set, text)?;
    let shown = text_of(alloc, &reply);
    drop(reply);
    shown
}

/// Runs a command on a set: the reply is as wanted.
fn expect_run(alloc: Global, set: &mut Set, text: &str, want: &str) -> Result<(), Fail>
    requires { set.old.next ≡ None }
    ensures { set.new.next ≡ None }
{
    let reply = shown_reply(alloc, set, text)?;
    let is_wanted = reply.as_str() == want;
    drop(reply);
    expect_that(is_wanted, text)
}

// How many rows a column has, how many wait to come in and to go out, and its pivots.
fn state_of(alloc: Global, column: &Column<Global>) -> Result<String, Fail> {
    let (coming, leaving) = column.pending();
    let mut text = format!(in alloc; "{} rows +{} -{}", column.len(), coming, leaving)?;
    for pivot in column.pivot_list() {
        note_pivot(alloc, pivot, &mut text)?;
    }
    Ok(text)
}

// Appends a pivot.
fn note_pivot<A: Allocator + Copy>(
    alloc: A,
    pivot: &(i64, usize),
    out: &mut String<A>,
) -> Result<(), Fail> {
    let (value, place) = *pivot;
    let text = format!(in alloc; " ({value}, {place})")?;
    let noted = out.push_str(&text);
    drop(text);
    Ok(noted?)
}

// A column is in this state.
fn expect_state(alloc: Global, column: &Column<Global>, want: &str) -> Result<(), Fail> {
    let state = state_of(alloc, column)?;
    let told = expect_that(state.as_str() == want, &state);
    drop(state);
    told
}

/// Commands in turn on one set, with their replies and with the column that they leave.
pub fn expect(alloc: Global, set: &mut Set, rows: &[(&str, &str, &str)]) -> Result<(), Fail>
    requires { set.old.next ≡ None }
{
    for (text, reply, state) in rows {
        expect_run(alloc, set, text, reply)?;
        expect_state(alloc, set.column(), state)?;
    }
    Ok(())
}

/// Commands with the column that each leaves: what waits in a range is merged, and its cuts become pivots.
const MERGED_AND_CRACKED: &[(&str, &str, &str)] = &[
    (
        "ZADD cracked 1 m1 2 m2 3 m3 4 m4 5 m5 6 m6 7 m7 8 m8 9 m9 10 m10",
        ":10~",
        "0 rows +10 -0",
    ),
    ("ZCOUNT cracked -inf +inf", ":10~", "10 rows +0 -0"),
    ("ZCOUNT cracked 3 6", ":4~", "10 rows +0 -0 (3, 2) (7, 6)"),
    (
        "ZADD cracked 1 x 5 y 9 z",
        ":3~",
        "10 rows +3 -0 (3, 2) (7, 6)",
    ),
    ("ZREM cracked y", ":1~", "10 rows +2 -0 (3, 2) (7, 6)"),
    (
        "ZRANGEBYSCORE cracked 0 10",
        "*12~$2~m1~$1~x~$2~m2~$2~m3~$2~m4~$2~m5~$2~m6~$2~m7~$2~m8~$2~m9~$1~z~$3~m10~",
        "12 rows +0 -0 (0, 0) (3, 3) (7, 7) (11, 12)",
    ),
];

const LEFT: &str = "8 rows +0 -0 (0, 0) (3, 3) (4, 4) (7, 4) (8, 4) (11, 8)";

const NONE_LEFT: &str = "0 rows +0 -0 (0, 0) (3, 0) (4, 0) (7, 0) (8, 0) (11, 0)";

/// Commands with the column that each leaves, where twelve members stand between pivots and ranges of them go: those
/// behind them and the pivots close up, and no pivot goes.
const CLOSED_UP: &[(&str, &str, &str)] = &[
    (
        "ZADD closed 1 m1 2 m2 3 m3 4 m4 5 m5 6 m6",
        ":6~",
        "0 rows +6 -0",
    ),
    (
        "ZADD closed 7 m7 8 m8 9 m9 10 m10 1 x 9 z",
        ":6~",
        "0 rows +12 -0",
    ),
    ("ZCOUNT closed 3 6", ":4~", "4 rows +8 -0 (3, 0) (7, 4)"),
    (
        "ZCOUNT closed 0 10",
        ":12~",
        "12 rows +0 -0 (0, 0) (3, 3) (7, 7) (11, 12)",
    ),
    ("ZREMRANGEBYSCORE closed (3 7", ":4~", LEFT),
    ("ZCOUNT closed 0 10", ":8~", LEFT),
    ("ZREMRANGEBYSCORE closed 9 1", ":0~", LEFT),
    ("ZREMRANGEBYSCORE closed -inf +inf", ":8~", NONE_LEFT),
    ("ZCARD closed", ":0~", NONE_LEFT),
];

/// Commands with the column that each leaves, where rows wait in a range that is removed, and outside it: those in it are
/// merged first and leave with it, and those outside stay.
const MERGED_AND_REMOVED: &[(&str, &str, &str)] = &[
    ("ZADD waits 1 a 5 b 9 c", ":3~", "0 rows +3 -0"),
    ("ZCOUNT waits -inf +inf", ":3~", "3 rows +0 -0"),
    ("ZADD waits 5 d 8 e", ":2~", "3 rows +2 -0"),
    ("ZREM waits c", ":1~", "3 rows +2 -1"),
    (
        "ZREMRANGEBYSCORE waits 4 6",
        ":2~",
        "2 rows +1 -1 (4, 1) (7, 1)",
    ),
    (
        "ZREMRANGEBYSCORE waits 4 6",
        ":0~",
        "2 rows +1 -1 (4, 1) (7, 1)",
    ),
    (
        "ZRANGEBYSCORE waits -inf +inf",
        "*2~$1~a~$1~e~",
        "2 rows +0 -0 (4, 1) (7, 1)",
    ),
];

/// Commands with the column that each leaves, where a member's scores lie in other pieces.
const MOVED: &[(&str, &str, &str)] = &[
    ("ZADD moved 1 a 5 b 9 c", ":3~", "0 rows +3 -0"),
    ("ZCOUNT moved -inf +inf", ":3~", "3 rows +0 -0"),
    ("ZCOUNT moved 4 6", ":1~", "3 rows +0 -0 (4, 1) (7, 2)"),
    ("ZADD moved CH 8 a", ":1~", "3 rows +1 -1 (4, 1) (7, 2)"),
    ("ZCOUNT moved -inf (4", ":0~", "2 rows +1 -0 (4, 0) (7, 1)"),
    ("ZCOUNT moved 4 6", ":1~", "2 rows +1 -0 (4, 0) (7, 1)"),
    ("ZCOUNT moved 7 +inf", ":2~", "3 rows +0 -0 (4, 0) (7, 1)"),
    ("ZADD moved CH 2 a", ":1~", "3 rows +1 -1 (4, 0) (7, 1)"),
    ("ZCOUNT moved -inf (4", ":1~", "4 rows +0 -1 (4, 1) (7, 2)"),
    ("ZCOUNT moved 7 +inf", ":1~", "3 rows +0 -0 (4, 1) (7, 2)"),
];

/// Commands with the column that each leaves, where the last member goes and another comes.
const EMPTIED: &[(&str, &str, &str)] = &[
    ("ZADD emptied 1 a", ":1~", "0 rows +1 -0"),
    ("ZCOUNT emptied 0 2", ":1~", "1 rows +0 -0 (0, 0) (3, 1)"),
    ("ZREM emptied a", ":1~", "1 rows +0 -1 (0, 0) (3, 1)"),
    (
        "ZRANGEBYSCORE emptied 0 2",
        "*0~",
        "0 rows +0 -0 (0, 0) (3, 0)",
    ),
    ("ZCARD emptied", ":0~", "0 rows +0 -0 (0, 0) (3, 0)"),
    ("ZADD emptied 1 b", ":1~", "0 rows +1 -0 (0, 0) (3, 0)"),
    ("ZCOUNT emptied 0 2", ":1~", "1 rows +0 -0 (0, 0) (3, 1)"),
];

// Counts the scores from `low` on, in a range of its own.
fn count_from(alloc: Global, set: &mut Set, low: u32) -> Result<(), Fail>
    requires { set.old.next ≡ None }
    ensures { set.new.next ≡ None }
{
    let text = format!(in alloc; "ZCOUNT k {} {}", low, low.saturating_add(4))?;
    let ran = run(alloc, set, &text);
    drop(text);
    ran
}

// Counts 2,048 ranges, whose cuts are 4,096 pivots.
fn count_all(alloc: Global, set: &mut Set) -> Result<(), Fail>
    requires { set.old.next ≡ None }
    ensures { set.new.next ≡ None }
{
    for i in 0..2048u32 {
        count_from(alloc, set, 10 * i)?;
    }
    Ok(())
}

// The column of a set shows so many pivots.
fn expect_pivots(set: &Set, count: usize, text: &str) -> Result<(), Fail> {
    expect_that(set.column().pivot_list().len() == count, text)
}

/// As many pivots as there may be, and one range more.
pub fn expect_few_pivots(alloc: Global, set: &mut Set) -> Result<(), Fail>
    requires { set.old.next ≡ None }
{
    expect_run(alloc, set, "ZADD k 5 a", ":1~")?;
    count_all(alloc, set)?;
    expect_pivots(set, 4096, "all pivots")?;
    count_from(alloc, set, 50001)?;
    expect_pivots(set, 2, "two pivots")
}

static TRIALS: [SetTrial; 6] = [
    SetTrial::Rows(MERGED_AND_CRACKED),
    SetTrial::Rows(CLOSED_UP),
    SetTrial::Rows(MERGED_AND_REMOVED),
    SetTrial::Rows(MOVED),
    SetTrial::Rows(EMPTIED),
    SetTrial::FewPivots,
];

#[test]
fn ranges_merge_crack_and_close_up(rt: HostRuntime) -> Result<(), Fail> {
    expect_of_sets(&rt, &TRIALS)
}
