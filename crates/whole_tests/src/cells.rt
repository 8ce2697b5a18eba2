//! Each allocation of a cell's answer refused in turn, under its lock alone and beside other readers. The log is called
//! for the records of changes that are made, and for nothing else.

ghost use Rattle.std.specs.Prelude.{◌≡◌, ◌≤◌, None, IsSome, IfOk};
ghost use Rattle.zset_commands.specs.AbstractCommand.{key_of};

use crate::ample_memory::{Ample, LISTING, Outcome, command, has_bytes, with_memory};
use append_log::{FuseSink, Log, LogSink, MemorySink};
use fuse_alloc::Fuse;
use resp_wire::Reply;
use set_table::{Answer, Cell, Shares};
use sorted_sets::{OneOwner, ZSet};
use std::alloc::{AllocError, Allocator, Global};
use std::hash::RandomState;
use std::marker::Brand;
use std::sync::ledger::{Blank, Ledger};
use std::sync::{Mutex, Wait};
use std::test::*;
use zset_commands::{Command, Refusal};

/// The call by which a cell is asked.
#[derive(Clone, Copy)]
enum Asked {
    Run,
    Ready,
}

/// What answers commands on keys. Helpers see a cell as this alone, so that their proofs are short.
trait Answers<R, A: Allocator> {
    fn reply(&mut self, rt: &R, asked: Asked, command: &Command<A>) -> Result<Reply<A>, Refusal>;
}

/// A cell, the shares of a pass, and a log.
#[derive(Drop)]
struct Single<S: LogSink, L: Ledger, A: Allocator + Copy> {
    cell: Cell<RandomState, L, A>,
    shares: Shares,
    log: Mutex<Log<S, L>>,
}

fn reply_of<A: Allocator>(answer: Result<Answer<'_, A>, Refusal>) -> Result<Reply<A>, Refusal> {
    match answer {
        Ok(answer) => Ok(answer.into_reply()),
        Err(refusal) => Err(refusal),
    }
}

/// The reply of a cell that is not changed.
fn ready_reply<L: Ledger, A: Allocator + Copy>(
    cell: &Cell<RandomState, L, A>,
    shares: &Shares,
    command: &Command<A>,
) -> Result<Reply<A>, Refusal>
    requires keyed { IsSome (key_of command.now.meaning) }
{
    match cell.ready(command, shares) {
        Some(answer) => reply_of(answer),
        None => Err(Refusal::OutOfStep),
    }
}

impl<R: Wait, S: LogSink, L: Ledger, A: Allocator + Copy> Answers<R, A> for Single<S, L, A> {
    fn reply(&mut self, rt: &R, asked: Asked, command: &Command<A>) -> Result<Reply<A>, Refusal> {
        if command.key().is_none() {
            return Err(Refusal::OutOfStep);
        }
        match asked {
            Asked::Run => reply_of(self.cell.run(rt, command, &mut self.shares, &self.log)),
            Asked::Ready => ready_reply(&self.cell, &self.shares, command),
        }
    }
}

/// How many records a log has, and how often its sink was called.
#[derive(Clone, Copy, PartialEq, Eq)]
struct Appended {
    records: u64,
    calls: u64,
}

/// The numbers of a log over a sink that counts its calls.
fn appended_to<S: LogSink + Drop, L: Ledger>(log: Log<FuseSink<S>, L>) -> Appended {
    let records = log.appended();
    let sink = log.into_sink();
    let calls = sink.calls();
    drop(sink);
    Appended { records, calls }
}

/// A command by its words, how it is asked, and the log's numbers once it is answered.
#[derive(Clone, Copy)]
struct Question<'w> {
    asked: Asked,
    words: &'w str,
    wanted: Appended,
}

/// A question, which of the command's allocations the fuse refuses, and what ample memory gives.
#[derive(Drop)]
struct Trial<'t> {
    question: Question<'t>,
    fuse: &'t Fuse<Global>,
    allocation: u64,
    ample: &'t Ample,
}

fn empty_set<A: Allocator + Copy>(
    alloc: A,
    hasher: RandomState,
) -> Result<ZSet<RandomState, A>, AllocError>
    ensures { IfOk result (λ set. set.next ≡ None) }
{
    let owner = OneOwner::new(alloc, hasher);
    let set = owner.empty_set();
    drop(owner);
    set
}

/// A cell with this set, and a log over a sink.
fn opened_cell<S: LogSink + Drop, L: Ledger, A: Allocator + Copy>(
    alloc: A,
    blank: Blank,
    sink: S,
    set: ZSet<RandomState, A>,
) -> Result<Single<S, L, A>, AllocError>
    requires idle { set.next ≡ None }
    requires name { blank.name ≡ L.name }
    requires parts { blank.parts ≡ L.parts }
    requires many { 2 ≤ blank.parts }
{
    let mut log = Log::<_, L>::new(blank, sink, 1 << 40);
    let share = log.split();
    match Cell::new(alloc, 0, set, 1000, 1, share) {
        Ok(cell) => Ok(Single {
            cell,
            shares: Shares::new(0, 0, 0),
            log: Mutex::new(log),
        }),
        Err(error) => {
            drop(log);
            Err(error)
        }
    }
}

/// Runs a command that is not refused.
fn run<R, A: Allocator + Copy, C: Answers<R, A>>(
    rt: &R,
    alloc: A,
    cell: &mut C,
    words: &str,
) -> Result<(), Fail> {
    let command = command(alloc, words)?;
    let reply = cell.reply(rt, Asked::Run, &command);
    drop(command);
    match reply {
        Ok(reply) => {
            drop(reply);
            Ok(())
        }
        Err(_) => Err(Fail::new("refused")),
    }
}

/// Runs the commands that set up the set.
fn set_up<R, A: Allocator + Copy, C: Answers<R, A>>(
    rt: &R,
    alloc: A,
    cell: &mut C,
) -> Result<(), Fail> {
    for words in &SETUP {
        run(rt, alloc, cell, words)?;
    }
    Ok(())
}

/// Whether a reply has these bytes, or None where it was refused for want of memory.
fn has_reply<A: Allocator + Copy>(
    alloc: A,
    reply: Result<Reply<A>, Refusal>,
    wanted: &[u8],
) -> Result<Option<bool>, Fail> {
    match reply {
        Ok(reply) => Ok(Some(has_bytes(alloc, reply, wanted)?)),
        Err(Refusal::NoMemory) => Ok(None),
        Err(_) => Err(Fail::new("another refusal")),
    }
}

/// What comes of asking with the fuse armed.
fn ask<R, A: Allocator + Copy, C: Answers<R, A>>(
    rt: &R,
    alloc: A,
    cell: &mut C,
    trial: &Trial<'_>,
) -> Result<Outcome, Fail> {
    let command = command(alloc, trial.question.words)?;
    trial.fuse.arm(trial.allocation);
    let reply = cell.reply(rt, trial.question.asked, &command);
    let is_whole = trial.fuse.is_armed();
    trial.fuse.arm(0);
    drop(command);
    let has_reply = has_reply(alloc, reply, &trial.ample.reply)?;
    Ok(Outcome::new(is_whole, has_reply))
}

/// Whether the reply to a command that is not refused has these bytes.
fn is_told<R, A: Allocator + Copy, C: Answers<R, A>>(
    rt: &R,
    alloc: A,
    cell: &mut C,
    words: &str,
    wanted: &[u8],
) -> Result<bool, Fail> {
    let command = command(alloc, words)?;
    let reply = cell.reply(rt, Asked::Run, &command);
    drop(command);
    match has_reply(alloc, reply, wanted)? {
        Some(is_told) => Ok(is_told),
        None => Err(Fail::new("refused")),
    }
}

/// Refused, if a command that was refused for want of memory left the set, and is told as with memory now.
fn recovered<R, A: Allocator + Copy, C: Answers<R, A>>(
    rt: &R,
    alloc: A,
    cell: &mut C,
    words: &str,
    ample: &Ample,
) -> Result<Outcome, Fail> {
    let has_stayed = is_told(rt, alloc, cell, LISTING, &ample.before)?;
    let is_made = is_told(rt, alloc, cell, words, &ample.reply)?;
    Ok(if has_stayed && is_made {
        Outcome::Refused
    } else {
        Outcome::Wrong
    })
}

/// Sets up the set, and refuses one allocation of a command behind it.
fn refuse_one<R, A: Allocator + Copy, C: Answers<R, A>>(
    rt: &R,
    alloc: A,
    cell: &mut C,
    trial: &Trial<'_>,
) -> Result<Outcome, Fail> {
    set_up(rt, alloc, cell)?;
    match ask(rt, alloc, cell, trial)? {
        Outcome::Refused => recovered(rt, alloc, cell, trial.question.words, trial.ample),
        outcome => Ok(outcome),
    }
}

/// The same over a cell that is let go then. The command is answered once, at once or asked again, and the log has the
/// numbers that are wanted then: so the refused call did not call the sink.
fn refuse_in<R: Wait, S: LogSink + Drop, L: Ledger, A: Allocator + Copy>(
    rt: &R,
    alloc: A,
    single: Single<FuseSink<S>, L, A>,
    trial: &Trial<'_>,
) -> Result<Outcome, Fail> {
    let mut single = single;
    let outcome = refuse_one(rt, alloc, &mut single, trial);
    let Single {
        cell,
        shares: _,
        log,
    } = single;
    drop(cell);
    let is_logged = appended_to(log.into_inner()) == trial.question.wanted;
    let outcome = outcome?;
    Ok(if is_logged { outcome } else { Outcome::Wrong })
}

/// The same over a new cell.
fn refuse_anew<R: Wait, S: LogSink + Drop, L: Ledger, A: Allocator + Copy>(
    rt: &R,
    alloc: A,
    blank: Blank,
    hasher: RandomState,
    sink: S,
    trial: &Trial<'_>,
) -> Result<Outcome, Fail>
    requires name { blank.name ≡ L.name }
    requires parts { blank.parts ≡ L.parts }
    requires many { 2 ≤ blank.parts }
{
    let sink = FuseSink::new(sink, 0);
    let set = empty_set(alloc, hasher)?;
    let single = opened_cell::<_, L, _>(alloc, blank, sink, set)?;
    refuse_in(rt, alloc, single, trial)
}

/// The same with memory that a fuse guards.
fn refuse<L: Ledger, R: Wait>(
    rt: &HostRuntime,
    locks: &R,
    blank: Blank,
    question: Question<'_>,
    allocation: u64,
    ample: &Ample,
) -> Result<Outcome, Fail>
    requires name { blank.name ≡ L.name }
    requires parts { blank.parts ≡ L.parts }
    requires many { 2 ≤ blank.parts }
{
    let hasher = RandomState::new(rt)?;
    let fuse = Fuse::new(rt.alloc(), 0);
    let sink = MemorySink::new(rt.alloc(), 65_536);
    let trial = Trial {
        question,
        fuse: &fuse,
        allocation,
        ample,
    };
    refuse_anew::<_, _, L, _>(locks, &fuse, blank, hasher, sink, &trial)
}

/// How many allocations of the command were refused, one in each run, until a run had no more. `locks` waits for
/// the log's lock.
fn refused<R: Wait>(rt: &HostRuntime, locks: &R, question: Question<'_>) -> Result<u64, Fail> {
    let ample = with_memory(rt, &SETUP, question.words)?;
    for allocation in 1..1000u64 {
        match refuse::<Brand, _>(rt, locks, Blank::new(2), question, allocation, &ample)? {
            Outcome::Whole => return Ok(allocation - 1),
            Outcome::Refused => {}
            Outcome::Made | Outcome::Wrong => {
                return Err(Fail::new("neither refused nor as with memory"));
            }
        }
    }
    Err(Fail::new("no end"))
}

/// A set whose rows from 4 to 6 stand in pieces and wait for nothing, and one row that waits behind them.
static SETUP: [&str; 3] = [
    "ZADD k 1 a 5 b 6 a-member-that-takes-memory 9 d",
    "ZRANGEBYSCORE k 4 6",
    "ZADD k 12 e",
];

/// The log's numbers with the records of the set-up alone: each is one write and one sync.
const READ: Appended = Appended {
    records: 2,
    calls: 4,
};

/// The same with one record more.
const CHANGED: Appended = Appended {
    records: 3,
    calls: 6,
};

/// How a command is asked, the log's numbers behind it, and the least and the greatest number of its allocations.
static COMMANDS: [(Asked, &str, Appended, u64, u64); 11] = [
    (Asked::Run, "ZADD k 3 a 7 f", CHANGED, 1, 999),
    (Asked::Run, "ZADD k INCR 4 b", CHANGED, 1, 999),
    (Asked::Run, "ZREM k b", CHANGED, 1, 999),
    (Asked::Run, "ZREMRANGEBYSCORE k 5 9", CHANGED, 1, 999),
    (Asked::Run, "ZCOUNT k 2 9", READ, 1, 999),
    (Asked::Run, "ZRANGEBYSCORE k 2 13 WITHSCORES", READ, 1, 999),
    (Asked::Run, "ZSCORE k a", READ, 0, 0),
    (Asked::Ready, "ZRANGEBYSCORE k 4 6 WITHSCORES", READ, 2, 999),
    (Asked::Ready, "ZCOUNT k 4 6", READ, 0, 0),
    (Asked::Ready, "ZCARD k", READ, 0, 0),
    (Asked::Ready, "ZSCORE k a", READ, 0, 0),
];

#[test]
fn each_command_is_refused_or_answered(rt: HostRuntime) -> Result<(), Fail> {
    for (asked, words, wanted, least, most) in &COMMANDS {
        let question = Question {
            asked: *asked,
            words,
            wanted: *wanted,
        };
        let made = refused(&rt, &rt, question)?;
        assert!(rt; *least <= made && made <= *most, "{words}: {made}");
    }
    Ok(())
}
