//! Owners of sets that are asked by words, with a log in memory and without one.

ghost use Rattle.std.specs.Prelude.{◌≡◌, ◌≤◌, ◌^◌, None};

use append_log::{FuseSink, Log, LogSink, LoggedOwner, MemorySink, NoSink, ReloadFault, reload};
use resp_wire::{Bytes, BytesList, FuseSource, MemorySource, Reply, Request, write_reply};
use sorted_sets::OneOwner;
use std::alloc::{AllocError, Allocator, Global};
use std::hash::RandomState;
use std::sync::ledger::{Blank, Ledger};
use std::test::*;
use zset_commands::{Command, Refusal};

pub type Owner<A> = OneOwner<RandomState, A>;

pub type Logged<S, L, A> = LoggedOwner<RandomState, S, L, A>;

/// A sink in memory one of whose calls may fail.
pub type Sink = FuseSink<MemorySink<Global>>;

/// Puts an argument behind others.
fn put_argument<A: Allocator + Copy>(
    alloc: A,
    argument: &str,
    arguments: &mut Vec<Bytes<A>, A>,
) -> Result<(), AllocError> {
    arguments.push(Bytes::from_slice(alloc, argument.as_bytes())?)?;
    Ok(())
}

/// The request of a text's arguments, which single spaces part.
pub fn request<A: Allocator + Copy>(alloc: A, text: &str) -> Result<Request<A>, Fail> {
    let mut arguments = Vec::new(alloc);
    for argument in text.split(' ') {
        put_argument(alloc, argument, &mut arguments)?;
    }
    match Request::new(BytesList::new(arguments)) {
        Some(request) => Ok(request),
        None => Err(Fail::new("no request")),
    }
}

pub fn command<A: Allocator + Copy>(alloc: A, text: &str) -> Result<Command<A>, Fail> {
    Command::read(alloc, request(alloc, text)?).map_err(|_| Fail::from("no command"))
}

/// Puts the bytes that a client gets, and a space behind them.
pub fn put_answer<A: Allocator + Copy>(
    answer: Result<Reply<A>, Refusal>,
    bytes: &mut Vec<u8, A>,
) -> Result<(), Fail> {
    let reply = match answer {
        Ok(reply) => reply,
        Err(refusal) => Reply::Fault(refusal.text()),
    };
    let written = write_reply(&reply, bytes);
    drop(reply);
    written?;
    Ok(bytes.push(b' ')?)
}

/// These bytes as text, an end of line as `~`, which is in none of them.
fn shown<A: Allocator + Copy>(alloc: A, bytes: &[u8]) -> Result<String<A>, Fail> {
    if bytes.contains(&b'~') {
        return Err(Fail::new("a tilde in a reply"));
    }
    match std::str::from_utf8(bytes) {
        Ok(text) => Ok(text.replace(alloc, "\r\n", "~")?),
        Err(_) => Err(Fail::new("no text")),
    }
}

/// Whether bytes are shown as this text.
pub fn are_shown<A: Allocator + Copy>(alloc: A, bytes: &[u8], wanted: &str) -> Result<bool, Fail> {
    let text = shown(alloc, bytes)?;
    let are_shown = text.as_str() == wanted;
    drop(text);
    Ok(are_shown)
}

/// The replies to commands in turn, each with a space behind it.
pub fn answers<A: Allocator + Copy>(
    alloc: A,
    owner: &mut Owner<A>,
    texts: &[&str],
) -> Result<String<A>, Fail>
    requires { owner.old.next ≡ None }
    ensures { owner.new.next ≡ None }
{
    let mut bytes = Vec::new(alloc);
    for text in texts {
        let command = command(alloc, text)?;
        let answer = owner.run(&command);
        drop(command);
        put_answer(answer, &mut bytes)?;
    }
    shown(alloc, &bytes)
}

/// Whether the replies to commands are these.
pub fn are_told<A: Allocator + Copy>(
    alloc: A,
    owner: &mut Owner<A>,
    texts: &[&str],
    wanted: &str,
) -> Result<bool, Fail>
    requires { owner.old.next ≡ None }
    ensures { owner.new.next ≡ None }
{
    let told = answers(alloc, owner, texts)?;
    let are_told = told.as_str() == wanted;
    drop(told);
    Ok(are_told)
}

/// Has an owner run commands none of which is refused.
pub fn accept<A: Allocator + Copy>(
    alloc: A,
    owner: &mut Owner<A>,
    texts: &[&str],
) -> Result<(), Fail>
    requires { owner.old.next ≡ None }
    ensures { owner.new.next ≡ None }
{
    let told = answers(alloc, owner, texts)?;
    let is_refused = told.contains("-ERR");
    drop(told);
    if is_refused {
        return Err(Fail::new("refused"));
    }
    Ok(())
}

/// Puts a member, with its number as its score.
fn put_member(alloc: Global, number: u64, text: &mut String) -> Result<(), AllocError> {
    let member = format!(in alloc; " {number} member-{number}")?;
    text.push_str(&member)
}

/// `ZADD k` with so many members, each with its number as its score.
pub fn addition(alloc: Global, members: u64) -> Result<String, AllocError> {
    let mut text = "ZADD k".to_string(alloc)?;
    for number in 0..members {
        put_member(alloc, number, &mut text)?;
    }
    Ok(text)
}

/// Puts the reply of an owner with a log.
fn put_reply<S: LogSink, L: Ledger, A: Allocator + Copy>(
    alloc: A,
    owner: &mut Logged<S, L, A>,
    text: &str,
    bytes: &mut Vec<u8, A>,
) -> Result<(), Fail> {
    let command = command(alloc, text)?;
    let answer = owner.run(&command);
    drop(command);
    put_answer(answer, bytes)
}

/// Puts the replies of an owner with a log.
pub fn put_replies<S: LogSink, L: Ledger, A: Allocator + Copy>(
    alloc: A,
    owner: &mut Logged<S, L, A>,
    texts: &[&str],
    bytes: &mut Vec<u8, A>,
) -> Result<(), Fail> {
    for text in texts {
        put_reply(alloc, owner, text, bytes)?;
    }
    Ok(())
}

/// Whether the replies of an owner with a log are these.
pub fn are_logged<S: LogSink, L: Ledger, A: Allocator + Copy>(
    alloc: A,
    owner: &mut Logged<S, L, A>,
    texts: &[&str],
    wanted: &str,
) -> Result<bool, Fail> {
    let mut bytes = Vec::new(alloc);
    put_replies(alloc, owner, texts, &mut bytes)?;
    are_shown(alloc, &bytes, wanted)
}

/// How many bytes a sink writes at once, which of its calls fails, 0 for none, how many records its log takes, and
/// whether that leaves its syncs to later.
#[derive(Clone, Copy)]
pub struct Limits {
    pub chunk: usize,
    pub fails_at: u64,
    pub max_records: u64,
    pub is_deferred: bool,
}

/// A sink that does not fail, and a log that takes all records of a test.
pub const AMPLE: Limits = Limits {
    chunk: 64,
    fails_at: 0,
    max_records: 10,
    is_deferred: false,
};

/// The owner of no sets over a log of such limits.
pub fn opened<L: Ledger>(
    rt: &HostRuntime,
    blank: Blank,
    limits: Limits,
) -> Result<Logged<Sink, L, Global>, Fail>
    requires name { blank.name ≡ L.name }
    requires parts { blank.parts ≡ L.parts }
    requires two { blank.parts ≡ 2 }
    requires piece { 1 ≤ limits.chunk }
    requires some { 1 ≤ limits.max_records }
    requires limited { limits.max_records ≤ 2 ^ 40 }
{
    let hasher = RandomState::new(rt)?;
    let sink = FuseSink::new(MemorySink::new(rt.alloc(), limits.chunk), limits.fails_at);
    let log = if limits.is_deferred {
        Log::<_, L>::deferred(blank, sink, limits.max_records)
    } else {
        Log::<_, L>::new(blank, sink, limits.max_records)
    };
    Ok(LoggedOwner::new(rt.alloc(), OneOwner::new(rt.alloc(), hasher), log))
}

/// The owner of no sets over a log of ten records that keeps nothing.
pub fn unkept<L: Ledger, A: Allocator + Copy>(
    alloc: A,
    hasher: RandomState,
    blank: Blank,
) -> Logged<NoSink, L, A>
    requires name { blank.name ≡ L.name }
    requires parts { blank.parts ≡ L.parts }
    requires two { blank.parts ≡ 2 }
{
    let log = Log::<_, L>::new(blank, NoSink::new(), 10);
    LoggedOwner::new(alloc, OneOwner::new(alloc, hasher), log)
}

/// The log of an owner whose sets are let go.
pub fn log_of<S: LogSink, L: Ledger, A: Allocator + Copy>(owner: Logged<S, L, A>) -> Log<S, L> {
    let (sets, log) = owner.into_parts();
    drop(sets);
    log
}

/// The version of a file, its records, its whole bytes and its torn ones, or why it is not reloaded.
pub type Found = Result<(u8, u64, u64, u64), ReloadFault>;

/// How many bytes a read gives at most, which of the reads fails, 0 for none, and how many are made at most.
#[derive(Clone, Copy)]
pub struct Reads {
    pub chunk: usize,
    pub fails_at: u64,
    pub most: u64,
}

/// Reads that do not fail, and give what they are asked for.
pub const WHOLE_READS: Reads = Reads {
    chunk: 65_536,
    fails_at: 0,
    most: 1000,
};

/// What a reload of these bytes finds.
fn found_in<A: Allocator + Copy>(
    alloc: A,
    owner: &mut Owner<A>,
    bytes: &[u8],
    reads: Reads,
) -> Found
    requires idle { owner.old.next ≡ None }
    requires some { 1 ≤ reads.chunk }
    requires few { reads.most ≤ 1000 }
    ensures { owner.new.next ≡ None }
{
    let mut source = FuseSource::new(MemorySource::new(bytes, reads.chunk), reads.fails_at);
    match reload(alloc, &mut source, owner, 35, reads.most) {
        Ok(it) => Ok((it.version, it.records, it.whole, it.torn)),
        Err(fault) => Err(fault),
    }
}

/// Whether a reload of these bytes gives that, and a command after it this reply.
pub fn reloads_to(
    rt: &HostRuntime,
    bytes: &[u8],
    reads: Reads,
    wanted: Found,
    asked: (&str, &str),
) -> Result<bool, Fail>
    requires some { 1 ≤ reads.chunk }
    requires few { reads.most ≤ 1000 }
{
    let alloc = rt.alloc();
    let (question, reply) = asked;
    let mut owner = OneOwner::new(alloc, RandomState::new(rt)?);
    let is_found = found_in(alloc, &mut owner, bytes, reads) == wanted;
    let is_told = are_told(alloc, &mut owner, &[question], reply);
    drop(owner);
    Ok(is_told? && is_found)
}
