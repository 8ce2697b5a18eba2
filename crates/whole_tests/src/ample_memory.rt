//! What commands are told by an owner with ample memory, by which those whose allocations are refused are judged.

use resp_wire::{Bytes, BytesList, Reply, Request, write_reply};
use session_core::Exec;
use sorted_sets::OneOwner;
use std::alloc::{Allocator, Global};
use std::hash::RandomState;
use std::test::Fail;
use zset_commands::Command;

/// The request whose words stand between single blanks, in memory of the owner's kind.
pub fn request<A: Allocator + Copy>(alloc: A, words: &str) -> Result<Request<A>, Fail> {
    let mut list = Vec::new(alloc);
    for word in words.split(' ') {
        list.push(Bytes::from_slice(alloc, word.as_bytes())?)?;
    }
    match Request::new(BytesList::new(list)) {
        Some(request) => Ok(request),
        None => Err(Fail::new("no request")),
    }
}

/// The command whose words stand between single blanks.
pub fn command<A: Allocator + Copy>(alloc: A, words: &str) -> Result<Command<A>, Fail> {
    Command::read(alloc, request(alloc, words)?).map_err(|_| Fail::from("no command"))
}

/// Whether a reply has these bytes.
pub fn has_bytes<A: Allocator + Copy>(
    alloc: A,
    reply: Reply<A>,
    wanted: &[u8],
) -> Result<bool, Fail> {
    let mut bytes = Vec::new(alloc);
    write_bytes(reply, &mut bytes)?;
    Ok(bytes.as_slice() == wanted)
}

fn write_bytes<A: Allocator>(reply: Reply<A>, out: &mut Vec<u8, A>) -> Result<(), Fail> {
    let written = write_reply(&reply, out);
    drop(reply);
    Ok(written?)
}

/// Writes the reply to a command that is not refused.
fn ask<R, A: Allocator + Copy, E: Exec<R, A>>(
    rt: &R,
    alloc: A,
    exec: &mut E,
    words: &str,
    out: &mut Vec<u8, A>,
) -> Result<(), Fail>
    requires { E.settled exec.old }
    ensures { E.settled exec.new }
{
    let command = command(alloc, words)?;
    let answer = exec.run(rt, &command);
    drop(command);
    match answer {
        Ok(reply) => write_bytes(reply, out),
        Err(_) => Err(Fail::new("refused")),
    }
}

/// The same of commands, one after the other.
pub fn ask_all<R, A: Allocator + Copy, E: Exec<R, A>>(
    rt: &R,
    alloc: A,
    exec: &mut E,
    commands: &[&str],
    out: &mut Vec<u8, A>,
) -> Result<(), Fail>
    requires { E.settled exec.old }
    ensures { E.settled exec.new }
{
    for words in commands {
        ask(rt, alloc, exec, words, out)?;
    }
    Ok(())
}

/// Runs commands none of which is refused.
fn run_all<R, A: Allocator + Copy, E: Exec<R, A>>(
    rt: &R,
    alloc: A,
    exec: &mut E,
    commands: &[&str],
) -> Result<(), Fail>
    requires { E.settled exec.old }
    ensures { E.settled exec.new }
{
    let mut replies = Vec::new(alloc);
    let are_run = ask_all(rt, alloc, exec, commands, &mut replies);
    drop(replies);
    are_run
}

pub const LISTING: &str = "ZRANGEBYSCORE k -inf +inf WITHSCORES";

/// What ample memory gives: the listing of the set before a command, and what the command is told.
#[derive(Drop)]
pub struct Ample {
    pub before: Vec<u8>,
    pub reply: Vec<u8>,
}

/// Writes what is given where commands set up the set.
fn give<R, E: Exec<R, Global>>(
    rt: &R,
    alloc: Global,
    exec: &mut E,
    setup: &[&str],
    words: &str,
    ample: &mut Ample,
) -> Result<(), Fail>
    requires { E.settled exec.old }
{
    run_all(rt, alloc, exec, setup)?;
    ask(rt, alloc, exec, LISTING, &mut ample.before)?;
    ask(rt, alloc, exec, words, &mut ample.reply)
}

pub fn with_memory(rt: &HostRuntime, setup: &[&str], words: &str) -> Result<Ample, Fail> {
    let alloc = rt.alloc();
    let mut owner = OneOwner::new(alloc, RandomState::new(rt)?);
    let mut ample = Ample {
        before: Vec::new(alloc),
        reply: Vec::new(alloc),
    };
    let given = give(rt, alloc, &mut owner, setup, words, &mut ample);
    drop(owner);
    match given {
        Ok(()) => Ok(ample),
        Err(fail) => {
            drop(ample);
            Err(fail)
        }
    }
}

/// What came of one refused allocation of a command.
#[derive(Clone, Copy)]
pub enum Outcome {
    /// There were fewer allocations.
    Whole,
    /// It was refused for want of memory, the set stayed, and asked again it was told as with memory.
    Refused,
    /// It was told as with memory all the same.
    Made,
    Wrong,
}

impl Outcome {
    /// That of a command whose allocations were all made, or not: by whether its reply is the one with memory, or None
    /// where it was refused for want of it.
    pub fn new(is_whole: bool, has_reply: Option<bool>) -> Self {
        match has_reply {
            Some(true) if is_whole => Outcome::Whole,
            Some(true) => Outcome::Made,
            None if !is_whole => Outcome::Refused,
            _ => Outcome::Wrong,
        }
    }
}
