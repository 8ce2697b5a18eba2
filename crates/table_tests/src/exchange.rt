//! What the tests share: commands and replies as texts, and what a table tells a worker.

ghost use Rattle.std.specs.Prelude.{◌≡◌, None, IfOk};
ghost use Rattle.set_table.specs.TableAndPassViews.{IsPassOf};

use append_log::LogSink;
use resp_wire::{Bytes, BytesList, Reply, Request, write_reply};
use set_table::{Answer, Answered, Pass, Table, TestGate};
use sorted_sets::OneOwner;
use std::alloc::{AllocError, Allocator, Global};
use std::hash::{BuildHasher, RandomState};
use std::sync::Wait;
use std::sync::ledger::Ledger;
use std::test::Fail;
use zset_commands::{Command, Refusal};

pub type Owner = OneOwner<RandomState, Global>;

pub type SetsOver<S, L> = Table<RandomState, S, L, Global>;

/// The request of a text's words, which single spaces part.
fn request<A: Allocator + Copy>(alloc: A, text: &str) -> Result<Request<A>, Fail> {
    let mut words = Vec::new(alloc);
    for word in text.split(' ') {
        words.push(Bytes::from_slice(alloc, word.as_bytes())?)?;
    }
    match Request::new(BytesList::new(words)) {
        Some(request) => Ok(request),
        None => Err(Fail::new("no request")),
    }
}

/// The command of a text's words.
pub fn command<A: Allocator + Copy>(alloc: A, text: &str) -> Result<Command<A>, Fail> {
    Command::read(alloc, request(alloc, text)?).map_err(|_| Fail::from("no command"))
}

/// Bytes as a text, an end of line as `~`.
pub fn text_of<A: Allocator + Copy>(alloc: A, bytes: &[u8]) -> Result<String<A>, Fail> {
    match std::str::from_utf8(bytes) {
        Ok(text) => Ok(text.replace(alloc, "\r\n", "~")?),
        Err(_) => Err(Fail::new("no text")),
    }
}

/// A reply's bytes as a text.
pub fn reply_text<A: Allocator + Copy>(alloc: A, reply: Reply<A>) -> Result<String<A>, Fail> {
    let mut bytes = Vec::new(alloc);
    let written = write_reply(&reply, &mut bytes);
    drop(reply);
    written?;
    text_of(alloc, &bytes)
}

/// The number of a refusal behind `r`.
pub fn refusal_text<A: Allocator + Copy>(alloc: A, refusal: Refusal) -> Result<String<A>, Fail> {
    Ok(format!(in alloc; "r{}", refusal.number())?)
}

/// The bytes of what was answered, or the number of a refusal behind `r`.
fn answer_text<A: Allocator + Copy>(
    alloc: A,
    answer: Result<Answered<'_, A>, Refusal>,
) -> Result<String<A>, Fail> {
    match answer {
        Ok(Answered::Ran(answer)) => reply_text(alloc, answer.into_reply()),
        Ok(Answered::NoPlace(reply)) => reply_text(alloc, reply),
        Err(refusal) => refusal_text(alloc, refusal),
    }
}

/// What a table answers to a command's text.
fn answer<S: LogSink, L: Ledger, R: Wait, G: TestGate>(
    rt: &R,
    alloc: Global,
    table: &SetsOver<S, L>,
    pass: &mut Pass<Global>,
    text: &str,
    gate: &G,
) -> Result<String, Fail>
    requires { IsPassOf table.now pass.old }
    ensures { IsPassOf table.now pass.new }
{
    let command = command(alloc, text)?;
    let told = answer_text(alloc, table.run(rt, pass, &command, gate));
    drop(command);
    told
}

/// The place that an answer is of, the members that the command found there, and those that came in and left by it.
fn place_and_counts<A: Allocator + Copy>(
    alloc: A,
    answer: &Answer<'_, A>,
) -> Result<String<A>, AllocError> {
    let found = answer.found();
    let own = answer.own();
    let (opened, added, removed) = (found.opened, found.added, found.removed);
    let place = answer.place();
    let counts = format!(in alloc; "{opened}+{added}-{removed}")?;
    format!(in alloc; "@{place}:{counts}:+{}-{}", own.added, own.removed)
}

/// The reply of an answer with these.
fn reply_and_counts<A: Allocator + Copy>(
    alloc: A,
    answer: Answer<'_, A>,
) -> Result<String<A>, Fail> {
    let counts = place_and_counts(alloc, &answer);
    let mut text = reply_text(alloc, answer.into_reply())?;
    text.push_str(counts?.as_str())?;
    Ok(text)
}

/// The same of what was answered.
fn counts_text<A: Allocator + Copy>(
    alloc: A,
    answer: Result<Answered<'_, A>, Refusal>,
) -> Result<String<A>, Fail> {
    match answer {
        Ok(Answered::Ran(answer)) => reply_and_counts(alloc, answer),
        Ok(Answered::NoPlace(reply)) => {
            drop(reply);
            Err(Fail::new("no place"))
        }
        Err(_) => Err(Fail::new("refused")),
    }
}

/// What a table answers to a command's text, with the counts that the answer tells.
fn counted<S: LogSink, L: Ledger, R: Wait, G: TestGate>(
    rt: &R,
    alloc: Global,
    table: &SetsOver<S, L>,
    pass: &mut Pass<Global>,
    text: &str,
    gate: &G,
) -> Result<String, Fail>
    requires { IsPassOf table.now pass.old }
    ensures { IsPassOf table.now pass.new }
{
    let command = command(alloc, text)?;
    let told = counts_text(alloc, table.run(rt, pass, &command, gate));
    drop(command);
    told
}

/// What a table answers to a command's text, and the last record that the answer may tell of.
fn recorded<S: LogSink, L: Ledger, R: Wait, G: TestGate>(
    rt: &R,
    alloc: Global,
    table: &SetsOver<S, L>,
    pass: &mut Pass<Global>,
    text: &str,
    gate: &G,
) -> Result<String, Fail>
    requires { IsPassOf table.now pass.old }
    ensures { IsPassOf table.now pass.new }
{
    let told = answer(rt, alloc, table, pass, text, gate)?;
    Ok(format!(in alloc; "{told}{}", pass.take_told())?)
}

/// The place that a key was given, or the number of a refusal.
fn claim_text<A: Allocator + Copy>(
    alloc: A,
    claimed: Result<usize, Refusal>,
) -> Result<String<A>, Fail> {
    match claimed {
        Ok(place) => Ok(format!(in alloc; "{place}")?),
        Err(refusal) => refusal_text(alloc, refusal),
    }
}

/// The place that a key was found at.
fn place_text<A: Allocator + Copy>(alloc: A, found: Option<usize>) -> Result<String<A>, Fail> {
    match found {
        Some(place) => Ok(format!(in alloc; "{place}")?),
        None => Ok("none".to_string(alloc)?),
    }
}

/// What a table tells a worker, who asks for a key's place by `claim KEY` or `find KEY`, for what an answer tells beside
/// its reply by `counts COMMAND` or `record COMMAND`, and for the reply alone by a command.
fn told<S: LogSink, L: Ledger, R: Wait, G: TestGate>(
    rt: &R,
    alloc: Global,
    table: &SetsOver<S, L>,
    pass: &mut Pass<Global>,
    text: &str,
    gate: &G,
) -> Result<String, Fail>
    requires { IsPassOf table.now pass.old }
    ensures { IsPassOf table.now pass.new }
{
    match text.split_once(' ') {
        Some(("claim", key)) => claim_text(alloc, table.claim(pass, key.as_bytes())),
        Some(("find", key)) => place_text(alloc, table.find(pass, key.as_bytes())),
        Some(("counts", text)) => counted(rt, alloc, table, pass, text, gate),
        Some(("record", text)) => recorded(rt, alloc, table, pass, text, gate),
        _ => answer(rt, alloc, table, pass, text, gate),
    }
}

fn put_answer<A: Allocator>(answer: &str, answers: &mut String<A>) -> Result<(), AllocError> {
    answers.push_str(answer)?;
    answers.push(' ')
}

/// What a worker is told, a space behind each answer.
pub fn answers<S: LogSink, L: Ledger, R: Wait, G: TestGate>(
    rt: &R,
    alloc: Global,
    table: &SetsOver<S, L>,
    pass: &mut Pass<Global>,
    texts: &[&str],
    gate: &G,
) -> Result<String, Fail>
    requires { IsPassOf table.now pass.old }
    ensures { IsPassOf table.now pass.new }
{
    let mut answers = String::new(alloc);
    for text in texts {
        let told = told(rt, alloc, table, pass, text, gate)?;
        put_answer(&told, &mut answers)?;
    }
    Ok(answers)
}

/// Has an owner run commands, none of which is refused.
fn accept<H: BuildHasher + Clone + Drop, A: Allocator + Copy>(
    alloc: A,
    owner: &mut OneOwner<H, A>,
    texts: &[&str],
) -> Result<(), Fail>
    requires { owner.old.next ≡ None }
    ensures { owner.new.next ≡ None }
{
    for text in texts {
        let command = command(alloc, text)?;
        let answer = owner.run(&command);
        drop(command);
        match answer {
            Ok(reply) => drop(reply),
            Err(_) => return Err(Fail::new("refused")),
        }
    }
    Ok(())
}

/// An owner of the sets that commands make.
pub fn owner_of(rt: &HostRuntime, texts: &[&str]) -> Result<Owner, Fail>
    ensures { IfOk result (λ owner. owner.next ≡ None) }
{
    let mut owner = OneOwner::new(rt.alloc(), RandomState::new(rt)?);
    match accept(rt.alloc(), &mut owner, texts) {
        Ok(()) => Ok(owner),
        Err(fault) => {
            drop(owner);
            Err(fault)
        }
    }
}
