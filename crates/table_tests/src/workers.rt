//! Two workers of a table at once, each on a thread of its own.

ghost use Rattle.std.specs.Prelude.{◌≡◌, ◌≤◌, None};
ghost use Rattle.set_table.specs.TableAndPassViews.{IsPassOf};

use crate::exchange::{Owner, SetsOver, command, owner_of, text_of};
use crate::tables::{Plan, close, opened};
use append_log::LogSink;
use resp_wire::write_reply;
use session_core::Exec;
use set_table::{NoGate, Pass, TestGate};
use std::alloc::Global;
use std::hash::RandomState;
use std::marker::Brand;
use std::sync::Wait;
use std::sync::atomic::{AtomicU64, Ordering};
use std::sync::ledger::{Blank, Ledger};
use std::test::*;
use std::thread;
use std::thread::Threads;
use table_lifetime::Totals;
use table_worker::Worker;
use zset_commands::Command;

/// So long a test waits for what comes at once in a table that is right.
pub const MANY_TURNS: u64 = 1_000_000_000;

/// How two workers wait for one another.
#[derive(Clone, Copy)]
pub enum Manner {
    /// The second begins when a run of the first is inside its lock. This one is held there until the second is through,
    /// or for so many turns.
    Held(u64),
    /// Each run waits inside its lock until one of the other is inside too.
    Together,
}

/// What the workers tell one another: how many runs were inside a lock, whether the second is through, and whether the
/// first was held for all of its turns.
#[derive(Drop)]
struct Signals {
    manner: Manner,
    inside: AtomicU64,
    through: AtomicU64,
    ran_out: AtomicU64,
}

impl Signals {
    fn new(manner: Manner) -> Self {
        Signals {
            manner,
            inside: AtomicU64::new(0),
            through: AtomicU64::new(0),
            ran_out: AtomicU64::new(0),
        }
    }

    /// Whether the second worker may begin.
    fn second_may_begin(&self) -> bool {
        match self.manner {
            Manner::Held(_) => wait_for(&self.inside, 1, MANY_TURNS),
            Manner::Together => true,
        }
    }
}

/// Waits for a count. False where it was not reached in so many turns.
fn wait_for(count: &AtomicU64, wanted: u64, turns: u64) -> bool {
    for _ in 0..turns {
        if count.load(Ordering::SeqCst) >= wanted {
            return true;
        }
        thread::yield_now();
    }
    false
}

/// Where one of the workers stands.
#[derive(Clone, Copy)]
struct Post<'s> {
    signals: &'s Signals,
    is_first: bool,
}

impl Post<'_> {
    /// Holds a run of the first worker.
    fn hold(&self, turns: u64) {
        if self.is_first && !wait_for(&self.signals.through, 1, turns) {
            self.signals.ran_out.store(1, Ordering::SeqCst);
        }
    }
}

impl TestGate for Post<'_> {
    fn inside(&self, _place: usize) {
        self.signals.inside.fetch_add(1, Ordering::SeqCst);
        match self.signals.manner {
            Manner::Held(turns) => self.hold(turns),
            Manner::Together => {
                wait_for(&self.signals.inside, 2, MANY_TURNS);
            }
        }
    }
}

/// A worker that calls a gate inside the locks of sets.
type Gated<'t, S, L, G> = Worker<'t, RandomState, S, L, Global, G>;

/// Runs a command, and appends its reply.
fn note_reply<S: LogSink, L: Ledger, R: Wait, G: TestGate + Drop>(
    rt: &R,
    worker: &mut Gated<'_, S, L, G>,
    command: &Command<Global>,
    bytes: &mut Vec<u8>,
) -> Option<()>
    ensures { worker.new.table ≡ worker.old.table }
{
    let reply = worker.run(rt, command).ok()?;
    write_reply(&reply, bytes).ok()
}

/// The bytes of what a worker is told, or None where a command was refused.
fn told_on<S: LogSink, L: Ledger, R: Wait, G: TestGate + Drop>(
    rt: &R,
    alloc: Global,
    worker: &mut Gated<'_, S, L, G>,
    commands: &[Command<Global>],
) -> Option<Vec<u8>>
    ensures { worker.new.table ≡ worker.old.table }
{
    let mut bytes = Vec::new(alloc);
    for command in commands {
        note_reply(rt, worker, command, &mut bytes)?;
    }
    Some(bytes)
}

type Worked = (Option<Vec<u8>>, Pass<Global>);

/// What a worker with a pass is told, and the pass.
fn work<S: LogSink, L: Ledger, R: Wait, G: TestGate + Drop>(
    rt: &R,
    alloc: Global,
    table: &SetsOver<S, L>,
    pass: Pass<Global>,
    commands: &[Command<Global>],
    gate: G,
) -> (Option<Vec<u8>>, Pass<Global>)
    requires { IsPassOf table.now pass }
    ensures { IsPassOf table.now result.1 }
{
    let mut worker = Worker::new(table, pass, gate);
    let told = told_on(rt, alloc, &mut worker, commands);
    (told, worker.into_pass())
}

/// The same of the first of two workers, at its post.
fn work_first<S: LogSink, L: Ledger, R: Wait>(
    rt: &R,
    alloc: Global,
    table: &SetsOver<S, L>,
    pass: Pass<Global>,
    commands: &[Command<Global>],
    signals: &Signals,
) -> (Option<Vec<u8>>, Pass<Global>)
    requires { IsPassOf table.now pass }
    ensures { IsPassOf table.now result.1 }
{
    let post = Post {
        signals,
        is_first: true,
    };
    work(rt, alloc, table, pass, commands, post)
}

/// The same of the second, once it may begin.
fn work_second<S: LogSink, L: Ledger, R: Wait>(
    rt: &R,
    alloc: Global,
    table: &SetsOver<S, L>,
    pass: Pass<Global>,
    commands: &[Command<Global>],
    signals: &Signals,
) -> (Option<Vec<u8>>, Pass<Global>)
    requires { IsPassOf table.now pass }
    ensures { IsPassOf table.now result.1 }
{
    if !signals.second_may_begin() {
        return (None, pass);
    }
    let post = Post {
        signals,
        is_first: false,
    };
    let worked = work(rt, alloc, table, pass, commands, post);
    signals.through.store(1, Ordering::SeqCst);
    worked
}

/// Two workers, each on a thread of its own.
fn work_at_once<S: LogSink + Send, L: Ledger + Send + Sync, R: Threads + Wait + Sync>(
    rt: &R,
    alloc: Global,
    table: &SetsOver<S, L>,
    passes: (Pass<Global>, Pass<Global>),
    lists: (&[Command<Global>], &[Command<Global>]),
    signals: &Signals,
) -> (Worked, Worked)
    requires first { IsPassOf table.now passes.0 }
    requires second { IsPassOf table.now passes.1 }
    ensures first { IsPassOf table.now result.0.1 }
    ensures second { IsPassOf table.now result.1.1 }
{
    let (first, second) = passes;
    let (commands, other_commands) = lists;
    let one = move || -> (Option<Vec<u8>>, Pass<Global>)
        requires { IsPassOf table.now first }
        ensures { IsPassOf table.entry.now result.1 }
    { work_first(rt, alloc, table, first, commands, signals) };
    let other = move || -> (Option<Vec<u8>>, Pass<Global>)
        requires { IsPassOf table.now second }
        ensures { IsPassOf table.entry.now result.1 }
    { work_second(rt, alloc, table, second, other_commands, signals) };
    thread::join(rt, one, other)
}

/// The commands that the second worker runs before, and those that both run at once.
#[derive(Clone, Copy)]
struct Lists<'c> {
    before: &'c [Command<Global>],
    first: &'c [Command<Global>],
    second: &'c [Command<Global>],
}

/// Their texts.
#[derive(Clone, Copy)]
pub struct Texts<'t> {
    pub before: &'t [&'t str],
    pub first: &'t [&'t str],
    pub second: &'t [&'t str],
}

/// What two workers are told at once, and whether the first was held for all of its turns.
#[derive(Drop)]
pub struct AtOnce {
    pub one: Option<Vec<u8>>,
    pub other: Option<Vec<u8>>,
    pub ran_out: bool,
}

impl AtOnce {
    /// Both texts, a space between them.
    pub fn text(&self, alloc: Global) -> Result<String, Fail> {
        let (Some(one), Some(other)) = (&self.one, &self.other) else {
            return Err(Fail::new("no reply"));
        };
        let mut bytes = Vec::from_slice(alloc, one)?;
        bytes.push(b' ')?;
        bytes.extend_from_slice(other)?;
        text_of(alloc, &bytes)
    }
}

/// What two workers are told at once of a table, behind what the second runs before, or None where that is refused, and
/// their passes.
fn told_at_once<S: LogSink + Send, L: Ledger + Send + Sync, R: Threads + Wait + Sync>(
    rt: &R,
    alloc: Global,
    table: &SetsOver<S, L>,
    passes: (Pass<Global>, Pass<Global>),
    manner: Manner,
    lists: Lists<'_>,
) -> (Option<AtOnce>, Pass<Global>, Pass<Global>)
    requires first { IsPassOf table.now passes.0 }
    requires second { IsPassOf table.now passes.1 }
    ensures first { IsPassOf table.now result.1 }
    ensures second { IsPassOf table.now result.2 }
{
    let (first, second) = passes;
    let (before, second) = work(rt, alloc, table, second, lists.before, NoGate);
    if before.is_none() {
        return (None, first, second);
    }
    let signals = Signals::new(manner);
    let at_once = (lists.first, lists.second);
    let told = work_at_once(rt, alloc, table, (first, second), at_once, &signals);
    let ((one, first), (other, second)) = told;
    let ran_out = signals.ran_out.load(Ordering::SeqCst) == 1;
    let at_once = AtOnce {
        one,
        other,
        ran_out,
    };
    (Some(at_once), first, second)
}

/// What two workers are told at once of a table of an owner's sets, and its totals.
fn race_with<L: Ledger + Send + Sync, R: Threads + Wait + AllocGlobal + Sync>(
    rt: &R,
    blank: Blank,
    owner: Owner,
    plan: Plan,
    manner: Manner,
    lists: Lists<'_>,
) -> Result<(AtOnce, Totals), Fail>
    requires idle { owner.next ≡ None }
    requires name { blank.name ≡ L.name }
    requires parts { blank.parts ≡ L.parts }
    requires many { 4098 ≤ blank.parts }
{
    let alloc = rt.alloc();
    let (table, first, second) = opened::<L>(alloc, blank, owner, plan)?;
    let (at_once, first, second) = told_at_once(rt, alloc, &table, (first, second), manner, lists);
    let totals = close(alloc, table, first, second);
    let Some(at_once) = at_once else {
        return Err(Fail::new("refused"));
    };
    match totals {
        Some(totals) => Ok((at_once, totals)),
        None => {
            drop(at_once);
            Err(Fail::new("not closed"))
        }
    }
}

/// The same of a table that is empty at opening. `locks` waits for the table's locks.
fn race_anew<R: Threads + Wait + AllocGlobal + Sync>(
    rt: &HostRuntime,
    locks: &R,
    plan: Plan,
    manner: Manner,
    lists: Lists<'_>,
) -> Result<(AtOnce, Totals), Fail> {
    let owner = owner_of(rt, &[])?;
    race_with::<Brand, _>(locks, Blank::new(4098), owner, plan, manner, lists)
}

/// The commands of texts.
fn commands(alloc: Global, texts: &[&str]) -> Result<Vec<Command<Global>>, Fail> {
    let mut commands = Vec::new(alloc);
    for text in texts {
        commands.push(command(alloc, text)?)?;
    }
    Ok(commands)
}

/// What two workers are told at once of a table that is empty at opening, and its totals.
pub fn race_of<R: Threads + Wait + AllocGlobal + Sync>(
    rt: &HostRuntime,
    locks: &R,
    plan: Plan,
    manner: Manner,
    texts: Texts<'_>,
) -> Result<(AtOnce, Totals), Fail> {
    let before = commands(rt.alloc(), texts.before)?;
    let first = commands(rt.alloc(), texts.first)?;
    let second = commands(rt.alloc(), texts.second)?;
    let lists = Lists {
        before: &before,
        first: &first,
        second: &second,
    };
    let raced = race_anew(rt, locks, plan, manner, lists);
    drop(before);
    drop(first);
    drop(second);
    raced
}
