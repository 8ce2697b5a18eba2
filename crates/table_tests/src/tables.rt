//! Tables with two passes, over a log in memory, and what both are told one after the other.

ghost use Rattle.std.specs.Prelude.{◌≡◌, ◌≤◌, ◌^◌, None, length, IfOk, IfSome, IsTrue};
ghost use Rattle.table_lifetime.specs.ClosingAudit.{pass_at};
ghost use Rattle.set_table.specs.TableAndPassViews.{IsPassOf};

use crate::exchange::{Owner, SetsOver, answers, owner_of};
use append_log::{Log, LogSink, MemorySink};
use set_table::{NoGate, Pass, TestGate};
use std::alloc::{Allocator, Global};
use std::marker::Brand;
use std::process::Abort;
use std::sync::Wait;
use std::sync::ledger::{Blank, Ledger};
use std::test::*;
use table_lifetime::{Totals, open};

/// What the log writes to.
pub type Sink = MemorySink<Global>;

pub type Sets<L> = SetsOver<Sink, L>;

/// So many bytes a call of the sink takes at most.
const CHUNK: usize = 4096;

/// How a table is opened, and whether appends to its log leave their syncs to later.
#[derive(Clone, Copy)]
pub struct Plan {
    pub places: usize,
    pub max_runs: u64,
    pub is_deferred: bool,
}

/// Four places with as many runs as a test needs.
pub const FOUR_PLACES: Plan = Plan {
    places: 4,
    max_runs: 10_000,
    is_deferred: false,
};

/// The same, whose changes share their syncs.
pub const DEFERRED: Plan = Plan {
    is_deferred: true,
    ..FOUR_PLACES
};

impl Plan {
    /// Whether there can be such a table.
    fn is_sound(&self) -> bool
        ensures places { IsTrue result → (1 ≤ self.now.places) × (self.now.places ≤ 4096) }
        ensures max_runs { IsTrue result → (1 ≤ self.now.max_runs) × (self.now.max_runs ≤ 2 ^ 40) }
    {
        let has_places = 1 <= self.places && self.places <= 4096;
        let has_runs = 1 <= self.max_runs && self.max_runs <= 1 << 40;
        has_places && has_runs
    }
}

/// The two passes.
fn pair<A: Allocator + Copy>(passes: Vec<Pass<A>, A>) -> Option<(Pass<A>, Pass<A>)>
    requires { length passes.items ≡ 2 }
    ensures { IfSome result
        (λ both. (both.0 ≡ pass_at passes.items 0) × (both.1 ≡ pass_at passes.items 1)) }
{
    let mut passes = passes;
    let second = passes.pop();
    let first = passes.pop();
    drop(passes);
    match (first, second) {
        (Some(first), Some(second)) => Some((first, second)),
        _ => None,
    }
}

/// The log of a plan.
fn log_of<L: Ledger>(alloc: Global, blank: Blank, is_deferred: bool) -> Log<Sink, L>
    requires name { blank.name ≡ L.name }
    requires parts { blank.parts ≡ L.parts }
    requires many { 4098 ≤ blank.parts }
    ensures { 4098 ≤ result.parts }
{
    let sink = MemorySink::new(alloc, CHUNK);
    if is_deferred {
        Log::deferred(blank, sink, 1_000_000)
    } else {
        Log::new(blank, sink, 1_000_000)
    }
}

/// A table of an owner's sets, with two passes, or None where it was not opened.
fn open_two<S: LogSink + Drop, L: Ledger>(
    alloc: Global,
    owner: Owner,
    log: Log<S, L>,
    plan: Plan,
) -> Option<(SetsOver<S, L>, Pass<Global>, Pass<Global>)>
    requires idle { owner.next ≡ None }
    requires parts { 4098 ≤ log.parts }
    ensures first { IfSome result (λ opened. IsPassOf opened.0 opened.1) }
    ensures second { IfSome result (λ opened. IsPassOf opened.0 opened.2) }
{
    if !plan.is_sound() {
        drop(owner);
        drop(log);
        return None;
    }
    let (table, passes) = open(alloc, owner, log, plan.places, 2, plan.max_runs).ok()?;
    match pair(passes) {
        Some((first, second)) => Some((table, first, second)),
        None => {
            drop(table);
            None
        }
    }
}

/// A table of an owner's sets over a new log, with two passes.
pub fn opened<L: Ledger>(
    alloc: Global,
    blank: Blank,
    owner: Owner,
    plan: Plan,
) -> Result<(Sets<L>, Pass<Global>, Pass<Global>), Fail>
    requires idle { owner.next ≡ None }
    requires name { blank.name ≡ L.name }
    requires parts { blank.parts ≡ L.parts }
    requires many { 4098 ≤ blank.parts }
    ensures first { IfOk result (λ opened. IsPassOf opened.0 opened.1) }
    ensures second { IfOk result (λ opened. IsPassOf opened.0 opened.2) }
{
    let log = log_of::<L>(alloc, blank, plan.is_deferred);
    match open_two(alloc, owner, log, plan) {
        Some(opened) => Ok(opened),
        None => Err(Fail::new("not opened")),
    }
}

/// Closes a table by its passes, the second before the first. None where that fails.
pub fn close<S: LogSink + Drop, L: Ledger>(
    alloc: Global,
    table: SetsOver<S, L>,
    first: Pass<Global>,
    second: Pass<Global>,
) -> Option<Totals>
    requires first { IsPassOf table first }
    requires second { IsPassOf table second }
{
    let Ok(passes) = Vec::from_array(alloc, [second, first]) else {
        drop(table);
        return None;
    };
    let (totals, log) = table_lifetime::close(table, passes).ok()?;
    drop(log);
    Some(totals)
}

/// A table, the commands that made its sets, and what two workers ask of it one after the other ([`answers`]).
#[derive(Clone, Copy)]
pub struct Talk<'t> {
    pub plan: Plan,
    pub sets: &'t [&'t str],
    pub first: &'t [&'t str],
    pub second: &'t [&'t str],
}

/// An empty table of which nothing is asked.
pub const SILENCE: Talk<'static> = Talk {
    plan: FOUR_PLACES,
    sets: &[],
    first: &[],
    second: &[],
};

/// What two workers are told, one after the other.
fn told_to_both<S: LogSink, L: Ledger, R: Wait + AllocGlobal, G: TestGate>(
    rt: &R,
    table: &SetsOver<S, L>,
    first: &mut Pass<Global>,
    second: &mut Pass<Global>,
    texts: (&[&str], &[&str]),
    gate: &G,
) -> Result<String, Fail>
    requires first { IsPassOf table.now first.old }
    requires second { IsPassOf table.now second.old }
    ensures first { IsPassOf table.now first.new }
    ensures second { IsPassOf table.now second.new }
{
    let alloc = rt.alloc();
    let (first_texts, second_texts) = texts;
    let mut told = answers(rt, alloc, table, first, first_texts, gate)?;
    let rest = answers(rt, alloc, table, second, second_texts, gate)?;
    told.push_str(&rest)?;
    Ok(told)
}

/// What two workers are told of a table of an owner's sets, which is closed then.
fn day_with<L: Ledger, R: Wait + AllocGlobal, G: TestGate>(
    rt: &R,
    blank: Blank,
    owner: Owner,
    plan: Plan,
    texts: (&[&str], &[&str]),
    gate: &G,
) -> Result<String, Fail>
    requires idle { owner.next ≡ None }
    requires name { blank.name ≡ L.name }
    requires parts { blank.parts ≡ L.parts }
    requires many { 4098 ≤ blank.parts }
{
    let alloc = rt.alloc();
    let (table, mut first, mut second) = opened::<L>(alloc, blank, owner, plan)?;
    let told = told_to_both(rt, &table, &mut first, &mut second, texts, gate);
    let totals = close(alloc, table, first, second);
    let told = told?;
    if totals.is_none() {
        return Err(Fail::new("not closed"));
    }
    Ok(told)
}

/// What two workers are told of a table whose runs call a gate. `locks` waits for the table's locks.
pub fn gated_day<R: Wait + AllocGlobal, G: TestGate>(
    rt: &HostRuntime,
    locks: &R,
    talk: &Talk<'_>,
    gate: &G,
) -> Result<String, Fail> {
    let owner = owner_of(rt, talk.sets)?;
    let texts = (talk.first, talk.second);
    day_with::<Brand, _, _>(locks, Blank::new(4098), owner, talk.plan, texts, gate)
}

/// What two workers are told of a table.
pub fn day_of<R: Wait + AllocGlobal>(
    rt: &HostRuntime,
    locks: &R,
    talk: &Talk<'_>,
) -> Result<String, Fail> {
    gated_day(rt, locks, talk, &NoGate)
}

/// Both workers are told what is wanted.
fn expect<R: Abort + Wait + AllocGlobal>(
    rt: &HostRuntime,
    locks: &R,
    name: &str,
    talk: &Talk<'_>,
    wanted: &str,
) -> Result<(), Fail> {
    let told = day_of(rt, locks, talk)?;
    assert!(locks; told.as_str() == wanted, "{name}: {told}");
    Ok(())
}

/// The name of an example, what is asked in it, and what both workers are told.
pub type Example = (&'static str, Talk<'static>, &'static str);

/// Both workers of each example are told what is wanted.
pub fn expect_each<R: Abort + Wait + AllocGlobal>(
    rt: &HostRuntime,
    locks: &R,
    examples: &[Example],
) -> Result<(), Fail> {
    for (name, talk, wanted) in examples {
        expect(rt, locks, name, talk, wanted)?;
    }
    Ok(())
}
