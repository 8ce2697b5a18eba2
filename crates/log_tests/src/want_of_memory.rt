//! Each allocation of a reload, of a rewrite and of a logged command refused in turn, and what these answer
//! when they are asked again with memory.

ghost use Rattle.std.specs.Prelude.{◌≡◌, None};

use crate::changes::{ASKED_ONCE, BROKEN, FAILING, FULL, LOGGED};
use crate::owners::{
    Logged, Owner, accept, answers, are_logged, are_shown, command, log_of, put_answer, put_replies,
};
use crate::records::{LISTING, THREE_RECORDS, TWO_SETS_REWRITTEN};
use append_log::{
    FuseSink, Loaded, Log, LogSink, LoggedOwner, MemorySink, NoSink, ReloadFault, reload, rewrite,
};
use fuse_alloc::Fuse;
use resp_wire::{MemorySource, Reply};
use sorted_sets::OneOwner;
use std::alloc::{Allocator, Global};
use std::hash::RandomState;
use std::marker::Brand;
use std::sync::ledger::{Blank, Ledger};
use std::test::*;
use zset_commands::Refusal;

/// What came of a run one of whose allocations was to be refused.
#[derive(Clone, Copy)]
enum Outcome {
    /// There were fewer allocations.
    Whole,
    /// It was refused as it should be, or made all the same.
    Met,
    Wrong,
}

impl Outcome {
    fn of(is_whole: bool, is_right: bool) -> Self {
        match (is_right, is_whole) {
            (true, true) => Outcome::Whole,
            (true, false) => Outcome::Met,
            (false, _) => Outcome::Wrong,
        }
    }
}

/// What came of a reload or of a rewrite: whether there were fewer allocations, whether it was made whole, and whether it
/// was refused for want of memory.
type Attempt = (bool, bool, bool);

/// All three records are reloaded.
const WHOLE: Result<Loaded, ReloadFault> = Ok(Loaded {
    records: 3,
    whole: 98,
    torn: 0,
    version: 1,
});

/// Reloads the three records, and then tells by k, with memory, whether all were replayed, or some first ones.
fn reload_once<A: Allocator + Copy>(
    fuse: &Fuse<Global>,
    alloc: A,
    owner: &mut Owner<A>,
) -> Result<Attempt, Fail>
    requires { owner.old.next ≡ None }
    ensures { owner.new.next ≡ None }
{
    let mut source = MemorySource::new(THREE_RECORDS, 7);
    let found = reload(alloc, &mut source, owner, 35, 1000);
    let is_whole = fuse.is_armed();
    fuse.arm(0);
    let listed = answers(alloc, owner, &[LISTING])?;
    let (are_all, are_some) = replayed(&listed);
    drop(listed);
    Ok((
        is_whole,
        found == WHOLE && are_all,
        found == Err(ReloadFault::NoMemory) && are_some,
    ))
}

/// Whether a listing of k tells that all records were replayed, and whether some first ones.
fn replayed(listed: &str) -> (bool, bool) {
    let are_some = matches!(
        listed,
        "*0~ " | "*2~$1~a~$1~1~ " | "*4~$1~a~$1~1~$1~b~$1~2~ "
    );
    (listed == "*2~$1~b~$1~2~ ", are_some)
}

/// A reload that may be refused, and another on the same sets, with memory. The first leaves the sets that some first
/// records replay to. The last record is a removal, which takes what is kept back where it finds no memory.
fn reload_twice<A: Allocator + Copy>(
    fuse: &Fuse<Global>,
    alloc: A,
    owner: &mut Owner<A>,
) -> Result<Outcome, Fail>
    requires { owner.old.next ≡ None }
    ensures { owner.new.next ≡ None }
{
    let (is_whole, is_made, is_refused) = reload_once(fuse, alloc, owner)?;
    let (_, is_made_again, _) = reload_once(fuse, alloc, owner)?;
    let is_told = is_made || !is_whole && is_refused;
    Ok(Outcome::of(is_whole, is_told && is_made_again))
}

/// The same by the owner of no sets.
fn reload_anew<A: Allocator + Copy>(
    fuse: &Fuse<Global>,
    alloc: A,
    hasher: RandomState,
) -> Result<Outcome, Fail> {
    let mut owner = OneOwner::new(alloc, hasher);
    let outcome = reload_twice(fuse, alloc, &mut owner);
    drop(owner);
    outcome
}

/// Refuses one allocation of a reload.
fn reload_refused(rt: &HostRuntime, allocation: u64) -> Result<Outcome, Fail> {
    let hasher = RandomState::new(rt)?;
    let fuse = Fuse::new(rt.alloc(), allocation);
    reload_anew(&fuse, &fuse, hasher)
}

/// Rewrites two sets. Where it is refused it is out of memory, or the sink in memory failed, which could not grow.
fn rewrite_once<A: Allocator + Copy>(
    fuse: &Fuse<Global>,
    alloc: A,
    owner: &Owner<A>,
    allocation: u64,
) -> Attempt
    requires { owner.now.next ≡ None }
{
    let mut sink = MemorySink::new(alloc, 7);
    fuse.arm(allocation);
    let found = rewrite(alloc, owner, &mut sink);
    let is_whole = fuse.is_armed();
    fuse.arm(0);
    let is_made = found == Ok(2) && sink.bytes() == TWO_SETS_REWRITTEN;
    let is_short = sink.bytes().len() < 123;
    drop(sink);
    (is_whole, is_made, found.is_err() && is_short)
}

/// A rewrite one of whose allocations is refused, and another one with memory.
fn rewrite_twice<A: Allocator + Copy>(
    fuse: &Fuse<Global>,
    alloc: A,
    owner: &mut Owner<A>,
    allocation: u64,
) -> Result<Outcome, Fail>
    requires { owner.old.next ≡ None }
{
    accept(alloc, owner, &["ZADD k 1 b 1 a 1 B", "ZADD j -3 x"])?;
    let (is_whole, is_made, is_refused) = rewrite_once(fuse, alloc, owner, allocation);
    let (_, is_made_again, _) = rewrite_once(fuse, alloc, owner, 0);
    let is_told = if is_whole { is_made } else { is_refused };
    Ok(Outcome::of(is_whole, is_told && is_made_again))
}

/// The same by the owner of no sets.
fn rewrite_anew<A: Allocator + Copy>(
    fuse: &Fuse<Global>,
    alloc: A,
    hasher: RandomState,
    allocation: u64,
) -> Result<Outcome, Fail> {
    let mut owner = OneOwner::new(alloc, hasher);
    let outcome = rewrite_twice(fuse, alloc, &mut owner, allocation);
    drop(owner);
    outcome
}

/// Refuses one allocation of a rewrite.
fn rewrite_refused(rt: &HostRuntime, allocation: u64) -> Result<Outcome, Fail> {
    let hasher = RandomState::new(rt)?;
    let fuse = Fuse::new(rt.alloc(), 0);
    rewrite_anew(&fuse, &fuse, hasher, allocation)
}

/// A change of an owner whose records go to a log that keeps nothing.
#[derive(Clone, Copy)]
pub struct Change {
    /// Which call of the log's sink fails, 0 for none. Each record is written by one, and synced by one more.
    pub fails_at: u64,
    /// How many records the log takes.
    pub max_records: u64,
    /// Commands before it, and the replies.
    pub before: &'static [&'static str],
    pub told_before: &'static str,
    pub words: &'static str,
    /// Commands behind it, which have memory.
    pub behind: &'static [&'static str],
    /// The replies to it and to these where it has its memory, and how many records the log has then.
    pub whole: (&'static str, u64),
    /// The same where an allocation is refused.
    pub refused: (&'static str, u64),
}

impl Change {
    /// The replies to it and to those behind it, and how many records the log has then.
    fn wanted(&self, is_whole: bool) -> (&'static str, u64) {
        if is_whole { self.whole } else { self.refused }
    }
}

/// Refuses one allocation of a change: whether there were fewer, and whether the replies are as they should be.
fn told<S: LogSink, L: Ledger, A: Allocator + Copy>(
    fuse: &Fuse<Global>,
    alloc: A,
    owner: &mut Logged<S, L, A>,
    change: &Change,
    allocation: u64,
) -> Result<(bool, bool), Fail> {
    let command = command(alloc, change.words)?;
    fuse.arm(allocation);
    let answer = owner.run(&command);
    let is_whole = fuse.is_armed();
    fuse.arm(0);
    drop(command);
    let (replies, _) = change.wanted(is_whole);
    let is_told = are_told(alloc, owner, answer, change.behind, replies)?;
    Ok((is_whole, is_told))
}

/// Whether an answer and the replies to commands behind it are these.
fn are_told<S: LogSink, L: Ledger, A: Allocator + Copy>(
    alloc: A,
    owner: &mut Logged<S, L, A>,
    answer: Result<Reply<A>, Refusal>,
    behind: &[&str],
    wanted: &str,
) -> Result<bool, Fail> {
    let mut bytes = Vec::new(alloc);
    put_answer(answer, &mut bytes)?;
    put_replies(alloc, owner, behind, &mut bytes)?;
    are_shown(alloc, &bytes, wanted)
}

/// The same behind the commands before it.
fn told_behind<S: LogSink, L: Ledger, A: Allocator + Copy>(
    fuse: &Fuse<Global>,
    alloc: A,
    owner: &mut Logged<S, L, A>,
    change: &Change,
    allocation: u64,
) -> Result<(bool, bool), Fail> {
    let was_told = are_logged(alloc, owner, change.before, change.told_before)?;
    let (is_whole, is_told) = told(fuse, alloc, owner, change, allocation)?;
    Ok((is_whole, was_told && is_told))
}

/// The same, with as many records in the log then as there should be.
fn outcome_behind<S: LogSink + Drop, L: Ledger, A: Allocator + Copy>(
    fuse: &Fuse<Global>,
    alloc: A,
    owner: Logged<S, L, A>,
    change: &Change,
    allocation: u64,
) -> Result<Outcome, Fail> {
    let mut owner = owner;
    let told = told_behind(fuse, alloc, &mut owner, change, allocation);
    let log = log_of(owner);
    let records = log.appended();
    drop(log);
    let (is_whole, is_told) = told?;
    let (_, wanted) = change.wanted(is_whole);
    Ok(Outcome::of(is_whole, is_told && records == wanted))
}

/// The same of an owner with a log of its own.
fn change_anew<L: Ledger, A: Allocator + Copy>(
    fuse: &Fuse<Global>,
    alloc: A,
    hasher: RandomState,
    blank: Blank,
    change: &Change,
    allocation: u64,
) -> Result<Outcome, Fail>
    requires name { blank.name ≡ L.name }
    requires parts { blank.parts ≡ L.parts }
    requires two { blank.parts ≡ 2 }
{
    if change.max_records == 0 || change.max_records > 10 {
        return Err(Fail::new("no limits of a log"));
    }
    let sink = FuseSink::new(NoSink::new(), change.fails_at);
    let log = Log::<_, L>::new(blank, sink, change.max_records);
    let owner = LoggedOwner::new(alloc, OneOwner::new(alloc, hasher), log);
    outcome_behind(fuse, alloc, owner, change, allocation)
}

/// Refuses one allocation of a change.
fn change_refused(rt: &HostRuntime, change: &Change, allocation: u64) -> Result<Outcome, Fail> {
    let hasher = RandomState::new(rt)?;
    let fuse = Fuse::new(rt.alloc(), 0);
    change_anew::<Brand, _>(&fuse, &fuse, hasher, Blank::new(2), change, allocation)
}

/// What is done whose allocations are refused.
#[derive(Clone, Copy)]
pub enum Work<'w> {
    Reload,
    Rewrite,
    Change(&'w Change),
}

/// Refuses one allocation of it.
fn outcome_of(rt: &HostRuntime, work: Work<'_>, allocation: u64) -> Result<Outcome, Fail> {
    match work {
        Work::Reload => reload_refused(rt, allocation),
        Work::Rewrite => rewrite_refused(rt, allocation),
        Work::Change(change) => change_refused(rt, change, allocation),
    }
}

/// How many of its allocations were refused, one in each run, until a run had none that was: 0 where a run went neither
/// as refused nor as with memory.
pub fn allocations_of(rt: &HostRuntime, work: Work<'_>) -> Result<u64, Fail> {
    for allocation in 1..1000u64 {
        match outcome_of(rt, work, allocation)? {
            Outcome::Whole => return Ok(allocation - 1),
            Outcome::Met => {}
            Outcome::Wrong => return Ok(0),
        }
    }
    Err(Fail::new("no end"))
}

/// What is done, and the least number of allocations that it makes, a sink's and a record's included.
static WORKS: [(&str, Work<'static>, u64); 7] = [
    ("a reload", Work::Reload, 20),
    ("a rewrite", Work::Rewrite, 20),
    ("a logged change", Work::Change(&LOGGED), 5),
    ("a change that is asked once", Work::Change(&ASKED_ONCE), 5),
    ("over a broken log", Work::Change(&BROKEN), 5),
    ("over a full log", Work::Change(&FULL), 5),
    ("over a failing sink", Work::Change(&FAILING), 5),
];

/// Whether so many of its allocations are refused at least.
fn is_met(rt: &HostRuntime, work: Work<'_>, least: u64) -> Result<bool, Fail> {
    Ok(allocations_of(rt, work)? >= least)
}

#[test]
fn each_refused_allocation_is_met(rt: HostRuntime) -> Result<(), Fail> {
    for (name, work, least) in &WORKS {
        assert!(rt; is_met(&rt, *work, *least)?, "{name}");
    }
    Ok(())
}
