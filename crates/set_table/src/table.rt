//! Sets behind locks of their own, found by names that are set once.

ghost use Rattle.std.specs.Prelude.{◌≡◌, ◌<◌, ◌≤◌, false, length, IfOk, IfErr, IfSome, OnErr, OnOk, IsTrue, MatchOption};
ghost use Rattle.zset_commands.specs.AbstractCommand.{is_creating, is_writing};
ghost use Rattle.place_names.specs.Naming.{NamingGrows, IsPlace};
ghost use Rattle.set_table.specs.TableAndPassViews.{IsPassOf, kept_back};
ghost use Rattle.set_table.specs.TableAnswers.{HasNoPlace, IsAnswered, IsAnsweredAt, IsClaimRefusal, IsTableRefusal, KeepsPass, MayBeAskedAt};

mod parts;

use crate::answer_with_counts::Answer;
use crate::cell::Cell;
use crate::naming::names::{ClaimFault, claim, find};
use crate::test_gate::TestGate;
use crate::worker_pass::Pass;
use append_log::{Log, LogSink, SyncHandle, Syncer};
pub use parts::TableParts;
use place_names::Names;
use resp_wire::Reply;
use sorted_sets::reply_without_set;
use std::alloc::Allocator;
use std::hash::BuildHasher;
use std::marker::Model;
use std::sync::ledger::Ledger;
use std::sync::{Mutex, RwLock, RwLockReadGuard, Wait};
use zset_commands::{Command, Refusal};

/// Sorted sets behind locks of their own. A set's lock is taken exclusively by a command that
/// changes sets or makes the set's column ready, and shared by readers; the log's lock is taken
/// only inside a set's. Names take no lock.
#[derive(Drop)]
pub struct Table<H: BuildHasher, S: LogSink, L: Ledger, A: Allocator + Copy> {
    pub(crate) names: Names,
    pub(crate) cells: Vec<RwLock<Cell<H, L, A>>, A>,
    pub(crate) opened: Vec<u64, A>,
    pub(crate) log: Mutex<Log<S, L>>,
    pub(crate) passes: usize,
    pub(crate) max_runs: u64,
    pub(crate) records_before: u64,
    // The last field, as in a cell.
    pub(crate) alloc: A,
}

impl<H: BuildHasher, S: LogSink, L: Ledger, A: Allocator + Copy> Model for Table<H, S, L, A> {
    ghost use Rattle.std.specs.Prelude.{◌≡◌, ◌<◌, ◌≤◌, length};
    ghost use Rattle.set_table.specs.TableAndPassViews.{TableView};
    ghost use Rattle.set_table.specs.declared.limits.TheConstants.{MAX_PLACES};

    ghost Value = { TableView };

    ghost view = { λ t. record { names = t.names; opened = t.opened.items; passes = t.passes; max_runs = t.max_runs; records_before = t.records_before } };

    ghost invariant = { λ t. (length t.names ≡ length t.opened.items) × (length t.cells.items ≡ length t.opened.items) × (0 < length t.names) × (length t.names ≤ MAX_PLACES) };
}

/// A command at a place, with what its worker waits by for the lock, and the gate that is called inside.
#[derive(Drop)]
struct AtPlace<'a, 'c, R, G, A: Allocator> {
    rt: &'a R,
    gate: &'a G,
    place: usize,
    command: &'c Command<A>,
}

/// Takes a lock that readers share: where no writer has it or waits for it, by one try, in a quarter of the instructions.
fn take_shared<'l, T, R: Wait>(lock: &'l RwLock<T>, rt: &R) -> RwLockReadGuard<'l, T> {
    match lock.try_read() {
        Some(guard) => guard,
        None => lock.read(rt),
    }
}

/// What a table answers to a command.
#[derive(Drop)]
pub enum Answered<'c, A: Allocator> {
    /// The answer of the place that the command's key has.
    Ran(Answer<'c, A>),
    /// The reply to PING; or that of an empty set, to a command that makes none and for whose key no
    /// place was found. Of such a key it is promised that the pass knew no place for it.
    NoPlace(Reply<A>),
}

impl<H: BuildHasher, S: LogSink, L: Ledger, A: Allocator + Copy> Table<H, S, L, A> {
    /// The key's place, looked for in what the pass knows and then among the table's names. It waits
    /// for nobody. None promises only that the pass did not know it: another worker may name a place
    /// at any time.
    pub fn find(&self, pass: &mut Pass<A>, key: &[u8]) -> Option<usize>
        requires own { IsPassOf self.now pass.old }
        ensures own { IsPassOf self.now pass.new }
        ensures rest { (pass.new.number ≡ pass.old.number) × (pass.new.shares ≡ pass.old.shares) }
        ensures grows { NamingGrows pass.old.notes.known pass.new.notes.known }
        ensures found { MatchOption result (HasNoPlace pass.old key.now)
            (λ place. IsPlace pass.new.notes.known key.now place) }
    {
        find(&self.names, &mut pass.knowledge, key)
    }

    /// The key's place, which is given one where it has none. It waits for nobody.
    ///
    /// # Errors
    ///
    /// [`Refusal::TableFull`] where every place bears another key's name; [`Refusal::NoMemory`].
    pub fn claim(&self, pass: &mut Pass<A>, key: &[u8]) -> Result<usize, Refusal>
        requires own { IsPassOf self.now pass.old }
        ensures own { IsPassOf self.now pass.new }
        ensures rest { (pass.new.number ≡ pass.old.number) × (pass.new.shares ≡ pass.old.shares) }
        ensures grows { NamingGrows pass.old.notes.known pass.new.notes.known }
        ensures ok { IfOk result (λ place. IsPlace pass.new.notes.known key.now place) }
        ensures err { IfErr result (λ refusal. IsClaimRefusal pass.new key.now refusal) }
    {
        match claim(&self.names, &mut pass.knowledge, key) {
            Ok(place) => Ok(place),
            Err(ClaimFault::NoMemory) => Err(Refusal::NoMemory),
            Err(ClaimFault::TableFull) => Err(Refusal::TableFull),
        }
    }

    /// Answers a command from its key's place, by one step on some set with as many members as the answer's `found` tells:
    /// those at opening, with those that came in and without those that left since, of each at least as many as this pass
    /// was told. That it is the key's own set no clause says, since others write the sets between two calls: tests show
    /// it. A command that creates gives its key a place where it has none. Any other for whose key no place is found, in
    /// what the pass knows and then among the table's names, gets the reply of an empty set; promised is only that the
    /// pass knew none. PING gets its own.
    ///
    /// The pass's share of that place counts the run and what came in and left by it (the answer's `own`), or stays where
    /// a question was answered under the shared lock. All other shares stay. The names that the pass knows stay, and there
    /// may be more, where it is refused too. An answered command that creates leaves memory kept back for removals. `rt`
    /// waits for locks, and the gate is called under the place's.
    ///
    /// # Errors
    ///
    /// All of the pass's shares stay. [`Refusal::NoMemory`] may come to any command, at any time. [`Refusal::TableFull`]
    /// where a command that creates finds each place bearing another key's name. The others the place gives: the clauses
    /// here say only to which commands they may come, and those of [`crate::Cell::run`] say more, of a run behind the
    /// lock. The set and the log's count stay. [`Refusal::OutOfStep`] comes first, where the place and the pass's share
    /// of it tell different numbers, which was met in no test; then [`Refusal::Spent`], where the place has no run left,
    /// though a question that reads under the shared lock takes none; then [`Refusal::ScoreOverflow`], where a sum of
    /// INCR is no score, and those of the log, where the command would change the set.
    pub fn run<'c, R: Wait, G: TestGate>(
        &self,
        rt: &R,
        pass: &mut Pass<A>,
        command: &'c Command<A>,
        gate: &G,
    ) -> Result<Answered<'c, A>, Refusal>
        requires own { IsPassOf self.now pass.old }
        ensures own { IsPassOf self.now pass.new }
        ensures number { pass.new.number ≡ pass.old.number }
        ensures grows { NamingGrows pass.old.notes.known pass.new.notes.known }
        ensures ok { IfOk result
            (λ answered. IsAnswered self.now pass.old pass.new command.now answered) }
        ensures err { OnErr result (pass.new.shares ≡ pass.old.shares) }
        ensures refused { IfErr result
            (λ refusal. IsTableRefusal command.now.meaning pass.new refusal) }
        ensures kept { IsTrue (is_creating command.now.meaning)
            → OnOk result (kept_back ≤ pass.new.kept) }
    {
        let Some(key) = command.key() else {
            return Ok(Answered::NoPlace(reply_without_set(self.alloc, command)?));
        };
        let at = match self.place_of(pass, key, command.creates())? {
            Some(place) => AtPlace {
                rt,
                gate,
                place,
                command,
            },
            None => return Ok(Answered::NoPlace(reply_without_set(self.alloc, command)?)),
        };
        if command.writes() {
            return Ok(Answered::Ran(self.change_at(pass, &at)?));
        }
        Ok(Answered::Ran(self.ask_at(pass, &at)?))
    }

    /// Settles the log's record of this number and those before it, by the syncer of the log. Gives how many records are
    /// settled; None where they can't be, and then nothing more is appended.
    pub fn settle<R: Wait, K: SyncHandle>(
        &self,
        rt: &R,
        syncer: &Mutex<Syncer<K>>,
        number: u64,
    ) -> Option<u64>
        ensures enough { IfSome result (λ settled. number ≤ settled) }
    {
        syncer.lock(rt).settle(rt, &self.log, number)
    }

    /// The key's place, which is given one where it has none and the command creates.
    fn place_of(
        &self,
        pass: &mut Pass<A>,
        key: &[u8],
        creates: bool,
    ) -> Result<Option<usize>, Refusal>
        requires own { IsPassOf self.now pass.old }
        ensures own { IsPassOf self.now pass.new }
        ensures rest { (pass.new.number ≡ pass.old.number) × (pass.new.shares ≡ pass.old.shares) }
        ensures grows { NamingGrows pass.old.notes.known pass.new.notes.known }
        ensures ok { IfOk result
            (λ found. MatchOption found ((creates ≡ false) × HasNoPlace pass.old key.now)
            (λ place. IsPlace pass.new.notes.known key.now place)) }
        ensures err { IfErr result
            (λ refusal. IsTrue creates × IsClaimRefusal pass.new key.now refusal) }
    {
        if creates {
            return Ok(Some(self.claim(pass, key)?));
        }
        Ok(self.find(pass, key))
    }

    /// Runs a command that changes sets. An addition keeps memory back, which a removal that finds none lets go and is
    /// tried again.
    fn change_at<'c, R: Wait, G: TestGate>(
        &self,
        pass: &mut Pass<A>,
        at: &AtPlace<'_, 'c, R, G, A>,
    ) -> Result<Answer<'c, A>, Refusal>
        requires { MayBeAskedAt self.now pass.old at.now.place at.now.command.now }
        ensures pass { KeepsPass self.now pass.old pass.new }
        ensures answer { IsAnsweredAt self.now.opened pass.old.shares pass.new.shares at.now.place
            at.now.command.now result }
        ensures kept { IsTrue (is_creating at.now.command.now.meaning)
            → OnOk result (kept_back ≤ pass.new.kept) }
    {
        if at.command.creates() {
            pass.spare.keep()?;
            return self.run_at(pass, at);
        }
        match self.run_at(pass, at) {
            Err(refusal) if pass.spare.lets_go_for(at.command, refusal) => self.run_at(pass, at),
            ran => ran,
        }
    }

    /// Answers a command that reads: under the shared lock where the set can as it stands and reads few rows for it,
    /// else under the exclusive one.
    fn ask_at<'c, R: Wait, G: TestGate>(
        &self,
        pass: &mut Pass<A>,
        at: &AtPlace<'_, 'c, R, G, A>,
    ) -> Result<Answer<'c, A>, Refusal>
        requires may { MayBeAskedAt self.now pass.old at.now.place at.now.command.now }
        requires reading { is_writing at.now.command.now.meaning ≡ false }
        ensures pass { KeepsPass self.now pass.old pass.new }
        ensures answer { IsAnsweredAt self.now.opened pass.old.shares pass.new.shares at.now.place
            at.now.command.now result }
    {
        match self.read_at(pass, at) {
            Some(answer) => answer,
            None => self.run_reading_at(pass, at),
        }
    }

    /// Answers a command that reads under the place's exclusive lock.
    fn run_reading_at<'c, R: Wait, G: TestGate>(
        &self,
        pass: &mut Pass<A>,
        at: &AtPlace<'_, 'c, R, G, A>,
    ) -> Result<Answer<'c, A>, Refusal>
        requires may { MayBeAskedAt self.now pass.old at.now.place at.now.command.now }
        requires reading { is_writing at.now.command.now.meaning ≡ false }
        ensures pass { KeepsPass self.now pass.old pass.new }
        ensures answer { IsAnsweredAt self.now.opened pass.old.shares pass.new.shares at.now.place
            at.now.command.now result }
    {
        match self.run_at(pass, at) {
            // Another worker may have taken the place's last run since. Then the cell answers whatever it has to read.
            Err(Refusal::Spent) => match self.read_at(pass, at) {
                Some(answer) => answer,
                None => Err(Refusal::Spent),
            },
            ran => ran,
        }
    }

    /// Asks a place's cell under its shared lock, unless it had better be run.
    fn read_at<'c, R: Wait, G: TestGate>(
        &self,
        pass: &Pass<A>,
        at: &AtPlace<'_, 'c, R, G, A>,
    ) -> Option<Result<Answer<'c, A>, Refusal>>
        requires may { MayBeAskedAt self.now pass.now at.now.place at.now.command.now }
        requires reading { is_writing at.now.command.now.meaning ≡ false }
        ensures { IfSome result (IsAnsweredAt self.now.opened pass.now.shares pass.now.shares
            at.now.place at.now.command.now) }
    {
        let cell = take_shared(&self.cells[at.place], at.rt);
        at.gate.inside(at.place);
        pass.note_told(cell.last_record());
        cell.read_few(at.command, &pass.shares[at.place])
    }

    /// Runs a command at a place's cell under its exclusive lock.
    fn run_at<'c, R: Wait, G: TestGate>(
        &self,
        pass: &mut Pass<A>,
        at: &AtPlace<'_, 'c, R, G, A>,
    ) -> Result<Answer<'c, A>, Refusal>
        requires { MayBeAskedAt self.now pass.old at.now.place at.now.command.now }
        ensures pass { KeepsPass self.now pass.old pass.new }
        ensures kept { pass.new.kept ≡ pass.old.kept }
        ensures answer { IsAnsweredAt self.now.opened pass.old.shares pass.new.shares at.now.place
            at.now.command.now result }
    {
        let mut cell = self.cells[at.place].write(at.rt);
        at.gate.inside(at.place);
        let ran = cell.run(at.rt, at.command, &mut pass.shares[at.place], &self.log);
        pass.note_told(cell.last_record());
        ran
    }
}
