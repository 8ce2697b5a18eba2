//! An owner of sets whose changes are logged.

ghost use Rattle.std.specs.Prelude.{◌≡◌, ◌≢◌, ◌↔◌, ◌⊎◌, ℕ, List, IfSome, ◌+◌, ◌≤◌, None, Some, true, false, IfOk, IfErr, OnOk, IsTrue, IsErr, IsErrOf};
ghost use Rattle.resp_wire.specs.Response.{response_of};
ghost use Rattle.resp_wire.specs.RequestEncoding.{request};
ghost use Rattle.zset_commands.specs.AbstractCommand.{is_writing, key_of};
ghost use Rattle.sorted_sets.specs.SetAndOwnerViews.{IsPreparedAt, IsPreparedFor};
ghost use Rattle.zset_core.specs.SetsByKey.{World as WorldType, put_set, set_at};
ghost use Rattle.log_records.specs.EffectRecords.{next_record, prepared_record};
ghost use Rattle.log_records.specs.LogViewAndSteps.{LogView, Appends, HasRecords, NotSettled, Settles, records_after, share_after};
ghost use Rattle.log_records.specs.Replay.{after};
ghost use Rattle.log_records.specs.declared.version.Version.TheVariants.{Effects};
ghost use Rattle.log_records.specs.LoggedOwnerViewAndRuns.{LoggedView, AreSame, Replays, NotRecorded, Ran, Refused};

use crate::log::Log;
use log_records::{LogSink, Record, RecordShare};
use resp_wire::Reply;
use sorted_sets::{OneOwner, ZSet};
use std::alloc::Allocator;
use std::hash::BuildHasher;
use std::marker::Model;
use std::sync::ledger::Ledger;
use zset_commands::{Command, Refusal};

/// Appends the record of a command that a set has prepared.
fn append_prepared<H: BuildHasher, S: LogSink, L: Ledger, A: Allocator + Copy>(
    alloc: A,
    set: &ZSet<H, A>,
    log: &mut Log<S, L>,
    share: &mut RecordShare<L>,
    command: &Command<A>,
) -> Result<(), Refusal>
    requires writing { IsTrue (is_writing command.now.meaning) }
    requires prepared { IsPreparedFor set.now.members command.now.meaning set.now.next }
    requires changes { IfSome set.now.next (λ next. next.members ≢ set.now.members) }
    ensures ok { OnOk result (Appends log.old log.new (request (next_record command.now set.now))) }
    ensures err { IfErr result
        (λ refusal. NotRecorded refusal log.old log.new (request (next_record command.now set.now))) }
    ensures share { share.new ≡ share_after share.old result }
    ensures records { (records : _) → HasRecords log.old records
        → HasRecords log.new (records_after records (next_record command.now set.now) result) }
    ensures replays { OnOk result ((world : WorldType) (key : List ℕ) → key_of command.now.meaning ≡ Some key
        → set_at world key ≡ set.now.members
        → IfSome set.now.next (λ next. after Effects world (next_record command.now set.now)
        ≡ Some (put_set world key next.members))) }
{
    let entry = Record::of(alloc, command, set)?;
    log.append(share, &entry)
}

/// Appends the record of a command that an owner has prepared in the set of its key.
fn append_command<H: BuildHasher + Clone + Drop, S: LogSink, L: Ledger, A: Allocator + Copy>(
    alloc: A,
    owner: &OneOwner<H, A>,
    log: &mut Log<S, L>,
    share: &mut RecordShare<L>,
    command: &Command<A>,
) -> Result<(), Refusal>
    requires writing { IsTrue (is_writing command.now.meaning) }
    requires prepared { IsPreparedAt owner.now.world (key_of command.now.meaning) command.now.meaning
        owner.now.next }
    requires changes { IfSome owner.now.next
        (λ next. next.1.members ≢ set_at owner.now.world next.0) }
    ensures ok { OnOk result (Appends log.old log.new (request (prepared_record command.now owner.now))) }
    ensures err { IfErr result (λ refusal. NotRecorded refusal log.old log.new
        (request (prepared_record command.now owner.now))) }
    ensures share { share.new ≡ share_after share.old result }
    ensures records { (records : _) → HasRecords log.old records
        → HasRecords log.new (records_after records (prepared_record command.now owner.now) result) }
    ensures replays { OnOk result ((world : WorldType) → AreSame world owner.now.world
        → IfSome owner.now.next (λ next. after Effects world (prepared_record command.now owner.now)
        ≡ Some (put_set world next.0 next.1.members))) }
{
    match command.key() {
        None => unreachable!(),
        Some(key) => match owner.set(key) {
            None => unreachable!(),
            Some(set) => append_prepared(alloc, set, log, share, command),
        },
    }
}

/// Runs a command that changes sets once: prepares it, appends its record where the set will change,
/// commits it.
fn run_writing_once<H: BuildHasher + Clone + Drop, S: LogSink, L: Ledger, A: Allocator + Copy>(
    alloc: A,
    owner: &mut OneOwner<H, A>,
    log: &mut Log<S, L>,
    share: &mut RecordShare<L>,
    command: &Command<A>,
) -> Result<Reply<A>, Refusal>
    requires idle { owner.old.next ≡ None }
    requires writing { IsTrue (is_writing command.now.meaning) }
    ensures idle { owner.new.next ≡ None }
    ensures ok { IfOk result (λ reply. Ran
        (record { world = owner.old.world; log = log.old; share = share.old })
        (record { world = owner.new.world; log = log.new; share = share.new }) command.now
        (response_of reply)) }
    ensures err { IfErr result (λ refusal. Refused
        (record { world = owner.old.world; log = log.old; share = share.old })
        (record { world = owner.new.world; log = log.new; share = share.new }) command.now refusal) }
    ensures unbroken { OnOk result (log.old.broken ≡ true → AreSame owner.old.world owner.new.world) }
    ensures replays { (start : WorldType)
        → Replays start (record { world = owner.old.world; log = log.old; share = share.old })
        → Replays start (record { world = owner.new.world; log = log.new; share = share.new }) }
{
    let _request = command.request();
    let outline = owner.prepare(command)?;
    if outline.changed {
        if let Err(refusal) = append_command(alloc, owner, log, share, command) {
            owner.drop_prepared(command);
            return Err(refusal);
        }
    }
    Ok(owner.commit(command))
}

/// Runs a command that reads.
fn run_reading<H: BuildHasher + Clone + Drop, A: Allocator + Copy>(
    owner: &mut OneOwner<H, A>,
    command: &Command<A>,
) -> Result<Reply<A>, Refusal>
    requires idle { owner.old.next ≡ None }
    requires reading { is_writing command.now.meaning ≡ false }
    ensures idle { owner.new.next ≡ None }
    ensures same { AreSame owner.old.world owner.new.world }
    ensures ok { (log : LogView) (share : ℕ)
        → IfOk result (λ reply. Ran (record { world = owner.old.world; log = log; share = share })
        (record { world = owner.new.world; log = log; share = share }) command.now
        (response_of reply)) }
    ensures err { (log : LogView) (share : ℕ)
        → IfErr result (λ refusal. Refused
        (record { world = owner.old.world; log = log; share = share })
        (record { world = owner.new.world; log = log; share = share }) command.now refusal) }
    ensures replays { (start : WorldType) (log : LogView) (share : ℕ)
        → Replays start (record { world = owner.old.world; log = log; share = share })
        → Replays start (record { world = owner.new.world; log = log; share = share }) }
{
    match owner.run(command) {
        Ok(reply) => Ok(reply),
        Err(refusal) => Err(refusal),
    }
}

/// An owner of sets whose changes are logged: a command that changes a set is answered once its record was appended, so
/// that it is synced then, or, where the log is deferred, when [`LoggedOwner::sync`] is called. A contract sees the sets,
/// the log, and how many records it appended.
#[derive(Drop)]
pub struct LoggedOwner<H: BuildHasher, S: LogSink, L: Ledger, A: Allocator + Copy> {
    alloc: A,
    owner: OneOwner<H, A>,
    log: Log<S, L>,
    share: RecordShare<L>,
}

impl<H: BuildHasher, S: LogSink, L: Ledger, A: Allocator + Copy> Model for LoggedOwner<H, S, L, A> {
    ghost use Rattle.log_records.specs.LoggedOwnerViewAndRuns.{LoggedView};

    ghost Value = { LoggedView };

    ghost use Rattle.std.specs.Coded.{codes};
    ghost use Rattle.sorted_sets.specs.SetAndOwnerViews.{coded_members, coded_world};

    ghost coded = { Prim.hlevel (codes, coded_members, coded_world) };

    ghost use Rattle.std.specs.Prelude.{◌≡◌, None};

    ghost view = { λ o. record { world = o.owner.world; log = o.log; share = o.share } };

    ghost invariant = { λ o. o.owner.next ≡ None };
}

impl<H: BuildHasher + Clone + Drop, S: LogSink, L: Ledger, A: Allocator + Copy> LoggedOwner<
    H,
    S,
    L,
    A,
> {
    /// An owner whose changes go to a log from now on. It takes one of the log's shares, and no
    /// memory.
    pub fn new(alloc: A, owner: OneOwner<H, A>, log: Log<S, L>) -> Self
        requires idle { owner.next ≡ None }
        requires two { 2 ≤ log.parts }
        ensures world { result.world ≡ owner.world }
        ensures log { result.log ≡ record log { parts = result.log.parts } }
        ensures part { result.log.parts + 1 ≡ log.parts }
        ensures share { result.share ≡ 0 }
        // A log that has no record yet replays from the world to the world.
        ensures replays { log.appended ≡ 0 → Replays owner.world result }
    {
        let mut log = log;
        let share = log.split();
        LoggedOwner {
            alloc,
            owner,
            log,
            share,
        }
    }

    /// Runs a command. One that changes a set is prepared, its record is appended, and then it is
    /// committed; one that changes nothing asks the log nothing.
    ///
    /// # Errors
    ///
    /// All sets are as they were. [`Refusal::NoMemory`] or [`Refusal::ScoreOverflow`]: the log was
    /// not asked. [`Refusal::LogBroken`], [`Refusal::LogFull`] or [`Refusal::LogRefused`]: the
    /// command would change a set, and [`Log::append`] refused its record.
    pub fn run(&mut self, command: &Command<A>) -> Result<Reply<A>, Refusal>
        ensures ok { IfOk result (λ reply. Ran self.old self.new command.now (response_of reply)) }
        ensures err { IfErr result (λ refusal. Refused self.old self.new command.now refusal) }
        // Once an append failed, only commands that change no set succeed.
        ensures unbroken { OnOk result
            (self.old.log.broken ≡ true → AreSame self.old.world self.new.world) }
        // `Replays start owner`: from the world `start` the records that were answered lead to the owner's
        // sets. Whatever this call does, also where it refuses, what held of a world before holds of it
        // after: so from the sets that a log began with its records lead to the sets as they are. Where
        // the sink does not tell its bytes, as a file doesn't, this speaks of some records and not of
        // the file's.
        ensures replays { (start : WorldType) → Replays start self.old → Replays start self.new }
    {
        if !command.writes() {
            return run_reading(&mut self.owner, command);
        }
        match run_writing_once(
            self.alloc,
            &mut self.owner,
            &mut self.log,
            &mut self.share,
            command,
        ) {
            // A removal that finds no memory lets go what the owner keeps back, and is run again.
            Err(refusal) if self.owner.lets_go_for(command, refusal) => run_writing_once(
                self.alloc,
                &mut self.owner,
                &mut self.log,
                &mut self.share,
                command,
            ),
            ran => ran,
        }
    }

    /// Settles the records of a deferred log, as [`Log::sync`] does. No set changes.
    ///
    /// # Errors
    ///
    /// Those of [`Log::sync`].
    pub fn sync(&mut self) -> Result<(), Refusal>
        ensures sets { (self.new.world ≡ self.old.world) × (self.new.share ≡ self.old.share) }
        ensures ok { OnOk result (Settles self.old.log self.new.log) }
        ensures unbroken { OnOk result (self.old.log.broken ≡ false) }
        ensures err { IfErr result (λ refusal. NotSettled refusal self.old.log self.new.log) }
        ensures replays { (start : WorldType) → Replays start self.old → Replays start self.new }
    {
        self.log.sync()
    }

    /// Whether all records are settled.
    pub fn is_settled(&self) -> bool
        ensures settled { IsTrue result ↔ (self.now.log.settled ≡ self.now.log.appended) }
        ensures within { self.now.log.settled ≤ self.now.log.appended }
    {
        self.log.settled() == self.log.appended()
    }

    /// The owner and the log. The share of the records that were appended here is discarded.
    pub fn into_parts(self) -> (OneOwner<H, A>, Log<S, L>)
        ensures world { result.0.world ≡ self.world }
        ensures idle { result.0.next ≡ None }
        ensures log { result.1 ≡ self.log }
    {
        let LoggedOwner {
            alloc: _,
            owner,
            log,
            share: _,
        } = self;
        (owner, log)
    }
}
