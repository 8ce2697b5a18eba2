//! The log: records one behind the other, each synced before the next, or many by one sync.

ghost use Rattle.std.specs.Prelude.{◌≡◌, ◌≢◌, ℕ, ◌+◌, ◌≤◌, ◌^◌, ◌↔◌, length, true, false, OnOk, IfErr, IfSome, IsTrue};
ghost use Rattle.resp_wire.specs.RequestEncoding.{request};
ghost use Rattle.log_records.specs.LogViewAndSteps.{Appends, HasRecords, IsLog, NotAppended, NotSettled, Readable, Settles, WroteOut, empty_log, settled_with, share_after, records_after};

use log_records::writing_out::put;
use log_records::{LogSink, Record, RecordShare};
use resp_wire::laws;
use std::alloc::Allocator;
use std::marker::Model;
use std::sync::ledger::{Blank, Book, Ledger, Share};
use zset_commands::Refusal;

/// An append file that is being written: records one behind the other in a sink. Each is synced before its append is
/// answered, or, in a log that is deferred, when [`Log::sync`] is called. It counts its records and gives away shares of
/// that count.
#[derive(Drop)]
pub struct Log<S: LogSink, L: Ledger> {
    sink: S,
    book: Book<L>,
    rest: Share<L>,
    appended: u64,
    settled: u64,
    written: u128,
    limit: u64,
    deferred: bool,
    broken: bool,
}

impl<S: LogSink, L: Ledger> Model for Log<S, L> {
    ghost use Rattle.std.specs.Prelude.{◌≡◌};
    ghost use Rattle.log_records.specs.LogViewAndSteps.{LogView, IsLog};

    ghost Value = { LogView };

    ghost view = { λ a. record {
      told = S.told a.sink;
      synced = S.synced a.sink;
      calls = S.calls a.sink;
      failures = S.failures a.sink;
      appended = a.appended;
      settled = a.settled;
      written = a.written;
      limit = a.limit;
      deferred = a.deferred;
      broken = a.broken;
      parts = a.rest.parts;
    } };

    ghost invariant = { λ a. IsLog (record {
      told = S.told a.sink;
      synced = S.synced a.sink;
      calls = S.calls a.sink;
      failures = S.failures a.sink;
      appended = a.appended;
      settled = a.settled;
      written = a.written;
      limit = a.limit;
      deferred = a.deferred;
      broken = a.broken;
      parts = a.rest.parts;
    }) × (a.book.total ≡ a.appended) };
}

/// How many records are settled once one more was appended.
fn settled_after(deferred: bool, settled: u64, appended: u64) -> u64
    ensures { result ≡ settled_with deferred settled appended }
{
    if deferred { settled } else { appended }
}

impl<S: LogSink, L: Ledger> Log<S, L> {
    /// A log of no records, behind whatever its sink holds. At most `max_records` can be appended.
    pub fn new(blank: Blank, sink: S, max_records: u64) -> Self
        requires name { blank.name ≡ L.name }
        requires parts { blank.parts ≡ L.parts }
        requires two { 2 ≤ blank.parts }
        requires some { 1 ≤ max_records }
        requires limited { max_records ≤ 2 ^ 40 }
        ensures { result ≡ empty_log (S.told sink) (S.synced sink) (S.calls sink) (S.failures sink)
            max_records false blank.parts }
    {
        let (book, rest) = blank.open::<L>();
        Log {
            sink,
            book,
            rest,
            appended: 0,
            settled: 0,
            written: 0,
            limit: max_records,
            deferred: false,
            broken: false,
        }
    }

    /// The same, but deferred: its appends leave their records unsynced until [`Log::sync`].
    pub fn deferred(blank: Blank, sink: S, max_records: u64) -> Self
        requires name { blank.name ≡ L.name }
        requires parts { blank.parts ≡ L.parts }
        requires two { 2 ≤ blank.parts }
        requires some { 1 ≤ max_records }
        requires limited { max_records ≤ 2 ^ 40 }
        ensures { result ≡ empty_log (S.told sink) (S.synced sink) (S.calls sink) (S.failures sink)
            max_records true blank.parts }
    {
        let mut log = Self::new(blank, sink, max_records);
        log.deferred = true;
        log
    }

    /// One share, of no record yet.
    pub fn split(&mut self) -> RecordShare<L>
        requires { 2 ≤ self.old.parts }
        ensures none { result ≡ 0 }
        ensures part { self.new.parts + 1 ≡ self.old.parts }
        ensures same { self.new ≡ record self.old { parts = self.new.parts } }
        ensures log { IsLog self.new }
    {
        RecordShare::new(self.rest.split_off(1, 0))
    }

    /// Whether an append or a sync failed. It is so for good.
    pub fn is_broken(&self) -> bool
        ensures { IsTrue result ↔ (self.now.broken ≡ true) }
    {
        self.broken
    }

    /// The number of records that were appended.
    pub fn appended(&self) -> u64
        ensures { result ≡ self.now.appended }
    {
        self.appended
    }

    /// Writes a record out whole, and syncs it, unless the log is deferred. The log and `share` count one record more
    /// then. It takes no memory of its own.
    ///
    /// # Errors
    ///
    /// Log and `share` count no record more. [`Refusal::LogBroken`] where an earlier append failed, or a sync, the log's
    /// own or a syncer's beside it ([`Log::break_off`]), and [`Refusal::LogFull`] where as many records were appended as
    /// may be: the log stays as it is, and the sink is not touched. [`Refusal::LogRefused`] where the sink failed in this
    /// call: the record may stand there in part or whole, and the log is broken for good.
    pub fn append<A: Allocator>(
        &mut self,
        share: &mut RecordShare<L>,
        entry: &Record<A>,
    ) -> Result<(), Refusal>
        ensures ok { OnOk result (Appends self.old self.new (request entry.now)) }
        ensures err { IfErr result
            (λ refusal. NotAppended refusal self.old self.new (request entry.now)) }
        ensures share { share.new ≡ share_after share.old result }
        // Whatever records the sink ends with before the call, it ends with them and this one on Ok, and on Err with them
        // and at most a prefix of one more. Of a sink that does not tell its bytes this says nothing.
        ensures records { (records : _) → HasRecords self.old records
            → HasRecords self.new (records_after records entry.now result) }
    {
        if self.broken {
            return Err(Refusal::LogBroken);
        }
        if self.appended == self.limit {
            return Err(Refusal::LogFull);
        }
        let out = put(&mut self.sink, entry.text(), self.deferred);
        self.written += out.taken as u128;
        if !out.whole {
            self.broken = true;
            return Err(Refusal::LogRefused);
        }
        share.rise(&mut self.book, self.appended + 1);
        self.appended += 1;
        self.settled = settled_after(self.deferred, self.settled, self.appended);
        Ok(())
    }

    /// How many of the records are settled: a good sync came behind them.
    pub fn settled(&self) -> u64
        ensures settled { result ≡ self.now.settled }
        ensures within { self.now.settled ≤ self.now.appended }
        // Where no sync is deferred each append settles its record.
        ensures at_once { self.now.deferred ≡ false → self.now.settled ≡ self.now.appended }
    {
        self.settled
    }

    /// Breaks the log off: from now on nothing is appended. For one who settles its records beside it, and failed.
    pub fn break_off(&mut self)
        ensures { self.new ≡ record self.old { broken = true } }
    {
        self.broken = true;
    }

    /// Settles all records by one sync, where one of them is not settled yet.
    ///
    /// # Errors
    ///
    /// [`Refusal::LogBroken`] where the log was broken: the sink is not touched. [`Refusal::LogRefused`]
    /// where the sync failed: no record that waited is settled, and the log is broken for good.
    pub fn sync(&mut self) -> Result<(), Refusal>
        ensures ok { OnOk result (Settles self.old self.new) }
        ensures unbroken { OnOk result (self.old.broken ≡ false) }
        ensures err { IfErr result (λ refusal. NotSettled refusal self.old self.new) }
        // The records stand as they stood.
        ensures records { (records : _) → HasRecords self.old records → HasRecords self.new records }
    {
        if self.broken {
            return Err(Refusal::LogBroken);
        }
        if self.settled == self.appended {
            return Ok(());
        }
        if self.sink.sync().is_err() {
            self.broken = true;
            return Err(Refusal::LogRefused);
        }
        self.settled = self.appended;
        Ok(())
    }

    /// The sink. A reload of what a crash leaves of the bytes that the log wrote meets no fault, and replays the first of
    /// its records: all that are settled, where the bytes reach the last good sync. Behind all that were appended one more
    /// may stand, which was refused.
    pub fn into_sink(self) -> S
        ensures told { S.told result ≡ self.told }
        ensures synced { S.synced result ≡ self.synced }
        ensures counts { (S.calls result ≡ self.calls) × (S.failures result ≡ self.failures) }
        ensures prefixes { IfSome self.told
            (λ bytes. Readable bytes self.synced self.settled self.appended self.written) }
    {
        // What a log wrote is whole records and a prefix of one more.
        laws::longest();
        // Such a prefix is no item yet, and has no fault.
        laws::faults();
        let Log {
            sink,
            book: _,
            rest: _,
            appended: _,
            settled: _,
            written: _,
            limit: _,
            deferred: _,
            broken: _,
        } = self;
        sink
    }
}
