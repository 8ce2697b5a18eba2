//! Reading an append file back.

ghost use Rattle.std.specs.Prelude.{◌≡◌, ◌≢◌, ℕ, ◌+◌, ◌-◌, ◌≤◌, ◌<◌, ◌^◌, [], ◌++◌, List, length, true, min, None, Ok, Err, Some, IfOk, OnOk, OnErr, IfErr, IsSome, MatchResult};
ghost use Rattle.std.specs.Io.KnownBytes.{prepend_known, IsAtEnd};
ghost use Rattle.resp_wire.specs.Device.{Rose, saturating_succ};
ghost use Rattle.zset_core.specs.SetsByKey.{World as WorldType};
ghost use Rattle.log_records.specs.Replay.{after};
ghost use Rattle.log_records.specs.ReloadOutcome.{ReloadHolds, ReloadReads};
ghost use Rattle.log_records.specs.ReloadSteps.{IsBetweenReads, ReloadStepped, Drained, ReadsOn, SourceFailed, IsOfBytes, UnreplayedFor, NotTakenFor, Takes};
ghost use Rattle.log_records.specs.declared.reload_outcome.ReloadFault.TheVariants as faults;

use log_records::replaying::{Unreplayed, replay_command};
use log_records::version::{is_header, names_version, number_of};
use log_records::{Loaded, ReloadFault, Version, text_len};
use resp_wire::{ByteSource, Decoder, MAX_READ_BUFFER, MAX_READS, Request, WireFault, laws};
use sorted_sets::OneOwner;
use std::alloc::Allocator;
use std::hash::BuildHasher;
use zset_commands::{Command, Refusal};

/// Replays one record. All sets stay where it is not replayed.
fn replay_one<H: BuildHasher + Clone + Drop, A: Allocator + Copy>(
    alloc: A,
    owner: &mut OneOwner<H, A>,
    version: Version,
    request: Request<A>,
) -> Result<(), Unreplayed>
    requires idle { owner.old.next ≡ None }
    ensures idle { owner.new.next ≡ None }
    ensures ok { OnOk result (after version owner.old.world request ≡ Some owner.new.world) }
    ensures err { OnErr result (owner.new.world ≡ owner.old.world) }
    ensures cause { IfErr result (λ cause. UnreplayedFor cause (after version owner.old.world request)) }
{
    let command = match Command::read(alloc, request) {
        Ok(command) => command,
        Err(Refusal::NoMemory) => return Err(Unreplayed::NoMemory),
        Err(_) => return Err(Unreplayed::NotACommand),
    };
    let replayed = replay_command(owner, version, &command);
    drop(command);
    replayed
}

/// What a reload keeps between its reads.
#[derive(Drop)]
struct Reloader<A: Allocator> {
    alloc: A,
    decoder: Decoder<A>,
    /// The number of records that were replayed.
    records: u64,
    /// How records are read, once the first one was taken.
    version: Option<Version>,
}

impl<A: Allocator + Copy> Reloader<A> {
    /// A reload before its first read. It takes no memory.
    fn new(alloc: A) -> Self
        ensures decoder { result.decoder ≡ record { held = []; taken = 0; fault = None } }
        ensures records { result.records ≡ 0 }
        ensures version { result.version ≡ None }
    {
        Reloader {
            alloc,
            decoder: Decoder::new(alloc),
            records: 0,
            version: None,
        }
    }

    /// Takes a record, of which the first tells how the others are read: the header is passed over,
    /// any other one is replayed and counted.
    fn take_record<H: BuildHasher + Clone + Drop>(
        &mut self,
        owner: &mut OneOwner<H, A>,
        request: Request<A>,
    ) -> Result<(), Unreplayed>
        requires idle { owner.old.next ≡ None }
        requires few { self.old.records < 2 ^ 60 }
        ensures idle { owner.new.next ≡ None }
        ensures decoder { self.new.decoder ≡ self.old.decoder }
        ensures ok { OnOk result (Takes self.old.version self.new.version self.old.records self.new.records
            owner.old.world owner.new.world request) }
        ensures few { self.new.records ≤ self.old.records + 1 }
        ensures err { OnErr result (owner.new.world ≡ owner.old.world) }
        ensures cause { IfErr result
            (λ cause. NotTakenFor cause self.old.version owner.old.world request) }
    {
        let version = match self.version {
            Some(version) => version,
            None => {
                if is_header(&request) {
                    self.version = Some(Version::Effects);
                    return Ok(());
                }
                if names_version(&request) {
                    return Err(Unreplayed::UnknownVersion);
                }
                Version::Commands
            }
        };
        replay_one(self.alloc, owner, version, request)?;
        self.version = Some(version);
        self.records += 1;
        Ok(())
    }

    /// Takes the next record that the decoder holds, and says whether there was one.
    fn replay_next<H: BuildHasher + Clone + Drop>(
        &mut self,
        owner: &mut OneOwner<H, A>,
    ) -> Result<bool, ReloadFault>
        requires idle { owner.old.next ≡ None }
        requires ready { IsBetweenReads self.old.decoder self.old.records }
        requires room { self.old.decoder.taken + length self.old.decoder.held < 2 ^ 60 }
        ensures idle { owner.new.next ≡ None }
        ensures bytes { self.new.decoder.taken + length self.new.decoder.held
            ≡ self.old.decoder.taken + length self.old.decoder.held }
        ensures ready { OnOk result (IsBetweenReads self.new.decoder self.new.records) }
        ensures took { result ≡ Ok true → self.old.decoder.taken < self.new.decoder.taken }
        ensures cause { IfErr result IsOfBytes }
        ensures stepped { (start : WorldType) (bytes : List ℕ)
            → ReloadHolds start bytes self.old.decoder owner.old.world self.old.records self.old.version
            → ReloadStepped result start bytes self.new.decoder owner.new.world self.new.records
            self.new.version }
    {
        // What a stream holds does not depend on the pieces that it comes in.
        laws::cut();
        // A record is a whole item, and the text behind the last one is the rest.
        laws::longest();
        match self.decoder.next() {
            Err(WireFault::NoMemory) => Err(ReloadFault::NoMemory),
            Err(WireFault::Protocol(_)) => Err(ReloadFault::Damaged(self.decoder.taken())),
            Ok(None) => Ok(false),
            Ok(Some(request)) => {
                let size = text_len(&request);
                match self.take_record(owner, request) {
                    Ok(()) => Ok(true),
                    Err(Unreplayed::NoMemory) => Err(ReloadFault::NoMemory),
                    Err(Unreplayed::UnknownVersion) => Err(ReloadFault::UnknownVersion),
                    Err(Unreplayed::NotACommand) => {
                        Err(ReloadFault::NotACommand(self.decoder.taken() - size))
                    }
                }
            }
        }
    }

    /// Replays all records that the decoder holds.
    fn replay_held<H: BuildHasher + Clone + Drop>(
        &mut self,
        owner: &mut OneOwner<H, A>,
    ) -> Result<(), ReloadFault>
        requires idle { owner.old.next ≡ None }
        requires ready { IsBetweenReads self.old.decoder self.old.records }
        requires room { self.old.decoder.taken + length self.old.decoder.held < 2 ^ 60 }
        ensures idle { owner.new.next ≡ None }
        ensures bytes { self.new.decoder.taken + length self.new.decoder.held
            ≡ self.old.decoder.taken + length self.old.decoder.held }
        ensures ready { OnOk result (IsBetweenReads self.new.decoder self.new.records) }
        ensures cause { IfErr result IsOfBytes }
        ensures drained { (start : WorldType) (bytes : List ℕ)
            → ReloadHolds start bytes self.old.decoder owner.old.world self.old.records self.old.version
            → Drained result start bytes self.new.decoder owner.new.world self.new.records
            self.new.version }
    {
        'records: while self.replay_next(owner)? {}
        Ok(())
    }

    /// Takes the next piece of the file, and replays all records that are whole then.
    fn take_piece<H: BuildHasher + Clone + Drop>(
        &mut self,
        owner: &mut OneOwner<H, A>,
        piece: &[u8],
    ) -> Result<(), ReloadFault>
        requires idle { owner.old.next ≡ None }
        requires ready { IsBetweenReads self.old.decoder self.old.records }
        requires room { self.old.decoder.taken + length self.old.decoder.held + length piece.now
            < 2 ^ 60 }
        ensures idle { owner.new.next ≡ None }
        ensures bytes { OnOk result (self.new.decoder.taken + length self.new.decoder.held
            ≡ self.old.decoder.taken + length self.old.decoder.held + length piece.now) }
        ensures ready { OnOk result (IsBetweenReads self.new.decoder self.new.records) }
        ensures cause { IfErr result IsOfBytes }
        ensures drained { (start : WorldType) (bytes : List ℕ)
            → ReloadHolds start bytes self.old.decoder owner.old.world self.old.records self.old.version
            → Drained result start (bytes ++ piece.now) self.new.decoder owner.new.world
            self.new.records self.new.version }
    {
        self.decoder.feed(piece)?;
        self.replay_held(owner)
    }

    /// Reads once, and replays all records that are whole then. None: the file may go on.
    fn read_on<R: ByteSource, H: BuildHasher + Clone + Drop>(
        &mut self,
        owner: &mut OneOwner<H, A>,
        source: &mut R,
        buffer: &mut [u8],
    ) -> Result<Option<Loaded>, ReloadFault>
        requires idle { owner.old.next ≡ None }
        requires ready { IsBetweenReads self.old.decoder self.old.records }
        requires some { 1 ≤ length buffer.old }
        requires room { self.old.decoder.taken + length self.old.decoder.held + length buffer.old
            < 2 ^ 60 }
        ensures idle { owner.new.next ≡ None }
        ensures bytes { OnOk result (self.new.decoder.taken + length self.new.decoder.held
            ≤ self.old.decoder.taken + length self.old.decoder.held + length buffer.old) }
        ensures ready { OnOk result (IsBetweenReads self.new.decoder self.new.records) }
        ensures round { ReadsOn (R.told source.old) (R.told source.new) self.old.decoder
            self.new.decoder owner.old.world owner.new.world self.old.records self.new.records
            self.old.version self.new.version result }
        ensures at_end { IfOk result (λ loaded. IsSome loaded → IsAtEnd (R.told source.new)) }
        ensures not_late { IfErr result (λ fault. fault ≢ faults.TooManyReads) }
        ensures calls { R.calls source.new ≡ saturating_succ (R.calls source.old) }
        ensures failures { MatchResult result
            (λ _. R.failures source.new ≡ R.failures source.old)
            (λ fault. SourceFailed fault (R.failures source.old) (R.failures source.new)) }
    {
        // What a stream holds does not depend on the pieces that it comes in.
        laws::cut();
        match source.read(buffer) {
            Err(_) => Err(ReloadFault::ReadFault),
            Ok(0) => Ok(Some(Loaded {
                records: self.records,
                whole: self.decoder.taken(),
                torn: self.decoder.rest_len() as u64,
                version: number_of(self.version),
            })),
            Ok(n) => {
                self.take_piece(owner, &buffer[..n])?;
                Ok(None)
            }
        }
    }
}

/// Replays the records that a source gives, on the sets of an owner, until the source is at its
/// end. The first record decides whether they are commands or effects, as [`Version`] says.
///
/// `buffer` is the length of the slice that is handed to `read`, in bytes, and `max_reads` how
/// often it is handed. Bytes at the end that are less than a record are not replayed: they are the
/// torn end of a record that was being written.
///
/// `read` says which bytes were taken from the source, and that the owner's sets are those that the
/// records in them replay to from its sets before. A source that does not tell its bytes, as a file
/// doesn't, makes that a claim on some bytes: that they are the file's is shown by tests.
///
/// # Errors
///
/// [`ReloadFault::Damaged`] and [`ReloadFault::NotACommand`] name the byte where the first record with a
/// fault begins, counted from where the source stood; the owner then holds the sets that the records
/// before it replay to. At [`ReloadFault::UnknownVersion`] it holds those that it had. At
/// [`ReloadFault::ReadFault`], [`ReloadFault::TooManyReads`] (`max_reads` reads did not come to the
/// end) and [`ReloadFault::NoMemory`] it holds those that some of the records that were read replay
/// to, from the first on: all of them, but where memory ran out.
pub fn reload<R: ByteSource, H: BuildHasher + Clone + Drop, A: Allocator + Copy>(
    alloc: A,
    source: &mut R,
    owner: &mut OneOwner<H, A>,
    buffer: usize,
    max_reads: u64,
) -> Result<Loaded, ReloadFault>
    requires idle { owner.old.next ≡ None }
    requires some { 1 ≤ buffer }
    requires buffer { buffer ≤ MAX_READ_BUFFER }
    requires reads { max_reads ≤ MAX_READS }
    ensures idle { owner.new.next ≡ None }
    ensures read { ReloadReads (R.told source.old) (R.told source.new) owner.old.world result
        owner.new.world }
    ensures at_end { OnOk result (IsAtEnd (R.told source.new)) }
    ensures reads { R.calls source.new ≤ R.calls source.old + max_reads }
    ensures many { result ≡ Err faults.TooManyReads
        → min (R.calls source.old + max_reads) (2 ^ 64 - 1) ≤ R.calls source.new }
    ensures failures { MatchResult result (λ _. R.failures source.new ≡ R.failures source.old)
        (λ fault. SourceFailed fault (R.failures source.old) (R.failures source.new)) }
{
    // What a stream holds does not depend on the pieces that it comes in.
    laws::cut();
    let mut piece = vec![in alloc; 0; buffer]?;
    let mut reloader = Reloader::new(alloc);
    'reads: for _ in 0..max_reads {
        if let Some(loaded) = reloader.read_on(owner, source, &mut piece)? {
            return Ok(loaded);
        }
    }
    Err(ReloadFault::TooManyReads)
}
