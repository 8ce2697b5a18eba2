//! Writing an append file anew.

ghost use Rattle.std.specs.Prelude.{◌≡◌, length, min, ◌-◌, ◌^◌, IfOk, IfSome, OnOk};
ghost use Rattle.log_records.specs.Dump.{dump, image};
ghost use Rattle.log_records.specs.Records.{text_of_records};
ghost use Rattle.log_records.specs.RewriteOutcome.{ReplaysTo, Writes};

use log_records::dumping::{put_bytes, put_set, replays_back};
use log_records::{LogSink, RewriteFault};
use sorted_sets::OneOwner;
use std::alloc::Allocator;
use std::hash::BuildHasher;

/// The header of version 2, as it is written.
const HEADER: &[u8] = b"*2\r\n$7\r\nZCRACKD\r\n$1\r\n2\r\n";

/// Writes the records of an owner's sets, and syncs.
fn put_sets<H: BuildHasher + Clone + Drop, S: LogSink, A: Allocator + Copy>(
    alloc: A,
    owner: &OneOwner<H, A>,
    sink: &mut S,
) -> Result<u64, RewriteFault>
    requires idle { owner.now.next ≡ None }
    ensures count { IfOk result (λ n. n ≡ min (length (dump owner.now.world)) (2 ^ 64 - 1)) }
    ensures written { Writes result (S.told sink.old) (S.told sink.new) (S.failures sink.old)
        (S.failures sink.new) (text_of_records (dump owner.now.world)) }
    ensures synced { OnOk result (IfSome (S.told sink.new) (λ all. S.synced sink.new ≡ length all)) }
{
    let mut count: u64 = 0;
    let mut next = owner.key_after(None);
    'keys: while let Some(key) = next {
        let rows = owner.pairs(key)?;
        count = count.saturating_add(put_set(alloc, sink, key, &rows)? as u64);
        next = owner.key_after(Some(key));
    }
    match sink.sync() {
        Ok(()) => Ok(count),
        Err(_) => Err(RewriteFault::Sink),
    }
}

/// Writes the sets of an owner anew, as a file of version 2: the header, and then the pairs of each
/// set in the order of their listing, as records of ZADD with 512 of them, the last with what
/// remains, and the sets in the byte order of their keys. Then syncs. A reload of these bytes replays
/// them, from no sets, to the owner's. Gives the number of records, which stays at 2^64 - 1; the
/// header is none.
///
/// # Errors
///
/// A prefix of these bytes was written then.
pub fn rewrite<H: BuildHasher + Clone + Drop, S: LogSink, A: Allocator + Copy>(
    alloc: A,
    owner: &OneOwner<H, A>,
    sink: &mut S,
) -> Result<u64, RewriteFault>
    requires idle { owner.now.next ≡ None }
    ensures count { IfOk result (λ n. n ≡ min (length (dump owner.now.world)) (2 ^ 64 - 1)) }
    ensures written { Writes result (S.told sink.old) (S.told sink.new) (S.failures sink.old)
        (S.failures sink.new) (text_of_records (image owner.now.world)) }
    ensures replays_back { ReplaysTo (text_of_records (image owner.now.world)) owner.now.world }
    ensures synced { OnOk result (IfSome (S.told sink.new) (λ all. S.synced sink.new ≡ length all)) }
{
    replays_back(owner);
    put_bytes(sink, HEADER)?;
    put_sets(alloc, owner, sink)
}
