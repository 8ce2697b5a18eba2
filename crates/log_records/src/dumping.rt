//! Writing the records of a set anew, and what the records of all sets replay to.

ghost use Rattle.std.specs.Prelude.{◌≡◌, ◌≤◌, [], ◌∷◌, ◌++◌, length, IfOk, OnOk};
ghost use Rattle.resp_wire.specs.RequestEncoding.{request};
ghost use Rattle.log_records.specs.Dump.{add_record, pieces, piece_records, set_records, image};
ghost use Rattle.log_records.specs.Records.{text_of_records};
ghost use Rattle.log_records.specs.RewriteOutcome.{ReplaysTo, Writes};
ghost use Rattle.log_records.specs.declared.dumping.RewriteFault.TheVariants as faults;
ghost use Rattle.score_bounds.specs.ScoreTexts.{score_text};

use crate::log_sinks::LogSink;
use crate::writing_out::write_out;
use crack_kernel::Row;
use resp_wire::{Bytes, BytesList, Reply, laws, write_reply};
use score_bounds::grammar_laws::printed_scores;
use score_bounds::write_score;
use sorted_sets::OneOwner;
use std::alloc::{AllocError, Allocator};
use std::hash::BuildHasher;
use thiserror::Error;

/// The most pairs of one record.
const PIECE: usize = 512;

/// Why a rewrite ended.
#[derive(Clone, Copy, Debug, PartialEq, Eq, Error)]
pub enum RewriteFault {
    #[error("out of memory")]
    NoMemory,
    #[error("the new append file failed")]
    Sink,
}

impl From<AllocError> for RewriteFault {
    ghost from_gives = { λ _ fault. fault ≡ faults.NoMemory };

    fn from(_error: AllocError) -> RewriteFault {
        RewriteFault::NoMemory
    }
}

/// A score as a byte string.
fn score_bytes<A: Allocator>(alloc: A, score: i64) -> Result<Bytes<A>, AllocError>
    ensures { IfOk result (λ text. text ≡ score_text score) }
{
    let mut text = Vec::new(alloc);
    write_score(score, &mut text)?;
    Ok(Bytes::new(text))
}

/// A score and its member, as two arguments more.
fn push_pair<A: Allocator + Copy>(
    alloc: A,
    words: &mut Vec<Bytes<A>, A>,
    pair: &Row<A>,
) -> Result<(), AllocError>
    ensures { OnOk result (words.new.items ≡ words.old.items ++ score_text pair.now.0 ∷ pair.now.1
        ∷ []) }
{
    words.push(score_bytes(alloc, pair.score())?)?;
    words.push(Bytes::from_slice(alloc, pair.member())?)?;
    Ok(())
}

/// The arguments of ZADD with these pairs.
fn words_of<A: Allocator + Copy>(
    alloc: A,
    key: &[u8],
    pairs: &[Row<A>],
) -> Result<BytesList<A>, AllocError>
    ensures { IfOk result (λ words. words ≡ add_record key.now pairs.now) }
{
    let mut words = Vec::new(alloc);
    words.push(Bytes::from_slice(alloc, b"ZADD")?)?;
    words.push(Bytes::from_slice(alloc, key)?)?;
    for row in pairs {
        push_pair(alloc, &mut words, row)?;
    }
    Ok(BytesList::new(words))
}

/// The text of a record of these pairs.
fn text_of<A: Allocator + Copy>(
    alloc: A,
    key: &[u8],
    pairs: &[Row<A>],
) -> Result<Vec<u8, A>, AllocError>
    ensures { IfOk result (λ text. text.items ≡ request (add_record key.now pairs.now)) }
{
    let words = words_of(alloc, key, pairs)?;
    let mut text = Vec::new(alloc);
    // An array of bulk strings has the same encoding as a reply and as a request.
    write_reply(&Reply::List(words), &mut text)?;
    Ok(text)
}

/// Writes bytes.
pub fn put_bytes<S: LogSink>(sink: &mut S, bytes: &[u8]) -> Result<(), RewriteFault>
    ensures { Writes result (S.told sink.old) (S.told sink.new) (S.failures sink.old)
        (S.failures sink.new) bytes.now }
{
    if write_out(sink, bytes).whole {
        Ok(())
    } else {
        Err(RewriteFault::Sink)
    }
}

/// Writes a record of these pairs.
fn put_record<S: LogSink, A: Allocator + Copy>(
    alloc: A,
    sink: &mut S,
    key: &[u8],
    pairs: &[Row<A>],
) -> Result<(), RewriteFault>
    ensures { Writes result (S.told sink.old) (S.told sink.new) (S.failures sink.old)
        (S.failures sink.new) (request (add_record key.now pairs.now)) }
{
    let text = text_of(alloc, key, pairs)?;
    put_bytes(sink, &text)
}

/// Writes the records of one set, and gives their number.
pub fn put_set<S: LogSink, A: Allocator + Copy>(
    alloc: A,
    sink: &mut S,
    key: &[u8],
    rows: &[Row<A>],
) -> Result<usize, RewriteFault>
    ensures count { IfOk result (λ n. n ≡ length (piece_records key.now rows.now)) }
    ensures few { IfOk result (λ n. n ≤ length rows.now) }
    ensures written { Writes result (S.told sink.old) (S.told sink.new) (S.failures sink.old)
        (S.failures sink.new) (text_of_records (piece_records key.now rows.now)) }
{
    let mut count = 0;
    let mut rest = rows;
    'pieces: while !rest.is_empty() {
        let (piece, behind) = rest.split_at(PIECE.min(rest.len()));
        put_record(alloc, sink, key, piece)?;
        count += 1;
        rest = behind;
    }
    Ok(count)
}

/// A law: the text of an owner's records, behind the header, replays to its sets. The body does nothing.
pub fn replays_back<H: BuildHasher + Clone + Drop, A: Allocator + Copy>(owner: &OneOwner<H, A>)
    ensures { ReplaysTo (text_of_records (image owner.now.world)) owner.now.world }
{
    owner.bounds();
    // A score is printed as it is read.
    printed_scores();
    // The text of records is read as these records.
    laws::longest();
}
