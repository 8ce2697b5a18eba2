//! Records.

ghost use Rattle.std.specs.Prelude.{◌≡◌, ◌≢◌, ◌+◌, ◌≤◌, ◌++◌, ◌∷◌, codes, length, List, ℕ, Some, IfOk, IfSome, OnOk, IsTrue};
ghost use Rattle.std.specs.List.{AllByRecursion, flat_map};
ghost use Rattle.resp_wire.specs.RequestEncoding.{argument, most_arguments, request};
ghost use Rattle.score_bounds.specs.ScoreTexts.{IsScore};
ghost use Rattle.zset_commands.specs.AbstractCommand.{key_of, is_writing};
ghost use Rattle.sorted_sets.specs.MovedMembers.{prepared_effect};
ghost use Rattle.sorted_sets.specs.SetAndOwnerViews.{IsPreparedFor};
ghost use Rattle.zset_core.specs.SetsByKey.{World as WorldType, set_at, put_set};
ghost use Rattle.log_records.specs.EffectRecords.{HasScore, effect_record, effect_words, next_record, words_behind};
ghost use Rattle.log_records.specs.Records.{IsRecord};
ghost use Rattle.log_records.specs.Replay.{after};
ghost use Rattle.log_records.specs.declared.version.Version.TheVariants.{Effects};

use resp_wire::{laws, write_array_header, write_bulk, write_number_bulk, write_request};
use score_bounds::grammar_laws::printed_scores;
use sorted_sets::ZSet;
use std::alloc::{AllocError, Allocator};
use std::hash::BuildHasher;
use std::marker::Model;
use zset_commands::Command;

/// The most bytes that stand round an argument: a mark, a number of at most five digits, and the ends of two
/// lines.
const FRAME: usize = 10;

/// The most bytes of a score.
const SCORE: usize = 20;

/// How many arguments tell of a member: its name, and its score if it has one.
fn words_for(score: Option<i64>) -> usize
    ensures count { (name : List ℕ) → result ≡ length (words_behind name score) }
    ensures few { result ≤ 2 }
    ensures score { IfSome score IsScore }
{
    match score {
        None => 1,
        Some(_score) => 2,
    }
}

/// How many arguments tell of the members that a set is prepared to move, and how many bytes these take at most.
fn measure<H: BuildHasher, A: Allocator + Copy>(set: &ZSet<H, A>) -> (usize, usize)
    requires { length (effect_words (prepared_effect set.now)) ≤ most_arguments }
    ensures count { result.0 ≡ length (effect_words (prepared_effect set.now)) }
    ensures scores { AllByRecursion HasScore (prepared_effect set.now) }
{
    let mut count: usize = 0;
    let mut room: usize = 0;
    for index in 0..set.effect_len() {
        let (member, score) = set.effect_at(index);
        count += words_for(score);
        room = room
            .saturating_add(member.len())
            .saturating_add(2 * FRAME + SCORE);
    }
    (count, room)
}

/// Writes what tells of one member: its score, if it has one, and its name.
fn write_entry<A: Allocator>(
    text: &mut Vec<u8, A>,
    member: &[u8],
    score: Option<i64>,
) -> Result<(), AllocError>
    ensures { OnOk result (text.new.items ≡ text.old.items
        ++ flat_map argument (words_behind member.now score)) }
{
    match score {
        None => write_bulk(member, text),
        Some(score) => {
            write_number_bulk(score, text)?;
            write_bulk(member, text)
        }
    }
}

/// Writes what tells of each member that a set is prepared to move.
fn write_entries<H: BuildHasher, A: Allocator + Copy>(
    text: &mut Vec<u8, A>,
    set: &ZSet<H, A>,
) -> Result<(), AllocError>
    ensures { OnOk result (text.new.items ≡ text.old.items
        ++ flat_map argument (effect_words (prepared_effect set.now))) }
{
    for index in 0..set.effect_len() {
        let (member, score) = set.effect_at(index);
        write_entry(text, member, score)?;
    }
    Ok(())
}

/// The text of a request with a name and a key, which tells of each member that a set is prepared to move. One
/// allocation is made for it.
fn effect_text<H: BuildHasher, A: Allocator + Copy>(
    alloc: A,
    name: &[u8],
    key: &[u8],
    set: &ZSet<H, A>,
) -> Result<Vec<u8, A>, AllocError>
    requires { 2 + length (effect_words (prepared_effect set.now)) ≤ most_arguments }
    ensures text { IfOk result (λ text. text.items
        ≡ request (name.now ∷ (key.now ∷ effect_words (prepared_effect set.now)))) }
    ensures scores { AllByRecursion HasScore (prepared_effect set.now) }
{
    let (count, room) = measure(set);
    let mut text = Vec::new(alloc);
    let head = name
        .len()
        .saturating_add(key.len())
        .saturating_add(3 * FRAME);
    text.reserve(head.saturating_add(room))?;
    write_array_header(2 + count, &mut text)?;
    write_bulk(name, &mut text)?;
    write_bulk(key, &mut text)?;
    write_entries(&mut text, set)?;
    Ok(text)
}

/// The text of the record of a command that a set has prepared.
fn record_text<H: BuildHasher, A: Allocator + Copy>(
    alloc: A,
    command: &Command<A>,
    set: &ZSet<H, A>,
) -> Result<Vec<u8, A>, AllocError>
    requires writing { IsTrue (is_writing command.now.meaning) }
    requires prepared { IsPreparedFor set.now.members command.now.meaning set.now.next }
    requires changes { IfSome set.now.next (λ next. next.members ≢ set.now.members) }
    ensures text { IfOk result (λ text. text.items ≡ request (next_record command.now set.now)) }
    ensures scores { OnOk result (AllByRecursion HasScore (prepared_effect set.now)) }
{
    match command.key() {
        None => unreachable!(),
        Some(key) => {
            if set.effect_len() == 0 {
                // It changes the set and moves no member that it names: it removes a range.
                let mut text = Vec::new(alloc);
                write_request(command.request(), &mut text)?;
                return Ok(text);
            }
            if command.removes() {
                return effect_text(alloc, b"ZREM", key, set);
            }
            effect_text(alloc, b"ZADD", key, set)
        }
    }
}

/// A record of an append file: what a command changed, as the request of a command without options that makes the
/// same change. A contract sees the request's arguments.
#[derive(Drop)]
pub struct Record<A: Allocator> {
    text: Vec<u8, A>,
}

impl<A: Allocator> Model for Record<A> {
    ghost use Rattle.std.specs.Prelude.{◌≡◌};
    ghost use Rattle.resp_wire.specs.RequestEncoding.{request};
    ghost use Rattle.log_records.specs.EffectRecords.{words_in};
    ghost use Rattle.log_records.specs.Records.{Record as Words, IsRecord};

    ghost Value = { Words };

    ghost view = { λ r. words_in r.text.items };

    ghost invariant = { λ r. IsRecord (words_in r.text.items) × (r.text.items ≡ request (words_in r.text.items)) };
}

impl<A: Allocator + Copy> Record<A> {
    /// The record of a command that a set has prepared and that changes it: ZADD with the scores of the members
    /// that came in or got another one, ZREM with the members that left, in the order in which the command first
    /// names them; ZREMRANGEBYSCORE is as it was given. Wherever the command's key has that set, a replay of the
    /// record leaves there what a commit would leave, and every other key as it was.
    pub fn of<H: BuildHasher>(
        alloc: A,
        command: &Command<A>,
        set: &ZSet<H, A>,
    ) -> Result<Self, AllocError>
        requires writing { IsTrue (is_writing command.now.meaning) }
        requires prepared { IsPreparedFor set.now.members command.now.meaning set.now.next }
        requires changes { IfSome set.now.next (λ next. next.members ≢ set.now.members) }
        ensures words { IfOk result (λ entry. IfSome set.now.next
            (λ next. entry ≡ effect_record command.now set.now.members next.members)) }
        ensures replays { IfOk result
            (λ entry. (world : WorldType) (key : List ℕ) → key_of command.now.meaning ≡ Some key
            → set_at world key ≡ set.now.members
            → IfSome set.now.next (λ next. after Effects world entry
            ≡ Some (put_set world key next.members))) }
    {
        // A text of records is read as these, and a score as it was printed.
        laws::longest();
        printed_scores();
        let _words = command.request().words();
        let _key = command.key();
        let text = record_text(alloc, command, set)?;
        Ok(Record { text })
    }
}

impl<A: Allocator> Record<A> {
    /// The record's bytes.
    pub fn text(&self) -> &[u8]
        ensures text { result.now ≡ request self.now }
        ensures is_record { IsRecord self.now }
    {
        &self.text
    }
}
