//! Reading the arguments of ZADD.

ghost use Rattle.std.specs.Prelude.{◌≡◌, ◌≢◌, ◌+◌, ◌*◌, ◌%◌, ◌<◌, ◌≤◌, ℕ, List, [], ◌∷◌, ◌++◌, length, OnOk, IfOk, IfErr};
ghost use Rattle.std.specs.List.{take_while};
ghost use Rattle.resp_wire.specs.RequestEncoding.{most_arguments};
ghost use Rattle.zset_commands.specs.CommandGrammar.{add_options, add_pairs, asked_flags, has_option, has_two_of_gt_lt_nx, is_add_option, command_conditions, command_meaning, pairs_value};
ghost use Rattle.zset_commands.specs.ReadingMatchesGrammar.{AreAddParts, AreScores, IsReading, given_value};
ghost use Rattle.zset_commands.specs.declared.name.CommandName.TheVariants as names;
ghost use Rattle.zset_commands.specs.declared.refusal.Refusal.TheVariants as refusals;

use crate::flags::Flags;
use crate::name::is_named;
use crate::parsed_arguments::{ChangeForm, Form};
use crate::reading_by_name::{argument, behind};
use crate::refusal::Refusal;
use resp_wire::Bytes;
use score_bounds::read_score;
use std::alloc::{AllocError, Allocator};

/// Reads ZADD: the options behind the key, and the pairs behind them.
pub fn read_add<A: Allocator + Copy>(alloc: A, words: &[Bytes<A>]) -> Result<Form<A>, Refusal>
    requires enough { 4 ≤ length words.now }
    requires few { length words.now ≤ most_arguments }
    ensures { IsReading words.now (command_conditions names.Add words.now)
        (command_meaning names.Add words.now) result }
{
    let (options, pairs) = behind_key(words);
    if pairs.is_empty() || pairs.len() % 2 != 0 {
        return Err(Refusal::Syntax);
    }
    let flags = read_flags(options);
    if flags.nx && flags.xx {
        return Err(Refusal::NxAndXx);
    }
    if has_two_of_gt_lt_nx(flags) {
        return Err(Refusal::GtLtNx);
    }
    read_parts(alloc, options, pairs, flags)
}

// Reads ZADD, once its options and pairs are told apart.
fn read_parts<A: Allocator + Copy>(
    alloc: A,
    options: &[Bytes<A>],
    pairs: &[Bytes<A>],
    flags: Flags,
) -> Result<Form<A>, Refusal>
    requires few { length options.now ≤ most_arguments }
    requires parts { AreAddParts options.now pairs.now flags }
    ensures { (words : List (List ℕ)) → options.now ≡ add_options words → pairs.now
        ≡ add_pairs words → IsReading words (command_conditions names.Add words)
        (command_meaning names.Add words) result }
{
    let increases = has_option(options, b"INCR");
    if increases {
        let given = read_given(pairs)?;
        return Ok(Form::Changes(ChangeForm::Increase {
            flags,
            given,
            member: 2 + options.len() + 1,
        }));
    }
    let scores = read_scores(alloc, pairs)?;
    Ok(Form::Changes(ChangeForm::Add {
        flags,
        changed: has_option(options, b"CH"),
        first: 2 + options.len(),
        scores,
    }))
}

fn read_flags<A: Allocator>(options: &[Bytes<A>]) -> Flags
    ensures { result ≡ asked_flags options.now }
{
    Flags {
        nx: has_option(options, b"NX"),
        xx: has_option(options, b"XX"),
        gt: has_option(options, b"GT"),
        lt: has_option(options, b"LT"),
    }
}

fn has_two_of_gt_lt_nx(flags: Flags) -> bool
    ensures { result ≡ has_two_of_gt_lt_nx flags }
{
    (flags.gt && flags.lt) || (flags.nx && (flags.gt || flags.lt))
}

// The options behind the key, and the arguments behind them.
fn behind_key<A: Allocator>(words: &[Bytes<A>]) -> (&[Bytes<A>], &[Bytes<A>])
    requires { 2 ≤ length words.now }
    ensures options { result.0.now ≡ add_options words.now }
    ensures pairs { result.1.now ≡ add_pairs words.now }
    ensures counted { 2 + length result.0.now + length result.1.now ≡ length words.now }
{
    let rest = behind(words, 2);
    rest.split_at(count_options(rest))
}

fn count_options<A: Allocator>(words: &[Bytes<A>]) -> usize
    ensures { result ≡ length (take_while is_add_option words.now) }
{
    words
        .iter()
        .take_while(|word| is_add_option(word.as_slice()))
        .count()
}

fn is_add_option(word: &[u8]) -> bool
    ensures { result ≡ is_add_option word.now }
{
    is_named(b"NX", word)
        || is_named(b"XX", word)
        || is_named(b"GT", word)
        || is_named(b"LT", word)
        || is_named(b"CH", word)
        || is_named(b"INCR", word)
}

fn has_option<A: Allocator>(options: &[Bytes<A>], name: &[u8]) -> bool
    ensures { result ≡ has_option name.now options.now }
{
    options
        .iter()
        .any(|option| is_named(name, option.as_slice()))
}

// The score of INCR's one pair.
#[tactic(auto, unfolding(crate::specs::ReadingMatchesGrammar::given_value))]
fn read_given<A: Allocator>(pairs: &[Bytes<A>]) -> Result<i64, Refusal>
    ensures { result ≡ given_value pairs.now }
{
    if pairs.len() != 2 {
        return Err(Refusal::IncrPair);
    }
    read_score(argument(pairs, 0)).ok_or(Refusal::BadScore)
}

fn read_scores<A: Allocator + Copy>(alloc: A, pairs: &[Bytes<A>]) -> Result<Vec<i64, A>, Refusal>
    requires { length pairs.now % 2 ≡ 0 }
    ensures ok { IfOk result (λ scores. AreScores pairs.now scores.items) }
    ensures err { IfErr result (λ refusal. refusal ≢ refusals.NoMemory
        → (refusal ≡ refusals.BadScore) × (pairs_value pairs.now ≡ None)) }
{
    let mut scores = Vec::with_capacity(alloc, pairs.len() / 2)?;
    let mut rest = pairs;
    while !rest.is_empty() {
        let Some(score) = read_score(argument(rest, 0)) else {
            return Err(Refusal::BadScore);
        };
        push_score(&mut scores, score)?;
        rest = behind(rest, 2);
    }
    Ok(scores)
}

fn push_score<A: Allocator>(scores: &mut Vec<i64, A>, score: i64) -> Result<(), AllocError>
    ensures { OnOk result (scores.new.items ≡ scores.old.items ++ score ∷ []) }
{
    scores.push(score)?;
    Ok(())
}
