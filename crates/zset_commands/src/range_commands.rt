//! Reading the arguments of the commands with ranges: ZREMRANGEBYSCORE, ZCOUNT and ZRANGEBYSCORE.

ghost use Rattle.std.specs.Prelude.{◌≡◌, ◌≤◌, ◌||◌, length, is_none, option_map};
ghost use Rattle.zset_commands.specs.CommandGrammar.{asked_range, command_conditions, command_meaning, range_options};
ghost use Rattle.zset_commands.specs.ReadingMatchesGrammar.{IsReading, choice_after, no_choice};
ghost use Rattle.zset_commands.specs.declared.name.CommandName.TheVariants as names;

use crate::limit::Limit;
use crate::name::is_named;
use crate::parsed_arguments::{ChangeForm, Form, QuestionForm};
use crate::reading_by_name::{argument, behind};
use crate::refusal::Refusal;
use resp_wire::Bytes;
use score_bounds::Range;
use std::alloc::Allocator;

/// What the options of ZRANGEBYSCORE come to; of a repeated one the last counts.
#[derive(Clone, Copy, Debug, PartialEq, Eq)]
pub struct RangeChoice {
    pub with_scores: bool,
    pub limit: Option<Limit>,
    /// An argument of some LIMIT is no integer.
    pub has_bad_limit: bool,
}

/// Reads ZREMRANGEBYSCORE.
pub fn read_remove_range<A: Allocator>(words: &[Bytes<A>]) -> Result<Form<A>, Refusal>
    requires { length words.now ≡ 4 }
    ensures { IsReading words.now (command_conditions names.RemoveRange words.now)
        (command_meaning names.RemoveRange words.now) result }
{
    let range = read_range(words).ok_or(Refusal::BadBound)?;
    Ok(Form::Changes(ChangeForm::RemoveRange { range }))
}

/// Reads ZCOUNT.
pub fn read_count<A: Allocator>(words: &[Bytes<A>]) -> Result<Form<A>, Refusal>
    requires { length words.now ≡ 4 }
    ensures { IsReading words.now (command_conditions names.Count words.now)
        (command_meaning names.Count words.now) result }
{
    let range = read_range(words).ok_or(Refusal::BadBound)?;
    Ok(Form::Asks(QuestionForm::Count { range }))
}

/// Reads ZRANGEBYSCORE.
pub fn read_list_range<A: Allocator>(words: &[Bytes<A>]) -> Result<Form<A>, Refusal>
    requires { 4 ≤ length words.now }
    ensures { IsReading words.now (command_conditions names.ListRange words.now)
        (command_meaning names.ListRange words.now) result }
{
    let choice = read_choice(&words[4..]).ok_or(Refusal::Syntax)?;
    let range = read_range(words).ok_or(Refusal::BadBound)?;
    if choice.has_bad_limit {
        return Err(Refusal::BadInteger);
    }
    Ok(Form::Asks(QuestionForm::ListRange {
        range,
        with_scores: choice.with_scores,
        limit: choice.limit,
    }))
}

fn read_range<A: Allocator>(words: &[Bytes<A>]) -> Option<Range>
    requires { 4 ≤ length words.now }
    ensures { result ≡ asked_range words.now }
{
    Range::read(argument(words, 2), argument(words, 3))
}

fn read_choice<A: Allocator>(words: &[Bytes<A>]) -> Option<RangeChoice>
    ensures { result ≡ option_map (choice_after no_choice) (range_options words.now) }
{
    let mut choice = RangeChoice {
        with_scores: false,
        limit: None,
        has_bad_limit: false,
    };
    let mut rest = words;
    while !rest.is_empty() {
        if is_named(b"WITHSCORES", argument(rest, 0)) {
            choice.with_scores = true;
            rest = behind(rest, 1);
        } else if 3 <= rest.len() && is_named(b"LIMIT", argument(rest, 0)) {
            choice = with_limit(&choice, Limit::read(argument(rest, 1), argument(rest, 2)));
            rest = behind(rest, 3);
        } else {
            return None;
        }
    }
    Some(choice)
}

// The choice once a LIMIT was read, by the limit of its arguments.
fn with_limit(choice: &RangeChoice, limit: Option<Limit>) -> RangeChoice
    ensures { result ≡ record choice.now
        { limit = limit; has_bad_limit = choice.now.has_bad_limit || is_none limit } }
{
    RangeChoice {
        with_scores: choice.with_scores,
        limit,
        has_bad_limit: choice.has_bad_limit || limit.is_none(),
    }
}
