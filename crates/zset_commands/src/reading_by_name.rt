//! Reading a request's arguments as a command.

ghost use Rattle.std.specs.Prelude.{◌≡◌, ◌<◌, ◌≤◌, true, length, drop};
ghost use Rattle.resp_wire.specs.RequestEncoding.{most_arguments};
ghost use Rattle.zset_commands.specs.CommandGrammar.{conditions, has_arity, meaning, command_conditions, command_meaning};
ghost use Rattle.zset_commands.specs.MeaningOfForm.{word_at};
ghost use Rattle.zset_commands.specs.ReadingMatchesGrammar.{IsReading};

use crate::add::read_add;
use crate::name::CommandName;
use crate::parsed_arguments::{ChangeForm, Form, QuestionForm};
use crate::range_commands::{read_count, read_list_range, read_remove_range};
use crate::refusal::Refusal;
use resp_wire::Bytes;
use std::alloc::Allocator;

/// The bytes of an argument.
pub fn argument<A: Allocator>(words: &[Bytes<A>], place: usize) -> &[u8]
    requires { place < length words.now }
    ensures { result.now ≡ word_at words.now place }
{
    words[place].as_slice()
}

/// The arguments from a place on.
pub fn behind<A: Allocator>(words: &[Bytes<A>], place: usize) -> &[Bytes<A>]
    requires { place ≤ length words.now }
    ensures { result.now ≡ drop place words.now }
{
    words.split_at(place).1
}

/// Reads a request's arguments: what is kept of them, or the first refusal whose condition holds.
#[tactic(auto, unfolding(crate::specs::CommandGrammar::meaning))]
pub fn read_form<A: Allocator + Copy>(alloc: A, words: &[Bytes<A>]) -> Result<Form<A>, Refusal>
    requires some { 0 < length words.now }
    requires few { length words.now ≤ most_arguments }
    ensures { IsReading words.now (conditions words.now) (meaning words.now) result }
{
    let Some(name) = CommandName::read(argument(words, 0)) else {
        return Err(Refusal::UnknownCommand);
    };
    if !name.takes(words.len()) {
        return Err(Refusal::WrongArity);
    }
    read_named(alloc, name, words)
}

// Reads the arguments of a command that takes as many of them.
fn read_named<A: Allocator + Copy>(
    alloc: A,
    name: CommandName,
    words: &[Bytes<A>],
) -> Result<Form<A>, Refusal>
    requires arity { has_arity name (length words.now) ≡ true }
    requires few { length words.now ≤ most_arguments }
    ensures { IsReading words.now (command_conditions name words.now)
        (command_meaning name words.now) result }
{
    match name {
        CommandName::Ping => Ok(Form::Ping),
        CommandName::Add => read_add(alloc, words),
        CommandName::Remove => Ok(Form::Changes(ChangeForm::Remove)),
        CommandName::RemoveRange => read_remove_range(words),
        CommandName::Score => Ok(Form::Asks(QuestionForm::Score)),
        CommandName::Card => Ok(Form::Asks(QuestionForm::Card)),
        CommandName::Count => read_count(words),
        CommandName::ListRange => read_list_range(words),
    }
}
