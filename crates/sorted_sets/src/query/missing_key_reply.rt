//! The reply to a command whose key has no set.

ghost use Rattle.std.specs.Prelude.{◌≡◌, ℕ, List, false, Some, IfOk};
ghost use Rattle.std.specs.FinMap as map;
ghost use Rattle.resp_wire.specs.Response.{response_of};
ghost use Rattle.zset_commands.specs.AbstractCommand.{is_creating, makes_a_set};
ghost use Rattle.zset_commands.specs.MeaningOfForm.{question_of, change_of};
ghost use Rattle.zset_core.specs.Semantics.{answer, changed_by, step};

use crate::query::ping::pong;
use resp_wire::{BytesList, Reply};
use std::alloc::{AllocError, Allocator};
use zset_commands::{ChangeForm, Command, Form, QuestionForm};

/// The reply to PING, and to a command that makes no set where its key has none, as ZADD with XX
/// does not: that of the empty set, which stays empty.
///
/// # Errors
///
/// Want of memory alone, which only PING with a text takes.
pub fn reply_without_set<A: Allocator + Copy>(
    alloc: A,
    command: &Command<A>,
) -> Result<Reply<A>, AllocError>
    requires { is_creating command.now.meaning ≡ false }
    ensures { IfOk result (λ reply. step map.empty command.now.meaning
        ≡ Some (map.empty, response_of reply)) }
{
    match command.form() {
        Form::Ping => pong(alloc, command.request().words()),
        Form::Asks(question) => Ok(answer_of_none(alloc, question)),
        Form::Changes(change) => Ok(change_of_none(change)),
    }
}

/// The reply to a question of the empty set. It takes no memory.
fn answer_of_none<A: Allocator>(alloc: A, question: &QuestionForm) -> Reply<A>
    ensures { (words : List (List ℕ)) → response_of result
        ≡ answer map.empty (question_of words question.now) }
{
    match question {
        QuestionForm::Score => Reply::Null,
        QuestionForm::Card => Reply::Int(0),
        QuestionForm::Count { .. } => Reply::Int(0),
        QuestionForm::ListRange { .. } => Reply::List(BytesList::new(Vec::new(alloc))),
    }
}

/// The reply to a change that makes no set where there is none.
fn change_of_none<A: Allocator>(change: &ChangeForm<A>) -> Reply<A>
    ensures { (words : List (List ℕ)) → makes_a_set (change_of words change.now) ≡ false
        → changed_by map.empty (change_of words change.now) ≡ Some (map.empty, response_of result) }
{
    match change {
        ChangeForm::Increase { .. } => Reply::Null,
        ChangeForm::Add { .. } => Reply::Int(0),
        ChangeForm::Remove => Reply::Int(0),
        ChangeForm::RemoveRange { .. } => Reply::Int(0),
    }
}
