//! What a set answers to questions.
ghost use Rattle.std.specs.Prelude.{◌≡◌, ◌⊎◌, ◌↔◌, false, Some, None, IsSome, IfNone, IfSome, IfOk, OnOk, OnErr};
ghost use Rattle.zset_commands.specs.AbstractCommand.{is_writing, key_of};
ghost use Rattle.ripple_column.specs.Content.{IsUnchanged};
ghost use Rattle.sorted_sets.specs.CommandEffectsOnColumn.{ReadsFor};
ghost use Rattle.sorted_sets.specs.AnswerableAsItStands.{IsReadyFor, ListsWindow};
ghost use Rattle.zset_core.specs.SortedSet.{whole};
ghost use Rattle.zset_core.specs.Semantics.{step};
ghost use Rattle.resp_wire.specs.Response.{response_of};

use crate::query::answering_by_form::{answer_from, ready_from};
use crate::query::listing::all_rows;
use crate::set::ZSet;
use crack_kernel::Row;
use resp_wire::Reply;
use std::alloc::{AllocError, Allocator};
use std::hash::BuildHasher;
use zset_commands::{Command, Form};

impl<H: BuildHasher, A: Allocator + Copy> ZSet<H, A> {
    /// Answers a command that reads the set of its key: ZSCORE, ZCARD, ZCOUNT, ZRANGEBYSCORE. Then
    /// the set is ready for it. For LIMIT its column is cracked so that mostly few rows stand in the pieces round the
    /// window that is asked for. Refused only when out of memory.
    pub fn answer(&mut self, command: &Command<A>) -> Result<Reply<A>, AllocError>
        requires idle { self.old.next ≡ None }
        requires reading { is_writing command.now.meaning ≡ false }
        requires keyed { IsSome (key_of command.now.meaning) }
        ensures reply { IfOk result (λ reply. step self.old.members command.now.meaning
            ≡ Some (self.old.members, response_of reply)) }
        ensures members { self.new.members ≡ self.old.members }
        ensures idle { self.new.next ≡ None }
        ensures ready { OnOk result (IsReadyFor self.new.column command.now.meaning) }

        // Outside the range asked for nothing is merged. On Err, the column is unchanged or as an Ok
        // would leave it.
        ensures column { OnOk result (ReadsFor command.now.meaning self.old.column self.new.column) }
        ensures refused { OnErr result (IsUnchanged self.old.column self.new.column
            ⊎ ReadsFor command.now.meaning self.old.column self.new.column) }
    {
        let words = command.request().words();
        match command.form() {
            Form::Asks(question) => {
                answer_from(self.alloc, &self.members, &mut self.column, words, question)
            }
            Form::Ping | Form::Changes(_) => unreachable!(),
        }
    }

    /// The reply to a command that reads the set of its key, where the set can give it as it
    /// stands: as `answer` gives it. None for a command that changes sets, and where a range is
    /// asked for that the column is not ready for: a cut of it is no pivot, or a change of its rows
    /// waits. `Some(Err(_))` where the set is ready and there was no memory for the reply.
    pub fn ready(&self, command: &Command<A>) -> Option<Result<Reply<A>, AllocError>>
        requires idle { self.now.next ≡ None }
        requires keyed { IsSome (key_of command.now.meaning) }
        ensures reply { IfSome result
            (λ answer. IfOk answer (λ reply. step self.now.members command.now.meaning
            ≡ Some (self.now.members, response_of reply))) }
        ensures exact { IsSome result ↔ IsReadyFor self.now.column command.now.meaning }
    {
        self.answer_as_it_stands(command, true)
    }

    /// The reply as `ready` gives it, where it needs no more than few rows: None too where `ready` would read many for a
    /// window that `answer` would let be listed by few. Only ZRANGEBYSCORE with LIMIT asks for a window. How many rows
    /// are many is a hint, which no reply depends on.
    pub fn ready_by_few(&self, command: &Command<A>) -> Option<Result<Reply<A>, AllocError>>
        requires idle { self.now.next ≡ None }
        requires keyed { IsSome (key_of command.now.meaning) }
        ensures reply { IfSome result
            (λ answer. IfOk answer (λ reply. step self.now.members command.now.meaning
            ≡ Some (self.now.members, response_of reply))) }
        ensures ready { IsSome result → IsReadyFor self.now.column command.now.meaning }
        ensures window { IfNone result (IsReadyFor self.now.column command.now.meaning
            → ListsWindow self.now.column command.now.meaning) }
    {
        self.answer_as_it_stands(command, false)
    }

    /// The reply to a question where the set is ready for it; where many rows may not be read, none too for a window
    /// that `answer` would let be listed by few.
    fn answer_as_it_stands(
        &self,
        command: &Command<A>,
        may_read_many: bool,
    ) -> Option<Result<Reply<A>, AllocError>>
        requires idle { self.now.next ≡ None }
        ensures reply { IfSome result
            (λ answer. IfOk answer (λ reply. step self.now.members command.now.meaning
            ≡ Some (self.now.members, response_of reply))) }
        ensures ready { IsSome result → IsReadyFor self.now.column command.now.meaning }
        ensures none { IfNone result (IsReadyFor self.now.column command.now.meaning
            → (may_read_many ≡ false) × ListsWindow self.now.column command.now.meaning) }
    {
        let words = command.request().words();
        match command.form() {
            Form::Asks(question) => {
                ready_from(
                    self.alloc,
                    &self.members,
                    &self.column,
                    words,
                    question,
                    may_read_many,
                )
            }
            Form::Ping | Form::Changes(_) => None,
        }
    }

    /// All pairs by rising score, equal scores by the bytes of their members. Refused for want of
    /// memory alone.
    pub fn pairs(&self) -> Result<Vec<Row<A>, A>, AllocError>
        requires { self.now.next ≡ None }
        ensures { IfOk result (λ rows. rows.items ≡ whole self.now.members) }
    {
        all_rows(self.alloc, &self.members)
    }
}
