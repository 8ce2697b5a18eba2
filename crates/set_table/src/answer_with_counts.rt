//! What a cell answers.

ghost use Rattle.std.specs.Prelude.{◌≡◌};
ghost use Rattle.resp_wire.specs.Response.{response_of};
ghost use Rattle.set_table.specs.LoggedStep.{IsLawful};

use crate::member_change_counts::{Counts, OwnCounts};
use resp_wire::Reply;
use std::alloc::Allocator;
use std::marker::Model;
use zset_commands::Command;

/// What a cell answered to a command: the reply, the counts that the command found at its place,
/// and how many members came in and left by it. It is that of one step of the command on some set
/// with as many members as the counts say. Cells alone make them.
#[derive(Drop)]
pub struct Answer<'c, A: Allocator> {
    command: &'c Command<A>,
    place: usize,
    reply: Reply<A>,
    found: Counts,
    own: OwnCounts,
}

impl<'c, A: Allocator> Model for Answer<'c, A> {
    ghost use Rattle.resp_wire.specs.Response.{response_of};
    ghost use Rattle.set_table.specs.LoggedStep.{AnswerView, IsLawful};

    ghost Value = { AnswerView };

    ghost view = { λ a. record { command = a.command.now; place = a.place; reply = response_of a.reply; found = a.found; own = a.own } };

    ghost invariant = { λ a. IsLawful a.command.now (response_of a.reply) a.found a.own };
}

impl<'c, A: Allocator> Answer<'c, A> {
    pub(crate) fn new(
        command: &'c Command<A>,
        place: usize,
        reply: Reply<A>,
        found: Counts,
        own: OwnCounts,
    ) -> Self
        requires { IsLawful command.now (response_of reply) found own }
        ensures { result ≡ record {
          command = command.now;
          place = place;
          reply = response_of reply;
          found = found;
          own = own;
        } }
    {
        Answer {
            command,
            place,
            reply,
            found,
            own,
        }
    }

    /// The command that was answered.
    pub fn command(&self) -> &'c Command<A>
        ensures { result.now ≡ self.now.command }
    {
        self.command
    }

    /// The number of the place that answered.
    pub fn place(&self) -> usize
        ensures { result ≡ self.now.place }
    {
        self.place
    }

    /// The members at opening, and how many had come in and left, as the command found them.
    pub fn found(&self) -> Counts
        ensures found { result ≡ self.now.found }
        ensures lawful { IsLawful self.now.command self.now.reply self.now.found self.now.own }
    {
        self.found
    }

    /// How many members came in and left by the command.
    pub fn own(&self) -> OwnCounts
        ensures { result ≡ self.now.own }
    {
        self.own
    }

    /// The reply.
    pub fn into_reply(self) -> Reply<A>
        ensures { response_of result ≡ self.entry.reply }
    {
        let Answer {
            command: _,
            place: _,
            reply,
            found: _,
            own: _,
        } = self;
        reply
    }
}
