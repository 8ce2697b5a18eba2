//! Commands.

ghost use Rattle.std.specs.Prelude.{◌≡◌, ◌≢◌, IfOk, IfErr, Ok, Err};
ghost use Rattle.std.specs.Option.{option_copied};
ghost use Rattle.zset_commands.specs.CommandGrammar.{asked};
ghost use Rattle.zset_commands.specs.RequestLimits.{FitsRequest, IsBoundedMeaning};
ghost use Rattle.zset_commands.specs.MeaningOfForm.{meaning_of, IsWhole};
ghost use Rattle.zset_commands.specs.AbstractCommand.{key_of, has_options, is_writing, is_creating, is_removing};
ghost use Rattle.zset_commands.specs.declared.refusal.Refusal.TheVariants as refusals;

use crate::parsed_arguments::{ChangeForm, Form};
use crate::reading_by_name::{argument, read_form};
use crate::refusal::Refusal;
use resp_wire::Request;
use std::alloc::Allocator;
use std::marker::Model;

/// A command: a request that was read. It keeps its request.
#[derive(Drop)]
#[derive_where(Debug)]
pub struct Command<A: Allocator> {
    request: Request<A>,
    form: Form<A>,
}

impl<A: Allocator> Model for Command<A> {
    ghost use Rattle.std.specs.Prelude.{◌≡◌, Ok};
    ghost use Rattle.zset_commands.specs.CommandGrammar.{asked};
    ghost use Rattle.zset_commands.specs.MeaningOfForm.{meaning_of, IsWhole};
    ghost use Rattle.zset_commands.specs.AbstractCommand.{Asked};

    ghost Value = { Asked };

    ghost view = { λ c. record { words = c.request; meaning = meaning_of c.request c.form } };

    ghost invariant = { λ c. IsWhole c.request c.form × (asked c.request ≡ Ok (meaning_of c.request c.form)) };
}

impl<A: Allocator + Copy> Command<A> {
    /// Reads a request.
    ///
    /// # Errors
    ///
    /// The first of the refusals 2 to 10 whose condition holds; [`Refusal::NoMemory`] where an
    /// allocation fails.
    pub fn read(alloc: A, request: Request<A>) -> Result<Self, Refusal>
        ensures ok { IfOk result (λ command. (command.words ≡ request)
            × (asked request ≡ Ok command.meaning)) }
        ensures err { IfErr result (λ refusal. refusal ≢ refusals.NoMemory → asked request
            ≡ Err refusal) }
    {
        let form = read_form(alloc, request.words())?;
        Ok(Command { request, form })
    }
}

impl<A: Allocator> Command<A> {
    /// The request that was read.
    pub fn request(&self) -> &Request<A>
        ensures request { result.now ≡ self.now.words }
        ensures read { asked self.now.words ≡ Ok self.now.meaning }
    {
        &self.request
    }

    /// Gives the request back.
    pub fn into_request(self) -> Request<A>
        ensures { result ≡ self.words }
    {
        self.request
    }

    /// What was kept of the request's arguments.
    pub fn form(&self) -> &Form<A>
        ensures whole { IsWhole self.now.words result.now }
        ensures meaning { self.now.meaning ≡ meaning_of self.now.words result.now }
    {
        &self.form
    }

    /// The key of the set that the command asks for, None for PING.
    pub fn key(&self) -> Option<&[u8]>
        ensures key { option_copied result ≡ key_of self.now.meaning }
        ensures bounded { IsBoundedMeaning self.now.meaning }
        ensures fits { FitsRequest self.now.meaning }
    {
        let words = self.request.words();
        match &self.form {
            Form::Ping => None,
            Form::Asks(_) | Form::Changes(_) => Some(argument(words, 1)),
        }
    }

    /// Whether the command is one of those that change sets: ZADD, ZREM and ZREMRANGEBYSCORE.
    pub fn writes(&self) -> bool
        ensures { result ≡ is_writing self.now.meaning }
    {
        matches!(self.form, Form::Changes(_))
    }

    /// Whether the command only takes members out: ZREM and ZREMRANGEBYSCORE.
    pub fn removes(&self) -> bool
        ensures { result ≡ is_removing self.now.meaning }
    {
        matches!(
            self.form,
            Form::Changes(ChangeForm::Remove | ChangeForm::RemoveRange { .. })
        )
    }

    /// Whether the command is a ZADD with options, CH and INCR among them.
    pub fn has_options(&self) -> bool
        ensures { result ≡ has_options self.now.meaning }
    {
        match &self.form {
            Form::Changes(ChangeForm::Add { flags, changed, .. }) => {
                flags.nx || flags.xx || flags.gt || flags.lt || *changed
            }
            Form::Changes(ChangeForm::Increase { .. }) => true,
            _ => false,
        }
    }

    /// Whether the command makes a set where its key has none: ZADD without XX.
    pub fn creates(&self) -> bool
        ensures { result ≡ is_creating self.now.meaning }
    {
        match &self.form {
            Form::Changes(ChangeForm::Add { flags, .. } | ChangeForm::Increase { flags, .. }) => {
                !flags.xx
            }
            _ => false,
        }
    }
}
