//! Workers on a shared table.

ghost use Rattle.std.specs.Prelude.{◌≡◌, ⊤};
ghost use Rattle.set_table.specs.TableAndPassViews.{IsPassOf};
ghost use Rattle.resp_wire.specs.Response.{response_of};
ghost use Rattle.table_worker.specs.WorkerAnswers.{WorkerAnswers, reply_in};

use append_log::LogSink;
use resp_wire::Reply;
use session_core::Exec;
use set_table::{Answered, Pass, Table, TestGate};
use std::alloc::Allocator;
use std::hash::BuildHasher;
use std::marker::Model;
use std::sync::Wait;
use std::sync::ledger::Ledger;
use zset_commands::{Command, Refusal};

/// A worker on a table that it shares with others. It runs commands with a pass of its own, one of
/// the table's.
#[derive(Drop)]
pub struct Worker<'t, H: BuildHasher, S: LogSink, L: Ledger, A: Allocator + Copy, G> {
    table: &'t Table<H, S, L, A>,
    pass: Pass<A>,
    gate: G,
}

impl<'t, H: BuildHasher, S: LogSink, L: Ledger, A: Allocator + Copy, G> Model
    for Worker<'t, H, S, L, A, G> {
    ghost use Rattle.set_table.specs.TableAndPassViews.{IsPassOf};
    ghost use Rattle.table_worker.specs.WorkerAnswers.{WorkerView};

    ghost Value = { WorkerView };

    ghost view = { λ w. record { table = w.table.now; pass = w.pass } };

    ghost invariant = { λ w. IsPassOf w.table.now w.pass };
}

impl<'t, H: BuildHasher, S: LogSink, L: Ledger, A: Allocator + Copy, G: TestGate + Drop> Worker<
    't,
    H,
    S,
    L,
    A,
    G,
> {
    /// A worker with one of the table's passes. The gate is called while a set's lock is held.
    pub fn new(table: &'t Table<H, S, L, A>, pass: Pass<A>, gate: G) -> Self
        requires own { IsPassOf table.now pass }
        ensures { result ≡ record { table = table.entry.now; pass = pass } }
    {
        Worker { table, pass, gate }
    }

    /// The pass, for the table's end.
    pub fn into_pass(self) -> Pass<A>
        ensures pass { result ≡ self.entry.pass }
        ensures own { IsPassOf self.entry.table result }
    {
        let Worker {
            table: _,
            pass,
            gate: _,
        } = self;
        pass
    }
}

/// The reply in what a table answered.
fn reply_of<'c, A: Allocator>(answered: Answered<'c, A>) -> Reply<A>
    ensures { response_of result ≡ reply_in answered.entry }
{
    match answered {
        Answered::Ran(answer) => answer.into_reply(),
        Answered::NoPlace(reply) => reply,
    }
}

/// A worker on a table: a command is answered from its key's place, by one step of its definition on
/// some set (that it is the key's own, tests show), and the worker's shares move by the members that
/// this step added and took out; or it is refused, and no share moves.
impl<
    't,
    R: Wait,
    H: BuildHasher,
    S: LogSink,
    L: Ledger,
    A: Allocator + Copy,
    G: TestGate + Drop,
> Exec<R, A> for Worker<'t, H, S, L, A, G> {
    ghost settled = { λ _. ⊤ };

    ghost allows = { WorkerAnswers };

    // The number comes through the locks of sets, and no clause follows it there.
    ghost tells = { λ _ _. ⊤ };

    #[tactic(auto, using(crate::proofs::WorkerLemmas::told_ok))]
    fn run(&mut self, rt: &R, command: &Command<A>) -> Result<Reply<A>, Refusal> {
        match self.table.run(rt, &mut self.pass, command, &self.gate) {
            Ok(answered) => Ok(reply_of(answered)),
            Err(refusal) => Err(refusal),
        }
    }

    fn take_told(&mut self) -> u64 {
        self.pass.take_told()
    }
}
