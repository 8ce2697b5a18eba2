//! A cell by itself.

ghost use Rattle.std.specs.Prelude.{◌≡◌, ◌≤◌, None};

use crate::exchange::{Owner, command, owner_of, refusal_text, reply_text};
use append_log::{Log, LogSink, MemorySink};
use set_table::{Cell, Shares};
use std::alloc::Global;
use std::hash::RandomState;
use std::marker::Brand;
use std::sync::ledger::{Blank, Ledger};
use std::sync::{Mutex, Wait};
use std::test::*;

type OneCell<L> = Cell<RandomState, L, Global>;

// What a cell answers to a command's text, or the number of a refusal behind `r`.
fn answer_of<S: LogSink, L: Ledger, R: Wait>(
    rt: &R,
    alloc: Global,
    cell: &mut OneCell<L>,
    shares: &mut Shares,
    log: &Mutex<Log<S, L>>,
    text: &str,
) -> Result<String, Fail> {
    let command = command(alloc, text)?;
    if command.key().is_none() {
        drop(command);
        return Err(Fail::new("no key"));
    }
    let told = match cell.run(rt, &command, shares, log) {
        Ok(answer) => reply_text(alloc, answer.into_reply()),
        Err(refusal) => refusal_text(alloc, refusal),
    };
    drop(command);
    told
}

// What the cell of place 0 answers to a command with the shares of place 1, and with its own then.
fn answers_of_both<S: LogSink, L: Ledger, R: Wait>(
    rt: &R,
    alloc: Global,
    cell: &mut OneCell<L>,
    log: &Mutex<Log<S, L>>,
) -> Result<(String, String), Fail> {
    let mut other = Shares::new(1, 0, 0);
    let mut own = Shares::new(0, 0, 0);
    let refused = answer_of(rt, alloc, cell, &mut other, log, "ZADD k 1 a")?;
    let card = answer_of(rt, alloc, cell, &mut own, log, "ZCARD k")?;
    Ok((refused, card))
}

// The same of a cell that is let go then.
fn answers_of_new<S: LogSink, L: Ledger, R: Wait>(
    rt: &R,
    alloc: Global,
    cell: OneCell<L>,
    log: &Mutex<Log<S, L>>,
) -> Result<(String, String), Fail> {
    let mut cell = cell;
    let told = answers_of_both(rt, alloc, &mut cell, log);
    drop(cell);
    told
}

// The answers of a cell without members to commands with the shares of another place and with its own.
fn by_the_wrong_shares<L: Ledger, R: Wait + AllocGlobal>(
    rt: &R,
    blank: Blank,
    owner: &Owner,
) -> Result<(String, String), Fail>
    requires idle { owner.now.next ≡ None }
    requires name { blank.name ≡ L.name }
    requires parts { blank.parts ≡ L.parts }
    requires many { 4 ≤ blank.parts }
{
    let alloc = rt.alloc();
    let set = owner.empty_set()?;
    let mut log = Log::<_, L>::new(blank, MemorySink::new(alloc, 64), 1000);
    let share = log.split();
    let log = Mutex::new(log);
    let told = match Cell::new(alloc, 0, set, 1000, 2, share) {
        Ok(cell) => answers_of_new(rt, alloc, cell, &log),
        Err(_) => Err(Fail::new("no memory")),
    };
    drop(log);
    told
}

// The shares of another place are refused, and the set stays empty.
#[test]
fn a_cell_refuses_shares_of_another_place(rt: HostRuntime) -> Result<(), Fail> {
    let owner = owner_of(&rt, &[])?;
    let told = by_the_wrong_shares::<Brand, _>(&rt, Blank::new(4), &owner);
    drop(owner);
    let (refused, card) = told?;
    assert!(rt; (refused.as_str(), card.as_str()) == ("r17", ":0~"));
    Ok(())
}
