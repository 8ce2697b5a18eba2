//! What a table tells when it is closed.

ghost use Rattle.std.specs.Prelude.{◌≡◌, ◌≤◌};
ghost use Rattle.set_table.specs.TableAndPassViews.{IsPassOf};

use crate::exchange::{SetsOver, owner_of};
use crate::tables::{FOUR_PLACES, opened};
use append_log::LogSink;
use set_table::Pass;
use std::alloc::Global;
use std::marker::Brand;
use std::sync::ledger::{Blank, Ledger};
use std::test::*;
use table_lifetime::{CloseFault, close};

// Whether a table that is closed with one pass alone tells that one is missing.
fn misses_a_pass<S: LogSink + Drop, L: Ledger>(
    alloc: Global,
    table: SetsOver<S, L>,
    pass: Pass<Global>,
) -> Result<bool, Fail>
    requires { IsPassOf table pass }
{
    let Ok(passes) = Vec::from_array(alloc, [pass]) else {
        drop(table);
        return Err(Fail::new("no memory"));
    };
    match close(table, passes) {
        Ok(closed) => {
            drop(closed);
            Ok(false)
        }
        Err(fault) => Ok(fault == CloseFault::MissingPass),
    }
}

// The same of a new table, and its second pass.
fn without_the_first<L: Ledger>(rt: &HostRuntime, blank: Blank) -> Result<bool, Fail>
    requires name { blank.name ≡ L.name }
    requires parts { blank.parts ≡ L.parts }
    requires many { 4098 ≤ blank.parts }
{
    let alloc = rt.alloc();
    let (table, first, second) = opened::<L>(alloc, blank, owner_of(rt, &[])?, FOUR_PLACES)?;
    drop(first);
    misses_a_pass(alloc, table, second)
}

#[test]
fn a_missing_pass_is_told(rt: HostRuntime) -> Result<(), Fail> {
    assert!(rt; without_the_first::<Brand>(&rt, Blank::new(4098))?);
    Ok(())
}
