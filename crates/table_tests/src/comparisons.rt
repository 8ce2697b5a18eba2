//! How many names are compared with a key to find its place.

ghost use Rattle.std.specs.Prelude.{◌≡◌, ◌≤◌, None};
ghost use Rattle.set_table.specs.TableAndPassViews.{IsPassOf};

use crate::exchange::{Owner, SetsOver, owner_of};
use crate::tables::{FOUR_PLACES, Plan, opened};
use append_log::LogSink;
use set_table::Pass;
use std::alloc::Global;
use std::marker::Brand;
use std::sync::ledger::{Blank, Ledger};
use std::test::*;

// As many everyday keys as there are places.
fn users(alloc: Global, places: usize) -> Result<Vec<String>, Fail> {
    let mut keys = Vec::new(alloc);
    for number in 0..places {
        keys.push(format!(in alloc; "user:{number}")?)?;
    }
    Ok(keys)
}

// Gives each key a place, and tells how many got one.
fn claim_all<S: LogSink, L: Ledger>(
    table: &SetsOver<S, L>,
    pass: &mut Pass<Global>,
    keys: &[String],
) -> u64
    requires { IsPassOf table.now pass.old }
    ensures { IsPassOf table.now pass.new }
{
    let mut claimed = 0u64;
    for key in keys {
        if table.claim(pass, key.as_bytes()).is_ok() {
            claimed = claimed.wrapping_add(1);
        }
    }
    claimed
}

// How many comparisons it takes to find all keys, the last first, or None where one has no place.
fn cost<S: LogSink, L: Ledger>(
    table: &SetsOver<S, L>,
    pass: &mut Pass<Global>,
    keys: &[String],
) -> Option<u64>
    requires { IsPassOf table.now pass.old }
    ensures { IsPassOf table.now pass.new }
{
    let before = pass.compared();
    for key in keys.iter().rev() {
        table.find(pass, key.as_bytes())?;
    }
    Some(pass.compared().wrapping_sub(before))
}

// How many comparisons it takes to find that a key has no place.
fn cost_in_vain<S: LogSink, L: Ledger>(
    table: &SetsOver<S, L>,
    pass: &mut Pass<Global>,
    key: &[u8],
) -> Option<u64>
    requires { IsPassOf table.now pass.old }
    ensures { IsPassOf table.now pass.new }
{
    let before = pass.compared();
    match table.find(pass, key) {
        Some(_) => None,
        None => Some(pass.compared().wrapping_sub(before)),
    }
}

// How many keys the first pass gives places to that fill the table, and how many comparisons it takes then to find
// all of them: for that pass, for the second, for which they are new, and for that one once more; and to find that
// one more key has no place.
fn compared<S: LogSink, L: Ledger>(
    table: &SetsOver<S, L>,
    first: &mut Pass<Global>,
    second: &mut Pass<Global>,
    keys: &[String],
) -> Option<[u64; 5]>
    requires first { IsPassOf table.now first.old }
    requires second { IsPassOf table.now second.old }
{
    Some([
        claim_all(table, first, keys),
        cost(table, first, keys)?,
        cost(table, second, keys)?,
        cost(table, second, keys)?,
        cost_in_vain(table, second, b"nobody")?,
    ])
}

// The same of a table of so many places.
fn in_full_table<L: Ledger>(
    alloc: Global,
    blank: Blank,
    owner: Owner,
    places: usize,
) -> Result<Option<[u64; 5]>, Fail>
    requires idle { owner.next ≡ None }
    requires name { blank.name ≡ L.name }
    requires parts { blank.parts ≡ L.parts }
    requires many { 4098 ≤ blank.parts }
{
    let plan = Plan {
        places,
        ..FOUR_PLACES
    };
    let keys = users(alloc, places)?;
    let (table, mut first, mut second) = opened::<L>(alloc, blank, owner, plan)?;
    let compared = compared(&table, &mut first, &mut second, &keys);
    drop(table);
    drop(first);
    drop(second);
    drop(keys);
    Ok(compared)
}

static FULL_TABLES: [(usize, [u64; 5]); 2] = [
    (1024, [1024, 1024, 1024, 1024, 0]),
    (4096, [4096, 4096, 4096, 4096, 0]),
];

// Whether the comparisons of a table of so many places are these.
fn are_found(rt: &HostRuntime, places: usize, wanted: &[u64; 5]) -> Result<bool, Fail> {
    let owner = owner_of(rt, &[])?;
    let compared = in_full_table::<Brand>(rt.alloc(), Blank::new(4098), owner, places)?;
    Ok(compared == Some(*wanted))
}

// 4096 places are those of the greatest table.
#[test]
fn everyday_keys_in_full_tables(rt: HostRuntime) -> Result<(), Fail> {
    for (places, wanted) in &FULL_TABLES {
        assert!(rt; are_found(&rt, *places, wanted)?, "of {places} places");
    }
    Ok(())
}
