//! What one worker knows of a table, and was answered by it.

ghost use Rattle.std.specs.Prelude.{◌≡◌, ◌<◌, length, Some, IfSome};
ghost use Rattle.std.proofs.Math.ListN.{get_or};
ghost use Rattle.place_names.specs.Naming.{AreNotesOf, name_at_place};
ghost use Rattle.set_table.specs.TableAndPassViews.{no_share};

use crate::pass_tally_at_place::Shares;
use once_cell::race::Note;
use place_names::{Knowledge, Name, Names};
use sorted_sets::Spare;
use std::alloc::Allocator;
use std::cell;
use std::marker::Model;

/// What one worker knows of the places' names, and was answered at each place. A table's passes are
/// made when it is opened.
#[derive(Drop)]
pub struct Pass<A: Allocator> {
    pub(crate) number: usize,
    pub(crate) knowledge: Knowledge,
    pub(crate) shares: Vec<Shares, A>,
    /// What the worker keeps back for removals: 131,072 bytes, once a command that creates was answered.
    pub(crate) spare: Spare<A>,
    /// The log's number of the last record that its answers may tell of, since that was last asked.
    pub(crate) told: cell::Cell<u64>,
}

impl<A: Allocator> Model for Pass<A> {
    ghost use Rattle.set_table.specs.TableAndPassViews.{PassView};

    ghost Value = { PassView };

    ghost view = { λ p. record { number = p.number; notes = p.knowledge; shares = p.shares.items; kept = p.spare } };
}

impl<A: Allocator> Pass<A> {
    /// A pass with this number, which knows these names, has these shares, and keeps nothing back. Only for
    /// `table_lifetime`, which makes a table's passes when it opens it. Shares that are made tell of no run: where two
    /// passes had one number, a cell that told the first of a run would refuse the second.
    pub fn new(alloc: A, number: usize, knowledge: Knowledge, shares: Vec<Shares, A>) -> Self
        ensures { result ≡ record {
          number = number;
          notes = knowledge;
          shares = shares.items;
          kept = 0;
        } }
    {
        Pass {
            number,
            knowledge,
            shares,
            spare: Spare::new(alloc),
            told: cell::Cell::new(0),
        }
    }

    /// The pass's number, from 0 on.
    pub fn number(&self) -> usize
        ensures { result ≡ self.now.number }
    {
        self.number
    }

    /// How often a name was compared with a key to find a place, a number that wraps: what finding
    /// places costs, of which nothing is promised.
    pub fn compared(&self) -> u64 {
        self.knowledge.compared()
    }

    /// The log's number of the last record that the answers since this was last asked may tell of: the last of any set
    /// that gave one of them, or refused it. 0 where there is none. A contract doesn't see it.
    pub fn take_told(&mut self) -> u64
        ensures same { self.new ≡ self.old }
    {
        self.told.replace(0)
    }

    /// Notes that an answer may tell of the log's record of this number.
    pub(crate) fn note_told(&self, number: u64) {
        if number > self.told.get() {
            self.told.set(number);
        }
    }

    /// What it was answered at a place. Only for `table_lifetime`.
    pub fn share(&self, place: usize) -> &Shares
        requires { place < length self.now.shares }
        ensures { result.now ≡ get_or self.now.shares place no_share }
    {
        &self.shares[place]
    }

    /// The note of all passes learns what this one knows of a place's name. Only for `table_lifetime`, which compares
    /// what a table's passes know.
    pub fn tell_name(&mut self, names: &Names, place: usize, all: &mut Note<Name>)
        requires own { AreNotesOf names.now self.old.notes }
        requires within { place < length names.now }
        requires all { all.old.cell ≡ get_or names.now place 0 }
        ensures same { self.new ≡ self.old }
        ensures cell { all.new.cell ≡ all.old.cell }
        ensures known { IfSome (name_at_place self.old.notes.known place)
            (λ name. all.new.known ≡ Some name) }
        ensures all { IfSome all.old.known (λ name. all.new.known ≡ Some name) }
    {
        names.gather(&mut self.knowledge, place, all);
    }
}
