//! The pivots that a column shows: a list of their own beside all pivots, while there are inner ones.

ghost use Rattle.std.specs.Prelude.{◌≡◌, ◌+◌, ◌<◌, ◌≤◌, ◌++◌, ℤ, ℕ, List, [], true, false, length, Contains, IsPermutation, OnOk, OnErr, vec_len, vec_capacity};
ghost use Rattle.crack_kernel.specs.PivotList.{IsRising};
ghost use Rattle.column_rows.specs.RangeCutsAsPivots.{is_before, values, count_with_cuts, new_values, values_with_cuts, StandsAt};
ghost use Rattle.column_rows.specs.ShownPivots.{HasCut, IsAmong, shown_of};
ghost use Rattle.column_rows.specs.EffectsOnPieces.{HasRoom, shown};

use crate::cracked_with_shown_pivots::Pieces;
use crack_kernel::{MAX_PIVOTS, Pivots};
use score_bounds::Cut;
use std::alloc::{AllocError, Allocator};

impl<A: Allocator> Pieces<A> {
    /// The pivots that are shown.
    pub fn shown(&self) -> &Pivots<A>
        ensures list { result.now.list ≡ shown self.now }
        ensures rising { IsRising (shown self.now) }
    {
        if self.apart {
            let _rising = self.kept.list();
            &self.kept
        } else {
            &self.cracked.pivots
        }
    }

    /// Makes room for the two cuts of a range among all pivots, and among those that are shown. On
    /// Err, the pivots are unchanged.
    pub fn reserve_cuts(&mut self) -> Result<(), AllocError>
        ensures rows { self.new.cracked.rows ≡ self.old.cracked.rows }
        ensures shown { shown self.new ≡ shown self.old }
        ensures spare { OnOk result (2 ≤ self.new.cracked.pivots.spare) }
        ensures room { OnOk result (HasRoom self.new) }
    {
        self.cracked.pivots.reserve(2)?;
        if self.apart {
            self.kept.reserve(2)
        } else {
            Ok(())
        }
    }

    /// Gives the shown pivots a list of their own, with room for two more, and answers whether they
    /// have one now. They have none where there is no memory for it.
    pub fn set_apart(&mut self) -> bool
        ensures rows { self.new.cracked.rows ≡ self.old.cracked.rows }
        ensures pivots { self.new.cracked.pivots ≡ self.old.cracked.pivots }
        ensures apart { self.new.apart ≡ result }
        ensures shown { shown self.new ≡ shown self.old }
        ensures room { HasRoom self.old → HasRoom self.new }
    {
        if self.apart {
            return true;
        }
        self.kept.clear();
        if self.kept.reserve(self.cracked.pivots.len() + 2).is_err() {
            return false;
        }
        self.kept.copy_from(&self.cracked.pivots);
        self.apart = true;
        true
    }

    /// Drops the inner pivots: all that are left are shown. It takes no memory.
    pub fn drop_inner(&mut self)
        requires apart { self.old.apart ≡ true }
        requires room { length self.old.kept.list ≤ self.old.cracked.pivots.spare + length self.old.cracked.pivots.list }
        ensures rows { self.new.cracked.rows ≡ self.old.cracked.rows }
        ensures apart { self.new.apart ≡ false }
        ensures shown { shown self.new ≡ shown self.old }
        ensures spare { self.new.cracked.pivots.spare + length self.new.cracked.pivots.list
            ≡ self.old.cracked.pivots.spare + length self.old.cracked.pivots.list }
    {
        self.cracked.pivots.copy_from(&self.kept);
        self.apart = false;
    }
}

/// The place of the pivot of the value `v`, which is mostly the one of the index `i`.
fn place_near<A: Allocator>(pivots: &Pivots<A>, i: usize, v: i64) -> usize
    requires { Contains (values pivots.now.list) v }
    ensures { Contains pivots.now.list (v, result) }
{
    let list = pivots.list();
    if i < list.len() {
        let (value, place) = list[i];
        if value == v {
            return place;
        }
    }
    match pivots.find(v) {
        Some(place) => place,
        None => unreachable!(),
    }
}

/// From the index `from` on, the index of the first pivot whose value is not below `v`.
fn next_from(list: &[(i64, usize)], from: usize, v: i64) -> usize {
    let mut i = from;
    while i < list.len() && list[i].0 < v {
        i += 1;
    }
    i
}

/// Gives the pivots that are shown the places that they have among all.
fn take_places<A: Allocator>(kept: &mut Pivots<A>, pivots: &Pivots<A>)
    requires { (v : ℤ) → Contains (values kept.old.list) v → Contains (values pivots.now.list) v }
    ensures among { IsAmong kept.new.list pivots.now.list }
    ensures values { values kept.new.list ≡ values kept.old.list }
    ensures spare { kept.new.spare ≡ kept.old.spare }
{
    let mut near = 0;
    for i in 0..kept.len() {
        let v = kept.list()[i].0;
        near = next_from(pivots.list(), near, v);
        let place = place_near(pivots, near, v);
        kept.set_place(i, place);
    }
}

/// Gives the pivots that are shown the places that they have among all, once rows have come and
/// gone, if they have a list of their own.
pub fn renew_places<A: Allocator>(apart: bool, kept: &mut Pivots<A>, pivots: &Pivots<A>)
    requires { apart ≡ true → (v : ℤ) → Contains (values kept.old.list) v → Contains (values pivots.now.list) v }
    ensures among { IsAmong (shown_of apart kept.new.list pivots.now.list) pivots.now.list }
    ensures values { values kept.new.list ≡ values kept.old.list }
    ensures spare { kept.new.spare ≡ kept.old.spare }
{
    if apart {
        take_places(kept, pivots);
    }
}

/// Shows a cut, which stands at the place, as a pivot, unless it is one that is shown.
fn show_cut<A: Allocator>(kept: &mut Pivots<A>, cut: &Cut, place: usize)
    requires room { length (new_values cut.now (values kept.old.list)) ≤ kept.old.spare }
    requires few { length kept.old.list + length (new_values cut.now (values kept.old.list)) ≤ MAX_PIVOTS }
    ensures values { IsPermutation (new_values cut.now (values kept.old.list) ++ values kept.old.list)
        (values kept.new.list) }
    ensures among { (ps : List (ℤ × ℕ)) → IsAmong kept.old.list ps → StandsAt cut.now ps place place
        → IsAmong kept.new.list ps }
    ensures kept { IsAmong kept.old.list kept.new.list }
    ensures has { HasCut cut.now (values kept.new.list) }
    ensures spare { kept.old.spare ≡ kept.new.spare + length (new_values cut.now (values kept.old.list)) }
{
    if let Cut::At(v) = *cut {
        let index = kept.count_upto(v);
        match kept.find_at(index, v) {
            Some(_) => {}
            None => kept.add_at(index, v, place),
        }
    }
}

/// Shows two cuts, of which the first is below the second, as pivots: they stand at these places
/// among all pivots.
pub fn show_cuts<A: Allocator>(
    kept: &mut Pivots<A>,
    pivots: &Pivots<A>,
    first: &Cut,
    second: &Cut,
    rows_len: usize,
    places: (usize, usize),
)
    requires rising { IsRising pivots.now.list }
    requires among { IsAmong kept.old.list pivots.now.list }
    requires order { is_before first.now second.now ≡ true }
    requires room { length (new_values first.now (values kept.old.list))
        + length (new_values second.now (values kept.old.list)) ≤ kept.old.spare }
    requires few { count_with_cuts first.now second.now kept.old.list ≤ MAX_PIVOTS }
    requires first { StandsAt first.now pivots.now.list rows_len places.0 }
    requires second { StandsAt second.now pivots.now.list rows_len places.1 }
    ensures among { IsAmong kept.new.list pivots.now.list }
    ensures first { StandsAt first.now kept.new.list rows_len places.0 }
    ensures second { StandsAt second.now kept.new.list rows_len places.1 }
    ensures values { IsPermutation (values_with_cuts first.now second.now (values kept.old.list))
        (values kept.new.list) }
{
    show_cut(kept, first, places.0);
    show_cut(kept, second, places.1);
}
