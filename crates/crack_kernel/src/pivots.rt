//! The pivots of a column, by rising value.

ghost use Rattle.std.specs.Prelude.{◌≡◌, ◌+◌, ◌-◌, ◌<◌, ◌≤◌, ◌^◌, [], ◌∷◌, ◌↔◌, true, false, drop, take, map, pos, set, slice_index_or, length, All, Contains, IsPermutation, IsTrue, IsFalse, IsOk, OnOk, MatchOption};
ghost use Rattle.crack_kernel.specs.PivotList.{ArePlacedInOrder, IsRising, IsNewValue, RisesPast, IsPieceOf, piece_start, piece_end, shifted_pivot, shifted, closed_up};

use std::alloc::{AllocError, Allocator};
use std::marker::Model;

/// The greatest number of pivots: a search among them takes at most 13 steps.
pub const MAX_PIVOTS: usize = 4096;

/// The pivots of a column: pairs of a value and a place, by strictly rising value.
///
/// The rows before a pivot's place have scores below its value, the rows from its place on have
/// not. The rows themselves stand elsewhere, so it is for the owner of both to keep that.
#[derive(Drop)]
pub struct Pivots<A: Allocator> {
    list: Vec<(i64, usize), A>,
}

impl<A: Allocator> Model for Pivots<A> {
    ghost use Rattle.std.specs.Prelude.{◌≤◌, ◌-◌, length, vec_capacity, vec_len};
    ghost use Rattle.crack_kernel.specs.PivotList.{PivotList, IsRising, max_pivots};

    ghost Value = { PivotList };

    ghost view = { λ p. record { list = p.list.items; spare = vec_capacity p.list - vec_len p.list } };

    ghost invariant = { λ p. IsRising p.list.items × (length p.list.items ≤ max_pivots) };
}

impl<A: Allocator> Pivots<A> {
    /// No pivots. It takes no memory.
    pub fn new(alloc: A) -> Self
        ensures { result.list ≡ [] }
    {
        Pivots {
            list: Vec::new(alloc),
        }
    }

    /// How many pivots there are.
    pub fn len(&self) -> usize
        ensures len { result ≡ length self.now.list }
        ensures few { result ≤ MAX_PIVOTS }
    {
        self.list.len()
    }

    /// Whether there is no pivot.
    pub fn is_empty(&self) -> bool
        ensures { IsTrue result ↔ (self.now.list ≡ []) }
    {
        self.list.is_empty()
    }

    /// The pivots in order, each a value and a place.
    pub fn list(&self) -> &[(i64, usize)]
        ensures value { result.now ≡ self.now.list }
        ensures rising { IsRising self.now.list }
        ensures few { length self.now.list ≤ MAX_PIVOTS }
    {
        &self.list
    }

    /// How many pivots have a value up to `v`: the index of the first pivot above `v`.
    pub fn count_upto(&self, v: i64) -> usize
        ensures { RisesPast v self.now.list result }
    {
        self.list.partition_point(|pivot| pivot.0 <= v)
    }

    /// The place of the pivot with the value `v`, if there is one.
    pub fn find(&self, v: i64) -> Option<usize>
        ensures { MatchOption result (IsNewValue v self.now.list) (λ place. Contains self.now.list
            (v, place)) }
    {
        self.find_at(self.count_upto(v), v)
    }

    /// The piece in which a row of the score `v` stands, among `rows_len` rows: where it begins
    /// and where it ends.
    pub fn piece_of(&self, v: i64, rows_len: usize) -> (usize, usize)
        ensures { IsPieceOf v self.now.list rows_len result }
    {
        self.piece_at(self.count_upto(v), rows_len)
    }

    /// The place of the pivot with the value `v`, if there is one, where `index` pivots have a value up to `v`.
    pub fn find_at(&self, index: usize, v: i64) -> Option<usize>
        requires { RisesPast v self.now.list index }
        ensures { MatchOption result (IsNewValue v self.now.list) (λ place. Contains self.now.list
            (v, place)) }
    {
        if index == 0 {
            return None;
        }
        let (value, place) = self.list[index - 1];
        if value == v { Some(place) } else { None }
    }

    /// The piece below the pivot of the index `index`, or behind the last pivot, among `rows_len` rows: where
    /// it begins and where it ends.
    pub fn piece_at(&self, index: usize, rows_len: usize) -> (usize, usize)
        requires { index ≤ length self.now.list }
        ensures start { result.0 ≡ piece_start self.now.list index }
        ensures end { result.1 ≡ piece_end self.now.list index rows_len }
    {
        let start = if index == 0 {
            0
        } else {
            self.list[index - 1].1
        };
        let end = if index < self.list.len() {
            self.list[index].1
        } else {
            rows_len
        };
        (start, end)
    }

    /// Makes room for `n` more pivots.
    pub fn reserve(&mut self, n: usize) -> Result<(), AllocError>
        ensures list { self.new.list ≡ self.old.list }
        ensures room { OnOk result (n ≤ self.new.spare) }
        ensures spare { self.old.spare ≤ self.new.spare }
        ensures succeeds { n ≤ self.old.spare → IsOk result }
    {
        self.list.reserve(n)
    }

    /// Adds a pivot at its place in the order. It takes no memory.
    pub fn add(&mut self, v: i64, place: usize)
        requires room { 0 < self.old.spare }
        requires few { length self.old.list < MAX_PIVOTS }
        requires new { IsNewValue v self.old.list }
        ensures list { IsPermutation ((v, place) ∷ self.old.list) self.new.list }
        ensures rising { IsRising self.new.list }
        ensures spare { self.new.spare + 1 ≡ self.old.spare }
    {
        let index = self.count_upto(v);
        self.add_at(index, v, place);
    }

    /// The same where `index` pivots have a value up to `v`: nothing is searched for.
    pub fn add_at(&mut self, index: usize, v: i64, place: usize)
        requires room { 0 < self.old.spare }
        requires few { length self.old.list < MAX_PIVOTS }
        requires new { IsNewValue v self.old.list }
        requires index { RisesPast v self.old.list index }
        ensures list { IsPermutation ((v, place) ∷ self.old.list) self.new.list }
        ensures rising { IsRising self.new.list }
        ensures spare { self.new.spare + 1 ≡ self.old.spare }
    {
        self.list.push_reserved((v, place));
        put_first(&mut self.list[index..], (v, place));
    }

    /// Moves the places of the pivots from the index `from_index` on one up or one down.
    pub fn shift(&mut self, from_index: usize, up: bool)
        requires from { from_index ≤ length self.old.list }
        requires low { IsFalse up → All (λ p. 0 < p.1) (drop from_index self.old.list) }
        requires high { IsTrue up → All (λ p. p.1 + 1 < 2 ^ 64) (drop from_index self.old.list) }
        ensures list { self.new.list ≡ shifted from_index up self.old.list }
        ensures spare { self.new.spare ≡ self.old.spare }
    {
        let moving = &mut self.list[from_index..];
        if up {
            raise(moving);
        } else {
            lower(moving);
        }
    }

    /// Puts the places where they belong once the rows from the place `from` on and before the
    /// place `to` are taken out and those behind have closed up.
    pub fn close_up(&mut self, from: usize, to: usize)
        requires { from ≤ to }
        ensures list { self.new.list ≡ map (λ p. (p.0, closed_up from to p.1)) self.old.list }
        ensures spare { self.new.spare ≡ self.old.spare }
    {
        close_places(&mut self.list[..], from, to);
    }

    /// The same where places rise with values or stay: the pivots with places up to `from`, which stay, are not
    /// looked at but for a search.
    pub fn close_up_in_order(&mut self, from: usize, to: usize)
        requires order { from ≤ to }
        requires places { ArePlacedInOrder self.old.list }
        ensures list { self.new.list ≡ map (λ p. (p.0, closed_up from to p.1)) self.old.list }
        ensures spare { self.new.spare ≡ self.old.spare }
    {
        let first = self.list.partition_point(|pivot| pivot.1 <= from);
        close_places(&mut self.list[first..], from, to);
    }

    /// Gives the pivot of the index `i` another place.
    pub fn set_place(&mut self, i: usize, place: usize)
        requires { i < length self.old.list }
        ensures list { self.new.list ≡ set self.old.list i ((slice_index_or self.old.list i (pos 0, 0)).0, place) }
        ensures spare { self.new.spare ≡ self.old.spare }
    {
        self.list[i].1 = place;
    }

    /// Takes the pivots of another list in the place of its own. It takes no memory.
    pub fn copy_from(&mut self, other: &Pivots<A>)
        requires { length other.now.list ≤ self.old.spare + length self.old.list }
        ensures list { self.new.list ≡ other.now.list }
        ensures rising { IsRising self.new.list }
        ensures few { length self.new.list ≤ MAX_PIVOTS }
        ensures spare { self.new.spare + length other.now.list ≡ self.old.spare + length self.old.list }
    {
        self.list.clear();
        for pivot in &other.list {
            self.list.push_reserved(*pivot);
        }
    }

    /// Drops all pivots. The room stays.
    pub fn clear(&mut self)
        ensures list { self.new.list ≡ [] }
        ensures spare { self.new.spare ≡ self.old.spare + length self.old.list }
    {
        self.list.clear();
    }
}

/// Puts a pivot before others, which move one up, over the last one.
fn put_first(pivots: &mut [(i64, usize)], pivot: (i64, usize))
    requires { 0 < length pivots.old }
    ensures { pivots.new ≡ pivot ∷ take (length pivots.old - 1) pivots.old }
{
    let last = pivots.len() - 1;
    // Between two places that are known, so that it is compiled to one `memmove`.
    pivots.copy_within(0..last, 1);
    pivots[0] = pivot;
}

/// Moves each place one up.
fn raise(pivots: &mut [(i64, usize)])
    requires { All (λ p. p.1 + 1 < 2 ^ 64) pivots.old }
    ensures { pivots.new ≡ map (shifted_pivot true) pivots.old }
{
    for pivot in pivots.iter_mut() {
        pivot.1 += 1;
    }
}

/// Moves each place one down.
fn lower(pivots: &mut [(i64, usize)])
    requires { All (λ p. 0 < p.1) pivots.old }
    ensures { pivots.new ≡ map (shifted_pivot false) pivots.old }
{
    for pivot in pivots.iter_mut() {
        pivot.1 -= 1;
    }
}

/// Moves each place by the rows that are gone below it.
fn close_places(pivots: &mut [(i64, usize)], from: usize, to: usize)
    requires { from ≤ to }
    ensures { pivots.new ≡ map (λ p. (p.0, closed_up from to p.1)) pivots.old }
{
    for pivot in pivots.iter_mut() {
        pivot.1 = closed_up(pivot.1, from, to);
    }
}

/// A place, once the rows between two places are gone.
fn closed_up(place: usize, from: usize, to: usize) -> usize
    requires { from ≤ to }
    ensures { result ≡ closed_up from to place }
{
    if place <= from {
        place
    } else if place < to {
        from
    } else {
        place - (to - from)
    }
}
