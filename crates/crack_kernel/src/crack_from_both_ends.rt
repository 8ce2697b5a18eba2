//! Cracks from both ends: rows on the wrong side are found a block at a time, and change places in pairs.

ghost use Rattle.std.specs.Prelude.{◌≡◌, ◌≤◌, ◌<◌, ◌+◌, ◌⊎◌, ℕ, length, take, IsPermutation};
ghost use Rattle.std.specs.List.{AllWithin};
ghost use Rattle.crack_kernel.specs.PartedRows.{IsBelow, IsFrom, Lists, ListsDown};
ghost use Rattle.crack_kernel.specs.CrackedEnds.{HasCrackedEnds, IsDone};

use crate::row::Row;
use std::alloc::Allocator;

/// How many rows are looked through before those on the wrong side are moved.
pub const BLOCK: usize = 64;

/// A block of rows, and the places of those in it that belong to the other side and were not moved yet: those of
/// `places` from the index `next` on and before `count`.
#[derive(Drop)]
pub struct Block {
    pub from: usize,
    pub to: usize,
    pub places: [usize; BLOCK],
    pub next: usize,
    pub count: usize,
}

impl Block {
    /// No rows, at a place.
    fn at(place: usize) -> Self
        ensures from { result.from ≡ place }
        ensures to { result.to ≡ place }
        ensures next { result.next ≡ 0 }
        ensures count { result.count ≡ 0 }
    {
        Block {
            from: place,
            to: place,
            places: [0; BLOCK],
            next: 0,
            count: 0,
        }
    }
}

/// A slice that is being cracked from both ends. What stands between the two blocks was not looked at yet.
#[derive(Drop)]
pub struct Ends {
    pub value: i64,
    pub lower: Block,
    pub upper: Block,
}

impl Ends {
    /// Nothing was looked at yet.
    pub fn of<A: Allocator>(rows: &[Row<A>], value: i64) -> Self
        ensures value { result.value ≡ value }
        ensures cracked { HasCrackedEnds result rows.now }
        ensures done { IsDone result.lower }
    {
        Ends {
            value,
            lower: Block::at(0),
            upper: Block::at(rows.len()),
        }
    }

    /// Where no row of the lower block is left, goes on to the block behind it.
    pub fn find_lower<A: Allocator>(&mut self, rows: &[Row<A>])
        requires cracked { HasCrackedEnds self.old rows.now }
        requires room { self.old.lower.to + BLOCK ≤ self.old.upper.from }
        ensures value { self.new.value ≡ self.old.value }
        ensures cracked { HasCrackedEnds self.new rows.now }
        ensures upper { self.new.upper ≡ self.old.upper }
        ensures step { self.new.lower.to ≤ self.old.lower.to + BLOCK }
        ensures onwards { self.old.lower.to ≤ self.new.lower.to }
        ensures next { IsDone self.old.lower → self.new.lower.to ≡ self.old.lower.to + BLOCK }
    {
        if self.lower.next < self.lower.count {
            return;
        }
        let from = self.lower.to;
        let to = from + BLOCK;
        self.lower.count = find_from(rows, from, to, self.value, &mut self.lower.places);
        self.lower.next = 0;
        self.lower.from = from;
        self.lower.to = to;
    }

    /// Where no row of the upper block is left, goes on to the block before it.
    pub fn find_upper<A: Allocator>(&mut self, rows: &[Row<A>])
        requires cracked { HasCrackedEnds self.old rows.now }
        requires room { self.old.lower.to + BLOCK ≤ self.old.upper.from }
        ensures value { self.new.value ≡ self.old.value }
        ensures cracked { HasCrackedEnds self.new rows.now }
        ensures lower { self.new.lower ≡ self.old.lower }
        ensures onwards { self.new.upper.from ≤ self.old.upper.from }
        ensures next { IsDone self.old.upper → self.new.upper.from + BLOCK ≡ self.old.upper.from }
    {
        if self.upper.next < self.upper.count {
            return;
        }
        let to = self.upper.from;
        let from = to - BLOCK;
        self.upper.count = find_below_downwards(rows, from, to, self.value, &mut self.upper.places);
        self.upper.next = 0;
        self.upper.from = from;
        self.upper.to = to;
    }

    /// Lets rows of the two blocks change places until none is left in one of them.
    pub fn exchange<A: Allocator>(&mut self, rows: &mut [Row<A>])
        requires { HasCrackedEnds self.old rows.old }
        ensures permutation { IsPermutation rows.old rows.new }
        ensures value { self.new.value ≡ self.old.value }
        ensures cracked { HasCrackedEnds self.new rows.new }
        ensures lower { self.new.lower.to ≡ self.old.lower.to }
        ensures upper { self.new.upper.from ≡ self.old.upper.from }
        ensures done { IsDone self.new.lower ⊎ IsDone self.new.upper }
    {
        let lower = self.lower.next;
        let upper = self.upper.next;
        let pairs = (self.lower.count - lower).min(self.upper.count - upper);
        for i in 0..pairs {
            rows.swap(self.lower.places[lower + i], self.upper.places[upper + i]);
        }
        self.lower.next = lower + pairs;
        self.upper.next = upper + pairs;
    }
}

/// Finds the rows with a score of `v` or more among those of a block. Their places come first in `found`, from the
/// lowest up, and the answer is how many they are.
fn find_from<A: Allocator>(
    rows: &[Row<A>],
    from: usize,
    to: usize,
    v: i64,
    found: &mut [usize; BLOCK],
) -> usize
    requires order { from ≤ to }
    requires within { to ≤ length rows.now }
    requires room { to ≤ from + BLOCK }
    ensures few { result ≤ BLOCK }
    ensures found { Lists (IsFrom v) (IsBelow v) rows.now (take result found.new) from to }
{
    let mut count = 0;
    for i in from..to {
        let below = rows[i].score() < v;
        found[count] = i;
        if !below {
            count += 1;
        }
    }
    count
}

/// Finds the rows with a score below `v` among those of a block. Their places come first in `found`, from the highest
/// down, and the answer is how many they are.
fn find_below_downwards<A: Allocator>(
    rows: &[Row<A>],
    from: usize,
    to: usize,
    v: i64,
    found: &mut [usize; BLOCK],
) -> usize
    requires order { from ≤ to }
    requires within { to ≤ length rows.now }
    requires room { to ≤ from + BLOCK }
    ensures few { result ≤ BLOCK }
    ensures found { ListsDown (IsBelow v) (IsFrom v) rows.now (take result found.new) from to }
{
    let mut count = 0;
    for passed in 0..to - from {
        let i = to - passed - 1;
        let below = rows[i].score() < v;
        found[count] = i;
        if below {
            count += 1;
        }
    }
    count
}
