//! Marks of the rows in a list of rows that wait, so that mostly no row is looked at where the one
//! that is looked for does not wait.

ghost use Rattle.std.specs.Prelude.{◌≡◌, ◌/◌, ◌%◌, ◌^◌, ◌<◌, ℕ, ℤ, List, [], true, length};
ghost use Rattle.std.specs.List.{AllWithin};
ghost use Rattle.column_rows.specs.RowHash.{hash_of};
ghost use Rattle.column_rows.specs.PendingBloom.{Covers, is_marked, is_set};

use crate::row_hash::hash_of;
use crack_kernel::Row;
use std::alloc::{AllocError, Allocator};

/// How many words of 64 marks there are: 65,536 marks, 32 for each row that can wait.
const WORDS: usize = 1024;

/// Marks of rows, two for each, which its hash gives (a Bloom filter). Each row that was marked since
/// the marks were last wiped has its marks; few others have both of theirs. Before the marks are made,
/// each row counts as marked.
#[derive(Drop)]
pub struct PendingBloom<A: Allocator> {
    words: Vec<u64, A>,
    is_wiped: bool,
}

/// The first mark of a hash.
fn first_mark(hash: u64) -> usize
    ensures { result ≡ hash / 2 ^ 48 }
{
    (hash >> 48) as usize
}

/// The second mark of a hash.
fn second_mark(hash: u64) -> usize
    ensures { result ≡ hash / 2 ^ 32 % 2 ^ 16 }
{
    ((hash >> 32) % 65_536) as usize
}

impl<A: Allocator> PendingBloom<A> {
    /// No marks. It takes no memory.
    pub fn new(alloc: A) -> Self
        ensures { result.words.items ≡ [] }
    {
        PendingBloom {
            words: Vec::new(alloc),
            is_wiped: false,
        }
    }

    /// Whether a mark is set.
    fn is_set(&self, mark: usize) -> bool
        ensures { result ≡ is_set self.now.words.items mark }
    {
        let at = mark / 64;
        if at < self.words.len() {
            self.words[at] >> (mark % 64) & 1 == 1
        } else {
            true
        }
    }

    /// Sets a mark.
    fn set(&mut self, mark: usize)
        ensures set { is_set self.new.words.items mark ≡ true }
        ensures kept { (m : ℕ) → is_set self.old.words.items m ≡ true → is_set self.new.words.items m ≡ true }
    {
        let at = mark / 64;
        if at < self.words.len() {
            self.words[at] |= 1 << (mark % 64);
            self.is_wiped = false;
        }
    }

    /// Whether a row with the hash may have been marked.
    pub fn may_have(&self, hash: u64) -> bool
        ensures { result ≡ is_marked self.now.words.items hash }
    {
        self.is_set(first_mark(hash)) && self.is_set(second_mark(hash))
    }

    /// Marks a row by its hash.
    pub fn mark(&mut self, hash: u64)
        ensures marked { is_marked self.new.words.items hash ≡ true }
        ensures kept { (h : ℕ) → is_marked self.old.words.items h ≡ true → is_marked self.new.words.items h ≡ true }
    {
        self.set(first_mark(hash));
        self.set(second_mark(hash));
    }

    /// Whether there are no marks yet.
    pub fn is_empty(&self) -> bool {
        self.words.is_empty()
    }

    /// Makes the marks, and marks all these rows.
    pub fn mark_rows(&mut self, rows: &[Row<A>]) -> Result<(), AllocError>
        ensures { Covers self.new.words.items rows.now }
    {
        let made = self.words.resize(WORDS, 0);
        mark_all(rows, self);
        made
    }

    /// Wipes all marks.
    pub fn wipe(&mut self) {
        if !self.is_wiped {
            self.words.fill(0);
            self.is_wiped = true;
        }
    }

    /// Gives back the marks: each row counts as marked then.
    pub fn give_back(&mut self)
        ensures { self.new.words.items ≡ [] }
    {
        self.words.clear();
        self.words.shrink_to_fit();
    }
}

/// Marks all these rows.
fn mark_all<A: Allocator>(list: &[Row<A>], marks: &mut PendingBloom<A>)
    ensures { Covers marks.new.words.items list.now }
{
    for i in 0..list.len() {
        marks.mark(hash_of(&list[i]));
    }
}
