//! What its holders were told of a log's appends.

ghost use Rattle.std.specs.Prelude.{◌≡◌, ◌+◌, ◌<◌, ◌^◌};

use crate::thread_safe_ledger_share::LedgerShare;
use std::marker::Model;
use std::sync::ledger::{Book, Ledger, Share};

/// How many records were appended by its holder: one part of the log's own count. A contract sees
/// the number.
#[derive(Drop)]
pub struct RecordShare<L: Ledger> {
    count: u64,
    /// The log's number of the last of them.
    last: u64,
    share: LedgerShare<L>,
}

impl<L: Ledger> Model for RecordShare<L> {
    ghost use Rattle.std.specs.Prelude.{ℕ, ◌≡◌};

    ghost Value = { ℕ };

    ghost view = { λ s. s.share.amount };

    ghost invariant = { λ s. (s.share.amount ≡ s.count) × (s.share.parts ≡ 1) };
}

impl<L: Ledger> RecordShare<L> {
    pub fn new(share: Share<L>) -> RecordShare<L>
        requires part { share.parts ≡ 1 }
        requires none { share.amount ≡ 0 }
        ensures { result ≡ 0 }
    {
        RecordShare {
            count: 0,
            last: 0,
            share: LedgerShare::new(share),
        }
    }

    /// The number of records.
    pub fn count(&self) -> u64
        ensures { result ≡ self.now }
    {
        self.count
    }

    /// The log's number of the last of them, counted from 1 on; 0 where there is none. A log's records are settled in
    /// the order of these numbers. A contract doesn't see it.
    pub fn last(&self) -> u64 {
        self.last
    }

    /// One record more, in the share and in the book: the log's record of this number.
    pub fn rise(&mut self, book: &mut Book<L>, number: u64)
        requires { book.old.total < 2 ^ 40 }
        ensures share { self.new ≡ self.old + 1 }
        ensures book { book.new.total ≡ book.old.total + 1 }
    {
        self.share.audit(book);
        self.share.add_one(book);
        self.count += 1;
        self.last = number;
    }
}
