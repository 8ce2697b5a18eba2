//! A ledger's share that threads may share.

ghost use Rattle.std.specs.Prelude.{◌≡◌, ◌+◌, ◌<◌, ◌≤◌};

use std::marker::Model;
use std::sync::ledger::{Book, Ledger, Share};

/// A ledger's share that may stand behind a lock that threads share. Behind a `&` it shows nothing,
/// and beside the share it owns nothing.
#[derive(Drop)]
pub(crate) struct LedgerShare<L: Ledger> {
    share: Share<L>,
}

impl<L: Ledger> Model for LedgerShare<L> {
    ghost use Rattle.log_records.specs.LedgerShareView.{LedgerShareView};
    ghost use base.Fml.{ftrue};

    ghost Value = { LedgerShareView };

    ghost view = { λ k. record { parts = k.share.parts; amount = k.share.amount } };

    ghost also_owns = { λ _. ftrue };
}

impl<L: Ledger> LedgerShare<L> {
    pub(crate) fn new(share: Share<L>) -> LedgerShare<L>
        ensures { result ≡ record { parts = share.parts; amount = share.amount } }
    {
        LedgerShare { share }
    }

    /// The share is no more than the book's total.
    pub(crate) fn audit(&mut self, book: &mut Book<L>)
        ensures share { self.new ≡ self.old }
        ensures book { book.new.total ≡ book.old.total }
        ensures bound { self.old.amount ≤ book.old.total }
    {
        book.audit(&mut self.share);
    }

    /// One more, in the share and in the book.
    pub(crate) fn add_one(&mut self, book: &mut Book<L>)
        requires { 0 < self.old.parts }
        ensures share { self.new
            ≡ record { parts = self.old.parts; amount = self.old.amount + 1 } }
        ensures book { book.new.total ≡ book.old.total + 1 }
    {
        book.add(&mut self.share, 1);
    }
}

unsafe impl<L: Ledger> Send for LedgerShare<L> {}

unsafe impl<L: Ledger> Sync for LedgerShare<L> {}
