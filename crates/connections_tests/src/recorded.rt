//! An executor whose changes have records, what settles them, and a page on which all is written that leaves.

ghost use Rattle.std.specs.Prelude.{⊤};
ghost use Rattle.sorted_sets.specs.OwnerAnswers.{OwnerIsIdle, OwnerAnswers};

use crate::devices::Sender;
use connections::{Settle, Watched};
use resp_wire::Reply;
use session_core::Exec;
use sorted_sets::OneOwner;
use std::alloc::{AllocError, Global};
use std::cell::{Cell, RefCell};
use std::hash::RandomState;
use std::io::{Error as IoError, ErrorKind, Result as IoResult, Write};
use std::os::fd::RawFd;
use std::time::Duration;
use zset_commands::{Command, Refusal};

/// An owner of sets. It has a record of each command but PING, and that is what the answer tells of.
#[derive(Drop)]
pub struct Recorded {
    pub owner: OneOwner<RandomState, Global>,
    pub records: u64,
    pub told: Cell<u64>,
}

impl<R> Exec<R, Global> for Recorded {
    ghost settled = { λ r. OwnerIsIdle r.owner };

    ghost allows = { λ old asked answer new. OwnerAnswers old.owner asked answer new.owner };

    ghost tells = { λ _ _. ⊤ };

    fn run(&mut self, _rt: &R, command: &Command<Global>) -> Result<Reply<Global>, Refusal> {
        if command.key().is_some() {
            self.records = self.records.saturating_add(1);
            self.told.set(self.records);
        }
        self.owner.run(command)
    }

    fn take_told(&mut self) -> u64 {
        self.told.replace(0)
    }
}

/// What all clients were sent, and in brackets which records were to be settled when.
#[derive(Drop)]
pub struct Page {
    text: RefCell<Vec<u8>>,
}

impl Page {
    pub fn new(alloc: Global) -> Self {
        Page {
            text: RefCell::new(Vec::new(alloc)),
        }
    }

    /// Writes at the end.
    fn put(&self, bytes: &[u8]) -> bool {
        match self.text.try_borrow_mut() {
            Ok(mut text) => text.extend_from_slice(bytes).is_ok(),
            Err(_) => false,
        }
    }

    /// What was written.
    pub fn text(&self, alloc: Global) -> Result<Vec<u8>, AllocError> {
        match self.text.try_borrow() {
            Ok(text) => Vec::from_slice(alloc, text.as_slice()),
            Err(_) => Ok(Vec::new(alloc)),
        }
    }
}

/// A client that is sent what is written on the page.
#[derive(Drop)]
pub struct Reader<'p> {
    pub page: &'p Page,
}

impl<'p> Write for Reader<'p> {
    fn write(&mut self, bytes: &[u8]) -> IoResult<usize> {
        if self.page.put(bytes) {
            return Ok(bytes.len());
        }
        Err(IoError::from(ErrorKind::OutOfMemory))
    }

    fn flush(&mut self) -> IoResult<()> {
        Ok(())
    }
}

/// Settles records, so many at each call. None: it can't.
#[derive(Drop)]
pub struct Settler<'p> {
    pub page: &'p Page,
    pub most: Option<u64>,
    /// It says that it settles them later.
    pub settles_later: bool,
}

impl<'p, R> Settle<R> for Settler<'p> {
    ghost settles = { λ _ _. ⊤ };

    fn settles_later(&self) -> bool {
        self.settles_later
    }

    fn settle(&self, _rt: &R, number: u64) -> Option<u64> {
        let digit = b'0' + (number % 10) as u8;
        self.page.put(&[b'[', digit, b']']);
        match self.most {
            Some(most) => Some(most.max(number)),
            None => None,
        }
    }
}

/// It is always ready.
impl<'i> Watched for Sender<'i> {
    fn descriptor(&self) -> Option<RawFd> {
        None
    }

    fn silence(&self) -> Option<Duration> {
        None
    }

    fn set_waiting(&self, _waits: bool) -> bool {
        false
    }
}
