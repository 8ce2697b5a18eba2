//! Clients in memory that are not always ready and of which a call fails, and clocks of tests.

use std::cell::Cell;
use std::io::{Error as IoError, ErrorKind, Read, Result as IoResult, Write};
use std::time::{Clock, Duration};

/// One side of a client.
#[derive(Clone, Copy)]
pub struct Device {
    /// How many bytes a call moves at most.
    pub chunk: usize,
    /// Which call fails, 0 for none.
    pub fails_at: u64,
    /// The first of each two calls finds it not ready.
    pub is_slow: bool,
}

impl Device {
    /// Whether the call of this number finds it ready.
    pub fn is_ready(&self, call: u64) -> bool {
        !self.is_slow || call % 2 == 0
    }
}

/// Both sides of a client.
#[derive(Clone, Copy)]
pub struct Devices {
    pub from: Device,
    pub to: Device,
}

/// What a client still sends.
#[derive(Drop)]
pub struct Sender<'i> {
    rest: &'i [u8],
    device: Device,
    calls: u64,
}

impl<'i> Sender<'i> {
    pub fn new(bytes: &'i [u8], device: Device) -> Self {
        Sender {
            rest: bytes,
            device,
            calls: 0,
        }
    }
}

impl<'i> Read for Sender<'i> {
    fn read(&mut self, buffer: &mut [u8]) -> IoResult<usize> {
        self.calls = self.calls.saturating_add(1);
        if !self.device.is_ready(self.calls) {
            return Err(IoError::from(ErrorKind::WouldBlock));
        }
        let n = self.device.chunk.min(self.rest.len()).min(buffer.len());
        let (prefix, rest) = self.rest.split_at(n);
        buffer[..n].copy_from_slice(prefix);
        self.rest = rest;
        Ok(n)
    }
}

/// What a client was sent.
#[derive(Drop)]
pub struct Taker<'o> {
    taken: &'o mut Vec<u8>,
    device: Device,
    calls: u64,
}

impl<'o> Taker<'o> {
    pub fn new(taken: &'o mut Vec<u8>, device: Device) -> Self {
        Taker {
            taken,
            device,
            calls: 0,
        }
    }
}

impl<'o> Write for Taker<'o> {
    fn write(&mut self, bytes: &[u8]) -> IoResult<usize> {
        self.calls = self.calls.saturating_add(1);
        if !self.device.is_ready(self.calls) {
            return Err(IoError::from(ErrorKind::WouldBlock));
        }
        let n = self.device.chunk.min(bytes.len());
        self.taken.extend_from_slice(&bytes[..n])?;
        Ok(n)
    }

    fn flush(&mut self) -> IoResult<()> {
        Ok(())
    }
}

/// How the time goes.
#[derive(Clone, Copy, Debug, PartialEq, Eq)]
pub enum Pace {
    /// It stands still.
    Stands,
    /// Each look is a millisecond after the look before.
    Runs,
    /// Each look is 499 microseconds after the look before.
    Jogs,
    /// Each look is 25 microseconds after the look before.
    Trots,
    /// Each look is 24 microseconds after the look before.
    Walks,
    /// Each look is 12 microseconds after the look before.
    Ambles,
    /// Each look is 11 microseconds after the look before.
    Creeps,
    /// The look of this number, counted from 1, is 12 microseconds after the look before; it stands still else.
    Trips(u64),
    /// It can't be told.
    Fails,
}

/// A clock of a test.
#[derive(Drop)]
pub struct TestClock {
    pace: Pace,
    looks: Cell<u64>,
}

impl TestClock {
    pub fn new(pace: Pace) -> Self {
        TestClock {
            pace,
            looks: Cell::new(0),
        }
    }

    /// How often it was looked at.
    pub fn looks(&self) -> u64 {
        self.looks.get()
    }
}

impl Clock for TestClock {
    fn monotonic(&self) -> IoResult<Duration> {
        let looks = self.looks.get().saturating_add(1);
        self.looks.set(looks);
        let micros = match self.pace {
            Pace::Stands => 0,
            Pace::Runs => looks.saturating_mul(1_000),
            Pace::Jogs => looks.saturating_mul(499),
            Pace::Trots => looks.saturating_mul(25),
            Pace::Walks => looks.saturating_mul(24),
            Pace::Ambles => looks.saturating_mul(12),
            Pace::Creeps => looks.saturating_mul(11),
            Pace::Trips(number) => if looks < number { 0 } else { 12 },
            Pace::Fails => return Err(IoError::from(ErrorKind::Unsupported)),
        };
        Ok(Duration::from_micros(micros))
    }

    fn since_1970(&self) -> IoResult<Duration> {
        self.monotonic()
    }
}
