//! Why bytes are no request.

ghost use Rattle.std.specs.Prelude.{◌≡◌};
ghost use Rattle.resp_wire.specs.FaultTexts.{number_of, text_of};
ghost use Rattle.resp_wire.specs.declared.fault.Failure.TheVariants as failures;

use std::alloc::AllocError;
use std::error::Error as StdError;
use std::fmt;
use thiserror::Error;

/// A byte that no request may have at its place.
#[derive(Clone, Copy, Debug, PartialEq, Eq)]
pub enum ProtocolFault {
    /// A request begins with no `*`.
    NotAnArray,
    /// A count or a length is no number, has a sign or a leading zero, or its line ends wrongly.
    BadNumber,
    /// A request has more than 1,027 arguments.
    TooManyArguments,
    /// An argument has more than 65,536 bytes.
    TooLong,
    /// An argument begins with no `$`, or is longer than its length.
    BadBulk,
}

impl ProtocolFault {
    /// The fault's number, 2 to 6, by which the program names it. 1 is out of memory.
    pub fn number(&self) -> u8
        ensures { result ≡ number_of self.now }
    {
        match self {
            ProtocolFault::NotAnArray => 2,
            ProtocolFault::BadNumber => 3,
            ProtocolFault::TooManyArguments => 4,
            ProtocolFault::TooLong => 5,
            ProtocolFault::BadBulk => 6,
        }
    }

    /// The text of the error reply, behind the `-`.
    pub fn text(&self) -> &'static str
        ensures { result.now ≡ text_of self.now }
    {
        match self {
            ProtocolFault::NotAnArray => "ERR protocol 2 not an array",
            ProtocolFault::BadNumber => "ERR protocol 3 bad number",
            ProtocolFault::TooManyArguments => "ERR protocol 4 too many arguments",
            ProtocolFault::TooLong => "ERR protocol 5 argument too long",
            ProtocolFault::BadBulk => "ERR protocol 6 bad bulk string",
        }
    }
}

impl fmt::Display for ProtocolFault {
    fn fmt<W: fmt::Write>(&self, f: &mut fmt::Formatter<W>) -> fmt::Result {
        f.write_str(self.text())
    }
}

impl StdError for ProtocolFault {}

/// Why a decoder has no next request.
#[derive(Clone, Copy, Debug, PartialEq, Eq, Error)]
pub enum WireFault {
    /// Nothing moved: ask again once there is memory.
    #[error("out of memory")]
    NoMemory,
    /// The decoder answers this for good.
    #[error("{0}")]
    Protocol(ProtocolFault),
}

/// Where reading stops: the bytes end, or one of them is wrong.
#[derive(Clone, Copy, Debug, PartialEq, Eq)]
pub enum Stop {
    Short,
    Wrong(ProtocolFault),
}

/// Why an argument could not be read.
#[derive(Clone, Copy, Debug, PartialEq, Eq)]
pub enum Failure {
    Memory,
    Stop(Stop),
}

impl From<AllocError> for Failure {
    ghost from_gives = { λ _ e. e ≡ failures.Memory };

    fn from(_e: AllocError) -> Failure {
        Failure::Memory
    }
}

impl From<Stop> for Failure {
    ghost from_gives = { λ stop e. e ≡ failures.Stop stop };

    fn from(stop: Stop) -> Failure {
        Failure::Stop(stop)
    }
}
