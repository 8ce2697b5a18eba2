//! A stream of requests, in whatever pieces it comes.

ghost use Rattle.std.specs.Prelude.{◌≡◌, ℕ, ◌+◌, ◌-◌, ◌≤◌, ◌<◌, ◌^◌, [], ◌++◌, length, drop, None, Err, IfNone, IfSome, OnOk, OnErr, OnSome, IsOk};
ghost use Rattle.resp_wire.specs.declared.fault.WireFault.TheVariants.{Protocol};
ghost use Rattle.resp_wire.specs.DecoderView.{Nexts};

use crate::decoder_steps::{self, End};
use crate::fault::{ProtocolFault, Stop, WireFault};
use resp_messages::{Bytes, BytesList, Request};
use std::alloc::{AllocError, Allocator};
use std::marker::Model;
use std::mem;

/// The bytes from a place on.
fn behind(bytes: &[u8], start: usize) -> &[u8]
    requires { start ≤ length bytes.now }
    ensures { result.now ≡ drop start bytes.now }
{
    bytes.split_at(start).1
}

/// Drops the bytes before `start` where they are at least half, so that each byte moves but once or
/// twice in its time, and gives the place where the unread bytes then begin.
fn drop_read<A: Allocator>(bytes: &mut Vec<u8, A>, start: usize) -> usize
    requires { start ≤ length bytes.old.items }
    ensures within { result ≤ length bytes.new.items }
    ensures unread { drop result bytes.new.items ≡ drop start bytes.old.items }
    ensures count { length bytes.new.items - result ≡ length bytes.old.items - start }
{
    let unread = bytes.len() - start;
    if start < unread {
        return start;
    }
    bytes.copy_within(start.., 0);
    bytes.truncate(unread);
    0
}

/// Puts a piece behind the unread bytes, which begin at `start`.
fn append<A: Allocator>(
    bytes: &mut Vec<u8, A>,
    start: usize,
    piece: &[u8],
) -> Result<(), AllocError>
    requires { start ≤ length bytes.old.items }
    ensures ok { OnOk result (drop start bytes.new.items ≡ drop start bytes.old.items ++ piece.now) }
    ensures count { OnOk result (length bytes.new.items ≡ length bytes.old.items + length piece.now) }
    ensures err { OnErr result (bytes.new.items ≡ bytes.old.items) }
    ensures within { start ≤ length bytes.new.items }
{
    bytes.extend_from_slice(piece)
}

/// The list of so many arguments has its room reused at most: a longer one is given up, so that a decoder that waits
/// keeps little.
const REUSED_ARGUMENTS: usize = 8;

/// Takes a stream of requests in whatever pieces it comes. A contract sees the bytes that it holds,
/// the number of bytes that it gave as requests or skipped before them, and the fault that it
/// answered.
///
/// An argument that is whole is read once, however the stream is cut, and an announced count or
/// length reserves nothing.
#[derive(Drop)]
pub struct Decoder<A: Allocator> {
    alloc: A,
    /// The bytes from `start` on are not read yet.
    bytes: Vec<u8, A>,
    start: usize,
    /// The number of arguments of the request that has begun, 0 where none has, and those that are
    /// read.
    count: usize,
    arguments: Vec<Bytes<A>, A>,
    /// The length of the text of that request, as far as it is read.
    begun: usize,
    taken: u64,
    fault: Option<ProtocolFault>,
}

impl<A: Allocator> Model for Decoder<A> {
    ghost use Rattle.resp_wire.specs.DecoderView.{DecoderView};

    ghost Value = { DecoderView };

    ghost use Rattle.resp_wire.specs.DecoderFields.{wire_of, IsSound};

    ghost view = { wire_of };

    ghost invariant = { IsSound };
}

impl<A: Allocator + Copy> Decoder<A> {
    /// A decoder at the start of a stream.
    pub fn new(alloc: A) -> Self
        ensures { result ≡ record { held = []; taken = 0; fault = None } }
    {
        Decoder {
            alloc,
            bytes: Vec::new(alloc),
            start: 0,
            count: 0,
            arguments: Vec::new(alloc),
            begun: 0,
            taken: 0,
            fault: None,
        }
    }

    /// The number of bytes that are held: fed, and neither given as requests nor skipped.
    pub fn rest_len(&self) -> usize
        ensures { result ≡ length self.now.held }
    {
        self.begun + (self.bytes.len() - self.start)
    }

    /// The number of bytes that were given as requests or skipped.
    pub fn taken(&self) -> u64
        ensures { result ≡ self.now.taken }
    {
        self.taken
    }

    /// Gives up the memory of a decoder that holds nothing. What it holds, and all that it answers,
    /// stays.
    pub fn let_go(&mut self)
        ensures { self.new ≡ self.old }
    {
        if self.start == self.bytes.len() {
            self.bytes = Vec::new(self.alloc);
            self.start = 0;
        }
    }

    /// Has the list of the next request's arguments stand where that of an answered one stood. What is held, and all
    /// that is answered, stays.
    pub fn reuse(&mut self, answered: Request<A>)
        ensures { self.new ≡ self.old }
    {
        if self.count == 0 && answered.words().len() <= REUSED_ARGUMENTS {
            self.arguments = answered.into_room();
        }
    }

    /// Takes the next piece of the stream. On Err, the decoder is unchanged. After a
    /// fault of the protocol no piece is kept, and the answer is Ok.
    pub fn feed(&mut self, piece: &[u8]) -> Result<(), AllocError>
        requires { self.old.taken + length self.old.held + length piece.now < 2 ^ 64 }
        ensures fed { OnOk result (IfNone self.old.fault
            (self.new ≡ record {
              held = self.old.held
                  ++ piece.now;
              taken = self.old.taken;
              fault = None;
            })) }
        ensures failed { OnSome self.old.fault (IsOk result × (self.new ≡ self.old)) }
        ensures err { OnErr result (self.new ≡ self.old) }
    {
        if self.fault.is_some() {
            return Ok(());
        }
        self.start = drop_read(&mut self.bytes, self.start);
        append(&mut self.bytes, self.start, piece)
    }

    /// The first whole request of the bytes held, which is taken off them. None: there is none yet, and
    /// what is left may still become one. A fault of the protocol: it can't, and each later call answers
    /// the same. Empty and null arrays before it are taken off in all three cases. After NoMemory the
    /// decoder is unchanged.
    pub fn next(&mut self) -> Result<Option<Request<A>>, WireFault>
        // A fault that was told is told again.
        ensures failed { IfSome self.old.fault
            (λ f. (result ≡ Err (Protocol f)) × (self.new ≡ self.old)) }
        ensures next { IfNone self.old.fault (Nexts self.old result self.new) }
        // Each byte is held, or counted as taken.
        ensures taken { self.new.taken + length self.new.held ≡ self.old.taken
            + length self.old.held }
    {
        if let Some(fault) = self.fault {
            return Err(WireFault::Protocol(fault));
        }
        let unread = behind(&self.bytes, self.start);
        let step = decoder_steps::advance(self.alloc, &mut self.arguments, self.count, unread);
        match step.end {
            End::Memory => Err(WireFault::NoMemory),
            End::Whole => {
                self.taken += (self.begun + step.used) as u64;
                self.start += step.used;
                self.begun = 0;
                self.count = 0;
                let arguments = mem::replace(&mut self.arguments, Vec::new(self.alloc));
                Ok(Some(Request::of(BytesList::new(arguments))))
            }
            End::Stopped(stop) => {
                self.taken += step.skipped as u64;
                self.begun = self.begun + step.used - step.skipped;
                self.start += step.used;
                self.count = step.count;
                match stop {
                    Stop::Short => Ok(None),
                    Stop::Wrong(fault) => {
                        self.fault = Some(fault);
                        Err(WireFault::Protocol(fault))
                    }
                }
            }
        }
    }
}
