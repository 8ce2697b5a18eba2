//! What clients send, and how an owner of sets answers it.

use resp_wire::{Bytes, BytesList, Reply, Request, write_reply, write_request};
use session_core::Exec;
use std::alloc::{AllocError, Allocator, Global};
use std::test::Fail;
use zset_commands::{Command, Refusal};

/// What a client sends.
#[derive(Drop)]
pub struct Script<'r> {
    /// Each with single blanks between its words.
    pub requests: &'r [&'r str],
    pub bytes: Vec<u8>,
    /// So many bytes have come when each of the requests is whole.
    pub ends: Vec<usize>,
}

fn put_word<A: Allocator + Copy>(
    alloc: A,
    word: &str,
    words: &mut Vec<Bytes<A>, A>,
) -> Result<(), AllocError> {
    words.push(Bytes::from_slice(alloc, word.as_bytes())?)?;
    Ok(())
}

/// The request of a text's words, which single blanks part.
fn request<A: Allocator + Copy>(alloc: A, text: &str) -> Result<Request<A>, Fail> {
    let mut words = Vec::new(alloc);
    for word in text.split(' ') {
        put_word(alloc, word, &mut words)?;
    }
    match Request::new(BytesList::new(words)) {
        Some(request) => Ok(request),
        None => Err(Fail::new("no request")),
    }
}

/// Appends the request of a text.
fn put_request<A: Allocator + Copy>(
    alloc: A,
    text: &str,
    bytes: &mut Vec<u8, A>,
) -> Result<(), Fail> {
    let request = request(alloc, text)?;
    let written = write_request(&request, bytes);
    drop(request);
    Ok(written?)
}

impl<'r> Script<'r> {
    /// The requests in turn, over and over, so many times.
    pub fn new(alloc: Global, requests: &'r [&'r str], times: usize) -> Result<Self, Fail> {
        let mut script = Script {
            requests,
            bytes: Vec::new(alloc),
            ends: Vec::new(alloc),
        };
        match script.put(alloc, times) {
            Ok(()) => Ok(script),
            Err(fault) => {
                drop(script);
                Err(fault)
            }
        }
    }

    /// Appends the requests, so many times.
    fn put(&mut self, alloc: Global, times: usize) -> Result<(), Fail> {
        for _ in 0..times {
            for text in self.requests {
                put_request(alloc, text, &mut self.bytes)?;
                self.ends.push(self.bytes.len())?;
            }
        }
        Ok(())
    }

    /// The request at a place, if it is whole after so many bytes.
    pub fn due(&self, place: usize, read: usize) -> Option<&'r str> {
        let end = *self.ends.get(place)?;
        let is_whole = end <= read;
        let place = place.checked_rem(self.requests.len())?;
        self.requests.get(place).copied().filter(|_| is_whole)
    }
}

fn command<A: Allocator + Copy>(alloc: A, text: &str) -> Result<Command<A>, Fail> {
    Command::read(alloc, request(alloc, text)?).map_err(|_| Fail::from("no command"))
}

/// Appends a reply, or the text of a refusal.
fn put_answer<A: Allocator + Copy>(
    answer: Result<Reply<A>, Refusal>,
    bytes: &mut Vec<u8, A>,
) -> Result<(), Fail> {
    let reply = match answer {
        Ok(reply) => reply,
        Err(refusal) => Reply::Fault(refusal.text()),
    };
    let written = write_reply(&reply, bytes);
    drop(reply);
    Ok(written?)
}

/// Appends the reply to a request.
pub fn ask<R, E: Exec<R, Global>>(
    rt: &R,
    alloc: Global,
    exec: &mut E,
    text: &str,
    out: &mut Vec<u8>,
) -> Result<(), Fail>
    requires { E.settled exec.old }
    ensures { E.settled exec.new }
{
    let command = command(alloc, text)?;
    let answer = exec.run(rt, &command);
    drop(command);
    put_answer(answer, out)
}
