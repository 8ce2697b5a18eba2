//! The wire, where a session does not show it.

ghost use Rattle.std.specs.Prelude.{◌≡◌, ◌+◌, ◌≤◌, length};

use fuse_alloc::Fuse;
use linked_list_allocator::LocalHeap;
use resp_wire::{
    Bytes, BytesList, Decoder, MAX_READ_BUFFER, MAX_READS, ProtocolFault, READ_BUFFER, Request,
    WireFault,
};
use std::alloc::{AllocError, Allocator, Global};
use std::test::Fail;

/// The memory that a decoder needs for the text above its first words, and for one short request.
const LITTLE: usize = 512;

// 1,027 words and 65,536 bytes are announced, and the heap has room for a hundredth of either.
#[test]
fn an_announced_length_reserves_nothing(rt: HostRuntime) -> Result<(), Fail> {
    let heap = LocalHeap::new(rt.alloc(), LITTLE)?;
    assert!(rt; announces(&heap)?);
    Ok(())
}

/// Whether a decoder waits for what is announced, and keeps the bytes that announce it.
fn announces<A: Allocator + Copy>(heap: A) -> Result<bool, AllocError> {
    let mut decoder = Decoder::new(heap);
    let fed = decoder.feed(b"*1027\r\n$65536\r\n");
    let next = decoder.next();
    let waits = matches!(&next, Ok(None));
    drop(next);
    let keeps_all = decoder.rest_len() == 15 && decoder.taken() == 0;
    drop(decoder);
    fed?;
    Ok(waits && keeps_all)
}

/// Feeds a piece so many times, and takes a request each time: whether each was given.
fn are_given<A: Allocator + Copy>(
    decoder: &mut Decoder<A>,
    piece: &[u8],
    times: u64,
) -> Result<bool, Fail>
    requires { length piece.now ≤ 100 }
{
    for _ in 0..times {
        if decoder.taken() > 1 << 20 || decoder.rest_len() > LITTLE {
            return Ok(false);
        }
        decoder.feed(piece)?;
        let next = decoder.next();
        let is_given = matches!(&next, Ok(Some(_)));
        drop(next);
        if !is_given {
            return Ok(false);
        }
    }
    Ok(true)
}

/// Whether a decoder gives a request behind each of ten thousand pieces, which follow a first one.
fn gives_all<A: Allocator + Copy>(heap: A, first: &[u8], piece: &[u8]) -> Result<bool, Fail>
    requires { (length first.now ≤ 100) × (length piece.now ≤ 100) }
{
    let mut decoder = Decoder::new(heap);
    let fed = decoder.feed(first);
    let are_given = are_given(&mut decoder, piece, 10_000);
    let taken = decoder.taken();
    drop(decoder);
    let are_given = are_given?;
    fed?;
    Ok(are_given && taken == 140_000)
}

/// Whether it does with a little heap. These are many times as many bytes as the heap has.
fn keeps_little(alloc: Global, first: &[u8], piece: &[u8]) -> Result<bool, Fail>
    requires { (length first.now ≤ 100) × (length piece.now ≤ 100) }
{
    let heap = LocalHeap::new(alloc, LITTLE)?;
    gives_all(&heap, first, piece)
}

// Where each piece is a request, and where each has the rest of one and the beginning of the next.
#[test]
fn a_decoder_keeps_nothing_that_it_gave(rt: HostRuntime) -> Result<(), Fail> {
    let alloc = rt.alloc();
    assert!(rt; keeps_little(alloc, b"", b"*1\r\n$4\r\nPING\r\n")?);
    assert!(rt; keeps_little(alloc, b"*1\r\n$4\r\n", b"PING\r\n*1\r\n$4\r\n")?);
    Ok(())
}

/// A word of so many bytes.
fn word(alloc: Global, length: usize) -> Result<Bytes<Global>, AllocError> {
    Ok(Bytes::new(vec![in alloc; b'x'; length]?))
}

/// Whether there is a request of `count` words of `length` bytes each.
fn is_request(alloc: Global, count: usize, length: usize) -> Result<bool, AllocError> {
    let mut list = Vec::new(alloc);
    for _ in 0..count {
        list.push(word(alloc, length)?)?;
    }
    Ok(Request::new(BytesList::new(list)).is_some())
}

/// How many words of how many bytes, and whether there is such a request.
static SIZES: [(usize, usize, bool); 5] = [
    (0, 1, false),
    (1027, 1, true),
    (1028, 1, false),
    (1, 65_536, true),
    (1, 65_537, false),
];

#[test]
fn requests_keep_their_limits(rt: HostRuntime) -> Result<(), Fail> {
    for (count, length, wanted) in &SIZES {
        let found = is_request(rt.alloc(), *count, *length)?;
        assert!(rt; found == *wanted, "{count} words of {length} bytes");
    }
    Ok(())
}

#[test]
fn reads_have_their_sizes(rt: HostRuntime) {
    assert!(rt; READ_BUFFER == 16_384 && MAX_READ_BUFFER == 65_536);
    assert!(rt; MAX_READS == 1_099_511_627_776);
}

/// What a decoder gave: the words of its requests, a blank behind each, and the fault that it told; and whether it
/// was fed or asked again, where there was no memory.
#[derive(Drop)]
struct Given {
    words: Vec<u8>,
    fault: Option<WireFault>,
    was_fed_again: bool,
    was_asked_again: bool,
}

/// Notes the words of a request.
fn note<A: Allocator>(request: &Request<A>, words: &mut Vec<u8>) -> Result<(), AllocError> {
    for word in request.words() {
        words.extend_from_slice(word.as_slice())?;
        words.push(b' ')?;
    }
    Ok(())
}

/// Feeds a byte, and once more where there was no memory for it.
fn feed<A: Allocator + Copy>(
    decoder: &mut Decoder<A>,
    byte: u8,
    given: &mut Given,
) -> Result<(), Fail> {
    if decoder.taken() > 1000 || decoder.rest_len() > 1000 {
        return Err(Fail::new("a long text"));
    }
    if decoder.feed(&[byte]).is_err() {
        given.was_fed_again = true;
        decoder.feed(&[byte])?;
    }
    Ok(())
}

/// The next request, which is asked for once more where there was no memory for it.
fn next_of<A: Allocator + Copy>(
    decoder: &mut Decoder<A>,
    given: &mut Given,
) -> Result<Option<Request<A>>, WireFault> {
    match decoder.next() {
        Err(WireFault::NoMemory) => {
            given.was_asked_again = true;
            decoder.next()
        }
        next => next,
    }
}

/// Takes the next request, and notes it.
fn take_next<A: Allocator + Copy>(
    decoder: &mut Decoder<A>,
    given: &mut Given,
) -> Result<(), AllocError> {
    match next_of(decoder, given) {
        Ok(None) => Ok(()),
        Ok(Some(request)) => {
            let noted = note(&request, &mut given.words);
            drop(request);
            noted
        }
        Err(fault) => {
            given.fault = Some(fault);
            Ok(())
        }
    }
}

/// Feeds a text byte by byte, and asks for a request behind each.
fn feed_all<A: Allocator + Copy>(
    decoder: &mut Decoder<A>,
    text: &[u8],
    given: &mut Given,
) -> Result<(), Fail> {
    for byte in text {
        feed(decoder, *byte, given)?;
        take_next(decoder, given)?;
    }
    Ok(())
}

/// What a decoder of its own gives.
fn decode<A: Allocator + Copy>(alloc: Global, heap: A, text: &[u8]) -> Result<Given, Fail> {
    let mut decoder = Decoder::new(heap);
    let mut given = Given {
        words: Vec::new(alloc),
        fault: None,
        was_fed_again: false,
        was_asked_again: false,
    };
    let fed = feed_all(&mut decoder, text, &mut given);
    drop(decoder);
    match fed {
        Ok(()) => Ok(given),
        Err(fail) => {
            drop(given);
            Err(fail)
        }
    }
}

/// Requests with what is skipped between them, and a byte that begins none.
const TEXT: &[u8] =
    b"*2\r\n$4\r\nPING\r\n$24\r\na-text-that-takes-memory\r\n*0\r\n*2\r\n$4\r\nPING\r\n$24\r\na-text-that-takes-memory\r\nP";

/// Its words. A text of this length stands in memory of its own, and a name in its place.
const WORDS: &[u8] = b"PING a-text-that-takes-memory PING a-text-that-takes-memory ";

/// Whether a decoder gave what stands there.
fn is_whole(given: &Given) -> bool {
    given.words.as_slice() == WORDS
        && given.fault == Some(WireFault::Protocol(ProtocolFault::NotAnArray))
}

/// A decoder one of whose allocations is refused: whether there were fewer, and whether a byte was fed again and a
/// request asked for again.
fn refuse(alloc: Global, allocation: u64) -> Result<(bool, bool, bool), Fail> {
    let fuse = Fuse::new(alloc, allocation);
    let given = decode(alloc, &fuse, TEXT)?;
    if !is_whole(&given) {
        return Err(Fail::new("not what stands there"));
    }
    Ok((fuse.is_armed(), given.was_fed_again, given.was_asked_again))
}

/// Refuses each allocation of a decoder, until it has no more: how many runs had a byte that was fed again, and how
/// many a request that was asked for again. Each gives all that stands there.
fn refused(alloc: Global) -> Result<(u64, u64), Fail> {
    let (mut fed, mut asked) = (0u64, 0u64);
    for allocation in 1..1000u64 {
        let (has_fewer, was_fed_again, was_asked_again) = refuse(alloc, allocation)?;
        if has_fewer {
            return Ok((fed, asked));
        }
        fed = fed.saturating_add(u64::from(was_fed_again));
        asked = asked.saturating_add(u64::from(was_asked_again));
    }
    Err(Fail::new("no end"))
}

/// The least number of runs in which a byte was fed again, and in which a request was asked for again.
const LEAST: (u64, u64) = (1, 4);

#[test]
fn a_decoder_without_memory_is_asked_again(rt: HostRuntime) -> Result<(), Fail> {
    let (fed, asked) = refused(rt.alloc())?;
    assert!(rt;
        fed >= LEAST.0 && asked >= LEAST.1,
        "{fed} fed, {asked} asked"
    );
    Ok(())
}
