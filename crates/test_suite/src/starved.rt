//! A decoder whose memory is refused.

use crate::asserts::{equal, equal_at, holds_at};
use crate::fed::{feed, header, same, told, told_at};
use fit_decode::{Decoder, Fault, Fed};
use linked_list_allocator::LocalHeap;
use std::alloc::{AllocError, Allocator, Global};
use std::process::Abort;
use test_known::BOTH_ORDERS;

/// Takes all memory that is free, in blocks.
pub fn fill<A: Allocator + Copy>(rt: &impl Abort, alloc: Global, heap: A) -> Vec<Vec<u8, A>> {
    let mut blocks = Vec::new(alloc);
    for size in [4096, 1024, 256, 64, 16, 1] {
        for _ in 0..64 {
            match Vec::with_capacity(heap, size) {
                Ok(block) => blocks.push(block).expect(rt, "memory"),
                Err(_) => break,
            }
        }
    }
    blocks
}

/// Feeds a byte while no memory is free.
fn feed_without<A: Allocator + Copy>(
    rt: &impl Abort,
    alloc: Global,
    heap: A,
    decoder: &mut Decoder<A>,
    byte: u8,
) -> Result<Fed<A>, Fault> {
    let _blocks = fill(rt, alloc, heap);
    decoder.feed(&[byte])
}

/// What a decoder told of a byte.
fn told_of<A: Allocator>(answer: Result<Fed<A>, Fault>) -> Result<(u8, u64), Fault> {
    match answer {
        Ok(fed) => Ok(told(&fed.event)),
        Err(fault) => Err(fault),
    }
}

/// Feeds a byte while no memory is free, and again with memory where it was wanted. Whether it was.
fn feed_starved<A: Allocator + Copy>(
    rt: &impl Abort,
    alloc: Global,
    heap: A,
    decoder: &mut Decoder<A>,
    place: usize,
    byte: u8,
) -> bool {
    let first = told_of(feed_without(rt, alloc, heap, decoder, byte));
    if first == Err(Fault::NoMemory { used: 0 }) {
        let again = told_of(decoder.feed(&[byte]));
        equal_at(rt, &again, &Ok(told_at(place)), &place);
        return true;
    }
    equal_at(rt, &first, &Ok(told_at(place)), &place);
    false
}

/// Only bytes of records want memory, and those of the last record still do.
fn starve<A: Allocator + Copy>(rt: &impl Abort, alloc: Global, heap: A, decoder: &mut Decoder<A>) {
    let mut wanted = 0;
    for (place, byte) in BOTH_ORDERS.iter().enumerate() {
        if feed_starved(rt, alloc, heap, decoder, place, *byte) {
            holds_at(rt, 14 <= place && place < 50, &place);
            wanted = place;
        }
    }
    holds_at(rt, wanted >= 44, &wanted);
    equal(rt, &decoder.finish(), &Ok(()));
}

#[test]
fn each_byte_again(rt: HostRuntime) {
    let heap = LocalHeap::new(rt.alloc(), 8192).expect(&rt, "memory");
    let mut decoder = Decoder::new(&heap);
    starve(&rt, rt.alloc(), &heap, &mut decoder);
}

/// Whether two decoders told the same of a byte.
fn is_alike<A: Allocator>(one: &Result<Fed<A>, Fault>, other: &Result<Fed<A>, Fault>) -> bool {
    match (one, other) {
        (Ok(fed), Ok(told)) => same(&fed.event, &told.event),
        _ => false,
    }
}

/// Feeds a byte to two decoders, to the first while no memory is free where that is wanted, and again where it was refused. Whether they
/// told the same, and whether memory was refused.
fn feed_both<A: Allocator + Copy>(
    rt: &impl Abort,
    alloc: Global,
    heap: A,
    decoder: &mut Decoder<A>,
    ample: &mut Decoder<A>,
    byte: u8,
    starved: bool,
) -> (bool, bool) {
    let answer = if starved {
        feed_without(rt, alloc, heap, decoder, byte)
    } else {
        decoder.feed(&[byte])
    };
    let told = ample.feed(&[byte]);
    match answer {
        Ok(_) => (is_alike(&answer, &told), false),
        Err(fault) => {
            let refused = starved && fault == Fault::NoMemory { used: 0 };
            (refused && is_alike(&decoder.feed(&[byte]), &told), true)
        }
    }
}

/// Feeds a file to two new decoders, to one of them a byte while no memory is free. Where that wanted memory it is fed again, and the
/// events are the same. Whether it did.
fn starve_at<A: Allocator + Copy>(
    rt: &impl Abort,
    alloc: Global,
    heap: A,
    decoder: &mut Decoder<A>,
    ample: &mut Decoder<A>,
    place: usize,
) -> bool {
    let mut wanted = false;
    for (at, byte) in BOTH_ORDERS.iter().enumerate() {
        let (alike, refused) = feed_both(rt, alloc, heap, decoder, ample, *byte, at == place);
        holds_at(rt, alike, &(place, at));
        wanted = wanted || refused;
    }
    equal(rt, &decoder.finish(), &Ok(()));
    wanted
}

/// Bytes of both definitions, at 14 to 25 and 32 to 43, want memory, and so does a byte of each data message.
#[test]
fn one_byte_again(rt: HostRuntime) {
    let heap = LocalHeap::new(rt.alloc(), 16384).expect(&rt, "memory");
    let mut wanted = [0u32; 4];
    for place in 0..BOTH_ORDERS.len() {
        let mut decoder = Decoder::new(&heap);
        let mut ample = Decoder::new(&heap);
        if starve_at(&rt, rt.alloc(), &heap, &mut decoder, &mut ample, place) {
            let part = match place {
                14..=25 => 0,
                26..=31 => 1,
                32..=43 => 2,
                44..=49 => 3,
                _ => continue,
            };
            wanted[part] = wanted[part].saturating_add(1);
        }
    }
    for count in wanted {
        holds_at(&rt, count > 0, &wanted);
    }
}

/// How many data messages the bytes end.
fn messages<A: Allocator + Copy>(decoder: &mut Decoder<A>, bytes: &[u8]) -> u32 {
    let mut count: u32 = 0;
    let mut rest = bytes;
    for _ in 0..bytes.len() {
        let Ok((used, event)) = feed(decoder, rest) else {
            return count;
        };
        if event == (b'v', 0) {
            count = count.saturating_add(1);
        }
        rest = rest.get(used..).unwrap_or_default();
    }
    count
}

/// Whether not even a block of one byte can be had.
pub fn is_full<A: Allocator + Copy>(heap: A) -> bool {
    let free: Result<Vec<u8, A>, AllocError> = Vec::with_capacity(heap, 1);
    free.is_err()
}

/// The data messages of a definition without fields take no memory, however many they are.
fn empty_messages<A: Allocator + Copy>(
    rt: &impl Abort,
    alloc: Global,
    heap: A,
    decoder: &mut Decoder<A>,
) {
    equal(rt, &messages(decoder, &header(100_006)), &0);
    equal(rt, &messages(decoder, b"\x40\0\0\x14\0\0"), &0);
    let _blocks = fill(rt, alloc, heap);
    assert!(rt; is_full(heap));
    for thousand in 0..100 {
        equal_at(rt, &messages(decoder, &[0; 1000]), &1000, &thousand);
    }
    equal(rt, &feed(decoder, b"\x1F\x0E"), &Ok((2, (b'e', 0))));
}

#[test]
fn no_memory_after_the_definition(rt: HostRuntime) {
    let heap = LocalHeap::new(rt.alloc(), 8192).expect(&rt, "memory");
    let mut decoder = Decoder::new(&heap);
    empty_messages(&rt, rt.alloc(), &heap, &mut decoder);
}
