//! Short data messages that pieces cut, of which the bytes are kept as they came.
use crate::asserts::{equal, equal_at};
use crate::fed::{feed, header, told_by};
use crate::starved::{fill, is_full};
use fit_decode::{Decoder, Fault};
use linked_list_allocator::LocalHeap;
use std::alloc::{Allocator, Global};
use std::process::Abort;

/// A definition message of a field without bytes, one of two bytes, and one of a byte.
const DEFINITION: [u8; 15] = *b"\x40\0\0\x14\0\x03\x01\0\x02\x02\x02\x84\x03\x01\x02";

/// A data message of it.
const MESSAGE: [u8; 4] = *b"\0\x07\x08\x09";

/// A decoder to which the definition came, where there are a thousand bytes more to come.
fn begin<A: Allocator + Copy>(rt: &impl Abort, decoder: &mut Decoder<A>) {
    assert!(rt; feed(decoder, &header(1015)).is_ok());
    equal(rt, &decoder.skip_records(&DEFINITION), &(15, 1));
    equal(rt, &decoder.held(), &3);
}

/// How much is held after that many bytes of the message: the definition's fields, those of the message, and the numbers that are whole.
fn held_after(count: usize) -> u64 {
    match count {
        0 | 4 => 3,
        1 | 2 => 6,
        _ => 7,
    }
}

/// Passed over byte by byte, and no less is held than where the same bytes are fed.
#[test]
fn skipped_byte_by_byte(rt: HostRuntime) {
    let mut skipping = Decoder::new(rt.alloc());
    let mut feeding = Decoder::new(rt.alloc());
    begin(&rt, &mut skipping);
    begin(&rt, &mut feeding);
    for _ in 0..100 {
        for (place, byte) in MESSAGE.iter().enumerate() {
            let whole = u64::from(place == 3);
            equal_at(&rt, &skipping.skip_records(&[*byte]), &(1, whole), &place);
            equal(&rt, &told_by(&rt, &mut feeding, &[*byte]).0, &1);
            equal_at(&rt, &skipping.held(), &held_after(place + 1), &place);
            equal_at(&rt, &feeding.held(), &held_after(place + 1), &place);
            equal(&rt, &skipping.need(), &feeding.need());
        }
    }
}

/// After any of the bytes `feed` goes on with the message.
#[test]
fn skipped_and_fed(rt: HostRuntime) {
    let mut decoder = Decoder::new(rt.alloc());
    begin(&rt, &mut decoder);
    for kept in 0..4 {
        let (front, back) = MESSAGE.split_at(kept);
        equal(&rt, &decoder.skip_records(front), &(kept, 0));
        let (used, (letter, _)) = told_by(&rt, &mut decoder, back);
        equal_at(&rt, &(used, letter), &(back.len(), b'v'), &kept);
        equal(&rt, &decoder.held(), &3);
    }
}

/// Keeps bytes of a message while no memory is free, and wants some where it is fed.
fn keep_without<A: Allocator + Copy>(
    rt: &impl Abort,
    alloc: Global,
    heap: A,
    decoder: &mut Decoder<A>,
) {
    let _blocks = fill(rt, alloc, heap);
    assert!(rt; is_full(heap));
    for _ in 0..100 {
        equal(rt, &decoder.skip_records(&MESSAGE[..2]), &(2, 0));
        equal(rt, &decoder.skip_records(&MESSAGE[2..]), &(2, 1));
    }
    equal(rt, &decoder.skip_records(&MESSAGE[..3]), &(3, 0));
    equal(
        rt,
        &feed(decoder, &MESSAGE[3..]),
        &Err(Fault::NoMemory { used: 0 }),
    );
}

/// It takes no memory, and where `feed` has none, the byte can come again.
#[test]
fn kept_without_memory(rt: HostRuntime) {
    let heap = LocalHeap::new(rt.alloc(), 8192).expect(&rt, "memory");
    let mut decoder = Decoder::new(&heap);
    begin(&rt, &mut decoder);
    keep_without(&rt, rt.alloc(), &heap, &mut decoder);
    let (used, (letter, _)) = told_by(&rt, &mut decoder, &MESSAGE[3..]);
    equal(&rt, &(used, letter), &(1, b'v'));
}
