//! Bytes of files fed to a decoder, and what it returns.

use crate::asserts::{equal, equal_at};
use crate::written;
use crate::written::define;
use fit_base::base_type::BYTE;
use fit_decode::{Decoder, Event, Fault};
use fit_frame::{HeaderSum, Reason};
use fit_record::{FieldDef, Record};
use std::alloc::{Allocator, Global};
use std::process::Abort;
use test_known::BOTH_ORDERS;
use test_known::protocol::{COMPRESSED_SPEED_DISTANCE, RECORD};

/// What an event says in short: a letter, and the size of the data section, the number of fields, or the first item.
pub fn told<A: Allocator>(event: &Event<A>) -> (u8, u64) {
    match event {
        Event::More => (b'.', 0),
        Event::Header(_, size) => (b'h', u64::from(*size)),
        Event::Item(Record::Define(definition)) => (b'd', definition.fields.len() as u64),
        Event::Item(Record::Values(values)) => match values.fields.as_slice() {
            [first, ..] => match first.bits.as_slice() {
                [item, ..] => (b'v', *item),
                [] => (b'v', 0),
            },
            [] => (b'v', 0),
        },
        Event::FileEnd => (b'e', 0),
    }
}

/// Feeds some bytes: how many of them are used, and what the event says.
pub fn feed<A: Allocator + Copy>(
    decoder: &mut Decoder<A>,
    bytes: &[u8],
) -> Result<(usize, (u8, u64)), Fault> {
    let fed = decoder.feed(bytes)?;
    Ok((fed.used, told(&fed.event)))
}

/// Feeds some bytes, none of which is refused: how many of them are used, and what the event says.
pub fn told_by<A: Allocator + Copy>(
    rt: &impl Abort,
    decoder: &mut Decoder<A>,
    bytes: &[u8],
) -> (usize, (u8, u64)) {
    feed(decoder, bytes).expect(rt, "no fault")
}

/// Feeds some bytes one by one.
pub fn feed_each(rt: &impl Abort, decoder: &mut Decoder, bytes: &[u8]) {
    for byte in bytes {
        told_by(rt, decoder, &[*byte]);
    }
}

/// What the event of the byte at a place of `orders` says.
pub fn told_at(place: usize) -> (u8, u64) {
    match place {
        13 => (b'h', 36),
        25 | 43 => (b'd', 2),
        31 => (b'v', 1_000_000_031),
        49 => (b'v', 2500),
        51 => (b'e', 0),
        _ => (b'.', 0),
    }
}

/// How much is held after the byte at a place of that file.
fn held_at(place: usize) -> Option<u64> {
    match place {
        25 | 31 => Some(2),
        43 | 49 => Some(4),
        51 => Some(0),
        _ => None,
    }
}

#[test]
fn byte_by_byte(rt: HostRuntime) {
    let mut decoder = Decoder::new(rt.alloc());
    equal(&rt, &decoder.need(), &14);
    for (place, byte) in BOTH_ORDERS.iter().enumerate() {
        let found = told_by(&rt, &mut decoder, &[*byte]);
        equal_at(&rt, &found, &(1, told_at(place)), &place);
        let held = decoder.held();
        equal_at(&rt, &held_at(place).unwrap_or(held), &held, &place);
        if place == 13 {
            equal(&rt, &decoder.need(), &38);
        }
        if place == 28 {
            assert!(rt; held <= 6);
        }
    }
    equal(&rt, &decoder.finish(), &Ok(()));
}

/// A header that announces that many bytes of data.
pub fn header(size: u32) -> [u8; 14] {
    let [a, b, c, d] = size.to_le_bytes();
    [0x0E, 0x20, 0, 0, a, b, c, d, b'.', b'F', b'I', b'T', 0, 0]
}

/// Feeds all bytes, up to one that is refused: its place, and why.
fn refused(decoder: &mut Decoder, bytes: &[u8]) -> Option<(u64, Reason)> {
    let mut rest = bytes;
    for _ in 0..bytes.len() {
        match feed(decoder, rest) {
            Ok((used, _)) => rest = rest.get(used..).unwrap_or_default(),
            Err(Fault::Refused { place, reason }) => return Some((place, reason)),
            Err(_) => return None,
        }
    }
    None
}

/// What is refused of a header that announces that many bytes of data, these bytes of data, and a last one.
fn refused_last(alloc: Global, size: u32, data: &[u8], last: u8) -> Option<(u64, Reason)> {
    let mut decoder = Decoder::new(alloc);
    refused(&mut decoder, &header(size))
        .or(refused(&mut decoder, data))
        .or(refused(&mut decoder, &[last]))
}

#[test]
fn sizes_of_data(rt: HostRuntime) {
    for (size, answer) in [(0, None), (3, Some((7, Reason::NoFit))), (6, None)] {
        let mut decoder = Decoder::new(rt.alloc());
        equal_at(&rt, &refused(&mut decoder, &header(size)), &answer, &size);
    }
}

#[test]
fn the_last_byte(rt: HostRuntime) {
    let cut = b"\x40\0\0\x14\0".as_slice();
    let one = b"\x40\0\0\x14\0\x01\x05".as_slice();
    let two = b"\x40\0\0\x14\0\x02\x05".as_slice();
    let three = b"\x40\0\0\x14\0\x01\x08\x03\x0D".as_slice();
    let long = b"\x40\0\0\x14\0\x01\x08\x13\x0D".as_slice();
    let dev = b"\x60\0\0\x14\0\x01\x08\x03\x0D".as_slice();
    let small = b"\x60\0\0\x14\0\x01\x05\x01\x0D".as_slice();
    let again = b"\x40\0\0\x14\0\0\x40\0\0\x14\0\x01\x05".as_slice();
    let other = b"\x40\0\0\x14\0\0\x41\0\0\x14\0\x01\x05".as_slice();
    let rows = [
        (10, one, 2, Some((21, Reason::NoFit))),
        (10, one, 0, None),
        (8, cut, 1, Some((19, Reason::Overrun))),
        (13, dev, 0, Some((23, Reason::NoFit))),
        (13, dev, 1, None),
        (13, dev, 2, Some((23, Reason::Overrun))),
        (19, long, 0x00, Some((23, Reason::Overrun))),
        (19, long, 0x01, Some((23, Reason::UndefinedLocal))),
        (19, long, 0x50, Some((23, Reason::ReservedBit))),
        (19, long, 0x20, Some((23, Reason::ReservedBit))),
        (16, three, 0, Some((23, Reason::NoFit))),
        (6, b"\x40\0".as_slice(), 2, Some((16, Reason::Architecture))),
        (13, two, 0, None),
        (13, two, 1, Some((21, Reason::NoFit))),
        (16, again, 0, None),
        (16, again, 1, Some((27, Reason::NoFit))),
        (16, other, 1, None),
        (15, small, 0, Some((23, Reason::NoFit))),
        (15, small, 1, None),
        (15, small, 2, Some((23, Reason::Overrun))),
    ];
    for (size, data, last, answer) in rows {
        let found = refused_last(rt.alloc(), size, data, last);
        equal_at(&rt, &found, &answer, &(size, last));
    }
}

/// Whether two events are the same, value by value.
pub fn same<A: Allocator>(one: &Event<A>, other: &Event<A>) -> bool {
    match (one, other) {
        (Event::More, Event::More) => true,
        (Event::Header(head, size), Event::Header(found, count)) => head == found && size == count,
        (Event::Item(record_), Event::Item(found)) => record_ == found,
        (Event::FileEnd, Event::FileEnd) => true,
        _ => false,
    }
}

/// Whether the next event of a piece is this one, by that many bytes.
fn begins(decoder: &mut Decoder, piece: &[u8], used: usize, event: &Event) -> bool {
    match decoder.feed(piece) {
        Ok(fed) => fed.used == used && same(&fed.event, event),
        Err(_) => false,
    }
}

/// Messages of 20 bytes are defined, and 10 bytes are left, of which the first is this one. In one piece the header and the definition
/// come before the refusal.
fn refuse_message(
    rt: &impl Abort,
    decoder: &mut Decoder,
    defined: &Event,
    first: u8,
    reason: Reason,
) {
    let begun = Event::Header(written::header(14, 0, HeaderSum::Zero), 19);
    let mut piece = *b"\x0E\x20\0\0\x13\0\0\0.FIT\0\0\x40\0\0\x14\0\x01\x08\x13\x0D\0";
    piece[23] = first;
    assert!(rt; begins(decoder, &piece, 14, &begun));
    assert!(rt; begins(decoder, &piece[14..], 9, defined));
    let refused = Fault::Refused { place: 23, reason };
    equal_at(rt, &feed(decoder, &piece[23..]), &Err(refused), &first);
    equal(rt, &decoder.held(), &0);
}

#[test]
fn events_before_a_refusal(rt: HostRuntime) {
    let alloc = rt.alloc();
    let field = FieldDef::new(COMPRESSED_SPEED_DISTANCE, 19, BYTE);
    let defined = Event::Item(Record::Define(define(&rt, alloc, 0, RECORD, &[field])));
    for (first, reason) in [
        (0x00, Reason::Overrun),
        (0x01, Reason::UndefinedLocal),
        (0x50, Reason::ReservedBit),
        (0x20, Reason::ReservedBit),
    ] {
        let mut decoder = Decoder::new(alloc);
        refuse_message(&rt, &mut decoder, &defined, first, reason);
    }
}
