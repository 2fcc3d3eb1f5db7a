//! Known files, read from sources.
use crate::asserts::{equal, holds_at};
use crate::cut::{ends, has_next};
use crate::fed::told_by;
use crate::sources::OneByOne;
use crate::written::{both_orders, described, header};
use fit_decode::{
    CutSource, Decoder, Event, Fault, ReadSource, Reading, Source, read_chain, read_one,
};
use fit_encode::{CutSink, WriteSink, write_chain, write_one};
use fit_frame::{HeaderSum, Reason};
use fit_record::{FitFile, Record};
use std::alloc::Global;
use std::io::Read;
use std::process::Abort;
use test_known::{
    BOTH_ORDERS, DEVELOPER_FIELD, EMPTY, End, Known, LONG, ONE_BYTE_MESSAGE, SHORT, TRUE_ZERO,
    files,
};

/// Whether these are the bytes of the file.
pub fn has_bytes(alloc: Global, file: &FitFile, bytes: &[u8]) -> bool {
    let mut sink = CutSink::<128>::new(128);
    write_one(alloc, &mut sink, file).is_ok() && sink.bytes() == bytes
}

/// Whether a source gives the file with these bytes.
fn gives<S: Source>(alloc: Global, source: &mut S, bytes: &[u8]) -> bool {
    match read_one(alloc, source) {
        Ok(file) => has_bytes(alloc, &file, bytes),
        Err(_) => false,
    }
}

/// Whether a file with these bytes is read, with that many records, and none of its bytes are left.
fn is_read(rt: &impl Abort, alloc: Global, bytes: &[u8], records: usize) -> bool {
    let mut source = bytes;
    let file = read_one(alloc, &mut source).expect(rt, "a file");
    let whole = file.records.len() == records && source.is_empty();
    whole && has_bytes(alloc, &file, bytes)
}

#[test]
fn files_are_read(rt: HostRuntime) {
    for (bytes, records) in [
        (EMPTY.as_slice(), 0),
        (SHORT.as_slice(), 0),
        (LONG.as_slice(), 0),
        (TRUE_ZERO.as_slice(), 0),
        (ONE_BYTE_MESSAGE.as_slice(), 2),
        (BOTH_ORDERS.as_slice(), 4),
        (DEVELOPER_FIELD.as_slice(), 7),
    ] {
        holds_at(&rt, is_read(&rt, rt.alloc(), bytes, records), &records);
    }
}

#[test]
fn files_are_read_in_pieces(rt: HostRuntime) {
    for bytes in [
        ONE_BYTE_MESSAGE.as_slice(),
        BOTH_ORDERS.as_slice(),
        DEVELOPER_FIELD.as_slice(),
    ] {
        assert!(rt; gives(rt.alloc(), &mut OneByOne::new(bytes), bytes));
        for k in 0..bytes.len() {
            let (first, second) = bytes.split_at(k);
            let mut source = ReadSource::new(first.chain(second));
            holds_at(&rt, gives(rt.alloc(), &mut source, bytes), &k);
        }
    }
}

/// What is known of a file: where its events end, how many bytes of data its header announces, and its records.
#[derive(Clone, Copy)]
pub struct Told<'a> {
    pub ends: &'a [End],
    pub size: u32,
    pub records: &'a [Record],
}

/// Whether an event is the one of this number in a file, and ends at this place: the header, each record, and the end of the file.
fn is_event(event: &Event, file: &Told, number: usize, place: usize) -> bool {
    let Some(end) = file.ends.get(number) else {
        return false;
    };
    let is_next = match event {
        Event::More => false,
        Event::Header(found, size) => {
            number == 0 && *size == file.size && *found == header(14, 0, HeaderSum::True)
        }
        Event::Item(found) => match number.checked_sub(1) {
            None => false,
            Some(index) => file.records.get(index) == Some(found),
        },
        Event::FileEnd => number == file.records.len().saturating_add(1),
    };
    is_next && end.0 == place
}

/// Feeds some bytes of a file, of which that many events and bytes came before: how many of them are used, and whether there was an event.
/// It is the one of this number.
fn tell_next(
    rt: &impl Abort,
    decoder: &mut Decoder,
    file: &Told,
    bytes: &[u8],
    number: usize,
    before: usize,
) -> (usize, bool) {
    let fed = decoder.feed(bytes).expect(rt, "no fault");
    let place = before.saturating_add(fed.used);
    let is_told = !matches!(fed.event, Event::More);
    let is_next = is_event(&fed.event, file, number, place);
    holds_at(rt, is_next || !is_told, &place);
    (fed.used, is_told)
}

/// Feeds a piece of a file, of which that many bytes and events came before. Returns how many events have come then.
fn tell_piece(
    rt: &impl Abort,
    decoder: &mut Decoder,
    file: &Told,
    piece: &[u8],
    before: usize,
    events: usize,
) -> usize {
    let mut rest = piece;
    let mut place = before;
    let mut number = events;
    for _ in 0..=piece.len() {
        let (used, is_told) = tell_next(rt, decoder, file, rest, number, place);
        rest = rest.get(used..).unwrap_or_default();
        place = place.saturating_add(used);
        if !is_told {
            break;
        }
        number = number.saturating_add(1);
    }
    assert!(rt; rest.is_empty());
    number
}

/// Feeds a file in some pieces.
fn tell(rt: &impl Abort, alloc: Global, file: &Told, pieces: &[&[u8]]) {
    let mut decoder = Decoder::new(alloc);
    let mut place = 0usize;
    let mut events = 0;
    for piece in pieces {
        events = tell_piece(rt, &mut decoder, file, piece, place, events);
        place = place.saturating_add(piece.len());
    }
    equal(rt, &events, &file.ends.len());
    equal(rt, &decoder.finish(), &Ok(()));
}

/// Feeds the bytes of a file in one piece, in two, and byte by byte.
pub fn tell_cut(rt: &impl Abort, alloc: Global, file: &Told, bytes: &[u8]) {
    for k in 0..bytes.len() {
        let (first, second) = bytes.split_at(k);
        tell(rt, alloc, file, &[first, second]);
    }
    let mut single = Vec::new(alloc);
    for byte in bytes.chunks(1) {
        single.push(byte).expect(rt, "memory");
    }
    tell(rt, alloc, file, single.as_slice());
}

/// Feeds the known file of this name.
fn tell_known(rt: &impl Abort, alloc: Global, name: &str, size: u32, records: &[Record]) {
    let mut found = false;
    for known in files() {
        if known.name == name {
            let file = Told {
                ends: known.ends,
                size,
                records,
            };
            tell_cut(rt, alloc, &file, known.bytes);
            found = true;
        }
    }
    assert!(rt; found);
}

/// The events of two files are the same however they are cut.
#[test]
fn events_end_anywhere(rt: HostRuntime) {
    let alloc = rt.alloc();
    let orders = both_orders(&rt, alloc, 120);
    tell_known(&rt, alloc, "orders", 36, orders.as_slice());
    let developer = described(&rt, alloc);
    tell_known(&rt, alloc, "developer", 54, developer.as_slice());
}

#[test]
fn a_refused_byte_before_a_failure(rt: HostRuntime) {
    let refused = Fault::Refused {
        place: 0,
        reason: Reason::HeaderSize,
    };
    equal(
        &rt,
        &read_one(rt.alloc(), &mut CutSource::new(b"\x0D", 1)).err(),
        &Some(refused),
    );
}

#[test]
fn bytes_after_a_file(rt: HostRuntime) {
    let bytes = *b"\x0E\x20\0\0\0\0\0\0.FIT\x9C\x85\0\0\xFF";
    let mut source = bytes.as_slice();
    assert!(rt; gives(rt.alloc(), &mut source, &EMPTY));
    equal(&rt, &source, &b"\xFF".as_slice());
    let fault = read_chain(rt.alloc(), &mut bytes.as_slice()).err();
    equal(&rt, &fault, &Some(Fault::Truncated { place: 17 }));
}

#[test]
fn a_bad_second_file(rt: HostRuntime) {
    let alloc = rt.alloc();
    let bytes =
        *b"\x0E\x20\0\0\x07\0\0\0.FIT\xDD\x63\x40\0\0\x14\0\0\0\x44\x34\x0E\x20\0\0\x07\0\0\0.FIT\xDD\x63\0";
    let refused = Some(Fault::Refused {
        place: 37,
        reason: Reason::UndefinedLocal,
    });
    equal(
        &rt,
        &read_chain(alloc, &mut bytes.as_slice()).err(),
        &refused,
    );
    let mut reading = Reading::new(alloc, bytes.as_slice());
    assert!(rt; has_next(alloc, &mut reading, &ONE_BYTE_MESSAGE));
    assert!(rt; ends(&mut reading, refused));
    assert!(rt; ends(&mut reading, refused));
}

/// How many files a chain of two known files has.
fn files_of_both(rt: &impl Abort, alloc: Global) -> usize {
    let chain = BOTH_ORDERS.as_slice().chain(DEVELOPER_FIELD.as_slice());
    let files = read_chain(alloc, &mut ReadSource::new(chain)).expect(rt, "a chain");
    files.len()
}

#[test]
fn a_chain(rt: HostRuntime) {
    let alloc = rt.alloc();
    equal(&rt, &files_of_both(&rt, alloc), &2);
    let chain = BOTH_ORDERS.as_slice().chain(DEVELOPER_FIELD.as_slice());
    let mut reading = Reading::new(alloc, ReadSource::new(chain));
    assert!(rt; has_next(alloc, &mut reading, &BOTH_ORDERS));
    assert!(rt; has_next(alloc, &mut reading, &DEVELOPER_FIELD));
    assert!(rt; ends(&mut reading, None));
    assert!(rt; ends(&mut reading, None));
}

/// 65,536 files of 14 bytes are fed.
#[test]
fn a_long_chain(rt: HostRuntime) {
    let mut decoder = Decoder::new(rt.alloc());
    for _ in 0..65_536 {
        told_by(&rt, &mut decoder, &SHORT[..12]);
        told_by(&rt, &mut decoder, &SHORT[12..]);
    }
    equal(&rt, &decoder.need(), &14);
    equal(&rt, &decoder.finish(), &Ok(()));
}

/// Whether the files that these bytes have are that many, and are written as these bytes.
fn is_written_again(rt: &impl Abort, alloc: Global, bytes: &[u8], count: usize) -> bool {
    let files = read_chain(alloc, &mut &bytes[..]).expect(rt, "a chain");
    let mut sink = WriteSink::new(Vec::new(alloc));
    let answer = write_chain(alloc, &mut sink, files.as_slice());
    answer.is_ok() && files.len() == count && sink.into_inner().as_slice() == bytes
}

/// The same files, read and written again.
#[test]
fn a_long_chain_again(rt: HostRuntime) {
    let mut bytes = Vec::new(rt.alloc());
    for _ in 0..65_536 {
        bytes.extend_from_slice(&SHORT).expect(&rt, "memory");
    }
    equal(&rt, &bytes.len(), &917_504);
    assert!(rt; is_written_again(&rt, rt.alloc(), bytes.as_slice(), 65_536));
}

#[test]
fn need_of_a_long_header(rt: HostRuntime) {
    let mut decoder = Decoder::new(rt.alloc());
    told_by(&rt, &mut decoder, &LONG[..1]);
    equal(&rt, &decoder.need(), &17);
}
