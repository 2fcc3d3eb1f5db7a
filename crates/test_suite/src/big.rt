//! The longest message: 255 fields and 255 developer fields of 255 bytes each.

use crate::asserts::equal;
use crate::descriptions::take;
use crate::fed::told_by;
use fit_base::Items;
use fit_base::base_type::BYTE;
use fit_decode::{Decoder, Reading, Source, read_chain, read_one};
use fit_encode::{Encoder, WriteSink, write_chain, write_one};
use fit_record::{Env, FitFile, MessageDef, Record, Values};
use std::alloc::Global;
use std::process::Abort;
use test_known::{LONGEST, longest};

/// Whether these are 255 fields of 255 bytes each.
fn are_full(fields: &[Items]) -> bool {
    for items in fields {
        if (items.width, items.bits.len()) != (1, 255) {
            return false;
        }
    }
    fields.len() == 255
}

/// The last item of 255 fields of 255 bytes each.
fn last_item(fields: &[Items]) -> Option<u64> {
    fields.get(254)?.bits.as_slice().get(254).copied()
}

/// Whether a definition has 255 fields and 255 developer fields.
fn defines_longest(definition: &MessageDef) -> bool {
    match &definition.dev {
        Some(dev) => (definition.fields.len(), dev.len()) == (255, 255),
        None => false,
    }
}

/// Whether all fields of a message are full, and the last item is that at the last place.
fn is_longest(values: &Values) -> bool {
    are_full(values.fields.as_slice())
        && are_full(values.dev.as_slice())
        && last_item(values.dev.as_slice()) == Some(130_049 % 251)
}

/// Whether a file has these two records.
fn has_longest(file: &FitFile) -> bool {
    match file.records.as_slice() {
        [Record::Define(definition), Record::Values(values)] => {
            defines_longest(definition) && is_longest(values)
        }
        _ => false,
    }
}

/// The longest message in a file, and its bytes.
fn read_longest(rt: &impl Abort, alloc: Global) -> (Vec<u8>, FitFile) {
    let bytes = longest(alloc).expect(rt, "memory");
    let file = read_one(alloc, &mut bytes.as_slice()).expect(rt, "a file");
    (bytes, file)
}

#[test]
fn read_alone(rt: HostRuntime) {
    let (bytes, file) = read_longest(&rt, rt.alloc());
    equal(&rt, &bytes.len(), &131_604);
    assert!(rt; has_longest(&file));
}

/// Whether this is the next file of a reading.
fn gives_next<S: Source + Drop>(reading: &mut Reading<S>, file: &FitFile) -> bool {
    match reading.next() {
        Ok(Some(next)) => next == *file,
        _ => false,
    }
}

#[test]
fn read_next(rt: HostRuntime) {
    let (bytes, file) = read_longest(&rt, rt.alloc());
    let mut reading = Reading::new(rt.alloc(), bytes.as_slice());
    assert!(rt; gives_next(&mut reading, &file));
}

#[test]
fn read_as_a_chain(rt: HostRuntime) {
    let (bytes, file) = read_longest(&rt, rt.alloc());
    let files = read_chain(rt.alloc(), &mut bytes.as_slice()).expect(&rt, "a chain");
    assert!(rt; files.as_slice() == std::slice::from_ref(&file));
}

#[test]
fn written_alone(rt: HostRuntime) {
    let alloc = rt.alloc();
    let (bytes, file) = read_longest(&rt, alloc);
    let mut sink = WriteSink::new(Vec::new(alloc));
    equal(&rt, &write_one(alloc, &mut sink, &file), &Ok(()));
    assert!(rt; sink.into_inner() == bytes);
}

#[test]
fn written_as_a_chain(rt: HostRuntime) {
    let alloc = rt.alloc();
    let (bytes, file) = read_longest(&rt, alloc);
    let mut sink = WriteSink::new(Vec::new(alloc));
    let answer = write_chain(alloc, &mut sink, std::slice::from_ref(&file));
    equal(&rt, &answer, &Ok(()));
    assert!(rt; sink.into_inner() == bytes);
}

/// Writes a file of the longest message record by record.
fn encode(rt: &impl Abort, alloc: Global, sink: &mut WriteSink<Vec<u8>>, file: &FitFile) {
    let mut encoder = Encoder::begin(alloc, sink, &file.header, LONGEST).expect(rt, "an encoder");
    for record_ in file.records.as_slice() {
        equal(rt, &encoder.put(sink, record_), &Ok(()));
    }
    equal(rt, &encoder.finish(sink), &Ok(()));
}

#[test]
fn encoded(rt: HostRuntime) {
    let alloc = rt.alloc();
    let (bytes, file) = read_longest(&rt, alloc);
    let mut sink = WriteSink::new(Vec::new(alloc));
    encode(&rt, alloc, &mut sink, &file);
    assert!(rt; sink.into_inner() == bytes);
}

#[test]
fn learned(rt: HostRuntime) {
    let (_, file) = read_longest(&rt, rt.alloc());
    let mut env = Env::new(rt.alloc());
    for record_ in file.records.as_slice() {
        take(&rt, &mut env, record_);
    }
    equal(
        &rt,
        &(env.length(0), env.dev_code(0, 254)),
        &(Some(130_050), Some(BYTE)),
    );
}

/// Feeds the file byte by byte. Of the definition its 510 entries are held, and with the last byte but one of the message these, its 510
/// fields and its items.
fn feed_longest(rt: &impl Abort, decoder: &mut Decoder, bytes: &[u8]) {
    let mut items = 0u32;
    for (place, byte) in bytes.iter().enumerate() {
        let (_, (letter, _)) = told_by(rt, decoder, &[*byte]);
        if letter == b'd' || letter == b'v' {
            items = items.saturating_add(1);
            equal(rt, &decoder.held(), &510);
        }
        if place == 131_600 {
            equal(rt, &decoder.held(), &(510 + 510 + 130_049));
        }
    }
    equal(rt, &items, &2);
    equal(rt, &decoder.finish(), &Ok(()));
}

#[test]
fn byte_by_byte(rt: HostRuntime) {
    let bytes = longest(rt.alloc()).expect(&rt, "memory");
    let mut decoder = Decoder::new(rt.alloc());
    feed_longest(&rt, &mut decoder, bytes.as_slice());
}
