//! Files with two described developer fields and with fields of many kinds, which are known from outside.

use crate::asserts::equal;
use crate::cut::{convert_cut, text_back};
use crate::streams::pushed;
use crate::taken::take_telling;
use fit_base::base_type::{FLOAT32, UINT16};
use fit_decode::read_one;
use fit_profile::{Fixed, Message, Stream};
use fit_record::{FitFile, Record};
use std::alloc::Global;
use std::process::Abort;
use test_known::fields::{kinds, two_fields};

#[test]
fn both_ways_and_as_tables(rt: HostRuntime) {
    for known in [two_fields(), kinds()] {
        convert_cut(&rt, rt.alloc(), &known, known.bytes);
        text_back(&rt, rt.alloc(), &known);
    }
}

/// The file `two_fields`.
fn read(rt: &impl Abort, alloc: Global) -> FitFile {
    let mut source = two_fields().bytes;
    read_one(alloc, &mut source).expect(rt, "a file")
}

/// Asserts the code, the only item, the name and the unit of a developer field.
fn has_dev(
    rt: &impl Abort,
    message: &Message,
    place: u8,
    code: u8,
    item: u64,
    texts: (&str, &str),
) {
    match message.dev(place) {
        Some(field) => {
            equal(rt, &field.code, &code);
            equal(rt, &field.items.bits.as_slice(), &[item].as_slice());
        }
        None => assert!(rt; false),
    }
    equal(rt, &message.dev_name(place), &Some(texts.0));
    equal(rt, &message.dev_unit(place), &Some(texts.1));
}

/// Asserts what the message of the record at a place of `two_fields` says.
fn says(rt: &impl Abort, message: &Message, place: usize) {
    let (left, lean) = (("left", "W"), ("lean", "g"));
    let distance = match place {
        4 => Some(160_000),
        5 => Some(2_560_000),
        _ => None,
    };
    let found = distance.map(|value| Fixed { value, decimals: 4 });
    equal(rt, &message.distance(), &found);
    match place {
        4 => {
            has_dev(rt, message, 0, UINT16, 300, left);
            has_dev(rt, message, 1, FLOAT32, 0x3FC0_0000, lean);
        }
        5 => {
            has_dev(rt, message, 0, UINT16, 65_535, left);
            has_dev(rt, message, 1, FLOAT32, 0xC000_0000, lean);
        }
        7 => {
            has_dev(rt, message, 0, FLOAT32, 0x3F00_0000, lean);
            has_dev(rt, message, 1, UINT16, 301, left);
        }
        _ => assert!(rt; message.dev(0).is_none()),
    }
}

#[test]
fn pushed_one_by_one(rt: HostRuntime) {
    let file = read(&rt, rt.alloc());
    let mut stream = Stream::new(rt.alloc());
    equal(&rt, &file.records.len(), &8);
    for (place, record_) in file.records.as_slice().iter().enumerate() {
        match pushed(&rt, &mut stream, record_) {
            Some(message) => says(&rt, &message, place),
            None => assert!(rt; place == 0 || place == 3 || place == 6),
        }
    }
}

/// Data messages are taken in by their bytes. What was counted goes on.
#[test]
fn taken_one_by_one(rt: HostRuntime) {
    let file = read(&rt, rt.alloc());
    let known = two_fields();
    let mut stream = Stream::new(rt.alloc());
    let mut start = 14;
    for (end, record_) in known.ends.iter().skip(1).zip(file.records.as_slice()) {
        let bytes = known.bytes.get(start..end.0).unwrap_or_default();
        let time = match start {
            76 => Some(1_000_000_031),
            90 => Some(1_000_000_032),
            _ => None,
        };
        match record_ {
            Record::Define(_) => assert!(rt; pushed(&rt, &mut stream, record_).is_none()),
            // The last definition has no field from which a distance is counted.
            Record::Values(_) => take_telling(&rt, &mut stream, bytes, time, start < 117),
        }
        start = end.0;
    }
    equal(&rt, &stream.dev_texts(1, 0), &(Some("left"), Some("W")));
    equal(&rt, &stream.dev_texts(2, 0), &(Some("lean"), Some("g")));
    let again = file.records.as_slice().get(4);
    let message = again.and_then(|record_| pushed(&rt, &mut stream, record_));
    let (value, decimals) = (2_720_000, 4);
    equal(
        &rt,
        &message.and_then(|m| m.distance()),
        &Some(Fixed { value, decimals }),
    );
}
