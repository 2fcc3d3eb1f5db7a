//! The longest message as text, and its cells.

use crate::asserts::equal;
use fit_base::base_type::BYTE;
use fit_base::{Code, Items, has_shape};
use fit_csv::{cell_items, cell_text, from_csv, table, to_csv};
use fit_decode::read_one;
use fit_encode::{CutSink, WriteSink};
use fit_profile::{Message, Stream, field_info};
use fit_record::Record;
use std::alloc::Global;
use std::process::Abort;
use test_known::protocol::RECORD;
use test_known::{TABLE_HEAD, longest};

/// Puts the text of some bytes after what is there.
pub(crate) fn put_text(rt: &impl Abort, alloc: Global, bytes: &[u8], text: &mut Vec<u8>) {
    let mut source = bytes;
    let mut sink = WriteSink::new(text);
    equal(rt, &to_csv(alloc, &mut source, &mut sink), &Ok(()));
}

/// Puts the bytes of some text after what is there.
pub(crate) fn put_bytes(rt: &impl Abort, alloc: Global, text: &[u8], bytes: &mut Vec<u8>) {
    let mut source = text;
    let mut sink = WriteSink::new(bytes);
    equal(rt, &from_csv(alloc, &mut source, &mut sink), &Ok(()));
}

#[test]
fn both_ways(rt: HostRuntime) {
    let alloc = rt.alloc();
    let bytes = longest(alloc).expect(&rt, "memory");
    let mut text = Vec::new(alloc);
    put_text(&rt, alloc, bytes.as_slice(), &mut text);
    // The first line and four rows of the file and its records, and two rows of each field.
    let lines = text.as_slice().split(|byte| *byte == b'\n').count();
    equal(&rt, &lines, &(6 + 1020));
    let mut back = Vec::new(alloc);
    put_bytes(&rt, alloc, text.as_slice(), &mut back);
    assert!(rt; back == bytes);
}

#[test]
fn as_a_table(rt: HostRuntime) {
    let bytes = longest(rt.alloc()).expect(&rt, "memory");
    let mut source = bytes.as_slice();
    let mut sink = CutSink::<256>::new(256);
    equal(&rt, &table(rt.alloc(), &mut source, &mut sink), &Ok(()));
    let text = sink.bytes();
    let (head, rows) = text.split_at(TABLE_HEAD.len().min(text.len()));
    assert!(rt; head == TABLE_HEAD.as_bytes() && rows == b"1,,,,,,,,,,\n".as_slice());
}

/// Asserts that the items of a field of this number, or of a developer field, have a cell that gives them back.
fn comes_back(rt: &impl Abort, alloc: Global, number: Option<u8>, items: &Items) {
    let info = match number {
        Some(number) => field_info(RECORD, number),
        None => None,
    };
    if !has_shape(Code(BYTE), 255, items) {
        assert!(rt; false);
        return;
    }
    let cell = cell_text(alloc, Code(BYTE), info, items).expect(rt, "memory");
    equal(rt, &cell.as_str().len(), &512);
    let read = cell_items(alloc, Code(BYTE), 255, info, cell.as_str()).expect(rt, "memory");
    assert!(rt; read.as_ref() == Some(items));
}

/// Asserts it of the field and the developer field at a place of a message.
fn come_back(rt: &impl Abort, alloc: Global, message: &Message, place: u8) {
    match (message.field(place), message.dev(place)) {
        (Some(field), Some(dev)) => {
            comes_back(rt, alloc, Some(place), field.items);
            comes_back(rt, alloc, None, dev.items);
        }
        _ => assert!(rt; false),
    }
}

/// Asserts it of all fields of a message, and returns how many it has. A definition has none.
fn cells_of(rt: &impl Abort, alloc: Global, stream: &mut Stream, record_: &Record) -> u32 {
    if stream.env().fits(record_).is_err() {
        return 0;
    }
    let Some(message) = stream.push(record_).expect(rt, "memory") else {
        return 0;
    };
    let mut cells = 0u32;
    for place in 0..255u8 {
        come_back(rt, alloc, &message, place);
        cells = cells.saturating_add(2);
    }
    assert!(rt; message.field(255).is_none() && message.dev(255).is_none());
    cells
}

#[test]
fn message_and_cells(rt: HostRuntime) {
    let alloc = rt.alloc();
    let bytes = longest(alloc).expect(&rt, "memory");
    let file = read_one(alloc, &mut bytes.as_slice()).expect(&rt, "a file");
    let mut stream = Stream::new(alloc);
    let mut cells = 0u32;
    for record_ in file.records.as_slice() {
        cells = cells.saturating_add(cells_of(&rt, alloc, &mut stream, record_));
    }
    equal(&rt, &cells, &510);
}
