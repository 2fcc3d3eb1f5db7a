//! Records that are read whole from their rows.
use crate::asserts::holds_at;
use crate::streams::data;
use fit_base::base_type::UINT8;
use fit_base::{Entries, Order};
use fit_decode::read_one;
use fit_record::{FieldDef, MessageDef, Record, Values};
use fit_rows::{MessageReader, RowStream};
use std::alloc::Global;
use std::process::Abort;
use test_known::fields::{kinds, two_fields};
use test_known::protocol::{DEVELOPER_DATA_INDEX, FIELD_DESCRIPTION};
use test_known::{FIRST_ROW, Known, files};

/// What comes after the first line and the row of the header in a text.
fn after_header(text: &str) -> &[u8] {
    let rows = text.strip_prefix(FIRST_ROW).unwrap_or_default();
    rows.split_once("\n")
        .map_or(b"", |lines| lines.1.as_bytes())
}

/// Asserts that a text begins with the rows of a data message, and returns what comes after them.
fn after_message<'a>(
    rt: &impl Abort,
    alloc: Global,
    reader: &mut MessageReader,
    before: &mut RowStream,
    values: &Values,
    text: &'a [u8],
) -> &'a [u8] {
    let read = reader.whole_message(before, text).expect(rt, "memory");
    let message = read.expect(rt, "a message");
    match before.stream().env().message_bytes(reader.bytes()) {
        Some(opened) => {
            let found = opened.values(alloc).expect(rt, "memory");
            assert!(rt; found == *values);
        }
        None => assert!(rt; false),
    }
    let fields = values.fields.len() as u64;
    let devs = values.dev.len() as u64;
    assert!(rt; message.rows == fields.saturating_add(devs).saturating_add(1));
    message.left
}

/// Asserts that a text begins with the rows of a definition message, and returns what comes after them.
fn after_definition<'a>(
    rt: &impl Abort,
    reader: &mut MessageReader,
    before: &RowStream,
    definition: &MessageDef,
    text: &'a [u8],
) -> &'a [u8] {
    match reader.whole_definition(before.stream(), text) {
        Ok(Some((found, left))) => {
            assert!(rt; found == *definition);
            left
        }
        _ => {
            assert!(rt; false);
            text
        }
    }
}

/// Asserts that a text begins with the rows of any record, and returns what comes after them.
fn after_record<'a>(
    rt: &impl Abort,
    alloc: Global,
    reader: &mut MessageReader,
    before: &mut RowStream,
    record_: &Record,
    text: &'a [u8],
) -> &'a [u8] {
    match record_ {
        Record::Define(definition) => after_definition(rt, reader, before, definition, text),
        Record::Values(values) => after_message(rt, alloc, reader, before, values, text),
    }
}

/// Asserts that no data message is found in a text.
fn no_message(rt: &impl Abort, reader: &mut MessageReader, before: &mut RowStream, text: &[u8]) {
    let found = reader.whole_message(before, text);
    assert!(rt; matches!(found, Ok(None)));
}

/// Takes a record that fits.
fn take(rt: &impl Abort, stream: &mut RowStream, record_: &Record) {
    match stream.stream().env().fits(record_) {
        Ok(_) => stream.take(record_).expect(rt, "memory"),
        Err(_) => assert!(rt; false),
    }
}

/// Asserts that the records of the first file are read one by one from its text.
fn read_whole(rt: &impl Abort, alloc: Global, known: &Known) {
    let mut source = known.bytes;
    let file = read_one(alloc, &mut source).expect(rt, "a file");
    let mut reader = MessageReader::new(alloc);
    let mut stream = RowStream::new(alloc);
    let mut text = after_header(known.text);
    for record_ in file.records.as_slice() {
        let left = after_record(rt, alloc, &mut reader, &mut stream, record_, text);
        if let Record::Define(_) = record_ {
            no_message(rt, &mut reader, &mut stream, text);
        }
        take(rt, &mut stream, record_);
        text = left;
    }
    holds_at(rt, text.starts_with(b"end,,,,,,\n"), &known.name);
}

#[test]
fn each_record_of_known_texts(rt: HostRuntime) {
    for known in files() {
        read_whole(&rt, rt.alloc(), &known);
    }
    for known in [two_fields(), kinds()] {
        read_whole(&rt, rt.alloc(), &known);
    }
}

/// A guess looks at eight bytes for a number. Where the text ends before that, no message is found; where it goes on, it is.
#[test]
fn short_number_at_the_end(rt: HostRuntime) {
    let alloc = rt.alloc();
    let fields = [FieldDef::one(DEVELOPER_DATA_INDEX, UINT8)];
    let mut stream = RowStream::new(alloc);
    let fields = Entries::from_slice(alloc, &fields).expect(&rt, "memory");
    let definition = MessageDef::new(0, Order::Little, FIELD_DESCRIPTION, fields);
    take(&rt, &mut stream, &Record::Define(definition));
    let message = data(&rt, alloc, 0, None, &[(1, &[5])]);
    let text = "data,0,,field_description,,,\nfield,developer_data_index,5,,,,\nend,,,,,,\n";
    let bytes = text.as_bytes();
    let mut reader = MessageReader::new(alloc);
    let left = after_record(&rt, alloc, &mut reader, &mut stream, &message, bytes);
    assert!(rt; left == b"end,,,,,,\n".as_slice());
    let (rows, _) = bytes.split_at(bytes.len() - left.len());
    no_message(&rt, &mut reader, &mut stream, rows);
}

/// A text that begins with no rows of a record has none.
#[test]
fn no_record(rt: HostRuntime) {
    let mut reader = MessageReader::new(rt.alloc());
    let mut stream = RowStream::new(rt.alloc());
    for text in [
        "",
        "data",
        "data,0,,record,,,\n",
        "end,,,,,,\n",
        "def,000000",
        "def,0,0",
    ] {
        let found = reader.whole_definition(stream.stream(), text.as_bytes());
        assert!(rt; matches!(found, Ok(None)));
        no_message(&rt, &mut reader, &mut stream, text.as_bytes());
    }
}
