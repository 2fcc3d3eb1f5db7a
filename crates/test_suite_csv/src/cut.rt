//! Conversions of inputs that are cut at each place, from sources that fail there, and into sinks that do.

use crate::asserts::{equal, equal_at, holds_at};
use fit_csv::{CsvFault, from_csv, table, to_csv};
use fit_decode::{CutSource, Fault, Source};
use fit_encode::{CutSink, Sink};
use std::alloc::Global;
use std::process::Abort;
use test_known::{FIRST_ROW, Known, TABLE_HEAD, files};

/// The first lines of a text.
fn first_lines(text: &str, count: usize) -> &[u8] {
    let bytes = text.as_bytes();
    let mut left = count;
    for (place, byte) in bytes.iter().enumerate() {
        if left == 0 {
            return &bytes[..place];
        }
        if *byte == b'\n' {
            left = left.saturating_sub(1);
        }
    }
    bytes
}

/// How many rows of its text and of its table are written of that many bytes of an input.
fn rows_of(known: &Known, count: usize) -> (usize, usize) {
    let mut rows = (1, 0);
    for end in known.ends {
        if end.0 <= count {
            rows = (end.3, end.4);
        }
    }
    rows
}

/// Whether a text is the first line of a table and these rows.
fn is_table(text: &[u8], rows: &[u8]) -> bool {
    let (head, rest) = text.split_at(TABLE_HEAD.len().min(text.len()));
    head == TABLE_HEAD.as_bytes() && rest == rows
}

/// Asserts what `to_csv` returns for a source that ends or fails after that many bytes, and the text that is written.
fn as_text<S: Source>(
    rt: &impl Abort,
    alloc: Global,
    known: &Known,
    k: usize,
    source: &mut S,
    answer: Result<(), CsvFault>,
) {
    let (rows, _) = rows_of(known, k);
    let mut sink = CutSink::<2048>::new(2048);
    let found = to_csv(alloc, source, &mut sink);
    equal_at(rt, &found, &answer, &(known.name, k));
    equal_at(
        rt,
        &sink.bytes(),
        &first_lines(known.text, rows),
        &(known.name, k),
    );
    assert!(rt; !sink.failed());
}

/// Asserts what `table` returns for a source that ends or fails after that many bytes, and the text that is written.
fn as_table<S: Source>(
    rt: &impl Abort,
    alloc: Global,
    known: &Known,
    k: usize,
    source: &mut S,
    answer: Result<(), CsvFault>,
) {
    let (_, records) = rows_of(known, k);
    let mut sink = CutSink::<2048>::new(2048);
    let found = table(alloc, source, &mut sink);
    equal_at(rt, &found, &answer, &(known.name, k));
    let written = is_table(sink.bytes(), first_lines(known.table, records));
    holds_at(rt, written, &(known.name, k));
}

/// Converts first bytes of an input.
pub(crate) fn convert_cut(rt: &impl Abort, alloc: Global, known: &Known, cut: &[u8]) {
    let k = cut.len();
    let whole = k == known.first || k == known.bytes.len();
    let fault = CsvFault::Decode(Fault::Truncated { place: k as u64 });
    let answer = if whole { Ok(()) } else { Err(fault) };
    let (mut text, mut rows) = (cut, cut);
    as_text(rt, alloc, known, k, &mut text, answer);
    as_table(rt, alloc, known, k, &mut rows, answer);
    assert!(rt; text.is_empty() && rows.is_empty());
}

#[test]
fn inputs_cut_anywhere(rt: HostRuntime) {
    for known in files() {
        for k in 0..known.bytes.len() {
            convert_cut(&rt, rt.alloc(), &known, &known.bytes[..k]);
        }
        convert_cut(&rt, rt.alloc(), &known, known.bytes);
    }
}

/// Converts an input whose source fails after that many bytes.
fn convert_failing(rt: &impl Abort, alloc: Global, known: &Known, k: usize) {
    let answer = Err(CsvFault::Decode(Fault::Read { place: k as u64 }));
    let mut text = CutSource::new(known.bytes, k);
    as_text(rt, alloc, known, k, &mut text, answer);
    let mut rows = CutSource::new(known.bytes, k);
    as_table(rt, alloc, known, k, &mut rows, answer);
    assert!(rt; text.failed() && rows.failed());
}

/// Reads a text whose source fails after that many bytes.
fn read_failing(rt: &impl Abort, alloc: Global, known: &Known, k: usize) {
    let mut source = CutSource::new(known.text.as_bytes(), k);
    let mut sink = CutSink::<128>::new(128);
    let found = from_csv(alloc, &mut source, &mut sink);
    equal_at(rt, &found, &Err(CsvFault::Read), &(known.name, k));
    assert!(rt; source.failed() && sink.bytes().is_empty());
}

#[test]
fn sources_that_fail_anywhere(rt: HostRuntime) {
    for known in files() {
        for k in 0..known.bytes.len() {
            convert_failing(&rt, rt.alloc(), &known, k);
        }
        for k in 0..known.text.len() {
            read_failing(&rt, rt.alloc(), &known, k);
        }
    }
}

/// The fault of a conversion whose sink has failed after that many bytes.
fn write_fault(k: usize) -> Result<(), CsvFault> {
    Err(CsvFault::Write { written: k as u64 })
}

/// Writes first bytes of the text of an input.
fn text_that_fails(rt: &impl Abort, alloc: Global, known: &Known, k: usize) {
    let mut source = known.bytes;
    let mut sink = CutSink::<2048>::new(k);
    let found = to_csv(alloc, &mut source, &mut sink);
    equal_at(rt, &found, &write_fault(k), &known.name);
    equal(rt, &Some(sink.bytes()), &known.text.as_bytes().get(..k));
}

/// Writes first bytes of the table of an input.
fn table_that_fails(rt: &impl Abort, alloc: Global, known: &Known, k: usize) {
    let mut source = known.bytes;
    let mut sink = CutSink::<2048>::new(k);
    let found = table(alloc, &mut source, &mut sink);
    equal_at(rt, &found, &write_fault(k), &known.name);
    let head = TABLE_HEAD.len().min(k);
    let (front, rest) = sink.bytes().split_at(head.min(sink.bytes().len()));
    equal(rt, &front, &&TABLE_HEAD.as_bytes()[..head]);
    equal(
        rt,
        &Some(rest),
        &known.table.as_bytes().get(..k.saturating_sub(head)),
    );
}

/// Writes first bytes of the file of a text.
fn file_that_fails(rt: &impl Abort, alloc: Global, known: &Known, k: usize) {
    let mut source = known.text.as_bytes();
    let mut sink = CutSink::<128>::new(k);
    let found = from_csv(alloc, &mut source, &mut sink);
    equal_at(rt, &found, &write_fault(k), &known.name);
    equal(rt, &Some(sink.bytes()), &known.bytes.get(..k));
}

#[test]
fn sinks_that_fail_anywhere(rt: HostRuntime) {
    for known in files() {
        for k in 0..known.text.len() {
            text_that_fails(&rt, rt.alloc(), &known, k);
        }
        for k in 0..TABLE_HEAD.len().saturating_add(known.table.len()) {
            table_that_fails(&rt, rt.alloc(), &known, k);
        }
        for k in 0..known.bytes.len() {
            file_that_fails(&rt, rt.alloc(), &known, k);
        }
    }
}

/// Reads the text of an input, and writes its bytes.
pub(crate) fn text_back(rt: &impl Abort, alloc: Global, known: &Known) {
    let mut source = known.text.as_bytes();
    let mut sink = CutSink::<512>::new(512);
    equal(rt, &from_csv(alloc, &mut source, &mut sink), &Ok(()));
    equal(rt, &sink.bytes(), &known.bytes);
    assert!(rt; source.is_empty() && !sink.failed());
    assert!(rt; known.text.starts_with(FIRST_ROW));
}

#[test]
fn texts_back(rt: HostRuntime) {
    for known in files() {
        text_back(&rt, rt.alloc(), &known);
    }
}
