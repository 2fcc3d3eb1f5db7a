//! Known inputs by all commands, with what must stand on the output and among the fault lines, and the status.

mod asserts;
mod cells;
mod changed;
mod check;
mod conversions;
mod failing;
mod lines;
mod output;
mod refused_texts;
mod show;
mod streams;

use crate::tests::asserts::equal_at;
use fit_decode::Source;
use fit_encode::CutSink;
use fit_run::{Command, run};
use std::alloc::Global;
use std::process::Abort;
use test_known::{
    BOTH_ORDERS_SHOWN as TWO_MESSAGES_SHOWN, BOTH_ORDERS_TEXT as TWO_MESSAGES_TEXT,
    DEVELOPER_FIELD_SHOWN, DEVELOPER_FIELD_TEXT, EMPTY_TEXT, LONG_TEXT, TABLE_HEAD,
};

/// The empty file, with the sum of its header.
const EMPTY: &str = "0E 20 00 00 00 00 00 00 2E 46 49 54 9C 85 00 00";

/// The empty file, with zeros for the sum of its header.
const EMPTY_WITH_ZEROS: &str = "0E 20 00 00 00 00 00 00 2E 46 49 54 00 00 A8 A3";

/// No records, and a header of 12 bytes.
const SHORT: &str = "0C 20 00 00 00 00 00 00 2E 46 49 54 65 42";

/// No records, and a header of 16 bytes.
const LONG: &str = "10 20 00 00 00 00 00 00 2E 46 49 54 B4 AD 41 42 B0 61";

/// No records, and a header whose sum is 0.
const TRUE_ZERO: &str = "0E 20 8D B5 00 00 00 00 2E 46 49 54 00 00 00 00";

/// A definition message without fields and a data message of one byte.
const ONE_BYTE_MESSAGE: &str =
    "0E 20 00 00 07 00 00 00 2E 46 49 54 DD 63 40 00 00 14 00 00 00 44 34";

/// Messages in both architectures, one with a compressed timestamp header.
const TWO_MESSAGES: &str =
    "0E 20 00 00 24 00 00 00 2E 46 49 54 9F 6E 40 00 00 14 00 02 FD 04 86 03 01 02 \
     00 1F CA 9A 3B 78 41 00 01 00 14 02 02 02 84 08 03 0D A2 09 C4 64 00 10 F0 3B";

/// A developer field before and after its description.
const DEVELOPER_FIELD: &str =
    "0E 20 00 00 36 00 00 00 2E 46 49 54 1F BB 40 00 00 CE 00 04 00 01 02 01 01 02 02 01 02 03 03 07 \
     61 00 00 14 00 00 01 05 02 00 01 34 12 00 00 05 84 6D 6F 00 01 34 12 61 00 00 14 00 00 01 05 02 00 01 34 12 4A 8B";

/// Adds the bytes that two hexadecimal digits each stand for.
fn add_bytes(rt: &impl Abort, bytes: &mut Vec<u8>, text: &str) {
    for word in text.split_whitespace() {
        let byte = u8::from_str_radix(word, 16).expect(rt, "two digits");
        bytes.push(byte).expect(rt, "memory");
    }
}

/// The bytes of some texts, one after another.
fn chain_of(rt: &impl Abort, alloc: Global, texts: &[&str]) -> Vec<u8> {
    let mut bytes = Vec::new(alloc);
    for text in texts {
        add_bytes(rt, &mut bytes, text);
    }
    bytes
}

/// The bytes that two hexadecimal digits each stand for.
fn bytes_of(rt: &impl Abort, alloc: Global, text: &str) -> Vec<u8> {
    chain_of(rt, alloc, &[text])
}

/// What a command writes, what it writes of faults, and its status.
#[derive(Drop)]
struct Answer {
    output: CutSink<2048>,
    faults: CutSink<128>,
    status: u8,
}

/// What a command does with a source, with an output that takes that many bytes.
fn answer_of<S: Source>(alloc: Global, command: Command, source: &mut S, limit: usize) -> Answer {
    let mut output = CutSink::new(limit);
    let mut faults = CutSink::new(128);
    let status = run(alloc, command, source, &mut output, &mut faults);
    Answer {
        output,
        faults,
        status,
    }
}

/// Asserts the output, the fault lines and the status of a run.
fn expect(rt: &impl Abort, answer: &Answer, name: &str, output: &[u8], faults: &str, status: u8) {
    equal_at(rt, &answer.output.bytes(), &output, &name);
    equal_at(rt, &answer.faults.bytes(), &faults.as_bytes(), &name);
    equal_at(rt, &answer.status, &status, &name);
}

/// Asserts what a command writes of the bytes of a text, and its status.
fn expect_of(
    rt: &impl Abort,
    alloc: Global,
    command: Command,
    input: &str,
    output: &str,
    faults: &str,
    status: u8,
) {
    let bytes = bytes_of(rt, alloc, input);
    let mut source = bytes.as_slice();
    let answer = answer_of(alloc, command, &mut source, 2048);
    expect(rt, &answer, input, output.as_bytes(), faults, status);
}

/// Asserts the text of some bytes, and that it gives them back.
fn both_ways(rt: &impl Abort, alloc: Global, bytes: &[u8], text: &str) {
    let mut source = bytes;
    let there = answer_of(alloc, Command::ToCsv, &mut source, 2048);
    expect(rt, &there, text, text.as_bytes(), "", 0);
    let mut source = there.output.bytes();
    let back = answer_of(alloc, Command::FromCsv, &mut source, 2048);
    expect(rt, &back, text, bytes, "", 0);
}
