//! Inputs cut at each byte, and sources and sinks that fail there, by each command.

use crate::tests::asserts::equal_at;
use crate::tests::{TABLE_HEAD, answer_of, expect};
use fit_decode::CutSource;
use fit_encode::{CutSink, Sink};
use fit_run::{Command, run};
use std::alloc::Global;
use std::process::Abort;
use test_known::{Known, files};

/// The commands that read files.
pub const READING: [Command; 4] = [
    Command::Check,
    Command::Show,
    Command::ToCsv,
    Command::Table,
];

/// The first lines of a text.
fn first_lines(rt: &impl Abort, alloc: Global, text: &str, count: usize) -> String {
    let mut lines = String::new(alloc);
    for (place, line) in text.split('\n').enumerate() {
        if place < count {
            lines.push_str(line).expect(rt, "memory");
            lines.push('\n').expect(rt, "memory");
        }
    }
    lines
}

/// All that a command writes of an input.
pub fn text_of(rt: &impl Abort, alloc: Global, known: &Known, command: Command) -> String {
    let (head, rest) = match command {
        Command::Check => ("", known.checked),
        Command::Show => ("", known.shown),
        Command::ToCsv => ("", known.text),
        Command::Table => (TABLE_HEAD, known.table),
        Command::FromCsv => ("", ""),
    };
    format!(in alloc; "{head}{rest}").expect(rt, "memory")
}

/// What a command writes of the events in that many bytes of an input.
fn written_of(rt: &impl Abort, alloc: Global, known: &Known, command: Command, k: usize) -> String {
    let mut count = match command {
        Command::ToCsv | Command::Table => 1,
        _ => 0,
    };
    for end in known.ends {
        if end.0 <= k {
            count = match command {
                Command::Check => end.1,
                Command::Show => end.2,
                Command::ToCsv => end.3,
                _ => end.4.saturating_add(1),
            };
        }
    }
    let text = text_of(rt, alloc, known, command);
    first_lines(rt, alloc, text.as_str(), count)
}

/// Asserts what a command writes of an input that ends after that many bytes.
fn end_at(rt: &impl Abort, alloc: Global, known: &Known, command: Command, k: usize) {
    let lines = written_of(rt, alloc, known, command, k);
    let whole = k == known.first || k == known.bytes.len();
    let status = if whole { 0 } else { 1 };
    let cut = format!(in alloc; "truncated at byte {k}\n").expect(rt, "memory");
    let (good, fault) = if whole {
        ("ok\n", "")
    } else {
        (cut.as_str(), cut.as_str())
    };
    let mut source = known.bytes.get(..k).expect(rt, "that many bytes");
    let found = answer_of(alloc, command, &mut source, 2048);
    if let Command::Check | Command::Show = command {
        let output = format!(in alloc; "{lines}{good}").expect(rt, "memory");
        expect(rt, &found, known.name, output.as_bytes(), "", status);
    } else {
        expect(rt, &found, known.name, lines.as_bytes(), fault, status);
    }
}

/// Asserts what a command writes of an input whose source fails after that many bytes.
fn fail_at(rt: &impl Abort, alloc: Global, known: &Known, command: Command, k: usize) {
    let lines = written_of(rt, alloc, known, command, k);
    let fault = format!(in alloc; "read fault at byte {k}\n").expect(rt, "memory");
    let mut source = CutSource::new(known.bytes, k);
    let found = answer_of(alloc, command, &mut source, 2048);
    expect(rt, &found, known.name, lines.as_bytes(), fault.as_str(), 4);
}

#[test]
fn inputs_that_end_anywhere(rt: HostRuntime) {
    for known in files() {
        for command in READING {
            for k in 0..known.bytes.len() {
                end_at(&rt, rt.alloc(), &known, command, k);
                fail_at(&rt, rt.alloc(), &known, command, k);
            }
            end_at(&rt, rt.alloc(), &known, command, known.bytes.len());
        }
    }
}

#[test]
fn texts_that_fail_anywhere(rt: HostRuntime) {
    for known in files() {
        for k in 0..known.text.len() {
            let mut source = CutSource::new(known.text.as_bytes(), k);
            let found = answer_of(rt.alloc(), Command::FromCsv, &mut source, 2048);
            expect(&rt, &found, known.name, b"", "read fault\n", 4);
        }
    }
}

/// Asserts that a command writes the first bytes of an output that fails after them, however many they are.
fn fail_at_each(rt: &impl Abort, alloc: Global, command: Command, input: &[u8], output: &[u8]) {
    for k in 0..output.len() {
        let mut source = input;
        let found = answer_of(alloc, command, &mut source, k);
        expect(
            rt,
            &found,
            "a sink that fails",
            &output[..k],
            "write fault\n",
            4,
        );
    }
}

#[test]
fn outputs_that_fail_anywhere(rt: HostRuntime) {
    let alloc = rt.alloc();
    for known in files() {
        for command in READING {
            let text = text_of(&rt, alloc, &known, command);
            fail_at_each(&rt, alloc, command, known.bytes, text.as_bytes());
        }
        fail_at_each(
            &rt,
            alloc,
            Command::FromCsv,
            known.text.as_bytes(),
            known.bytes,
        );
    }
    let line = b"refused at byte 0: HeaderSize\n";
    fail_at_each(&rt, alloc, Command::Check, &[0x0D], line);
}

#[test]
fn a_refused_byte_before_a_failure(rt: HostRuntime) {
    let line = "refused at byte 0: HeaderSize\n";
    for command in [Command::Check, Command::Show] {
        let found = answer_of(rt.alloc(), command, &mut CutSource::new(&[0x0D], 1), 2048);
        expect(&rt, &found, line, line.as_bytes(), "", 1);
    }
    let found = answer_of(
        rt.alloc(),
        Command::ToCsv,
        &mut CutSource::new(&[0x0D], 1),
        2048,
    );
    expect(&rt, &found, line, b"row,a,b,c,d,e,f\n", line, 1);
    let found = answer_of(
        rt.alloc(),
        Command::Table,
        &mut CutSource::new(&[0x0D], 1),
        2048,
    );
    expect(&rt, &found, line, TABLE_HEAD.as_bytes(), line, 1);
}

/// A fault line that can't be written changes no status.
#[test]
fn fault_lines_that_fail(rt: HostRuntime) {
    for command in [
        Command::Check,
        Command::Show,
        Command::ToCsv,
        Command::FromCsv,
        Command::Table,
    ] {
        let mut output = CutSink::<128>::new(128);
        let mut faults = CutSink::<4>::new(64);
        let source = &mut CutSource::new(&[0x0E], 1);
        let status = run(rt.alloc(), command, source, &mut output, &mut faults);
        equal_at(&rt, &faults.bytes(), &b"read".as_slice(), &command);
        assert!(rt; faults.failed());
        equal_at(&rt, &status, &4, &command);
    }
}
