//! Readers and writers as sources and sinks, and inputs of more than one piece.

use crate::tests::asserts::equal;
use crate::tests::{SHORT, bytes_of};
use fit_decode::{ReadSource, Source};
use fit_encode::{CutSink, Sink, WriteSink};
use fit_run::{Command, run};
use std::alloc::Global;
use std::io;
use std::io::{ErrorKind, Read};
use std::process::Abort;

/// Gives some bytes, and then an error.
#[derive(Drop)]
struct BrokenReader<'a>(&'a [u8]);

impl Read for BrokenReader<'_> {
    fn read(&mut self, buffer: &mut [u8]) -> io::Result<usize> {
        if self.0.is_empty() {
            return Err(io::Error::from(ErrorKind::Other));
        }
        self.0.read(buffer)
    }
}

/// A definition message without fields, and more than two pieces of data messages of one byte. The checksum is that of another program.
fn many_messages(rt: &impl Abort, alloc: Global) -> Vec<u8> {
    let front = "0E 20 00 00 2E 23 00 00 2E 46 49 54 00 00 40 00 00 14 00 00";
    let mut bytes = bytes_of(rt, alloc, front);
    bytes.extend_from_slice(&[0; 9000]).expect(rt, "memory");
    bytes.extend_from_slice(&[0x0C, 0xDC]).expect(rt, "memory");
    bytes
}

#[test]
fn a_reader_and_a_writer(rt: HostRuntime) {
    let bytes = many_messages(&rt, rt.alloc());
    let mut text = Vec::new(rt.alloc());
    let mut output = WriteSink::new(&mut text);
    let mut faults = CutSink::<128>::new(128);
    let source = &mut ReadSource::new(bytes.as_slice());
    let status = run(rt.alloc(), Command::Check, source, &mut output, &mut faults);
    let lines = b"file 1: 9006 data bytes, 9001 records\nok\n".as_slice();
    equal(&rt, &(status, text.as_slice()), &(0, lines));
}

/// Checks bytes that can be read up to the 5000th. Nothing is written.
fn fail_to_read<K: Sink>(rt: &impl Abort, alloc: Global, bytes: &[u8], output: &mut K) {
    let front = bytes.get(..5000).expect(rt, "pieces");
    let mut source = ReadSource::new(BrokenReader(front));
    let mut faults = CutSink::<128>::new(128);
    let status = run(alloc, Command::Check, &mut source, output, &mut faults);
    let line = b"read fault at byte 5000\n".as_slice();
    equal(rt, &(status, faults.bytes()), &(4, line));
    assert!(rt; source.failed() && !output.failed());
}

/// Checks bytes of which more is to be written than the output takes.
fn fail_to_write<K: Sink>(rt: &impl Abort, alloc: Global, bytes: &[u8], output: &mut K) {
    let mut source = bytes;
    let mut faults = CutSink::<128>::new(128);
    let status = run(alloc, Command::Check, &mut source, output, &mut faults);
    equal(rt, &status, &4);
    assert!(rt; output.failed());
}

#[test]
fn a_broken_reader_and_a_full_writer(rt: HostRuntime) {
    let bytes = many_messages(&rt, rt.alloc());
    let mut room = [0u8; 8];
    let mut output = WriteSink::new(room.as_mut_slice());
    fail_to_read(&rt, rt.alloc(), bytes.as_slice(), &mut output);
    fail_to_write(&rt, rt.alloc(), bytes.as_slice(), &mut output);
}

/// 65,536 files of 14 bytes.
fn chain_of_short(rt: &impl Abort, alloc: Global) -> Vec<u8> {
    let short = bytes_of(rt, alloc, SHORT);
    let mut bytes = Vec::new(alloc);
    for _ in 0..65_536 {
        bytes
            .extend_from_slice(short.as_slice())
            .expect(rt, "memory");
    }
    bytes
}

/// A long chain has a text that gives the same bytes.
#[test]
fn a_long_chain(rt: HostRuntime) {
    let bytes = chain_of_short(&rt, rt.alloc());
    let mut text = Vec::new(rt.alloc());
    let mut back = Vec::new(rt.alloc());
    let mut faults = CutSink::<128>::new(128);
    let mut sink = WriteSink::new(&mut text);
    let source = &mut bytes.as_slice();
    let status = run(rt.alloc(), Command::ToCsv, source, &mut sink, &mut faults);
    equal(&rt, &status, &0);
    let mut sink = WriteSink::new(&mut back);
    let source = &mut text.as_slice();
    let status = run(rt.alloc(), Command::FromCsv, source, &mut sink, &mut faults);
    equal(&rt, &(status, faults.bytes()), &(0, b"".as_slice()));
    equal(&rt, &back.len(), &917_504);
    assert!(rt; back.as_slice() == bytes.as_slice());
}
