//! Files that come back from their blocks.
use crate::asserts::equal_at;
use fit_encode::{CutSink, WriteSink};
use fit_from_messages::from_messages;
use fit_messages::MessagesReport;
use fit_report::report;
use std::alloc::Global;
use std::process::Abort;
use test_known::files;

/// The blocks of a chain of files.
pub(crate) fn blocks_of(rt: &impl Abort, alloc: Global, bytes: &[u8]) -> Vec<u8> {
    let mut source = bytes;
    let mut sink = WriteSink::new(Vec::new(alloc));
    let told = report(
        alloc,
        &mut source,
        &mut sink,
        &mut MessagesReport::new(alloc),
    );
    assert!(rt; told.is_ok());
    sink.into_inner()
}

/// Asserts that the blocks of a file give its bytes.
fn comes_back(rt: &impl Abort, alloc: Global, name: &str, bytes: &[u8]) {
    let blocks = blocks_of(rt, alloc, bytes);
    let mut sink = CutSink::<128>::new(128);
    let written = from_messages(alloc, blocks.as_slice(), &mut sink);
    equal_at(rt, &written, &Ok(()), &name);
    equal_at(rt, &sink.bytes(), &bytes, &name);
}

#[test]
fn known_files(rt: HostRuntime) {
    for known in files() {
        comes_back(&rt, rt.alloc(), known.name, known.bytes);
    }
}
