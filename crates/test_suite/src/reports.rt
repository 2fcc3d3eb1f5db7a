//! Reports of known bytes, by a reporter that puts a dot for each event.
ghost use Rattle.std.specs.Prelude.{◌≡◌, [], ◌∷◌};

use crate::asserts::{equal, holds_at};
use fit_decode::{CutSource, Event, Fault, Source};
use fit_encode::{CutSink, Sink, WriteSink};
use fit_frame::Reason;
use fit_report::{Document, Heard, Report, ReportFault, report, report_document};
use std::alloc::{AllocError, Global};
use std::process::Abort;

/// A header, a definition message without fields, a data message of one byte, and the checksum.
const FILE: [u8; 23] = *b"\x0E\x20\0\0\x07\0\0\0.FIT\xDD\x63\x40\0\0\x14\0\0\0\x44\x34";

/// Puts a dot for each event.
#[derive(Drop)]
struct Dots {
    heard: Heard,
}

impl Report for Dots {
    ghost has_heard = { λ s heard. s.heard ≡ heard };

    ghost line = { λ heard x. 46 ∷ [] };

    fn tell(&mut self, event: &Event, text: &mut Vec<u8>) -> Result<(), AllocError> {
        match event {
            Event::More => {}
            Event::Header(..) => text.push(b'.')?,
            Event::Item(_) => text.push(b'.')?,
            Event::FileEnd => text.push(b'.')?,
        }
        self.heard.add(event);
        Ok(())
    }
}

/// What ends a document of dots: as many bytes as a report takes at once.
const CLOSING: &[u8] = &[b'!'; 65_536];

impl Document for Dots {
    ghost use Rattle.test_suite.specs.declared.reports.TheConstants.{CLOSING};

    ghost ending = { λ heard. CLOSING.now };

    fn end(&mut self, text: &mut Vec<u8>) -> Result<(), AllocError> {
        text.extend_from_slice(CLOSING)
    }
}

/// A sink with that many dots.
fn dotted(count: usize) -> CutSink<64> {
    let mut sink = CutSink::new(64);
    for _ in 0..count {
        let _ = sink.put(b".");
    }
    sink
}

/// Whether a report of a source ends so after that many dots, by a sink that takes that many bytes.
fn is_reported<S: Source>(
    alloc: Global,
    source: &mut S,
    limit: usize,
    dots: usize,
    answer: Result<(), ReportFault>,
) -> bool {
    let mut sink = CutSink::<64>::new(limit);
    let mut reporter = Dots {
        heard: Heard::new(),
    };
    let found = report(alloc, source, &mut sink, &mut reporter);
    found == answer && sink.bytes() == dotted(dots).bytes()
}

/// Three files, and a byte that is no header.
fn chain(rt: &impl Abort, alloc: Global) -> Vec<u8> {
    let mut bytes = Vec::new(alloc);
    for _ in 0..3 {
        bytes.extend_from_slice(&FILE).expect(rt, "memory");
    }
    bytes.push(0).expect(rt, "memory");
    bytes
}

/// A report of that many bytes of a chain ends so, after that many dots.
#[test]
fn inputs(rt: HostRuntime) {
    let chain = chain(&rt, rt.alloc());
    let refused = Fault::Refused {
        place: 69,
        reason: Reason::HeaderSize,
    };
    for (size, dots, answer) in [
        (0, 0, Err(Fault::Truncated { place: 0 })),
        (13, 0, Err(Fault::Truncated { place: 13 })),
        (14, 1, Err(Fault::Truncated { place: 14 })),
        (22, 3, Err(Fault::Truncated { place: 22 })),
        (23, 4, Ok(())),
        (24, 4, Err(Fault::Truncated { place: 24 })),
        (69, 12, Ok(())),
        (70, 12, Err(refused)),
    ] {
        let mut input = chain.as_slice().get(..size).unwrap_or_default();
        equal(&rt, &input.len(), &size);
        let answer = answer.map_err(ReportFault::Decode);
        holds_at(
            &rt,
            is_reported(rt.alloc(), &mut input, 64, dots, answer),
            &size,
        );
    }
}

#[test]
fn a_failing_source(rt: HostRuntime) {
    let mut source = CutSource::new(&FILE, 21);
    let fault = ReportFault::Decode(Fault::Read { place: 21 });
    assert!(rt; is_reported(rt.alloc(), &mut source, 64, 3, Err(fault)));
}

#[test]
fn failing_sinks(rt: HostRuntime) {
    for limit in 0..4 {
        let fault = ReportFault::Write {
            written: limit as u64,
        };
        let mut input = FILE.as_slice();
        holds_at(
            &rt,
            is_reported(rt.alloc(), &mut input, limit, limit, Err(fault)),
            &limit,
        );
    }
}

/// Asserts the text of a fault.
fn has_text(rt: &impl Abort, alloc: Global, fault: ReportFault, text: &str) {
    let told = format!(in alloc; "{fault}").expect(rt, "memory");
    equal(rt, &told.as_str(), &text);
}

/// Asserts the text of a fault of a decoder, alone and in a report.
fn decodes_as(rt: &impl Abort, alloc: Global, fault: Fault, text: &str) {
    let told = format!(in alloc; "{fault}").expect(rt, "memory");
    equal(rt, &told.as_str(), &text);
    has_text(rt, alloc, ReportFault::Decode(fault), text);
}

#[test]
fn texts_of_faults(rt: HostRuntime) {
    let refused = Fault::Refused {
        place: 37,
        reason: Reason::UndefinedLocal,
    };
    for (fault, text) in [
        (refused, "refused at byte 37: UndefinedLocal"),
        (Fault::Truncated { place: 0 }, "truncated at byte 0"),
        (
            Fault::NoMemory { used: 4096 },
            "out of memory after 4096 bytes",
        ),
        (Fault::Read { place: 21 }, "read fault at byte 21"),
    ] {
        decodes_as(&rt, rt.alloc(), fault, text);
    }
    let write = ReportFault::Write { written: 5 };
    has_text(&rt, rt.alloc(), write, "write fault after 5 bytes");
}

/// A document may end with more than a report takes at once.
#[test]
fn a_long_end(rt: HostRuntime) {
    let mut source = FILE.as_slice();
    let mut sink = WriteSink::new(Vec::new(rt.alloc()));
    let mut reporter = Dots {
        heard: Heard::new(),
    };
    let found = report_document(rt.alloc(), &mut source, &mut sink, &mut reporter);
    assert!(rt; found == Ok(()));
    let text = sink.into_inner();
    equal(&rt, &text.len(), &(4 + CLOSING.len()));
    assert!(rt; text.as_slice().ends_with(CLOSING));
}
