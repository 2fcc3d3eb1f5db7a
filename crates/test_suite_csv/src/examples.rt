//! What the examples answer where there is memory.
use crate::asserts::{equal, equal_at};
use fit_base::Entries;
use fit_csv::CsvFault;
use fit_decode::{Fault, read_one};
use fit_encode::{CutSink, EncodeFault, WriteSink};
use fit_examples::{
    Moment, check_upload, heart_rates, rates_document, ride_file, ride_table, written_and_read,
};
use fit_frame::{Header, HeaderSum, PROTOCOL_2_0, Reason};
use fit_record::FitFile;
use fit_report::ReportFault;
use std::alloc::Global;
use std::process::Abort;
use test_known::TABLE_HEAD;

/// Messages in both architectures, one of them with a compressed timestamp header.
const BOTH: [u8; 52] =
    *b"\x0E\x20\0\0\x24\0\0\0.FIT\x9F\x6E\x40\0\0\x14\0\x02\xFD\x04\x86\x03\x01\x02\0\x1F\xCA\x9A\x3B\x78\x41\0\x01\0\x14\x02\x02\x02\x84\x08\x03\x0D\xA2\x09\xC4\x64\0\x10\xF0\x3B";

/// Record messages with a developer field, before and after its description.
const DESCRIBED: [u8; 70] =
    *b"\x0E\x20\0\0\x36\0\0\0.FIT\x1F\xBB\x40\0\0\xCE\0\x04\0\x01\x02\x01\x01\x02\x02\x01\x02\x03\x03\x07\x61\0\0\x14\0\0\x01\x05\x02\0\x01\x34\x12\0\0\x05\x84mo\0\x01\x34\x12\x61\0\0\x14\0\0\x01\x05\x02\0\x01\x34\x12\x4A\x8B";

/// Three times and heart rates, of which the second is the invalid one.
const RIDE: [u8; 46] =
    *b"\x0E\x20\0\0\x1E\0\0\0.FIT\x1C\x05\x40\0\0\x14\0\x02\xFD\x04\x86\x03\x01\x02\0\x1F\xCA\x9A\x3B\x78\0\x20\xCA\x9A\x3B\xFF\0\x21\xCA\x9A\x3B\x79\x37\xC9";

/// Asserts that the first file of some bytes is written and read again, with two bytes left after it.
fn comes_back(rt: &impl Abort, alloc: Global, bytes: &[u8]) {
    let mut source = bytes;
    let file = read_one(alloc, &mut source).expect(rt, "a file");
    let read = written_and_read(alloc, &file, b"\xFF\x01");
    assert!(rt; read == Ok((file, 2)));
}

#[test]
fn bytes_after_a_file_are_left(rt: HostRuntime) {
    for bytes in [BOTH.as_slice(), DESCRIBED.as_slice(), RIDE.as_slice()] {
        comes_back(&rt, rt.alloc(), bytes);
    }
}

#[test]
fn headers_without_bytes(rt: HostRuntime) {
    let alloc = rt.alloc();
    let mut header = Header::new(PROTOCOL_2_0, 0);
    header.size = 13;
    header.sum = HeaderSum::Absent;
    let file = FitFile {
        header,
        records: Entries::new(alloc),
    };
    let read = written_and_read(alloc, &file, &[]);
    assert!(rt; read == Err(EncodeFault::BadHeader { file: 1 }));
}

/// The first two, and the first byte of one that is refused.
fn chain(rt: &impl Abort, alloc: Global) -> Vec<u8> {
    let mut chain = Vec::from_slice(alloc, &BOTH).expect(rt, "memory");
    chain.extend_from_slice(&DESCRIBED).expect(rt, "memory");
    chain.push(0x0D).expect(rt, "memory");
    chain
}

#[test]
fn uploads(rt: HostRuntime) {
    let chain = chain(&rt, rt.alloc());
    for (size, answer) in [
        (0, Err(Fault::Truncated { place: 0 })),
        (51, Err(Fault::Truncated { place: 51 })),
        (52, Ok(())),
        (53, Err(Fault::Truncated { place: 53 })),
        (122, Ok(())),
        (
            123,
            Err(Fault::Refused {
                place: 122,
                reason: Reason::HeaderSize,
            }),
        ),
    ] {
        assert!(rt; size <= chain.len());
        let upload = &chain.as_slice()[..size];
        equal_at(&rt, &check_upload(rt.alloc(), upload), &answer, &size);
    }
}

#[test]
fn a_damaged_upload(rt: HostRuntime) {
    let mut damaged = BOTH;
    damaged[51] = 0x3C;
    equal(
        &rt,
        &check_upload(rt.alloc(), &damaged),
        &Err(Fault::Refused {
            place: 51,
            reason: Reason::FileSum,
        }),
    );
}

/// Asserts that the table of a ride has these rows after its first line.
fn has_table(rt: &impl Abort, alloc: Global, ride: &[u8], rows: &str) {
    let table = ride_table(alloc, ride).expect(rt, "a table");
    let (head, rest) = table.as_slice().split_at(TABLE_HEAD.len().min(table.len()));
    equal(rt, &head, &TABLE_HEAD.as_bytes());
    equal(rt, &rest, &rows.as_bytes());
}

#[test]
fn tables_of_rides(rt: HostRuntime) {
    for (ride, rows) in [
        (
            BOTH.as_slice(),
            "1,2021-09-08T01:47:11Z,,,,,,120,,,\n1,2021-09-08T01:47:14Z,,,0.0,16.0000,1.00,,,,\n",
        ),
        (
            DESCRIBED.as_slice(),
            "1,,,,,,,,,,\n1,,,,,,,,,,\n1,,,,,,,,,,\n",
        ),
        (
            RIDE.as_slice(),
            "1,2021-09-08T01:47:11Z,,,,,,120,,,\n1,2021-09-08T01:47:12Z,,,,,,,,,\n1,2021-09-08T01:47:13Z,,,,,,121,,,\n",
        ),
    ] {
        has_table(&rt, rt.alloc(), ride, rows);
    }
}

#[test]
fn a_ride_that_is_cut(rt: HostRuntime) {
    let fault = Fault::Truncated { place: 51 };
    let found = ride_table(rt.alloc(), &BOTH[..51]);
    assert!(rt; found == Err(CsvFault::Decode(fault)));
    assert!(rt; heart_rates(rt.alloc(), &BOTH[..51]) == Err(fault));
}

#[test]
fn rides_as_files(rt: HostRuntime) {
    let points = [
        (1_000_000_031, 120),
        (1_000_000_032, 255),
        (1_000_000_033, 121),
    ];
    let ride = ride_file(rt.alloc(), &points).expect(&rt, "a ride");
    equal(&rt, &ride.as_slice(), &RIDE.as_slice());
}

/// When the rides begin.
const START: u32 = 1_000_000_031;

/// A moment that many seconds after it.
fn after(seconds: u32, heart_rate: Option<u8>) -> Moment {
    let time = START.checked_add(seconds);
    Moment { time, heart_rate }
}

/// Asserts the moments of a ride.
fn has_moments(rt: &impl Abort, alloc: Global, ride: &[u8], moments: &[Moment]) {
    let found = heart_rates(alloc, ride).expect(rt, "moments");
    equal(rt, &found.as_slice(), &moments);
}

#[test]
fn heart_rates_of_rides(rt: HostRuntime) {
    let alloc = rt.alloc();
    let both = [after(0, Some(120)), after(3, None)];
    has_moments(&rt, alloc, &BOTH, &both);
    let none = Moment {
        time: None,
        heart_rate: None,
    };
    has_moments(&rt, alloc, &DESCRIBED, &[none; 3]);
    let three = [after(0, Some(120)), after(1, None), after(2, Some(121))];
    has_moments(&rt, alloc, &RIDE, &three);
    let mut chain = Vec::from_slice(alloc, &RIDE).expect(&rt, "memory");
    assert!(rt; chain.extend_from_slice(&DESCRIBED).is_ok());
    let all = [three[0], three[1], three[2], none, none, none];
    has_moments(&rt, alloc, chain.as_slice(), &all);
}

/// A header and a checksum, with no record between them.
const SILENT: [u8; 16] = *b"\x0E\x20\0\0\0\0\0\0.FIT\x9C\x85\0\0";

/// Asserts the document of the heart rates of a ride, and how the report of it ends.
fn has_document(
    rt: &impl Abort,
    alloc: Global,
    ride: &[u8],
    answer: Result<(), ReportFault>,
    text: &str,
) {
    let mut source = ride;
    let mut sink = WriteSink::new(Vec::new(alloc));
    let found = rates_document(alloc, &mut source, &mut sink);
    assert!(rt; found == answer);
    let made = sink.into_inner();
    equal(rt, &made.as_slice(), &text.as_bytes());
}

#[test]
fn documents_of_rides(rt: HostRuntime) {
    let cut = Err(ReportFault::Decode(Fault::Truncated { place: 51 }));
    for (ride, answer, text) in [
        (BOTH.as_slice(), Ok(()), "[120,null]\n"),
        (DESCRIBED.as_slice(), Ok(()), "[null,null,null]\n"),
        (RIDE.as_slice(), Ok(()), "[120,null,121]\n"),
        (SILENT.as_slice(), Ok(()), "[]\n"),
        (&BOTH[..51], cut, "[120,null"),
    ] {
        has_document(&rt, rt.alloc(), ride, answer, text);
    }
}

#[test]
fn a_document_of_two_files(rt: HostRuntime) {
    let mut chain = Vec::from_slice(rt.alloc(), &RIDE).expect(&rt, "memory");
    assert!(rt; chain.extend_from_slice(&SILENT).is_ok());
    assert!(rt; chain.extend_from_slice(&BOTH).is_ok());
    let text = "[120,null,121,120,null]\n";
    has_document(&rt, rt.alloc(), chain.as_slice(), Ok(()), text);
}

/// With sinks that fail, also in the ending, the count is of all bytes of the document.
#[test]
fn documents_that_break_off(rt: HostRuntime) {
    let text = b"[120,null,121]\n";
    for limit in 0..text.len() {
        let mut source = RIDE.as_slice();
        let mut sink = CutSink::<64>::new(limit);
        let found = rates_document(rt.alloc(), &mut source, &mut sink);
        let written = limit as u64;
        equal_at(&rt, &found, &Err(ReportFault::Write { written }), &limit);
        equal(&rt, &sink.bytes(), &&text[..limit]);
    }
}
