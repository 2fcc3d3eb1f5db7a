//! Texts and their chains of files, which are known from outside.

use crate::asserts::equal;
use crate::conversions::{QUOTED, QUOTED_TEXT};
use fit_csv::{CsvFault, from_csv};
use fit_encode::{CutSink, EncodeFault};
use std::alloc::Global;
use std::process::Abort;
use test_known::{BOTH_ORDERS_TEXT, EMPTY, EMPTY_TEXT, LONG_TEXT};

/// Asserts the fault of a text, and that it gives no bytes.
fn refuse(rt: &impl Abort, alloc: Global, text: &str, fault: CsvFault) {
    let mut source = text.as_bytes();
    let mut sink = CutSink::<1024>::new(1024);
    let found = from_csv(alloc, &mut source, &mut sink);
    equal(rt, &found, &Err(fault));
    assert!(rt; sink.bytes().is_empty());
}

/// Asserts that a text gives these bytes.
fn give(rt: &impl Abort, alloc: Global, text: &str, bytes: &[u8]) {
    let mut source = text.as_bytes();
    let mut sink = CutSink::<1024>::new(1024);
    equal(rt, &from_csv(alloc, &mut source, &mut sink), &Ok(()));
    equal(rt, &sink.bytes(), &bytes);
}

/// Asserts the fault of a text with one part replaced by another.
fn refuse_part(rt: &impl Abort, alloc: Global, text: &str, old: &str, new: &str, fault: CsvFault) {
    let (front, back) = text.split_once(old).expect(rt, "such a part");
    let changed = format!(in alloc; "{front}{new}{back}").expect(rt, "memory");
    refuse(rt, alloc, changed.as_str(), fault);
}

#[test]
fn a_quoted_text(rt: HostRuntime) {
    give(&rt, rt.alloc(), QUOTED_TEXT, &QUOTED);
}

#[test]
fn other_spellings(rt: HostRuntime) {
    let returns = "row,a,b,c,d,e,f\r\nfile,14,32,0,sum,,\r\n\r\nend,,,,,,";
    let quoted =
        "\"row\",\"a\",\"b\",\"c\",\"d\",\"e\",\"f\"\n\"file\",\"14\",\"32\",\"0\",\"sum\",\"\",\"\"\n\"end\",\"\",\"\",\"\",\"\",\"\",\"\"\n";
    let marked = "\u{FEFF}row,a,b,c,d,e,f\nfile,14,32,0,sum,,\nend,,,,,,\n";
    for text in [returns, quoted, marked] {
        give(&rt, rt.alloc(), text, &EMPTY);
    }
}

#[test]
fn cells_refused(rt: HostRuntime) {
    for (text, old, new, row, column) in [
        (BOTH_ORDERS_TEXT, ",0.0,", ",0.3,", 13, 3),
        (BOTH_ORDERS_TEXT, "altitude", "altitud", 13, 2),
        (BOTH_ORDERS_TEXT, "data,0,", "data,3,", 6, 2),
        (BOTH_ORDERS_TEXT, "data,1,2,", "data,1,32,", 12, 3),
        (BOTH_ORDERS_TEXT, "47:14Z", "47:15Z", 12, 5),
        (
            BOTH_ORDERS_TEXT,
            "heart_rate,120,bpm",
            "heart_rate,120,rpm",
            8,
            4,
        ),
        (BOTH_ORDERS_TEXT, "fdef,253,", "fdef,0253,", 4, 2),
        (BOTH_ORDERS_TEXT, "file,14,", "file,13,", 2, 2),
        (BOTH_ORDERS_TEXT, ",sum,", ",none,", 2, 5),
        // The bytes after the fourteenth are as many as the length of the header says.
        (LONG_TEXT, "0x4142", "0x41", 2, 6),
        (LONG_TEXT, "file,16", "file,14", 2, 6),
    ] {
        let fault = CsvFault::BadCell { row, column };
        refuse_part(&rt, rt.alloc(), text, old, new, fault);
    }
}

#[test]
fn rows_refused(rt: HostRuntime) {
    for (text, fault) in [
        ("", CsvFault::Header),
        ("row,a,b,c,d,e\n", CsvFault::Header),
        ("row,a,b,c,d,e,f\n", CsvFault::BadRow { row: 2 }),
    ] {
        refuse(&rt, rt.alloc(), text, fault);
    }
    let end = "end,,,,,,\n";
    let twice = "end,,,,,,\nend,,,,,,\n";
    for (text, old, new, row) in [(BOTH_ORDERS_TEXT, end, "", 15), (EMPTY_TEXT, end, twice, 4)] {
        refuse_part(&rt, rt.alloc(), text, old, new, CsvFault::BadRow { row });
    }
}

#[test]
fn files_refused(rt: HostRuntime) {
    let zeros = "row,a,b,c,d,e,f\nfile,14,32,46477,zero,,\nend,,,,,,\n";
    let fault = CsvFault::Encode(EncodeFault::ZeroIsSum { file: 1 });
    refuse(&rt, rt.alloc(), zeros, fault);
}
