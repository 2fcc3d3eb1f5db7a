//! Chains of files and their texts, which are known from outside.
ghost use Rattle.std.specs.Prelude.{Some, false};

use crate::asserts::equal;
use fit_csv::{table, to_csv};
use fit_decode::{Source, SourceFailed};
use fit_encode::CutSink;
use std::alloc::Global;
use std::process::Abort;
use test_known::{EMPTY, ONE_BYTE_MESSAGE, TABLE_HEAD};

/// A product name with a comma and a quote.
pub(crate) const QUOTED: [u8; 31] =
    *b"\x0E\x20\0\0\x0F\0\0\0.FIT\xDC\xC5\x40\0\0\0\0\x01\x08\x05\x07\0a,\"b\0\xFC\xF8";

pub(crate) const QUOTED_TEXT: &str =
    "row,a,b,c,d,e,f\nfile,14,32,0,sum,,\ndef,0,0,little,0,1,\nfdef,8,5,7,,,\ndata,0,,file_id,,,\nfield,product_name,\"a,\"\"b\",,,,\nend,,,,,,\n";

#[test]
fn a_quoted_text(rt: HostRuntime) {
    let mut source = QUOTED.as_slice();
    let mut sink = CutSink::<1024>::new(1024);
    equal(&rt, &to_csv(rt.alloc(), &mut source, &mut sink), &Ok(()));
    equal(&rt, &sink.bytes(), &QUOTED_TEXT.as_bytes());
}

/// Positions, enhanced and accumulated values, and invalid ones.
const PLACES: [u8; 151] =
    *b"\x0E \0\0\x87\0\0\0.FIT\xD5\x03@\0\0\x14\0\x0B\0\x04\x85\x01\x04\x85\x02\x02\x84N\x04\x86\x05\x04\x86\x06\x02\x84I\x04\x86\x08\x03\x0D\x04\x01\x02\x07\x02\x84\x0D\x01\x01\0\0\0 \0\0\0\xE0\xFF\xC4\x09\xB8\x0B\0\090\0\0\xDC\x05\xC4\x09\0\0d\0\x10P\xFA\0\xFD\0\xFF\xFF\xFF\x7F\x03\0\0\0\xC3\x09\xFF\xFF\xFF\xFF\xFF\xFF\xFF\xFF\xDC\x05\xFF\xFF\xFF\xFFd\0\0\xFF\xFF\xFF\x7F\0\x01\0\0\0\0\0\0\x80\xFF\xFF\xFF\xFF\xFF\xFF\xFF\xFF\xFF\xFF\xFF\xFF\xFF\xFF\xFF\xFF\xFF\xFF\xFF\0\0\0\0\x80F";

const PLACES_ROWS: &str =
    "1,,0.1757813,-0.1757813,100.0,123.45,2.500,,80,250,-3\n1,,,0.0000003,-0.2,256.0000,1.500,,,,\n1,,0.0000001,-180.0000000,,,,,0,0,0\n";

/// Record messages in both byte orders. Three have every column: with all values valid, with plain altitude and speed alone, and with
/// few valid values. One has a float, a number of eight bytes, several altitudes, a text as cadence and two heart rates. Two have arrays,
/// and one of these a size that is no multiple of the width, a field without items and a position of another base type. Three have
/// compressed_speed_distance, and the last has a compressed header.
const RIDES: [u8; 339] =
    *b"\x0E \0\0C\x01\0\0.FIT\xC8`@\0\x01\0\x14\x0C\xFD\x04\x86\0\x04\x85\x01\x04\x85N\x04\x86\x02\x02\x84\x05\x04\x86I\x04\x86\x06\x02\x84\x03\x01\x02\x04\x01\x02\x07\x02\x84\x0D\x01\x01\0;\x9A\xCA\0\0 \0\0\xFF\xE0\0\0\0\0\x0B\xB8\x09\xC4\0\009\0\0\x09\xC4\x09\xC3\x8CP\0\xFA\xFD\0;\x9A\xCA\x01\x7F\xFF\xFF\xFF\0\0\0\x01\xFF\xFF\xFF\xFF\x09\xC4\xFF\xFF\xFF\xFF\xFF\xFF\xFF\xFF\x05\xDC\xFF\0\xFF\xFF\x7F\0\xFF\xFF\xFF\xFF\x80\0\0\0\x7F\xFF\xFF\xFF\xFF\xFF\xFF\xFF\xFF\xFF\0\0\0\0\xFF\xFF\xFF\xFF\xFF\xFF\0\xFF\0\0\x80A\0\0\x15\0\x02\xFD\x04\x86\0\x01\0\x01\x02\xCA\x9A;\x03B\0\0\x14\0\x06\x05\x04\x88\x07\x08\x8F\x02\x06\x84\x04\x02\x07\x03\x01\x02\x03\x01\x02\x02\0\0\xC0?,\x01\0\0\0\0\0\0(\x0A\x01\0\x02\09\0[\\C\0\0\x14\0\x06\x02\x06\x84\x0D\x02\x01\x07\x03\x84\x04\0\x02\0\x04\x86\x03\x01\x02\x03\xFF\xFF(\x0A(\x0A\x15\x16\x01\0\0\0\0 \0]D\0\x01\0\x14\x03\x02\x06\x84\x0D\x02\x01\x03\x02\x02\x04\x09\xC9\xFF\xFF\xFF\xFF\xFF\x05^\xFFE\0\x01\0\x14\x03\x08\x03\x0D\x06\x02\x84\x03\x01\x02\x05d\0\x10\xFF\xFF_\x05\xFF\xFF\xFF\x07\xD0`\x05\xC8\x10\0\xFF\xFFaC\0\0\x14\0\x01\x03\x01\x02\xE4b\xA6\xE2";

const RIDES_ROWS: &str =
    "1,2021-09-08T01:46:40Z,0.1757813,-0.1757813,100.0,123.45,2.500,140,80,250,-3\n1,2021-09-08T01:46:41Z,,0.0000001,0.0,,1.500,,0,,\n1,,-180.0000000,,,0.00,,0,,0,-128\n1,,,,20.0,,,91,,300,\n1,,,,,,,93,,,21\n1,,,,1.0,,,94,,,-1\n1,,,,,16.0000,1.00,95,,,\n1,,,,,,2.000,96,,,\n1,,,,,256.0625,2.00,97,,,\n1,2021-09-08T01:46:44Z,,,,,,98,,,\n";

/// Gives the bytes of a slice one by one.
#[derive(Drop)]
struct OneByOne<'a> {
    rest: &'a [u8],
}

impl<'a> Source for OneByOne<'a> {
    ghost remaining = { λ s. Some s.rest.now };

    ghost has_failed = { λ s. false };

    fn take(&mut self, buffer: &mut [u8]) -> Result<usize, SourceFailed> {
        let n = buffer.len().min(1);
        Source::take(&mut self.rest, &mut buffer[..n])
    }

    fn failed(&self) -> bool {
        false
    }
}

/// Asserts that the table of the bytes of a source has these rows after its first line.
fn gives_table<S: Source>(rt: &impl Abort, alloc: Global, source: &mut S, rows: &str) {
    let mut sink = CutSink::<1024>::new(1024);
    equal(rt, &table(alloc, source, &mut sink), &Ok(()));
    let text = sink.bytes();
    let (head, rest) = text.split_at(TABLE_HEAD.len().min(text.len()));
    equal(rt, &head, &TABLE_HEAD.as_bytes());
    equal(rt, &rest, &rows.as_bytes());
}

/// Asserts that the table of a chain has these rows after its first line, whether the chain comes in one piece or byte by byte.
fn has_table(rt: &impl Abort, alloc: Global, bytes: &[u8], rows: &str) {
    let mut whole = bytes;
    gives_table(rt, alloc, &mut whole, rows);
    let mut single = OneByOne { rest: bytes };
    gives_table(rt, alloc, &mut single, rows);
}

#[test]
fn tables(rt: HostRuntime) {
    let alloc = rt.alloc();
    let mut chain = Vec::from_slice(alloc, &EMPTY).expect(&rt, "memory");
    assert!(rt; chain.extend_from_slice(&ONE_BYTE_MESSAGE).is_ok());
    has_table(&rt, alloc, chain.as_slice(), "2,,,,,,,,,,\n");
    has_table(&rt, alloc, &PLACES, PLACES_ROWS);
    has_table(&rt, alloc, &RIDES, RIDES_ROWS);
}
