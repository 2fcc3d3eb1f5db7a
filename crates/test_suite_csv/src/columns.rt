//! Tables of record messages of which some columns hold no number.
use crate::asserts::equal;
use fit_csv::table;
use fit_encode::CutSink;
use test_known::TABLE_HEAD;

/// A record message of these fields, and the same with one more. By fields: an empty enhanced_altitude, which leaves the altitude, 2500,
/// to the next; an empty heart_rate and one of 120, of which the first counts; a power of 250 in floating point; a temperature in
/// letters; a cadence of two bytes an item in three; a position_lat without a sign and an empty position_long; a distance of 12345; and
/// in the second message a speed of 1500 in eight bytes. The closing checksum is that of another program.
const COLUMNS: [u8; 141] = *b"\x0E \x11\x08}\0\0\0.FITm\xA8\
    @\0\0\x14\0\x0AN\0\x86\x02\x02\x84\x03\0\x02\x03\x01\x02\x07\x04\x88\x0D\x02\x07\x04\x03\x84\0\x04\x86\x01\0\x85\x05\x04\x86\
    \0\xC4\x09x\0\0zC20P\0\0\x07\0\0\090\0\0\
    A\0\0\x14\0\x0BN\0\x86\x02\x02\x84\x03\0\x02\x03\x01\x02\x07\x04\x88\x0D\x02\x07\x04\x03\x84\0\x04\x86\x01\0\x85\x05\x04\x86\
    \x06\x08\x8F\
    \x01\xC4\x09x\0\0zC20P\0\0\x07\0\0\090\0\0\xDC\x05\0\0\0\0\0\0\
    \xC6\xBE";

/// The rows of its table: an altitude of 2500 / 5 - 500 m, a distance of 12345 / 100 m and a speed of 1500 / 1000 m/s.
const ROWS: &[u8] = b"1,,,,0.0,123.45,,,,,\n1,,,,0.0,123.45,1.500,,,,\n";

#[test]
fn columns_without_numbers(rt: HostRuntime) {
    let mut source = COLUMNS.as_slice();
    let mut sink = CutSink::<256>::new(256);
    equal(&rt, &table(rt.alloc(), &mut source, &mut sink), &Ok(()));
    let (head, rows) = sink
        .bytes()
        .split_at(TABLE_HEAD.len().min(sink.bytes().len()));
    equal(&rt, &head, &TABLE_HEAD.as_bytes());
    equal(&rt, &rows, &ROWS);
}
