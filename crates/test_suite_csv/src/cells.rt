//! Cells and rows that are known from outside.

use crate::asserts::{equal, holds_at};
use csv::ByteRecord;
use fit_base::base_type::{
    BYTE, FLOAT32, FLOAT64, SINT8, SINT16, SINT64, STRING, UINT8, UINT16, UINT32, UINT64,
};
use fit_base::{Code, Items, has_shape, width_of};
use fit_cells::{RowWriter, row_text};
use fit_csv::{
    cell_items, cell_text, next_row, put_cell, put_row, row_reader, row_writer, rows_text,
};
use fit_profile::field_info;
use std::alloc::Global;
use std::process::Abort;
use test_known::protocol;

// fields of messages: what the profile says of them
const ALTITUDE: (u16, u8) = (protocol::RECORD, protocol::ALTITUDE);

const BATTERY_VOLTAGE: (u16, u8) = (protocol::DEVICE_INFO, protocol::BATTERY_VOLTAGE);

const HRV_TIME: (u16, u8) = (protocol::HRV, protocol::HRV_TIME);

const UNKNOWN: (u16, u8) = (protocol::RECORD, 200);

/// A field of this message and number, its code and size, its items, and their cell.
type Cell = ((u16, u8), u8, u8, &'static [u64], &'static str);

/// Asserts that the items have this cell, and that it gives them back.
fn is_cell(rt: &impl Abort, alloc: Global, cell: Cell) {
    let (field, code, size, numbers, text) = cell;
    let code = Code(code);
    let info = field_info(field.0, field.1);
    let items = Items::from_slice(alloc, width_of(code, size), numbers).expect(rt, "memory");
    assert!(rt; has_shape(code, size, &items), "at {text}");
    let cell = cell_text(alloc, code, info, &items).expect(rt, "memory");
    equal(rt, &cell.as_str(), &text);
    let read = cell_items(alloc, code, size, info, text).expect(rt, "memory");
    holds_at(rt, read == Some(items), &text);
}

#[test]
fn numbers(rt: HostRuntime) {
    let cells: [Cell; 6] = [
        (ALTITUDE, UINT16, 2, &[2500], "0.0"),
        (ALTITUDE, UINT16, 2, &[2499], "-0.2"),
        (ALTITUDE, UINT16, 2, &[65535], ""),
        (HRV_TIME, UINT16, 6, &[812, 65535, 0], "0.812||0.000"),
        (BATTERY_VOLTAGE, UINT16, 2, &[956], "3.73437500"),
        (
            UNKNOWN,
            SINT64,
            8,
            &[0x8000_0000_0000_0000],
            "-9223372036854775808",
        ),
    ];
    for cell in cells {
        is_cell(&rt, rt.alloc(), cell);
    }
}

#[test]
fn bytes_and_texts(rt: HostRuntime) {
    let cells: [Cell; 7] = [
        (UNKNOWN, 0x1F, 3, &[0x64, 0, 0x1A], "0x64001A"),
        (ALTITUDE, UINT16, 3, &[0x64, 0, 0x1A], "0x64001A"),
        (UNKNOWN, FLOAT32, 4, &[0xFFFF_FFFF], "0xFFFFFFFF"),
        (UNKNOWN, STRING, 3, &[0x6D, 0x6F, 0], "mo"),
        (UNKNOWN, STRING, 2, &[0x30, 0x78], "0x3078"),
        (UNKNOWN, STRING, 3, &[0x41, 0, 0x42], "0x410042"),
        (UNKNOWN, STRING, 0, &[], ""),
    ];
    for cell in cells {
        is_cell(&rt, rt.alloc(), cell);
    }
}

/// Lone numbers of eight bytes, two numbers each, floats, and texts of other characters.
#[test]
fn kinds_of_items(rt: HostRuntime) {
    let cells: [Cell; 11] = [
        (
            UNKNOWN,
            UINT64,
            8,
            &[0x8000_0000_0000_0001],
            "9223372036854775809",
        ),
        (UNKNOWN, SINT64, 8, &[0xFFFF_FFFF_FFFF_FFFE], "-2"),
        (UNKNOWN, UINT32, 8, &[4_294_967_294, 7], "4294967294|7"),
        (
            UNKNOWN,
            UINT64,
            16,
            &[18_446_744_073_709_551_614, 1],
            "18446744073709551614|1",
        ),
        (UNKNOWN, SINT16, 4, &[0x8000, 300], "-32768|300"),
        (UNKNOWN, FLOAT32, 4, &[0x3FC0_0000], "0x3FC00000"),
        (
            UNKNOWN,
            FLOAT32,
            8,
            &[0x3F80_0000, 0xBF00_0000],
            "0x3F800000|0xBF000000",
        ),
        (
            UNKNOWN,
            FLOAT64,
            8,
            &[0xC004_0000_0000_0000],
            "0xC004000000000000",
        ),
        (UNKNOWN, STRING, 4, &[0xC3, 0xA4, 0x62, 0], "\u{E4}b"),
        (UNKNOWN, STRING, 4, &[0x61, 0x2C, 0x62, 0], "a,b"),
        (UNKNOWN, STRING, 4, &[0x22, 0x78, 0x22, 0], "\"x\""),
    ];
    for cell in cells {
        is_cell(&rt, rt.alloc(), cell);
    }
}

#[test]
fn a_cell_after_a_text(rt: HostRuntime) {
    let code = Code(UINT16);
    let info = field_info(ALTITUDE.0, ALTITUDE.1);
    let items = Items::one(rt.alloc(), width_of(code, 2), 2499);
    assert!(rt; has_shape(code, 2, &items));
    let mut text = Vec::from_slice(rt.alloc(), b"12,").expect(&rt, "memory");
    assert!(rt; put_cell(&mut text, code, info, &items).is_ok());
    equal(&rt, &text.as_slice(), &b"12,-0.2".as_slice());
}

/// Asserts that this is the cell of no items of a field of this code and size.
fn is_nobodys(rt: &impl Abort, alloc: Global, field: (u16, u8), code: u8, size: u8, text: &str) {
    let info = field_info(field.0, field.1);
    let read = cell_items(alloc, Code(code), size, info, text).expect(rt, "memory");
    holds_at(rt, read.is_none(), &text);
}

#[test]
fn cells_of_nobody(rt: HostRuntime) {
    for (field, code, size, text) in [
        (UNKNOWN, STRING, 1, "0x41"),
        (UNKNOWN, STRING, 2, "0x4100"),
        (UNKNOWN, STRING, 3, "A\0"),
        (UNKNOWN, BYTE, 1, "0x4a"),
        (UNKNOWN, BYTE, 0, "0x"),
        (UNKNOWN, UINT8, 1, "256"),
        (UNKNOWN, UINT8, 1, "007"),
        (UNKNOWN, SINT8, 1, "127"),
        (UNKNOWN, UINT64, 8, "18446744073709551616"),
        (ALTITUDE, UINT16, 2, "-0.0"),
        (ALTITUDE, UINT16, 2, "0.3"),
        (ALTITUDE, UINT16, 2, "12607.0"),
    ] {
        is_nobodys(&rt, rt.alloc(), field, code, size, text);
    }
}

/// Two rows as text. The first has cells with a comma and a quote, and with a line feed.
fn text_of_rows(rt: &impl Abort, alloc: Global) -> Vec<u8> {
    let mut writer = row_writer(Vec::new(alloc));
    let first = put_row(&mut writer, &[b"dev", b"a,\"b", b"", b"x\ny"]);
    first.expect(rt, "memory");
    let second = put_row(&mut writer, &[b"end", b"", b"", b""]);
    second.expect(rt, "memory");
    rows_text(writer).expect(rt, "memory")
}

#[test]
fn a_row_alone(rt: HostRuntime) {
    let cells: [&[u8]; 4] = [b"dev", b"a,\"b", b"", b"x\ny"];
    let text = row_text(rt.alloc(), &cells).expect(&rt, "memory");
    equal(
        &rt,
        &text.as_slice(),
        &b"dev,\"a,\"\"b\",,\"x\ny\"\n".as_slice(),
    );
}

/// Asserts the bytes of the cell at a place of a row.
fn has_cell(rt: &impl Abort, row: &ByteRecord, place: usize, bytes: &[u8]) {
    match row.get(place) {
        Some(found) => equal(rt, &found, &bytes),
        None => assert!(rt; false),
    }
}

#[test]
fn rows_both_ways(rt: HostRuntime) {
    let text = text_of_rows(&rt, rt.alloc());
    equal(
        &rt,
        &text.as_slice(),
        &b"dev,\"a,\"\"b\",,\"x\ny\"\nend,,,\n".as_slice(),
    );
    let mut reader = row_reader(rt.alloc(), text.as_slice());
    let mut row = ByteRecord::new(rt.alloc());
    assert!(rt; next_row(&mut reader, &mut row).expect(&rt, "memory"));
    has_cell(&rt, &row, 1, b"a,\"b");
    has_cell(&rt, &row, 3, b"x\ny");
    assert!(rt; next_row(&mut reader, &mut row).expect(&rt, "memory"));
    equal(&rt, &row.len(), &4);
    assert!(rt; !next_row(&mut reader, &mut row).expect(&rt, "memory"));
}

/// Rows of other lengths than the first one's are read as they are.
#[test]
fn rows_of_any_length(rt: HostRuntime) {
    let mut reader = row_reader(rt.alloc(), b"a,b,c\nd\ne,f,g,h,i,j,k,l\n,\n");
    let mut row = ByteRecord::new(rt.alloc());
    for cells in [3, 1, 8, 2] {
        assert!(rt; next_row(&mut reader, &mut row).expect(&rt, "memory"));
        equal(&rt, &row.len(), &cells);
    }
    assert!(rt; !next_row(&mut reader, &mut row).expect(&rt, "memory"));
}

/// Rows of 2, 1 and 3 cells, a cell alone, and a row of 2.
fn rows_and_a_cell(rt: &impl Abort, alloc: Global) -> Vec<u8> {
    let mut writer = RowWriter::new(alloc);
    let mut text = Vec::new(alloc);
    let rows: [&[&[u8]]; 2] = [&[b"a", b"b,c"], &[b"d"]];
    for row in rows {
        writer.put(&mut text, row).expect(rt, "memory");
    }
    let cells: [&[u8]; 3] = [b"e\"f", b"", b"g"];
    for cell in cells {
        writer.put_lone(&mut text, cell).expect(rt, "memory");
    }
    text.push(b',').expect(rt, "memory");
    let row: [&[u8]; 3] = [b"h\n", b"i", b""];
    writer.put(&mut text, &row).expect(rt, "memory");
    text
}

#[test]
fn rows_and_lone_cells(rt: HostRuntime) {
    let text = rows_and_a_cell(&rt, rt.alloc());
    let wanted = b"a,\"b,c\"\nd\n\"e\"\"f\"g,\"h\n\",i,\n";
    assert!(rt; text.as_slice() == wanted.as_slice());
}
