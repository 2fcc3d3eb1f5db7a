//! Hexadecimal digits that are written in place.
use crate::asserts::equal;
use fit_cells::{write_bytes, write_float};

#[test]
fn bytes_in_place(rt: HostRuntime) {
    let mut row = *b"................";
    equal(&rt, &write_bytes(&mut row, 3, &[0x00, 0xFF, 0x1A]), &11);
    equal(&rt, &row, b"...0x00FF1A.....");
    equal(&rt, &write_bytes(&mut row, 1, &[]), &3);
    equal(&rt, &row, b".0x0x00FF1A.....");
    equal(&rt, &write_bytes(&mut row, 12, &[0xC9]), &16);
    equal(&rt, &row, b".0x0x00FF1A.0xC9");
}

/// The bits of 1.5 of four bytes, and of -2.5 of eight.
#[test]
fn floats_in_place(rt: HostRuntime) {
    let mut row = *b"..............";
    equal(&rt, &write_float(&mut row, 1, 4, 0x3FC0_0000), &11);
    equal(&rt, &row, b".0x3FC00000...");
    let mut row = *b"....................";
    equal(
        &rt,
        &write_float(&mut row, 0, 8, 0xC004_0000_0000_0000),
        &18,
    );
    equal(&rt, &row, b"0xC004000000000000..");
}
