//! Sums that are known from outside.
use crate::asserts::{equal, equal_at};
use fit_sum::{Sum, checksum_of};

// What catalogues of checksums give for this text.
#[test]
fn nine_digits(rt: HostRuntime) {
    let mut one_by_one = Sum::new();
    for byte in b"123456789" {
        one_by_one.add(*byte);
    }
    equal(&rt, &one_by_one.value(), &0xBB3D);

    let mut together = Sum::new();
    together.add_all(b"123456789");
    equal(&rt, &together.value(), &0xBB3D);

    together.clear();
    together.add_all(b"123456789");
    equal(&rt, &together.value(), &0xBB3D);

    equal(&rt, &checksum_of(b"1234", b"56789"), &0xBB3D);
}

// The expected sums were computed by a Python program, one nibble at a time by the table that the
// FIT protocol prints.
#[test]
fn five_thousand_bytes_in_pieces(rt: HostRuntime) {
    let mut bytes = [0; 5000];
    for i in 0..5000 {
        bytes[i] = ((37 * i + 11) % 256) as u8;
    }
    for (len, expected) in [
        (7, 0x4409),
        (128, 0x61E8),
        (257, 0x95D0),
        (999, 0xED3E),
        (1000, 0x3CED),
        (2048, 0x623B),
        (2049, 0x1462),
        (5000, 0x4D06),
    ] {
        let mut whole = Sum::new();
        whole.add_all(&bytes[..len]);
        equal_at(&rt, &whole.value(), &expected, &len);

        for size in [1, 3, 8, 100, 128, 300, 1023, 1024, 1500, 2049] {
            let mut sum = Sum::new();
            for piece in bytes[..len].chunks(size) {
                sum.add_all(piece);
            }
            equal_at(&rt, &sum.value(), &expected, &(len, size));
        }
    }
}
