//! Files and chains checked.

use crate::tests::{
    DEVELOPER_FIELD, EMPTY, EMPTY_WITH_ZEROS, LONG, ONE_BYTE_MESSAGE, SHORT, TRUE_ZERO,
    TWO_MESSAGES, add_bytes, answer_of, bytes_of, chain_of, expect, expect_of,
};
use fit_run::Command;
use std::alloc::Global;
use std::process::Abort;

const EMPTY_IS_GOOD: &str = "file 1: 0 data bytes, 0 records\nok\n";

/// Asserts what `check` writes of some bytes. No fault line comes.
fn check(rt: &impl Abort, alloc: Global, bytes: &[u8], output: &str, status: u8) {
    let mut source = bytes;
    let answer = answer_of(alloc, Command::Check, &mut source, 2048);
    expect(rt, &answer, output, output.as_bytes(), "", status);
}

#[test]
fn good_files(rt: HostRuntime) {
    for (input, output) in [
        (EMPTY, EMPTY_IS_GOOD),
        (EMPTY_WITH_ZEROS, EMPTY_IS_GOOD),
        (SHORT, EMPTY_IS_GOOD),
        (LONG, EMPTY_IS_GOOD),
        (TRUE_ZERO, EMPTY_IS_GOOD),
        (ONE_BYTE_MESSAGE, "file 1: 7 data bytes, 2 records\nok\n"),
        (
            "0E 20 00 00 07 00 00 00 2E 46 49 54 DD 63 40 07 00 14 00 00 00 45 83",
            "file 1: 7 data bytes, 2 records\nok\n",
        ),
        (TWO_MESSAGES, "file 1: 36 data bytes, 4 records\nok\n"),
        (DEVELOPER_FIELD, "file 1: 54 data bytes, 7 records\nok\n"),
    ] {
        expect_of(&rt, rt.alloc(), Command::Check, input, output, "", 0);
    }
}

/// Files without records whose header or checksum is refused, and what `check` writes of them.
const REFUSED: [(&str, &str); 11] = [
    ("0B", "refused at byte 0: HeaderSize\n"),
    (
        "0D 20 00 00 00 00 00 00 2E 46 49 54 9C 85 00 00",
        "refused at byte 0: HeaderSize\n",
    ),
    (
        "0E 30 00 00 00 00 00 00 2E 46 49 54 9C 85 00 00",
        "refused at byte 1: Protocol\n",
    ),
    (
        "0E 20 00 00 03 00 00 00 2E 46 49 54 00 00",
        "refused at byte 7: NoFit\n",
    ),
    (
        "0E 20 00 00 00 00 00 00 2F 46 49 54 9C 85 00 00",
        "refused at byte 8: Signature\n",
    ),
    (
        "0E 20 00 00 00 00 00 00 2E 46 49 54 9D 85 00 00",
        "refused at byte 12: HeaderSum\n",
    ),
    (
        "0E 20 00 00 00 00 00 00 2E 46 49 54 9C 00 00 00",
        "refused at byte 13: HeaderSum\n",
    ),
    (
        "0E 20 00 00 00 00 00 00 2E 46 49 54 00 85 00 00",
        "refused at byte 13: HeaderSum\n",
    ),
    (
        "0E 20 00 00 00 00 00 00 2E 46 49 54 9C 85 01 00",
        "refused at byte 14: FileSum\n",
    ),
    (
        "0E 20 00 00 00 00 00 00 2E 46 49 54 9C 85 00 01",
        "refused at byte 15: FileSum\n",
    ),
    (
        "0C 20 00 00 00 00 00 00 2E 46 49 54 65 43",
        "refused at byte 13: FileSum\n",
    ),
];

#[test]
fn refused_headers_and_sums(rt: HostRuntime) {
    for (input, output) in REFUSED {
        expect_of(&rt, rt.alloc(), Command::Check, input, output, "", 1);
    }
}

/// Asserts what `check` writes of a header of 14 bytes with zeros for its sum, that announces that many bytes, and these bytes after it.
fn check_announced(rt: &impl Abort, alloc: Global, size: u8, data: &[&str], output: &str) {
    let mut head = *b"\x0E\x20\0\0\0\0\0\0.FIT\0\0";
    head[4] = size;
    let mut bytes = Vec::from_slice(alloc, &head).expect(rt, "memory");
    for text in data {
        add_bytes(rt, &mut bytes, text);
    }
    check(rt, alloc, bytes.as_slice(), output, 1);
}

#[test]
fn bytes_that_can_follow(rt: HostRuntime) {
    for (size, data, output) in [
        (0, "", "truncated at byte 14\n"),
        (6, "", "truncated at byte 14\n"),
        // One byte is left, and messages of one byte fill it.
        (10, "40 00 00 14 00 01 05 00", "truncated at byte 22\n"),
        // Three bytes are left for messages of four: a developer field takes them.
        (
            13,
            "60 00 00 14 00 01 08 03 0D 01",
            "truncated at byte 24\n",
        ),
        // The second size can be 0, and messages of one byte fill the last byte.
        (13, "40 00 00 14 00 02 05 00", "truncated at byte 22\n"),
        (
            16,
            "40 00 00 14 00 00 40 00 00 14 00 01 05 00",
            "truncated at byte 28\n",
        ),
        // The earlier messages of one byte stay.
        (
            16,
            "40 00 00 14 00 00 41 00 00 14 00 01 05 01",
            "truncated at byte 28\n",
        ),
    ] {
        check_announced(&rt, rt.alloc(), size, &[data], output);
    }
}

#[test]
fn bytes_that_cannot_follow(rt: HostRuntime) {
    let one = "40 00 00 14 00 01 05";
    let two = "40 00 00 14 00 02 05";
    let three = "40 00 00 14 00 01 08 03 0D";
    let long = "40 00 00 14 00 01 08 13 0D";
    let dev = "60 00 00 14 00 01 08 03 0D";
    let again = "40 00 00 14 00 00 40 00 00 14 00 01 05";
    for (size, data, last, output) in [
        (8, "40 00 00 14 00", "01", "refused at byte 19: Overrun\n"),
        // One byte would be left, and messages would have three.
        (10, one, "02", "refused at byte 21: NoFit\n"),
        (13, dev, "00", "refused at byte 23: NoFit\n"),
        (13, dev, "02", "refused at byte 23: Overrun\n"),
        // Messages of 20 bytes where 10 are left.
        (19, long, "00", "refused at byte 23: Overrun\n"),
        (19, long, "01", "refused at byte 23: UndefinedLocal\n"),
        (19, long, "50", "refused at byte 23: ReservedBit\n"),
        (19, long, "20", "refused at byte 23: ReservedBit\n"),
        // Messages of four bytes where 7 are left.
        (16, three, "00", "refused at byte 23: NoFit\n"),
        (6, "40 00", "02", "refused at byte 16: Architecture\n"),
        (13, two, "01", "refused at byte 21: NoFit\n"),
        // The earlier messages of one byte are replaced.
        (16, again, "01", "refused at byte 27: NoFit\n"),
    ] {
        check_announced(&rt, rt.alloc(), size, &[data, last], output);
    }
}

/// Asserts what `check` writes of all first bytes of some, from that many on: that the files before them are good, and that a file is cut.
fn check_cut(rt: &impl Abort, alloc: Global, bytes: &[u8], from: usize, good: &str) {
    for k in from..bytes.len() {
        let lines = format!(in alloc; "{good}truncated at byte {k}\n").expect(rt, "memory");
        check(rt, alloc, &bytes[..k], lines.as_str(), 1);
    }
}

#[test]
fn cut_files(rt: HostRuntime) {
    for input in [
        EMPTY,
        EMPTY_WITH_ZEROS,
        SHORT,
        LONG,
        ONE_BYTE_MESSAGE,
        TWO_MESSAGES,
        DEVELOPER_FIELD,
    ] {
        let bytes = bytes_of(&rt, rt.alloc(), input);
        check_cut(&rt, rt.alloc(), bytes.as_slice(), 0, "");
    }
}

#[test]
fn cut_chains(rt: HostRuntime) {
    let bytes = chain_of(&rt, rt.alloc(), &[TWO_MESSAGES, DEVELOPER_FIELD]);
    let first = "file 1: 36 data bytes, 4 records\n";
    check_cut(&rt, rt.alloc(), bytes.as_slice(), 53, first);
    let front = bytes.as_slice().get(..52).expect(&rt, "a file");
    let lines = "file 1: 36 data bytes, 4 records\nok\n";
    check(&rt, rt.alloc(), front, lines, 0);
}

#[test]
fn changed_sums(rt: HostRuntime) {
    for bit in 0..16u8 {
        let mut bytes = bytes_of(&rt, rt.alloc(), EMPTY);
        let place = 14 + usize::from(bit / 8);
        if let Some(byte) = bytes.as_mut_slice().get_mut(place) {
            *byte ^= 1 << (bit % 8);
        }
        let line = format!(in rt.alloc(); "refused at byte {place}: FileSum\n");
        let line = line.expect(&rt, "memory");
        check(&rt, rt.alloc(), bytes.as_slice(), line.as_str(), 1);
    }
}

#[test]
fn chains(rt: HostRuntime) {
    for (inputs, output, status) in [
        (
            [ONE_BYTE_MESSAGE, TWO_MESSAGES, EMPTY],
            "file 1: 7 data bytes, 2 records\nfile 2: 36 data bytes, 4 records\nfile 3: 0 data bytes, 0 records\nok\n",
            0,
        ),
        // The definition of the first file isn't one of the second.
        (
            [
                ONE_BYTE_MESSAGE,
                "0E 20 00 00 07 00 00 00 2E 46 49 54 DD 63",
                "00",
            ],
            "file 1: 7 data bytes, 2 records\nrefused at byte 37: UndefinedLocal\n",
            1,
        ),
        (
            [EMPTY, "FF", ""],
            "file 1: 0 data bytes, 0 records\ntruncated at byte 17\n",
            1,
        ),
        (
            [EMPTY, "0D", "FF"],
            "file 1: 0 data bytes, 0 records\nrefused at byte 16: HeaderSize\n",
            1,
        ),
    ] {
        let bytes = chain_of(&rt, rt.alloc(), &inputs);
        check(&rt, rt.alloc(), bytes.as_slice(), output, status);
    }
}
