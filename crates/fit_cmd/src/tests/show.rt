//! Files shown.

use crate::tests::{
    DEVELOPER_FIELD, DEVELOPER_FIELD_SHOWN, EMPTY_WITH_ZEROS, LONG, SHORT, TWO_MESSAGES,
    TWO_MESSAGES_SHOWN, expect_of,
};
use fit_run::Command;
use std::alloc::Global;
use std::process::Abort;

/// A file_id message whose product_name is `m` and a line feed.
const LINE_FEED: &str =
    "0E 20 00 00 0D 00 00 00 2E 46 49 54 00 00 40 00 00 00 00 01 08 03 07 00 6D 0A 00 14 A7";

/// A message that isn't listed with an invalid timestamp, two invalid times of hrv, and a record in system time.
const UNUSUAL: &str =
    "0E 20 00 00 33 00 00 00 2E 46 49 54 DF 84 40 00 00 E7 03 03 FD 04 86 07 02 84 FE 01 02 \
     00 FF FF FF FF 01 02 01 41 00 00 4E 00 01 00 04 84 01 FF FF FF FF \
     42 00 00 14 00 01 FD 04 86 02 FF FF FF 0F AF 21";

/// Records at times of the same minute and of others, some in system time, which ends within a minute.
const TIMES: &str =
    "0E 20 00 00 2C 00 00 00 2E 46 49 54 00 00 40 00 00 14 00 01 FD 04 86 00 1F CA 9A 3B 00 \
     4F CA 9A 3B 00 50 CA 9A 3B 00 FF FF FF 0F 00 00 00 00 10 00 02 00 00 10 00 1F CA 9A 3B \
     1F 41";

/// Between the first two cells of a record stand 40 bytes, where the first isn't empty.
const LONG_NAMES: &str =
    "0E 20 00 00 21 00 00 00 2E 46 49 54 00 00 40 00 00 14 00 03 00 04 85 08 03 0D 03 01 02 \
     00 05 00 00 00 64 00 10 78 00 FF FF FF 7F FF FF FF FF A3 45";

/// A developer field that is described anew with other names and units, each time before two records.
const RENAMED: &str =
    "0E 20 00 00 D9 00 00 00 2E 46 49 54 00 00 40 00 00 CE 00 05 00 01 02 01 01 02 02 01 02 \
     03 03 07 08 02 07 00 00 05 84 61 61 00 6D 00 61 00 00 14 00 00 01 05 02 00 01 07 00 01 \
     FF FF 40 00 00 CE 00 05 00 01 02 01 01 02 02 01 02 03 03 07 08 02 07 00 00 05 84 61 62 \
     00 6D 00 61 00 00 14 00 00 01 05 02 00 01 07 00 01 FF FF 40 00 00 CE 00 05 00 01 02 01 \
     01 02 02 01 02 03 03 07 08 02 07 00 00 05 84 61 62 00 73 00 61 00 00 14 00 00 01 05 02 \
     00 01 07 00 01 FF FF 40 00 00 CE 00 05 00 01 02 01 01 02 02 01 02 03 25 07 08 01 07 00 \
     00 05 84 61 20 6E 61 6D 65 20 6F 66 20 6D 6F 72 65 20 74 68 61 6E 20 74 68 69 72 74 79 \
     2D 74 77 6F 20 62 79 74 65 73 00 00 61 00 00 14 00 00 01 05 02 00 01 07 00 01 FF FF DD \
     B3";

/// Strings of four bytes, of which some can't be shown as text.
const STRINGS: &str =
    "0E 20 00 00 31 00 00 00 2E 46 49 54 00 00 40 00 00 00 00 01 08 04 07 00 61 62 63 00 00 \
     61 0A 62 63 00 FF FE FD FC 00 C3 A4 62 00 00 00 00 00 00 00 64 00 65 00 00 30 78 31 00 \
     00 7F 61 62 00 CE 76";

#[test]
fn good_files(rt: HostRuntime) {
    for (input, output) in [
        (TWO_MESSAGES, TWO_MESSAGES_SHOWN),
        (DEVELOPER_FIELD, DEVELOPER_FIELD_SHOWN),
        (
            EMPTY_WITH_ZEROS,
            "file 1: header 14, protocol 32, profile 0, data 0, zero\nok\n",
        ),
        (
            SHORT,
            "file 1: header 12, protocol 32, profile 0, data 0, none\nok\n",
        ),
        (
            LONG,
            "file 1: header 16, protocol 32, profile 0, data 0, sum\nok\n",
        ),
        (
            LINE_FEED,
            "file 1: header 14, protocol 32, profile 0, data 13, zero\n  define 0 file_id little 1 0\n  \
             0 file_id: product_name=0x6D0A00\nok\n",
        ),
        (
            UNUSUAL,
            "file 1: header 14, protocol 32, profile 0, data 51, sum\n  define 0 message_999 little 3 0\n  \
             0 message_999: timestamp=, field_7=513, field_254=1\n  define 1 hrv little 1 0\n  1 hrv: time=| s\n  \
             define 2 record little 1 0\n  2 record system+268435455: timestamp=268435455 s\nok\n",
        ),
    ] {
        expect_of(&rt, rt.alloc(), Command::Show, input, output, "", 0);
    }
}

#[test]
fn later_messages(rt: HostRuntime) {
    for (input, output) in [
        (
            TIMES,
            "file 1: header 14, protocol 32, profile 0, data 44, zero\n  define 0 record little 1 0\n  \
             0 record 2021-09-08T01:47:11Z: timestamp=1000000031 s\n  \
             0 record 2021-09-08T01:47:59Z: timestamp=1000000079 s\n  \
             0 record 2021-09-08T01:48:00Z: timestamp=1000000080 s\n  \
             0 record system+268435455: timestamp=268435455 s\n  \
             0 record 1998-07-03T21:24:16Z: timestamp=268435456 s\n  \
             0 record 1998-07-03T21:24:18Z: timestamp=268435458 s\n  \
             0 record 2021-09-08T01:47:11Z: timestamp=1000000031 s\nok\n",
        ),
        (
            LONG_NAMES,
            "file 1: header 14, protocol 32, profile 0, data 33, zero\n  define 0 record little 3 0\n  \
             0 record: position_lat=5 semicircles, compressed_speed_distance=0x640010, heart_rate=120 bpm\n  \
             0 record: position_lat=, compressed_speed_distance=0xFFFFFF, heart_rate=\nok\n",
        ),
        (
            STRINGS,
            "file 1: header 14, protocol 32, profile 0, data 49, zero\n  define 0 file_id little 1 0\n  \
             0 file_id: product_name=abc\n  0 file_id: product_name=0x610A6263\n  \
             0 file_id: product_name=0xFFFEFDFC\n  0 file_id: product_name=\u{E4}b\n  \
             0 file_id: product_name=\n  0 file_id: product_name=0x64006500\n  \
             0 file_id: product_name=0x30783100\n  0 file_id: product_name=0x7F616200\nok\n",
        ),
    ] {
        expect_of(&rt, rt.alloc(), Command::Show, input, output, "", 0);
    }
}

/// Adds some words to a text.
fn add(rt: &impl Abort, text: &mut String, words: &[&str]) {
    for word in words {
        text.push_str(word).expect(rt, "memory");
    }
}

/// What is shown of `RENAMED`.
fn renamed(rt: &impl Abort, alloc: Global) -> String {
    let mut output = String::new(alloc);
    let head = "file 1: header 14, protocol 32, profile 0, data 217, zero\n";
    add(rt, &mut output, &[head]);
    let described = "  define 0 field_description little 5 0\n  0 field_description: \
                     developer_data_index=0, field_definition_number=5, fit_base_type_id=132, ";
    for (name, unit) in [
        ("aa", "m"),
        ("ab", "m"),
        ("ab", "s"),
        ("a name of more than thirty-two bytes", ""),
    ] {
        let words = [described, "field_name=", name, ", units=", unit];
        add(rt, &mut output, &words);
        let space = if unit.is_empty() { "" } else { " " };
        let defined = "\n  define 1 record little 0 1\n  1 record: ";
        add(rt, &mut output, &[defined, name, "=7", space, unit]);
        add(rt, &mut output, &["\n  1 record: ", name, "=\n"]);
    }
    add(rt, &mut output, &["ok\n"]);
    output
}

#[test]
fn renamed_fields(rt: HostRuntime) {
    let output = renamed(&rt, rt.alloc());
    let output = output.as_str();
    expect_of(&rt, rt.alloc(), Command::Show, RENAMED, output, "", 0);
}

#[test]
fn refused_files(rt: HostRuntime) {
    for (input, output) in [
        ("0D", "refused at byte 0: HeaderSize\n"),
        // Messages of 20 bytes are defined, and one of another local type follows.
        (
            "0E 20 00 00 13 00 00 00 2E 46 49 54 00 00 40 00 00 14 00 01 08 13 0D 01",
            "file 1: header 14, protocol 32, profile 0, data 19, zero\n  define 0 record little 1 0\n\
             refused at byte 23: UndefinedLocal\n",
        ),
        // The definition of the first file isn't one of the second.
        (
            "0E 20 00 00 07 00 00 00 2E 46 49 54 DD 63 40 00 00 14 00 00 00 44 34 \
             0E 20 00 00 07 00 00 00 2E 46 49 54 DD 63 00",
            "file 1: header 14, protocol 32, profile 0, data 7, sum\n  define 0 record little 0 0\n  0 record\n\
             file 2: header 14, protocol 32, profile 0, data 7, sum\nrefused at byte 37: UndefinedLocal\n",
        ),
    ] {
        expect_of(&rt, rt.alloc(), Command::Show, input, output, "", 1);
    }
}
