//! Files as CSV text and back, and as a table.

use crate::tests::{
    DEVELOPER_FIELD, DEVELOPER_FIELD_TEXT, EMPTY, EMPTY_TEXT, EMPTY_WITH_ZEROS, LONG, LONG_TEXT,
    ONE_BYTE_MESSAGE, SHORT, TABLE_HEAD, TRUE_ZERO, TWO_MESSAGES, TWO_MESSAGES_TEXT, answer_of,
    both_ways, bytes_of, chain_of, expect, expect_of,
};
use fit_run::Command;

/// A product name with a comma and a quote.
const QUOTED: &str =
    "0E 20 00 00 0F 00 00 00 2E 46 49 54 DC C5 40 00 00 00 00 01 08 05 07 00 61 2C 22 62 00 FC F8";

#[test]
fn files_both_ways(rt: HostRuntime) {
    for (input, text) in [
        (EMPTY, EMPTY_TEXT),
        (
            EMPTY_WITH_ZEROS,
            "row,a,b,c,d,e,f\nfile,14,32,0,zero,,\nend,,,,,,\n",
        ),
        (SHORT, "row,a,b,c,d,e,f\nfile,12,32,0,none,,\nend,,,,,,\n"),
        (LONG, LONG_TEXT),
        (
            TRUE_ZERO,
            "row,a,b,c,d,e,f\nfile,14,32,46477,sum,,\nend,,,,,,\n",
        ),
        (
            "0E 20 00 00 07 00 00 00 2E 46 49 54 DD 63 40 07 00 14 00 00 00 45 83",
            "row,a,b,c,d,e,f\nfile,14,32,0,sum,,\ndef,0,7,little,20,0,\ndata,0,,record,,,\nend,,,,,,\n",
        ),
        (TWO_MESSAGES, TWO_MESSAGES_TEXT),
        (DEVELOPER_FIELD, DEVELOPER_FIELD_TEXT),
        (
            QUOTED,
            "row,a,b,c,d,e,f\nfile,14,32,0,sum,,\ndef,0,0,little,0,1,\nfdef,8,5,7,,,\ndata,0,,file_id,,,\n\
             field,product_name,\"a,\"\"b\",,,,\nend,,,,,,\n",
        ),
    ] {
        let bytes = bytes_of(&rt, rt.alloc(), input);
        both_ways(&rt, rt.alloc(), bytes.as_slice(), text);
    }
}

#[test]
fn a_chain_both_ways(rt: HostRuntime) {
    let bytes = chain_of(&rt, rt.alloc(), &[TWO_MESSAGES, DEVELOPER_FIELD]);
    let (_, second) = DEVELOPER_FIELD_TEXT
        .split_once("row,a,b,c,d,e,f\n")
        .expect(&rt, "a first line");
    let text = format!(in rt.alloc(); "{TWO_MESSAGES_TEXT}{second}").expect(&rt, "memory");
    both_ways(&rt, rt.alloc(), bytes.as_slice(), text.as_str());
}

#[test]
fn rows_before_a_refusal(rt: HostRuntime) {
    for (input, output, faults) in [
        ("", "row,a,b,c,d,e,f\n", "truncated at byte 0\n"),
        ("0D", "row,a,b,c,d,e,f\n", "refused at byte 0: HeaderSize\n"),
        (
            "0E 20 00 00 24 00 00 00 2E 46 49 54 9F 6E 40 00 00 14 00 02 FD 04 86 03 01 02 00 1F CA 9A",
            "row,a,b,c,d,e,f\nfile,14,32,0,sum,,\ndef,0,0,little,20,2,\nfdef,253,4,134,,,\nfdef,3,1,2,,,\n",
            "truncated at byte 30\n",
        ),
        // The definition of the first file isn't one of the second.
        (
            "0E 20 00 00 07 00 00 00 2E 46 49 54 DD 63 40 00 00 14 00 00 00 44 34 \
             0E 20 00 00 07 00 00 00 2E 46 49 54 DD 63 00",
            "row,a,b,c,d,e,f\nfile,14,32,0,sum,,\ndef,0,0,little,20,0,\ndata,0,,record,,,\nend,,,,,,\n\
             file,14,32,0,sum,,\n",
            "refused at byte 37: UndefinedLocal\n",
        ),
    ] {
        expect_of(&rt, rt.alloc(), Command::ToCsv, input, output, faults, 1);
    }
}

#[test]
fn tables(rt: HostRuntime) {
    for (inputs, rows, faults, status) in [
        ([EMPTY, ""], "", "", 0),
        ([ONE_BYTE_MESSAGE, ""], "1,,,,,,,,,,\n", "", 0),
        ([EMPTY, ONE_BYTE_MESSAGE], "2,,,,,,,,,,\n", "", 0),
        // A developer field has no column.
        (
            [DEVELOPER_FIELD, ""],
            "1,,,,,,,,,,\n1,,,,,,,,,,\n1,,,,,,,,,,\n",
            "",
            0,
        ),
        (
            [ONE_BYTE_MESSAGE, "0D"],
            "1,,,,,,,,,,\n",
            "refused at byte 23: HeaderSize\n",
            1,
        ),
    ] {
        let bytes = chain_of(&rt, rt.alloc(), &inputs);
        let mut source = bytes.as_slice();
        let answer = answer_of(rt.alloc(), Command::Table, &mut source, 2048);
        let output = format!(in rt.alloc(); "{TABLE_HEAD}{rows}").expect(&rt, "memory");
        expect(&rt, &answer, rows, output.as_bytes(), faults, status);
    }
}
