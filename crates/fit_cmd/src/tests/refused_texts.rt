//! Texts of which no file is made.

use crate::tests::{DEVELOPER_FIELD_TEXT, TWO_MESSAGES_TEXT, answer_of, expect};
use fit_run::Command;
use std::alloc::Global;
use std::process::Abort;

/// Asserts why a text is refused, and that nothing is written.
fn refuse(rt: &impl Abort, alloc: Global, text: &str, line: &str) {
    let mut source = text.as_bytes();
    let answer = answer_of(alloc, Command::FromCsv, &mut source, 2048);
    expect(rt, &answer, text, b"", line, 1);
}

#[test]
fn rows(rt: HostRuntime) {
    for (text, line) in [
        ("", "header row refused\n"),
        ("row,a\n", "header row refused\n"),
        ("file,14,32,0,sum,,\nend,,,,,,\n", "header row refused\n"),
        ("row,a,b,c,d,e,f\n", "row 2 refused\n"),
        ("row,a,b,c,d,e,f\nend,,,,,,\n", "row 2 refused\n"),
        ("row,a,b,c,d,e,f\nfile,14,32,0,sum,,\n", "row 3 refused\n"),
        (
            "row,a,b,c,d,e,f\nfile,14,32,0,sum,,\nend,,,,,\n",
            "row 3 refused\n",
        ),
        (
            "row,a,b,c,d,e,f\nfile,14,32,0,sum,,\nend,,,,,,\nend,,,,,,\n",
            "row 4 refused\n",
        ),
    ] {
        refuse(&rt, rt.alloc(), text, line);
    }
    let parts = TWO_MESSAGES_TEXT.split_once("end,");
    let (front, _) = parts.expect(&rt, "a last row");
    refuse(&rt, rt.alloc(), front, "row 15 refused\n");
}

#[test]
fn header_cells(rt: HostRuntime) {
    for (file, line) in [
        ("file,13,32,0,sum,,", "row 2 column 2 refused\n"),
        ("file,256,32,0,sum,,", "row 2 column 2 refused\n"),
        ("file,14,48,0,sum,,", "row 2 column 3 refused\n"),
        ("file,14,32,65536,sum,,", "row 2 column 4 refused\n"),
        ("file,14,32,0,none,,", "row 2 column 5 refused\n"),
        ("file,12,32,0,sum,,", "row 2 column 5 refused\n"),
        // The bytes after the fourteenth are as many as the length of the header says.
        ("file,16,32,0,sum,,", "row 2 column 6 refused\n"),
        ("file,16,32,0,sum,0x41,", "row 2 column 6 refused\n"),
        ("file,14,32,0,sum,0x4142,", "row 2 column 6 refused\n"),
        ("file,14,32,0,sum,,0", "row 2 column 7 refused\n"),
        // The sum of this header is 0.
        ("file,14,32,46477,zero,,", "encode fault: ZeroIsSum\n"),
    ] {
        let text = format!(in rt.alloc(); "row,a,b,c,d,e,f\n{file}\nend,,,,,,\n");
        let text = text.expect(&rt, "memory");
        refuse(&rt, rt.alloc(), text.as_str(), line);
    }
}

/// Asserts why a text with its first part of some form replaced is refused.
fn refuse_with(rt: &impl Abort, alloc: Global, text: &str, old: &str, new: &str, line: &str) {
    let (front, back) = text.split_once(old).expect(rt, "such a part");
    let text = format!(in alloc; "{front}{new}{back}").expect(rt, "memory");
    refuse(rt, alloc, text.as_str(), line);
}

#[test]
fn record_cells(rt: HostRuntime) {
    for (old, new, line) in [
        ("def,0,0,", "def,16,0,", "row 3 column 2 refused\n"),
        (",little,", ",middle,", "row 3 column 4 refused\n"),
        (",20,2,\n", ",65536,2,\n", "row 3 column 5 refused\n"),
        ("fdef,253,", "fdef,0253,", "row 4 column 2 refused\n"),
        ("data,0,", "data,3,", "row 6 column 2 refused\n"),
        (",,record,", ",,lap,", "row 6 column 4 refused\n"),
        (",120,", ",007,", "row 8 column 3 refused\n"),
        (",120,", ",256,", "row 8 column 3 refused\n"),
        (",120,bpm", ",120,rpm", "row 8 column 4 refused\n"),
        ("data,1,2,", "data,1,32,", "row 12 column 3 refused\n"),
        ("47:14Z", "47:15Z", "row 12 column 5 refused\n"),
        ("altitude", "altitud", "row 13 column 2 refused\n"),
        (",0.0,", ",0.3,", "row 13 column 3 refused\n"),
        (",0x640010,", ",0x64001,", "row 14 column 3 refused\n"),
    ] {
        refuse_with(&rt, rt.alloc(), TWO_MESSAGES_TEXT, old, new, line);
    }
    for (old, new, line) in [
        ("\nddef,", "\nfdef,", "row 9 refused\n"),
        // The field has no name before its description, and has one after it.
        ("dev_0_5", "mo", "row 11 column 2 refused\n"),
        ("dev,mo,", "dev,dev_0_5,", "row 22 column 2 refused\n"),
        // Text that stands for itself isn't written in hexadecimal.
        (",mo,", ",0x6D6F00,", "row 16 column 3 refused\n"),
    ] {
        refuse_with(&rt, rt.alloc(), DEVELOPER_FIELD_TEXT, old, new, line);
    }
}
