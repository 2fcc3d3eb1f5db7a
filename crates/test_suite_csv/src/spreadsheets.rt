//! Long texts as spreadsheets write them.

use crate::big::{put_bytes, put_text};
use std::alloc::Global;
use std::process::Abort;
use test_known::longest;

const FRONT: &[u8] =
    b"row,a,b,c,d,e,f\nfile,14,32,0,sum,,\ndef,0,0,little,20,2,\nfdef,253,4,134,,,\nfdef,3,1,2,,,\n";

const MESSAGE: &[u8] =
    b"data,0,,record,,,\nfield,timestamp,1000000031,s,,,\nfield,heart_rate,120,bpm,,,\n";

/// A text of many short messages.
fn many_messages(rt: &impl Abort, alloc: Global) -> Vec<u8> {
    let mut text = Vec::from_slice(alloc, FRONT).expect(rt, "memory");
    for _ in 0..5_000u32 {
        text.extend_from_slice(MESSAGE).expect(rt, "memory");
    }
    text.extend_from_slice(b"end,,,,,,\n").expect(rt, "memory");
    text
}

/// A text with each cell in quotes and CR LF at the ends of lines. No cell of it has a comma, a quote or a line end.
fn respelled(rt: &impl Abort, alloc: Global, text: &[u8]) -> Vec<u8> {
    let mut written = Vec::from_slice(alloc, b"\"").expect(rt, "memory");
    for byte in text {
        let one = [*byte];
        let spelled = match byte {
            b',' => b"\",\"".as_slice(),
            b'\n' => b"\"\r\n\"",
            _ => &one,
        };
        written.extend_from_slice(spelled).expect(rt, "memory");
    }
    written.pop();
    written
}

#[test]
fn long_texts_come_back(rt: HostRuntime) {
    let alloc = rt.alloc();
    let bytes = longest(alloc).expect(&rt, "memory");
    let mut longest_message = Vec::new(alloc);
    put_text(&rt, alloc, bytes.as_slice(), &mut longest_message);
    for text in [longest_message, many_messages(&rt, alloc)] {
        let mut expected = Vec::new(alloc);
        put_bytes(&rt, alloc, text.as_slice(), &mut expected);
        let mut found = Vec::new(alloc);
        let quoted = respelled(&rt, alloc, text.as_slice());
        put_bytes(&rt, alloc, quoted.as_slice(), &mut found);
        assert!(rt; found == expected);
    }
}
