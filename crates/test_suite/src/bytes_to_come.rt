//! A file of a definition message and a data message, both without fields.
use crate::asserts::equal;
use crate::fed::{feed, feed_each, told_by};
use fit_decode::{Decoder, Fault};
use fit_frame::Reason;
use test_known::ONE_BYTE_MESSAGE as FILE;

#[test]
fn in_one_piece(rt: HostRuntime) {
    let mut decoder = Decoder::new(rt.alloc());
    let mut piece = FILE.as_slice();
    for (used, event) in [
        (14, (b'h', 7)),
        (6, (b'd', 0)),
        (1, (b'v', 0)),
        (2, (b'e', 0)),
        (0, (b'.', 0)),
    ] {
        equal(&rt, &told_by(&rt, &mut decoder, piece), &(used, event));
        piece = piece.get(used..).unwrap_or_default();
    }
    equal(&rt, &decoder.finish(), &Ok(()));
}

#[test]
fn byte_by_byte(rt: HostRuntime) {
    let mut decoder = Decoder::new(rt.alloc());
    let told = *b".............h.....dv.e";
    for i in 0..23 {
        equal(
            &rt,
            &decoder.finish(),
            &Err(Fault::Truncated { place: i as u64 }),
        );
        let size = if i == 13 { 7 } else { 0 };
        let found = told_by(&rt, &mut decoder, &FILE[i..i + 1]);
        equal(&rt, &found, &(1, (told[i], size)));
    }
    equal(&rt, &decoder.finish(), &Ok(()));
}

#[test]
fn bytes_that_are_missing(rt: HostRuntime) {
    let mut decoder = Decoder::new(rt.alloc());
    let need = [
        14, 15, 14, 13, 12, 11, 10, 9, 15, 14, 13, 12, 11, 10, 9, 8, 7, 6, 5, 4, 3, 2, 1,
    ];
    for i in 0..23 {
        equal(&rt, &decoder.need(), &need[i]);
        told_by(&rt, &mut decoder, &FILE[i..i + 1]);
    }
    equal(&rt, &decoder.need(), &14);
}

#[test]
fn a_refusal_lasts(rt: HostRuntime) {
    let mut decoder = Decoder::new(rt.alloc());
    feed_each(&rt, &mut decoder, &FILE);
    let refused = Fault::Refused {
        place: 23,
        reason: Reason::HeaderSize,
    };
    for piece in [b"\x0D\x20".as_slice(), b"\x0E"] {
        equal(&rt, &feed(&mut decoder, piece), &Err(refused));
    }
    equal(&rt, &decoder.finish(), &Err(refused));
    equal(&rt, &decoder.need(), &0);
}
