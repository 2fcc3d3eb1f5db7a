//! Headers and refusals that are known from outside.
use crate::asserts::{equal, holds_at};
use arrayvec::ArrayVec;
use fit_frame::{HeadFault, HeadReader, Header, HeaderSum, PROTOCOL_2_0, Reason, head_bytes};

/// A header of protocol version 2.0.
fn header(size: u8, profile: u16, sum: HeaderSum, rest: &[u8]) -> Header {
    let mut bytes = ArrayVec::new();
    for byte in rest {
        if !bytes.is_full() {
            bytes.push(*byte);
        }
    }
    Header {
        size,
        protocol: 0x20,
        profile,
        sum,
        rest: bytes,
    }
}

/// What a reader returns for the last byte that it takes, and how many it had taken before.
fn last_answer(bytes: &[u8]) -> (usize, Result<Option<(Header, u32)>, Reason>) {
    let mut reader = HeadReader::new();
    for (i, byte) in bytes.iter().enumerate() {
        if reader.done() {
            return (i, Ok(None));
        }
        let answer = reader.put(*byte);
        if i + 1 == bytes.len() || answer.is_err() {
            return (i, answer);
        }
    }
    (0, Ok(None))
}

#[test]
fn headers_both_ways(rt: HostRuntime) {
    let rows = [
        (
            Header::new(PROTOCOL_2_0, 0),
            b"\x0E\x20\0\0\0\0\0\0.FIT\x9C\x85".as_slice(),
        ),
        (
            header(14, 0, HeaderSum::Zero, b""),
            b"\x0E\x20\0\0\0\0\0\0.FIT\0\0",
        ),
        (
            header(12, 0, HeaderSum::Absent, b""),
            b"\x0C\x20\0\0\0\0\0\0.FIT",
        ),
        (
            header(16, 0, HeaderSum::True, b"AB"),
            b"\x10\x20\0\0\0\0\0\0.FIT\xB4\xADAB",
        ),
        (
            header(14, 46477, HeaderSum::True, b""),
            b"\x0E\x20\x8D\xB5\0\0\0\0.FIT\0\0",
        ),
    ];
    for (header, bytes) in rows {
        match head_bytes(&header, 0) {
            Ok(spelled) => equal(&rt, &spelled.as_slice(), &bytes),
            Err(fault) => holds_at(&rt, false, &fault),
        }
        equal(
            &rt,
            &last_answer(bytes),
            &(bytes.len().saturating_sub(1), Ok(Some((header, 0)))),
        );
    }
}

#[test]
fn data_size_is_read(rt: HostRuntime) {
    let bytes = b"\x0E\x20\0\0\x07\0\0\0.FIT\xDD\x63";
    equal(
        &rt,
        &last_answer(bytes),
        &(13, Ok(Some((header(14, 0, HeaderSum::True, b""), 7)))),
    );
}

#[test]
fn refusals(rt: HostRuntime) {
    let rows = [
        (b"\x0D".as_slice(), 0, Reason::HeaderSize),
        (b"\x0B", 0, Reason::HeaderSize),
        (b"\x0E\x30", 1, Reason::Protocol),
        (b"\x0E\x20\0\0\x01\0\0\0", 7, Reason::NoFit),
        (b"\x0E\x20\0\0\x03\0\0\0", 7, Reason::NoFit),
        (b"\x0E\x20\0\0\x05\0\0\0", 7, Reason::NoFit),
        (b"\x0E\x20\0\0\0\0\0\0\x2F", 8, Reason::Signature),
        (b"\x0E\x20\0\0\0\0\0\0.FIt", 11, Reason::Signature),
        (b"\x0E\x20\0\0\0\0\0\0.FIT\x9D", 12, Reason::HeaderSum),
        (b"\x0E\x20\0\0\0\0\0\0.FIT\x9C\0", 13, Reason::HeaderSum),
        (b"\x0E\x20\0\0\0\0\0\0.FIT\0\x85", 13, Reason::HeaderSum),
    ];
    for (bytes, place, reason) in rows {
        equal(&rt, &last_answer(bytes), &(place, Err(reason)));
    }
}

#[test]
fn not_refused(rt: HostRuntime) {
    let rows = [
        b"\x0E\x20\0\0\0\0\0\0".as_slice(),
        b"\x0E\x20\0\0\x06\0\0\0",
        b"\x0E\x20\0\0\x03\0\0\x01",
        b"\x0E\x20\0\0\0\0\0\0.FIT\x9C",
        b"\xFF\x2F",
    ];
    for bytes in rows {
        equal(&rt, &last_answer(bytes), &(bytes.len() - 1, Ok(None)));
    }
}

#[test]
fn a_refusal_stays(rt: HostRuntime) {
    let mut reader = HeadReader::new();
    equal(&rt, &reader.put(0x0D), &Err(Reason::HeaderSize));
    equal(&rt, &reader.put(0x0E), &Err(Reason::HeaderSize));
    equal(&rt, &reader.bytes(), &b"".as_slice());
    equal(&rt, &reader.done(), &false);
}

#[test]
fn headers_without_bytes(rt: HostRuntime) {
    let rows = [
        (header(16, 0, HeaderSum::True, b""), HeadFault::BadHeader),
        (header(14, 0, HeaderSum::True, b"AB"), HeadFault::BadHeader),
        (header(13, 0, HeaderSum::Zero, b""), HeadFault::BadHeader),
        (header(12, 0, HeaderSum::Zero, b""), HeadFault::BadHeader),
        (header(14, 0, HeaderSum::Absent, b""), HeadFault::BadHeader),
        (
            Header {
                protocol: 0x30,
                ..header(14, 46477, HeaderSum::Zero, b"")
            },
            HeadFault::BadHeader,
        ),
        (
            header(14, 46477, HeaderSum::Zero, b""),
            HeadFault::ZeroIsSum,
        ),
    ];
    for (header, fault) in rows {
        assert!(rt; head_bytes(&header, 0) == Err(fault));
    }
}

#[test]
fn names(rt: HostRuntime) {
    equal(&rt, &Reason::FileSum.name(), &"FileSum");
    equal(&rt, &Reason::HeaderSum.name(), &"HeaderSum");
}
