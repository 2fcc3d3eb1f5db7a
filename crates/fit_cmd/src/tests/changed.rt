//! Files of which one byte is changed.

use crate::tests::asserts::equal_at;
use crate::tests::{
    DEVELOPER_FIELD, EMPTY, EMPTY_WITH_ZEROS, LONG, ONE_BYTE_MESSAGE, SHORT, TWO_MESSAGES,
    bytes_of, chain_of,
};
use fit_decode::{Fault, read_chain};
use fit_encode::{CutSink, write_chain};
use std::alloc::Global;
use std::process::Abort;

/// Whether bytes of which the one at a place is changed are read as what has these bytes, end too soon at their end, or are
/// refused no sooner than there.
fn is_told(alloc: Global, bytes: &[u8], place: usize) -> bool {
    let mut source = bytes;
    match read_chain(alloc, &mut source) {
        Ok(files) => {
            let mut sink = CutSink::<128>::new(128);
            write_chain(alloc, &mut sink, files.as_slice()).is_ok() && sink.bytes() == bytes
        }
        Err(Fault::Truncated { place: end }) => end == bytes.len() as u64,
        Err(Fault::Refused { place: refused, .. }) => refused >= place as u64,
        Err(_) => false,
    }
}

/// Changes each byte to each other value.
fn change_each(rt: &impl Abort, alloc: Global, bytes: &mut [u8]) {
    for place in 0..bytes.len() {
        let old = bytes[place];
        for other in 1..=255u8 {
            bytes[place] = old ^ other;
            equal_at(rt, &is_told(alloc, bytes, place), &true, &(other, place));
        }
        bytes[place] = old;
    }
}

#[test]
fn one_byte(rt: HostRuntime) {
    for input in [
        EMPTY,
        EMPTY_WITH_ZEROS,
        SHORT,
        LONG,
        ONE_BYTE_MESSAGE,
        TWO_MESSAGES,
        DEVELOPER_FIELD,
    ] {
        let mut bytes = bytes_of(&rt, rt.alloc(), input);
        change_each(&rt, rt.alloc(), bytes.as_mut_slice());
    }
}

#[test]
fn one_byte_of_a_chain(rt: HostRuntime) {
    let mut bytes = chain_of(&rt, rt.alloc(), &[TWO_MESSAGES, DEVELOPER_FIELD]);
    change_each(&rt, rt.alloc(), bytes.as_mut_slice());
}
