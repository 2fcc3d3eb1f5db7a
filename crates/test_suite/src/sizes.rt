//! What no contract says: how little is kept between the bytes of a file.
use fit_decode::Decoder;
use fit_frame::HeadReader;
use fit_history::History;
use fit_record::{Defined, DevKey, Env, Record};
use fit_step::Position;
use fit_sum::Sum;
use std::collections::BTreeMap;
use std::mem;

/// The bytes of a list itself, without its elements.
const LIST: usize = 24;

/// The bytes of the address of one.
const ADDRESS: usize = 8;

/// A sum is a register of sixteen bits. What was added to it has no bytes.
#[test]
fn no_byte_that_was_added_in_a_sum(rt: HostRuntime) {
    assert!(rt; mem::size_of::<Sum>() <= 16);
    assert!(rt; mem::size_of::<History<u8>>() == 0);
}

/// The bytes of a header, how many they are, and the refusal.
#[test]
fn no_list_in_a_reader_of_headers(rt: HostRuntime) {
    let bytes = mem::size_of::<[u8; 255]>();
    assert!(rt; mem::size_of::<HeadReader>() < bytes + LIST);
}

/// The bytes of a number, at most eight, and how many they are; what the next byte is; how many bytes are to come.
#[test]
fn no_list_in_a_position(rt: HostRuntime) {
    assert!(rt; mem::size_of::<Position>() <= 32);
}

/// The bytes of a decoder beside what is known and the record in progress: 272 for a header, 2 for the sum, 32 for a position, 16 for two
/// counts, and 6 for where in a file it stands. They are a number here, so that no part of it grows unseen.
const BESIDE: usize = 328;

/// Beside what is known and the record in progress, a decoder has no room for the address of a list.
#[test]
fn no_list_in_a_decoder(rt: HostRuntime) {
    let held = mem::size_of::<Env>() + mem::size_of::<Option<Record>>();
    assert!(rt; mem::size_of::<Decoder>() <= held + BESIDE);
}

/// What is known are definitions, lengths of messages and codes of developer fields, and no room is left.
#[test]
fn no_list_beside_what_is_known(rt: HostRuntime) {
    let definitions = mem::size_of::<[Option<Defined>; 16]>();
    let lengths = mem::size_of::<[u32; 16]>();
    let codes = mem::size_of::<BTreeMap<DevKey, u8>>();
    assert!(rt; mem::size_of::<Env>() < definitions + lengths + codes + ADDRESS);
}
